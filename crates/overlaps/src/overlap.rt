//! Two impls of a trait overlap where a reference may be an instance of both.

ghost use Rattle.std.specs.Prelude.{◌≡◌, ◌<◌, ◌⊎◌, ◌||◌, ◌↔◌, [], None, Some, false, true, IfErr, IfOk, IfSome};
ghost use Rattle.ir_trees.specs.Syntax.Trees.{holds, is_alias, none};
ghost use Rattle.ir_trees.specs.Syntax.Words.{IsParamEnv, args_forest, env_forest};
ghost use Rattle.candidate_rounds.specs.Evaluators.Known.{listing, state, sure_of, table_of};
ghost use Rattle.rounds_judge.specs.Equations.Opening.{are_open};
ghost use Rattle.overlaps.specs.Allowed.{allowance_of, allowance_of_ordered};
ghost use Rattle.overlaps.specs.Answered.{BothHold};
ghost use Rattle.overlaps.specs.Apart.{AreOfOneTrait, AreOfOtherTraits, OfDeclared, aside};
ghost use Rattle.overlaps.specs.Asked.{BothStay, ClausesBeforeWereAsked, ClausesWereAsked, OfClause, PairWasAsked, PairWasAskedBefore, StayBefore, WereAsked, WereAskedBefore, WhereMay};
ghost use Rattle.overlaps.specs.Found.{IsFoundAt, IsFoundOfPair, IsFoundWhereEqual, IsNotAllowed, IsOverlap};
ghost use Rattle.overlaps.specs.Instance.{HaveNoAlias, TellsLeak, unless_leaking};
ghost use Rattle.overlaps.specs.Stopping.{IsOverlapStop};
ghost use Rattle.overlaps.specs.Refused.{AreDecided, AreOpen, RefusesOfPair, StaysBesideKnown, StaysBesideSteps};
ghost use Rattle.overlaps.specs.Uncertain.{ImplsAreUncertain, IsUncertain, IsUncertainWhereEqual, PairIsUncertain, WhereUncertain};
ghost use Rattle.candidate_rounds.specs.Table.Efforts.{IsEffort};

use crate::allowance::{Allowance, allowance_of_ordered};
use crate::answered::are_answered;
use crate::clauses::first_refused;
use crate::instance::{CommonInstance, common_instance};
use crate::opening::{Pair, open_both};
use crate::order::in_order;
use crate::plain::make_equal;
use candidate_eval::eval::context::{EvalCtxt, ProbeKind};
use candidate_rounds::rounds::Rounds;
use candidate_rounds::rounds::effort::Effort;
use ir_context::decl::Cx;
use ir_context::decl::make::{Build, Make};
use ir_trees::decl::contents::ImplId;
use ir_trees::ir::heads::Flag;
use ir_trees::ir::kinds::ParamEnv;
use ir_trees::ir::stop::Stop;
use ir_trees::ir::trees::Trees;
use std::alloc::Global;

/// A where clause of one of two impls.
#[derive(Clone, Copy, Debug, PartialEq, Eq)]
pub struct WhereClause {
    /// The impl.
    pub of: ImplId,
    /// Its place among those of the impl, from 0 on.
    pub number: usize,
}

/// Whether two impls overlap.
#[derive(Clone, Copy, Debug, PartialEq, Eq)]
pub enum Overlap {
    /// They are no impls of one trait.
    NoCommonTrait,
    /// Whether they overlap isn't asked, since it is no error.
    Allowed(Allowance),
    /// No reference is an instance of both headers, whatever the aliases in them are.
    DisjointHeaders,
    /// Where the headers are equal, this where clause is refused.
    DisjointClause(WhereClause),
    /// They may, as far as is known, at that reference.
    May(CommonInstance),
}

/// Whether both are impls of one trait.
pub(crate) fn have_common_trait(cx: &Cx, first: ImplId, second: ImplId) -> bool
    ensures other { result ≡ false → AreOfOtherTraits cx.now first second }
    ensures one { result ≡ true → AreOfOneTrait cx.now first second }
{
    let Some(one) = cx.impl_contents(first) else {
        return false;
    };
    let Some(other) = cx.impl_contents(second) else {
        return false;
    };
    one.trait_ref.def_id == other.trait_ref.def_id
}

/// Whether an alias stands in one of the headers.
pub(crate) fn have_aliases(cx: &Cx, pair: &Pair) -> bool
    requires { AreOpen cx.now.trees pair.now }
    ensures first { result ≡ false → holds is_alias (args_forest cx.now.trees pair.now.first.header) ≡ false }
    ensures second { result ≡ false → holds is_alias (args_forest cx.now.trees pair.now.second.header) ≡ false }
    ensures some { let ts = cx.now.trees in result ≡ true → holds is_alias (args_forest ts pair.now.first.header) || holds is_alias (args_forest ts pair.now.second.header) ≡ true }
{
    cx.has(pair.first.header, Flag::Alias) || cx.has(pair.second.header, Flag::Alias)
}

/// Whether an equation of the headers decides nothing: an alias stands in one of them, and one that isn't listed would be itself alone.
pub(crate) fn are_undecided(rounds: &Rounds, pair: &Pair) -> bool
    requires { AreOpen rounds.now.context.trees pair.now }
    ensures decided { result ≡ false → AreDecided rounds.now pair.now }
    ensures rigid { result ≡ true → are_open (listing rounds.now) (state rounds.now) ≡ false }
    ensures some { let ts = rounds.now.context.trees in result ≡ true → holds is_alias (args_forest ts pair.now.first.header) || holds is_alias (args_forest ts pair.now.second.header) ≡ true }
{
    if rounds.opens_aliases() {
        return false;
    }
    have_aliases(rounds.cx(), pair)
}

/// The first where clause of the two impls that is refused by that effort, those of the first impl before those of the second.
pub(crate) fn refused_clause(
    alloc: Global,
    rounds: &mut Rounds,
    env: ParamEnv,
    pair: &Pair,
    effort: Effort,
) -> Result<Option<WhereClause>, Stop>
    requires some { IsEffort effort }
    requires env { IsParamEnv rounds.old.context.trees env }
    requires empty { env_forest rounds.old.context.trees env ≡ none }
    requires pending { (state rounds.old).pending ≡ [] }
    requires pair { AreOpen rounds.old.context.trees pair.now }
    ensures stays { StaysBesideSteps rounds.old rounds.new }
    ensures refused { IfOk result (λ o. IfSome o (RefusesOfPair rounds.old rounds.new pair.now)) }
    ensures asked { let r = rounds.old in IfOk result (λ o. o ≡ None → BothStay r (state r) effort pair.now (table_of r) (table_of rounds.new)) }
    ensures before { let r = rounds.old in IfOk result (λ o. IfSome o (StayBefore r (state r) effort pair.now (table_of r))) }
    ensures cause { IfErr result (IsOverlapStop rounds.old rounds.new) }
{
    let first = &pair.first;
    let clauses = first.wheres.as_slice();
    if let Some(number) = first_refused(alloc, rounds, env, clauses, first.locals, effort)? {
        let of = first.of;
        return Ok(Some(WhereClause { of, number }));
    }
    let second = &pair.second;
    let clauses = second.wheres.as_slice();
    if let Some(number) = first_refused(alloc, rounds, env, clauses, second.locals, effort)? {
        let of = second.of;
        return Ok(Some(WhereClause { of, number }));
    }
    Ok(None)
}

/// Whether both impls are known to hold where their headers are equal: no alias stands in these, and each where clause is answered.
fn are_certain(alloc: Global, rounds: &mut Rounds, env: ParamEnv, pair: &Pair) -> Result<bool, Stop>
    requires env { IsParamEnv rounds.old.context.trees env }
    requires empty { env_forest rounds.old.context.trees env ≡ none }
    requires pair { AreOpen rounds.old.context.trees pair.now }
    ensures stays { StaysBesideSteps rounds.old rounds.new }
    ensures table { table_of rounds.new ≡ table_of rounds.old }
    ensures sure { sure_of rounds.new ≡ sure_of rounds.old }
    ensures hold { let r = rounds.old in IfOk result (λ b. b ≡ true → BothHold r.context.trees (sure_of r) (state r) pair.now) }
    ensures no_alias { let f = args_forest rounds.old.context.trees in IfOk result (λ b. b ≡ true → HaveNoAlias (f pair.now.first.header) (f pair.now.second.header)) }
    ensures uncertain { let r = rounds.old in IfOk result (λ b. b ≡ false → IsUncertainWhereEqual r.context (sure_of r) (state r) pair.now) }
    ensures cause { IfErr result (IsOverlapStop rounds.old rounds.new) }
{
    if have_aliases(rounds.cx(), pair) {
        return Ok(false);
    }
    are_answered(alloc, rounds, env, pair)
}

/// Whether two open impls overlap, whose headers are equal.
fn overlap_where_equal(
    alloc: Global,
    rounds: &mut Rounds,
    env: ParamEnv,
    pair: &Pair,
    effort: Effort,
) -> Result<Overlap, Stop>
    requires some { IsEffort effort }
    requires env { IsParamEnv rounds.old.context.trees env }
    requires empty { env_forest rounds.old.context.trees env ≡ none }
    requires pending { (state rounds.old).pending ≡ [] }
    requires pair { AreOpen rounds.old.context.trees pair.now }
    ensures stays { StaysBesideSteps rounds.old rounds.new }
    ensures is { IfOk result (IsFoundWhereEqual rounds.old rounds.new pair.now) }
    ensures asked { let r = rounds.old in IfOk result (WhereMay (BothStay r (state r) effort pair.now (table_of r) (table_of rounds.new))) }
    ensures before { let r = rounds.old in IfOk result (OfClause (StayBefore r (state r) effort pair.now (table_of r))) }
    ensures uncertain { let r = rounds.old in IfOk result (WhereUncertain (IsUncertainWhereEqual r.context (sure_of rounds.new) (state r) pair.now)) }
    ensures cause { IfErr result (IsOverlapStop rounds.old rounds.new) }
{
    if let Some(clause) = refused_clause(alloc, rounds, env, pair, effort)? {
        return Ok(Overlap::DisjointClause(clause));
    }
    let is_certain = are_certain(alloc, rounds, env, pair)?;
    let instance = common_instance(alloc, rounds, &pair.first, is_certain)?;
    Ok(Overlap::May(instance))
}

/// The answer, told whether the headers' equation leaks a region: then it isn't certain.
fn unless_leaking(answer: Overlap, leaks: bool) -> Overlap
    ensures { result ≡ unless_leaking leaks answer }
{
    match answer {
        Overlap::May(instance) => Overlap::May(CommonInstance {
            trait_ref: instance.trait_ref,
            is_certain: instance.is_certain && !leaks,
            leaks,
        }),
        answer => answer,
    }
}

/// Whether two open impls overlap, whose headers are equal, told whether their equation leaks a region: then nothing is certain.
fn overlap_unless_leaking(
    alloc: Global,
    rounds: &mut Rounds,
    env: ParamEnv,
    pair: &Pair,
    effort: Effort,
    leaks: bool,
) -> Result<Overlap, Stop>
    requires some { IsEffort effort }
    requires env { IsParamEnv rounds.old.context.trees env }
    requires empty { env_forest rounds.old.context.trees env ≡ none }
    requires pending { (state rounds.old).pending ≡ [] }
    requires pair { AreOpen rounds.old.context.trees pair.now }
    ensures stays { StaysBesideSteps rounds.old rounds.new }
    ensures is { IfOk result (λ o. IsFoundWhereEqual rounds.old rounds.new pair.now o × TellsLeak leaks o) }
    ensures asked { let r = rounds.old in IfOk result (WhereMay (BothStay r (state r) effort pair.now (table_of r) (table_of rounds.new))) }
    ensures before { let r = rounds.old in IfOk result (OfClause (StayBefore r (state r) effort pair.now (table_of r))) }
    ensures uncertain { let r = rounds.old in IfOk result (WhereUncertain ((leaks ≡ true) ⊎ IsUncertainWhereEqual r.context (sure_of rounds.new) (state r) pair.now)) }
    ensures cause { IfErr result (IsOverlapStop rounds.old rounds.new) }
{
    let answer = overlap_where_equal(alloc, rounds, env, pair, effort)?;
    Ok(unless_leaking(answer, leaks))
}

/// Whether two open impls overlap, whose headers are made equal. What that leaves pending is set aside then.
fn overlap_of_pair(
    alloc: Global,
    rounds: &mut Rounds,
    pair: &Pair,
    effort: Effort,
) -> Result<Overlap, Stop>
    requires some { IsEffort effort }
    requires pending { (state rounds.old).pending ≡ [] }
    requires pair { AreOpen rounds.old.context.trees pair.now }
    ensures stays { StaysBesideKnown rounds.old rounds.new }
    ensures is { IfOk result (IsFoundOfPair rounds.old rounds.new pair.now) }
    ensures asked { IfOk result (WhereMay (PairWasAsked rounds.old effort pair.now (table_of rounds.new))) }
    ensures before { IfOk result (OfClause (PairWasAskedBefore rounds.old effort pair.now)) }
    ensures uncertain { IfOk result (WhereUncertain (PairIsUncertain rounds.old (sure_of rounds.new) pair.now)) }
    ensures cause { IfErr result (IsOverlapStop rounds.old rounds.new) }
{
    if are_undecided(rounds, pair) {
        let instance = common_instance(alloc, rounds, &pair.first, false)?;
        return Ok(Overlap::May(instance));
    }
    let above = rounds.newest_universe();
    let env = rounds.mk_param_env(&[])?;
    if !make_equal(rounds, env, pair.first.header, pair.second.header)? {
        return Ok(Overlap::DisjointHeaders);
    }
    let leaks = rounds.leaks_above(alloc, above)?;
    let aside = rounds.begin_probe(ProbeKind::SetAside)?;
    let answer = overlap_unless_leaking(alloc, rounds, env, pair, effort, leaks);
    rounds.end_probe(aside);
    answer
}

/// Whether the two impls overlap, where what is found to be known stays known.
fn overlap_here(
    alloc: Global,
    rounds: &mut Rounds,
    first: ImplId,
    second: ImplId,
    effort: Effort,
) -> Result<Overlap, Stop>
    requires some { IsEffort effort }
    requires pending { (state rounds.old).pending ≡ [] }
    requires one { AreOfOneTrait rounds.old.context first second }
    ensures stays { StaysBesideKnown rounds.old rounds.new }
    ensures is { IfOk result (IsFoundAt rounds.old (state rounds.old) rounds.new first second) }
    ensures decided { IfOk result IsNotAllowed }
    ensures asked { let r = rounds.old in IfOk result (WhereMay (OfDeclared r.context first second (WereAsked r (state r) effort (table_of rounds.new)))) }
    ensures before { let r = rounds.old in IfOk result (OfClause (λ w. OfDeclared r.context first second (WereAskedBefore r (state r) effort first second w))) }
    ensures uncertain { let r = rounds.old in IfOk result (WhereUncertain (OfDeclared r.context first second (ImplsAreUncertain r (state r) (sure_of rounds.new)))) }
    ensures cause { IfErr result (IsOverlapStop rounds.old rounds.new) }
{
    rounds.cx().recall_well_formed_table();
    rounds.recall_given();
    let Some(pair) = open_both(alloc, rounds, first, second)? else {
        return Ok(Overlap::NoCommonTrait);
    };
    overlap_of_pair(alloc, rounds, &pair, effort)
}

/// Whether the two impls overlap where nothing is pending, in a probe that is set aside, so that all stays but the table.
fn overlap_aside(
    alloc: Global,
    rounds: &mut Rounds,
    first: ImplId,
    second: ImplId,
    effort: Effort,
) -> Result<Overlap, Stop>
    requires some { IsEffort effort }
    ensures stays { StaysBesideSteps rounds.old rounds.new }
    ensures is { IfOk result (IsFoundAt rounds.old (aside (state rounds.old)) rounds.new first second) }
    ensures asked { let r = rounds.old in IfOk result (WhereMay (OfDeclared r.context first second (WereAsked r (aside (state r)) effort (table_of rounds.new)))) }
    ensures before { let r = rounds.old in IfOk result (OfClause (λ w. OfDeclared r.context first second (WereAskedBefore r (aside (state r)) effort first second w))) }
    ensures uncertain { let r = rounds.old in IfOk result (WhereUncertain (OfDeclared r.context first second (ImplsAreUncertain r (aside (state r)) (sure_of rounds.new)))) }
    ensures decided { IfOk result IsNotAllowed }
    ensures cause { IfErr result (IsOverlapStop rounds.old rounds.new) }
{
    if !have_common_trait(rounds.cx(), first, second) {
        return Ok(Overlap::NoCommonTrait);
    }
    let probe = rounds.begin_probe(ProbeKind::SetAside)?;
    let answer = overlap_here(alloc, rounds, first, second, effort);
    rounds.end_probe(probe);
    answer
}

/// Whether the two impls overlap, unless what they declare allows it.
fn overlap_of_ordered(
    alloc: Global,
    rounds: &mut Rounds,
    first: ImplId,
    second: ImplId,
    effort: Effort,
) -> Result<Overlap, Stop>
    requires some { IsEffort effort }
    ensures stays { StaysBesideSteps rounds.old rounds.new }
    ensures is { IfOk result (IsFoundAt rounds.old (aside (state rounds.old)) rounds.new first second) }
    ensures asked { let r = rounds.old in IfOk result (WhereMay (OfDeclared r.context first second (WereAsked r (aside (state r)) effort (table_of rounds.new)))) }
    ensures before { let r = rounds.old in IfOk result (OfClause (λ w. OfDeclared r.context first second (WereAskedBefore r (aside (state r)) effort first second w))) }
    ensures uncertain { let r = rounds.old in IfOk result (WhereUncertain (OfDeclared r.context first second (ImplsAreUncertain r (aside (state r)) (sure_of rounds.new)))) }
    ensures allowed { (w : Allowance) → allowance_of_ordered rounds.old.context first second ≡ Some w → result ≡ Ok (Overlap.Allowed w) }
    ensures cause { IfErr result (IsOverlapStop rounds.old rounds.new) }
{
    if let Some(reason) = allowance_of_ordered(rounds.cx(), first, second) {
        return Ok(Overlap::Allowed(reason));
    }
    overlap_aside(alloc, rounds, first, second, effort)
}

/// Whether two impls of a trait may overlap: a reference may be an instance of both.
///
/// It is the same whichever of the two is given first: all is done with them in the order of their numbers. With fresh variables for the
/// parameters of both, their headers are made equal; and then each where clause that says something of a trait, of the impl of the lower number
/// and then of the other, is run by that effort and computed, with all values put in. `NoCommonTrait` comes where the numbers aren't those of
/// two impls of one trait, `Allowed` where `allowance_of` has a reason, `DisjointHeaders` where the headers can't be made equal, and
/// `DisjointClause` of the first clause that is refused. Else it is `May`, with what is an instance of both headers, unless an alias stands in
/// one, and whether it is certain that both impls hold of it.
///
/// Where the evaluator opens aliases (`Rounds::with_open_aliases`), one that isn't listed may be any type: headers in which one stands are
/// disjoint if they are so whatever it is. That it and what stands in its place are one, which their equation leaves pending, is set aside.
///
/// What isn't known decides nothing: headers in which an alias stands, where aliases aren't open, clauses that have one once the headers are
/// equal, or a variable that their binder binds, and any clause where goals aren't asked for in coherence: there each is run, and a Yes counts.
/// Neither does a clause whose trait may lead to an auto trait with an impl for some types of a head alone that bars no others, as `Send` for
/// `Foo<u8>` without `by_head`, but for a refusal of a goal without variables: of other goals an instance may have another answer, and where
/// one holds here rustc may refuse it. Of the goals that a clause leads to the evaluator may refuse some by an alias that it doesn't normalise
/// and that isn't open, be it in a goal or in an impl's header: then a clause may be named, and the two overlap by the alias's type. Of impls
/// with an alias in their header, and of `default` ones, the contract says nothing.
///
/// Where it is `May`, each where clause of both was asked at what the headers' equation leaves, one after the other, and stays for a reason that
/// the contract has: it says nothing of a trait; in coherence nothing is decided by its goal; in another mode the goal was run, if it stands;
/// or the goal was run by that effort, and then had an answer, or was refused where a variable stands in it and it may lead to an auto
/// trait with an impl that bars no head, or to unsizing. No clause is asked where the headers' equation decides nothing. Where it is
/// `DisjointClause`, each clause before that one was asked, and stays in the same way. Where it is uncertain, an alias stands in a header, a
/// region leaks, or the contract names a clause and why the table doesn't make it certain.
///
/// A region leaks where the headers are equal if a placeholder, which stands for a region that a binder of them binds, stands in the value of
/// a variable that can't name it, or has to outlive `'static`, another placeholder or a variable of an older universe. Nothing is certain then.
///
/// All that is known, what is pending and the open probes stay, whatever is answered; the table has what the rounds have found. The stops
/// are those of growing a list, of making nodes and of the evaluator, and those of `Rounds::run` and `compute_trait_goal`.
pub fn impls_overlap(
    alloc: Global,
    rounds: &mut Rounds,
    first: ImplId,
    second: ImplId,
    effort: Effort,
) -> Result<Overlap, Stop>
    requires some { IsEffort effort }
    ensures stays { StaysBesideSteps rounds.old rounds.new }
    ensures is { IfOk result (IsOverlap rounds.old rounds.new first second) }
    ensures asked { IfOk result (WhereMay (ClausesWereAsked rounds.old effort (table_of rounds.new) first second)) }
    ensures before { IfOk result (OfClause (ClausesBeforeWereAsked rounds.old effort first second)) }
    ensures uncertain { IfOk result (WhereUncertain (IsUncertain rounds.old (sure_of rounds.new) first second)) }
    ensures allowed { (w : Allowance) → allowance_of rounds.old.context first second ≡ Some w → result ≡ Ok (Overlap.Allowed w) }
    ensures cause { IfErr result (IsOverlapStop rounds.old rounds.new) }
{
    let pair = in_order(first, second);
    overlap_of_ordered(alloc, rounds, pair.0, pair.1, effort)
}

/// Whether the two impls overlap, whatever the two declare: that one is a reservation, or said to specialise the other, isn't looked at, and `Allowed` is no
/// answer.
pub fn impls_overlap_anyway(
    alloc: Global,
    rounds: &mut Rounds,
    first: ImplId,
    second: ImplId,
    effort: Effort,
) -> Result<Overlap, Stop>
    requires some { IsEffort effort }
    ensures stays { StaysBesideSteps rounds.old rounds.new }
    ensures is { IfOk result (IsOverlap rounds.old rounds.new first second) }
    ensures asked { IfOk result (WhereMay (ClausesWereAsked rounds.old effort (table_of rounds.new) first second)) }
    ensures before { IfOk result (OfClause (ClausesBeforeWereAsked rounds.old effort first second)) }
    ensures uncertain { IfOk result (WhereUncertain (IsUncertain rounds.old (sure_of rounds.new) first second)) }
    ensures decided { IfOk result IsNotAllowed }
    ensures cause { IfErr result (IsOverlapStop rounds.old rounds.new) }
{
    let pair = in_order(first, second);
    overlap_aside(alloc, rounds, pair.0, pair.1, effort)
}
