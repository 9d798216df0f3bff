//! Why it isn't known of two impls that both hold where their headers are equal: the where clauses that are open there, each with a cause.

ghost use Rattle.std.specs.Prelude.{◌≡◌, ◌<◌, [], All, None, false, true, length, IfErr, IfOk, IfSome, OnOk};
ghost use Rattle.ir_trees.specs.Declarations.References.{ArgumentsFit, reference_of};
ghost use Rattle.ir_trees.specs.Syntax.Trees.{holds, is_alias, none};
ghost use Rattle.ir_trees.specs.Syntax.Words.{IsArgs, IsClause, IsParamEnv, args_forest, clause_tree, env_forest};
ghost use Rattle.candidate_eval.specs.Interface.Knowing.{is_evaluator_stop};
ghost use Rattle.candidate_eval.specs.Knowability.Answers.{knowledge_of};
ghost use Rattle.candidate_eval.specs.Knowability.Normalizer.{IsTold};
ghost use Rattle.candidate_eval.specs.Outcomes.ResponseTrees.{IsResponse, response_of};
ghost use Rattle.candidate_eval.specs.Outcomes.Responses as responses;
ghost use Rattle.candidate_assembly.specs.Goals.TraitGoals.{trait_goal};
ghost use Rattle.candidate_rounds.specs.Evaluators.Interface.{fixed, judge_of};
ghost use Rattle.candidate_rounds.specs.Evaluators.Known.{state, table_of};
ghost use Rattle.rounds_judge.specs.Table.GoalTable.{verdict_in};
ghost use Rattle.rounds_judge.specs.Table.Keys.{key_at};
ghost use Rattle.overlaps.specs.Answered.{Holds, IsPlainYes};
ghost use Rattle.overlaps.specs.Apart.{aside};
ghost use Rattle.overlaps.specs.Reasons.{AddsIfOpen, HasOpenClauses, HasOpenClausesAt, IsAskedAt, IsCause, IsCauseOfGoal, IsCauseOfMaybe, IsCauseOfYes, ListsAll, ListsOfPair, ListsWhereEqual, cause_of_unasked, conflict_at, conflict_known, here_at, open_impl};
ghost use Rattle.overlaps.specs.Refused.{AreOpen, IsOpen, StaysBesideKnown, StaysBesideSteps};
ghost use Rattle.overlaps.specs.Stopping.{IsOverlapStop};
ghost use Rattle.candidate_rounds.specs.Table.Efforts.{IsEffort};

use crate::answered::is_outlives;
use crate::auto::may_rest_on_part;
use crate::negation::with_values;
use crate::opening::{Opened, Pair, open_both};
use crate::order::in_order;
use crate::overlap::{WhereClause, are_undecided, have_common_trait, refused_clause};
use crate::plain::{is_in_coherence, make_equal};
use candidate_eval::coherence::{Conflict, OrphanStop};
use candidate_eval::eval::clauses::predicate_in;
use candidate_eval::eval::context::{EvalCtxt, ProbeKind};
use candidate_eval::eval::knowing::is_knowable;
use candidate_eval::eval::response::{CanonicalResponse, has_only_region_constraints};
use candidate_rounds::rounds::Rounds;
use candidate_rounds::rounds::effort::Effort;
use candidate_rounds::rounds::goals::Verdict;
use ir_context::decl::Cx;
use ir_context::decl::make::{Build, Make};
use ir_trees::decl::contents::ImplId;
use ir_trees::ir::heads::Flag;
use ir_trees::ir::kinds::{Args, Clause, ParamEnv, TraitId, TraitPredicate, TraitRef};
use ir_trees::ir::stop::Stop;
use ir_trees::ir::trees::Trees;
use std::alloc::Global;
use std::fmt;

/// Why a where clause isn't known to hold.
#[derive(Clone, Copy, Debug, PartialEq, Eq)]
pub enum Cause {
    /// It says something else than that a trait holds, as what a projection is.
    NoTrait,
    /// Its goal wasn't asked: the table has nothing for it, or it doesn't stand at what is known, as one with a bound variable.
    NotAsked,
    /// Its goal isn't decided, and an alias stands in its arguments.
    Alias,
    /// Its goal is a Maybe, and another crate may have an impl of its reference, or add one.
    Conflict(Conflict),
    /// Its goal is a Maybe without such a reason: a nested goal is open, or more rounds decide it.
    Ambiguous,
    /// Its goal is refused, and decides nothing all the same.
    Refused,
    /// Its goal is a Yes by which a variable gets a value.
    GivesValues,
    /// Its goal is a Yes that may rest on an impl of an auto trait for a part of the types with a head, or on unsizing.
    RestsOnPart,
}

/// A where clause of one of two impls that isn't known to hold where their headers are equal.
#[derive(Clone, Copy, PartialEq, Eq)]
pub struct OpenClause {
    /// Which where clause it is.
    pub place: WhereClause,
    /// What it says where the headers are equal, with all values put in.
    pub clause: Clause,
    /// Why it isn't known to hold.
    pub cause: Cause,
}

/// The place, the number of the clause, and the cause.
impl fmt::Debug for OpenClause {
    fn fmt<W: fmt::Write>(&self, f: &mut fmt::Formatter<W>) -> fmt::Result {
        let OpenClause {
            place,
            clause,
            cause,
        } = self;
        write!(f, "{place:?}, clause {}: {cause:?}", clause.0)
    }
}

/// Whether the stop is one of an evaluator, and not of the orphan check's walk.
fn is_of_evaluator(stop: Stop) -> bool
    ensures { result ≡ is_evaluator_stop stop }
{
    match stop {
        Stop::Memory | Stop::NodesFull | Stop::EvaluatorLimit => true,
        Stop::WalkDepth | Stop::AliasDepth | Stop::ConstDepth | Stop::Unnameable => false,
    }
}

/// The conflict, if what is known of a reference is one. A walk that came to no end knows of none.
fn conflict_in(
    known: Result<Result<(), Conflict>, OrphanStop<()>>,
) -> Result<Option<Conflict>, Stop>
    ensures is { IfOk result (λ o. o ≡ conflict_known (knowledge_of known)) }
    ensures told { OnOk result (IsTold is_evaluator_stop known) }
    ensures stopped { IfErr result (λ s. known ≡ Err (OrphanStop.Stop s)) }
    ensures own { IfErr result (λ s. is_evaluator_stop s ≡ true) }
{
    match known {
        Ok(Ok(())) => Ok(None),
        Ok(Err(conflict)) => Ok(Some(conflict)),
        Err(OrphanStop::Normalize(())) => Ok(None),
        Err(OrphanStop::Stop(stop)) => {
            if is_of_evaluator(stop) {
                Err(stop)
            } else {
                Ok(None)
            }
        }
    }
}

/// Which other crate may write an impl of the reference, if one may. It is asked in a probe, so that what is known stays.
fn conflict_of(
    alloc: Global,
    rounds: &mut Rounds,
    env: ParamEnv,
    trait_ref: TraitRef,
) -> Result<Option<Conflict>, Stop>
    requires env { IsParamEnv rounds.old.context.trees env }
    requires args { IsArgs rounds.old.context.trees trait_ref.args }
    ensures stays { StaysBesideSteps rounds.old rounds.new }
    ensures table { table_of rounds.new ≡ table_of rounds.old }
    ensures is { let r = rounds.old in let ts = r.context.trees in IfOk result (λ o. o ≡ conflict_at (judge_of (fixed r)) (state r) (env_forest ts env) (reference_of ts trait_ref)) }
    ensures cause { IfErr result (IsOverlapStop rounds.old rounds.new) }
{
    let probe = rounds.begin_probe(ProbeKind::Kept)?;
    let known = is_knowable(alloc, rounds, env, trait_ref);
    rounds.end_probe(probe);
    conflict_in(known)
}

/// Whether an alias stands in the list.
fn has_alias(cx: &Cx, args: Args) -> bool
    requires { IsArgs cx.now.trees args }
    ensures { result ≡ holds is_alias (args_forest cx.now.trees args) }
{
    cx.has(args, Flag::Alias)
}

/// Why a goal with a Maybe may hold.
fn cause_of_maybe(
    alloc: Global,
    rounds: &mut Rounds,
    env: ParamEnv,
    trait_ref: TraitRef,
) -> Result<Cause, Stop>
    requires env { IsParamEnv rounds.old.context.trees env }
    requires args { IsArgs rounds.old.context.trees trait_ref.args }
    ensures stays { StaysBesideSteps rounds.old rounds.new }
    ensures table { table_of rounds.new ≡ table_of rounds.old }
    ensures is { let r = rounds.old in let ts = r.context.trees in IfOk result (IsCauseOfMaybe (judge_of (fixed r)) (state r) (env_forest ts env) (reference_of ts trait_ref)) }
    ensures cause { IfErr result (IsOverlapStop rounds.old rounds.new) }
{
    if has_alias(rounds.cx(), trait_ref.args) {
        return Ok(Cause::Alias);
    }
    if !is_in_coherence(rounds) {
        return Ok(Cause::Ambiguous);
    }
    match conflict_of(alloc, rounds, env, trait_ref)? {
        Some(conflict) => Ok(Cause::Conflict(conflict)),
        None => Ok(Cause::Ambiguous),
    }
}

/// Why a goal isn't known to hold that the table has nothing for.
fn cause_of_unasked(cx: &Cx, trait_ref: TraitRef) -> Cause
    requires { IsArgs cx.now.trees trait_ref.args }
    ensures { result ≡ cause_of_unasked (reference_of cx.now.trees trait_ref) }
{
    if has_alias(cx, trait_ref.args) {
        Cause::Alias
    } else {
        Cause::NotAsked
    }
}

/// Why it isn't certain that a goal of the trait holds which has that Yes, if it isn't. The only stop is `Stop::Memory`.
fn cause_of_yes(
    alloc: Global,
    cx: &Cx,
    response: &CanonicalResponse,
    of: TraitId,
) -> Result<Option<Cause>, Stop>
    requires { IsResponse cx.now.trees response.now }
    ensures plain { IfOk result (λ o. o ≡ None → responses.has_only_region_constraints (response_of cx.now.trees response.now) ≡ true) }
    ensures is { IfOk result (λ o. IfSome o (IsCauseOfYes cx.now (response_of cx.now.trees response.now) of)) }
    ensures cause { IfErr result (λ s. s ≡ Stop.Memory) }
{
    if !has_only_region_constraints(cx, response) {
        return Ok(Some(Cause::GivesValues));
    }
    if may_rest_on_part(alloc, cx, of)? {
        return Ok(Some(Cause::RestsOnPart));
    }
    Ok(None)
}

/// Why the table doesn't make it certain that the goal of the predicate holds, if it doesn't.
fn cause_of_goal(
    alloc: Global,
    rounds: &mut Rounds,
    env: ParamEnv,
    predicate: TraitPredicate,
) -> Result<Option<Cause>, Stop>
    requires env { IsParamEnv rounds.old.context.trees env }
    requires args { IsArgs rounds.old.context.trees predicate.trait_ref.args }
    requires fit { ArgumentsFit rounds.old.context predicate.trait_ref }
    ensures stays { StaysBesideSteps rounds.old rounds.new }
    ensures table { table_of rounds.new ≡ table_of rounds.old }
    ensures answered { let r = rounds.old in IfOk result (λ o. o ≡ None → IsPlainYes (verdict_in (table_of r) (key_at (state r) (trait_goal r.context.trees env predicate)))) }
    ensures is { let r = rounds.old in IfOk result (λ o. IfSome o (IsCauseOfGoal (here_at r env) (trait_goal r.context.trees env predicate))) }
    ensures cause { IfErr result (IsOverlapStop rounds.old rounds.new) }
{
    if !rounds.stands_here(alloc, env, predicate) {
        return Ok(Some(Cause::NotAsked));
    }
    let trait_ref = predicate.trait_ref;
    let verdict = rounds.entry(alloc, env, predicate)?;
    match &verdict {
        None => Ok(Some(cause_of_unasked(rounds.cx(), trait_ref))),
        Some(Verdict::Refused) => Ok(Some(Cause::Refused)),
        Some(Verdict::Maybe(_, _)) => Ok(Some(cause_of_maybe(alloc, rounds, env, trait_ref)?)),
        Some(Verdict::Yes(response, _)) => cause_of_yes(
            alloc,
            rounds.cx(),
            response,
            trait_ref.def_id,
        ),
    }
}

/// Why the table doesn't make it certain that a clause holds, if it doesn't: one that says what outlives what is assumed.
fn cause_of_clause(
    alloc: Global,
    rounds: &mut Rounds,
    env: ParamEnv,
    clause: Clause,
) -> Result<Option<Cause>, Stop>
    requires env { IsParamEnv rounds.old.context.trees env }
    requires clause { IsClause rounds.old.context.trees clause }
    ensures stays { StaysBesideSteps rounds.old rounds.new }
    ensures table { table_of rounds.new ≡ table_of rounds.old }
    ensures holds { let r = rounds.old in let ts = r.context.trees in IfOk result (λ o. o ≡ None → Holds (env_forest ts env) (table_of r) (state r) (clause_tree ts clause)) }
    ensures is { let r = rounds.old in IfOk result (λ o. IfSome o (IsCause (here_at r env) (clause_tree r.context.trees clause))) }
    ensures cause { IfErr result (IsOverlapStop rounds.old rounds.new) }
{
    if is_outlives(rounds.cx(), clause) {
        return Ok(None);
    }
    let Some(predicate) = predicate_in(rounds.cx(), clause) else {
        return Ok(Some(Cause::NoTrait));
    };
    cause_of_goal(alloc, rounds, env, predicate)
}

/// The where clause of that number of an open impl, if the table doesn't make it certain that it holds.
fn open_clause(
    alloc: Global,
    rounds: &mut Rounds,
    env: ParamEnv,
    of: &Opened,
    number: usize,
) -> Result<Option<OpenClause>, Stop>
    requires env { IsParamEnv rounds.old.context.trees env }
    requires open { IsOpen rounds.old.context.trees of.now }
    requires number { number < length of.now.wheres.items }
    ensures stays { StaysBesideSteps rounds.old rounds.new }
    ensures table { table_of rounds.new ≡ table_of rounds.old }
    ensures is { IfOk result (IsAskedAt (here_at rounds.old env) rounds.new.context.trees (open_impl rounds.old.context.trees of.now) number) }
    ensures cause { IfErr result (IsOverlapStop rounds.old rounds.new) }
{
    let clause = with_values(alloc, rounds, of.wheres[number], of.locals)?;
    let Some(cause) = cause_of_clause(alloc, rounds, env, clause)? else {
        return Ok(None);
    };
    let place = WhereClause { of: of.of, number };
    Ok(Some(OpenClause {
        place,
        clause,
        cause,
    }))
}

/// Adds the clause to the list, if there is one.
fn add_if_open(list: &mut Vec<OpenClause>, found: Option<OpenClause>) -> Result<(), Stop>
    ensures adds { OnOk result (AddsIfOpen found list.old.items list.new.items) }
    ensures cause { IfErr result (λ s. s ≡ Stop.Memory) }
{
    match found {
        Some(clause) => Ok(list.push(clause)?),
        None => Ok(()),
    }
}

/// Adds the where clauses of an open impl of which the table doesn't make it certain that they hold, in their order.
fn add_open_clauses(
    alloc: Global,
    rounds: &mut Rounds,
    env: ParamEnv,
    of: &Opened,
    list: &mut Vec<OpenClause>,
) -> Result<(), Stop>
    requires env { IsParamEnv rounds.old.context.trees env }
    requires open { IsOpen rounds.old.context.trees of.now }
    ensures stays { StaysBesideSteps rounds.old rounds.new }
    ensures table { table_of rounds.new ≡ table_of rounds.old }
    ensures adds { let r = rounds.old in OnOk result (ListsAll (here_at r env) rounds.new.context.trees (open_impl r.context.trees of.now) list.old.items list.new.items) }
    ensures cause { IfErr result (IsOverlapStop rounds.old rounds.new) }
{
    for number in 0..of.wheres.len() {
        let found = open_clause(alloc, rounds, env, of, number)?;
        add_if_open(list, found)?;
    }
    Ok(())
}

/// The open where clauses of two open impls whose headers are equal, once all of them were run by that effort, as far as none is refused.
fn open_where_equal(
    alloc: Global,
    rounds: &mut Rounds,
    env: ParamEnv,
    pair: &Pair,
    effort: Effort,
) -> Result<Vec<OpenClause>, Stop>
    requires some { IsEffort effort }
    requires env { IsParamEnv rounds.old.context.trees env }
    requires empty { env_forest rounds.old.context.trees env ≡ none }
    requires pending { (state rounds.old).pending ≡ [] }
    requires pair { AreOpen rounds.old.context.trees pair.now }
    ensures stays { StaysBesideSteps rounds.old rounds.new }
    ensures lists { IfOk result (λ v. ListsWhereEqual rounds.old rounds.new (state rounds.old) pair.now v.items) }
    ensures cause { IfErr result (IsOverlapStop rounds.old rounds.new) }
{
    refused_clause(alloc, rounds, env, pair, effort)?;
    let mut list = Vec::new(alloc);
    add_open_clauses(alloc, rounds, env, &pair.first, &mut list)?;
    add_open_clauses(alloc, rounds, env, &pair.second, &mut list)?;
    Ok(list)
}

/// The open where clauses of two open impls, whose headers are made equal. What that leaves pending is set aside then.
fn open_of_pair(
    alloc: Global,
    rounds: &mut Rounds,
    pair: &Pair,
    effort: Effort,
) -> Result<Vec<OpenClause>, Stop>
    requires some { IsEffort effort }
    requires pending { (state rounds.old).pending ≡ [] }
    requires pair { AreOpen rounds.old.context.trees pair.now }
    ensures stays { StaysBesideKnown rounds.old rounds.new }
    ensures lists { IfOk result (λ v. ListsOfPair rounds.old rounds.new pair.now v.items) }
    ensures cause { IfErr result (IsOverlapStop rounds.old rounds.new) }
{
    if are_undecided(rounds, pair) {
        return Ok(Vec::new(alloc));
    }
    let env = rounds.mk_param_env(&[])?;
    if !make_equal(rounds, env, pair.first.header, pair.second.header)? {
        return Ok(Vec::new(alloc));
    }
    let aside = rounds.begin_probe(ProbeKind::SetAside)?;
    let answer = open_where_equal(alloc, rounds, env, pair, effort);
    rounds.end_probe(aside);
    answer
}

/// The open where clauses of two impls, which are opened and made equal. What is found to be known stays known.
fn open_here(
    alloc: Global,
    rounds: &mut Rounds,
    first: ImplId,
    second: ImplId,
    effort: Effort,
) -> Result<Vec<OpenClause>, Stop>
    requires some { IsEffort effort }
    requires pending { (state rounds.old).pending ≡ [] }
    ensures stays { StaysBesideKnown rounds.old rounds.new }
    ensures lists { IfOk result (λ v. HasOpenClausesAt rounds.old rounds.new (state rounds.old) first second v.items) }
    ensures cause { IfErr result (IsOverlapStop rounds.old rounds.new) }
{
    let Some(pair) = open_both(alloc, rounds, first, second)? else {
        return Ok(Vec::new(alloc));
    };
    open_of_pair(alloc, rounds, &pair, effort)
}

/// The open where clauses of two impls, found in a probe that is set aside, so that all stays but the table. Nothing is pending.
fn open_aside(
    alloc: Global,
    rounds: &mut Rounds,
    first: ImplId,
    second: ImplId,
    effort: Effort,
) -> Result<Vec<OpenClause>, Stop>
    requires some { IsEffort effort }
    ensures stays { StaysBesideSteps rounds.old rounds.new }
    ensures lists { IfOk result (λ v. HasOpenClausesAt rounds.old rounds.new (aside (state rounds.old)) first second v.items) }
    ensures cause { IfErr result (IsOverlapStop rounds.old rounds.new) }
{
    if !have_common_trait(rounds.cx(), first, second) {
        return Ok(Vec::new(alloc));
    }
    let probe = rounds.begin_probe(ProbeKind::SetAside)?;
    let answer = open_here(alloc, rounds, first, second, effort);
    rounds.end_probe(probe);
    answer
}

/// Which where clauses of two impls of a trait are open: where their headers are equal it isn't known that they hold. These are what
/// `impls_overlap` is uncertain for where it answers `May`, but for an alias in a header.
///
/// All is done as there, in the order of the impls' numbers: the headers are made equal, and the where clauses are run by that effort, up to
/// the first that is refused. Then each where clause is looked up in the table. It is listed unless the table makes it certain, with what it
/// says there and with a cause; those of the impl with the lower number come first. The list is complete: each other one holds by the table,
/// or says what outlives what. None is listed of impls of different traits, nor where the headers can't be made equal, or their equation decides
/// nothing.
///
/// By `Cause::Conflict` another crate may write an impl of the clause's reference, as `is_knowable` has it: it is asked where the goal is a
/// Maybe, in coherence, and no alias stands in it. A walk of the orphan check that comes to no end knows of none.
///
/// All that is known, what is pending and the open probes stay, whatever is answered; the table has what the rounds have found. The stops
/// are those of `impls_overlap`.
pub fn open_clauses(
    alloc: Global,
    rounds: &mut Rounds,
    first: ImplId,
    second: ImplId,
    effort: Effort,
) -> Result<Vec<OpenClause>, Stop>
    requires some { IsEffort effort }
    ensures stays { StaysBesideSteps rounds.old rounds.new }
    ensures lists { IfOk result (λ v. HasOpenClauses rounds.old rounds.new first second v.items) }
    ensures sorts { IfOk result (λ v. All (λ x. IsClause rounds.new.context.trees x.clause) v.items) }
    ensures cause { IfErr result (IsOverlapStop rounds.old rounds.new) }
{
    let pair = in_order(first, second);
    open_aside(alloc, rounds, pair.0, pair.1, effort)
}
