//! Whether an impl specialises another one.

ghost use Rattle.std.specs.Prelude.{◌≡◌, ◌<◌, ◌++◌, [], None, Some, false, true, map, IfErr, IfOk, IfSome, OnOk};
ghost use Rattle.ir_trees.specs.declared.ir.kinds.AliasKind.TheVariants as AK;
ghost use Rattle.ir_trees.specs.declared.ir.kinds.TyKind.TheVariants as K;
ghost use Rattle.ir_trees.specs.Declarations.References.{ArgumentsFit};
ghost use Rattle.ir_trees.specs.Instantiation.Owned.{ClausesAreOwned};
ghost use Rattle.ir_trees.specs.Syntax.Words.{ClauseListFits, IsArgs, IsClause, IsParamEnv, IsTy, KindFits, args_forest, clause_tree, env_forest, kind_tree, ty_tree};
ghost use Rattle.ir_trees.specs.Unification.Substitutions.{alone};
ghost use Rattle.candidate_eval.specs.Interface.Shown.{Keeps, StopsSomehow};
ghost use Rattle.candidate_rounds.specs.Evaluators.Known.{Each, state, sure_of};
ghost use Rattle.overlaps.specs.Apart.{IfDeclared};
ghost use Rattle.overlaps.specs.Refused.{AreOpen, IsOpen, StaysBesideKnown, StaysBesideSteps};
ghost use Rattle.overlaps.specs.Specialized.{AreAlike, AreTakenUp, HoldsAsSaid, HoldsAt, IsEnvironmentOf, IsFoundOfLeft, IsFoundOfPair, IsFoundWhereEqual, IsLeft, IsSpecialization, IsSpecializationAt, IsTakenUp, IsTypedBy, clauses_with};
ghost use Rattle.overlaps.specs.Stopping.{IsOverlapStop};
ghost use Rattle.overlaps.specs.Together.{IsProjectionType, StandsIn};
ghost use Rattle.candidate_rounds.specs.Table.Efforts.{IsEffort};

use crate::answered::{is_outlives, is_predicate_answered};
use crate::negation::make_one_equal;
use crate::opening::{Opened, Pair, enter_and_open};
use crate::overlap::have_aliases;
use crate::plain::make_equal;
use crate::together::{ProjectionType, projected, projection_in, said_of_projection};
use candidate_assembly::assembly::opaques::with_type_for;
use candidate_eval::eval::clauses::{predicate_in, substitute};
use candidate_eval::eval::context::{EvalCtxt, ProbeKind};
use candidate_rounds::rounds::Rounds;
use candidate_rounds::rounds::effort::Effort;
use ir_context::decl::Cx;
use ir_context::decl::make::{Build, Make};
use ir_folds::decl::elaborate::elaborate;
use ir_trees::decl::contents::{Impl, ImplId, ImplPolarity};
use ir_trees::ir::kinds::{AliasTy, Args, Clause, GenericArg, ParamEnv, TraitPredicate, Ty};
use ir_trees::ir::stop::Stop;
use std::alloc::Global;

/// Whether an impl specialises another one.
#[derive(Clone, Copy, Debug, PartialEq, Eq)]
pub enum Specialization {
    /// It does: its header is an instance of the other's, and each where clause of the other holds there.
    Specializes,
    /// They are no impls of one trait that say the same of whether it holds.
    Unlike,
    /// Its header isn't known to be an instance of the other's.
    NoInstance,
    /// The where clause of the other one in this place isn't known to hold.
    Unanswered(usize),
}

/// A where clause that is left, with all that stands for parameters, and its number.
type Left = (usize, Clause);

/// How many projections of a where clause get their types at most.
const MAX_TYPES: u32 = 64;

/// Whether the impls say the same of whether their traits hold.
fn have_one_polarity(one: &Impl, other: &Impl) -> bool
    ensures same { result ≡ true → one.now.polarity ≡ other.now.polarity }
    ensures others { result ≡ false → one.now.polarity ≡ other.now.polarity → ⊥ }
{
    matches!(
        (one.polarity, other.polarity),
        (ImplPolarity::Positive, ImplPolarity::Positive)
            | (ImplPolarity::Negative, ImplPolarity::Negative)
            | (ImplPolarity::Reservation, ImplPolarity::Reservation)
    )
}

/// Whether both are impls of one trait, and say the same of whether it holds.
fn are_alike(cx: &Cx, special: ImplId, general: ImplId) -> bool
    ensures alike { result ≡ true → IfDeclared cx.now special general AreAlike }
    ensures unlike { result ≡ false → IfDeclared cx.now special general (λ i j. AreAlike i j → ⊥) }
{
    let Some(one) = cx.impl_contents(special) else {
        return false;
    };
    let Some(other) = cx.impl_contents(general) else {
        return false;
    };
    one.trait_ref.def_id == other.trait_ref.def_id && have_one_polarity(one, other)
}

/// The where clauses, with what stands for the parameters put in.
fn with_locals<E: EvalCtxt>(
    alloc: Global,
    ecx: &mut E,
    clauses: &[Clause],
    locals: Args,
) -> Result<Vec<Clause>, Stop>
    requires locals { IsArgs (E.context ecx.old).trees locals }
    requires clauses { ClausesAreOwned (E.context ecx.old).trees (args_forest (E.context ecx.old).trees locals) clauses.now }
    ensures kept { Keeps E.EvalCtxt ecx.old ecx.new }
    ensures same { E.state ecx.new ≡ E.state ecx.old }
    ensures fit { IfOk result (λ v. ClauseListFits (E.context ecx.new).trees v.items) }
    ensures trees { let ts = (E.context ecx.old).trees in IfOk result (λ v. map (clause_tree (E.context ecx.new).trees) v.items ≡ clauses_with ts (args_forest ts locals) clauses.now) }
    ensures cause { IfErr result (StopsSomehow E.EvalCtxt ecx.old ecx.new) }
{
    let mut list = Vec::new(alloc);
    for clause in clauses {
        let clause = substitute(alloc, ecx, *clause, locals)?;
        list.push(clause)?;
    }
    Ok(list)
}

/// The environment of clauses, and of all that they imply.
pub(crate) fn environment_with<E: EvalCtxt>(
    alloc: Global,
    ecx: &mut E,
    clauses: &[Clause],
) -> Result<ParamEnv, Stop>
    requires { ClauseListFits (E.context ecx.old).trees clauses.now }
    ensures kept { Keeps E.EvalCtxt ecx.old ecx.new }
    ensures same { E.state ecx.new ≡ E.state ecx.old }
    ensures sort { IfOk result (λ e. IsParamEnv (E.context ecx.new).trees e) }
    ensures is { let c = E.context ecx.old in IfOk result (λ e. IsEnvironmentOf c (map (clause_tree c.trees) clauses.now) (env_forest (E.context ecx.new).trees e)) }
    ensures cause { IfErr result (StopsSomehow E.EvalCtxt ecx.old ecx.new) }
{
    let all = elaborate(alloc, ecx, clauses)?;
    ecx.mk_param_env(all.as_slice())
}

/// The environment of where clauses, with what stands for the parameters put in, and of all that they imply.
fn environment_of<E: EvalCtxt>(
    alloc: Global,
    ecx: &mut E,
    clauses: &[Clause],
    locals: Args,
) -> Result<ParamEnv, Stop>
    requires locals { IsArgs (E.context ecx.old).trees locals }
    requires clauses { ClausesAreOwned (E.context ecx.old).trees (args_forest (E.context ecx.old).trees locals) clauses.now }
    ensures kept { Keeps E.EvalCtxt ecx.old ecx.new }
    ensures same { E.state ecx.new ≡ E.state ecx.old }
    ensures sort { IfOk result (λ e. IsParamEnv (E.context ecx.new).trees e) }
    ensures is { let c = E.context ecx.old in IfOk result (λ e. IsEnvironmentOf c (clauses_with c.trees (args_forest c.trees locals) clauses.now) (env_forest (E.context ecx.new).trees e)) }
    ensures cause { IfErr result (StopsSomehow E.EvalCtxt ecx.old ecx.new) }
{
    let clauses = with_locals(alloc, ecx, clauses, locals)?;
    environment_with(alloc, ecx, clauses.as_slice())
}

/// Runs the goal of a predicate by that effort, unless it doesn't stand at what is known.
pub(crate) fn run_predicate(
    alloc: Global,
    rounds: &mut Rounds,
    env: ParamEnv,
    predicate: TraitPredicate,
    effort: Effort,
) -> Result<(), Stop>
    requires some { IsEffort effort }
    requires env { IsParamEnv rounds.old.context.trees env }
    requires args { IsArgs rounds.old.context.trees predicate.trait_ref.args }
    requires fit { ArgumentsFit rounds.old.context predicate.trait_ref }
    ensures stays { StaysBesideSteps rounds.old rounds.new }
    ensures cause { IfErr result (IsOverlapStop rounds.old rounds.new) }
{
    if !rounds.stands_here(alloc, env, predicate) {
        return Ok(());
    }
    if !rounds.may_be_run(alloc, env, predicate)? {
        return Ok(());
    }
    rounds.run_by(alloc, env, predicate, effort)?;
    Ok(())
}

/// Runs the goal of a where clause by that effort, with all values put in; one that says nothing of a trait has none.
fn run_clause(
    alloc: Global,
    rounds: &mut Rounds,
    env: ParamEnv,
    clause: Clause,
    effort: Effort,
) -> Result<(), Stop>
    requires some { IsEffort effort }
    requires env { IsParamEnv rounds.old.context.trees env }
    requires clause { IsClause rounds.old.context.trees clause }
    ensures stays { StaysBesideSteps rounds.old rounds.new }
    ensures cause { IfErr result (IsOverlapStop rounds.old rounds.new) }
{
    let clause = rounds.resolve_clause_if_possible(clause)?;
    let Some(predicate) = predicate_in(rounds.cx(), clause) else {
        return Ok(());
    };
    run_predicate(alloc, rounds, env, predicate, effort)
}

/// Runs the goals of where clauses that are left, one after the other.
fn run_left(
    alloc: Global,
    rounds: &mut Rounds,
    env: ParamEnv,
    left: &[Left],
    effort: Effort,
) -> Result<(), Stop>
    requires some { IsEffort effort }
    requires env { IsParamEnv rounds.old.context.trees env }
    requires left { Each (IsLeft rounds.old.context.trees) left.now }
    ensures stays { StaysBesideSteps rounds.old rounds.new }
    ensures cause { IfErr result (IsOverlapStop rounds.old rounds.new) }
{
    for i in 0..left.len() {
        run_clause(alloc, rounds, env, left[i].1, effort)?;
    }
    Ok(())
}

/// Whether a where clause holds by the table, with all values put in: one that says what outlives what is assumed.
fn is_held(alloc: Global, rounds: &mut Rounds, env: ParamEnv, clause: Clause) -> Result<bool, Stop>
    requires env { IsParamEnv rounds.old.context.trees env }
    requires clause { IsClause rounds.old.context.trees clause }
    ensures stays { StaysBesideSteps rounds.old rounds.new }
    ensures sure { sure_of rounds.new ≡ sure_of rounds.old }
    ensures holds { let r = rounds.old in let ts = r.context.trees in IfOk result (λ b. b ≡ true → HoldsAt r (env_forest ts env) (clause_tree ts clause)) }
    ensures cause { IfErr result (IsOverlapStop rounds.old rounds.new) }
{
    let clause = rounds.resolve_clause_if_possible(clause)?;
    if is_outlives(rounds.cx(), clause) {
        return Ok(true);
    }
    let Some(predicate) = predicate_in(rounds.cx(), clause) else {
        return Ok(false);
    };
    is_predicate_answered(alloc, rounds, env, predicate)
}

/// The number of the first where clause that is left and doesn't.
fn first_not_held(
    alloc: Global,
    rounds: &mut Rounds,
    env: ParamEnv,
    left: &[Left],
) -> Result<Option<usize>, Stop>
    requires env { IsParamEnv rounds.old.context.trees env }
    requires left { Each (IsLeft rounds.old.context.trees) left.now }
    ensures stays { StaysBesideSteps rounds.old rounds.new }
    ensures sure { sure_of rounds.new ≡ sure_of rounds.old }
    ensures hold { let r = rounds.old in let ts = r.context.trees in IfOk result (λ o. o ≡ None → Each (λ l. HoldsAt r (env_forest ts env) (clause_tree ts l.1)) left.now) }
    ensures cause { IfErr result (IsOverlapStop rounds.old rounds.new) }
{
    for i in 0..left.len() {
        if !is_held(alloc, rounds, env, left[i].1)? {
            return Ok(Some(left[i].0));
        }
    }
    Ok(None)
}

/// Whether nothing is pending; else what is pending is forgotten.
fn is_quiet(alloc: Global, rounds: &mut Rounds) -> Result<bool, Stop>
    ensures stays { StaysBesideKnown rounds.old rounds.new }
    ensures quiet { IfOk result (λ b. b ≡ true → ((state rounds.old).pending ≡ []) × (state rounds.new ≡ state rounds.old)) }
    ensures cause { IfErr result (IsOverlapStop rounds.old rounds.new) }
{
    let goals = rounds.take_pending(alloc)?;
    Ok(goals.as_slice().is_empty())
}

/// Whether the projection has a type by that effort, and this can be made equal to what a where clause says, so that nothing is left pending.
fn holds_as_said(
    alloc: Global,
    rounds: &mut Rounds,
    env: ParamEnv,
    said: (AliasTy, Ty),
    effort: Effort,
) -> Result<bool, Stop>
    requires some { IsEffort effort }
    requires env { IsParamEnv rounds.old.context.trees env }
    requires alias { KindFits rounds.old.context.trees (K.Alias said.0) }
    requires projection { said.0.kind ≡ AK.Projection }
    requires term { IsTy rounds.old.context.trees said.1 }
    ensures stays { StaysBesideKnown rounds.old rounds.new }
    ensures holds { let r = rounds.old in let ts = r.context.trees in IfOk result (λ b. b ≡ true → HoldsAsSaid r rounds.new (env_forest ts env) (kind_tree ts (K.Alias said.0)) (ty_tree ts said.1)) }
    ensures cause { IfErr result (IsOverlapStop rounds.old rounds.new) }
{
    match projected(alloc, rounds, env, said.0, effort)? {
        ProjectionType::Open => Ok(false),
        ProjectionType::Impossible => Ok(false),
        ProjectionType::Type(ty) => {
            if !make_one_equal(rounds, env, GenericArg::Ty(ty), GenericArg::Ty(said.1))? {
                return Ok(false);
            }
            is_quiet(alloc, rounds)
        }
    }
}

/// The where clause with the type of a projection in its place and all values put in, or as it is where that isn't known; nothing, where there
/// can't be one.
fn with_type(
    alloc: Global,
    rounds: &mut Rounds,
    env: ParamEnv,
    clause: Clause,
    projection: (Ty, AliasTy),
    effort: Effort,
) -> Result<Option<Clause>, Stop>
    requires some { IsEffort effort }
    requires env { IsParamEnv rounds.old.context.trees env }
    requires clause { IsClause rounds.old.context.trees clause }
    requires projection { IsProjectionType rounds.old.context.trees projection.0 projection.1 }
    requires stands { let ts = rounds.old.context.trees in StandsIn (ty_tree ts projection.0) (alone (clause_tree ts clause)) }
    ensures stays { StaysBesideKnown rounds.old rounds.new }
    ensures sort { IfOk result (λ o. IfSome o (IsClause rounds.new.context.trees)) }
    ensures typed { let r = rounds.old in let ts = r.context.trees in IfOk result (λ o. IfSome o (λ x. IsTypedBy r rounds.new (env_forest ts env) (clause_tree ts clause) x)) }
    ensures cause { IfErr result (IsOverlapStop rounds.old rounds.new) }
{
    match projected(alloc, rounds, env, projection.1, effort)? {
        ProjectionType::Open => Ok(Some(clause)),
        ProjectionType::Impossible => Ok(None),
        ProjectionType::Type(ty) => {
            if !is_quiet(alloc, rounds)? {
                return Ok(None);
            }
            let typed = with_type_for(alloc, rounds, projection.0, ty, clause)?;
            let resolved = rounds.resolve_clause_if_possible(typed)?;
            Ok(Some(resolved))
        }
    }
}

/// The where clause with all values put in, and with types in the place of projections, as far as these are known; nothing, where one can't
/// have a type.
fn with_types(
    alloc: Global,
    rounds: &mut Rounds,
    env: ParamEnv,
    clause: Clause,
    effort: Effort,
) -> Result<Option<Clause>, Stop>
    requires some { IsEffort effort }
    requires env { IsParamEnv rounds.old.context.trees env }
    requires clause { IsClause rounds.old.context.trees clause }
    ensures stays { StaysBesideKnown rounds.old rounds.new }
    ensures sort { IfOk result (λ o. IfSome o (IsClause rounds.new.context.trees)) }
    ensures typed { let r = rounds.old in let ts = r.context.trees in IfOk result (λ o. IfSome o (λ x. IsTypedBy r rounds.new (env_forest ts env) (clause_tree ts clause) x)) }
    ensures cause { IfErr result (IsOverlapStop rounds.old rounds.new) }
{
    let mut clause = rounds.resolve_clause_if_possible(clause)?;
    for _step in 0..MAX_TYPES {
        let Some(projection) = projection_in(rounds.cx(), clause) else {
            return Ok(Some(clause));
        };
        let Some(next) = with_type(alloc, rounds, env, clause, projection, effort)? else {
            return Ok(None);
        };
        if next == clause {
            return Ok(Some(next));
        }
        clause = next;
    }
    Ok(Some(clause))
}

/// A where clause gets types in the place of projections, and is left then, if it says nothing of a projection; else it is the answer whether
/// that holds.
fn take_up(
    alloc: Global,
    rounds: &mut Rounds,
    env: ParamEnv,
    clause: Left,
    effort: Effort,
    left: &mut Vec<Left>,
) -> Result<bool, Stop>
    requires some { IsEffort effort }
    requires env { IsParamEnv rounds.old.context.trees env }
    requires clause { IsClause rounds.old.context.trees clause.1 }
    requires left { Each (IsLeft rounds.old.context.trees) left.old.items }
    ensures stays { StaysBesideKnown rounds.old rounds.new }
    ensures taken { let r = rounds.old in let ts = r.context.trees in IfOk result (λ b. b ≡ true → IsTakenUp r rounds.new (env_forest ts env) (clause_tree ts clause.1) left.old.items left.new.items) }
    ensures cause { IfErr result (IsOverlapStop rounds.old rounds.new) }
{
    let Some(typed) = with_types(alloc, rounds, env, clause.1, effort)? else {
        return Ok(false);
    };
    if let Some(said) = said_of_projection(rounds.cx(), typed) {
        return holds_as_said(alloc, rounds, env, said, effort);
    }
    left.push((clause.0, typed))?;
    Ok(true)
}

/// All where clauses are taken up, one after the other: the number of the first that doesn't hold, if one doesn't.
fn take_up_all(
    alloc: Global,
    rounds: &mut Rounds,
    env: ParamEnv,
    clauses: &[Clause],
    effort: Effort,
    left: &mut Vec<Left>,
) -> Result<Option<usize>, Stop>
    requires some { IsEffort effort }
    requires env { IsParamEnv rounds.old.context.trees env }
    requires clauses { ClauseListFits rounds.old.context.trees clauses.now }
    requires left { left.old.items ≡ [] }
    ensures stays { StaysBesideKnown rounds.old rounds.new }
    ensures taken { let r = rounds.old in let ts = r.context.trees in IfOk result (λ o. o ≡ None → AreTakenUp r rounds.new (env_forest ts env) (map (clause_tree ts) clauses.now) left.new.items) }
    ensures cause { IfErr result (IsOverlapStop rounds.old rounds.new) }
{
    for number in 0..clauses.len() {
        if !take_up(alloc, rounds, env, (number, clauses[number]), effort, left)? {
            return Ok(Some(number));
        }
    }
    Ok(None)
}

/// Whether each where clause that is left holds, once the goals of all are run.
fn what_is_left_holds(
    alloc: Global,
    rounds: &mut Rounds,
    env: ParamEnv,
    left: &[Left],
    effort: Effort,
) -> Result<Specialization, Stop>
    requires some { IsEffort effort }
    requires env { IsParamEnv rounds.old.context.trees env }
    requires left { Each (IsLeft rounds.old.context.trees) left.now }
    ensures stays { StaysBesideSteps rounds.old rounds.new }
    ensures is { let r = rounds.old in IfOk result (IsFoundOfLeft r (env_forest r.context.trees env) (sure_of rounds.new) left.now) }
    ensures cause { IfErr result (IsOverlapStop rounds.old rounds.new) }
{
    run_left(alloc, rounds, env, left, effort)?;
    match first_not_held(alloc, rounds, env, left)? {
        Some(number) => Ok(Specialization::Unanswered(number)),
        None => Ok(Specialization::Specializes),
    }
}

/// Whether each where clause of the impl holds, whose header is equal to that of the one which may specialise it: first what they say of
/// projections, which gives variables their values, and then the others.
fn specializes_where_equal(
    alloc: Global,
    rounds: &mut Rounds,
    env: ParamEnv,
    general: &Opened,
    effort: Effort,
) -> Result<Specialization, Stop>
    requires some { IsEffort effort }
    requires env { IsParamEnv rounds.old.context.trees env }
    requires open { IsOpen rounds.old.context.trees general.now }
    ensures stays { StaysBesideKnown rounds.old rounds.new }
    ensures is { let r = rounds.old in IfOk result (IsFoundWhereEqual r (env_forest r.context.trees env) (sure_of rounds.new) general.now) }
    ensures cause { IfErr result (IsOverlapStop rounds.old rounds.new) }
{
    let clauses = with_locals(alloc, rounds, general.wheres.as_slice(), general.locals)?;
    let mut left = Vec::new(alloc);
    match take_up_all(alloc, rounds, env, clauses.as_slice(), effort, &mut left)? {
        Some(number) => Ok(Specialization::Unanswered(number)),
        None => what_is_left_holds(alloc, rounds, env, left.as_slice(), effort),
    }
}

/// Whether the first of two open impls specialises the second one, under the environment of the first one's where clauses. Their headers are
/// made equal, and what that leaves pending is set aside then.
fn specializes_under(
    alloc: Global,
    rounds: &mut Rounds,
    env: ParamEnv,
    pair: &Pair,
    effort: Effort,
) -> Result<Specialization, Stop>
    requires some { IsEffort effort }
    requires env { IsParamEnv rounds.old.context.trees env }
    requires pair { AreOpen rounds.old.context.trees pair.now }
    ensures stays { StaysBesideKnown rounds.old rounds.new }
    ensures is { let r = rounds.old in IfOk result (IsFoundOfPair r (env_forest r.context.trees env) (sure_of rounds.new) pair.now) }
    ensures cause { IfErr result (IsOverlapStop rounds.old rounds.new) }
{
    if have_aliases(rounds.cx(), pair) {
        return Ok(Specialization::NoInstance);
    }
    let above = rounds.newest_universe();
    if !make_equal(rounds, env, pair.second.header, pair.first.header)? {
        return Ok(Specialization::NoInstance);
    }
    let leaks = rounds.leaks_above(alloc, above)?;
    if leaks {
        return Ok(Specialization::NoInstance);
    }
    let aside = rounds.begin_probe(ProbeKind::SetAside)?;
    let answer = specializes_where_equal(alloc, rounds, env, &pair.second, effort);
    rounds.end_probe(aside);
    answer
}

/// Whether the first impl specialises the second one, where what is found to be known stays known.
fn specializes_here(
    alloc: Global,
    rounds: &mut Rounds,
    special: ImplId,
    general: ImplId,
    effort: Effort,
) -> Result<Specialization, Stop>
    requires some { IsEffort effort }
    requires alike { IfDeclared rounds.old.context special general AreAlike }
    ensures stays { StaysBesideKnown rounds.old rounds.new }
    ensures is { let r = rounds.old in IfOk result (IsSpecializationAt r (state r) (sure_of rounds.new) special general) }
    ensures cause { IfErr result (IsOverlapStop rounds.old rounds.new) }
{
    let Some(pair) = enter_and_open(alloc, rounds, special, general)? else {
        return Ok(Specialization::Unlike);
    };
    let first = &pair.first;
    let env = environment_of(alloc, rounds, first.wheres.as_slice(), first.locals)?;
    specializes_under(alloc, rounds, env, &pair, effort)
}

/// Whether an impl specialises another one of its trait, which says the same of whether it holds.
///
/// Under the where clauses of the first impl as environment, with all that these imply, its header is an instance of the other's: with
/// placeholders for its parameters it is made equal to the header of the other one, which has fresh variables for its own. And then each where
/// clause of the other one holds: with all values put in, its goal is run by that effort, and has a Yes that gives no variable a value and
/// leads to no auto trait with an impl for some types of a head alone. A clause that says what outlives what is assumed.
///
/// What clauses of the other one say of projections is asked before: `I: Iterator<Item = U>` holds where the projection has a type by a sure
/// answer, by that effort, and this can be made equal to `U`, which may give variables of the other one their values. A projection in a clause
/// gets its type so, too.
///
/// `Unlike` comes where the numbers aren't those of two impls of one trait with one polarity, `NoInstance` where the headers can't be made
/// equal, their equation leaks a region (`impls_overlap`), or an alias stands in one of them. `Unanswered` comes of the first clause on a
/// projection that isn't known to hold, and else of the first other one.
///
/// The mode in which goals are asked for is the evaluator's; rustc asks outside coherence. All that is known, what is pending and the open
/// probes stay, whatever is answered; the table has what the rounds have found. The stops are those of `impls_overlap`.
pub fn specializes(
    alloc: Global,
    rounds: &mut Rounds,
    special: ImplId,
    general: ImplId,
    effort: Effort,
) -> Result<Specialization, Stop>
    requires some { IsEffort effort }
    ensures stays { StaysBesideSteps rounds.old rounds.new }
    ensures is { IfOk result (IsSpecialization rounds.old rounds.new special general) }
    ensures cause { IfErr result (IsOverlapStop rounds.old rounds.new) }
{
    if !are_alike(rounds.cx(), special, general) {
        return Ok(Specialization::Unlike);
    }
    let probe = rounds.begin_probe(ProbeKind::SetAside)?;
    let answer = specializes_here(alloc, rounds, special, general, effort);
    rounds.end_probe(probe);
    answer
}
