//! Where clauses that are answered.

ghost use Rattle.std.specs.Prelude.{◌≡◌, true, false, None, IfErr, IfOk, IfSome};
ghost use Rattle.std.specs.Option.{option_map};
ghost use Rattle.ir_trees.specs.Declarations.References.{ArgumentsFit};
ghost use Rattle.ir_trees.specs.Instantiation.Folding.{lacks_argument};
ghost use Rattle.ir_trees.specs.Instantiation.Owned.{ClausesAreOwned};
ghost use Rattle.ir_trees.specs.Syntax.Trees.{none, tree_holds};
ghost use Rattle.ir_trees.specs.Syntax.Words.{IsArgs, IsClause, IsParamEnv, args_forest, clause_tree, env_forest};
ghost use Rattle.candidate_assembly.specs.Goals.TraitGoals.{trait_goal};
ghost use Rattle.candidate_rounds.specs.Evaluators.Known.{state, sure_of, table_of};
ghost use Rattle.candidate_rounds.specs.Table.Goals.{IsVerdict, verdict_seen};
ghost use Rattle.rounds_judge.specs.Table.GoalTable.{verdict_in};
ghost use Rattle.rounds_judge.specs.Table.Keys.{key_at};
ghost use Rattle.overlaps.specs.Answered.{AllHold, BothHold, HoldsWith, ImplHolds, IsPlainYes, is_outlives};
ghost use Rattle.overlaps.specs.Stopping.{IsOverlapStop};
ghost use Rattle.overlaps.specs.Refused.{AreOpen, IsOpen, StaysBesideSteps};
ghost use Rattle.overlaps.specs.Uncertain.{EitherHoldsNot, HoldsNotAt, HoldsNotWith, ImplHoldsNot, IsUnanswered};

use crate::auto::may_rest_on_part;
use crate::opening::{Opened, Pair};
use candidate_eval::eval::clauses::{predicate_in, substitute};
use candidate_eval::eval::context::EvalCtxt;
use candidate_eval::eval::response::has_only_region_constraints;
use candidate_rounds::rounds::Rounds;
use candidate_rounds::rounds::goals::Verdict;
use ir_context::decl::Cx;
use ir_context::decl::make::Make;
use ir_trees::ir::kinds::{Args, Clause, ClauseKind, ParamEnv, TraitPredicate};
use ir_trees::ir::stop::Stop;
use ir_trees::ir::trees::Trees;
use std::alloc::Global;

/// Whether the clause says what outlives what.
pub(crate) fn is_outlives(cx: &Cx, clause: Clause) -> bool
    requires { IsClause cx.now.trees clause }
    ensures { result ≡ is_outlives (clause_tree cx.now.trees clause).head }
{
    match cx.clause(clause).value {
        ClauseKind::TypeOutlives(_, _) | ClauseKind::RegionOutlives(_, _) => true,
        ClauseKind::Trait(_)
        | ClauseKind::Projection(_)
        | ClauseKind::AliasRelate(_, _)
        | ClauseKind::ConstEquate(_, _) => false,
    }
}

/// Whether it is a Yes that says nothing of any variable.
fn is_plain_yes(cx: &Cx, verdict: &Option<Verdict>) -> bool
    requires { IsVerdict cx.now.trees verdict.now }
    ensures yes { result ≡ true → IsPlainYes (option_map (verdict_seen cx.now.trees) verdict.now) }
    ensures no { result ≡ false → IsPlainYes (option_map (verdict_seen cx.now.trees) verdict.now) → ⊥ }
{
    match verdict {
        Some(Verdict::Yes(response, _)) => has_only_region_constraints(cx, response),
        Some(Verdict::Maybe(_, _) | Verdict::Refused) | None => false,
    }
}

/// Whether the table has a Yes for the goal which says nothing of any variable, rests on no region that leaks, and may not rest on an impl for
/// a part of the types with a head.
pub(crate) fn is_predicate_answered(
    alloc: Global,
    rounds: &mut Rounds,
    env: ParamEnv,
    predicate: TraitPredicate,
) -> Result<bool, Stop>
    requires env { IsParamEnv rounds.old.context.trees env }
    requires args { IsArgs rounds.old.context.trees predicate.trait_ref.args }
    requires fit { ArgumentsFit rounds.old.context predicate.trait_ref }
    ensures stays { StaysBesideSteps rounds.old rounds.new }
    ensures table { table_of rounds.new ≡ table_of rounds.old }
    ensures sure { sure_of rounds.new ≡ sure_of rounds.old }
    ensures answered { let r = rounds.old in IfOk result (λ b. b ≡ true → IsPlainYes (verdict_in (sure_of r) (key_at (state r) (trait_goal r.context.trees env predicate)))) }
    ensures unanswered { let r = rounds.old in IfOk result (λ b. b ≡ false → IsUnanswered r.context (sure_of r) (state r) (trait_goal r.context.trees env predicate)) }
    ensures cause { IfErr result (IsOverlapStop rounds.old rounds.new) }
{
    if !rounds.stands_here(alloc, env, predicate) {
        return Ok(false);
    }
    let verdict = rounds.entry(alloc, env, predicate)?;
    if !is_plain_yes(rounds.cx(), &verdict) {
        return Ok(false);
    }
    let leaks = rounds.entry_leaks(alloc, env, predicate)?;
    if leaks {
        return Ok(false);
    }
    Ok(!may_rest_on_part(alloc, rounds.cx(), predicate.trait_ref.def_id)?)
}

/// Whether a where clause holds by the table, with what stands for the parameters put in and all values: one that says what outlives what
/// is assumed, and one of a projection isn't looked at.
fn is_clause_answered(
    alloc: Global,
    rounds: &mut Rounds,
    env: ParamEnv,
    clause: Clause,
    locals: Args,
) -> Result<bool, Stop>
    requires env { IsParamEnv rounds.old.context.trees env }
    requires clause { IsClause rounds.old.context.trees clause }
    requires locals { IsArgs rounds.old.context.trees locals }
    requires there { tree_holds (lacks_argument (args_forest rounds.old.context.trees locals)) (clause_tree rounds.old.context.trees clause) ≡ false }
    ensures stays { StaysBesideSteps rounds.old rounds.new }
    ensures table { table_of rounds.new ≡ table_of rounds.old }
    ensures sure { sure_of rounds.new ≡ sure_of rounds.old }
    ensures holds { let r = rounds.old in let ts = r.context.trees in IfOk result (λ b. b ≡ true → HoldsWith (env_forest ts env) ts (sure_of r) (state r) (args_forest ts locals) clause) }
    ensures uncertain { let r = rounds.old in let ts = r.context.trees in IfOk result (λ b. b ≡ false → HoldsNotWith (env_forest ts env) r.context (sure_of r) (state r) (args_forest ts locals) clause) }
    ensures cause { IfErr result (IsOverlapStop rounds.old rounds.new) }
{
    let clause = substitute(alloc, rounds, clause, locals)?;
    let clause = rounds.resolve_clause_if_possible(clause)?;
    if is_outlives(rounds.cx(), clause) {
        return Ok(true);
    }
    let Some(predicate) = predicate_in(rounds.cx(), clause) else {
        return Ok(false);
    };
    is_predicate_answered(alloc, rounds, env, predicate)
}

/// The number of the first of the where clauses that doesn't, with what stands for the parameters put in.
pub(crate) fn first_unanswered(
    alloc: Global,
    rounds: &mut Rounds,
    env: ParamEnv,
    clauses: &[Clause],
    locals: Args,
) -> Result<Option<usize>, Stop>
    requires env { IsParamEnv rounds.old.context.trees env }
    requires locals { IsArgs rounds.old.context.trees locals }
    requires clauses { ClausesAreOwned rounds.old.context.trees (args_forest rounds.old.context.trees locals) clauses.now }
    ensures stays { StaysBesideSteps rounds.old rounds.new }
    ensures table { table_of rounds.new ≡ table_of rounds.old }
    ensures sure { sure_of rounds.new ≡ sure_of rounds.old }
    ensures hold { let r = rounds.old in let ts = r.context.trees in IfOk result (λ o. o ≡ None → AllHold (env_forest ts env) ts (sure_of r) (state r) (args_forest ts locals) clauses.now) }
    ensures uncertain { let r = rounds.old in let ts = r.context.trees in IfOk result (λ o. IfSome o (λ n. HoldsNotAt (env_forest ts env) r.context (sure_of r) (state r) (args_forest ts locals) clauses.now n)) }
    ensures cause { IfErr result (IsOverlapStop rounds.old rounds.new) }
{
    for number in 0..clauses.len() {
        if !is_clause_answered(alloc, rounds, env, clauses[number], locals)? {
            return Ok(Some(number));
        }
    }
    Ok(None)
}

/// Whether each where clause of an open impl does.
fn is_impl_answered(
    alloc: Global,
    rounds: &mut Rounds,
    env: ParamEnv,
    of: &Opened,
) -> Result<bool, Stop>
    requires env { IsParamEnv rounds.old.context.trees env }
    requires empty { env_forest rounds.old.context.trees env ≡ none }
    requires open { IsOpen rounds.old.context.trees of.now }
    ensures stays { StaysBesideSteps rounds.old rounds.new }
    ensures table { table_of rounds.new ≡ table_of rounds.old }
    ensures sure { sure_of rounds.new ≡ sure_of rounds.old }
    ensures hold { let r = rounds.old in IfOk result (λ b. b ≡ true → ImplHolds r.context.trees (sure_of r) (state r) of.now) }
    ensures uncertain { let r = rounds.old in IfOk result (λ b. b ≡ false → ImplHoldsNot r.context (sure_of r) (state r) of.now) }
    ensures cause { IfErr result (IsOverlapStop rounds.old rounds.new) }
{
    let open = first_unanswered(alloc, rounds, env, of.wheres.as_slice(), of.locals)?;
    match open {
        Some(_) => Ok(false),
        None => Ok(true),
    }
}

/// Whether each where clause of both does. Nothing is run: it is read what the table has.
pub(crate) fn are_answered(
    alloc: Global,
    rounds: &mut Rounds,
    env: ParamEnv,
    pair: &Pair,
) -> Result<bool, Stop>
    requires env { IsParamEnv rounds.old.context.trees env }
    requires empty { env_forest rounds.old.context.trees env ≡ none }
    requires pair { AreOpen rounds.old.context.trees pair.now }
    ensures stays { StaysBesideSteps rounds.old rounds.new }
    ensures table { table_of rounds.new ≡ table_of rounds.old }
    ensures sure { sure_of rounds.new ≡ sure_of rounds.old }
    ensures hold { let r = rounds.old in IfOk result (λ b. b ≡ true → BothHold r.context.trees (sure_of r) (state r) pair.now) }
    ensures uncertain { let r = rounds.old in IfOk result (λ b. b ≡ false → EitherHoldsNot r.context (sure_of r) (state r) pair.now) }
    ensures cause { IfErr result (IsOverlapStop rounds.old rounds.new) }
{
    if !is_impl_answered(alloc, rounds, env, &pair.first)? {
        return Ok(false);
    }
    is_impl_answered(alloc, rounds, env, &pair.second)
}
