//! Where clauses of two impls that can't hold together: what one of them gives is known to the others, and what projections in them are.

ghost use Rattle.std.specs.Prelude.{◌≡◌, ◌<◌, ◌++◌, ◌∷◌, [], length, None, Some, true, false, IfErr, IfOk, IfSome, OnOk};
ghost use Rattle.ir_trees.specs.declared.ir.kinds.AliasKind.TheVariants as AK;
ghost use Rattle.ir_trees.specs.declared.ir.kinds.TyKind.TheVariants as K;
ghost use Rattle.ir_trees.specs.Declarations.Context.{world};
ghost use Rattle.ir_trees.specs.Declarations.References.{ArgumentsFit, Takes};
ghost use Rattle.ir_trees.specs.Syntax.Nodes.{tree_at};
ghost use Rattle.ir_trees.specs.Syntax.Trees.{none};
ghost use Rattle.ir_trees.specs.Syntax.Words.{IsArgs, IsClause, IsParamEnv, IsTy, KindFits, args_forest, clause_tree, env_forest, kind_tree, ty_tree};
ghost use Rattle.ir_trees.specs.Unification.Substitutions.{alone};
ghost use Rattle.candidate_eval.specs.Dynamic.ObjectRequirements.{arguments_of, trait_said};
ghost use Rattle.candidate_eval.specs.Interface.Evaluators.{pendings_of};
ghost use Rattle.candidate_eval.specs.Interface.Shown.{Keeps};
ghost use Rattle.candidate_eval.specs.Outcomes.ResponseTrees.{IsResponse};
ghost use Rattle.candidate_assembly.specs.Goals.KindShown.{IsGoal, trait_kind};
ghost use Rattle.candidate_assembly.specs.Goals.TraitGoals.{trait_goal};
ghost use Rattle.candidate_rounds.specs.Evaluators.Known.{Each, listing, state, sure_of, table_of};
ghost use Rattle.candidate_rounds.specs.Table.Normalizing.{IsProjection, rounds_shown};
ghost use Rattle.rounds_judge.specs.Equations.Opening.{are_open};
ghost use Rattle.rounds_judge.specs.Table.GoalTable.{may_be_asked};
ghost use Rattle.rounds_judge.specs.Table.Keys.{key_at};
ghost use Rattle.overlaps.specs.Apart.{OfDeclared, aside};
ghost use Rattle.overlaps.specs.Refused.{AreOpen, IsOpen, RefusesInstances, StaysBesideKnown, StaysBesideSteps};
ghost use Rattle.overlaps.specs.Stopping.{IsOverlapStop};
ghost use Rattle.overlaps.specs.Together.{AreLeftOfAll, CameOf, CannotBothHold, CannotHold, ClausesKeepApart, HasYes, ImplsCannotHold, IsGivenAs, IsObligation, IsProjectedAs, IsProjectionType, IsTried, RefusesEntered, SaysOfProjection, StandsIn, goals_of_opened, pendings_at};
ghost use Rattle.candidate_rounds.specs.Table.Efforts.{IsEffort};

use crate::auto::{clause_may_rest_on_part, refuses_instances};
use crate::clauses::is_predicate_refused;
use crate::negation::make_one_equal;
use crate::opening::{Opened, Pair, open_both};
use crate::order::in_order;
use crate::overlap::have_common_trait;
use crate::plain::{is_in_coherence, make_equal};
use candidate_assembly::assembly::opaques::with_type_for;
use candidate_eval::eval::binders::enter_clause;
use candidate_eval::eval::certainty::Certainty;
use candidate_eval::eval::clauses::{predicate_in, substitute};
use candidate_eval::eval::context::{EvalCtxt, ProbeKind};
use candidate_eval::eval::refusal::NoSolutionOrStop;
use candidate_eval::eval::response::CanonicalResponse;
use candidate_rounds::rounds::Rounds;
use candidate_rounds::rounds::effort::Effort;
use candidate_rounds::rounds::goals::Verdict;
use candidate_rounds::rounds::normalizing::trait_predicate;
use ir_context::decl::Cx;
use ir_context::decl::make::{Build, Make};
use ir_trees::decl::contents::ImplId;
use ir_trees::ir::heads::Flag;
use ir_trees::ir::kinds::{
    AliasKind, AliasTy, Args, Clause, ClauseKind, GenericArg, Goal, GoalSource, ParamEnv,
    TraitPredicate, Ty, TyKind,
};
use ir_trees::ir::stop::Stop;
use ir_trees::ir::trees::Trees;
use std::alloc::Global;

/// What normalising a projection says of it.
#[derive(Clone, Copy)]
pub(crate) enum ProjectionType {
    /// Nothing sure.
    Open,
    /// What it says can't be.
    Impossible,
    /// That it is this type.
    Type(Ty),
}

/// A goal that has to hold, with where it comes from.
type Obligation = (GoalSource, Goal<Clause>);

/// How deep it is looked for a projection: no tree is higher.
const MAX_STEPS: u32 = 1024;

/// How often goals are tried at most.
const MAX_PASSES: u32 = 8;

/// The first child of a number in which an alias stands.
fn child_with_alias(cx: &Cx, number: u32) -> Option<u32>
    requires { number < length cx.now.trees }
    ensures number { IfSome result (λ n. n < length cx.now.trees) }
    ensures stands { let ts = cx.now.trees in IfSome result (λ n. StandsIn (tree_at ts n) (tree_at ts number).children) }
{
    for place in 0..usize::MAX {
        let child = cx.child(number, place)?;
        if cx.marks(child).has(Flag::Alias) {
            return Some(child);
        }
    }
    None
}

/// The projection that a number is.
fn projection_at(cx: &Cx, number: u32) -> Option<(Ty, AliasTy)>
    requires { number < length cx.now.trees }
    ensures { IfSome result (λ p. (p.0.0 ≡ number) × IsProjectionType cx.now.trees p.0 p.1) }
{
    let Some(GenericArg::Ty(ty)) = cx.argument(number) else {
        return None;
    };
    let TyKind::Alias(alias) = cx.kind(ty) else {
        return None;
    };
    match alias.kind {
        AliasKind::Projection => Some((ty, alias)),
        _ => None,
    }
}

/// A projection in the clause in whose arguments no alias stands, if the first of such aliases is one.
pub(crate) fn projection_in(cx: &Cx, clause: Clause) -> Option<(Ty, AliasTy)>
    requires { IsClause cx.now.trees clause }
    ensures is { IfSome result (λ p. IsProjectionType cx.now.trees p.0 p.1) }
    ensures stands { let ts = cx.now.trees in IfSome result (λ p. StandsIn (ty_tree ts p.0) (alone (clause_tree ts clause))) }
{
    let mut number = clause.0;
    for _step in 0..MAX_STEPS {
        let Some(child) = child_with_alias(cx, number) else {
            break;
        };
        number = child;
    }
    projection_at(cx, number)
}

/// What the clause says of a projection: that it is the type.
pub(crate) fn said_of_projection(cx: &Cx, clause: Clause) -> Option<(AliasTy, Ty)>
    requires { IsClause cx.now.trees clause }
    ensures fits { IfSome result (λ p. KindFits cx.now.trees (K.Alias p.0) × (p.0.kind ≡ AK.Projection) × IsTy cx.now.trees p.1) }
    ensures takes { IfSome result (λ p. Takes (world cx.now) (kind_tree cx.now.trees (K.Alias p.0))) }
    ensures said { let ts = cx.now.trees in IfSome result (λ p. SaysOfProjection (clause_tree ts clause) (kind_tree ts (K.Alias p.0)) (ty_tree ts p.1)) }
{
    cx.recall_well_formed();
    match cx.clause(clause).value {
        ClauseKind::Projection(said) => {
            let of = said.projection_term;
            Some((AliasTy::projection(of.def_id, of.args), said.term))
        }
        _ => None,
    }
}

/// The goal is left, as it is. The only stop is `Stop::Memory`, here and in the next.
fn keep(left: &mut Vec<Obligation>, goal: Obligation) -> Result<bool, Stop>
    ensures pushed { IfOk result (λ _. left.new.items ≡ left.old.items ++ goal ∷ []) }
    ensures open { IfOk result (λ b. b ≡ false) }
    ensures cause { IfErr result (λ s. s ≡ Stop.Memory) }
{
    left.push(goal)?;
    Ok(false)
}

/// The goals that are pending are left, and no goal is pending then.
fn leave_pending(alloc: Global, rounds: &mut Rounds, left: &mut Vec<Obligation>) -> Result<(), Stop>
    requires fit { Each (IsObligation rounds.old.context.trees) left.old.items }
    ensures kept { Keeps rounds_shown rounds.old rounds.new }
    ensures context { rounds.new.context ≡ rounds.old.context }
    ensures aside { OnOk result (state rounds.new ≡ aside (state rounds.old)) }
    ensures fit { IfOk result (λ _. Each (IsObligation rounds.new.context.trees) left.new.items) }
    ensures left { let ts = rounds.new.context.trees in IfOk result (λ _. pendings_of ts left.new.items ≡ pendings_of ts left.old.items ++ (state rounds.old).pending) }
    ensures cause { IfErr result (λ s. s ≡ Stop.Memory) }
{
    let goals = rounds.take_pending(alloc)?;
    left.extend_from_slice(goals.as_slice())?;
    Ok(())
}

/// What the response says of the projection is given, if it is sure.
fn give_sure(
    alloc: Global,
    rounds: &mut Rounds,
    env: ParamEnv,
    alias: AliasTy,
    response: &CanonicalResponse,
) -> Result<ProjectionType, Stop>
    requires projection { IsProjection rounds.old.context env alias }
    requires response { IsResponse rounds.old.context.trees response.now }
    ensures stays { StaysBesideKnown rounds.old rounds.new }
    ensures is { IfOk result (IsGivenAs rounds.old rounds.new env alias response.now) }
    ensures cause { IfErr result (IsOverlapStop rounds.old rounds.new) }
{
    match response.certainty {
        Certainty::Yes => (),
        Certainty::Maybe(_) => return Ok(ProjectionType::Open),
    }
    match rounds.give_normal(alloc, env, alias, response) {
        Ok(ty) => Ok(ProjectionType::Type(ty)),
        Err(NoSolutionOrStop::NoSolution) => Ok(ProjectionType::Impossible),
        Err(NoSolutionOrStop::Stop(stop)) => Err(stop),
    }
}

/// What was last written for the goal, if it stands at what is known and anything was.
fn verdict_here(
    alloc: Global,
    rounds: &mut Rounds,
    env: ParamEnv,
    predicate: TraitPredicate,
) -> Result<Option<Verdict>, Stop>
    requires env { IsParamEnv rounds.old.context.trees env }
    requires args { IsArgs rounds.old.context.trees predicate.trait_ref.args }
    ensures stays { StaysBesideSteps rounds.old rounds.new }
    ensures table { table_of rounds.new ≡ table_of rounds.old }
    ensures cause { IfErr result (IsOverlapStop rounds.old rounds.new) }
{
    if !rounds.stands_here(alloc, env, predicate) {
        return Ok(None);
    }
    rounds.entry(alloc, env, predicate)
}

/// Whether the table has no answer for the goal that may still become another one.
fn may_be_sure(verdict: &Option<Verdict>) -> bool {
    match verdict {
        Some(Verdict::Maybe(_, _)) => false,
        Some(Verdict::Yes(_, _) | Verdict::Refused) | None => true,
    }
}

/// Whether the goal, which may be run, holds by that effort, by a Yes that rests on no region that leaks. It stops as `Rounds::run` does.
fn is_proved(
    alloc: Global,
    rounds: &mut Rounds,
    env: ParamEnv,
    predicate: TraitPredicate,
    effort: Effort,
) -> Result<bool, Stop>
    requires some { IsEffort effort }
    requires goal { IsGoal trait_kind rounds.old.context env predicate }
    requires asked { may_be_asked (key_at (state rounds.old) (trait_goal rounds.old.context.trees env predicate)) ≡ true }
    ensures stays { StaysBesideSteps rounds.old rounds.new }
    ensures yes { let k = key_at (state rounds.old) (trait_goal rounds.old.context.trees env predicate) in IfOk result (λ b. b ≡ true → HasYes (sure_of rounds.new) k) }
    ensures cause { IfErr result (IsOverlapStop rounds.old rounds.new) }
{
    match rounds.run_by(alloc, env, predicate, effort)? {
        Verdict::Yes(_, _) => {
            let leaks = rounds.entry_leaks(alloc, env, predicate)?;
            Ok(!leaks)
        }
        Verdict::Maybe(_, _) | Verdict::Refused => Ok(false),
    }
}

/// What the projection is, where its arguments are those that it takes, and its trait's goal stands at what is known, and says nothing of a type of which
/// an instance is otherwise: it is normalised by that effort, if that goal holds by then. So no further round takes back what is answered.
fn normal(
    alloc: Global,
    rounds: &mut Rounds,
    env: ParamEnv,
    alias: AliasTy,
    effort: Effort,
) -> Result<Option<CanonicalResponse>, Stop>
    requires some { IsEffort effort }
    requires env { IsParamEnv rounds.old.context.trees env }
    requires alias { KindFits rounds.old.context.trees (K.Alias alias) }
    requires projection { alias.kind ≡ AK.Projection }
    ensures stays { StaysBesideSteps rounds.old rounds.new }
    ensures sort { IfOk result (λ o. IfSome o (IsResponse rounds.new.context.trees)) }
    ensures projection { IfOk result (λ o. IfSome o (λ _. IsProjection rounds.new.context env alias)) }
    ensures comes { IfOk result (λ o. IfSome o (CameOf rounds.old rounds.new env alias)) }
    ensures cause { IfErr result (IsOverlapStop rounds.old rounds.new) }
{
    if !rounds.cx().args_fit(TyKind::Alias(alias)) {
        return Ok(None);
    }
    let predicate = trait_predicate(rounds.cx(), alias);
    if !may_be_sure(&verdict_here(alloc, rounds, env, predicate)?) {
        return Ok(None);
    }
    if !rounds.stands_here(alloc, env, predicate) {
        return Ok(None);
    }
    if !rounds.may_be_run(alloc, env, predicate)? {
        return Ok(None);
    }
    if !is_proved(alloc, rounds, env, predicate, effort)? {
        return Ok(None);
    }
    if !refuses_instances(alloc, rounds.cx(), predicate.trait_ref)? {
        return Ok(None);
    }
    rounds.normalize(alloc, env, alias, effort)
}

/// The type that the projection is, where a sure answer says it: what that says of variables is known then.
pub(crate) fn projected(
    alloc: Global,
    rounds: &mut Rounds,
    env: ParamEnv,
    alias: AliasTy,
    effort: Effort,
) -> Result<ProjectionType, Stop>
    requires some { IsEffort effort }
    requires env { IsParamEnv rounds.old.context.trees env }
    requires alias { KindFits rounds.old.context.trees (K.Alias alias) }
    requires projection { alias.kind ≡ AK.Projection }
    ensures stays { StaysBesideKnown rounds.old rounds.new }
    ensures is { let r = rounds.old in let ts = r.context.trees in IfOk result (IsProjectedAs r rounds.new (env_forest ts env) (kind_tree ts (K.Alias alias))) }
    ensures cause { IfErr result (IsOverlapStop rounds.old rounds.new) }
{
    match normal(alloc, rounds, env, alias, effort)? {
        Some(response) => give_sure(alloc, rounds, env, alias, &response),
        None => Ok(ProjectionType::Open),
    }
}

/// The type that the projection is stands in its place in what is left of the goal; it is the answer whether it can't be.
fn put_type(
    alloc: Global,
    rounds: &mut Rounds,
    goal: Obligation,
    projection: (Ty, AliasTy),
    effort: Effort,
    left: &mut Vec<Obligation>,
) -> Result<bool, Stop>
    requires some { IsEffort effort }
    requires fit { IsObligation rounds.old.context.trees goal }
    requires empty { env_forest rounds.old.context.trees goal.1.param_env ≡ none }
    requires left { Each (IsObligation rounds.old.context.trees) left.old.items }
    requires pending { (state rounds.old).pending ≡ [] }
    requires projection { IsProjectionType rounds.old.context.trees projection.0 projection.1 }
    requires stands { let ts = rounds.old.context.trees in StandsIn (ty_tree ts projection.0) (alone (clause_tree ts goal.1.predicate)) }
    ensures stays { StaysBesideKnown rounds.old rounds.new }
    ensures tried { IfOk result (IsTried rounds.old rounds.new goal left.old.items left.new.items) }
    ensures cause { IfErr result (IsOverlapStop rounds.old rounds.new) }
{
    let param_env = goal.1.param_env;
    match projected(alloc, rounds, param_env, projection.1, effort)? {
        ProjectionType::Open => keep(left, goal),
        ProjectionType::Impossible => Ok(true),
        ProjectionType::Type(ty) => {
            let predicate = with_type_for(alloc, rounds, projection.0, ty, goal.1.predicate)?;
            let goal = (
                goal.0,
                Goal {
                    param_env,
                    predicate,
                },
            );
            left.push(goal)?;
            leave_pending(alloc, rounds, left)?;
            Ok(false)
        }
    }
}

/// The projection is made equal to what a clause says that it is; it is the answer whether it can't be.
fn make_term_equal(
    alloc: Global,
    rounds: &mut Rounds,
    goal: Obligation,
    said: (AliasTy, Ty),
    effort: Effort,
    left: &mut Vec<Obligation>,
) -> Result<bool, Stop>
    requires some { IsEffort effort }
    requires fit { IsObligation rounds.old.context.trees goal }
    requires empty { env_forest rounds.old.context.trees goal.1.param_env ≡ none }
    requires left { Each (IsObligation rounds.old.context.trees) left.old.items }
    requires pending { (state rounds.old).pending ≡ [] }
    requires alias { KindFits rounds.old.context.trees (K.Alias said.0) }
    requires projection { said.0.kind ≡ AK.Projection }
    requires term { IsTy rounds.old.context.trees said.1 }
    requires said { let ts = rounds.old.context.trees in SaysOfProjection (clause_tree ts goal.1.predicate) (kind_tree ts (K.Alias said.0)) (ty_tree ts said.1) }
    ensures stays { StaysBesideKnown rounds.old rounds.new }
    ensures tried { IfOk result (IsTried rounds.old rounds.new goal left.old.items left.new.items) }
    ensures cause { IfErr result (IsOverlapStop rounds.old rounds.new) }
{
    let env = goal.1.param_env;
    let term = GenericArg::Ty(said.1);
    match projected(alloc, rounds, env, said.0, effort)? {
        ProjectionType::Open => keep(left, goal),
        ProjectionType::Impossible => Ok(true),
        ProjectionType::Type(ty) => {
            if !make_one_equal(rounds, env, GenericArg::Ty(ty), term)? {
                return Ok(true);
            }
            leave_pending(alloc, rounds, left)?;
            Ok(false)
        }
    }
}

/// The goal alone is evaluated, unless it may rest on an impl for a part of the types with a head, and what it gives is known then; it is the answer
/// whether it is refused.
fn settle(
    alloc: Global,
    rounds: &mut Rounds,
    goal: Obligation,
    left: &mut Vec<Obligation>,
) -> Result<bool, Stop>
    requires fit { IsObligation rounds.old.context.trees goal }
    requires left { Each (IsObligation rounds.old.context.trees) left.old.items }
    requires pending { (state rounds.old).pending ≡ [] }
    ensures stays { StaysBesideKnown rounds.old rounds.new }
    ensures tried { IfOk result (IsTried rounds.old rounds.new goal left.old.items left.new.items) }
    ensures cause { IfErr result (IsOverlapStop rounds.old rounds.new) }
{
    if clause_may_rest_on_part(alloc, rounds.cx(), goal.1.predicate)? {
        return keep(left, goal);
    }
    rounds.add_goal(goal.0, goal.1)?;
    match rounds.try_evaluate_added_goals() {
        Ok(_) => {
            leave_pending(alloc, rounds, left)?;
            Ok(false)
        }
        Err(NoSolutionOrStop::NoSolution) => Ok(true),
        Err(NoSolutionOrStop::Stop(stop)) => Err(stop),
    }
}

/// Whether the goal is refused by that effort, for a reason that decides, in a probe, so that what is known stays.
fn is_refused_here(
    alloc: Global,
    rounds: &mut Rounds,
    env: ParamEnv,
    predicate: TraitPredicate,
    effort: Effort,
) -> Result<bool, Stop>
    requires some { IsEffort effort }
    requires env { IsParamEnv rounds.old.context.trees env }
    requires empty { env_forest rounds.old.context.trees env ≡ none }
    requires args { IsArgs rounds.old.context.trees predicate.trait_ref.args }
    requires fit { ArgumentsFit rounds.old.context predicate.trait_ref }
    requires pending { (state rounds.old).pending ≡ [] }
    ensures stays { StaysBesideSteps rounds.old rounds.new }
    ensures refused { IfOk result (λ b. b ≡ true → RefusesInstances rounds.old rounds.new predicate) }
    ensures cause { IfErr result (IsOverlapStop rounds.old rounds.new) }
{
    let probe = rounds.begin_probe(ProbeKind::Kept)?;
    let answer = is_predicate_refused(alloc, rounds, env, predicate, effort);
    rounds.end_probe(probe);
    answer
}

/// Whether the table has a Yes for the goal.
fn is_yes(verdict: &Option<Verdict>) -> bool {
    matches!(verdict, Some(Verdict::Yes(_, _)))
}

/// A goal of a trait is run by that effort, if the table has no answer for it that may stay: a refusal refuses it, and a Yes gives its values.
fn try_trait(
    alloc: Global,
    rounds: &mut Rounds,
    goal: Obligation,
    predicate: TraitPredicate,
    effort: Effort,
    left: &mut Vec<Obligation>,
) -> Result<bool, Stop>
    requires some { IsEffort effort }
    requires fit { IsObligation rounds.old.context.trees goal }
    requires empty { env_forest rounds.old.context.trees goal.1.param_env ≡ none }
    requires left { Each (IsObligation rounds.old.context.trees) left.old.items }
    requires pending { (state rounds.old).pending ≡ [] }
    requires args { IsArgs rounds.old.context.trees predicate.trait_ref.args }
    requires says { let ts = rounds.old.context.trees in trait_said (clause_tree ts goal.1.predicate).head ≡ Some (predicate.trait_ref.def_id, predicate.polarity) }
    requires arguments { let ts = rounds.old.context.trees in arguments_of (clause_tree ts goal.1.predicate) ≡ args_forest ts predicate.trait_ref.args }
    requires arguments_fit { ArgumentsFit rounds.old.context predicate.trait_ref }
    ensures stays { StaysBesideKnown rounds.old rounds.new }
    ensures tried { IfOk result (IsTried rounds.old rounds.new goal left.old.items left.new.items) }
    ensures cause { IfErr result (IsOverlapStop rounds.old rounds.new) }
{
    let env = goal.1.param_env;
    let verdict = verdict_here(alloc, rounds, env, predicate)?;
    if !may_be_sure(&verdict) {
        return keep(left, goal);
    }
    if !is_yes(&verdict) && is_refused_here(alloc, rounds, env, predicate, effort)? {
        return Ok(true);
    }
    if !is_yes(&verdict_here(alloc, rounds, env, predicate)?) {
        return keep(left, goal);
    }
    settle(alloc, rounds, goal, left)
}

/// Whether what a clause says of a trait under its binder is refused by that effort, for placeholders in the place of what it binds; then it can't hold for
/// all that these stand for.
fn is_refused_once_entered(
    alloc: Global,
    rounds: &mut Rounds,
    env: ParamEnv,
    clause: Clause,
    effort: Effort,
) -> Result<bool, Stop>
    requires some { IsEffort effort }
    requires env { IsParamEnv rounds.old.context.trees env }
    requires empty { env_forest rounds.old.context.trees env ≡ none }
    requires clause { IsClause rounds.old.context.trees clause }
    requires pending { (state rounds.old).pending ≡ [] }
    ensures stays { StaysBesideKnown rounds.old rounds.new }
    ensures refused { let ts = rounds.old.context.trees in IfOk result (λ b. b ≡ true → RefusesEntered rounds.old rounds.new (clause_tree ts clause)) }
    ensures cause { IfErr result (IsOverlapStop rounds.old rounds.new) }
{
    let clause = enter_clause(alloc, rounds, clause)?;
    let Some(predicate) = predicate_in(rounds.cx(), clause) else {
        return Ok(false);
    };
    is_predicate_refused(alloc, rounds, env, predicate, effort)
}

/// The same, asked in a probe, so that what is known stays.
fn is_refused_under_binder(
    alloc: Global,
    rounds: &mut Rounds,
    env: ParamEnv,
    clause: Clause,
    effort: Effort,
) -> Result<bool, Stop>
    requires some { IsEffort effort }
    requires env { IsParamEnv rounds.old.context.trees env }
    requires empty { env_forest rounds.old.context.trees env ≡ none }
    requires clause { IsClause rounds.old.context.trees clause }
    requires pending { (state rounds.old).pending ≡ [] }
    ensures stays { StaysBesideSteps rounds.old rounds.new }
    ensures refused { let ts = rounds.old.context.trees in IfOk result (λ b. b ≡ true → RefusesEntered rounds.old rounds.new (clause_tree ts clause)) }
    ensures cause { IfErr result (IsOverlapStop rounds.old rounds.new) }
{
    let probe = rounds.begin_probe(ProbeKind::Kept)?;
    let answer = is_refused_once_entered(alloc, rounds, env, clause, effort);
    rounds.end_probe(probe);
    answer
}

/// A goal whose clause says something of a trait and binds regions is left, unless it is refused for placeholders in their place.
fn try_for_all(
    alloc: Global,
    rounds: &mut Rounds,
    goal: Obligation,
    effort: Effort,
    left: &mut Vec<Obligation>,
) -> Result<bool, Stop>
    requires some { IsEffort effort }
    requires fit { IsObligation rounds.old.context.trees goal }
    requires empty { env_forest rounds.old.context.trees goal.1.param_env ≡ none }
    requires left { Each (IsObligation rounds.old.context.trees) left.old.items }
    requires pending { (state rounds.old).pending ≡ [] }
    ensures stays { StaysBesideKnown rounds.old rounds.new }
    ensures tried { IfOk result (IsTried rounds.old rounds.new goal left.old.items left.new.items) }
    ensures cause { IfErr result (IsOverlapStop rounds.old rounds.new) }
{
    let Goal {
        param_env,
        predicate,
    } = goal.1;
    if is_refused_under_binder(alloc, rounds, param_env, predicate, effort)? {
        return Ok(true);
    }
    keep(left, goal)
}

/// Whether the clause binds anything.
fn binds(cx: &Cx, clause: Clause) -> bool
    requires { IsClause cx.now.trees clause }
{
    !cx.vars(cx.clause(clause).vars).is_empty()
}

/// A goal in which all values are put in is taken up: a projection in it gets its type, or what it says is asked.
fn try_with_values(
    alloc: Global,
    rounds: &mut Rounds,
    goal: Obligation,
    effort: Effort,
    left: &mut Vec<Obligation>,
) -> Result<bool, Stop>
    requires some { IsEffort effort }
    requires fit { IsObligation rounds.old.context.trees goal }
    requires empty { env_forest rounds.old.context.trees goal.1.param_env ≡ none }
    requires left { Each (IsObligation rounds.old.context.trees) left.old.items }
    requires pending { (state rounds.old).pending ≡ [] }
    ensures stays { StaysBesideKnown rounds.old rounds.new }
    ensures tried { IfOk result (IsTried rounds.old rounds.new goal left.old.items left.new.items) }
    ensures cause { IfErr result (IsOverlapStop rounds.old rounds.new) }
{
    let clause = goal.1.predicate;
    if let Some(projection) = projection_in(rounds.cx(), clause) {
        return put_type(alloc, rounds, goal, projection, effort, left);
    }
    if let Some(said) = said_of_projection(rounds.cx(), clause) {
        return make_term_equal(alloc, rounds, goal, said, effort, left);
    }
    let Some(predicate) = predicate_in(rounds.cx(), clause) else {
        return settle(alloc, rounds, goal, left);
    };
    if binds(rounds.cx(), clause) {
        return try_for_all(alloc, rounds, goal, effort, left);
    }
    try_trait(alloc, rounds, goal, predicate, effort, left)
}

/// A goal is taken up with all values put in, if it asks without an environment, as this one is; else it is left.
fn try_goal(
    alloc: Global,
    rounds: &mut Rounds,
    env: ParamEnv,
    goal: Obligation,
    effort: Effort,
    left: &mut Vec<Obligation>,
) -> Result<bool, Stop>
    requires some { IsEffort effort }
    requires empty { env_forest rounds.old.context.trees env ≡ none }
    requires fit { IsObligation rounds.old.context.trees goal }
    requires left { Each (IsObligation rounds.old.context.trees) left.old.items }
    requires pending { (state rounds.old).pending ≡ [] }
    ensures stays { StaysBesideKnown rounds.old rounds.new }
    ensures tried { IfOk result (IsTried rounds.old rounds.new goal left.old.items left.new.items) }
    ensures cause { IfErr result (IsOverlapStop rounds.old rounds.new) }
{
    let Goal {
        param_env,
        predicate,
    } = goal.1;
    if param_env != env {
        return keep(left, goal);
    }
    let predicate = rounds.resolve_clause_if_possible(predicate)?;
    let goal = (
        goal.0,
        Goal {
            param_env,
            predicate,
        },
    );
    try_with_values(alloc, rounds, goal, effort, left)
}

/// All goals are taken up, one after the other: what is left in their place, or nothing, where they can't hold together.
fn try_all(
    alloc: Global,
    rounds: &mut Rounds,
    env: ParamEnv,
    goals: &[Obligation],
    effort: Effort,
) -> Result<Option<Vec<Obligation>>, Stop>
    requires some { IsEffort effort }
    requires env { IsParamEnv rounds.old.context.trees env }
    requires empty { env_forest rounds.old.context.trees env ≡ none }
    requires fit { Each (IsObligation rounds.old.context.trees) goals.now }
    requires pending { (state rounds.old).pending ≡ [] }
    ensures stays { StaysBesideKnown rounds.old rounds.new }
    ensures left { IfOk result (λ o. IfSome o (λ v. AreLeftOfAll rounds.old rounds.new goals.now v.items)) }
    ensures cannot { let r = rounds.old in IfOk result (λ o. o ≡ None → CannotHold r (state r) (pendings_at r goals.now)) }
    ensures cause { IfErr result (IsOverlapStop rounds.old rounds.new) }
{
    let mut left = Vec::new(alloc);
    for i in 0..goals.len() {
        if try_goal(alloc, rounds, env, goals[i], effort, &mut left)? {
            return Ok(None);
        }
    }
    Ok(Some(left))
}

/// Whether both are of the same clauses.
fn are_same(one: &[Obligation], other: &[Obligation]) -> bool {
    if one.len() != other.len() {
        return false;
    }
    for i in 0..one.len() {
        if i >= other.len() || one[i].1.predicate != other[i].1.predicate {
            return false;
        }
    }
    true
}

/// Whether goals can't hold together: they are taken up until that changes nothing, but so often at most.
fn cannot_hold(
    alloc: Global,
    rounds: &mut Rounds,
    env: ParamEnv,
    goals: Vec<Obligation>,
    effort: Effort,
) -> Result<bool, Stop>
    requires some { IsEffort effort }
    requires env { IsParamEnv rounds.old.context.trees env }
    requires empty { env_forest rounds.old.context.trees env ≡ none }
    requires fit { Each (IsObligation rounds.old.context.trees) goals.items }
    requires pending { (state rounds.old).pending ≡ [] }
    ensures stays { StaysBesideKnown rounds.old rounds.new }
    ensures cannot { let r = rounds.old in IfOk result (λ b. b ≡ true → CannotHold r (state r) (pendings_at r goals.items)) }
    ensures cause { IfErr result (IsOverlapStop rounds.old rounds.new) }
{
    let mut goals = goals;
    for _pass in 0..MAX_PASSES {
        match try_all(alloc, rounds, env, goals.as_slice(), effort)? {
            Some(left) => {
                if are_same(left.as_slice(), goals.as_slice()) {
                    return Ok(false);
                }
                goals = left;
            }
            None => return Ok(true),
        }
    }
    Ok(false)
}

/// The goals that an open impl's where clauses are come after those that are there.
fn add_wheres(
    alloc: Global,
    rounds: &mut Rounds,
    env: ParamEnv,
    of: &Opened,
    goals: &mut Vec<Obligation>,
) -> Result<(), Stop>
    requires env { IsParamEnv rounds.old.context.trees env }
    requires empty { env_forest rounds.old.context.trees env ≡ none }
    requires open { IsOpen rounds.old.context.trees of.now }
    requires fit { Each (IsObligation rounds.old.context.trees) goals.old.items }
    ensures kept { Keeps rounds_shown rounds.old rounds.new }
    ensures same { state rounds.new ≡ state rounds.old }
    ensures fit { IfOk result (λ _. Each (IsObligation rounds.new.context.trees) goals.new.items) }
    ensures added { let r = rounds.old in IfOk result (λ _. pendings_at rounds.new goals.new.items ≡ pendings_at r goals.old.items ++ goals_of_opened r.context of.now) }
    ensures cause { IfErr result (IsOverlapStop rounds.old rounds.new) }
{
    for number in 0..of.wheres.len() {
        let predicate = substitute(alloc, rounds, of.wheres[number], of.locals)?;
        let goal = Goal {
            param_env: env,
            predicate,
        };
        goals.push((GoalSource::ImplWhereBound, goal))?;
    }
    Ok(())
}

/// Whether the where clauses of two open impls can't hold together where their headers are made equal.
fn apart_of_pair(
    alloc: Global,
    rounds: &mut Rounds,
    pair: &Pair,
    effort: Effort,
) -> Result<bool, Stop>
    requires some { IsEffort effort }
    requires pair { AreOpen rounds.old.context.trees pair.now }
    ensures stays { StaysBesideKnown rounds.old rounds.new }
    ensures apart { IfOk result (λ b. b ≡ true → CannotBothHold rounds.old pair.now) }
    ensures cause { IfErr result (IsOverlapStop rounds.old rounds.new) }
{
    let env = rounds.mk_param_env(&[])?;
    if !make_equal(rounds, env, pair.first.header, pair.second.header)? {
        return Ok(false);
    }
    let mut goals = Vec::new(alloc);
    leave_pending(alloc, rounds, &mut goals)?;
    add_wheres(alloc, rounds, env, &pair.first, &mut goals)?;
    add_wheres(alloc, rounds, env, &pair.second, &mut goals)?;
    cannot_hold(alloc, rounds, env, goals, effort)
}

/// Whether the where clauses of two impls can't hold together, where what is found to be known stays known.
fn apart_here(
    alloc: Global,
    rounds: &mut Rounds,
    first: ImplId,
    second: ImplId,
    effort: Effort,
) -> Result<bool, Stop>
    requires some { IsEffort effort }
    ensures stays { StaysBesideKnown rounds.old rounds.new }
    ensures apart { let r = rounds.old in IfOk result (λ b. b ≡ true → OfDeclared r.context first second (ImplsCannotHold r (state r))) }
    ensures cause { IfErr result (IsOverlapStop rounds.old rounds.new) }
{
    let Some(pair) = open_both(alloc, rounds, first, second)? else {
        return Ok(false);
    };
    apart_of_pair(alloc, rounds, &pair, effort)
}

/// Whether the where clauses of two impls can't hold together, in a probe in which nothing is pending, so that all stays but the table.
fn apart_aside(
    alloc: Global,
    rounds: &mut Rounds,
    first: ImplId,
    second: ImplId,
    effort: Effort,
) -> Result<bool, Stop>
    requires some { IsEffort effort }
    ensures stays { StaysBesideSteps rounds.old rounds.new }
    ensures apart { let r = rounds.old in IfOk result (λ b. b ≡ true → OfDeclared r.context first second (ImplsCannotHold r (aside (state r)))) }
    ensures cause { IfErr result (IsOverlapStop rounds.old rounds.new) }
{
    let probe = rounds.begin_probe(ProbeKind::SetAside)?;
    let answer = apart_here(alloc, rounds, first, second, effort);
    rounds.end_probe(probe);
    answer
}

/// Whether the where clauses of two impls of a trait can't hold together, though none of them is refused alone.
///
/// With fresh variables for the parameters of both, their headers are made equal. What that leaves pending and all where clauses of both are
/// goals then, which are taken up in order, again and again while that changes one of them, but eight times at most. A projection is normalised
/// by that effort, and where a sure answer says what it is, that stands in its place. A goal of a trait is run by that effort, unless the
/// table has an answer for it. A refusal that decides refuses all, and so does an equation that can't be; what a Yes gives is known to the
/// others. A goal of a trait that may lead to an auto trait with an impl for some types of a head alone gives nothing. A clause of a trait that
/// binds regions is run for placeholders in their place; if that is refused, all is, and else the clause stays.
///
/// It is asked in coherence where the evaluator opens aliases, and else it is a no, as it is where the numbers aren't those of two impls of one
/// trait, and where their headers can't be made equal. Of a no nothing is said. All that is known, what is pending and the open probes stay,
/// whatever is answered; the table has what the rounds have found. The stops are those of `impls_overlap` and of `Rounds::normalize`.
pub fn kept_apart_by_clauses(
    alloc: Global,
    rounds: &mut Rounds,
    first: ImplId,
    second: ImplId,
    effort: Effort,
) -> Result<bool, Stop>
    requires some { IsEffort effort }
    ensures stays { StaysBesideSteps rounds.old rounds.new }
    ensures apart { IfOk result (λ b. b ≡ true → ClausesKeepApart rounds.old first second) }
    ensures open { let r = rounds.old in IfOk result (λ b. b ≡ true → are_open (listing r) (state r) ≡ true) }
    ensures cause { IfErr result (IsOverlapStop rounds.old rounds.new) }
{
    if !rounds.opens_aliases() {
        return Ok(false);
    }
    if !have_common_trait(rounds.cx(), first, second) {
        return Ok(false);
    }
    let pair = in_order(first, second);
    apart_aside(alloc, rounds, pair.0, pair.1, effort)
}
