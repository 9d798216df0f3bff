//! Callers of calls of any evaluator.

ghost use Rattle.std.specs.Prelude.{◌≡◌, [], All, None, IfOk};
ghost use Rattle.ir_trees.specs.Syntax.Words.{IsTy, IsArgs, IsClause, IsParamEnv, ClauseListFits};
ghost use Rattle.candidate_eval.specs.Dynamic.Calls.{bound_matches_here};
ghost use Rattle.candidate_eval.specs.Interface.Evaluators.{IsGoal as IsClauseGoal};
ghost use Rattle.candidate_eval.specs.Interface.Shown.{Keeps, LeavesAlike, view};
ghost use Rattle.candidate_eval.specs.Outcomes.ResponseTrees.{IsResponse};

use candidate_eval::eval::ambiguity::{bail_with_ambiguity, flounder};
use candidate_eval::eval::binders::{enter_binder, enter_clause, instantiate_binder_with_infer};
use candidate_eval::eval::context::EvalCtxt;
use candidate_eval::eval::refusal::NoSolutionOrStop;
use candidate_eval::eval::resolving::resolve_env_if_possible;
use candidate_eval::eval::response::{Candidate, CanonicalResponse};
use candidate_eval::objects::object::{bound_matches, matching_bounds};
use candidate_ir::decl::make::Build;
use candidate_ir::ir::kinds::{
    AliasTerm, Args, Binder, Clause, GenericArg, Goal, GoalSource, ParamEnv, Ty, VarKind,
};
use candidate_ir::ir::stop::Stop;
use candidate_ir::ir::trees::Trees;
use std::alloc::Global;

/// The response that too little is known.
pub fn ambiguous<E: EvalCtxt>(ecx: &mut E) -> Result<CanonicalResponse, Stop>
    ensures kept { Keeps E.EvalCtxt ecx.old ecx.new }
    ensures fits { IfOk result (λ r. IsResponse (E.context ecx.new).trees r) }
{
    bail_with_ambiguity(ecx)
}

/// The response that too little is known to choose among the candidates. `None` where there is no candidate.
pub fn ambiguous_among<E: EvalCtxt>(
    ecx: &mut E,
    candidates: &[Candidate],
) -> Result<Option<CanonicalResponse>, Stop>
    ensures kept { Keeps E.EvalCtxt ecx.old ecx.new }
    ensures none { IfOk result (λ o. o ≡ None → candidates.now ≡ []) }
{
    match flounder(ecx, candidates) {
        Ok(response) => Ok(Some(response)),
        Err(NoSolutionOrStop::NoSolution) => Ok(None),
        Err(NoSolutionOrStop::Stop(stop)) => Err(stop),
    }
}

/// The type with a placeholder in the place of the only variable of a binder around it.
pub fn entered_type<E: EvalCtxt>(alloc: Global, ecx: &mut E, value: Ty) -> Result<Ty, Stop>
    requires { IsTy (E.context ecx.old).trees value }
    ensures { IfOk result (λ t. IsTy (E.context ecx.new).trees t) }
{
    let vars = ecx.mk_vars(&[VarKind::Ty])?;
    enter_binder(alloc, ecx, Binder { vars, value })
}

/// The arguments with a fresh variable in the place of the only variable of a binder around them.
pub fn instantiated_args<E: EvalCtxt>(alloc: Global, ecx: &mut E, value: Args) -> Result<Args, Stop>
    requires { IsArgs (E.context ecx.old).trees value }
    ensures { IfOk result (λ a. IsArgs (E.context ecx.new).trees a) }
{
    let vars = ecx.mk_vars(&[VarKind::Ty])?;
    instantiate_binder_with_infer(alloc, ecx, Binder { vars, value })
}

/// The clause with placeholders in the place of its own binder's variables.
pub fn entered_clause<E: EvalCtxt>(
    alloc: Global,
    ecx: &mut E,
    clause: Clause,
) -> Result<Clause, Stop>
    requires { IsClause (E.context ecx.old).trees clause }
    ensures kept { Keeps E.EvalCtxt ecx.old ecx.new }
    ensures sort { IfOk result (λ x. IsClause (E.context ecx.new).trees x) }
{
    enter_clause(alloc, ecx, clause)
}

/// An environment of the clause alone, with all values put in.
pub fn resolved_env<E: EvalCtxt>(
    alloc: Global,
    ecx: &mut E,
    clause: Clause,
) -> Result<ParamEnv, Stop>
    requires { IsClause (E.context ecx.old).trees clause }
    ensures { IfOk result (λ e. IsParamEnv (E.context ecx.new).trees e) }
{
    let env = ecx.mk_param_env(&[clause])?;
    resolve_env_if_possible(alloc, ecx, env)
}

/// The type in normal form, in an empty environment.
pub fn normal_type<E: EvalCtxt>(ecx: &mut E, ty: Ty) -> Result<Ty, NoSolutionOrStop>
    requires { IsTy (E.context ecx.old).trees ty }
    ensures { IfOk result (λ t. IsTy (E.context ecx.new).trees t) }
{
    let env = ecx.mk_param_env(&[])?;
    ecx.structurally_normalize_ty(env, ty)
}

/// A fresh region variable and a fresh type variable.
pub fn fresh_args<E: EvalCtxt>(ecx: &mut E) -> Result<Args, Stop>
    ensures kept { Keeps E.EvalCtxt ecx.old ecx.new }
    ensures sort { IfOk result (λ a. IsArgs (E.context ecx.new).trees a) }
{
    ecx.fresh_args_for_item(&[VarKind::Region, VarKind::Ty])
}

/// Makes two types equal. It answers the goals that are left.
pub fn goals_of_equation<E: EvalCtxt>(
    ecx: &mut E,
    env: ParamEnv,
    left: Ty,
    right: Ty,
) -> Result<Vec<(GoalSource, Goal<Clause>)>, NoSolutionOrStop>
    requires env { IsParamEnv (E.context ecx.old).trees env }
    requires left { IsTy (E.context ecx.old).trees left }
    requires right { IsTy (E.context ecx.old).trees right }
    ensures kept { Keeps E.EvalCtxt ecx.old ecx.new }
    ensures sort { IfOk result (λ v. All (λ g. IsClauseGoal (E.context ecx.new).trees g.1) v.items) }
{
    ecx.eq_and_get_goals(env, GenericArg::Ty(left), GenericArg::Ty(right))
}

/// Adds two clauses as pending goals in the environment.
pub fn ask_both<E: EvalCtxt>(
    ecx: &mut E,
    param_env: ParamEnv,
    first: Clause,
    second: Clause,
) -> Result<(), Stop>
    requires env { IsParamEnv (E.context ecx.old).trees param_env }
    requires first { IsClause (E.context ecx.old).trees first }
    requires second { IsClause (E.context ecx.old).trees second }
    ensures { Keeps E.EvalCtxt ecx.old ecx.new }
{
    let first = Goal {
        param_env,
        predicate: first,
    };
    let second = Goal {
        param_env,
        predicate: second,
    };
    ecx.add_goals(GoalSource::Misc, &[first, second])
}

/// Whether an opaque type may be hidden behind the type.
pub fn has_hidden_opaque<E: EvalCtxt>(ecx: &mut E, ty: Ty) -> Result<bool, Stop>
    requires { IsTy (E.context ecx.old).trees ty }
    ensures { E.state ecx.new ≡ E.state ecx.old }
{
    Ok(!ecx.opaques_with_sub_unified_hidden_type(ty)?.is_empty())
}

/// Whether the clause is a bound that matches the projection.
pub fn matches_projection<E: EvalCtxt>(
    alloc: Global,
    ecx: &mut E,
    env: ParamEnv,
    clause: Clause,
    projection: AliasTerm,
) -> Result<bool, Stop>
    requires env { IsParamEnv (E.context ecx.old).trees env }
    requires clause { IsClause (E.context ecx.old).trees clause }
    requires args { IsArgs (E.context ecx.old).trees projection.args }
    ensures alike { LeavesAlike E.EvalCtxt ecx.old ecx.new }
    ensures answer { IfOk result (λ b. b ≡ bound_matches_here (view E.EvalCtxt ecx.old) env clause projection) }
{
    bound_matches(alloc, ecx, env, clause, projection)
}

/// Those clauses of the environment that match the projection.
pub fn clauses_matching<E: EvalCtxt>(
    alloc: Global,
    ecx: &mut E,
    env: ParamEnv,
    projection: AliasTerm,
) -> Result<Vec<Clause>, Stop>
    requires env { IsParamEnv (E.context ecx.old).trees env }
    requires args { IsArgs (E.context ecx.old).trees projection.args }
    ensures alike { LeavesAlike E.EvalCtxt ecx.old ecx.new }
    ensures sort { IfOk result (λ v. ClauseListFits (E.context ecx.new).trees v.items) }
{
    let bounds = Vec::from_slice(alloc, ecx.cx().param_env(env))?;
    matching_bounds(alloc, ecx, env, bounds.as_slice(), projection)
}
