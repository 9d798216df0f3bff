//! Goals that a projection is a term, proved.

ghost use Rattle.std.specs.Prelude.{◌≡◌, None, Some, IfOk, IfErr};
ghost use Rattle.ir_trees.specs.declared.ir.kinds.AliasKind.TheVariants as alias_kind;
ghost use Rattle.ir_trees.specs.declared.ir.kinds.TyKind.TheVariants as type_kind;
ghost use Rattle.ir_trees.specs.Syntax.Words.{IsParamEnv, IsTy, kind_tree, ty_tree};
ghost use Rattle.candidate_eval.specs.Interface.Accounts.{by_stop, if_refused};
ghost use Rattle.candidate_eval.specs.Interface.Shown.{Keeps, KeepsBut, StopsSomehow, view};
ghost use Rattle.candidate_eval.specs.Outcomes.ResponseTrees.{IsResponse, response_of};
ghost use Rattle.candidate_assembly.specs.Answers.Shown.{Answers, IsAnsweredBy};
ghost use Rattle.candidate_assembly.specs.Goals.KindShown.{IsGoal};
ghost use Rattle.candidate_assembly.specs.Goals.Standing.{GoalIsValid};
ghost use Rattle.candidate_assembly.specs.Rules.AliasFaults.{PutsOffAny};
ghost use Rattle.projection_goals.specs.Closures.{always, answers_rigid};
ghost use Rattle.projection_goals.specs.Equations.{equal_response, rigid_response};
ghost use Rattle.projection_goals.specs.Normalizing.{normalizes_goal, normalizes_kind, normalizes_rules};

use crate::kind::NormalizesTo;
use candidate_assembly::assembly::merging::{TraitGoalProvenVia, assemble_and_merge_candidates};
use candidate_eval::eval::certainty::Certainty;
use candidate_eval::eval::context::{EvalCtxt, ProbeKind};
use candidate_eval::eval::refusal::NoSolutionOrStop;
use candidate_eval::eval::response::CanonicalResponse;
use ir_context::decl::make::Make;
use ir_trees::ir::kinds::{GenericArg, ParamEnv, Ty, TyKind};
use ir_trees::ir::stop::Stop;
use std::alloc::Global;

/// The response where two types are made equal. It is called in a probe.
fn respond_equal<E: EvalCtxt>(
    ecx: &mut E,
    env: ParamEnv,
    term: Ty,
    other: Ty,
) -> Result<CanonicalResponse, NoSolutionOrStop>
    requires env { IsParamEnv (E.context ecx.old).trees env }
    requires term { IsTy (E.context ecx.old).trees term }
    requires other { IsTy (E.context ecx.old).trees other }
    ensures kept { Keeps E.EvalCtxt ecx.old ecx.new }
    ensures sort { IfOk result (λ r. IsResponse (E.context ecx.new).trees r) }
    ensures ok { let V = view E.EvalCtxt ecx.old in IfOk result (λ r. equal_response V env term other ≡ Some (response_of (E.context ecx.new).trees r)) }
    ensures refused { IfErr result (if_refused (equal_response (view E.EvalCtxt ecx.old) env term other ≡ None)) }
    ensures cause { IfErr result (by_stop (StopsSomehow E.EvalCtxt ecx.old ecx.new)) }
{
    ecx.eq(env, GenericArg::Ty(term), GenericArg::Ty(other))?;
    ecx.evaluate_added_goals_and_make_canonical_response(Certainty::Yes)
}

/// The response where two types are made equal, in a probe.
fn probe_equal<E: EvalCtxt>(
    ecx: &mut E,
    env: ParamEnv,
    term: Ty,
    other: Ty,
) -> Result<CanonicalResponse, NoSolutionOrStop>
    requires env { IsParamEnv (E.context ecx.old).trees env }
    requires term { IsTy (E.context ecx.old).trees term }
    requires other { IsTy (E.context ecx.old).trees other }
    ensures { Answers E.EvalCtxt ecx.old ecx.new (λ V. equal_response V env term other) result }
{
    let probe = ecx.begin_probe(ProbeKind::Kept)?;
    let answer = respond_equal(ecx, env, term, other);
    let _usages = ecx.end_probe(probe);
    answer
}

/// The projection as a type.
fn alias_type<E: EvalCtxt>(ecx: &mut E, env: ParamEnv, goal: NormalizesTo) -> Result<Ty, Stop>
    requires goal { IsGoal normalizes_kind (E.context ecx.old) env goal }
    requires projection { goal.alias.kind ≡ alias_kind.Projection }
    ensures kept { Keeps E.EvalCtxt ecx.old ecx.new }
    ensures same { E.state ecx.new ≡ E.state ecx.old }
    ensures sort { IfOk result (λ t. IsTy (E.context ecx.new).trees t) }
    ensures tree { let ts = (E.context ecx.old).trees in IfOk result (λ t. ty_tree (E.context ecx.new).trees t ≡ kind_tree ts (type_kind.Alias goal.alias)) }
    ensures cause { IfErr result (StopsSomehow E.EvalCtxt ecx.old ecx.new) }
{
    let _ = env;
    ecx.mk_ty(TyKind::Alias(goal.alias))
}

/// The response where the projection is rigid: in a probe the term is made equal to the projection itself.
///
/// `NoSolution` comes where the evaluator refuses the equation or what it leaves; the stops are those of making a type and of the
/// evaluator. The state is left alike the one before.
fn respond_rigid<E: EvalCtxt>(
    ecx: &mut E,
    env: ParamEnv,
    goal: NormalizesTo,
) -> Result<CanonicalResponse, NoSolutionOrStop>
    requires goal { IsGoal normalizes_kind (E.context ecx.old) env goal }
    requires projection { goal.alias.kind ≡ alias_kind.Projection }
    ensures { Answers E.EvalCtxt ecx.old ecx.new (λ V. rigid_response V env goal) result }
{
    let alias = alias_type(ecx, env, goal)?;
    probe_equal(ecx, env, goal.term, alias)
}

/// The answer to a goal that a projection is a term, by how the goal of its trait was proved.
///
/// Where that isn't known the goal is ambiguous. Where it was proved by clauses of the environment or by bounds, it is what the candidates
/// by these come to, and where there are none the projection is rigid; else what all candidates come to, those by impls among them. The
/// stops are those of `assemble_and_merge_candidates`.
pub fn compute_normalizes_to<E: EvalCtxt>(
    alloc: Global,
    ecx: &mut E,
    proven_via: Option<TraitGoalProvenVia>,
    env: ParamEnv,
    goal: NormalizesTo,
) -> Result<CanonicalResponse, NoSolutionOrStop>
    requires goal { IsGoal normalizes_kind (E.context ecx.old) env goal }
    requires projection { goal.alias.kind ≡ alias_kind.Projection }
    requires stands { GoalIsValid normalizes_rules (E.state ecx.old) (normalizes_goal (E.context ecx.old).trees env goal) }
    ensures kept { KeepsBut E.EvalCtxt PutsOffAny ecx.old ecx.new }
    ensures answered { IsAnsweredBy E.EvalCtxt (always None) tt (answers_rigid E.EvalCtxt env goal) tt normalizes_kind ecx.old env goal proven_via result ecx.new }
{
    assemble_and_merge_candidates(
        alloc,
        ecx,
        proven_via,
        env,
        goal,
        |_: &mut E| -> Option<Result<CanonicalResponse, NoSolutionOrStop>> { None },
        |ecx: &mut E| respond_rigid(ecx, env, goal),
    )
}
