//! The rule for what can be called: a goal of `Fn`, `FnMut` or `FnOnce`.

ghost use Rattle.std.specs.Prelude.{◌≡◌, [], None, Some, false, true, IfErr, IfOk, OnOk};
ghost use Rattle.ir_trees.specs.Declarations.Context.{world};
ghost use Rattle.ir_trees.specs.Declarations.References.{ArgumentsFit};
ghost use Rattle.ir_trees.specs.Syntax.Trees.{is_param, tree_holds};
ghost use Rattle.ir_trees.specs.Syntax.Words.{IsArgs, IsParamEnv, IsTy, env_forest, ty_tree};
ghost use Rattle.ir_trees.specs.Declarations.Worlds.{TraitSort, parameters};
ghost use Rattle.candidate_eval.specs.Interface.Accounts.{by_stop, if_refused};
ghost use Rattle.candidate_eval.specs.Builtins.Callable.{CalledWith, IsCallable, callable_of, is_unknown};
ghost use Rattle.candidate_eval.specs.Derivations.Characterization.{binder_kinds};
ghost use Rattle.candidate_eval.specs.Derivations.Judging.{asked};
ghost use Rattle.candidate_eval.specs.Judges.States.{added, with_fresh_variables};
ghost use Rattle.candidate_eval.specs.declared.eval.certainty.Certainty.TheVariants.{Yes};
ghost use Rattle.candidate_eval.specs.Interface.Shown.{Keeps, StopsSomehow, view};
ghost use Rattle.candidate_eval.specs.Interface.Evaluators.{HasTree};
ghost use Rattle.candidate_assembly.specs.Rules.BuiltinRules.{call_rule, fn_rule, meets, misc, self_of};
ghost use Rattle.candidate_assembly.specs.Calls.Calling.{nested_goal};
ghost use Rattle.candidate_assembly.specs.Answers.Telling.{Told};
ghost use Rattle.candidate_assembly.specs.Goals.TraitGoals.{is_positive, trait_goal};
ghost use Rattle.candidate_assembly.specs.Answers.Shown.{Considers, StopsOfItself, TellsRule};
ghost use Rattle.candidate_assembly.specs.Goals.KindShown.{IsGoal, trait_kind};
ghost use Rattle.candidate_assembly.specs.Calls.Seen.{matched_with_inputs, with_variables};

use crate::assembly::steps::{consider_unconditional, nest_and_respond, with_head_usages};
use crate::trait_goals::builtin::is_positive;
use crate::trait_goals::meeting::{meets_trait, recall_item_has_no_parameters};
use candidate_eval::eval::binders::fresh_args_for_binder;
use candidate_eval::eval::certainty::Certainty;
use candidate_eval::eval::clauses::self_ty;
use candidate_eval::eval::context::{EvalCtxt, ProbeKind};
use candidate_eval::eval::refusal::NoSolutionOrStop;
use candidate_eval::eval::response::Candidate;
use candidate_eval::eval::source::{BuiltinImplSource, CandidateSource};
use candidate_eval::structural::callable::extract_tupled_inputs_and_output_from_callable;
use ir_context::decl::make::{Build, Make};
use ir_folds::decl::open::replace_bound_vars;
use ir_trees::decl::contents::LangItem;
use ir_trees::ir::kinds::{
    Binder, ClosureKind, GenericArg, GoalSource, ParamEnv, TraitId, TraitPredicate, TraitRef, Ty,
};
use ir_trees::ir::stop::Stop;
use ir_trees::ir::trees::Trees;
use ir_trees::ir::unify::RightSide;
use std::alloc::Global;

/// The inputs and the output of what is called, with fresh variables in the place of those of its binder. It is called in a probe: after a stop
/// the variables that were made stay. The stops are those of making variables and nodes.
pub fn open_callable<E: EvalCtxt>(
    alloc: Global,
    ecx: &mut E,
    callable: Binder<(Ty, Ty)>,
) -> Result<(Ty, Ty), Stop>
    requires { IsCallable (E.context ecx.old).trees callable }
    ensures kept { Keeps E.EvalCtxt ecx.old ecx.new }
    ensures state { OnOk result (E.state ecx.new ≡ with_fresh_variables (E.state ecx.old) (binder_kinds (callable_of (E.context ecx.old).trees callable).variables)) }
    ensures inputs { let V = view E.EvalCtxt ecx.old in let W = view E.EvalCtxt ecx.new in IfOk result (λ r. HasTree W.trees r.0 (with_variables V callable (callable_of V.trees callable).inputs)) }
    ensures output { let V = view E.EvalCtxt ecx.old in let W = view E.EvalCtxt ecx.new in IfOk result (λ r. HasTree W.trees r.1 (with_variables V callable (callable_of V.trees callable).output)) }
    ensures cause { IfErr result (StopsSomehow E.EvalCtxt ecx.old ecx.new) }
{
    let (inputs, output) = callable.value;
    let values = fresh_args_for_binder(alloc, ecx, callable.vars)?;
    let inputs = replace_bound_vars(alloc, ecx, inputs, values)?;
    let output = replace_bound_vars(alloc, ecx, output, values)?;
    Ok((inputs, output))
}

/// Equates the arguments of the goal with its self type and these inputs, where they pass quick rejection. It is called in a probe.
///
/// `NoSolution` comes where they don't pass, and where the evaluator refuses the equation; the stops are those of making nodes, and the
/// evaluator's.
pub fn equate_inputs<E: EvalCtxt>(
    ecx: &mut E,
    env: ParamEnv,
    trait_ref: TraitRef,
    inputs: Ty,
) -> Result<(), NoSolutionOrStop>
    requires env { IsParamEnv (E.context ecx.old).trees env }
    requires args { IsArgs (E.context ecx.old).trees trait_ref.args }
    requires fit { ArgumentsFit (E.context ecx.old) trait_ref }
    requires inputs { IsTy (E.context ecx.old).trees inputs }
    ensures kept { Keeps E.EvalCtxt ecx.old ecx.new }
    ensures ok { let V = view E.EvalCtxt ecx.old in IfOk result (λ _. matched_with_inputs V env trait_ref inputs ≡ Some (E.state ecx.new)) }
    ensures refused { let V = view E.EvalCtxt ecx.old in IfErr result (if_refused (matched_with_inputs V env trait_ref inputs ≡ None)) }
    ensures cause { IfErr result (by_stop (StopsSomehow E.EvalCtxt ecx.old ecx.new)) }
{
    let ty = self_ty(ecx.cx(), trait_ref);
    let called = ecx.mk_args(&[GenericArg::Ty(ty), GenericArg::Ty(inputs)])?;
    if !ecx
        .cx()
        .args_may_unify(trait_ref.args, called, RightSide::Plain)
    {
        return Err(NoSolutionOrStop::NoSolution);
    }
    ecx.eq_args(env, trait_ref.args, called)
}

/// The candidate, where the output is sized: that it is becomes pending, and then the evaluator is asked. It is called in a probe.
///
/// `NoSolution` comes where the evaluator refuses what is pending; the stops are those of making nodes and lists, and the evaluator's.
pub fn respond_if_sized<E: EvalCtxt>(
    alloc: Global,
    ecx: &mut E,
    env: ParamEnv,
    sized: TraitId,
    output: Ty,
) -> Result<Candidate, NoSolutionOrStop>
    requires env { IsParamEnv (E.context ecx.old).trees env }
    requires no_parameters { parameters (world (E.context ecx.old)) TraitSort sized.0 ≡ Some [] }
    requires output { IsTy (E.context ecx.old).trees output }
    ensures kept { Keeps E.EvalCtxt ecx.old ecx.new }
    ensures told { let V = view E.EvalCtxt ecx.old in Told (E.context ecx.new).trees result (asked V.judge (added V.state (nested_goal (env_forest V.trees env) (meets sized (ty_tree V.trees output)))) misc Yes) }
    ensures cause { IfErr result (by_stop (StopsOfItself E.EvalCtxt ecx.old ecx.new)) }
{
    let clause = meets_trait(ecx, sized, output)?;
    let source = CandidateSource::BuiltinImpl(BuiltinImplSource::Misc);
    let nested = GoalSource::ImplWhereBound;
    nest_and_respond(alloc, ecx, env, nested, &[clause], source, Certainty::Yes)
}

/// The candidate of a goal whose self type is called so. It is called in a probe.
fn try_call<E: EvalCtxt>(
    alloc: Global,
    ecx: &mut E,
    env: ParamEnv,
    predicate: TraitPredicate,
    callable: Binder<(Ty, Ty)>,
    sized: TraitId,
) -> Result<Candidate, NoSolutionOrStop>
    requires goal { IsGoal trait_kind (E.context ecx.old) env predicate }
    requires positive { is_positive predicate.polarity ≡ true }
    requires callable { IsCallable (E.context ecx.old).trees callable }
    requires inputs { tree_holds is_param (ty_tree (E.context ecx.old).trees callable.value.0) ≡ false }
    requires output { tree_holds is_param (ty_tree (E.context ecx.old).trees callable.value.1) ≡ false }
    requires no_parameters { parameters (world (E.context ecx.old)) TraitSort sized.0 ≡ Some [] }
    ensures kept { Keeps E.EvalCtxt ecx.old ecx.new }
    ensures told { TellsRule E.EvalCtxt ecx.old ecx.new (λ V. call_rule (trait_goal V.trees env predicate) (CalledWith (callable_of V.trees callable)) (Some sized)) result }
    ensures cause { IfErr result (by_stop (StopsOfItself E.EvalCtxt ecx.old ecx.new)) }
{
    let (inputs, output) = open_callable(alloc, ecx, callable)?;
    equate_inputs(ecx, env, predicate.trait_ref, inputs)?;
    respond_if_sized(alloc, ecx, env, sized, output)
}

/// The candidate of a goal whose self type is called so, in a probe.
fn probe_call<E: EvalCtxt>(
    alloc: Global,
    ecx: &mut E,
    env: ParamEnv,
    predicate: TraitPredicate,
    callable: Binder<(Ty, Ty)>,
    sized: TraitId,
) -> Result<Candidate, NoSolutionOrStop>
    requires goal { IsGoal trait_kind (E.context ecx.old) env predicate }
    requires positive { is_positive predicate.polarity ≡ true }
    requires callable { IsCallable (E.context ecx.old).trees callable }
    requires inputs { tree_holds is_param (ty_tree (E.context ecx.old).trees callable.value.0) ≡ false }
    requires output { tree_holds is_param (ty_tree (E.context ecx.old).trees callable.value.1) ≡ false }
    requires no_parameters { parameters (world (E.context ecx.old)) TraitSort sized.0 ≡ Some [] }
    ensures { Considers E.EvalCtxt ecx.old ecx.new (λ V. call_rule (trait_goal V.trees env predicate) (CalledWith (callable_of V.trees callable)) (Some sized)) result }
{
    let probe = ecx.begin_probe(ProbeKind::Kept)?;
    let answer = try_call(alloc, ecx, env, predicate, callable, sized);
    let usages = ecx.end_probe(probe);
    with_head_usages(answer, usages)
}

/// The rule for what can be called so: the goal's arguments are its self type and the inputs, and the output is sized. Where it isn't
/// known yet whether the self type can be called so, the candidate is ambiguous.
///
/// The state is left alike the one before. `NoSolution` comes where the goal isn't positive, where the self type can't be called so, where
/// no trait is declared to be `Sized`, where the arguments can't be equated, and where the evaluator refuses; the stops are those of making
/// nodes and lists, and the evaluator's.
pub(crate) fn consider_callable<E: EvalCtxt>(
    alloc: Global,
    ecx: &mut E,
    env: ParamEnv,
    predicate: TraitPredicate,
    called: ClosureKind,
) -> Result<Candidate, NoSolutionOrStop>
    requires goal { IsGoal trait_kind (E.context ecx.old) env predicate }
    requires typed { is_unknown (self_of (trait_goal (E.context ecx.old).trees env predicate)).head ≡ false }
    ensures { Considers E.EvalCtxt ecx.old ecx.new (λ V. fn_rule called V.context (trait_goal V.trees env predicate)) result }
{
    if !is_positive(predicate.polarity) {
        return Err(NoSolutionOrStop::NoSolution);
    }
    let ty = self_ty(ecx.cx(), predicate.trait_ref);
    let extracted = extract_tupled_inputs_and_output_from_callable(alloc, ecx, ty, called)?;
    let Some(callable) = extracted else {
        return consider_unconditional(alloc, ecx, env, true, Certainty::AMBIGUOUS);
    };
    recall_item_has_no_parameters(ecx.cx(), LangItem::Sized);
    let Some(sized) = ecx.cx().lang_item(LangItem::Sized) else {
        return Err(NoSolutionOrStop::NoSolution);
    };
    probe_call(alloc, ecx, env, predicate, callable, sized)
}
