//! The rule for what can be called: its output is what the associated types of `Fn`, `FnMut` and `FnOnce` are.

ghost use Rattle.std.specs.Prelude.{◌≡◌, [], None, Some, false, IfErr, IfOk};
ghost use Rattle.ir_trees.specs.Declarations.Context.{world};
ghost use Rattle.ir_trees.specs.Declarations.References.{ArgumentsFit};
ghost use Rattle.ir_trees.specs.Declarations.Worlds.{TraitSort, parameters};
ghost use Rattle.ir_trees.specs.Syntax.Trees.{is_param, tree_holds};
ghost use Rattle.ir_trees.specs.Syntax.Words.{IsArgs, IsParamEnv, IsTy, ty_tree};
ghost use Rattle.candidate_eval.specs.Builtins.Callable.{CalledWith, IsCallable, callable_of};
ghost use Rattle.candidate_eval.specs.Interface.Accounts.{by_stop, if_refused};
ghost use Rattle.candidate_eval.specs.Interface.Shown.{Keeps, StopsSomehow, view};
ghost use Rattle.candidate_assembly.specs.Answers.Shown.{Considers, StopsOfItself, TellsRule};
ghost use Rattle.candidate_assembly.specs.Goals.KindShown.{IsGoal};
ghost use Rattle.candidate_assembly.specs.Goals.Kinds.{HasKnownSelfType};
ghost use Rattle.candidate_assembly.specs.Rules.Language.{rule_named};
ghost use Rattle.projection_goals.specs.Equations.{called_accepted};
ghost use Rattle.projection_goals.specs.LanguageTypes.{language_rule, output_rule};
ghost use Rattle.projection_goals.specs.Normalizing.{by_language, normalizes_goal, normalizes_kind, normalizes_rules};

use crate::kind::{NormalizesTo, reference};
use candidate_assembly::assembly::language::LanguageRule;
use candidate_assembly::assembly::steps::{consider_unconditional, with_head_usages};
use candidate_assembly::trait_goals::callable::{equate_inputs, open_callable, respond_if_sized};
use candidate_assembly::trait_goals::meeting::recall_item_has_no_parameters;
use candidate_eval::eval::certainty::Certainty;
use candidate_eval::eval::clauses::self_ty;
use candidate_eval::eval::context::{EvalCtxt, ProbeKind};
use candidate_eval::eval::refusal::NoSolutionOrStop;
use candidate_eval::eval::response::Candidate;
use candidate_eval::structural::callable::extract_tupled_inputs_and_output_from_callable;
use ir_context::decl::make::Make;
use ir_trees::decl::contents::LangItem;
use ir_trees::ir::kinds::{Binder, ClosureKind, GenericArg, ParamEnv, TraitId, TraitRef, Ty};
use std::alloc::Global;

/// Equates the arguments with the self type and these inputs, where they pass quick rejection, and then the term with the output.
fn equate_called<E: EvalCtxt>(
    ecx: &mut E,
    env: ParamEnv,
    trait_ref: TraitRef,
    term: Ty,
    called: (Ty, Ty),
) -> Result<(), NoSolutionOrStop>
    requires env { IsParamEnv (E.context ecx.old).trees env }
    requires args { IsArgs (E.context ecx.old).trees trait_ref.args }
    requires fit { ArgumentsFit (E.context ecx.old) trait_ref }
    requires term { IsTy (E.context ecx.old).trees term }
    requires inputs { IsTy (E.context ecx.old).trees called.0 }
    requires output { IsTy (E.context ecx.old).trees called.1 }
    ensures kept { Keeps E.EvalCtxt ecx.old ecx.new }
    ensures ok { let V = view E.EvalCtxt ecx.old in IfOk result (λ _. called_accepted V env trait_ref term called ≡ Some (E.state ecx.new)) }
    ensures refused { let V = view E.EvalCtxt ecx.old in IfErr result (if_refused (called_accepted V env trait_ref term called ≡ None)) }
    ensures cause { IfErr result (by_stop (StopsSomehow E.EvalCtxt ecx.old ecx.new)) }
{
    let (inputs, output) = called;
    equate_inputs(ecx, env, trait_ref, inputs)?;
    ecx.eq(env, GenericArg::Ty(term), GenericArg::Ty(output))
}

/// The candidate of a goal whose self type is called so. It is called in a probe.
fn try_output<E: EvalCtxt>(
    alloc: Global,
    ecx: &mut E,
    env: ParamEnv,
    predicate: NormalizesTo,
    callable: Binder<(Ty, Ty)>,
    sized: TraitId,
) -> Result<Candidate, NoSolutionOrStop>
    requires goal { IsGoal normalizes_kind (E.context ecx.old) env predicate }
    requires callable { IsCallable (E.context ecx.old).trees callable }
    requires inputs { tree_holds is_param (ty_tree (E.context ecx.old).trees callable.value.0) ≡ false }
    requires output { tree_holds is_param (ty_tree (E.context ecx.old).trees callable.value.1) ≡ false }
    requires no_parameters { parameters (world (E.context ecx.old)) TraitSort sized.0 ≡ Some [] }
    ensures kept { Keeps E.EvalCtxt ecx.old ecx.new }
    ensures told { TellsRule E.EvalCtxt ecx.old ecx.new (λ V. by_language (λ g t. output_rule g t (CalledWith (callable_of V.trees callable)) (Some sized)) V env predicate) result }
    ensures cause { IfErr result (by_stop (StopsOfItself E.EvalCtxt ecx.old ecx.new)) }
{
    let trait_ref = reference(ecx.cx(), env, predicate);
    let called = open_callable(alloc, ecx, callable)?;
    equate_called(ecx, env, trait_ref, predicate.term, called)?;
    respond_if_sized(alloc, ecx, env, sized, called.1)
}

/// The candidate of a goal whose self type is called so, found in a probe.
fn probe_output<E: EvalCtxt>(
    alloc: Global,
    ecx: &mut E,
    env: ParamEnv,
    predicate: NormalizesTo,
    callable: Binder<(Ty, Ty)>,
    sized: TraitId,
) -> Result<Candidate, NoSolutionOrStop>
    requires goal { IsGoal normalizes_kind (E.context ecx.old) env predicate }
    requires callable { IsCallable (E.context ecx.old).trees callable }
    requires inputs { tree_holds is_param (ty_tree (E.context ecx.old).trees callable.value.0) ≡ false }
    requires output { tree_holds is_param (ty_tree (E.context ecx.old).trees callable.value.1) ≡ false }
    requires no_parameters { parameters (world (E.context ecx.old)) TraitSort sized.0 ≡ Some [] }
    ensures { Considers E.EvalCtxt ecx.old ecx.new (λ V. by_language (λ g t. output_rule g t (CalledWith (callable_of V.trees callable)) (Some sized)) V env predicate) result }
{
    let probe = ecx.begin_probe(ProbeKind::Kept)?;
    let answer = try_output(alloc, ecx, env, predicate, callable, sized);
    let usages = ecx.end_probe(probe);
    with_head_usages(answer, usages)
}

/// The rule for what can be called so: the term is the output, which is sized, and the arguments are the self type and the inputs. Where it isn't
/// known yet whether the self type can be called so, the candidate is ambiguous.
///
/// The state is left alike the one before. `NoSolution` comes where the self type can't be called so, where no trait is declared to be `Sized`,
/// where an equation is refused, and where the evaluator refuses what is pending; the stops are those of making nodes and lists, and the
/// evaluator's.
pub(crate) fn consider_output<E: EvalCtxt>(
    alloc: Global,
    ecx: &mut E,
    env: ParamEnv,
    predicate: NormalizesTo,
    called: ClosureKind,
) -> Result<Candidate, NoSolutionOrStop>
    requires goal { IsGoal normalizes_kind (E.context ecx.old) env predicate }
    requires typed { HasKnownSelfType normalizes_rules (E.context ecx.old) (normalizes_goal (E.context ecx.old).trees env predicate) }
    ensures { Considers E.EvalCtxt ecx.old ecx.new (λ V. by_language (language_rule (rule_named (LanguageRule.FnTrait called)) V.context) V env predicate) result }
{
    let ty = self_ty(ecx.cx(), reference(ecx.cx(), env, predicate));
    let extracted = extract_tupled_inputs_and_output_from_callable(alloc, ecx, ty, called)?;
    let Some(callable) = extracted else {
        return consider_unconditional(alloc, ecx, env, true, Certainty::AMBIGUOUS);
    };
    recall_item_has_no_parameters(ecx.cx(), LangItem::Sized);
    let Some(sized) = ecx.cx().lang_item(LangItem::Sized) else {
        return Err(NoSolutionOrStop::NoSolution);
    };
    probe_output(alloc, ecx, env, predicate, callable, sized)
}
