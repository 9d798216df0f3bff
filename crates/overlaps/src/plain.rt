//! What an overlap rests on: equations of headers, and goals that leave nothing open.

ghost use Rattle.std.specs.Prelude.{◌≡◌, false, true, IfErr, IfOk};
ghost use Rattle.ir_trees.specs.Syntax.Trees.{holds, is_alias};
ghost use Rattle.ir_trees.specs.Syntax.Words.{IsArgs, IsParamEnv, args_forest};
ghost use Rattle.candidate_eval.specs.declared.eval.mode.TypingMode.TheVariants as mode;
ghost use Rattle.candidate_eval.specs.Interface.Shown.{Keeps, KeepsBut, StopsSomehow, view};
ghost use Rattle.candidate_eval.specs.Judges.States.{resolved};
ghost use Rattle.candidate_assembly.specs.Answers.CoherentRefusals.{IsPlainGoal};
ghost use Rattle.candidate_assembly.specs.Goals.KindShown.{IsGoal, trait_kind};
ghost use Rattle.candidate_assembly.specs.Goals.Standing.{GoalIsValid};
ghost use Rattle.candidate_assembly.specs.Goals.TraitGoals.{trait_goal};
ghost use Rattle.candidate_assembly.specs.Goals.TraitRules.{trait_rules};
ghost use Rattle.overlaps.specs.Asked.{WasAnswered};
ghost use Rattle.overlaps.specs.Goals.{PutsOffOneAtMost, WasRefused, lists_equated};
ghost use Rattle.overlaps.specs.Stopping.{IsGoalStop};

use candidate_assembly::trait_goals::compute::compute_trait_goal;
use candidate_eval::eval::context::EvalCtxt;
use candidate_eval::eval::refusal::NoSolutionOrStop;
use ir_context::decl::make::Make;
use ir_trees::ir::heads::Flag;
use ir_trees::ir::kinds::{Args, ParamEnv, TraitPredicate};
use ir_trees::ir::stop::Stop;
use ir_trees::ir::trees::Trees;
use std::alloc::Global;

/// Whether two rows of arguments can be made equal; they are then.
pub(crate) fn make_equal<E: EvalCtxt>(
    ecx: &mut E,
    env: ParamEnv,
    first: Args,
    second: Args,
) -> Result<bool, Stop>
    requires env { IsParamEnv (E.context ecx.old).trees env }
    requires first { IsArgs (E.context ecx.old).trees first }
    requires second { IsArgs (E.context ecx.old).trees second }
    ensures kept { Keeps E.EvalCtxt ecx.old ecx.new }
    ensures equal { IfOk result (λ b. b ≡ true → lists_equated (view E.EvalCtxt ecx.old) env first second ≡ Some (E.state ecx.new)) }
    ensures apart { IfOk result (λ b. b ≡ false → lists_equated (view E.EvalCtxt ecx.old) env first second ≡ None) }
    ensures cause { IfErr result (StopsSomehow E.EvalCtxt ecx.old ecx.new) }
{
    match ecx.eq_args(env, first, second) {
        Ok(()) => Ok(true),
        Err(NoSolutionOrStop::NoSolution) => Ok(false),
        Err(NoSolutionOrStop::Stop(stop)) => Err(stop),
    }
}

/// Whether all values are put into the list.
pub(crate) fn is_resolved<E: EvalCtxt>(ecx: &mut E, args: Args) -> Result<bool, Stop>
    requires { IsArgs (E.context ecx.old).trees args }
    ensures kept { Keeps E.EvalCtxt ecx.old ecx.new }
    ensures same { E.state ecx.new ≡ E.state ecx.old }
    ensures is { let V = view E.EvalCtxt ecx.old in let f = args_forest V.trees args in IfOk result (λ b. b ≡ true → resolved V.state f ≡ f) }
    ensures isnt { let V = view E.EvalCtxt ecx.old in let f = args_forest V.trees args in IfOk result (λ b. b ≡ false → resolved V.state f ≡ f → ⊥) }
    ensures cause { IfErr result (StopsSomehow E.EvalCtxt ecx.old ecx.new) }
{
    let all = ecx.resolve_args_if_possible(args)?;
    ecx.cx().recall_distinct();
    Ok(all == args)
}

/// Whether goals are asked for in coherence.
pub(crate) fn is_in_coherence<E: EvalCtxt>(ecx: &E) -> bool
    ensures yes { result ≡ true → (E.state ecx.now).mode ≡ mode.Coherence }
    ensures no { result ≡ false → (E.state ecx.now).mode ≡ mode.Coherence → ⊥ }
{
    ecx.typing_mode().is_coherence()
}

/// Whether the list is asked of in coherence, and no alias stands in it.
pub(crate) fn is_without_aliases<E: EvalCtxt>(ecx: &E, args: Args) -> bool
    requires { IsArgs (E.context ecx.now).trees args }
    ensures mode { result ≡ true → (E.state ecx.now).mode ≡ mode.Coherence }
    ensures no_alias { result ≡ true → holds is_alias (args_forest (E.context ecx.now).trees args) ≡ false }
    ensures some { result ≡ false → (E.state ecx.now).mode ≡ mode.Coherence → holds is_alias (args_forest (E.context ecx.now).trees args) ≡ true }
{
    if !ecx.typing_mode().is_coherence() {
        return false;
    }
    !ecx.cx().has(args, Flag::Alias)
}

/// Whether a goal that leaves nothing open is refused.
pub(crate) fn is_refused<E: EvalCtxt>(
    alloc: Global,
    ecx: &mut E,
    env: ParamEnv,
    predicate: TraitPredicate,
) -> Result<bool, Stop>
    requires goal { IsGoal trait_kind (E.context ecx.old) env predicate }
    requires stands { GoalIsValid trait_rules (E.state ecx.old) (trait_goal (E.context ecx.old).trees env predicate) }
    requires plain { IsPlainGoal (E.state ecx.old) (trait_goal (E.context ecx.old).trees env predicate) }
    ensures kept { KeepsBut E.EvalCtxt PutsOffOneAtMost ecx.old ecx.new }
    ensures refused { let V = view E.EvalCtxt ecx.old in IfOk result (λ b. b ≡ true → WasRefused V.judge V.context V.state (trait_goal V.trees env predicate)) }
    ensures answered { let V = view E.EvalCtxt ecx.old in IfOk result (λ b. b ≡ false → WasAnswered V.judge V.context V.state (trait_goal V.trees env predicate)) }
    ensures cause { IfErr result (IsGoalStop E.EvalCtxt ecx.old ecx.new (trait_goal (E.context ecx.old).trees env predicate)) }
{
    match compute_trait_goal(alloc, ecx, env, predicate) {
        Ok(_) => Ok(false),
        Err(NoSolutionOrStop::NoSolution) => Ok(true),
        Err(NoSolutionOrStop::Stop(stop)) => Err(stop),
    }
}
