//! Whether a goal is refused in coherence.

ghost use Rattle.std.specs.Prelude.{◌≡◌, ◌<◌, [], true, Ok, IfOk};
ghost use Rattle.ir_trees.specs.Syntax.Words.{IsArgs};
ghost use Rattle.candidate_eval.specs.Interface.Shown.{KeepsBut, view};
ghost use Rattle.candidate_assembly.specs.Answers.CoherentRefusals.{IsPlainGoal};
ghost use Rattle.candidate_assembly.specs.Goals.KindShown.{IsGoal, trait_kind};
ghost use Rattle.candidate_assembly.specs.Goals.Standing.{GoalIsValid};
ghost use Rattle.candidate_assembly.specs.Goals.TraitGoals.{trait_goal};
ghost use Rattle.candidate_assembly.specs.Goals.TraitRules.{trait_rules};
ghost use Rattle.candidate_rounds.specs.Evaluators.Known.{state};
ghost use Rattle.overlaps.specs.Goals.{PutsOffOneAtMost, WasRefused};
ghost use Rattle.overlaps.specs.Refused.{RefusesPredicate};

use candidate_assembly::trait_goals::compute::compute_trait_goal;
use candidate_eval::eval::context::EvalCtxt;
use candidate_eval::eval::refusal::NoSolutionOrStop;
use candidate_ir::decl::make::Build;
use candidate_ir::ir::kinds::{ParamEnv, TraitPredicate};
use candidate_ir::ir::stop::Stop;
use candidate_rounds::rounds::Rounds;
use overlaps::clauses::may_decide;
use std::alloc::Global;

/// Whether a goal that leaves nothing open is refused.
fn is_refused<E: EvalCtxt>(
    alloc: Global,
    ecx: &mut E,
    env: ParamEnv,
    predicate: TraitPredicate,
) -> Result<bool, Stop>
    requires goal { IsGoal trait_kind (E.context ecx.old) env predicate }
    requires stands { GoalIsValid trait_rules (E.state ecx.old) (trait_goal (E.context ecx.old).trees env predicate) }
    requires plain { IsPlainGoal (E.state ecx.old) (trait_goal (E.context ecx.old).trees env predicate) }
    ensures kept { KeepsBut E.EvalCtxt PutsOffOneAtMost ecx.old ecx.new }
    ensures refused { let V = view E.EvalCtxt ecx.old in IfOk result (λ b. b ≡ true → WasRefused V.judge V.context V.state (trait_goal V.trees env predicate)) }
{
    match compute_trait_goal(alloc, ecx, env, predicate) {
        Ok(_) => Ok(false),
        Err(NoSolutionOrStop::NoSolution) => Ok(true),
        Err(NoSolutionOrStop::Stop(stop)) => Err(stop),
    }
}

/// Whether the goal of a predicate is refused in coherence in so many rounds, under no environment.
///
/// After a yes each declared impl that overlaps the goal was refused, but for `default` impls and those with an alias in their header, of which
/// nothing is said. And so was what it implies, or else no header without aliases overlaps it that a crate may write which it doesn't name. An
/// alias is equal to itself alone, unless it is listed or the evaluator opens aliases: a goal may be refused that holds by the alias's type.
///
/// A no says nothing: the goal may hold, or with more rounds be refused; it may not be asked here; or it leaves something open, as where goals
/// aren't asked for in coherence, an alias stands in it, or one of its variables has a value. A stop is no answer. Of an evaluator that
/// `Rounds::new` makes nothing is pending.
pub fn is_refused_by_all(
    alloc: Global,
    rounds: &mut Rounds,
    predicate: TraitPredicate,
    count: u16,
) -> Result<bool, Stop>
    requires some { 0 < count }
    requires sort { IsArgs rounds.old.context.trees predicate.trait_ref.args }
    requires pending { (state rounds.old).pending ≡ [] }
    ensures { result ≡ Ok true → RefusesPredicate rounds.old rounds.new predicate }
{
    let env = rounds.mk_param_env(&[])?;
    if !may_decide(alloc, rounds, env, predicate)? {
        return Ok(false);
    }
    if !rounds.may_be_run(alloc, env, predicate)? {
        return Ok(false);
    }
    rounds.run(alloc, env, predicate, count)?;
    is_refused(alloc, rounds, env, predicate)
}
