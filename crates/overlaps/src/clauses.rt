//! Where clauses that are refused.

ghost use Rattle.std.specs.Prelude.{◌≡◌, ◌<◌, [], None, false, true, IfErr, IfOk, IfSome, OnOk};
ghost use Rattle.ir_trees.specs.Declarations.References.{ArgumentsFit};
ghost use Rattle.ir_trees.specs.Instantiation.Folding.{lacks_argument, substituted_tree};
ghost use Rattle.ir_trees.specs.Instantiation.Owned.{ClausesAreOwned};
ghost use Rattle.ir_trees.specs.Syntax.Trees.{none, tree_holds};
ghost use Rattle.ir_trees.specs.Syntax.Words.{IsArgs, IsClause, IsParamEnv, args_forest, clause_tree, env_forest};
ghost use Rattle.candidate_eval.specs.declared.eval.mode.TypingMode.TheVariants as mode;
ghost use Rattle.candidate_assembly.specs.Answers.CoherentRefusals.{IsPlainGoal};
ghost use Rattle.candidate_assembly.specs.Goals.KindShown.{IsGoal, trait_kind};
ghost use Rattle.candidate_assembly.specs.Goals.Standing.{GoalIsValid};
ghost use Rattle.candidate_assembly.specs.Goals.TraitGoals.{trait_goal};
ghost use Rattle.candidate_assembly.specs.Goals.TraitRules.{trait_rules};
ghost use Rattle.candidate_rounds.specs.Evaluators.Known.{state, table_of};
ghost use Rattle.overlaps.specs.Asked.{AllStay, DecidesNothing, FirstStay, GoalStays, StaysHere, WasTried};
ghost use Rattle.overlaps.specs.Stopping.{IsOverlapStop};
ghost use Rattle.overlaps.specs.Refused.{RefusesHere, RefusesInstances, RefusesOne, StaysBesideKnown, StaysBesideSteps, goal_alone};
ghost use Rattle.candidate_rounds.specs.Table.Efforts.{IsEffort};

use crate::auto::refuses_instances;
use crate::plain::{is_in_coherence, is_refused, is_resolved, is_without_aliases};
use candidate_eval::eval::clauses::{predicate_in, substitute};
use candidate_eval::eval::context::{EvalCtxt, ProbeKind};
use candidate_rounds::rounds::Rounds;
use candidate_rounds::rounds::effort::Effort;
use ir_context::decl::make::Make;
use ir_trees::ir::kinds::{Args, Clause, ParamEnv, TraitPredicate};
use ir_trees::ir::stop::Stop;
use std::alloc::Global;

/// Whether the goal of a predicate stands at what is known and leaves nothing open, so that its refusal decides, whatever crates come that it
/// doesn't name: goals are asked for in coherence, and in the predicate's arguments no alias stands and no variable that has a value.
///
/// The environment and the arguments are of the context, and nothing is pending, as of an evaluator that `Rounds::new` makes. Nodes are
/// made, and nothing else is changed. `Stop::Memory` comes where a growth was refused, and `Stop::NodesFull` where no numbers are left or a
/// tree would be higher than 1,024.
pub fn may_decide(
    alloc: Global,
    rounds: &mut Rounds,
    env: ParamEnv,
    predicate: TraitPredicate,
) -> Result<bool, Stop>
    requires env { IsParamEnv rounds.old.context.trees env }
    requires args { IsArgs rounds.old.context.trees predicate.trait_ref.args }
    requires pending { (state rounds.old).pending ≡ [] }
    ensures stays { StaysBesideSteps rounds.old rounds.new }
    ensures goal { IfOk result (λ b. b ≡ true → IsGoal trait_kind rounds.new.context env predicate) }
    ensures stands { let c = rounds.new.context in IfOk result (λ b. b ≡ true → GoalIsValid trait_rules (state rounds.new) (trait_goal c.trees env predicate)) }
    ensures plain { let c = rounds.new.context in IfOk result (λ b. b ≡ true → IsPlainGoal (state rounds.new) (trait_goal c.trees env predicate)) }
    ensures table { table_of rounds.new ≡ table_of rounds.old }
    ensures nothing { let r = rounds.old in IfOk result (λ b. b ≡ false → ArgumentsFit r.context predicate.trait_ref → DecidesNothing (state r) (trait_goal r.context.trees env predicate)) }
    ensures cause { IfErr result (IsOverlapStop rounds.old rounds.new) }
{
    let args = predicate.trait_ref.args;
    if !is_without_aliases(rounds, args) {
        return Ok(false);
    }
    if !is_resolved(rounds, args)? {
        return Ok(false);
    }
    Ok(rounds.stands_here(alloc, env, predicate))
}

/// Runs the goal by that effort where it stands at what is known, so that the table has what it comes to.
fn run_where_it_stands(
    alloc: Global,
    rounds: &mut Rounds,
    env: ParamEnv,
    predicate: TraitPredicate,
    effort: Effort,
) -> Result<(), Stop>
    requires some { IsEffort effort }
    requires env { IsParamEnv rounds.old.context.trees env }
    requires empty { env_forest rounds.old.context.trees env ≡ none }
    requires args { IsArgs rounds.old.context.trees predicate.trait_ref.args }
    requires fit { ArgumentsFit rounds.old.context predicate.trait_ref }
    ensures stays { StaysBesideSteps rounds.old rounds.new }
    ensures tried { let r = rounds.old in OnOk result (WasTried r (state r) effort (goal_alone r.context.trees predicate) (table_of r) (table_of rounds.new)) }
    ensures cause { IfErr result (IsOverlapStop rounds.old rounds.new) }
{
    if !rounds.stands_here(alloc, env, predicate) {
        return Ok(());
    }
    if !rounds.may_be_run(alloc, env, predicate)? {
        return Ok(());
    }
    let _verdict = rounds.run_by(alloc, env, predicate, effort)?;
    Ok(())
}

/// Whether the goal is refused by that effort, where it is asked for in coherence and may decide, and each of its instances is, as far as
/// auto traits go.
fn is_refused_in_coherence(
    alloc: Global,
    rounds: &mut Rounds,
    env: ParamEnv,
    predicate: TraitPredicate,
    effort: Effort,
) -> Result<bool, Stop>
    requires some { IsEffort effort }
    requires env { IsParamEnv rounds.old.context.trees env }
    requires empty { env_forest rounds.old.context.trees env ≡ none }
    requires args { IsArgs rounds.old.context.trees predicate.trait_ref.args }
    requires fit { ArgumentsFit rounds.old.context predicate.trait_ref }
    requires pending { (state rounds.old).pending ≡ [] }
    requires coherence { (state rounds.old).mode ≡ mode.Coherence }
    ensures stays { StaysBesideKnown rounds.old rounds.new }
    ensures refused { IfOk result (λ b. b ≡ true → RefusesInstances rounds.old rounds.new predicate) }
    ensures asked { let r = rounds.old in IfOk result (λ b. b ≡ false → GoalStays r (state r) effort (goal_alone r.context.trees predicate) (table_of r) (table_of rounds.new)) }
    ensures cause { IfErr result (IsOverlapStop rounds.old rounds.new) }
{
    if !may_decide(alloc, rounds, env, predicate)? {
        return Ok(false);
    }
    if !rounds.may_be_run(alloc, env, predicate)? {
        return Ok(false);
    }
    rounds.run_by(alloc, env, predicate, effort)?;
    if !is_refused(alloc, rounds, env, predicate)? {
        return Ok(false);
    }
    refuses_instances(alloc, rounds.cx(), predicate.trait_ref)
}

/// Whether the goal is refused in coherence; in another mode it is run, and nothing is decided.
pub(crate) fn is_predicate_refused(
    alloc: Global,
    rounds: &mut Rounds,
    env: ParamEnv,
    predicate: TraitPredicate,
    effort: Effort,
) -> Result<bool, Stop>
    requires some { IsEffort effort }
    requires env { IsParamEnv rounds.old.context.trees env }
    requires empty { env_forest rounds.old.context.trees env ≡ none }
    requires args { IsArgs rounds.old.context.trees predicate.trait_ref.args }
    requires fit { ArgumentsFit rounds.old.context predicate.trait_ref }
    requires pending { (state rounds.old).pending ≡ [] }
    ensures stays { StaysBesideKnown rounds.old rounds.new }
    ensures refused { IfOk result (λ b. b ≡ true → RefusesInstances rounds.old rounds.new predicate) }
    ensures asked { let r = rounds.old in IfOk result (λ b. b ≡ false → GoalStays r (state r) effort (goal_alone r.context.trees predicate) (table_of r) (table_of rounds.new)) }
    ensures cause { IfErr result (IsOverlapStop rounds.old rounds.new) }
{
    if !is_in_coherence(rounds) {
        run_where_it_stands(alloc, rounds, env, predicate, effort)?;
        return Ok(false);
    }
    is_refused_in_coherence(alloc, rounds, env, predicate, effort)
}

/// Whether a where clause is refused by that effort, with what stands for the parameters put in and all values; one that says nothing of
/// a trait isn't.
fn is_clause_refused(
    alloc: Global,
    rounds: &mut Rounds,
    env: ParamEnv,
    clause: Clause,
    locals: Args,
    effort: Effort,
) -> Result<bool, Stop>
    requires some { IsEffort effort }
    requires env { IsParamEnv rounds.old.context.trees env }
    requires empty { env_forest rounds.old.context.trees env ≡ none }
    requires clause { IsClause rounds.old.context.trees clause }
    requires locals { IsArgs rounds.old.context.trees locals }
    requires pending { (state rounds.old).pending ≡ [] }
    requires there { tree_holds (lacks_argument (args_forest rounds.old.context.trees locals)) (clause_tree rounds.old.context.trees clause) ≡ false }
    ensures stays { StaysBesideKnown rounds.old rounds.new }
    ensures refused { let ts = rounds.old.context.trees in IfOk result (λ b. b ≡ true → RefusesHere rounds.old rounds.new (substituted_tree (args_forest ts locals) (clause_tree ts clause))) }
    ensures asked { let r = rounds.old in IfOk result (λ b. b ≡ false → StaysHere r (state r) effort (args_forest r.context.trees locals) clause (table_of r) (table_of rounds.new)) }
    ensures cause { IfErr result (IsOverlapStop rounds.old rounds.new) }
{
    let clause = substitute(alloc, rounds, clause, locals)?;
    let clause = rounds.resolve_clause_if_possible(clause)?;
    let Some(predicate) = predicate_in(rounds.cx(), clause) else {
        return Ok(false);
    };
    is_predicate_refused(alloc, rounds, env, predicate, effort)
}

/// Whether the clause is refused, asked in a probe, so that what is known stays.
fn probe_clause(
    alloc: Global,
    rounds: &mut Rounds,
    env: ParamEnv,
    clause: Clause,
    locals: Args,
    effort: Effort,
) -> Result<bool, Stop>
    requires some { IsEffort effort }
    requires env { IsParamEnv rounds.old.context.trees env }
    requires empty { env_forest rounds.old.context.trees env ≡ none }
    requires clause { IsClause rounds.old.context.trees clause }
    requires locals { IsArgs rounds.old.context.trees locals }
    requires pending { (state rounds.old).pending ≡ [] }
    requires there { tree_holds (lacks_argument (args_forest rounds.old.context.trees locals)) (clause_tree rounds.old.context.trees clause) ≡ false }
    ensures stays { StaysBesideSteps rounds.old rounds.new }
    ensures refused { let ts = rounds.old.context.trees in IfOk result (λ b. b ≡ true → RefusesHere rounds.old rounds.new (substituted_tree (args_forest ts locals) (clause_tree ts clause))) }
    ensures asked { let r = rounds.old in IfOk result (λ b. b ≡ false → StaysHere r (state r) effort (args_forest r.context.trees locals) clause (table_of r) (table_of rounds.new)) }
    ensures cause { IfErr result (IsOverlapStop rounds.old rounds.new) }
{
    let probe = rounds.begin_probe(ProbeKind::Kept)?;
    let answer = is_clause_refused(alloc, rounds, env, clause, locals, effort);
    rounds.end_probe(probe);
    answer
}

/// The number of the first of the where clauses that is refused by that effort, with what stands for the parameters put in.
pub(crate) fn first_refused(
    alloc: Global,
    rounds: &mut Rounds,
    env: ParamEnv,
    clauses: &[Clause],
    locals: Args,
    effort: Effort,
) -> Result<Option<usize>, Stop>
    requires some { IsEffort effort }
    requires env { IsParamEnv rounds.old.context.trees env }
    requires empty { env_forest rounds.old.context.trees env ≡ none }
    requires pending { (state rounds.old).pending ≡ [] }
    requires locals { IsArgs rounds.old.context.trees locals }
    requires clauses { ClausesAreOwned rounds.old.context.trees (args_forest rounds.old.context.trees locals) clauses.now }
    ensures stays { StaysBesideSteps rounds.old rounds.new }
    ensures refused { let ts = rounds.old.context.trees in IfOk result (λ o. IfSome o (RefusesOne rounds.old rounds.new (args_forest ts locals) clauses.now)) }
    ensures asked { let r = rounds.old in IfOk result (λ o. o ≡ None → AllStay r (state r) effort (args_forest r.context.trees locals) clauses.now (table_of r) (table_of rounds.new)) }
    ensures before { let r = rounds.old in IfOk result (λ o. IfSome o (FirstStay r (state r) effort (args_forest r.context.trees locals) clauses.now (table_of r))) }
    ensures cause { IfErr result (IsOverlapStop rounds.old rounds.new) }
{
    for number in 0..clauses.len() {
        if probe_clause(alloc, rounds, env, clauses[number], locals, effort)? {
            return Ok(Some(number));
        }
    }
    Ok(None)
}
