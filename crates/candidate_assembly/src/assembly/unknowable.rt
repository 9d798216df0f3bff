//! Impls that other crates may write: in coherence a goal that one of them may prove is too little known.

ghost use Rattle.std.specs.Prelude.{◌≡◌, [], ◌∷◌, false, map, IfErr, IfOk, OnOk};
ghost use Rattle.ir_trees.specs.Hierarchy.Elaboration.{IsElaboration};
ghost use Rattle.ir_trees.specs.Declarations.References.{ArgumentsFit, reference_of};
ghost use Rattle.ir_trees.specs.Syntax.Trees.{holds, is_param};
ghost use Rattle.ir_trees.specs.Validity.WellFormed.{IsWellFormedTable};
ghost use Rattle.ir_trees.specs.Syntax.Words.{ClauseListFits, IsArgs, IsParamEnv, args_forest, clause_tree, env_forest};
ghost use Rattle.candidate_eval.specs.Interface.Accounts.{by_stop, if_refused};
ghost use Rattle.candidate_eval.specs.Interface.Unmade.{IsUnmade};
ghost use Rattle.candidate_eval.specs.Derivations.Judging.{At, Over, Refused, Stopped, start, step};
ghost use Rattle.candidate_eval.specs.Interface.Knowing.{is_evaluator_stop};
ghost use Rattle.candidate_eval.specs.Dynamic.Replacing.{without_first};
ghost use Rattle.candidate_eval.specs.Derivations.Rules.{unknowable};
ghost use Rattle.candidate_eval.specs.Interface.Shown.{Keeps, view};
ghost use Rattle.candidate_assembly.specs.Answers.Telling.{HaveNoParameter, ToldSome};
ghost use Rattle.candidate_assembly.specs.Rules.Unknowable.{UnknowableJudged, positive_clause};
ghost use Rattle.candidate_assembly.specs.Answers.Shown.{ConsidersSome, StopsOfItself};
ghost use Rattle.candidate_assembly.specs.Goals.KindShown.{IsGoal, IsJudgedUnknowable};
ghost use Rattle.candidate_assembly.specs.Calls.Seen.{asked_for_unknowable};

use crate::assembly::kind::GoalKind;
use crate::assembly::listing::recall_well_formed_table;
use crate::assembly::steps::{nest_and_respond, with_head_usages};
use candidate_eval::coherence::OrphanStop;
use candidate_eval::eval::certainty::Certainty;
use candidate_eval::eval::clauses::trait_clause;
use candidate_eval::eval::context::{EvalCtxt, ProbeKind};
use candidate_eval::eval::knowing::is_knowable;
use candidate_eval::eval::refusal::NoSolutionOrStop;
use candidate_eval::eval::response::Candidate;
use candidate_eval::eval::source::CandidateSource;
use ir_context::decl::make::Build;
use ir_folds::decl::elaborate::elaborate;
use ir_trees::ir::kinds::{
    Clause, GoalSource, ParamEnv, PredicatePolarity, TraitPredicate, TraitRef,
};
use ir_trees::ir::stop::Stop;
use std::alloc::Global;

/// What it implies that the reference holds: the clause that says so, and then all else. No parameter stands in the reference.
///
/// `Stop::Memory` comes where a growth was refused, `Stop::NodesFull` where a clause was not made. The state stays.
fn implied_by_reference<E: EvalCtxt>(
    alloc: Global,
    ecx: &mut E,
    trait_ref: TraitRef,
) -> Result<Vec<Clause>, Stop>
    requires args { IsArgs (E.context ecx.old).trees trait_ref.args }
    requires fit { ArgumentsFit (E.context ecx.old) trait_ref }
    requires free { holds is_param (args_forest (E.context ecx.old).trees trait_ref.args) ≡ false }
    requires table { IsWellFormedTable (E.context ecx.old) }
    ensures kept { Keeps E.EvalCtxt ecx.old ecx.new }
    ensures same { E.state ecx.new ≡ E.state ecx.old }
    ensures sort { IfOk result (λ v. ClauseListFits (E.context ecx.new).trees v.items) }
    ensures list { let c = E.context ecx.old in IfOk result (λ v. IsElaboration c (positive_clause (reference_of c.trees trait_ref) ∷ []) (map (clause_tree (E.context ecx.new).trees) v.items)) }
    ensures free { IfOk result (λ v. HaveNoParameter (E.context ecx.new).trees v.items) }
    ensures cause { IfErr result (IsUnmade (E.context ecx.old) (E.context ecx.new)) }
{
    let vars = ecx.mk_vars(&[])?;
    let polarity = PredicatePolarity::Positive;
    let holds = TraitPredicate {
        trait_ref,
        polarity,
    };
    let clause = trait_clause(ecx, vars, holds)?;
    let implied = elaborate(alloc, ecx, &[clause])?;
    recall_well_formed_table(ecx.cx());
    Ok(implied)
}

/// Other crates may write impls of the reference, where types are normalised as the evaluator does in the environment. No parameter stands
/// in the reference.
///
/// `NoSolution` comes where they may not, and where a normal form is refused. It stops as the walk of the orphan check does, and as the
/// evaluator. What normalising changes stays.
fn require_unknowable<E: EvalCtxt>(
    alloc: Global,
    ecx: &mut E,
    env: ParamEnv,
    trait_ref: TraitRef,
) -> Result<(), NoSolutionOrStop>
    requires env { IsParamEnv (E.context ecx.old).trees env }
    requires args { IsArgs (E.context ecx.old).trees trait_ref.args }
    requires free { holds is_param (args_forest (E.context ecx.old).trees trait_ref.args) ≡ false }
    ensures kept { Keeps E.EvalCtxt ecx.old ecx.new }
    ensures ok { let V = view E.EvalCtxt ecx.old in OnOk result (step V.judge (env_forest V.trees env) (start V.state) (unknowable (reference_of V.trees trait_ref)) ≡ At (start (E.state ecx.new))) }
    ensures refused { let V = view E.EvalCtxt ecx.old in IfErr result (if_refused (step V.judge (env_forest V.trees env) (start V.state) (unknowable (reference_of V.trees trait_ref)) ≡ Over Refused)) }
    ensures stopped { let V = view E.EvalCtxt ecx.old in IfErr result (by_stop (λ s. is_evaluator_stop s ≡ false → asked_for_unknowable V env trait_ref ≡ Over (Stopped s))) }
    ensures cause { IfErr result (by_stop (StopsOfItself E.EvalCtxt ecx.old ecx.new)) }
{
    match is_knowable(alloc, ecx, env, trait_ref) {
        Ok(Err(_)) => Ok(()),
        Ok(Ok(())) => Err(NoSolutionOrStop::NoSolution),
        Err(OrphanStop::Normalize(())) => Err(NoSolutionOrStop::NoSolution),
        Err(OrphanStop::Stop(stop)) => Err(NoSolutionOrStop::Stop(stop)),
    }
}

/// The clauses after the first.
fn but_first(clauses: &[Clause]) -> &[Clause]
    ensures { result.now ≡ without_first clauses.now }
{
    match clauses {
        [_, others @ ..] => others,
        [] => &[],
    }
}

/// Where other crates may write impls of the reference, what its clause implies but for itself becomes pending, and the candidate is asked
/// for. It is called in a probe.
fn try_unknowable<E: EvalCtxt>(
    alloc: Global,
    ecx: &mut E,
    env: ParamEnv,
    trait_ref: TraitRef,
) -> Result<Candidate, NoSolutionOrStop>
    requires env { IsParamEnv (E.context ecx.old).trees env }
    requires args { IsArgs (E.context ecx.old).trees trait_ref.args }
    requires fit { ArgumentsFit (E.context ecx.old) trait_ref }
    requires free { holds is_param (args_forest (E.context ecx.old).trees trait_ref.args) ≡ false }
    ensures kept { Keeps E.EvalCtxt ecx.old ecx.new }
    ensures told { let V = view E.EvalCtxt ecx.old in ToldSome (E.context ecx.new).trees (UnknowableJudged V.judge V.context V.state (env_forest V.trees env) (reference_of V.trees trait_ref)) result }
    ensures cause { IfErr result (by_stop (StopsOfItself E.EvalCtxt ecx.old ecx.new)) }
{
    recall_well_formed_table(ecx.cx());
    require_unknowable(alloc, ecx, env, trait_ref)?;
    recall_well_formed_table(ecx.cx());
    let implied = implied_by_reference(alloc, ecx, trait_ref)?;
    let nested = but_first(implied.as_slice());
    nest_and_respond(
        alloc,
        ecx,
        env,
        GoalSource::Misc,
        nested,
        CandidateSource::CoherenceUnknowable,
        Certainty::AMBIGUOUS,
    )
}

/// The candidate by what other crates may write, for coherence: where they may write impls of the goal's trait reference, what the goal
/// implies becomes pending in a probe, and an ambiguous response is asked for.
///
/// `NoSolution` comes where they may write none, where a normal form is refused, and where the evaluator refuses what is pending or the
/// response. The stops are `Stop::WalkDepth` and `Stop::Unnameable`, of the orphan check's walk, those of making nodes and lists, and the
/// evaluator's. The state is left alike the one before.
pub fn consider_coherence_unknowable_candidate<E: EvalCtxt, G: GoalKind<E>>(
    alloc: Global,
    ecx: &mut E,
    env: ParamEnv,
    predicate: G,
) -> Result<Candidate, NoSolutionOrStop>
    requires goal { IsGoal G.kind (E.context ecx.old) env predicate }
    ensures { ConsidersSome E.EvalCtxt ecx.old ecx.new (λ V. IsJudgedUnknowable G.kind V env predicate) result }
{
    recall_well_formed_table(ecx.cx());
    let trait_ref = G::trait_ref(ecx.cx(), env, predicate);
    let probe = ecx.begin_probe(ProbeKind::Kept)?;
    let answer = try_unknowable(alloc, ecx, env, trait_ref);
    let usages = ecx.end_probe(probe);
    with_head_usages(answer, usages)
}
