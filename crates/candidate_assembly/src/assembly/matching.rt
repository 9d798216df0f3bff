//! What follows where a clause is matched.

ghost use Rattle.std.specs.Prelude.{◌≡◌, [], ◌∷◌, false, IfErr, OnOk};
ghost use Rattle.ir_trees.specs.Syntax.Trees.{holds, is_param};
ghost use Rattle.ir_trees.specs.Syntax.Words.{IsClause, IsParamEnv, clause_tree, env_forest};
ghost use Rattle.candidate_eval.specs.Interface.Accounts.{by_stop};
ghost use Rattle.candidate_eval.specs.Derivations.Judging.{comes_to, start};
ghost use Rattle.candidate_eval.specs.Derivations.Rules.{ask, characterise, settle};
ghost use Rattle.candidate_eval.specs.Interface.Shown.{Keeps, StopsSomehow, view};
ghost use Rattle.candidate_assembly.specs.Answers.Closures.{Responds};
ghost use Rattle.candidate_assembly.specs.Goals.Kinds.{IsAssumption, match_rule};
ghost use Rattle.candidate_assembly.specs.Rules.Requirements.{RequireNoParameter, RequirementsFit, requirement_steps, requiring_rule, with_requirements};
ghost use Rattle.candidate_assembly.specs.Answers.Telling.{Told};
ghost use Rattle.candidate_assembly.specs.Answers.Shown.{Considers, StopsOfItself, TellsRule};
ghost use Rattle.candidate_assembly.specs.Answers.Usages.{either_using};
ghost use Rattle.candidate_assembly.specs.Goals.KindShown.{IsGoal, of_goal};

use crate::assembly::characterize::characterize_param_env_assumption;
use crate::assembly::kind::GoalKind;
use crate::assembly::steps::{respond_as, with_source};
use candidate_eval::eval::certainty::Certainty;
use candidate_eval::eval::context::{EvalCtxt, ProbeKind};
use candidate_eval::eval::refusal::NoSolutionOrStop;
use candidate_eval::eval::response::{Candidate, CandidateHeadUsages, CanonicalResponse};
use candidate_eval::eval::source::{BuiltinImplSource, CandidateSource};
use ir_trees::ir::kinds::{Clause, Goal, GoalSource, ParamEnv};
use ir_trees::ir::stop::Stop;
use std::alloc::Global;

/// What is pending is evaluated, the clause characterised, and the candidate asked for, of the source and with at most the certainty that
/// this finds.
///
/// `NoSolution` comes where the evaluator refuses what is pending, a normal form or a response. It stops as these and
/// `characterize_param_env_assumption` do.
pub(crate) fn settle_and_characterize<E: EvalCtxt>(
    alloc: Global,
    ecx: &mut E,
    env: ParamEnv,
    clause: Clause,
) -> Result<Candidate, NoSolutionOrStop>
    requires env { IsParamEnv (E.context ecx.old).trees env }
    requires clause { IsClause (E.context ecx.old).trees clause }
    ensures kept { Keeps E.EvalCtxt ecx.old ecx.new }
    ensures told { let V = view E.EvalCtxt ecx.old in Told (E.context ecx.new).trees result (comes_to V.judge (env_forest V.trees env) (start V.state) (settle ∷ []) (characterise (clause_tree V.trees clause))) }
    ensures cause { IfErr result (by_stop (StopsOfItself E.EvalCtxt ecx.old ecx.new)) }
{
    ecx.try_evaluate_added_goals()?;
    let (source, certainty) = characterize_param_env_assumption(alloc, ecx, env, clause)?;
    respond_as(alloc, ecx, CandidateSource::ParamEnv(source), certainty)
}

/// Requirements become pending goals in the environment, each of its own source, in their order. The stops are the evaluator's.
fn add_requirements<E: EvalCtxt>(
    ecx: &mut E,
    env: ParamEnv,
    requirements: &[(GoalSource, Clause)],
) -> Result<(), Stop>
    requires env { IsParamEnv (E.context ecx.old).trees env }
    requires requirements { RequirementsFit (E.context ecx.old).trees requirements.now }
    ensures kept { Keeps E.EvalCtxt ecx.old ecx.new }
    ensures ok { OnOk result (E.state ecx.new ≡ with_requirements (E.context ecx.old).trees env (E.state ecx.old) requirements.now) }
    ensures cause { IfErr result (StopsSomehow E.EvalCtxt ecx.old ecx.new) }
{
    for requirement in requirements {
        let goal = Goal {
            param_env: env,
            predicate: requirement.1,
        };
        ecx.add_goal(requirement.0, goal)?;
    }
    Ok(())
}

/// Requirements become pending goals, and then a response is asked for.
pub(crate) fn require_and_respond<E: EvalCtxt>(
    ecx: &mut E,
    env: ParamEnv,
    requirements: &[(GoalSource, Clause)],
) -> Result<CanonicalResponse, NoSolutionOrStop>
    requires env { IsParamEnv (E.context ecx.old).trees env }
    requires requirements { RequirementsFit (E.context ecx.old).trees requirements.now }
    ensures kept { Keeps E.EvalCtxt ecx.old ecx.new }
    ensures responds { let V = view E.EvalCtxt ecx.old in Responds (E.context ecx.new).trees result (V.judge.responded (with_requirements V.trees env V.state requirements.now) Certainty.Yes) }
    ensures cause { IfErr result (by_stop (StopsOfItself E.EvalCtxt ecx.old ecx.new)) }
{
    add_requirements(ecx, env, requirements)?;
    ecx.evaluate_added_goals_and_make_canonical_response(Certainty::Yes)
}

/// The candidate of a rule of the language that matches nothing: in a probe the requirements become pending goals in the environment, and a
/// response is asked for.
///
/// `NoSolution` comes where the evaluator refuses the response; the stops are the evaluator's. The state is left alike the one before.
pub(crate) fn consider_requirements<E: EvalCtxt>(
    ecx: &mut E,
    env: ParamEnv,
    requirements: &[(GoalSource, Clause)],
) -> Result<Candidate, NoSolutionOrStop>
    requires env { IsParamEnv (E.context ecx.old).trees env }
    requires requirements { RequirementsFit (E.context ecx.old).trees requirements.now }
    requires free { RequireNoParameter (E.context ecx.old).trees requirements.now }
    ensures { Considers E.EvalCtxt ecx.old ecx.new (λ V. requiring_rule (env_forest V.trees env) (requirement_steps V.trees requirements.now)) result }
{
    let probe = ecx.begin_probe(ProbeKind::Kept)?;
    let answer = require_and_respond(ecx, env, requirements);
    let usages = ecx.end_probe(probe);
    let source = CandidateSource::BuiltinImpl(BuiltinImplSource::Misc);
    with_source(source, answer, usages)
}

/// The candidate of a source by a clause that implies the goal where some requirements hold: in a probe the clause is matched, the
/// requirements become pending goals in the environment, and a response is asked for.
///
/// `NoSolution` comes where the clause doesn't pass quick rejection or isn't matched, and where the evaluator refuses the response; the
/// stops are those of the match and of the evaluator. The state is left alike the one before.
pub fn probe_and_consider_implied_clause<E: EvalCtxt, G: GoalKind<E>>(
    alloc: Global,
    ecx: &mut E,
    source: CandidateSource,
    env: ParamEnv,
    predicate: G,
    clause: Clause,
    requirements: &[(GoalSource, Clause)],
) -> Result<Candidate, NoSolutionOrStop>
    requires goal { IsGoal G.kind (E.context ecx.old) env predicate }
    requires clause { IsClause (E.context ecx.old).trees clause }
    requires free { holds is_param (clause_tree (E.context ecx.old).trees clause).children ≡ false }
    requires requirements { RequirementsFit (E.context ecx.old).trees requirements.now }
    requires required_free { RequireNoParameter (E.context ecx.old).trees requirements.now }
    ensures { Considers E.EvalCtxt ecx.old ecx.new (λ V. of_goal G.kind match_rule V env predicate (clause_tree V.trees clause) (requirement_steps V.trees requirements.now) (ask source Certainty.Yes)) result }
{
    G::probe_and_match_goal_against_assumption(
        alloc,
        ecx,
        source,
        env,
        predicate,
        clause,
        |ecx: &mut E| require_and_respond(ecx, env, requirements),
    )
}

/// Matches a clause of the environment, evaluates what is pending, and characterises the clause. It is called in a probe.
pub(crate) fn match_and_characterize<E: EvalCtxt, G: GoalKind<E>>(
    alloc: Global,
    ecx: &mut E,
    env: ParamEnv,
    predicate: G,
    clause: Clause,
) -> Result<Candidate, NoSolutionOrStop>
    requires goal { IsGoal G.kind (E.context ecx.old) env predicate }
    requires clause { IsClause (E.context ecx.old).trees clause }
    requires matches { let V = view E.EvalCtxt ecx.old in IsAssumption G.kind.rules V.context (G.kind.seen V.trees env predicate) (clause_tree V.trees clause) }
    ensures kept { Keeps E.EvalCtxt ecx.old ecx.new }
    ensures told { TellsRule E.EvalCtxt ecx.old ecx.new (λ V. let t = clause_tree V.trees clause in match_rule G.kind.rules V.context (G.kind.seen V.trees env predicate) t (settle ∷ []) (characterise t)) result }
    ensures cause { IfErr result (by_stop (StopsOfItself E.EvalCtxt ecx.old ecx.new)) }
{
    G::match_assumption(
        alloc,
        ecx,
        env,
        predicate,
        clause,
        |ecx: &mut E| settle_and_characterize(alloc, ecx, env, clause),
    )
}

/// A candidate gets what was used for it; a refusal is handed out with what was used until then, other errors as the stops that they are.
pub(crate) fn with_usages(
    answer: Result<Candidate, NoSolutionOrStop>,
    usages: CandidateHeadUsages,
) -> Result<Result<Candidate, CandidateHeadUsages>, Stop>
    ensures { result ≡ either_using usages answer }
{
    match answer {
        Ok(candidate) => Ok(Ok(Candidate {
            source: candidate.source,
            result: candidate.result,
            head_usages: usages,
        })),
        Err(NoSolutionOrStop::NoSolution) => Ok(Err(usages)),
        Err(NoSolutionOrStop::Stop(stop)) => Err(stop),
    }
}
