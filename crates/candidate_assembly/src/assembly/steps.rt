//! Steps of rules, by the calls of an evaluator.

ghost use Rattle.std.specs.Prelude.{◌≡◌, Err, List, map, true, IfErr, IfOk};
ghost use Rattle.ir_trees.specs.Syntax.Trees.{Tree};
ghost use Rattle.ir_trees.specs.Syntax.Words.{ClauseListFits, IsParamEnv, clause_tree, env_forest};
ghost use Rattle.candidate_eval.specs.Interface.Accounts.{by_stop};
ghost use Rattle.candidate_eval.specs.Interface.Evaluators.{with_goals_of};
ghost use Rattle.candidate_eval.specs.Derivations.Judging.{Judged, asked};
ghost use Rattle.candidate_eval.specs.Dynamic.ObjectRequirements.{goals_in};
ghost use Rattle.candidate_eval.specs.Interface.Shown.{Keeps, view};
ghost use Rattle.candidate_assembly.specs.Answers.Closures.{IsSourced};
ghost use Rattle.candidate_assembly.specs.Answers.Telling.{HaveNoParameter, Told, ToldAs, asking_rule, flat_rule};
ghost use Rattle.candidate_assembly.specs.Answers.Shown.{Considers, StopsOfItself};
ghost use Rattle.candidate_assembly.specs.Answers.Usages.{answer_using};

use candidate_eval::eval::certainty::{Certainty, MaybeInfo};
use candidate_eval::eval::clauses::goals;
use candidate_eval::eval::context::{EvalCtxt, ProbeKind};
use candidate_eval::eval::refusal::NoSolutionOrStop;
use candidate_eval::eval::response::{Candidate, CandidateHeadUsages, CanonicalResponse};
use candidate_eval::eval::source::{BuiltinImplSource, CandidateSource};
use ir_trees::ir::kinds::{Clause, GoalSource, ParamEnv};
use std::alloc::Global;

/// The candidate of a source, by its response and by what was used for it; an error stays as it is.
pub fn with_source(
    source: CandidateSource,
    answer: Result<CanonicalResponse, NoSolutionOrStop>,
    head_usages: CandidateHeadUsages,
) -> Result<Candidate, NoSolutionOrStop>
    ensures told { (ts : List Tree) (judged : Judged) → ToldAs ts source answer judged → Told ts result judged }
    ensures sourced { IsSourced source answer result }
    ensures usages { IfOk result (λ c. c.head_usages ≡ head_usages) }
    ensures error { IfErr result (λ e. answer ≡ Err e) }
{
    let result = answer?;
    Ok(Candidate {
        source,
        result,
        head_usages,
    })
}

/// The candidate of an answer gets what was used for it; an error stays as it is.
pub fn with_head_usages(
    answer: Result<Candidate, NoSolutionOrStop>,
    head_usages: CandidateHeadUsages,
) -> Result<Candidate, NoSolutionOrStop>
    ensures { result ≡ answer_using head_usages answer }
{
    let candidate = answer?;
    Ok(Candidate {
        source: candidate.source,
        result: candidate.result,
        head_usages,
    })
}

/// The candidate of a source, with at most that certainty: the evaluator is asked, where what is pending is evaluated first. It is called in a
/// probe. `NoSolution` comes where the evaluator refuses; the stops are the evaluator's.
pub fn respond_as<E: EvalCtxt>(
    alloc: Global,
    ecx: &mut E,
    source: CandidateSource,
    certainty: Certainty,
) -> Result<Candidate, NoSolutionOrStop>
    ensures kept { Keeps E.EvalCtxt ecx.old ecx.new }
    ensures told { Told (E.context ecx.new).trees result (asked (E.judge (E.fixed ecx.old)) (E.state ecx.old) source certainty) }
    ensures cause { IfErr result (by_stop (StopsOfItself E.EvalCtxt ecx.old ecx.new)) }
{
    let result = ecx.evaluate_added_goals_and_make_canonical_response(certainty)?;
    Ok(Candidate {
        source,
        result,
        head_usages: CandidateHeadUsages::new(alloc),
    })
}

/// Clauses become pending goals in the environment, and then the candidate is asked for.
pub(crate) fn nest_and_respond<E: EvalCtxt>(
    alloc: Global,
    ecx: &mut E,
    env: ParamEnv,
    nested_source: GoalSource,
    nested: &[Clause],
    source: CandidateSource,
    certainty: Certainty,
) -> Result<Candidate, NoSolutionOrStop>
    requires env { IsParamEnv (E.context ecx.old).trees env }
    requires nested { ClauseListFits (E.context ecx.old).trees nested.now }
    ensures kept { Keeps E.EvalCtxt ecx.old ecx.new }
    ensures told { let V = view E.EvalCtxt ecx.old in Told (E.context ecx.new).trees result (asked V.judge (with_goals_of V.trees V.state nested_source (goals_in env nested.now)) source certainty) }
    ensures cause { IfErr result (by_stop (StopsOfItself E.EvalCtxt ecx.old ecx.new)) }
{
    let nested = goals(alloc, env, nested)?;
    ecx.add_goals(nested_source, nested.as_slice())?;
    respond_as(alloc, ecx, source, certainty)
}

/// The candidate of a rule that asks for nothing but nested clauses, where the rule applies.
///
/// The state is left alike the one before, whatever is answered. `NoSolution` comes where the rule doesn't apply, or where the evaluator
/// refuses; the stops are those of growing a list and of the evaluator.
pub fn consider_with_nested<E: EvalCtxt>(
    alloc: Global,
    ecx: &mut E,
    env: ParamEnv,
    applies: bool,
    nested_source: GoalSource,
    nested: &[Clause],
    source: CandidateSource,
    certainty: Certainty,
) -> Result<Candidate, NoSolutionOrStop>
    requires env { IsParamEnv (E.context ecx.old).trees env }
    requires nested { ClauseListFits (E.context ecx.old).trees nested.now }
    requires free { HaveNoParameter (E.context ecx.old).trees nested.now }
    ensures { Considers E.EvalCtxt ecx.old ecx.new (λ V. flat_rule (env_forest V.trees env) applies nested_source (map (clause_tree V.trees) nested.now) source certainty) result }
{
    if !applies {
        return Err(NoSolutionOrStop::NoSolution);
    }
    let probe = ecx.begin_probe(ProbeKind::Kept)?;
    let answer = nest_and_respond(alloc, ecx, env, nested_source, nested, source, certainty);
    let usages = ecx.end_probe(probe);
    with_head_usages(answer, usages)
}

/// The candidate of a rule that asks at once, where it applies; its source is a rule of the language. As `consider_with_nested`.
pub fn consider_unconditional<E: EvalCtxt>(
    alloc: Global,
    ecx: &mut E,
    env: ParamEnv,
    applies: bool,
    certainty: Certainty,
) -> Result<Candidate, NoSolutionOrStop>
    requires { IsParamEnv (E.context ecx.old).trees env }
    ensures { Considers E.EvalCtxt ecx.old ecx.new (λ V. asking_rule (env_forest V.trees env) applies certainty) result }
{
    let source = CandidateSource::BuiltinImpl(BuiltinImplSource::Misc);
    let nested = GoalSource::Misc;
    consider_with_nested(alloc, ecx, env, applies, nested, &[], source, certainty)
}

/// The candidate where a goal says too little: with this certainty, and as `consider_unconditional`.
pub fn forced_ambiguity<E: EvalCtxt>(
    alloc: Global,
    ecx: &mut E,
    env: ParamEnv,
    maybe: MaybeInfo,
) -> Result<Candidate, NoSolutionOrStop>
    requires { IsParamEnv (E.context ecx.old).trees env }
    ensures { Considers E.EvalCtxt ecx.old ecx.new (λ V. asking_rule (env_forest V.trees env) true (Certainty.Maybe maybe)) result }
{
    consider_unconditional(alloc, ecx, env, true, Certainty::Maybe(maybe))
}
