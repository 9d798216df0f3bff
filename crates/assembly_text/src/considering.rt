//! By which candidates a goal comes to what it does.

ghost use Rattle.std.specs.Prelude.{◌≡◌, ◌<◌, IfOk};
ghost use Rattle.ir_trees.specs.Declarations.Context.{Grows};
ghost use Rattle.ir_trees.specs.Syntax.Words.{ClauseListFits};
ghost use Rattle.candidate_assembly.specs.Goals.KindShown.{IsGoal, trait_kind};
ghost use Rattle.assembly_text.specs.Solving.{IsReadGoal, IsSolvedBefore, GivenIsListed};
ghost use Rattle.candidate_rounds.specs.Table.Efforts.{IsEffort};

use crate::explaining::is_final;
use crate::solving::{context_of, environment, evaluator, run, solve, step};
use assembly_notation::given::Given;
use candidate_eval::eval::certainty::Certainty;
use candidate_eval::eval::response::Candidate;
use candidate_eval::eval::source::CandidateSource;
use candidate_rounds::rounds::Rounds;
use candidate_rounds::rounds::effort::Effort;
use candidate_rounds::rounds::goals::Verdict;
use ir_context::decl::context::Cx;
use ir_trees::ir::kinds::{Clause, ParamEnv, TraitPredicate};
use ir_trees::ir::stop::Stop;
use std::alloc::Global;

/// A candidate: by what a goal holds, if it does, and whether that is sure.
#[derive(Clone, Copy)]
pub struct Listed {
    pub source: CandidateSource,
    pub is_sure: bool,
}

/// What a goal comes to, and by which candidates.
#[derive(Drop)]
pub struct Considered {
    pub verdict: Option<Verdict>,
    pub candidates: Vec<Listed>,
}

/// What is shown of candidates.
fn shown(alloc: Global, candidates: &[Candidate]) -> Result<Vec<Listed>, Stop> {
    let mut list = Vec::new(alloc);
    for i in 0..candidates.len() {
        let is_sure = match candidates[i].result.certainty {
            Certainty::Yes => true,
            Certainty::Maybe(_) => false,
        };
        list.push(Listed {
            source: candidates[i].source,
            is_sure,
        })?;
    }
    Ok(list)
}

/// The candidates for a goal by the table; none, where it may not be run, as no goal of a text is.
fn list_here(
    alloc: Global,
    rounds: &mut Rounds,
    env: ParamEnv,
    predicate: TraitPredicate,
) -> Result<Vec<Listed>, Stop>
    requires { IsGoal trait_kind rounds.old.context env predicate }
    ensures { Grows rounds.old.context rounds.new.context }
{
    if !rounds.may_be_run(alloc, env, predicate)? {
        return Ok(Vec::new(alloc));
    }
    let candidates = rounds.candidates(alloc, env, predicate)?;
    shown(alloc, candidates.as_slice())
}

/// The candidates that the last of so many rounds lists for a goal which isn't final before it.
fn listed_last(
    alloc: Global,
    rounds: &mut Rounds,
    env: ParamEnv,
    predicate: TraitPredicate,
    effort: Effort,
) -> Result<Vec<Listed>, Stop>
    requires some { IsEffort effort }
    requires goal { IsGoal trait_kind rounds.old.context env predicate }
    ensures { Grows rounds.old.context rounds.new.context }
{
    match effort {
        Effort::Rounds(1) => list_here(alloc, rounds, env, predicate),
        Effort::Rounds(count) => {
            listed_after(alloc, rounds, env, predicate, Effort::Rounds(count - 1))
        }
        Effort::AsNeeded => listed_after(alloc, rounds, env, predicate, effort),
    }
}

/// The candidates that a round lists for a goal which was run by that effort.
fn listed_after(
    alloc: Global,
    rounds: &mut Rounds,
    env: ParamEnv,
    predicate: TraitPredicate,
    effort: Effort,
) -> Result<Vec<Listed>, Stop>
    requires some { IsEffort effort }
    requires goal { IsGoal trait_kind rounds.old.context env predicate }
    ensures { Grows rounds.old.context rounds.new.context }
{
    run(alloc, rounds, env, predicate, effort)?;
    list_here(alloc, rounds, env, predicate)
}

/// The candidates that the round lists in which the goal becomes final, one of so many.
fn listed_finally(
    alloc: Global,
    rounds: &mut Rounds,
    env: ParamEnv,
    predicate: TraitPredicate,
    effort: Effort,
) -> Result<Vec<Listed>, Stop>
    requires { IsGoal trait_kind rounds.old.context env predicate }
    ensures { Grows rounds.old.context rounds.new.context }
{
    for _before in 1..effort.most_rounds() {
        let list = list_here(alloc, rounds, env, predicate)?;
        if step(alloc, rounds, env, predicate)? {
            return Ok(list);
        }
    }
    list_here(alloc, rounds, env, predicate)
}

/// The candidates that the last round lists of a goal under these clauses, of so many at most.
fn list_in(
    alloc: Global,
    rounds: &mut Rounds,
    clauses: &[Clause],
    predicate: TraitPredicate,
    effort: Effort,
    is_final: bool,
) -> Result<Vec<Listed>, Stop>
    requires some { IsEffort effort }
    requires clauses { ClauseListFits rounds.old.context.trees clauses.now }
    requires read { IsReadGoal rounds.old.context predicate }
    ensures { Grows rounds.old.context rounds.new.context }
{
    match environment(rounds, clauses, predicate)? {
        Some(env) if is_final => listed_finally(alloc, rounds, env, predicate, effort),
        Some(env) => listed_last(alloc, rounds, env, predicate, effort),
        None => Ok(Vec::new(alloc)),
    }
}

/// The candidates that the last round lists of a goal, asked of a new evaluator, which ends then.
fn list(
    alloc: Global,
    cx: Cx,
    given: &Given,
    predicate: TraitPredicate,
    effort: Effort,
    is_final: bool,
) -> (Cx, Result<Vec<Listed>, Stop>)
    requires some { IsEffort effort }
    requires given { GivenIsListed cx.trees given.now }
    requires read { IsReadGoal cx predicate }
    ensures { Grows cx result.0 }
{
    match evaluator(alloc, cx, given) {
        Ok(mut rounds) => {
            let clauses = given.clauses.as_slice();
            let list = list_in(alloc, &mut rounds, clauses, predicate, effort, is_final);
            (context_of(rounds), list)
        }
        Err((cx, stop)) => (cx, Err(stop)),
    }
}

/// What a goal comes to in so many rounds at most, and by which candidates: those that the last round lists, found by the same rounds in a new
/// evaluator. The context has the nodes that were made meanwhile. It stops as `Rounds::run` does.
pub fn consider(
    alloc: Global,
    cx: Cx,
    given: &Given,
    predicate: TraitPredicate,
    effort: Effort,
) -> (Cx, Result<Considered, Stop>)
    requires some { IsEffort effort }
    requires given { GivenIsListed cx.trees given.now }
    requires read { IsReadGoal cx predicate }
    ensures grows { Grows cx result.0 }
    ensures comes { IfOk result.1 (λ x. IsSolvedBefore cx given.now predicate effort result.0 x.verdict) }
{
    let (cx, verdict) = solve(alloc, cx, given, predicate, effort);
    let verdict = match verdict {
        Ok(verdict) => verdict,
        Err(stop) => return (cx, Err(stop)),
    };
    let is_final = is_final(verdict.as_ref());
    let (cx, list) = list(alloc, cx, given, predicate, effort, is_final);
    match list {
        Ok(candidates) => (
            cx,
            Ok(Considered {
                verdict,
                candidates,
            }),
        ),
        Err(stop) => (cx, Err(stop)),
    }
}
