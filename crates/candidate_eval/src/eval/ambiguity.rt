//! The answer where too little is known.

ghost use Rattle.std.specs.Prelude.{◌≡◌, ◌≢◌, [], Some, IfOk, IfErr};
ghost use Rattle.candidate_eval.specs.Interface.Accounts.{by_stop};
ghost use Rattle.candidate_eval.specs.Outcomes.Certainties.{AMBIGUOUS};
ghost use Rattle.candidate_eval.specs.Judges.Instances.{IsResponseOf};
ghost use Rattle.candidate_eval.specs.Outcomes.ResponseTrees.{IsResponse, response_of};
ghost use Rattle.candidate_eval.specs.Judges.Soundness.{Live};
ghost use Rattle.candidate_eval.specs.Judges.States.{with_pending};
ghost use Rattle.candidate_eval.specs.Interface.Shown.{IsAccounted, Keeps, LeavesAlike};

use crate::eval::certainty::Certainty;
use crate::eval::context::{EvalCtxt, ProbeKind};
use crate::eval::refusal::NoSolutionOrStop;
use crate::eval::response::{Candidate, CanonicalResponse};
use ir_trees::ir::stop::Stop;

/// The response that too little is known: what is pending is set aside for it, and it constrains the variables no more than the
/// state does.
///
/// It is never refused.
pub fn bail_with_ambiguity<E: EvalCtxt>(ecx: &mut E) -> Result<CanonicalResponse, Stop>
    ensures kept { Keeps E.EvalCtxt ecx.old ecx.new }
    ensures alike { LeavesAlike E.EvalCtxt ecx.old ecx.new }
    ensures fits { IfOk result (λ r. IsResponse (E.context ecx.new).trees r) }
    ensures answer { IfOk result (λ r. (E.judge (E.fixed ecx.old)).responded (with_pending (E.state ecx.old) []) AMBIGUOUS ≡ Some (response_of (E.context ecx.new).trees r)) }
    ensures certainty { IfOk result (λ r. r.certainty ≡ AMBIGUOUS) }
    ensures of_state { IfOk result (λ r. (L : Live) → IsResponseOf (with_pending (E.state ecx.old) []) L (response_of (E.context ecx.new).trees r)) }
    ensures cause { IfErr result (IsAccounted E.EvalCtxt ecx.old ecx.new) }
{
    let probe = ecx.begin_probe(ProbeKind::SetAside)?;
    let answer = ecx.evaluate_added_goals_and_make_canonical_response(Certainty::AMBIGUOUS);
    let _usages = ecx.end_probe(probe);
    match answer {
        Ok(response) => Ok(response),
        Err(NoSolutionOrStop::Stop(stop)) => Err(stop),
        Err(NoSolutionOrStop::NoSolution) => unreachable!(),
    }
}

/// The answer where candidates don't merge: a refusal, if there is none, and else the response that too little is known.
pub fn flounder<E: EvalCtxt>(
    ecx: &mut E,
    candidates: &[Candidate],
) -> Result<CanonicalResponse, NoSolutionOrStop>
    ensures kept { Keeps E.EvalCtxt ecx.old ecx.new }
    ensures alike { LeavesAlike E.EvalCtxt ecx.old ecx.new }
    ensures fits { IfOk result (λ r. IsResponse (E.context ecx.new).trees r) }
    ensures answer { IfOk result (λ r. (E.judge (E.fixed ecx.old)).responded (with_pending (E.state ecx.old) []) AMBIGUOUS ≡ Some (response_of (E.context ecx.new).trees r)) }
    ensures certainty { IfOk result (λ r. r.certainty ≡ AMBIGUOUS) }
    ensures of_state { IfOk result (λ r. (L : Live) → IsResponseOf (with_pending (E.state ecx.old) []) L (response_of (E.context ecx.new).trees r)) }
    ensures some { IfOk result (λ _. candidates.now ≢ []) }
    ensures refused { IfErr result (λ e. e ≡ NoSolutionOrStop.NoSolution → candidates.now ≡ []) }
    ensures cause { IfErr result (by_stop (IsAccounted E.EvalCtxt ecx.old ecx.new)) }
{
    if candidates.is_empty() {
        return Err(NoSolutionOrStop::NoSolution);
    }
    Ok(bail_with_ambiguity(ecx)?)
}
