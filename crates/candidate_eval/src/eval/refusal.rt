//! Why there is no answer.

ghost use Rattle.std.specs.Prelude.{◌≡◌};
ghost use Rattle.candidate_eval.specs.declared.eval.refusal.NoSolutionOrStop.TheVariants as refusal;

use ir_trees::ir::stop::Stop;

/// A goal is refused, or a call gave up. A stop is never a refusal.
#[derive(Clone, Copy, Debug, PartialEq, Eq)]
pub enum NoSolutionOrStop {
    NoSolution,
    Stop(Stop),
}

impl From<Stop> for NoSolutionOrStop {
    ghost from_gives = { λ s e. e ≡ refusal.Stop s };

    fn from(stop: Stop) -> Self {
        NoSolutionOrStop::Stop(stop)
    }
}
