//! How long goals are computed.

ghost use Rattle.std.specs.Prelude.{◌≡◌};
ghost use Rattle.candidate_rounds.specs.Table.Efforts.{most_rounds};

use crate::rounds::running::MAX_STEPS;

/// How long a goal is computed.
#[derive(Clone, Copy)]
pub enum Effort {
    /// In so many rounds at most, each of which computes all goals of the table that aren't final.
    Rounds(u16),
    /// As long as needed: until the goal is final or no round changes the table, in 65,535 steps at most.
    AsNeeded,
}

impl Effort {
    /// How many rounds or steps are done at most.
    pub fn most_rounds(self) -> u16
        ensures { result ≡ most_rounds self }
    {
        match self {
            Effort::Rounds(count) => count,
            Effort::AsNeeded => MAX_STEPS,
        }
    }
}
