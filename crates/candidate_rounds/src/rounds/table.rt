//! What the table says of a key, and the goals that a round asks for.

ghost use Rattle.std.specs.Prelude.{◌≡◌, ◌<◌, length, true, false, IfErr, IfOk, MatchOption, OnErr, OnOk};
ghost use Rattle.candidate_eval.specs.Outcomes.ResponseTrees.{IsResponse, response_of};
ghost use Rattle.candidate_rounds.specs.Calls.Found.{IsFound, IsReadYes, IsYesAt, lookup_of};
ghost use Rattle.candidate_rounds.specs.Calls.Requesting.{asked_of, is_requested_at, requested_at};
ghost use Rattle.candidate_rounds.specs.Table.Goals.{IsTraitGoal, key_seen};
ghost use Rattle.candidate_rounds.specs.Table.Running.{IsOnlyPlaceOf};
ghost use Rattle.candidate_rounds.specs.Evaluators.Known.{GoesOn, reading, state, table_of};
ghost use Rattle.candidate_rounds.specs.Evaluators.Stopping.{IsAskingStop, held};
ghost use Rattle.rounds_judge.specs.Table.GoalTable.{is_entered};
ghost use Rattle.rounds_judge.specs.Table.Keys.{Key};

use crate::rounds::Rounds;
use crate::rounds::goals::{GoalKey, Verdict};
use crate::rounds::keys::may_be_asked;
use candidate_eval::eval::response::CanonicalResponse;
use ir_trees::ir::stop::Stop;
use ir_trees::ir::trees::Trees;
use std::alloc::Global;

/// What the table says of a goal.
#[derive(Clone, Copy)]
pub(crate) enum Found {
    /// It doesn't have the goal.
    Missing,
    /// It has the goal, of which nothing is known for sure.
    Open,
    /// The goal of that place holds.
    Yes(usize),
    Refused,
}

/// What the verdict of the goal of that place says.
fn lookup_of(verdict: &Option<Verdict>, place: usize) -> Found
    ensures { result ≡ lookup_of verdict.now place }
{
    match verdict {
        None | Some(Verdict::Maybe(_, _)) => Found::Open,
        Some(Verdict::Yes(_, _)) => Found::Yes(place),
        Some(Verdict::Refused) => Found::Refused,
    }
}

impl Rounds {
    /// The place of the goal with that key, if there is one, which is the only one.
    pub(crate) fn place_of(&self, key: &GoalKey) -> Option<usize>
        requires { IsTraitGoal self.now.context.trees key.now.goal }
        ensures { let ts = self.now.context.trees in MatchOption result (is_entered (table_of self.now) (key_seen ts key.now) ≡ false) (IsOnlyPlaceOf (table_of self.now) (key_seen ts key.now)) }
    {
        self.recall_well_kept();
        self.cx.recall_distinct();
        self.goals.place_of(key)
    }

    /// What the goal of that place says of its key.
    fn lookup_at(&self, place: usize) -> Found
        requires { place < length self.now.goals.table }
        ensures { (k : Key) → IsOnlyPlaceOf (table_of self.now) k place → IsFound self.now.context.trees self.now.goals.table k result }
    {
        self.recall_well_kept();
        let (_, slot) = self.goals.entry_at(place);
        if slot.is_readable {
            lookup_of(&slot.verdict, place)
        } else {
            Found::Open
        }
    }

    /// What the table says of the key. A verdict that may not be read says nothing.
    pub(crate) fn lookup(&self, key: &GoalKey) -> Found
        requires { IsTraitGoal self.now.context.trees key.now.goal }
        ensures { IsFound self.now.context.trees self.now.goals.table (key_seen self.now.context.trees key.now) result }
    {
        match self.place_of(key) {
            Some(place) => self.lookup_at(place),
            None => Found::Missing,
        }
    }

    /// A goal that the table doesn't have is asked for by the round that is being done, if it may be computed and isn't asked for yet.
    /// `Stop::EvaluatorLimit` comes where there are 65,536 goals, `Stop::Memory` where a growth was refused, `Stop::NodesFull` where a
    /// node has more children than can be counted.
    pub(crate) fn request(&mut self, alloc: Global, key: GoalKey) -> Result<(), Stop>
        requires key { IsTraitGoal self.old.context.trees key.goal }
        requires missing { is_entered (table_of self.old) (key_seen self.old.context.trees key) ≡ false }
        ensures goes { GoesOn self.old self.new }
        ensures context { self.new.context ≡ self.old.context }
        ensures state { state self.new ≡ state self.old }
        ensures asked { OnOk result (asked_of self.new ≡ requested_at self.old (key_seen self.old.context.trees key)) }
        ensures unasked { OnErr result (self.new ≡ self.old) }
        ensures cause { IfErr result (λ s. IsAskingStop (held self.new) s) }
        ensures full { IfErr result (λ s. s ≡ Stop.EvaluatorLimit → is_requested_at self.old (key_seen self.old.context.trees key) ≡ true) }
    {
        self.recall_well_kept();
        if !self.goals.asks {
            return Ok(());
        }
        if !may_be_asked(alloc, &self.cx, &key)? {
            return Ok(());
        }
        self.cx.recall_distinct();
        self.goals.ask(key)
    }

    /// The goal of that key was looked up, and nothing is known of it for sure.
    pub(crate) fn note_look_up(&mut self, key: &GoalKey)
        ensures { self.new ≡ self.old }
    {
        self.goals.note_look_up(key);
    }

    /// A copy of what the Yes of that place says of the key. The only stop is `Stop::Memory`.
    pub(crate) fn yes_at(&self, key: &GoalKey, place: usize) -> Result<CanonicalResponse, Stop>
        requires { IsYesAt self.now.context.trees self.now.goals.table (key_seen self.now.context.trees key.now) place }
        ensures sort { IfOk result (λ r. IsResponse self.now.context.trees r) }
        ensures read { IfOk result (λ r. IsReadYes (reading self.now) (key_seen self.now.context.trees key.now) (response_of self.now.context.trees r)) }
        ensures cause { IfErr result (λ s. s ≡ Stop.Memory) }
    {
        match &self.goals.entry_at(place).1.verdict {
            Some(Verdict::Yes(response, _)) => Ok(response.copied()?),
            _ => unreachable!(),
        }
    }
}
