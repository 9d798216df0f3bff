//! What a round writes into the table.

ghost use Rattle.std.specs.Prelude.{List, ◌≡◌, [], IsFalse, IsTrue, length};
ghost use Rattle.ir_trees.specs.Syntax.Trees.{Tree};
ghost use Rattle.candidate_eval.specs.Outcomes.ResponseTrees.{IsCopy};
ghost use Rattle.candidate_rounds.specs.Calls.Writing.{ChangeTable, MakesOther, SayOther};
ghost use Rattle.candidate_rounds.specs.Table.Entries.{all_written_into, write_verdict};
ghost use Rattle.candidate_rounds.specs.Table.Goals.{entry_seen, table_seen, verdict_seen};

use crate::rounds::goals::{GoalKey, Slot, Verdict};
use candidate_eval::eval::response::CanonicalResponse;
use indexmap::IndexMap;

/// What a round has for a goal of the table.
#[derive(Drop)]
pub(crate) struct Written {
    pub verdict: Verdict,
    pub is_readable: bool,
    pub leaks: bool,
}

/// Whether the responses are the same in all their parts.
pub(crate) fn is_same_response(a: &CanonicalResponse, b: &CanonicalResponse) -> bool
    ensures same { IsTrue result → IsCopy a.now b.now }
    ensures other { IsFalse result → IsCopy a.now b.now → ⊥ }
{
    a.values == b.values
        && (a.certainty == b.certainty
            && (a.vars.as_slice() == b.vars.as_slice()
                && a.regions.as_slice() == b.regions.as_slice()))
}

/// Whether the verdicts are the same.
fn is_same_verdict(a: &Verdict, b: &Verdict) -> bool
    ensures same { IsTrue result → (ts : List Tree) → verdict_seen ts a.now ≡ verdict_seen ts b.now }
    ensures other { IsFalse result → SayOther a.now b.now }
{
    match (a, b) {
        (Verdict::Yes(a, way), Verdict::Yes(b, other)) => way == other && is_same_response(a, b),
        (Verdict::Maybe(a, way), Verdict::Maybe(b, other)) => {
            way == other && is_same_response(a, b)
        }
        (Verdict::Refused, Verdict::Refused) => true,
        _ => false,
    }
}

/// Whether a round has nothing for a goal, or what is written for it already.
fn is_there(slot: &Slot, written: &Option<Written>) -> bool
    ensures same { IsTrue result → (ts : List Tree) (k : GoalKey) → entry_seen ts (write_verdict (k, slot.now) written.now) ≡ entry_seen ts (k, slot.now) }
    ensures other { IsFalse result → (k : GoalKey) → MakesOther (k, slot.now) written.now }
{
    match written {
        None => true,
        Some(written) => match &slot.verdict {
            Some(verdict) => is_same_verdict(&written.verdict, verdict),
            None => false,
        },
    }
}

/// Whether that holds of all goals.
pub(crate) fn are_there(entries: &IndexMap<GoalKey, Slot>, written: &[Option<Written>]) -> bool
    requires { length written.now ≡ length entries.now.entries }
    ensures same { IsTrue result → (ts : List Tree) → table_seen ts (all_written_into entries.now.entries written.now) ≡ table_seen ts entries.now.entries }
    ensures other { IsFalse result → ChangeTable entries.now.entries [] written.now }
{
    for i in 0..entries.len() {
        if !is_there(&entries[i], &written[i]) {
            return false;
        }
    }
    true
}

/// Writes what a round has for a goal.
fn write_verdict(slot: &mut Slot, written: Option<Written>)
    ensures { (k : GoalKey) → (k, slot.new) ≡ write_verdict (k, slot.old) written }
{
    if let Some(written) = written {
        slot.verdict = Some(written.verdict);
        slot.is_readable = written.is_readable;
        slot.leaks = written.leaks;
    }
}

/// Writes what a round has for the goals, one after another.
pub(crate) fn put_all_in(entries: &mut IndexMap<GoalKey, Slot>, written: Vec<Option<Written>>)
    ensures { entries.new.entries ≡ all_written_into entries.old.entries written.items }
{
    let mut place = 0;
    for written in written {
        if place < entries.len() {
            write_verdict(&mut entries[place], written);
            place += 1;
        }
    }
}
