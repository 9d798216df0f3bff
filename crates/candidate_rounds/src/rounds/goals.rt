//! The goals of the table, with what each has come to, and the goals that were asked for meanwhile.

ghost use Rattle.std.specs.Prelude.{List, ◌≡◌, ◌+◌, ◌<◌, ◌≤◌, ◌⊎◌, ◌++◌, ◌∷◌, [], Some, false, length, map, slice_get, IfErr, IfOk, IsFalse, IsTrue, MatchOption, OnErr, OnOk};
ghost use Rattle.std.specs.List.{IsDistinct, list_any};
ghost use Rattle.std.specs.Map.{keys_of};
ghost use Rattle.ir_trees.specs.declared.ir.stop.Stop.{Stop};
ghost use Rattle.ir_trees.specs.Syntax.Trees.{Tree};
ghost use Rattle.candidate_rounds.specs.Calls.Writing.{ChangeTable};
ghost use Rattle.candidate_rounds.specs.Table.Entries.{IsNumberedAt, all_written_into, new_entry, new_slot};
ghost use Rattle.candidate_rounds.specs.Table.Goals.{HasRoomFor, IsFullFor, is_noted, key_seen, noting, table_seen};
ghost use Rattle.candidate_rounds.specs.Table.KeyNumbers.{same_numbers};
ghost use Rattle.rounds_judge.specs.Table.GoalTable.{most_goals};

use crate::rounds::due::LookUps;
use crate::rounds::writing::{Written, are_there, put_all_in};
use candidate_assembly::assembly::merging::TraitGoalProvenVia;
use candidate_eval::eval::response::CanonicalResponse;
use candidate_eval::eval::variable::CanonicalVar;
use indexmap::IndexMap;
use ir_trees::ir::kinds::{Clause, Goal};
use ir_trees::ir::stop::Stop;
use std::alloc::Global;
use std::hash::{Hash, Hasher};
use std::marker::Model;

/// A goal of a trait by which the table knows all that are like it: values are put in, and variables numbered from 0 on in the order
/// in which they first occur, the environment first.
#[derive(Drop)]
pub struct GoalKey {
    pub goal: Goal<Clause>,
    /// What each variable is.
    pub variables: Vec<CanonicalVar>,
}

impl GoalKey {
    /// The key again. The only stop is `Stop::Memory`.
    pub(crate) fn copied(&self) -> Result<GoalKey, Stop>
        ensures goal { IfOk result (λ k. k.goal ≡ self.now.goal) }
        ensures is { (ts : List Tree) → IfOk result (λ k. key_seen ts k ≡ key_seen ts self.now) }
        ensures cause { IfErr result (λ s. s ≡ Stop.Memory) }
    {
        Ok(GoalKey {
            goal: self.goal,
            variables: self.variables.clone()?,
        })
    }
}

/// Keys are equal where their numbers are: over one context, where their trees are.
impl PartialEq for GoalKey {
    ghost use Rattle.candidate_rounds.specs.Table.KeyNumbers.{same_numbers, same_numbers_per};

    ghost eq = { same_numbers };

    ghost laws = { same_numbers_per };

    fn eq(&self, other: &GoalKey) -> bool {
        self.goal.predicate.0 == other.goal.predicate.0
            && (self.goal.param_env.0 == other.goal.param_env.0
                && self.variables.as_slice() == other.variables.as_slice())
    }
}

impl Eq for GoalKey {
    ghost use Rattle.candidate_rounds.specs.Table.KeyNumbers.{same_numbers_equiv};

    ghost laws = { same_numbers_equiv };
}

/// What its variables are is mostly settled by its trees, in which they are numbered.
impl Hash for GoalKey {
    ghost use Rattle.candidate_rounds.specs.Table.KeyNumbers.{numbers_input, numbers_alike};

    ghost hash_input = { numbers_input };

    ghost respects_eq = { numbers_alike };

    fn hash<H: Hasher>(&self, state: &mut H) {
        self.goal.predicate.0.hash(state);
        self.goal.param_env.0.hash(state);
    }
}

/// What a goal of a trait has come to. Of the first two it is told how the goal is proved, if there is one way.
#[derive(Drop)]
pub enum Verdict {
    /// It holds, as the response says. This is final.
    Yes(CanonicalResponse, Option<TraitGoalProvenVia>),
    /// It may hold.
    Maybe(CanonicalResponse, Option<TraitGoalProvenVia>),
    /// It does not hold, as far as the rules go. This is final.
    Refused,
}

/// What is known of a goal of the table.
#[derive(Drop)]
pub(crate) struct Slot {
    /// What was last written for it, if anything was.
    pub verdict: Option<Verdict>,
    /// Whether goals that ask read the verdict. They do not read a Yes whose values aren't closed trees of the variables that it
    /// leaves open.
    pub is_readable: bool,
    /// Whether the verdict may rest on a region that leaks.
    pub leaks: bool,
}

/// The table, and the goals that were asked for since the last round and aren't in it.
#[derive(Drop)]
pub(crate) struct Goals {
    /// The goals of the table, and after them those that were asked for, of which nothing is known.
    entries: IndexMap<GoalKey, Slot>,
    /// How many of them are in the table.
    count: usize,
    /// Whether a round is being done: it asks for goals that the table doesn't have.
    pub asks: bool,
    /// What goals looked up while they were computed. It is no part of the view.
    look_ups: LookUps,
}

impl Model for Goals {
    ghost use Rattle.candidate_rounds.specs.Table.Goals as seen;
    ghost use Rattle.candidate_rounds.specs.Table.Entries.{AreAsked, asked_in, table_in};

    ghost Value = { seen.Goals };

    ghost view = { λ g. record { table = table_in g.count g.entries.entries; asked = asked_in g.count g.entries.entries; asks = g.asks } };

    ghost invariant = { λ g. AreAsked g.count g.entries.entries };
}

/// As many goals as a table may have.
pub(crate) const MAX_GOALS: usize = 65_536;

/// Nothing is known.
pub(crate) fn new_slot() -> Slot
    ensures { result ≡ new_slot }
{
    Slot {
        verdict: None,
        is_readable: true,
        leaks: false,
    }
}

impl Goals {
    /// No goal.
    pub(crate) fn new(alloc: Global) -> Goals
        ensures { result ≡ record { table = []; asked = []; asks = false } }
    {
        Goals {
            entries: IndexMap::new(alloc),
            count: 0,
            asks: false,
            look_ups: LookUps::new(alloc),
        }
    }

    /// How many goals the table has.
    pub(crate) fn len(&self) -> usize
        ensures { result ≡ length self.now.table }
    {
        self.count
    }

    /// The goal of that place, and what is known of it.
    pub(crate) fn entry_at(&self, place: usize) -> (&GoalKey, &Slot)
        requires { place < length self.now.table }
        ensures { slice_get self.now.table place ≡ Some (result.0.now, result.1.now) }
    {
        match self.entries.get_index(place) {
            Some(entry) => entry,
            None => unreachable!(),
        }
    }

    /// The place of the goal, if the table has it. It has no goal twice.
    pub(crate) fn place_of(&self, key: &GoalKey) -> Option<usize>
        ensures place { let t = self.now.table in MatchOption result (list_any (same_numbers key.now) (keys_of t) ≡ false) (IsNumberedAt key.now t) }
        ensures once { IsDistinct same_numbers (keys_of self.now.table) }
    {
        match self.entries.get_index_of(key) {
            Some(place) if place < self.count => Some(place),
            _ => None,
        }
    }

    /// Whether the table has the goal, or it was asked for.
    pub(crate) fn is_noted(&self, key: &GoalKey) -> bool
        ensures { result ≡ is_noted self.now key.now }
    {
        self.entries.contains_key(key)
    }

    /// Adds the places that another table has for the goals that were asked for, unless they are there. The only stop is `Stop::Memory`.
    pub(crate) fn note_asked_in(&self, table: &Goals, places: &mut Vec<usize>) -> Result<(), Stop>
        ensures { IfErr result (λ s. s ≡ Stop.Memory) }
    {
        for place in self.count..self.entries.len() {
            if let Some((key, _)) = self.entries.get_index(place) {
                table.note_place(key, places)?;
            }
        }
        Ok(())
    }

    /// Adds the place of the goal, if the table has it and it isn't there. The only stop is `Stop::Memory`.
    fn note_place(&self, key: &GoalKey, places: &mut Vec<usize>) -> Result<(), Stop>
        ensures { IfErr result (λ s. s ≡ Stop.Memory) }
    {
        if let Some(place) = self.place_of(key) {
            if !places.as_slice().contains(&place) {
                places.push(place)?;
            }
        }
        Ok(())
    }

    /// Enters a goal that the table doesn't have, with what is known of it, after all others. The only stop is `Stop::Memory`.
    pub(crate) fn enter(&mut self, key: GoalKey, slot: Slot) -> Result<(), Stop>
        requires missing { list_any (same_numbers key) (keys_of self.old.table) ≡ false }
        requires none { self.old.asked ≡ [] }
        ensures entered { OnOk result (self.new ≡ record self.old { table = self.old.table ++ (key, slot) ∷ [] }) }
        ensures stopped { OnErr result (self.new ≡ self.old) }
        ensures cause { IfErr result (λ s. s ≡ Stop.Memory) }
    {
        self.entries.insert(key, slot)?;
        self.count = self.entries.len();
        Ok(())
    }

    /// A goal that the table doesn't have is asked for, if it isn't asked for yet. `Stop::EvaluatorLimit` comes where there are 65,536
    /// goals, `Stop::Memory` where a growth was refused.
    pub(crate) fn ask(&mut self, key: GoalKey) -> Result<(), Stop>
        ensures asked { OnOk result (self.new ≡ noting self.old key) }
        ensures room { OnOk result (HasRoomFor self.old key) }
        ensures stopped { OnErr result (self.new ≡ self.old) }
        ensures cause { IfErr result (λ s. (s ≡ Stop.Memory) ⊎ ((s ≡ Stop.EvaluatorLimit) × IsFullFor self.old key)) }
    {
        if self.entries.contains_key(&key) {
            self.look_ups.note(self.entries.get_index_of(&key));
            return Ok(());
        }
        let place = self.entries.len();
        if place >= MAX_GOALS {
            return Err(Stop::EvaluatorLimit);
        }
        self.entries.insert(key, new_slot())?;
        self.look_ups.note(Some(place));
        Ok(())
    }

    /// Goals are asked for from now on, or aren't. None has been asked for.
    pub(crate) fn set_asking(&mut self, asks: bool)
        ensures { self.new ≡ record { table = self.old.table; asked = []; asks = asks } }
    {
        self.entries.truncate(self.count);
        self.asks = asks;
        self.look_ups.stop();
    }

    /// What goals look up is noted, until it is said anew whether goals are asked for. No goal is due yet.
    pub(crate) fn note_look_ups(&mut self)
        ensures { self.new ≡ self.old }
    {
        self.look_ups.start(self.count);
    }

    /// What goals look up is noted from now on, beside what was noted before.
    pub(crate) fn go_on_noting(&mut self)
        ensures { self.new ≡ self.old }
    {
        self.look_ups.go_on();
    }

    /// The goal of that place is computed from now on: it looks up what is noted.
    pub(crate) fn set_reader(&mut self, place: usize)
        ensures { self.new ≡ self.old }
    {
        self.look_ups.set_reader(place);
    }

    /// The goal was looked up, and nothing is known of it for sure.
    pub(crate) fn note_look_up(&mut self, key: &GoalKey)
        ensures { self.new ≡ self.old }
    {
        self.look_ups.note(self.entries.get_index_of(key));
    }

    /// Chooses which goals are due, and answers whether some are. Where none is, all goals are to be computed.
    pub(crate) fn choose_due(&mut self) -> bool
        ensures { self.new ≡ self.old }
    {
        self.look_ups.choose(&self.entries)
    }

    /// Whether the goal of that place is due.
    pub(crate) fn is_due(&self, place: usize) -> bool {
        self.look_ups.is_due(place)
    }

    /// Whether all stays as it is, where a round has this for the table: all of it is there, and no goal was asked for.
    pub(crate) fn is_still(&self, written: &[Option<Written>]) -> bool
        requires { length written.now ≡ length self.now.table }
        ensures asked { IsTrue result → self.now.asked ≡ [] }
        ensures table { IsTrue result → (ts : List Tree) → table_seen ts (all_written_into self.now.table written.now) ≡ table_seen ts self.now.table }
        ensures other { IsFalse result → ChangeTable self.now.table self.now.asked written.now }
    {
        self.entries.len() == self.count && are_there(&self.entries, written)
    }

    /// Writes what a round has for the table, and enters what was asked for.
    pub(crate) fn write(&mut self, written: Vec<Option<Written>>)
        requires { length written.items ≡ length self.old.table }
        ensures { self.new ≡ record { table = all_written_into self.old.table written.items ++ map new_entry self.old.asked; asked = []; asks = self.old.asks } }
    {
        put_all_in(&mut self.entries, written);
        self.count = self.entries.len();
    }

    /// Enters what was asked for, of which nothing is known yet.
    pub(crate) fn keep_asked(&mut self)
        ensures { self.new ≡ record { table = self.old.table ++ map new_entry self.old.asked; asked = []; asks = self.old.asks } }
    {
        self.count = self.entries.len();
    }
}
