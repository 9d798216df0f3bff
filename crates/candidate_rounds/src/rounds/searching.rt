//! Which goals of a table are tried next, where steps are looked for by which they hold. A goal that was tried in vain is tried again once
//! there is a step for one of those that it asked for: else it would come to the same.

ghost use Rattle.std.specs.Prelude.{◌≡◌, IfErr};
ghost use Rattle.ir_trees.specs.declared.ir.stop.Stop.{Stop};

use ir_trees::ir::stop::Stop;
use std::alloc::Global;

/// What is known of the goals of a table, each by its place.
#[derive(Drop)]
pub(crate) struct Search {
    /// Whether there is a step for the goal.
    found: Vec<bool>,
    /// What the goal waits for, if it was tried: it asked for these, and there was no step for them.
    waits: Vec<Option<Vec<usize>>>,
}

impl Search {
    /// There is no step for one of so many goals, of which none was tried. The only stop is `Stop::Memory`.
    pub(crate) fn new(alloc: Global, count: usize) -> Result<Search, Stop>
        ensures { IfErr result (λ s. s ≡ Stop.Memory) }
    {
        let found = vec![in alloc; false; count]?;
        let mut waits = Vec::new(alloc);
        for _place in 0..count {
            waits.push(None)?;
        }
        Ok(Search { found, waits })
    }

    /// Whether there is a step for the goal of that place.
    pub(crate) fn is_found(&self, place: usize) -> bool {
        self.found.get(place) == Some(&true)
    }

    /// There is a step for the goal of that place.
    pub(crate) fn note_found(&mut self, place: usize) {
        if let Some(is_found) = self.found.get_mut(place) {
            *is_found = true;
        }
    }

    /// The goal of that place was tried in vain, and asked for these: it waits for those that have no step. The only stop is
    /// `Stop::Memory`.
    pub(crate) fn wait(&mut self, alloc: Global, place: usize, asked: &[usize]) -> Result<(), Stop>
        ensures { IfErr result (λ s. s ≡ Stop.Memory) }
    {
        let mut missing = Vec::new(alloc);
        for i in 0..asked.len() {
            if !self.is_found(asked[i]) {
                missing.push(asked[i])?;
            }
        }
        if let Some(before) = self.waits.get_mut(place) {
            *before = Some(missing);
        }
        Ok(())
    }

    /// Whether the goal of that place is to be tried.
    pub(crate) fn is_due(&self, place: usize) -> bool {
        if self.is_found(place) {
            return false;
        }
        match self.waits.get(place) {
            Some(Some(missing)) => self.has_one_of(missing.as_slice()),
            _ => true,
        }
    }

    /// Whether there is a step for one of these goals.
    fn has_one_of(&self, places: &[usize]) -> bool {
        for i in 0..places.len() {
            if self.is_found(places[i]) {
                return true;
            }
        }
        false
    }
}
