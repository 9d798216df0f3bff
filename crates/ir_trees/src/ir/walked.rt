//! What a walk has gone through: equal trees have one number, and may stand in many places, into which a walk need go but once.

ghost use Rattle.std.specs.Prelude.{◌≡◌, []};
ghost use Rattle.std.specs.List.{list_any};
ghost use Rattle.ir_trees.specs.Calls.Walked.{MayBeNoted};

use indexmap::IndexSet;
use std::alloc::Global;
use std::hash::Hash;
use std::marker::Model;

/// So many keys aren't noted, so that a walk over a small tree takes no memory.
const SPARED: u32 = 16;

/// The keys of what a walk has gone through to its end, but for the first few: numbers, or pairs of them.
#[derive(Drop)]
pub struct Walked<K: Copy + Eq + Hash> {
    keys: IndexSet<K>,
    /// How many weren't noted.
    spared: u32,
}

impl<K: Copy + Eq + Hash> Model for Walked<K> {
    ghost use Rattle.std.specs.Prelude.{List};

    ghost Value = { List K };

    ghost view = { λ w. w.keys.keys };
}

impl<K: Copy + Eq + Hash> Walked<K> {
    /// No key. Nothing is allocated.
    pub fn new(alloc: Global) -> Walked<K>
        ensures { result ≡ [] }
    {
        Walked {
            keys: IndexSet::new(alloc),
            spared: 0,
        }
    }

    /// Whether the key is noted.
    pub fn has(&self, key: K) -> bool
        ensures { result ≡ list_any (K.eq key) self.now }
    {
        self.keys.contains(&key)
    }

    /// Notes the key of something that has so many children, unless it has none, is one of the first few, or a growth is refused: it is
    /// walked again then, where it stands again.
    pub fn note(&mut self, key: K, children: usize)
        ensures { MayBeNoted key self.old self.new }
    {
        if children == 0 {
            return;
        }
        if self.spared < SPARED {
            self.spared += 1;
            return;
        }
        let _ = self.keys.insert(key);
    }
}
