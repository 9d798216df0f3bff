//! What the table of nodes hashes with.

use std::hash::{BuildHasher, FoldHasher, Hasher};

/// Makes hashers that have taken a seed, so that who doesn't know it can't pick nodes of one hash. No answer depends on it.
#[derive(Clone, Copy)]
pub(crate) struct Seeded {
    initial: FoldHasher,
}

impl Seeded {
    #[inline(always)]
    pub fn new(seed: u64) -> Self {
        let mut initial = FoldHasher::default();
        initial.write_u64(seed);
        Seeded { initial }
    }
}

impl BuildHasher for Seeded {
    type Hasher = FoldHasher;

    ghost build_hasher = { λ seeded. seeded.initial };

    #[inline(always)]
    fn build_hasher(&self) -> FoldHasher {
        self.initial
    }
}
