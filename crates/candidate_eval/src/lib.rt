//! The interface of an evaluator, and the orphan check that stands on its lowest part.
#![tactic(auto)]

pub mod coherence;
pub mod eval;
pub mod objects;
pub mod structural;
