//! An evaluator that works in rounds.
#![tactic(auto)]

pub mod rounds;
