//! The ways in which a goal can be proved: kinds of goals and the rules that they have, over any evaluator.
#![tactic(auto)]

pub mod assembly;
pub mod trait_goals;
