//! The context over declarations without a fault, in which types are made.
#![tactic(auto)]

pub mod decl;
