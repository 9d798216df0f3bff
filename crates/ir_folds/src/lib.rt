//! Trees folded, instantiated and opened, and super clauses elaborated.
#![tactic(auto)]

pub mod decl;
