//! The builder that takes declarations, and the faults that it finds in them.
#![tactic(auto)]

pub mod decl;
