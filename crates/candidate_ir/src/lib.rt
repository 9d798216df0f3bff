//! Types of the object language as nodes of a table, which contracts see as finite trees, and the
//! declarations that the types name.
#![tactic(auto)]

pub mod decl;
pub mod ir;
