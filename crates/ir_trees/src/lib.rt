//! Types of the object language as nodes of a table, which contracts see as finite trees, and declarations as data.
#![tactic(auto)]

pub mod decl;
pub mod ir;
