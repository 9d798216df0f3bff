//! Types, references, clauses and headers of impls, as Rust spells them.
#![tactic(auto)]

pub mod clauses;
pub mod types;

pub use types::Spelling;

#[cfg(test)]
mod tests;
