//! Whether two impls of a trait overlap.
#![tactic(auto)]

pub mod allowance;
mod answered;
mod auto;
pub mod clauses;
pub mod instance;
pub mod negation;
mod opening;
mod order;
pub mod overlap;
mod plain;
pub mod reasons;
pub mod specializing;
pub mod together;
