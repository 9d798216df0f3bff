//! The types, clauses and declarations that a text writes, as they are read and made, and what is said where they can't be.
#![tactic(auto)]

mod bounds;
pub mod building;
mod counting;
pub mod faults;
pub mod first;
pub mod given;
pub mod making;
pub mod names;
pub mod notation;
pub mod numbering;
pub mod reading;
pub mod shapes;
pub mod types;
pub mod words;
