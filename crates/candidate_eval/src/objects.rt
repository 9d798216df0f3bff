//! Object types: what an object of a trait has to fulfil, what the bounds of its type say, and what an object candidate asks for.

pub mod object;
pub mod object_candidate;
pub mod replacing;
pub mod required;
