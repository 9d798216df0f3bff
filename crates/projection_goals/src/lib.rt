//! Goals that a projection is a term: what the associated type of some arguments is.
#![tactic(auto)]

pub mod asked;
pub(crate) mod callable;
pub(crate) mod impls;
pub mod kind;
pub(crate) mod language;
pub mod matching;
pub mod named;
pub mod proving;
pub mod steps;
