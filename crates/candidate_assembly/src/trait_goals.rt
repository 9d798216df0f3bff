//! Goals of traits: that a trait holds of some trees, or that it does not.

pub(crate) mod aliases;
pub(crate) mod auto_traits;
pub(crate) mod bounds_met;
pub(crate) mod builtin;
pub mod callable;
pub mod compute;
pub mod impls;
pub mod kind;
pub(crate) mod language;
pub(crate) mod matching;
pub mod meeting;
pub(crate) mod no_drop;
pub(crate) mod parts;
pub mod preference;
pub(crate) mod to_dyn;
pub(crate) mod unsizing;
pub(crate) mod unsizing_rows;
pub(crate) mod upcasting;
