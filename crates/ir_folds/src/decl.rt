//! What goes through a tree and makes another: folds, instantiation, opened binders and elaboration.

pub mod answering;
pub mod elaborate;
pub mod fold;
pub mod open;
pub mod parameters;
pub mod subst;
