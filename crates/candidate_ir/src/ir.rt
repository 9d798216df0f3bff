//! Types, constants and regions: their kinds, the heads of their trees, and the table that holds them.

pub use ir_trees::ir::{
    at, classes, flags, heads, kinds, making, marks, node, nodes, numbered, quiet, rebuild, seed,
    stop, trees, unify, walked, walks,
};
