//! Types, constants and regions: their kinds, the heads of their trees, and the table that holds them.

pub mod at;
pub mod classes;
pub mod flags;
pub mod heads;
pub mod kinds;
pub mod making;
pub mod marks;
pub mod node;
pub mod nodes;
pub mod numbered;
pub mod quiet;
pub mod rebuild;
pub mod seed;
pub mod stop;
pub mod trees;
pub mod unify;
pub mod walked;
pub mod walks;
