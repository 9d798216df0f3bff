//! The variables that goals and responses speak of.

use ir_trees::ir::heads::VariableSort;

/// What a variable to be solved stands for.
#[derive(Clone, Copy, PartialEq, Eq)]
pub enum VariableKind {
    /// A type or a constant of the sort.
    Term(VariableSort),
    Region,
}

/// A variable that a response leaves open: its kind, and the newest universe whose placeholders its value may name.
#[derive(Clone, Copy, PartialEq, Eq)]
pub struct CanonicalVar {
    pub kind: VariableKind,
    pub universe: u32,
}
