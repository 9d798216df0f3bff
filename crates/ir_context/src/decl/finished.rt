//! Declarations that were found to be without a fault.

use indexmap::IndexMap;
use ir_trees::decl::contents::{Contents, ImplId};
use ir_trees::decl::definition::{CrateId, Declaration};
use ir_trees::decl::heads::ImplList;
use ir_trees::decl::limits::Limits;
use ir_trees::ir::nodes::Nodes;
use std::marker::Model;

/// Declarations without a fault.
#[derive(Drop)]
pub struct Decls {
    pub crates: u32,
    pub local: CrateId,
    pub limits: Limits,
    pub definitions: Vec<Declaration>,
    pub contents: Contents,
    pub nodes: Nodes,
    /// The impls of each trait, by what they are for.
    pub impl_lists: IndexMap<ImplList, Vec<(usize, ImplId)>>,
}

impl Model for Decls {
    ghost use Rattle.std.specs.Prelude.{[], length};
    ghost use Rattle.std.specs.Coded.{codes};
    ghost use Rattle.ir_trees.specs.contracts.ir.heads.Head as head;
    ghost use Rattle.ir_trees.specs.Laws.TreeCode.{tree_code};
    ghost use Rattle.ir_trees.specs.Declarations.Context as seen;
    ghost use Rattle.ir_trees.specs.Declarations.Declaring.{contents_of};
    ghost use Rattle.ir_trees.specs.Unification.ImplLists.{AreListed};
    ghost use Rattle.ir_trees.specs.Validity.WellFormed.{IsWellFormedTable};

    ghost Value = { seen.Context };

    ghost coded = { Prim.hlevel (codes, tree_code head.the_row.coded) };

    ghost view = { λ b. record { crates = b.crates; local = b.local; limits = b.limits; declarations = b.definitions.items; contents = contents_of b.contents; trees = b.nodes; declared_nodes = length b.nodes; delayed_bugs = [] } };

    ghost invariant = { λ b. IsWellFormedTable (record { crates = b.crates; local = b.local; limits = b.limits; declarations = b.definitions.items; contents = contents_of b.contents; trees = b.nodes; declared_nodes = length b.nodes; delayed_bugs = [] }) × AreListed b.impl_lists b.nodes b.contents.traits.items b.contents.impls.items };
}
