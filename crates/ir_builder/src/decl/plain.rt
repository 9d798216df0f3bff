//! One look at all that declarations hold, which finds in most of them that nothing is misplaced and that no bound
//! variable escapes. Only where it doesn't is each of these looked for.

ghost use Rattle.std.specs.Prelude.{◌≡◌, IsTrue, ◌<◌, false, length, option_copied};
ghost use Rattle.std.specs.List.{list_any};
ghost use Rattle.ir_trees.specs.Validity.Misplaced.{is_not_given, with_self, kinds_of_declared, kinds_of_impl};
ghost use Rattle.ir_trees.specs.Syntax.Nodes.{tree_at};
ghost use Rattle.ir_trees.specs.Declarations.Parameters.{kinds_of};
ghost use Rattle.ir_builder.specs.Calls.Plain.{is_doubtful, is_type, ty_is_plain, node_is_plain, TreeIsPlain, HeldIsPlain, AllArePlain};
ghost use Rattle.ir_trees.specs.Syntax.Trees.{tree_holds};

use ir_trees::decl::contents::Impl;
use ir_trees::decl::definition::{Declaration, Parameters};
use ir_trees::decl::held::{Held, Owner};
use ir_trees::decl::misplaced::parameter_kind;
use ir_trees::ir::at::at;
use ir_trees::ir::kinds::{ConstKind, RegionKind, TyKind, VarKind};
use ir_trees::ir::node::Node;
use ir_trees::ir::nodes::Nodes;
use ir_trees::ir::trees::Trees;

fn is_type(kind: Option<VarKind>) -> bool
    ensures { result ≡ is_type kind }
{
    matches!(kind, Some(VarKind::Ty))
}

fn ty_is_plain(kind: TyKind, after_self: bool, parameters: &Parameters) -> bool
    ensures { result ≡ ty_is_plain (with_self after_self (kinds_of parameters.now)) kind }
{
    match kind {
        TyKind::Param(number) => is_type(parameter_kind(after_self, parameters, number)),
        TyKind::Placeholder(_) | TyKind::Bound(_) | TyKind::Infer(_) => false,
        _ => true,
    }
}

/// Whether the node alone shows that it may stand where these parameters are.
fn node_is_plain(node: &Node, after_self: bool, parameters: &Parameters) -> bool
    ensures { result ≡ node_is_plain (with_self after_self (kinds_of parameters.now)) node.now }
{
    match node {
        Node::Ty(kind) => ty_is_plain(*kind, after_self, parameters),
        Node::Region(kind) => matches!(kind, RegionKind::Static),
        Node::Const(kind) => matches!(kind, ConstKind::Value(_)),
        _ => true,
    }
}

/// Whether all nodes of a number's tree show that.
fn number_is_plain(nodes: &Nodes, number: u32, after_self: bool, parameters: &Parameters) -> bool
    requires { number < length nodes.now }
    ensures { IsTrue result → tree_holds (is_doubtful (with_self after_self (kinds_of parameters.now))) (tree_at nodes.now number) ≡ false }
{
    let node = nodes.node(number);
    if !node_is_plain(node, after_self, parameters) {
        return false;
    }
    for i in 0..node.child_count() {
        if !number_is_plain(nodes, node.child(i), after_self, parameters) {
            return false;
        }
    }
    true
}

#[tactic(auto, using(crate::proofs::Validity::Plain::plain_tree))]
fn definition_is_plain(nodes: &Nodes, number: u32, owner: Option<&Declaration>) -> bool
    requires { number < length nodes.now }
    ensures { IsTrue result → TreeIsPlain (tree_at nodes.now number) (kinds_of_declared (option_copied owner.entry)) }
{
    match owner {
        Some(owner) => number_is_plain(nodes, number, owner.has_self(), &owner.parameters),
        None => false,
    }
}

#[tactic(auto, using(crate::proofs::Validity::Plain::plain_tree))]
fn impl_is_plain(nodes: &Nodes, number: u32, owner: Option<&Impl>) -> bool
    requires { number < length nodes.now }
    ensures { IsTrue result → TreeIsPlain (tree_at nodes.now number) (kinds_of_impl (option_copied owner.entry)) }
{
    match owner {
        Some(owner) => number_is_plain(nodes, number, false, &owner.parameters),
        None => false,
    }
}

#[tactic(auto, using(crate::proofs::Validity::Plain::plain_held))]
fn held_is_plain(nodes: &Nodes, definitions: &[Declaration], impls: &[Impl], held: Held) -> bool
    requires { is_not_given nodes.now held ≡ false }
    ensures { IsTrue result → HeldIsPlain nodes.now definitions.now impls.now held }
{
    match held.owner {
        Owner::Definition(i) => definition_is_plain(nodes, held.number, at(definitions, i)),
        Owner::Impl(i) => impl_is_plain(nodes, held.number, at(impls, i)),
    }
}

/// Whether one look shows that nothing is misplaced in what is held, and that no bound variable escapes.
#[tactic(auto, using(ir_trees::proofs::Validity::Misplacing::any_there, crate::proofs::Validity::Plain::none_yet, crate::proofs::Validity::Plain::one_more, crate::proofs::Validity::Plain::all_plain))]
pub(crate) fn all_are_plain(
    nodes: &Nodes,
    definitions: &[Declaration],
    impls: &[Impl],
    held: &[Held],
) -> bool
    requires { list_any (is_not_given nodes.now) held.now ≡ false }
    ensures { IsTrue result → AllArePlain nodes.now definitions.now impls.now held.now }
{
    for held in held {
        if !held_is_plain(nodes, definitions, impls, *held) {
            return false;
        }
    }
    true
}
