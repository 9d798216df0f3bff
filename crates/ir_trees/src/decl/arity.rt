//! Whether the arguments of a node are those that its definition takes.

ghost use Rattle.std.specs.Prelude.{◌≡◌, ◌↔◌, IsTrue, MatchOption, Some, map, ◌∷◌, []};
ghost use Rattle.ir_trees.specs.Declarations.Context.{world_of};
ghost use Rattle.ir_trees.specs.Validity.Faults.{HeaderMisfits, ImplFits, ImplsFit};
ghost use Rattle.ir_trees.specs.Syntax.Kinds.{arg_kind};
ghost use Rattle.std.specs.List.{list_any};
ghost use Rattle.ir_trees.specs.Declarations.Names.{names_unknown};
ghost use Rattle.ir_trees.specs.Syntax.Nodes.{Fits, node_tree};
ghost use Rattle.ir_trees.specs.Declarations.References.{AllFit, AllTake, Takes};
ghost use Rattle.ir_trees.specs.Syntax.Trees.{TypeKind};
ghost use Rattle.ir_trees.specs.Syntax.Words.{KindFits, ConstKindFits, PredFits, BoundsFit, ClauseFits, kind_tree, const_kind_tree, pred_kind_tree, clause_kind_tree};
ghost use Rattle.ir_trees.specs.Declarations.Worlds.{parameters, joined, alias_kinds};

use crate::decl::contents::Impl;
use crate::decl::definition::{Declaration, DefinitionSort, are_type_args};
use crate::decl::misplaced::is_args;
use crate::ir::at::at;
use crate::ir::kinds::{
    AliasKind, AliasTy, Binder, ClauseKind, ConstKind, ExistentialPredicate, GenericArg, TyKind,
};
use crate::ir::node::Node;
use crate::ir::nodes::Nodes;
use crate::ir::trees::Trees;

/// Whether the number is that of a definition of the sort, with parameters of the kinds of these arguments.
fn takes(
    definitions: &[Declaration],
    sort: DefinitionSort,
    number: u32,
    list: &[GenericArg],
) -> bool
    ensures { IsTrue result ↔ (parameters (world_of definitions.now) sort number ≡ Some (map arg_kind list.now)) }
{
    match at(definitions, number as usize) {
        Some(definition) => definition.takes(sort, list),
        None => false,
    }
}

/// Whether the number is that of a definition of the sort, with parameters of the kinds of a type and then of these arguments.
pub fn takes_after_self(
    definitions: &[Declaration],
    sort: DefinitionSort,
    number: u32,
    list: &[GenericArg],
) -> bool
    ensures { IsTrue result ↔ (joined (Some (TypeKind ∷ [])) (parameters (world_of definitions.now) sort number) ≡ Some (map arg_kind list.now)) }
{
    match list {
        [GenericArg::Ty(_), list @ ..] => takes(definitions, sort, number, list),
        _ => false,
    }
}

fn alias_takes(definitions: &[Declaration], alias: AliasTy, list: &[GenericArg]) -> bool
    ensures { IsTrue result ↔ (alias_kinds (world_of definitions.now) alias.kind alias.id.0 ≡ Some (map arg_kind list.now)) }
{
    let number = alias.id.0;
    match alias.kind {
        AliasKind::Projection => {
            takes_after_self(definitions, DefinitionSort::AssociatedType, number, list)
        }
        AliasKind::Opaque => takes(definitions, DefinitionSort::Opaque, number, list),
        AliasKind::Inherent | AliasKind::Free => {
            takes(definitions, DefinitionSort::Alias, number, list)
        }
    }
}

/// Whether the arguments of the type are those that it takes.
pub fn ty_fits(definitions: &[Declaration], nodes: &Nodes, kind: TyKind) -> bool
    requires { KindFits nodes.now kind }
    ensures { IsTrue result ↔ Takes (world_of definitions.now) (kind_tree nodes.now kind) }
{
    match kind {
        TyKind::Adt(id, args) => takes(definitions, DefinitionSort::Adt, id.0, nodes.args(args)),
        TyKind::Foreign(id) => takes(definitions, DefinitionSort::Foreign, id.0, &[]),
        TyKind::FnDef(id, args) => {
            takes(
                definitions,
                DefinitionSort::Function,
                id.0,
                nodes.args(args),
            )
        }
        TyKind::Closure(id, closure) => takes(
            definitions,
            DefinitionSort::Closure,
            id.0,
            nodes.args(closure.parent),
        ),
        TyKind::Alias(alias) => alias_takes(definitions, alias, nodes.args(alias.args)),
        TyKind::Tuple(args) => are_type_args(nodes.args(args)),
        TyKind::FnPtr(sig) => are_type_args(nodes.args(sig.value.inputs)),
        TyKind::Dynamic(preds, _) => nodes.holds_bounds(preds),
        _ => true,
    }
}

/// Whether the arguments of the constant are those that it takes.
pub fn const_fits(definitions: &[Declaration], nodes: &Nodes, kind: ConstKind) -> bool
    requires { ConstKindFits nodes.now kind }
    ensures { IsTrue result ↔ Takes (world_of definitions.now) (const_kind_tree nodes.now kind) }
{
    match kind {
        ConstKind::Unevaluated(id, args) => takes_after_self(
            definitions,
            DefinitionSort::AssociatedConst,
            id.0,
            nodes.args(args),
        ),
        _ => true,
    }
}

/// Whether the arguments of the bound are those that it takes, which has no self type.
pub(crate) fn bound_fits(
    definitions: &[Declaration],
    nodes: &Nodes,
    bound: Binder<ExistentialPredicate>,
) -> bool
    requires { PredFits nodes.now bound }
    ensures { IsTrue result ↔ Takes (world_of definitions.now) (pred_kind_tree nodes.now bound) }
{
    match bound.value {
        ExistentialPredicate::Trait(trait_ref) => takes(
            definitions,
            DefinitionSort::Trait,
            trait_ref.def_id.0,
            nodes.args(trait_ref.args),
        ),
        ExistentialPredicate::Projection(projection) => takes(
            definitions,
            DefinitionSort::AssociatedType,
            projection.def_id.0,
            nodes.args(projection.args),
        ),
        ExistentialPredicate::AutoTrait(id) => takes(definitions, DefinitionSort::Trait, id.0, &[]),
    }
}

/// Whether the arguments of each bound are those that it takes.
pub fn bounds_fit(
    definitions: &[Declaration],
    nodes: &Nodes,
    bounds: &[Binder<ExistentialPredicate>],
) -> bool
    requires { BoundsFit nodes.now bounds.now }
    ensures { IsTrue result ↔ AllTake (world_of definitions.now) (map (pred_kind_tree nodes.now) bounds.now) }
{
    for bound in bounds {
        if !bound_fits(definitions, nodes, *bound) {
            return false;
        }
    }
    true
}

/// Whether the arguments of the clause are those that it takes.
pub fn clause_fits(definitions: &[Declaration], nodes: &Nodes, clause: Binder<ClauseKind>) -> bool
    requires { ClauseFits nodes.now clause }
    ensures { IsTrue result ↔ Takes (world_of definitions.now) (clause_kind_tree nodes.now clause) }
{
    match clause.value {
        ClauseKind::Trait(predicate) => takes_after_self(
            definitions,
            DefinitionSort::Trait,
            predicate.trait_ref.def_id.0,
            nodes.args(predicate.trait_ref.args),
        ),
        ClauseKind::Projection(predicate) => takes_after_self(
            definitions,
            DefinitionSort::AssociatedType,
            predicate.projection_term.def_id.0,
            nodes.args(predicate.projection_term.args),
        ),
        ClauseKind::TypeOutlives(_, _) | ClauseKind::RegionOutlives(_, _) => true,
        ClauseKind::AliasRelate(_, _) => true,
        ClauseKind::ConstEquate(_, _) => true,
    }
}

/// Whether the children of the node are those that it takes.
fn node_fits(definitions: &[Declaration], nodes: &Nodes, node: &Node) -> bool
    requires { Fits nodes.now node.now }
    ensures { IsTrue result ↔ Takes (world_of definitions.now) (node_tree nodes.now node.now) }
{
    match node {
        Node::Ty(kind) => ty_fits(definitions, nodes, *kind),
        Node::Const(kind) => const_fits(definitions, nodes, *kind),
        Node::Pred(bound) => bound_fits(definitions, nodes, *bound),
        Node::Clause(clause) => clause_fits(definitions, nodes, *clause),
        _ => true,
    }
}

/// Whether the children of each node are those that it takes.
pub fn nodes_fit(definitions: &[Declaration], nodes: &Nodes) -> bool
    ensures { IsTrue result ↔ AllFit (world_of definitions.now) nodes.now }
{
    for number in 0..nodes.len() {
        if !node_fits(definitions, nodes, nodes.node(number as u32)) {
            return false;
        }
    }
    true
}

/// Whether the arguments of the impl's header are those that its trait takes.
fn impl_fits(definitions: &[Declaration], nodes: &Nodes, of: &Impl) -> bool
    ensures { IsTrue result ↔ ImplFits (world_of definitions.now) nodes.now of.now }
{
    let trait_ref = of.trait_ref;
    if !is_args(nodes, trait_ref.args) {
        return false;
    }
    let number = trait_ref.def_id.0;
    takes_after_self(
        definitions,
        DefinitionSort::Trait,
        number,
        nodes.args(trait_ref.args),
    )
}

/// The number of the first impl of which they aren't.
pub fn first_unfit(definitions: &[Declaration], nodes: &Nodes, impls: &[Impl]) -> Option<usize>
    ensures { let w = world_of definitions.now in MatchOption result (ImplsFit w nodes.now impls.now) (HeaderMisfits w nodes.now impls.now) }
{
    for number in 0..impls.len() {
        if !impl_fits(definitions, nodes, &impls[number]) {
            return Some(number);
        }
    }
    None
}

/// Whether those of each impl's header are.
#[tactic(auto, using(crate::proofs::Validity::Headers::none_misfits))]
pub fn impls_fit(definitions: &[Declaration], nodes: &Nodes, impls: &[Impl]) -> bool
    ensures { IsTrue result ↔ ImplsFit (world_of definitions.now) nodes.now impls.now }
{
    first_unfit(definitions, nodes, impls).is_none()
}

/// Whether some node names a definition that is none of the first so many.
pub fn any_names_unknown(definitions: usize, nodes: &Nodes) -> bool
    ensures { result ≡ list_any (λ t. names_unknown definitions t.head) nodes.now }
{
    for number in 0..nodes.len() {
        if nodes.node(number as u32).names_unknown(definitions) {
            return true;
        }
    }
    false
}
