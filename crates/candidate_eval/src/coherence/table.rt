//! How the orphan check takes a view: as an item of a class, or by a walk below it.

ghost use Rattle.std.specs.Prelude.{◌≡◌};
ghost use Rattle.ir_trees.specs.Declarations.Context.{world};
ghost use Rattle.ir_trees.specs.Declarations.Names.{is_local};
ghost use Rattle.ir_trees.specs.Syntax.Trees.{tree_holds, is_loose};
ghost use Rattle.ir_trees.specs.Syntax.Words.{IsTy, IsPreds, ty_tree, preds_forest, KindFits, kind_tree};
ghost use Rattle.candidate_eval.specs.Knowability.Orphan.{crate_test, principal_passes};
ghost use Rattle.candidate_eval.specs.Calls.Table.{loose_in, loose_alias_in, owned_in};
ghost use Rattle.candidate_eval.specs.Calls.Shapes.{IsShape};

use crate::coherence::{InCrate, OrphanCheckMode};
use ir_context::decl::Cx;
use ir_trees::ir::heads::Flag;
use ir_trees::ir::kinds::{AdtId, AliasKind, Args, Pattern, Preds, Ty, TyKind};
use ir_trees::ir::trees::Trees;

/// The classes of the items of a frontier.
#[derive(Clone, Copy)]
pub enum ViewClass {
    NonLocal,
    Skipped,
    Local,
    Uncovered,
    /// It can't be named in a header.
    Unnameable,
}

/// A view as the walk takes it.
#[derive(Clone, Copy)]
pub enum Shape {
    Item(ViewClass),
    /// The walk goes on with this type.
    Target(Ty),
    /// The walk goes on with the types among these arguments.
    Arguments(Args),
}

fn loose_class(in_crate: InCrate) -> ViewClass
    ensures { result ≡ loose_in in_crate }
{
    match in_crate {
        InCrate::Local { .. } => ViewClass::Uncovered,
        InCrate::Remote => ViewClass::Local,
    }
}

fn loose_alias_class(in_crate: InCrate, kind: AliasKind) -> ViewClass
    ensures { result ≡ loose_alias_in in_crate kind }
{
    match (kind, in_crate) {
        (
            AliasKind::Projection,
            InCrate::Local {
                mode: OrphanCheckMode::Compat,
            },
        ) => { ViewClass::Skipped }
        _ => loose_class(in_crate),
    }
}

fn owned_class(is_local: bool) -> ViewClass
    ensures { result ≡ owned_in is_local }
{
    if is_local {
        ViewClass::Local
    } else {
        ViewClass::NonLocal
    }
}

/// Whether the definition of that number is of a crate that the check is for.
fn passes(cx: &Cx, in_crate: InCrate, definition: u32) -> bool
    ensures { result ≡ is_local (world cx.now) (crate_test in_crate cx.now.local.0) definition }
{
    match in_crate {
        InCrate::Local { .. } => cx.is_local(definition),
        InCrate::Remote => false,
    }
}

fn shape_of_adt(cx: &Cx, in_crate: InCrate, id: AdtId, args: Args) -> Shape
    requires { KindFits cx.now.trees (TyKind.Adt id args) }
    ensures { IsShape cx.now in_crate (kind_tree cx.now.trees (TyKind.Adt id args)) result }
{
    if passes(cx, in_crate, id.0) {
        Shape::Item(ViewClass::Local)
    } else if cx.is_fundamental(id.0) {
        Shape::Arguments(args)
    } else {
        Shape::Item(ViewClass::NonLocal) // whatever its arguments are
    }
}

fn principal_class(cx: &Cx, in_crate: InCrate, preds: Preds) -> ViewClass
    requires { IsPreds cx.now.trees preds }
    ensures { result ≡ owned_in (principal_passes (world cx.now) (crate_test in_crate cx.now.local.0) (preds_forest cx.now.trees preds)) }
{
    match cx.principal(preds) {
        Some(id) => owned_class(passes(cx, in_crate, id.0)),
        None => ViewClass::NonLocal,
    }
}

/// Whether a type variable, a type placeholder or a bound type stands in the type.
#[tactic(auto, using(crate::proofs::Marks::Loose::loose_is))]
fn has_loose(cx: &Cx, ty: Ty) -> bool
    requires { IsTy cx.now.trees ty }
    ensures { result ≡ tree_holds is_loose (ty_tree cx.now.trees ty) }
{
    cx.has(ty, Flag::TyInfer) || cx.has(ty, Flag::TyPlaceholder) || cx.has(ty, Flag::TyBound)
}

/// The shape of a view of that kind.
fn shape_of_kind(cx: &Cx, in_crate: InCrate, ty: Ty, kind: TyKind) -> Shape
    requires ty { IsTy cx.now.trees ty }
    requires fits { KindFits cx.now.trees kind }
    requires same { kind_tree cx.now.trees kind ≡ ty_tree cx.now.trees ty }
    ensures { IsShape cx.now in_crate (kind_tree cx.now.trees kind) result }
{
    match kind {
        TyKind::Bool
        | TyKind::Char
        | TyKind::Int(_)
        | TyKind::Uint(_)
        | TyKind::Float(_)
        | TyKind::Str
        | TyKind::Never
        | TyKind::Array(_, _)
        | TyKind::Slice(_)
        | TyKind::RawPtr(_, _)
        | TyKind::FnPtr(_)
        | TyKind::UnsafeBinder(_)
        | TyKind::Tuple(_) => Shape::Item(ViewClass::NonLocal),
        TyKind::Pat(_, Pattern::NotNull) | TyKind::Pat(_, Pattern::Range(_, _)) => {
            Shape::Item(ViewClass::NonLocal)
        }
        TyKind::Adt(id, args) => shape_of_adt(cx, in_crate, id, args),
        TyKind::Foreign(id) => Shape::Item(owned_class(passes(cx, in_crate, id.0))),
        TyKind::Dynamic(preds, _) => Shape::Item(principal_class(cx, in_crate, preds)),
        TyKind::Ref(_, target, _) => Shape::Target(target),
        TyKind::Alias(alias) => if has_loose(cx, ty) {
            Shape::Item(loose_alias_class(in_crate, alias.kind))
        } else {
            Shape::Item(ViewClass::NonLocal)
        },
        TyKind::Placeholder(_) | TyKind::Bound(_) | TyKind::Infer(_) => {
            Shape::Item(loose_class(in_crate))
        }
        TyKind::Error => Shape::Item(ViewClass::Local),
        TyKind::FnDef(_, _) | TyKind::Closure(_, _) | TyKind::Param(_) => {
            Shape::Item(ViewClass::Unnameable)
        }
    }
}

/// The shape of a view.
pub(crate) fn shape_of(cx: &Cx, in_crate: InCrate, ty: Ty) -> Shape
    requires { IsTy cx.now.trees ty }
    ensures { IsShape cx.now in_crate (ty_tree cx.now.trees ty) result }
{
    shape_of_kind(cx, in_crate, ty, cx.kind(ty))
}
