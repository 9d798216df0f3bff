//! What an evaluator may be given, by tests.

ghost use Rattle.std.specs.Prelude.{◌≡◌, ◌↔◌, IsTrue};
ghost use Rattle.ir_trees.specs.declared.ir.kinds.TyKind.TheVariants as K;
ghost use Rattle.ir_trees.specs.Syntax.Words.{IsArgs, IsTy, kind_tree, ty_tree};
ghost use Rattle.rounds_judge.specs.Aliases.WellListed.{is_fixed, may_be_listed};
ghost use Rattle.candidate_rounds.specs.Evaluators.Known.{MayBeHidden};

use crate::rounds::values::is_alias;
use ir_context::decl::context::Cx;
use ir_trees::ir::heads::Flag;
use ir_trees::ir::kinds::{AliasKind, AliasTy, GenericArg, Ty};
use ir_trees::ir::marks::{Made, Unsolved};
use ir_trees::ir::trees::Trees;

/// Whether the type means the same at every state, and has no error.
fn is_fixed(cx: &Cx, ty: Ty) -> bool
    requires { IsTy cx.now.trees ty }
    ensures { result ≡ is_fixed (ty_tree cx.now.trees ty) }
{
    !cx.has_escaping_bound_vars(ty)
        && (!cx.has_marked(ty, &Made) && (!cx.has(ty, Flag::Param) && !cx.has(ty, Flag::Error)))
}

/// Whether the alias may be listed with that type: no bound variable escapes from either, neither has a variable, a parameter, an
/// error or a placeholder of a universe above the root's, and the type has no alias. By an error every trait would hold of the type.
pub fn may_be_listed(cx: &Cx, alias: Ty, ty: Ty) -> bool
    requires alias { IsTy cx.now.trees alias }
    requires ty { IsTy cx.now.trees ty }
    ensures { result ≡ may_be_listed (ty_tree cx.now.trees alias, ty_tree cx.now.trees ty) }
{
    is_fixed(cx, alias)
        && (is_fixed(cx, ty) && (!cx.has(ty, Flag::Alias) && is_alias(cx, GenericArg::Ty(alias))))
}

/// Whether the alias may be hidden behind a variable: it is an opaque type, no bound variable escapes from it, and it has no
/// variable and no parameter.
pub fn may_be_hidden(cx: &Cx, opaque: AliasTy) -> bool
    requires { IsArgs cx.now.trees opaque.args }
    ensures { IsTrue result ↔ MayBeHidden (kind_tree cx.now.trees (K.Alias opaque)) }
{
    match opaque.kind {
        AliasKind::Opaque => {
            !cx.has_escaping_bound_vars(opaque.args)
                && (!cx.has_marked(opaque.args, &Unsolved) && !cx.has(opaque.args, Flag::Param))
        }
        AliasKind::Projection | AliasKind::Inherent | AliasKind::Free => false,
    }
}
