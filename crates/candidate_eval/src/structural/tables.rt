//! The columns of the tables as calls.

ghost use Rattle.std.specs.Prelude.{◌≡◌, ◌↔◌, IsTrue, IfOk, IfErr, length, false, true};
ghost use Rattle.ir_trees.specs.Declarations.Context.{Grows, world};
ghost use Rattle.ir_trees.specs.Declarations.References.{Takes};
ghost use Rattle.ir_trees.specs.Syntax.Words.{IsTy, KindFits, kind_tree, ty_tree};
ghost use Rattle.candidate_eval.specs.Builtins.Tables.{Asks, Refused, cell, row_of, is_excluded, IsCellStop};
ghost use Rattle.candidate_eval.specs.Builtins.Asked.{AskedFits, asked_cell, under_of, parts_of, ArePartsIn, auto_known, kind_known};
ghost use Rattle.candidate_eval.specs.Builtins.Asked as seen;
ghost use Rattle.candidate_eval.specs.Interface.Accounts.{if_refused, if_stopped};

use crate::eval::refusal::NoSolutionOrStop;
use crate::structural::asked::{Asked, asked_for};
use crate::structural::making::made;
use crate::structural::{Column, Constituents, Under};
use ir_context::decl::Cx;
use ir_context::decl::make::Make;
use ir_trees::decl::Sizedness;
use ir_trees::ir::kinds::{AliasKind, InferTy, Ty, TyKind};
use ir_trees::ir::stop::Stop;
use ir_trees::ir::trees::Trees;
use std::alloc::Global;

/// The kind of the type, whose arguments are those that it takes.
#[tactic(auto, using(crate::proofs::Builtins::Cells::kind_takes))]
pub(crate) fn kind_of(cx: &Cx, ty: Ty) -> TyKind
    requires { IsTy cx.now.trees ty }
    ensures fits { KindFits cx.now.trees result }
    ensures tree { kind_tree cx.now.trees result ≡ ty_tree cx.now.trees ty }
    ensures takes { Takes (world cx.now) (kind_tree cx.now.trees result) }
{
    cx.recall_well_formed();
    cx.kind(ty)
}

/// What the column asks about.
#[tactic(auto, using(crate::proofs::Builtins::Cells::cell_of_kind, crate::proofs::Builtins::Cells::asked_fits))]
pub(crate) fn cell(cx: &Cx, column: Column, ty: Ty) -> Asked
    requires ty { IsTy cx.now.trees ty }
    requires known { is_excluded (cell column (row_of cx.now (ty_tree cx.now.trees ty))) ≡ false }
    ensures fits { AskedFits cx.now result }
    ensures cell { asked_cell cx.now result ≡ cell column (row_of cx.now (ty_tree cx.now.trees ty)) }
{
    asked_for(cx, column, kind_of(cx, ty))
}

fn under(asked: Asked) -> Under
    ensures { result ≡ under_of asked }
{
    match asked {
        Asked::Under(inner) => Under::Binder(inner.vars),
        _ => Under::NoBinder,
    }
}

pub(crate) fn is_refused(asked: Asked) -> bool
    ensures { result ≡ seen.is_refused asked }
{
    matches!(asked, Asked::Refused)
}

/// The types that the column asks about, under their binder.
#[tactic(auto, using(crate::proofs::Builtins::Cells::refused_cell, crate::proofs::Builtins::Cells::asked_parts, crate::proofs::Builtins::Cells::asked_stop, crate::proofs::Builtins::Cells::under_kept))]
pub fn constituents<M: Make>(
    alloc: Global,
    make: &mut M,
    column: Column,
    ty: Ty,
) -> Result<Constituents, NoSolutionOrStop>
    requires ty { IsTy (M.context make.old).trees ty }
    requires known { is_excluded (cell column (row_of (M.context make.old) (ty_tree (M.context make.old).trees ty))) ≡ false }
    ensures grows { Grows (M.context make.old) (M.context make.new) }
    ensures rest { M.rest make.new ≡ M.rest make.old }
    ensures sort { IfOk result (λ c. ArePartsIn (M.context make.new).trees c) }
    ensures types { IfOk result (λ c. cell column (row_of (M.context make.old) (ty_tree (M.context make.old).trees ty)) ≡ Asks (parts_of (M.context make.new).trees c)) }
    ensures refused { let c = M.context make.old in IfErr result (if_refused (cell column (row_of c (ty_tree c.trees ty)) ≡ Refused)) }
    ensures cause { let c = M.context make.old in IfErr result (if_stopped (λ s. IsCellStop (length (M.context make.new).trees) (cell column (row_of c (ty_tree c.trees ty))) s)) }
{
    let asked = cell(make.cx(), column, ty);
    if is_refused(asked) {
        return Err(NoSolutionOrStop::NoSolution);
    }
    let types = made(alloc, make, asked)?;
    Ok(Constituents {
        under: under(asked),
        types,
    })
}

/// The types that have to meet an auto trait for the type to.
///
/// No integer, float or general variable, no `dyn` type, no parameter, placeholder or bound type, and
/// no alias but an opaque type is asked about (`has_cell`). It is never refused.
/// `Stop::Memory` comes where a growth was refused, `Stop::NodesFull` where one of the types was not
/// made, as by `subst`; after a stop the nodes that were made stay.
pub fn instantiate_constituent_tys_for_auto_trait<M: Make>(
    alloc: Global,
    make: &mut M,
    ty: Ty,
) -> Result<Constituents, NoSolutionOrStop>
    requires ty { IsTy (M.context make.old).trees ty }
    requires known { is_excluded (row_of (M.context make.old) (ty_tree (M.context make.old).trees ty)).auto ≡ false }
    ensures grows { Grows (M.context make.old) (M.context make.new) }
    ensures rest { M.rest make.new ≡ M.rest make.old }
    ensures sort { IfOk result (λ c. ArePartsIn (M.context make.new).trees c) }
    ensures types { IfOk result (λ c. (row_of (M.context make.old) (ty_tree (M.context make.old).trees ty)).auto ≡ Asks (parts_of (M.context make.new).trees c)) }
    ensures refused { let c = M.context make.old in IfErr result (if_refused ((row_of c (ty_tree c.trees ty)).auto ≡ Refused)) }
    ensures cause { let c = M.context make.old in IfErr result (if_stopped (λ s. IsCellStop (length (M.context make.new).trees) (row_of c (ty_tree c.trees ty)).auto s)) }
{
    constituents(alloc, make, Column::Auto, ty)
}

/// The types that have to be sized, in this sense, for the type to be.
///
/// No general variable and no bound type is asked about (`has_cell`). `NoSolution`
/// comes where the type is never sized, or not known to be: foreign types, aliases, parameters and
/// placeholders, and for `Sized` also `str`, slices and `dyn` types. It stops as the call for auto
/// traits does.
pub fn instantiate_constituent_tys_for_sizedness_trait<M: Make>(
    alloc: Global,
    make: &mut M,
    sizedness: Sizedness,
    ty: Ty,
) -> Result<Constituents, NoSolutionOrStop>
    requires ty { IsTy (M.context make.old).trees ty }
    requires known { is_excluded ((row_of (M.context make.old) (ty_tree (M.context make.old).trees ty)).sizedness sizedness) ≡ false }
    ensures grows { Grows (M.context make.old) (M.context make.new) }
    ensures rest { M.rest make.new ≡ M.rest make.old }
    ensures sort { IfOk result (λ c. ArePartsIn (M.context make.new).trees c) }
    ensures types { IfOk result (λ c. (row_of (M.context make.old) (ty_tree (M.context make.old).trees ty)).sizedness sizedness ≡ Asks (parts_of (M.context make.new).trees c)) }
    ensures refused { let c = M.context make.old in IfErr result (if_refused ((row_of c (ty_tree c.trees ty)).sizedness sizedness ≡ Refused)) }
    ensures cause { let c = M.context make.old in IfErr result (if_stopped (λ s. IsCellStop (length (M.context make.new).trees) ((row_of c (ty_tree c.trees ty)).sizedness sizedness) s)) }
{
    constituents(alloc, make, Column::Sizedness(sizedness), ty)
}

/// The types that have to be `Copy`, `Clone` or `TrivialClone` for the type to be, by the rule that
/// the language has for it.
///
/// No general variable and no bound type is asked about (`has_cell`). `NoSolution`
/// comes where no rule is built in for the type. It stops as the call for auto traits does.
pub fn instantiate_constituent_tys_for_copy_clone_trait<M: Make>(
    alloc: Global,
    make: &mut M,
    ty: Ty,
) -> Result<Constituents, NoSolutionOrStop>
    requires ty { IsTy (M.context make.old).trees ty }
    requires known { is_excluded (row_of (M.context make.old) (ty_tree (M.context make.old).trees ty)).copy ≡ false }
    ensures grows { Grows (M.context make.old) (M.context make.new) }
    ensures rest { M.rest make.new ≡ M.rest make.old }
    ensures sort { IfOk result (λ c. ArePartsIn (M.context make.new).trees c) }
    ensures types { IfOk result (λ c. (row_of (M.context make.old) (ty_tree (M.context make.old).trees ty)).copy ≡ Asks (parts_of (M.context make.new).trees c)) }
    ensures refused { let c = M.context make.old in IfErr result (if_refused ((row_of c (ty_tree c.trees ty)).copy ≡ Refused)) }
    ensures cause { let c = M.context make.old in IfErr result (if_stopped (λ s. IsCellStop (length (M.context make.new).trees) (row_of c (ty_tree c.trees ty)).copy s)) }
{
    constituents(alloc, make, Column::CopyClone, ty)
}

fn has_auto_trait_kind(kind: TyKind) -> bool
    ensures { result ≡ auto_known kind }
{
    match kind {
        TyKind::Alias(alias) => matches!(alias.kind, AliasKind::Opaque),
        TyKind::Dynamic(_, _)
        | TyKind::Param(_)
        | TyKind::Placeholder(_)
        | TyKind::Bound(_)
        | TyKind::Infer(_) => false,
        _ => true,
    }
}

pub(crate) fn is_no_unknown(kind: TyKind) -> bool
    ensures { result ≡ kind_known kind }
{
    !matches!(kind, TyKind::Bound(_) | TyKind::Infer(InferTy::TyVar(_)))
}

/// Whether the column asks about the type: for which types the call of the column may be made, as
/// `instantiate_constituent_tys_for_auto_trait` and its like, or `const_conditions_for_destruct`.
#[tactic(auto, using(crate::proofs::Builtins::Cells::known_of))]
pub fn has_cell(cx: &Cx, column: Column, ty: Ty) -> bool
    requires { IsTy cx.now.trees ty }
    ensures { IsTrue result ↔ (is_excluded (cell column (row_of cx.now (ty_tree cx.now.trees ty))) ≡ false) }
{
    let kind = cx.kind(ty);
    match column {
        Column::Auto => has_auto_trait_kind(kind),
        Column::Sizedness(_) | Column::CopyClone | Column::Destruct => is_no_unknown(kind),
    }
}
