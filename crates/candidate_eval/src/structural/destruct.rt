//! What has to hold for a value of a type to be dropped where a constant is computed.

ghost use Rattle.std.specs.Prelude.{◌≡◌, [], ◌∷◌, ◌++◌, None, Some, IfOk, IfErr, length, map, false, ◌⊎◌};
ghost use Rattle.ir_trees.specs.Declarations.Context.{Grows};
ghost use Rattle.ir_trees.specs.Instantiation.Folding.{IsSubstStop};
ghost use Rattle.ir_trees.specs.Unification.Substitutions.{alone};
ghost use Rattle.ir_trees.specs.Validity.WellFormed.{TypesFit};
ghost use Rattle.ir_trees.specs.Syntax.Words.{IsTy, ty_tree};
ghost use Rattle.candidate_eval.specs.Builtins.Tables.{row_of, is_excluded, IsTypesStop};
ghost use Rattle.candidate_eval.specs.Builtins.Destruct.{meets, references_of, AreReferences, own_destructor, own_conditions, kind_destructor, own_drop_of, own_references, all_references, destruct_conditions, IsConditionsStop};
ghost use Rattle.candidate_eval.specs.Builtins.Destruct as seen;
ghost use Rattle.candidate_eval.specs.Interface.Accounts.{if_refused, if_stopped};
ghost use Rattle.std.specs.Prelude.{true};

use crate::eval::refusal::NoSolutionOrStop;
use crate::structural::Column;
use crate::structural::making::made;
use crate::structural::tables::{cell, is_refused as is_refused_cell};
use ir_context::decl::Cx;
use ir_context::decl::make::Make;
use ir_trees::decl::{Destructor, LangItem};
use ir_trees::ir::kinds::{GenericArg, TraitId, TraitRef, Ty, TyKind};
use ir_trees::ir::stop::Stop;
use ir_trees::ir::trees::Trees;
use std::alloc::Global;

/// What a type itself has to meet.
#[derive(Clone, Copy)]
pub(crate) enum OwnDrop {
    Nothing,
    /// It has a destructor that constants can't run, or the trait of destructors isn't declared.
    Refused,
    /// This trait, of destructors.
    Drop(TraitId),
}

/// The destructor that a type has of its own, and that is run.
fn destructor_of(cx: &Cx, kind: TyKind) -> Option<Destructor>
    ensures { result ≡ kind_destructor cx.now kind }
{
    match kind {
        TyKind::Adt(id, _) => match cx.adt_flags(id) {
            Some(flags) => if flags.manually_drop {
                None
            } else {
                cx.destructor(id)
            },
            None => cx.destructor(id),
        },
        _ => None,
    }
}

fn own_drop(cx: &Cx, destructor: Option<Destructor>) -> OwnDrop
    ensures { result ≡ own_drop_of cx.now destructor }
{
    match destructor {
        None => OwnDrop::Nothing,
        Some(Destructor::NotConst) => OwnDrop::Refused,
        Some(Destructor::Const) => match cx.lang_item(LangItem::Drop) {
            Some(of) => OwnDrop::Drop(of),
            None => OwnDrop::Refused,
        },
    }
}

fn is_refused(own: OwnDrop) -> bool
    ensures { result ≡ seen.is_refused own }
{
    matches!(own, OwnDrop::Refused)
}

/// What the type itself has to meet.
#[tactic(auto, using(crate::proofs::Builtins::Conditions::own_is, crate::proofs::Builtins::Conditions::own_refused))]
fn own_condition(cx: &Cx, ty: Ty) -> OwnDrop
    requires { IsTy cx.now.trees ty }
    ensures some { let ts = cx.now.trees in seen.is_refused result ≡ false → own_conditions cx.now (ty_tree ts ty) (own_destructor cx.now (ty_tree ts ty).head) ≡ Some (own_references (ty_tree ts ty) result) }
    ensures none { seen.is_refused result ≡ true → own_conditions cx.now (ty_tree cx.now.trees ty) (own_destructor cx.now (ty_tree cx.now.trees ty).head) ≡ None }
{
    own_drop(cx, destructor_of(cx, cx.kind(ty)))
}

/// Adds that the trait holds of the type.
#[tactic(auto, using(crate::proofs::Builtins::Conditions::pushed_references, crate::proofs::Builtins::Conditions::pushed_are, crate::proofs::Builtins::Conditions::reference_unmade))]
fn push_condition<M: Make>(
    make: &mut M,
    conditions: &mut Vec<TraitRef>,
    of: TraitId,
    ty: Ty,
) -> Result<(), Stop>
    requires conditions { AreReferences (M.context make.old).trees conditions.old.items }
    requires ty { IsTy (M.context make.old).trees ty }
    ensures grows { Grows (M.context make.old) (M.context make.new) }
    ensures rest { M.rest make.new ≡ M.rest make.old }
    ensures sort { IfOk result (λ _. AreReferences (M.context make.new).trees conditions.new.items) }
    ensures trees { let ts = (M.context make.old).trees in IfOk result (λ _. references_of (M.context make.new).trees conditions.new.items ≡ references_of ts conditions.old.items ++ meets of (ty_tree ts ty) ∷ []) }
    ensures cause { IfErr result (λ s. (s ≡ Stop.Memory) ⊎ IsSubstStop (length (M.context make.new).trees) (alone (ty_tree (M.context make.old).trees ty)) s) }
{
    let args = make.mk_args(&[GenericArg::Ty(ty)])?;
    conditions.push(TraitRef { def_id: of, args })?;
    Ok(())
}

/// That the trait holds of each of the types, in order.
#[tactic(auto, using(crate::proofs::Builtins::Conditions::no_conditions, crate::proofs::Builtins::Conditions::all_conditions))]
fn push_conditions<M: Make>(
    make: &mut M,
    conditions: &mut Vec<TraitRef>,
    of: TraitId,
    types: &[Ty],
) -> Result<(), Stop>
    requires empty { conditions.old.items ≡ [] }
    requires types { TypesFit (M.context make.old).trees types.now }
    ensures grows { Grows (M.context make.old) (M.context make.new) }
    ensures rest { M.rest make.new ≡ M.rest make.old }
    ensures sort { IfOk result (λ _. AreReferences (M.context make.new).trees conditions.new.items) }
    ensures trees { IfOk result (λ _. references_of (M.context make.new).trees conditions.new.items ≡ map (meets of) (map (ty_tree (M.context make.old).trees) types.now)) }
    ensures cause { IfErr result (λ s. IsTypesStop (length (M.context make.new).trees) (map (ty_tree (M.context make.old).trees) types.now) s) }
{
    for ty in types {
        push_condition(make, conditions, of, *ty)?;
    }
    Ok(())
}

/// Adds what the type itself has to meet.
#[tactic(auto, using(crate::proofs::Builtins::Conditions::is_evaluator_stop, crate::proofs::Builtins::Conditions::no_more))]
fn push_own<M: Make>(
    make: &mut M,
    conditions: &mut Vec<TraitRef>,
    ty: Ty,
    own: OwnDrop,
) -> Result<(), Stop>
    requires conditions { AreReferences (M.context make.old).trees conditions.old.items }
    requires ty { IsTy (M.context make.old).trees ty }
    ensures grows { Grows (M.context make.old) (M.context make.new) }
    ensures rest { M.rest make.new ≡ M.rest make.old }
    ensures sort { IfOk result (λ _. AreReferences (M.context make.new).trees conditions.new.items) }
    ensures trees { let ts = (M.context make.old).trees in IfOk result (λ _. references_of (M.context make.new).trees conditions.new.items ≡ references_of ts conditions.old.items ++ own_references (ty_tree ts ty) own) }
    ensures cause { IfErr result (λ s. IsConditionsStop (length (M.context make.new).trees) (Some (own_references (ty_tree (M.context make.old).trees ty) own)) s) }
{
    match own {
        OwnDrop::Drop(of) => {
            push_condition(make, conditions, of, ty)?;
            Ok(())
        }
        OwnDrop::Nothing | OwnDrop::Refused => Ok(()),
    }
}

/// That the trait holds of each of the types, and what the type itself has to meet.
#[tactic(auto, using(crate::proofs::Builtins::Conditions::types_stop, crate::proofs::Builtins::Conditions::own_after, crate::proofs::Builtins::Conditions::own_kept))]
fn all_conditions<M: Make>(
    alloc: Global,
    make: &mut M,
    of: TraitId,
    types: &[Ty],
    ty: Ty,
    own: OwnDrop,
) -> Result<Vec<TraitRef>, Stop>
    requires types { TypesFit (M.context make.old).trees types.now }
    requires ty { IsTy (M.context make.old).trees ty }
    ensures grows { Grows (M.context make.old) (M.context make.new) }
    ensures rest { M.rest make.new ≡ M.rest make.old }
    ensures sort { IfOk result (λ v. AreReferences (M.context make.new).trees v.items) }
    ensures trees { let ts = (M.context make.old).trees in IfOk result (λ v. references_of (M.context make.new).trees v.items ≡ all_references of (map (ty_tree ts) types.now) (ty_tree ts ty) own) }
    ensures cause { let ts = (M.context make.old).trees in IfErr result (λ s. IsConditionsStop (length (M.context make.new).trees) (Some (all_references of (map (ty_tree ts) types.now) (ty_tree ts ty) own)) s) }
{
    let mut conditions = Vec::new(alloc);
    push_conditions(make, &mut conditions, of, types)?;
    push_own(make, &mut conditions, ty, own)?;
    Ok(conditions)
}

/// What has to hold for a value of the type to be dropped where a constant is computed: that all types
/// that are dropped with it are `Destruct`, and then, where it has a destructor that constants can run,
/// that it is `Drop`.
///
/// No general variable and no bound type is asked about (`has_cell`). `NoSolution` comes where the table refuses the type, where its destructor is none that constants
/// can run, and where a trait that is needed isn't declared. `Stop::Memory` comes where a growth was
/// refused, `Stop::NodesFull` where a type or its reference was not made, as by `subst`; after a stop the
/// nodes that were made stay.
#[tactic(auto, using(crate::proofs::Builtins::Conditions::all_are, crate::proofs::Builtins::Conditions::all_stop, crate::proofs::Builtins::Conditions::made_types_stop, crate::proofs::Builtins::Conditions::undeclared, crate::proofs::Builtins::Conditions::cell_refused, crate::proofs::Builtins::Conditions::own_refuses))]
pub fn const_conditions_for_destruct<M: Make>(
    alloc: Global,
    make: &mut M,
    ty: Ty,
) -> Result<Vec<TraitRef>, NoSolutionOrStop>
    requires ty { IsTy (M.context make.old).trees ty }
    requires known { is_excluded (row_of (M.context make.old) (ty_tree (M.context make.old).trees ty)).destruct ≡ false }
    ensures grows { Grows (M.context make.old) (M.context make.new) }
    ensures rest { M.rest make.new ≡ M.rest make.old }
    ensures sort { IfOk result (λ v. AreReferences (M.context make.new).trees v.items) }
    ensures conditions { let c = M.context make.old in IfOk result (λ v. destruct_conditions c (ty_tree c.trees ty) ≡ Some (references_of (M.context make.new).trees v.items)) }
    ensures refused { let c = M.context make.old in IfErr result (if_refused (destruct_conditions c (ty_tree c.trees ty) ≡ None)) }
    ensures cause { let c = M.context make.old in IfErr result (if_stopped (λ s. IsConditionsStop (length (M.context make.new).trees) (destruct_conditions c (ty_tree c.trees ty)) s)) }
{
    let asked = cell(make.cx(), Column::Destruct, ty);
    let own = own_condition(make.cx(), ty);
    let of = match make.cx().lang_item(LangItem::Destruct) {
        Some(of) => of,
        None => return Err(NoSolutionOrStop::NoSolution),
    };
    if is_refused_cell(asked) {
        return Err(NoSolutionOrStop::NoSolution);
    }
    if is_refused(own) {
        return Err(NoSolutionOrStop::NoSolution);
    }
    let types = made(alloc, make, asked)?;
    let conditions = all_conditions(alloc, make, of, types.as_slice(), ty, own)?;
    Ok(conditions)
}
