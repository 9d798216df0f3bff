//! Checks whose normalisers make nodes, or hold types of the context.

ghost use Rattle.std.specs.Prelude.{◌≡◌, ◌≢◌, true, IfOk, IfErr};
ghost use Rattle.ir_trees.specs.Declarations.Context.{Grows};
ghost use Rattle.ir_trees.specs.Declarations.References.{ArgumentsFit};
ghost use Rattle.ir_trees.specs.Syntax.Words.{IsTy, IsArgs, ty_tree};
ghost use Rattle.candidate_eval.specs.Knowability.Answers.{OutOfMemory, answer_of};
ghost use Rattle.candidate_eval.specs.Knowability.Calls.{HasNoParam};
ghost use Rattle.candidate_eval.specs.Knowability.Orphan.{Sees};
ghost use Rattle.examples.specs.Looks.{is_byte, reference_to, referenced, refused_node, check_by};

use candidate_eval::coherence::{
    InCrate, NormalizeErr, OrphanCheckErr, OrphanStop, orphan_check_trait_ref,
};
use candidate_ir::decl::Cx;
use candidate_ir::decl::make::Build;
use candidate_ir::ir::kinds::{Mutability, RegionKind, TraitRef, Ty, TyKind, UintTy};
use candidate_ir::ir::stop::Stop;
use candidate_ir::ir::trees::Trees;
use std::alloc::Global;
use std::convert::Infallible;

fn is_byte(cx: &Cx, ty: Ty) -> bool
    requires { IsTy cx.now.trees ty }
    ensures { result ≡ is_byte (ty_tree cx.now.trees ty).head }
{
    matches!(cx.kind(ty), TyKind::Uint(UintTy::U8))
}

/// The `&'static` type of a type. It stops as `Cx::mk_ty` does.
fn reference_to(cx: &mut Cx, ty: Ty) -> Result<Ty, Stop>
    requires { IsTy cx.old.trees ty }
    ensures grows { Grows cx.old cx.new }
    ensures sort { IfOk result (λ t. IsTy cx.new.trees t) }
    ensures tree { IfOk result (λ t. ty_tree cx.new.trees t ≡ reference_to (ty_tree cx.old.trees ty)) }
    ensures stops { IfErr result (λ s. refused_node s ≡ true) }
{
    let region = cx.mk_region(RegionKind::Static)?;
    cx.mk_ty(TyKind::Ref(region, ty, Mutability::Not))
}

/// `&'static u8` for `u8`, and any other type for itself. It stops as `Cx::mk_ty` does.
fn referenced(cx: &mut Cx, ty: Ty) -> Result<Ty, NormalizeErr<Infallible>>
    requires { IsTy cx.old.trees ty }
    ensures grows { Grows cx.old cx.new }
    ensures sort { IfOk result (λ t. IsTy cx.new.trees t) }
    ensures tree { IfOk result (λ t. ty_tree cx.new.trees t ≡ referenced (ty_tree cx.old.trees ty)) }
    ensures stops { IfErr result (λ e. (s : Stop) × ((e ≡ NormalizeErr.Stop s) × (refused_node s ≡ true))) }
{
    if !is_byte(cx, ty) {
        return Ok(ty);
    }
    match reference_to(cx, ty) {
        Ok(reference) => Ok(reference),
        Err(stop) => Err(NormalizeErr::Stop(stop)),
    }
}

/// The orphan check where `&'static u8` stands for `u8`. It makes a node for each `u8` that is met.
pub fn checked_by_reference(
    alloc: Global,
    cx: &mut Cx,
    trait_ref: TraitRef,
    in_crate: InCrate,
) -> Result<Result<(), OrphanCheckErr<Ty>>, OrphanStop<Infallible>>
    requires args { IsArgs cx.old.trees trait_ref.args }
    requires fit { ArgumentsFit cx.old trait_ref }
    requires no_param { HasNoParam cx.old trait_ref }
    ensures answer { result ≢ Err (OrphanStop.Stop Stop.Memory) → result ≢ Err (OrphanStop.Stop Stop.NodesFull) → answer_of cx.new.trees result ≡ check_by (λ t. Sees (referenced t)) cx.old in_crate trait_ref }
{
    orphan_check_trait_ref(
        alloc,
        cx,
        trait_ref,
        in_crate,
        |cx: &mut Cx, ty: Ty| -> Result<Ty, NormalizeErr<Infallible>> { referenced(cx, ty) },
    )
}

/// The orphan check where one type of the context stands for each type.
pub fn checked_as(
    alloc: Global,
    cx: &mut Cx,
    trait_ref: TraitRef,
    in_crate: InCrate,
    seen: Ty,
) -> Result<Result<(), OrphanCheckErr<Ty>>, OrphanStop<Infallible>>
    requires args { IsArgs cx.old.trees trait_ref.args }
    requires fit { ArgumentsFit cx.old trait_ref }
    requires no_param { HasNoParam cx.old trait_ref }
    requires seen { IsTy cx.old.trees seen }
    ensures answer { ¬ (OutOfMemory result) → answer_of cx.new.trees result ≡ check_by (λ _. Sees (ty_tree cx.old.trees seen)) cx.old in_crate trait_ref }
{
    orphan_check_trait_ref(
        alloc,
        cx,
        trait_ref,
        in_crate,
        move |_: &mut Cx, _: Ty| -> Result<Ty, NormalizeErr<Infallible>> { Ok(seen) },
    )
}
