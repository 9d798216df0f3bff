//! A small client of the two libraries: it declares two crates, makes a reference over them, and
//! asks whether the local one may write an impl of it.

ghost use Rattle.std.specs.Prelude.{◌≡◌, IfOk, Ok, Some, [], ◌∷◌, map, true};
ghost use Rattle.ir_trees.specs.Declarations.Context.{Grows, world};
ghost use Rattle.ir_trees.specs.Syntax.Kinds.{arg_child, sorts};
ghost use Rattle.ir_trees.specs.Declarations.References.{ArgumentsFit};
ghost use Rattle.ir_trees.specs.Syntax.Trees.{TypeKind};
ghost use Rattle.ir_trees.specs.Syntax.Words.{IsTy, IsArgs, ListFits};
ghost use Rattle.ir_trees.specs.Declarations.Worlds.{AdtSort, TraitSort, joined, parameters};
ghost use Rattle.candidate_eval.specs.Knowability.Calls.{NoForeignHeaderHere};

use candidate_eval::coherence::{
    InCrate, NormalizeErr, OrphanCheckMode, OrphanStop, orphan_check_trait_ref, trait_ref_is_plain,
};
use candidate_ir::decl::make::Build;
use candidate_ir::decl::{AdtFlags, AdtShape, Cx, DeclFault, DeclsBuilder, TraitFlags};
use candidate_ir::ir::kinds::{AdtId, GenericArg, TraitId, TraitRef, Ty, TyKind, VarKind};
use candidate_ir::ir::stop::Stop;
use candidate_ir::ir::trees::Trees;
use std::alloc::Global;
use std::convert::Infallible;

/// A context that declares `Vec<T>` and `From<T>` in a crate above, and `LocalType` in the local one.
#[derive(Drop)]
pub struct Declared {
    pub cx: Cx,
    pub vec: AdtId,
    pub local_type: AdtId,
    pub from: TraitId,
    pub ghost of_vec: { parameters (world cx) AdtSort vec.0 ≡ Some (TypeKind ∷ []) },
    pub ghost of_local_type: { parameters (world cx) AdtSort local_type.0 ≡ Some [] },
    pub ghost of_from: { parameters (world cx) TraitSort from.0 ≡ Some (TypeKind ∷ []) },
}

/// Declares them; only memory can be wanting.
pub fn declare(alloc: Global) -> Result<Declared, DeclFault> {
    let mut builder = DeclsBuilder::new(alloc);
    let upstream = builder.add_crate()?;
    let local = builder.add_crate()?;
    builder.set_local(local);
    let flags = AdtFlags::default();
    let vec = builder.add_adt(upstream, AdtShape::Struct, &[VarKind::Ty], flags)?;
    let local_type = builder.add_adt(local, AdtShape::Struct, &[], flags)?;
    let from = builder.add_trait(upstream, &[VarKind::Ty], TraitFlags::default())?;
    let cx = Cx::new(builder.finish()?);
    Ok(Declared {
        cx,
        vec,
        local_type,
        from,
    })
}

/// The data type with these arguments, which have the kinds of its parameters.
#[tactic(auto, using(ir_trees::proofs::Growth::Made::making))]
pub fn adt(cx: &mut Cx, id: AdtId, list: &[GenericArg]) -> Result<Ty, Stop>
    requires list { ListFits cx.old.trees list.now }
    requires kinds { parameters (world cx.old) AdtSort id.0 ≡ Some (sorts (map arg_child list.now)) }
    ensures grows { Grows cx.old cx.new }
    ensures sort { IfOk result (λ t. IsTy cx.new.trees t) }
{
    let args = cx.mk_args(list)?;
    cx.mk_ty(TyKind::Adt(id, args))
}

/// The trait with these arguments, which have the kinds of `Self` and its parameters.
#[tactic(auto, using(ir_trees::proofs::Growth::Made::making))]
pub fn reference(cx: &mut Cx, def_id: TraitId, list: &[GenericArg]) -> Result<TraitRef, Stop>
    requires list { ListFits cx.old.trees list.now }
    requires kinds { joined (Some (TypeKind ∷ [])) (parameters (world cx.old) TraitSort def_id.0) ≡ Some (sorts (map arg_child list.now)) }
    ensures grows { Grows cx.old cx.new }
    ensures sort { IfOk result (λ r. IsArgs cx.new.trees r.args) }
    ensures fit { IfOk result (λ r. ArgumentsFit cx.new r) }
{
    let args = cx.mk_args(list)?;
    Ok(TraitRef { def_id, args })
}

/// `Vec<LocalType>: From<LocalType>`.
#[tactic(auto, using(ir_trees::proofs::Growth::Made::making))]
pub fn vec_from_local(declared: &mut Declared) -> Result<TraitRef, Stop>
    ensures sort { IfOk result (λ r. IsArgs declared.new.cx.trees r.args) }
    ensures fit { IfOk result (λ r. ArgumentsFit declared.new.cx r) }
{
    let cx = &mut declared.cx;
    let local = adt(cx, declared.local_type, &[])?;
    let vec = adt(cx, declared.vec, &[GenericArg::Ty(local)])?;
    let list = [GenericArg::Ty(vec), GenericArg::Ty(local)];
    reference(cx, declared.from, &list)
}

/// Whether the local crate may write an impl of the reference, where nothing has to be normalised.
///
/// After a yes no header overlaps it that another crate may write, in any program with these
/// declarations, if neither crate names the other. What holds a parameter, an alias or an error is
/// no such reference. A check that gives up is a stop, and no answer.
pub fn may_write(alloc: Global, cx: &mut Cx, trait_ref: TraitRef) -> Result<bool, Stop>
    requires sort { IsArgs cx.old.trees trait_ref.args }
    requires fit { ArgumentsFit cx.old trait_ref }
    ensures { result ≡ Ok true → NoForeignHeaderHere cx.old trait_ref }
{
    // What the check asks of a reference, and what its promise asks besides.
    if cx.has_param(trait_ref) || !trait_ref_is_plain(cx, trait_ref) {
        return Ok(false);
    }
    let in_crate = InCrate::Local {
        mode: OrphanCheckMode::Proper,
    };
    let checked = orphan_check_trait_ref(
        alloc,
        cx,
        trait_ref,
        in_crate,
        |_, ty| -> Result<Ty, NormalizeErr<Infallible>> { Ok(ty) },
    );
    match checked {
        Ok(Ok(())) => Ok(true),
        Ok(Err(_)) => Ok(false),
        Err(OrphanStop::Stop(stop)) => Err(stop),
        Err(OrphanStop::Normalize(never)) => match never {},
    }
}
