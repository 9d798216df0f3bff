//! Checks whose normalisers make nodes, or hold a type.

ghost use Rattle.std.specs.Prelude.{◌≡◌, IfOk};
ghost use Rattle.ir_trees.specs.Declarations.References.{ArgumentsFit};
ghost use Rattle.ir_trees.specs.Syntax.Words.{IsArgs, IsTy};

use crate::asserts::holds;
use crate::normalising::{checked_as, checked_by_reference};
use crate::writing::{Declared, adt, declare, reference};
use candidate_eval::coherence::{InCrate, OrphanCheckMode, OrphanStop};
use candidate_ir::decl::make::Build;
use candidate_ir::ir::kinds::{GenericArg, TraitRef, Ty, TyKind, UintTy};
use candidate_ir::ir::stop::Stop;
use candidate_ir::ir::trees::Trees;
use std::process::Abort;

const PROPER: InCrate = InCrate::Local {
    mode: OrphanCheckMode::Proper,
};

/// `u8: From<u8>`, and the local type.
#[tactic(auto, using(ir_trees::proofs::Growth::Made::making))]
fn byte_from_byte(rt: &impl Abort, declared: &mut Declared) -> Result<(TraitRef, Ty), Stop>
    ensures sort { IfOk result (λ r. IsArgs declared.new.cx.trees r.0.args) }
    ensures fit { IfOk result (λ r. ArgumentsFit declared.new.cx r.0) }
    ensures local { IfOk result (λ r. IsTy declared.new.cx.trees r.1) }
{
    let cx = &mut declared.cx;
    let kind = TyKind::Uint(UintTy::U8);
    holds(rt, cx.args_fit(kind), "no arguments");
    let byte = cx.mk_ty(kind)?;
    let local = adt(cx, declared.local_type, &[])?;
    let list = [GenericArg::Ty(byte), GenericArg::Ty(byte)];
    Ok((reference(cx, declared.from, &list)?, local))
}

#[test]
fn a_normaliser_makes_nodes(rt: HostRuntime) {
    let mut declared = declare(rt.alloc()).expect(&rt, "memory");
    let made = byte_from_byte(&rt, &mut declared);
    let (of_byte, _) = made.expect(&rt, "a reference");
    let mut cx = declared.cx;
    let has_param = cx.has_param(of_byte);
    holds(&rt, !has_param, "no parameter");
    let checked = checked_by_reference(rt.alloc(), &mut cx, of_byte, PROPER);
    let is_too_deep = matches!(checked, Err(OrphanStop::Stop(Stop::WalkDepth)));
    holds(&rt, is_too_deep, "a reference for each byte");
}

#[test]
fn a_normaliser_holds_a_type(rt: HostRuntime) {
    let mut declared = declare(rt.alloc()).expect(&rt, "memory");
    let made = byte_from_byte(&rt, &mut declared);
    let (of_byte, local) = made.expect(&rt, "a reference");
    let mut cx = declared.cx;
    let has_param = cx.has_param(of_byte);
    holds(&rt, !has_param, "no parameter");
    let checked = checked_as(rt.alloc(), &mut cx, of_byte, PROPER, local);
    holds(&rt, matches!(checked, Ok(Ok(()))), "a local type for each");
}
