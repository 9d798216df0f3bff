//! What the client answers.

ghost use Rattle.std.specs.Prelude.{◌≡◌, IfOk, Ok, true};
ghost use Rattle.candidate_eval.specs.Knowability.Calls.{NoUnnamedHeaderHere};
ghost use Rattle.ir_trees.specs.Declarations.References.{ArgumentsFit};
ghost use Rattle.ir_trees.specs.Syntax.Words.{IsArgs};

use crate::asserts::{equals, holds};
use crate::writing::{Declared, adt, declare, may_write, reference, vec_from_local};
use candidate_eval::coherence::{NormalizeErr, OrphanStop, trait_ref_is_knowable};
use candidate_ir::decl::Cx;
use candidate_ir::ir::heads::Flag;
use candidate_ir::ir::kinds::{GenericArg, TraitRef, Ty};
use candidate_ir::ir::stop::Stop;
use candidate_ir::ir::trees::Trees;
use std::alloc::Global;
use std::convert::Infallible;

/// `Vec<LocalType>: From<Vec<LocalType>>`.
#[tactic(auto, using(ir_trees::proofs::Growth::Made::making))]
fn vec_from_vec(declared: &mut Declared) -> Result<TraitRef, Stop>
    ensures sort { IfOk result (λ r. IsArgs declared.new.cx.trees r.args) }
    ensures fit { IfOk result (λ r. ArgumentsFit declared.new.cx r) }
{
    let cx = &mut declared.cx;
    let local = adt(cx, declared.local_type, &[])?;
    let vec = adt(cx, declared.vec, &[GenericArg::Ty(local)])?;
    reference(
        cx,
        declared.from,
        &[GenericArg::Ty(vec), GenericArg::Ty(vec)],
    )
}

/// Whether all impls of the reference are known, asked in the same way.
///
/// After a yes no header overlaps it that a crate may write which it doesn't name.
fn all_known(
    alloc: Global,
    cx: &mut Cx,
    trait_ref: TraitRef,
) -> Result<bool, OrphanStop<Infallible>>
    requires sort { IsArgs cx.old.trees trait_ref.args }
    requires fit { ArgumentsFit cx.old trait_ref }
    ensures { result ≡ Ok true → NoUnnamedHeaderHere cx.old trait_ref }
{
    if cx.has_param(trait_ref) || cx.has(trait_ref.args, Flag::Alias) {
        return Ok(false);
    }
    let known = trait_ref_is_knowable(
        alloc,
        cx,
        trait_ref,
        |_, ty| -> Result<Ty, NormalizeErr<Infallible>> { Ok(ty) },
    );
    match known {
        Ok(Ok(())) => Ok(true),
        Ok(Err(_)) => Ok(false),
        Err(stop) => Err(stop),
    }
}

#[test]
fn a_local_parameter_makes_all_known(rt: HostRuntime) {
    let mut declared = declare(rt.alloc()).expect(&rt, "memory");
    let trait_ref = vec_from_local(&mut declared).expect(&rt, "a reference");
    let mut cx = declared.cx;
    let answer = all_known(rt.alloc(), &mut cx, trait_ref);
    holds(&rt, matches!(answer, Ok(true)), "a local parameter");
}

#[test]
fn a_local_parameter_may_be_written(rt: HostRuntime) {
    let mut declared = declare(rt.alloc()).expect(&rt, "memory");
    let trait_ref = vec_from_local(&mut declared).expect(&rt, "a reference");
    let mut cx = declared.cx;
    let answer = may_write(rt.alloc(), &mut cx, trait_ref);
    equals(&rt, &answer, &Ok(true), "a local parameter");
}

#[test]
fn types_of_others_may_not(rt: HostRuntime) {
    let mut declared = declare(rt.alloc()).expect(&rt, "memory");
    let trait_ref = vec_from_vec(&mut declared).expect(&rt, "a reference");
    let mut cx = declared.cx;
    let answer = may_write(rt.alloc(), &mut cx, trait_ref);
    equals(&rt, &answer, &Ok(false), "types of others");
}
