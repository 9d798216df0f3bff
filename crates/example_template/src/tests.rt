//! What the client answers.

use crate::all_known;
use candidate_ir::decl::make::Build;
use candidate_ir::decl::{Cx, DeclsBuilder, TraitFlags};
use candidate_ir::ir::kinds::{GenericArg, TraitRef, TyKind, UintTy};

#[test]
fn upstream_may_add_an_impl(rt: HostRuntime) {
    let alloc = rt.alloc();
    let mut builder = DeclsBuilder::new(alloc);
    let upstream = builder.add_crate().expect(&rt, "memory");
    let local = builder.add_crate().expect(&rt, "memory");
    builder.set_local(local);
    let display = builder
        .add_trait(upstream, &[], TraitFlags::default())
        .expect(&rt, "memory");
    let mut cx = Cx::new(builder.finish().expect(&rt, "no fault"));
    let byte = cx.mk_ty(TyKind::Uint(UintTy::U8)).expect(&rt, "memory");
    let args = cx.mk_args(&[GenericArg::Ty(byte)]).expect(&rt, "memory");
    let trait_ref = TraitRef {
        def_id: display,
        args,
    };
    assert!(rt; cx.trait_ref_args_fit(trait_ref), "the trait takes a type");
    let answer = all_known(alloc, &mut cx, trait_ref);
    assert!(rt;
        matches!(answer, Ok(false)),
        "the crate of the trait may add an impl"
    );
}
