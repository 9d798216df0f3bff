//! The types that a cell asks about.

ghost use Rattle.std.specs.Prelude.{◌≡◌, [], ◌∷◌, IfOk, IfErr, IfSome, length, map, true};
ghost use Rattle.ir_trees.specs.Declarations.Context.{Grows};
ghost use Rattle.ir_trees.specs.Validity.WellFormed.{TypesFit};
ghost use Rattle.ir_trees.specs.Syntax.Words.{IsArgs, args_forest, ty_tree};
ghost use Rattle.candidate_eval.specs.Builtins.Tables.{optional, last_of, with_args, bytes, IsTypesStop};
ghost use Rattle.candidate_eval.specs.Builtins.Asked.{ty_args, first_ty, AskedFits, HaveArguments, arguments_of, asked_types, is_listed, trees_with};

use crate::structural::asked::Asked;
use ir_context::decl::Cx;
use ir_context::decl::make::Make;
use ir_folds::decl::subst::subst;
use ir_trees::ir::kinds::{Args, GenericArg, Ty, TyKind, UintTy};
use ir_trees::ir::stop::Stop;
use ir_trees::ir::trees::Trees;
use std::alloc::{AllocError, Global};

/// The types among the arguments, in order.
#[tactic(auto, using(crate::proofs::Builtins::Types::no_types, crate::proofs::Builtins::Types::all_types))]
fn types_among(alloc: Global, list: &[GenericArg]) -> Result<Vec<Ty>, AllocError>
    ensures { IfOk result (λ v. v.items ≡ ty_args list.now) }
{
    let mut types = Vec::new(alloc);
    for arg in list {
        let GenericArg::Ty(ty) = *arg else { continue };
        types.push(ty)?;
    }
    Ok(types)
}

/// The last type among the arguments, if there is one.
#[tactic(auto, using(crate::proofs::Builtins::Types::no_last, crate::proofs::Builtins::Types::all_last))]
fn last_type(list: &[GenericArg]) -> Option<Ty>
    ensures { optional result ≡ last_of (ty_args list.now) }
{
    let mut last = None;
    for arg in list {
        let GenericArg::Ty(ty) = *arg else { continue };
        last = Some(ty);
    }
    last
}

/// The first argument, if it is a type.
pub(crate) fn first_type(list: &[GenericArg]) -> Option<Ty>
    ensures { result ≡ first_ty list.now }
{
    match list {
        [GenericArg::Ty(ty), ..] => Some(*ty),
        _ => None,
    }
}

/// The type alone, or none.
fn at_most_one(alloc: Global, ty: Option<Ty>) -> Result<Vec<Ty>, AllocError>
    ensures { IfOk result (λ v. v.items ≡ optional ty) }
{
    let mut types = Vec::new(alloc);
    if let Some(ty) = ty {
        types.push(ty)?;
    }
    Ok(types)
}

/// The types that are there, as they stand in a type or are declared: no type is made.
fn listed(alloc: Global, cx: &Cx, asked: Asked) -> Result<Vec<Ty>, AllocError>
    requires fits { AskedFits cx.now asked }
    requires listed { is_listed asked ≡ true }
    ensures sort { IfOk result (λ v. TypesFit cx.now.trees v.items) }
    ensures have { IfOk result (λ v. IfSome (arguments_of asked) (λ a. HaveArguments cx.now a v.items)) }
    ensures trees { IfOk result (λ v. trees_with cx.now (arguments_of asked) v.items ≡ asked_types cx.now asked) }
{
    match asked {
        Asked::Type(ty) => at_most_one(alloc, Some(ty)),
        Asked::Under(inner) => at_most_one(alloc, Some(inner.value)),
        Asked::Members(list) => types_among(alloc, cx.args(list)),
        Asked::LastMember(list) => at_most_one(alloc, last_type(cx.args(list))),
        Asked::FirstArgument(list) => at_most_one(alloc, first_type(cx.args(list))),
        Asked::Fields(adt, args) => Vec::from_slice(alloc, cx.fields_of(adt, args)),
        Asked::Constraint(adt, args, sizedness) => {
            at_most_one(alloc, cx.constraint_of(adt, args, sizedness))
        }
        Asked::Hidden(opaque, args) => at_most_one(alloc, cx.hidden_type_of(opaque, args)),
        Asked::Refused | Asked::Nothing | Asked::Bytes => at_most_one(alloc, None),
    }
}

/// The arguments that are put into what is declared.
fn arguments(asked: Asked) -> Option<Args>
    ensures { result ≡ arguments_of asked }
{
    match asked {
        Asked::Fields(_, args) | Asked::Constraint(_, args, _) | Asked::Hidden(_, args) => {
            Some(args)
        }
        _ => None,
    }
}

/// The types with the arguments put in, in order.
#[tactic(auto, using(crate::proofs::Builtins::Types::none_put, crate::proofs::Builtins::Types::all_put))]
fn substituted<M: Make>(
    alloc: Global,
    make: &mut M,
    declared: &[Ty],
    args: Args,
) -> Result<Vec<Ty>, Stop>
    requires fit { TypesFit (M.context make.old).trees declared.now }
    requires args { IsArgs (M.context make.old).trees args }
    requires have { HaveArguments (M.context make.old) args declared.now }
    ensures grows { Grows (M.context make.old) (M.context make.new) }
    ensures rest { M.rest make.new ≡ M.rest make.old }
    ensures sort { IfOk result (λ v. TypesFit (M.context make.new).trees v.items) }
    ensures trees { let c = M.context make.old in IfOk result (λ v. map (ty_tree (M.context make.new).trees) v.items ≡ with_args c (args_forest c.trees args) declared.now) }
    ensures cause { let c = M.context make.old in IfErr result (λ s. IsTypesStop (length (M.context make.new).trees) (with_args c (args_forest c.trees args) declared.now) s) }
{
    let mut types = Vec::new(alloc);
    for ty in declared {
        let ty = subst(alloc, make, *ty, args)?;
        types.push(ty)?;
    }
    Ok(types)
}

/// The slice of bytes alone.
fn byte_slice<M: Make>(alloc: Global, make: &mut M) -> Result<Vec<Ty>, Stop>
    ensures grows { Grows (M.context make.old) (M.context make.new) }
    ensures rest { M.rest make.new ≡ M.rest make.old }
    ensures sort { IfOk result (λ v. TypesFit (M.context make.new).trees v.items) }
    ensures trees { IfOk result (λ v. map (ty_tree (M.context make.new).trees) v.items ≡ bytes ∷ []) }
    ensures cause { IfErr result (λ s. IsTypesStop (length (M.context make.new).trees) (bytes ∷ []) s) }
{
    let byte = make.mk_ty(TyKind::Uint(UintTy::U8))?;
    let slice = make.mk_ty(TyKind::Slice(byte))?;
    Ok(at_most_one(alloc, Some(slice))?)
}

/// The types that are asked about.
pub(crate) fn made<M: Make>(alloc: Global, make: &mut M, asked: Asked) -> Result<Vec<Ty>, Stop>
    requires { AskedFits (M.context make.old) asked }
    ensures grows { Grows (M.context make.old) (M.context make.new) }
    ensures rest { M.rest make.new ≡ M.rest make.old }
    ensures sort { IfOk result (λ v. TypesFit (M.context make.new).trees v.items) }
    ensures trees { IfOk result (λ v. map (ty_tree (M.context make.new).trees) v.items ≡ asked_types (M.context make.old) asked) }
    ensures cause { IfErr result (λ s. IsTypesStop (length (M.context make.new).trees) (asked_types (M.context make.old) asked) s) }
{
    if let Asked::Bytes = asked {
        return byte_slice(alloc, make);
    }
    let types = listed(alloc, make.cx(), asked)?;
    match arguments(asked) {
        Some(args) => substituted(alloc, make, types.as_slice(), args),
        None => Ok(types),
    }
}
