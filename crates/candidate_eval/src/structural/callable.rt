//! What can be called: with which inputs, as one tuple, and to which output.

ghost use Rattle.std.specs.Prelude.{◌≡◌, ◌↔◌, ◌∷◌, [], IsTrue, IfOk, IfErr, IfSome, Some, None, false, true, length};
ghost use Rattle.ir_trees.specs.Declarations.Context.{Grows, world};
ghost use Rattle.ir_trees.specs.Instantiation.Folding.{IsSubstStop, lacks_argument, substituted_tree};
ghost use Rattle.ir_trees.specs.Declarations.Lookups.{definition, fn_flags};
ghost use Rattle.ir_trees.specs.Declarations.References.{Takes};
ghost use Rattle.ir_context.specs.Instantiation.Signatures.{SignatureHas};
ghost use Rattle.ir_trees.specs.Unification.Substitutions.{alone};
ghost use Rattle.ir_trees.specs.Syntax.Trees.{tree_holds};
ghost use Rattle.ir_trees.specs.Validity.WellFormed.{SignatureFits};
ghost use Rattle.ir_trees.specs.Syntax.Words.{IsArgs, IsSig, IsTy, SigFits, KindFits, args_forest, kind_tree, sig_kind_tree, sig_tree, ty_tree};
ghost use Rattle.ir_trees.specs.Declarations.Worlds.{FunctionSort, kinds_of, parameters};
ghost use Rattle.candidate_eval.specs.Builtins.Tables.{IsTypesStop};
ghost use Rattle.candidate_eval.specs.Builtins.Callable.{extends, closure_calls, signature_callable, pointer_callable, are_types, can_be_called, function_signature, declared_signature, function_calls, calls, makes, const_calls, const_makes, callable_of, IsCallable, calls_of, const_calls_of, instance_makes, pointer_calls, pointer_makes, function_makes, const_function_calls, const_function_makes, IsMadeStop, IsCallStop, IsConstCallStop, is_const_function, is_unknown, called_of, called_calls, called_makes, called_const_calls, called_const_makes, CalledFits};
ghost use Rattle.candidate_eval.specs.Builtins.Callable as seen;
ghost use Rattle.candidate_eval.specs.Interface.Accounts.{if_refused, if_stopped};

use crate::eval::refusal::NoSolutionOrStop;
use crate::structural::tables::{is_no_unknown, kind_of};
use ir_context::decl::Cx;
use ir_context::decl::make::Make;
use ir_folds::decl::subst::subst;
use ir_trees::decl::definition::{FnFlags, are_type_args};
use ir_trees::ir::kinds::{
    Args, Binder, ClosureArgs, ClosureId, ClosureKind, ClosureSig, FnId, FnSig, Sig, Ty, TyKind,
};
use ir_trees::ir::stop::Stop;
use ir_trees::ir::trees::Trees;
use std::alloc::Global;

/// What is called where a constant is computed.
#[derive(Clone, Copy, PartialEq, Eq)]
pub enum CallableId {
    Function(FnId),
    Closure(ClosureId),
}

/// What a type says of being called.
#[derive(Clone, Copy)]
pub(crate) enum Called {
    Function(FnId, Args),
    Pointer(Binder<FnSig>),
    Closure(ClosureId, ClosureArgs),
    /// It can't be.
    Nothing,
}

/// Whether a closure that is called so can also be called as is asked: `Fn` in any way, `FnMut` as
/// `FnMut` and as `FnOnce`, and `FnOnce` as itself alone.
pub fn extends(kind: ClosureKind, asked: ClosureKind) -> bool
    ensures { result ≡ extends kind asked }
{
    match kind {
        ClosureKind::Fn => true,
        ClosureKind::FnMut => !matches!(asked, ClosureKind::Fn),
        ClosureKind::FnOnce => matches!(asked, ClosureKind::FnOnce),
    }
}

/// The inputs, as a tuple, and the output of a closure's signature as they stand.
#[tactic(auto, using(crate::proofs::Builtins::Callables::signature_fits))]
fn signature(cx: &Cx, sig: Sig) -> Binder<(Ty, Ty)>
    requires { IsSig cx.now.trees sig }
    ensures sort { IsCallable cx.now.trees result }
    ensures callable { callable_of cx.now.trees result ≡ signature_callable (sig_tree cx.now.trees sig) }
{
    let sig = cx.sig(sig);
    Binder {
        vars: sig.vars,
        value: (sig.value.inputs, sig.value.output),
    }
}

/// The inputs, as a tuple, and the output of a closure that is called as is asked, under the binder
/// of its signature. `None` where its kind isn't determined yet and it is asked for more than one
/// call. `NoSolution` comes where it can't be called so.
pub fn inputs_and_output_of_closure(
    cx: &Cx,
    args: ClosureArgs,
    goal_kind: ClosureKind,
) -> Result<Option<Binder<(Ty, Ty)>>, NoSolutionOrStop>
    requires { IsSig cx.now.trees args.sig }
    ensures sort { IfOk result (λ o. IfSome o (λ b. IsCallable cx.now.trees b)) }
    ensures callable { IfOk result (λ o. closure_calls args.kind goal_kind (signature_callable (sig_tree cx.now.trees args.sig)) ≡ calls_of cx.now.trees o) }
    ensures refused { IfErr result (λ e. e ≡ NoSolutionOrStop.NoSolution) }
    ensures none { IfErr result (λ e. closure_calls args.kind goal_kind (signature_callable (sig_tree cx.now.trees args.sig)) ≡ seen.Refused) }
{
    match (args.kind, goal_kind) {
        (Some(kind), _) => if extends(kind, goal_kind) {
            Ok(Some(signature(cx, args.sig)))
        } else {
            Err(NoSolutionOrStop::NoSolution)
        },
        (None, ClosureKind::FnOnce) => Ok(Some(signature(cx, args.sig))),
        (None, ClosureKind::Fn | ClosureKind::FnMut) => Ok(None),
    }
}

/// The inputs of the pointer as a tuple, and its output, under its binder.
#[tactic(auto, using(crate::proofs::Builtins::Callables::inputs_taken, crate::proofs::Builtins::Callables::tuple_unmade, crate::proofs::Builtins::Callables::tupled_callable))]
fn tupled<M: Make>(make: &mut M, sig: Binder<FnSig>) -> Result<Binder<(Ty, Ty)>, Stop>
    requires fits { KindFits (M.context make.old).trees (TyKind.FnPtr sig) }
    requires takes { Takes (world (M.context make.old)) (kind_tree (M.context make.old).trees (TyKind.FnPtr sig)) }
    ensures grows { Grows (M.context make.old) (M.context make.new) }
    ensures rest { M.rest make.new ≡ M.rest make.old }
    ensures sort { IfOk result (λ b. IsCallable (M.context make.new).trees b) }
    ensures callable { IfOk result (λ b. callable_of (M.context make.new).trees b ≡ pointer_callable (kind_tree (M.context make.old).trees (TyKind.FnPtr sig)).children) }
    ensures cause { IfErr result (λ s. IsTypesStop (length (M.context make.new).trees) ((pointer_callable (kind_tree (M.context make.old).trees (TyKind.FnPtr sig)).children).inputs ∷ []) s) }
{
    let inputs = make.mk_ty(TyKind::Tuple(sig.value.inputs))?;
    Ok(Binder {
        vars: sig.vars,
        value: (inputs, sig.value.output),
    })
}

/// The inputs of the pointer as a tuple, and its output, under its binder.
///
/// `NoSolution` comes where it is unsafe, of another ABI or variadic, `Stop::Memory` where a growth
/// was refused, `Stop::NodesFull` where the tuple was not made, as by `mk_ty`.
#[tactic(auto, using(crate::proofs::Builtins::Callables::compatible_calls, crate::proofs::Builtins::Callables::incompatible_calls, crate::proofs::Builtins::Callables::pointer_stop))]
pub fn inputs_and_output_of_fn_ptr<M: Make>(
    make: &mut M,
    sig: Binder<FnSig>,
) -> Result<Binder<(Ty, Ty)>, NoSolutionOrStop>
    requires fits { KindFits (M.context make.old).trees (TyKind.FnPtr sig) }
    requires takes { Takes (world (M.context make.old)) (kind_tree (M.context make.old).trees (TyKind.FnPtr sig)) }
    ensures grows { Grows (M.context make.old) (M.context make.new) }
    ensures rest { M.rest make.new ≡ M.rest make.old }
    ensures sort { IfOk result (λ b. IsCallable (M.context make.new).trees b) }
    ensures callable { IfOk result (λ b. pointer_calls (M.context make.old).trees sig ≡ seen.CalledWith (callable_of (M.context make.new).trees b)) }
    ensures refused { IfErr result (λ e. e ≡ NoSolutionOrStop.NoSolution → pointer_calls (M.context make.old).trees sig ≡ seen.Refused) }
    ensures cause { IfErr result (if_stopped (λ s. IsMadeStop (length (M.context make.new).trees) (pointer_makes (M.context make.old).trees sig) s)) }
{
    if !sig.value.is_fn_trait_compatible() {
        return Err(NoSolutionOrStop::NoSolution);
    }
    Ok(tupled(make, sig)?)
}

/// Whether all arguments of the list are types.
#[tactic(auto, using(crate::proofs::Builtins::Callables::types_read))]
fn are_types(cx: &Cx, list: Args) -> bool
    requires { IsArgs cx.now.trees list }
    ensures { result ≡ are_types (args_forest cx.now.trees list) }
{
    are_type_args(cx.args(list))
}

/// Whether a function with these flags and this signature can be called.
fn can_be_called(cx: &Cx, flags: FnFlags, sig: FnSig) -> bool
    requires { IsArgs cx.now.trees sig.inputs }
    ensures { result ≡ can_be_called cx.now.trees flags sig }
{
    sig.is_fn_trait_compatible() && !flags.target_features && are_types(cx, sig.inputs)
}

/// The signature of the function as it is declared, if it can be called; its parameters have these
/// arguments.
#[tactic(auto, using(crate::proofs::Builtins::Callables::no_flags, crate::proofs::Builtins::Callables::no_signature, crate::proofs::Builtins::Callables::called_signature, crate::proofs::Builtins::Callables::uncalled_signature, crate::proofs::Builtins::Callables::called_types))]
fn function_signature(cx: &Cx, function: FnId, args: Args) -> Option<Binder<FnSig>>
    requires { parameters (world cx.now) FunctionSort function.0 ≡ Some (kinds_of (args_forest cx.now.trees args)) }
    ensures is { result ≡ function_signature cx.now function.0 }
    ensures fits { IfSome result (λ s. SignatureFits cx.now.trees s) }
    ensures has { IfSome result (λ s. SignatureHas cx.now.trees (args_forest cx.now.trees args) s) }
    ensures types { IfSome result (λ s. are_types (args_forest cx.now.trees s.value.inputs) ≡ true) }
{
    let flags = cx.fn_flags(function)?;
    let sig = cx.fn_sig_of(function, args)?;
    if can_be_called(cx, flags, sig.value) {
        Some(sig)
    } else {
        None
    }
}

/// The signature of a function as that of a closure: its inputs as one tuple.
#[tactic(auto, using(crate::proofs::Builtins::Callables::tuple_takes, crate::proofs::Builtins::Callables::tuple_fits, crate::proofs::Builtins::Callables::declared_fits, crate::proofs::Builtins::Callables::declared_tree, crate::proofs::Builtins::Callables::tuple_stop, crate::proofs::Builtins::Callables::signature_stop))]
fn declared<M: Make>(make: &mut M, sig: Binder<FnSig>) -> Result<Sig, Stop>
    requires fits { SignatureFits (M.context make.old).trees sig }
    requires types { are_types (args_forest (M.context make.old).trees sig.value.inputs) ≡ true }
    ensures grows { Grows (M.context make.old) (M.context make.new) }
    ensures rest { M.rest make.new ≡ M.rest make.old }
    ensures sort { IfOk result (λ s. IsSig (M.context make.new).trees s) }
    ensures tree { IfOk result (λ s. sig_tree (M.context make.new).trees s ≡ declared_signature (M.context make.old).trees sig) }
    ensures cause { IfErr result (λ s. IsSubstStop (length (M.context make.new).trees) (alone (declared_signature (M.context make.old).trees sig)) s) }
{
    let inputs = make.mk_ty(TyKind::Tuple(sig.value.inputs))?;
    make.mk_sig(Binder {
        vars: sig.vars,
        value: ClosureSig {
            inputs,
            output: sig.value.output,
        },
    })
}

/// The inputs as a tuple, and the output, of the signature with arguments put in.
#[tactic(auto, using(crate::proofs::Builtins::Callables::declared_has, crate::proofs::Builtins::Callables::instance_read, crate::proofs::Builtins::Callables::first_stop, crate::proofs::Builtins::Callables::second_stop))]
fn instance<M: Make>(
    alloc: Global,
    make: &mut M,
    sig: Binder<FnSig>,
    args: Args,
) -> Result<Binder<(Ty, Ty)>, Stop>
    requires fits { SignatureFits (M.context make.old).trees sig }
    requires types { are_types (args_forest (M.context make.old).trees sig.value.inputs) ≡ true }
    requires args { IsArgs (M.context make.old).trees args }
    requires has { SignatureHas (M.context make.old).trees (args_forest (M.context make.old).trees args) sig }
    ensures grows { Grows (M.context make.old) (M.context make.new) }
    ensures rest { M.rest make.new ≡ M.rest make.old }
    ensures sort { IfOk result (λ b. IsCallable (M.context make.new).trees b) }
    ensures callable { let ts = (M.context make.old).trees in IfOk result (λ b. callable_of (M.context make.new).trees b ≡ signature_callable (substituted_tree (args_forest ts args) (declared_signature ts sig))) }
    ensures cause { let ts = (M.context make.old).trees in IfErr result (λ s. IsTypesStop (length (M.context make.new).trees) (instance_makes ts (args_forest ts args) (Some sig)) s) }
{
    let declared = declared(make, sig)?;
    let made = subst(alloc, make, declared, args)?;
    Ok(signature(make.cx(), made))
}

/// The inputs of the function as a tuple, and its output, under the binder of its signature, with
/// these arguments put in.
///
/// `NoSolution` comes where it is unsafe, of another ABI or variadic, where it needs features that
/// the target may lack, and where an input is no type. `Stop::Memory` comes where a growth was
/// refused, `Stop::NodesFull` where the signature was not made, as by `mk_sig` and `subst`.
#[tactic(auto, using(crate::proofs::Builtins::Callables::function_called, crate::proofs::Builtins::Callables::function_refused, crate::proofs::Builtins::Callables::function_stop))]
pub fn inputs_and_output_of_fn_def<M: Make>(
    alloc: Global,
    make: &mut M,
    function: FnId,
    args: Args,
) -> Result<Binder<(Ty, Ty)>, NoSolutionOrStop>
    requires args { IsArgs (M.context make.old).trees args }
    requires fit { parameters (world (M.context make.old)) FunctionSort function.0 ≡ Some (kinds_of (args_forest (M.context make.old).trees args)) }
    ensures grows { Grows (M.context make.old) (M.context make.new) }
    ensures rest { M.rest make.new ≡ M.rest make.old }
    ensures sort { IfOk result (λ b. IsCallable (M.context make.new).trees b) }
    ensures callable { let c = M.context make.old in IfOk result (λ b. function_calls c function.0 (args_forest c.trees args) ≡ seen.CalledWith (callable_of (M.context make.new).trees b)) }
    ensures refused { let c = M.context make.old in IfErr result (if_refused (function_calls c function.0 (args_forest c.trees args) ≡ seen.Refused)) }
    ensures cause { let c = M.context make.old in IfErr result (if_stopped (λ s. IsMadeStop (length (M.context make.new).trees) (function_makes c function.0 (args_forest c.trees args)) s)) }
{
    match function_signature(make.cx(), function, args) {
        Some(sig) => Ok(instance(alloc, make, sig, args)?),
        None => Err(NoSolutionOrStop::NoSolution),
    }
}

fn called_as(kind: TyKind) -> Called
    ensures { result ≡ called_of kind }
{
    match kind {
        TyKind::FnDef(function, args) => Called::Function(function, args),
        TyKind::FnPtr(sig) => Called::Pointer(sig),
        TyKind::Closure(closure, args) => Called::Closure(closure, args),
        TyKind::Bool
        | TyKind::Char
        | TyKind::Int(_)
        | TyKind::Uint(_)
        | TyKind::Float(_)
        | TyKind::Str
        | TyKind::Never
        | TyKind::Adt(_, _)
        | TyKind::Foreign(_)
        | TyKind::Array(_, _)
        | TyKind::Slice(_)
        | TyKind::Pat(_, _)
        | TyKind::RawPtr(_, _)
        | TyKind::Ref(_, _, _)
        | TyKind::UnsafeBinder(_)
        | TyKind::Dynamic(_, _)
        | TyKind::Tuple(_)
        | TyKind::Alias(_)
        | TyKind::Param(_)
        | TyKind::Placeholder(_)
        | TyKind::Bound(_)
        | TyKind::Infer(_)
        | TyKind::Error => Called::Nothing,
    }
}

/// What the type says of being called.
#[tactic(auto, using(crate::proofs::Builtins::Callables::kind_fits, crate::proofs::Builtins::Callables::kind_calls, crate::proofs::Builtins::Callables::kind_makes, crate::proofs::Builtins::Callables::kind_const_calls, crate::proofs::Builtins::Callables::kind_const_makes))]
fn how_called(cx: &Cx, ty: Ty) -> Called
    requires ty { IsTy cx.now.trees ty }
    requires known { is_unknown (ty_tree cx.now.trees ty).head ≡ false }
    ensures fits { CalledFits cx.now result }
    ensures calls { (kind : ClosureKind) → calls cx.now kind (ty_tree cx.now.trees ty) ≡ called_calls cx.now kind result }
    ensures makes { makes cx.now (ty_tree cx.now.trees ty).head (ty_tree cx.now.trees ty).children ≡ called_makes cx.now result }
    ensures const_calls { const_calls cx.now (ty_tree cx.now.trees ty) ≡ called_const_calls cx.now result }
    ensures const_makes { const_makes cx.now (ty_tree cx.now.trees ty).head (ty_tree cx.now.trees ty).children ≡ called_const_makes cx.now result }
{
    called_as(kind_of(cx, ty))
}

/// The inputs of what is called, as one tuple, and its output, under the binder of its signature:
/// of a function with the type's arguments put in, of a function pointer, and of a closure that can
/// be called as is asked. `None` comes of a closure whose kind isn't determined yet, if it is asked
/// for more than one call.
///
/// No general variable and no bound type is asked about (`has_callable_cell`). `NoSolution` comes
/// where the type can't be called so: a function or a pointer that is unsafe, of another ABI or
/// variadic; a function that needs features that the target may lack, or one of whose inputs is no
/// type; a closure whose kind doesn't extend the one asked; and any other type. `Stop::Memory` comes
/// where a growth was refused, `Stop::NodesFull` where the tuple or the signature was not made, as
/// by `mk_sig` and `subst`; after a stop the nodes that were made stay.
#[tactic(auto, using(crate::proofs::Builtins::Callables::call_given, crate::proofs::Builtins::Callables::call_refused, crate::proofs::Builtins::Callables::call_stop))]
pub fn extract_tupled_inputs_and_output_from_callable<M: Make>(
    alloc: Global,
    make: &mut M,
    self_ty: Ty,
    goal_kind: ClosureKind,
) -> Result<Option<Binder<(Ty, Ty)>>, NoSolutionOrStop>
    requires ty { IsTy (M.context make.old).trees self_ty }
    requires known { is_unknown (ty_tree (M.context make.old).trees self_ty).head ≡ false }
    ensures grows { Grows (M.context make.old) (M.context make.new) }
    ensures rest { M.rest make.new ≡ M.rest make.old }
    ensures sort { IfOk result (λ o. IfSome o (λ b. IsCallable (M.context make.new).trees b)) }
    ensures calls { let c = M.context make.old in IfOk result (λ o. calls c goal_kind (ty_tree c.trees self_ty) ≡ calls_of (M.context make.new).trees o) }
    ensures refused { let c = M.context make.old in IfErr result (if_refused (calls c goal_kind (ty_tree c.trees self_ty) ≡ seen.Refused)) }
    ensures cause { let c = M.context make.old in IfErr result (if_stopped (λ s. IsCallStop c (length (M.context make.new).trees) (ty_tree c.trees self_ty) s)) }
{
    match how_called(make.cx(), self_ty) {
        Called::Function(function, args) => {
            let signature = inputs_and_output_of_fn_def(alloc, make, function, args)?;
            Ok(Some(signature))
        }
        Called::Pointer(sig) => {
            let signature = inputs_and_output_of_fn_ptr(make, sig)?;
            Ok(Some(signature))
        }
        Called::Closure(_, args) => inputs_and_output_of_closure(make.cx(), args, goal_kind),
        Called::Nothing => Err(NoSolutionOrStop::NoSolution),
    }
}

fn is_const_function(cx: &Cx, function: FnId) -> bool
    ensures { result ≡ is_const_function (fn_flags (definition cx.now function.0)) }
{
    match cx.fn_flags(function) {
        Some(flags) => flags.is_const,
        None => false,
    }
}

/// The inputs and the output of a function that can be called where a constant is computed.
#[tactic(auto, using(crate::proofs::Builtins::Callables::const_function_called, crate::proofs::Builtins::Callables::no_const_function, crate::proofs::Builtins::Callables::const_function_refused, crate::proofs::Builtins::Callables::const_function_stop))]
fn const_fn_def<M: Make>(
    alloc: Global,
    make: &mut M,
    function: FnId,
    args: Args,
) -> Result<Binder<(Ty, Ty)>, NoSolutionOrStop>
    requires args { IsArgs (M.context make.old).trees args }
    requires fit { parameters (world (M.context make.old)) FunctionSort function.0 ≡ Some (kinds_of (args_forest (M.context make.old).trees args)) }
    ensures grows { Grows (M.context make.old) (M.context make.new) }
    ensures rest { M.rest make.new ≡ M.rest make.old }
    ensures sort { IfOk result (λ b. IsCallable (M.context make.new).trees b) }
    ensures list { IsArgs (M.context make.new).trees args }
    ensures callable { let c = M.context make.old in IfOk result (λ b. const_function_calls c function (args_forest c.trees args) ≡ const_calls_of (M.context make.new).trees b (CallableId.Function function) args) }
    ensures refused { let c = M.context make.old in IfErr result (if_refused (const_function_calls c function (args_forest c.trees args) ≡ seen.ConstRefused)) }
    ensures cause { let c = M.context make.old in IfErr result (if_stopped (λ s. IsMadeStop (length (M.context make.new).trees) (const_function_makes c function (args_forest c.trees args)) s)) }
{
    if !is_const_function(make.cx(), function) {
        return Err(NoSolutionOrStop::NoSolution);
    }
    inputs_and_output_of_fn_def(alloc, make, function, args)
}

/// The inputs and the output of a closure that can be called where a constant is computed.
#[tactic(auto, using(crate::proofs::Builtins::Callables::const_closure_called, crate::proofs::Builtins::Callables::no_const_closure))]
fn const_closure(
    cx: &Cx,
    closure: ClosureId,
    args: ClosureArgs,
) -> Result<Binder<(Ty, Ty)>, NoSolutionOrStop>
    requires { IsSig cx.now.trees args.sig }
    ensures sort { IfOk result (λ b. IsCallable cx.now.trees b) }
    ensures callable { IfOk result (λ b. called_const_calls cx.now (Called.Closure closure args) ≡ const_calls_of cx.now.trees b (CallableId.Closure closure) args.parent) }
    ensures refused { IfErr result (λ e. e ≡ NoSolutionOrStop.NoSolution) }
    ensures none { IfErr result (λ e. called_const_calls cx.now (Called.Closure closure args) ≡ seen.ConstRefused) }
{
    if cx.closure_is_const(closure) {
        Ok(signature(cx, args.sig))
    } else {
        Err(NoSolutionOrStop::NoSolution)
    }
}

/// The inputs as one tuple and the output, under the binder of the signature, of what can be called
/// where a constant is computed; what that is; and the arguments that it has of its own: a
/// function's are those of its type, a closure's those of what it stands in.
///
/// No general variable and no bound type is asked about (`has_callable_cell`). `NoSolution` comes of
/// any type but that of a function or a closure that is said to be called there; a function is also
/// refused as by `extract_tupled_inputs_and_output_from_callable`, and it stops as by that call.
#[tactic(auto, using(crate::proofs::Builtins::Callables::const_given, crate::proofs::Builtins::Callables::const_refused, crate::proofs::Builtins::Callables::const_stop))]
pub fn extract_fn_def_from_const_callable<M: Make>(
    alloc: Global,
    make: &mut M,
    self_ty: Ty,
) -> Result<(Binder<(Ty, Ty)>, CallableId, Args), NoSolutionOrStop>
    requires ty { IsTy (M.context make.old).trees self_ty }
    requires known { is_unknown (ty_tree (M.context make.old).trees self_ty).head ≡ false }
    ensures grows { Grows (M.context make.old) (M.context make.new) }
    ensures rest { M.rest make.new ≡ M.rest make.old }
    ensures sort { IfOk result (λ r. IsCallable (M.context make.new).trees r.0) }
    ensures list { IfOk result (λ r. IsArgs (M.context make.new).trees r.2) }
    ensures calls { let c = M.context make.old in IfOk result (λ r. const_calls c (ty_tree c.trees self_ty) ≡ const_calls_of (M.context make.new).trees r.0 r.1 r.2) }
    ensures refused { let c = M.context make.old in IfErr result (if_refused (const_calls c (ty_tree c.trees self_ty) ≡ seen.ConstRefused)) }
    ensures cause { let c = M.context make.old in IfErr result (if_stopped (λ s. IsConstCallStop c (length (M.context make.new).trees) (ty_tree c.trees self_ty) s)) }
{
    match how_called(make.cx(), self_ty) {
        Called::Function(function, args) => {
            let signature = const_fn_def(alloc, make, function, args)?;
            Ok((signature, CallableId::Function(function), args))
        }
        Called::Closure(closure, args) => {
            let signature = const_closure(make.cx(), closure, args)?;
            Ok((signature, CallableId::Closure(closure), args.parent))
        }
        Called::Pointer(_) | Called::Nothing => Err(NoSolutionOrStop::NoSolution),
    }
}

/// Whether it is asked about the type how it is called: what
/// `extract_tupled_inputs_and_output_from_callable` and `extract_fn_def_from_const_callable` take.
#[tactic(auto, using(crate::proofs::Builtins::Callables::known_kind))]
pub fn has_callable_cell(cx: &Cx, ty: Ty) -> bool
    requires { IsTy cx.now.trees ty }
    ensures { IsTrue result ↔ (is_unknown (ty_tree cx.now.trees ty).head ≡ false) }
{
    is_no_unknown(cx.kind(ty))
}
