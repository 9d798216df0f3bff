//! The orphan check.

mod table;
mod walk;

ghost use Rattle.std.specs.Prelude.{◌≡◌, ◌≢◌, ◌||◌, List, false, not, IfOk, IfSome, IsTrue};
ghost use Rattle.ir_trees.specs.Declarations.Context.{Grows, world};
ghost use Rattle.ir_trees.specs.Syntax.Flags.{mark};
ghost use Rattle.ir_trees.specs.Declarations.References.{ArgumentsFit};
ghost use Rattle.ir_trees.specs.Syntax.Trees.{holds, is_alias};
ghost use Rattle.ir_trees.specs.Syntax.Words.{IsTy, IsArgs, args_forest};
ghost use Rattle.candidate_eval.specs.Knowability.Orphan.{Entry, NonLocalInput, local_or_fundamental};
ghost use Rattle.candidate_eval.specs.Knowability.Normalizer.{StopsWith, MayNormalize, KeepsNumbers, IsNormalizer, IsLeftByCalls, IsChangedByCalls};
ghost use Rattle.candidate_eval.specs.Knowability.Laws.{ProperThenCompat, RemoteLaw, FirstInputLaw, OnlyFirst, LinkSafety};
ghost use Rattle.candidate_eval.specs.Knowability.Calls.{depth_limit, IsChecked, IsKnown, ChecksAsDefined, ChecksWherever, PassesInCompat, KnowsAsDefined, if_no_alias, if_plain, HasNoParam, HasNoAliasOrError, IsOfForeignTrait, NoForeignHeaderHere, NoUnnamedHeaderHere, NoCoveredHeaderHere, IsDecidedByGeneralHere, HasDownstreamHere};
ghost use Rattle.candidate_eval.specs.Knowability.Answers.{IsUncoveredResult, AreAnswerTypes, answer_of};
ghost use Rattle.candidate_eval.specs.Calls.Exits.{local_ty_of};
ghost use Rattle.candidate_eval.specs.Calls.Second.{FindsAsDefined};

use crate::coherence::walk::{EarlyExit, Walk, visit_args};
use crate::eval::InferCtxtLike;
use ir_context::decl::Cx;
use ir_trees::ir::heads::Flag;
use ir_trees::ir::kinds::{Args, TraitRef, Ty};
use ir_trees::ir::stop::Stop;
use ir_trees::ir::trees::Trees;
use std::alloc::Global;
use std::fmt;

/// How projections that hold variables count.
#[derive(Clone, Copy)]
pub enum OrphanCheckMode {
    /// As uncovered: the rule proper.
    Proper,
    /// They are passed over, as older compilers did.
    Compat,
}

/// For which crate a reference is checked.
#[derive(Clone, Copy)]
pub enum InCrate {
    /// For the local crate.
    Local { mode: OrphanCheckMode },
    /// For some crate that isn't known.
    Remote,
}

/// Whether nothing was visited before a type.
#[derive(Clone, Copy, Debug, PartialEq, Eq)]
pub enum IsFirstInputType {
    No,
    Yes,
}

impl From<bool> for IsFirstInputType {
    ghost use Rattle.std.specs.Prelude.{◌≡◌};
    ghost use Rattle.candidate_eval.specs.Knowability.Answers.{is_first_input};

    ghost from_gives = { λ b y. is_first_input y ≡ b };

    fn from(is_first: bool) -> Self {
        if is_first {
            IsFirstInputType::Yes
        } else {
            IsFirstInputType::No
        }
    }
}

/// Why the local crate may not write a header.
#[derive(Debug, Drop)]
pub enum OrphanCheckErr<T> {
    /// No type of the local crate was found. The types that were found instead, in order.
    NonLocalInputType(Vec<(Ty, IsFirstInputType)>),
    /// A variable is met before any type of the local crate.
    UncoveredTyParams(UncoveredTyParams<T>),
}

/// A variable, placeholder or projection that no type covers, and the first local type, if there is one.
#[derive(Debug, Drop)]
pub struct UncoveredTyParams<T> {
    pub uncovered: T,
    pub local_ty: Option<Ty>,
}

/// Why a normaliser has no answer.
#[derive(Debug, Drop)]
pub enum NormalizeErr<E> {
    /// The type has no normal form.
    Failed(E),
    /// It gave up.
    Stop(Stop),
}

/// Why a check has no answer.
#[derive(Debug, Drop)]
pub enum OrphanStop<E> {
    /// The normaliser failed.
    Normalize(E),
    /// It gave up, or the normaliser did.
    Stop(Stop),
}

impl<E: fmt::Display> fmt::Display for OrphanStop<E> {
    fn fmt<W: fmt::Write>(&self, f: &mut fmt::Formatter<W>) -> fmt::Result {
        match self {
            OrphanStop::Normalize(error) => error.fmt(f),
            OrphanStop::Stop(stop) => stop.fmt(f),
        }
    }
}

/// What a walk that passes over uncovered views found: its first local type, or why it stopped.
fn local_ty_of<E: Drop>(walked: Result<(), EarlyExit<E>>) -> Result<Option<Ty>, Stop>
    ensures { result ≡ local_ty_of walked }
{
    match walked {
        Err(EarlyExit::Local(ty)) => Ok(Some(ty)),
        Err(EarlyExit::Broken(OrphanStop::Stop(stop))) => Err(stop),
        Err(EarlyExit::Broken(OrphanStop::Normalize(_))) => Ok(None),
        Err(EarlyExit::Uncovered(_)) => Ok(None),
        Ok(()) => Ok(None),
    }
}

/// The first local type of a walk that passes over uncovered views, with so many levels.
fn first_local_ty<C, E, F>(
    alloc: Global,
    infcx: &mut C,
    args: Args,
    in_crate: InCrate,
    normalize: &mut F,
    levels: u16,
) -> Result<Option<Ty>, Stop>
where
    C: InferCtxtLike,
    E: Drop,
    F: FnMut(&mut C, Ty) -> Result<Ty, NormalizeErr<E>>,
    requires args { IsArgs (C.context infcx.old).trees args }
    requires normaliser { IsNormalizer C.context F.FnMut normalize.old infcx.old }
    ensures calls { IsLeftByCalls C.context F.FnMut levels normalize.old infcx.old normalize.new infcx.new (λ s. result ≡ Err s) }
    ensures types { IfOk result (λ o. IfSome o (λ t. IsTy (C.context infcx.new).trees t)) }
    ensures answer { FindsAsDefined C.context C.seen C.resolved F.FnMut levels normalize.old infcx.old in_crate args result normalize.new infcx.new }
{
    let mut walk = Walk {
        in_crate,
        seeks_local: true,
        is_first: true,
        non_local: Vec::new(alloc),
    };
    local_ty_of(visit_args(infcx, normalize, &mut walk, args, levels))
}

/// The orphan check, by a normaliser that is used again, with so many levels.
fn check<C, E, F>(
    alloc: Global,
    infcx: &mut C,
    trait_ref: TraitRef,
    in_crate: InCrate,
    normalize: &mut F,
    levels: u16,
) -> Result<Result<(), OrphanCheckErr<Ty>>, OrphanStop<E>>
where
    C: InferCtxtLike,
    E: Drop,
    F: FnMut(&mut C, Ty) -> Result<Ty, NormalizeErr<E>>,
    requires args { IsArgs (C.context infcx.old).trees trait_ref.args }
    requires normaliser { IsNormalizer C.context F.FnMut normalize.old infcx.old }
    ensures calls { IsLeftByCalls C.context F.FnMut levels normalize.old infcx.old normalize.new infcx.new (StopsWith result) }
    ensures types { AreAnswerTypes (C.context infcx.new).trees result }
    ensures covers { in_crate ≡ InCrate.Remote → ¬ (IsUncoveredResult result) }
    ensures first_input_once { (l : List Entry) → answer_of (C.context infcx.new).trees result ≡ NonLocalInput l → OnlyFirst l }
    ensures answer { IsChecked C.context C.seen C.resolved F.FnMut levels normalize.old infcx.old in_crate trait_ref result normalize.new infcx.new }
{
    let mut walk = Walk {
        in_crate,
        seeks_local: false,
        is_first: true,
        non_local: Vec::new(alloc),
    };
    match visit_args(infcx, normalize, &mut walk, trait_ref.args, levels) {
        Ok(()) => Ok(Err(OrphanCheckErr::NonLocalInputType(walk.non_local))),
        Err(EarlyExit::Local(_)) => Ok(Ok(())),
        Err(EarlyExit::Uncovered(uncovered)) => {
            match first_local_ty(alloc, infcx, trait_ref.args, in_crate, normalize, levels) {
                Ok(local_ty) => Ok(Err(OrphanCheckErr::UncoveredTyParams(UncoveredTyParams {
                    uncovered,
                    local_ty,
                }))),
                Err(stop) => Err(OrphanStop::Stop(stop)),
            }
        }
        Err(EarlyExit::Broken(stop)) => Err(stop),
    }
}

/// Whether the crate may write a header with the trait reference, by the types that a walk meets:
/// the orphan rule of the language, by which two crates never write the same header.
///
/// The walk goes through the types of the reference in order, the self type first, and below
/// references and fundamental types of other crates. Each type is resolved at its root and
/// normalised first. The first local or uncovered type decides: `Ok(())` for a local one. For an
/// uncovered one a second walk looks for the first local type. Where neither comes, the types that
/// were met are the error. The reference has the arguments that its trait takes, as
/// `Cx::trait_ref_args_fit` tests it, and no parameter.
///
/// `OrphanStop::Normalize` is a failure of the normaliser. `OrphanStop::Stop` is a stop of the
/// normaliser, `Memory` where a growth was refused, `WalkDepth` where a type is nested in as many
/// others as the declared limit `orphan_walk` is, `Unnameable` where a function's type, a closure or
/// a parameter is met. The context is changed by the normaliser alone.
pub fn orphan_check_trait_ref<C, E, F>(
    alloc: Global,
    infcx: &mut C,
    trait_ref: TraitRef,
    in_crate: InCrate,
    mut normalize: F,
) -> Result<Result<(), OrphanCheckErr<Ty>>, OrphanStop<E>>
where
    C: InferCtxtLike,
    E: Drop,
    F: FnMut(&mut C, Ty) -> Result<Ty, NormalizeErr<E>> + Drop,
    requires args { IsArgs (C.context infcx.old).trees trait_ref.args }
    requires fit { ArgumentsFit (C.context infcx.old) trait_ref }
    requires no_param { HasNoParam (C.context infcx.old) trait_ref }
    requires callable { MayNormalize C.context F.FnMut normalize infcx.old }
    requires keeps { KeepsNumbers C.context F.FnMut normalize infcx.old }
    ensures grows { Grows (C.context infcx.old) (C.context infcx.new) }
    ensures calls { IsChangedByCalls C.context F.FnMut (depth_limit (C.context infcx.old)) normalize infcx.old infcx.new result }
    ensures types { AreAnswerTypes (C.context infcx.new).trees result }

    // For a normaliser whose answers and effects, but for what is left open, are functions of the tree and the context.
    ensures answer { ChecksAsDefined C.context C.seen C.resolved F.FnMut normalize infcx.old in_crate trait_ref result infcx.new }

    // What passes in `Proper` passes in `Compat`.
    ensures proper_passes_compat { PassesInCompat C.context C.seen C.resolved F.FnMut normalize infcx.old in_crate trait_ref result }

    // In `Remote` the answer is the same whichever crate is local.
    ensures remote_ignores_the_local_crate { ChecksWherever C.context C.seen C.resolved F.FnMut normalize infcx.old in_crate trait_ref result infcx.new }

    // For every normaliser, in `Remote` nothing is uncovered.
    ensures remote_covers { in_crate ≡ InCrate.Remote → ¬ (IsUncoveredResult result) }

    // For every normaliser, at most one entry is the first input, and then it is the first one.
    ensures first_input_once { (l : List Entry) → answer_of (C.context infcx.new).trees result ≡ NonLocalInput l → OnlyFirst l }

    // The laws behind these three, over all definitions and limits.
    ensures proper_then_compat { ProperThenCompat (F × C) E }
    ensures remote_law { RemoteLaw (F × C) E }
    ensures first_input_law { FirstInputLaw (F × C) E }

    // Two crates that name nothing of each other write no headers that overlap.
    ensures link_safety { LinkSafety }

    // What passes in `Proper` is overlapped by no header of another crate, where neither names the other's crate.
    ensures no_foreign_header { if_plain C.context C.seen C.resolved F.FnMut normalize infcx.old trait_ref (λ c. in_crate ≡ InCrate.Local OrphanCheckMode.Proper → result ≡ Ok (Ok tt) → NoForeignHeaderHere c trait_ref) }
{
    infcx.cx().recall_well_formed(); // so the reference is one of the declared world
    let levels = infcx.cx().limits().orphan_walk;
    check(alloc, infcx, trait_ref, in_crate, &mut normalize, levels)
}

/// Whether the trait belongs to the local crate or has the flag `fundamental`.
pub fn trait_ref_is_local_or_fundamental(cx: &Cx, trait_ref: TraitRef) -> bool
    ensures { result ≡ local_or_fundamental (world cx.now) cx.now.local.0 trait_ref.def_id.0 }
{
    cx.is_local(trait_ref.def_id.0) || cx.is_fundamental(trait_ref.def_id.0)
}

/// Whether neither an alias nor an error stands anywhere in the reference: the test, at run time, of
/// what the promises on headers ask of one. An error region is refused too, though they don't ask it.
pub fn trait_ref_is_plain(cx: &Cx, trait_ref: TraitRef) -> bool
    requires { IsArgs cx.now.trees trait_ref.args }
    ensures exact { result ≡ not (holds is_alias (args_forest cx.now.trees trait_ref.args) || holds (mark Flag.Error) (args_forest cx.now.trees trait_ref.args)) }
    ensures plain { IsTrue result → HasNoAliasOrError cx.now trait_ref }
{
    !cx.has(trait_ref.args, Flag::Alias) && !cx.has(trait_ref.args, Flag::Error)
}

/// Who may write impls of a reference that aren't known here.
#[derive(Clone, Copy, Debug, PartialEq, Eq)]
pub enum Conflict {
    /// A crate that this one depends on may add one later.
    Upstream,
    /// A crate that isn't known may have one.
    Downstream,
}

/// What may be known of a reference's impls, by a normaliser that is used again, with so many levels.
fn knowable_within<C, E, F>(
    alloc: Global,
    infcx: &mut C,
    trait_ref: TraitRef,
    normalize: &mut F,
    levels: u16,
) -> Result<Result<(), Conflict>, OrphanStop<E>>
where
    C: InferCtxtLike,
    E: Drop,
    F: FnMut(&mut C, Ty) -> Result<Ty, NormalizeErr<E>>,
    requires args { IsArgs (C.context infcx.old).trees trait_ref.args }
    requires normaliser { IsNormalizer C.context F.FnMut normalize.old infcx.old }
    ensures calls { IsLeftByCalls C.context F.FnMut levels normalize.old infcx.old normalize.new infcx.new (StopsWith result) }
    ensures answer { IsKnown C.context C.seen C.resolved F.FnMut levels normalize.old infcx.old trait_ref result normalize.new infcx.new }
{
    let passes_remote = check(alloc, infcx, trait_ref, InCrate::Remote, normalize, levels)?.is_ok();
    if passes_remote {
        return Ok(Err(Conflict::Downstream));
    }
    if trait_ref_is_local_or_fundamental(infcx.cx(), trait_ref) {
        return Ok(Ok(()));
    }
    let in_crate = InCrate::Local {
        mode: OrphanCheckMode::Proper,
    };
    let passes_proper = check(alloc, infcx, trait_ref, in_crate, normalize, levels)?.is_ok();
    if passes_proper {
        Ok(Ok(()))
    } else {
        Ok(Err(Conflict::Upstream))
    }
}

/// What may be known of a reference's impls, by a normaliser that is used again: the call below, of any
/// reference. Where a parameter is met it stops with `Unnameable`.
pub fn knowable<C, E, F>(
    alloc: Global,
    infcx: &mut C,
    trait_ref: TraitRef,
    normalize: &mut F,
) -> Result<Result<(), Conflict>, OrphanStop<E>>
where
    C: InferCtxtLike,
    E: Drop,
    F: FnMut(&mut C, Ty) -> Result<Ty, NormalizeErr<E>>,
    requires args { IsArgs (C.context infcx.old).trees trait_ref.args }
    requires normaliser { IsNormalizer C.context F.FnMut normalize.old infcx.old }
    ensures calls { IsLeftByCalls C.context F.FnMut (depth_limit (C.context infcx.old)) normalize.old infcx.old normalize.new infcx.new (StopsWith result) }
    ensures answer { IsKnown C.context C.seen C.resolved F.FnMut (depth_limit (C.context infcx.old)) normalize.old infcx.old trait_ref result normalize.new infcx.new }
{
    let levels = infcx.cx().limits().orphan_walk;
    knowable_within(alloc, infcx, trait_ref, normalize, levels)
}

/// Whether all impls of a trait reference are known here: what an overlap checker asks before it
/// takes a missing impl for a promise. The rule is that of coherence, open towards other crates.
///
/// A crate that isn't known may have one where the reference passes the `Remote` check:
/// `Conflict::Downstream`. Else they are known where the trait is local or fundamental, or where the
/// local crate may write the header: `Ok(())`. Else a crate above may add one: `Conflict::Upstream`.
/// It asks of the reference what the orphan check does, and stops as that does.
pub fn trait_ref_is_knowable<C, E, F>(
    alloc: Global,
    infcx: &mut C,
    trait_ref: TraitRef,
    mut normalize: F,
) -> Result<Result<(), Conflict>, OrphanStop<E>>
where
    C: InferCtxtLike,
    E: Drop,
    F: FnMut(&mut C, Ty) -> Result<Ty, NormalizeErr<E>> + Drop,
    requires args { IsArgs (C.context infcx.old).trees trait_ref.args }
    requires fit { ArgumentsFit (C.context infcx.old) trait_ref }
    requires no_param { HasNoParam (C.context infcx.old) trait_ref }
    requires callable { MayNormalize C.context F.FnMut normalize infcx.old }
    requires keeps { KeepsNumbers C.context F.FnMut normalize infcx.old }
    ensures grows { Grows (C.context infcx.old) (C.context infcx.new) }
    ensures calls { IsChangedByCalls C.context F.FnMut (depth_limit (C.context infcx.old)) normalize infcx.old infcx.new result }

    // For a normaliser whose answers and effects, but for what is left open, are functions of the tree and the context.
    ensures answer { KnowsAsDefined C.context C.seen C.resolved F.FnMut normalize infcx.old trait_ref result infcx.new }

    // A known reference is overlapped by no header that a crate which it doesn't name may write.
    ensures no_unnamed_header { if_no_alias C.context C.seen C.resolved F.FnMut normalize infcx.old trait_ref (λ c. result ≡ Ok (Ok tt) → NoUnnamedHeaderHere c trait_ref) }

    // Where a general variable makes it a downstream one, some crate may write a header that overlaps.
    ensures downstream_header { if_plain C.context C.seen C.resolved F.FnMut normalize infcx.old trait_ref (λ c. result ≡ Ok (Err Conflict.Downstream) → IsDecidedByGeneralHere c trait_ref → HasDownstreamHere c trait_ref) }

    // Known by its own types, it is overlapped by no covered header that names nothing of the local crate.
    ensures no_covered_header { if_no_alias C.context C.seen C.resolved F.FnMut normalize infcx.old trait_ref (λ c. result ≡ Ok (Ok tt) → IsOfForeignTrait c trait_ref → NoCoveredHeaderHere c trait_ref) }
{
    infcx.cx().recall_well_formed(); // so the reference is one of the declared world
    knowable(alloc, infcx, trait_ref, &mut normalize)
}
