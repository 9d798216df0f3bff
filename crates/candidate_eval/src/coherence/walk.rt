//! The walk of the orphan check.

ghost use Rattle.std.specs.Prelude.{◌≡◌, ◌<◌, ◌^◌, ◌∷◌, ◌++◌, [], IfOk};
ghost use Rattle.ir_trees.specs.Declarations.Context.{Grows};
ghost use Rattle.ir_trees.specs.Syntax.Words.{IsTy, IsArgs, ty_tree, args_forest};
ghost use Rattle.candidate_eval.specs.Knowability.Calls.{AnswersAsDescribed, ViewsAsDescribed};
ghost use Rattle.candidate_eval.specs.Knowability.Orphan.{is_general};
ghost use Rattle.candidate_eval.specs.Knowability.Normalizer.{IsNormalizer, Normalizes, IsViewed};
ghost use Rattle.ir_trees.specs.Syntax.Trees.{count};
ghost use Rattle.candidate_eval.specs.Calls.Visits.{MayVisit, Visits, VisitsDown, the_list};

use crate::coherence::table::{Shape, ViewClass, shape_of};
use crate::coherence::{InCrate, IsFirstInputType, NormalizeErr, OrphanStop};
use crate::eval::InferCtxtLike;
use ir_context::decl::Cx;
use ir_trees::ir::kinds::{Args, GenericArg, InferTy, Ty, TyKind};
use ir_trees::ir::stop::Stop;
use ir_trees::ir::trees::Trees;
use std::alloc::{AllocError, AllocFailed};

/// Below how many types a walk goes at most. Types share their parts, so that a short one can stand for more places than can be visited.
const MAX_ENTERED: u32 = 65_536;

/// How a walk goes on, and what it has recorded.
#[derive(Drop)]
pub struct Walk {
    pub in_crate: InCrate,
    /// Whether uncovered views are passed over, in search of a local type.
    pub seeks_local: bool,
    /// Whether no visit has returned yet.
    pub is_first: bool,
    /// The views that aren't local, in order.
    pub non_local: Vec<(Ty, IsFirstInputType)>,
}

/// What breaks a walk off.
#[derive(Drop)]
pub enum EarlyExit<E> {
    Local(Ty),
    Uncovered(Ty),
    Broken(OrphanStop<E>),
}

impl<E> From<NormalizeErr<E>> for EarlyExit<E> {
    ghost use Rattle.std.specs.Prelude.{◌≡◌};
    ghost use Rattle.candidate_eval.specs.Calls.Exits.{broken_by};

    ghost from_gives = { λ e x. x ≡ broken_by e };

    fn from(error: NormalizeErr<E>) -> Self {
        match error {
            NormalizeErr::Failed(error) => EarlyExit::Broken(OrphanStop::Normalize(error)),
            NormalizeErr::Stop(stop) => EarlyExit::Broken(OrphanStop::Stop(stop)),
        }
    }
}

fn is_general_variable(cx: &Cx, ty: Ty) -> bool
    requires { IsTy cx.now.trees ty }
    ensures { result ≡ is_general (ty_tree cx.now.trees ty).head }
{
    matches!(cx.kind(ty), TyKind::Infer(InferTy::TyVar(_)))
}

fn normalized<C, E, F>(infcx: &mut C, normalize: &mut F, ty: Ty) -> Result<Ty, NormalizeErr<E>>
where
    C: InferCtxtLike,
    F: FnMut(&mut C, Ty) -> Result<Ty, NormalizeErr<E>>,
    requires ty { IsTy (C.context infcx.old).trees ty }
    requires normaliser { IsNormalizer C.context F.FnMut normalize.old infcx.old }
    ensures grows { Grows (C.context infcx.old) (C.context infcx.new) }
    ensures call { Normalizes C.context F.FnMut normalize.old infcx.old ty result normalize.new infcx.new }
    ensures sort { IfOk result (λ t. IsTy (C.context infcx.new).trees t) }
    ensures answer { AnswersAsDescribed C.context C.seen C.resolved F.FnMut normalize.old infcx.old ty result normalize.new infcx.new }
{
    normalize(infcx, ty)
}

/// The normaliser's answer at the resolved type, or that type where the answer is a general variable.
pub(crate) fn view_of<C, E, F>(
    infcx: &mut C,
    normalize: &mut F,
    ty: Ty,
) -> Result<Ty, NormalizeErr<E>>
where
    C: InferCtxtLike,
    F: FnMut(&mut C, Ty) -> Result<Ty, NormalizeErr<E>>,
    requires ty { IsTy (C.context infcx.old).trees ty }
    requires normaliser { IsNormalizer C.context F.FnMut normalize.old infcx.old }
    ensures grows { Grows (C.context infcx.old) (C.context infcx.new) }
    ensures call { IsViewed C.context F.FnMut normalize.old infcx.old result normalize.new infcx.new }
    ensures sort { IfOk result (λ t. IsTy (C.context infcx.new).trees t) }
    ensures view { ViewsAsDescribed C.context C.seen C.resolved F.FnMut normalize.old infcx.old ty result normalize.new infcx.new }
{
    let ty = infcx.shallow_resolve(ty);
    let normal = normalized(infcx, normalize, ty)?;
    if is_general_variable(infcx.cx(), normal) {
        return Ok(ty);
    }
    Ok(normal)
}

impl Walk {
    ghost use Rattle.std.specs.Prelude.{◌≡◌};
    ghost use Rattle.candidate_eval.specs.Calls.Walk.{SameWalk};
    ghost use Rattle.candidate_eval.specs.Calls.Exits.{IsTaken};

    /// Takes an item: records it, passes over it, or breaks the walk off.
    fn take<E>(&mut self, class: ViewClass, ty: Ty) -> Result<(), EarlyExit<E>>
        ensures same { SameWalk self.old self.new }
        ensures first { self.new.is_first ≡ self.old.is_first }
        ensures taken { IsTaken self.old self.new class ty result }
    {
        match class {
            ViewClass::NonLocal => {
                let is_first = IsFirstInputType::from(self.is_first);
                if self.non_local.push((ty, is_first)).is_err() {
                    return Err(EarlyExit::Broken(OrphanStop::Stop(Stop::Memory)));
                }
                Ok(())
            }
            ViewClass::Skipped => Ok(()),
            ViewClass::Local => Err(EarlyExit::Local(ty)),
            ViewClass::Uncovered => if self.seeks_local {
                Ok(())
            } else {
                Err(EarlyExit::Uncovered(ty))
            },
            ViewClass::Unnameable => { Err(EarlyExit::Broken(OrphanStop::Stop(Stop::Unnameable))) }
        }
    }
}

/// Visits a type, with so many levels left: it has ended then, or it has come to the arguments of a fundamental type, which are left to
/// visit with that many levels.
fn visit_type<C, E, F>(
    infcx: &mut C,
    normalize: &mut F,
    walk: &mut Walk,
    ty: Ty,
    levels: u16,
) -> Result<Option<(Args, u16)>, EarlyExit<E>>
where
    C: InferCtxtLike,
    F: FnMut(&mut C, Ty) -> Result<Ty, NormalizeErr<E>>,
    requires ty { IsTy (C.context infcx.old).trees ty }
    requires may { MayVisit C.context F.FnMut normalize.old infcx.old walk.old }
    ensures { VisitsDown C.context C.seen C.resolved F.FnMut (ty_tree (C.context infcx.old).trees ty) levels normalize.old infcx.old walk.old normalize.new infcx.new walk.new result }
{
    let mut target = ty;
    let mut left = levels;
    while left != 0 {
        let view = view_of(infcx, normalize, target)?;
        left -= 1;
        match shape_of(infcx.cx(), walk.in_crate, view) {
            Shape::Item(class) => {
                let outcome = walk.take(class, view);
                walk.is_first = false;
                outcome?;
                return Ok(None);
            }
            Shape::Target(next) => target = next,
            Shape::Arguments(args) => return Ok(Some((args, left))),
        }
    }
    Err(EarlyExit::Broken(OrphanStop::Stop(Stop::WalkDepth)))
}

/// A list whose types are visited from a place on, each with so many levels left.
#[derive(Clone, Copy)]
struct Pending {
    args: Args,
    next: usize,
    end: usize,
    levels: u16,
}

impl Pending {
    /// All of the list.
    fn all(cx: &Cx, args: Args, levels: u16) -> Pending
        requires { IsArgs cx.now.trees args }
        ensures is { result ≡ record { args = args; next = 0; end = count (args_forest cx.now.trees args); levels = levels } }
        ensures small { count (args_forest cx.now.trees args) < 2 ^ 64 }
    {
        Pending {
            args,
            next: 0,
            end: cx.args(args).len(),
            levels,
        }
    }
}

/// Puts a list aside while what stands below one of its types is visited. The error comes where a growth was refused, and where the walk
/// has gone below so many types already.
fn put_aside(outer: &mut Vec<Pending>, list: Pending, entered: &mut u32) -> Result<(), AllocError>
    ensures { IfOk result (λ _. outer.new.items ≡ outer.old.items ++ list ∷ []) }
{
    if *entered >= MAX_ENTERED {
        return Err(AllocError);
    }
    *entered += 1;
    Ok(outer.push(list)?)
}

/// Visits the types of a list in order, each with so many levels left. `Stop::Memory` comes where a growth was refused, and where the walk
/// would go below more than 65,536 types: a type that stands in several places is visited in each.
///
/// What is still to visit stands in a list, so that a visit that is nested deep takes no more of the machine's stack.
pub(crate) fn visit_args<C, E, F>(
    infcx: &mut C,
    normalize: &mut F,
    walk: &mut Walk,
    args: Args,
    levels: u16,
) -> Result<(), EarlyExit<E>>
where
    C: InferCtxtLike,
    F: FnMut(&mut C, Ty) -> Result<Ty, NormalizeErr<E>>,
    requires args { IsArgs (C.context infcx.old).trees args }
    requires may { MayVisit C.context F.FnMut normalize.old infcx.old walk.old }
    ensures { Visits C.context C.seen C.resolved F.FnMut (the_list (args_forest (C.context infcx.old).trees args)) levels normalize.old infcx.old walk.old normalize.new infcx.new walk.new result }
{
    let mut outer = Vec::new(*walk.non_local.allocator());
    let mut entered = 0;
    let mut list = Pending::all(infcx.cx(), args, levels);
    loop {
        if list.next < list.end {
            let arg = infcx.cx().args(list.args)[list.next];
            list.next += 1;
            if let GenericArg::Ty(ty) = arg {
                let down = visit_type(infcx, normalize, walk, ty, list.levels)?;
                if let Some((args, levels)) = down {
                    if put_aside(&mut outer, list, &mut entered).is_err() {
                        return Err(EarlyExit::Broken(OrphanStop::Stop(Stop::Memory)));
                    }
                    list = Pending::all(infcx.cx(), args, levels);
                }
            }
        } else {
            let Some(pending) = outer.pop() else {
                return Ok(());
            };
            walk.is_first = false;
            list = pending;
        }
    }
}
