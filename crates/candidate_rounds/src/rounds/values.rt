//! The value for a variable that meets a tree, and what a tree is at a state.

ghost use Rattle.std.specs.Prelude.{◌≡◌, ◌-◌, Some, None, IfOk, IfErr, MatchOption, length, nat_le, option_map, reverse, slice_get, if◌then◌else◌};
ghost use Rattle.ir_trees.specs.declared.ir.heads.Head.TheVariants as H;
ghost use Rattle.ir_trees.specs.Declarations.Context.{Grows};
ghost use Rattle.ir_trees.specs.Instantiation.Folding.{IsAnswerStop, IsSubstStop, fold};
ghost use Rattle.ir_trees.specs.Instantiation.Folds.{IsArg, IsOfKind, arg_tree};
ghost use Rattle.ir_trees.specs.Syntax.Kinds.{arg_kind};
ghost use Rattle.ir_trees.specs.Syntax.Trees.{is_alias};
ghost use Rattle.ir_trees.specs.Syntax.Words.{IsRegion, IsTy, region_kind_tree, region_tree, ty_tree, IsArgs, args_forest};
ghost use Rattle.candidate_eval.specs.declared.eval.mode.TypingMode.{TypingMode};
ghost use Rattle.candidate_eval.specs.Interface.Evaluators.{NoFault, resolved_root};
ghost use Rattle.candidate_eval.specs.Judges.States.{resolved_tree};
ghost use Rattle.rounds_judge.specs.Equations.Equating.{value_for};
ghost use Rattle.candidate_rounds.specs.Calls.PureFolder.{listed_answers};
ghost use Rattle.candidate_rounds.specs.Evaluators.Known.{AreTypes, Each, GoesOn, IsKnown, SuitsKind, listing, listing_of, state, state_of};
ghost use Rattle.candidate_rounds.specs.Evaluators.Stopping.{IsTreeStop, IsValueStop};
ghost use Rattle.rounds_judge.specs.Aliases.Listed.{current, listed, listed_at, normalized_tree};
ghost use Rattle.rounds_judge.specs.Equations.Scopes.{placed_head, placed_tree};

use crate::rounds::Rounds;
use crate::rounds::inference::Inference;
use crate::rounds::resolving::{resolved_arg, resolved_root};
use ir_context::decl::context::Cx;
use ir_context::decl::make::Build;
use ir_folds::decl::answering::{PureFolder, fold_answers};
use ir_trees::ir::heads::{ConstHead, Flag, Head, Marks};
use ir_trees::ir::kinds::{Args, GenericArg, Placeholder, Region, RegionKind, Ty};
use ir_trees::ir::numbered::Numbered;
use ir_trees::ir::stop::Stop;
use ir_trees::ir::trees::Trees;
use std::alloc::Global;

/// The type of the first of these pairs that lists the type, if one does.
fn listed(cx: &Cx, normal: &[(Ty, Ty)], ty: Ty) -> Option<Ty>
    requires ty { IsTy cx.now.trees ty }
    requires types { Each (AreTypes cx.now.trees) normal.now }
    ensures { let ts = cx.now.trees in let t = ty_tree ts ty in MatchOption result (listed (listing_of ts normal.now) t ≡ None) (λ u. IsTy ts u × (listed (listing_of ts normal.now) t ≡ Some (ty_tree ts u))) }
{
    for i in 0..normal.len() {
        if cx.same(normal[i].0, ty) {
            return Some(normal[i].1);
        }
    }
    None
}

/// The type that is listed for the argument, if one is.
fn listed_arg(cx: &Cx, normal: &[(Ty, Ty)], arg: GenericArg) -> Option<GenericArg>
    requires arg { IsArg cx.now.trees arg }
    requires types { Each (AreTypes cx.now.trees) normal.now }
    ensures kind { IsOfKind cx.now.trees arg result }
    ensures tree { option_map (arg_tree cx.now.trees) result ≡ listed (listing_of cx.now.trees normal.now) (arg_tree cx.now.trees arg) }
{
    match arg {
        GenericArg::Ty(ty) => Some(GenericArg::Ty(listed(cx, normal, ty)?)),
        GenericArg::Const(_) | GenericArg::Region(_) => None,
    }
}

/// What `listed_arg` answers.
#[derive(Drop)]
struct Normalizing<'a> {
    normal: &'a [(Ty, Ty)],
}

impl PureFolder<Cx> for Normalizing<'_> {
    ghost answers = { λ s ts. listed_answers ts s.normal.now };

    ghost is_of = { λ s ts. Each (AreTypes ts) s.normal.now };

    ghost causes = { λ _. IsSubstStop };

    fn may_answer(&self, marks: Marks) -> bool {
        let _ = marks;
        true
    }

    fn answer(
        &self,
        alloc: Global,
        make: &mut Cx,
        arg: GenericArg,
        binders: u32,
    ) -> Result<Option<GenericArg>, Stop> {
        let _ = alloc;
        let _ = binders;
        Ok(listed_arg(make, self.normal, arg))
    }

    fn recall_laws(&self) {}
}

/// The argument, with the type of its pair in the place of each type that one of these pairs lists, from the top. It stops as
/// `Rounds::resolve_ty_if_possible` does, and not where nothing is listed.
pub(crate) fn normalized(
    alloc: Global,
    cx: &mut Cx,
    normal: &[(Ty, Ty)],
    arg: GenericArg,
) -> Result<GenericArg, Stop>
    requires arg { IsArg cx.old.trees arg }
    requires types { Each (AreTypes cx.old.trees) normal.now }
    ensures grows { Grows cx.old cx.new }
    ensures faults { NoFault cx.old cx.new }
    ensures sort { IfOk result (λ x. IsArg cx.new.trees x × (arg_kind x ≡ arg_kind arg)) }
    ensures tree { IfOk result (λ x. arg_tree cx.new.trees x ≡ normalized_tree (listing_of cx.old.trees normal.now) (arg_tree cx.old.trees arg)) }
    ensures cause { IfErr result (λ s. IsTreeStop cx.new.trees (normalized_tree (listing_of cx.old.trees normal.now) (arg_tree cx.old.trees arg)) s) }
{
    if normal.is_empty() {
        return Ok(arg);
    }
    fold_answers(alloc, cx, arg, &Normalizing { normal })
}

/// The universe of the binder that binds a variable of that depth, under so many binders besides those of these universes, the
/// innermost last. None, if one of those besides binds it, or none of all.
fn universe_at(universes: &[u32], binders: u32, depth: u32) -> Option<u32>
    ensures { result ≡ (if nat_le binders depth then slice_get (reverse universes.now) (depth - binders) else None) }
{
    if depth < binders {
        return None;
    }
    let place = (depth - binders) as usize;
    if place >= universes.len() {
        return None;
    }
    Some(universes[universes.len() - 1 - place])
}

/// What stands for a region of the kind, under so many binders besides those of these universes, the innermost last: a placeholder,
/// where one of the latter binds it.
fn placeholder_for(universes: &[u32], binders: u32, kind: RegionKind) -> Option<RegionKind>
    ensures { option_map region_kind_tree result ≡ placed_head (reverse universes.now) binders (H.Region kind) }
{
    let RegionKind::Bound(var) = kind else {
        return None;
    };
    let universe = universe_at(universes, binders, var.depth)?;
    let index = var.index;
    Some(RegionKind::Placeholder(Placeholder { universe, index }))
}

/// The placeholder for the argument, which stands under so many binders besides those of these universes, the innermost last: if it
/// is a region that one of the latter binds. `Stop::Memory` comes where a growth was refused, `Stop::NodesFull` where no number is
/// left.
fn placed_arg(
    cx: &mut Cx,
    universes: &[u32],
    binders: u32,
    arg: GenericArg,
) -> Result<Option<GenericArg>, Stop>
    requires { IsArg cx.old.trees arg }
    ensures grows { Grows cx.old cx.new }
    ensures faults { NoFault cx.old cx.new }
    ensures rest { cx.new.delayed_bugs ≡ cx.old.delayed_bugs }
    ensures kind { IfOk result (λ o. IsOfKind cx.new.trees arg o) }
    ensures answer { IfOk result (λ o. option_map (arg_tree cx.new.trees) o ≡ placed_head (reverse universes.now) binders (arg_tree cx.old.trees arg).head) }
    ensures cause { IfErr result (λ s. IsAnswerStop (length cx.new.trees) (placed_head (reverse universes.now) binders (arg_tree cx.old.trees arg).head) s) }
{
    let Head::Region(kind) = cx.head(arg.number()) else {
        return Ok(None);
    };
    let Some(placeholder) = placeholder_for(universes, binders, kind) else {
        return Ok(None);
    };
    Ok(Some(GenericArg::Region(cx.mk_region(placeholder)?)))
}

/// What `placed_arg` answers.
#[derive(Drop)]
struct Placing<'a> {
    universes: &'a [u32],
}

impl PureFolder<Cx> for Placing<'_> {
    ghost answers = { λ s _. (λ d t. placed_head (reverse s.universes.now) d t.head) };

    ghost is_of = { λ _ _. Unit {0} };

    ghost causes = { λ _. IsSubstStop };

    fn may_answer(&self, marks: Marks) -> bool {
        marks.has(Flag::RegionBound)
    }

    fn answer(
        &self,
        alloc: Global,
        make: &mut Cx,
        arg: GenericArg,
        binders: u32,
    ) -> Result<Option<GenericArg>, Stop> {
        let _ = alloc;
        placed_arg(make, self.universes, binders, arg)
    }

    fn recall_laws(&self) {}
}

/// The argument under binders of these universes, the innermost last, with placeholders for the regions that those bind. It stops as
/// `Rounds::resolve_ty_if_possible` does, and not where there are no binders.
fn placed(
    alloc: Global,
    cx: &mut Cx,
    universes: &[u32],
    arg: GenericArg,
) -> Result<GenericArg, Stop>
    requires arg { IsArg cx.old.trees arg }
    ensures grows { Grows cx.old cx.new }
    ensures faults { NoFault cx.old cx.new }
    ensures sort { IfOk result (λ x. IsArg cx.new.trees x × (arg_kind x ≡ arg_kind arg)) }
    ensures tree { IfOk result (λ x. arg_tree cx.new.trees x ≡ placed_tree (reverse universes.now) (arg_tree cx.old.trees arg)) }
    ensures cause { IfErr result (λ s. IsTreeStop cx.new.trees (placed_tree (reverse universes.now) (arg_tree cx.old.trees arg)) s) }
{
    if universes.is_empty() {
        return Ok(arg);
    }
    if !cx.has(arg, Flag::RegionBound) {
        return Ok(arg);
    }
    fold_answers(alloc, cx, arg, &Placing { universes })
}

/// The value for a variable, as `Rounds::value_for` says.
fn value_in(
    alloc: Global,
    cx: &mut Cx,
    inference: &Inference,
    normal: &[(Ty, Ty)],
    universes: &[u32],
    arg: GenericArg,
) -> Result<GenericArg, Stop>
    requires arg { IsArg cx.old.trees arg }
    requires known { IsKnown cx.old.trees inference.now }
    requires kinds { Each (SuitsKind cx.old.trees) inference.now.variables }
    requires types { Each (AreTypes cx.old.trees) normal.now }
    ensures grows { Grows cx.old cx.new }
    ensures faults { NoFault cx.old cx.new }
    ensures sort { IfOk result (λ x. IsArg cx.new.trees x × (arg_kind x ≡ arg_kind arg)) }
    ensures tree { let ts = cx.old.trees in (m : TypingMode) → IfOk result (λ x. arg_tree cx.new.trees x ≡ value_for (listing_of ts normal.now) (state_of ts m inference.now) (reverse universes.now) (arg_tree ts arg)) }
    ensures cause { let ts = cx.old.trees in (m : TypingMode) → IfErr result (λ s. IsValueStop cx.new.trees (listing_of ts normal.now) (state_of ts m inference.now) (reverse universes.now) (arg_tree ts arg) s) }
{
    let resolved = resolved_arg(alloc, cx, inference, arg)?;
    let listed = normalized(alloc, cx, normal, resolved)?;
    placed(alloc, cx, universes, listed)
}

/// Whether it is an alias: a type, or an unevaluated constant.
pub(crate) fn is_alias(cx: &Cx, arg: GenericArg) -> bool
    requires { IsArg cx.now.trees arg }
    ensures { result ≡ is_alias (arg_tree cx.now.trees arg).head }
{
    let head = cx.head(arg.number());
    matches!(
        head,
        Head::Alias(_, _) | Head::Const(ConstHead::Unevaluated(_))
    )
}

/// The argument, or the type that is listed for it, with all values put in, if it is an alias. It stops as
/// `Rounds::resolve_ty_if_possible` does.
fn listed_root(
    alloc: Global,
    cx: &mut Cx,
    inference: &Inference,
    normal: &[(Ty, Ty)],
    arg: GenericArg,
) -> Result<GenericArg, Stop>
    requires arg { IsArg cx.old.trees arg }
    requires known { IsKnown cx.old.trees inference.now }
    requires kinds { Each (SuitsKind cx.old.trees) inference.now.variables }
    requires types { Each (AreTypes cx.old.trees) normal.now }
    ensures grows { Grows cx.old cx.new }
    ensures faults { NoFault cx.old cx.new }
    ensures sort { IfOk result (λ x. IsArg cx.new.trees x × (arg_kind x ≡ arg_kind arg)) }
    ensures tree { let ts = cx.old.trees in (m : TypingMode) → IfOk result (λ x. arg_tree cx.new.trees x ≡ listed_at (listing_of ts normal.now) (state_of ts m inference.now) (arg_tree ts arg)) }
    ensures cause { (m : TypingMode) → IfErr result (λ s. IsTreeStop cx.new.trees (resolved_tree (state_of cx.old.trees m inference.now) (arg_tree cx.old.trees arg)) s) }
{
    if normal.is_empty() {
        return Ok(arg);
    }
    if !is_alias(cx, arg) {
        return Ok(arg);
    }
    let resolved = resolved_arg(alloc, cx, inference, arg)?;
    Ok(listed_arg(cx, normal, resolved).unwrap_or(arg))
}

impl Rounds {
    /// The type that is listed for an alias, if one is. All values are put in already.
    pub(crate) fn listed(&self, ty: Ty) -> Option<Ty>
        requires { IsTy self.now.context.trees ty }
        ensures { let L = listing self.now in let ts = self.now.context.trees in let t = ty_tree ts ty in MatchOption result (listed L t ≡ None) (λ u. IsTy ts u × (listed L t ≡ Some (ty_tree ts u))) }
    {
        listed(&self.cx, self.normal.as_slice(), ty)
    }

    /// The argument as it is at the state, so far as its root says: a variable of types or constants is its value, and a listed alias is its
    /// type. It stops as `resolve_ty_if_possible` does.
    pub(crate) fn current(&mut self, alloc: Global, arg: GenericArg) -> Result<GenericArg, Stop>
        requires { IsArg self.old.context.trees arg }
        ensures goes { GoesOn self.old self.new }
        ensures inference { self.new.inference ≡ self.old.inference }
        ensures state { state self.new ≡ state self.old }
        ensures sort { IfOk result (λ x. IsArg self.new.context.trees x) }
        ensures tree { IfOk result (λ x. arg_tree self.new.context.trees x ≡ current (listing self.old) (state self.old) (arg_tree self.old.context.trees arg)) }
        ensures cause { let S = state self.old in IfErr result (λ s. IsTreeStop self.new.context.trees (resolved_tree S (resolved_root S (arg_tree self.old.context.trees arg))) s) }
    {
        let root = resolved_root(&self.cx, &self.inference, arg);
        listed_root(
            alloc,
            &mut self.cx,
            &self.inference,
            self.normal.as_slice(),
            root,
        )
    }

    /// The value for a variable that meets the argument under the binders of these universes, the innermost last: with all values put
    /// in, listed types in the place of their aliases, and placeholders for the regions that the binders bind. It stops as
    /// `resolve_ty_if_possible` does.
    pub(crate) fn value_for(
        &mut self,
        alloc: Global,
        universes: &[u32],
        arg: GenericArg,
    ) -> Result<GenericArg, Stop>
        requires { IsArg self.old.context.trees arg }
        ensures goes { GoesOn self.old self.new }
        ensures inference { self.new.inference ≡ self.old.inference }
        ensures state { state self.new ≡ state self.old }
        ensures sort { IfOk result (λ x. IsArg self.new.context.trees x) }
        ensures tree { IfOk result (λ x. arg_tree self.new.context.trees x ≡ value_for (listing self.old) (state self.old) (reverse universes.now) (arg_tree self.old.context.trees arg)) }
        ensures cause { IfErr result (λ s. IsValueStop self.new.context.trees (listing self.old) (state self.old) (reverse universes.now) (arg_tree self.old.context.trees arg) s) }
    {
        value_in(
            alloc,
            &mut self.cx,
            &self.inference,
            self.normal.as_slice(),
            universes,
            arg,
        )
    }

    /// The list with the type of its pair in the place of each listed alias, from the top. It stops as
    /// `Rounds::resolve_ty_if_possible` does.
    pub(crate) fn with_listed_types(&mut self, alloc: Global, list: Args) -> Result<Args, Stop>
        requires { IsArgs self.old.context.trees list }
        ensures goes { GoesOn self.old self.new }
        ensures state { state self.new ≡ state self.old }
        ensures sort { IfOk result (λ x. IsArgs self.new.context.trees x) }
        ensures tree { IfOk result (λ x. args_forest self.new.context.trees x ≡ fold (λ d u. listed (listing self.old) u) 0 (args_forest self.old.context.trees list)) }
        ensures cause { IfErr result (λ s. IsSubstStop (length self.new.context.trees) (fold (λ d u. listed (listing self.old) u) 0 (args_forest self.old.context.trees list)) s) }
    {
        let normal = self.normal.as_slice();
        fold_answers(alloc, &mut self.cx, list, &Normalizing { normal })
    }

    /// The region under the binders of these universes, the innermost last: a placeholder, where one of them binds it. `Stop::Memory`
    /// comes where a growth was refused, `Stop::NodesFull` where no number is left.
    pub(crate) fn placed_region(
        &mut self,
        universes: &[u32],
        region: Region,
    ) -> Result<Region, Stop>
        requires { IsRegion self.old.context.trees region }
        ensures goes { GoesOn self.old self.new }
        ensures state { state self.new ≡ state self.old }
        ensures sort { IfOk result (λ r. IsRegion self.new.context.trees r) }
        ensures tree { IfOk result (λ r. region_tree self.new.context.trees r ≡ placed_tree (reverse universes.now) (region_tree self.old.context.trees region)) }
        ensures cause { IfErr result (λ s. IsTreeStop self.new.context.trees (placed_tree (reverse universes.now) (region_tree self.old.context.trees region)) s) }
    {
        match placeholder_for(universes, 0, self.cx.region_kind(region)) {
            Some(placeholder) => self.cx.mk_region(placeholder),
            None => Ok(region),
        }
    }
}
