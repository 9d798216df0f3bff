//! What an object has to fulfil, where its own bounds say what its associated types are.

ghost use Rattle.std.specs.Prelude.{◌≡◌, ◌&&◌, ◌<◌, ◌++◌, [], ◌∷◌, Some, None, MatchOption, IfOk, IfErr, length, option_map};
ghost use Rattle.ir_trees.specs.Declarations.Context.{Grows};
ghost use Rattle.ir_trees.specs.Instantiation.Folds.{IsArg, IsOfKind, arg_tree};
ghost use Rattle.ir_trees.specs.declared.ir.heads.Head.TheVariants as H;
ghost use Rattle.ir_trees.specs.Syntax.Nodes.{tree_at};
ghost use Rattle.ir_trees.specs.Validity.WellFormed.{TypesFit};
ghost use Rattle.ir_trees.specs.Syntax.Words.{IsArgs, IsClause, IsParamEnv, IsTy, ClauseListFits, args_forest, clause_tree, ty_tree};
ghost use Rattle.candidate_eval.specs.Interface.Unmade.{IsUnmade};
ghost use Rattle.candidate_eval.specs.Interface.Noting.{IsNotingStop};
ghost use Rattle.candidate_eval.specs.Dynamic.Objects.{is_about, projection_at, by_object_stop, if_ambiguous};
ghost use Rattle.candidate_eval.specs.Dynamic.Calls.{PicksHere, IsStuckHere, IsReplacedHere, AreReplacedHere, AreStuckHere};
ghost use Rattle.candidate_eval.specs.Dynamic.Replacing.{alias_in, any_is_about, answered, item_of, left_by, starts_with, projections, filled_clause, AreProjections, projections_at, clauses_at, types_at, finds_own, own_at, own_projections_in};
ghost use Rattle.candidate_eval.specs.Interface.Shown.{Keeps, StopsSomehow, view};

use crate::eval::context::EvalCtxt;
use crate::objects::object::{AmbiguousOrStop, bound_about, pick_bound};
use crate::structural::making::first_type;
use ir_context::decl::Cx;
use ir_context::decl::make::Make;
use ir_folds::decl::fold::fold;
use ir_trees::ir::heads::Flag;
use ir_trees::ir::kinds::{
    AliasKind, AliasTerm, AliasTy, Args, AssocId, Clause, GenericArg, ParamEnv, Ty, TyKind,
};
use ir_trees::ir::stop::Stop;
use ir_trees::ir::trees::Trees;
use std::alloc::Global;

/// How many projections of an object's own a clause may have. Types share their parts, so that a short one can have more than can be listed.
const MAX_OWN_PROJECTIONS: usize = 1_024;

/// Whether the bound is about the associated type.
fn is_about(cx: &Cx, bound: Clause, item: AssocId) -> bool
    requires { IsClause cx.now.trees bound }
    ensures { result ≡ is_about item.0 (clause_tree cx.now.trees bound).head }
{
    bound_about(cx, bound, item).is_some()
}

/// Whether one of the bounds is about the associated type.
fn any_is_about(cx: &Cx, bounds: &[Clause], item: AssocId) -> bool
    requires { ClauseListFits cx.now.trees bounds.now }
    ensures { result ≡ any_is_about item.0 (clauses_at cx.now.trees bounds.now) }
{
    for bound in bounds {
        if is_about(cx, *bound, item) {
            return true;
        }
    }
    false
}

/// Whether the first of the arguments is that type.
fn starts_with(cx: &Cx, args: Args, ty: Ty) -> bool
    requires args { IsArgs cx.now.trees args }
    requires ty { IsTy cx.now.trees ty }
    ensures { result ≡ starts_with (ty_tree cx.now.trees ty) (args_forest cx.now.trees args) }
{
    match first_type(cx.args(args)) {
        Some(first) => cx.same(first, ty),
        None => false,
    }
}

/// The associated type with its arguments, where the alias is of one.
fn projection_of(alias: AliasTy) -> Option<AliasTerm>
    ensures { MatchOption result (item_of (H.Alias alias.kind alias.id) ≡ None) (λ p. (p.args ≡ alias.args) × (item_of (H.Alias alias.kind alias.id) ≡ Some p.def_id.0)) }
{
    match alias.kind {
        AliasKind::Projection => Some(AliasTerm {
            def_id: AssocId(alias.id.0),
            args: alias.args,
        }),
        AliasKind::Inherent | AliasKind::Opaque | AliasKind::Free => None,
    }
}

/// The alias that the type is.
fn alias_in(kind: TyKind) -> Option<AliasTy>
    ensures { result ≡ alias_in kind }
{
    match kind {
        TyKind::Alias(alias) => Some(alias),
        _ => None,
    }
}

/// Whether the projection is of the object's own type, and one of the bounds is about its associated type.
fn is_own(cx: &Cx, object: Ty, bounds: &[Clause], projection: AliasTerm) -> bool
    requires object { IsTy cx.now.trees object }
    requires bounds { ClauseListFits cx.now.trees bounds.now }
    requires args { IsArgs cx.now.trees projection.args }
    ensures { let ts = cx.now.trees in result ≡ (starts_with (ty_tree ts object) (args_forest ts projection.args) && any_is_about projection.def_id.0 (clauses_at ts bounds.now)) }
{
    starts_with(cx, projection.args, object) && any_is_about(cx, bounds, projection.def_id)
}

/// The projection that the argument is: of the object's own type, where one of the bounds is about its associated type.
fn own_projection(cx: &Cx, object: Ty, bounds: &[Clause], arg: GenericArg) -> Option<AliasTerm>
    requires object { IsTy cx.now.trees object }
    requires bounds { ClauseListFits cx.now.trees bounds.now }
    requires arg { IsArg cx.now.trees arg }
    ensures { let ts = cx.now.trees in let own = own_at ts object bounds.now (arg_tree ts arg) in MatchOption result (own ≡ None) (λ p. IsArgs ts p.args × (own ≡ Some (projection_at ts p))) }
{
    let GenericArg::Ty(ty) = arg else {
        return None;
    };
    let alias = alias_in(cx.kind(ty))?;
    let projection = projection_of(alias)?;
    if is_own(cx, object, bounds, projection) {
        Some(projection)
    } else {
        None
    }
}

/// The projection of the object's own type that a number stands for, as `own_projection` has it: what is no type is none.
fn own_projection_at(cx: &Cx, object: Ty, bounds: &[Clause], number: u32) -> Option<AliasTerm>
    requires object { IsTy cx.now.trees object }
    requires bounds { ClauseListFits cx.now.trees bounds.now }
    requires number { number < length cx.now.trees }
    ensures { let ts = cx.now.trees in let own = own_at ts object bounds.now (tree_at ts number) in MatchOption result (own ≡ None) (λ p. IsArgs ts p.args × (own ≡ Some (projection_at ts p))) }
{
    own_projection(cx, object, bounds, cx.argument(number)?)
}

/// Adds a projection of the object's own. `Stop::Memory` comes where the list can't grow, or has as many as it may have.
fn push_own(found: &mut Vec<AliasTerm>, projection: AliasTerm) -> Result<(), Stop>
    ensures pushed { IfOk result (λ _. found.new.items ≡ found.old.items ++ projection ∷ []) }
    ensures cause { IfErr result (λ s. s ≡ Stop.Memory) }
{
    if found.len() >= MAX_OWN_PROJECTIONS {
        return Err(Stop::Memory);
    }
    push(found, projection)
}

/// Adds the projections of the object's own below a number, in their order; where no alias stands there is none. `Stop::Memory` comes where
/// the list can't grow or there are more than 1,024, `Stop::NodesFull` where there are more children than can be counted.
fn push_projections(
    cx: &Cx,
    object: Ty,
    bounds: &[Clause],
    found: &mut Vec<AliasTerm>,
    number: u32,
) -> Result<(), Stop>
    requires object { IsTy cx.now.trees object }
    requires bounds { ClauseListFits cx.now.trees bounds.now }
    requires found { AreProjections cx.now.trees found.old.items }
    requires number { number < length cx.now.trees }
    ensures sort { IfOk result (λ _. AreProjections cx.now.trees found.new.items) }
    ensures projections { let ts = cx.now.trees in IfOk result (λ _. projections_at ts found.new.items ≡ projections_at ts found.old.items ++ projections (finds_own ts object bounds.now) (tree_at ts number).children) }
    ensures cause { IfErr result (λ s. IsNotingStop cx.now.trees s) }
{
    if !cx.marks(number).has(Flag::Alias) {
        return Ok(());
    }
    for place in 0..usize::MAX {
        let Some(child) = cx.child(number, place) else {
            return Ok(());
        };
        match own_projection_at(cx, object, bounds, child) {
            Some(projection) => push_own(found, projection)?,
            None => push_projections(cx, object, bounds, found, child)?,
        }
    }
    Err(Stop::NodesFull)
}

/// The projections of the object's own in a clause, in their order; it stops as `push_projections` does.
fn own_projections(
    alloc: Global,
    cx: &Cx,
    object: Ty,
    bounds: &[Clause],
    clause: Clause,
) -> Result<Vec<AliasTerm>, Stop>
    requires object { IsTy cx.now.trees object }
    requires bounds { ClauseListFits cx.now.trees bounds.now }
    requires clause { IsClause cx.now.trees clause }
    ensures sort { IfOk result (λ v. AreProjections cx.now.trees v.items) }
    ensures projections { let ts = cx.now.trees in IfOk result (λ v. projections_at ts v.items ≡ own_projections_in ts object bounds.now clause) }
    ensures cause { IfErr result (λ s. IsNotingStop cx.now.trees s) }
{
    let mut found = Vec::new(alloc);
    push_projections(cx, object, bounds, &mut found, clause.0)?;
    Ok(found)
}

/// Puts an item at a list's end. The only stop is `Stop::Memory`.
fn push<T: Copy>(list: &mut Vec<T>, item: T) -> Result<(), Stop>
    ensures pushed { IfOk result (λ _. list.new.items ≡ list.old.items ++ item ∷ []) }
    ensures cause { IfErr result (λ s. s ≡ Stop.Memory) }
{
    list.push(item)?;
    Ok(())
}

/// The terms that the bounds give for the projections, one after the other, by `pick_bound`; what is said of its errors holds
/// here, too.
fn pick_all<E: EvalCtxt>(
    alloc: Global,
    ecx: &mut E,
    env: ParamEnv,
    bounds: &[Clause],
    projections: &[AliasTerm],
) -> Result<Vec<Ty>, AmbiguousOrStop>
    requires env { IsParamEnv (E.context ecx.old).trees env }
    requires bounds { ClauseListFits (E.context ecx.old).trees bounds.now }
    requires projections { AreProjections (E.context ecx.old).trees projections.now }
    ensures kept { Keeps E.EvalCtxt ecx.old ecx.new }
    ensures sort { IfOk result (λ v. TypesFit (E.context ecx.new).trees v.items) }
    ensures picked { let V = view E.EvalCtxt ecx.old in let W = view E.EvalCtxt ecx.new in IfOk result (λ v. PicksHere V W env bounds.now projections.now v.items) }
    ensures ambiguous { let V = view E.EvalCtxt ecx.old in let W = view E.EvalCtxt ecx.new in IfErr result (if_ambiguous (IsStuckHere V W env bounds.now (projections_at V.trees projections.now))) }
    ensures cause { IfErr result (by_object_stop (StopsSomehow E.EvalCtxt ecx.old ecx.new)) }
{
    let mut terms = Vec::new(alloc);
    for projection in projections {
        let term = pick_bound(alloc, ecx, env, bounds, *projection)?;
        push(&mut terms, term)?;
    }
    Ok(terms)
}

/// The first of the terms, which is then left out, if there is one.
fn split_term(terms: &mut &[Ty]) -> Option<Ty>
    ensures { MatchOption result ((terms.old.now ≡ []) × (terms.new.now ≡ [])) (λ t. terms.old.now ≡ t ∷ terms.new.now) }
{
    let (first, left) = terms.split_first()?;
    *terms = left;
    Some(*first)
}

/// What stands for the argument: for a projection of the object's own the next of the terms, which is then left out. Where no term
/// is left it stays.
fn next_term(
    cx: &Cx,
    object: Ty,
    bounds: &[Clause],
    terms: &mut &[Ty],
    arg: GenericArg,
) -> Option<GenericArg>
    requires object { IsTy cx.now.trees object }
    requires bounds { ClauseListFits cx.now.trees bounds.now }
    requires terms { TypesFit cx.now.trees terms.old.now }
    requires arg { IsArg cx.now.trees arg }
    ensures kind { IsOfKind cx.now.trees arg result }
    ensures answer { let ts = cx.now.trees in let t = arg_tree ts arg in option_map (arg_tree ts) result ≡ answered (own_at ts object bounds.now t) t (types_at ts terms.old.now) }
    ensures left { let ts = cx.now.trees in terms.new.now ≡ left_by (own_at ts object bounds.now (arg_tree ts arg)) terms.old.now }
{
    if own_projection(cx, object, bounds, arg).is_none() {
        return None;
    }
    match split_term(terms) {
        Some(term) => Some(GenericArg::Ty(term)),
        None => Some(arg),
    }
}

/// The clause with the terms in the place of the projections of the object's own, in their order.
///
/// `Stop::Memory` comes where a growth was refused, `Stop::NodesFull` where no numbers are left, or the clause would be higher than
/// 1,024. After a stop the nodes that were made stay.
fn fill<M: Make>(
    alloc: Global,
    make: &mut M,
    object: Ty,
    bounds: &[Clause],
    clause: Clause,
    terms: &[Ty],
) -> Result<Clause, Stop>
    requires object { IsTy (M.context make.old).trees object }
    requires bounds { ClauseListFits (M.context make.old).trees bounds.now }
    requires clause { IsClause (M.context make.old).trees clause }
    requires terms { TypesFit (M.context make.old).trees terms.now }
    ensures grows { Grows (M.context make.old) (M.context make.new) }
    ensures rest { M.rest make.new ≡ M.rest make.old }
    ensures sort { IfOk result (λ x. IsClause (M.context make.new).trees x) }
    ensures tree { let ts = (M.context make.old).trees in IfOk result (λ x. clause_tree (M.context make.new).trees x ≡ filled_clause (finds_own ts object bounds.now) (types_at ts terms.now) (clause_tree ts clause)) }
    ensures cause { IfErr result (IsUnmade (M.context make.old) (M.context make.new)) }
{
    if terms.is_empty() {
        return Ok(clause);
    }
    let mut left = terms;
    fold(
        alloc,
        make,
        clause,
        move |make: &mut M, arg: GenericArg, _: u32| -> Result<Option<GenericArg>, Stop>
            requires object { IsTy (M.context make.old).trees object }
            requires bounds { ClauseListFits (M.context make.old).trees bounds.now }
            requires terms { TypesFit (M.context make.old).trees left.now }
            requires arg { IsArg (M.context make.old).trees arg }
            ensures same { make.new ≡ make.old }
            ensures kind { IfOk result (λ o. IsOfKind (M.context make.old).trees arg o) }
            ensures answer { let ts = (M.context make.old).trees in let t = arg_tree ts arg in IfOk result (λ o. option_map (arg_tree ts) o ≡ answered (own_at ts object bounds.entry.now t) t (types_at ts left.entry.now)) }
            ensures left { let ts = (M.context make.old).trees in left.exit.now ≡ left_by (own_at ts object bounds.entry.now (arg_tree ts arg)) left.entry.now }
            ensures kept { bounds.exit.now ≡ bounds.entry.now }
            ensures never { IfErr result (λ _. ⊥) }
        { Ok(next_term(make.cx(), object, bounds, &mut left, arg)) },
    )
}

/// The clause with what the bounds say in the place of each projection of the object's own.
///
/// `Ambiguous` comes as it comes of `pick_bound`. It stops as `pick_bound` does, and `Stop::Memory` comes where a list can't grow,
/// `Stop::NodesFull` where the clause is not made, too. After an error what was equated before stays.
fn replaced_clause<E: EvalCtxt>(
    alloc: Global,
    ecx: &mut E,
    env: ParamEnv,
    object: Ty,
    bounds: &[Clause],
    clause: Clause,
) -> Result<Clause, AmbiguousOrStop>
    requires env { IsParamEnv (E.context ecx.old).trees env }
    requires object { IsTy (E.context ecx.old).trees object }
    requires bounds { ClauseListFits (E.context ecx.old).trees bounds.now }
    requires clause { IsClause (E.context ecx.old).trees clause }
    ensures kept { Keeps E.EvalCtxt ecx.old ecx.new }
    ensures sort { IfOk result (λ x. IsClause (E.context ecx.new).trees x) }
    ensures replaced { let V = view E.EvalCtxt ecx.old in let W = view E.EvalCtxt ecx.new in IfOk result (IsReplacedHere V W env object bounds.now clause) }
    ensures ambiguous { let V = view E.EvalCtxt ecx.old in let W = view E.EvalCtxt ecx.new in IfErr result (if_ambiguous (IsStuckHere V W env bounds.now (own_projections_in V.trees object bounds.now clause))) }
    ensures cause { IfErr result (by_object_stop (StopsSomehow E.EvalCtxt ecx.old ecx.new)) }
{
    let projections = own_projections(alloc, ecx.cx(), object, bounds, clause)?;
    let terms = pick_all(alloc, ecx, env, bounds, projections.as_slice())?;
    Ok(fill(alloc, ecx, object, bounds, clause, terms.as_slice())?)
}

/// The clauses, one after the other, with what the bounds say in the place of each projection of the object's own; what is said
/// of the errors of `replaced_clause` holds here, too.
pub(crate) fn replaced<E: EvalCtxt>(
    alloc: Global,
    ecx: &mut E,
    env: ParamEnv,
    object: Ty,
    bounds: &[Clause],
    clauses: &[Clause],
) -> Result<Vec<Clause>, AmbiguousOrStop>
    requires env { IsParamEnv (E.context ecx.old).trees env }
    requires object { IsTy (E.context ecx.old).trees object }
    requires bounds { ClauseListFits (E.context ecx.old).trees bounds.now }
    requires clauses { ClauseListFits (E.context ecx.old).trees clauses.now }
    ensures kept { Keeps E.EvalCtxt ecx.old ecx.new }
    ensures sort { IfOk result (λ v. ClauseListFits (E.context ecx.new).trees v.items) }
    ensures replaced { let V = view E.EvalCtxt ecx.old in let W = view E.EvalCtxt ecx.new in IfOk result (λ v. AreReplacedHere V W env object bounds.now clauses.now v.items) }
    ensures ambiguous { let V = view E.EvalCtxt ecx.old in let W = view E.EvalCtxt ecx.new in IfErr result (if_ambiguous (AreStuckHere V W env object bounds.now clauses.now)) }
    ensures cause { IfErr result (by_object_stop (StopsSomehow E.EvalCtxt ecx.old ecx.new)) }
{
    let mut list = Vec::new(alloc);
    for clause in clauses {
        let made = replaced_clause(alloc, ecx, env, object, bounds, *clause)?;
        push(&mut list, made)?;
    }
    Ok(list)
}
