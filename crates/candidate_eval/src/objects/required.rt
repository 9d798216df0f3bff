//! What a type has to fulfil so as to be an object of a trait, and what the bounds of the object's type say of it as clauses.

ghost use Rattle.std.specs.Prelude.{◌≡◌, map, IfErr, IfOk, true};
ghost use Rattle.candidate_eval.specs.Interface.Unmade.{IsUnmade};
ghost use Rattle.ir_trees.specs.Declarations.Context.{Grows, world};
ghost use Rattle.ir_trees.specs.Declarations.References.{Takes};
ghost use Rattle.ir_trees.specs.Syntax.Trees.{tree};
ghost use Rattle.ir_trees.specs.Syntax.Words.{IsArgs, IsClause, IsPred, IsPreds, IsTy, ClauseListFits, ListFits, PredFits, args_forest, clause_tree, list_forest, pred_kind_tree, pred_tree, preds_forest, ty_tree};
ghost use Rattle.candidate_eval.specs.Dynamic.Required.{Adds, AreRequirements, as_bound, declared_at, declared_trees, for_arguments, is_required, item_bounds, own_bound, own_bounds, required_bounds, said_of};
ghost use Rattle.candidate_eval.specs.Dynamic.Required as seen;

use ir_context::decl::Cx;
use ir_context::decl::make::Make;
use ir_folds::decl::elaborate::elaborate;
use ir_folds::decl::parameters::has_arguments;
use ir_folds::decl::subst::subst;
use ir_trees::decl::definition::AssocKind;
use ir_trees::ir::kinds::{
    AliasId, AliasTerm, Args, AssocId, Binder, Clause, ClauseKind, ExistentialPredicate,
    ExistentialProjection, GenericArg, Pred, Preds, ProjectionPredicate, TraitId, TraitRef, Ty,
};
use ir_trees::ir::stop::Stop;
use ir_trees::ir::trees::Trees;
use std::alloc::{AllocError, Global};

/// Where clauses are declared.
#[derive(Clone, Copy)]
pub(crate) enum Declared {
    /// The super clauses of a trait.
    SuperClauses(TraitId),
    /// The bounds of an associated type itself.
    SelfBounds(AliasId),
    /// The bounds of what it is a projection of.
    NonSelfBounds(AliasId),
}

/// The object, and then the arguments.
fn with_object(
    alloc: Global,
    cx: &Cx,
    object: Ty,
    args: Args,
) -> Result<Vec<GenericArg>, AllocError>
    requires object { IsTy cx.now.trees object }
    requires args { IsArgs cx.now.trees args }
    ensures fit { IfOk result (λ v. ListFits cx.now.trees v.items) }
    ensures forest { let ts = cx.now.trees in IfOk result (λ v. list_forest ts v.items ≡ tree (ty_tree ts object).head (ty_tree ts object).children (args_forest ts args)) }
{
    let mut list = Vec::new(alloc);
    list.push(GenericArg::Ty(object))?;
    list.extend_from_slice(cx.args(args))?;
    Ok(list)
}

/// What a projection bound says of the object.
fn bound_clause<M: Make>(
    alloc: Global,
    make: &mut M,
    object: Ty,
    bound: Binder<ExistentialProjection>,
) -> Result<Clause, Stop>
    requires object { IsTy (M.context make.old).trees object }
    requires fits { PredFits (M.context make.old).trees (as_bound bound) }
    requires takes { Takes (world (M.context make.old)) (pred_kind_tree (M.context make.old).trees (as_bound bound)) }
    ensures grows { Grows (M.context make.old) (M.context make.new) }
    ensures rest { M.rest make.new ≡ M.rest make.old }
    ensures sort { IfOk result (λ x. IsClause (M.context make.new).trees x) }
    ensures tree { let ts = (M.context make.old).trees in IfOk result (λ x. clause_tree (M.context make.new).trees x ≡ said_of (ty_tree ts object) (pred_kind_tree ts (as_bound bound))) }
    ensures cause { IfErr result (IsUnmade (M.context make.old) (M.context make.new)) }
{
    let list = with_object(alloc, make.cx(), object, bound.value.args)?;
    let args = make.mk_args(list.as_slice())?;
    make.mk_clause(Binder {
        vars: bound.vars,
        value: ClauseKind::Projection(ProjectionPredicate {
            projection_term: AliasTerm {
                def_id: bound.value.def_id,
                args,
            },
            term: bound.value.term,
        }),
    })
}

/// Adds what the bound says of the object, if it is a projection bound.
fn push_own<M: Make>(
    alloc: Global,
    make: &mut M,
    list: &mut Vec<Clause>,
    object: Ty,
    bound: Pred,
) -> Result<(), Stop>
    requires list { ClauseListFits (M.context make.old).trees list.old.items }
    requires object { IsTy (M.context make.old).trees object }
    requires bound { IsPred (M.context make.old).trees bound }
    ensures grows { Grows (M.context make.old) (M.context make.new) }
    ensures rest { M.rest make.new ≡ M.rest make.old }
    ensures sort { IfOk result (λ _. ClauseListFits (M.context make.new).trees list.new.items) }
    ensures trees { let c = M.context make.old in IfOk result (λ _. Adds c (M.context make.new) list.old.items list.new.items (own_bound (ty_tree c.trees object) (pred_tree c.trees bound))) }
    ensures cause { IfErr result (IsUnmade (M.context make.old) (M.context make.new)) }
{
    make.cx().recall_well_formed();
    let bound = make.cx().pred(bound);
    if let ExistentialPredicate::Projection(value) = bound.value {
        let bound = Binder {
            vars: bound.vars,
            value,
        };
        let clause = bound_clause(alloc, make, object, bound)?;
        list.push(clause)?;
    }
    Ok(())
}

/// What the projection bounds of the object's type say of it, in order: for each that an associated type, of the object and of
/// the bound's arguments, is the bound's term, under the bound's binder. Bounds that name traits say nothing here.
///
/// `Stop::Memory` comes where a growth was refused, `Stop::NodesFull` where a list of arguments or a clause was not made, as by
/// `mk_args` and `mk_clause`. After a stop the nodes that were made stay.
pub fn own_bounds<M: Make>(
    alloc: Global,
    make: &mut M,
    object: Ty,
    bounds: Preds,
) -> Result<Vec<Clause>, Stop>
    requires object { IsTy (M.context make.old).trees object }
    requires bounds { IsPreds (M.context make.old).trees bounds }
    ensures grows { Grows (M.context make.old) (M.context make.new) }
    ensures rest { M.rest make.new ≡ M.rest make.old }
    ensures sort { IfOk result (λ v. ClauseListFits (M.context make.new).trees v.items) }
    ensures trees { let ts = (M.context make.old).trees in IfOk result (λ v. map (clause_tree (M.context make.new).trees) v.items ≡ own_bounds (ty_tree ts object) (preds_forest ts bounds)) }
    ensures cause { IfErr result (IsUnmade (M.context make.old) (M.context make.new)) }
{
    let listed = Vec::from_slice(alloc, make.cx().preds(bounds))?;
    let mut list = Vec::new(alloc);
    for bound in &listed {
        push_own(alloc, make, &mut list, object, *bound)?;
    }
    Ok(list)
}

/// The clause with the arguments put in; as it is declared where one of its parameters has none.
fn with_arguments<M: Make>(
    alloc: Global,
    make: &mut M,
    clause: Clause,
    args: Args,
) -> Result<Clause, Stop>
    requires clause { IsClause (M.context make.old).trees clause }
    requires args { IsArgs (M.context make.old).trees args }
    ensures grows { Grows (M.context make.old) (M.context make.new) }
    ensures rest { M.rest make.new ≡ M.rest make.old }
    ensures sort { IfOk result (λ x. IsClause (M.context make.new).trees x) }
    ensures tree { let ts = (M.context make.old).trees in IfOk result (λ x. clause_tree (M.context make.new).trees x ≡ seen.with_arguments (args_forest ts args) (clause_tree ts clause)) }
    ensures cause { IfErr result (IsUnmade (M.context make.old) (M.context make.new)) }
{
    if has_arguments(make.cx(), clause, args) {
        subst(alloc, make, clause, args)
    } else {
        Ok(clause)
    }
}

/// The clauses that are declared there, in order.
fn declared_clauses(cx: &Cx, of: Declared) -> &[Clause]
    ensures is { result.now ≡ declared_at cx.now of }
    ensures fit { ClauseListFits cx.now.trees result.now }
{
    match of {
        Declared::SuperClauses(id) => cx.super_clauses(id),
        Declared::SelfBounds(alias) => cx.self_bounds(alias),
        Declared::NonSelfBounds(alias) => cx.non_self_bounds(alias),
    }
}

/// Adds the clauses that are declared there, with the arguments put in, in order.
fn push_declared<M: Make>(
    alloc: Global,
    make: &mut M,
    list: &mut Vec<Clause>,
    of: Declared,
    args: Args,
) -> Result<(), Stop>
    requires list { ClauseListFits (M.context make.old).trees list.old.items }
    requires args { IsArgs (M.context make.old).trees args }
    ensures grows { Grows (M.context make.old) (M.context make.new) }
    ensures rest { M.rest make.new ≡ M.rest make.old }
    ensures sort { IfOk result (λ _. ClauseListFits (M.context make.new).trees list.new.items) }
    ensures trees { let c = M.context make.old in IfOk result (λ _. Adds c (M.context make.new) list.old.items list.new.items (for_arguments c args (declared_trees c of))) }
    ensures cause { IfErr result (IsUnmade (M.context make.old) (M.context make.new)) }
{
    let declared = Vec::from_slice(alloc, declared_clauses(make.cx(), of))?;
    for clause in &declared {
        let clause = with_arguments(alloc, make, *clause, args)?;
        list.push(clause)?;
    }
    Ok(())
}

/// Whether an object has the item: an associated type that doesn't require that `Self` is sized.
fn is_required(cx: &Cx, item: AssocId) -> bool
    ensures { result ≡ is_required cx.now item }
{
    matches!(cx.assoc_kind(item), Some(AssocKind::Type)) && !cx.requires_sized_self(item)
}

/// Adds the bounds of the associated type, with the arguments put in: its self bounds, and then the others.
fn push_bounds<M: Make>(
    alloc: Global,
    make: &mut M,
    list: &mut Vec<Clause>,
    item: AssocId,
    args: Args,
) -> Result<(), Stop>
    requires list { ClauseListFits (M.context make.old).trees list.old.items }
    requires args { IsArgs (M.context make.old).trees args }
    requires required { is_required (M.context make.old) item ≡ true }
    ensures grows { Grows (M.context make.old) (M.context make.new) }
    ensures rest { M.rest make.new ≡ M.rest make.old }
    ensures sort { IfOk result (λ _. ClauseListFits (M.context make.new).trees list.new.items) }
    ensures trees { let c = M.context make.old in IfOk result (λ _. Adds c (M.context make.new) list.old.items list.new.items (for_arguments c args (item_bounds c item))) }
    ensures cause { IfErr result (IsUnmade (M.context make.old) (M.context make.new)) }
{
    make.cx().recall_well_formed_table();
    let alias = AliasId(item.0);
    push_declared(alloc, make, list, Declared::SelfBounds(alias), args)?;
    push_declared(alloc, make, list, Declared::NonSelfBounds(alias), args)
}

/// Adds the bounds of all associated types that an object of the trait has, with the arguments put in, in the order of their
/// declaration.
fn push_required<M: Make>(
    alloc: Global,
    make: &mut M,
    list: &mut Vec<Clause>,
    trait_ref: TraitRef,
) -> Result<(), Stop>
    requires list { ClauseListFits (M.context make.old).trees list.old.items }
    requires args { IsArgs (M.context make.old).trees trait_ref.args }
    ensures grows { Grows (M.context make.old) (M.context make.new) }
    ensures rest { M.rest make.new ≡ M.rest make.old }
    ensures sort { IfOk result (λ _. ClauseListFits (M.context make.new).trees list.new.items) }
    ensures trees { let c = M.context make.old in IfOk result (λ _. Adds c (M.context make.new) list.old.items list.new.items (for_arguments c trait_ref.args (required_bounds c trait_ref.def_id.0))) }
    ensures cause { IfErr result (IsUnmade (M.context make.old) (M.context make.new)) }
{
    make.cx().recall_well_formed_table();
    let items = Vec::from_slice(alloc, make.cx().associated_items(trait_ref.def_id))?;
    for item in &items {
        if !is_required(make.cx(), *item) {
            continue;
        }
        push_bounds(alloc, make, list, *item, trait_ref.args)?;
    }
    Ok(())
}

/// All that an object of the reference's trait has to fulfil: the elaboration of the trait's super clauses, then the bounds of
/// its associated types but of those that require `Self: Sized`, in the order of their declaration. Each clause has the
/// reference's arguments in the place of its parameters; where one of its parameters has no argument of its kind, it stays as it
/// is declared.
///
/// It stops as `subst` and `elaborate` do; `Stop::Memory` comes where a list can't grow, too. After a stop the nodes that
/// were made stay.
pub fn requirements<M: Make>(
    alloc: Global,
    make: &mut M,
    trait_ref: TraitRef,
) -> Result<Vec<Clause>, Stop>
    requires args { IsArgs (M.context make.old).trees trait_ref.args }
    ensures grows { Grows (M.context make.old) (M.context make.new) }
    ensures rest { M.rest make.new ≡ M.rest make.old }
    ensures sort { IfOk result (λ v. ClauseListFits (M.context make.new).trees v.items) }
    ensures requirements { let c = M.context make.old in IfOk result (λ v. AreRequirements c trait_ref.def_id.0 (args_forest c.trees trait_ref.args) (map (clause_tree (M.context make.new).trees) v.items)) }
    ensures cause { IfErr result (IsUnmade (M.context make.old) (M.context make.new)) }
{
    make.cx().recall_well_formed_table();
    let of = Declared::SuperClauses(trait_ref.def_id);
    let mut supers = Vec::new(alloc);
    push_declared(alloc, make, &mut supers, of, trait_ref.args)?;
    let mut list = elaborate(alloc, make, supers.as_slice())?;
    make.cx().recall_well_formed();
    push_required(alloc, make, &mut list, trait_ref)?;
    Ok(list)
}
