//! The bounds of `dyn` types, and what each says of a type.

ghost use Rattle.std.specs.Prelude.{◌≡◌, ℕ, All, map, option_map, IfErr, IfOk, IfSome};
ghost use Rattle.std.specs.List.{filter};
ghost use Rattle.ir_trees.specs.Declarations.Context.{Grows};
ghost use Rattle.ir_trees.specs.Syntax.Trees.{tree};
ghost use Rattle.ir_trees.specs.Syntax.Words.{ClauseListFits, IsClause, IsPred, IsPreds, IsRegion, IsTy, ListFits, PredFits, clause_tree, list_forest, pred_tree, preds_forest, region_tree, ty_tree};
ghost use Rattle.ir_trees.specs.declared.ir.heads.Head.TheVariants as H;
ghost use Rattle.candidate_eval.specs.Interface.Unmade.{IsUnmade};
ghost use Rattle.candidate_eval.specs.Dynamic.Required.{each_of};
ghost use Rattle.candidate_eval.specs.Dynamic.ObjectRules.{IsRuleTree};
ghost use Rattle.candidate_assembly.specs.Rules.DynBounds.{ArePrincipalSupers, bound_arguments, bound_said, bounds_in, first_listed, is_compatible, is_principal, kind_said, principal_in, region_in, trait_said};
ghost use Rattle.candidate_assembly.specs.Calls.Upcasting.{IsRuleClause};

use ir_context::decl::Cx;
use ir_context::decl::make::{Build, Make};
use ir_folds::decl::elaborate::supertraits;
use ir_trees::ir::heads::{Head, PartHead, PredHead};
use ir_trees::ir::kinds::{
    AliasTerm, Args, Binder, Clause, ClauseKind, ExistentialPredicate, GenericArg, Pred,
    PredicatePolarity, Preds, ProjectionPredicate, Region, TraitId, TraitPredicate, TraitRef, Ty,
    TyKind,
};
use ir_trees::ir::stop::Stop;
use ir_trees::ir::trees::Trees;
use std::alloc::{AllocError, Global};

/// The bounds and the region of a `dyn` type.
pub(crate) fn dyn_parts(cx: &Cx, ty: Ty) -> (Preds, Region)
    requires sort { IsTy cx.now.trees ty }
    requires dynamic { (ty_tree cx.now.trees ty).head ≡ H.Dynamic }
    ensures preds { IsPreds cx.now.trees result.0 }
    ensures region { IsRegion cx.now.trees result.1 }
    ensures bounds { bounds_in (ty_tree cx.now.trees ty) ≡ each_of (preds_forest cx.now.trees result.0) }
    ensures region_tree { region_in (ty_tree cx.now.trees ty) ≡ region_tree cx.now.trees result.1 }
{
    match cx.kind(ty) {
        TyKind::Dynamic(bounds, region) => (bounds, region),
        _ => unreachable!(),
    }
}

/// Whether objects of the trait of a `dyn` type's principal may be made; without a principal nothing bars them.
pub(crate) fn is_dyn_compatible(cx: &Cx, ty: Ty) -> bool
    requires sort { IsTy cx.now.trees ty }
    requires dynamic { (ty_tree cx.now.trees ty).head ≡ H.Dynamic }
    ensures { result ≡ is_compatible cx.now (principal_in (ty_tree cx.now.trees ty)) }
{
    let (bounds, _) = dyn_parts(cx, ty);
    let Some(principal) = cx.principal(bounds) else {
        return true;
    };
    match cx.trait_flags(principal) {
        Some(flags) => flags.dyn_compatible,
        None => false,
    }
}

/// The arguments of a bound; one by an auto trait has none.
fn bound_args(cx: &Cx, bound: Binder<ExistentialPredicate>) -> &[GenericArg]
    requires { PredFits cx.now.trees bound }
    ensures fit { ListFits cx.now.trees result.now }
    ensures forest { list_forest cx.now.trees result.now ≡ bound_arguments cx.now.trees bound.value }
{
    match bound.value {
        ExistentialPredicate::Trait(trait_ref) => cx.args(trait_ref.args),
        ExistentialPredicate::Projection(projection) => cx.args(projection.args),
        ExistentialPredicate::AutoTrait(_) => &[],
    }
}

/// The type, and then the arguments of the bound.
fn with_type(
    alloc: Global,
    cx: &Cx,
    ty: Ty,
    bound: Binder<ExistentialPredicate>,
) -> Result<Vec<GenericArg>, AllocError>
    requires ty { IsTy cx.now.trees ty }
    requires bound { PredFits cx.now.trees bound }
    ensures fit { IfOk result (λ v. ListFits cx.now.trees v.items) }
    ensures forest { let ts = cx.now.trees in IfOk result (λ v. list_forest ts v.items ≡ tree (ty_tree ts ty).head (ty_tree ts ty).children (bound_arguments ts bound.value)) }
{
    let mut list = Vec::new(alloc);
    list.push(GenericArg::Ty(ty))?;
    list.extend_from_slice(bound_args(cx, bound))?;
    Ok(list)
}

/// That the trait holds of the arguments.
fn holds(def_id: TraitId, args: Args) -> ClauseKind
    ensures { result ≡ trait_said def_id args }
{
    ClauseKind::Trait(TraitPredicate {
        trait_ref: TraitRef { def_id, args },
        polarity: PredicatePolarity::Positive,
    })
}

/// What the bound says of the arguments, of which the first is the type: that its trait holds of them, or what an associated type is.
fn kind_said(bound: ExistentialPredicate, args: Args) -> ClauseKind
    ensures { result ≡ kind_said bound args }
{
    match bound {
        ExistentialPredicate::Trait(trait_ref) => holds(trait_ref.def_id, args),
        ExistentialPredicate::Projection(projection) => {
            ClauseKind::Projection(ProjectionPredicate {
                projection_term: AliasTerm {
                    def_id: projection.def_id,
                    args,
                },
                term: projection.term,
            })
        }
        ExistentialPredicate::AutoTrait(id) => holds(id, args),
    }
}

/// What a bound says of a type, as a clause under the bound's binder: that its trait holds of the type and the bound's arguments, or what an
/// associated type of these is.
///
/// `Stop::Memory` comes where a growth was refused, `Stop::NodesFull` where a node was not made. After a stop the nodes that were made stay.
pub(crate) fn bound_clause<M: Make>(
    alloc: Global,
    make: &mut M,
    ty: Ty,
    bound: Pred,
) -> Result<Clause, Stop>
    requires ty { IsTy (M.context make.old).trees ty }
    requires bound { IsPred (M.context make.old).trees bound }
    ensures grows { Grows (M.context make.old) (M.context make.new) }
    ensures rest { M.rest make.new ≡ M.rest make.old }
    ensures sort { IfOk result (λ x. IsClause (M.context make.new).trees x) }
    ensures tree { let ts = (M.context make.old).trees in IfOk result (λ x. clause_tree (M.context make.new).trees x ≡ bound_said (ty_tree ts ty) (pred_tree ts bound)) }
    ensures cause { IfErr result (IsUnmade (M.context make.old) (M.context make.new)) }
{
    make.cx().recall_well_formed();
    let bound = make.cx().pred(bound);
    let list = with_type(alloc, make.cx(), ty, bound)?;
    let args = make.mk_args(list.as_slice())?;
    make.mk_clause(Binder {
        vars: bound.vars,
        value: kind_said(bound.value, args),
    })
}

/// Whether the bound is the principal of its list.
pub(crate) fn is_principal(cx: &Cx, bound: Pred) -> bool
    requires { IsPred cx.now.trees bound }
    ensures { result ≡ is_principal (pred_tree cx.now.trees bound).head }
{
    matches!(
        cx.head(bound.0),
        Head::Part(PartHead::Pred(PredHead::Trait(_)))
    )
}

/// The first principal among the bounds, if there is one.
pub(crate) fn principal_among(cx: &Cx, bounds: &[Pred]) -> Option<Pred>
    requires { All (IsPred cx.now.trees) bounds.now }
    ensures sort { IfSome result (IsPred cx.now.trees) }
    ensures first { option_map (pred_tree cx.now.trees) result ≡ first_listed (filter (λ b. is_principal b.head) (map (pred_tree cx.now.trees) bounds.now)) }
{
    for bound in bounds {
        if is_principal(cx, *bound) {
            return Some(*bound);
        }
    }
    None
}

/// The supertraits of the principal of a `dyn` type that has these bounds, itself the first; without one there are none. Where a rule may speak
/// of the type, it may speak of these.
///
/// `Stop::Memory` comes where a growth was refused, `Stop::NodesFull` where a node was not made. After a stop the nodes that were made stay.
pub(crate) fn principal_supertraits<M: Make>(
    alloc: Global,
    make: &mut M,
    ty: Ty,
    bounds: &[Pred],
) -> Result<Vec<Clause>, Stop>
    requires ty { IsTy (M.context make.old).trees ty }
    requires dynamic { (ty_tree (M.context make.old).trees ty).head ≡ H.Dynamic }
    requires bounds { All (IsPred (M.context make.old).trees) bounds.now }
    requires are { map (pred_tree (M.context make.old).trees) bounds.now ≡ bounds_in (ty_tree (M.context make.old).trees ty) }
    ensures grows { Grows (M.context make.old) (M.context make.new) }
    ensures rest { M.rest make.new ≡ M.rest make.old }
    ensures sort { IfOk result (λ v. ClauseListFits (M.context make.new).trees v.items) }
    ensures supers { let c = M.context make.old in IfOk result (λ v. ArePrincipalSupers c (ty_tree c.trees ty) (map (clause_tree (M.context make.new).trees) v.items)) }
    ensures may_stand { (n : ℕ) → IsRuleTree n (ty_tree (M.context make.old).trees ty) → IfOk result (λ v. All (IsRuleClause (M.context make.new).trees n) v.items) }
    ensures cause { IfErr result (IsUnmade (M.context make.old) (M.context make.new)) }
{
    make.cx().recall_well_formed_table();
    let Some(principal) = principal_among(make.cx(), bounds) else {
        return Ok(Vec::new(alloc));
    };
    let clause = bound_clause(alloc, make, ty, principal)?;
    make.cx().recall_well_formed_table();
    let supers = supertraits(alloc, make, clause)?;
    make.cx().recall_well_formed_table();
    Ok(supers)
}
