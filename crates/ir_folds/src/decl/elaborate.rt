//! Super clauses, instantiated.

ghost use Rattle.std.specs.List.{list_any};
ghost use Rattle.std.specs.Prelude.{◌≡◌, ℕ, [], ◌∷◌, ◌++◌, ◌+◌, ◌-◌, ◌<◌, ◌==◌, length, map, Some, None, IfOk, IfErr, IfSome, option_map, slice_get, nat_eq, ◌⊎◌, true, false, if◌then◌else◌};
ghost use Rattle.ir_trees.specs.Declarations.Context.{Grows};
ghost use Rattle.ir_trees.specs.Declarations.Declaring.{trait_at};
ghost use Rattle.ir_trees.specs.Declarations.References.{ArgumentsFit};
ghost use Rattle.ir_trees.specs.Hierarchy.Supers.{supers_at};
ghost use Rattle.ir_trees.specs.Hierarchy.Elaboration.{later, later_head, instance_head, instance, IsHeadStop, IsRenumberStop, IsInstanceStop, IsJoint, IsJointStop, unlisted, super_clauses, instance_below, instances, AppendsUnlisted, implied_by, held_reference, IsElaboration, is_trait_clause, supertraits, AreSupertraits, trait_of, with_number, traits_among, id_numbers, AreSupertraitIds, IsUnmade, IsElaborationStop};
ghost use Rattle.ir_trees.specs.Instantiation.Folding.{lacks_argument};
ghost use Rattle.ir_trees.specs.Instantiation.Folds.{IsArg, IsOfKind, arg_tree};
ghost use Rattle.ir_trees.specs.Instantiation.Results.{HasArguments};
ghost use Rattle.ir_trees.specs.Syntax.Nodes.{rows};
ghost use Rattle.ir_trees.specs.Unification.Substitutions.{alone};
ghost use Rattle.ir_trees.specs.Syntax.Trees.{join, count, tree_holds};
ghost use Rattle.ir_trees.specs.Syntax.Words.{IsArgs, IsClause, IsVars, ClauseListFits, args_forest, clause_tree, vars_tree, var_kind_tree};

use crate::decl::answering::{PureFolder, fold_once};
use crate::decl::open::{bound_variable, bound_variable_of};
use crate::decl::subst::put;
use indexmap::IndexSet;
use ir_context::decl::context::Cx;
use ir_context::decl::make::Make;
use ir_trees::ir::heads::{ClauseHead, Flag, Head, Marks, PartHead};
use ir_trees::ir::kinds::{
    Args, Binder, BoundVar, Clause, ClauseKind, ConstKind, GenericArg, PredicatePolarity,
    RegionKind, TraitId, TraitRef, TyKind, VarKind, Vars,
};
use ir_trees::ir::numbered::Numbered;
use ir_trees::ir::quiet::holds_param_or_bound;
use ir_trees::ir::stop::Stop;
use ir_trees::ir::trees::Trees;
use std::alloc::{AllocError, Global};

/// The variable with a number so much higher, if it is of the binder that stands above the binders
/// passed.
fn later(var: BoundVar, binders: u32, by: usize) -> Result<Option<BoundVar>, Stop>
    ensures moved { IfOk result (λ o. o ≡ (if var.depth == binders then Some (later by var) else None)) }
    ensures cause { IfErr result (λ s. (s ≡ Stop.NodesFull) × (nat_eq var.depth binders ≡ true) × (4294967295 < var.index + by)) }
{
    if var.depth != binders {
        return Ok(None);
    }
    let room = u32::MAX - var.index;
    if by > room as usize {
        return Err(Stop::NodesFull);
    }
    Ok(Some(BoundVar {
        depth: var.depth,
        index: var.index + by as u32,
    }))
}

/// What stands for such a variable.
fn renumbered<M: Make>(
    make: &mut M,
    arg: GenericArg,
    binders: u32,
    by: usize,
) -> Result<Option<GenericArg>, Stop>
    requires { IsArg (M.context make.old).trees arg }
    ensures grows { Grows (M.context make.old) (M.context make.new) }
    ensures rest { M.rest make.new ≡ M.rest make.old }
    ensures kind { IfOk result (λ o. IsOfKind (M.context make.new).trees arg o) }
    ensures answer { IfOk result (λ o. option_map (arg_tree (M.context make.new).trees) o ≡ later_head by binders (arg_tree (M.context make.old).trees arg).head) }
    ensures cause { IfErr result (λ s. IsHeadStop (length (M.context make.new).trees) (later_head by binders (arg_tree (M.context make.old).trees arg).head) s) }
{
    let head = make.cx().head(arg.number());
    let Some((kind, var)) = bound_variable_of(head) else {
        return Ok(None);
    };
    match later(var, binders, by)? {
        Some(var) => Ok(Some(bound_variable(make, kind, var)?)),
        None => Ok(None),
    }
}

/// What stands for a part of a super clause, under so many binders with its own: for a parameter its
/// argument, for a variable of its own binder a later one.
fn put_or_renumber<M: Make>(
    alloc: Global,
    make: &mut M,
    args: Args,
    by: usize,
    arg: GenericArg,
    binders: u32,
) -> Result<Option<GenericArg>, Stop>
    requires args { IsArgs (M.context make.old).trees args }
    requires arg { IsArg (M.context make.old).trees arg }
    ensures grows { Grows (M.context make.old) (M.context make.new) }
    ensures rest { M.rest make.new ≡ M.rest make.old }
    ensures kind { IfOk result (λ o. IsOfKind (M.context make.new).trees arg o) }
    ensures answer { let ts = (M.context make.old).trees in IfOk result (λ o. option_map (arg_tree (M.context make.new).trees) o ≡ instance_head (args_forest ts args) by (binders - 1) (arg_tree ts arg).head) }
    ensures cause { let ts = (M.context make.old).trees in IfErr result (λ s. IsHeadStop (length (M.context make.new).trees) (instance_head (args_forest ts args) by (binders - 1) (arg_tree ts arg).head) s) }
{
    let below = binders.saturating_sub(1);
    match put(alloc, make, args, arg, below)? {
        Some(value) => Ok(Some(value)),
        None => renumbered(make, arg, below, by),
    }
}

/// What `put_or_renumber` answers.
#[derive(Clone, Copy)]
struct Instancing {
    args: Args,
    by: usize,
}

impl<M: Make> PureFolder<M> for Instancing {
    ghost answers = { λ s ts. (λ d t. instance_head (args_forest ts s.args) s.by (d - 1) t.head) };

    ghost is_of = { λ s ts. IsArgs ts s.args };

    ghost causes = { λ _. IsRenumberStop };

    fn may_answer(&self, marks: Marks) -> bool {
        marks.has(Flag::Param) || marks.has_bound()
    }

    fn answer(
        &self,
        alloc: Global,
        make: &mut M,
        arg: GenericArg,
        binders: u32,
    ) -> Result<Option<GenericArg>, Stop> {
        put_or_renumber(alloc, make, self.args, self.by, arg, binders)
    }

    fn recall_laws(&self) {}
}

/// The super clause with arguments put in and the variables of its binder renumbered, which that
/// binder still has to be widened for.
fn instantiated<M: Make>(
    alloc: Global,
    make: &mut M,
    clause: Clause,
    args: Args,
    by: usize,
) -> Result<Clause, Stop>
    requires clause { IsClause (M.context make.old).trees clause }
    requires args { IsArgs (M.context make.old).trees args }
    ensures grows { Grows (M.context make.old) (M.context make.new) }
    ensures rest { M.rest make.new ≡ M.rest make.old }
    ensures sort { IfOk result (λ x. IsClause (M.context make.new).trees x) }
    ensures tree { let ts = (M.context make.old).trees in IfOk result (λ x. clause_tree (M.context make.new).trees x ≡ instance_below (args_forest ts args) by (clause_tree ts clause)) }
    ensures cause { let ts = (M.context make.old).trees in IfErr result (λ s. IsRenumberStop (length (M.context make.new).trees) (alone (instance_below (args_forest ts args) by (clause_tree ts clause))) s) }
{
    if !holds_param_or_bound(make.cx(), clause.0) {
        return Ok(clause);
    }
    let number = fold_once(alloc, make, &Instancing { args, by }, clause.0)?;
    Ok(Clause(number))
}

/// Adds the kinds of the variables of a binder.
pub(crate) fn add_kinds(cx: &Cx, kinds: &mut Vec<VarKind>, vars: Vars) -> Result<(), AllocError>
    requires { IsVars cx.now.trees vars }
    ensures { IfOk result (λ _. rows (map var_kind_tree kinds.new.items) ≡ join (rows (map var_kind_tree kinds.old.items)) (vars_tree cx.now.trees vars).children) }
{
    for var in cx.vars(vars) {
        kinds.push(cx.var(*var))?;
    }
    Ok(())
}

/// A binder over the variables of two, one after the other.
fn joint_vars<M: Make>(alloc: Global, make: &mut M, outer: Vars, inner: Vars) -> Result<Vars, Stop>
    requires outer { IsVars (M.context make.old).trees outer }
    requires inner { IsVars (M.context make.old).trees inner }
    ensures grows { Grows (M.context make.old) (M.context make.new) }
    ensures rest { M.rest make.new ≡ M.rest make.old }
    ensures sort { IfOk result (λ v. IsVars (M.context make.new).trees v) }
    ensures joint { let ts = (M.context make.old).trees in IfOk result (λ v. IsJoint (M.context make.new).trees v (vars_tree ts outer).children (vars_tree ts inner).children) }
    ensures cause { let ts = (M.context make.old).trees in IfErr result (λ s. IsJointStop (length (M.context make.new).trees) (join (vars_tree ts outer).children (vars_tree ts inner).children) s) }
{
    let mut kinds = Vec::new(alloc);
    add_kinds(make.cx(), &mut kinds, outer)?;
    add_kinds(make.cx(), &mut kinds, inner)?;
    make.mk_vars(kinds.as_slice())
}

/// What a super clause says of arguments: those of a clause under a binder of these variables, which
/// says that its trait holds of them. Each parameter of the super clause has an argument of its kind
/// (`has_arguments`).
///
/// Both binders become one, of these variables and then those of the super clause; the arguments stand
/// under it in the place of the parameters. `Stop::Memory` comes where a growth was refused,
/// `Stop::NodesFull` where no numbers are left, or fewer than the joint binder or a list of bounds takes,
/// the clause would be higher than 1,024, or a variable in it would have a number above 2^32 - 1, or be
/// bound more than 2^32 - 1 binders out. After a stop the nodes that were made stay.
pub fn implied<M: Make>(
    alloc: Global,
    make: &mut M,
    vars: Vars,
    args: Args,
    clause: Clause,
) -> Result<Clause, Stop>
    requires vars { IsVars (M.context make.old).trees vars }
    requires args { IsArgs (M.context make.old).trees args }
    requires clause { IsClause (M.context make.old).trees clause }
    requires there { tree_holds (lacks_argument (args_forest (M.context make.old).trees args)) (clause_tree (M.context make.old).trees clause) ≡ false }
    ensures grows { Grows (M.context make.old) (M.context make.new) }
    ensures rest { M.rest make.new ≡ M.rest make.old }
    ensures sort { IfOk result (λ x. IsClause (M.context make.new).trees x) }
    ensures tree { let ts = (M.context make.old).trees in IfOk result (λ x. clause_tree (M.context make.new).trees x ≡ instance (vars_tree ts vars).children (args_forest ts args) (clause_tree ts clause)) }
    ensures cause { let ts = (M.context make.old).trees in IfErr result (λ s. IsInstanceStop (length (M.context make.new).trees) (instance (vars_tree ts vars).children (args_forest ts args) (clause_tree ts clause)) s) }
{
    let by = make.cx().vars(vars).len();
    let own = make.cx().clause(clause).vars;
    let joint = joint_vars(alloc, make, vars, own)?;
    let instance = instantiated(alloc, make, clause, args, by)?;
    make.cx().recall_well_formed();
    let value = make.cx().clause(instance).value;
    make.mk_clause(Binder { vars: joint, value })
}

/// Adds the clause to the list, unless that has an equal one: equal clauses have one number.
fn push_unlisted(cx: &Cx, list: &mut IndexSet<Clause>, clause: Clause) -> Result<(), AllocError>
    requires list { ClauseListFits cx.now.trees list.old.keys }
    requires clause { IsClause cx.now.trees clause }
    ensures fit { IfOk result (λ _. ClauseListFits cx.now.trees list.new.keys) }
    ensures trees { let ts = cx.now.trees in let t = clause_tree ts in IfOk result (λ _. map t list.new.keys ≡ map t list.old.keys ++ unlisted (map t list.old.keys) (clause_tree ts clause ∷ [])) }
{
    cx.recall_distinct();
    list.insert(clause)?;
    Ok(())
}

/// The clauses, each once.
#[tactic(auto, using(ir_context::proofs::Hierarchy::Listing::all_unlisted))]
fn each_once(alloc: Global, cx: &Cx, clauses: &[Clause]) -> Result<IndexSet<Clause>, AllocError>
    requires { ClauseListFits cx.now.trees clauses.now }
    ensures fit { IfOk result (λ list. ClauseListFits cx.now.trees list.keys) }
    ensures trees { IfOk result (λ list. map (clause_tree cx.now.trees) list.keys ≡ unlisted [] (map (clause_tree cx.now.trees) clauses.now)) }
{
    let mut list = IndexSet::new(alloc);
    for clause in clauses {
        push_unlisted(cx, &mut list, *clause)?;
    }
    Ok(list)
}

/// The clause in that place.
fn clause_at(list: &IndexSet<Clause>, place: usize) -> Clause
    requires { place < length list.now.keys }
    ensures { slice_get list.now.keys place ≡ Some result }
{
    list.as_slice()[place]
}

/// Adds what the super clauses of its trait say of a reference under a binder of these variables, each
/// unless the list has it.
#[tactic(auto, using(ir_context::proofs::Hierarchy::Listing::no_supers, ir_context::proofs::Hierarchy::Listing::no_more_supers))]
fn push_supers<M: Make>(
    alloc: Global,
    make: &mut M,
    list: &mut IndexSet<Clause>,
    vars: Vars,
    trait_ref: TraitRef,
) -> Result<(), Stop>
    requires list { ClauseListFits (M.context make.old).trees list.old.keys }
    requires vars { IsVars (M.context make.old).trees vars }
    requires args { IsArgs (M.context make.old).trees trait_ref.args }
    requires fit { ArgumentsFit (M.context make.old) trait_ref }
    ensures grows { Grows (M.context make.old) (M.context make.new) }
    ensures rest { M.rest make.new ≡ M.rest make.old }
    ensures sort { IfOk result (λ _. ClauseListFits (M.context make.new).trees list.new.keys) }
    ensures trees { let c = M.context make.old in IfOk result (λ _. AppendsUnlisted c.trees (M.context make.new).trees list.old.keys list.new.keys (instances c vars trait_ref)) }
    ensures cause { let c = M.context make.old in IfErr result (λ s. (s ≡ Stop.Memory) ⊎ IsUnmade (length (M.context make.new).trees) (instances c vars trait_ref) s) }
{
    let count = make.cx().super_clauses(trait_ref.def_id).len();
    for place in 0..count {
        if let Some(own) = make.cx().super_clause(trait_ref, place) {
            let clause = implied(alloc, make, vars, trait_ref.args, own)?;
            push_unlisted(make.cx(), list, clause)?;
        }
    }
    Ok(())
}

/// The reference that a clause says to hold.
fn held_reference(kind: ClauseKind) -> Option<TraitRef>
    ensures { result ≡ held_reference kind }
{
    match kind {
        ClauseKind::Trait(predicate) => match predicate.polarity {
            PredicatePolarity::Positive => Some(predicate.trait_ref),
            PredicatePolarity::Negative => None,
        },
        ClauseKind::Projection(_) => None,
        ClauseKind::TypeOutlives(_, _) => None,
        ClauseKind::RegionOutlives(_, _) => None,
        ClauseKind::AliasRelate(_, _) => None,
        ClauseKind::ConstEquate(_, _) => None,
    }
}

/// Adds what the clause implies, each unless the list has it.
#[tactic(auto, using(crate::proofs::Hierarchy::Saying::said_fits, crate::proofs::Hierarchy::Saying::said_takes, crate::proofs::Hierarchy::Saying::said_implies, crate::proofs::Hierarchy::Saying::unsaid_implies))]
fn push_implied<M: Make>(
    alloc: Global,
    make: &mut M,
    list: &mut IndexSet<Clause>,
    clause: Clause,
) -> Result<(), Stop>
    requires list { ClauseListFits (M.context make.old).trees list.old.keys }
    requires clause { IsClause (M.context make.old).trees clause }
    ensures grows { Grows (M.context make.old) (M.context make.new) }
    ensures rest { M.rest make.new ≡ M.rest make.old }
    ensures sort { IfOk result (λ _. ClauseListFits (M.context make.new).trees list.new.keys) }
    ensures trees { let c = M.context make.old in IfOk result (λ _. AppendsUnlisted c.trees (M.context make.new).trees list.old.keys list.new.keys (implied_by (super_clauses c) (clause_tree c.trees clause))) }
    ensures cause { let c = M.context make.old in IfErr result (λ s. (s ≡ Stop.Memory) ⊎ IsUnmade (length (M.context make.new).trees) (implied_by (super_clauses c) (clause_tree c.trees clause)) s) }
{
    make.cx().recall_well_formed();
    let binder = make.cx().clause(clause);
    match held_reference(binder.value) {
        Some(trait_ref) => push_supers(alloc, make, list, binder.vars, trait_ref),
        None => Ok(()),
    }
}

/// The elaboration of clauses: these, each once, and then all that they imply. The list is walked from
/// its front; for each clause that says that a trait holds, the instances of the trait's super clauses
/// (`implied`) that the list doesn't have are appended, each once. Clauses are equal where their trees are.
///
/// It stops as `implied` does, `Stop::Memory` comes where the list can't grow, too. After a stop the nodes
/// that were made stay. What was seen isn't walked again; whether the list has a clause that is implied is
/// looked up by the clause's number.
pub fn elaborate<M: Make>(
    alloc: Global,
    make: &mut M,
    clauses: &[Clause],
) -> Result<Vec<Clause>, Stop>
    requires { ClauseListFits (M.context make.old).trees clauses.now }
    ensures grows { Grows (M.context make.old) (M.context make.new) }
    ensures rest { M.rest make.new ≡ M.rest make.old }
    ensures sort { IfOk result (λ list. ClauseListFits (M.context make.new).trees list.items) }
    ensures list { let c = M.context make.old in IfOk result (λ list. IsElaboration c (map (clause_tree c.trees) clauses.now) (map (clause_tree (M.context make.new).trees) list.items)) }
    ensures cause { let c = M.context make.old in IfErr result (λ s. IsElaborationStop (super_clauses c) (map (clause_tree c.trees) clauses.now) (length (M.context make.new).trees) s) }
{
    make.cx().recall_supers_fit();
    let mut list = each_once(alloc, make.cx(), clauses)?;
    let mut walked = 0;
    while walked < list.len() {
        let clause = clause_at(&list, walked);
        push_implied(alloc, make, &mut list, clause)?;
        walked += 1;
    }
    Ok(list.as_slice().to_vec(alloc)?)
}

fn is_trait_clause(cx: &Cx, clause: Clause) -> bool
    requires { IsClause cx.now.trees clause }
    ensures { result ≡ is_trait_clause (clause_tree cx.now.trees clause) }
{
    matches!(
        cx.head(clause.0),
        Head::Part(PartHead::Clause(ClauseHead::Trait(_, _)))
    )
}

/// Those of the clauses that say whether a trait holds, in order.
#[tactic(auto, using(crate::proofs::Hierarchy::Choosing::none_chosen, crate::proofs::Hierarchy::Choosing::all_chosen))]
fn trait_clauses(alloc: Global, cx: &Cx, list: &[Clause]) -> Result<Vec<Clause>, AllocError>
    requires { ClauseListFits cx.now.trees list.now }
    ensures fit { IfOk result (λ v. ClauseListFits cx.now.trees v.items) }
    ensures trees { IfOk result (λ v. map (clause_tree cx.now.trees) v.items ≡ supertraits (map (clause_tree cx.now.trees) list.now)) }
{
    let mut chosen = Vec::new(alloc);
    for clause in list {
        if is_trait_clause(cx, *clause) {
            chosen.push(*clause)?;
        }
    }
    Ok(chosen)
}

/// The supertraits of a clause that says that a trait holds: those of its elaboration that say whether a
/// trait holds, in order. It is itself number 0. It stops as `elaborate` does.
#[tactic(auto, using(crate::proofs::Hierarchy::Choosing::are_supertraits, crate::proofs::Hierarchy::Choosing::alone_fits, ir_context::proofs::Hierarchy::Walking::begins_without_memory))]
pub fn supertraits<M: Make>(
    alloc: Global,
    make: &mut M,
    clause: Clause,
) -> Result<Vec<Clause>, Stop>
    requires { IsClause (M.context make.old).trees clause }
    ensures grows { Grows (M.context make.old) (M.context make.new) }
    ensures rest { M.rest make.new ≡ M.rest make.old }
    ensures sort { IfOk result (λ list. ClauseListFits (M.context make.new).trees list.items) }
    ensures list { let c = M.context make.old in IfOk result (λ list. AreSupertraits c (clause_tree c.trees clause) (map (clause_tree (M.context make.new).trees) list.items)) }
    ensures cause { let c = M.context make.old in IfErr result (λ s. IsElaborationStop (super_clauses c) (clause_tree c.trees clause ∷ []) (length (M.context make.new).trees) s) }
{
    let all = elaborate(alloc, make, &[clause])?;
    Ok(trait_clauses(alloc, make.cx(), all.as_slice())?)
}

/// The trait of a clause that says whether one holds.
fn trait_of(cx: &Cx, clause: Clause) -> Option<TraitId>
    requires { IsClause cx.now.trees clause }
    ensures { option_map (λ i. i.0) result ≡ trait_of (clause_tree cx.now.trees clause).head }
{
    match cx.head(clause.0) {
        Head::Part(PartHead::Clause(ClauseHead::Trait(of, _))) => Some(of),
        _ => None,
    }
}

fn lists_trait(ids: &[TraitId], of: TraitId) -> bool
    ensures { result ≡ list_any (λ i. i.0 == of.0) ids.now }
{
    ids.iter().any(|other| other.0 == of.0)
}

/// Adds the trait, unless it is there.
#[tactic(auto, using(crate::proofs::Hierarchy::Numbering::added_number, crate::proofs::Hierarchy::Numbering::left_number))]
fn push_trait(ids: &mut Vec<TraitId>, of: TraitId) -> Result<(), AllocError>
    ensures { IfOk result (λ _. id_numbers ids.new.items ≡ with_number (id_numbers ids.old.items) (Some of.0)) }
{
    if !lists_trait(ids.as_slice(), of) {
        ids.push(of)?;
    }
    Ok(())
}

/// The traits of the clauses, each once, in the order in which they first come.
#[tactic(auto, using(crate::proofs::Hierarchy::Numbering::none_numbered, crate::proofs::Hierarchy::Numbering::all_numbered))]
fn traits_of(alloc: Global, cx: &Cx, list: &[Clause]) -> Result<Vec<TraitId>, AllocError>
    requires { ClauseListFits cx.now.trees list.now }
    ensures { IfOk result (λ v. id_numbers v.items ≡ traits_among [] (map (clause_tree cx.now.trees) list.now)) }
{
    let mut ids = Vec::new(alloc);
    for clause in list {
        if let Some(of) = trait_of(cx, *clause) {
            push_trait(&mut ids, of)?;
        }
    }
    Ok(ids)
}

/// The traits of the supertraits of a clause that says that a trait holds, each once, in the order in which
/// they first come. It stops as `elaborate` does.
#[tactic(auto, using(crate::proofs::Hierarchy::Numbering::are_ids, ir_context::proofs::Hierarchy::Walking::begins_without_memory))]
pub fn supertrait_def_ids<M: Make>(
    alloc: Global,
    make: &mut M,
    clause: Clause,
) -> Result<Vec<TraitId>, Stop>
    requires { IsClause (M.context make.old).trees clause }
    ensures grows { Grows (M.context make.old) (M.context make.new) }
    ensures rest { M.rest make.new ≡ M.rest make.old }
    ensures ids { IfOk result (λ v. AreSupertraitIds (M.context make.old) (clause_tree (M.context make.old).trees clause) (id_numbers v.items)) }
    ensures cause { let c = M.context make.old in IfErr result (λ s. IsElaborationStop (super_clauses c) (clause_tree c.trees clause ∷ []) (length (M.context make.new).trees) s) }
{
    let list = supertraits(alloc, make, clause)?;
    Ok(traits_of(alloc, make.cx(), list.as_slice())?)
}
