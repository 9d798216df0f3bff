//! What an object candidate asks for, besides that its trait reference fits.

ghost use Rattle.std.specs.Prelude.{◌≡◌, IfOk, IfErr, OnOk, All};
ghost use Rattle.ir_trees.specs.Declarations.Context.{world};
ghost use Rattle.ir_trees.specs.Declarations.References.{ArgumentsFit, Takes};
ghost use Rattle.ir_trees.specs.Syntax.Words.{IsArgs, IsParamEnv, IsPreds, IsTy, ClauseFits, ClauseListFits, args_forest, clause_kind_tree, ty_tree};
ghost use Rattle.candidate_eval.specs.Interface.Evaluators.{IsGoal};
ghost use Rattle.candidate_eval.specs.Dynamic.Objects.{with_instance, by_object_stop, if_ambiguous};
ghost use Rattle.candidate_eval.specs.Dynamic.ObjectRequirements.{reference_clause};
ghost use Rattle.candidate_eval.specs.Dynamic.Calls.{AreAskedHere, AreRequirementsHere, AreUnknownHere, fresh_arguments_here, object_here, own_bounds_here};
ghost use Rattle.candidate_eval.specs.Dynamic.Replacing.{clauses_at};
ghost use Rattle.candidate_eval.specs.Interface.Shown.{Keeps, StopsSomehow, view};

use crate::eval::binders::instantiate_clause_with_infer;
use crate::eval::clauses::{goals, predicate_in, self_ty, trait_clause};
use crate::eval::context::EvalCtxt;
use crate::objects::object::AmbiguousOrStop;
use crate::objects::replacing::replaced;
use crate::objects::required::{own_bounds, requirements};
use ir_context::decl::make::Make;
use ir_trees::ir::kinds::{
    Binder, Clause, Goal, ParamEnv, PredicatePolarity, Preds, TraitPredicate, TraitRef, Ty,
};
use ir_trees::ir::stop::Stop;
use std::alloc::Global;

/// The reference with fresh variables in the place of those of its binder.
fn instance<E: EvalCtxt>(
    alloc: Global,
    ecx: &mut E,
    trait_ref: Binder<TraitRef>,
) -> Result<TraitRef, Stop>
    requires fits { ClauseFits (E.context ecx.old).trees (reference_clause trait_ref) }
    requires takes { Takes (world (E.context ecx.old)) (clause_kind_tree (E.context ecx.old).trees (reference_clause trait_ref)) }
    ensures kept { Keeps E.EvalCtxt ecx.old ecx.new }
    ensures state { OnOk result (E.state ecx.new ≡ with_instance (E.state ecx.old) (clause_kind_tree (E.context ecx.old).trees (reference_clause trait_ref))) }
    ensures id { IfOk result (λ r. r.def_id ≡ trait_ref.value.def_id) }
    ensures sort { IfOk result (λ r. IsArgs (E.context ecx.new).trees r.args × ArgumentsFit (E.context ecx.new) r) }
    ensures arguments { IfOk result (λ r. args_forest (E.context ecx.new).trees r.args ≡ fresh_arguments_here (view E.EvalCtxt ecx.old) trait_ref) }
    ensures cause { IfErr result (StopsSomehow E.EvalCtxt ecx.old ecx.new) }
{
    let predicate = TraitPredicate {
        trait_ref: trait_ref.value,
        polarity: PredicatePolarity::Positive,
    };
    let clause = trait_clause(ecx, trait_ref.vars, predicate)?;
    let instance = instantiate_clause_with_infer(alloc, ecx, clause)?;
    match predicate_in(ecx.cx(), instance) {
        Some(predicate) => Ok(predicate.trait_ref),
        None => unreachable!(),
    }
}

/// The object's type, what its own bounds say of it, and what an object of its trait has to fulfil.
#[derive(Drop)]
struct Prepared {
    object: Ty,
    bounds: Vec<Clause>,
    required: Vec<Clause>,
}

/// All this of a reference, of which the binder is instantiated with fresh variables.
fn prepare<E: EvalCtxt>(
    alloc: Global,
    ecx: &mut E,
    trait_ref: Binder<TraitRef>,
    object_bounds: Preds,
) -> Result<Prepared, Stop>
    requires fits { ClauseFits (E.context ecx.old).trees (reference_clause trait_ref) }
    requires takes { Takes (world (E.context ecx.old)) (clause_kind_tree (E.context ecx.old).trees (reference_clause trait_ref)) }
    requires bounds { IsPreds (E.context ecx.old).trees object_bounds }
    ensures kept { Keeps E.EvalCtxt ecx.old ecx.new }
    ensures state { OnOk result (E.state ecx.new ≡ with_instance (E.state ecx.old) (clause_kind_tree (E.context ecx.old).trees (reference_clause trait_ref))) }
    ensures sort { let W = view E.EvalCtxt ecx.new in IfOk result (λ p. IsTy W.trees p.object × ClauseListFits W.trees p.bounds.items × ClauseListFits W.trees p.required.items) }
    ensures object { IfOk result (λ p. ty_tree (E.context ecx.new).trees p.object ≡ object_here (view E.EvalCtxt ecx.old) trait_ref) }
    ensures bounds { let V = view E.EvalCtxt ecx.old in IfOk result (λ p. clauses_at (E.context ecx.new).trees p.bounds.items ≡ own_bounds_here V trait_ref object_bounds) }
    ensures required { let V = view E.EvalCtxt ecx.old in let W = view E.EvalCtxt ecx.new in IfOk result (λ p. AreRequirementsHere V W trait_ref p.required.items) }
    ensures cause { IfErr result (StopsSomehow E.EvalCtxt ecx.old ecx.new) }
{
    ecx.cx().recall_well_formed_table();
    let reference = instance(alloc, ecx, trait_ref)?;
    let object = self_ty(ecx.cx(), reference);
    let bounds = own_bounds(alloc, ecx, object, object_bounds)?;
    let required = requirements(alloc, ecx, reference)?;
    ecx.cx().recall_well_formed();
    Ok(Prepared {
        object,
        bounds,
        required,
    })
}

/// What an object candidate asks for, besides that its trait reference fits: what an object of the trait has to fulfil, in order,
/// as goals in the environment.
///
/// The reference's binder is instantiated with fresh variables. Required are the elaboration of the trait's super clauses and then
/// the bounds of its associated types, but of those that require `Self: Sized` (`requirements`). In these each projection whose
/// self type is the object's is replaced, where the object's type has a bound about the same associated type: by the term of the
/// only such bound that matches it, of which an instance is equated with the projection (`pick_bound`). The goals that these
/// equations leave are pending then, before the goals that are answered.
///
/// `Ambiguous` comes where none or two or more of the bounds match a projection, or where the equation of the only one is refused.
/// `Stop::Memory` comes where a growth was refused; other stops are the evaluator's, and those of making nodes. After an error
/// variables that were made and equations that were made before stay.
pub fn predicates_for_object_candidate<E: EvalCtxt>(
    alloc: Global,
    ecx: &mut E,
    env: ParamEnv,
    trait_ref: Binder<TraitRef>,
    object_bounds: Preds,
) -> Result<Vec<Goal<Clause>>, AmbiguousOrStop>
    requires env { IsParamEnv (E.context ecx.old).trees env }
    requires fits { ClauseFits (E.context ecx.old).trees (reference_clause trait_ref) }
    requires takes { Takes (world (E.context ecx.old)) (clause_kind_tree (E.context ecx.old).trees (reference_clause trait_ref)) }
    requires bounds { IsPreds (E.context ecx.old).trees object_bounds }
    ensures kept { Keeps E.EvalCtxt ecx.old ecx.new }
    ensures sort { IfOk result (λ v. All (IsGoal (E.context ecx.new).trees) v.items) }
    ensures asked { let V = view E.EvalCtxt ecx.old in let W = view E.EvalCtxt ecx.new in IfOk result (λ v. AreAskedHere V W env trait_ref object_bounds v.items) }
    ensures ambiguous { let V = view E.EvalCtxt ecx.old in let W = view E.EvalCtxt ecx.new in IfErr result (if_ambiguous (AreUnknownHere V W env trait_ref object_bounds)) }
    ensures cause { IfErr result (by_object_stop (StopsSomehow E.EvalCtxt ecx.old ecx.new)) }
{
    let prepared = prepare(alloc, ecx, trait_ref, object_bounds)?;
    let (bounds, required) = (prepared.bounds.as_slice(), prepared.required.as_slice());
    let clauses = replaced(alloc, ecx, env, prepared.object, bounds, required)?;
    Ok(goals(alloc, env, clauses.as_slice())?)
}
