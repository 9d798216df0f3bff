//! Any type to `dyn`: it meets the bounds, is sized and outlives the region.

ghost use Rattle.std.specs.Prelude.{◌≡◌, [], Some, false, map, IfErr, IfOk};
ghost use Rattle.ir_trees.specs.Declarations.Context.{Grows, world};
ghost use Rattle.ir_trees.specs.Syntax.Trees.{is_param, tree_holds};
ghost use Rattle.ir_trees.specs.Syntax.Words.{IsClause, IsPreds, IsRegion, IsTy, clause_tree, env_forest, preds_forest, region_tree, ty_tree};
ghost use Rattle.ir_trees.specs.Declarations.Worlds.{TraitSort, parameters};
ghost use Rattle.ir_trees.specs.declared.ir.heads.ClauseHead.TheVariants as Cl;
ghost use Rattle.ir_trees.specs.declared.ir.heads.Head.TheVariants as H;
ghost use Rattle.candidate_eval.specs.Interface.Unmade.{IsUnmade};
ghost use Rattle.candidate_eval.specs.Dynamic.Required.{each_of};
ghost use Rattle.candidate_eval.specs.Outcomes.ResponseTrees.{AreCandidates};
ghost use Rattle.candidate_eval.specs.Derivations.Rules.{nested};
ghost use Rattle.candidate_eval.specs.Interface.Shown.{view};
ghost use Rattle.candidate_assembly.specs.Rules.BuiltinRules.{self_of};
ghost use Rattle.candidate_assembly.specs.Rules.DynBounds.{bound_said};
ghost use Rattle.candidate_assembly.specs.Rules.Requirements.{RequirementsFit, requirement_steps, requiring_rule};
ghost use Rattle.candidate_assembly.specs.Goals.Standing.{BothAreValid};
ghost use Rattle.candidate_assembly.specs.Goals.TraitGoals.{trait_goal};
ghost use Rattle.candidate_assembly.specs.Goals.TraitRules.{trait_rules};
ghost use Rattle.candidate_assembly.specs.Rules.Unsizing.{dyn_steps, outlives};
ghost use Rattle.candidate_assembly.specs.Answers.Shown.{Appends, Considers};
ghost use Rattle.candidate_assembly.specs.Goals.KindShown.{IsGoal, trait_kind};
ghost use Rattle.candidate_assembly.specs.Calls.Seen.{rules_to_dyn};

use crate::assembly::dyn_bounds::{bound_clause, dyn_parts, is_dyn_compatible};
use crate::assembly::listing::push_considered;
use crate::assembly::matching::consider_requirements;
use crate::trait_goals::meeting::{meets_trait, recall_item_has_no_parameters};
use candidate_eval::eval::clauses::self_ty;
use candidate_eval::eval::context::EvalCtxt;
use candidate_eval::eval::refusal::NoSolutionOrStop;
use candidate_eval::eval::response::Candidate;
use ir_context::decl::make::{Build, Make};
use ir_trees::decl::contents::LangItem;
use ir_trees::ir::kinds::{
    Binder, Clause, ClauseKind, GoalSource, ParamEnv, Preds, Region, TraitId, TraitPredicate, Ty,
};
use ir_trees::ir::stop::Stop;
use ir_trees::ir::trees::Trees;
use std::alloc::Global;

/// What the bounds say of the type, in their order, as requirements. `Stop::Memory` comes where a growth was refused, `Stop::NodesFull` where
/// a node was not made.
fn bound_requirements<M: Make>(
    alloc: Global,
    make: &mut M,
    ty: Ty,
    bounds: Preds,
) -> Result<Vec<(GoalSource, Clause)>, Stop>
    requires ty { IsTy (M.context make.old).trees ty }
    requires bounds { IsPreds (M.context make.old).trees bounds }
    ensures grows { Grows (M.context make.old) (M.context make.new) }
    ensures rest { M.rest make.new ≡ M.rest make.old }
    ensures fit { IfOk result (λ v. RequirementsFit (M.context make.new).trees v.items) }
    ensures steps { let ts = (M.context make.old).trees in IfOk result (λ v. requirement_steps (M.context make.new).trees v.items ≡ nested (map (bound_said (ty_tree ts ty)) (each_of (preds_forest ts bounds)))) }
    ensures cause { IfErr result (IsUnmade (M.context make.old) (M.context make.new)) }
{
    let listed = Vec::from_slice(alloc, make.cx().preds(bounds))?;
    let mut requirements = Vec::new(alloc);
    for bound in &listed {
        let clause = bound_clause(alloc, make, ty, *bound)?;
        requirements.push((GoalSource::ImplWhereBound, clause))?;
    }
    Ok(requirements)
}

/// That the type outlives the region, as a clause under an empty binder. `Stop::Memory` comes where a growth was refused, `Stop::NodesFull`
/// where a node was not made.
fn outlives<M: Make>(make: &mut M, ty: Ty, region: Region) -> Result<Clause, Stop>
    requires ty { IsTy (M.context make.old).trees ty }
    requires region { IsRegion (M.context make.old).trees region }
    ensures grows { Grows (M.context make.old) (M.context make.new) }
    ensures rest { M.rest make.new ≡ M.rest make.old }
    ensures sort { IfOk result (λ x. IsClause (M.context make.new).trees x) }
    ensures tree { let ts = (M.context make.old).trees in IfOk result (λ x. clause_tree (M.context make.new).trees x ≡ outlives Cl.TypeOutlives (ty_tree ts ty) (region_tree ts region)) }
    ensures cause { IfErr result (IsUnmade (M.context make.old) (M.context make.new)) }
{
    let vars = make.mk_vars(&[])?;
    make.mk_clause(Binder {
        vars,
        value: ClauseKind::TypeOutlives(ty, region),
    })
}

/// What the type has to fulfil so as to become the target, a `dyn` type: each of the bounds, in their order, that it is sized, and that it
/// outlives the region. It stops as `bound_requirements`.
fn dyn_requirements<M: Make>(
    alloc: Global,
    make: &mut M,
    ty: Ty,
    target: Ty,
    sized: TraitId,
) -> Result<Vec<(GoalSource, Clause)>, Stop>
    requires ty { IsTy (M.context make.old).trees ty }
    requires target { IsTy (M.context make.old).trees target }
    requires dynamic { (ty_tree (M.context make.old).trees target).head ≡ H.Dynamic }
    requires sized { parameters (world (M.context make.old)) TraitSort sized.0 ≡ Some [] }
    ensures grows { Grows (M.context make.old) (M.context make.new) }
    ensures rest { M.rest make.new ≡ M.rest make.old }
    ensures fit { IfOk result (λ v. RequirementsFit (M.context make.new).trees v.items) }
    ensures steps { let ts = (M.context make.old).trees in IfOk result (λ v. requirement_steps (M.context make.new).trees v.items ≡ dyn_steps sized (ty_tree ts ty) (ty_tree ts target)) }
    ensures cause { IfErr result (IsUnmade (M.context make.old) (M.context make.new)) }
{
    let (bounds, region) = dyn_parts(make.cx(), target);
    let mut requirements = bound_requirements(alloc, make, ty, bounds)?;
    let is_sized = meets_trait(make, sized, ty)?;
    let lives = outlives(make, ty, region)?;
    requirements.push((GoalSource::ImplWhereBound, is_sized))?;
    requirements.push((GoalSource::Misc, lives))?;
    Ok(requirements)
}

/// The candidate where the goal's self type unsizes to the target, a `dyn` type of which objects may be made. The trait is `Sized`.
///
/// `NoSolution` comes where the evaluator refuses; the stops are those of making nodes and lists, and the evaluator's. The state is left
/// alike the one before.
fn consider_dyn<E: EvalCtxt>(
    alloc: Global,
    ecx: &mut E,
    env: ParamEnv,
    predicate: TraitPredicate,
    target: Ty,
    sized: TraitId,
) -> Result<Candidate, NoSolutionOrStop>
    requires goal { IsGoal trait_kind (E.context ecx.old) env predicate }
    requires target { IsTy (E.context ecx.old).trees target }
    requires free { tree_holds is_param (ty_tree (E.context ecx.old).trees target) ≡ false }
    requires dynamic { (ty_tree (E.context ecx.old).trees target).head ≡ H.Dynamic }
    requires sized { parameters (world (E.context ecx.old)) TraitSort sized.0 ≡ Some [] }
    ensures { Considers E.EvalCtxt ecx.old ecx.new (λ V. requiring_rule (env_forest V.trees env) (dyn_steps sized (self_of (trait_goal V.trees env predicate)) (ty_tree V.trees target))) result }
{
    let ty = self_ty(ecx.cx(), predicate.trait_ref);
    let requirements = dyn_requirements(alloc, ecx, ty, target, sized)?;
    consider_requirements(ecx, env, requirements.as_slice())
}

/// Adds the candidate where the goal's self type unsizes to the target, a `dyn` type in normal form: it meets the bounds, is sized and
/// outlives the region. Nothing is added where `Sized` isn't declared or no object of the principal's trait may be made.
///
/// The stops are those of making nodes and lists, and the evaluator's. The state is left alike the one before.
pub(crate) fn unsize_to_dyn<E: EvalCtxt>(
    alloc: Global,
    ecx: &mut E,
    env: ParamEnv,
    predicate: TraitPredicate,
    target: Ty,
    candidates: &mut Vec<Candidate>,
) -> Result<(), Stop>
    requires goal { IsGoal trait_kind (E.context ecx.old) env predicate }
    requires target { IsTy (E.context ecx.old).trees target }
    requires stands { let V = view E.EvalCtxt ecx.old in BothAreValid trait_rules V.state (trait_goal V.trees env predicate) (ty_tree V.trees target) }
    requires dynamic { (ty_tree (E.context ecx.old).trees target).head ≡ H.Dynamic }
    requires candidates { AreCandidates (E.context ecx.old).trees candidates.old.items }
    ensures { Appends E.EvalCtxt ecx.old ecx.new candidates.old.items candidates.new.items (λ V. rules_to_dyn V env predicate target) result }
{
    recall_item_has_no_parameters(ecx.cx(), LangItem::Sized);
    let Some(sized) = ecx.cx().lang_item(LangItem::Sized) else {
        return Ok(());
    };
    if !is_dyn_compatible(ecx.cx(), target) {
        return Ok(());
    }
    let answer = consider_dyn(alloc, ecx, env, predicate, target, sized);
    push_considered(candidates, answer)
}
