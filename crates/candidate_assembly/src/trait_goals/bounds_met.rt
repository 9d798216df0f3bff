//! How the bounds of a `dyn` type are met by those of another: a bound by one of the source's own, or by a supertrait of its principal.

ghost use Rattle.std.specs.Prelude.{◌≡◌, All, false, true, length, map, None, Some, IfErr, IfOk, IfSome, MatchOption, OnOk, option_map};
ghost use Rattle.std.specs.List.{filter, list_any};
ghost use Rattle.ir_trees.specs.Declarations.Context.{Grows};
ghost use Rattle.ir_trees.specs.Hierarchy.Elaboration.{number_listed};
ghost use Rattle.ir_trees.specs.Unification.Substitutions.{alone};
ghost use Rattle.ir_trees.specs.Hierarchy.Supers.{after_first};
ghost use Rattle.ir_trees.specs.Syntax.Trees.{join};
ghost use Rattle.ir_trees.specs.Syntax.Words.{IsArgs, IsClause, IsParamEnv, IsPred, IsTy, IsVars, args_forest, clause_tree, env_forest, pred_tree, ty_tree};
ghost use Rattle.candidate_eval.specs.Interface.Accounts.{by_stop, if_refused};
ghost use Rattle.candidate_eval.specs.Interface.Evaluators.{HasTrees};
ghost use Rattle.candidate_eval.specs.Interface.Unmade.{IsUnmade};
ghost use Rattle.candidate_eval.specs.Derivations.Mentions.{IsBelow};
ghost use Rattle.candidate_eval.specs.Judges.States.{is_some};
ghost use Rattle.candidate_eval.specs.Interface.Shown.{Keeps, LeavesAlike, StopsSomehow, view};
ghost use Rattle.candidate_assembly.specs.Rules.BuiltinRules.{flag_of_trait, is_of_trait};
ghost use Rattle.candidate_assembly.specs.Rules.DynBounds.{projects, trait_of_bound};
ghost use Rattle.candidate_assembly.specs.Rules.Unsizing.{autos, principal_met, projection_met};
ghost use Rattle.candidate_assembly.specs.Calls.Upcasting.{IsReferenceOf, IsRow, IsRowOf, IsRuleClause, IsRulePred, is_principal_of, meets_projection, names_auto, reference_row, rest_of, row_at, row_under, rows_met, rows_state, source_trees, target_trees};
ghost use Rattle.candidate_assembly.specs.Calls.Seen.{AreMet, IsMet, all_met_by, met_by, bounds_equated};

use crate::trait_goals::auto_traits::is_of_trait;
use candidate_eval::eval::binders::{enter_binder, instantiate_binder_with_infer};
use candidate_eval::eval::context::{EvalCtxt, ProbeKind};
use candidate_eval::eval::refusal::NoSolutionOrStop;
use ir_context::decl::Cx;
use ir_context::decl::make::{Build, Make};
use ir_trees::ir::kinds::{
    Args, AssocId, Binder, Clause, ClauseKind, ExistentialPredicate, GenericArg, ParamEnv, Pred,
    TraitId, TraitRef, Ty,
};
use ir_trees::ir::stop::Stop;
use ir_trees::ir::trees::Trees;
use std::alloc::Global;

/// How a bound of the target is met.
#[derive(Clone, Copy, Debug, PartialEq, Eq)]
pub(crate) enum Meeting {
    /// In one way.
    Surely,
    /// In several ways, of which none is picked.
    Ambiguously,
}

/// The arguments, and a type after them.
///
/// `Stop::Memory` comes where a growth was refused, `Stop::NodesFull` where the list was not made, as by `mk_args`.
fn with_term<M: Make>(alloc: Global, make: &mut M, args: Args, term: Ty) -> Result<Args, Stop>
    requires args { IsArgs (M.context make.old).trees args }
    requires term { IsTy (M.context make.old).trees term }
    ensures grows { Grows (M.context make.old) (M.context make.new) }
    ensures rest { M.rest make.new ≡ M.rest make.old }
    ensures sort { IfOk result (λ a. IsArgs (M.context make.new).trees a) }
    ensures trees { let ts = (M.context make.old).trees in IfOk result (λ a. args_forest (M.context make.new).trees a ≡ join (args_forest ts args) (alone (ty_tree ts term))) }
    ensures cause { IfErr result (IsUnmade (M.context make.old) (M.context make.new)) }
{
    let mut list = Vec::from_slice(alloc, make.cx().args(args))?;
    list.push(GenericArg::Ty(term))?;
    make.mk_args(list.as_slice())
}

/// The arguments of the bound and, where it says what an associated type is, that type after them; under the bound's binder. It stops as
/// `with_term` does.
fn bound_row<M: Make>(alloc: Global, make: &mut M, bound: Pred) -> Result<Binder<Args>, Stop>
    requires { IsPred (M.context make.old).trees bound }
    ensures grows { Grows (M.context make.old) (M.context make.new) }
    ensures rest { M.rest make.new ≡ M.rest make.old }
    ensures sort { IfOk result (λ r. IsRow (M.context make.new).trees r) }
    ensures row { IfOk result (λ r. row_at (M.context make.new).trees r ≡ row_under (pred_tree (M.context make.old).trees bound)) }
    ensures cause { IfErr result (IsUnmade (M.context make.old) (M.context make.new)) }
{
    let bound = make.cx().pred(bound);
    let value = match bound.value {
        ExistentialPredicate::Trait(reference) => reference.args,
        ExistentialPredicate::Projection(said) => with_term(alloc, make, said.args, said.term)?,
        ExistentialPredicate::AutoTrait(_) => make.mk_args(&[])?,
    };
    Ok(Binder {
        vars: bound.vars,
        value,
    })
}

/// The arguments but for the first. It stops as `with_term` does.
fn without_self<M: Make>(alloc: Global, make: &mut M, args: Args) -> Result<Args, Stop>
    requires { IsArgs (M.context make.old).trees args }
    ensures grows { Grows (M.context make.old) (M.context make.new) }
    ensures rest { M.rest make.new ≡ M.rest make.old }
    ensures sort { IfOk result (λ a. IsArgs (M.context make.new).trees a) }
    ensures trees { IfOk result (λ a. args_forest (M.context make.new).trees a ≡ after_first (args_forest (M.context make.old).trees args)) }
    ensures cause { IfErr result (IsUnmade (M.context make.old) (M.context make.new)) }
{
    let list = Vec::from_slice(alloc, make.cx().args(args))?;
    match list.as_slice() {
        [_, rest @ ..] => make.mk_args(rest),
        [] => Ok(args),
    }
}

/// The principal's reference under its clause's binder, where it is of that trait.
fn principal_of(cx: &Cx, principal: Option<Clause>, of: TraitId) -> Option<Binder<TraitRef>>
    requires { IfSome principal (IsClause cx.now.trees) }
    ensures { let ts = cx.now.trees in MatchOption result (is_principal_of of.0 (option_map (clause_tree ts) principal) ≡ false) (λ r. IsReferenceOf ts r of.0 (option_map (clause_tree ts) principal)) }
{
    let clause = cx.clause(principal?);
    match clause.value {
        ClauseKind::Trait(predicate) if predicate.trait_ref.def_id.0 == of.0 => Some(Binder {
            vars: clause.vars,
            value: predicate.trait_ref,
        }),
        _ => None,
    }
}

/// The row of the source with fresh variables in the place of its binder's, after that of the target with placeholders of a fresh
/// universe in the place of its own.
///
/// It stops as `enter_binder` does; after a stop what was made stays.
fn open_rows<E: EvalCtxt>(
    alloc: Global,
    ecx: &mut E,
    source: Binder<Args>,
    target: Binder<Args>,
) -> Result<(Args, Args), Stop>
    requires source { IsRow (E.context ecx.old).trees source }
    requires target { IsRow (E.context ecx.old).trees target }
    ensures kept { Keeps E.EvalCtxt ecx.old ecx.new }
    ensures state { let V = view E.EvalCtxt ecx.old in OnOk result (E.state ecx.new ≡ rows_state V.state (row_at V.trees source) (row_at V.trees target)) }
    ensures source { let V = view E.EvalCtxt ecx.old in let W = view E.EvalCtxt ecx.new in IfOk result (λ r. HasTrees W.trees r.0 (source_trees V.state (row_at V.trees source) (row_at V.trees target))) }
    ensures target { let W = view E.EvalCtxt ecx.new in IfOk result (λ r. IsArgs W.trees r.1 × (args_forest W.trees r.1 ≡ target_trees (E.state ecx.old) (row_at (E.context ecx.old).trees target))) }
    ensures cause { IfErr result (StopsSomehow E.EvalCtxt ecx.old ecx.new) }
{
    let entered = enter_binder(alloc, ecx, target)?;
    let instance = instantiate_binder_with_infer(alloc, ecx, source)?;
    Ok((instance, entered))
}

/// Equates the row of the source, with fresh variables for its binder's, and that of the target, with placeholders for its own; and
/// evaluates what is pending.
///
/// `NoSolution` comes where the rows can't be equated, and where what is pending is refused; the stops are those of `open_rows`, and the
/// evaluator's. After an error variables and equations that were made stay.
fn equate_rows<E: EvalCtxt>(
    alloc: Global,
    ecx: &mut E,
    env: ParamEnv,
    source: Binder<Args>,
    target: Binder<Args>,
) -> Result<(), NoSolutionOrStop>
    requires env { IsParamEnv (E.context ecx.old).trees env }
    requires source { IsRow (E.context ecx.old).trees source }
    requires target { IsRow (E.context ecx.old).trees target }
    ensures kept { Keeps E.EvalCtxt ecx.old ecx.new }
    ensures ok { let V = view E.EvalCtxt ecx.old in IfOk result (λ _. rows_met V.judge (env_forest V.trees env) V.state (row_at V.trees source) (row_at V.trees target) ≡ Some (E.state ecx.new)) }
    ensures refused { let V = view E.EvalCtxt ecx.old in IfErr result (if_refused (rows_met V.judge (env_forest V.trees env) V.state (row_at V.trees source) (row_at V.trees target) ≡ None)) }
    ensures cause { IfErr result (by_stop (StopsSomehow E.EvalCtxt ecx.old ecx.new)) }
{
    let (instance, entered) = open_rows(alloc, ecx, source, target)?;
    ecx.eq_args(env, instance, entered)?;
    let _certainty = ecx.try_evaluate_added_goals()?;
    Ok(())
}

/// The rows of two bounds. It stops as `with_term` does.
fn bound_rows<M: Make>(
    alloc: Global,
    make: &mut M,
    source: Pred,
    target: Pred,
) -> Result<(Binder<Args>, Binder<Args>), Stop>
    requires source { IsPred (M.context make.old).trees source }
    requires target { IsPred (M.context make.old).trees target }
    ensures grows { Grows (M.context make.old) (M.context make.new) }
    ensures rest { M.rest make.new ≡ M.rest make.old }
    ensures source { IfOk result (λ r. IsRowOf (M.context make.new).trees r.0 (row_under (pred_tree (M.context make.old).trees source))) }
    ensures target { IfOk result (λ r. IsRowOf (M.context make.new).trees r.1 (row_under (pred_tree (M.context make.old).trees target))) }
    ensures cause { IfErr result (IsUnmade (M.context make.old) (M.context make.new)) }
{
    let source = bound_row(alloc, make, source)?;
    let target = bound_row(alloc, make, target)?;
    Ok((source, target))
}

/// The row of a principal, without its self type, and that of a bound. It stops as `with_term` does.
fn principal_rows<M: Make>(
    alloc: Global,
    make: &mut M,
    principal: Binder<TraitRef>,
    target: Pred,
) -> Result<(Binder<Args>, Binder<Args>), Stop>
    requires vars { IsVars (M.context make.old).trees principal.vars }
    requires args { IsArgs (M.context make.old).trees principal.value.args }
    requires target { IsPred (M.context make.old).trees target }
    ensures grows { Grows (M.context make.old) (M.context make.new) }
    ensures rest { M.rest make.new ≡ M.rest make.old }
    ensures source { IfOk result (λ r. IsRowOf (M.context make.new).trees r.0 (rest_of (reference_row (M.context make.old).trees principal))) }
    ensures target { IfOk result (λ r. IsRowOf (M.context make.new).trees r.1 (row_under (pred_tree (M.context make.old).trees target))) }
    ensures cause { IfErr result (IsUnmade (M.context make.old) (M.context make.new)) }
{
    let value = without_self(alloc, make, principal.value.args)?;
    let target = bound_row(alloc, make, target)?;
    let vars = principal.vars;
    Ok((Binder { vars, value }, target))
}

/// Equates the rows of two bounds, and evaluates what is pending; as `equate_rows`.
fn equate_bounds<E: EvalCtxt>(
    alloc: Global,
    ecx: &mut E,
    env: ParamEnv,
    source: Pred,
    target: Pred,
) -> Result<(), NoSolutionOrStop>
    requires env { IsParamEnv (E.context ecx.old).trees env }
    requires source { IsPred (E.context ecx.old).trees source }
    requires target { IsPred (E.context ecx.old).trees target }
    ensures kept { Keeps E.EvalCtxt ecx.old ecx.new }
    ensures ok { let V = view E.EvalCtxt ecx.old in IfOk result (λ _. bounds_equated V env source target ≡ Some (E.state ecx.new)) }
    ensures refused { let V = view E.EvalCtxt ecx.old in IfErr result (if_refused (rows_met V.judge (env_forest V.trees env) V.state (row_under (pred_tree V.trees source)) (row_under (pred_tree V.trees target)) ≡ None)) }
    ensures cause { IfErr result (by_stop (StopsSomehow E.EvalCtxt ecx.old ecx.new)) }
{
    let (source, target) = bound_rows(alloc, ecx, source, target)?;
    equate_rows(alloc, ecx, env, source, target)
}

/// Whether the rows of two bounds can be equated, and what is pending then isn't refused: by a probe. It stops as `equate_bounds` does.
fn bounds_meet<E: EvalCtxt>(
    alloc: Global,
    ecx: &mut E,
    env: ParamEnv,
    source: Pred,
    target: Pred,
) -> Result<bool, Stop>
    requires env { IsParamEnv (E.context ecx.old).trees env }
    requires source { IsPred (E.context ecx.old).trees source }
    requires target { IsPred (E.context ecx.old).trees target }
    ensures kept { Keeps E.EvalCtxt ecx.old ecx.new }
    ensures alike { LeavesAlike E.EvalCtxt ecx.old ecx.new }
    ensures answer { let V = view E.EvalCtxt ecx.old in IfOk result (λ b. is_some (rows_met V.judge (env_forest V.trees env) V.state (row_under (pred_tree V.trees source)) (row_under (pred_tree V.trees target))) ≡ b) }
    ensures cause { IfErr result (StopsSomehow E.EvalCtxt ecx.old ecx.new) }
{
    let probe = ecx.begin_probe(ProbeKind::Kept)?;
    let answer = equate_bounds(alloc, ecx, env, source, target);
    let _usages = ecx.end_probe(probe);
    match answer {
        Ok(()) => Ok(true),
        Err(NoSolutionOrStop::NoSolution) => Ok(false),
        Err(NoSolutionOrStop::Stop(stop)) => Err(stop),
    }
}

/// Whether the bound says which type that associated type is.
fn projects(cx: &Cx, bound: Pred, item: AssocId) -> bool
    requires { IsPred cx.now.trees bound }
    ensures { result ≡ projects item.0 (pred_tree cx.now.trees bound).head }
{
    match cx.pred(bound).value {
        ExistentialPredicate::Projection(said) => said.def_id.0 == item.0,
        _ => false,
    }
}

/// Those of the source's bounds that are about the associated type and whose rows meet that of the target's bound, in their order; each is
/// tried in a probe. It stops as `bounds_meet` does, and `Stop::Memory` comes where the list can't grow.
fn matching_bounds<E: EvalCtxt>(
    alloc: Global,
    ecx: &mut E,
    env: ParamEnv,
    sources: &[Pred],
    item: AssocId,
    target: Pred,
) -> Result<Vec<Pred>, Stop>
    requires env { IsParamEnv (E.context ecx.old).trees env }
    requires env_below { IsBelow (length (E.state ecx.old).variables) (env_forest (E.context ecx.old).trees env) }
    requires sources { All (IsRulePred (E.context ecx.old).trees (length (E.state ecx.old).variables)) sources.now }
    requires target { IsRulePred (E.context ecx.old).trees (length (E.state ecx.old).variables) target }
    ensures kept { Keeps E.EvalCtxt ecx.old ecx.new }
    ensures alike { LeavesAlike E.EvalCtxt ecx.old ecx.new }
    ensures found { let V = view E.EvalCtxt ecx.old in let t = pred_tree V.trees in IfOk result (λ v. v.items ≡ filter (λ p. meets_projection V.judge (env_forest V.trees env) V.state item.0 (t target) (t p)) sources.now) }
    ensures cause { IfErr result (StopsSomehow E.EvalCtxt ecx.old ecx.new) }
{
    let mut found = Vec::new(alloc);
    for source in sources {
        if !projects(ecx.cx(), *source, item) {
            continue;
        }
        if bounds_meet(alloc, ecx, env, *source, target)? {
            found.push(*source)?;
        }
    }
    Ok(found)
}

/// A bound of the target that says which type an associated type is: the only bound of the source that matches it is equated with it, and
/// what is pending is evaluated.
///
/// `NoSolution` comes where none matches, and where the only one is refused then; it stops as `matching_bounds` does. After an error
/// variables and equations that were made stay.
fn meet_projection<E: EvalCtxt>(
    alloc: Global,
    ecx: &mut E,
    env: ParamEnv,
    sources: &[Pred],
    item: AssocId,
    target: Pred,
) -> Result<Meeting, NoSolutionOrStop>
    requires env { IsParamEnv (E.context ecx.old).trees env }
    requires env_below { IsBelow (length (E.state ecx.old).variables) (env_forest (E.context ecx.old).trees env) }
    requires sources { All (IsRulePred (E.context ecx.old).trees (length (E.state ecx.old).variables)) sources.now }
    requires target { IsRulePred (E.context ecx.old).trees (length (E.state ecx.old).variables) target }
    ensures kept { Keeps E.EvalCtxt ecx.old ecx.new }
    ensures met { let V = view E.EvalCtxt ecx.old in IsMet V env (E.state ecx.new) (λ n. projection_met n item.0 (map (pred_tree V.trees) sources.now) (pred_tree V.trees target)) result }
    ensures cause { IfErr result (by_stop (StopsSomehow E.EvalCtxt ecx.old ecx.new)) }
{
    let found = matching_bounds(alloc, ecx, env, sources, item, target)?;
    match found.as_slice() {
        [] => Err(NoSolutionOrStop::NoSolution),
        [only] => {
            equate_bounds(alloc, ecx, env, *only, target)?;
            Ok(Meeting::Surely)
        }
        _ => Ok(Meeting::Ambiguously),
    }
}

/// The target's principal: the source's is equated with it, if it is of the same trait, and what is pending is evaluated.
///
/// `NoSolution` comes where it is of another trait, where they can't be equated, and where what is pending is refused; the stops are those
/// of `equate_rows`. After an error variables and equations that were made stay.
fn meet_principal<E: EvalCtxt>(
    alloc: Global,
    ecx: &mut E,
    env: ParamEnv,
    principal: Option<Clause>,
    of: TraitId,
    target: Pred,
) -> Result<Meeting, NoSolutionOrStop>
    requires env { IsParamEnv (E.context ecx.old).trees env }
    requires principal { IfSome principal (IsRuleClause (E.context ecx.old).trees (length (E.state ecx.old).variables)) }
    requires target { IsRulePred (E.context ecx.old).trees (length (E.state ecx.old).variables) target }
    requires of { trait_of_bound (pred_tree (E.context ecx.old).trees target).head ≡ Some of.0 }
    ensures kept { Keeps E.EvalCtxt ecx.old ecx.new }
    ensures met { let V = view E.EvalCtxt ecx.old in IsMet V env (E.state ecx.new) (λ n. principal_met n (option_map (clause_tree V.trees) principal) (pred_tree V.trees target)) result }
    ensures cause { IfErr result (by_stop (StopsSomehow E.EvalCtxt ecx.old ecx.new)) }
{
    let Some(principal) = principal_of(ecx.cx(), principal, of) else {
        return Err(NoSolutionOrStop::NoSolution);
    };
    let (source, target) = principal_rows(alloc, ecx, principal, target)?;
    equate_rows(alloc, ecx, env, source, target)?;
    Ok(Meeting::Surely)
}

/// Whether the bound names that auto trait.
fn names_auto_trait(cx: &Cx, bound: Pred, of: TraitId) -> bool
    requires { IsPred cx.now.trees bound }
    ensures { result ≡ names_auto of.0 (pred_tree cx.now.trees bound) }
{
    match cx.pred(bound).value {
        ExistentialPredicate::AutoTrait(named) => named.0 == of.0,
        _ => false,
    }
}

/// Whether one of the bounds names that auto trait.
pub(crate) fn is_auto_bound(cx: &Cx, bounds: &[Pred], of: TraitId) -> bool
    requires { All (IsPred cx.now.trees) bounds.now }
    ensures { result ≡ list_any (λ p. names_auto of.0 (pred_tree cx.now.trees p)) bounds.now }
{
    for bound in bounds {
        if names_auto_trait(cx, *bound, of) {
            return true;
        }
    }
    false
}

/// Whether one of the clauses speaks of that trait.
fn is_supertrait(cx: &Cx, supers: &[Clause], of: TraitId) -> bool
    requires { All (IsClause cx.now.trees) supers.now }
    ensures { result ≡ list_any (λ x. is_of_trait of.0 (clause_tree cx.now.trees x).head) supers.now }
{
    for clause in supers {
        if is_of_trait(cx, *clause, of) {
            return true;
        }
    }
    false
}

/// Whether the trait is declared as an auto trait.
fn is_auto_trait(cx: &Cx, of: TraitId) -> bool
    ensures { result ≡ flag_of_trait (λ f. f.auto) cx.now of.0 }
{
    match cx.trait_flags(of) {
        Some(flags) => flags.auto,
        None => false,
    }
}

/// Whether the source has the auto trait: one of its own bounds names it, or it is a supertrait of its principal.
fn has_auto_trait(cx: &Cx, sources: &[Pred], supers: &[Clause], of: TraitId) -> bool
    requires sources { All (IsPred cx.now.trees) sources.now }
    requires supers { All (IsClause cx.now.trees) supers.now }
    ensures { result ≡ number_listed (autos cx.now (map (clause_tree cx.now.trees) supers.now) (map (pred_tree cx.now.trees) sources.now)) of.0 }
{
    is_auto_bound(cx, sources, of) || is_auto_trait(cx, of) && is_supertrait(cx, supers, of)
}

/// One bound of the target, where the source has these bounds and its principal these supertraits, of which one is taken for the principal.
///
/// `NoSolution` comes where it isn't met; the stops are those of `meet_projection` and `meet_principal`. After an error variables and
/// equations that were made stay.
fn meet_bound<E: EvalCtxt>(
    alloc: Global,
    ecx: &mut E,
    env: ParamEnv,
    sources: &[Pred],
    supers: &[Clause],
    principal: Option<Clause>,
    target: Pred,
) -> Result<Meeting, NoSolutionOrStop>
    requires env { IsParamEnv (E.context ecx.old).trees env }
    requires env_below { IsBelow (length (E.state ecx.old).variables) (env_forest (E.context ecx.old).trees env) }
    requires sources { All (IsRulePred (E.context ecx.old).trees (length (E.state ecx.old).variables)) sources.now }
    requires supers { All (IsClause (E.context ecx.old).trees) supers.now }
    requires principal { IfSome principal (IsRuleClause (E.context ecx.old).trees (length (E.state ecx.old).variables)) }
    requires target { IsRulePred (E.context ecx.old).trees (length (E.state ecx.old).variables) target }
    ensures kept { Keeps E.EvalCtxt ecx.old ecx.new }
    ensures met { let V = view E.EvalCtxt ecx.old in IsMet V env (E.state ecx.new) (met_by V supers.now sources.now principal target) result }
    ensures cause { IfErr result (by_stop (StopsSomehow E.EvalCtxt ecx.old ecx.new)) }
{
    match ecx.cx().pred(target).value {
        ExistentialPredicate::Trait(reference) => {
            meet_principal(alloc, ecx, env, principal, reference.def_id, target)
        }
        ExistentialPredicate::Projection(said) => {
            meet_projection(alloc, ecx, env, sources, said.def_id, target)
        }
        ExistentialPredicate::AutoTrait(of) => {
            if has_auto_trait(ecx.cx(), sources, supers, of) {
                Ok(Meeting::Surely)
            } else {
                Err(NoSolutionOrStop::NoSolution)
            }
        }
    }
}

/// All bounds of the target, in their order, as `meet_bound` does each: it ends at the first that is met in several ways.
///
/// `NoSolution` comes at the first that isn't met; it stops as `meet_bound` does. After an error variables and equations that were made
/// stay.
pub(crate) fn meet_bounds<E: EvalCtxt>(
    alloc: Global,
    ecx: &mut E,
    env: ParamEnv,
    sources: &[Pred],
    supers: &[Clause],
    principal: Option<Clause>,
    targets: &[Pred],
) -> Result<Meeting, NoSolutionOrStop>
    requires env { IsParamEnv (E.context ecx.old).trees env }
    requires env_below { IsBelow (length (E.state ecx.old).variables) (env_forest (E.context ecx.old).trees env) }
    requires sources { All (IsRulePred (E.context ecx.old).trees (length (E.state ecx.old).variables)) sources.now }
    requires supers { All (IsClause (E.context ecx.old).trees) supers.now }
    requires principal { IfSome principal (IsRuleClause (E.context ecx.old).trees (length (E.state ecx.old).variables)) }
    requires targets { All (IsRulePred (E.context ecx.old).trees (length (E.state ecx.old).variables)) targets.now }
    ensures kept { Keeps E.EvalCtxt ecx.old ecx.new }
    ensures met { let V = view E.EvalCtxt ecx.old in AreMet V env (E.state ecx.new) (all_met_by V supers.now sources.now principal targets.now) result }
    ensures cause { IfErr result (by_stop (StopsSomehow E.EvalCtxt ecx.old ecx.new)) }
{
    for target in targets {
        match meet_bound(alloc, ecx, env, sources, supers, principal, *target)? {
            Meeting::Surely => {}
            Meeting::Ambiguously => return Ok(Meeting::Ambiguously),
        }
    }
    Ok(Meeting::Surely)
}
