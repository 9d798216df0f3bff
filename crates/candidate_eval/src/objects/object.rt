//! What an object's own bounds say of its associated types.

ghost use Rattle.std.specs.Prelude.{◌≡◌, [], ◌∷◌, ◌++◌, map, Some, None, MatchOption, IfOk, IfErr, true, false};
ghost use Rattle.ir_trees.specs.Syntax.Words.{IsArgs, IsClause, IsParamEnv, IsTy, ClauseListFits, clause_tree, ty_tree};
ghost use Rattle.candidate_eval.specs.Interface.Accounts.{by_stop, if_refused};
ghost use Rattle.candidate_eval.specs.Dynamic.Objects.{is_about, IsBound, fresh_instance, term_in, IsExact, IsInstance, IsInstanceOfOne, by_object_stop, if_ambiguous};
ghost use Rattle.candidate_eval.specs.Dynamic.Calls.{bound_equated_here, bound_matches_here, is_equated_here, TriedHere, IsPickedHere, IsPickedAtOnceHere, IsAmbiguousHere};
ghost use Rattle.candidate_eval.specs.Judges.States.{is_some};
ghost use Rattle.candidate_eval.specs.declared.objects.object.AmbiguousOrStop.TheVariants as ambiguous;
ghost use Rattle.candidate_eval.specs.Interface.Shown.{Keeps, LeavesAlike, StopsBy, view};

use crate::eval::binders::instantiate_clause_with_infer;
use crate::eval::context::{EvalCtxt, ProbeKind};
use crate::eval::refusal::NoSolutionOrStop;
use ir_context::decl::Cx;
use ir_trees::ir::kinds::{
    AliasTerm, AssocId, Clause, ClauseKind, ParamEnv, ProjectionPredicate, Ty,
};
use ir_trees::ir::stop::Stop;
use ir_trees::ir::trees::Trees;
use std::alloc::Global;

/// Too little is known to say what a projection is; or a call gave up.
#[derive(Clone, Copy, Debug, PartialEq, Eq)]
pub enum AmbiguousOrStop {
    Ambiguous,
    Stop(Stop),
}

impl From<Stop> for AmbiguousOrStop {
    ghost from_gives = { λ s e. e ≡ ambiguous.Stop s };

    fn from(stop: Stop) -> Self {
        AmbiguousOrStop::Stop(stop)
    }
}

/// What a bound says, if it is about that associated type.
pub(crate) fn bound_about(cx: &Cx, bound: Clause, item: AssocId) -> Option<ProjectionPredicate>
    requires { IsClause cx.now.trees bound }
    ensures { let ts = cx.now.trees in let t = clause_tree ts bound in MatchOption result (is_about item.0 t.head ≡ false) (λ p. IsBound ts t p × (is_about item.0 t.head ≡ true)) }
{
    match cx.clause(bound).value {
        ClauseKind::Projection(predicate) => {
            if predicate.projection_term.def_id.0 == item.0 {
                Some(predicate)
            } else {
                None
            }
        }
        _ => None,
    }
}

/// Equates the arguments of an instance of the bound with those of the projection of the same associated type, and gives the
/// instance's term. The goals that this leaves become pending.
fn equate_bound<E: EvalCtxt>(
    alloc: Global,
    ecx: &mut E,
    env: ParamEnv,
    bound: Clause,
    projection: AliasTerm,
) -> Result<Ty, NoSolutionOrStop>
    requires env { IsParamEnv (E.context ecx.old).trees env }
    requires bound { IsClause (E.context ecx.old).trees bound }
    requires args { IsArgs (E.context ecx.old).trees projection.args }
    requires about { is_about projection.def_id.0 (clause_tree (E.context ecx.old).trees bound).head ≡ true }
    ensures kept { Keeps E.EvalCtxt ecx.old ecx.new }
    ensures sort { IfOk result (λ t. IsTy (E.context ecx.new).trees t) }
    ensures term { IfOk result (λ t. ty_tree (E.context ecx.new).trees t ≡ term_in (fresh_instance (E.state ecx.old) (clause_tree (E.context ecx.old).trees bound))) }
    ensures ok { let V = view E.EvalCtxt ecx.old in IfOk result (λ _. bound_equated_here V env bound projection.args ≡ Some (E.state ecx.new)) }
    ensures refused { IfErr result (if_refused (bound_equated_here (view E.EvalCtxt ecx.old) env bound projection.args ≡ None)) }
    ensures cause { IfErr result (by_stop (StopsBy E.EvalCtxt ecx.old ecx.new (IsInstance (clause_tree (E.context ecx.old).trees bound)))) }
{
    let instance = instantiate_clause_with_infer(alloc, ecx, bound)?;
    match bound_about(ecx.cx(), instance, projection.def_id) {
        Some(predicate) => {
            ecx.eq_args(env, predicate.projection_term.args, projection.args)?;
            Ok(predicate.term)
        }
        None => unreachable!(),
    }
}

/// Makes the two equal as `equate_bound` does, and evaluates all that is pending then.
fn equate_and_evaluate<E: EvalCtxt>(
    alloc: Global,
    ecx: &mut E,
    env: ParamEnv,
    bound: Clause,
    projection: AliasTerm,
) -> Result<(), NoSolutionOrStop>
    requires env { IsParamEnv (E.context ecx.old).trees env }
    requires bound { IsClause (E.context ecx.old).trees bound }
    requires args { IsArgs (E.context ecx.old).trees projection.args }
    requires about { is_about projection.def_id.0 (clause_tree (E.context ecx.old).trees bound).head ≡ true }
    ensures kept { Keeps E.EvalCtxt ecx.old ecx.new }
    ensures ok { IfOk result (λ _. is_equated_here (view E.EvalCtxt ecx.old) env bound projection.args ≡ true) }
    ensures refused { IfErr result (if_refused (is_equated_here (view E.EvalCtxt ecx.old) env bound projection.args ≡ false)) }
    ensures cause { IfErr result (by_stop (StopsBy E.EvalCtxt ecx.old ecx.new (IsInstance (clause_tree (E.context ecx.old).trees bound)))) }
{
    let _term = equate_bound(alloc, ecx, env, bound, projection)?;
    let _certainty = ecx.try_evaluate_added_goals()?;
    Ok(())
}

/// Whether the bound matches the projection, by a probe with nothing pending: it is about the same associated type, its
/// arguments, with fresh variables in the place of its binder's, can be equated with the projection's, and the goals that this
/// leaves aren't refused.
///
/// `Stop::Memory` comes where a growth was refused; other stops are the evaluator's, and those of `open_clause`.
pub fn bound_matches<E: EvalCtxt>(
    alloc: Global,
    ecx: &mut E,
    env: ParamEnv,
    bound: Clause,
    projection: AliasTerm,
) -> Result<bool, Stop>
    requires env { IsParamEnv (E.context ecx.old).trees env }
    requires bound { IsClause (E.context ecx.old).trees bound }
    requires args { IsArgs (E.context ecx.old).trees projection.args }
    ensures kept { Keeps E.EvalCtxt ecx.old ecx.new }
    ensures alike { LeavesAlike E.EvalCtxt ecx.old ecx.new }
    ensures answer { IfOk result (λ b. b ≡ bound_matches_here (view E.EvalCtxt ecx.old) env bound projection) }
    ensures cause { IfErr result (StopsBy E.EvalCtxt ecx.old ecx.new (IsInstance (clause_tree (E.context ecx.old).trees bound))) }
{
    if bound_about(ecx.cx(), bound, projection.def_id).is_none() {
        return Ok(false);
    }
    let probe = ecx.begin_probe(ProbeKind::SetAside)?;
    let answer = equate_and_evaluate(alloc, ecx, env, bound, projection);
    let _usages = ecx.end_probe(probe);
    match answer {
        Ok(()) => Ok(true),
        Err(NoSolutionOrStop::NoSolution) => Ok(false),
        Err(NoSolutionOrStop::Stop(stop)) => Err(stop),
    }
}

/// Those of the bounds that match the projection, in their order. Each is tried in a probe of its own.
///
/// It stops as `bound_matches` does, and `Stop::Memory` comes where the list can't grow, too.
pub fn matching_bounds<E: EvalCtxt>(
    alloc: Global,
    ecx: &mut E,
    env: ParamEnv,
    bounds: &[Clause],
    projection: AliasTerm,
) -> Result<Vec<Clause>, Stop>
    requires env { IsParamEnv (E.context ecx.old).trees env }
    requires bounds { ClauseListFits (E.context ecx.old).trees bounds.now }
    requires args { IsArgs (E.context ecx.old).trees projection.args }
    ensures kept { Keeps E.EvalCtxt ecx.old ecx.new }
    ensures alike { LeavesAlike E.EvalCtxt ecx.old ecx.new }
    ensures sort { IfOk result (λ v. ClauseListFits (E.context ecx.new).trees v.items) }
    ensures tried { let V = view E.EvalCtxt ecx.old in let W = view E.EvalCtxt ecx.new in IfOk result (λ v. TriedHere V W env projection bounds.now v.items) }
    ensures cause { IfErr result (StopsBy E.EvalCtxt ecx.old ecx.new (IsInstanceOfOne (map (clause_tree (E.context ecx.old).trees) bounds.now))) }
{
    let mut found = Vec::new(alloc);
    for bound in bounds {
        if bound_matches(alloc, ecx, env, *bound, projection)? {
            found.push(*bound)?;
        }
    }
    Ok(found)
}

/// Whether the arguments of an instance of the bound can be equated with those of the projection, by a probe with what is pending: so
/// that a refusal leaves nothing behind. It stops as `bound_matches` does.
fn can_be_equated<E: EvalCtxt>(
    alloc: Global,
    ecx: &mut E,
    env: ParamEnv,
    bound: Clause,
    projection: AliasTerm,
) -> Result<bool, Stop>
    requires env { IsParamEnv (E.context ecx.old).trees env }
    requires bound { IsClause (E.context ecx.old).trees bound }
    requires args { IsArgs (E.context ecx.old).trees projection.args }
    requires about { is_about projection.def_id.0 (clause_tree (E.context ecx.old).trees bound).head ≡ true }
    ensures kept { Keeps E.EvalCtxt ecx.old ecx.new }
    ensures alike { LeavesAlike E.EvalCtxt ecx.old ecx.new }
    ensures answer { IfOk result (λ b. is_some (bound_equated_here (view E.EvalCtxt ecx.old) env bound projection.args) ≡ b) }
    ensures cause { IfErr result (StopsBy E.EvalCtxt ecx.old ecx.new (IsInstance (clause_tree (E.context ecx.old).trees bound))) }
{
    let probe = ecx.begin_probe(ProbeKind::Kept)?;
    let answer = equate_bound(alloc, ecx, env, bound, projection);
    let _usages = ecx.end_probe(probe);
    match answer {
        Ok(_term) => Ok(true),
        Err(NoSolutionOrStop::NoSolution) => Ok(false),
        Err(NoSolutionOrStop::Stop(stop)) => Err(stop),
    }
}

/// The term of the only bound that matches the projection: an instance of it is equated with the projection, and the goals that
/// this leaves become pending.
///
/// `Ambiguous` comes where none of the bounds matches, where two or more do, and where the equation of the only one is refused,
/// which a probe says before; the state is alike the one before then, unless an evaluator refuses what it accepted in that probe. It
/// stops as `matching_bounds` does: for want of memory, where the evaluator does, or where an instance of a bound isn't made. After a
/// stop variables that were made stay.
pub fn pick_bound<E: EvalCtxt>(
    alloc: Global,
    ecx: &mut E,
    env: ParamEnv,
    bounds: &[Clause],
    projection: AliasTerm,
) -> Result<Ty, AmbiguousOrStop>
    requires env { IsParamEnv (E.context ecx.old).trees env }
    requires bounds { ClauseListFits (E.context ecx.old).trees bounds.now }
    requires args { IsArgs (E.context ecx.old).trees projection.args }
    ensures kept { Keeps E.EvalCtxt ecx.old ecx.new }
    ensures sort { IfOk result (λ t. IsTy (E.context ecx.new).trees t) }
    ensures picked { let V = view E.EvalCtxt ecx.old in let W = view E.EvalCtxt ecx.new in IfOk result (IsPickedHere V W env projection bounds.now) }
    ensures ambiguous { let V = view E.EvalCtxt ecx.old in let W = view E.EvalCtxt ecx.new in IfErr result (if_ambiguous (IsAmbiguousHere V W env projection bounds.now)) }

    // Where closed probes leave the very state before, all bounds are tried at one state.
    ensures at_once { let V = view E.EvalCtxt ecx.old in let W = view E.EvalCtxt ecx.new in IsExact V.judge → IfOk result (IsPickedAtOnceHere V W env projection bounds.now) }
    ensures cause { IfErr result (by_object_stop (StopsBy E.EvalCtxt ecx.old ecx.new (IsInstanceOfOne (map (clause_tree (E.context ecx.old).trees) bounds.now)))) }
{
    let found = matching_bounds(alloc, ecx, env, bounds, projection)?;
    if found.len() != 1 {
        return Err(AmbiguousOrStop::Ambiguous);
    }
    let only = found[0];
    if !can_be_equated(alloc, ecx, env, only, projection)? {
        return Err(AmbiguousOrStop::Ambiguous);
    }
    match equate_bound(alloc, ecx, env, only, projection) {
        Ok(term) => Ok(term),
        Err(NoSolutionOrStop::NoSolution) => Err(AmbiguousOrStop::Ambiguous),
        Err(NoSolutionOrStop::Stop(stop)) => Err(AmbiguousOrStop::Stop(stop)),
    }
}
