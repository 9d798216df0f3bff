//! Lists of candidates, by rules in their order.

ghost use Rattle.std.specs.Prelude.{◌≡◌, false, length, IfErr, IfOk};
ghost use Rattle.ir_trees.specs.Unification.Impls.{relevant_impls};
ghost use Rattle.ir_trees.specs.Syntax.Trees.{holds, is_param};
ghost use Rattle.ir_trees.specs.Validity.WellFormed.{IsWellFormedTable};
ghost use Rattle.ir_trees.specs.Syntax.Words.{env_forest};
ghost use Rattle.candidate_eval.specs.Interface.Accounts.{by_stop};
ghost use Rattle.candidate_eval.specs.Outcomes.ResponseTrees.{AreCandidates};
ghost use Rattle.candidate_eval.specs.Interface.Shown.{Keeps};
ghost use Rattle.candidate_assembly.specs.Answers.Assembled.{impl_rules, trait_of, where_rules};
ghost use Rattle.candidate_assembly.specs.Answers.Closures.{Responds};
ghost use Rattle.candidate_assembly.specs.Goals.Kinds.{GoalBelow, self_type};
ghost use Rattle.candidate_assembly.specs.Answers.Listing.{Adds};
ghost use Rattle.candidate_assembly.specs.Rules.Opaques.{is_default_impl, non_default_impls};
ghost use Rattle.candidate_assembly.specs.Answers.Telling.{without_usages};
ghost use Rattle.candidate_assembly.specs.Answers.Shown.{Appends, Considers, StopsOfItself};
ghost use Rattle.candidate_assembly.specs.Goals.KindShown.{IsGoal, impl_rule};

use crate::assembly::kind::GoalKind;
use candidate_eval::eval::certainty::Certainty;
use candidate_eval::eval::context::EvalCtxt;
use candidate_eval::eval::refusal::NoSolutionOrStop;
use candidate_eval::eval::response::{Candidate, CandidateHeadUsages, CanonicalResponse};
use ir_context::decl::{Cx, UnifyCount};
use ir_trees::decl::contents::ImplId;
use ir_trees::ir::kinds::ParamEnv;
use ir_trees::ir::stop::Stop;
use ir_trees::ir::trees::Trees;
use std::alloc::Global;

/// Adds the candidate, if there is one; a refusal adds nothing.
///
/// A stop that was answered is handed on; `Stop::Memory` comes where the list can't grow. The candidates before stay.
pub(crate) fn push_considered(
    candidates: &mut Vec<Candidate>,
    answer: Result<Candidate, NoSolutionOrStop>,
) -> Result<(), Stop>
    ensures { Adds answer candidates.old.items candidates.new.items result }
{
    match answer {
        Ok(candidate) => candidates.push(candidate)?,
        Err(NoSolutionOrStop::NoSolution) => {}
        Err(NoSolutionOrStop::Stop(stop)) => return Err(stop),
    }
    Ok(())
}

/// As `push_considered`, where a refusal says which goals above were used until then: these are added to those of the rules that failed.
pub(crate) fn push_or_note(
    candidates: &mut Vec<Candidate>,
    failed: &mut Vec<CandidateHeadUsages>,
    answer: Result<Result<Candidate, CandidateHeadUsages>, Stop>,
) -> Result<(), Stop>
    ensures { Adds (without_usages answer) candidates.old.items candidates.new.items result }
{
    match answer? {
        Ok(candidate) => candidates.push(candidate)?,
        Err(usages) => failed.push(usages)?,
    }
    Ok(())
}

/// Adds the candidates by the clauses of the environment, in their order; of a clause that gives none, which goals above were used until
/// then. No parameter stands in the environment, and the goal mentions only the state's variables.
///
/// It stops at the first clause whose rule stops, with that stop; `Stop::Memory` comes where a list can't grow. The state is left alike the
/// one before.
pub(crate) fn assemble_param_env_candidates<E: EvalCtxt, G: GoalKind<E>>(
    alloc: Global,
    ecx: &mut E,
    env: ParamEnv,
    predicate: G,
    candidates: &mut Vec<Candidate>,
    failed: &mut Vec<CandidateHeadUsages>,
) -> Result<(), Stop>
    requires goal { IsGoal G.kind (E.context ecx.old) env predicate }
    requires below { GoalBelow G.kind.rules (length (E.state ecx.old).variables) (G.kind.seen (E.context ecx.old).trees env predicate) }
    requires free { holds is_param (env_forest (E.context ecx.old).trees env) ≡ false }
    requires candidates { AreCandidates (E.context ecx.old).trees candidates.old.items }
    ensures { Appends E.EvalCtxt ecx.old ecx.new candidates.old.items candidates.new.items (λ V. let c = V.context in where_rules G.kind.rules c (G.kind.seen c.trees env predicate)) result }
{
    let clauses = Vec::from_slice(alloc, ecx.cx().param_env(env))?;
    for clause in &clauses {
        let answer = G::probe_and_consider_param_env_candidate(alloc, ecx, env, predicate, *clause);
        push_or_note(candidates, failed, answer)?;
    }
    Ok(())
}

/// Whether others specialise the impl.
pub(crate) fn is_default_impl(cx: &Cx, of: ImplId) -> bool
    ensures { result ≡ is_default_impl cx.now of }
{
    match cx.impl_contents(of) {
        Some(declared) => declared.is_default,
        None => false,
    }
}

/// The impls that may be for the goal's self type, in the order of their declaration, but for those that others specialise. The only stop
/// is `Stop::Memory`.
fn impls_for<E: EvalCtxt, G: GoalKind<E>>(
    alloc: Global,
    cx: &Cx,
    env: ParamEnv,
    predicate: G,
) -> Result<Vec<ImplId>, Stop>
    requires { IsGoal G.kind cx.now env predicate }
    ensures list { let c = cx.now in let g = G.kind.seen c.trees env predicate in let K = G.kind.rules in IfOk result (λ v. v.items ≡ non_default_impls c (relevant_impls c (trait_of K c g) (self_type K c g))) }
    ensures cause { IfErr result (λ s. s ≡ Stop.Memory) }
{
    let trait_id = G::trait_def_id(cx, env, predicate);
    let self_ty = G::self_ty(cx, env, predicate);
    let relevant = cx.for_each_relevant_impl(trait_id, self_ty, &mut UnifyCount::new())?;
    let impls = relevant.as_slice().iter().copied();
    let proper = impls.filter(|of| !is_default_impl(cx, *of));
    Ok(proper.collect(alloc)?)
}

/// Nothing is wrong with what is declared.
pub(crate) fn recall_well_formed_table(cx: &Cx)
    ensures { IsWellFormedTable cx.now }
{
    cx.recall_well_formed_table();
}

/// The rule of an impl, where the response is asked for after its steps, with at most the certainty that the impl gives. It answers and stops
/// as `consider_impl_candidate`, and as the evaluator does where a response is asked for.
pub fn consider_impl_and_respond<E: EvalCtxt, G: GoalKind<E>>(
    alloc: Global,
    ecx: &mut E,
    env: ParamEnv,
    predicate: G,
    of: ImplId,
) -> Result<Candidate, NoSolutionOrStop>
    requires goal { IsGoal G.kind (E.context ecx.old) env predicate }
    ensures { Considers E.EvalCtxt ecx.old ecx.new (λ V. impl_rule G.kind V env predicate of) result }
{
    G::consider_impl_candidate(
        alloc,
        ecx,
        env,
        predicate,
        of,
        |ecx: &mut E, certainty: Certainty| -> Result<CanonicalResponse, NoSolutionOrStop>
            ensures kept { Keeps E.EvalCtxt ecx.old ecx.new }
            ensures told { Responds (E.context ecx.new).trees result ((E.judge (E.fixed ecx.old)).responded (E.state ecx.old) certainty) }
            ensures cause { IfErr result (by_stop (StopsOfItself E.EvalCtxt ecx.old ecx.new)) }
        { ecx.evaluate_added_goals_and_make_canonical_response(certainty) },
    )
}

/// Adds the candidates by the impls that may be for the goal's self type, in the order of their declaration, but for those that others
/// specialise. The goal mentions only the state's variables.
///
/// It stops at the first impl whose rule stops, with that stop; `Stop::Memory` comes where a list can't grow. The state is left alike the
/// one before.
pub(crate) fn assemble_impl_candidates<E: EvalCtxt, G: GoalKind<E>>(
    alloc: Global,
    ecx: &mut E,
    env: ParamEnv,
    predicate: G,
    candidates: &mut Vec<Candidate>,
) -> Result<(), Stop>
    requires goal { IsGoal G.kind (E.context ecx.old) env predicate }
    requires below { GoalBelow G.kind.rules (length (E.state ecx.old).variables) (G.kind.seen (E.context ecx.old).trees env predicate) }
    requires candidates { AreCandidates (E.context ecx.old).trees candidates.old.items }
    ensures { Appends E.EvalCtxt ecx.old ecx.new candidates.old.items candidates.new.items (λ V. impl_rules G.kind.rules V.context V.state.mode (G.kind.seen V.trees env predicate)) result }
{
    recall_well_formed_table(ecx.cx());
    let impls = impls_for::<E, G>(alloc, ecx.cx(), env, predicate)?;
    for of in &impls {
        let answer = consider_impl_and_respond(alloc, ecx, env, predicate, *of);
        push_considered(candidates, answer)?;
    }
    Ok(())
}
