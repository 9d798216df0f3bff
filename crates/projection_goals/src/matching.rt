//! Clauses that goals of projections are matched with.

ghost use Rattle.std.specs.Prelude.{◌≡◌, true, false, IfOk, IfErr, MatchOption, OnOk, OnErr};
ghost use Rattle.ir_trees.specs.declared.ir.kinds.ParamEnv.{ParamEnv as EnvNumber};
ghost use Rattle.ir_trees.specs.Syntax.Words.{IsArgs, IsClause, clause_tree};
ghost use Rattle.candidate_eval.specs.Dynamic.Objects.{IsBound, is_about};
ghost use Rattle.candidate_eval.specs.Interface.Accounts.{by_stop, if_refused};
ghost use Rattle.candidate_eval.specs.Derivations.Judging.{At, Over, Refused};
ghost use Rattle.candidate_eval.specs.Interface.Shown.{Keeps, KeepsBut, StopsSomehow, view};
ghost use Rattle.candidate_assembly.specs.Rules.AliasFaults.{PutsOffAny};
ghost use Rattle.candidate_assembly.specs.Goals.Kinds.{IsAssumption, passes};
ghost use Rattle.candidate_assembly.specs.Answers.Telling.{standing};
ghost use Rattle.candidate_assembly.specs.Answers.Shown.{After, IsCallable};
ghost use Rattle.candidate_assembly.specs.Goals.KindShown.{IsGoal, matched};
ghost use Rattle.candidate_assembly.specs.Calls.Seen.{variables_for};
ghost use Rattle.projection_goals.specs.Normalizing.{normalizes_goal, normalizes_kind, normalizes_rules};

use crate::kind::NormalizesTo;
use crate::steps::equate_both;
use candidate_assembly::assembly::kind::NoSolution;
use candidate_eval::eval::binders::instantiate_clause_with_infer;
use candidate_eval::eval::context::EvalCtxt;
use candidate_eval::eval::refusal::NoSolutionOrStop;
use ir_context::decl::Cx;
use ir_trees::ir::kinds::{AliasId, Clause, ClauseKind, ParamEnv, ProjectionPredicate};
use ir_trees::ir::trees::Trees;
use ir_trees::ir::unify::RightSide;
use std::alloc::Global;

/// What a clause says of the associated type, if it is about that one.
fn said_of(cx: &Cx, clause: Clause, item: AliasId) -> Option<ProjectionPredicate>
    requires { IsClause cx.now.trees clause }
    ensures { let ts = cx.now.trees in let t = clause_tree ts clause in MatchOption result (is_about item.0 t.head ≡ false) (λ p. IsBound ts t p × (is_about item.0 t.head ≡ true)) }
{
    match cx.clause(clause).value {
        ClauseKind::Projection(predicate) => {
            if predicate.projection_term.def_id.0 == item.0 {
                Some(predicate)
            } else {
                None
            }
        }
        _ => None,
    }
}

/// Whether a clause passes quick rejection: it is about the goal's associated type, and its arguments may be made equal to the goal's.
pub(crate) fn fast_reject(
    cx: &Cx,
    predicate: NormalizesTo,
    clause: Clause,
) -> Result<(), NoSolution>
    requires args { IsArgs cx.now.trees predicate.alias.args }
    requires clause { IsClause cx.now.trees clause }
    ensures passes { (env : EnvNumber) → OnOk result (passes normalizes_rules cx.now (normalizes_goal cx.now.trees env predicate) (clause_tree cx.now.trees clause) ≡ true) }
    ensures rejected { (env : EnvNumber) → OnErr result (passes normalizes_rules cx.now (normalizes_goal cx.now.trees env predicate) (clause_tree cx.now.trees clause) ≡ false) }
{
    match said_of(cx, clause, predicate.alias.id) {
        Some(said)
            if cx.args_may_unify(
                predicate.alias.args,
                said.projection_term.args,
                RightSide::Plain,
            ) => { Ok(()) }
        _ => Err(NoSolution),
    }
}

/// Makes a goal's arguments equal to those of a clause, and then the terms, with fresh variables in the place of the clause's own.
///
/// `NoSolutionOrStop::NoSolution` comes where the evaluator refuses one of the equations. It stops as `instantiate_clause_with_infer` and
/// the evaluator's equations do. It is called in a probe: after a stop the variables that were made stay.
fn equate_clause<E: EvalCtxt>(
    alloc: Global,
    ecx: &mut E,
    env: ParamEnv,
    predicate: NormalizesTo,
    clause: Clause,
) -> Result<(), NoSolutionOrStop>
    requires goal { IsGoal normalizes_kind (E.context ecx.old) env predicate }
    requires clause { IsClause (E.context ecx.old).trees clause }
    requires matches { let V = view E.EvalCtxt ecx.old in IsAssumption normalizes_rules V.context (normalizes_goal V.trees env predicate) (clause_tree V.trees clause) }
    ensures kept { Keeps E.EvalCtxt ecx.old ecx.new }
    ensures ok { let V = view E.EvalCtxt ecx.old in IfOk result (λ _. matched normalizes_kind V env predicate clause ≡ At (standing (E.state ecx.new) (variables_for V clause))) }
    ensures refused { let V = view E.EvalCtxt ecx.old in IfErr result (if_refused (matched normalizes_kind V env predicate clause ≡ Over Refused)) }
    ensures cause { IfErr result (by_stop (StopsSomehow E.EvalCtxt ecx.old ecx.new)) }
{
    let instance = instantiate_clause_with_infer(alloc, ecx, clause)?;
    match said_of(ecx.cx(), instance, predicate.alias.id) {
        Some(said) => {
            let args = said.projection_term.args;
            equate_both(
                ecx,
                env,
                predicate.alias.args,
                args,
                predicate.term,
                said.term,
            )
        }
        None => unreachable!(),
    }
}

/// Matches a clause that passes quick rejection, and answers what the closure answers then.
pub(crate) fn match_clause<E: EvalCtxt, R, F: FnOnce(&mut E) -> Result<R, NoSolutionOrStop>>(
    alloc: Global,
    ecx: &mut E,
    env: ParamEnv,
    predicate: NormalizesTo,
    clause: Clause,
    then: F,
) -> Result<R, NoSolutionOrStop>
    requires goal { IsGoal normalizes_kind (E.context ecx.old) env predicate }
    requires clause { IsClause (E.context ecx.old).trees clause }
    requires matches { let V = view E.EvalCtxt ecx.old in IsAssumption normalizes_rules V.context (normalizes_goal V.trees env predicate) (clause_tree V.trees clause) }
    requires callable { IsCallable E.EvalCtxt F.FnOnce then ecx.old }
    ensures kept { KeepsBut E.EvalCtxt PutsOffAny ecx.old ecx.new }
    ensures after { let V = view E.EvalCtxt ecx.old in After E.EvalCtxt F.FnOnce then ecx.old (matched normalizes_kind V env predicate clause) result ecx.new }
{
    equate_clause(alloc, ecx, env, predicate, clause)?;
    then(ecx)
}
