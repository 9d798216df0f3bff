//! Clauses that goals of traits are matched with.

ghost use Rattle.std.specs.Prelude.{◌≡◌, true, false, IfOk, IfErr, OnOk, OnErr};
ghost use Rattle.ir_trees.specs.declared.ir.heads.ClauseHead.TheVariants as Cl;
ghost use Rattle.ir_trees.specs.declared.ir.heads.Head.TheVariants as H;
ghost use Rattle.ir_trees.specs.declared.ir.heads.PartHead.TheVariants as P;
ghost use Rattle.ir_trees.specs.declared.ir.kinds.ParamEnv.{ParamEnv as EnvNumber};
ghost use Rattle.ir_trees.specs.Syntax.Words.{IsArgs, IsClause, clause_tree};
ghost use Rattle.candidate_eval.specs.Interface.Accounts.{by_stop, if_refused};
ghost use Rattle.candidate_eval.specs.Derivations.Judging.{At, Over, Refused};
ghost use Rattle.candidate_eval.specs.Interface.Shown.{Keeps, KeepsBut, StopsSomehow, view};
ghost use Rattle.candidate_assembly.specs.Rules.AliasFaults.{PutsOffAny};
ghost use Rattle.candidate_assembly.specs.Goals.Kinds.{IsAssumption, passes};
ghost use Rattle.candidate_assembly.specs.Answers.Telling.{standing};
ghost use Rattle.candidate_assembly.specs.Goals.TraitGoals.{fits, is_item, trait_goal};
ghost use Rattle.candidate_assembly.specs.Goals.TraitRules.{trait_rules};
ghost use Rattle.candidate_assembly.specs.Answers.Shown.{After, IsCallable};
ghost use Rattle.candidate_assembly.specs.Goals.KindShown.{IsGoal, trait_kind, matched};
ghost use Rattle.candidate_assembly.specs.Calls.Seen.{variables_for};

use crate::assembly::kind::NoSolution;
use crate::assembly::language::is_item;
use candidate_eval::eval::binders::instantiate_clause_with_infer;
use candidate_eval::eval::clauses::predicate_in;
use candidate_eval::eval::context::EvalCtxt;
use candidate_eval::eval::refusal::NoSolutionOrStop;
use ir_context::decl::Cx;
use ir_trees::decl::contents::LangItem;
use ir_trees::ir::kinds::{Clause, ParamEnv, PredicatePolarity, TraitId, TraitPredicate};
use ir_trees::ir::trees::Trees;
use ir_trees::ir::unify::RightSide;
use std::alloc::Global;

/// Whether what a clause says of a trait may serve the goal: it says it of the goal's trait, with the goal's polarity. That a type is
/// `Sized` also serves a goal that it is `MetaSized`.
fn fits(cx: &Cx, goal: TraitPredicate, said: TraitPredicate) -> bool
    ensures { (env : EnvNumber) → result ≡ fits cx.now (trait_goal cx.now.trees env goal) (H.Part (P.Clause (Cl.Trait said.trait_ref.def_id said.polarity))) }
{
    let trait_id = goal.trait_ref.def_id;
    match (said.polarity, goal.polarity) {
        (PredicatePolarity::Positive, PredicatePolarity::Positive) => {
            said.trait_ref.def_id == trait_id
                || is_item(cx, LangItem::Sized, said.trait_ref.def_id)
                    && is_item(cx, LangItem::MetaSized, trait_id)
        }
        (PredicatePolarity::Negative, PredicatePolarity::Negative) => {
            said.trait_ref.def_id == trait_id
        }
        _ => false,
    }
}

/// Whether a clause passes quick rejection: it may serve the goal, and its arguments may be made equal to the goal's.
pub(crate) fn fast_reject(
    cx: &Cx,
    predicate: TraitPredicate,
    clause: Clause,
) -> Result<(), NoSolution>
    requires args { IsArgs cx.now.trees predicate.trait_ref.args }
    requires clause { IsClause cx.now.trees clause }
    ensures passes { (env : EnvNumber) → OnOk result (passes trait_rules cx.now (trait_goal cx.now.trees env predicate) (clause_tree cx.now.trees clause) ≡ true) }
    ensures rejected { (env : EnvNumber) → OnErr result (passes trait_rules cx.now (trait_goal cx.now.trees env predicate) (clause_tree cx.now.trees clause) ≡ false) }
{
    match predicate_in(cx, clause) {
        Some(said)
            if fits(cx, predicate, said)
                && cx.args_may_unify(
                    predicate.trait_ref.args,
                    said.trait_ref.args,
                    RightSide::Plain,
                ) => { Ok(()) }
        _ => Err(NoSolution),
    }
}

/// Makes a goal's arguments equal to those of a clause, with fresh variables in the place of the clause's own.
///
/// `NoSolutionOrStop::NoSolution` comes where the evaluator refuses the equation. It stops as `instantiate_clause_with_infer` and the
/// evaluator's equation do. It is called in a probe: after a stop the variables that were made stay.
pub(crate) fn equate_clause<E: EvalCtxt>(
    alloc: Global,
    ecx: &mut E,
    env: ParamEnv,
    predicate: TraitPredicate,
    clause: Clause,
) -> Result<(), NoSolutionOrStop>
    requires goal { IsGoal trait_kind (E.context ecx.old) env predicate }
    requires clause { IsClause (E.context ecx.old).trees clause }
    requires matches { let V = view E.EvalCtxt ecx.old in IsAssumption trait_rules V.context (trait_goal V.trees env predicate) (clause_tree V.trees clause) }
    ensures kept { Keeps E.EvalCtxt ecx.old ecx.new }
    ensures ok { let V = view E.EvalCtxt ecx.old in IfOk result (λ _. matched trait_kind V env predicate clause ≡ At (standing (E.state ecx.new) (variables_for V clause))) }
    ensures refused { let V = view E.EvalCtxt ecx.old in IfErr result (if_refused (matched trait_kind V env predicate clause ≡ Over Refused)) }
    ensures cause { IfErr result (by_stop (StopsSomehow E.EvalCtxt ecx.old ecx.new)) }
{
    let instance = instantiate_clause_with_infer(alloc, ecx, clause)?;
    match predicate_in(ecx.cx(), instance) {
        Some(said) => ecx.eq_args(env, predicate.trait_ref.args, said.trait_ref.args),
        None => unreachable!(),
    }
}

/// Matches a clause that passes quick rejection, and answers what the closure answers then.
pub(crate) fn match_clause<E: EvalCtxt, R, F: FnOnce(&mut E) -> Result<R, NoSolutionOrStop>>(
    alloc: Global,
    ecx: &mut E,
    env: ParamEnv,
    predicate: TraitPredicate,
    clause: Clause,
    then: F,
) -> Result<R, NoSolutionOrStop>
    requires goal { IsGoal trait_kind (E.context ecx.old) env predicate }
    requires clause { IsClause (E.context ecx.old).trees clause }
    requires matches { let V = view E.EvalCtxt ecx.old in IsAssumption trait_rules V.context (trait_goal V.trees env predicate) (clause_tree V.trees clause) }
    requires callable { IsCallable E.EvalCtxt F.FnOnce then ecx.old }
    ensures kept { KeepsBut E.EvalCtxt PutsOffAny ecx.old ecx.new }
    ensures after { let V = view E.EvalCtxt ecx.old in After E.EvalCtxt F.FnOnce then ecx.old (matched trait_kind V env predicate clause) result ecx.new }
{
    equate_clause(alloc, ecx, env, predicate, clause)?;
    then(ecx)
}
