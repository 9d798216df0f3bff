//! The rule of an impl: a projection is what an impl of its trait says that the associated type is.

ghost use Rattle.std.specs.Prelude.{◌≡◌, ◌∷◌, true, false, None, IfErr, IfOk, MatchOption};
ghost use Rattle.ir_trees.specs.Declarations.Worlds.{kinds_of};
ghost use Rattle.ir_trees.specs.Instantiation.Folding.{lacks_argument};
ghost use Rattle.ir_trees.specs.Instantiation.Owned.{ClausesAreOwned};
ghost use Rattle.ir_trees.specs.Syntax.Trees.{holds, tree_holds};
ghost use Rattle.ir_trees.specs.Syntax.Words.{IsArgs, IsTy, args_forest, ty_tree};
ghost use Rattle.ir_trees.specs.declared.ir.kinds.ParamEnv.{ParamEnv as EnvNumber};
ghost use Rattle.candidate_eval.specs.declared.eval.mode.TypingMode.{TypingMode};
ghost use Rattle.candidate_eval.specs.declared.eval.source.CandidateSource.{CandidateSource};
ghost use Rattle.candidate_eval.specs.declared.eval.source.CandidateSource.TheVariants as source;
ghost use Rattle.candidate_eval.specs.declared.eval.certainty.Certainty.TheVariants as sure;
ghost use Rattle.candidate_eval.specs.Derivations.Judging.{At, Over, Refused};
ghost use Rattle.candidate_eval.specs.Interface.Accounts.{by_stop, if_refused};
ghost use Rattle.candidate_eval.specs.Interface.Shown.{Keeps, KeepsBut, LeavesAlike, StopsSomehow, view};
ghost use Rattle.candidate_assembly.specs.Answers.Shown.{AfterWith, IsCallableWith, StopsOfItself, TellsOfSource, TellsOfWith, TriedWith, TriesImpl};
ghost use Rattle.candidate_assembly.specs.Answers.Telling.{standing};
ghost use Rattle.candidate_assembly.specs.Calls.Impls.{impl_kinds};
ghost use Rattle.candidate_assembly.specs.Calls.Seen.{RunsTo, ran};
ghost use Rattle.candidate_assembly.specs.Goals.KindShown.{IsGoal, impl_applies, impl_certainty, impl_reached, judged_by_impl};
ghost use Rattle.candidate_assembly.specs.Rules.AliasFaults.{PutsOffAny};
ghost use Rattle.projection_goals.specs.Impls.{IsDeclared, declared_equations, declared_steps, judged_as};
ghost use Rattle.projection_goals.specs.Normalizing.{impl_part, normalizes_goal, normalizes_kind, values};

use crate::kind::NormalizesTo;
use crate::steps::equate_both;
use candidate_assembly::assembly::steps::with_source;
use candidate_assembly::trait_goals::impls::{
    fresh_args_for_impl, nest_clauses, recall_impl_given,
};
use candidate_eval::eval::certainty::Certainty;
use candidate_eval::eval::clauses::substitute;
use candidate_eval::eval::context::{EvalCtxt, ProbeKind};
use candidate_eval::eval::refusal::NoSolutionOrStop;
use candidate_eval::eval::response::{Candidate, CanonicalResponse};
use candidate_eval::eval::source::CandidateSource;
use ir_context::decl::Cx;
use ir_trees::decl::contents::{ImplId, ImplPolarity};
use ir_trees::ir::kinds::{Args, AssocId, Clause, GoalSource, ParamEnv, Ty};
use ir_trees::ir::stop::Stop;
use ir_trees::ir::trees::Trees;
use ir_trees::ir::unify::RightSide;
use std::alloc::Global;

/// What an impl declares, of one associated type.
#[derive(Drop)]
pub(crate) struct Declared {
    /// The arguments of the trait reference that it is for.
    header: Args,
    /// What the associated type is.
    value: Ty,
    wheres: Vec<Clause>,
}

/// Whether the rule of an impl applies: it is a positive one that says what the associated type is, and its header's arguments may be made
/// equal to the goal's.
fn applies_by(cx: &Cx, predicate: NormalizesTo, of: ImplId) -> bool
    requires { IsArgs cx.now.trees predicate.alias.args }
    ensures { (env : EnvNumber) → (mode : TypingMode) → result ≡ (impl_part cx.now mode (normalizes_goal cx.now.trees env predicate) of).applies }
{
    let Some(declared) = cx.impl_contents(of) else {
        return false;
    };
    declared.value(AssocId(predicate.alias.id.0)).is_some()
        && matches!(declared.polarity, ImplPolarity::Positive)
        && cx.args_may_unify(
            predicate.alias.args,
            declared.trait_ref.args,
            RightSide::Header,
        )
}

/// What the impl declares of the associated type, whose parameters have these arguments; `None` where it doesn't say what that is.
fn declared_by(
    alloc: Global,
    cx: &Cx,
    of: ImplId,
    item: AssocId,
    args: Args,
) -> Result<Option<Declared>, Stop>
    requires { kinds_of (args_forest cx.now.trees args) ≡ impl_kinds cx.now of }
    ensures read { IfOk result (λ o. MatchOption o (values cx.now of item.0 ≡ None) (IsDeclared cx.now of item (args_forest cx.now.trees args))) }
    ensures cause { IfErr result (λ s. s ≡ Stop.Memory) }
{
    let Some(value) = cx.assoc_value(of, args, item) else {
        return Ok(None);
    };
    let Some(declared) = cx.impl_of(of, args) else {
        return Ok(None);
    };
    let wheres = Vec::from_slice(alloc, declared.wheres.as_slice())?;
    Ok(Some(Declared {
        header: declared.trait_ref.args,
        value,
        wheres,
    }))
}

/// Makes the goal's arguments equal to those of a header, and what the associated type is to the goal's term, with what stands for the
/// impl's parameters.
fn equate_declared<E: EvalCtxt>(
    alloc: Global,
    ecx: &mut E,
    env: ParamEnv,
    predicate: NormalizesTo,
    header: Args,
    value: Ty,
    locals: Args,
) -> Result<(), NoSolutionOrStop>
    requires goal { IsGoal normalizes_kind (E.context ecx.old) env predicate }
    requires header { IsArgs (E.context ecx.old).trees header }
    requires value { IsTy (E.context ecx.old).trees value }
    requires locals { IsArgs (E.context ecx.old).trees locals }
    requires there { holds (lacks_argument (args_forest (E.context ecx.old).trees locals)) (args_forest (E.context ecx.old).trees header) ≡ false }
    requires value_there { tree_holds (lacks_argument (args_forest (E.context ecx.old).trees locals)) (ty_tree (E.context ecx.old).trees value) ≡ false }
    ensures kept { Keeps E.EvalCtxt ecx.old ecx.new }
    ensures ok { let V = view E.EvalCtxt ecx.old in IfOk result (λ _. RunsTo V env (args_forest V.trees locals) (declared_equations V.trees predicate header value) (E.state ecx.new)) }
    ensures refused { let V = view E.EvalCtxt ecx.old in IfErr result (if_refused (ran V env (args_forest V.trees locals) (declared_equations V.trees predicate header value) ≡ Over Refused)) }
    ensures cause { IfErr result (by_stop (StopsSomehow E.EvalCtxt ecx.old ecx.new)) }
{
    let header = substitute(alloc, ecx, header, locals)?;
    let value = substitute(alloc, ecx, value, locals)?;
    equate_both(
        ecx,
        env,
        predicate.alias.args,
        header,
        value,
        predicate.term,
    )
}

/// Makes arguments and term equal to those that are declared, and then where clauses become pending, all with what stands for the impl's
/// parameters.
fn equate_and_nest<E: EvalCtxt>(
    alloc: Global,
    ecx: &mut E,
    env: ParamEnv,
    predicate: NormalizesTo,
    header: Args,
    value: Ty,
    wheres: &[Clause],
    locals: Args,
) -> Result<(), NoSolutionOrStop>
    requires goal { IsGoal normalizes_kind (E.context ecx.old) env predicate }
    requires header { IsArgs (E.context ecx.old).trees header }
    requires value { IsTy (E.context ecx.old).trees value }
    requires locals { IsArgs (E.context ecx.old).trees locals }
    requires there { holds (lacks_argument (args_forest (E.context ecx.old).trees locals)) (args_forest (E.context ecx.old).trees header) ≡ false }
    requires value_there { tree_holds (lacks_argument (args_forest (E.context ecx.old).trees locals)) (ty_tree (E.context ecx.old).trees value) ≡ false }
    requires wheres { ClausesAreOwned (E.context ecx.old).trees (args_forest (E.context ecx.old).trees locals) wheres.now }
    ensures kept { Keeps E.EvalCtxt ecx.old ecx.new }
    ensures ok { let V = view E.EvalCtxt ecx.old in IfOk result (λ _. RunsTo V env (args_forest V.trees locals) (declared_steps V.trees predicate header value wheres.now) (E.state ecx.new)) }
    ensures refused { let V = view E.EvalCtxt ecx.old in IfErr result (if_refused (ran V env (args_forest V.trees locals) (declared_steps V.trees predicate header value wheres.now) ≡ Over Refused)) }
    ensures cause { IfErr result (by_stop (StopsSomehow E.EvalCtxt ecx.old ecx.new)) }
{
    equate_declared(alloc, ecx, env, predicate, header, value, locals)?;
    nest_clauses(alloc, ecx, env, GoalSource::ImplWhereBound, wheres, locals)?;
    Ok(())
}

/// What an impl's rule does before it asks, where it applies. It answers what stands for the impl's parameters.
fn follow_impl<E: EvalCtxt>(
    alloc: Global,
    ecx: &mut E,
    env: ParamEnv,
    predicate: NormalizesTo,
    of: ImplId,
) -> Result<Args, NoSolutionOrStop>
    requires goal { IsGoal normalizes_kind (E.context ecx.old) env predicate }
    requires applies { impl_applies normalizes_kind (view E.EvalCtxt ecx.old) env predicate of ≡ true }
    ensures kept { Keeps E.EvalCtxt ecx.old ecx.new }
    ensures ok { let V = view E.EvalCtxt ecx.old in IfOk result (λ ls. impl_reached normalizes_kind V env predicate of ≡ At (standing (E.state ecx.new) (args_forest (E.context ecx.new).trees ls))) }
    ensures refused { let V = view E.EvalCtxt ecx.old in IfErr result (if_refused (impl_reached normalizes_kind V env predicate of ≡ Over Refused)) }
    ensures cause { IfErr result (by_stop (StopsSomehow E.EvalCtxt ecx.old ecx.new)) }
{
    recall_impl_given(ecx.cx(), of);
    let locals = fresh_args_for_impl(alloc, ecx, of)?;
    let item = AssocId(predicate.alias.id.0);
    let Some(declared) = declared_by(alloc, ecx.cx(), of, item, locals)? else {
        unreachable!();
    };
    let wheres = &declared.wheres;
    equate_and_nest(
        alloc,
        ecx,
        env,
        predicate,
        declared.header,
        declared.value,
        wheres.as_slice(),
        locals,
    )?;
    Ok(locals)
}

/// What an impl's rule does, and then what the closure answers.
fn follow_impl_and_then<
    E: EvalCtxt,
    F: FnOnce(&mut E, Certainty) -> Result<CanonicalResponse, NoSolutionOrStop>,
>(
    alloc: Global,
    ecx: &mut E,
    env: ParamEnv,
    predicate: NormalizesTo,
    of: ImplId,
    then: F,
) -> Result<CanonicalResponse, NoSolutionOrStop>
    requires goal { IsGoal normalizes_kind (E.context ecx.old) env predicate }
    requires applies { impl_applies normalizes_kind (view E.EvalCtxt ecx.old) env predicate of ≡ true }
    requires callable { IsCallableWith E.EvalCtxt F.FnOnce then ecx.old (E.probes ecx.old) }
    ensures kept { KeepsBut E.EvalCtxt PutsOffAny ecx.old ecx.new }
    ensures after { let V = view E.EvalCtxt ecx.old in AfterWith E.EvalCtxt F.FnOnce then ecx.old sure.Yes (impl_reached normalizes_kind V env predicate of) result ecx.new }
    ensures told { (s : CandidateSource) → TellsOfSource E.EvalCtxt F.FnOnce then ecx.old ecx.new sure.Yes s result (λ V. judged_as V env predicate s of) }
    ensures cause { IfErr result (by_stop (StopsOfItself E.EvalCtxt ecx.old ecx.new)) }
{
    follow_impl(alloc, ecx, env, predicate, of)?;
    then(ecx, Certainty::Yes)
}

/// What an impl's rule does where it applies, and then what the closure answers, in a probe.
fn probe_impl<
    E: EvalCtxt,
    F: FnOnce(&mut E, Certainty) -> Result<CanonicalResponse, NoSolutionOrStop>,
>(
    alloc: Global,
    ecx: &mut E,
    env: ParamEnv,
    predicate: NormalizesTo,
    of: ImplId,
    then: F,
) -> Result<Candidate, NoSolutionOrStop>
    requires goal { IsGoal normalizes_kind (E.context ecx.old) env predicate }
    requires applies { impl_applies normalizes_kind (view E.EvalCtxt ecx.old) env predicate of ≡ true }
    requires callable { IsCallableWith E.EvalCtxt F.FnOnce then ecx.old (E.state ecx.old ∷ E.probes ecx.old) }
    ensures kept { KeepsBut E.EvalCtxt PutsOffAny ecx.old ecx.new }
    ensures alike { LeavesAlike E.EvalCtxt ecx.old ecx.new }
    ensures tried { TriedWith E.EvalCtxt F.FnOnce then ecx.old (λ _. true) (λ _. sure.Yes) (λ V. impl_reached normalizes_kind V env predicate of) (source.Impl of) result ecx.new }
    ensures told { TellsOfWith E.EvalCtxt F.FnOnce then ecx.old ecx.new (λ _. sure.Yes) result (λ V. judged_as V env predicate (source.Impl of) of) }
    ensures cause { IfErr result (by_stop (StopsOfItself E.EvalCtxt ecx.old ecx.new)) }
{
    recall_impl_given(ecx.cx(), of);
    let probe = ecx.begin_probe(ProbeKind::Kept)?;
    let answer = follow_impl_and_then(alloc, ecx, env, predicate, of, then);
    let usages = ecx.end_probe(probe);
    with_source(CandidateSource::Impl(of), answer, usages)
}

/// The rule of an impl: its steps in a probe, and then what the closure answers, which is given the certainty `Yes`.
///
/// `NoSolution` comes where the rule doesn't apply, where the header's arguments can't be made equal to the goal's or the declared type to
/// the goal's term, and where the closure answers it. The stops are those of growing a list, of making nodes and of the evaluator, and the
/// closure's. The state is left alike the one before, whatever is answered.
pub(crate) fn consider_impl<
    E: EvalCtxt,
    F: FnOnce(&mut E, Certainty) -> Result<CanonicalResponse, NoSolutionOrStop>,
>(
    alloc: Global,
    ecx: &mut E,
    env: ParamEnv,
    predicate: NormalizesTo,
    of: ImplId,
    then: F,
) -> Result<Candidate, NoSolutionOrStop>
    requires goal { IsGoal normalizes_kind (E.context ecx.old) env predicate }
    requires callable { IsCallableWith E.EvalCtxt F.FnOnce then ecx.old (E.state ecx.old ∷ E.probes ecx.old) }
    ensures kept { KeepsBut E.EvalCtxt PutsOffAny ecx.old ecx.new }
    ensures alike { LeavesAlike E.EvalCtxt ecx.old ecx.new }
    ensures tried { TriesImpl E.EvalCtxt F.FnOnce then normalizes_kind ecx.old env predicate of result ecx.new }
    ensures told { TellsOfWith E.EvalCtxt F.FnOnce then ecx.old ecx.new (λ V. impl_certainty normalizes_kind V env predicate of) result (λ V. judged_by_impl normalizes_kind V env predicate of) }
    ensures cause { IfErr result (by_stop (StopsOfItself E.EvalCtxt ecx.old ecx.new)) }
{
    if !applies_by(ecx.cx(), predicate, of) {
        return Err(NoSolutionOrStop::NoSolution);
    }
    probe_impl(alloc, ecx, env, predicate, of, then)
}
