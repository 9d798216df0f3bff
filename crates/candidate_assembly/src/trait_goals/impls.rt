//! The rule of an impl: a goal of a trait holds by an impl of it.

ghost use Rattle.std.specs.Prelude.{◌≡◌, ◌∷◌, false, true, None, Some, Option, map, IfErr, IfOk, IfSome, MatchOption, OnOk};
ghost use Rattle.ir_trees.specs.Declarations.Declaring.{impl_at};
ghost use Rattle.ir_trees.specs.Instantiation.Folding.{lacks_argument};
ghost use Rattle.ir_trees.specs.Instantiation.Owned.{ClausesAreOwned};
ghost use Rattle.ir_trees.specs.Syntax.Trees.{holds, is_param};
ghost use Rattle.ir_trees.specs.Validity.WellFormed.{ImplIsGiven};
ghost use Rattle.ir_trees.specs.Syntax.Words.{IsArgs, IsParamEnv, args_forest, env_forest};
ghost use Rattle.ir_trees.specs.Declarations.Worlds.{kinds_of};
ghost use Rattle.candidate_eval.specs.Interface.Accounts.{by_stop, if_refused};
ghost use Rattle.candidate_eval.specs.Derivations.ImplRules as rules;
ghost use Rattle.candidate_eval.specs.Derivations.Judging.{At, Over, Refused, run, start};
ghost use Rattle.candidate_eval.specs.Derivations.Rules.{add, equate};
ghost use Rattle.candidate_eval.specs.Judges.States.{fresh_variables, with_fresh_variables};
ghost use Rattle.candidate_eval.specs.declared.eval.source.CandidateSource.{CandidateSource};
ghost use Rattle.candidate_eval.specs.declared.eval.source.CandidateSource.TheVariants as source;
ghost use Rattle.candidate_eval.specs.Interface.Shown.{Keeps, KeepsBut, LeavesAlike, StopsSomehow, view};
ghost use Rattle.candidate_assembly.specs.Rules.AliasFaults.{PutsOffAny};
ghost use Rattle.candidate_assembly.specs.Calls.Impls.{IsDeclared, impl_kinds, steps_at};
ghost use Rattle.candidate_assembly.specs.Answers.Telling.{standing};
ghost use Rattle.candidate_assembly.specs.Goals.TraitGoals.{impl_part_at, trait_goal};
ghost use Rattle.candidate_assembly.specs.Answers.Shown.{AfterWith, IsCallableWith, StopsOfItself, TellsOfWith, TellsOfSource, TriedWith, TriesImpl};
ghost use Rattle.candidate_assembly.specs.Goals.KindShown.{IsGoal, trait_kind, impl_certainty, judged_by_impl};
ghost use Rattle.candidate_assembly.specs.Calls.Seen.{impl_steps, judged_by_steps, ran, started, stepped, steps_declared, RunsTo};
ghost use Rattle.candidate_eval.specs.Dynamic.Replacing.{clauses_at};

use crate::assembly::steps::with_source;
use candidate_eval::eval::certainty::Certainty;
use candidate_eval::eval::clauses::substitute;
use candidate_eval::eval::context::{EvalCtxt, ProbeKind};
use candidate_eval::eval::mode::TypingMode;
use candidate_eval::eval::refusal::NoSolutionOrStop;
use candidate_eval::eval::response::{Candidate, CanonicalResponse};
use candidate_eval::eval::source::CandidateSource;
use ir_context::decl::Cx;
use ir_trees::decl::contents::{ImplId, ImplPolarity};
use ir_trees::ir::kinds::{
    Args, Clause, Goal, GoalSource, ParamEnv, PredicatePolarity, TraitId, TraitPredicate,
};
use ir_trees::ir::stop::Stop;
use ir_trees::ir::trees::Trees;
use ir_trees::ir::unify::RightSide;
use std::alloc::Global;

/// What an impl declares, without what its associated types are.
#[derive(Drop)]
pub struct DeclaredImpl {
    /// The trait that it is for.
    pub def_id: TraitId,
    /// The arguments of the trait reference that it is for.
    pub header: Args,
    /// Its where-clauses.
    pub wheres: Vec<Clause>,
    /// The outlives clauses of its trait's supertraits.
    pub super_outlives: Vec<Clause>,
}

/// How sure an impl makes a goal, if it serves it.
fn impl_certainty(mode: TypingMode, goal: PredicatePolarity, of: ImplPolarity) -> Option<Certainty>
    ensures { result ≡ rules.impl_certainty mode goal of }
{
    match (of, goal) {
        (ImplPolarity::Reservation, _) => match mode {
            TypingMode::Coherence => Some(Certainty::AMBIGUOUS),
            _ => None,
        },
        (ImplPolarity::Positive, PredicatePolarity::Positive) => Some(Certainty::Yes),
        (ImplPolarity::Negative, PredicatePolarity::Negative) => Some(Certainty::Yes),
        _ => None,
    }
}

/// The certainty that the impl gives the goal, if its rule applies.
fn certainty_by(
    cx: &Cx,
    mode: TypingMode,
    env: ParamEnv,
    predicate: TraitPredicate,
    of: ImplId,
) -> Option<Certainty>
    requires { IsArgs cx.now.trees predicate.trait_ref.args }
    ensures { let part = impl_part_at cx.now mode (trait_goal cx.now.trees env predicate) of in MatchOption result (part.applies ≡ false) (λ c. (part.applies ≡ true) × (part.certainty ≡ c)) }
{
    let _ = env;
    let declared = cx.impl_contents(of)?;
    let header = declared.trait_ref;
    let polarity = declared.polarity;
    if !cx.args_may_unify(predicate.trait_ref.args, header.args, RightSide::Header) {
        return None;
    }
    impl_certainty(mode, predicate.polarity, polarity)
}

/// What is declared of the impl is of the context: said to a caller that needs it. Nothing is done.
pub fn recall_impl_given(cx: &Cx, of: ImplId)
    ensures { IfSome (impl_at cx.now of) (ImplIsGiven cx.now) }
{
    let _ = of;
    cx.recall_well_formed_table();
}

/// Fresh variables in the place of an impl's parameters; of what is no impl there are none. The stops are those of growing a list and of
/// the evaluator.
pub fn fresh_args_for_impl<E: EvalCtxt>(
    alloc: Global,
    ecx: &mut E,
    of: ImplId,
) -> Result<Args, Stop>
    ensures kept { Keeps E.EvalCtxt ecx.old ecx.new }
    ensures state { OnOk result (E.state ecx.new ≡ with_fresh_variables (E.state ecx.old) (impl_kinds (E.context ecx.old) of)) }
    ensures sort { IfOk result (λ a. IsArgs (E.context ecx.new).trees a) }
    ensures trees { IfOk result (λ a. args_forest (E.context ecx.new).trees a ≡ fresh_variables (E.state ecx.old) (impl_kinds (E.context ecx.old) of)) }
    ensures cause { IfErr result (StopsSomehow E.EvalCtxt ecx.old ecx.new) }
{
    let kinds = ecx.cx().impl_parameters(alloc, of)?;
    ecx.fresh_args_for_item(kinds.as_slice())
}

/// What the impl declares, whose parameters have these arguments; `None` where no impl has the number. The one error is `Memory`, where a
/// list can't grow.
pub fn declared_by(
    alloc: Global,
    cx: &Cx,
    of: ImplId,
    args: Args,
) -> Result<Option<DeclaredImpl>, Stop>
    requires { kinds_of (args_forest cx.now.trees args) ≡ impl_kinds cx.now of }
    ensures read { IfOk result (λ o. MatchOption o (impl_at cx.now of ≡ None) (IsDeclared cx.now of (args_forest cx.now.trees args))) }
    ensures cause { IfErr result (λ s. s ≡ Stop.Memory) }
{
    let Some(declared) = cx.impl_of(of, args) else {
        return Ok(None);
    };
    let wheres = Vec::from_slice(alloc, declared.wheres.as_slice())?;
    let super_outlives = Vec::from_slice(alloc, declared.super_outlives.as_slice())?;
    Ok(Some(DeclaredImpl {
        def_id: declared.trait_ref.def_id,
        header: declared.trait_ref.args,
        wheres,
        super_outlives,
    }))
}

/// Equates the arguments with those of a header, with what stands for the impl's parameters.
fn equate_header<E: EvalCtxt>(
    alloc: Global,
    ecx: &mut E,
    env: ParamEnv,
    args: Args,
    header: Args,
    locals: Args,
) -> Result<(), NoSolutionOrStop>
    requires env { IsParamEnv (E.context ecx.old).trees env }
    requires args { IsArgs (E.context ecx.old).trees args }
    requires no_parameter { holds is_param (args_forest (E.context ecx.old).trees args) ≡ false }
    requires header { IsArgs (E.context ecx.old).trees header }
    requires locals { IsArgs (E.context ecx.old).trees locals }
    requires there { holds (lacks_argument (args_forest (E.context ecx.old).trees locals)) (args_forest (E.context ecx.old).trees header) ≡ false }
    ensures kept { Keeps E.EvalCtxt ecx.old ecx.new }
    ensures ok { let V = view E.EvalCtxt ecx.old in let t = args_forest V.trees in IfOk result (λ _. stepped V env (t locals) (equate (t args) (t header)) ≡ At (standing (E.state ecx.new) (t locals))) }
    ensures refused { let V = view E.EvalCtxt ecx.old in let t = args_forest V.trees in IfErr result (if_refused (stepped V env (t locals) (equate (t args) (t header)) ≡ Over Refused)) }
    ensures cause { IfErr result (by_stop (StopsSomehow E.EvalCtxt ecx.old ecx.new)) }
{
    let header = substitute(alloc, ecx, header, locals)?;
    ecx.eq_args(env, args, header)
}

/// Clauses become pending, one after the other, with what stands for the impl's parameters. The stops are those of growing a list, of
/// making nodes and of the evaluator; the clauses before the one where it stopped are pending then.
pub fn nest_clauses<E: EvalCtxt>(
    alloc: Global,
    ecx: &mut E,
    env: ParamEnv,
    source: GoalSource,
    clauses: &[Clause],
    locals: Args,
) -> Result<(), Stop>
    requires env { IsParamEnv (E.context ecx.old).trees env }
    requires clauses { ClausesAreOwned (E.context ecx.old).trees (args_forest (E.context ecx.old).trees locals) clauses.now }
    requires locals { IsArgs (E.context ecx.old).trees locals }
    ensures kept { Keeps E.EvalCtxt ecx.old ecx.new }
    ensures ok { let V = view E.EvalCtxt ecx.old in OnOk result (RunsTo V env (args_forest V.trees locals) (map (add source) (clauses_at V.trees clauses.now)) (E.state ecx.new)) }
    ensures cause { IfErr result (StopsSomehow E.EvalCtxt ecx.old ecx.new) }
{
    for clause in clauses {
        let predicate = substitute(alloc, ecx, *clause, locals)?;
        ecx.add_goal(
            source,
            Goal {
                param_env: env,
                predicate,
            },
        )?;
    }
    Ok(())
}

/// Equates the arguments with those of a header, and then where clauses and outlives clauses become pending, all with what stands for
/// the impl's parameters.
fn equate_and_nest<E: EvalCtxt>(
    alloc: Global,
    ecx: &mut E,
    env: ParamEnv,
    args: Args,
    header: Args,
    wheres: &[Clause],
    super_outlives: &[Clause],
    locals: Args,
) -> Result<(), NoSolutionOrStop>
    requires env { IsParamEnv (E.context ecx.old).trees env }
    requires args { IsArgs (E.context ecx.old).trees args }
    requires no_parameter { holds is_param (args_forest (E.context ecx.old).trees args) ≡ false }
    requires header { IsArgs (E.context ecx.old).trees header }
    requires there { holds (lacks_argument (args_forest (E.context ecx.old).trees locals)) (args_forest (E.context ecx.old).trees header) ≡ false }
    requires wheres { ClausesAreOwned (E.context ecx.old).trees (args_forest (E.context ecx.old).trees locals) wheres.now }
    requires super_outlives { ClausesAreOwned (E.context ecx.old).trees (args_forest (E.context ecx.old).trees locals) super_outlives.now }
    requires locals { IsArgs (E.context ecx.old).trees locals }
    ensures kept { Keeps E.EvalCtxt ecx.old ecx.new }
    ensures ok { let V = view E.EvalCtxt ecx.old in IfOk result (λ _. RunsTo V env (args_forest V.trees locals) (steps_declared V args header wheres.now super_outlives.now) (E.state ecx.new)) }
    ensures refused { let V = view E.EvalCtxt ecx.old in IfErr result (if_refused (ran V env (args_forest V.trees locals) (steps_declared V args header wheres.now super_outlives.now) ≡ Over Refused)) }
    ensures cause { IfErr result (by_stop (StopsSomehow E.EvalCtxt ecx.old ecx.new)) }
{
    equate_header(alloc, ecx, env, args, header, locals)?;
    let source = GoalSource::ImplWhereBound;
    nest_clauses(alloc, ecx, env, source, wheres, locals)?;
    nest_clauses(alloc, ecx, env, GoalSource::Misc, super_outlives, locals)?;
    Ok(())
}

/// What an impl's rule does before it asks, for a row of arguments. It answers what stands for the impl's parameters; of what is no impl
/// nothing is done.
fn follow_impl<E: EvalCtxt>(
    alloc: Global,
    ecx: &mut E,
    env: ParamEnv,
    args: Args,
    of: ImplId,
) -> Result<Args, NoSolutionOrStop>
    requires env { IsParamEnv (E.context ecx.old).trees env }
    requires args { IsArgs (E.context ecx.old).trees args }
    requires no_parameter { holds is_param (args_forest (E.context ecx.old).trees args) ≡ false }
    ensures kept { Keeps E.EvalCtxt ecx.old ecx.new }
    ensures ok { let V = view E.EvalCtxt ecx.old in IfOk result (λ ls. started V env (impl_steps V args of) ≡ At (standing (E.state ecx.new) (args_forest (E.context ecx.new).trees ls))) }
    ensures refused { let V = view E.EvalCtxt ecx.old in IfErr result (if_refused (run V.judge (env_forest V.trees env) (start V.state) (steps_at V.context (args_forest V.trees args) of) ≡ Over Refused)) }
    ensures cause { IfErr result (by_stop (StopsSomehow E.EvalCtxt ecx.old ecx.new)) }
{
    recall_impl_given(ecx.cx(), of);
    let locals = fresh_args_for_impl(alloc, ecx, of)?;
    let Some(declared) = declared_by(alloc, ecx.cx(), of, locals)? else {
        return Ok(locals);
    };
    let (wheres, super_outlives) = (&declared.wheres, &declared.super_outlives);
    equate_and_nest(
        alloc,
        ecx,
        env,
        args,
        declared.header,
        wheres.as_slice(),
        super_outlives.as_slice(),
        locals,
    )?;
    Ok(locals)
}

/// What an impl's rule does, and then what the closure answers.
fn follow_impl_and_then<
    E: EvalCtxt,
    F: FnOnce(&mut E, Certainty) -> Result<CanonicalResponse, NoSolutionOrStop>,
>(
    alloc: Global,
    ecx: &mut E,
    env: ParamEnv,
    args: Args,
    of: ImplId,
    certainty: Certainty,
    then: F,
) -> Result<CanonicalResponse, NoSolutionOrStop>
    requires env { IsParamEnv (E.context ecx.old).trees env }
    requires args { IsArgs (E.context ecx.old).trees args }
    requires no_parameter { holds is_param (args_forest (E.context ecx.old).trees args) ≡ false }
    requires callable { IsCallableWith E.EvalCtxt F.FnOnce then ecx.old (E.probes ecx.old) }
    ensures kept { KeepsBut E.EvalCtxt PutsOffAny ecx.old ecx.new }
    ensures after { let V = view E.EvalCtxt ecx.old in AfterWith E.EvalCtxt F.FnOnce then ecx.old certainty (started V env (impl_steps V args of)) result ecx.new }
    ensures told { (s : CandidateSource) → TellsOfSource E.EvalCtxt F.FnOnce then ecx.old ecx.new certainty s result (λ V. judged_by_steps V env args s of) }
    ensures cause { IfErr result (by_stop (StopsOfItself E.EvalCtxt ecx.old ecx.new)) }
{
    follow_impl(alloc, ecx, env, args, of)?;
    then(ecx, certainty)
}

/// What an impl's rule does, and then what the closure answers, in a probe.
fn probe_impl<
    E: EvalCtxt,
    F: FnOnce(&mut E, Certainty) -> Result<CanonicalResponse, NoSolutionOrStop>,
>(
    alloc: Global,
    ecx: &mut E,
    env: ParamEnv,
    args: Args,
    of: ImplId,
    certainty: Certainty,
    then: F,
) -> Result<Candidate, NoSolutionOrStop>
    requires env { IsParamEnv (E.context ecx.old).trees env }
    requires args { IsArgs (E.context ecx.old).trees args }
    requires no_parameter { holds is_param (args_forest (E.context ecx.old).trees args) ≡ false }
    requires callable { IsCallableWith E.EvalCtxt F.FnOnce then ecx.old (E.state ecx.old ∷ E.probes ecx.old) }
    ensures kept { KeepsBut E.EvalCtxt PutsOffAny ecx.old ecx.new }
    ensures alike { LeavesAlike E.EvalCtxt ecx.old ecx.new }
    ensures tried { TriedWith E.EvalCtxt F.FnOnce then ecx.old (λ _. true) (λ _. certainty) (λ V. started V env (impl_steps V args of)) (source.Impl of) result ecx.new }
    ensures told { TellsOfWith E.EvalCtxt F.FnOnce then ecx.old ecx.new (λ _. certainty) result (λ V. judged_by_steps V env args (source.Impl of) of) }
    ensures cause { IfErr result (by_stop (StopsOfItself E.EvalCtxt ecx.old ecx.new)) }
{
    recall_impl_given(ecx.cx(), of);
    let probe = ecx.begin_probe(ProbeKind::Kept)?;
    let answer = follow_impl_and_then(alloc, ecx, env, args, of, certainty, then);
    let usages = ecx.end_probe(probe);
    with_source(CandidateSource::Impl(of), answer, usages)
}

/// The rule of an impl: its steps in a probe, and then what the closure answers, which is given the certainty that the impl gives.
///
/// `NoSolution` comes where the rule doesn't apply, where the header's arguments can't be equated with the goal's, and where the closure
/// answers it. The stops are those of growing a list, of making nodes and of the evaluator, and the closure's. The state is left alike the
/// one before, whatever is answered.
pub fn consider_impl<
    E: EvalCtxt,
    F: FnOnce(&mut E, Certainty) -> Result<CanonicalResponse, NoSolutionOrStop>,
>(
    alloc: Global,
    ecx: &mut E,
    env: ParamEnv,
    predicate: TraitPredicate,
    of: ImplId,
    then: F,
) -> Result<Candidate, NoSolutionOrStop>
    requires goal { IsGoal trait_kind (E.context ecx.old) env predicate }
    requires callable { IsCallableWith E.EvalCtxt F.FnOnce then ecx.old (E.state ecx.old ∷ E.probes ecx.old) }
    ensures kept { KeepsBut E.EvalCtxt PutsOffAny ecx.old ecx.new }
    ensures alike { LeavesAlike E.EvalCtxt ecx.old ecx.new }
    ensures tried { TriesImpl E.EvalCtxt F.FnOnce then trait_kind ecx.old env predicate of result ecx.new }
    ensures told { TellsOfWith E.EvalCtxt F.FnOnce then ecx.old ecx.new (λ V. impl_certainty trait_kind V env predicate of) result (λ V. judged_by_impl trait_kind V env predicate of) }
    ensures cause { IfErr result (by_stop (StopsOfItself E.EvalCtxt ecx.old ecx.new)) }
{
    let mode = ecx.typing_mode();
    let Some(certainty) = certainty_by(ecx.cx(), mode, env, predicate, of) else {
        return Err(NoSolutionOrStop::NoSolution);
    };
    let args = predicate.trait_ref.args;
    probe_impl(alloc, ecx, env, args, of, certainty, then)
}
