//! Impls that are kept apart since a where clause of one of them is known not to hold.

ghost use Rattle.std.specs.Prelude.{◌≡◌, ◌≢◌, ◌<◌, None, Some, true, false, map, slice_get, IfErr, IfOk, IfSome, OnOk};
ghost use Rattle.std.specs.Option.{option_map};
ghost use Rattle.ir_trees.specs.declared.ir.stop.Stop.{Stop};
ghost use Rattle.ir_trees.specs.Declarations.References.{ArgumentsFit};
ghost use Rattle.ir_trees.specs.Instantiation.Folding.{lacks_argument};
ghost use Rattle.ir_trees.specs.Instantiation.Folds.{IsArg, arg_tree};
ghost use Rattle.ir_trees.specs.Instantiation.Owned.{ClausesAreOwned};
ghost use Rattle.ir_trees.specs.Syntax.Trees.{none, tree_holds};
ghost use Rattle.ir_trees.specs.Syntax.Words.{ClauseListFits, IsArgs, IsClause, IsParamEnv, args_forest, clause_tree, env_forest};
ghost use Rattle.candidate_eval.specs.Dynamic.Required.{each_of};
ghost use Rattle.candidate_eval.specs.Interface.Evaluators.{arguments_accepted};
ghost use Rattle.candidate_eval.specs.Interface.Shown.{Keeps, StopsSomehow, view};
ghost use Rattle.candidate_assembly.specs.Goals.TraitGoals.{trait_goal};
ghost use Rattle.candidate_rounds.specs.Evaluators.Interface.{fixed, judge_of};
ghost use Rattle.candidate_rounds.specs.Evaluators.Known.{state, sure_of, table_of};
ghost use Rattle.candidate_rounds.specs.Table.Goals.{IsVerdict, verdict_seen};
ghost use Rattle.candidate_rounds.specs.Table.Normalizing.{rounds_shown};
ghost use Rattle.rounds_judge.specs.Table.GoalTable.{verdict_in};
ghost use Rattle.rounds_judge.specs.Table.Keys.{key_at};
ghost use Rattle.overlaps.specs.Answered.{HoldsForAll, IsPlainYes};
ghost use Rattle.overlaps.specs.Apart.{OfDeclared, aside};
ghost use Rattle.overlaps.specs.Negated.{AreImplied, ArePlugged, ClauseIsNegated, IsDenied, IsEnvironmentAt, IsKeptApart, IsNegatedBy, IsNegatedFrom, IsNegatedOfPair, IsNegatedUnder, MayBePlugged, OneIsDeniedHere, OneIsNegated, both_forests, clauses_at, turned};
ghost use Rattle.overlaps.specs.Refused.{AreOpen, IsOpen, StaysBesideKnown, StaysBesideSteps, clause_at};
ghost use Rattle.overlaps.specs.Stopping.{IsOverlapStop};
ghost use Rattle.candidate_rounds.specs.Table.Efforts.{IsEffort};

use crate::answered::is_predicate_answered;
use crate::opening::{Opened, Pair, open_both, placeholder_args_for_impl};
use crate::overlap::{WhereClause, have_aliases, have_common_trait};
use crate::plain::make_equal;
use crate::specializing::{environment_with, run_predicate};
use candidate_assembly::trait_goals::impls::recall_impl_given;
use candidate_eval::eval::clauses::{predicate_in, substitute};
use candidate_eval::eval::context::{EvalCtxt, ProbeKind};
use candidate_eval::eval::refusal::NoSolutionOrStop;
use candidate_rounds::rounds::Rounds;
use candidate_rounds::rounds::effort::Effort;
use candidate_rounds::rounds::goals::Verdict;
use ir_context::decl::Cx;
use ir_context::decl::make::{Build, Make};
use ir_folds::decl::elaborate::elaborate;
use ir_trees::decl::contents::ImplId;
use ir_trees::ir::kinds::{Args, Clause, GenericArg, ParamEnv, PredicatePolarity, TraitPredicate};
use ir_trees::ir::stop::Stop;
use ir_trees::ir::trees::Trees;
use std::alloc::Global;

/// What says the opposite of the predicate.
fn negated(predicate: TraitPredicate) -> TraitPredicate
    ensures reference { result.trait_ref ≡ predicate.trait_ref }
    ensures turned { predicate.polarity ≡ turned result.polarity }
{
    let polarity = match predicate.polarity {
        PredicatePolarity::Positive => PredicatePolarity::Negative,
        PredicatePolarity::Negative => PredicatePolarity::Positive,
    };
    TraitPredicate {
        trait_ref: predicate.trait_ref,
        polarity,
    }
}

/// What stands in that place of the two lists, if both have it.
fn pair_at(cx: &Cx, first: Args, second: Args, place: usize) -> Option<(GenericArg, GenericArg)>
    requires first { IsArgs cx.now.trees first }
    requires second { IsArgs cx.now.trees second }
    ensures sorts { IfSome result (λ p. IsArg cx.now.trees p.0 × IsArg cx.now.trees p.1) }
    ensures one { let ts = cx.now.trees in IfSome result (λ p. slice_get (each_of (args_forest ts first)) place ≡ Some (arg_tree ts p.0)) }
    ensures other { let ts = cx.now.trees in IfSome result (λ p. slice_get (each_of (args_forest ts second)) place ≡ Some (arg_tree ts p.1)) }
{
    let ones = cx.args(first);
    let others = cx.args(second);
    if place < ones.len() && place < others.len() {
        Some((ones[place], others[place]))
    } else {
        None
    }
}

/// Whether the two can be made equal; they are then.
pub(crate) fn make_one_equal<E: EvalCtxt>(
    ecx: &mut E,
    env: ParamEnv,
    one: GenericArg,
    other: GenericArg,
) -> Result<bool, Stop>
    requires env { IsParamEnv (E.context ecx.old).trees env }
    requires one { IsArg (E.context ecx.old).trees one }
    requires other { IsArg (E.context ecx.old).trees other }
    ensures kept { Keeps E.EvalCtxt ecx.old ecx.new }
    ensures equal { let V = view E.EvalCtxt ecx.old in IfOk result (λ b. b ≡ true → arguments_accepted V.judge V.state V.trees env one other ≡ Some (E.state ecx.new)) }
    ensures apart { let V = view E.EvalCtxt ecx.old in IfOk result (λ b. b ≡ false → arguments_accepted V.judge V.state V.trees env one other ≡ None) }
    ensures cause { IfErr result (StopsSomehow E.EvalCtxt ecx.old ecx.new) }
{
    match ecx.eq(env, one, other) {
        Ok(()) => Ok(true),
        Err(NoSolutionOrStop::NoSolution) => Ok(false),
        Err(NoSolutionOrStop::Stop(stop)) => Err(stop),
    }
}

/// Whether the two can be made equal, by a probe: so that a refusal leaves nothing behind.
fn can_be_equal(
    rounds: &mut Rounds,
    env: ParamEnv,
    one: GenericArg,
    other: GenericArg,
) -> Result<bool, Stop>
    requires env { IsParamEnv rounds.old.context.trees env }
    requires one { IsArg rounds.old.context.trees one }
    requires other { IsArg rounds.old.context.trees other }
    ensures kept { Keeps rounds_shown rounds.old rounds.new }
    ensures same { state rounds.new ≡ state rounds.old }
    ensures equal { let r = rounds.old in IfOk result (λ b. b ≡ true → arguments_accepted (judge_of (fixed r)) (state r) r.context.trees env one other ≢ None) }
    ensures cause { IfErr result (IsOverlapStop rounds.old rounds.new) }
{
    let probe = rounds.begin_probe(ProbeKind::Kept)?;
    let answer = make_one_equal(rounds, env, one, other);
    rounds.end_probe(probe);
    answer
}

/// The variable becomes the placeholder, unless it can't, as one that has a value.
fn plug_one(
    rounds: &mut Rounds,
    env: ParamEnv,
    local: GenericArg,
    placeholder: GenericArg,
) -> Result<(), Stop>
    requires env { IsParamEnv rounds.old.context.trees env }
    requires empty { env_forest rounds.old.context.trees env ≡ none }
    requires local { IsArg rounds.old.context.trees local }
    requires placeholder { IsArg rounds.old.context.trees placeholder }
    ensures kept { Keeps rounds_shown rounds.old rounds.new }
    ensures plugs { let r = rounds.old in let t = arg_tree r.context.trees in OnOk result (MayBePlugged (judge_of (fixed r)) (state r) (t local) (t placeholder) (state rounds.new)) }
    ensures cause { IfErr result (IsOverlapStop rounds.old rounds.new) }
{
    if !can_be_equal(rounds, env, local, placeholder)? {
        return Ok(());
    }
    make_one_equal(rounds, env, local, placeholder)?;
    Ok(())
}

/// Each of the variables that has no value becomes the placeholder in its place. What can't be one is passed over: a variable that has a value.
fn plug(rounds: &mut Rounds, env: ParamEnv, locals: Args, placeholders: Args) -> Result<(), Stop>
    requires env { IsParamEnv rounds.old.context.trees env }
    requires empty { env_forest rounds.old.context.trees env ≡ none }
    requires locals { IsArgs rounds.old.context.trees locals }
    requires placeholders { IsArgs rounds.old.context.trees placeholders }
    ensures kept { Keeps rounds_shown rounds.old rounds.new }
    ensures plugs { let r = rounds.old in let f = args_forest r.context.trees in OnOk result (ArePlugged (judge_of (fixed r)) (state r) (f locals) (f placeholders) (state rounds.new)) }
    ensures cause { IfErr result (IsOverlapStop rounds.old rounds.new) }
{
    let count = rounds.cx().args(locals).len();
    for place in 0..count {
        let Some((local, placeholder)) = pair_at(rounds.cx(), locals, placeholders, place) else {
            break;
        };
        plug_one(rounds, env, local, placeholder)?;
    }
    Ok(())
}

/// Whether it is a Yes of which the constraints don't hold for every placeholder.
fn is_leaking_yes(alloc: Global, rounds: &Rounds, verdict: &Option<Verdict>) -> Result<bool, Stop>
    requires { IsVerdict rounds.now.context.trees verdict.now }
    ensures no { IfOk result (λ b. b ≡ false → HoldsForAll (option_map (verdict_seen rounds.now.context.trees) verdict.now)) }
    ensures cause { IfErr result (λ s. s ≡ Stop.Memory) }
{
    match verdict {
        Some(Verdict::Yes(response, _)) => rounds.response_leaks(alloc, response),
        Some(Verdict::Maybe(_, _) | Verdict::Refused) | None => Ok(false),
    }
}

/// Whether the goal stands at what is known, and the constraints of its Yes, if the table has one, hold for every placeholder.
fn holds_for_all(
    alloc: Global,
    rounds: &mut Rounds,
    env: ParamEnv,
    predicate: TraitPredicate,
) -> Result<bool, Stop>
    requires env { IsParamEnv rounds.old.context.trees env }
    requires args { IsArgs rounds.old.context.trees predicate.trait_ref.args }
    ensures stays { StaysBesideSteps rounds.old rounds.new }
    ensures sure { sure_of rounds.new ≡ sure_of rounds.old }
    ensures holds { let r = rounds.old in IfOk result (λ b. b ≡ true → HoldsForAll (verdict_in (table_of r) (key_at (state r) (trait_goal r.context.trees env predicate)))) }
    ensures cause { IfErr result (IsOverlapStop rounds.old rounds.new) }
{
    if !rounds.stands_here(alloc, env, predicate) {
        return Ok(false);
    }
    let verdict = rounds.entry(alloc, env, predicate)?;
    let leaks = is_leaking_yes(alloc, rounds, &verdict)?;
    Ok(!leaks)
}

/// Whether the goal is answered, by a Yes of which the constraints hold for every placeholder.
fn is_answered_for_all(
    alloc: Global,
    rounds: &mut Rounds,
    env: ParamEnv,
    predicate: TraitPredicate,
) -> Result<bool, Stop>
    requires env { IsParamEnv rounds.old.context.trees env }
    requires args { IsArgs rounds.old.context.trees predicate.trait_ref.args }
    requires fit { ArgumentsFit rounds.old.context predicate.trait_ref }
    ensures stays { StaysBesideSteps rounds.old rounds.new }
    ensures sure { sure_of rounds.new ≡ sure_of rounds.old }
    ensures answered { let r = rounds.old in IfOk result (λ b. b ≡ true → IsPlainYes (verdict_in (sure_of r) (key_at (state r) (trait_goal r.context.trees env predicate)))) }
    ensures for_all { let r = rounds.old in IfOk result (λ b. b ≡ true → HoldsForAll (verdict_in (sure_of r) (key_at (state r) (trait_goal r.context.trees env predicate)))) }
    ensures cause { IfErr result (IsOverlapStop rounds.old rounds.new) }
{
    if !holds_for_all(alloc, rounds, env, predicate)? {
        return Ok(false);
    }
    is_predicate_answered(alloc, rounds, env, predicate)
}

/// Whether it is known that what the clause says of a trait is not so: by that effort the opposite comes to a Yes that says nothing of any
/// variable.
fn is_negation_answered(
    alloc: Global,
    rounds: &mut Rounds,
    env: ParamEnv,
    clause: Clause,
    effort: Effort,
) -> Result<bool, Stop>
    requires some { IsEffort effort }
    requires env { IsParamEnv rounds.old.context.trees env }
    requires clause { IsClause rounds.old.context.trees clause }
    ensures stays { StaysBesideSteps rounds.old rounds.new }
    ensures denied { let r = rounds.old in let ts = r.context.trees in IfOk result (λ b. b ≡ true → IsDenied (env_forest ts env) (sure_of rounds.new) (state r) (clause_tree ts clause)) }
    ensures cause { IfErr result (IsOverlapStop rounds.old rounds.new) }
{
    let Some(predicate) = predicate_in(rounds.cx(), clause) else {
        return Ok(false);
    };
    let opposite = negated(predicate);
    run_predicate(alloc, rounds, env, opposite, effort)?;
    is_answered_for_all(alloc, rounds, env, opposite)
}

/// Whether this is known of one of the clauses.
fn is_one_negated(
    alloc: Global,
    rounds: &mut Rounds,
    env: ParamEnv,
    clauses: &[Clause],
    effort: Effort,
) -> Result<bool, Stop>
    requires some { IsEffort effort }
    requires env { IsParamEnv rounds.old.context.trees env }
    requires clauses { ClauseListFits rounds.old.context.trees clauses.now }
    ensures stays { StaysBesideSteps rounds.old rounds.new }
    ensures denied { IfOk result (λ b. b ≡ true → OneIsDeniedHere rounds.old (sure_of rounds.new) env clauses.now) }
    ensures cause { IfErr result (IsOverlapStop rounds.old rounds.new) }
{
    for number in 0..clauses.len() {
        if is_negation_answered(alloc, rounds, env, clauses[number], effort)? {
            return Ok(true);
        }
    }
    Ok(false)
}

/// A where clause, with what stands for the parameters put in and all values.
pub(crate) fn with_values<E: EvalCtxt>(
    alloc: Global,
    ecx: &mut E,
    clause: Clause,
    locals: Args,
) -> Result<Clause, Stop>
    requires clause { IsClause (E.context ecx.old).trees clause }
    requires locals { IsArgs (E.context ecx.old).trees locals }
    requires there { let ts = (E.context ecx.old).trees in tree_holds (lacks_argument (args_forest ts locals)) (clause_tree ts clause) ≡ false }
    ensures kept { Keeps E.EvalCtxt ecx.old ecx.new }
    ensures same { E.state ecx.new ≡ E.state ecx.old }
    ensures sort { IfOk result (λ x. IsClause (E.context ecx.new).trees x) }
    ensures tree { let c = E.context ecx.old in IfOk result (λ x. clause_tree (E.context ecx.new).trees x ≡ clause_at c (E.state ecx.old) (args_forest c.trees locals) clause) }
    ensures cause { IfErr result (StopsSomehow E.EvalCtxt ecx.old ecx.new) }
{
    let clause = substitute(alloc, ecx, clause, locals)?;
    ecx.resolve_clause_if_possible(clause)
}

/// The where clause, with what stands for the parameters put in and all values, and all that it implies.
fn implied_by<E: EvalCtxt>(
    alloc: Global,
    ecx: &mut E,
    clause: Clause,
    locals: Args,
) -> Result<Vec<Clause>, Stop>
    requires clause { IsClause (E.context ecx.old).trees clause }
    requires locals { IsArgs (E.context ecx.old).trees locals }
    requires there { let ts = (E.context ecx.old).trees in tree_holds (lacks_argument (args_forest ts locals)) (clause_tree ts clause) ≡ false }
    ensures kept { Keeps E.EvalCtxt ecx.old ecx.new }
    ensures same { E.state ecx.new ≡ E.state ecx.old }
    ensures fit { IfOk result (λ v. ClauseListFits (E.context ecx.new).trees v.items) }
    ensures are { let c = E.context ecx.old in IfOk result (λ v. AreImplied c (E.state ecx.old) (args_forest c.trees locals) clause (map (clause_tree (E.context ecx.new).trees) v.items)) }
    ensures cause { IfErr result (StopsSomehow E.EvalCtxt ecx.old ecx.new) }
{
    let clause = with_values(alloc, ecx, clause, locals)?;
    elaborate(alloc, ecx, &[clause])
}

/// Whether this is known of a where clause, with what stands for the parameters put in and all values, or of one that it implies.
fn is_clause_negated(
    alloc: Global,
    rounds: &mut Rounds,
    env: ParamEnv,
    clause: Clause,
    locals: Args,
    effort: Effort,
) -> Result<bool, Stop>
    requires some { IsEffort effort }
    requires env { IsParamEnv rounds.old.context.trees env }
    requires clause { IsClause rounds.old.context.trees clause }
    requires locals { IsArgs rounds.old.context.trees locals }
    requires there { tree_holds (lacks_argument (args_forest rounds.old.context.trees locals)) (clause_tree rounds.old.context.trees clause) ≡ false }
    ensures stays { StaysBesideSteps rounds.old rounds.new }
    ensures negated { IfOk result (λ b. b ≡ true → ClauseIsNegated rounds.old (sure_of rounds.new) env locals clause) }
    ensures cause { IfErr result (IsOverlapStop rounds.old rounds.new) }
{
    let implied = implied_by(alloc, rounds, clause, locals)?;
    is_one_negated(alloc, rounds, env, implied.as_slice(), effort)
}

/// The number of the first of the where clauses of which this is known.
fn first_negated(
    alloc: Global,
    rounds: &mut Rounds,
    env: ParamEnv,
    clauses: &[Clause],
    locals: Args,
    effort: Effort,
) -> Result<Option<usize>, Stop>
    requires some { IsEffort effort }
    requires env { IsParamEnv rounds.old.context.trees env }
    requires locals { IsArgs rounds.old.context.trees locals }
    requires clauses { ClausesAreOwned rounds.old.context.trees (args_forest rounds.old.context.trees locals) clauses.now }
    ensures stays { StaysBesideSteps rounds.old rounds.new }
    ensures negated { IfOk result (λ o. IfSome o (OneIsNegated rounds.old (sure_of rounds.new) env locals clauses.now)) }
    ensures cause { IfErr result (IsOverlapStop rounds.old rounds.new) }
{
    for number in 0..clauses.len() {
        if is_clause_negated(alloc, rounds, env, clauses[number], locals, effort)? {
            return Ok(Some(number));
        }
    }
    Ok(None)
}

/// The where clauses, with what stands for the parameters put in and all values.
fn all_with_values<E: EvalCtxt>(
    alloc: Global,
    ecx: &mut E,
    clauses: &[Clause],
    locals: Args,
) -> Result<Vec<Clause>, Stop>
    requires locals { IsArgs (E.context ecx.old).trees locals }
    requires clauses { ClausesAreOwned (E.context ecx.old).trees (args_forest (E.context ecx.old).trees locals) clauses.now }
    ensures kept { Keeps E.EvalCtxt ecx.old ecx.new }
    ensures same { E.state ecx.new ≡ E.state ecx.old }
    ensures fit { IfOk result (λ v. ClauseListFits (E.context ecx.new).trees v.items) }
    ensures trees { let c = E.context ecx.old in IfOk result (λ v. map (clause_tree (E.context ecx.new).trees) v.items ≡ clauses_at c (E.state ecx.old) (args_forest c.trees locals) clauses.now) }
    ensures cause { IfErr result (StopsSomehow E.EvalCtxt ecx.old ecx.new) }
{
    let mut list = Vec::new(alloc);
    for clause in clauses {
        let clause = with_values(alloc, ecx, *clause, locals)?;
        list.push(clause)?;
    }
    Ok(list)
}

/// The environment of an open impl's where clauses, with all values put in, and of all that they imply.
fn environment_here<E: EvalCtxt>(alloc: Global, ecx: &mut E, of: &Opened) -> Result<ParamEnv, Stop>
    requires { IsOpen (E.context ecx.old).trees of.now }
    ensures kept { Keeps E.EvalCtxt ecx.old ecx.new }
    ensures same { E.state ecx.new ≡ E.state ecx.old }
    ensures sort { IfOk result (λ e. IsParamEnv (E.context ecx.new).trees e) }
    ensures is { IfOk result (λ e. IsEnvironmentAt (E.context ecx.old) (E.state ecx.old) of.now (env_forest (E.context ecx.new).trees e)) }
    ensures cause { IfErr result (StopsSomehow E.EvalCtxt ecx.old ecx.new) }
{
    let clauses = all_with_values(alloc, ecx, of.wheres.as_slice(), of.locals)?;
    environment_with(alloc, ecx, clauses.as_slice())
}

/// Which where clause is known not to hold, of the second of two open impls, where their headers are equal and placeholders stand for the variables that are left, under the
/// environment of the first one's where clauses.
fn negated_under(
    alloc: Global,
    rounds: &mut Rounds,
    pair: &Pair,
    effort: Effort,
) -> Result<Option<usize>, Stop>
    requires some { IsEffort effort }
    requires pair { AreOpen rounds.old.context.trees pair.now }
    ensures stays { StaysBesideSteps rounds.old rounds.new }
    ensures negated { IfOk result (λ o. IfSome o (IsNegatedUnder rounds.old (sure_of rounds.new) pair.now)) }
    ensures cause { IfErr result (IsOverlapStop rounds.old rounds.new) }
{
    let env = environment_here(alloc, rounds, &pair.first)?;
    let second = &pair.second;
    let clauses = second.wheres.as_slice();
    first_negated(alloc, rounds, env, clauses, second.locals, effort)
}

/// Which where clause is known not to hold, of two open impls whose headers are equal, and whose variables become these placeholders.
fn negated_where_equal(
    alloc: Global,
    rounds: &mut Rounds,
    env: ParamEnv,
    pair: &Pair,
    placeholders: (Args, Args),
    effort: Effort,
) -> Result<Option<usize>, Stop>
    requires some { IsEffort effort }
    requires env { IsParamEnv rounds.old.context.trees env }
    requires empty { env_forest rounds.old.context.trees env ≡ none }
    requires pair { AreOpen rounds.old.context.trees pair.now }
    requires first { IsArgs rounds.old.context.trees placeholders.0 }
    requires second { IsArgs rounds.old.context.trees placeholders.1 }
    ensures stays { StaysBesideKnown rounds.old rounds.new }
    ensures negated { let r = rounds.old in IfOk result (λ o. IfSome o (IsNegatedFrom r (state r) (both_forests r.context.trees placeholders) (sure_of rounds.new) pair.now)) }
    ensures cause { IfErr result (IsOverlapStop rounds.old rounds.new) }
{
    plug(rounds, env, pair.first.locals, placeholders.0)?;
    plug(rounds, env, pair.second.locals, placeholders.1)?;
    negated_under(alloc, rounds, pair, effort)
}

/// Which where clause is known not to hold, of two open impls, whose headers are made equal, and whose variables become these placeholders then.
fn negated_of_pair(
    alloc: Global,
    rounds: &mut Rounds,
    pair: &Pair,
    placeholders: (Args, Args),
    effort: Effort,
) -> Result<Option<usize>, Stop>
    requires some { IsEffort effort }
    requires pair { AreOpen rounds.old.context.trees pair.now }
    requires first { IsArgs rounds.old.context.trees placeholders.0 }
    requires second { IsArgs rounds.old.context.trees placeholders.1 }
    ensures stays { StaysBesideKnown rounds.old rounds.new }
    ensures negated { let r = rounds.old in IfOk result (λ o. IfSome o (IsNegatedOfPair r (both_forests r.context.trees placeholders) (sure_of rounds.new) pair.now)) }
    ensures cause { IfErr result (IsOverlapStop rounds.old rounds.new) }
{
    if have_aliases(rounds.cx(), pair) {
        return Ok(None);
    }
    let above = rounds.newest_universe();
    let env = rounds.mk_param_env(&[])?;
    if !make_equal(rounds, env, pair.first.header, pair.second.header)? {
        return Ok(None);
    }
    let leaks = rounds.leaks_above(alloc, above)?;
    if leaks {
        return Ok(None);
    }
    negated_where_equal(alloc, rounds, env, pair, placeholders, effort)
}

/// Which where clause is known not to hold, of two impls, where what is found to be known stays known. The placeholders come first, so that variables may be them.
fn negated_here(
    alloc: Global,
    rounds: &mut Rounds,
    first: ImplId,
    second: ImplId,
    effort: Effort,
) -> Result<Option<usize>, Stop>
    requires some { IsEffort effort }
    ensures stays { StaysBesideKnown rounds.old rounds.new }
    ensures negated { let r = rounds.old in IfOk result (λ o. IfSome o (λ n. OfDeclared r.context first second (IsNegatedBy r (state r) (sure_of rounds.new) n))) }
    ensures cause { IfErr result (IsOverlapStop rounds.old rounds.new) }
{
    recall_impl_given(rounds.cx(), first);
    recall_impl_given(rounds.cx(), second);
    let of_first = placeholder_args_for_impl(alloc, rounds, first)?;
    let of_second = placeholder_args_for_impl(alloc, rounds, second)?;
    let Some(pair) = open_both(alloc, rounds, first, second)? else {
        return Ok(None);
    };
    negated_of_pair(alloc, rounds, &pair, (of_first, of_second), effort)
}

/// Which where clause is known not to hold, in a probe in which nothing is pending, so that all stays but the table.
fn negated_aside(
    alloc: Global,
    rounds: &mut Rounds,
    first: ImplId,
    second: ImplId,
    effort: Effort,
) -> Result<Option<usize>, Stop>
    requires some { IsEffort effort }
    ensures stays { StaysBesideSteps rounds.old rounds.new }
    ensures negated { let r = rounds.old in IfOk result (λ o. IfSome o (λ n. OfDeclared r.context first second (IsNegatedBy r (aside (state r)) (sure_of rounds.new) n))) }
    ensures cause { IfErr result (IsOverlapStop rounds.old rounds.new) }
{
    let probe = rounds.begin_probe(ProbeKind::SetAside)?;
    let answer = negated_here(alloc, rounds, first, second, effort);
    rounds.end_probe(probe);
    answer
}

/// A where clause of one of two impls of a trait which can't hold where the other one does.
///
/// With fresh variables for the parameters of both, their headers are made equal, and placeholders stand for the variables that are left then.
/// Under the where clauses of the one as environment, with all that these imply, the goal is run by that effort that says the opposite of a
/// where clause of the other one, or of a clause that this implies. The clause is answered if that goal has a Yes that says nothing of any
/// variable: by a negative impl, a negative clause, or a rule of the language. The clauses of the second impl are asked first, under those of the
/// first, and then the other way round; of each impl the first such clause counts. In no program in which positive and negative impls don't
/// overlap both impls hold of one reference then.
///
/// `None` comes where there is none, where the numbers aren't those of two impls of one trait, where their headers can't be made equal or their
/// equation leaks a region (`impls_overlap`), and where an alias stands in one of them. A Yes in which a region leaks answers no clause. The mode is the evaluator's; rustc asks outside coherence, since in coherence no negative goal is known that
/// another crate might make false. All that is known, what is pending and the open probes stay, whatever is answered; the table has what the
/// rounds have found. The stops are those of `impls_overlap`.
pub fn kept_apart_by_negation(
    alloc: Global,
    rounds: &mut Rounds,
    first: ImplId,
    second: ImplId,
    effort: Effort,
) -> Result<Option<WhereClause>, Stop>
    requires some { IsEffort effort }
    ensures stays { StaysBesideSteps rounds.old rounds.new }
    ensures negated { IfOk result (λ o. IfSome o (IsKeptApart rounds.old (sure_of rounds.new) first second)) }
    ensures cause { IfErr result (IsOverlapStop rounds.old rounds.new) }
{
    recall_impl_given(rounds.cx(), first);
    recall_impl_given(rounds.cx(), second);
    if !have_common_trait(rounds.cx(), first, second) {
        return Ok(None);
    }
    if let Some(number) = negated_aside(alloc, rounds, first, second, effort)? {
        return Ok(Some(WhereClause { of: second, number }));
    }
    if let Some(number) = negated_aside(alloc, rounds, second, first, effort)? {
        return Ok(Some(WhereClause { of: first, number }));
    }
    Ok(None)
}
