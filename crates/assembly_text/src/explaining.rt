//! Why a goal comes to what it does.

ghost use Rattle.std.specs.Prelude.{◌≡◌, ◌<◌, All, IfOk, IfSome, List};
ghost use Rattle.std.specs.Option.{option_copied};
ghost use Rattle.ir_trees.specs.Declarations.Context.{Grows};
ghost use Rattle.ir_trees.specs.Syntax.Trees.{Tree};
ghost use Rattle.ir_trees.specs.Syntax.Words.{ClauseListFits, IsArgs};
ghost use Rattle.candidate_assembly.specs.Goals.KindShown.{IsGoal, trait_kind};
ghost use Rattle.candidate_rounds.specs.Table.Goals.{IsTraitGoal, IsVerdict};
ghost use Rattle.assembly_text.specs.Explaining.{AreReasons, IsAsked};
ghost use Rattle.assembly_text.specs.Solving.{ComesBefore, IsReadGoal, IsSolvedBefore, GivenIsListed};
ghost use Rattle.candidate_rounds.specs.Table.Efforts.{IsEffort};

use crate::openness::{Openness, look_at_open};
use crate::printing::words_of_verdict;
use crate::solving::{context_of, environment, evaluator, run, step};
use assembly_notation::given::Given;
use candidate_rounds::rounds::Rounds;
use candidate_rounds::rounds::derivation::DerivationTree;
use candidate_rounds::rounds::effort::Effort;
use candidate_rounds::rounds::goals::{GoalKey, Verdict};
use ir_context::decl::context::Cx;
use ir_trees::ir::kinds::{Args, Clause, ParamEnv, TraitPredicate};
use ir_trees::ir::stop::Stop;
use std::alloc::Global;

/// A goal that a run asked for, and what it came to.
#[derive(Clone, Copy)]
pub struct AskedGoal {
    pub clause: Clause,
    /// What it came to, in words.
    pub words: (&'static str, &'static str),
    /// What stands for its variables, where it may hold.
    pub values: Option<Args>,
    /// Whether a round looked at it.
    pub is_run: bool,
    /// Whether it came to that for good.
    pub is_final: bool,
    /// Why it isn't known whether it holds, where that was looked for.
    pub openness: Option<Openness>,
}

impl AskedGoal {
    /// Whether it is refused: that is final, and gives no values.
    pub(crate) fn is_refused(&self) -> bool {
        self.is_final && self.values.is_none()
    }
}

/// What a goal comes to what it does by.
#[derive(Drop)]
pub enum Reasons {
    /// It holds by these steps.
    Steps(DerivationTree),
    /// These goals were asked for, in that order, each with the number of the round after which it was final; 0, where it isn't.
    Goals(Vec<AskedGoal>, Vec<u16>),
}

/// What a goal comes to, and why.
#[derive(Drop)]
pub struct Explained {
    pub verdict: Option<Verdict>,
    pub reasons: Reasons,
}

/// Whether that is what a goal comes to for good.
pub(crate) fn is_final(verdict: Option<&Verdict>) -> bool {
    match verdict {
        Some(Verdict::Yes(_, _)) | Some(Verdict::Refused) => true,
        Some(Verdict::Maybe(_, _)) | None => false,
    }
}

/// What stands for a goal's variables, where it may hold.
fn values_of(verdict: Option<&Verdict>) -> Option<Args>
    ensures { (ts : List Tree) → IsVerdict ts (option_copied verdict.entry) → IfSome result (IsArgs ts) }
{
    match verdict {
        Some(Verdict::Yes(response, _)) => Some(response.values),
        Some(Verdict::Maybe(response, _)) => Some(response.values),
        _ => None,
    }
}

/// What is said of a goal of a table.
fn asked_goal(key: &GoalKey, verdict: Option<&Verdict>) -> AskedGoal
    ensures { (ts : List Tree) → IsTraitGoal ts key.now.goal → IsVerdict ts (option_copied verdict.entry) → IsAsked ts result }
{
    AskedGoal {
        clause: key.goal.predicate,
        words: words_of_verdict(verdict),
        values: values_of(verdict),
        is_run: verdict.is_some(),
        is_final: is_final(verdict),
        openness: None,
    }
}

/// The goals of the table, in the order in which they were asked for.
pub(crate) fn asked_goals(alloc: Global, rounds: &Rounds) -> Result<Vec<AskedGoal>, Stop>
    ensures { IfOk result (λ v. All (IsAsked rounds.now.context.trees) v.items) }
{
    let mut goals = Vec::new(alloc);
    for place in 0..rounds.goal_count() {
        let (key, verdict) = rounds.goal_at(place);
        goals.push(asked_goal(key, verdict))?;
    }
    Ok(goals)
}

/// Notes that the goal of that place is final after that round, unless that is noted already. All before it have a note, if only 0.
fn note(since: &mut Vec<u16>, place: usize, is_final: bool, round: u16) -> Result<(), Stop> {
    if since.len() <= place {
        since.push(0)?;
    }
    if let Some(first) = since.get_mut(place) {
        if is_final && *first == 0 {
            *first = round;
        }
    }
    Ok(())
}

/// Notes which goals of the table are final after that round.
fn note_all(rounds: &Rounds, since: &mut Vec<u16>, round: u16) -> Result<(), Stop> {
    for place in 0..rounds.goal_count() {
        let (_, verdict) = rounds.goal_at(place);
        note(since, place, is_final(verdict), round)?;
    }
    Ok(())
}

/// Whether each of the goals that is final has a note.
fn are_noted(goals: &[AskedGoal], since: &[u16]) -> bool {
    for place in 0..goals.len() {
        if !goals[place].is_final {
            continue;
        }
        match since.get(place) {
            Some(0) | None => return false,
            Some(_) => {}
        }
    }
    true
}

/// After which round each of the goals is final that a run of so many rounds asks for; 0, where it isn't.
fn rounds_of_goals(
    alloc: Global,
    rounds: &mut Rounds,
    env: ParamEnv,
    predicate: TraitPredicate,
    effort: Effort,
    goals: &[AskedGoal],
) -> Result<Vec<u16>, Stop>
    requires { IsGoal trait_kind rounds.old.context env predicate }
    ensures { Grows rounds.old.context rounds.new.context }
{
    let mut since = Vec::new(alloc);
    for before in 0..effort.most_rounds() {
        step(alloc, rounds, env, predicate)?;
        note_all(rounds, &mut since, before + 1)?;
        if are_noted(goals, since.as_slice()) {
            return Ok(since);
        }
    }
    Ok(since)
}

/// After which round each goal is final that a new evaluator asks for, where it runs a goal under these clauses.
fn look_back_in(
    alloc: Global,
    rounds: &mut Rounds,
    clauses: &[Clause],
    predicate: TraitPredicate,
    effort: Effort,
    goals: &[AskedGoal],
) -> Result<Vec<u16>, Stop>
    requires clauses { ClauseListFits rounds.old.context.trees clauses.now }
    requires read { IsReadGoal rounds.old.context predicate }
    ensures { Grows rounds.old.context rounds.new.context }
{
    match environment(rounds, clauses, predicate)? {
        Some(env) => rounds_of_goals(alloc, rounds, env, predicate, effort, goals),
        None => Ok(Vec::new(alloc)),
    }
}

/// After which round each of these goals was final, found by the same rounds in a new evaluator, one by one.
fn look_back(
    alloc: Global,
    cx: Cx,
    given: &Given,
    predicate: TraitPredicate,
    effort: Effort,
    goals: &[AskedGoal],
) -> (Cx, Result<Vec<u16>, Stop>)
    requires given { GivenIsListed cx.trees given.now }
    requires read { IsReadGoal cx predicate }
    ensures { Grows cx result.0 }
{
    match evaluator(alloc, cx, given) {
        Ok(mut rounds) => {
            let clauses = given.clauses.as_slice();
            let since = look_back_in(alloc, &mut rounds, clauses, predicate, effort, goals);
            (context_of(rounds), since)
        }
        Err((cx, stop)) => (cx, Err(stop)),
    }
}

/// Why the goal came to what it did: the steps by which it holds, or else the goals that were asked for.
fn find_reasons(
    alloc: Global,
    rounds: &mut Rounds,
    env: ParamEnv,
    predicate: TraitPredicate,
) -> Result<Reasons, Stop>
    requires { IsGoal trait_kind rounds.old.context env predicate }
    ensures grows { Grows rounds.old.context rounds.new.context }
    ensures sorts { IfOk result (AreReasons rounds.new.context.trees) }
{
    match rounds.derivation(alloc, env, predicate)? {
        Some(tree) => Ok(Reasons::Steps(tree)),
        None => Ok(Reasons::Goals(asked_goals(alloc, rounds)?, Vec::new(alloc))),
    }
}

/// What a goal comes to under these clauses, and why.
fn ask_why(
    alloc: Global,
    rounds: &mut Rounds,
    clauses: &[Clause],
    predicate: TraitPredicate,
    effort: Effort,
) -> Result<Explained, Stop>
    requires some { IsEffort effort }
    requires clauses { ClauseListFits rounds.old.context.trees clauses.now }
    requires read { IsReadGoal rounds.old.context predicate }
    ensures grows { Grows rounds.old.context rounds.new.context }
    ensures comes { IfOk result (λ e. ComesBefore rounds.old rounds.new clauses.now predicate effort e.verdict) }
    ensures sorts { IfOk result (λ e. AreReasons rounds.new.context.trees e.reasons) }
{
    let Some(env) = environment(rounds, clauses, predicate)? else {
        return Ok(Explained {
            verdict: None,
            reasons: Reasons::Goals(Vec::new(alloc), Vec::new(alloc)),
        });
    };
    let verdict = run(alloc, rounds, env, predicate, effort)?;
    let reasons = find_reasons(alloc, rounds, env, predicate)?;
    Ok(Explained { verdict, reasons })
}

/// What a goal comes to, and why, asked of a new evaluator, which ends then.
fn explain_run(
    alloc: Global,
    cx: Cx,
    given: &Given,
    predicate: TraitPredicate,
    effort: Effort,
) -> (Cx, Result<Explained, Stop>)
    requires some { IsEffort effort }
    requires given { GivenIsListed cx.trees given.now }
    requires read { IsReadGoal cx predicate }
    ensures grows { Grows cx result.0 }
    ensures comes { IfOk result.1 (λ e. IsSolvedBefore cx given.now predicate effort result.0 e.verdict) }
    ensures sorts { IfOk result.1 (λ e. AreReasons result.0.trees e.reasons) }
{
    match evaluator(alloc, cx, given) {
        Ok(mut rounds) => {
            let clauses = given.clauses.as_slice();
            let explained = ask_why(alloc, &mut rounds, clauses, predicate, effort);
            (context_of(rounds), explained)
        }
        Err((cx, stop)) => (cx, Err(stop)),
    }
}

/// Adds to what a goal comes to, and why, after which round each goal is final that was asked for.
fn with_rounds(
    alloc: Global,
    cx: Cx,
    given: &Given,
    predicate: TraitPredicate,
    effort: Effort,
    explained: Explained,
) -> (Cx, Result<Explained, Stop>)
    requires given { GivenIsListed cx.trees given.now }
    requires read { IsReadGoal cx predicate }
    requires sorts { AreReasons cx.trees explained.reasons }
    ensures grows { Grows cx result.0 }
    ensures verdict { IfOk result.1 (λ e. e.verdict ≡ explained.verdict) }
    ensures sorts { IfOk result.1 (λ e. AreReasons result.0.trees e.reasons) }
{
    let Explained { verdict, reasons } = explained;
    let goals = match reasons {
        Reasons::Goals(goals, _) => goals,
        Reasons::Steps(tree) => {
            let reasons = Reasons::Steps(tree);
            return (cx, Ok(Explained { verdict, reasons }));
        }
    };
    let (cx, since) = look_back(alloc, cx, given, predicate, effort, goals.as_slice());
    match since {
        Ok(since) => {
            let reasons = Reasons::Goals(goals, since);
            (cx, Ok(Explained { verdict, reasons }))
        }
        Err(stop) => (cx, Err(stop)),
    }
}

/// What a goal comes to, and why, with the rounds after which goals were final.
fn explain_by_rounds(
    alloc: Global,
    cx: Cx,
    given: &Given,
    predicate: TraitPredicate,
    effort: Effort,
) -> (Cx, Result<Explained, Stop>)
    requires some { IsEffort effort }
    requires given { GivenIsListed cx.trees given.now }
    requires read { IsReadGoal cx predicate }
    ensures grows { Grows cx result.0 }
    ensures comes { IfOk result.1 (λ e. IsSolvedBefore cx given.now predicate effort result.0 e.verdict) }
    ensures sorts { IfOk result.1 (λ e. AreReasons result.0.trees e.reasons) }
{
    let (cx, explained) = explain_run(alloc, cx, given, predicate, effort);
    match explained {
        Ok(explained) => with_rounds(alloc, cx, given, predicate, effort, explained),
        Err(stop) => (cx, Err(stop)),
    }
}

/// Adds to what a goal comes to, and why, why goals are open that were asked for, if that is to be told.
fn with_open_goals(
    alloc: Global,
    mut cx: Cx,
    in_coherence: bool,
    tells_open: bool,
    explained: Explained,
) -> (Cx, Result<Explained, Stop>)
    requires sorts { AreReasons cx.trees explained.reasons }
    ensures grows { Grows cx result.0 }
    ensures verdict { IfOk result.1 (λ e. e.verdict ≡ explained.verdict) }
    ensures sorts { IfOk result.1 (λ e. AreReasons result.0.trees e.reasons) }
{
    if !tells_open {
        return (cx, Ok(explained));
    }
    let Explained { verdict, reasons } = explained;
    let (goals, since) = match reasons {
        Reasons::Goals(goals, since) => (goals, since),
        Reasons::Steps(tree) => {
            let reasons = Reasons::Steps(tree);
            return (cx, Ok(Explained { verdict, reasons }));
        }
    };
    let told = look_at_open(alloc, &mut cx, in_coherence, goals.as_slice());
    match told {
        Ok(goals) => {
            let reasons = Reasons::Goals(goals, since);
            (cx, Ok(Explained { verdict, reasons }))
        }
        Err(stop) => (cx, Err(stop)),
    }
}

/// What a goal comes to in so many rounds at most, and why: the steps by which it holds, as `Rounds::derivation` finds them; or else the
/// goals that were asked for, with what each came to, and after which round that was final; if that is to be told, also why it is open. The
/// context has the nodes that were made meanwhile. It stops as `Rounds::run` does.
pub fn explain(
    alloc: Global,
    cx: Cx,
    given: &Given,
    predicate: TraitPredicate,
    effort: Effort,
    tells_open: bool,
) -> (Cx, Result<Explained, Stop>)
    requires some { IsEffort effort }
    requires given { GivenIsListed cx.trees given.now }
    requires read { IsReadGoal cx predicate }
    ensures grows { Grows cx result.0 }
    ensures comes { IfOk result.1 (λ e. IsSolvedBefore cx given.now predicate effort result.0 e.verdict) }
    ensures sorts { IfOk result.1 (λ e. AreReasons result.0.trees e.reasons) }
{
    let (cx, explained) = explain_by_rounds(alloc, cx, given, predicate, effort);
    match explained {
        Ok(explained) => with_open_goals(
            alloc,
            cx,
            given.mode.is_coherence(),
            tells_open,
            explained,
        ),
        Err(stop) => (cx, Err(stop)),
    }
}
