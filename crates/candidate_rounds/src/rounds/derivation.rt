//! Derivations as data: goals that hold, each with the rule by which it does and the steps that it rests on; and a check of such data.

ghost use Rattle.std.specs.Prelude.{◌≡◌, ◌<◌, ◌≤◌, ◌++◌, ◌∷◌, ◌⊎◌, ◌+◌, List, [], None, Some, true, false, length, set, slice_get, take, IfErr, IfOk, IfSome, MatchOption, OnOk};
ghost use Rattle.std.specs.List.{filter_map};
ghost use Rattle.ir_trees.specs.declared.ir.stop.Stop.{Stop};
ghost use Rattle.ir_trees.specs.Syntax.Trees.{Tree};
ghost use Rattle.candidate_eval.specs.Interface.Noting.{IsNotingStop};
ghost use Rattle.candidate_eval.specs.Outcomes.ResponseTrees.{AreCandidates, IsCopy, IsResponse, candidates_of};
ghost use Rattle.candidate_assembly.specs.Goals.KindShown.{IsGoal, trait_kind};
ghost use Rattle.candidate_assembly.specs.Goals.Standing.{GoalIsValid};
ghost use Rattle.candidate_assembly.specs.Goals.TraitGoals.{trait_goal};
ghost use Rattle.candidate_assembly.specs.Goals.TraitRules.{trait_rules};
ghost use Rattle.candidate_rounds.specs.Evaluators.Known.{IsEvaluator, listing, state, table_of};
ghost use Rattle.candidate_rounds.specs.Table.Steps.{AreListedFor, AreMarks, AreNeeded, AssemblesHere, EndsAtPlace, IsDerivationOf, IsListed, IsMoved, IsStep, IsStepFor, IsSureBy, IsSureOfOne, IsUpTo, IsYesAt, NoneIsFor, StepsHold, SureHoldBeside, entries_of, is_marked, no_goals, step_entry, with_mark, with_marks, yes_entry};
ghost use Rattle.candidate_rounds.specs.Table.Sources.{AreBySource, AreFoundBy, AreNotListed, IsBySource, IsTableAt, OneIsNotBySource, WereBySource, with_step};
ghost use Rattle.candidate_rounds.specs.Table.StepStops.{AreOfSteps, AreStepsStop, IsAssumingStop, IsDerivationStop, IsGoalListStop, IsKeyListStop, IsSearchStop, IsStepStop};
ghost use Rattle.candidate_rounds.specs.Table.Goals.{Each, IsKeyOf, IsTabled, IsTraitGoal, IsVerdict, entry_seen, key_seen, table_seen, verdict_seen};
ghost use Rattle.rounds_judge.specs.Table.GoalTable.{may_be_asked, may_be_read, most_goals};
ghost use Rattle.rounds_judge.specs.Table.Keys.{key_at};
ghost use Rattle.std.specs.Option.{option_map};
ghost use Rattle.candidate_rounds.specs.Table.Running.{StaysBesideTable};
ghost use Rattle.derivations.specs.DerivedTables.{EachIsDerived};

use crate::rounds::Rounds;
use crate::rounds::cleanness::has_error_region;
use crate::rounds::goals::{GoalKey, Goals, MAX_GOALS, Slot, Verdict};
use crate::rounds::keys::may_be_read;
use crate::rounds::running::start_of;
use crate::rounds::searching::Search;
use crate::rounds::writing::is_same_response;
use candidate_assembly::assembly::candidates::{
    FailedCandidateInfo, assemble_and_evaluate_candidates,
};
use candidate_assembly::assembly::opaques::AssembleCandidatesFrom;
use candidate_eval::eval::certainty::Certainty;
use candidate_eval::eval::response::{Candidate, CanonicalResponse};
use candidate_eval::eval::source::CandidateSource;
use ir_trees::ir::kinds::{ParamEnv, TraitPredicate};
use ir_trees::ir::stop::Stop;
use ir_trees::ir::trees::Trees;
use std::alloc::Global;

/// A goal that holds by a rule.
#[derive(Drop)]
pub struct DerivationStep {
    /// The goal.
    pub key: GoalKey,
    /// The rule by which it holds.
    pub source: CandidateSource,
    /// What it comes to by the rule. It is sure.
    pub response: CanonicalResponse,
    /// The places of the steps that the rule rests on, which are all before this one.
    pub nested: Vec<usize>,
}

/// Why a goal holds: steps, of which the last one is that of the goal.
#[derive(Drop)]
pub struct DerivationTree {
    pub steps: Vec<DerivationStep>,
}

/// Whether the candidate is sure and has that response.
fn is_sure(candidate: &Candidate, response: &CanonicalResponse) -> bool
    ensures sure { result ≡ true → IsSureBy candidate.now.source response.now candidate.now }
    ensures other { result ≡ false → IsSureBy candidate.now.source response.now candidate.now → ⊥ }
{
    match candidate.result.certainty {
        Certainty::Yes => is_same_response(&candidate.result, response),
        Certainty::Maybe(_) => false,
    }
}

/// Whether the candidate is by that rule, is sure and has that response.
fn is_by(candidate: &Candidate, source: CandidateSource, response: &CanonicalResponse) -> bool
    ensures sure { result ≡ true → IsSureBy source response.now candidate.now }
    ensures other { result ≡ false → IsSureBy source response.now candidate.now → ⊥ }
{
    candidate.source == source && is_sure(candidate, response)
}

/// Whether one of the candidates is by that rule, is sure and has that response.
fn are_by(candidates: &[Candidate], source: CandidateSource, response: &CanonicalResponse) -> bool
    ensures one { result ≡ true → IsSureOfOne candidates.now source response.now }
    ensures none { result ≡ false → IsSureOfOne candidates.now source response.now → ⊥ }
{
    for i in 0..candidates.len() {
        if is_by(&candidates[i], source, response) {
            return true;
        }
    }
    false
}

/// The rule of the first of the candidates that is sure and has that response, if one has.
fn rule_of(candidates: &[Candidate], response: &CanonicalResponse) -> Option<CandidateSource>
    ensures { IfSome result (λ s. IsSureOfOne candidates.now s response.now) }
{
    for i in 0..candidates.len() {
        if is_sure(&candidates[i], response) {
            return Some(candidates[i].source);
        }
    }
    None
}

/// The numbers but for the one of that place. The only stop is `Stop::Memory`.
fn without(alloc: Global, numbers: &[usize], place: usize) -> Result<Vec<usize>, Stop>
    ensures { IfErr result (λ s. s ≡ Stop.Memory) }
{
    let mut others = Vec::new(alloc);
    for i in 0..numbers.len() {
        if i != place {
            others.push(numbers[i])?;
        }
    }
    Ok(others)
}

/// The step of that place, if there is one.
fn step_at(steps: &[DerivationStep], place: usize) -> Option<&DerivationStep>
    ensures { MatchOption result (slice_get steps.now place ≡ None) (λ s. slice_get steps.now place ≡ Some s.now) }
{
    if place >= steps.len() {
        return None;
    }
    Some(&steps[place])
}

/// The goal of that place of a table, and what it comes to, where it is a Yes.
fn yes_of(goals: &Goals, place: usize) -> Option<(&GoalKey, &CanonicalResponse)>
    requires { place < length goals.now.table }
    ensures sort { (ts : List Tree) → IsTabled ts goals.now → IfSome result (λ p. IsTraitGoal ts p.0.now.goal × IsResponse ts p.1.now) }
    ensures is { (ts : List Tree) → IfSome result (λ p. IsYesAt ts (table_seen ts goals.now.table) place (key_seen ts p.0.now) p.1.now) }
{
    let (key, slot) = goals.entry_at(place);
    match &slot.verdict {
        Some(Verdict::Yes(response, _)) => Some((key, response)),
        _ => None,
    }
}

/// Whether the step is for that goal and says that it holds so.
fn is_for(step: &DerivationStep, key: &GoalKey, response: &CanonicalResponse) -> bool
    ensures yes { result ≡ true → IsStepFor key.now response.now step.now }
    ensures other { result ≡ false → IsStepFor key.now response.now step.now → ⊥ }
{
    step.key == *key && is_same_response(response, &step.response)
}

/// The steps up to and with the first one that is for that goal and says that it holds so, if there is one.
fn up_to<'a>(
    steps: &'a [DerivationStep],
    key: &GoalKey,
    response: &CanonicalResponse,
) -> Option<&'a [DerivationStep]>
    ensures { MatchOption result (NoneIsFor steps.now key.now response.now) (λ s. IsUpTo steps.now key.now response.now s.now) }
{
    for i in 0..steps.len() {
        if is_for(&steps[i], key, response) {
            return Some(&steps[..i + 1]);
        }
    }
    None
}

/// Whether there is a mark at that place.
fn is_marked(marks: &[bool], place: usize) -> bool
    ensures { result ≡ is_marked marks.now place }
{
    place < marks.len() && marks[place]
}

/// Marks that place, if there is one.
fn mark(marks: &mut Vec<bool>, place: usize)
    ensures { marks.new.items ≡ set marks.old.items place true }
{
    if place >= marks.len() {
        return;
    }
    marks[place] = true;
}

/// Marks that place, if there is one and it is below the bound.
fn mark_below(marks: &mut Vec<bool>, place: usize, bound: usize)
    ensures { marks.new.items ≡ with_mark marks.old.items place bound }
{
    if place >= bound {
        return;
    }
    mark(marks, place);
}

/// Marks those of these places that are below the bound.
fn mark_all_below(marks: &mut Vec<bool>, places: &[usize], bound: usize)
    ensures { marks.new.items ≡ with_marks marks.old.items places.now bound }
{
    for i in 0..places.len() {
        mark_below(marks, places[i], bound);
    }
}

/// Which steps the last one rests on: itself, and whatever those rest on that it does. The only stop is `Stop::Memory`.
fn marks_of(alloc: Global, steps: &[DerivationStep]) -> Result<Vec<bool>, Stop>
    ensures are { IfOk result (λ v. AreMarks steps.now v.items) }
    ensures cause { IfErr result (λ s. s ≡ Stop.Memory) }
{
    let mut marks = vec![in alloc; false; steps.len()]?;
    mark(&mut marks, steps.len().saturating_sub(1));
    for back in 0..steps.len() {
        let place = steps.len() - 1 - back;
        if is_marked(marks.as_slice(), place) {
            mark_all_below(&mut marks, steps[place].nested.as_slice(), place);
        }
    }
    Ok(marks)
}

/// Adds the place that the step of that place has now, if it has one. The only stop is `Stop::Memory`.
fn push_place(nested: &mut Vec<usize>, places: &[usize], place: usize) -> Result<(), Stop>
    ensures pushed { OnOk result (nested.new.items ≡ nested.old.items ++ filter_map (slice_get places.now) (place ∷ [])) }
    ensures cause { IfErr result (λ s. s ≡ Stop.Memory) }
{
    if place >= places.len() {
        return Ok(());
    }
    nested.push(places[place])?;
    Ok(())
}

impl DerivationStep {
    /// The step again, where the steps that it rests on have these places now; it names no others. The only stop is `Stop::Memory`.
    fn moved(&self, alloc: Global, places: &[usize]) -> Result<DerivationStep, Stop>
        ensures step { (ts : List Tree) → IsStep ts self.now → IfOk result (IsStep ts) }
        ensures moved { IfOk result (IsMoved self.now (filter_map (slice_get places.now) self.now.nested.items)) }
        ensures cause { IfErr result (λ s. s ≡ Stop.Memory) }
    {
        let mut nested = Vec::new(alloc);
        for i in 0..self.nested.len() {
            push_place(&mut nested, places, self.nested[i])?;
        }
        Ok(DerivationStep {
            key: self.key.copied()?,
            source: self.source,
            response: self.response.copied()?,
            nested,
        })
    }
}

/// The steps on which the last one rests, in their order, and it. The only stop is `Stop::Memory`.
fn needed(alloc: Global, steps: &[DerivationStep]) -> Result<Vec<DerivationStep>, Stop>
    ensures are { (ts : List Tree) → Each (IsStep ts) steps.now → IfOk result (λ v. Each (IsStep ts) v.items) }
    ensures needed { IfOk result (λ v. AreNeeded steps.now v.items) }
    ensures cause { IfErr result (λ s. s ≡ Stop.Memory) }
{
    let marks = marks_of(alloc, steps)?;
    let mut kept = Vec::new(alloc);
    let mut places = Vec::new(alloc);
    for i in 0..steps.len() {
        let place = kept.len();
        if is_marked(marks.as_slice(), i) {
            kept.push(steps[i].moved(alloc, places.as_slice())?)?;
        }
        places.push(place)?;
    }
    Ok(kept)
}

/// Notes those of the steps whose goals an evaluator was asked for, and says whether one is new. The only stop is `Stop::Memory`.
fn note_asked(
    goals: &Goals,
    steps: &[DerivationStep],
    nested: &mut Vec<usize>,
) -> Result<bool, Stop>
    ensures { IfErr result (λ s. s ≡ Stop.Memory) }
{
    let before = nested.len();
    for place in 0..steps.len() {
        if goals.is_noted(&steps[place].key) && !nested.as_slice().contains(&place) {
            nested.push(place)?;
        }
    }
    Ok(nested.len() > before)
}

impl Rounds {
    /// The goals are put aside: there is none from now on.
    fn suspend_goals(&mut self, alloc: Global) -> Goals
        ensures out { self.new ≡ record self.old { goals = no_goals } }
        ensures goals { result ≡ self.old.goals }
    {
        self.recall_well_kept();
        self.cx.recall_well_formed_table();
        std::mem::replace(&mut self.goals, Goals::new(alloc))
    }

    /// The goals that were put aside are there again.
    fn restore_goals(&mut self, goals: Goals)
        requires { IsEvaluator self.old.context self.old.inference self.old.marks self.old.normal self.old.opaques goals }
        ensures { self.new ≡ record self.old { goals = goals } }
    {
        self.goals = goals;
    }

    /// The list of a goal's candidates at what is known, by `assemble_and_evaluate_candidates`.
    fn list_here(
        &mut self,
        alloc: Global,
        param_env: ParamEnv,
        predicate: TraitPredicate,
    ) -> Result<(Vec<Candidate>, FailedCandidateInfo), Stop>
        requires goal { IsGoal trait_kind self.old.context param_env predicate }
        requires stands { GoalIsValid trait_rules (state self.old) (trait_goal self.old.context.trees param_env predicate) }
        ensures { AssemblesHere self.old self.new (trait_goal self.old.context.trees param_env predicate) (λ r. r.0.items) result }
    {
        assemble_and_evaluate_candidates(
            alloc,
            self,
            param_env,
            predicate,
            AssembleCandidatesFrom::All,
        )
    }

    /// The candidates for the goal of a key, where nothing else is known. What is known stays.
    fn candidates_for(&mut self, alloc: Global, key: &GoalKey) -> Result<Vec<Candidate>, Stop>
        requires key { IsKeyOf self.old.context.trees key.now }
        ensures stays { StaysBesideTable self.old self.new }
        ensures table { table_of self.new ≡ table_of self.old }
        ensures fit { IfOk result (λ v. AreCandidates self.new.context.trees v.items) }
        ensures listed { let k = key_seen self.old.context.trees key.now in IfOk result (λ v. IsListed self.old (table_of self.old) k (candidates_of self.new.context.trees v.items)) }
        ensures cause { IfErr result (IsKeyListStop self.new.context.trees self.old (table_of self.old) (key_seen self.old.context.trees key.now)) }
    {
        self.recall_well_kept();
        self.cx.recall_well_formed_table();
        let start = start_of(alloc, &self.cx, key)?;
        let aside = self.suspend_state(alloc, start.inference);
        let answer = self.list_here(alloc, start.param_env, start.predicate);
        self.recall_well_kept();
        self.restore_state(aside);
        let (candidates, _) = answer?;
        Ok(candidates)
    }

    /// The candidates for a goal, by the table, where nothing but the goal's own variables is known: each with its source and what it comes to.
    /// The table, what is known, what is pending and the open probes stay, also where it stops.
    ///
    /// `Stop::Memory` comes where a growth was refused; `Stop::NodesFull` where no numbers are left, a tree would be higher than 1,024, or the
    /// variables or the children of a node are too many; `Stop::EvaluatorLimit` where listing comes to it; and others where the rules for the
    /// goal come to them.
    pub fn candidates(
        &mut self,
        alloc: Global,
        param_env: ParamEnv,
        predicate: TraitPredicate,
    ) -> Result<Vec<Candidate>, Stop>
        requires goal { IsGoal trait_kind self.old.context param_env predicate }
        requires asked { may_be_asked (key_at (state self.old) (trait_goal self.old.context.trees param_env predicate)) ≡ true }
        ensures stays { StaysBesideTable self.old self.new }
        ensures table { table_of self.new ≡ table_of self.old }
        ensures fit { IfOk result (λ v. AreCandidates self.new.context.trees v.items) }
        ensures listed { IfOk result (λ v. AreListedFor self.old self.new (trait_goal self.old.context.trees param_env predicate) v.items) }
        ensures cause { IfErr result (IsGoalListStop self.new.context.trees self.old (trait_goal self.old.context.trees param_env predicate)) }
    {
        self.recall_well_kept();
        let key = self.key_for(alloc, param_env, predicate)?;
        self.candidates_for(alloc, &key)
    }

    /// What is known of a goal that holds, as a response says. It stops as `may_be_read` does, or where a growth was refused.
    fn slot_for(
        &self,
        alloc: Global,
        key: &GoalKey,
        response: &CanonicalResponse,
    ) -> Result<Slot, Stop>
        requires key { IsTraitGoal self.now.context.trees key.now.goal }
        requires response { IsResponse self.now.context.trees response.now }
        ensures says { let ts = self.now.context.trees in IfOk result (λ s. entry_seen ts (key.now, s) ≡ yes_entry ts key.now response.now) }
        ensures sort { IfOk result (λ s. IsVerdict self.now.context.trees s.verdict) }
        ensures readable { let ts = self.now.context.trees in IfOk result (λ s. s.is_readable ≡ may_be_read (key_seen ts key.now) (option_map (verdict_seen ts) s.verdict)) }
        ensures cause { IfErr result (λ s. IsNotingStop self.now.context.trees s) }
    {
        let verdict = Verdict::Yes(response.copied()?, None);
        let is_readable = may_be_read(alloc, &self.cx, key, &verdict)?;
        Ok(Slot {
            verdict: Some(verdict),
            is_readable,
            leaks: false,
        })
    }

    /// Enters the goal of a step, as it says, unless it is there already. Whether it may be asked is answered; else it isn't entered.
    /// `Stop::EvaluatorLimit` comes where there are 65,536 goals, the others as `may_be_asked` and `slot_for` stop.
    fn assume(&mut self, alloc: Global, step: &DerivationStep) -> Result<bool, Stop>
        requires step { IsStep self.old.context.trees step.now }
        requires asked { self.old.goals.asked ≡ [] }
        requires holds { EachIsDerived self.old.context (listing self.old) (table_of self.old ++ step_entry self.old.context.trees step.now ∷ []) }
        ensures same { self.new ≡ record self.old { goals = self.new.goals } }
        ensures asked { self.new.goals.asked ≡ [] }
        ensures entered { (table_of self.new ≡ table_of self.old) ⊎ (table_of self.new ≡ table_of self.old ++ step_entry self.old.context.trees step.now ∷ []) }
        ensures table { let ts = self.old.context.trees in IfOk result (λ b. b ≡ true → table_of self.new ≡ with_step ts (table_of self.old) step.now) }
        ensures not_asked { IfOk result (λ b. b ≡ false → may_be_asked (key_seen self.old.context.trees step.now.key) ≡ false) }
        ensures cause { IfErr result (λ s. IsNotingStop self.old.context.trees s ⊎ ((s ≡ Stop.EvaluatorLimit) × (most_goals ≤ length self.old.goals.table))) }
    {
        let key = step.key.copied()?;
        if !self.may_be_asked(alloc, &key)? {
            return Ok(false);
        }
        if self.place_of(&key).is_some() {
            return Ok(true);
        }
        let slot = self.slot_for(alloc, &key, &step.response)?;
        self.enter_known(key, slot)?;
        Ok(true)
    }

    /// Enters what these steps say alone; `false`, where they aren't all among the steps, or a goal may not be asked. It stops as `assume`
    /// does: its table is full only where 65,536 steps or more are named.
    fn assume_all(
        &mut self,
        alloc: Global,
        steps: &[DerivationStep],
        nested: &[usize],
    ) -> Result<bool, Stop>
        requires holds { StepsHold self.old.context (listing self.old) steps.now }
        ensures same { self.new ≡ record self.old { goals = self.new.goals } }
        ensures holds { EachIsDerived self.new.context (listing self.new) (table_of self.new ++ entries_of self.new.context.trees steps.now) }
        ensures only { AreOfSteps self.old.context.trees steps.now (table_of self.new) }
        ensures table { IfOk result (λ b. b ≡ true → IsTableAt self.old.context.trees steps.now nested.now (table_of self.new)) }
        ensures not_all { IfOk result (λ b. b ≡ false → (k : GoalKey) → AreNotListed self.old.context.trees steps.now nested.now k) }
        ensures cause { IfErr result (IsAssumingStop self.old.context.trees nested.now) }
    {
        self.suspend_goals(alloc);
        for i in 0..nested.len() {
            let Some(step) = step_at(steps, nested[i]) else {
                return Ok(false);
            };
            if !self.assume(alloc, step)? {
                return Ok(false);
            }
        }
        Ok(true)
    }

    /// The candidates for the goal of a key where what these steps say holds and nothing else is known; none, where they aren't all among the
    /// steps, a goal may not be asked, or a region that is an error stands in what the key's goal says.
    fn candidates_by(
        &mut self,
        alloc: Global,
        steps: &[DerivationStep],
        nested: &[usize],
        key: &GoalKey,
    ) -> Result<Vec<Candidate>, Stop>
        requires holds { StepsHold self.old.context (listing self.old) steps.now }
        requires key { IsTraitGoal self.old.context.trees key.now.goal }
        ensures stays { StaysBesideTable self.old self.new }
        ensures sure { IfOk result (λ v. SureHoldBeside self.new.context (listing self.new) steps.now key.now v.items) }
        ensures fit { IfOk result (λ v. AreCandidates self.new.context.trees v.items) }
        ensures found { IfOk result (λ v. AreFoundBy self.old self.new steps.now nested.now key.now v.items) }
        ensures cause { IfErr result (IsStepStop self.new.context.trees self.old steps.now nested.now (key_seen self.new.context.trees key.now)) }
    {
        if !self.assume_all(alloc, steps, nested)? {
            return Ok(Vec::new(alloc));
        }
        if !self.may_be_asked(alloc, key)? {
            return Ok(Vec::new(alloc));
        }
        if has_error_region(alloc, &self.cx, key) {
            return Ok(Vec::new(alloc));
        }
        self.set_asking(true);
        self.recall_well_kept();
        self.recall_trees_fit();
        self.candidates_for(alloc, key)
    }

    /// Whether the step of that place is by its rule, where nothing holds but what the steps say that it rests on, which stand before it.
    fn step_holds(
        &mut self,
        alloc: Global,
        steps: &[DerivationStep],
        place: usize,
    ) -> Result<bool, Stop>
        requires place { place < length steps.now }
        requires are { Each (IsStep self.old.context.trees) steps.now }
        requires before { StepsHold self.old.context (listing self.old) (take place steps.now) }
        ensures stays { StaysBesideTable self.old self.new }
        ensures holds { IfOk result (λ b. b ≡ true → StepsHold self.new.context (listing self.new) (take (place + 1) steps.now)) }
        ensures source { IfOk result (λ b. b ≡ true → (s : DerivationStep) → slice_get steps.now place ≡ Some s → IsBySource self.old (take place steps.now) s) }
        ensures refused { IfOk result (λ b. b ≡ false → OneIsNotBySource self.old steps.now) }
        ensures cause { IfErr result (AreStepsStop self.new.context.trees self.old steps.now) }
    {
        let step = &steps[place];
        let nested = step.nested.as_slice();
        let candidates = self.candidates_by(alloc, &steps[..place], nested, &step.key)?;
        self.cx.recall_distinct();
        Ok(are_by(candidates.as_slice(), step.source, &step.response))
    }

    /// Whether each of the steps is, one after the other.
    fn steps_hold(&mut self, alloc: Global, steps: &[DerivationStep]) -> Result<bool, Stop>
        requires { Each (IsStep self.old.context.trees) steps.now }
        ensures stays { StaysBesideTable self.old self.new }
        ensures holds { IfOk result (λ b. b ≡ true → StepsHold self.new.context (listing self.new) steps.now) }
        ensures sources { IfOk result (λ b. b ≡ true → AreBySource self.old steps.now) }
        ensures refused { IfOk result (λ b. b ≡ false → OneIsNotBySource self.old steps.now) }
        ensures cause { IfErr result (AreStepsStop self.new.context.trees self.old steps.now) }
    {
        self.recall_well_kept();
        for place in 0..steps.len() {
            if !self.step_holds(alloc, steps, place)? {
                return Ok(false);
            }
        }
        Ok(true)
    }

    /// Whether the steps are a derivation: each of them is by its rule, where what it rests on holds, which is before it, and nothing else is
    /// known. The table isn't read, and stays. The numbers of the steps are of the context.
    ///
    /// Where it is `true` each of the steps is by its rule, and each of the goals has a derivation; where it is `false` one of the steps isn't by
    /// its rule as it stands there, which says no more than that: its goal may hold by another one. A step in whose goal a region is an error is
    /// by no rule here.
    ///
    /// It stops at one of the steps: `Stop::EvaluatorLimit` comes where that rests on 65,536 steps or more, or where listing its goal's
    /// candidates comes to it; `Stop::Memory` where a growth was refused; `Stop::NodesFull` where no numbers are left, a tree would be higher
    /// than 1,024, or the variables or the children of a node are too many; and others where the rules for its goal come to them.
    pub fn check_derivation(&mut self, alloc: Global, tree: &DerivationTree) -> Result<bool, Stop>
        requires { Each (IsStep self.old.context.trees) tree.now.steps.items }
        ensures stays { StaysBesideTable self.old self.new }
        ensures table { table_of self.new ≡ table_of self.old }
        ensures holds { IfOk result (λ b. b ≡ true → StepsHold self.new.context (listing self.new) tree.now.steps.items) }
        ensures sources { IfOk result (λ b. b ≡ true → AreBySource self.old tree.now.steps.items) }
        ensures refused { IfOk result (λ b. b ≡ false → OneIsNotBySource self.old tree.now.steps.items) }
        ensures cause { IfErr result (AreStepsStop self.new.context.trees self.old tree.now.steps.items) }
    {
        self.recall_well_kept();
        let goals = self.suspend_goals(alloc);
        let answer = self.steps_hold(alloc, tree.steps.as_slice());
        self.recall_well_kept();
        self.restore_goals(goals);
        answer
    }

    /// Those of the steps without which the goal of the key doesn't hold by that rule, where it does with all of them.
    fn fewest(
        &mut self,
        alloc: Global,
        steps: &[DerivationStep],
        step: &DerivationStep,
    ) -> Result<Vec<usize>, Stop>
        requires holds { StepsHold self.old.context (listing self.old) steps.now }
        requires step { IsStep self.old.context.trees step.now }
        ensures stays { StaysBesideTable self.old self.new }
        ensures cause { IfErr result (IsSearchStop self.new.context.trees self.old) }
    {
        let mut kept = step.nested.clone()?;
        for back in 0..step.nested.len() {
            let fewer = without(alloc, kept.as_slice(), step.nested.len() - 1 - back)?;
            let candidates = self.candidates_by(alloc, steps, fewer.as_slice(), &step.key)?;
            if are_by(candidates.as_slice(), step.source, &step.response) {
                kept = fewer;
            }
        }
        Ok(kept)
    }

    /// The step by which the goal of the key holds as the response says, where nothing but the goals of these steps does; `None` where
    /// there is none. What the goal asks for is added to `asked`, by the places in that table.
    fn step_for(
        &mut self,
        alloc: Global,
        steps: &[DerivationStep],
        key: &GoalKey,
        response: &CanonicalResponse,
        goals: &Goals,
        asked: &mut Vec<usize>,
    ) -> Result<Option<DerivationStep>, Stop>
        requires holds { StepsHold self.old.context (listing self.old) steps.now }
        requires key { IsTraitGoal self.old.context.trees key.now.goal }
        requires response { IsResponse self.old.context.trees response.now }
        ensures stays { StaysBesideTable self.old self.new }
        ensures holds { IfOk result (λ o. IfSome o (λ s. StepsHold self.new.context (listing self.new) (steps.now ++ s ∷ []))) }
        ensures cause { IfErr result (IsSearchStop self.new.context.trees self.old) }
    {
        let mut nested = Vec::new(alloc);
        for _more in 0..MAX_GOALS {
            let candidates = self.candidates_by(alloc, steps, nested.as_slice(), key)?;
            if let Some(source) = rule_of(candidates.as_slice(), response) {
                return Ok(Some(DerivationStep {
                    key: key.copied()?,
                    source,
                    response: response.copied()?,
                    nested,
                }));
            }
            self.goals.note_asked_in(goals, asked)?;
            if !note_asked(&self.goals, steps, &mut nested)? {
                return Ok(None);
            }
        }
        Ok(None)
    }

    /// The step with no more steps to rest on than it needs.
    fn with_fewest(
        &mut self,
        alloc: Global,
        steps: &[DerivationStep],
        step: DerivationStep,
    ) -> Result<DerivationStep, Stop>
        requires before { StepsHold self.old.context (listing self.old) steps.now }
        requires holds { StepsHold self.old.context (listing self.old) (steps.now ++ step ∷ []) }
        ensures stays { StaysBesideTable self.old self.new }
        ensures holds { IfOk result (λ s. StepsHold self.new.context (listing self.new) (steps.now ++ s ∷ [])) }
        ensures cause { IfErr result (IsSearchStop self.new.context.trees self.old) }
    {
        let fewest = self.fewest(alloc, steps, &step)?;
        let DerivationStep {
            key,
            source,
            response,
            ..
        } = step;
        Ok(DerivationStep {
            key,
            source,
            response,
            nested: fewest,
        })
    }

    /// The steps with one more for the goal of that place of a table, if it is a Yes that has none yet and one is found.
    fn extended(
        &mut self,
        alloc: Global,
        goals: &Goals,
        steps: Vec<DerivationStep>,
        search: &mut Search,
        place: usize,
    ) -> Result<Vec<DerivationStep>, Stop>
        requires place { place < length goals.now.table }
        requires tabled { IsTabled self.old.context.trees goals.now }
        requires holds { StepsHold self.old.context (listing self.old) steps.items }
        ensures stays { StaysBesideTable self.old self.new }
        ensures holds { IfOk result (λ v. StepsHold self.new.context (listing self.new) v.items) }
        ensures cause { IfErr result (IsSearchStop self.new.context.trees self.old) }
    {
        if !search.is_due(place) {
            return Ok(steps);
        }
        let Some((key, response)) = yes_of(goals, place) else {
            return Ok(steps);
        };
        let mut asked = Vec::new(alloc);
        let step = self.step_for(alloc, steps.as_slice(), key, response, goals, &mut asked)?;
        let Some(step) = step else {
            search.wait(alloc, place, asked.as_slice())?;
            return Ok(steps);
        };
        let step = self.with_fewest(alloc, steps.as_slice(), step)?;
        search.note_found(place);
        let mut steps = steps;
        steps.push(step)?;
        Ok(steps)
    }

    /// The steps with one more for each goal of a table that is a Yes without one, where one is found; one goal after the other.
    fn all_extended(
        &mut self,
        alloc: Global,
        goals: &Goals,
        steps: Vec<DerivationStep>,
        search: &mut Search,
    ) -> Result<Vec<DerivationStep>, Stop>
        requires tabled { IsTabled self.old.context.trees goals.now }
        requires holds { StepsHold self.old.context (listing self.old) steps.items }
        ensures stays { StaysBesideTable self.old self.new }
        ensures holds { IfOk result (λ v. StepsHold self.new.context (listing self.new) v.items) }
        ensures cause { IfErr result (IsSearchStop self.new.context.trees self.old) }
    {
        let mut steps = steps;
        for place in 0..goals.len() {
            steps = self.extended(alloc, goals, steps, search, place)?;
        }
        Ok(steps)
    }

    /// Steps for goals of a table, each found by those before it, among them one for the goal of that place; `None` where that isn't found.
    fn find_steps(
        &mut self,
        alloc: Global,
        goals: &Goals,
        place: usize,
    ) -> Result<Option<Vec<DerivationStep>>, Stop>
        requires tabled { IsTabled self.old.context.trees goals.now }
        ensures stays { StaysBesideTable self.old self.new }
        ensures are { IfOk result (λ o. IfSome o (λ v. Each (IsStep self.new.context.trees) v.items)) }
        ensures cause { IfErr result (IsSearchStop self.new.context.trees self.old) }
    {
        self.recall_well_kept();
        let mut search = Search::new(alloc, goals.len())?;
        let mut steps = Vec::new(alloc);
        for _pass in 0..goals.len() {
            let before = steps.len();
            steps = self.all_extended(alloc, goals, steps, &mut search)?;
            if search.is_found(place) {
                return Ok(Some(steps));
            }
            if steps.len() == before {
                return Ok(None);
            }
        }
        Ok(None)
    }

    /// Why the goal of that place of a table holds, if it is a Yes: what was found, without what isn't needed.
    fn derivation_of(
        &mut self,
        alloc: Global,
        goals: &Goals,
        place: usize,
    ) -> Result<Option<DerivationTree>, Stop>
        requires place { place < length goals.now.table }
        requires tabled { IsTabled self.old.context.trees goals.now }
        ensures stays { StaysBesideTable self.old self.new }
        ensures whose { IfOk result (λ o. IfSome o (λ t. EndsAtPlace self.new.context.trees goals.now.table place t.steps.items)) }
        ensures holds { IfOk result (λ o. IfSome o (λ t. StepsHold self.new.context (listing self.new) t.steps.items)) }
        ensures sources { IfOk result (λ o. IfSome o (λ t. WereBySource self.old self.new t.steps.items)) }
        ensures cause { IfErr result (IsSearchStop self.new.context.trees self.old) }
    {
        let Some((key, response)) = yes_of(goals, place) else {
            return Ok(None);
        };
        let Some(found) = self.find_steps(alloc, goals, place)? else {
            return Ok(None);
        };
        let Some(steps) = up_to(found.as_slice(), key, response) else {
            return Ok(None);
        };
        let steps = needed(alloc, steps)?;
        if self.steps_hold(alloc, steps.as_slice())? {
            Ok(Some(DerivationTree { steps }))
        } else {
            Ok(None)
        }
    }

    /// Why a goal holds that the table has as a Yes: steps that `check_derivation` accepts, of which the last is the goal's. `None` where the
    /// table hasn't such a goal, or no derivation was found. The table, what is known, what is pending and the open probes stay.
    ///
    /// The rules of the table's goals are tried over what was found so far, so that it takes as long as the rounds that came to the Yes.
    /// `Stop::Memory` comes where a growth was refused; `Stop::NodesFull` where no numbers are left, a tree would be higher than 1,024, or the
    /// variables or the children of a node are too many; `Stop::EvaluatorLimit` where a step that is tried rests on 65,536 steps or more, or
    /// where listing candidates comes to it; and others where the rules for a goal that is tried come to them.
    pub fn derivation(
        &mut self,
        alloc: Global,
        param_env: ParamEnv,
        predicate: TraitPredicate,
    ) -> Result<Option<DerivationTree>, Stop>
        requires goal { IsGoal trait_kind self.old.context param_env predicate }
        ensures stays { StaysBesideTable self.old self.new }
        ensures table { table_of self.new ≡ table_of self.old }
        ensures whose { IfOk result (λ o. IfSome o (λ t. IsDerivationOf self.old self.new (trait_goal self.old.context.trees param_env predicate) t.steps.items)) }
        ensures holds { IfOk result (λ o. IfSome o (λ t. StepsHold self.new.context (listing self.new) t.steps.items)) }
        ensures sources { IfOk result (λ o. IfSome o (λ t. WereBySource self.old self.new t.steps.items)) }
        ensures cause { IfErr result (IsDerivationStop self.new.context.trees self.old (trait_goal self.old.context.trees param_env predicate)) }
    {
        self.recall_well_kept();
        let key = self.key_for(alloc, param_env, predicate)?;
        let Some(place) = self.place_of(&key) else {
            return Ok(None);
        };
        self.recall_well_kept();
        let goals = self.suspend_goals(alloc);
        let answer = self.derivation_of(alloc, &goals, place);
        self.recall_well_kept();
        self.restore_goals(goals);
        answer
    }
}
