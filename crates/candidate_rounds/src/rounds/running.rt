//! Rounds over the table of goals: a round computes each goal that isn't final, and then writes what they came to.

ghost use Rattle.std.specs.Prelude.{List, ◌≡◌, ◌+◌, ◌<◌, ◌≤◌, ◌⊎◌, ◌++◌, ◌∷◌, [], vec_capacity, vec_len, true, false, map, reverse, length, slice_get, None, Some, IfErr, IfOk, IsFalse, IsTrue, OnOk, OnErr, MatchOption, option_map};
ghost use Rattle.std.specs.Option.{option_copied};
ghost use Rattle.ir_trees.specs.declared.ir.stop.Stop.{Stop};
ghost use Rattle.ir_trees.specs.Declarations.Context.{Grows};
ghost use Rattle.ir_trees.specs.Declarations.References.{IsWellFormed};
ghost use Rattle.candidate_eval.specs.Interface.Evaluators.{NoFault};
ghost use Rattle.candidate_eval.specs.Judges.States.{is_some};
ghost use Rattle.ir_trees.specs.Syntax.Trees.{Tree};
ghost use Rattle.candidate_assembly.specs.Goals.Standing.{GoalIsValid};
ghost use Rattle.candidate_assembly.specs.Answers.Backing.{AnswerIsBacked};
ghost use Rattle.candidate_assembly.specs.Answers.TraitAnswers.{Computes};
ghost use Rattle.candidate_assembly.specs.Goals.TraitGoals.{trait_goal};
ghost use Rattle.candidate_assembly.specs.Goals.TraitRules.{trait_rules};
ghost use Rattle.candidate_eval.specs.Interface.Noting.{IsNotingStop};
ghost use Rattle.candidate_eval.specs.Outcomes.ResponseTrees.{IsCopy};
ghost use Rattle.candidate_rounds.specs.Table.Goals.{Each, IsEntryOf, IsKeyOf, IsTraitGoal, IsVerdict, Via, entry_of, entry_seen, goal_seen, key_seen, table_seen, verdict_seen, HasUnlessNoted};
ghost use Rattle.candidate_rounds.specs.Evaluators.Known.{GoesOn, IsEvaluator, listing, probes, state, sure_of, table_of};
ghost use Rattle.candidate_rounds.specs.Evaluators.Interface.{fixed, judge_of};
ghost use Rattle.candidate_rounds.specs.Calls.Starting.{started};
ghost use Rattle.candidate_rounds.specs.Calls.Writing.{ChangeTableOf};
ghost use Rattle.candidate_rounds.specs.Evaluators.Stopping.{IsGoalKeyStop, IsTreeStop, accounts, clause_saying};
ghost use Rattle.candidate_rounds.specs.Table.Running.{AreWritten, IsAnswer, answered_as, IsComputingStop, IsDoneBelow, IsDerivedFor, IsEnteringStop, IsLeftStopped, IsLeftUnsettled, IsPlaceOf, IsRoundStop, IsRunStop, IsWrittenAt, IsWrittenFor, MayBeEntered, PutsOffOneAtMost, StaysBesideTable, computing, told, verdict_at};
ghost use Rattle.candidate_rounds.specs.Table.Efforts.{IsEffort, IsLeftBy, Runs};
ghost use Rattle.candidate_rounds.specs.Table.Entries.{has_one, all_written_into, new_entry, write_verdict};
ghost use Rattle.derivations.specs.DerivedTables.{TableIsDerived};
ghost use Rattle.rounds_judge.specs.Table.GoalTable.{Entry, entered_in, is_entered, may_be_asked, may_be_read, most_goals, verdict_in};
ghost use Rattle.rounds_judge.specs.Table.Keys.{Key, key_at, newest_of, numbers_at};
ghost use Rattle.rounds_judge.specs.Table.Rounds as several;
ghost use Rattle.rounds_judge.specs.Table.Rounds.{AnyEntry, Changes, IsAtRest, IsFinalEntry, IsRound, IsRun, IsSettled, IsStep, Settles, StepsWithin, most_steps};
ghost use Rattle.rounds_judge.specs.Table.Verdicts.{is_final, verdict_of};
ghost use Rattle.candidate_assembly.specs.Goals.KindShown.{IsGoal, trait_kind};
ghost use Rattle.candidate_assembly.specs.Laws.Given.{IsCounted};

use crate::rounds::Rounds;
use crate::rounds::effort::Effort;
use crate::rounds::goals::{GoalKey, MAX_GOALS, Slot, Verdict, new_slot};
use crate::rounds::inference::Inference;
use crate::rounds::keys::{Asked, may_be_asked, may_be_read, newest_of};
use crate::rounds::writing::Written;
use candidate_assembly::assembly::merging::TraitGoalProvenVia;
use candidate_assembly::trait_goals::compute::compute_trait_goal;
use candidate_eval::eval::certainty::Certainty;
use candidate_eval::eval::clauses::predicate_in;
use candidate_eval::eval::mode::TypingMode;
use candidate_eval::eval::refusal::NoSolutionOrStop;
use candidate_eval::eval::response::CanonicalResponse;
use ir_context::decl::context::Cx;
use ir_context::decl::make::Build;
use ir_trees::ir::kinds::{Binder, Clause, ClauseKind, Goal, ParamEnv, TraitPredicate};
use ir_trees::ir::stop::Stop;
use ir_trees::ir::trees::Trees;
use std::alloc::Global;

/// As many steps as `run_settled` does at most.
pub(crate) const MAX_STEPS: u16 = 65_535;

/// What was known before a goal is computed, put aside meanwhile.
#[derive(Drop)]
pub(crate) struct Suspended {
    mode: TypingMode,
    inference: Inference,
    probes: Vec<usize>,
}

/// What a round leaves.
#[derive(Drop)]
struct Rounded {
    /// What is written for the goal that is asked.
    verdict: Verdict,
    /// Whether the table is as it was.
    is_still: bool,
}

/// What a goal is computed from: what is known there, and the goal.
#[derive(Drop)]
pub(crate) struct Start {
    pub inference: Inference,
    pub param_env: ParamEnv,
    pub predicate: TraitPredicate,
}

/// What the goal of a key says of a trait.
pub(crate) fn predicate_of(cx: &Cx, key: &GoalKey) -> TraitPredicate
    requires { IsKeyOf cx.now.trees key.now }
    ensures goal { IsGoal trait_kind cx.now key.now.goal.param_env result }
    ensures says { trait_goal cx.now.trees key.now.goal.param_env result ≡ (key_seen cx.now.trees key.now).goal }
{
    match predicate_in(cx, key.goal.predicate) {
        Some(predicate) => predicate,
        None => unreachable!(),
    }
}

/// Where the goal of a key is computed: its variables are there, and nothing else is known. `Stop::Memory` comes where a growth was
/// refused, `Stop::NodesFull` where a node has more children than can be counted.
pub(crate) fn start_of(alloc: Global, cx: &Cx, key: &GoalKey) -> Result<Start, Stop>
    requires { IsKeyOf cx.now.trees key.now }
    ensures inference { IfOk result (λ s. s.inference ≡ started (newest_of (key_seen cx.now.trees key.now)) key.now.variables.items) }
    ensures goal { IfOk result (λ s. IsGoal trait_kind cx.now s.param_env s.predicate) }
    ensures says { IfOk result (λ s. trait_goal cx.now.trees s.param_env s.predicate ≡ (key_seen cx.now.trees key.now).goal) }
    ensures cause { IfErr result (λ s. IsNotingStop cx.now.trees s) }
{
    let newest = newest_of(alloc, cx, key)?;
    let inference = Inference::at(alloc, newest, key.variables.as_slice())?;
    Ok(Start {
        inference,
        param_env: key.goal.param_env,
        predicate: predicate_of(cx, key),
    })
}

/// A refusal is an answer, too.
fn answered(
    answer: Result<(CanonicalResponse, Option<TraitGoalProvenVia>), NoSolutionOrStop>,
) -> Result<Option<(CanonicalResponse, Option<TraitGoalProvenVia>)>, Stop>
    ensures { result ≡ answered_as answer }
{
    match answer {
        Ok(answer) => Ok(Some(answer)),
        Err(NoSolutionOrStop::NoSolution) => Ok(None),
        Err(NoSolutionOrStop::Stop(stop)) => Err(stop),
    }
}

/// The verdict of an answer.
fn verdict_of(answer: Option<(CanonicalResponse, Option<TraitGoalProvenVia>)>) -> Verdict
    ensures is { (ts : List Tree) → verdict_seen ts result ≡ verdict_of (told ts answer) }
    ensures sort { (ts : List Tree) → IsAnswer ts answer → IsVerdict ts (Some result) }
{
    match answer {
        Some((response, way)) => match response.certainty {
            Certainty::Yes => Verdict::Yes(response, way),
            Certainty::Maybe(_) => Verdict::Maybe(response, way),
        },
        None => Verdict::Refused,
    }
}

/// Whether it stays for good.
pub(crate) fn is_final(verdict: &Option<Verdict>) -> bool
    ensures { (ts : List Tree) → result ≡ is_final (option_map (verdict_seen ts) verdict.now) }
{
    match verdict {
        Some(Verdict::Yes(_, _) | Verdict::Refused) => true,
        Some(Verdict::Maybe(_, _)) | None => false,
    }
}

/// The verdict again. The error comes where a growth was refused.
fn copied(verdict: &Verdict) -> Result<Verdict, Stop>
    ensures is { (ts : List Tree) → IfOk result (λ v. verdict_seen ts v ≡ verdict_seen ts verdict.now) }
    ensures sort { (ts : List Tree) → IsVerdict ts (Some verdict.now) → IfOk result (λ v. IsVerdict ts (Some v)) }
    ensures cause { IfErr result (λ s. s ≡ Stop.Memory) }
{
    match verdict {
        Verdict::Yes(response, way) => Ok(Verdict::Yes(response.copied()?, *way)),
        Verdict::Maybe(response, way) => Ok(Verdict::Maybe(response.copied()?, *way)),
        Verdict::Refused => Ok(Verdict::Refused),
    }
}

/// A copy of what a round has for that place.
fn copy_at(written: &[Option<Written>], place: usize) -> Result<Verdict, Stop>
    requires { has_one (slice_get written.now place) ≡ true }
    ensures is { (ts : List Tree) (w : Written) → slice_get written.now place ≡ Some (Some w) → IfOk result (λ v. verdict_seen ts v ≡ verdict_seen ts w.verdict) }
    ensures sort { (ts : List Tree) (w : Written) → slice_get written.now place ≡ Some (Some w) → IsVerdict ts (Some w.verdict) → IfOk result (λ v. IsVerdict ts (Some v)) }
    ensures cause { IfErr result (λ s. s ≡ Stop.Memory) }
{
    match written.get(place) {
        Some(Some(written)) => copied(&written.verdict),
        _ => unreachable!(),
    }
}

/// The goal of an environment and a predicate, which stands under a binder without variables.
fn goal_in(
    cx: &mut Cx,
    param_env: ParamEnv,
    predicate: TraitPredicate,
) -> Result<Goal<Clause>, Stop>
    requires { IsGoal trait_kind cx.old param_env predicate }
    ensures grows { Grows cx.old cx.new }
    ensures faults { NoFault cx.old cx.new }
    ensures sort { IfOk result (λ g. IsTraitGoal cx.new.trees g) }
    ensures goal { IfOk result (λ g. goal_seen cx.new.trees g ≡ trait_goal cx.old.trees param_env predicate) }
    ensures cause { IfErr result (λ s. IsTreeStop cx.new.trees (clause_saying (trait_goal cx.old.trees param_env predicate)) s) }
{
    let vars = cx.mk_vars(&[])?;
    let predicate = cx.mk_clause(Binder {
        vars,
        value: ClauseKind::Trait(predicate),
    })?;
    Ok(Goal {
        param_env,
        predicate,
    })
}

impl Rounds {
    /// What is known is put aside: that is known from now on, and no probe is open. Nothing is noted of leaks yet.
    pub(crate) fn suspend_state(&mut self, alloc: Global, inference: Inference) -> Suspended
        requires { IsEvaluator self.old.context inference [] self.old.normal self.old.opaques self.old.goals }
        ensures out { self.new ≡ record self.old { inference = inference; marks = [] } }
        ensures mode { result.mode ≡ self.old.mode }
        ensures inference { result.inference ≡ self.old.inference }
        ensures probes { reverse result.probes.items ≡ self.old.marks }
    {
        self.above = inference.newest_universe();
        self.leaks = false;
        Suspended {
            mode: self.mode,
            inference: std::mem::replace(&mut self.inference, inference),
            probes: std::mem::replace(&mut self.probes, Vec::new(alloc)),
        }
    }

    /// What was put aside is known again.
    pub(crate) fn restore_state(&mut self, aside: Suspended)
        requires { IsEvaluator self.old.context aside.inference (reverse aside.probes.items) self.old.normal self.old.opaques self.old.goals }
        ensures { self.new ≡ record self.old { mode = aside.mode; inference = aside.inference; marks = reverse aside.probes.items } }
    {
        self.mode = aside.mode;
        self.inference = aside.inference;
        self.probes = aside.probes;
    }

    /// What a goal of a trait comes to at what is known, by `compute_trait_goal`.
    fn compute_here(
        &mut self,
        alloc: Global,
        param_env: ParamEnv,
        predicate: TraitPredicate,
    ) -> Result<(CanonicalResponse, Option<TraitGoalProvenVia>), NoSolutionOrStop>
        requires goal { IsGoal trait_kind self.old.context param_env predicate }
        requires stands { GoalIsValid trait_rules (state self.old) (trait_goal self.old.context.trees param_env predicate) }
        ensures computes { Computes fixed judge_of state probes (λ r. r.context) accounts self.old self.new (trait_goal self.old.context.trees param_env predicate) result }
        ensures backed { let c = self.old.context in AnswerIsBacked (judge_of (fixed self.old)) c (state self.old) (trait_goal c.trees param_env predicate) self.new.context.trees result }
    {
        compute_trait_goal(alloc, self, param_env, predicate)
    }

    /// The goal of that place, computed where nothing else is known. What is known stays. It stops as `compute_trait_goal` does, or where
    /// a growth was refused or a node has more children than can be counted.
    fn compute(
        &mut self,
        alloc: Global,
        place: usize,
    ) -> Result<Option<(CanonicalResponse, Option<TraitGoalProvenVia>)>, Stop>
        requires { place < length self.old.goals.table }
        ensures stays { StaysBesideTable self.old self.new }
        ensures table { table_of self.new ≡ table_of self.old }
        ensures sort { IfOk result (λ a. IsAnswer self.new.context.trees a) }
        ensures once { PutsOffOneAtMost self.old self.new }
        ensures answer { (e : Entry Via) → slice_get (table_of self.old) place ≡ Some e → IfOk result (λ a. computing self.old (table_of self.old) e.key (told self.new.context.trees a)) }
        ensures cause { let ts = self.new.context.trees in let T = table_of self.old in (e : Entry Via) → slice_get T place ≡ Some e → IfErr result (λ s. IsNotingStop ts s ⊎ IsComputingStop ts self.old T e.key s) }
    {
        self.recall_well_kept();
        self.cx.recall_well_formed_table();
        let start = start_of(alloc, &self.cx, self.goals.entry_at(place).0)?;
        let aside = self.suspend_state(alloc, start.inference);
        let answer = self.compute_here(alloc, start.param_env, start.predicate);
        self.recall_well_kept();
        self.restore_state(aside);
        answered(answer)
    }

    /// Whether goals that ask may read the verdict of the goal of that place.
    fn may_be_read(&self, alloc: Global, place: usize, verdict: &Verdict) -> Result<bool, Stop>
        requires place { place < length self.now.goals.table }
        requires verdict { IsVerdict self.now.context.trees (Some verdict.now) }
        ensures is { (e : Entry Via) → slice_get (table_of self.now) place ≡ Some e → IfOk result (λ b. b ≡ may_be_read e.key (Some (verdict_seen self.now.context.trees verdict.now))) }
        ensures cause { IfErr result (λ s. IsNotingStop self.now.context.trees s) }
    {
        self.recall_well_kept();
        may_be_read(alloc, &self.cx, self.goals.entry_at(place).0, verdict)
    }

    /// What a round has for the goal of that place, which is computed.
    fn computed(&mut self, alloc: Global, place: usize) -> Result<Written, Stop>
        requires { place < length self.old.goals.table }
        ensures stays { StaysBesideTable self.old self.new }
        ensures table { table_of self.new ≡ table_of self.old }
        ensures once { PutsOffOneAtMost self.old self.new }
        ensures written { (e : Entry Via) → slice_get (table_of self.old) place ≡ Some e → IfOk result (λ w. IsWrittenFor self.new.context.trees (computing self.old) (table_of self.old) e.key w) }
        ensures cause { IfErr result (λ s. IsRoundStop self.new.context.trees self.old (table_of self.old) s) }
    {
        let answer = self.compute(alloc, place)?;
        let verdict = verdict_of(answer);
        let is_readable = self.may_be_read(alloc, place, &verdict)?;
        Ok(Written {
            verdict,
            is_readable,
            leaks: self.leaks,
        })
    }

    /// Whether what is written for the goal of that place stays for good.
    fn is_final_at(&self, place: usize) -> bool
        requires { place < length self.now.goals.table }
        ensures { result ≡ is_final (verdict_at (table_of self.now) place) }
    {
        is_final(&self.goals.entry_at(place).1.verdict)
    }

    /// What a round has for that place: nothing where what is there stays for good.
    fn written_at(&mut self, alloc: Global, place: usize) -> Result<Option<Written>, Stop>
        requires { place < length self.old.goals.table }
        ensures stays { StaysBesideTable self.old self.new }
        ensures table { table_of self.new ≡ table_of self.old }
        ensures once { PutsOffOneAtMost self.old self.new }
        ensures written { (e : Entry Via) → slice_get (table_of self.old) place ≡ Some e → IfOk result (λ w. IsWrittenAt IsFinalEntry self.new.context.trees (computing self.old) (table_of self.old) e w) }
        ensures cause { IfErr result (λ s. IsRoundStop self.new.context.trees self.old (table_of self.old) s) }
    {
        if self.is_final_at(place) {
            return Ok(None);
        }
        self.set_reader(place);
        Ok(Some(self.computed(alloc, place)?))
    }

    /// The goal of that place is computed from now on: it looks up what is noted.
    fn set_reader(&mut self, place: usize)
        ensures { self.new ≡ self.old }
    {
        self.goals.set_reader(place);
    }

    /// What a round has for all places of the table.
    fn all_written(&mut self, alloc: Global) -> Result<Vec<Option<Written>>, Stop>
        ensures stays { StaysBesideTable self.old self.new }
        ensures table { table_of self.new ≡ table_of self.old }
        ensures written { IfOk result (λ v. AreWritten IsFinalEntry self.new.context.trees (computing self.old) (table_of self.old) (table_of self.old) v.items) }
        ensures cause { IfErr result (λ s. IsRoundStop self.new.context.trees self.old (table_of self.old) s) }
    {
        let mut list = Vec::new(alloc);
        for place in 0..self.goals.len() {
            list.push(self.written_at(alloc, place)?)?;
        }
        Ok(list)
    }

    /// What a step has for that place: nothing where its goal isn't due, or what is there stays for good.
    fn due_written_at(&mut self, alloc: Global, place: usize) -> Result<Option<Written>, Stop>
        requires { place < length self.old.goals.table }
        ensures stays { StaysBesideTable self.old self.new }
        ensures table { table_of self.new ≡ table_of self.old }
        ensures written { (e : Entry Via) → slice_get (table_of self.old) place ≡ Some e → IfOk result (λ w. IsWrittenAt AnyEntry self.new.context.trees (computing self.old) (table_of self.old) e w) }
        ensures cause { IfErr result (λ s. IsRoundStop self.new.context.trees self.old (table_of self.old) s) }
    {
        if !self.goals.is_due(place) {
            return Ok(None);
        }
        self.written_at(alloc, place)
    }

    /// What a step has for all places of the table.
    fn due_written(&mut self, alloc: Global) -> Result<Vec<Option<Written>>, Stop>
        ensures stays { StaysBesideTable self.old self.new }
        ensures table { table_of self.new ≡ table_of self.old }
        ensures written { IfOk result (λ v. AreWritten AnyEntry self.new.context.trees (computing self.old) (table_of self.old) (table_of self.old) v.items) }
        ensures cause { IfErr result (λ s. IsRoundStop self.new.context.trees self.old (table_of self.old) s) }
    {
        let mut list = Vec::new(alloc);
        for place in 0..self.goals.len() {
            list.push(self.due_written_at(alloc, place)?)?;
        }
        Ok(list)
    }

    /// Every tree fits what is declared, of which the lists are no longer than a machine counts: said to a caller that needs it. Nothing is
    /// done.
    pub(crate) fn recall_trees_fit(&self)
        ensures fit { IsWellFormed self.now.context }
        ensures counted { IsCounted self.now.context }
    {
        self.cx.recall_well_formed();
        self.cx.recall_counted();
    }

    /// Whether the table stays as it is, where a round has this for its places: all of it is there, and no goal was asked for.
    fn is_still(&self, written: &[Option<Written>]) -> bool
        requires { length written.now ≡ length self.now.goals.table }
        ensures same { let ts = self.now.context.trees in let g = self.now.goals in IsTrue result → table_seen ts (all_written_into g.table written.now ++ map new_entry g.asked) ≡ table_of self.now }
        ensures other { let g = self.now.goals in IsFalse result → ChangeTableOf self.now.context.trees g.table g.asked written.now }
    {
        self.cx.recall_distinct();
        self.goals.is_still(written)
    }

    /// One round: all goals that aren't final are computed, and then what they came to is written. It answers a copy of what is written
    /// for the goal of that place, which isn't final, and whether nothing changed. Where it stops the table stays as it was.
    fn round(&mut self, alloc: Global, place: usize) -> Result<Rounded, Stop>
        requires place { place < length self.old.goals.table }
        requires open { is_final (verdict_at (table_of self.old) place) ≡ false }
        ensures stays { StaysBesideTable self.old self.new }
        ensures round { OnOk result (IsRound (computing self.old) (table_of self.old) (table_of self.new)) }
        ensures sort { IfOk result (λ r. IsVerdict self.new.context.trees (Some r.verdict)) }
        ensures answer { IfOk result (λ r. verdict_at (table_of self.new) place ≡ Some (verdict_seen self.new.context.trees r.verdict)) }
        ensures still { IfOk result (λ r. IsTrue r.is_still → table_of self.new ≡ table_of self.old) }
        ensures changes { IfOk result (λ r. IsFalse r.is_still → Changes (table_of self.old) (table_of self.new)) }
        ensures stopped { OnErr result (table_of self.new ≡ table_of self.old) }
        ensures cause { IfErr result (λ s. IsRoundStop self.new.context.trees self.old (table_of self.old) s) }
    {
        self.recall_well_kept();
        self.recall_trees_fit();
        let written = self.all_written(alloc)?;
        let verdict = copy_at(written.as_slice(), place)?;
        let is_still = self.is_still(written.as_slice());
        self.goals.write(written);
        Ok(Rounded { verdict, is_still })
    }

    /// One step: the goals that are due are computed, and then what they came to is written. Where it stops the table stays as it was.
    fn step_of_due(&mut self, alloc: Global) -> Result<(), Stop>
        ensures stays { StaysBesideTable self.old self.new }
        ensures step { OnOk result (IsStep (computing self.old) (table_of self.old) (table_of self.new)) }
        ensures stopped { OnErr result (table_of self.new ≡ table_of self.old) }
        ensures cause { IfErr result (λ s. IsRoundStop self.new.context.trees self.old (table_of self.old) s) }
    {
        self.recall_well_kept();
        self.recall_trees_fit();
        let written = self.due_written(alloc)?;
        self.goals.write(written);
        Ok(())
    }

    /// What goals look up is noted, until it is said anew whether goals are asked for. No goal is due yet.
    fn note_look_ups(&mut self)
        ensures { self.new ≡ self.old }
    {
        self.goals.note_look_ups();
    }

    /// What goals look up is noted as before, until it is said anew whether goals are asked for.
    fn go_on_noting(&mut self)
        ensures { self.new ≡ self.old }
    {
        self.goals.go_on_noting();
    }

    /// Chooses which goals are due, and answers whether some are.
    fn choose_due(&mut self) -> bool
        ensures { self.new ≡ self.old }
    {
        self.goals.choose_due()
    }

    /// One step of the goals that are due, or one round of all where none is. It answers whether that is the last: the goal of that place
    /// is final by it, or the round left the table as it was. Where it stops the table stays as it was.
    fn next_step(&mut self, alloc: Global, place: usize) -> Result<bool, Stop>
        requires place { place < length self.old.goals.table }
        requires open { is_final (verdict_at (table_of self.old) place) ≡ false }
        ensures stays { StaysBesideTable self.old self.new }
        ensures step { OnOk result (IsStep (computing self.old) (table_of self.old) (table_of self.new)) }
        ensures last { IfOk result (λ b. IsTrue b → (k : Key) → IsPlaceOf (table_of self.new) k place → IsAtRest (computing self.old) k (table_of self.new)) }
        ensures open { IfOk result (λ b. IsFalse b → is_final (verdict_at (table_of self.new) place) ≡ false) }
        ensures stopped { OnErr result (table_of self.new ≡ table_of self.old) }
        ensures cause { IfErr result (λ s. IsRoundStop self.new.context.trees self.old (table_of self.old) s) }
    {
        if self.choose_due() {
            self.step_of_due(alloc)?;
            return Ok(self.is_final_at(place));
        }
        let whole = self.round(alloc, place)?;
        if whole.is_still {
            return Ok(true);
        }
        Ok(self.is_final_at(place))
    }

    /// Enters a goal that isn't there, with what is known of it, after all others, and answers its place. `Stop::EvaluatorLimit` comes where
    /// there are 65,536 goals, `Stop::Memory` where a growth was refused.
    pub(crate) fn enter_known(&mut self, key: GoalKey, slot: Slot) -> Result<usize, Stop>
        requires entry { IsEntryOf self.old.context.trees (key, slot) }
        requires missing { is_entered (table_of self.old) (key_seen self.old.context.trees key) ≡ false }
        requires asked { self.old.goals.asked ≡ [] }
        requires derived { TableIsDerived self.old.context (listing self.old) (table_of self.old ++ entry_seen self.old.context.trees (key, slot) ∷ []) }
        ensures place { IfOk result (λ n. n ≡ length self.old.goals.table) }
        ensures entered { OnOk result (self.new ≡ record self.old { goals = record self.old.goals { table = self.old.goals.table ++ (key, slot) ∷ [] } }) }
        ensures stopped { OnErr result (self.new ≡ self.old) }
        ensures cause { IfErr result (λ s. (s ≡ Stop.Memory) ⊎ ((s ≡ Stop.EvaluatorLimit) × (most_goals ≤ length self.old.goals.table))) }
    {
        self.recall_well_kept();
        self.cx.recall_distinct();
        let place = self.goals.len();
        if place >= MAX_GOALS {
            return Err(Stop::EvaluatorLimit);
        }
        self.goals.enter(key, slot)?;
        Ok(place)
    }

    /// Enters a goal that isn't there, after all others, and answers its place. `Stop::EvaluatorLimit` comes where there are 65,536 goals,
    /// `Stop::Memory` where a growth was refused.
    fn enter_key(&mut self, key: GoalKey) -> Result<usize, Stop>
        requires key { IsKeyOf self.old.context.trees key }
        requires missing { is_entered (table_of self.old) (key_seen self.old.context.trees key) ≡ false }
        requires asked { self.old.goals.asked ≡ [] }
        ensures place { IfOk result (λ n. n ≡ length self.old.goals.table) }
        ensures entered { OnOk result (self.new ≡ record self.old { goals = record self.old.goals { table = self.old.goals.table ++ new_entry key ∷ [] } }) }
        ensures stopped { OnErr result (self.new ≡ self.old) }
        ensures cause { IfErr result (λ s. (s ≡ Stop.Memory) ⊎ ((s ≡ Stop.EvaluatorLimit) × (most_goals ≤ length self.old.goals.table))) }
    {
        self.recall_well_kept();
        self.enter_known(key, new_slot())
    }

    /// The goal's key at what is known. It stops as `asked_for` does.
    pub(crate) fn key_for(
        &mut self,
        alloc: Global,
        param_env: ParamEnv,
        predicate: TraitPredicate,
    ) -> Result<GoalKey, Stop>
        requires { IsGoal trait_kind self.old.context param_env predicate }
        ensures goes { GoesOn self.old self.new }
        ensures goals { self.new.goals ≡ self.old.goals }
        ensures state { state self.new ≡ state self.old }
        ensures sort { IfOk result (λ k. IsTraitGoal self.new.context.trees k.goal) }
        ensures key { IfOk result (λ k. key_seen self.new.context.trees k ≡ key_at (state self.old) (trait_goal self.old.context.trees param_env predicate)) }
        ensures cause { IfErr result (λ s. IsGoalKeyStop self.new.context.trees (state self.old) (trait_goal self.old.context.trees param_env predicate) s) }
    {
        let asked = self.asked_for(alloc, param_env, predicate)?;
        Ok(asked.key)
    }

    /// The goal's key at what is known, with the numbers of the key's variables. It stops as `mk_clause` and `key_of` do.
    pub(crate) fn asked_for(
        &mut self,
        alloc: Global,
        param_env: ParamEnv,
        predicate: TraitPredicate,
    ) -> Result<Asked, Stop>
        requires { IsGoal trait_kind self.old.context param_env predicate }
        ensures goes { GoesOn self.old self.new }
        ensures goals { self.new.goals ≡ self.old.goals }
        ensures state { state self.new ≡ state self.old }
        ensures sort { IfOk result (λ a. IsTraitGoal self.new.context.trees a.key.goal) }
        ensures key { IfOk result (λ a. key_seen self.new.context.trees a.key ≡ key_at (state self.old) (trait_goal self.old.context.trees param_env predicate)) }
        ensures numbers { IfOk result (λ a. a.numbers.items ≡ numbers_at (state self.old) (trait_goal self.old.context.trees param_env predicate)) }
        ensures cause { IfErr result (λ s. IsGoalKeyStop self.new.context.trees (state self.old) (trait_goal self.old.context.trees param_env predicate) s) }
    {
        self.recall_well_kept();
        let goal = self.goal_in(param_env, predicate)?;
        self.key_of(alloc, goal)
    }

    /// The goal of an environment and a predicate: nodes are made, and nothing else.
    fn goal_in(
        &mut self,
        param_env: ParamEnv,
        predicate: TraitPredicate,
    ) -> Result<Goal<Clause>, Stop>
        requires { IsGoal trait_kind self.old.context param_env predicate }
        ensures goes { GoesOn self.old self.new }
        ensures goals { self.new.goals ≡ self.old.goals }
        ensures state { state self.new ≡ state self.old }
        ensures sort { IfOk result (λ g. IsTraitGoal self.new.context.trees g) }
        ensures goal { IfOk result (λ g. goal_seen self.new.context.trees g ≡ trait_goal self.old.context.trees param_env predicate) }
        ensures cause { IfErr result (λ s. IsTreeStop self.new.context.trees (clause_saying (trait_goal self.old.context.trees param_env predicate)) s) }
    {
        goal_in(&mut self.cx, param_env, predicate)
    }

    /// The place of the goal in the table, in which it is entered if it isn't there.
    fn enter_goal(
        &mut self,
        alloc: Global,
        param_env: ParamEnv,
        predicate: TraitPredicate,
    ) -> Result<usize, Stop>
        requires goal { IsGoal trait_kind self.old.context param_env predicate }
        requires asked { may_be_asked (key_at (state self.old) (trait_goal self.old.context.trees param_env predicate)) ≡ true }
        requires none { self.old.goals.asked ≡ [] }
        ensures stays { StaysBesideTable self.old self.new }
        ensures none { self.new.goals.asked ≡ [] }
        ensures asks { self.new.goals.asks ≡ self.old.goals.asks }
        ensures entered { OnOk result (table_of self.new ≡ entered_in (table_of self.old) (key_at (state self.old) (trait_goal self.old.context.trees param_env predicate))) }
        ensures place { IfOk result (IsPlaceOf (table_of self.new) (key_at (state self.old) (trait_goal self.old.context.trees param_env predicate))) }
        ensures stopped { OnErr result (table_of self.new ≡ table_of self.old) }
        ensures cause { IfErr result (λ s. IsEnteringStop self.new.context.trees self.old (trait_goal self.old.context.trees param_env predicate) (table_of self.new) s) }
    {
        self.recall_well_kept();
        let key = self.key_for(alloc, param_env, predicate)?;
        if let Some(place) = self.place_of(&key) {
            return Ok(place);
        }
        self.enter_key(key)
    }

    /// Goals are asked for from now on, or aren't. None has been asked for.
    pub(crate) fn set_asking(&mut self, asks: bool)
        ensures { self.new ≡ record self.old { goals = record { table = self.old.goals.table; asked = []; asks = asks } } }
    {
        self.goals.set_asking(asks);
    }

    /// A copy of what is written for that place, where something is.
    fn verdict_at(&self, place: usize) -> Result<Verdict, Stop>
        requires place { place < length self.now.goals.table }
        requires some { is_some (verdict_at (table_of self.now) place) ≡ true }
        ensures sort { IfOk result (λ v. IsVerdict self.now.context.trees (Some v)) }
        ensures is { IfOk result (λ v. verdict_at (table_of self.now) place ≡ Some (verdict_seen self.now.context.trees v)) }
        ensures cause { IfErr result (λ s. s ≡ Stop.Memory) }
    {
        self.recall_well_kept();
        match &self.goals.entry_at(place).1.verdict {
            Some(verdict) => copied(verdict),
            None => unreachable!(),
        }
    }

    /// Rounds until the goal of that place is final, or so many, which ask for goals; one that leaves the table as it was is the last.
    fn rounds(&mut self, alloc: Global, place: usize, rounds: u16) -> Result<Verdict, Stop>
        requires place { place < length self.old.goals.table }
        requires some { 0 < rounds }
        requires asks { self.old.goals.asks ≡ true }
        ensures stays { StaysBesideTable self.old self.new }
        ensures ran { OnOk result ((k : Key) → IsPlaceOf (table_of self.old) k place → several.Rounds (computing self.old) k rounds (table_of self.old) (table_of self.new)) }
        ensures sort { IfOk result (λ v. IsVerdict self.new.context.trees (Some v)) }
        ensures answer { IfOk result (λ v. verdict_at (table_of self.new) place ≡ Some (verdict_seen self.new.context.trees v)) }
        ensures stopped { OnErr result ((k : Key) → IsPlaceOf (table_of self.old) k place → IsDoneBelow (computing self.old) k rounds (table_of self.old) (table_of self.new)) }
        ensures cause { IfErr result (λ s. IsRoundStop self.new.context.trees self.old (table_of self.new) s) }
    {
        if self.is_final_at(place) {
            return self.verdict_at(place);
        }
        for _next in 1..rounds {
            let left = self.round(alloc, place)?;
            if left.is_still {
                return Ok(left.verdict);
            }
            if self.is_final_at(place) {
                return Ok(left.verdict);
            }
        }
        let left = self.round(alloc, place)?;
        Ok(left.verdict)
    }

    /// Steps until the goal of that place is final or the table is still, but 65,535 at most. The first one is a round of all goals, and so is
    /// each one before which no goal is due.
    fn settle_table(&mut self, alloc: Global, place: usize) -> Result<Verdict, Stop>
        requires place { place < length self.old.goals.table }
        requires asks { self.old.goals.asks ≡ true }
        ensures stays { StaysBesideTable self.old self.new }
        ensures settled { OnOk result ((k : Key) → IsPlaceOf (table_of self.old) k place → Settles (computing self.old) k most_steps (table_of self.old) (table_of self.new)) }
        ensures sort { IfOk result (λ v. IsVerdict self.new.context.trees (Some v)) }
        ensures answer { IfOk result (λ v. verdict_at (table_of self.new) place ≡ Some (verdict_seen self.new.context.trees v)) }
        ensures stopped { OnErr result ((k : Key) → IsPlaceOf (table_of self.old) k place → StepsWithin (computing self.old) k most_steps (table_of self.old) (table_of self.new)) }
        ensures cause { IfErr result (λ s. IsRoundStop self.new.context.trees self.old (table_of self.new) s) }
    {
        if self.is_final_at(place) {
            return self.verdict_at(place);
        }
        let first = self.round(alloc, place)?;
        if first.is_still {
            return Ok(first.verdict);
        }
        if self.is_final_at(place) {
            return Ok(first.verdict);
        }
        for _next in 1..MAX_STEPS {
            if self.next_step(alloc, place)? {
                return self.verdict_at(place);
            }
        }
        self.verdict_at(place)
    }

    /// Rounds for a goal, which is entered in the table if it isn't there, until it is final, but so many at most. It answers what is
    /// written for the goal then.
    ///
    /// A round computes all goals of the table that aren't final, each where nothing but its own variables is known, and as it reads the
    /// table that the last round left; then it writes what they came to. Goals that were first asked for meanwhile come after them. A
    /// round that leaves the table as it was is the last, since each further one may come to the same.
    ///
    /// Where it stops the table is that of the last whole round, with the goal, if it was entered. What is known, what is pending and the
    /// open probes stay in each case. `Stop::EvaluatorLimit` comes where there are 65,536 goals already, or where computing a goal comes
    /// to it; `Stop::Memory` where a growth was refused; `Stop::NodesFull` where no numbers are left, a tree would be higher than 1,024,
    /// or the variables or the children of a node are too many; and others where the rules for a goal come to them.
    pub fn run(
        &mut self,
        alloc: Global,
        param_env: ParamEnv,
        predicate: TraitPredicate,
        rounds: u16,
    ) -> Result<Verdict, Stop>
        requires some { 0 < rounds }
        requires goal { IsGoal trait_kind self.old.context param_env predicate }
        requires asked { may_be_asked (key_at (state self.old) (trait_goal self.old.context.trees param_env predicate)) ≡ true }
        ensures stays { StaysBesideTable self.old self.new }
        ensures ran { OnOk result (IsRun (computing self.old) (key_at (state self.old) (trait_goal self.old.context.trees param_env predicate)) rounds (table_of self.old) (table_of self.new)) }
        ensures sort { IfOk result (λ v. IsVerdict self.new.context.trees (Some v)) }
        ensures answer { IfOk result (λ v. verdict_in (table_of self.new) (key_at (state self.old) (trait_goal self.old.context.trees param_env predicate)) ≡ Some (verdict_seen self.new.context.trees v)) }
        ensures stopped { let g = trait_goal self.old.context.trees param_env predicate in IfErr result (λ s. IsLeftStopped self.new.context.trees self.old g rounds (table_of self.old) (table_of self.new) s) }
        ensures asked { self.new.goals.asked ≡ [] }
        ensures asks { self.new.goals.asks ≡ false }
        ensures derived { TableIsDerived self.new.context (listing self.new) (table_of self.new) }
        ensures yes { IfOk result (λ v. IsDerivedFor self.new (key_at (state self.old) (trait_goal self.old.context.trees param_env predicate)) (Some v)) }
        ensures cause { IfErr result (λ s. IsRunStop self.new.context.trees self.old (trait_goal self.old.context.trees param_env predicate) (table_of self.new) s) }
    {
        self.recall_well_kept();
        self.set_asking(false);
        let place = self.enter_goal(alloc, param_env, predicate)?;
        self.set_asking(true);
        let answer = self.rounds(alloc, place, rounds);
        self.set_asking(false);
        self.recall_well_kept();
        answer
    }

    /// Computes goals until the goal is final or no further round changes the table, but in 65,535 steps at most. The goal is entered in the
    /// table if it isn't there. It answers what is written for the goal then.
    ///
    /// A step computes some goals of the table that aren't final, and else does what a round of `run` does. Its goals are those that were
    /// first asked for in the last step, and those that looked up a goal which the last step made final. Where there are none, all goals
    /// that aren't final are computed: if that leaves the table as it was, it was the last step. So a goal that waits for another one isn't
    /// computed again before that one is final. For example a chain of 400 goals takes some 800 computations here, and 80,000 in `run`.
    ///
    /// Where it stops the table is that of the last whole step, with the goal, if it was entered. What is known, what is pending and the
    /// open probes stay in each case. It stops as `run` does.
    pub fn run_settled(
        &mut self,
        alloc: Global,
        param_env: ParamEnv,
        predicate: TraitPredicate,
    ) -> Result<Verdict, Stop>
        requires goal { IsGoal trait_kind self.old.context param_env predicate }
        requires asked { may_be_asked (key_at (state self.old) (trait_goal self.old.context.trees param_env predicate)) ≡ true }
        ensures stays { StaysBesideTable self.old self.new }
        ensures settled { OnOk result (IsSettled (computing self.old) (key_at (state self.old) (trait_goal self.old.context.trees param_env predicate)) most_steps (table_of self.old) (table_of self.new)) }
        ensures sort { IfOk result (λ v. IsVerdict self.new.context.trees (Some v)) }
        ensures answer { IfOk result (λ v. verdict_in (table_of self.new) (key_at (state self.old) (trait_goal self.old.context.trees param_env predicate)) ≡ Some (verdict_seen self.new.context.trees v)) }
        ensures stopped { let g = trait_goal self.old.context.trees param_env predicate in IfErr result (λ s. IsLeftUnsettled self.new.context.trees self.old g (table_of self.old) (table_of self.new) s) }
        ensures asked { self.new.goals.asked ≡ [] }
        ensures asks { self.new.goals.asks ≡ false }
        ensures derived { TableIsDerived self.new.context (listing self.new) (table_of self.new) }
        ensures yes { IfOk result (λ v. IsDerivedFor self.new (key_at (state self.old) (trait_goal self.old.context.trees param_env predicate)) (Some v)) }
        ensures cause { IfErr result (λ s. IsRunStop self.new.context.trees self.old (trait_goal self.old.context.trees param_env predicate) (table_of self.new) s) }
    {
        self.recall_well_kept();
        self.set_asking(false);
        let place = self.enter_goal(alloc, param_env, predicate)?;
        self.set_asking(true);
        self.note_look_ups();
        let answer = self.settle_table(alloc, place);
        self.set_asking(false);
        self.recall_well_kept();
        answer
    }

    /// One step for the goal of that place, unless it is final. It answers whether no more is needed. Where it stops the table stays as it
    /// was.
    fn step_unless_final(&mut self, alloc: Global, place: usize) -> Result<bool, Stop>
        requires { place < length self.old.goals.table }
        ensures stays { StaysBesideTable self.old self.new }
        ensures settled { OnOk result ((k : Key) → IsPlaceOf (table_of self.old) k place → Settles (computing self.old) k 1 (table_of self.old) (table_of self.new)) }
        ensures last { IfOk result (λ b. IsTrue b → (k : Key) → IsPlaceOf (table_of self.new) k place → IsAtRest (computing self.old) k (table_of self.new)) }
        ensures stopped { OnErr result (table_of self.new ≡ table_of self.old) }
        ensures cause { IfErr result (λ s. IsRoundStop self.new.context.trees self.old (table_of self.new) s) }
    {
        if self.is_final_at(place) {
            return Ok(true);
        }
        self.next_step(alloc, place)
    }

    /// One step as `run_settled` does them, unless the goal is final, which is entered in the table if it isn't there. It answers whether
    /// no more is needed: the goal is final, or a round left the table as it was.
    ///
    /// Its goals are those that are due by the steps before, as `run_settled` has them; where none is, and in a new evaluator, all that
    /// aren't final. So one sees the table behind each step, and waits no longer than by `run_settled`.
    ///
    /// Where it stops the table is as it was, with the goal, if it was entered. What is known, what is pending and the open probes stay in
    /// each case. It stops as `run` does.
    pub fn run_step(
        &mut self,
        alloc: Global,
        param_env: ParamEnv,
        predicate: TraitPredicate,
    ) -> Result<bool, Stop>
        requires goal { IsGoal trait_kind self.old.context param_env predicate }
        requires asked { may_be_asked (key_at (state self.old) (trait_goal self.old.context.trees param_env predicate)) ≡ true }
        ensures stays { StaysBesideTable self.old self.new }
        ensures settled { OnOk result (IsSettled (computing self.old) (key_at (state self.old) (trait_goal self.old.context.trees param_env predicate)) 1 (table_of self.old) (table_of self.new)) }
        ensures last { let k = key_at (state self.old) (trait_goal self.old.context.trees param_env predicate) in IfOk result (λ b. IsTrue b → IsAtRest (computing self.old) k (table_of self.new)) }
        ensures stopped { let k = key_at (state self.old) (trait_goal self.old.context.trees param_env predicate) in OnErr result (MayBeEntered (table_of self.old) k (table_of self.new)) }
        ensures asked { self.new.goals.asked ≡ [] }
        ensures asks { self.new.goals.asks ≡ false }
        ensures derived { TableIsDerived self.new.context (listing self.new) (table_of self.new) }
        ensures cause { IfErr result (λ s. IsRunStop self.new.context.trees self.old (trait_goal self.old.context.trees param_env predicate) (table_of self.new) s) }
    {
        self.recall_well_kept();
        self.set_asking(false);
        let place = self.enter_goal(alloc, param_env, predicate)?;
        self.set_asking(true);
        self.go_on_noting();
        let answer = self.step_unless_final(alloc, place);
        self.set_asking(false);
        self.recall_well_kept();
        answer
    }

    /// The same as `run` or `run_settled` does, by the effort. It stops as they do.
    pub fn run_by(
        &mut self,
        alloc: Global,
        param_env: ParamEnv,
        predicate: TraitPredicate,
        effort: Effort,
    ) -> Result<Verdict, Stop>
        requires some { IsEffort effort }
        requires goal { IsGoal trait_kind self.old.context param_env predicate }
        requires asked { may_be_asked (key_at (state self.old) (trait_goal self.old.context.trees param_env predicate)) ≡ true }
        ensures stays { StaysBesideTable self.old self.new }
        ensures ran { OnOk result (Runs (computing self.old) (key_at (state self.old) (trait_goal self.old.context.trees param_env predicate)) effort (table_of self.old) (table_of self.new)) }
        ensures sort { IfOk result (λ v. IsVerdict self.new.context.trees (Some v)) }
        ensures answer { IfOk result (λ v. verdict_in (table_of self.new) (key_at (state self.old) (trait_goal self.old.context.trees param_env predicate)) ≡ Some (verdict_seen self.new.context.trees v)) }
        ensures stopped { let g = trait_goal self.old.context.trees param_env predicate in IfErr result (λ s. IsLeftBy self.new.context.trees self.old g effort (table_of self.old) (table_of self.new) s) }
        ensures asked { self.new.goals.asked ≡ [] }
        ensures asks { self.new.goals.asks ≡ false }
        ensures derived { TableIsDerived self.new.context (listing self.new) (table_of self.new) }
        ensures yes { IfOk result (λ v. IsDerivedFor self.new (key_at (state self.old) (trait_goal self.old.context.trees param_env predicate)) (Some v)) }
        ensures cause { IfErr result (λ s. IsRunStop self.new.context.trees self.old (trait_goal self.old.context.trees param_env predicate) (table_of self.new) s) }
    {
        match effort {
            Effort::Rounds(rounds) => self.run(alloc, param_env, predicate, rounds),
            Effort::AsNeeded => self.run_settled(alloc, param_env, predicate),
        }
    }

    /// Whether the goal may be run: with all values put in its trees are closed trees of variables, without parameters. Each goal that
    /// stands at what is known is such a goal. Nodes are made, and nothing else is changed; it stops as `entry` does.
    pub fn may_be_run(
        &mut self,
        alloc: Global,
        param_env: ParamEnv,
        predicate: TraitPredicate,
    ) -> Result<bool, Stop>
        requires { IsGoal trait_kind self.old.context param_env predicate }
        ensures stays { StaysBesideTable self.old self.new }
        ensures table { table_of self.new ≡ table_of self.old }
        ensures faults { NoFault self.old.context self.new.context }
        ensures goal { IsGoal trait_kind self.new.context param_env predicate }
        ensures is { IfOk result (λ b. b ≡ may_be_asked (key_at (state self.new) (trait_goal self.new.context.trees param_env predicate))) }
        ensures standing { GoalIsValid trait_rules (state self.old) (trait_goal self.old.context.trees param_env predicate) → IfOk result (λ b. b ≡ true) }
        ensures cause { IfErr result (λ s. IsGoalKeyStop self.new.context.trees (state self.old) (trait_goal self.old.context.trees param_env predicate) s) }
    {
        self.recall_well_kept();
        let key = self.key_for(alloc, param_env, predicate)?;
        self.may_be_asked(alloc, &key)
    }

    /// Whether the goal of that key may be asked for.
    pub(crate) fn may_be_asked(&self, alloc: Global, key: &GoalKey) -> Result<bool, Stop>
        requires { IsTraitGoal self.now.context.trees key.now.goal }
        ensures is { IfOk result (λ b. b ≡ may_be_asked (key_seen self.now.context.trees key.now)) }
        ensures cause { IfErr result (λ s. IsNotingStop self.now.context.trees s) }
    {
        may_be_asked(alloc, &self.cx, key)
    }

    /// What was last written for the goal, if anything was. Nodes are made, and nothing else is changed. `Stop::Memory` comes where a
    /// growth was refused, `Stop::NodesFull` where no numbers are left, a tree would be higher than 1,024, or the variables or the
    /// children of a node are too many.
    pub fn entry(
        &mut self,
        alloc: Global,
        param_env: ParamEnv,
        predicate: TraitPredicate,
    ) -> Result<Option<Verdict>, Stop>
        requires { IsGoal trait_kind self.old.context param_env predicate }
        ensures stays { StaysBesideTable self.old self.new }
        ensures table { table_of self.new ≡ table_of self.old }
        ensures sure { sure_of self.new ≡ sure_of self.old }
        ensures sort { IfOk result (λ o. IsVerdict self.new.context.trees o) }
        ensures faults { NoFault self.old.context self.new.context }
        ensures yes { IfOk result (λ o. IsDerivedFor self.new (key_at (state self.old) (trait_goal self.old.context.trees param_env predicate)) o) }
        ensures is { IfOk result (λ o. option_map (verdict_seen self.new.context.trees) o ≡ verdict_in (table_of self.old) (key_at (state self.old) (trait_goal self.old.context.trees param_env predicate))) }
        ensures cause { IfErr result (λ s. IsGoalKeyStop self.new.context.trees (state self.old) (trait_goal self.old.context.trees param_env predicate) s) }
    {
        self.recall_well_kept();
        let key = self.key_for(alloc, param_env, predicate)?;
        match self.place_of(&key) {
            Some(place) => self.copied_at(place),
            None => Ok(None),
        }
    }

    /// Whether what was last written for the goal may rest on a region that leaks. Nodes are made, and nothing else is changed. It stops as
    /// `entry` does.
    pub fn entry_leaks(
        &mut self,
        alloc: Global,
        param_env: ParamEnv,
        predicate: TraitPredicate,
    ) -> Result<bool, Stop>
        requires { IsGoal trait_kind self.old.context param_env predicate }
        ensures stays { StaysBesideTable self.old self.new }
        ensures table { table_of self.new ≡ table_of self.old }
        ensures sure { sure_of self.new ≡ sure_of self.old }
        ensures is { let r = self.old in let k = key_at (state r) (trait_goal r.context.trees param_env predicate) in IfOk result (HasUnlessNoted (sure_of r) (table_of r) k) }
        ensures cause { IfErr result (λ s. IsGoalKeyStop self.new.context.trees (state self.old) (trait_goal self.old.context.trees param_env predicate) s) }
    {
        self.recall_well_kept();
        let key = self.key_for(alloc, param_env, predicate)?;
        match self.place_of(&key) {
            Some(place) => Ok(self.leaks_at(place)),
            None => Ok(false),
        }
    }

    /// How many goals the table has.
    pub fn goal_count(&self) -> usize
        ensures { result ≡ length self.now.goals.table }
    {
        self.goals.len()
    }

    /// The goal of that place in the table, in the order in which goals were entered, and what was last written for it, if anything was.
    pub fn goal_at(&self, place: usize) -> (&GoalKey, Option<&Verdict>)
        requires { place < length self.now.goals.table }
        ensures goal { IsTraitGoal self.now.context.trees result.0.now.goal }
        ensures sort { IsVerdict self.now.context.trees (option_copied result.1) }
        ensures entry { slice_get (table_of self.now) place ≡ Some (entry_of self.now.context.trees result.0.now (option_copied result.1)) }
    {
        self.recall_well_kept();
        let (key, slot) = self.goals.entry_at(place);
        (key, slot.verdict.as_ref())
    }

    /// Each Yes of the table has a derivation by what is declared, said to a caller that needs it. Nothing is done.
    pub fn recall_derived(&self)
        ensures { TableIsDerived self.now.context (listing self.now) (table_of self.now) }
    {
        self.recall_well_kept();
    }

    /// A copy of what is written for that place, if anything is.
    fn copied_at(&self, place: usize) -> Result<Option<Verdict>, Stop>
        requires { place < length self.now.goals.table }
        ensures sort { IfOk result (λ o. IsVerdict self.now.context.trees o) }
        ensures is { IfOk result (λ o. option_map (verdict_seen self.now.context.trees) o ≡ verdict_at (table_of self.now) place) }
        ensures cause { IfErr result (λ s. s ≡ Stop.Memory) }
    {
        self.recall_well_kept();
        match &self.goals.entry_at(place).1.verdict {
            Some(verdict) => Ok(Some(copied(verdict)?)),
            None => Ok(None),
        }
    }
}
