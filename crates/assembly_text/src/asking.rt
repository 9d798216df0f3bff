//! The commands that ask.

ghost use Rattle.std.specs.Cmp.Lexicographic.{pointwise};
ghost use Rattle.std.specs.Prelude.{◌≡◌, ◌≢◌, ◌<◌, ◌∷◌, [], nat_eq, true, Ok, Err, Option, Result, All, IfErr, IfOk, OnOk, string_bytes};
ghost use Rattle.ir_trees.specs.Syntax.Words.{IsTy, IsArgs};
ghost use Rattle.ir_trees.specs.Declarations.References.{ArgumentsFit};
ghost use Rattle.candidate_eval.specs.Knowability.Answers.{AreAnswerTypes, OutOfMemory, answer_of, knowledge_of};
ghost use Rattle.candidate_eval.specs.Knowability.Orphan.{bare_answer, bare_knowledge};
ghost use Rattle.overlaps.specs.declared.overlap.Overlap.{Overlap};
ghost use Rattle.overlaps.specs.declared.specializing.Specialization.{Specialization};
ghost use Rattle.candidate_eval.specs.declared.coherence.Conflict.{Conflict};
ghost use Rattle.candidate_rounds.specs.declared.rounds.goals.Verdict.{Verdict};
ghost use Rattle.assembly_notation.specs.Given.{GivenFits};
ghost use Rattle.ir_trees.specs.Declarations.Context.{Grows};
ghost use Rattle.assembly_text.specs.Asking.{AddsSomeCheck, AddsSomeGoal, AddsSomeKnown, AddsSomeNormal, AddsSomeValues, declared_part, names_all};
ghost use Rattle.assembly_text.specs.Normalizing.{AddsNormal, IsNormal, IsNormalSolved, IsReadProjection};
ghost use Rattle.assembly_text.specs.Negating.{AddsSomeOverlap};
ghost use Rattle.assembly_text.specs.Overlapping.{IsOverlapAnyway, IsOverlapSolved, IsOverlapStopped};
ghost use Rattle.assembly_text.specs.Specializing.{IsTestStopped, IsTested};
ghost use Rattle.assembly_text.specs.Efforts.{effort_of_line};
ghost use Rattle.assembly_notation.specs.Params.{Lacks};
ghost use Rattle.assembly_text.specs.Solving.{AddsGoal, AddsGoalWithValues, AreValues, IsReadGoal, IsSolved, IsSolvedBefore, ListedIsDeclared};
ghost use Rattle.candidate_eval.specs.Knowability.Calls.{plain_check_of, plain_knowledge_about, HasNoParam, HasNoAlias, HasNoAliasOrError, IsOfForeignTrait, NoForeignHeaderHere, NoUnnamedHeaderHere, NoCoveredHeaderHere, IsDecidedByGeneralHere, HasDownstreamHere};
ghost use Rattle.candidate_rounds.specs.Table.Efforts.{IsEffort};

use crate::solving::{
    Normal, Solved, normalize, overlap, overlap_anyway, solve, solve_for_values,
    test_specialization,
};
use assembly_notation::faults::Fault;
use assembly_notation::given::Given;
use assembly_notation::names::Names;
use assembly_notation::notation::Binders;
use assembly_notation::numbering::Numbering;
use assembly_notation::types::{MAX_DEPTH, Scope};
use assembly_notation::words::Words;
use candidate_eval::coherence::{
    Conflict, InCrate, NormalizeErr, OrphanCheckErr, OrphanCheckMode, OrphanStop,
    orphan_check_trait_ref, trait_ref_is_knowable,
};
use candidate_rounds::rounds::effort::Effort;
use candidate_rounds::rounds::goals::Verdict;
use candidate_rounds::rounds::normalizing::trait_predicate;
use ir_context::decl::context::Cx;
use ir_trees::decl::contents::ImplId;
use ir_trees::ir::kinds::{
    AliasKind, AliasTy, PredicatePolarity, TraitPredicate, TraitRef, Ty, TyKind,
};
use ir_trees::ir::stop::Stop;
use ir_trees::ir::trees::Trees;
use overlaps::overlap::Overlap;
use overlaps::specializing::Specialization;
use std::alloc::Global;
use std::convert::Infallible;

/// A command that asks.
#[derive(Clone, Copy)]
pub enum Query {
    Orphan,
    Knowable,
    Solve,
    Answer,
    Normalize,
    Overlap,
    Check,
    Candidates,
    Why,
}

/// How many rounds may be asked for.
const MAX_ROUNDS: u16 = 65_535;

/// For which crate a reference is checked.
const CRATES: [(&str, InCrate); 3] = [
    (
        "local",
        InCrate::Local {
            mode: OrphanCheckMode::Proper,
        },
    ),
    (
        "compat",
        InCrate::Local {
            mode: OrphanCheckMode::Compat,
        },
    ),
    ("remote", InCrate::Remote),
];

/// What is declared, and the answer that was made last.
#[derive(Drop)]
pub struct Asking<'a> {
    pub(crate) scope: Scope<'a, Cx>,
    pub(crate) answer: String,
    pub(crate) given: Given,
    /// Whether it is added to answers why they are so.
    pub(crate) reasons: bool,
    pub ghost given_is_declared: { ListedIsDeclared scope.maker given },
}

/// All but the context, which a call has meanwhile.
#[derive(Drop)]
pub(crate) struct Rest<'a> {
    pub(crate) alloc: Global,
    names: Names<'a>,
    answer: String,
    pub(crate) given: Given,
    pub(crate) reasons: bool,
}

impl<'a> Rest<'a> {
    /// Puts the context back, which may have grown.
    pub(crate) fn with(self, maker: Cx) -> Asking<'a>
        requires { ListedIsDeclared maker self.given }
        ensures context { result.scope.maker ≡ maker }
        ensures names { result.scope.names ≡ self.entry.names }
        ensures answer { result.answer ≡ self.entry.answer }
        ensures given { result.given ≡ self.entry.given }
    {
        let Rest {
            alloc,
            names,
            answer,
            given,
            reasons,
        } = self;
        let scope = Scope {
            alloc,
            names,
            maker,
            numbering: Numbering::new(alloc),
        };
        Asking {
            scope,
            answer,
            given,
            reasons,
        }
    }
}

impl<'a> Asking<'a> {
    /// Over what is declared, and what queries take as given.
    pub fn new(scope: Scope<'a, Cx>, given: Given) -> Self
        requires { ListedIsDeclared scope.maker given }
    {
        Asking {
            answer: String::new(scope.alloc),
            scope,
            given,
            reasons: false,
        }
    }

    /// Sets whether `ask` adds to answers why they are so. Behind the answer to a goal stand the lines of `why` then, and a line of a refused goal
    /// says why it is refused. Behind whether two impls overlap, and behind what a check finds, stands what keeps that open.
    pub fn with_reasons(self, reasons: bool) -> Self {
        let mut asking = self;
        asking.reasons = reasons;
        asking
    }

    /// What queries take as given. Its numbers are those of the context, after each query.
    pub fn given(&self) -> &Given
        ensures { GivenFits self.now.scope.maker.trees result.now }
    {
        &self.given
    }

    /// Whether goals are asked in coherence.
    pub fn is_in_coherence(&self) -> bool {
        self.given.mode.is_coherence()
    }

    /// The answer that was made last.
    pub fn answer(&self) -> &str {
        self.answer.as_str()
    }

    /// Forgets the answer before, and what the query made in the context.
    pub(crate) fn forget(&mut self)
        ensures answer { string_bytes self.new.answer ≡ [] }
        ensures given { self.new.given ≡ self.old.given }
        ensures names { self.new.scope.names ≡ self.old.scope.names }
        ensures context { self.new.scope.maker ≡ declared_part self.old.scope.maker }
    {
        self.answer.clear();
        self.scope.maker.truncate(0);
    }

    /// The context, and all else.
    pub(crate) fn apart(self) -> (Cx, Rest<'a>)
        ensures context { result.0 ≡ self.entry.scope.maker }
        ensures names { result.1.names ≡ self.entry.scope.names }
        ensures answer { result.1.answer ≡ self.entry.answer }
        ensures given { result.1.given ≡ self.entry.given }
        ensures given_is_declared { ListedIsDeclared result.0 result.1.given }
    {
        let Asking {
            scope,
            answer,
            given,
            reasons,
            ..
        } = self;
        let Scope {
            alloc,
            names,
            maker,
            ..
        } = scope;
        let rest = Rest {
            alloc,
            names,
            answer,
            given,
            reasons,
        };
        (maker, rest)
    }

    /// The trait reference that ends the line.
    fn last_trait_ref<'b>(&mut self, words: &mut Words<'b>) -> Result<TraitRef, Fault<'b>>
        ensures sort { IfOk result (λ r. IsArgs self.new.scope.maker.trees r.args) }
        ensures no_param { IfOk result (λ r. HasNoParam self.new.scope.maker r) }
        ensures fit { IfOk result (λ r. ArgumentsFit self.new.scope.maker r) }
        ensures grows { Grows self.old.scope.maker self.new.scope.maker }
        ensures given { self.new.given ≡ self.old.given }
        ensures answer { self.new.answer ≡ self.old.answer }
    {
        let trait_ref = self.scope.read_trait_ref(words)?;
        words.end()?;
        Ok(trait_ref)
    }

    /// Makes the answer to a line that asks that, or says why it can't be made.
    ///
    /// What the query before made in the context is gone by then. The outer error is a fault of the line; nothing more is asked then.
    pub fn ask<'b>(
        self,
        query: Query,
        words: Words<'b>,
    ) -> (Asking<'a>, Result<Result<(), Stop>, Fault<'b>>) {
        let (asking, made) = self.ask_alone(query, words);
        match made {
            Ok(Ok(())) => asking.add_reasons_of(query, words),
            Ok(Err(stop)) => (asking, Ok(Err(stop))),
            Err(fault) => (asking, Err(fault)),
        }
    }

    /// Makes the answer to a line, without reasons but where the line itself asks for them.
    fn ask_alone<'b>(
        mut self,
        query: Query,
        words: Words<'b>,
    ) -> (Asking<'a>, Result<Result<(), Stop>, Fault<'b>>) {
        match query {
            Query::Orphan => {
                let made = self.orphan(words);
                (self, made)
            }
            Query::Knowable => {
                let made = self.knowable(words);
                (self, made)
            }
            Query::Solve => self.solve(words),
            Query::Answer => self.solve_for_values(words),
            Query::Normalize => self.normalize(words),
            Query::Overlap => self.overlap(words),
            Query::Check => self.check(words),
            Query::Candidates => self.candidates(words),
            Query::Why => {
                if self.names_impl(words) {
                    self.why_overlap(words)
                } else {
                    self.why(words)
                }
            }
        }
    }

    /// Makes the answer to a line that asks whether all impls of a reference are known.
    fn knowable<'b>(&mut self, mut words: Words<'b>) -> Result<Result<(), Stop>, Fault<'b>>
        ensures { IfOk result (λ made. OnOk made (AddsSomeKnown (declared_part self.old.scope.maker) self.new.scope.maker [] (string_bytes self.new.answer))) }
    {
        self.forget();
        let trait_ref = self.last_trait_ref(&mut words)?;
        let known = self.known(trait_ref);
        Ok(self.print_known(known))
    }

    /// Whether all impls of the reference are known, where no type is normalised.
    fn known(&mut self, trait_ref: TraitRef) -> Result<Result<(), Conflict>, OrphanStop<Infallible>>
        requires args { IsArgs self.old.scope.maker.trees trait_ref.args }
        requires no_param { HasNoParam self.old.scope.maker trait_ref }
        requires fit { ArgumentsFit self.old.scope.maker trait_ref }
        ensures answer { result ≢ Err (OrphanStop.Stop Stop.Memory) → bare_knowledge (knowledge_of result) ≡ plain_knowledge_about self.old.scope.maker trait_ref }
        ensures no_unnamed_header { HasNoAlias self.old.scope.maker trait_ref → result ≡ Ok (Ok tt) → NoUnnamedHeaderHere self.old.scope.maker trait_ref }
        ensures downstream_header { HasNoAliasOrError self.old.scope.maker trait_ref → result ≡ Ok (Err Conflict.Downstream) → IsDecidedByGeneralHere self.old.scope.maker trait_ref → HasDownstreamHere self.old.scope.maker trait_ref }
        ensures no_covered_header { HasNoAlias self.old.scope.maker trait_ref → result ≡ Ok (Ok tt) → IsOfForeignTrait self.old.scope.maker trait_ref → NoCoveredHeaderHere self.old.scope.maker trait_ref }
        ensures printed { self.new.answer ≡ self.old.answer }
        ensures grows { Grows self.old.scope.maker self.new.scope.maker }
    {
        trait_ref_is_knowable(
            self.scope.alloc,
            &mut self.scope.maker,
            trait_ref,
            unchanged,
        )
    }

    /// How a goal's trait reference begins: with the word `-`, where the reference is not to hold.
    fn polarity(words: &mut Words<'_>) -> PredicatePolarity {
        let mut ahead = *words;
        match ahead.next_word() {
            Some("-") => {
                *words = ahead;
                PredicatePolarity::Negative
            }
            _ => PredicatePolarity::Positive,
        }
    }

    /// The goal that ends the line, `TRAITREF` or `- TRAITREF`.
    fn predicate<'b>(&mut self, words: &mut Words<'b>) -> Result<TraitPredicate, Fault<'b>>
        ensures read { IfOk result (IsReadGoal self.new.scope.maker) }
        ensures grows { Grows self.old.scope.maker self.new.scope.maker }
        ensures given { self.new.given ≡ self.old.given }
        ensures answer { self.new.answer ≡ self.old.answer }
    {
        let polarity = Self::polarity(words);
        let trait_ref = self.last_trait_ref(words)?;
        Ok(TraitPredicate {
            trait_ref,
            polarity,
        })
    }

    /// What follows `solve` and the like: how long the goal is computed, and the goal.
    pub(crate) fn goal<'b>(
        &mut self,
        words: &mut Words<'b>,
    ) -> Result<(Effort, TraitPredicate), Fault<'b>>
        ensures some { IfOk result (λ r. IsEffort r.0) }
        ensures named { IfOk result (λ r. r.0 ≡ effort_of_line words.old.rest.now) }
        ensures read { IfOk result (λ r. IsReadGoal self.new.scope.maker r.1) }
        ensures grows { Grows self.old.scope.maker self.new.scope.maker }
        ensures given { self.new.given ≡ self.old.given }
        ensures answer { self.new.answer ≡ self.old.answer }
    {
        let effort = read_effort(words)?;
        let predicate = self.predicate(words)?;
        Ok((effort, predicate))
    }

    /// Makes the answer to a line that asks what a goal comes to.
    fn solve<'b>(
        mut self,
        mut words: Words<'b>,
    ) -> (Asking<'a>, Result<Result<(), Stop>, Fault<'b>>)
        ensures { IfOk result.1 (λ made. OnOk made (AddsSomeGoal words.entry.rest.now (declared_part self.entry.scope.maker) self.entry.given result.0.scope.maker [] (string_bytes result.0.answer))) }
    {
        self.forget();
        match self.goal(&mut words) {
            Ok((effort, predicate)) => {
                let (asking, made) = self.answered(predicate, effort);
                (asking, Ok(made))
            }
            Err(fault) => (self, Err(fault)),
        }
    }

    /// Adds what the goal comes to by that effort.
    fn answered(self, predicate: TraitPredicate, effort: Effort) -> (Asking<'a>, Result<(), Stop>)
        requires some { IsEffort effort }
        requires read { IsReadGoal self.scope.maker predicate }
        ensures grows { Grows self.entry.scope.maker result.0.scope.maker }
        ensures adds { OnOk result.1 (AddsGoal self.entry.scope.maker self.entry.given predicate effort result.0.scope.maker (string_bytes self.entry.answer) (string_bytes result.0.answer)) }
    {
        let (mut asking, verdict) = self.solved(predicate, effort);
        let made = asking.print_verdict(verdict);
        (asking, made)
    }

    /// What the goal comes to by that effort.
    fn solved(
        self,
        predicate: TraitPredicate,
        effort: Effort,
    ) -> (Asking<'a>, Result<Option<Verdict>, Stop>)
        requires some { IsEffort effort }
        requires read { IsReadGoal self.scope.maker predicate }
        ensures grows { Grows self.entry.scope.maker result.0.scope.maker }
        ensures comes { IfOk result.1 (λ v. IsSolved self.entry.scope.maker self.entry.given predicate effort result.0.scope.maker v) }
        ensures answer { result.0.answer ≡ self.entry.answer }
    {
        let (maker, rest) = self.apart();
        let (maker, verdict) = solve(rest.alloc, maker, &rest.given, predicate, effort);
        (rest.with(maker), verdict)
    }

    /// Makes the answer to a line that asks what a goal comes to, and what its variables stand for where that is a Yes.
    fn solve_for_values<'b>(
        mut self,
        mut words: Words<'b>,
    ) -> (Asking<'a>, Result<Result<(), Stop>, Fault<'b>>)
        ensures { IfOk result.1 (λ made. OnOk made (AddsSomeValues words.entry.rest.now (declared_part self.entry.scope.maker) self.entry.given result.0.scope.maker [] (string_bytes result.0.answer))) }
    {
        self.forget();
        match self.goal(&mut words) {
            Ok((effort, predicate)) => {
                let (asking, made) = self.answered_with_values(predicate, effort);
                (asking, Ok(made))
            }
            Err(fault) => (self, Err(fault)),
        }
    }

    /// Adds what the goal comes to by that effort, and what its variables stand for.
    fn answered_with_values(
        self,
        predicate: TraitPredicate,
        effort: Effort,
    ) -> (Asking<'a>, Result<(), Stop>)
        requires some { IsEffort effort }
        requires read { IsReadGoal self.scope.maker predicate }
        ensures grows { Grows self.entry.scope.maker result.0.scope.maker }
        ensures adds { OnOk result.1 (AddsGoalWithValues self.entry.scope.maker self.entry.given predicate effort result.0.scope.maker (string_bytes self.entry.answer) (string_bytes result.0.answer)) }
    {
        let (mut asking, solved) = self.solved_for_values(predicate, effort);
        let made = asking.print_solved(solved);
        (asking, made)
    }

    /// What the goal comes to by that effort, and what its variables stand for.
    fn solved_for_values(
        self,
        predicate: TraitPredicate,
        effort: Effort,
    ) -> (Asking<'a>, Result<Solved, Stop>)
        requires some { IsEffort effort }
        requires read { IsReadGoal self.scope.maker predicate }
        ensures grows { Grows self.entry.scope.maker result.0.scope.maker }
        ensures comes { IfOk result.1 (λ s. IsSolvedBefore self.entry.scope.maker self.entry.given predicate effort result.0.scope.maker s.verdict) }
        ensures sorts { IfOk result.1 (λ s. AreValues result.0.scope.maker.trees s.values.items) }
        ensures answer { result.0.answer ≡ self.entry.answer }
    {
        let (maker, rest) = self.apart();
        let (maker, solved) = solve_for_values(rest.alloc, maker, &rest.given, predicate, effort);
        (rest.with(maker), solved)
    }

    /// What follows `normalize`: in how many rounds, whether that is as many as it takes, and the projection.
    ///
    /// Besides the faults of the words, `Fault::NotAnAlias` comes where the type is no projection.
    fn projection<'b>(
        &mut self,
        words: &mut Words<'b>,
    ) -> Result<(Effort, bool, AliasTy), Fault<'b>>
        ensures some { IfOk result (λ r. IsEffort r.0) }
        ensures named { IfOk result (λ r. r.0 ≡ effort_of_line words.old.rest.now) }
        ensures all { IfOk result (λ r. r.1 ≡ names_all words.old.rest.now) }
        ensures projection { IfOk result (λ r. IsReadProjection self.new.scope.maker r.2) }
        ensures grows { Grows self.old.scope.maker self.new.scope.maker }
        ensures given { self.new.given ≡ self.old.given }
        ensures answer { self.new.answer ≡ self.old.answer }
    {
        let (effort, waits) = read_effort_or_all(words)?;
        let ty = self.scope.read_type(words, Binders::none(), MAX_DEPTH)?;
        let alias = projection_of(&self.scope.maker, ty)?;
        words.end()?;
        Ok((effort, waits, alias))
    }

    /// What follows `overlap`: in how many rounds, and two impls.
    pub(crate) fn two_impls<'b>(
        &self,
        words: &mut Words<'b>,
    ) -> Result<(Effort, ImplId, ImplId), Fault<'b>>
        ensures some { IfOk result (λ r. IsEffort r.0) }
        ensures named { IfOk result (λ r. r.0 ≡ effort_of_line words.old.rest.now) }
    {
        let effort = read_effort(words)?;
        let first = self.scope.names.next_named(words)?;
        let second = self.scope.names.next_named(words)?;
        words.end()?;
        Ok((effort, first, second))
    }

    /// Makes the answer to a line that asks whether two impls overlap.
    fn overlap<'b>(
        mut self,
        mut words: Words<'b>,
    ) -> (Asking<'a>, Result<Result<(), Stop>, Fault<'b>>)
        ensures { IfOk result.1 (λ made. OnOk made (AddsSomeOverlap words.entry.rest.now (declared_part self.entry.scope.maker) self.entry.given result.0.scope.maker [] (string_bytes result.0.answer))) }
    {
        self.forget();
        match self.two_impls(&mut words) {
            Ok((effort, first, second)) => {
                let (asking, made) = self.answered_with_overlap(first, second, effort);
                (asking, Ok(made))
            }
            Err(fault) => (self, Err(fault)),
        }
    }

    /// Whether the two impls overlap, by that effort for each where clause.
    pub(crate) fn overlapped(
        self,
        first: ImplId,
        second: ImplId,
        effort: Effort,
    ) -> (Asking<'a>, Result<Overlap, Stop>)
        requires some { IsEffort effort }
        ensures grows { Grows self.entry.scope.maker result.0.scope.maker }
        ensures is { IfOk result.1 (IsOverlapSolved self.entry.scope.maker self.entry.given first second effort result.0.scope.maker) }
        ensures stopped { IfErr result.1 (IsOverlapStopped self.entry.scope.maker self.entry.given result.0.scope.maker) }
        ensures names { result.0.scope.names ≡ self.entry.scope.names }
        ensures given { result.0.given ≡ self.entry.given }
        ensures answer { result.0.answer ≡ self.entry.answer }
    {
        let (maker, rest) = self.apart();
        let (maker, overlap) = overlap(rest.alloc, maker, &rest.given, first, second, effort);
        (rest.with(maker), overlap)
    }

    /// Whether the two impls overlap, whatever lines declare of them, by that effort for each where clause.
    pub(crate) fn overlapped_anyway(
        self,
        first: ImplId,
        second: ImplId,
        effort: Effort,
    ) -> (Asking<'a>, Result<Overlap, Stop>)
        requires some { IsEffort effort }
        ensures grows { Grows self.entry.scope.maker result.0.scope.maker }
        ensures is { IfOk result.1 (IsOverlapAnyway self.entry.scope.maker self.entry.given first second effort result.0.scope.maker) }
        ensures stopped { IfErr result.1 (IsOverlapStopped self.entry.scope.maker self.entry.given result.0.scope.maker) }
        ensures names { result.0.scope.names ≡ self.entry.scope.names }
        ensures given { result.0.given ≡ self.entry.given }
        ensures answer { result.0.answer ≡ self.entry.answer }
    {
        let (maker, rest) = self.apart();
        let (maker, overlap) = overlap_anyway(
            rest.alloc,
            maker,
            &rest.given,
            first,
            second,
            effort,
        );
        (rest.with(maker), overlap)
    }

    /// Whether the first impl specialises the second one, by that effort for each where clause.
    pub(crate) fn tested(
        self,
        special: ImplId,
        general: ImplId,
        effort: Effort,
    ) -> (Asking<'a>, Result<Specialization, Stop>)
        requires some { IsEffort effort }
        ensures grows { Grows self.entry.scope.maker result.0.scope.maker }
        ensures is { IfOk result.1 (IsTested self.entry.scope.maker self.entry.given special general result.0.scope.maker) }
        ensures stopped { IfErr result.1 (IsTestStopped self.entry.scope.maker self.entry.given result.0.scope.maker) }
        ensures names { result.0.scope.names ≡ self.entry.scope.names }
        ensures given { result.0.given ≡ self.entry.given }
        ensures answer { result.0.answer ≡ self.entry.answer }
    {
        let (maker, rest) = self.apart();
        let (maker, answer) = test_specialization(
            rest.alloc,
            maker,
            &rest.given,
            special,
            general,
            effort,
        );
        (rest.with(maker), answer)
    }

    /// Makes the answer to a line that asks what a projection comes to.
    fn normalize<'b>(
        mut self,
        mut words: Words<'b>,
    ) -> (Asking<'a>, Result<Result<(), Stop>, Fault<'b>>)
        ensures { IfOk result.1 (λ made. OnOk made (AddsSomeNormal words.entry.rest.now (declared_part self.entry.scope.maker) self.entry.given result.0.scope.maker [] (string_bytes result.0.answer))) }
    {
        self.forget();
        match self.projection(&mut words) {
            Ok((effort, waits, alias)) => {
                let (asking, made) = self.answered_with_normal(alias, effort, waits);
                (asking, Ok(made))
            }
            Err(fault) => (self, Err(fault)),
        }
    }

    /// Adds what the projection comes to by that effort, or, if it `waits`, once the goal of its trait is final.
    fn answered_with_normal(
        self,
        alias: AliasTy,
        effort: Effort,
        waits: bool,
    ) -> (Asking<'a>, Result<(), Stop>)
        requires some { IsEffort effort }
        requires projection { IsReadProjection self.scope.maker alias }
        ensures grows { Grows self.entry.scope.maker result.0.scope.maker }
        ensures adds { OnOk result.1 (AddsNormal self.entry.scope.maker self.entry.given alias effort waits result.0.scope.maker (string_bytes self.entry.answer) (string_bytes result.0.answer)) }
    {
        let (mut asking, normal) = self.normalized(alias, effort, waits);
        let made = asking.print_normal(normal);
        (asking, made)
    }

    /// What the projection comes to, as `normalize` has it.
    fn normalized(
        self,
        alias: AliasTy,
        effort: Effort,
        waits: bool,
    ) -> (Asking<'a>, Result<Normal, Stop>)
        requires some { IsEffort effort }
        requires projection { IsReadProjection self.scope.maker alias }
        ensures grows { Grows self.entry.scope.maker result.0.scope.maker }
        ensures sort { IfOk result.1 (IsNormal result.0.scope.maker.trees) }
        ensures comes { IfOk result.1 (λ n. IsNormalSolved self.entry.scope.maker self.entry.given alias effort waits result.0.scope.maker n) }
        ensures answer { result.0.answer ≡ self.entry.answer }
    {
        let (maker, rest) = self.apart();
        let (maker, normal) = normalize(rest.alloc, maker, &rest.given, alias, effort, waits);
        (rest.with(maker), normal)
    }

    /// Makes the answer to a line that asks for the orphan check of a reference.
    fn orphan<'b>(&mut self, mut words: Words<'b>) -> Result<Result<(), Stop>, Fault<'b>>
        ensures { IfOk result (λ made. OnOk made (AddsSomeCheck (declared_part self.old.scope.maker) self.new.scope.maker [] (string_bytes self.new.answer))) }
    {
        self.forget();
        let in_crate = words.flag(&CRATES)?;
        let trait_ref = self.last_trait_ref(&mut words)?;
        let checked = self.checked(trait_ref, in_crate);
        Ok(self.print_orphan(checked))
    }

    /// The orphan check of the reference, where no type is normalised.
    pub(crate) fn checked(
        &mut self,
        trait_ref: TraitRef,
        in_crate: InCrate,
    ) -> Result<Result<(), OrphanCheckErr<Ty>>, OrphanStop<Infallible>>
        requires args { IsArgs self.old.scope.maker.trees trait_ref.args }
        requires no_param { HasNoParam self.old.scope.maker trait_ref }
        requires fit { ArgumentsFit self.old.scope.maker trait_ref }
        ensures types { AreAnswerTypes self.new.scope.maker.trees result }
        ensures answer { ¬ (OutOfMemory result) → bare_answer (answer_of self.new.scope.maker.trees result) ≡ plain_check_of self.old.scope.maker in_crate trait_ref }
        ensures no_foreign_header { HasNoAliasOrError self.old.scope.maker trait_ref → in_crate ≡ InCrate.Local OrphanCheckMode.Proper → result ≡ Ok (Ok tt) → NoForeignHeaderHere self.old.scope.maker trait_ref }
        ensures names { self.new.scope.names ≡ self.old.scope.names }
        ensures given { self.new.given ≡ self.old.given }
        ensures printed { self.new.answer ≡ self.old.answer }
        ensures grows { Grows self.old.scope.maker self.new.scope.maker }
    {
        orphan_check_trait_ref(
            self.scope.alloc,
            &mut self.scope.maker,
            trait_ref,
            in_crate,
            unchanged,
        )
    }
}

/// How long goals are computed: in so many rounds, or by `*` as long as needed.
pub(crate) fn read_effort<'a>(words: &mut Words<'a>) -> Result<Effort, Fault<'a>>
    ensures some { IfOk result (λ n. IsEffort n) }
    ensures named { IfOk result (λ n. n ≡ effort_of_line words.old.rest.now) }
{
    let (effort, _) = read_effort_or_all(words)?;
    Ok(effort)
}

/// The same, and whether it is `*`.
fn read_effort_or_all<'a>(words: &mut Words<'a>) -> Result<(Effort, bool), Fault<'a>>
    ensures some { IfOk result (λ n. IsEffort n.0) }
    ensures named { IfOk result (λ n. n.0 ≡ effort_of_line words.old.rest.now) }
    ensures all { IfOk result (λ n. n.1 ≡ names_all words.old.rest.now) }
{
    let mut ahead = *words;
    match ahead.next_word() {
        Some(word) if is_star(word) => {
            *words = ahead;
            Ok((Effort::AsNeeded, true))
        }
        _ => Ok((Effort::Rounds(words.number(1, MAX_ROUNDS)?), false)),
    }
}

/// Whether the word is `*`.
fn is_star(word: &str) -> bool
    ensures { result ≡ pointwise nat_eq word.now (42 ∷ []) }
{
    word == "*"
}

/// The projection that the type is; else `Fault::NotAnAlias`.
fn projection_of<'a>(cx: &Cx, ty: Ty) -> Result<AliasTy, Fault<'a>>
    requires sort { IsTy cx.now.trees ty }
    requires no_param { Lacks true cx.now.trees ty.0 }
    ensures { IfOk result (IsReadProjection cx.now) }
{
    let kind = cx.kind(ty);
    let TyKind::Alias(alias) = kind else {
        return Err(Fault::NotAnAlias);
    };
    let AliasKind::Projection = alias.kind else {
        return Err(Fault::NotAnAlias);
    };
    let of = trait_predicate(cx, alias).trait_ref;
    if !cx.args_fit(kind) || !cx.trait_ref_args_fit(of) {
        return Err(Fault::NotAnAlias);
    }
    Ok(alias)
}

/// The normal form of a type where none is normalised.
pub(crate) fn unchanged(cx: &mut Cx, ty: Ty) -> Result<Ty, NormalizeErr<Infallible>>
    ensures answer { result ≡ Ok ty }
    ensures context { cx.new ≡ cx.old }
{
    Ok(ty)
}
