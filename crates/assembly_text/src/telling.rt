//! The queries that say why a goal comes to what it does, and by which candidates.

ghost use Rattle.std.specs.Prelude.{◌≡◌, ◌<◌, [], Ok, All, IfErr, IfOk, IfSome, OnOk, string_bytes};
ghost use Rattle.ir_trees.specs.Declarations.Context.{Grows};
ghost use Rattle.ir_trees.specs.Syntax.Words.{IsArgs, IsClause, IsTy};
ghost use Rattle.candidate_rounds.specs.Table.Goals.{Each};
ghost use Rattle.candidate_rounds.specs.Table.Steps.{IsStep};
ghost use Rattle.assembly_text.specs.Asking.{AddsSomeCandidates, AddsSomeValues, declared_part};
ghost use Rattle.assembly_text.specs.Explaining.{AddsCandidates, AreReasons, IsAsked};
ghost use Rattle.assembly_text.specs.Printing.{AddsVerdict, AddsWord, AddsWordsBefore};
ghost use Rattle.assembly_text.specs.Solving.{AddsGoalWithValues, IsReadGoal, IsSolvedBefore};
ghost use Rattle.candidate_rounds.specs.Table.Efforts.{IsEffort};

use crate::asking::Asking;
use crate::considering::{Considered, Listed, consider};
use crate::explaining::{AskedGoal, Explained, Reasons, explain};
use crate::printing::word_before_value;
use crate::refusals::{print_asking, print_refusal};
use assembly_notation::faults::Fault;
use assembly_notation::types::{MAX_DEPTH, Scope, UNSPELLED};
use assembly_notation::words::Words;
use candidate_eval::eval::clauses::predicate_in;
use candidate_eval::eval::source::{BuiltinImplSource, CandidateSource, ParamEnvSource};
use candidate_rounds::rounds::derivation::DerivationStep;
use candidate_rounds::rounds::effort::Effort;
use ir_context::decl::context::Cx;
use ir_trees::decl::contents::{AliasBoundKind, ImplId};
use ir_trees::ir::kinds::{
    Args, Clause, GenericArg, InferTy, PredicatePolarity, TraitPredicate, Ty, TyKind,
};
use ir_trees::ir::stop::Stop;
use ir_trees::ir::trees::Trees;

impl<'a> Asking<'a> {
    /// Makes the answer to a line that asks why a goal comes to what it does.
    pub(crate) fn why<'b>(
        mut self,
        mut words: Words<'b>,
    ) -> (Asking<'a>, Result<Result<(), Stop>, Fault<'b>>)
        ensures { IfOk result.1 (λ made. OnOk made (AddsSomeValues words.entry.rest.now (declared_part self.entry.scope.maker) self.entry.given result.0.scope.maker [] (string_bytes result.0.answer))) }
    {
        self.forget();
        match self.goal(&mut words) {
            Ok((effort, predicate)) => {
                let (asking, made) = self.answered_with_reasons(predicate, effort);
                (asking, Ok(made))
            }
            Err(fault) => (self, Err(fault)),
        }
    }

    /// Adds what the goal comes to in so many rounds at most, and why.
    fn answered_with_reasons(
        self,
        predicate: TraitPredicate,
        effort: Effort,
    ) -> (Asking<'a>, Result<(), Stop>)
        requires some { IsEffort effort }
        requires read { IsReadGoal self.scope.maker predicate }
        ensures grows { Grows self.entry.scope.maker result.0.scope.maker }
        ensures adds { OnOk result.1 (AddsGoalWithValues self.entry.scope.maker self.entry.given predicate effort result.0.scope.maker (string_bytes self.entry.answer) (string_bytes result.0.answer)) }
    {
        let (mut asking, explained) = self.explained(predicate, effort);
        let made = asking.print_explained(explained);
        (asking, made)
    }

    /// What the goal comes to in so many rounds at most, and why.
    fn explained(
        self,
        predicate: TraitPredicate,
        effort: Effort,
    ) -> (Asking<'a>, Result<Explained, Stop>)
        requires some { IsEffort effort }
        requires read { IsReadGoal self.scope.maker predicate }
        ensures grows { Grows self.entry.scope.maker result.0.scope.maker }
        ensures comes { IfOk result.1 (λ e. IsSolvedBefore self.entry.scope.maker self.entry.given predicate effort result.0.scope.maker e.verdict) }
        ensures sorts { IfOk result.1 (λ e. AreReasons result.0.scope.maker.trees e.reasons) }
        ensures answer { result.0.answer ≡ self.entry.answer }
    {
        let (maker, rest) = self.apart();
        let (maker, explained) = explain(
            rest.alloc,
            maker,
            &rest.given,
            predicate,
            effort,
            rest.reasons,
        );
        (rest.with(maker), explained)
    }

    fn print_explained(&mut self, explained: Result<Explained, Stop>) -> Result<(), Stop>
        requires { IfOk explained (λ e. AreReasons self.old.scope.maker.trees e.reasons) }
        ensures scope { self.new.scope ≡ self.old.scope }
        ensures printed { (e : Explained) → explained ≡ Ok e → OnOk result (AddsVerdict e.verdict (string_bytes self.old.answer) (string_bytes self.new.answer)) }
        ensures stopped { IfErr explained (λ s. result ≡ Err s) }
    {
        let explained = explained?;
        self.print_words(&explained.verdict)?;
        self.print_reasons(&explained.reasons)?;
        self.answer.push_str("\n")?;
        Ok(())
    }

    /// Adds a line for each of the reasons.
    fn print_reasons(&mut self, reasons: &Reasons) -> Result<(), Stop>
        requires { AreReasons self.old.scope.maker.trees reasons.now }
        ensures scope { self.new.scope ≡ self.old.scope }
        ensures printed { OnOk result (AddsWord [] (string_bytes self.old.answer) (string_bytes self.new.answer)) }
    {
        let mut lines = String::new(self.scope.alloc);
        let layout = Layout {
            first: "\n  ",
            with_causes: self.reasons,
        };
        print_reasons(&self.scope, reasons, layout, &mut lines)?;
        self.answer.push_str(lines.as_str())?;
        Ok(())
    }

    /// Adds the lines of `why` of a goal behind what is said of it, with why goals are refused.
    pub(crate) fn add_reasons_of_goal(
        self,
        predicate: TraitPredicate,
        effort: Effort,
    ) -> (Asking<'a>, Result<(), Stop>)
        requires some { IsEffort effort }
        requires read { IsReadGoal self.scope.maker predicate }
    {
        let (mut asking, explained) = self.explained(predicate, effort);
        let made = asking.print_lines(explained);
        (asking, made)
    }

    fn print_lines(&mut self, explained: Result<Explained, Stop>) -> Result<(), Stop>
        requires { IfOk explained (λ e. AreReasons self.old.scope.maker.trees e.reasons) }
    {
        let explained = explained?;
        let mut lines = String::new(self.scope.alloc);
        let layout = Layout {
            first: "  ",
            with_causes: true,
        };
        print_reasons(&self.scope, &explained.reasons, layout, &mut lines)?;
        if lines.is_empty() {
            return Ok(());
        }
        self.answer.push_str(lines.as_str())?;
        Ok(self.answer.push_str("\n")?)
    }

    /// Makes the answer to a line that asks by which candidates a goal comes to what it does.
    pub(crate) fn candidates<'b>(
        mut self,
        mut words: Words<'b>,
    ) -> (Asking<'a>, Result<Result<(), Stop>, Fault<'b>>)
        ensures { IfOk result.1 (λ made. OnOk made (AddsSomeCandidates words.entry.rest.now (declared_part self.entry.scope.maker) self.entry.given result.0.scope.maker [] (string_bytes result.0.answer))) }
    {
        self.forget();
        match self.goal(&mut words) {
            Ok((effort, predicate)) => {
                let (asking, made) = self.answered_with_candidates(predicate, effort);
                (asking, Ok(made))
            }
            Err(fault) => (self, Err(fault)),
        }
    }

    /// Adds the candidates, and what the goal comes to in so many rounds at most.
    fn answered_with_candidates(
        self,
        predicate: TraitPredicate,
        effort: Effort,
    ) -> (Asking<'a>, Result<(), Stop>)
        requires some { IsEffort effort }
        requires read { IsReadGoal self.scope.maker predicate }
        ensures grows { Grows self.entry.scope.maker result.0.scope.maker }
        ensures adds { OnOk result.1 (AddsCandidates self.entry.scope.maker self.entry.given predicate effort result.0.scope.maker (string_bytes self.entry.answer) (string_bytes result.0.answer)) }
    {
        let (mut asking, considered) = self.considered(predicate, effort);
        let made = asking.print_considered(considered);
        (asking, made)
    }

    /// What the goal comes to in so many rounds at most, and by which candidates.
    fn considered(
        self,
        predicate: TraitPredicate,
        effort: Effort,
    ) -> (Asking<'a>, Result<Considered, Stop>)
        requires some { IsEffort effort }
        requires read { IsReadGoal self.scope.maker predicate }
        ensures grows { Grows self.entry.scope.maker result.0.scope.maker }
        ensures comes { IfOk result.1 (λ x. IsSolvedBefore self.entry.scope.maker self.entry.given predicate effort result.0.scope.maker x.verdict) }
        ensures answer { result.0.answer ≡ self.entry.answer }
    {
        let (maker, rest) = self.apart();
        let (maker, considered) = consider(rest.alloc, maker, &rest.given, predicate, effort);
        (rest.with(maker), considered)
    }

    fn print_considered(&mut self, considered: Result<Considered, Stop>) -> Result<(), Stop>
        ensures scope { self.new.scope ≡ self.old.scope }
        ensures printed { (x : Considered) → considered ≡ Ok x → OnOk result (AddsWordsBefore x.verdict (string_bytes self.old.answer) (string_bytes self.new.answer)) }
        ensures stopped { IfErr considered (λ s. result ≡ Err s) }
    {
        let considered = considered?;
        self.print_candidates(considered.candidates.as_slice())?;
        self.print_words(&considered.verdict)?;
        self.answer.push_str("\n")?;
        Ok(())
    }

    /// Adds the candidates, one after the other, and that the goal comes to something by them.
    fn print_candidates(&mut self, candidates: &[Listed]) -> Result<(), Stop>
        ensures scope { self.new.scope ≡ self.old.scope }
        ensures printed { OnOk result (AddsWord [] (string_bytes self.old.answer) (string_bytes self.new.answer)) }
    {
        let mut list = String::new(self.scope.alloc);
        print_candidates(&self.scope, candidates, &mut list)?;
        self.answer.push_str(list.as_str())?;
        Ok(())
    }
}

/// How lines of reasons are printed.
#[derive(Clone, Copy)]
pub(crate) struct Layout {
    /// What stands before the number in the first line.
    pub(crate) first: &'static str,
    /// Whether it is added why a goal is refused.
    pub(crate) with_causes: bool,
}

impl Layout {
    /// What stands before the number in that line, from 0 on.
    fn before(self, place: usize) -> &'static str {
        if place == 0 { self.first } else { "\n  " }
    }
}

/// Adds a line for each of the reasons. None but the last has an end.
fn print_reasons(
    scope: &Scope<'_, Cx>,
    reasons: &Reasons,
    layout: Layout,
    text: &mut String,
) -> Result<(), Stop>
    requires { AreReasons scope.now.maker.trees reasons.now }
{
    match reasons {
        Reasons::Steps(tree) => print_steps(scope, tree.steps.as_slice(), layout, text),
        Reasons::Goals(goals, since) => {
            print_goals(scope, goals.as_slice(), since.as_slice(), layout, text)
        }
    }
}

fn print_steps(
    scope: &Scope<'_, Cx>,
    steps: &[DerivationStep],
    layout: Layout,
    text: &mut String,
) -> Result<(), Stop>
    requires { Each (IsStep scope.now.maker.trees) steps.now }
{
    for place in 0..steps.len() {
        let step = &steps[place];
        text.push_str(layout.before(place))?;
        print_goal(scope, place, step.key.goal.predicate, text)?;
        print_source(scope, step.source, text)?;
        print_places(step.nested.as_slice(), text)?;
        print_found(scope, step.response.values, text)?;
    }
    Ok(())
}

pub(crate) fn print_goals(
    scope: &Scope<'_, Cx>,
    goals: &[AskedGoal],
    since: &[u16],
    layout: Layout,
    text: &mut String,
) -> Result<(), Stop>
    requires { All (IsAsked scope.now.maker.trees) goals.now }
{
    for place in 0..goals.len() {
        let goal = goals[place];
        text.push_str(layout.before(place))?;
        print_goal(scope, place, goal.clause, text)?;
        text.push_str(goal.words.0)?;
        text.push_str(goal.words.1)?;
        print_round(since.get(place), text)?;
        if let Some(values) = goal.values {
            print_found(scope, values, text)?;
        }
        if layout.with_causes {
            print_cause(scope, goal, text)?;
        }
    }
    Ok(())
}

/// Adds why the goal is refused, or why it isn't known whether it holds, if that was found.
fn print_cause(scope: &Scope<'_, Cx>, goal: AskedGoal, text: &mut String) -> Result<(), Stop>
    requires { IsAsked scope.now.maker.trees goal }
{
    if goal.is_refused() {
        return print_refusal(scope, goal.clause, text);
    }
    match goal.openness {
        Some(openness) => Ok(text.push_str(openness.words())?),
        None if !goal.is_final => print_asking(scope, goal.clause, text),
        None => Ok(()),
    }
}

/// Adds a number, from 1 on, and the goal.
fn print_goal(
    scope: &Scope<'_, Cx>,
    place: usize,
    clause: Clause,
    text: &mut String,
) -> Result<(), Stop>
    requires { IsClause scope.now.maker.trees clause }
{
    text.push_str(itoa::Buffer::new().format(place.saturating_add(1)))?;
    text.push(' ')?;
    match predicate_in(&scope.maker, clause) {
        Some(predicate) => {
            if predicate.polarity == PredicatePolarity::Negative {
                text.push_str("- ")?;
            }
            scope.print_reference(predicate.trait_ref, MAX_DEPTH, text)?;
        }
        None => text.push_str(UNSPELLED)?,
    }
    text.push_str(": ")?;
    Ok(())
}

/// Adds what stands for the variables of a goal, but for those that stand for themselves.
fn print_found(scope: &Scope<'_, Cx>, values: Args, text: &mut String) -> Result<(), Stop>
    requires { IsArgs scope.now.maker.trees values }
{
    let mut number: usize = 0;
    let mut is_first = true;
    for arg in scope.maker.args(values) {
        if let GenericArg::Ty(ty) = arg {
            if print_found_type(scope, is_first, number, *ty, text)? {
                is_first = false;
            }
        }
        number = number.saturating_add(1);
    }
    Ok(())
}

/// Adds that the variable of that number stands for the type, as the first one or as another, unless it stands for itself; and says whether
/// it does so.
fn print_found_type(
    scope: &Scope<'_, Cx>,
    is_first: bool,
    number: usize,
    ty: Ty,
    text: &mut String,
) -> Result<bool, Stop>
    requires { IsTy scope.now.maker.trees ty }
{
    if is_variable(scope, ty, number) {
        return Ok(false);
    }
    text.push_str(word_before_value(is_first))?;
    text.push_str(itoa::Buffer::new().format(number))?;
    text.push_str(" = ")?;
    scope.print_type(ty, MAX_DEPTH, text)?;
    Ok(true)
}

/// Whether the type is the variable of that number.
fn is_variable(scope: &Scope<'_, Cx>, ty: Ty, number: usize) -> bool
    requires { IsTy scope.now.maker.trees ty }
{
    match scope.maker.kind(ty) {
        TyKind::Infer(InferTy::TyVar(found)) => found as usize == number,
        _ => false,
    }
}

/// Adds each candidate with whether it is sure, in brackets, or that there is none; and a colon.
fn print_candidates(
    scope: &Scope<'_, Cx>,
    candidates: &[Listed],
    text: &mut String,
) -> Result<(), Stop> {
    if candidates.is_empty() {
        text.push_str("none")?;
    }
    for i in 0..candidates.len() {
        text.push_str(if i == 0 { "(" } else { " (" })?;
        print_source(scope, candidates[i].source, text)?;
        text.push_str(if candidates[i].is_sure {
            ": yes)"
        } else {
            ": maybe)"
        })?;
    }
    text.push_str(": ")?;
    Ok(())
}

/// Adds by what a goal holds.
fn print_source(
    scope: &Scope<'_, Cx>,
    source: CandidateSource,
    text: &mut String,
) -> Result<(), Stop> {
    let (word, number) = match source {
        CandidateSource::Impl(of) => {
            text.push_str("impl ")?;
            text.push_str(name_of_impl(scope, of))?;
            return Ok(());
        }
        CandidateSource::BuiltinImpl(BuiltinImplSource::Object(number)) => ("object ", number),
        CandidateSource::BuiltinImpl(BuiltinImplSource::TraitUpcasting(number)) => {
            ("upcasting ", number)
        }
        source => {
            text.push_str(word_of_source(source))?;
            return Ok(());
        }
    };
    text.push_str(word)?;
    text.push_str(itoa::Buffer::new().format(number))?;
    Ok(())
}

/// What the impl is called in the text.
pub(crate) fn name_of_impl<'a>(scope: &Scope<'a, Cx>, of: ImplId) -> &'a str {
    match scope.names.impls.get(of.0 as usize) {
        Some(named) => named.name,
        None => UNSPELLED,
    }
}
/// The word for by what a goal holds, where that is no impl and has no number.
fn word_of_source(source: CandidateSource) -> &'static str {
    match source {
        CandidateSource::BuiltinImpl(BuiltinImplSource::Trivial) => "trivial",
        CandidateSource::BuiltinImpl(_) => "builtin",
        CandidateSource::ParamEnv(ParamEnvSource::NonGlobal) => "param_env",
        CandidateSource::ParamEnv(ParamEnvSource::Global) => "param_env global",
        CandidateSource::AliasBound(AliasBoundKind::SelfBounds) => "alias_bound",
        CandidateSource::AliasBound(AliasBoundKind::NonSelfBounds) => "alias_bound nested",
        CandidateSource::CoherenceUnknowable => "unknowable",
        CandidateSource::Impl(_) => "impl",
    }
}

/// Adds the numbers of these places, from 1 on, if there are any.
fn print_places(places: &[usize], text: &mut String) -> Result<(), Stop> {
    let mut before = " from ";
    for place in places {
        text.push_str(before)?;
        text.push_str(itoa::Buffer::new().format(place.saturating_add(1)))?;
        before = " ";
    }
    Ok(())
}

/// Adds after which round something was final, if it was.
fn print_round(round: Option<&u16>, text: &mut String) -> Result<(), Stop> {
    match round {
        Some(0) | None => Ok(()),
        Some(round) => {
            text.push_str(" after round ")?;
            text.push_str(itoa::Buffer::new().format(*round))?;
            Ok(())
        }
    }
}
