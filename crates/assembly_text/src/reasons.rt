//! Why two impls overlap, may overlap or don't: the lines behind what is said of them.

ghost use Rattle.std.specs.Prelude.{◌≡◌, ◌<◌, [], All, IfOk, IfSome, List, OnOk, string_bytes};
ghost use Rattle.ir_trees.specs.Declarations.Context.{Grows};
ghost use Rattle.ir_trees.specs.Syntax.Trees.{Tree};
ghost use Rattle.ir_trees.specs.Syntax.Words.{IsArgs, IsClause};
ghost use Rattle.assembly_text.specs.Asking.{declared_part};
ghost use Rattle.assembly_text.specs.Reasons.{AddsMore, AddsOverlapAndMore, AddsSomeOverlapAndMore, AreReasoned};
ghost use Rattle.assembly_text.specs.Solving.{GivenIsListed};
ghost use Rattle.candidate_rounds.specs.Table.Efforts.{IsEffort};

use crate::asking::{Asking, read_effort};
use crate::explaining::{AskedGoal, asked_goals};
use crate::refusals::print_serving;
use crate::solving::{context_of, open_evaluator};
use crate::telling::{Layout, name_of_impl, print_goals};
use assembly_notation::faults::Fault;
use assembly_notation::given::Given;
use assembly_notation::types::{MAX_DEPTH, Scope, UNSPELLED};
use assembly_notation::words::Words;
use candidate_eval::coherence::Conflict;
use candidate_eval::eval::clauses::predicate_in;
use candidate_rounds::rounds::Rounds;
use candidate_rounds::rounds::effort::Effort;
use candidate_rounds::rounds::normalizing::canonical_args;
use ir_context::decl::context::Cx;
use ir_context::decl::make::Build;
use ir_trees::decl::contents::ImplId;
use ir_trees::ir::heads::Flag;
use ir_trees::ir::kinds::{
    AliasTerm, AliasTy, Clause, ClauseKind, GenericArg, PredicatePolarity, TraitPredicate,
    TraitRef, TyKind,
};
use ir_trees::ir::stop::Stop;
use ir_trees::ir::trees::Trees;
use overlaps::overlap::{Overlap, WhereClause};
use overlaps::reasons::{Cause, OpenClause, open_clauses};
use std::alloc::Global;

/// What an evaluator finds of two impls whose headers are equal.
#[derive(Drop)]
pub(crate) struct Reasoned {
    /// The where clauses that are open there.
    clauses: Vec<OpenClause>,
    /// The goals that all where clauses asked for.
    goals: Vec<AskedGoal>,
}

/// What is told of why two impls overlap or not, behind what `overlap` says.
#[derive(Clone, Copy)]
enum Reason {
    /// Nothing.
    Nothing,
    /// Their headers, which are apart.
    Headers(ImplId, ImplId),
    /// That this where clause is refused.
    Refused(WhereClause),
    /// That this where clause can't hold where the other impl does.
    Negated(WhereClause),
    /// Which where clauses are open, and in which header an alias stands.
    Open(ImplId, ImplId),
}

/// The open where clauses of the two impls, and the goals that were asked for.
fn find_open(
    alloc: Global,
    rounds: &mut Rounds,
    first: ImplId,
    second: ImplId,
    effort: Effort,
) -> Result<Reasoned, Stop>
    requires some { IsEffort effort }
    ensures grows { Grows rounds.old.context rounds.new.context }
    ensures sorts { IfOk result (AreReasoned rounds.new.context.trees) }
{
    let clauses = open_clauses(alloc, rounds, first, second, effort)?;
    let goals = asked_goals(alloc, rounds)?;
    Ok(Reasoned { clauses, goals })
}

/// The open where clauses of the two impls, and the goals that were asked for, in a new evaluator, as `overlap` has it; and the context, with the
/// nodes that were made meanwhile. It stops as `open_clauses` does.
fn ask_reasoned(
    alloc: Global,
    cx: Cx,
    given: &Given,
    first: ImplId,
    second: ImplId,
    effort: Effort,
) -> (Cx, Result<Reasoned, Stop>)
    requires some { IsEffort effort }
    requires given { GivenIsListed cx.trees given.now }
    ensures grows { Grows cx result.0 }
    ensures sorts { IfOk result.1 (AreReasoned result.0.trees) }
{
    match open_evaluator(alloc, cx, given) {
        Ok(mut rounds) => {
            let reasoned = find_open(alloc, &mut rounds, first, second, effort);
            (context_of(rounds), reasoned)
        }
        Err((cx, stop)) => (cx, Err(stop)),
    }
}

impl<'a> Asking<'a> {
    /// Whether the line asks about impls: the first word behind the rounds is the name of one.
    pub(crate) fn names_impl<'b>(&self, mut words: Words<'b>) -> bool {
        if read_effort(&mut words).is_err() {
            return false;
        }
        let named: Result<ImplId, Fault<'b>> = self.scope.names.next_named(&mut words);
        named.is_ok()
    }

    /// Makes the answer to a line that asks why two impls overlap, or why not: what `overlap` says of them, and then why.
    pub(crate) fn why_overlap<'b>(
        mut self,
        mut words: Words<'b>,
    ) -> (Asking<'a>, Result<Result<(), Stop>, Fault<'b>>)
        ensures { IfOk result.1 (λ made. OnOk made (AddsSomeOverlapAndMore words.entry.rest.now (declared_part self.entry.scope.maker) self.entry.given [] (string_bytes result.0.answer))) }
    {
        self.forget();
        match self.two_impls(&mut words) {
            Ok((effort, first, second)) => {
                let (asking, made) = self.overlap_with_reasons(first, second, effort);
                (asking, Ok(made))
            }
            Err(fault) => (self, Err(fault)),
        }
    }

    /// Adds whether the two impls overlap, in so many rounds for each where clause, and why.
    fn overlap_with_reasons(
        self,
        first: ImplId,
        second: ImplId,
        effort: Effort,
    ) -> (Asking<'a>, Result<(), Stop>)
        requires some { IsEffort effort }
        ensures { OnOk result.1 (AddsOverlapAndMore self.entry.scope.maker self.entry.given first second effort (string_bytes self.entry.answer) (string_bytes result.0.answer)) }
    {
        let (asking, made) = self.answered_with_overlap(first, second, effort);
        match made {
            Ok(()) => asking.add_reasons(first, second, effort),
            Err(stop) => (asking, Err(stop)),
        }
    }

    /// Adds why the two impls overlap or not, line by line: it is asked anew.
    pub(crate) fn add_reasons(
        self,
        first: ImplId,
        second: ImplId,
        effort: Effort,
    ) -> (Asking<'a>, Result<(), Stop>)
        requires some { IsEffort effort }
        ensures { OnOk result.1 (AddsMore (string_bytes self.entry.answer) (string_bytes result.0.answer)) }
    {
        let (asking, reason) = self.reason_of(first, second, effort);
        let (mut asking, reasoned) = asking.reasoned(first, second, effort);
        let made = asking.print_reason(reason, reasoned);
        (asking, made)
    }

    /// What is told of why the two impls overlap or not.
    fn reason_of(
        self,
        first: ImplId,
        second: ImplId,
        effort: Effort,
    ) -> (Asking<'a>, Result<Reason, Stop>)
        requires some { IsEffort effort }
        ensures answer { result.0.answer ≡ self.entry.answer }
    {
        let (asking, overlap) = self.overlapped(first, second, effort);
        match overlap {
            Ok(Overlap::DisjointHeaders) => (asking, Ok(Reason::Headers(first, second))),
            Ok(Overlap::DisjointClause(place)) => (asking, Ok(Reason::Refused(place))),
            Ok(Overlap::May(instance)) => {
                if instance.is_certain {
                    return (asking, Ok(Reason::Nothing));
                }
                asking.reason_unless_apart(first, second, effort)
            }
            Ok(Overlap::Allowed(_)) => (asking, Ok(Reason::Nothing)),
            Ok(Overlap::NoCommonTrait) => (asking, Ok(Reason::Nothing)),
            Err(stop) => (asking, Err(stop)),
        }
    }

    /// What is told of two impls that may overlap: nothing where their where clauses can't hold together.
    fn reason_unless_apart(
        self,
        first: ImplId,
        second: ImplId,
        effort: Effort,
    ) -> (Asking<'a>, Result<Reason, Stop>)
        requires some { IsEffort effort }
        ensures answer { result.0.answer ≡ self.entry.answer }
    {
        let (asking, apart) = self.kept_apart(first, second, effort);
        match apart {
            Ok(true) => (asking, Ok(Reason::Nothing)),
            Ok(false) => asking.reason_unless_negated(first, second, effort),
            Err(stop) => (asking, Err(stop)),
        }
    }

    /// What is told of two impls that may overlap: the where clause that can't hold where the other impl does, if that is asked for and one is
    /// found; else which of them are open.
    fn reason_unless_negated(
        self,
        first: ImplId,
        second: ImplId,
        effort: Effort,
    ) -> (Asking<'a>, Result<Reason, Stop>)
        requires some { IsEffort effort }
        ensures answer { result.0.answer ≡ self.entry.answer }
    {
        if !self.given.negative {
            return (self, Ok(Reason::Open(first, second)));
        }
        let (asking, clause) = self.negated(first, second, effort);
        match clause {
            Ok(Some(place)) => (asking, Ok(Reason::Negated(place))),
            Ok(None) => (asking, Ok(Reason::Open(first, second))),
            Err(stop) => (asking, Err(stop)),
        }
    }

    /// What an evaluator finds of the two where their headers are equal, in so many rounds for each where clause.
    fn reasoned(
        self,
        first: ImplId,
        second: ImplId,
        effort: Effort,
    ) -> (Asking<'a>, Result<Reasoned, Stop>)
        requires some { IsEffort effort }
        ensures sorts { IfOk result.1 (AreReasoned result.0.scope.maker.trees) }
        ensures answer { result.0.answer ≡ self.entry.answer }
    {
        let (maker, rest) = self.apart();
        let (maker, reasoned) = ask_reasoned(rest.alloc, maker, &rest.given, first, second, effort);
        (rest.with(maker), reasoned)
    }

    /// Adds the lines of the reason.
    fn print_reason(
        &mut self,
        reason: Result<Reason, Stop>,
        reasoned: Result<Reasoned, Stop>,
    ) -> Result<(), Stop>
        requires { IfOk reasoned (AreReasoned self.old.scope.maker.trees) }
        ensures { OnOk result (AddsMore (string_bytes self.old.answer) (string_bytes self.new.answer)) }
    {
        let reason = reason?;
        let reasoned = reasoned?;
        let mut lines = String::new(self.scope.alloc);
        self.print_lines_of(reason, &reasoned, &mut lines)?;
        self.answer.push_str(lines.as_str())?;
        Ok(())
    }

    /// Adds the lines of the reason to a text.
    fn print_lines_of(
        &mut self,
        reason: Reason,
        reasoned: &Reasoned,
        text: &mut String,
    ) -> Result<(), Stop>
        requires { AreReasoned self.old.scope.maker.trees reasoned.now }
        ensures answer { self.new.answer ≡ self.old.answer }
    {
        print_lines(&mut self.scope, reason, reasoned, self.reasons, text)
    }
}

/// Adds the lines of a reason, by what was found of the two impls.
fn print_lines(
    scope: &mut Scope<'_, Cx>,
    reason: Reason,
    reasoned: &Reasoned,
    with_causes: bool,
    text: &mut String,
) -> Result<(), Stop>
    requires { AreReasoned scope.old.maker.trees reasoned.now }
    ensures { Grows scope.old.maker scope.new.maker }
{
    match reason {
        Reason::Nothing => Ok(()),
        Reason::Headers(first, second) => {
            print_header(scope, first, text)?;
            print_header(scope, second, text)
        }
        Reason::Refused(place) => print_refused(scope, place, reasoned, with_causes, text),
        Reason::Negated(place) => print_negated(scope, place, reasoned, text),
        Reason::Open(first, second) => {
            print_alias(scope, first, text)?;
            print_alias(scope, second, text)?;
            print_all(scope, reasoned.clauses.as_slice(), text)
        }
    }
}

/// Adds that the where clause of that place is refused, and the goals that were asked for.
fn print_refused(
    scope: &mut Scope<'_, Cx>,
    place: WhereClause,
    reasoned: &Reasoned,
    with_causes: bool,
    text: &mut String,
) -> Result<(), Stop>
    requires { AreReasoned scope.old.maker.trees reasoned.now }
    ensures { Grows scope.old.maker scope.new.maker }
{
    let Some(found) = clause_at(reasoned.clauses.as_slice(), place) else {
        return Ok(());
    };
    let layout = Layout {
        first: "\n  ",
        with_causes,
    };
    let mut goals = String::new(scope.alloc);
    print_goals(scope, reasoned.goals.as_slice(), &[], layout, &mut goals)?;
    text.push_str("  ")?;
    print_place(scope, found, text)?;
    text.push_str(" is refused")?;
    text.push_str(goals.as_str())?;
    Ok(text.push_str("\n")?)
}

/// Adds that the where clause of that place is negated.
fn print_negated(
    scope: &mut Scope<'_, Cx>,
    place: WhereClause,
    reasoned: &Reasoned,
    text: &mut String,
) -> Result<(), Stop>
    requires { AreReasoned scope.old.maker.trees reasoned.now }
    ensures { Grows scope.old.maker scope.new.maker }
{
    let Some(found) = clause_at(reasoned.clauses.as_slice(), place) else {
        return Ok(());
    };
    text.push_str("  ")?;
    print_place(scope, found, text)?;
    Ok(text.push_str(" is negated\n")?)
}

/// The clause of that place, if it is among these.
fn clause_at(clauses: &[OpenClause], place: WhereClause) -> Option<OpenClause>
    ensures { (ts : List Tree) → All (λ x. IsClause ts x.clause) clauses.now → IfSome result (λ x. IsClause ts x.clause) }
{
    for number in 0..clauses.len() {
        if clauses[number].place == place {
            return Some(clauses[number]);
        }
    }
    None
}

/// Adds a line with the impl's header as it is declared.
fn print_header(scope: &Scope<'_, Cx>, of: ImplId, text: &mut String) -> Result<(), Stop> {
    let Some(contents) = scope.maker.impl_contents(of) else {
        return Ok(());
    };
    text.push_str("  impl ")?;
    text.push_str(name_of_impl(scope, of))?;
    text.push_str(": ")?;
    scope.print_reference(contents.trait_ref, MAX_DEPTH, text)?;
    Ok(text.push_str("\n")?)
}

/// Adds a line that an alias stands in the impl's header, if one does.
fn print_alias(scope: &Scope<'_, Cx>, of: ImplId, text: &mut String) -> Result<(), Stop> {
    let Some(contents) = scope.maker.impl_contents(of) else {
        return Ok(());
    };
    if !scope.maker.has(contents.trait_ref.args, Flag::Alias) {
        return Ok(());
    }
    text.push_str("  because an alias stands in the header of impl ")?;
    text.push_str(name_of_impl(scope, of))?;
    Ok(text.push_str("\n")?)
}

/// Adds a line for each of the clauses.
fn print_all(
    scope: &mut Scope<'_, Cx>,
    clauses: &[OpenClause],
    text: &mut String,
) -> Result<(), Stop>
    requires { All (λ x. IsClause scope.old.maker.trees x.clause) clauses.now }
    ensures { Grows scope.old.maker scope.new.maker }
{
    for number in 0..clauses.len() {
        print_because(scope, clauses[number], text)?;
    }
    Ok(())
}

/// Adds a line that the clause is open, and why.
fn print_because(
    scope: &mut Scope<'_, Cx>,
    found: OpenClause,
    text: &mut String,
) -> Result<(), Stop>
    requires { IsClause scope.old.maker.trees found.clause }
    ensures { Grows scope.old.maker scope.new.maker }
{
    let mut serving = String::new(scope.alloc);
    if let Cause::Conflict(_) = found.cause {
        print_serving(scope, found.clause, &mut serving)?;
    }
    text.push_str("  because ")?;
    print_place(scope, found, text)?;
    text.push_str(" is open: ")?;
    text.push_str(words_of_cause(found.cause))?;
    text.push_str(serving.as_str())?;
    Ok(text.push_str("\n")?)
}

/// Adds the impl of the clause, and what the clause says, with its variables numbered from `$0` on.
fn print_place(scope: &mut Scope<'_, Cx>, found: OpenClause, text: &mut String) -> Result<(), Stop>
    requires { IsClause scope.old.maker.trees found.clause }
    ensures { Grows scope.old.maker scope.new.maker }
{
    text.push_str("impl ")?;
    text.push_str(name_of_impl(scope, found.place.of))?;
    text.push(':')?;
    match predicate_in(&scope.maker, found.clause) {
        Some(predicate) => print_predicate(scope, predicate, text),
        None => print_projection(scope, found.clause, text),
    }
}

/// Adds what the predicate says, with its variables numbered from `$0` on.
fn print_predicate(
    scope: &mut Scope<'_, Cx>,
    predicate: TraitPredicate,
    text: &mut String,
) -> Result<(), Stop>
    requires { IsArgs scope.old.maker.trees predicate.trait_ref.args }
    ensures { Grows scope.old.maker scope.new.maker }
{
    text.push_str(match predicate.polarity {
        PredicatePolarity::Positive => " ",
        PredicatePolarity::Negative => " - ",
    })?;
    let TraitRef { def_id, args } = predicate.trait_ref;
    let args = canonical_args(scope.alloc, &mut scope.maker, args)?;
    scope.print_reference(TraitRef { def_id, args }, MAX_DEPTH, text)
}

/// Adds what a clause says that is on a projection, with its variables numbered from `$0` on.
#[tactic(auto, using(crate::proofs::Making::making))]
fn print_projection(
    scope: &mut Scope<'_, Cx>,
    clause: Clause,
    text: &mut String,
) -> Result<(), Stop>
    requires { IsClause scope.old.maker.trees clause }
    ensures { Grows scope.old.maker scope.new.maker }
{
    let ClauseKind::Projection(said) = scope.maker.clause(clause).value else {
        return Ok(text.push_str(UNSPELLED)?);
    };
    let AliasTerm { def_id, args } = said.projection_term;
    let kind = TyKind::Alias(AliasTy::projection(def_id, args));
    if !scope.maker.args_fit(kind) {
        return Ok(text.push_str(UNSPELLED)?);
    }
    let alias = scope.maker.mk_ty(kind)?;
    let sides = scope
        .maker
        .mk_args(&[GenericArg::Ty(alias), GenericArg::Ty(said.term)])?;
    let sides = canonical_args(scope.alloc, &mut scope.maker, sides)?;
    scope.print_types(sides, MAX_DEPTH, text)
}

/// The words for why a clause isn't known to hold.
fn words_of_cause(cause: Cause) -> &'static str {
    match cause {
        Cause::NoTrait => "it is of an associated type, and isn't asked",
        Cause::NotAsked => "its goal wasn't asked",
        Cause::Alias => "an alias isn't known",
        Cause::Conflict(Conflict::Upstream) => "upstream crates may add an impl",
        Cause::Conflict(Conflict::Downstream) => "downstream crates may add an impl",
        Cause::Ambiguous => "its goal is ambiguous",
        Cause::Refused => "it is refused, which decides nothing here",
        Cause::GivesValues => "it holds by values of variables",
        Cause::RestsOnPart => "it may rest on an auto trait's impl for some types of a head",
    }
}
