//! Whether a trait is its own supertrait.

ghost use Rattle.std.specs.Prelude.{◌≡◌, ◌<◌, [], None, length, replicate, slice_get, IfOk, MatchOption};
ghost use Rattle.ir_builder.specs.Calls.Cycles.{Knows, Ends, Steps, framed, opened, closed, met, is_open, visit_of};
ghost use Rattle.ir_trees.specs.Declarations.Declaring.{contents_of};
ghost use Rattle.ir_trees.specs.Hierarchy.Supertraits.{clause_trait, clause_supertrait, declared_supers, named_supers, SaysCyclic};

use ir_trees::decl::contents::Contents;
use ir_trees::decl::definition::{Declaration, DefinitionKind};
use ir_trees::decl::misplaced::is_clause;
use ir_trees::ir::at::at;
use ir_trees::ir::heads::ClauseHead;
use ir_trees::ir::kinds::{Clause, PredicatePolarity, TraitId};
use ir_trees::ir::nodes::Nodes;
use ir_trees::ir::trees::Trees;
use std::alloc::{AllocError, Global};
use std::marker::Model;

/// How far a search is with a definition.
#[derive(Clone, Copy)]
enum Visit {
    Unseen,
    /// It stands on the stack.
    Open,
    Done,
}

/// A trait whose super clauses are looked at, and how many were.
#[derive(Clone, Copy)]
struct Frame {
    number: usize,
    looked: usize,
}

/// A search from traits to their supertraits, depth first.
#[derive(Drop)]
struct Search {
    visits: Vec<Visit>,
    stack: Vec<Frame>,
}

impl Model for Search {
    ghost use Rattle.std.specs.Prelude.{reverse};
    ghost use Rattle.ir_builder.specs.Calls.Cycles as seen;

    ghost Value = { seen.Search };

    ghost view = { λ s. record { visits = s.visits.items; frames = reverse s.stack.items } };
}

/// The trait that the clause says to hold.
fn clause_trait(head: ClauseHead) -> Option<TraitId>
    ensures { MatchOption result (clause_trait head ≡ None) (λ t. clause_trait head ≡ Some t.0) }
{
    match head {
        ClauseHead::Trait(of, PredicatePolarity::Positive) => Some(of),
        _ => None,
    }
}

/// The trait that the clause makes a supertrait.
#[tactic(auto, using(ir_context::proofs::Hierarchy::Supertraits::no_clause_names_none, ir_context::proofs::Hierarchy::Supertraits::clause_names))]
fn clause_supertrait(nodes: &Nodes, clause: Clause) -> Option<TraitId>
    ensures { MatchOption result (clause_supertrait nodes.now clause ≡ None) (λ t. clause_supertrait nodes.now clause ≡ Some t.0) }
{
    if !is_clause(nodes, clause) {
        return None;
    }
    clause_trait(nodes.clause(clause).head())
}

/// The super clauses of the definition of that number.
fn declared_supers<'a>(
    definitions: &[Declaration],
    contents: &'a Contents,
    number: usize,
) -> &'a [Clause]
    ensures { result.now ≡ declared_supers (contents_of contents.now) (slice_get definitions.now number) }
{
    let Some(definition) = at(definitions, number) else {
        return &[];
    };
    let DefinitionKind::Trait(_, place) = definition.kind() else {
        return &[];
    };
    match at(contents.traits.as_slice(), place as usize) {
        Some(of) => of.supers.as_slice(),
        None => &[],
    }
}

impl Search {
    /// A search of so many definitions that hasn't begun.
    fn new(alloc: Global, count: usize) -> Result<Self, AllocError>
        ensures { IfOk result (λ s. s ≡ record { visits = replicate count Visit.Unseen; frames = [] }) }
    {
        Ok(Search {
            visits: vec![in alloc; Visit::Unseen; count]?,
            stack: Vec::new(alloc),
        })
    }

    /// Puts a frame on top.
    fn push(&mut self, frame: Frame) -> Result<(), AllocError>
        ensures { IfOk result (λ _. self.new ≡ framed frame self.old) }
    {
        self.stack.push(frame)?;
        Ok(())
    }

    /// The last frame, taken off.
    fn pop(&mut self) -> Option<Frame>
        ensures { MatchOption result ((self.old.frames ≡ []) × (self.new ≡ self.old)) (λ f. self.old ≡ framed f self.new) }
    {
        self.stack.pop()
    }

    /// Enters a trait.
    fn enter(&mut self, number: usize) -> Result<(), AllocError>
        requires { number < length self.old.visits }
        ensures { IfOk result (λ _. self.new ≡ opened number self.old) }
    {
        self.visits[number] = Visit::Open;
        self.push(Frame { number, looked: 0 })
    }

    /// Leaves a trait whose super clauses were all looked at.
    fn leave(&mut self, number: usize)
        requires { number < length self.old.visits }
        ensures { self.new ≡ closed number self.old }
    {
        self.visits[number] = Visit::Done;
    }

    /// Whether the search is in the trait already; one that isn't seen yet is entered.
    fn meet(&mut self, number: usize) -> Result<bool, AllocError>
        ensures open { IfOk result (λ b. b ≡ is_open (visit_of self.old number)) }
        ensures met { IfOk result (λ _. self.new ≡ met number self.old) }
    {
        let Some(visit) = at(self.visits.as_slice(), number) else {
            return Ok(false);
        };
        match *visit {
            Visit::Unseen => {
                self.enter(number)?;
                Ok(false)
            }
            Visit::Open => Ok(true),
            Visit::Done => Ok(false),
        }
    }

    /// One step from the frame that was taken off last: whether it comes back to a trait that the search is in.
    fn step(
        &mut self,
        nodes: &Nodes,
        definitions: &[Declaration],
        contents: &Contents,
        frame: Frame,
    ) -> Result<bool, AllocError>
        requires { Knows (named_supers nodes.now definitions.now (contents_of contents.now)) (framed frame self.old) None }
        ensures { IfOk result (Steps (named_supers nodes.now definitions.now (contents_of contents.now)) (framed frame self.old) self.new) }
    {
        let supers = declared_supers(definitions, contents, frame.number);
        let Some(clause) = supers.get(frame.looked) else {
            self.leave(frame.number);
            return Ok(false);
        };
        self.push(Frame {
            number: frame.number,
            looked: frame.looked + 1,
        })?;
        match clause_supertrait(nodes, *clause) {
            Some(of) => self.meet(of.0 as usize),
            None => Ok(false),
        }
    }

    /// All steps until the search is in no trait any more, or comes back to one that it is in.
    fn run(
        &mut self,
        nodes: &Nodes,
        definitions: &[Declaration],
        contents: &Contents,
    ) -> Result<bool, AllocError>
        requires { Knows (named_supers nodes.now definitions.now (contents_of contents.now)) self.old None }
        ensures { IfOk result (Ends (named_supers nodes.now definitions.now (contents_of contents.now)) self.old self.new) }
    {
        while let Some(frame) = self.pop() {
            if self.step(nodes, definitions, contents, frame)? {
                return Ok(true);
            }
        }
        Ok(false)
    }
}

/// Whether some trait is its own supertrait, by the positive trait clauses among super clauses.
///
/// The only error is a refused growth.
pub(crate) fn has_supertrait_cycle(
    alloc: Global,
    nodes: &Nodes,
    definitions: &[Declaration],
    contents: &Contents,
) -> Result<bool, AllocError>
    ensures { IfOk result (SaysCyclic (named_supers nodes.now definitions.now (contents_of contents.now))) }
{
    let mut search = Search::new(alloc, definitions.len())?;
    for number in 0..definitions.len() {
        if search.meet(number)? || search.run(nodes, definitions, contents)? {
            return Ok(true);
        }
    }
    Ok(false)
}
