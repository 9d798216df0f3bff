//! Folds by answers that are a function, which go once over each number.

ghost use Rattle.std.specs.Prelude.{◌≡◌, ℕ, ◌+◌, ◌<◌, ◌^◌, true, false, List, [], None, length, IfOk, IfErr, IfSome, option_map};
ghost use Rattle.ir_trees.specs.declared.ir.stop.Stop.{Stop};
ghost use Rattle.ir_trees.specs.Declarations.Context.{Grows};
ghost use Rattle.ir_folds.specs.Instantiation.PureFolder.{AnswerHasCause, IsCause, IsFoldOf, AreFolds, PartComesTo, NumberComesTo, NotesNumber};
ghost use Rattle.ir_trees.specs.Instantiation.Folding.{Answers, fold, fold_tree};
ghost use Rattle.ir_trees.specs.Instantiation.Folds.{is_asked, IsArg, IsOfKind, arg_tree};
ghost use Rattle.ir_trees.specs.Instantiation.Results.{MapsMembers, row_folded, tree_in};
ghost use Rattle.ir_trees.specs.Syntax.Marks.{AreMarks};
ghost use Rattle.ir_trees.specs.Syntax.Nodes.{Extends, kind_at, tree_at, is_bound_kind};
ghost use Rattle.ir_trees.specs.Syntax.Trees.{Forest, Tree, is_list_kind};

use crate::decl::fold::fold_number;
use indexmap::IndexMap;
use ir_context::decl::make::Make;
use ir_trees::ir::heads::Marks;
use ir_trees::ir::kinds::GenericArg;
use ir_trees::ir::numbered::Numbered;
use ir_trees::ir::stop::Stop;
use ir_trees::ir::trees::Trees;
use std::alloc::Global;

/// What stands in the place of types, constants and regions, by their trees and by the binders passed.
pub trait PureFolder<M: Make> {
    /// What stands in the place of a tree, by the trees of a context.
    ghost answers: { Self → List Tree → Answers };

    /// Whether what it puts there is of a context.
    ghost is_of: { Self → List Tree → Type 0 };

    /// Why trees with its answers can't be made, where so many numbers are given.
    ghost causes: { Self → ℕ → Forest → Stop → Type 0 };

    /// Whether something may be answered in a tree of which these marks are kept: after a no nothing is.
    fn may_answer(&self, marks: Marks) -> bool
        ensures { (ts : List Tree) (d : ℕ) (t : Tree) → AreMarks marks t → result ≡ false → fold_tree (answers self.now ts) d t ≡ t };

    /// What stands for the argument under so many binders, if anything does.
    fn answer(
        &self,
        alloc: Global,
        make: &mut M,
        arg: GenericArg,
        binders: u32,
    ) -> Result<Option<GenericArg>, Stop>
        requires of { is_of self.now (M.context make.old).trees }
        requires arg { IsArg (M.context make.old).trees arg }
        ensures grows { Grows (M.context make.old) (M.context make.new) }
        ensures rest { M.rest make.new ≡ M.rest make.old }
        ensures kind { IfOk result (λ o. IsOfKind (M.context make.new).trees arg o) }
        ensures answer { let ts = (M.context make.old).trees in IfOk result (λ o. option_map (arg_tree (M.context make.new).trees) o ≡ answers self.now ts binders (arg_tree ts arg)) }
        ensures cause { let ts = (M.context make.old).trees in AnswerHasCause (causes self.now) (length (M.context make.new).trees) (answers self.now ts binders (arg_tree ts arg)) result };

    /// Its answers stay the same while nodes are made, nothing stands in the place of lists and of parts of nodes, and what stops an
    /// answer stops all that it stands in.
    fn recall_laws(&self)
        ensures stays { (ts us : List Tree) → Extends ts us → is_of self.now ts → is_of self.now us × (answers self.now us ≡ answers self.now ts) }
        ensures only { (ts : List Tree) (d : ℕ) (t : Tree) → is_asked t.head ≡ false → answers self.now ts d t ≡ None }
        ensures cause { IsCause (causes self.now) };
}

/// A number, under so many binders.
#[derive(Clone, Copy, PartialEq, Eq, Hash)]
pub struct Place {
    pub number: u32,
    pub binders: u32,
}

/// The numbers of what came of others.
#[derive(Drop)]
pub(crate) struct Results {
    numbers: IndexMap<Place, u32>,
}

impl Results {
    pub fn new(alloc: Global) -> Self
        ensures { result.numbers.entries ≡ [] }
    {
        Results {
            numbers: IndexMap::new(alloc),
        }
    }

    /// What came of it, if that is noted.
    fn of(&self, place: Place) -> Option<u32>
        ensures { (a : Answers) (ts : List Tree) → AreFolds a ts self.now.numbers.entries → IfSome result (IsFoldOf a ts place) }
    {
        self.numbers.get(&place).copied()
    }

    /// Notes what came of it. The only error is a refused growth.
    fn note(&mut self, place: Place, number: u32) -> Result<(), Stop>
        ensures noted { (a : Answers) (ts : List Tree) → AreFolds a ts self.old.numbers.entries → IsFoldOf a ts place number → AreFolds a ts self.new.numbers.entries }
        ensures cause { IfErr result (λ s. s ≡ Stop.Memory) }
    {
        self.numbers.insert(place, number)?;
        Ok(())
    }
}

/// What stands for a part of what a number stands for. Of that itself, and of what isn't answered and has a number as high, nothing is
/// said, so that the fold goes on into its children.
#[cycle(answering)]
fn fold_part<M, A>(
    alloc: Global,
    make: &mut M,
    answering: &A,
    results: &mut Results,
    whole: u32,
    arg: GenericArg,
    binders: u32,
) -> Result<Option<GenericArg>, Stop>
where
    M: Make,
    A: PureFolder<M>,
    requires of { A.is_of answering.now (M.context make.old).trees }
    requires arg { IsArg (M.context make.old).trees arg }
    requires noted { let ts = (M.context make.old).trees in AreFolds (A.answers answering.now ts) ts results.old.numbers.entries }
    ensures { PartComesTo M.context M.rest (A.answers answering.now (M.context make.old).trees) (A.causes answering.now) make.old arg binders result make.new results.new.numbers.entries }
{
    answering.recall_laws();
    let number = arg.number();
    if !answering.may_answer(make.cx().marks(number)) {
        return Ok(Some(arg));
    }
    if let Some(answer) = answering.answer(alloc, make, arg, binders)? {
        return Ok(Some(answer));
    }
    if number >= whole || number > u32::MAX - binders {
        return Ok(None);
    }
    let made = fold_noted(alloc, make, answering, results, number, binders)?;
    Ok(Some(arg.with_number(made)))
}

/// What a number stands for under so many binders, with the answers put in. What came of a part is noted, and no part is folded twice.
#[cycle(answering)]
fn fold_noted<M, A>(
    alloc: Global,
    make: &mut M,
    answering: &A,
    results: &mut Results,
    number: u32,
    binders: u32,
) -> Result<u32, Stop>
where
    M: Make,
    A: PureFolder<M>,
    requires of { A.is_of answering.now (M.context make.old).trees }
    requires inside { number < length (M.context make.old).trees }
    requires no_bound { is_bound_kind (kind_at (M.context make.old).trees number) ≡ false }
    requires room { binders + number < 2 ^ 32 }
    requires noted { let ts = (M.context make.old).trees in AreFolds (A.answers answering.now ts) ts results.old.numbers.entries }
    ensures { NotesNumber M.context M.rest (A.answers answering.now (M.context make.old).trees) (A.causes answering.now) make.old binders number result make.new results.new.numbers.entries }
{
    let place = Place { number, binders };
    if let Some(made) = results.of(place) {
        return Ok(made);
    }
    answering.recall_laws();
    let made = fold_number(
        alloc,
        make,
        &mut |make: &mut M, arg: GenericArg, binders: u32| -> Result<Option<GenericArg>, Stop>
            requires of { A.is_of answering.now (M.context make.old).trees }
            requires arg { IsArg (M.context make.old).trees arg }
            requires noted { let ts = (M.context make.old).trees in AreFolds (A.answers answering.now ts) ts results.now.numbers.entries }
            ensures same { answering.exit.now ≡ answering.entry.now }
            ensures same_reference { results.exit.ghost_name ≡ results.entry.ghost_name }
            ensures part { let a = answering.entry.now in PartComesTo M.context M.rest (A.answers a (M.context make.old).trees) (A.causes a) make.old arg binders result make.new results.exit.now.numbers.entries }
        { fold_part(alloc, make, answering, results, number, arg, binders) },
        number,
        binders,
    )?;
    results.note(place, made)?;
    Ok(made)
}

/// What a number stands for, with the answers put in. Each number is folded once under so many binders, so that trees that share parts
/// cost no more than they have numbers.
pub(crate) fn fold_once<M, A>(
    alloc: Global,
    make: &mut M,
    answering: &A,
    number: u32,
) -> Result<u32, Stop>
where
    M: Make,
    A: PureFolder<M>,
    requires of { A.is_of answering.now (M.context make.old).trees }
    requires inside { number < length (M.context make.old).trees }
    requires no_bound { is_bound_kind (kind_at (M.context make.old).trees number) ≡ false }
    ensures { NumberComesTo M.context M.rest (A.answers answering.now (M.context make.old).trees) (A.causes answering.now) make.old 0 number result make.new }
{
    fold_noted(alloc, make, answering, &mut Results::new(alloc), number, 0)
}

/// The type, constant, list or whatever else it is, with the answers put in from the top: `fold` does the same by a closure, and goes
/// as often into each number as it stands there. `Stop::Memory` comes where a growth was refused, `Stop::NodesFull` where no numbers
/// are left or the tree would be higher than 1,024, and else the answers' stops. After a stop the nodes that were made stay.
pub fn fold_answers<N, M, A>(
    alloc: Global,
    make: &mut M,
    value: N,
    answering: &A,
) -> Result<N, Stop>
where
    N: Numbered,
    M: Make,
    A: PureFolder<M>,
    requires value { kind_at (M.context make.old).trees (N.number_of value) ≡ N.kind value }
    requires of { A.is_of answering.now (M.context make.old).trees }
    ensures grows { Grows (M.context make.old) (M.context make.new) }
    ensures rest { M.rest make.new ≡ M.rest make.old }
    ensures sort { IfOk result (λ x. kind_at (M.context make.new).trees (N.number_of x) ≡ N.kind x) }
    ensures kind { IfOk result (λ x. N.kind x ≡ N.kind value) }
    ensures tree { let ts = (M.context make.old).trees in IfOk result (λ x. tree_in M.context N.number_of make.new x ≡ fold_tree (A.answers answering.now ts) 0 (tree_at ts (N.number_of value))) }
    ensures list { let a = A.answers answering.now (M.context make.old).trees in is_list_kind (N.kind value) ≡ true → MapsMembers M.context N.number_of make.old make.new value (fold a 0) result }
    ensures cause { let us = row_folded N.kind N.number_of (A.answers answering.now) (M.context make.old).trees value in IfErr result (A.causes answering.now (length (M.context make.new).trees) us) }
{
    answering.recall_laws();
    let number = fold_once(alloc, make, answering, value.number())?;
    Ok(value.with_number(number))
}
