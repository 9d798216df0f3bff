//! Whether something marked stands anywhere in a tree. A walk goes once into each number without it, but for the first few, as far as
//! there is memory to note them.

ghost use Rattle.std.specs.Prelude.{◌≡◌, Bool, false, length, ◌<◌, refl};
ghost use Rattle.ir_trees.specs.Calls.Walked.{AreWithout};
ghost use Rattle.ir_trees.specs.Syntax.Flags.{mark, mark_of_list};
ghost use Rattle.ir_trees.specs.Instantiation.Owned.{is_unsolved};
ghost use Rattle.ir_trees.specs.Syntax.Nodes.{tree_at, head_of};
ghost use Rattle.ir_trees.specs.Unification.Substitutions.{is_made, is_placeholder_above};
ghost use Rattle.ir_trees.specs.Syntax.Marks.{AreMarks};
ghost use Rattle.ir_trees.specs.Syntax.Trees.{Tree, is_number, tree_holds};
ghost use Rattle.ir_trees.specs.declared.ir.heads.Head.{Head as Heads};
ghost use Rattle.ir_trees.specs.declared.ir.heads.Head.TheVariants as H;
ghost use Rattle.ir_trees.specs.declared.ir.heads.ListHead.{ListHead};

use crate::ir::heads::{Flag, Marks};
use crate::ir::node::Node;
use crate::ir::trees::Trees;
use crate::ir::walked::Walked;

/// What some heads have and others don't; no list's head has it.
pub trait Mark {
    /// The heads that have it.
    ghost marks: { Self → Heads → Bool };

    /// Whether the head of the node has it.
    fn is_on(&self, node: &Node) -> bool
        ensures { result ≡ marks self.now (head_of node.now) };

    /// Whether something that has it may stand in a tree of which these marks are kept: after a no nothing does.
    fn may_stand(&self, kept: Marks) -> bool
        ensures { (t : Tree) → AreMarks kept t → result ≡ false → tree_holds (marks self.now) t ≡ false }
    {
        let _ = kept;
        true
    }

    /// No list has it.
    ghost no_list: { (m : Self) (l : ListHead) → marks m (H.List l) ≡ false };
}

impl Mark for Flag {
    ghost marks = { mark };

    fn is_on(&self, node: &Node) -> bool {
        node.head().has(*self)
    }

    fn may_stand(&self, kept: Marks) -> bool {
        kept.has(*self)
    }

    ghost no_list = { mark_of_list };
}

/// The mark of the variable of a number, which may be of any kind.
#[derive(Drop)]
pub(crate) struct VariableNumber(pub(crate) u32);

impl Mark for VariableNumber {
    ghost marks = { λ m. is_number m.0 };

    fn is_on(&self, node: &Node) -> bool {
        node.head().is_number(self.0)
    }

    fn may_stand(&self, kept: Marks) -> bool {
        kept.has_infer()
    }

    ghost no_list = { λ _ _. refl };
}

/// The mark of a type's or a constant's placeholder of a universe above that one.
#[derive(Drop)]
pub(crate) struct PlaceholderAbove(pub(crate) u32);

impl Mark for PlaceholderAbove {
    ghost marks = { λ m. is_placeholder_above m.0 };

    fn is_on(&self, node: &Node) -> bool {
        node.head().is_placeholder_above(self.0)
    }

    fn may_stand(&self, kept: Marks) -> bool {
        kept.has_placeholder()
    }

    ghost no_list = { λ _ _. refl };
}

/// The mark of what an evaluator makes: a variable of any kind, or a placeholder of a universe above the root's.
#[derive(Drop)]
pub struct Made;

impl Mark for Made {
    ghost marks = { λ m. is_made };

    fn is_on(&self, node: &Node) -> bool {
        node.head().is_made()
    }

    fn may_stand(&self, kept: Marks) -> bool {
        kept.has_infer() || kept.has_placeholder()
    }

    ghost no_list = { λ _ _. refl };
}

/// The mark of a variable to be solved, of any kind.
#[derive(Drop)]
pub struct Unsolved;

impl Mark for Unsolved {
    ghost marks = { λ m. is_unsolved };

    fn is_on(&self, node: &Node) -> bool {
        match node.head().variable_number() {
            Some(_) => true,
            None => false,
        }
    }

    fn may_stand(&self, kept: Marks) -> bool {
        kept.has_infer()
    }

    ghost no_list = { λ _ _. refl };
}

/// Whether a marked head stands in a number's tree, where none stands in those of the noted numbers: a number without one is gone into
/// once, but for a few.
pub fn number_holds<T: Trees, M: Mark>(
    trees: &T,
    walked: &mut Walked<u32>,
    number: u32,
    mark: &M,
) -> bool
    requires number { number < length (T.trees trees.now) }
    requires walked { AreWithout (M.marks mark.now) (T.trees trees.now) walked.old }
    ensures is { result ≡ tree_holds (M.marks mark.now) (tree_at (T.trees trees.now) number) }
    ensures walked { AreWithout (M.marks mark.now) (T.trees trees.now) walked.new }
{
    if !mark.may_stand(trees.marks(number)) {
        return false;
    }
    let node = trees.node(number);
    if mark.is_on(node) {
        return true;
    }
    if walked.has(number) {
        return false;
    }
    for i in 0..node.child_count() {
        if number_holds(trees, walked, node.child(i), mark) {
            return true;
        }
    }
    walked.note(number, node.child_count());
    false
}
