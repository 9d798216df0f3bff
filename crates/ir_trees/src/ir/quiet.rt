//! Whether a tree has what a walk or a fold looks for, by what is kept of it: if it has none, nothing is walked and nothing
//! made anew.

ghost use Rattle.std.specs.Prelude.{◌≡◌, ◌<◌, ◌||◌, length};
ghost use Rattle.ir_trees.specs.Instantiation.Opening.{is_bound_variable};
ghost use Rattle.ir_trees.specs.Syntax.Nodes.{tree_at};
ghost use Rattle.ir_trees.specs.Syntax.Trees.{is_param, tree_holds};

use crate::ir::heads::Flag;
use crate::ir::trees::Trees;

/// Whether a parameter stands in the tree of a number.
pub fn holds_param<T: Trees>(trees: &T, number: u32) -> bool
    requires { number < length (T.trees trees.now) }
    ensures { result ≡ tree_holds is_param (tree_at (T.trees trees.now) number) }
{
    trees.marks(number).has(Flag::Param)
}

/// Whether a variable that some binder binds stands there, be the binder in it or around it.
pub fn holds_bound<T: Trees>(trees: &T, number: u32) -> bool
    requires { number < length (T.trees trees.now) }
    ensures { result ≡ tree_holds is_bound_variable (tree_at (T.trees trees.now) number) }
{
    trees.marks(number).has_bound()
}

/// Whether a parameter or a bound variable stands there.
pub fn holds_param_or_bound<T: Trees>(trees: &T, number: u32) -> bool
    requires { number < length (T.trees trees.now) }
    ensures { let t = tree_at (T.trees trees.now) number in result ≡ tree_holds is_param t || tree_holds is_bound_variable t }
{
    holds_param(trees, number) || holds_bound(trees, number)
}
