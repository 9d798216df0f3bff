//! Whether each parameter has an argument of its kind: the condition of a substitution.

ghost use Rattle.std.specs.Prelude.{◌≡◌, ◌<◌, ◌↔◌, IsTrue, false, true, length, nat_lt};
ghost use Rattle.ir_trees.specs.Instantiation.Folding.{argument, lacks_argument};
ghost use Rattle.ir_trees.specs.Syntax.Nodes.{tree_at, kind_at};
ghost use Rattle.ir_trees.specs.Declarations.Context.{parameter_kind};
ghost use Rattle.ir_trees.specs.Syntax.Trees.{count, holds, is_list_kind, kind_of, tree_holds};
ghost use Rattle.ir_trees.specs.Syntax.Words.{IsArgs, args_forest};

use ir_context::decl::context::Cx;
use ir_trees::ir::heads::{ConstHead, Head};
use ir_trees::ir::kinds::{Args, VarKind};
use ir_trees::ir::numbered::Numbered;
use ir_trees::ir::quiet::holds_param;
use ir_trees::ir::trees::Trees;

/// Whether the list has an argument of that number which is of the kind.
fn has_argument(cx: &Cx, args: Args, index: u32, kind: VarKind) -> bool
    requires { IsArgs cx.now.trees args }
    ensures { IsTrue result ↔ (nat_lt index (count (args_forest cx.now.trees args)) ≡ true) × (parameter_kind kind ≡ kind_of (argument (args_forest cx.now.trees args) index).head) }
{
    let list = cx.args(args);
    if index as usize >= list.len() {
        return false;
    }
    list[index as usize].is_of(kind)
}

/// Whether it is a parameter of which the list has no argument of its kind.
fn head_lacks(cx: &Cx, args: Args, head: Head) -> bool
    requires { IsArgs cx.now.trees args }
    ensures { result ≡ lacks_argument (args_forest cx.now.trees args) head }
{
    match head {
        Head::Param(index) => !has_argument(cx, args, index, VarKind::Ty),
        Head::Const(ConstHead::Param(index)) => !has_argument(cx, args, index, VarKind::Const),
        _ => false,
    }
}

/// Whether a parameter stands in a number's tree of which the list has no argument of its kind.
fn number_lacks(cx: &Cx, number: u32, args: Args) -> bool
    requires inside { number < length cx.now.trees }
    requires args { IsArgs cx.now.trees args }
    ensures { result ≡ tree_holds (lacks_argument (args_forest cx.now.trees args)) (tree_at cx.now.trees number) }
{
    if !holds_param(cx, number) {
        return false;
    }
    let node = cx.node(number);
    if head_lacks(cx, args, node.head()) {
        return true;
    }
    for i in 0..node.child_count() {
        if number_lacks(cx, node.child(i), args) {
            return true;
        }
    }
    false
}

/// Whether the list has an argument for each parameter in it, of its kind.
///
/// That is what `subst` asks. A tree is walked as a tree, up to the first parameter without one, and what has no
/// parameter isn't walked; no memory is taken.
pub fn has_arguments<N: Numbered>(cx: &Cx, of: N, args: Args) -> bool
    requires of { kind_at cx.now.trees (N.number_of of) ≡ N.kind of }
    requires args { IsArgs cx.now.trees args }
    ensures is { IsTrue result ↔ (tree_holds (lacks_argument (args_forest cx.now.trees args)) (tree_at cx.now.trees (N.number_of of)) ≡ false) }
    ensures list { is_list_kind (N.kind of) ≡ true → IsTrue result ↔ (holds (lacks_argument (args_forest cx.now.trees args)) (tree_at cx.now.trees (N.number_of of)).children ≡ false) }
{
    !number_lacks(cx, of.number(), args)
}
