//! Walks over the trees of numbers that go once into each number: equal trees have one number, and may stand in many places.

ghost use Rattle.std.specs.Prelude.{◌≡◌, ◌<◌, length, true, false, refl};
ghost use Rattle.ir_trees.specs.Calls.Walked.{AreWithout};
ghost use Rattle.ir_trees.specs.Syntax.Nodes.{kind_at, tree_at};
ghost use Rattle.ir_trees.specs.Syntax.Trees.{holds, is_list_kind, tree_holds};
ghost use Rattle.candidate_eval.specs.declared.eval.mode.TypingMode.{TypingMode};
ghost use Rattle.rounds_judge.specs.Equations.Active.{is_active};
ghost use Rattle.candidate_rounds.specs.Calls.Walking.{is_active_at, is_kept};
ghost use Rattle.candidate_rounds.specs.Evaluators.Known.{state_of};

use crate::rounds::inference::Inference;
use crate::rounds::resolving::kept_value;
use candidate_eval::eval::variable::VariableKind;
use ir_context::decl::context::Cx;
use ir_trees::ir::heads::{Variable, VariableSort};
use ir_trees::ir::kinds::{ConstKind, TyKind};
use ir_trees::ir::marks::{Mark, number_holds};
use ir_trees::ir::node::Node;
use ir_trees::ir::numbered::Numbered;
use ir_trees::ir::walked::Walked;
use std::alloc::Global;

/// The mark of what is active where two equal trees meet.
#[derive(Drop)]
struct Active<'a> {
    inference: &'a Inference,
}

impl Active<'_> {
    /// Whether the variable has a value.
    fn has_value(&self, variable: Variable) -> bool
        ensures { result ≡ is_kept self.now.inference.now variable }
    {
        kept_value(
            self.inference,
            VariableKind::Term(variable.sort),
            variable.number,
        )
        .is_some()
    }
}

impl Mark for Active<'_> {
    ghost marks = { λ m. is_active_at m.inference.now };

    fn is_on(&self, node: &Node) -> bool {
        match node {
            Node::Ty(TyKind::Infer(var)) => self.has_value(var.variable()),
            Node::Const(ConstKind::Infer(number)) => self.has_value(Variable {
                sort: VariableSort::Constant,
                number: *number,
            }),
            Node::Ty(TyKind::FnPtr(_) | TyKind::UnsafeBinder(_) | TyKind::Alias(_)) => true,
            Node::Const(ConstKind::Unevaluated(_, _)) => true,
            Node::Pred(_) | Node::Clause(_) | Node::Sig(_) => true,
            _ => false,
        }
    }

    ghost no_list = { λ _ _. refl };
}

/// Whether a head that the mark is on stands anywhere in it, where none stands in the trees of the noted numbers.
pub(crate) fn has_marked<N: Numbered, M: Mark>(
    cx: &Cx,
    walked: &mut Walked<u32>,
    of: N,
    mark: &M,
) -> bool
    requires of { kind_at cx.now.trees (N.number_of of) ≡ N.kind of }
    requires walked { AreWithout (M.marks mark.now) cx.now.trees walked.old }
    ensures is { result ≡ tree_holds (M.marks mark.now) (tree_at cx.now.trees (N.number_of of)) }
    ensures list { is_list_kind (N.kind of) ≡ true → result ≡ holds (M.marks mark.now) (tree_at cx.now.trees (N.number_of of)).children }
    ensures walked { AreWithout (M.marks mark.now) cx.now.trees walked.new }
{
    number_holds(cx, walked, of.number(), mark)
}

/// Whether nothing is active in the tree of that number, at whatever state these variables are of. After a no something may be.
pub(crate) fn is_passive(alloc: Global, cx: &Cx, inference: &Inference, number: u32) -> bool
    requires { number < length cx.now.trees }
    ensures { result ≡ true → (m : TypingMode) → holds (is_active (state_of cx.now.trees m inference.now)) (tree_at cx.now.trees number).children ≡ false }
{
    let mut walked = Walked::new(alloc);
    !number_holds(cx, &mut walked, number, &Active { inference })
}
