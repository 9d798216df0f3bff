//! Side conditions of the rules that the language has for some traits.

ghost use Rattle.std.specs.Prelude.{◌≡◌};
ghost use Rattle.ir_trees.specs.Declarations.References.{ArgumentsFit};
ghost use Rattle.ir_trees.specs.Syntax.Words.{IsArgs, args_forest};
ghost use Rattle.candidate_eval.specs.Dynamic.ObjectRequirements.{first_tree};
ghost use Rattle.candidate_assembly.specs.Rules.BuiltinRules.{fn_ptr_holds, is_fn_ptr, is_known_rigid, is_tuple};
ghost use Rattle.candidate_assembly.specs.Goals.TraitGoals.{is_positive};

use candidate_eval::eval::clauses::self_ty;
use ir_context::decl::Cx;
use ir_trees::ir::heads::{Builtin, Head};
use ir_trees::ir::kinds::{PredicatePolarity, TraitPredicate};
use ir_trees::ir::trees::Trees;

pub(crate) fn is_positive(polarity: PredicatePolarity) -> bool
    ensures { result ≡ is_positive polarity }
{
    matches!(polarity, PredicatePolarity::Positive)
}

/// The head of the type that the predicate is about.
pub(crate) fn self_head(cx: &Cx, predicate: TraitPredicate) -> Head
    requires args { IsArgs cx.now.trees predicate.trait_ref.args }
    requires fit { ArgumentsFit cx.now predicate.trait_ref }
    ensures { result ≡ (first_tree (args_forest cx.now.trees predicate.trait_ref.args)).head }
{
    cx.head(self_ty(cx, predicate.trait_ref).0)
}

pub(crate) fn is_tuple(head: Head) -> bool
    ensures { result ≡ is_tuple head }
{
    matches!(head, Head::Builtin(Builtin::Tuple))
}

fn is_fn_ptr(head: Head) -> bool
    ensures { result ≡ is_fn_ptr head }
{
    matches!(head, Head::Builtin(Builtin::FnPtr(_)))
}

fn is_known_rigid(head: Head) -> bool
    ensures { result ≡ is_known_rigid head }
{
    !matches!(
        head,
        Head::Alias(_, _)
            | Head::Param(_)
            | Head::Placeholder(_)
            | Head::Bound(_)
            | Head::Infer(_)
            | Head::Error
    )
}

/// Whether a type with the head is a function pointer; for a negative goal, whether it surely is none.
pub(crate) fn fn_ptr_holds(polarity: PredicatePolarity, head: Head) -> bool
    ensures { result ≡ fn_ptr_holds polarity head }
{
    match polarity {
        PredicatePolarity::Positive => is_fn_ptr(head),
        PredicatePolarity::Negative => is_known_rigid(head) && !is_fn_ptr(head),
    }
}
