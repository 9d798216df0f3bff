//! What the layers above know of an evaluator.

pub mod ambiguity;
pub mod binders;
pub mod certainty;
pub mod clauses;
pub mod context;
pub mod knowing;
pub mod mode;
pub mod refusal;
pub mod resolving;
pub mod response;
pub mod source;
pub mod variable;

ghost use Rattle.std.specs.Prelude.{◌≡◌, false, refl};
ghost use Rattle.ir_trees.specs.Declarations.Context.{Context};
ghost use Rattle.ir_trees.specs.Syntax.Trees.{Tree};
ghost use Rattle.ir_trees.specs.Syntax.Words.{IsTy, ty_tree};
ghost use Rattle.candidate_eval.specs.Knowability.Orphan.{is_variable};

use ir_context::decl::Cx;
use ir_context::decl::make::Make;
use ir_trees::ir::kinds::Ty;

/// A context whose variables may have values.
pub trait InferCtxtLike: Make {
    /// The type of what is seen of it.
    ghost Seen: { Type 0 };

    /// What is seen of it: what it answers, and what a normaliser may answer by.
    ghost seen: { Self → Seen };

    /// The tree with the value in place of a variable that is its root.
    ghost resolved: { Seen → Tree → Tree };

    /// The type with the value in place of a variable at its root; another type is its own answer.
    fn shallow_resolve(&self, ty: Ty) -> Ty
        requires { IsTy (Self.context self.now).trees ty }
        ensures sort { IsTy (Self.context self.now).trees result }
        ensures tree { ty_tree (Self.context self.now).trees result ≡ resolved (seen self.now) (ty_tree (Self.context self.now).trees ty) };

    /// A tree whose root is no variable stays.
    ghost stays: { (v : Seen) (t : Tree) → is_variable t.head ≡ false → resolved v t ≡ t };
}

/// A context in which no variable has a value. All of it is seen.
impl InferCtxtLike for Cx {
    ghost Seen = { Context };

    ghost seen = { λ c. c };

    ghost resolved = { λ _ t. t };

    ghost stays = { λ _ _ _. refl };

    fn shallow_resolve(&self, ty: Ty) -> Ty {
        ty
    }
}
