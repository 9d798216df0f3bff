//! Normal forms.

ghost use Rattle.std.specs.Prelude.{◌≡◌, Some};
ghost use Rattle.ir_trees.specs.Syntax.Words.{IsTy, ty_tree};
ghost use Rattle.candidate_rounds.specs.Evaluators.Known.{listing};
ghost use Rattle.rounds_judge.specs.Aliases.Normalizing.{type_or_itself};

use crate::rounds::Rounds;
use ir_trees::ir::kinds::{Ty, TyKind};
use ir_trees::ir::trees::Trees;

impl Rounds {
    /// A listed alias's type, or the type itself.
    pub(crate) fn listed_or_itself(&self, ty: Ty) -> Ty
        requires { IsTy self.now.context.trees ty }
        ensures sort { IsTy self.now.context.trees result }
        ensures tree { ty_tree self.now.context.trees result ≡ type_or_itself (listing self.now) (ty_tree self.now.context.trees ty) }
    {
        let TyKind::Alias(_) = self.cx.kind(ty) else {
            return ty;
        };
        match self.listed(ty) {
            Some(listed) => listed,
            None => ty,
        }
    }
}
