//! How often quick rejection was asked, for contracts alone.

ghost use Rattle.std.specs.Prelude.{◌≡◌, ℕ, ◌+◌};
ghost use Rattle.std.specs.Borrow.{ftrue};
ghost use Rattle.ir_trees.specs.Syntax.Words.{IsTy, ty_tree};
ghost use Rattle.ir_trees.specs.Unification.Unify.{trees_may_unify};

use crate::decl::context::Cx;
use ir_trees::ir::kinds::Ty;
use ir_trees::ir::trees::Trees;
use ir_trees::ir::unify::RightSide;
use std::marker::Model;

/// A number of tests. It takes no bytes: contracts alone see it.
#[derive(Drop)]
pub struct UnifyCount {
    pub ghost tests: { ℕ },
}

impl Model for UnifyCount {
    ghost also_owns = { λ _. ftrue };
}

impl UnifyCount {
    /// No test.
    pub fn new() -> UnifyCount
        ensures { result.tests ≡ 0 }
    {
        UnifyCount {}
    }

    /// One test more.
    fn one_more(_before: &UnifyCount) -> UnifyCount
        ensures { result.tests ≡ _before.now.tests + 1 }
    {
        UnifyCount {}
    }

    /// Whether the type may be equal to that of an impl header, by quick rejection.
    pub fn test(&mut self, cx: &Cx, ty: Ty, header: Ty) -> bool
        requires ty { IsTy cx.now.trees ty }
        requires header { IsTy cx.now.trees header }
        ensures said { result ≡ trees_may_unify RightSide.Header (ty_tree cx.now.trees ty) (ty_tree cx.now.trees header) }
        ensures counted { self.new.tests ≡ self.old.tests + 1 }
    {
        *self = UnifyCount::one_more(self);
        cx.may_unify(ty, header, RightSide::Header)
    }
}
