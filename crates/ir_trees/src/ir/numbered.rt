//! Numbers whose type says what stands there.

ghost use Rattle.std.specs.Prelude.{◌≡◌, ℕ, true, false, refl};
ghost use Rattle.ir_trees.specs.Syntax.Kinds.{arg_kind, arg_number, arg_there};
ghost use Rattle.ir_trees.specs.Syntax.Nodes.{arg_unbound, is_bound_kind};
ghost use Rattle.ir_trees.specs.Syntax.Trees.{Kind, TypeKind, ConstantKind, RegionKind, SignatureKind, ArgumentsKind, ClauseKind, ClausesKind, there};

use crate::ir::kinds::{Args, Clause, Const, GenericArg, ParamEnv, Region, Sig, Ty};

/// A number of a context whose type says what stands there.
pub trait Numbered: Copy {
    /// The number.
    ghost number_of: { Self → ℕ };

    /// What stands there.
    ghost kind: { Self → Kind };

    /// The number that it is in its context.
    fn number(self) -> u32
        ensures { result ≡ number_of self };

    /// That number, for something of the same kind.
    fn with_number(self, number: u32) -> Self
        ensures number { number_of result ≡ number }
        ensures kind { kind result ≡ kind self };

    /// It is a kind of something.
    ghost is_there: { (x : Self) → there (kind x) ≡ true };

    /// It is no single bound of a `dyn` type.
    ghost is_unbound: { (x : Self) → is_bound_kind (kind x) ≡ false };
}

impl Numbered for Ty {
    ghost number_of = { λ x. x.0 };

    ghost kind = { λ _. TypeKind };

    fn number(self) -> u32 {
        self.0
    }

    fn with_number(self, number: u32) -> Ty {
        Ty(number)
    }

    ghost is_there = { λ _. refl };

    ghost is_unbound = { λ _. refl };
}

impl Numbered for Const {
    ghost number_of = { λ x. x.0 };

    ghost kind = { λ _. ConstantKind };

    fn number(self) -> u32 {
        self.0
    }

    fn with_number(self, number: u32) -> Const {
        Const(number)
    }

    ghost is_there = { λ _. refl };

    ghost is_unbound = { λ _. refl };
}

impl Numbered for Region {
    ghost number_of = { λ x. x.0 };

    ghost kind = { λ _. RegionKind };

    fn number(self) -> u32 {
        self.0
    }

    fn with_number(self, number: u32) -> Region {
        Region(number)
    }

    ghost is_there = { λ _. refl };

    ghost is_unbound = { λ _. refl };
}

impl Numbered for Args {
    ghost number_of = { λ x. x.0 };

    ghost kind = { λ _. ArgumentsKind };

    fn number(self) -> u32 {
        self.0
    }

    fn with_number(self, number: u32) -> Args {
        Args(number)
    }

    ghost is_there = { λ _. refl };

    ghost is_unbound = { λ _. refl };
}

impl Numbered for Clause {
    ghost number_of = { λ x. x.0 };

    ghost kind = { λ _. ClauseKind };

    fn number(self) -> u32 {
        self.0
    }

    fn with_number(self, number: u32) -> Clause {
        Clause(number)
    }

    ghost is_there = { λ _. refl };

    ghost is_unbound = { λ _. refl };
}

impl Numbered for Sig {
    ghost number_of = { λ x. x.0 };

    ghost kind = { λ _. SignatureKind };

    fn number(self) -> u32 {
        self.0
    }

    fn with_number(self, number: u32) -> Sig {
        Sig(number)
    }

    ghost is_there = { λ _. refl };

    ghost is_unbound = { λ _. refl };
}

impl Numbered for ParamEnv {
    ghost number_of = { λ x. x.0 };

    ghost kind = { λ _. ClausesKind };

    fn number(self) -> u32 {
        self.0
    }

    fn with_number(self, number: u32) -> ParamEnv {
        ParamEnv(number)
    }

    ghost is_there = { λ _. refl };

    ghost is_unbound = { λ _. refl };
}

impl Numbered for GenericArg {
    ghost number_of = { arg_number };

    ghost kind = { arg_kind };

    fn number(self) -> u32 {
        match self {
            GenericArg::Ty(ty) => ty.0,
            GenericArg::Const(constant) => constant.0,
            GenericArg::Region(region) => region.0,
        }
    }

    fn with_number(self, number: u32) -> GenericArg {
        match self {
            GenericArg::Ty(_) => GenericArg::Ty(Ty(number)),
            GenericArg::Const(_) => GenericArg::Const(Const(number)),
            GenericArg::Region(_) => GenericArg::Region(Region(number)),
        }
    }

    ghost is_there = { arg_there };

    ghost is_unbound = { arg_unbound };
}
