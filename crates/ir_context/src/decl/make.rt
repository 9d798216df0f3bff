//! What makes nodes.

ghost use Rattle.std.specs.Prelude.{◌≡◌, Bool, true, map, IfOk};
ghost use Rattle.ir_trees.specs.Declarations.Context.{Context, world};
ghost use Rattle.ir_trees.specs.Syntax.Making.{IsOne, Makes, a_type, a_constant, a_region, a_list, a_binder, some_bounds, a_signature, a_clause, an_environment, what};
ghost use Rattle.ir_trees.specs.Declarations.References.{Takes, AllTake};
ghost use Rattle.ir_trees.specs.Syntax.Table.{AreDistinct};
ghost use Rattle.ir_trees.specs.Syntax.Words.{KindFits, ConstKindFits, ListFits, SigFits, ClauseFits, ClauseListFits, BoundsFit, AtMostOnePrincipal, kind_tree, const_kind_tree, clause_kind_tree, pred_kind_tree};

use crate::decl::context::Cx;
use ir_trees::ir::kinds::{
    Args, Binder, Clause, ClauseKind, ClosureSig, Const, ConstKind, ExistentialPredicate,
    GenericArg, ParamEnv, Preds, Region, RegionKind, Sig, Ty, TyKind, VarKind, Vars,
};
use ir_trees::ir::making::New;
use ir_trees::ir::stop::Stop;

/// Declarations that go on, a context, or something over one, that nodes can be added to. Its calls change nothing else.
///
/// Equal things have one number: what is there already isn't made again, and its number is answered.
///
/// `Stop::Memory` comes where a growth was refused, `Stop::NodesFull` where no number is left or the tree would be higher than
/// 1,024. Neither changes anything. `mk_vars` and `mk_preds` take at most a number for each member and one more, and `Stop::NodesFull`
/// comes where fewer are left. Types and constants add one to a height, all else nothing.
pub trait Build {
    /// The declarations, and the trees of the numbers given so far.
    ghost context: { Self → Context };

    /// The type of all else.
    ghost Rest: { Type 0 };

    /// All else.
    ghost rest: { Self → Rest };

    /// Whether the arguments of what is made have to be those that its definition takes: a context asks it, and `finish` asks it
    /// of all that a builder made.
    ghost is_strict: { Bool };

    /// The number of what is made.
    fn make(&mut self, new: New<'_>) -> Result<u32, Stop>
        requires fits { (what new).making.fits (context self.old).trees }
        requires takes { is_strict ≡ true → (what new).making.takes (world (context self.old)) (context self.old).trees }
        ensures made { Makes (what new.entry).making (context self.old) (context self.new) result }
        ensures distinct { AreDistinct (context self.new).trees }
        ensures rest { rest self.new ≡ rest self.old };

    /// The type of that kind, whose arguments are those that it takes, as `Cx::args_fit` tests.
    ///
    /// A binder is kept as it is given. In Rust a binder has the variables that occur below it, in the order of their first
    /// occurrence: with others, a type that Rust takes for one is two.
    #[inline(never)]
    final fn mk_ty(&mut self, kind: TyKind) -> Result<Ty, Stop>
        requires fits { KindFits (context self.old).trees kind }
        requires takes { is_strict ≡ true → Takes (world (context self.old)) (kind_tree (context self.old).trees kind) }
        ensures made { Makes (a_type kind) (context self.old) (context self.new) result }
        ensures one { IfOk result (IsOne (a_type kind) (context self.new).trees) }
        ensures rest { rest self.new ≡ rest self.old }
    {
        Ok(Ty(self.make(New::Ty(kind))?))
    }

    /// The constant of that kind, whose arguments are those that it takes, as `Cx::const_args_fit` tests.
    final fn mk_const(&mut self, kind: ConstKind) -> Result<Const, Stop>
        requires fits { ConstKindFits (context self.old).trees kind }
        requires takes { is_strict ≡ true → Takes (world (context self.old)) (const_kind_tree (context self.old).trees kind) }
        ensures made { Makes (a_constant kind) (context self.old) (context self.new) result }
        ensures one { IfOk result (IsOne (a_constant kind) (context self.new).trees) }
        ensures rest { rest self.new ≡ rest self.old }
    {
        Ok(Const(self.make(New::Const(kind))?))
    }

    /// The region of that kind.
    #[inline(never)]
    final fn mk_region(&mut self, kind: RegionKind) -> Result<Region, Stop>
        ensures made { Makes (a_region kind) (context self.old) (context self.new) result }
        ensures one { IfOk result (IsOne (a_region kind) (context self.new).trees) }
        ensures rest { rest self.new ≡ rest self.old }
    {
        Ok(Region(self.make(New::Region(kind))?))
    }

    /// The list of these arguments.
    final fn mk_args(&mut self, list: &[GenericArg]) -> Result<Args, Stop>
        requires { ListFits (context self.old).trees list.now }
        ensures made { Makes (a_list list.now) (context self.old) (context self.new) result }
        ensures one { IfOk result (IsOne (a_list list.now) (context self.new).trees) }
        ensures rest { rest self.new ≡ rest self.old }
    {
        Ok(Args(self.make(New::Args(list))?))
    }

    /// The variables of a binder, by their kinds.
    final fn mk_vars(&mut self, kinds: &[VarKind]) -> Result<Vars, Stop>
        ensures made { Makes (a_binder kinds.now) (context self.old) (context self.new) result }
        ensures one { IfOk result (IsOne (a_binder kinds.now) (context self.new).trees) }
        ensures rest { rest self.new ≡ rest self.old }
    {
        Ok(Vars(self.make(New::Vars(kinds))?))
    }

    /// The bounds of a `dyn` type, of which one at most is by a trait that isn't an auto trait, with the arguments that they
    /// take, as `Cx::bounds_args_fit` tests.
    ///
    /// The list is kept as it is given. In Rust the bounds are a set: whoever gives them in two orders, or one twice, makes two
    /// types of one.
    final fn mk_preds(&mut self, bounds: &[Binder<ExistentialPredicate>]) -> Result<Preds, Stop>
        requires fit { BoundsFit (context self.old).trees bounds.now }
        requires take { is_strict ≡ true → AllTake (world (context self.old)) (map (pred_kind_tree (context self.old).trees) bounds.now) }
        requires principal { AtMostOnePrincipal bounds.now }
        ensures made { Makes (some_bounds bounds.now) (context self.old) (context self.new) result }
        ensures one { IfOk result (IsOne (some_bounds bounds.now) (context self.new).trees) }
        ensures rest { rest self.new ≡ rest self.old }
    {
        Ok(Preds(self.make(New::Preds(bounds))?))
    }

    /// The signature of a closure.
    final fn mk_sig(&mut self, sig: Binder<ClosureSig>) -> Result<Sig, Stop>
        requires { SigFits (context self.old).trees sig }
        ensures made { Makes (a_signature sig) (context self.old) (context self.new) result }
        ensures one { IfOk result (IsOne (a_signature sig) (context self.new).trees) }
        ensures rest { rest self.new ≡ rest self.old }
    {
        Ok(Sig(self.make(New::Sig(sig))?))
    }

    /// The clause under its binder, whose arguments are those that it takes, as `Cx::clause_args_fit` tests.
    #[inline(never)]
    final fn mk_clause(&mut self, clause: Binder<ClauseKind>) -> Result<Clause, Stop>
        requires fits { ClauseFits (context self.old).trees clause }
        requires takes { is_strict ≡ true → Takes (world (context self.old)) (clause_kind_tree (context self.old).trees clause) }
        ensures made { Makes (a_clause clause) (context self.old) (context self.new) result }
        ensures one { IfOk result (IsOne (a_clause clause) (context self.new).trees) }
        ensures rest { rest self.new ≡ rest self.old }
    {
        Ok(Clause(self.make(New::Clause(clause))?))
    }

    /// The environment of these clauses, in their order.
    final fn mk_param_env(&mut self, clauses: &[Clause]) -> Result<ParamEnv, Stop>
        requires { ClauseListFits (context self.old).trees clauses.now }
        ensures made { Makes (an_environment clauses.now) (context self.old) (context self.new) result }
        ensures one { IfOk result (IsOne (an_environment clauses.now) (context self.new).trees) }
        ensures rest { rest self.new ≡ rest self.old }
    {
        Ok(ParamEnv(self.make(New::ParamEnv(clauses))?))
    }
}

/// A context, or something over one, that lends it while nodes are made.
pub trait Make: Build {
    /// The context.
    fn cx(&self) -> &Cx
        ensures { result.now ≡ Self.context self.now };
}

impl Make for Cx {
    fn cx(&self) -> &Cx {
        self
    }
}
