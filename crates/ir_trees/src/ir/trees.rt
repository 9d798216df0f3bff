//! What numbers stand for.

ghost use Rattle.std.specs.Prelude.{◌≡◌, ◌↔◌, ◌≤◌, ◌<◌, IsTrue, List, MatchOption, false, true, length};
ghost use Rattle.ir_trees.specs.Syntax.Binders.{escapes, tree_escapes};
ghost use Rattle.ir_trees.specs.Syntax.Flags.{mark};
ghost use Rattle.ir_trees.specs.Instantiation.Folds.{is_asked, IsArg, arg_tree};
ghost use Rattle.ir_trees.specs.Instantiation.Results.{IsChildAt};
ghost use Rattle.ir_trees.specs.Syntax.Marks.{AreMarks};
ghost use Rattle.ir_trees.specs.Syntax.Kinds.{arg_number, numbers, pred_children};
ghost use Rattle.ir_trees.specs.Declarations.Names.{principal_of, principals};
ghost use Rattle.ir_trees.specs.Syntax.Nodes.{tree_at, kind_at};
ghost use Rattle.ir_trees.specs.Unification.Substitutions.{alone, is_placeholder_above};
ghost use Rattle.ir_trees.specs.Syntax.Table.{AreDistinct, Below, IsNodeOf};
ghost use Rattle.ir_trees.specs.Syntax.Trees.{Tree, PredicateKind, holds, is_list_kind, is_number, is_param, none, skip, tree, tree_holds, variable_number};
ghost use Rattle.ir_trees.specs.Syntax.TypeFlags.{type_flags};
ghost use Rattle.ir_trees.specs.Unification.Unify.{may_unify, trees_may_unify, NoCommonInstance};
ghost use Rattle.ir_trees.specs.Syntax.Words.{IsTy, IsConst, IsRegion, IsArgs, IsPreds, IsPred, IsSig, IsClause, IsParamEnv, IsVars, IsVar, ty_tree, const_tree, region_tree, args_forest, preds_forest, pred_tree, sig_tree, clause_tree, env_forest, vars_tree, var_tree, KindFits, ConstKindFits, ListFits, PredListFits, PredFits, SigFits, ClauseFits, ClauseListFits, VarListFits, kind_tree, const_kind_tree, region_kind_tree, list_forest, pred_list_forest, pred_kind_tree, sig_kind_tree, clause_kind_tree, clause_list_forest, vars_kind_tree, var_kind_tree};
ghost use Rattle.ir_trees.specs.Declarations.Worlds.{all_of, kinds_of};

use crate::ir::flags::{TypeFlags, bit_if};
use crate::ir::heads::{Flag, Head, Marks};
use crate::ir::kinds::{
    Args, Binder, Clause, ClauseKind, ClosureSig, Const, ConstKind, ExistentialPredicate,
    GenericArg, ParamEnv, Pred, Preds, Region, RegionKind, Sig, TraitId, TraitRef, Ty, TyKind, Var,
    VarKind, Vars,
};
use crate::ir::marks::{Mark, PlaceholderAbove, VariableNumber, number_holds};
use crate::ir::node::Node;
use crate::ir::numbered::Numbered;
use crate::ir::unify::{RightSide, numbers_may_unify};
use crate::ir::walked::Walked;
use crate::ir::walks::{number_escapes, part, width};
use std::alloc::Global;

/// What has given numbers, each of which stands for one tree.
pub trait Trees {
    /// The trees of the numbers given so far, from the first on.
    ghost trees: { Self → List Tree };

    /// Where walks take memory for what they note.
    fn allocator(&self) -> Global;

    /// Which flags' marks stand in the tree of a number.
    fn marks(&self, number: u32) -> Marks
        requires { number < length (trees self.now) }
        ensures { AreMarks result (tree_at (trees self.now) number) };

    /// Equal trees have one number.
    fn recall_distinct(&self)
        ensures { AreDistinct (trees self.now) };

    /// The node of a number.
    fn node(&self, number: u32) -> &Node
        requires { number < length (trees self.now) }
        ensures { IsNodeOf (trees self.now) number result.now };

    /// The type, constant or region of a number, if it is of one: bounds of `dyn` types, signatures, clauses, binders with their
    /// variables and lists have numbers, too.
    final fn argument(&self, number: u32) -> Option<GenericArg>
        requires { number < length (trees self.now) }
        ensures { let t = tree_at (trees self.now) number in MatchOption result (is_asked t.head ≡ false) (λ a. (arg_number a ≡ number) × IsArg (trees self.now) a × (is_asked t.head ≡ true)) }
    {
        match self.node(number) {
            Node::Ty(_) => Some(GenericArg::Ty(Ty(number))),
            Node::Const(_) => Some(GenericArg::Const(Const(number))),
            Node::Region(_) => Some(GenericArg::Region(Region(number))),
            _ => None,
        }
    }

    /// The head of a number's tree.
    #[inline(always)]
    final fn head(&self, number: u32) -> Head
        requires { number < length (trees self.now) }
        ensures { result ≡ (tree_at (trees self.now) number).head }
    {
        self.node(number).head()
    }

    /// The number of the tree of that place below a number, from 0 on, if there are so many. The members of a list stand in the
    /// list's place; where the number is itself a list's or a binder's, its member is read at once.
    final fn child(&self, number: u32, place: usize) -> Option<u32>
        requires { number < length (trees self.now) }
        ensures { let ts = trees self.now in MatchOption result (skip place (tree_at ts number).children ≡ none) (IsChildAt ts number place) }
    {
        let node = self.node(number);
        if node.has_single_children() {
            return node.child_if_there(place);
        }
        let mut left = place;
        for i in 0..node.child_count() {
            let child = node.child(i);
            let width = width(self, child);
            if left < width {
                return Some(part(self, child, left));
            }
            left -= width;
        }
        None
    }

    /// The number of the variable to be solved that the argument is, if it is one. Types, constants and regions have their
    /// numbers in one row.
    final fn variable_number(&self, arg: GenericArg) -> Option<u32>
        requires { IsArg (trees self.now) arg }
        ensures { result ≡ variable_number (arg_tree (trees self.now) arg).head }
    {
        self.head(arg.number()).variable_number()
    }

    /// The kind of a type: making it again gives an equal tree.
    final fn kind(&self, ty: Ty) -> TyKind
        requires { IsTy (trees self.now) ty }
        ensures fits { KindFits (trees self.now) result }
        ensures tree { kind_tree (trees self.now) result ≡ ty_tree (trees self.now) ty }
    {
        match self.node(ty.0) {
            Node::Ty(kind) => *kind,
            _ => unreachable!(),
        }
    }

    /// The arguments of a list.
    final fn args(&self, args: Args) -> &[GenericArg]
        requires { IsArgs (trees self.now) args }
        ensures fits { ListFits (trees self.now) result.now }
        ensures tree { list_forest (trees self.now) result.now ≡ args_forest (trees self.now) args }
    {
        match self.node(args.0) {
            Node::Args(list) => list.as_slice(),
            _ => unreachable!(),
        }
    }

    /// The bounds of a list, of which each is read by `pred`.
    final fn preds(&self, preds: Preds) -> &[Pred]
        requires { IsPreds (trees self.now) preds }
        ensures fits { PredListFits (trees self.now) result.now }
        ensures tree { pred_list_forest (trees self.now) result.now ≡ preds_forest (trees self.now) preds }
        ensures principal { principals (preds_forest (trees self.now) preds) ≤ 1 }
    {
        match self.node(preds.0) {
            Node::Preds(list) => list.as_slice(),
            _ => unreachable!(),
        }
    }

    /// One bound.
    final fn pred(&self, pred: Pred) -> Binder<ExistentialPredicate>
        requires { IsPred (trees self.now) pred }
        ensures fits { PredFits (trees self.now) result }
        ensures tree { pred_kind_tree (trees self.now) result ≡ pred_tree (trees self.now) pred }
        ensures below { Below pred.0 (numbers (pred_children result)) }
    {
        match self.node(pred.0) {
            Node::Pred(bound) => *bound,
            _ => unreachable!(),
        }
    }

    /// The kind of a constant.
    final fn const_kind(&self, constant: Const) -> ConstKind
        requires { IsConst (trees self.now) constant }
        ensures fits { ConstKindFits (trees self.now) result }
        ensures tree { const_kind_tree (trees self.now) result ≡ const_tree (trees self.now) constant }
    {
        match self.node(constant.0) {
            Node::Const(kind) => *kind,
            _ => unreachable!(),
        }
    }

    /// The kind of a region.
    final fn region_kind(&self, region: Region) -> RegionKind
        requires { IsRegion (trees self.now) region }
        ensures tree { region_kind_tree result ≡ region_tree (trees self.now) region }
    {
        match self.node(region.0) {
            Node::Region(kind) => *kind,
            _ => unreachable!(),
        }
    }

    /// The signature of a closure, under its binder.
    final fn sig(&self, sig: Sig) -> Binder<ClosureSig>
        requires { IsSig (trees self.now) sig }
        ensures fits { SigFits (trees self.now) result }
        ensures tree { sig_kind_tree (trees self.now) result ≡ sig_tree (trees self.now) sig }
    {
        match self.node(sig.0) {
            Node::Sig(sig) => *sig,
            _ => unreachable!(),
        }
    }

    /// The clause of a number, under its binder.
    final fn clause(&self, clause: Clause) -> Binder<ClauseKind>
        requires { IsClause (trees self.now) clause }
        ensures fits { ClauseFits (trees self.now) result }
        ensures tree { clause_kind_tree (trees self.now) result ≡ clause_tree (trees self.now) clause }
    {
        match self.node(clause.0) {
            Node::Clause(clause) => *clause,
            _ => unreachable!(),
        }
    }

    /// The clauses of an environment, of which each is read by `clause`.
    final fn param_env(&self, env: ParamEnv) -> &[Clause]
        requires { IsParamEnv (trees self.now) env }
        ensures fits { ClauseListFits (trees self.now) result.now }
        ensures tree { clause_list_forest (trees self.now) result.now ≡ env_forest (trees self.now) env }
    {
        match self.node(env.0) {
            Node::Clauses(list) => list.as_slice(),
            _ => unreachable!(),
        }
    }

    /// The variables of a binder, of which each is read by `var`.
    final fn vars(&self, vars: Vars) -> &[Var]
        requires { IsVars (trees self.now) vars }
        ensures fits { VarListFits (trees self.now) result.now }
        ensures tree { vars_kind_tree (trees self.now) result.now ≡ vars_tree (trees self.now) vars }
    {
        match self.node(vars.0) {
            Node::Vars(list) => list.as_slice(),
            _ => unreachable!(),
        }
    }

    /// What one variable of a binder stands for.
    final fn var(&self, var: Var) -> VarKind
        requires { IsVar (trees self.now) var }
        ensures tree { var_kind_tree result ≡ var_tree (trees self.now) var }
    {
        match self.node(var.0) {
            Node::Var(kind) => *kind,
            _ => unreachable!(),
        }
    }

    /// The principal of the bounds of a `dyn` type, if they have one.
    final fn principal(&self, preds: Preds) -> Option<TraitId>
        requires { IsPreds (trees self.now) preds }
        ensures { result ≡ principal_of (preds_forest (trees self.now) preds) }
    {
        let bounds = self.preds(preds);
        for i in 0..bounds.len() {
            if let ExistentialPredicate::Trait(trait_ref) = self.pred(bounds[i]).value {
                return Some(trait_ref.def_id);
            }
        }
        None
    }

    /// Whether two are equal as trees: clauses with equal binders, lists with equal members in one order.
    final fn same<N: Numbered>(&self, a: N, b: N) -> bool
        requires a { kind_at (trees self.now) (N.number_of a) ≡ N.kind a }
        requires b { kind_at (trees self.now) (N.number_of b) ≡ N.kind b }
        ensures { IsTrue result ↔ (tree_at (trees self.now) (N.number_of a) ≡ tree_at (trees self.now) (N.number_of b)) }
    {
        self.recall_distinct();
        a.number() == b.number()
    }

    /// Quick rejection: whether two could be made equal, by their heads.
    ///
    /// A general variable, an alias, an error or a bound type may be equal to any type, and so may a
    /// parameter on the right side where that is an impl header; an integer variable may be equal to
    /// integer types and variables, a floating-point variable to floating-point ones. All else needs
    /// equal heads, and children that may be equal. Regions always may, lists if they are equally
    /// long and each pair may.
    ///
    /// After a no they have no common instance, whatever stands in the place of aliases, errors and
    /// bound variables, and of a header's parameters; a yes promises nothing. Equal numbers are
    /// answered at once. Else both sides are walked, pair by pair, up to the first no. Each pair of
    /// numbers is gone into once, but for some sixteen that aren't noted: where no more have children,
    /// no memory is taken. Where memory is refused for a pair, it isn't noted, and is gone into again
    /// where it stands again.
    #[tactic(auto, using(crate::proofs::Unification::MayUnify::tree_rejected))]
    final fn may_unify<N: Numbered>(&self, a: N, b: N, right: RightSide) -> bool
        requires a { kind_at (trees self.now) (N.number_of a) ≡ N.kind a }
        requires b { kind_at (trees self.now) (N.number_of b) ≡ N.kind b }
        ensures is { result ≡ trees_may_unify right (tree_at (trees self.now) (N.number_of a)) (tree_at (trees self.now) (N.number_of b)) }
        ensures no_common_instance { result ≡ false → NoCommonInstance right (alone (tree_at (trees self.now) (N.number_of a))) (alone (tree_at (trees self.now) (N.number_of b))) }
    {
        numbers_may_unify(self, a.number(), b.number(), right)
    }

    /// Whether two lists could be made equal: they are equally long, and each pair may; what is said
    /// of `may_unify` holds here, too.
    final fn args_may_unify(&self, a: Args, b: Args, right: RightSide) -> bool
        requires a { IsArgs (trees self.now) a }
        requires b { IsArgs (trees self.now) b }
        ensures is { result ≡ may_unify right (args_forest (trees self.now) a) (args_forest (trees self.now) b) }
        ensures no_common_instance { result ≡ false → NoCommonInstance right (args_forest (trees self.now) a) (args_forest (trees self.now) b) }
    {
        numbers_may_unify(self, a.0, b.0, right)
    }

    /// Whether a head with the flag's mark stands anywhere in it.
    final fn has<N: Numbered>(&self, of: N, flag: Flag) -> bool
        requires { kind_at (trees self.now) (N.number_of of) ≡ N.kind of }
        ensures is { result ≡ tree_holds (mark flag) (tree_at (trees self.now) (N.number_of of)) }
        ensures list { is_list_kind (N.kind of) ≡ true → result ≡ holds (mark flag) (tree_at (trees self.now) (N.number_of of)).children }
    {
        self.marks(of.number()).has(flag)
    }

    /// Whether a head that the mark is on stands anywhere in it. Each number is gone into once, as each pair is for `may_unify`.
    final fn has_marked<N: Numbered, M: Mark>(&self, of: N, mark: &M) -> bool
        requires { kind_at (trees self.now) (N.number_of of) ≡ N.kind of }
        ensures is { result ≡ tree_holds (M.marks mark.now) (tree_at (trees self.now) (N.number_of of)) }
        ensures list { is_list_kind (N.kind of) ≡ true → result ≡ holds (M.marks mark.now) (tree_at (trees self.now) (N.number_of of)).children }
    {
        let mut walked = Walked::new(self.allocator());
        number_holds(self, &mut walked, of.number(), mark)
    }

    /// Whether a parameter stands anywhere in the reference.
    final fn has_param(&self, trait_ref: TraitRef) -> bool
        requires { IsArgs (trees self.now) trait_ref.args }
        ensures { result ≡ holds is_param (args_forest (trees self.now) trait_ref.args) }
    {
        self.has(trait_ref.args, Flag::Param)
    }

    /// Whether a bound variable stands in it that no binder in it binds; of a clause, not its own binder either. Each number is gone into
    /// once under so many binders, as each pair is for `may_unify`.
    final fn has_escaping_bound_vars<N: Numbered>(&self, of: N) -> bool
        requires { kind_at (trees self.now) (N.number_of of) ≡ N.kind of }
        ensures is { result ≡ tree_escapes 0 (tree_at (trees self.now) (N.number_of of)) }
        ensures list { is_list_kind (N.kind of) ≡ true → result ≡ escapes 0 (tree_at (trees self.now) (N.number_of of)).children }
    {
        number_escapes(self, of.number(), 0)
    }

    /// Whether the variable of that number, which may be of any kind, stands anywhere in the argument.
    final fn mentions(&self, arg: GenericArg, variable: u32) -> bool
        requires { IsArg (trees self.now) arg }
        ensures { result ≡ tree_holds (is_number variable) (arg_tree (trees self.now) arg) }
    {
        self.has_marked(arg, &VariableNumber(variable))
    }

    /// Whether a type's or a constant's placeholder of a universe above that one stands anywhere in the argument.
    final fn has_placeholder_above(&self, arg: GenericArg, universe: u32) -> bool
        requires { IsArg (trees self.now) arg }
        ensures { result ≡ tree_holds (is_placeholder_above universe) (arg_tree (trees self.now) arg) }
    {
        self.has_marked(arg, &PlaceholderAbove(universe))
    }

    /// The flags whose marks stand anywhere in the type.
    final fn flags(&self, ty: Ty) -> TypeFlags
        requires { IsTy (trees self.now) ty }
        ensures { result ≡ type_flags (ty_tree (trees self.now) ty) }
    {
        let marks = self.marks(ty.0);
        let infer = bit_if(marks.has(Flag::TyInfer), 1)
            + bit_if(marks.has(Flag::RegionInfer), 2)
            + bit_if(marks.has(Flag::ConstInfer), 4);
        let placeholder = bit_if(marks.has(Flag::TyPlaceholder), 8)
            + bit_if(marks.has(Flag::RegionPlaceholder), 16)
            + bit_if(marks.has(Flag::ConstPlaceholder), 32);
        let bound = bit_if(marks.has(Flag::TyBound), 64)
            + bit_if(marks.has(Flag::RegionBound), 128)
            + bit_if(marks.has(Flag::ConstBound), 256);
        let other = bit_if(marks.has(Flag::Param), 512)
            + bit_if(marks.has(Flag::Alias), 1024)
            + bit_if(marks.has(Flag::Error), 2048);
        TypeFlags(infer + placeholder + bound + other)
    }

    /// True: a list of bounds has bounds alone.
    final fn holds_bounds(&self, preds: Preds) -> bool
        requires { IsPreds (trees self.now) preds }
        ensures is { result ≡ true }
        ensures kinds { kinds_of (preds_forest (trees self.now) preds) ≡ all_of PredicateKind (kinds_of (preds_forest (trees self.now) preds)) }
    {
        let _ = self.preds(preds);
        true
    }
}
