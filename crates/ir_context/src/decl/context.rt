//! The context: declarations, and the table in which types are made.

ghost use Rattle.std.specs.Prelude.{ℕ, List, ◌≡◌, ◌++◌, ◌∷◌, [], string_bytes, ◌+◌, ◌<◌, ◌≤◌, ◌↔◌, IsTrue, false, true, length, take, max, map, IfOk, IfErr, MatchOption, Some, None, suc};
ghost use Rattle.ir_trees.specs.Declarations.Context.{world, Grows};
ghost use Rattle.ir_trees.specs.Declarations.Declaring.{no_place};
ghost use Rattle.ir_trees.specs.Declarations.Limits.{has_bad_limit};
ghost use Rattle.ir_trees.specs.Syntax.Making.{Makes, a_list};
ghost use Rattle.ir_trees.specs.Syntax.Trees.{height, heights, tree_holds, holds, is_number, is_param, none, skip, tree, variable_number};
ghost use Rattle.ir_trees.specs.Syntax.Flags.{mark};
ghost use Rattle.ir_trees.specs.Instantiation.Folds.{is_asked, IsArg, arg_tree};
ghost use Rattle.ir_trees.specs.Syntax.Kinds.{arg_number, numbers, pred_children};
ghost use Rattle.ir_trees.specs.Syntax.Nodes.{tree_at, AreLeaves};
ghost use Rattle.ir_trees.specs.Syntax.Table.{Below, IsNodeOf};
ghost use Rattle.ir_trees.specs.Unification.ImplClasses.{places};
ghost use Rattle.ir_trees.specs.Unification.Impls.{impls_of};
ghost use Rattle.ir_trees.specs.Unification.ImplLists.{impl_is_in};
ghost use Rattle.ir_trees.specs.Unification.Substitutions.{alone, is_placeholder_above};
ghost use Rattle.ir_trees.specs.Validity.WellFormed.{IsWellFormedTable};
ghost use Rattle.ir_trees.specs.Unification.Unify.{may_unify, trees_may_unify, NoCommonInstance};
ghost use Rattle.ir_trees.specs.Declarations.References.{ArgumentsFit, IsWellFormed, Takes, AllTake};
ghost use Rattle.ir_trees.specs.Syntax.TypeFlags.{type_flags};
ghost use Rattle.ir_trees.specs.Declarations.Names.{is_local, is_fundamental, principal_of, principals};
ghost use Rattle.ir_trees.specs.Syntax.Words.{IsTy, IsConst, IsRegion, IsArgs, IsPreds, IsPred, IsSig, IsClause, IsParamEnv, IsVars, IsVar, ty_tree, const_tree, region_tree, args_forest, preds_forest, pred_tree, sig_tree, clause_tree, env_forest, vars_tree, var_tree, KindFits, ConstKindFits, ListFits, PredListFits, PredFits, SigFits, ClauseFits, ClauseListFits, VarListFits, BoundsFit, AtMostOnePrincipal, kind_tree, const_kind_tree, region_kind_tree, list_forest, pred_list_forest, pred_kind_tree, sig_kind_tree, clause_kind_tree, clause_list_forest, vars_kind_tree, var_kind_tree, bounds_forest, binder_tree, IsMkStop, IsMkListStop};
ghost use Rattle.ir_trees.specs.Syntax.Binders.{escapes, tree_escapes};

use crate::decl::finished::Decls;
use crate::decl::make::Build;
use indexmap::IndexMap;
use ir_trees::decl::arity::{bounds_fit, clause_fits, const_fits, takes_after_self, ty_fits};
use ir_trees::decl::contents::{Contents, ImplId, trait_place};
use ir_trees::decl::definition::{CrateId, Declaration, DefinitionSort};
use ir_trees::decl::heads::ImplList;
use ir_trees::decl::limits::Limits;
use ir_trees::decl::misplaced::is_args;
use ir_trees::ir::at::at;
use ir_trees::ir::classes::ImplClass;
use ir_trees::ir::heads::Marks;
use ir_trees::ir::kinds::{
    Args, Binder, ClauseKind, ConstKind, ExistentialPredicate, GenericArg, TraitId, TraitRef,
    TyKind,
};
use ir_trees::ir::making::New;
use ir_trees::ir::node::Node;
use ir_trees::ir::nodes::Nodes;
use ir_trees::ir::stop::Stop;
use ir_trees::ir::trees::Trees;
use std::alloc::Global;
use std::marker::Model;

/// Declarations without a fault, and the types, constants, regions and lists made so far.
///
/// A number stands for one tree until it is taken back.
#[derive(Drop)]
pub struct Cx {
    crates: u32,
    local: CrateId,
    limits: Limits,
    pub(crate) definitions: Vec<Declaration>,
    pub(crate) contents: Contents,
    pub(crate) nodes: Nodes,
    declared_nodes: usize,
    delayed_bugs: Vec<String>,
    /// The impls of each trait, by what they are for.
    impl_lists: IndexMap<ImplList, Vec<(usize, ImplId)>>,
}

impl Model for Cx {
    ghost use Rattle.std.specs.Prelude.{[], map, string_bytes, take};
    ghost use Rattle.std.specs.Coded.{codes};
    ghost use Rattle.ir_trees.specs.contracts.ir.heads.Head as head;
    ghost use Rattle.ir_trees.specs.Laws.TreeCode.{tree_code};
    ghost use Rattle.ir_trees.specs.Declarations.Context as seen;
    ghost use Rattle.ir_trees.specs.Declarations.Declaring.{contents_of};
    ghost use Rattle.ir_trees.specs.Unification.ImplLists.{AreListed};
    ghost use Rattle.ir_trees.specs.Validity.WellFormed.{IsWellFormedContext};

    ghost Value = { seen.Context };

    ghost coded = { Prim.hlevel (codes, tree_code head.the_row.coded) };

    ghost view = { λ b. record { crates = b.crates; local = b.local; limits = b.limits; declarations = b.definitions.items; contents = contents_of b.contents; trees = b.nodes; declared_nodes = b.declared_nodes; delayed_bugs = map string_bytes b.delayed_bugs.items } };

    ghost invariant = { λ b. IsWellFormedContext (record { crates = b.crates; local = b.local; limits = b.limits; declarations = b.definitions.items; contents = contents_of b.contents; trees = b.nodes; declared_nodes = b.declared_nodes; delayed_bugs = [] }) × AreListed b.impl_lists (take b.declared_nodes b.nodes) b.contents.traits.items b.contents.impls.items };
}

impl Cx {
    /// A context over the declarations; the numbers that their builder gave stay.
    pub fn new(decls: Decls) -> Self
        ensures { result ≡ decls }
    {
        let Decls {
            crates,
            local,
            limits,
            definitions,
            contents,
            nodes,
            impl_lists,
        } = decls;
        let delayed_bugs = Vec::new(*definitions.allocator());
        Cx {
            crates,
            local,
            limits,
            definitions,
            contents,
            declared_nodes: nodes.len(),
            nodes,
            delayed_bugs,
            impl_lists,
        }
    }

    /// Where walks end, as it is declared: no limit is 0.
    pub fn limits(&self) -> Limits
        ensures is { result ≡ self.now.limits }
        ensures good { has_bad_limit result ≡ false }
    {
        self.limits
    }

    /// Puts off a fault: its text stands last among `delayed_bugs` then.
    ///
    /// The only error is `Stop::Memory`, where a growth was refused; nothing is changed then.
    pub fn delay_bug(&mut self, text: &str) -> Result<(), Stop>
        ensures added { IfOk result (λ _. self.new ≡ record self.old { delayed_bugs = self.old.delayed_bugs ++ text.now ∷ [] }) }
        ensures unchanged { IfErr result (λ _. self.new ≡ self.old) }
        ensures cause { IfErr result (λ s. s ≡ Stop.Memory) }
    {
        let text = String::from_str(*self.definitions.allocator(), text)?;
        self.delayed_bugs.push(text)?;
        Ok(())
    }

    /// The texts of the faults that were put off so far, in their order.
    pub fn delayed_bugs(&self) -> &[String]
        ensures { map string_bytes result.now ≡ self.now.delayed_bugs }
    {
        self.delayed_bugs.as_slice()
    }

    /// Whether the number is that of a list of arguments.
    pub(crate) fn is_args(&self, args: Args) -> bool
        ensures { IsTrue result ↔ IsArgs self.now.trees args }
    {
        is_args(&self.nodes, args)
    }

    /// No variable of a binder has children.
    pub fn recall_variables_are_leaves(&self)
        ensures { AreLeaves self.now.trees }
    {
        self.nodes.recall_variables_are_leaves();
    }

    /// How many numbers of types, constants, regions and lists are given.
    pub fn node_count(&self) -> usize
        ensures { result ≡ length self.now.trees }
    {
        self.nodes.len()
    }

    /// Takes back all numbers but the first so many, and but those of the declarations. They stand for nothing then, and are
    /// given again.
    pub fn truncate(&mut self, node_count: usize)
        ensures { self.new ≡ record self.old { trees = take (max node_count self.old.declared_nodes) self.old.trees } }
    {
        self.nodes.truncate(node_count.max(self.declared_nodes));
    }

    /// Whether the definition of that number belongs to the local crate.
    pub fn is_local(&self, definition: u32) -> bool
        ensures { result ≡ is_local (world self.now) (Some self.now.local.0) definition }
    {
        match at(self.definitions.as_slice(), definition as usize) {
            Some(declaration) => declaration.krate() == self.local,
            None => false,
        }
    }

    /// Whether the definition of that number, a data type or a trait, has the flag `fundamental`.
    pub fn is_fundamental(&self, definition: u32) -> bool
        ensures { result ≡ is_fundamental (world self.now) definition }
    {
        match at(self.definitions.as_slice(), definition as usize) {
            Some(declaration) => declaration.is_fundamental(),
            None => false,
        }
    }

    /// Every node has the children that its definition takes.
    pub fn recall_well_formed(&self)
        ensures { IsWellFormed self.now }
    {
        let _ = &self.nodes;
    }

    /// Nothing is wrong with what is declared.
    pub fn recall_well_formed_table(&self)
        ensures { IsWellFormedTable self.now }
    {
        let _ = &self.nodes;
    }

    /// The lists of what is declared are counted by a machine, and the trees that are declared are among those of the table.
    pub fn recall_counted(&self)
        ensures adts { length self.now.contents.adts ≤ no_place }
        ensures traits { length self.now.contents.traits ≤ no_place }
        ensures bounds { length self.now.contents.bounds ≤ no_place }
        ensures there { self.now.declared_nodes ≤ length self.now.trees }
    {
        let _ = self.contents.adts.len();
        let _ = self.contents.traits.len();
        let _ = self.contents.bounds.len();
    }

    /// Whether the arguments of a type are those that it takes: as many as its definition has parameters, of their kinds.
    pub fn args_fit(&self, kind: TyKind) -> bool
        requires { KindFits self.now.trees kind }
        ensures { IsTrue result ↔ Takes (world self.now) (kind_tree self.now.trees kind) }
    {
        ty_fits(self.definitions.as_slice(), &self.nodes, kind)
    }

    /// Whether the arguments of a constant are those that it takes.
    pub fn const_args_fit(&self, kind: ConstKind) -> bool
        requires { ConstKindFits self.now.trees kind }
        ensures { IsTrue result ↔ Takes (world self.now) (const_kind_tree self.now.trees kind) }
    {
        const_fits(self.definitions.as_slice(), &self.nodes, kind)
    }

    /// Whether the arguments of each bound of a `dyn` type are those that it takes, which has no self type.
    pub fn bounds_args_fit(&self, bounds: &[Binder<ExistentialPredicate>]) -> bool
        requires { BoundsFit self.now.trees bounds.now }
        ensures { IsTrue result ↔ AllTake (world self.now) (map (pred_kind_tree self.now.trees) bounds.now) }
    {
        bounds_fit(self.definitions.as_slice(), &self.nodes, bounds)
    }

    /// Whether the arguments of a clause are those that it takes.
    pub fn clause_args_fit(&self, clause: Binder<ClauseKind>) -> bool
        requires { ClauseFits self.now.trees clause }
        ensures { IsTrue result ↔ Takes (world self.now) (clause_kind_tree self.now.trees clause) }
    {
        clause_fits(self.definitions.as_slice(), &self.nodes, clause)
    }

    /// Whether the arguments of a reference are those that its trait takes, the self type first.
    pub fn trait_ref_args_fit(&self, trait_ref: TraitRef) -> bool
        requires { IsArgs self.now.trees trait_ref.args }
        ensures { IsTrue result ↔ ArgumentsFit self.now trait_ref }
    {
        takes_after_self(
            self.definitions.as_slice(),
            DefinitionSort::Trait,
            trait_ref.def_id.0,
            self.nodes.args(trait_ref.args),
        )
    }

    /// The impls of the trait that are listed there, each with its place among the trait's impls.
    pub(crate) fn listed(&self, of: TraitId, class: ImplClass) -> &[(usize, ImplId)]
        ensures { result.now ≡ places (impl_is_in self.now.trees self.now.contents.impls class) 0 (impls_of self.now of.0) }
    {
        let of = trait_place(self.definitions.as_slice(), of);
        match self.impl_lists.get(&ImplList { of, class }) {
            Some(listed) => listed.as_slice(),
            None => &[],
        }
    }

    /// Makes a list of arguments as `mk_args` does, of a list that the context keeps.
    pub fn mk_arg_list(&mut self, list: Vec<GenericArg>) -> Result<Args, Stop>
        requires { ListFits self.old.trees list.items }
        ensures { Makes (a_list list.items) self.old self.new result }
    {
        self.nodes.mk_arg_list(list)
    }
}

/// The arguments of what is made in a context are those that it takes.
impl Build for Cx {
    ghost context = { λ c. c };

    ghost Rest = { List (List ℕ) };

    ghost rest = { λ c. c.delayed_bugs };

    ghost is_strict = { true };

    #[inline(always)]
    fn make(&mut self, new: New<'_>) -> Result<u32, Stop> {
        let made = self.nodes.make(new);
        self.nodes.recall_distinct();
        made
    }
}

impl Trees for Cx {
    ghost trees = { λ c. c.trees };

    fn allocator(&self) -> Global {
        *self.definitions.allocator()
    }

    fn marks(&self, number: u32) -> Marks {
        self.nodes.marks(number)
    }

    fn recall_distinct(&self) {
        self.nodes.recall_distinct();
    }

    fn node(&self, number: u32) -> &Node {
        self.nodes.node(number)
    }
}
