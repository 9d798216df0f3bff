//! The table of nodes, which contracts see as the list of their trees.

ghost use Rattle.std.specs.Prelude.{◌≡◌, ◌++◌, ◌∷◌, [], ◌+◌, ◌<◌, ◌≤◌, length, take, map, IfOk, IfErr, MatchOption};
ghost use Rattle.ir_trees.specs.Syntax.Trees.{height, heights, kind_of, weight};
ghost use Rattle.ir_trees.specs.Syntax.Nodes.{tree_at, kind_at, node_tree, head_of, Fits, Extends, AreLeaves};
ghost use Rattle.ir_trees.specs.Syntax.Table.{IsNodeOf, IsRow, IsNew, HasOnePrincipal, Puts};
ghost use Rattle.ir_trees.specs.Syntax.Marks.{AreMarks};
ghost use Rattle.ir_trees.specs.Declarations.Names.{principals};
ghost use Rattle.ir_trees.specs.Declarations.Worlds.{World};
ghost use Rattle.ir_trees.specs.Syntax.Making.{Adds, a_list, a_binder, some_bounds, what};
ghost use Rattle.ir_trees.specs.Declarations.References.{Takes, AllTake, AllFit};
ghost use Rattle.ir_trees.specs.Syntax.Words.{IsTy, IsConst, IsRegion, IsArgs, IsPreds, IsSig, IsClause, IsParamEnv, IsVars, ty_tree, const_tree, region_tree, args_forest, preds_forest, sig_tree, clause_tree, env_forest, vars_tree, KindFits, ConstKindFits, ListFits, PredListFits, VarListFits, PredFits, SigFits, ClauseFits, ClauseListFits, kind_tree, const_kind_tree, region_kind_tree, list_forest, pred_list_forest, pred_kind_tree, sig_kind_tree, clause_kind_tree, clause_list_forest, vars_kind_tree, BoundsFit, AtMostOnePrincipal, bounds_forest, binder_tree, IsMkStop, IsMkListStop};

use crate::ir::heads::Marks;
use crate::ir::kinds::{
    Args, Binder, ExistentialPredicate, GenericArg, Pred, Preds, Var, VarKind, Vars,
};
use crate::ir::making::New;
use crate::ir::node::{Kept, Node};
use crate::ir::seed::Seeded;
use crate::ir::stop::Stop;
use crate::ir::trees::Trees;
use indexmap::IndexMap;
use std::alloc::Global;
use std::marker::Model;

/// A table of nodes, in which each node stands once. A number is the place of its node, and equal trees have one number.
#[derive(Drop)]
pub struct Nodes {
    /// Each node once, in the order in which they were made.
    rows: IndexMap<Node, Kept, Seeded>,
}

impl Model for Nodes {
    ghost use Rattle.std.specs.Prelude.{List, [], length, ◌≤◌};
    ghost use Rattle.std.specs.Coded.{coded_list};
    ghost use Rattle.ir_trees.specs.Syntax.Trees.{Tree};
    ghost use Rattle.ir_trees.specs.Laws.TreeCode.{tree_code};
    ghost use Rattle.ir_trees.specs.contracts.ir.heads.Head as head;
    ghost use Rattle.ir_trees.specs.Syntax.Table.{trees_after, AreRows, AreDistinct};

    ghost Value = { List Tree };

    ghost coded = { coded_list (tree_code head.the_row.coded) };

    ghost view = { λ a. trees_after [] a.rows.entries };

    ghost invariant = { λ a. AreRows [] a.rows.entries × (length a.rows.entries ≤ 4294967295) × AreDistinct (trees_after [] a.rows.entries) };
}

impl Trees for Nodes {
    ghost trees = { λ nodes. nodes };

    fn allocator(&self) -> Global {
        *self.rows.allocator()
    }

    fn marks(&self, number: u32) -> Marks {
        self.kept(number).marks
    }

    fn recall_distinct(&self) {
        let _rows = self.rows.len();
    }

    fn node(&self, number: u32) -> &Node {
        match self.rows.get_index(number as usize) {
            Some((node, _)) => node,
            None => unreachable!(),
        }
    }
}

/// No tree is higher.
const MAX_HEIGHT: u32 = 1024;

/// How many numbers a context gives.
const MAX_NODES: usize = 0xffff_ffff;

/// What the head of a node adds to the height of its tree.
#[inline(always)]
fn own_height(node: &Node) -> u32
    ensures is { result ≡ weight (head_of node.now) }
    ensures most { result ≤ 1 }
{
    match node {
        Node::Ty(_) => 1,
        Node::Const(_) => 1,
        _ => 0,
    }
}

impl Nodes {
    /// A table without nodes, which hashes with the seed.
    pub fn with_seed(alloc: Global, seed: u64) -> Self
        ensures { result ≡ [] }
    {
        Nodes {
            rows: IndexMap::with_hasher(alloc, Seeded::new(seed)),
        }
    }

    /// What is kept of a number's tree.
    #[inline(always)]
    fn kept(&self, number: u32) -> Kept
        requires { number < length self.now }
        ensures height { result.height ≡ height (tree_at self.now number) }
        ensures low { result.height ≤ 1024 }
        ensures marks { AreMarks result.marks (tree_at self.now number) }
    {
        match self.rows.get_index(number as usize) {
            Some((_, kept)) => *kept,
            None => unreachable!(),
        }
    }

    /// What is kept of the tree of a node, which may be too high for the table.
    #[inline(always)]
    fn node_kept(&self, node: &Node) -> Kept
        requires { Fits self.now node.now }
        ensures height { result.height ≡ height (node_tree self.now node.now) }
        ensures marks { AreMarks result.marks (node_tree self.now node.now) }
    {
        let mut highest = 0;
        let mut marks = node.head().marks();
        for i in 0..node.child_count() {
            let kept = self.kept(node.child(i));
            marks = marks.joined(kept.marks);
            if highest < kept.height {
                highest = kept.height;
            }
        }
        let height = highest + own_height(node);
        Kept { height, marks }
    }

    /// The number of the node, if there is one.
    fn find(&self, node: &Node) -> Option<u32>
        requires { Fits self.now node.now }
        ensures { MatchOption result (IsNew self.now (node_tree self.now node.now)) (λ n. (n < length self.now) × (tree_at self.now n ≡ node_tree self.now node.now)) }
    {
        match self.rows.get_index_of(node) {
            Some(index) => Some(index as u32),
            None => None,
        }
    }

    /// The number of the node, which is added if the table hasn't got it.
    #[inline(always)]
    fn put(&mut self, node: Node, kept: Kept) -> Result<u32, Stop>
        requires row { IsRow self.old (node, kept) }
        requires room { length self.old < 4294967295 }
        ensures number { IfOk result (Puts self.old self.new (node_tree self.old node)) }
        ensures unchanged { IfErr result (λ _. self.new ≡ self.old) }
        ensures cause { IfErr result (λ s. s ≡ Stop.Memory) }
    {
        let (index, _) = self.rows.insert_full(node, kept)?;
        Ok(index as u32)
    }

    /// Cuts the table back to the first so many nodes.
    pub fn truncate(&mut self, len: usize)
        ensures { self.new ≡ take len self.old }
    {
        self.rows.truncate(len);
    }

    /// No variable of a binder has children.
    pub fn recall_variables_are_leaves(&self)
        ensures { AreLeaves self.now }
    {
        let _rows = self.rows.len();
    }

    /// How many nodes there are, at most 2^32 - 1.
    pub fn len(&self) -> usize
        ensures is { result ≡ length self.now }
        ensures most { result ≤ 4294967295 }
    {
        self.rows.len()
    }

    /// The number of the node. It is inlined, so that each sort of node is added without asking of which sort it is.
    #[inline(always)]
    pub fn add(&mut self, node: Node) -> Result<u32, Stop>
        requires fits { Fits self.old node }
        requires principal { HasOnePrincipal self.old node }
        ensures kept { Extends self.old self.new }
        ensures fit { (w : World) → AllFit w self.old → Takes w (node_tree self.old node) → AllFit w self.new }
        ensures most { IfOk result (λ _. length self.new ≤ length self.old + 1) }
        ensures sort { IfOk result (λ n. kind_at self.new n ≡ kind_of (head_of node)) }
        ensures tree { IfOk result (λ n. tree_at self.new n ≡ node_tree self.old node) }
        ensures unchanged { IfErr result (λ _. self.new ≡ self.old) }
        ensures cause { IfErr result (λ s. IsMkStop self.old (height (node_tree self.old node)) s) }
    {
        let kept = self.node_kept(&node);
        if self.len() >= MAX_NODES || kept.height > MAX_HEIGHT {
            return match self.find(&node) {
                Some(number) => Ok(number),
                None => Err(Stop::NodesFull),
            };
        }
        self.put(node, kept)
    }

    /// The number of what is made. It is inlined, too.
    #[inline(always)]
    pub fn make(&mut self, new: New<'_>) -> Result<u32, Stop>
        requires { (what new).making.fits self.old }
        ensures { Adds (what new.entry).making self.old self.new result }
    {
        match new {
            New::Ty(kind) => self.add(Node::Ty(kind)),
            New::Const(kind) => self.add(Node::Const(kind)),
            New::Region(kind) => self.add(Node::Region(kind)),
            New::Args(list) => {
                let list = list.to_vec(*self.rows.allocator())?;
                self.add(Node::Args(list))
            }
            New::Vars(kinds) => Ok(self.mk_vars(kinds)?.0),
            New::Preds(bounds) => Ok(self.mk_preds(bounds)?.0),
            New::Sig(sig) => self.add(Node::Sig(sig)),
            New::Clause(clause) => self.add(Node::Clause(clause)),
            New::ParamEnv(clauses) => {
                let clauses = clauses.to_vec(*self.rows.allocator())?;
                self.add(Node::Clauses(clauses))
            }
        }
    }

    /// The list of these arguments, which it takes.
    #[inline(never)]
    pub fn mk_arg_list(&mut self, list: Vec<GenericArg>) -> Result<Args, Stop>
        requires { ListFits self.old list.items }
        ensures { Adds (a_list list.items) self.old self.new result }
    {
        Ok(Args(self.add(Node::Args(list))?))
    }

    /// The list of these bounds of a `dyn` type.
    fn mk_pred_list(&mut self, list: Vec<Pred>) -> Result<Preds, Stop>
        requires fits { PredListFits self.old list.items }
        requires principal { principals (pred_list_forest self.old list.items) ≤ 1 }
        ensures kept { Extends self.old self.new }
        ensures fit { (w : World) → AllFit w self.old → AllFit w self.new }
        ensures sort { IfOk result (λ p. IsPreds self.new p) }
        ensures tree { IfOk result (λ p. preds_forest self.new p ≡ pred_list_forest self.old list.items) }
        ensures unchanged { IfErr result (λ _. self.new ≡ self.old) }
        ensures cause { IfErr result (λ s. IsMkStop self.old (heights (pred_list_forest self.old list.items)) s) }
    {
        Ok(Preds(self.add(Node::Preds(list))?))
    }

    fn add_preds(&mut self, bounds: &[Binder<ExistentialPredicate>]) -> Result<Preds, Stop>
        requires fit { BoundsFit self.old bounds.now }
        requires principal { AtMostOnePrincipal bounds.now }
        ensures kept { Extends self.old self.new }
        ensures fit { IfOk result (λ _. (w : World) → AllFit w self.old → AllTake w (map (pred_kind_tree self.old) bounds.now) → AllFit w self.new) }
        ensures sort { IfOk result (λ p. IsPreds self.new p) }
        ensures tree { IfOk result (λ p. preds_forest self.new p ≡ bounds_forest self.old bounds.now) }
        ensures cause { IfErr result (λ s. IsMkListStop self.old (length bounds.now + 1) (heights (bounds_forest self.old bounds.now)) s) }
    {
        let mut list = Vec::new(*self.rows.allocator());
        for bound in bounds {
            let number = self.add(Node::Pred(*bound))?;
            list.push(Pred(number))?;
        }
        self.mk_pred_list(list)
    }

    /// The bounds of a `dyn` type, with a node for each and one for the list.
    fn mk_preds(&mut self, bounds: &[Binder<ExistentialPredicate>]) -> Result<Preds, Stop>
        requires fit { BoundsFit self.old bounds.now }
        requires principal { AtMostOnePrincipal bounds.now }
        ensures { Adds (some_bounds bounds.now) self.old self.new result }
    {
        let len = self.len();
        match self.add_preds(bounds) {
            Ok(preds) => Ok(preds),
            Err(stop) => {
                self.truncate(len);
                Err(stop)
            }
        }
    }

    /// The list of these variables of a binder.
    fn mk_var_list(&mut self, list: Vec<Var>) -> Result<Vars, Stop>
        requires { VarListFits self.old list.items }
        ensures kept { Extends self.old self.new }
        ensures fit { (w : World) → AllFit w self.old → Takes w (vars_kind_tree self.old list.items) → AllFit w self.new }
        ensures sort { IfOk result (λ v. IsVars self.new v) }
        ensures tree { IfOk result (λ v. vars_tree self.new v ≡ vars_kind_tree self.old list.items) }
        ensures unchanged { IfErr result (λ _. self.new ≡ self.old) }
        ensures cause { IfErr result (λ s. IsMkStop self.old (height (vars_kind_tree self.old list.items)) s) }
    {
        Ok(Vars(self.add(Node::Vars(list))?))
    }

    fn add_vars(&mut self, kinds: &[VarKind]) -> Result<Vars, Stop>
        ensures kept { Extends self.old self.new }
        ensures fit { IfOk result (λ _. (w : World) → AllFit w self.old → AllFit w self.new) }
        ensures sort { IfOk result (λ v. IsVars self.new v) }
        ensures tree { IfOk result (λ v. vars_tree self.new v ≡ binder_tree kinds.now) }
        ensures cause { IfErr result (λ s. IsMkListStop self.old (length kinds.now + 1) (height (binder_tree kinds.now)) s) }
    {
        let mut list = Vec::new(*self.rows.allocator());
        for kind in kinds {
            let number = self.add(Node::Var(*kind))?;
            list.push(Var(number))?;
        }
        self.mk_var_list(list)
    }

    /// The variables of a binder, with a node for each and one for the list.
    fn mk_vars(&mut self, kinds: &[VarKind]) -> Result<Vars, Stop>
        ensures { Adds (a_binder kinds.now) self.old self.new result }
    {
        let len = self.len();
        match self.add_vars(kinds) {
            Ok(vars) => Ok(vars),
            Err(stop) => {
                self.truncate(len);
                Err(stop)
            }
        }
    }
}
