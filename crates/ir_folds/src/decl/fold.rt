//! Folds by a closure.

ghost use Rattle.std.specs.Prelude.{◌≡◌, ◌+◌, ◌<◌, ◌≤◌, ◌^◌, true, false, length, map, IfOk, IfErr};
ghost use Rattle.ir_trees.specs.Declarations.Context.{Grows, world};
ghost use Rattle.ir_trees.specs.Instantiation.Folding.{Answers, fold as folded, fold_tree};
ghost use Rattle.ir_trees.specs.Instantiation.Folds.{IsArg, IsOfKind, MayFold, KeepsKinds, KeepsRest, Says, Said, IsFunction, Outcome, Renumbers, Relists};
ghost use Rattle.ir_trees.specs.Instantiation.Results.{MapsMembers, row_at, tree_in};
ghost use Rattle.ir_trees.specs.Syntax.Kinds.{arg_number, numbers, sorts};
ghost use Rattle.ir_trees.specs.Declarations.Names.{principals};
ghost use Rattle.ir_trees.specs.Syntax.Nodes.{tree_at, kind_at, node_tree, head_of, children_of, pred_child, Fits, is_rebuilt, is_bound_kind, have_bound};
ghost use Rattle.ir_trees.specs.Declarations.References.{Takes};
ghost use Rattle.ir_trees.specs.Syntax.Table.{Below};
ghost use Rattle.ir_trees.specs.Syntax.Trees.{PredicatesKind, height, kind_of, binders_of, is_list_kind};
ghost use Rattle.ir_trees.specs.Syntax.Words.{PredListFits, pred_list_forest, IsMkStop};

use ir_context::decl::make::Make;
use ir_trees::ir::kinds::{GenericArg, Pred};
use ir_trees::ir::node::Node;
use ir_trees::ir::numbered::Numbered;
use ir_trees::ir::stop::Stop;
use ir_trees::ir::trees::Trees;
use std::alloc::Global;

/// One call of the closure.
fn call<M, F>(
    make: &mut M,
    fold: &mut F,
    arg: GenericArg,
    binders: u32,
) -> Result<Option<GenericArg>, Stop>
where
    M: Make,
    F: FnMut(&mut M, GenericArg, u32) -> Result<Option<GenericArg>, Stop>,
    requires arg { IsArg (M.context make.old).trees arg }
    requires number { arg_number arg < 2 ^ 32 }
    requires callable { MayFold M.context M.rest F.FnMut (fold.old, make.old) }
    requires keeps { KeepsKinds M.context M.rest F.FnMut (fold.old, make.old) }
    ensures grows { Grows (M.context make.old) (M.context make.new) }
    ensures says { Says M.context M.rest F.FnMut (fold.old, make.old) arg binders result (fold.new, make.new) }
    ensures kind { IfOk result (λ o. IsOfKind (M.context make.new).trees arg o) }
{
    fold(make, arg, binders)
}

/// What the closure says of a number: of what is no type, constant or region it isn't asked.
fn answer_for<M, F>(
    make: &mut M,
    fold: &mut F,
    number: u32,
    binders: u32,
) -> Result<Option<u32>, Stop>
where
    M: Make,
    F: FnMut(&mut M, GenericArg, u32) -> Result<Option<GenericArg>, Stop>,
    requires inside { number < length (M.context make.old).trees }
    requires callable { MayFold M.context M.rest F.FnMut (fold.old, make.old) }
    requires keeps { KeepsKinds M.context M.rest F.FnMut (fold.old, make.old) }
    ensures { Said M.context M.rest F.FnMut (fold.old, make.old) binders number result (fold.new, make.new) }
{
    let Some(arg) = make.cx().argument(number) else {
        return Ok(None);
    };
    match call(make, fold, arg, binders)? {
        Some(answer) => Ok(Some(answer.number())),
        None => Ok(None),
    }
}

/// Makes the node, where one call does.
fn add<M: Make>(make: &mut M, node: &Node) -> Result<u32, Stop>
    requires kind { is_rebuilt node.now ≡ true }
    requires fits { Fits (M.context make.old).trees node.now }
    requires takes { Takes (world (M.context make.old)) (node_tree (M.context make.old).trees node.now) }
    ensures grows { Grows (M.context make.old) (M.context make.new) }
    ensures rest { M.rest make.new ≡ M.rest make.old }
    ensures sort { IfOk result (λ n. kind_at (M.context make.new).trees n ≡ kind_of (head_of node.now)) }
    ensures tree { IfOk result (λ n. tree_at (M.context make.new).trees n ≡ node_tree (M.context make.old).trees node.now) }
    ensures cause { IfErr result (λ s. IsMkStop (M.context make.new).trees (height (node_tree (M.context make.old).trees node.now)) s) }
{
    match node {
        Node::Ty(kind) => Ok(make.mk_ty(*kind)?.0),
        Node::Const(kind) => Ok(make.mk_const(*kind)?.0),
        Node::Args(list) => Ok(make.mk_args(list.as_slice())?.0),
        Node::Clauses(list) => Ok(make.mk_param_env(list.as_slice())?.0),
        Node::Clause(clause) => Ok(make.mk_clause(*clause)?.0),
        Node::Sig(sig) => Ok(make.mk_sig(*sig)?.0),
        Node::Region(_) | Node::Preds(_) | Node::Pred(_) | Node::Vars(_) | Node::Var(_) => {
            unreachable!()
        }
    }
}

/// Folds the children of a node of that number, or of a copy of it.
#[cycle(fold)]
fn fold_children<M, F>(
    alloc: Global,
    make: &mut M,
    fold: &mut F,
    node: &Node,
    number: u32,
    binders: u32,
) -> Result<Vec<u32>, Stop>
where
    M: Make,
    F: FnMut(&mut M, GenericArg, u32) -> Result<Option<GenericArg>, Stop>,
    requires fits { Fits (M.context make.old).trees node.now }
    requires below { Below number (numbers (children_of node.now)) }
    requires no_bound { have_bound (sorts (children_of node.now)) ≡ false }
    requires room { binders + number < 2 ^ 32 }
    requires callable { MayFold M.context M.rest F.FnMut (fold.old, make.old) }
    requires keeps { KeepsKinds M.context M.rest F.FnMut (fold.old, make.old) }
    ensures { Relists M.context M.rest F.FnMut (λ v. v.items) (fold.old, make.old) (binders + binders_of (head_of node.now)) (children_of node.now) result (fold.new, make.new) }
{
    let more = node.head().binders();
    let mut children = Vec::new(alloc);
    for i in 0..node.child_count() {
        let child = fold_number(alloc, make, fold, node.child(i), binders + more)?;
        children.push(child)?;
    }
    Ok(children)
}

/// Folds the bounds of a list of that number.
#[cycle(fold)]
fn fold_bounds<M, F>(
    alloc: Global,
    make: &mut M,
    fold: &mut F,
    list: &[Pred],
    number: u32,
    binders: u32,
) -> Result<u32, Stop>
where
    M: Make,
    F: FnMut(&mut M, GenericArg, u32) -> Result<Option<GenericArg>, Stop>,
    requires fits { PredListFits (M.context make.old).trees list.now }
    requires below { Below number (numbers (map pred_child list.now)) }
    requires principal { principals (pred_list_forest (M.context make.old).trees list.now) ≤ 1 }
    requires room { binders + number < 2 ^ 32 }
    requires callable { MayFold M.context M.rest F.FnMut (fold.old, make.old) }
    requires keeps { KeepsKinds M.context M.rest F.FnMut (fold.old, make.old) }
    ensures sort { IfOk result (λ n. kind_at (M.context make.new).trees n ≡ PredicatesKind) }
    ensures outcome { Outcome M.context M.rest F.FnMut (λ ts n. (tree_at ts n).children) (fold.old, make.old) binders (pred_list_forest (M.context make.old).trees list.now) result (fold.new, make.new) }
{
    let mut bounds = Vec::new(alloc);
    for i in 0..list.len() {
        make.cx().recall_well_formed();
        let bound = make.cx().pred(list[i]);
        let node = Node::Pred(bound);
        let children = fold_children(alloc, make, fold, &node, list[i].0, binders)?;
        bounds.push(bound.with_children(children.as_slice()))?;
    }
    Ok(make.mk_preds(bounds.as_slice())?.0)
}

/// Folds what a number stands for, which is no single bound of a `dyn` type.
#[cycle(fold)]
pub(crate) fn fold_number<M, F>(
    alloc: Global,
    make: &mut M,
    fold: &mut F,
    number: u32,
    binders: u32,
) -> Result<u32, Stop>
where
    M: Make,
    F: FnMut(&mut M, GenericArg, u32) -> Result<Option<GenericArg>, Stop>,
    requires inside { number < length (M.context make.old).trees }
    requires no_bound { is_bound_kind (kind_at (M.context make.old).trees number) ≡ false }
    requires room { binders + number < 2 ^ 32 }
    requires callable { MayFold M.context M.rest F.FnMut (fold.old, make.old) }
    requires keeps { KeepsKinds M.context M.rest F.FnMut (fold.old, make.old) }
    ensures { Renumbers M.context M.rest F.FnMut (fold.old, make.old) binders number result (fold.new, make.new) }
{
    if let Some(answer) = answer_for(make, fold, number, binders)? {
        return Ok(answer);
    }
    make.cx().recall_well_formed();
    let node = make.cx().node(number).copy(alloc)?;
    match &node {
        Node::Region(_) => Ok(number),
        Node::Var(_) => Ok(number),
        Node::Vars(_) => {
            make.cx().recall_variables_are_leaves();
            Ok(number)
        }
        Node::Preds(list) => fold_bounds(alloc, make, fold, list.as_slice(), number, binders),
        Node::Pred(_) => unreachable!(),
        _ => {
            let children = fold_children(alloc, make, fold, &node, number, binders)?;
            if node.has_children(children.as_slice()) {
                return Ok(number);
            }
            let rebuilt = node.rebuilt(alloc, children.as_slice())?;
            add(make, &rebuilt)
        }
    }
}

/// The type, constant, list or whatever else it is, with what the closure answers in the place of what it is asked about.
///
/// It is asked about each type, constant and region, from the top and in order, with the number of
/// binders passed: an answer, which has to be of the same kind, stands in the place of what it was
/// asked about; without one the fold goes on into the children. A stop of the closure is the fold's.
/// Else `Stop::Memory` comes where a growth was refused, and `Stop::NodesFull` where no numbers are
/// left or what came of a part of the tree would be higher than 1,024.
///
/// A tree is walked as a tree, below what isn't answered. After a stop the nodes that were made stay.
pub fn fold<N, M, F>(alloc: Global, make: &mut M, value: N, mut ask: F) -> Result<N, Stop>
where
    N: Numbered,
    M: Make,
    F: FnMut(&mut M, GenericArg, u32) -> Result<Option<GenericArg>, Stop>,
    requires value { kind_at (M.context make.old).trees (N.number_of value) ≡ N.kind value }
    requires callable { MayFold M.context M.rest F.FnMut (ask, make.old) }
    requires keeps { KeepsKinds M.context M.rest F.FnMut (ask, make.old) }
    ensures sort { IfOk result (λ x. kind_at (M.context make.new).trees (N.number_of x) ≡ N.kind x) }
    ensures kind { IfOk result (λ x. N.kind x ≡ N.kind value) }
    ensures outcome { (last : F) × Outcome M.context M.rest F.FnMut (row_at N.kind N.number_of) (ask, make.old) 0 (row_at N.kind N.number_of (M.context make.old).trees value) result (last, make.new) }

    // Where its calls keep all else of the maker, and where its answers are a function.
    ensures rest { KeepsRest M.context M.rest F.FnMut (ask, make.old) → M.rest make.new ≡ M.rest make.old }
    ensures answer { (a : Answers) → IsFunction M.context M.rest F.FnMut a (ask, make.old) → IfOk result (λ x. tree_in M.context N.number_of make.new x ≡ fold_tree a 0 (tree_in M.context N.number_of make.old value)) }
    ensures list { is_list_kind (N.kind value) ≡ true → (a : Answers) → IsFunction M.context M.rest F.FnMut a (ask, make.old) → MapsMembers M.context N.number_of make.old make.new value (folded a 0) result }
{
    let number = fold_number(alloc, make, &mut ask, value.number(), 0)?;
    Ok(value.with_number(number))
}
