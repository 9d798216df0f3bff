//! Arguments in the place of parameters.

ghost use Rattle.std.specs.Prelude.{◌≡◌, ◌+◌, ◌<◌, ◌≤◌, length, ℕ, Some, None, MatchOption, IfOk, IfErr, option_map, nat_le, nat_lt, true, false, if◌then◌else◌};
ghost use Rattle.ir_trees.specs.Declarations.Context.{Grows};
ghost use Rattle.ir_trees.specs.Instantiation.Folding.{moved, further, shift_tree, lacks_argument, put_if_there, substituted, substituted_tree, IsSubstStop, IsAnswerStop};
ghost use Rattle.ir_trees.specs.Syntax.Nodes.{kind_at, tree_at, is_bound_kind};
ghost use Rattle.ir_trees.specs.Instantiation.Folds.{IsArg, IsOfKind, arg_tree};
ghost use Rattle.ir_trees.specs.Instantiation.Results.{IsArgumentAt, IsArgumentFor, MapsMembers, StopsOver, SubstitutesOn, row_at, tree_in};
ghost use Rattle.ir_trees.specs.Syntax.Kinds.{arg_kind};
ghost use Rattle.ir_trees.specs.Unification.Substitutions.{alone};
ghost use Rattle.ir_trees.specs.Syntax.Trees.{Forest, count, height, heights, is_list_kind, is_param, tree_holds};
ghost use Rattle.ir_trees.specs.Syntax.Words.{IsArgs, args_forest};

use crate::decl::answering::{PureFolder, fold_once};
use crate::decl::open::{bound_variable, bound_variable_of};
use ir_context::decl::context::Cx;
use ir_context::decl::make::Make;
use ir_trees::ir::heads::{ConstHead, Flag, Head, Marks};
use ir_trees::ir::kinds::{Args, BoundVar, GenericArg, VarKind};
use ir_trees::ir::numbered::Numbered;
use ir_trees::ir::quiet::{holds_bound, holds_param};
use ir_trees::ir::stop::Stop;
use ir_trees::ir::trees::Trees;
use std::alloc::Global;

/// What stands for a bound variable that is bound outside of the binders passed, where so many more
/// come to stand outside of these.
fn moved<M: Make>(
    make: &mut M,
    arg: GenericArg,
    binders: u32,
    by: u32,
) -> Result<Option<GenericArg>, Stop>
    requires { IsArg (M.context make.old).trees arg }
    ensures grows { Grows (M.context make.old) (M.context make.new) }
    ensures rest { M.rest make.new ≡ M.rest make.old }
    ensures kind { IfOk result (λ o. IsOfKind (M.context make.new).trees arg o) }
    ensures answer { IfOk result (λ o. option_map (arg_tree (M.context make.new).trees) o ≡ moved by binders (arg_tree (M.context make.old).trees arg).head) }
    ensures cause { IfErr result (λ s. IsAnswerStop (length (M.context make.new).trees) (moved by binders (arg_tree (M.context make.old).trees arg).head) s) }
{
    let head = make.cx().head(arg.number());
    let Some((kind, var)) = bound_variable_of(head) else {
        return Ok(None);
    };
    match further(var, binders, by)? {
        Some(var) => Ok(Some(bound_variable(make, kind, var)?)),
        None => Ok(None),
    }
}

/// What `moved` answers.
#[derive(Clone, Copy)]
struct Shifting {
    by: u32,
}

impl<M: Make> PureFolder<M> for Shifting {
    ghost answers = { λ s ts. (λ d t. moved s.by d t.head) };

    ghost is_of = { λ _ _. Unit {0} };

    ghost causes = { λ _. IsSubstStop };

    fn may_answer(&self, marks: Marks) -> bool {
        marks.has_bound()
    }

    fn answer(
        &self,
        alloc: Global,
        make: &mut M,
        arg: GenericArg,
        binders: u32,
    ) -> Result<Option<GenericArg>, Stop> {
        let _ = alloc;
        moved(make, arg, binders, self.by)
    }

    fn recall_laws(&self) {}
}

/// The variable bound so much further out, unless it is bound by one of the binders passed.
fn further(var: BoundVar, binders: u32, by: u32) -> Result<Option<BoundVar>, Stop>
    ensures moved { IfOk result (λ o. o ≡ (if nat_le binders var.depth then Some (further by var) else None)) }
    ensures cause { IfErr result (λ s. (s ≡ Stop.NodesFull) × (nat_le binders var.depth ≡ true) × (4294967295 < var.depth + by)) }
{
    if var.depth < binders {
        return Ok(None);
    }
    match var.depth.checked_add(by) {
        Some(depth) => Ok(Some(BoundVar {
            depth,
            index: var.index,
        })),
        None => Err(Stop::NodesFull),
    }
}

/// The argument in a place under so many more binders: what is bound outside of it is bound so much
/// further out.
pub(crate) fn shifted<M: Make>(
    alloc: Global,
    make: &mut M,
    arg: GenericArg,
    by: u32,
) -> Result<GenericArg, Stop>
    requires { IsArg (M.context make.old).trees arg }
    ensures grows { Grows (M.context make.old) (M.context make.new) }
    ensures rest { M.rest make.new ≡ M.rest make.old }
    ensures kind { IfOk result (λ a. IsArg (M.context make.new).trees a × (arg_kind a ≡ arg_kind arg)) }
    ensures tree { IfOk result (λ a. arg_tree (M.context make.new).trees a ≡ shift_tree by (arg_tree (M.context make.old).trees arg)) }
    ensures cause { IfErr result (λ s. IsSubstStop (length (M.context make.new).trees) (alone (shift_tree by (arg_tree (M.context make.old).trees arg))) s) }
{
    let whole = arg.number();
    if !holds_bound(make.cx(), whole) {
        return Ok(arg);
    }
    let number = fold_once(alloc, make, &Shifting { by }, whole)?;
    Ok(arg.with_number(number))
}

/// The argument of that number, if the list has so many.
pub(crate) fn nth_argument(cx: &Cx, args: Args, index: u32) -> Option<GenericArg>
    requires { IsArgs cx.now.trees args }
    ensures { let ts = cx.now.trees in let values = args_forest ts args in MatchOption result (nat_lt index (count values) ≡ false) (IsArgumentAt ts values index) }
{
    let list = cx.args(args);
    if index as usize >= list.len() {
        return None;
    }
    Some(list[index as usize])
}

/// The argument for a parameter, if there is one of its kind.
fn argument_for(cx: &Cx, args: Args, arg: GenericArg) -> Option<GenericArg>
    requires args { IsArgs cx.now.trees args }
    requires arg { IsArg cx.now.trees arg }
    ensures { let ts = cx.now.trees in let values = args_forest ts args in let t = arg_tree ts arg in MatchOption result ((d : ℕ) → put_if_there values d t.head ≡ None) (IsArgumentFor ts values arg) }
{
    match cx.head(arg.number()) {
        Head::Param(index) => {
            let value = nth_argument(cx, args, index)?;
            if value.is_of(VarKind::Ty) {
                Some(value)
            } else {
                None
            }
        }
        Head::Const(ConstHead::Param(index)) => {
            let value = nth_argument(cx, args, index)?;
            if value.is_of(VarKind::Const) {
                Some(value)
            } else {
                None
            }
        }
        _ => None,
    }
}

/// What stands for a parameter under so many binders: its argument, shifted.
pub(crate) fn put<M: Make>(
    alloc: Global,
    make: &mut M,
    args: Args,
    arg: GenericArg,
    binders: u32,
) -> Result<Option<GenericArg>, Stop>
    requires args { IsArgs (M.context make.old).trees args }
    requires arg { IsArg (M.context make.old).trees arg }
    ensures grows { Grows (M.context make.old) (M.context make.new) }
    ensures rest { M.rest make.new ≡ M.rest make.old }
    ensures kind { IfOk result (λ o. IsOfKind (M.context make.new).trees arg o) }
    ensures answer { let ts = (M.context make.old).trees in IfOk result (λ o. option_map (arg_tree (M.context make.new).trees) o ≡ put_if_there (args_forest ts args) binders (arg_tree ts arg).head) }
    ensures cause { let ts = (M.context make.old).trees in IfErr result (λ s. IsAnswerStop (length (M.context make.new).trees) (put_if_there (args_forest ts args) binders (arg_tree ts arg).head) s) }
{
    match argument_for(make.cx(), args, arg) {
        Some(value) => Ok(Some(shifted(alloc, make, value, binders)?)),
        None => Ok(None),
    }
}

/// What `put` answers.
#[derive(Clone, Copy)]
struct Putting {
    args: Args,
}

impl<M: Make> PureFolder<M> for Putting {
    ghost answers = { λ s ts. (λ d t. put_if_there (args_forest ts s.args) d t.head) };

    ghost is_of = { λ s ts. IsArgs ts s.args };

    ghost causes = { λ _. IsSubstStop };

    fn may_answer(&self, marks: Marks) -> bool {
        marks.has(Flag::Param)
    }

    fn answer(
        &self,
        alloc: Global,
        make: &mut M,
        arg: GenericArg,
        binders: u32,
    ) -> Result<Option<GenericArg>, Stop> {
        put(alloc, make, self.args, arg, binders)
    }

    fn recall_laws(&self) {}
}

/// What a number stands for, with the list's argument of its number in the place of each parameter.
fn substituted<M: Make>(alloc: Global, make: &mut M, number: u32, args: Args) -> Result<u32, Stop>
    requires inside { number < length (M.context make.old).trees }
    requires no_bound { is_bound_kind (kind_at (M.context make.old).trees number) ≡ false }
    requires args { IsArgs (M.context make.old).trees args }
    requires there { tree_holds (lacks_argument (args_forest (M.context make.old).trees args)) (tree_at (M.context make.old).trees number) ≡ false }
    ensures grows { Grows (M.context make.old) (M.context make.new) }
    ensures rest { M.rest make.new ≡ M.rest make.old }
    ensures sort { IfOk result (λ n. kind_at (M.context make.new).trees n ≡ kind_at (M.context make.old).trees number) }
    ensures tree { let ts = (M.context make.old).trees in is_list_kind (kind_at ts number) ≡ false → IfOk result (λ n. tree_at (M.context make.new).trees n ≡ substituted_tree (args_forest ts args) (tree_at ts number)) }
    ensures list { let ts = (M.context make.old).trees in is_list_kind (kind_at ts number) ≡ true → MapsMembers M.context (λ n. n) make.old make.new number (substituted (args_forest ts args) 0) result }
    ensures tree_cause { let ts = (M.context make.old).trees in is_list_kind (kind_at ts number) ≡ false → StopsOver M.context make.new (alone (substituted_tree (args_forest ts args) (tree_at ts number))) result }
    ensures list_cause { let ts = (M.context make.old).trees in is_list_kind (kind_at ts number) ≡ true → StopsOver M.context make.new (substituted (args_forest ts args) 0 (tree_at ts number).children) result }
{
    if !holds_param(make.cx(), number) {
        return Ok(number);
    }
    fold_once(alloc, make, &Putting { args }, number)
}

/// The type, constant, list or whatever else it is, with the list's argument of its number in the place
/// of each parameter, shifted by the binders that it stands under.
///
/// Each parameter of it has an argument, of its kind. `Stop::Memory` comes where a growth was
/// refused, `Stop::NodesFull` where no numbers are left, or fewer than a list of bounds takes, the
/// tree would be higher than 1,024, or a bound variable would be bound more than 2^32 - 1 binders
/// out. What has no parameter is answered at once, and no number is gone into twice under as many binders;
/// after a stop the nodes that were made stay.
pub fn subst<N: Numbered, M: Make>(
    alloc: Global,
    make: &mut M,
    value: N,
    args: Args,
) -> Result<N, Stop>
    requires value { kind_at (M.context make.old).trees (N.number_of value) ≡ N.kind value }
    requires args { IsArgs (M.context make.old).trees args }
    requires there { tree_holds (lacks_argument (args_forest (M.context make.old).trees args)) (tree_at (M.context make.old).trees (N.number_of value)) ≡ false }
    ensures grows { Grows (M.context make.old) (M.context make.new) }
    ensures rest { M.rest make.new ≡ M.rest make.old }
    ensures sort { IfOk result (λ x. kind_at (M.context make.new).trees (N.number_of x) ≡ N.kind x) }
    ensures kind { IfOk result (λ x. N.kind x ≡ N.kind value) }
    ensures tree { let ts = (M.context make.old).trees in IfOk result (λ x. tree_at (M.context make.new).trees (N.number_of x) ≡ substituted_tree (args_forest ts args) (tree_at ts (N.number_of value))) }
    ensures list { let ts = (M.context make.old).trees in is_list_kind (N.kind value) ≡ true → MapsMembers M.context N.number_of make.old make.new value (substituted (args_forest ts args) 0) result }
    ensures cause { let ts = (M.context make.old).trees in StopsOver M.context make.new (substituted (args_forest ts args) 0 (row_at N.kind N.number_of ts value)) result }

    // Laws; those of lists follow from `list` alike.
    ensures unchanged { let ts = (M.context make.old).trees in let n = N.number_of value in tree_holds is_param (tree_at ts n) ≡ false → IfOk result (λ x. tree_at (M.context make.new).trees (N.number_of x) ≡ tree_at ts n) }
    ensures twice { let ts = (M.context make.old).trees in (others : Forest) → IfOk result (λ x. SubstitutesOn others (args_forest ts args) (tree_at ts (N.number_of value)) (tree_in M.context N.number_of make.new x)) }
    ensures height { let ts = (M.context make.old).trees in IfOk result (λ x. height (tree_at (M.context make.new).trees (N.number_of x)) ≤ height (tree_at ts (N.number_of value)) + heights (args_forest ts args)) }
{
    let number = substituted(alloc, make, value.number(), args)?;
    Ok(value.with_number(number))
}
