//! Clauses out of their binders.

ghost use Rattle.std.specs.Prelude.{◌≡◌, ◌-◌, length, true, false, MatchOption, IfOk, IfErr, IfSome, option_map};
ghost use Rattle.ir_trees.specs.Declarations.Context.{Grows, parameter_kind};
ghost use Rattle.ir_trees.specs.Instantiation.Folding.{leaf, argument, shift_tree, IsSubstStop, IsAnswerStop};
ghost use Rattle.ir_trees.specs.Instantiation.Folds.{IsArg, IsOfKind, arg_tree};
ghost use Rattle.ir_trees.specs.Syntax.Kinds.{arg_kind};
ghost use Rattle.ir_trees.specs.Instantiation.Opening.{bound_head, is_bound_variable, error_of, of_kind, opened, opened_below, opened_clause, opened_head, opened_tree, opened_variable, under_variables};
ghost use Rattle.ir_trees.specs.Instantiation.Results.{IsValueAt, MapsMembers};
ghost use Rattle.ir_trees.specs.Unification.Substitutions.{alone};
ghost use Rattle.ir_trees.specs.Syntax.Nodes.{kind_at, tree_at};
ghost use Rattle.ir_trees.specs.Syntax.Trees.{is_list_kind, none, row};
ghost use Rattle.ir_trees.specs.Syntax.Words.{IsArgs, IsClause, IsVars, args_forest, binder_tree, clause_tree, vars_tree};

use crate::decl::answering::{PureFolder, fold_once};
use crate::decl::elaborate::add_kinds;
use crate::decl::subst::{nth_argument, shifted};
use ir_context::decl::context::Cx;
use ir_context::decl::make::Make;
use ir_trees::ir::heads::{ConstHead, Head, Marks};
use ir_trees::ir::kinds::{
    Args, Binder, BoundVar, Clause, ConstKind, GenericArg, RegionKind, TyKind, VarKind, Vars,
};
use ir_trees::ir::numbered::Numbered;
use ir_trees::ir::quiet::holds_bound;
use ir_trees::ir::stop::Stop;
use ir_trees::ir::trees::Trees;
use std::alloc::{AllocError, Global};

/// The bound variable that a head is, with its kind.
pub(crate) fn bound_variable_of(head: Head) -> Option<(VarKind, BoundVar)>
    ensures { MatchOption result (is_bound_variable head ≡ false) (λ b. head ≡ bound_head b.0 b.1) }
{
    match head {
        Head::Bound(var) => Some((VarKind::Ty, var)),
        Head::Const(ConstHead::Bound(var)) => Some((VarKind::Const, var)),
        Head::Region(RegionKind::Bound(var)) => Some((VarKind::Region, var)),
        _ => None,
    }
}

/// The bound variable of that kind.
pub(crate) fn bound_variable<M: Make>(
    make: &mut M,
    kind: VarKind,
    var: BoundVar,
) -> Result<GenericArg, Stop>
    ensures grows { Grows (M.context make.old) (M.context make.new) }
    ensures rest { M.rest make.new ≡ M.rest make.old }
    ensures sort { IfOk result (λ a. IsArg (M.context make.new).trees a) }
    ensures kind { IfOk result (λ a. arg_kind a ≡ parameter_kind kind) }
    ensures tree { IfOk result (λ a. arg_tree (M.context make.new).trees a ≡ leaf (bound_head kind var)) }
    ensures cause { IfErr result (λ s. IsSubstStop (length (M.context make.new).trees) (alone (leaf (bound_head kind var))) s) }
{
    match kind {
        VarKind::Ty => Ok(GenericArg::Ty(make.mk_ty(TyKind::Bound(var))?)),
        VarKind::Const => Ok(GenericArg::Const(make.mk_const(ConstKind::Bound(var))?)),
        VarKind::Region => Ok(GenericArg::Region(make.mk_region(RegionKind::Bound(var))?)),
    }
}

/// The error of that kind.
fn error_of<M: Make>(make: &mut M, kind: VarKind) -> Result<GenericArg, Stop>
    ensures grows { Grows (M.context make.old) (M.context make.new) }
    ensures rest { M.rest make.new ≡ M.rest make.old }
    ensures sort { IfOk result (λ a. IsArg (M.context make.new).trees a) }
    ensures kind { IfOk result (λ a. arg_kind a ≡ parameter_kind kind) }
    ensures tree { IfOk result (λ a. arg_tree (M.context make.new).trees a ≡ leaf (error_of kind)) }
    ensures cause { IfErr result (λ s. IsSubstStop (length (M.context make.new).trees) (alone (leaf (error_of kind))) s) }
{
    match kind {
        VarKind::Ty => Ok(GenericArg::Ty(make.mk_ty(TyKind::Error)?)),
        VarKind::Const => Ok(GenericArg::Const(make.mk_const(ConstKind::Error)?)),
        VarKind::Region => Ok(GenericArg::Region(make.mk_region(RegionKind::Error)?)),
    }
}

/// The value of that number, if there is one and it is of that kind.
fn value_of_kind(cx: &Cx, values: Args, kind: VarKind, index: u32) -> Option<GenericArg>
    requires { IsArgs cx.now.trees values }
    ensures { let ts = cx.now.trees in let arguments = args_forest ts values in MatchOption result (of_kind kind (argument arguments index) ≡ leaf (error_of kind)) (IsValueAt ts kind arguments index) }
{
    let value = nth_argument(cx, values, index)?;
    if value.is_of(kind) { Some(value) } else { None }
}

/// What stands under so many binders for a variable of the binder that is gone.
fn value_under<M: Make>(
    alloc: Global,
    make: &mut M,
    values: Args,
    kind: VarKind,
    index: u32,
    binders: u32,
) -> Result<GenericArg, Stop>
    requires { IsArgs (M.context make.old).trees values }
    ensures grows { Grows (M.context make.old) (M.context make.new) }
    ensures rest { M.rest make.new ≡ M.rest make.old }
    ensures sort { IfOk result (λ a. IsArg (M.context make.new).trees a) }
    ensures kind { IfOk result (λ a. arg_kind a ≡ parameter_kind kind) }
    ensures tree { IfOk result (λ a. arg_tree (M.context make.new).trees a ≡ shift_tree binders (of_kind kind (argument (args_forest (M.context make.old).trees values) index))) }
    ensures cause { IfErr result (λ s. IsSubstStop (length (M.context make.new).trees) (alone (shift_tree binders (of_kind kind (argument (args_forest (M.context make.old).trees values) index)))) s) }
{
    match value_of_kind(make.cx(), values, kind, index) {
        Some(value) => shifted(alloc, make, value, binders),
        None => error_of(make, kind),
    }
}

/// What stands for a bound variable under so many binders, where something does.
fn opened_variable<M: Make>(
    alloc: Global,
    make: &mut M,
    values: Args,
    kind: VarKind,
    var: BoundVar,
    binders: u32,
) -> Result<Option<GenericArg>, Stop>
    requires { IsArgs (M.context make.old).trees values }
    ensures grows { Grows (M.context make.old) (M.context make.new) }
    ensures rest { M.rest make.new ≡ M.rest make.old }
    ensures sort { IfOk result (λ o. IfSome o (λ a. IsArg (M.context make.new).trees a × (arg_kind a ≡ parameter_kind kind))) }
    ensures answer { IfOk result (λ o. option_map (arg_tree (M.context make.new).trees) o ≡ opened_variable (args_forest (M.context make.old).trees values) binders kind var) }
    ensures cause { IfErr result (λ s. IsAnswerStop (length (M.context make.new).trees) (opened_variable (args_forest (M.context make.old).trees values) binders kind var) s) }
{
    if var.depth == binders {
        let value = value_under(alloc, make, values, kind, var.index, binders)?;
        return Ok(Some(value));
    }
    if var.depth < binders {
        return Ok(None);
    }
    let nearer = BoundVar {
        depth: var.depth - 1,
        index: var.index,
    };
    Ok(Some(bound_variable(make, kind, nearer)?))
}

/// What stands for a part of what stood under the binder, under so many binders.
fn opened_part<M: Make>(
    alloc: Global,
    make: &mut M,
    values: Args,
    arg: GenericArg,
    binders: u32,
) -> Result<Option<GenericArg>, Stop>
    requires values { IsArgs (M.context make.old).trees values }
    requires arg { IsArg (M.context make.old).trees arg }
    ensures grows { Grows (M.context make.old) (M.context make.new) }
    ensures rest { M.rest make.new ≡ M.rest make.old }
    ensures kind { IfOk result (λ o. IsOfKind (M.context make.new).trees arg o) }
    ensures answer { let ts = (M.context make.old).trees in IfOk result (λ o. option_map (arg_tree (M.context make.new).trees) o ≡ opened_head (args_forest ts values) binders (arg_tree ts arg).head) }
    ensures cause { let ts = (M.context make.old).trees in IfErr result (λ s. IsAnswerStop (length (M.context make.new).trees) (opened_head (args_forest ts values) binders (arg_tree ts arg).head) s) }
{
    let head = make.cx().head(arg.number());
    match bound_variable_of(head) {
        Some((kind, var)) => opened_variable(alloc, make, values, kind, var, binders),
        None => Ok(None),
    }
}

/// What stands for a part of a clause that stood under the binder, under so many binders, the clause's own among them.
fn opened_inside<M: Make>(
    alloc: Global,
    make: &mut M,
    values: Args,
    arg: GenericArg,
    binders: u32,
) -> Result<Option<GenericArg>, Stop>
    requires values { IsArgs (M.context make.old).trees values }
    requires arg { IsArg (M.context make.old).trees arg }
    ensures grows { Grows (M.context make.old) (M.context make.new) }
    ensures rest { M.rest make.new ≡ M.rest make.old }
    ensures kind { IfOk result (λ o. IsOfKind (M.context make.new).trees arg o) }
    ensures answer { let ts = (M.context make.old).trees in IfOk result (λ o. option_map (arg_tree (M.context make.new).trees) o ≡ opened_head (args_forest ts values) (binders - 1) (arg_tree ts arg).head) }
    ensures cause { let ts = (M.context make.old).trees in IfErr result (λ s. IsAnswerStop (length (M.context make.new).trees) (opened_head (args_forest ts values) (binders - 1) (arg_tree ts arg).head) s) }
{
    opened_part(alloc, make, values, arg, binders.saturating_sub(1))
}

/// What `opened_part` answers.
#[derive(Clone, Copy)]
struct Opening {
    values: Args,
}

impl<M: Make> PureFolder<M> for Opening {
    ghost answers = { λ s ts. (λ d t. opened_head (args_forest ts s.values) d t.head) };

    ghost is_of = { λ s ts. IsArgs ts s.values };

    ghost causes = { λ _. IsSubstStop };

    fn may_answer(&self, marks: Marks) -> bool {
        marks.has_bound()
    }

    fn answer(
        &self,
        alloc: Global,
        make: &mut M,
        arg: GenericArg,
        binders: u32,
    ) -> Result<Option<GenericArg>, Stop> {
        opened_part(alloc, make, self.values, arg, binders)
    }

    fn recall_laws(&self) {}
}

/// What `opened_inside` answers.
#[derive(Clone, Copy)]
struct OpeningBelow {
    values: Args,
}

impl<M: Make> PureFolder<M> for OpeningBelow {
    ghost answers = { λ s ts. (λ d t. opened_head (args_forest ts s.values) (d - 1) t.head) };

    ghost is_of = { λ s ts. IsArgs ts s.values };

    ghost causes = { λ _. IsSubstStop };

    fn may_answer(&self, marks: Marks) -> bool {
        marks.has_bound()
    }

    fn answer(
        &self,
        alloc: Global,
        make: &mut M,
        arg: GenericArg,
        binders: u32,
    ) -> Result<Option<GenericArg>, Stop> {
        opened_inside(alloc, make, self.values, arg, binders)
    }

    fn recall_laws(&self) {}
}

/// The kinds of a binder's variables, in order. The only error is a refused growth.
pub fn variable_kinds(alloc: Global, cx: &Cx, vars: Vars) -> Result<Vec<VarKind>, AllocError>
    requires { IsVars cx.now.trees vars }
    ensures { IfOk result (λ v. (vars_tree cx.now.trees vars).children ≡ (binder_tree v.items).children) }
{
    let mut kinds = Vec::new(alloc);
    add_kinds(cx, &mut kinds, vars)?;
    Ok(kinds)
}

/// The kinds of the variables of a clause's binder.
pub fn binder_kinds(alloc: Global, cx: &Cx, clause: Clause) -> Result<Vec<VarKind>, AllocError>
    requires { IsClause cx.now.trees clause }
    ensures { IfOk result (λ v. (clause_tree cx.now.trees clause).children ≡ under_variables v.items (clause_tree cx.now.trees clause)) }
{
    let mut kinds = Vec::new(alloc);
    add_kinds(cx, &mut kinds, cx.clause(clause).vars)?;
    Ok(kinds)
}

/// The clause with values in the place of the variables of its binder, which still stands above them.
fn opened_below<M: Make>(
    alloc: Global,
    make: &mut M,
    clause: Clause,
    values: Args,
) -> Result<Clause, Stop>
    requires clause { IsClause (M.context make.old).trees clause }
    requires values { IsArgs (M.context make.old).trees values }
    ensures grows { Grows (M.context make.old) (M.context make.new) }
    ensures rest { M.rest make.new ≡ M.rest make.old }
    ensures sort { IfOk result (λ x. IsClause (M.context make.new).trees x) }
    ensures tree { let ts = (M.context make.old).trees in IfOk result (λ x. clause_tree (M.context make.new).trees x ≡ opened_below (args_forest ts values) (clause_tree ts clause)) }
    ensures cause { let ts = (M.context make.old).trees in IfErr result (λ s. IsSubstStop (length (M.context make.new).trees) (alone (opened_below (args_forest ts values) (clause_tree ts clause))) s) }
{
    if !holds_bound(make.cx(), clause.0) {
        return Ok(clause);
    }
    let number = fold_once(alloc, make, &OpeningBelow { values }, clause.0)?;
    Ok(Clause(number))
}

/// What stood under a binder, with the list's value of its number in the place of each variable of that binder, as by
/// `open_clause`: a type, a list of arguments, or whatever else it is. It stops as `open_clause` does.
pub fn replace_bound_vars<N: Numbered, M: Make>(
    alloc: Global,
    make: &mut M,
    under: N,
    values: Args,
) -> Result<N, Stop>
    requires under { kind_at (M.context make.old).trees (N.number_of under) ≡ N.kind under }
    requires values { IsArgs (M.context make.old).trees values }
    ensures grows { Grows (M.context make.old) (M.context make.new) }
    ensures rest { M.rest make.new ≡ M.rest make.old }
    ensures sort { IfOk result (λ x. kind_at (M.context make.new).trees (N.number_of x) ≡ N.kind x) }
    ensures kind { IfOk result (λ x. N.kind x ≡ N.kind under) }
    ensures tree { let ts = (M.context make.old).trees in IfOk result (λ x. tree_at (M.context make.new).trees (N.number_of x) ≡ opened_tree (args_forest ts values) (tree_at ts (N.number_of under))) }
    ensures list { let ts = (M.context make.old).trees in is_list_kind (N.kind under) ≡ true → MapsMembers M.context N.number_of make.old make.new under (opened (args_forest ts values)) result }
    ensures cause { let ts = (M.context make.old).trees in IfErr result (λ s. IsSubstStop (length (M.context make.new).trees) (opened (args_forest ts values) (row (tree_at ts (N.number_of under)) none)) s) }
{
    let whole = under.number();
    if !holds_bound(make.cx(), whole) {
        return Ok(under);
    }
    let number = fold_once(alloc, make, &Opening { values }, whole)?;
    Ok(under.with_number(number))
}

/// The clause under an empty binder, with the list's value of its number in the place of each variable of its own binder,
/// shifted by the binders that it stands under. Where there is no value of the variable's kind, the error of that kind stands
/// there. What is bound further out is bound one binder nearer.
///
/// `Stop::Memory` comes where a growth was refused, `Stop::NodesFull` where no numbers are left, or fewer than a list of bounds
/// takes, the clause would be higher than 1,024, or a bound variable would be bound more than 2^32 - 1 binders out. After a stop
/// the nodes that were made stay.
pub fn open_clause<M: Make>(
    alloc: Global,
    make: &mut M,
    clause: Clause,
    values: Args,
) -> Result<Clause, Stop>
    requires clause { IsClause (M.context make.old).trees clause }
    requires values { IsArgs (M.context make.old).trees values }
    ensures grows { Grows (M.context make.old) (M.context make.new) }
    ensures rest { M.rest make.new ≡ M.rest make.old }
    ensures sort { IfOk result (λ x. IsClause (M.context make.new).trees x) }
    ensures tree { let ts = (M.context make.old).trees in IfOk result (λ x. clause_tree (M.context make.new).trees x ≡ opened_clause (args_forest ts values) (clause_tree ts clause)) }
    ensures cause { let ts = (M.context make.old).trees in IfErr result (λ s. IsSubstStop (length (M.context make.new).trees) (alone (opened_clause (args_forest ts values) (clause_tree ts clause))) s) }
{
    make.cx().recall_well_formed();
    let opened = opened_below(alloc, make, clause, values)?;
    let vars = make.mk_vars(&[])?;
    make.cx().recall_well_formed();
    let value = make.cx().clause(opened).value;
    make.mk_clause(Binder { vars, value })
}
