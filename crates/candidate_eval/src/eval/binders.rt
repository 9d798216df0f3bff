//! What stood under binders, with variables or placeholders in the place of theirs.

ghost use Rattle.std.specs.Prelude.{◌≡◌, true, IfOk, IfErr, OnErr, OnOk};
ghost use Rattle.ir_trees.specs.Declarations.Context.{Grows};
ghost use Rattle.ir_trees.specs.Syntax.Nodes.{kind_at, tree_at};
ghost use Rattle.ir_trees.specs.Instantiation.Opening.{opened, opened_clause, opened_tree};
ghost use Rattle.ir_trees.specs.Instantiation.Results.{MapsMembers, tree_in};
ghost use Rattle.ir_trees.specs.Unification.Substitutions.{alone};
ghost use Rattle.ir_trees.specs.Syntax.Trees.{is_list_kind, none, row};
ghost use Rattle.ir_trees.specs.Syntax.Words.{IsArgs, IsClause, IsTy, IsVars, args_forest, clause_tree, ty_tree};
ghost use Rattle.candidate_eval.specs.Derivations.Characterization.{bound_kinds};
ghost use Rattle.candidate_eval.specs.Interface.Evaluators.{HasTree, HasTrees, rigid, with_rigid};
ghost use Rattle.candidate_eval.specs.Dynamic.Objects.{IsInstance, fresh_instance, with_instance};
ghost use Rattle.candidate_eval.specs.Judges.States.{with_fresh_variables};
ghost use Rattle.candidate_eval.specs.Interface.Unmade.{IsUnmade};
ghost use Rattle.candidate_eval.specs.Interface.Shown.{Keeps, LeavesAlike, StopsBy, fresh_values, kinds_under, rigid_values, view};

use crate::eval::context::EvalCtxt;
use ir_context::decl::make::Make;
use ir_folds::decl::open::{binder_kinds, open_clause, replace_bound_vars, variable_kinds};
use ir_trees::ir::kinds::{Args, Binder, Clause, FnSig, ParamEnv, Vars};
use ir_trees::ir::numbered::Numbered;
use ir_trees::ir::stop::Stop;
use ir_trees::ir::trees::Trees;
use std::alloc::Global;

/// Fresh variables in the place of those of a binder.
///
/// `Stop::Memory` comes where a growth was refused, other stops as they come of the evaluator's fresh variables. After a stop the
/// state is alike.
pub fn fresh_args_for_binder<E: EvalCtxt>(
    alloc: Global,
    ecx: &mut E,
    vars: Vars,
) -> Result<Args, Stop>
    requires { IsVars (E.context ecx.old).trees vars }
    ensures kept { Keeps E.EvalCtxt ecx.old ecx.new }
    ensures state { OnOk result (E.state ecx.new ≡ with_fresh_variables (E.state ecx.old) (kinds_under (E.context ecx.old).trees vars)) }
    ensures sort { IfOk result (λ a. IsArgs (E.context ecx.new).trees a) }
    ensures trees { IfOk result (λ a. args_forest (E.context ecx.new).trees a ≡ fresh_values (view E.EvalCtxt ecx.old) vars) }
    ensures stopped { OnErr result (LeavesAlike E.EvalCtxt ecx.old ecx.new) }
    ensures cause { IfErr result (StopsBy E.EvalCtxt ecx.old ecx.new (λ _. ⊥)) }
{
    let kinds = variable_kinds(alloc, ecx.cx(), vars)?;
    ecx.fresh_args_for_item(kinds.as_slice())
}

/// Placeholders of a fresh universe in the place of the variables of a binder. It stops as `fresh_args_for_binder` does.
pub fn placeholder_args_for_binder<E: EvalCtxt>(
    alloc: Global,
    ecx: &mut E,
    vars: Vars,
) -> Result<Args, Stop>
    requires { IsVars (E.context ecx.old).trees vars }
    ensures kept { Keeps E.EvalCtxt ecx.old ecx.new }
    ensures state { OnOk result (E.state ecx.new ≡ with_rigid (E.state ecx.old) (kinds_under (E.context ecx.old).trees vars)) }
    ensures sort { IfOk result (λ a. IsArgs (E.context ecx.new).trees a) }
    ensures trees { IfOk result (λ a. args_forest (E.context ecx.new).trees a ≡ rigid_values (view E.EvalCtxt ecx.old) vars) }
    ensures stopped { OnErr result (LeavesAlike E.EvalCtxt ecx.old ecx.new) }
    ensures cause { IfErr result (StopsBy E.EvalCtxt ecx.old ecx.new (λ _. ⊥)) }
{
    let kinds = variable_kinds(alloc, ecx.cx(), vars)?;
    ecx.placeholder_args(kinds.as_slice())
}

/// What stands under the binder, with fresh variables in the place of the binder's: a type, a list of arguments, as of a trait
/// reference, or whatever else it is. It stops as `fresh_args_for_binder` and `replace_bound_vars` do.
pub fn instantiate_binder_with_infer<N: Numbered, E: EvalCtxt>(
    alloc: Global,
    ecx: &mut E,
    binder: Binder<N>,
) -> Result<N, Stop>
    requires vars { IsVars (E.context ecx.old).trees binder.vars }
    requires under { kind_at (E.context ecx.old).trees (N.number_of binder.value) ≡ N.kind binder.value }
    ensures kept { Keeps E.EvalCtxt ecx.old ecx.new }
    ensures state { OnOk result (E.state ecx.new ≡ with_fresh_variables (E.state ecx.old) (kinds_under (E.context ecx.old).trees binder.vars)) }
    ensures sort { IfOk result (λ x. kind_at (E.context ecx.new).trees (N.number_of x) ≡ N.kind x) }
    ensures kind { IfOk result (λ x. N.kind x ≡ N.kind binder.value) }
    ensures tree { let V = view E.EvalCtxt ecx.old in IfOk result (λ x. tree_in E.context N.number_of ecx.new x ≡ opened_tree (fresh_values V binder.vars) (tree_at V.trees (N.number_of binder.value))) }
    ensures list { let V = view E.EvalCtxt ecx.old in is_list_kind (N.kind binder.value) ≡ true → MapsMembers E.context N.number_of ecx.old ecx.new binder.value (opened (fresh_values V binder.vars)) result }
    ensures cause { let V = view E.EvalCtxt ecx.old in IfErr result (StopsBy E.EvalCtxt ecx.old ecx.new (λ ts. ts ≡ opened (fresh_values V binder.vars) (row (tree_at V.trees (N.number_of binder.value)) none))) }
{
    let values = fresh_args_for_binder(alloc, ecx, binder.vars)?;
    replace_bound_vars(alloc, ecx, binder.value, values)
}

/// What stands under the binder, with placeholders of a fresh universe in the place of the binder's variables: what holds of it holds
/// for all values of these. It stops as `instantiate_binder_with_infer` does.
pub fn enter_binder<N: Numbered, E: EvalCtxt>(
    alloc: Global,
    ecx: &mut E,
    binder: Binder<N>,
) -> Result<N, Stop>
    requires vars { IsVars (E.context ecx.old).trees binder.vars }
    requires under { kind_at (E.context ecx.old).trees (N.number_of binder.value) ≡ N.kind binder.value }
    ensures kept { Keeps E.EvalCtxt ecx.old ecx.new }
    ensures state { OnOk result (E.state ecx.new ≡ with_rigid (E.state ecx.old) (kinds_under (E.context ecx.old).trees binder.vars)) }
    ensures sort { IfOk result (λ x. kind_at (E.context ecx.new).trees (N.number_of x) ≡ N.kind x) }
    ensures kind { IfOk result (λ x. N.kind x ≡ N.kind binder.value) }
    ensures tree { let V = view E.EvalCtxt ecx.old in IfOk result (λ x. tree_in E.context N.number_of ecx.new x ≡ opened_tree (rigid_values V binder.vars) (tree_at V.trees (N.number_of binder.value))) }
    ensures list { let V = view E.EvalCtxt ecx.old in is_list_kind (N.kind binder.value) ≡ true → MapsMembers E.context N.number_of ecx.old ecx.new binder.value (opened (rigid_values V binder.vars)) result }
    ensures cause { let V = view E.EvalCtxt ecx.old in IfErr result (StopsBy E.EvalCtxt ecx.old ecx.new (λ ts. ts ≡ opened (rigid_values V binder.vars) (row (tree_at V.trees (N.number_of binder.value)) none))) }
{
    let values = placeholder_args_for_binder(alloc, ecx, binder.vars)?;
    replace_bound_vars(alloc, ecx, binder.value, values)
}

/// The clause under an empty binder, with fresh variables in the place of those of its own.
///
/// `Stop::Memory` comes where a growth was refused, other stops as they come of `open_clause` and of the evaluator's fresh
/// variables. After a stop the variables that were made stay.
pub fn instantiate_clause_with_infer<E: EvalCtxt>(
    alloc: Global,
    ecx: &mut E,
    clause: Clause,
) -> Result<Clause, Stop>
    requires { IsClause (E.context ecx.old).trees clause }
    ensures kept { Keeps E.EvalCtxt ecx.old ecx.new }
    ensures state { OnOk result (E.state ecx.new ≡ with_instance (E.state ecx.old) (clause_tree (E.context ecx.old).trees clause)) }
    ensures sort { IfOk result (λ x. IsClause (E.context ecx.new).trees x) }
    ensures tree { IfOk result (λ x. clause_tree (E.context ecx.new).trees x ≡ fresh_instance (E.state ecx.old) (clause_tree (E.context ecx.old).trees clause)) }
    ensures cause { IfErr result (StopsBy E.EvalCtxt ecx.old ecx.new (IsInstance (clause_tree (E.context ecx.old).trees clause))) }
{
    let kinds = binder_kinds(alloc, ecx.cx(), clause)?;
    let values = ecx.fresh_args_for_item(kinds.as_slice())?;
    open_clause(alloc, ecx, clause, values)
}

/// The clause under an empty binder, with placeholders of a fresh universe in the place of the variables of its own. It stops as
/// `enter_binder` does.
pub fn enter_clause<E: EvalCtxt>(alloc: Global, ecx: &mut E, clause: Clause) -> Result<Clause, Stop>
    requires { IsClause (E.context ecx.old).trees clause }
    ensures kept { Keeps E.EvalCtxt ecx.old ecx.new }
    ensures state { OnOk result (E.state ecx.new ≡ with_rigid (E.state ecx.old) (bound_kinds (clause_tree (E.context ecx.old).trees clause).children)) }
    ensures sort { IfOk result (λ x. IsClause (E.context ecx.new).trees x) }
    ensures tree { let V = view E.EvalCtxt ecx.old in let t = clause_tree V.trees clause in IfOk result (λ x. clause_tree (E.context ecx.new).trees x ≡ opened_clause (rigid V.state (bound_kinds t.children)) t) }
    ensures cause { let V = view E.EvalCtxt ecx.old in let t = clause_tree V.trees clause in IfErr result (StopsBy E.EvalCtxt ecx.old ecx.new (λ ts. ts ≡ alone (opened_clause (rigid V.state (bound_kinds t.children)) t))) }
{
    let kinds = binder_kinds(alloc, ecx.cx(), clause)?;
    let values = ecx.placeholder_args(kinds.as_slice())?;
    open_clause(alloc, ecx, clause, values)
}

/// A signature that stood under a binder, with the list's values in the place of that binder's variables. It stops as
/// `replace_bound_vars` does.
pub fn open_signature<M: Make>(
    alloc: Global,
    make: &mut M,
    under: FnSig,
    values: Args,
) -> Result<FnSig, Stop>
    requires inputs { IsArgs (M.context make.old).trees under.inputs }
    requires output { IsTy (M.context make.old).trees under.output }
    requires values { IsArgs (M.context make.old).trees values }
    ensures grows { Grows (M.context make.old) (M.context make.new) }
    ensures rest { M.rest make.new ≡ M.rest make.old }
    ensures inputs { let ts = (M.context make.old).trees in let us = (M.context make.new).trees in IfOk result (λ s. HasTrees us s.inputs (opened (args_forest ts values) (args_forest ts under.inputs))) }
    ensures output { let ts = (M.context make.old).trees in let us = (M.context make.new).trees in IfOk result (λ s. HasTree us s.output (opened_tree (args_forest ts values) (ty_tree ts under.output))) }
    ensures is { IfOk result (λ s. s ≡ record under { inputs = s.inputs; output = s.output }) }
    ensures cause { IfErr result (IsUnmade (M.context make.old) (M.context make.new)) }
{
    let inputs = replace_bound_vars(alloc, make, under.inputs, values)?;
    let output = replace_bound_vars(alloc, make, under.output, values)?;
    Ok(FnSig {
        inputs,
        output,
        safe: under.safe,
        rust_abi: under.rust_abi,
        variadic: under.variadic,
    })
}
