//! Rules over the structural tables: the parts of a type meet the goal's trait.

ghost use Rattle.std.specs.Prelude.{◌≡◌, [], ◌∷◌, ◌++◌, All, false, true, map, IfOk, IfErr, IfSome, OnOk};
ghost use Rattle.ir_trees.specs.Declarations.Context.{Grows};
ghost use Rattle.ir_trees.specs.Declarations.References.{ArgumentsFit};
ghost use Rattle.ir_trees.specs.Syntax.Trees.{is_param, tree_holds};
ghost use Rattle.ir_trees.specs.Validity.WellFormed.{TypesFit};
ghost use Rattle.ir_trees.specs.Syntax.Words.{ClauseListFits, IsArgs, IsClause, IsTy, args_forest, clause_tree, ty_tree};
ghost use Rattle.candidate_eval.specs.Interface.Accounts.{by_stop};
ghost use Rattle.candidate_eval.specs.Builtins.Asked.{IsUnder, variables};
ghost use Rattle.candidate_eval.specs.Derivations.Characterization.{binder_kinds};
ghost use Rattle.candidate_eval.specs.Interface.Evaluators.{kinds_listed, with_rigid};
ghost use Rattle.candidate_eval.specs.Interface.Unmade.{IsUnmade};
ghost use Rattle.candidate_eval.specs.Builtins.Tables.{cell, is_excluded, row_of};
ghost use Rattle.candidate_eval.specs.Interface.Shown.{Keeps, StopsSomehow};
ghost use Rattle.candidate_assembly.specs.Rules.BuiltinRules.{entered_rule, entered_values, opened_by, parts_rule, said_of_type, self_of, values_at};
ghost use Rattle.candidate_assembly.specs.Goals.TraitGoals.{trait_goal, with_first};
ghost use Rattle.candidate_assembly.specs.Answers.Shown.{Considers, StopsOfItself, TellsRule};
ghost use Rattle.candidate_assembly.specs.Goals.KindShown.{IsGoal, trait_kind};
ghost use Rattle.candidate_assembly.specs.Calls.Seen.{said_of_part};
ghost use Rattle.candidate_eval.specs.Dynamic.Replacing.{clauses_at, types_at};

use crate::assembly::steps::{nest_and_respond, with_head_usages};
use candidate_eval::eval::certainty::Certainty;
use candidate_eval::eval::clauses::self_ty;
use candidate_eval::eval::context::{EvalCtxt, ProbeKind};
use candidate_eval::eval::refusal::NoSolutionOrStop;
use candidate_eval::eval::response::Candidate;
use candidate_eval::eval::source::CandidateSource;
use candidate_eval::structural::tables::constituents;
use candidate_eval::structural::{Column, Under};
use ir_context::decl::Cx;
use ir_context::decl::make::{Build, Make};
use ir_folds::decl::open::{replace_bound_vars, variable_kinds};
use ir_trees::ir::kinds::{
    Args, Binder, Clause, ClauseKind, GenericArg, GoalSource, ParamEnv, TraitPredicate, TraitRef,
    Ty, VarKind,
};
use ir_trees::ir::stop::Stop;
use ir_trees::ir::trees::Trees;
use std::alloc::Global;

/// The predicate with this self type. `Stop::Memory` comes where a growth was refused, `Stop::NodesFull` where the list was not made.
pub(crate) fn with_self_ty<M: Make>(
    alloc: Global,
    make: &mut M,
    predicate: TraitPredicate,
    self_ty: Ty,
) -> Result<TraitPredicate, Stop>
    requires args { IsArgs (M.context make.old).trees predicate.trait_ref.args }
    requires fit { ArgumentsFit (M.context make.old) predicate.trait_ref }
    requires self_ty { IsTy (M.context make.old).trees self_ty }
    ensures grows { Grows (M.context make.old) (M.context make.new) }
    ensures rest { M.rest make.new ≡ M.rest make.old }
    ensures sort { IfOk result (λ p. IsArgs (M.context make.new).trees p.trait_ref.args) }
    ensures fit { IfOk result (λ p. ArgumentsFit (M.context make.new) p.trait_ref) }
    ensures id { IfOk result (λ p. p.trait_ref.def_id ≡ predicate.trait_ref.def_id) }
    ensures polarity { IfOk result (λ p. p.polarity ≡ predicate.polarity) }
    ensures arguments { let ts = (M.context make.old).trees in IfOk result (λ p. args_forest (M.context make.new).trees p.trait_ref.args ≡ with_first (ty_tree ts self_ty) (args_forest ts predicate.trait_ref.args)) }
    ensures cause { IfErr result (IsUnmade (M.context make.old) (M.context make.new)) }
{
    let mut list = Vec::from_slice(alloc, make.cx().args(predicate.trait_ref.args))?;
    list[0] = GenericArg::Ty(self_ty);
    let args = make.mk_args(list.as_slice())?;
    Ok(TraitPredicate {
        trait_ref: TraitRef {
            def_id: predicate.trait_ref.def_id,
            args,
        },
        polarity: predicate.polarity,
    })
}

/// That what the predicate says of its self type holds of another type, as a clause under an empty binder. It stops as `with_self_ty`
/// does.
pub(crate) fn for_type<M: Make>(
    alloc: Global,
    make: &mut M,
    predicate: TraitPredicate,
    ty: Ty,
) -> Result<Clause, Stop>
    requires args { IsArgs (M.context make.old).trees predicate.trait_ref.args }
    requires fit { ArgumentsFit (M.context make.old) predicate.trait_ref }
    requires ty { IsTy (M.context make.old).trees ty }
    ensures grows { Grows (M.context make.old) (M.context make.new) }
    ensures rest { M.rest make.new ≡ M.rest make.old }
    ensures sort { IfOk result (λ x. IsClause (M.context make.new).trees x) }
    ensures tree { let ts = (M.context make.old).trees in IfOk result (λ x. clause_tree (M.context make.new).trees x ≡ said_of_type (args_forest ts predicate.trait_ref.args) predicate (ty_tree ts ty)) }
    ensures cause { IfErr result (IsUnmade (M.context make.old) (M.context make.new)) }
{
    let predicate = with_self_ty(alloc, make, predicate, ty)?;
    let vars = make.mk_vars(&[])?;
    make.mk_clause(Binder {
        vars,
        value: ClauseKind::Trait(predicate),
    })
}

/// A part, with what stands for the variables of its binder, if it has one.
fn opened_part<M: Make>(
    alloc: Global,
    make: &mut M,
    under: Option<Args>,
    ty: Ty,
) -> Result<Ty, Stop>
    requires ty { IsTy (M.context make.old).trees ty }
    requires under { IfSome under (λ a. IsArgs (M.context make.old).trees a) }
    ensures grows { Grows (M.context make.old) (M.context make.new) }
    ensures rest { M.rest make.new ≡ M.rest make.old }
    ensures sort { IfOk result (λ t. IsTy (M.context make.new).trees t) }
    ensures tree { let ts = (M.context make.old).trees in IfOk result (λ t. ty_tree (M.context make.new).trees t ≡ opened_by (values_at ts under) (ty_tree ts ty)) }
    ensures cause { IfErr result (IsUnmade (M.context make.old) (M.context make.new)) }
{
    match under {
        Some(values) => replace_bound_vars(alloc, make, ty, values),
        None => Ok(ty),
    }
}

/// What the predicate says of its self type, said of a part.
fn push_part<M: Make>(
    alloc: Global,
    make: &mut M,
    list: &mut Vec<Clause>,
    predicate: TraitPredicate,
    under: Option<Args>,
    ty: Ty,
) -> Result<(), Stop>
    requires list { ClauseListFits (M.context make.old).trees list.old.items }
    requires args { IsArgs (M.context make.old).trees predicate.trait_ref.args }
    requires fit { ArgumentsFit (M.context make.old) predicate.trait_ref }
    requires under { IfSome under (λ a. IsArgs (M.context make.old).trees a) }
    requires ty { IsTy (M.context make.old).trees ty }
    ensures grows { Grows (M.context make.old) (M.context make.new) }
    ensures rest { M.rest make.new ≡ M.rest make.old }
    ensures sort { IfOk result (λ _. ClauseListFits (M.context make.new).trees list.new.items) }
    ensures trees { let ts = (M.context make.old).trees in IfOk result (λ _. clauses_at (M.context make.new).trees list.new.items ≡ clauses_at ts list.old.items ++ said_of_part ts predicate under (ty_tree ts ty) ∷ []) }
    ensures cause { IfErr result (IsUnmade (M.context make.old) (M.context make.new)) }
{
    let ty = opened_part(alloc, make, under, ty)?;
    let clause = for_type(alloc, make, predicate, ty)?;
    list.push(clause)?;
    Ok(())
}

/// What the predicate says of its self type, said of each of the parts.
fn for_parts<M: Make>(
    alloc: Global,
    make: &mut M,
    predicate: TraitPredicate,
    under: Option<Args>,
    types: &[Ty],
) -> Result<Vec<Clause>, Stop>
    requires args { IsArgs (M.context make.old).trees predicate.trait_ref.args }
    requires fit { ArgumentsFit (M.context make.old) predicate.trait_ref }
    requires under { IfSome under (λ a. IsArgs (M.context make.old).trees a) }
    requires types { TypesFit (M.context make.old).trees types.now }
    ensures grows { Grows (M.context make.old) (M.context make.new) }
    ensures rest { M.rest make.new ≡ M.rest make.old }
    ensures sort { IfOk result (λ v. ClauseListFits (M.context make.new).trees v.items) }
    ensures trees { let ts = (M.context make.old).trees in IfOk result (λ v. clauses_at (M.context make.new).trees v.items ≡ map (said_of_part ts predicate under) (types_at ts types.now)) }
    ensures cause { IfErr result (IsUnmade (M.context make.old) (M.context make.new)) }
{
    let mut list = Vec::new(alloc);
    for ty in types {
        push_part(alloc, make, &mut list, predicate, under, *ty)?;
    }
    Ok(list)
}

/// Placeholders of a fresh universe for the variables of a binder of these kinds; nothing, where there are none.
fn enter_kinds<E: EvalCtxt>(ecx: &mut E, kinds: &[VarKind]) -> Result<Option<Args>, Stop>
    ensures kept { Keeps E.EvalCtxt ecx.old ecx.new }
    ensures state { OnOk result (E.state ecx.new ≡ with_rigid (E.state ecx.old) (kinds_listed kinds.now)) }
    ensures sort { IfOk result (λ o. IfSome o (λ a. IsArgs (E.context ecx.new).trees a)) }
    ensures values { IfOk result (λ o. values_at (E.context ecx.new).trees o ≡ entered_values (E.state ecx.old) (kinds_listed kinds.now)) }
    ensures cause { IfErr result (StopsSomehow E.EvalCtxt ecx.old ecx.new) }
{
    if kinds.is_empty() {
        return Ok(None);
    }
    Ok(Some(ecx.placeholder_args(kinds)?))
}

/// The parts meet what the predicate says, with placeholders of a fresh universe for their binder's variables. It is called in a probe.
fn try_parts<E: EvalCtxt>(
    alloc: Global,
    ecx: &mut E,
    env: ParamEnv,
    predicate: TraitPredicate,
    kinds: &[VarKind],
    types: &[Ty],
    source: CandidateSource,
) -> Result<Candidate, NoSolutionOrStop>
    requires goal { IsGoal trait_kind (E.context ecx.old) env predicate }
    requires types { TypesFit (E.context ecx.old).trees types.now }
    requires free { All (λ t. tree_holds is_param (ty_tree (E.context ecx.old).trees t) ≡ false) types.now }
    ensures kept { Keeps E.EvalCtxt ecx.old ecx.new }
    ensures told { TellsRule E.EvalCtxt ecx.old ecx.new (λ V. entered_rule (trait_goal V.trees env predicate) true source (kinds_listed kinds.now) (map (ty_tree V.trees) types.now)) result }
    ensures cause { IfErr result (by_stop (StopsOfItself E.EvalCtxt ecx.old ecx.new)) }
{
    let under = enter_kinds(ecx, kinds)?;
    let clauses = for_parts(alloc, ecx, predicate, under, types)?;
    let nested = GoalSource::ImplWhereBound;
    nest_and_respond(
        alloc,
        ecx,
        env,
        nested,
        clauses.as_slice(),
        source,
        Certainty::Yes,
    )
}

/// The parts meet what the predicate says, in a probe.
fn probe_parts<E: EvalCtxt>(
    alloc: Global,
    ecx: &mut E,
    env: ParamEnv,
    predicate: TraitPredicate,
    kinds: &[VarKind],
    types: &[Ty],
    source: CandidateSource,
) -> Result<Candidate, NoSolutionOrStop>
    requires goal { IsGoal trait_kind (E.context ecx.old) env predicate }
    requires types { TypesFit (E.context ecx.old).trees types.now }
    requires free { All (λ t. tree_holds is_param (ty_tree (E.context ecx.old).trees t) ≡ false) types.now }
    ensures { Considers E.EvalCtxt ecx.old ecx.new (λ V. entered_rule (trait_goal V.trees env predicate) true source (kinds_listed kinds.now) (map (ty_tree V.trees) types.now)) result }
{
    let probe = ecx.begin_probe(ProbeKind::Kept)?;
    let answer = try_parts(alloc, ecx, env, predicate, kinds, types, source);
    let usages = ecx.end_probe(probe);
    with_head_usages(answer, usages)
}

/// The kinds of the variables of a binder; none, where there is no binder. The only stop is `Stop::Memory`.
fn kinds_under(alloc: Global, cx: &Cx, under: Under) -> Result<Vec<VarKind>, Stop>
    requires { IsUnder cx.now.trees under }
    ensures kinds { IfOk result (λ v. kinds_listed v.items ≡ binder_kinds (variables cx.now.trees under)) }
    ensures cause { IfErr result (λ s. s ≡ Stop.Memory) }
{
    match under {
        Under::Binder(vars) => Ok(variable_kinds(alloc, cx, vars)?),
        Under::NoBinder => Ok(Vec::new(alloc)),
    }
}

/// The rule over a column of the tables, where it applies: the parts that the cell of the goal's self type asks about meet the goal's trait.
///
/// The state is left alike the one before. `NoSolution` comes where the rule doesn't apply, where the cell is refused, and where the
/// evaluator refuses; the stops are those of making nodes and lists, and the evaluator's.
pub(crate) fn consider_column<E: EvalCtxt>(
    alloc: Global,
    ecx: &mut E,
    env: ParamEnv,
    predicate: TraitPredicate,
    applies: bool,
    column: Column,
    source: CandidateSource,
) -> Result<Candidate, NoSolutionOrStop>
    requires goal { IsGoal trait_kind (E.context ecx.old) env predicate }
    requires known { let c = E.context ecx.old in applies ≡ true → is_excluded (cell column (row_of c (self_of (trait_goal c.trees env predicate)))) ≡ false }
    ensures { Considers E.EvalCtxt ecx.old ecx.new (λ V. let goal = trait_goal V.trees env predicate in parts_rule goal applies source (cell column (row_of V.context (self_of goal)))) result }
{
    if !applies {
        return Err(NoSolutionOrStop::NoSolution);
    }
    let ty = self_ty(ecx.cx(), predicate.trait_ref);
    let parts = constituents(alloc, ecx, column, ty)?;
    let kinds = kinds_under(alloc, ecx.cx(), parts.under)?;
    let types = parts.types.as_slice();
    probe_parts(alloc, ecx, env, predicate, kinds.as_slice(), types, source)
}
