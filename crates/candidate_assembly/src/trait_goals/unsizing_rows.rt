//! Which row a type unsizes by, and the candidates of that.

ghost use Rattle.std.specs.Prelude.{◌≡◌, [], ◌∷◌, Some, false, true, IfErr};
ghost use Rattle.ir_trees.specs.declared.decl.contents.LangItem.TheVariants as item;
ghost use Rattle.ir_trees.specs.declared.ir.heads.Head.TheVariants as H;
ghost use Rattle.ir_trees.specs.Declarations.Lookups.{adt_shape, definition};
ghost use Rattle.ir_trees.specs.Declarations.References.{ArgumentsFit};
ghost use Rattle.ir_trees.specs.Hierarchy.Supers.{after_first};
ghost use Rattle.ir_trees.specs.Syntax.Trees.{TypeKind, is_param, tree_holds};
ghost use Rattle.ir_trees.specs.Syntax.Words.{IsArgs, IsTy, args_forest, ty_tree};
ghost use Rattle.ir_trees.specs.Declarations.Worlds.{AdtSort, TraitSort, kinds_of, parameters};
ghost use Rattle.ir_trees.specs.Declarations.Context.{world};
ghost use Rattle.candidate_eval.specs.Dynamic.ObjectRequirements.{first_tree};
ghost use Rattle.candidate_eval.specs.Outcomes.ResponseTrees.{AreCandidates};
ghost use Rattle.candidate_eval.specs.Interface.Shown.{Keeps, view};
ghost use Rattle.candidate_assembly.specs.Rules.BuiltinRules.{self_of};
ghost use Rattle.candidate_assembly.specs.Rules.DynBounds.{is_dynamic};
ghost use Rattle.candidate_assembly.specs.Goals.KindBounds.{UnsizingList};
ghost use Rattle.candidate_assembly.specs.Goals.Kinds.{HasKnownSelfType};
ghost use Rattle.candidate_assembly.specs.Answers.Listing.{ToldList};
ghost use Rattle.candidate_assembly.specs.Goals.Standing.{BothAreValid, GoalIsValid};
ghost use Rattle.candidate_assembly.specs.Goals.TraitGoals.{is_item, trait_goal};
ghost use Rattle.candidate_assembly.specs.Goals.TraitRules.{trait_bounds, trait_rules};
ghost use Rattle.candidate_assembly.specs.Rules.Unsizing.{IsUnsizedTo, is_array, is_struct, row_to_adt, struct_to_struct, unsizing_row, unsizing_target};
ghost use Rattle.candidate_assembly.specs.declared.trait_goals.unsizing_rows.UnsizingRow.TheVariants as row;
ghost use Rattle.candidate_assembly.specs.Answers.Shown.{Appends, AppendsSome, Considers, ListsSome, StopsOfItself};
ghost use Rattle.candidate_assembly.specs.Goals.KindShown.{IsGoal, trait_kind};
ghost use Rattle.candidate_assembly.specs.Calls.Seen.{rules_by_row};

use crate::assembly::listing::{push_considered, recall_well_formed_table};
use crate::assembly::steps::forced_ambiguity;
use crate::trait_goals::builtin::{is_positive, self_head};
use crate::trait_goals::to_dyn::unsize_to_dyn;
use crate::trait_goals::unsizing::{unsize_array, unsize_struct};
use crate::trait_goals::upcasting::unsize_dyn_to_dyn;
use candidate_eval::eval::certainty::MaybeInfo;
use candidate_eval::eval::clauses::self_ty;
use candidate_eval::eval::context::{EvalCtxt, ProbeKind};
use candidate_eval::eval::refusal::NoSolutionOrStop;
use candidate_eval::eval::response::Candidate;
use ir_context::decl::Cx;
use ir_trees::decl::definition::AdtShape;
use ir_trees::ir::heads::{Builtin, Head, Variable, VariableSort};
use ir_trees::ir::kinds::{AdtId, Args, GenericArg, ParamEnv, TraitId, TraitPredicate, Ty, TyKind};
use ir_trees::ir::stop::Stop;
use ir_trees::ir::trees::Trees;
use std::alloc::Global;

/// How a type unsizes to another.
#[derive(Clone, Copy)]
pub(crate) enum UnsizingRow {
    /// Too little is known of the target.
    Ambiguous,
    DynToDyn,
    /// Any other type to `dyn`.
    ToDyn,
    ArrayToSlice,
    /// Both are this data type, which unsizes if it is a structure.
    Struct(AdtId),
    Nothing,
}

fn is_array(head: Head) -> bool
    ensures { result ≡ is_array head }
{
    matches!(head, Head::Builtin(Builtin::Array))
}

fn is_dynamic(head: Head) -> bool
    ensures { result ≡ is_dynamic head }
{
    matches!(head, Head::Dynamic)
}

/// The row to a data type: of the same data type alone.
fn row_to_adt(source: Head, to: AdtId) -> UnsizingRow
    ensures { result ≡ row_to_adt source to }
{
    match source {
        Head::Adt(from) => if from.0 == to.0 {
            UnsizingRow::Struct(from)
        } else {
            UnsizingRow::Nothing
        },
        _ => UnsizingRow::Nothing,
    }
}

/// The row by both heads.
fn unsizing_row(source: Head, target: Head) -> UnsizingRow
    ensures { result ≡ unsizing_row source target }
{
    match target {
        Head::Infer(
            Variable {
                sort: VariableSort::General,
                ..
            },
        ) => UnsizingRow::Ambiguous,
        Head::Dynamic => if is_dynamic(source) {
            UnsizingRow::DynToDyn
        } else {
            UnsizingRow::ToDyn
        },
        Head::Builtin(Builtin::Slice) => if is_array(source) {
            UnsizingRow::ArrayToSlice
        } else {
            UnsizingRow::Nothing
        },
        Head::Adt(to) => row_to_adt(source, to),
        _ => UnsizingRow::Nothing,
    }
}

fn is_struct(cx: &Cx, adt: AdtId) -> bool
    ensures { result ≡ is_struct (adt_shape (definition cx.now adt.0)) }
{
    matches!(cx.adt_shape(adt), Some(AdtShape::Struct))
}

/// The arguments of a data type.
fn adt_args(cx: &Cx, ty: Ty, adt: AdtId) -> Args
    requires sort { IsTy cx.now.trees ty }
    requires head { (ty_tree cx.now.trees ty).head ≡ H.Adt adt }
    ensures sort { IsArgs cx.now.trees result }
    ensures fit { parameters (world cx.now) AdtSort adt.0 ≡ Some (kinds_of (args_forest cx.now.trees result)) }
    ensures tree { ty_tree cx.now.trees ty ≡ record { head = H.Adt adt; children = args_forest cx.now.trees result } }
{
    let _ = adt;
    cx.recall_well_formed();
    match cx.kind(ty) {
        TyKind::Adt(_, args) => args,
        _ => unreachable!(),
    }
}

/// The head of a type.
fn head_of(cx: &Cx, ty: Ty) -> Head
    requires { IsTy cx.now.trees ty }
    ensures { result ≡ (ty_tree cx.now.trees ty).head }
{
    cx.head(ty.0)
}

/// The goal's self type and the target, in normal form, are the same structure: the candidate. It answers and stops as `unsize_struct`. The
/// state is left alike the one before.
fn consider_struct<E: EvalCtxt>(
    alloc: Global,
    ecx: &mut E,
    env: ParamEnv,
    predicate: TraitPredicate,
    adt: AdtId,
    target: Ty,
) -> Result<Candidate, NoSolutionOrStop>
    requires goal { IsGoal trait_kind (E.context ecx.old) env predicate }
    requires takes_a_type { parameters (world (E.context ecx.old)) TraitSort predicate.trait_ref.def_id.0 ≡ Some (TypeKind ∷ []) }
    requires source { (self_of (trait_goal (E.context ecx.old).trees env predicate)).head ≡ H.Adt adt }
    requires target { IsTy (E.context ecx.old).trees target }
    requires free { tree_holds is_param (ty_tree (E.context ecx.old).trees target) ≡ false }
    requires into { (ty_tree (E.context ecx.old).trees target).head ≡ H.Adt adt }
    ensures { Considers E.EvalCtxt ecx.old ecx.new (λ V. let goal = trait_goal V.trees env predicate in struct_to_struct V.context goal adt.0 (self_of goal) (ty_tree V.trees target)) result }
{
    let cx = ecx.cx();
    let from = adt_args(cx, self_ty(cx, predicate.trait_ref), adt);
    let to = adt_args(cx, target, adt);
    unsize_struct(alloc, ecx, env, predicate, adt, from, to, target)
}

/// Adds the candidate where the goal's self type and the target, in normal form, are the same data type, if that is a structure. It stops as
/// `unsize_struct`, and with `Stop::Memory` where the list can't grow. The state is left alike the one before.
fn unsize_same<E: EvalCtxt>(
    alloc: Global,
    ecx: &mut E,
    env: ParamEnv,
    predicate: TraitPredicate,
    adt: AdtId,
    target: Ty,
    candidates: &mut Vec<Candidate>,
) -> Result<(), Stop>
    requires goal { IsGoal trait_kind (E.context ecx.old) env predicate }
    requires takes_a_type { parameters (world (E.context ecx.old)) TraitSort predicate.trait_ref.def_id.0 ≡ Some (TypeKind ∷ []) }
    requires source { (self_of (trait_goal (E.context ecx.old).trees env predicate)).head ≡ H.Adt adt }
    requires target { IsTy (E.context ecx.old).trees target }
    requires free { tree_holds is_param (ty_tree (E.context ecx.old).trees target) ≡ false }
    requires into { (ty_tree (E.context ecx.old).trees target).head ≡ H.Adt adt }
    requires candidates { AreCandidates (E.context ecx.old).trees candidates.old.items }
    ensures { Appends E.EvalCtxt ecx.old ecx.new candidates.old.items candidates.new.items (λ V. rules_by_row V env predicate target (row.Struct adt)) result }
{
    if !is_struct(ecx.cx(), adt) {
        return Ok(());
    }
    let answer = consider_struct(alloc, ecx, env, predicate, adt, target);
    push_considered(candidates, answer)
}

/// Adds the candidates of the row for a target in normal form.
///
/// It stops at the first rule that stops, with that stop; else the stops are those of making nodes and lists, and the evaluator's. The state
/// is left alike the one before.
fn unsize_by_row<E: EvalCtxt>(
    alloc: Global,
    ecx: &mut E,
    env: ParamEnv,
    predicate: TraitPredicate,
    target: Ty,
    candidates: &mut Vec<Candidate>,
) -> Result<(), Stop>
    requires goal { IsGoal trait_kind (E.context ecx.old) env predicate }
    requires takes_a_type { parameters (world (E.context ecx.old)) TraitSort predicate.trait_ref.def_id.0 ≡ Some (TypeKind ∷ []) }
    requires target { IsTy (E.context ecx.old).trees target }
    requires stands { let V = view E.EvalCtxt ecx.old in BothAreValid trait_rules V.state (trait_goal V.trees env predicate) (ty_tree V.trees target) }
    requires candidates { AreCandidates (E.context ecx.old).trees candidates.old.items }
    ensures { AppendsSome E.EvalCtxt ecx.old ecx.new candidates.new.items (λ V. IsUnsizedTo V.judge V.context V.state (trait_goal V.trees env predicate) (ty_tree V.trees target) candidates.old.items) result }
{
    let cx = ecx.cx();
    match unsizing_row(self_head(cx, predicate), head_of(cx, target)) {
        UnsizingRow::Ambiguous => {
            let answer = forced_ambiguity(alloc, ecx, env, MaybeInfo::AMBIGUOUS);
            push_considered(candidates, answer)
        }
        UnsizingRow::DynToDyn => {
            unsize_dyn_to_dyn(alloc, ecx, env, predicate, target, candidates)
        }
        UnsizingRow::ToDyn => unsize_to_dyn(alloc, ecx, env, predicate, target, candidates),
        UnsizingRow::ArrayToSlice => {
            let answer = unsize_array(alloc, ecx, env, predicate, target);
            push_considered(candidates, answer)
        }
        UnsizingRow::Struct(adt) => {
            unsize_same(alloc, ecx, env, predicate, adt, target, candidates)
        }
        UnsizingRow::Nothing => Ok(()),
    }
}

/// The candidates of the row for a target in normal form. As `unsize_by_row`.
fn unsize_to<E: EvalCtxt>(
    alloc: Global,
    ecx: &mut E,
    env: ParamEnv,
    predicate: TraitPredicate,
    target: Ty,
) -> Result<Vec<Candidate>, Stop>
    requires goal { IsGoal trait_kind (E.context ecx.old) env predicate }
    requires takes_a_type { parameters (world (E.context ecx.old)) TraitSort predicate.trait_ref.def_id.0 ≡ Some (TypeKind ∷ []) }
    requires target { IsTy (E.context ecx.old).trees target }
    requires stands { let V = view E.EvalCtxt ecx.old in BothAreValid trait_rules V.state (trait_goal V.trees env predicate) (ty_tree V.trees target) }
    ensures { ListsSome E.EvalCtxt ecx.old ecx.new (λ v. v.items) (λ V. IsUnsizedTo V.judge V.context V.state (trait_goal V.trees env predicate) (ty_tree V.trees target) []) result }
{
    let mut candidates = Vec::new(alloc);
    unsize_by_row(alloc, ecx, env, predicate, target, &mut candidates)?;
    Ok(candidates)
}

/// The candidates for the target's normal form, with which there are none where that is refused. It is called in a probe.
fn unsize_normalized<E: EvalCtxt>(
    alloc: Global,
    ecx: &mut E,
    env: ParamEnv,
    predicate: TraitPredicate,
    target: Ty,
) -> Result<Vec<Candidate>, Stop>
    requires goal { IsGoal trait_kind (E.context ecx.old) env predicate }
    requires takes_a_type { parameters (world (E.context ecx.old)) TraitSort predicate.trait_ref.def_id.0 ≡ Some (TypeKind ∷ []) }
    requires stands { GoalIsValid trait_rules (E.state ecx.old) (trait_goal (E.context ecx.old).trees env predicate) }
    requires target { IsTy (E.context ecx.old).trees target }
    requires is_target { unsizing_target (trait_goal (E.context ecx.old).trees env predicate) ≡ Some (ty_tree (E.context ecx.old).trees target) }
    ensures kept { Keeps E.EvalCtxt ecx.old ecx.new }
    ensures told { let V = view E.EvalCtxt ecx.old in ToldList (λ v. v.items) (E.context ecx.new).trees (UnsizingList trait_rules trait_bounds V.judge V.context V.state (trait_goal V.trees env predicate)) result }
    ensures cause { IfErr result (StopsOfItself E.EvalCtxt ecx.old ecx.new) }
{
    recall_well_formed_table(ecx.cx());
    match ecx.structurally_normalize_ty(env, target) {
        Ok(target) => {
            recall_well_formed_table(ecx.cx());
            unsize_to(alloc, ecx, env, predicate, target)
        }
        Err(NoSolutionOrStop::NoSolution) => Ok(Vec::new(alloc)),
        Err(NoSolutionOrStop::Stop(stop)) => Err(stop),
    }
}

/// The trait for unsizing takes a type.
fn recall_trait_takes_a_type(cx: &Cx, trait_id: TraitId)
    requires { is_item cx.now item.Unsize trait_id.0 ≡ true }
    ensures { parameters (world cx.now) TraitSort trait_id.0 ≡ Some (TypeKind ∷ []) }
{
    let _ = trait_id;
    cx.recall_well_formed_table();
}

/// The type that the goal's self type is to become: the trait's one argument.
fn unsizing_target(cx: &Cx, predicate: TraitPredicate) -> Ty
    requires args { IsArgs cx.now.trees predicate.trait_ref.args }
    requires fit { ArgumentsFit cx.now predicate.trait_ref }
    requires takes_a_type { parameters (world cx.now) TraitSort predicate.trait_ref.def_id.0 ≡ Some (TypeKind ∷ []) }
    ensures sort { IsTy cx.now.trees result }
    ensures tree { ty_tree cx.now.trees result ≡ first_tree (after_first (args_forest cx.now.trees predicate.trait_ref.args)) }
{
    match cx.args(predicate.trait_ref.args)[1] {
        GenericArg::Ty(ty) => ty,
        _ => unreachable!(),
    }
}

/// The candidates by unsizing: the target's normal form is asked for in a probe, and the first row that applies gives the rules. A negative
/// goal has none, nor has one whose target has no normal form.
///
/// It stops at the first rule that stops, with that stop; else the stops are those of making nodes and lists, and the evaluator's. The state
/// is left alike the one before.
pub(crate) fn consider_unsizing<E: EvalCtxt>(
    alloc: Global,
    ecx: &mut E,
    env: ParamEnv,
    predicate: TraitPredicate,
) -> Result<Vec<Candidate>, Stop>
    requires goal { IsGoal trait_kind (E.context ecx.old) env predicate }
    requires typed { HasKnownSelfType trait_rules (E.context ecx.old) (trait_goal (E.context ecx.old).trees env predicate) }
    requires stands { GoalIsValid trait_rules (E.state ecx.old) (trait_goal (E.context ecx.old).trees env predicate) }
    requires unsize { is_item (E.context ecx.old) item.Unsize predicate.trait_ref.def_id.0 ≡ true }
    ensures { ListsSome E.EvalCtxt ecx.old ecx.new (λ v. v.items) (λ V. UnsizingList trait_rules trait_bounds V.judge V.context V.state (trait_goal V.trees env predicate)) result }
{
    recall_well_formed_table(ecx.cx());
    if !is_positive(predicate.polarity) {
        return Ok(Vec::new(alloc));
    }
    recall_trait_takes_a_type(ecx.cx(), predicate.trait_ref.def_id);
    let target = unsizing_target(ecx.cx(), predicate);
    let probe = ecx.begin_probe(ProbeKind::Kept)?;
    let answer = unsize_normalized(alloc, ecx, env, predicate, target);
    let _usages = ecx.end_probe(probe);
    answer
}
