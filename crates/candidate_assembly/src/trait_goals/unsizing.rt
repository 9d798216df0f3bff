//! Unsizing: how a value of one type becomes one of another whose size is known at run time alone.

ghost use Rattle.std.specs.Prelude.{◌≡◌, [], ◌∷◌, Some, false, length, true, map, IfErr, IfOk, IfSome};
ghost use Rattle.ir_trees.specs.Declarations.Context.{Grows, world};
ghost use Rattle.ir_trees.specs.Declarations.Declaring.{adt_at};
ghost use Rattle.ir_trees.specs.Hierarchy.Elaboration.{number_listed};
ghost use Rattle.ir_trees.specs.Instantiation.Folding.{lacks_argument};
ghost use Rattle.ir_trees.specs.Declarations.Lookups.{maybe};
ghost use Rattle.ir_trees.specs.Syntax.Trees.{TypeKind, is_param, none, tree_holds};
ghost use Rattle.ir_trees.specs.Validity.WellFormed.{TypesFit};
ghost use Rattle.ir_trees.specs.Syntax.Words.{ClauseListFits, IsArgs, IsClause, IsParamEnv, IsTy, args_forest, clause_tree, env_forest, ty_tree};
ghost use Rattle.ir_trees.specs.Declarations.Worlds.{AdtSort, TraitSort, kinds_of, parameters};
ghost use Rattle.ir_trees.specs.declared.ir.heads.Builtin.TheVariants as B;
ghost use Rattle.ir_trees.specs.declared.ir.heads.Head.TheVariants as H;
ghost use Rattle.ir_trees.specs.declared.ir.kinds.PredicatePolarity.TheVariants as Pol;
ghost use Rattle.candidate_eval.specs.Interface.Accounts.{by_stop};
ghost use Rattle.candidate_eval.specs.Interface.Evaluators.{HasTree};
ghost use Rattle.candidate_eval.specs.Interface.Unmade.{IsUnmade};
ghost use Rattle.candidate_eval.specs.Dynamic.ObjectRequirements.{first_tree};
ghost use Rattle.candidate_eval.specs.Builtins.Tables.{last_of, optional};
ghost use Rattle.candidate_eval.specs.Interface.Shown.{Keeps, view};
ghost use Rattle.candidate_assembly.specs.Rules.BuiltinRules.{holds_of, self_of, pair_of};
ghost use Rattle.candidate_assembly.specs.Answers.Telling.{HaveNoParameter};
ghost use Rattle.candidate_assembly.specs.Goals.TraitGoals.{trait_goal};
ghost use Rattle.candidate_assembly.specs.Rules.Unsizing.{array_to_slice, equal_rule, has_elements, mixed, mixed_list, struct_to_struct, tail_of, unsizing_parameters};
ghost use Rattle.candidate_assembly.specs.Answers.Shown.{Considers, StopsOfItself, TellsRule};
ghost use Rattle.candidate_assembly.specs.Goals.KindShown.{IsGoal, trait_kind};
ghost use Rattle.candidate_assembly.specs.Calls.Seen.{mixed_struct, tail_unsizes};

use crate::assembly::steps::{nest_and_respond, with_head_usages};
use candidate_eval::eval::certainty::Certainty;
use candidate_eval::eval::clauses::self_ty;
use candidate_eval::eval::context::{EvalCtxt, ProbeKind};
use candidate_eval::eval::refusal::NoSolutionOrStop;
use candidate_eval::eval::response::Candidate;
use candidate_eval::eval::source::{BuiltinImplSource, CandidateSource};
use ir_context::decl::Cx;
use ir_context::decl::make::{Build, Make};
use ir_folds::decl::subst::subst;
use ir_trees::ir::kinds::{
    AdtId, Args, Binder, Clause, ClauseKind, GenericArg, GoalSource, ParamEnv, PredicatePolarity,
    TraitId, TraitPredicate, TraitRef, Ty, TyKind,
};
use ir_trees::ir::stop::Stop;
use ir_trees::ir::trees::Trees;
use std::alloc::{AllocError, Global};

/// The candidate where two types are the same and the clauses hold. It is called in a probe.
fn try_equal<E: EvalCtxt>(
    alloc: Global,
    ecx: &mut E,
    env: ParamEnv,
    left: Ty,
    right: Ty,
    nested: &[Clause],
) -> Result<Candidate, NoSolutionOrStop>
    requires env { IsParamEnv (E.context ecx.old).trees env }
    requires left { IsTy (E.context ecx.old).trees left }
    requires right { IsTy (E.context ecx.old).trees right }
    requires nested { ClauseListFits (E.context ecx.old).trees nested.now }
    requires free { HaveNoParameter (E.context ecx.old).trees nested.now }
    requires left_free { tree_holds is_param (ty_tree (E.context ecx.old).trees left) ≡ false }
    requires right_free { tree_holds is_param (ty_tree (E.context ecx.old).trees right) ≡ false }
    ensures kept { Keeps E.EvalCtxt ecx.old ecx.new }
    ensures told { TellsRule E.EvalCtxt ecx.old ecx.new (λ V. equal_rule (env_forest V.trees env) (ty_tree V.trees left) (ty_tree V.trees right) (map (clause_tree V.trees) nested.now)) result }
    ensures cause { IfErr result (by_stop (StopsOfItself E.EvalCtxt ecx.old ecx.new)) }
{
    ecx.eq(env, GenericArg::Ty(left), GenericArg::Ty(right))?;
    let source = CandidateSource::BuiltinImpl(BuiltinImplSource::Misc);
    let nested_source = GoalSource::ImplWhereBound;
    nest_and_respond(
        alloc,
        ecx,
        env,
        nested_source,
        nested,
        source,
        Certainty::Yes,
    )
}

/// The candidate where two types are the same and the clauses hold, in a probe.
fn consider_equal<E: EvalCtxt>(
    alloc: Global,
    ecx: &mut E,
    env: ParamEnv,
    left: Ty,
    right: Ty,
    nested: &[Clause],
) -> Result<Candidate, NoSolutionOrStop>
    requires env { IsParamEnv (E.context ecx.old).trees env }
    requires left { IsTy (E.context ecx.old).trees left }
    requires right { IsTy (E.context ecx.old).trees right }
    requires nested { ClauseListFits (E.context ecx.old).trees nested.now }
    requires free { HaveNoParameter (E.context ecx.old).trees nested.now }
    requires left_free { tree_holds is_param (ty_tree (E.context ecx.old).trees left) ≡ false }
    requires right_free { tree_holds is_param (ty_tree (E.context ecx.old).trees right) ≡ false }
    ensures { Considers E.EvalCtxt ecx.old ecx.new (λ V. equal_rule (env_forest V.trees env) (ty_tree V.trees left) (ty_tree V.trees right) (map (clause_tree V.trees) nested.now)) result }
{
    let probe = ecx.begin_probe(ProbeKind::Kept)?;
    let answer = try_equal(alloc, ecx, env, left, right, nested);
    let usages = ecx.end_probe(probe);
    with_head_usages(answer, usages)
}

/// The type of the elements of an array or a slice.
fn element(cx: &Cx, ty: Ty) -> Ty
    requires sort { IsTy cx.now.trees ty }
    requires elements { has_elements (ty_tree cx.now.trees ty).head ≡ true }
    ensures sort { IsTy cx.now.trees result }
    ensures tree { ty_tree cx.now.trees result ≡ first_tree (ty_tree cx.now.trees ty).children }
{
    match cx.kind(ty) {
        TyKind::Array(element, _) | TyKind::Slice(element) => element,
        _ => unreachable!(),
    }
}

/// The goal's self type, an array, unsizes to the target, a slice in normal form: they have the same elements.
///
/// The state is left alike the one before. `NoSolution` comes where the elements can't be equated, and where the evaluator refuses; the stops
/// are the evaluator's.
pub(crate) fn unsize_array<E: EvalCtxt>(
    alloc: Global,
    ecx: &mut E,
    env: ParamEnv,
    predicate: TraitPredicate,
    target: Ty,
) -> Result<Candidate, NoSolutionOrStop>
    requires goal { IsGoal trait_kind (E.context ecx.old) env predicate }
    requires target { IsTy (E.context ecx.old).trees target }
    requires free { tree_holds is_param (ty_tree (E.context ecx.old).trees target) ≡ false }
    requires array { (self_of (trait_goal (E.context ecx.old).trees env predicate)).head ≡ H.Builtin B.Array }
    requires slice { (ty_tree (E.context ecx.old).trees target).head ≡ H.Builtin B.Slice }
    ensures { Considers E.EvalCtxt ecx.old ecx.new (λ V. let goal = trait_goal V.trees env predicate in array_to_slice goal (self_of goal) (ty_tree V.trees target)) result }
{
    let ty = self_ty(ecx.cx(), predicate.trait_ref);
    let left = element(ecx.cx(), ty);
    let right = element(ecx.cx(), target);
    consider_equal(alloc, ecx, env, left, right, &[])
}

/// That the one type unsizes to the other, as a clause under an empty binder. `Stop::Memory` comes where a growth was refused,
/// `Stop::NodesFull` where a node was not made.
fn unsizes<M: Make>(make: &mut M, unsize: TraitId, from: Ty, to: Ty) -> Result<Clause, Stop>
    requires from { IsTy (M.context make.old).trees from }
    requires to { IsTy (M.context make.old).trees to }
    requires takes_a_type { parameters (world (M.context make.old)) TraitSort unsize.0 ≡ Some (TypeKind ∷ []) }
    ensures grows { Grows (M.context make.old) (M.context make.new) }
    ensures rest { M.rest make.new ≡ M.rest make.old }
    ensures sort { IfOk result (λ x. IsClause (M.context make.new).trees x) }
    ensures tree { let ts = (M.context make.old).trees in IfOk result (λ x. clause_tree (M.context make.new).trees x ≡ holds_of unsize Pol.Positive none (pair_of (ty_tree ts from) (ty_tree ts to))) }
    ensures cause { IfErr result (IsUnmade (M.context make.old) (M.context make.new)) }
{
    let args = make.mk_args(&[GenericArg::Ty(from), GenericArg::Ty(to)])?;
    let vars = make.mk_vars(&[])?;
    make.mk_clause(Binder {
        vars,
        value: ClauseKind::Trait(TraitPredicate {
            trait_ref: TraitRef {
                def_id: unsize,
                args,
            },
            polarity: PredicatePolarity::Positive,
        }),
    })
}

/// The type of the last field of the structure, as it is declared.
fn last_field(cx: &Cx, adt: AdtId, args: Args) -> Option<Ty>
    requires { parameters (world cx.now) AdtSort adt.0 ≡ Some (kinds_of (args_forest cx.now.trees args)) }
    ensures is { optional result ≡ last_of (maybe [] (λ a. a.fields) (adt_at cx.now adt.0)) }
    ensures declared { TypesFit cx.now.trees (maybe [] (λ a. a.fields) (adt_at cx.now adt.0)) }
    ensures sort { IfSome result (λ t. IsTy cx.now.trees t) }
    ensures has { IfSome result (λ t. tree_holds (lacks_argument (args_forest cx.now.trees args)) (ty_tree cx.now.trees t) ≡ false) }
{
    match cx.fields_of(adt, args) {
        [.., last] => Some(*last),
        [] => None,
    }
}

/// The type of the last field of the structure with these arguments; an error, where there is no field. `Stop::Memory` comes where a
/// growth was refused, `Stop::NodesFull` where a node was not made.
fn tail<M: Make>(alloc: Global, make: &mut M, adt: AdtId, args: Args) -> Result<Ty, Stop>
    requires args { IsArgs (M.context make.old).trees args }
    requires fit { parameters (world (M.context make.old)) AdtSort adt.0 ≡ Some (kinds_of (args_forest (M.context make.old).trees args)) }
    ensures grows { Grows (M.context make.old) (M.context make.new) }
    ensures rest { M.rest make.new ≡ M.rest make.old }
    ensures sort { IfOk result (λ t. IsTy (M.context make.new).trees t) }
    ensures tree { let c = M.context make.old in IfOk result (λ t. ty_tree (M.context make.new).trees t ≡ tail_of c adt.0 (args_forest c.trees args)) }
    ensures declared { TypesFit (M.context make.old).trees (maybe [] (λ a. a.fields) (adt_at (M.context make.old) adt.0)) }
    ensures cause { IfErr result (IsUnmade (M.context make.old) (M.context make.new)) }
{
    match last_field(make.cx(), adt, args) {
        Some(ty) => subst(alloc, make, ty, args),
        None => make.mk_ty(TyKind::Error),
    }
}

/// That the last field of the structure with the one list of arguments unsizes to that with the other, as a clause under an empty binder.
/// It stops as `tail` and `unsizes` do.
fn tails_unsize<M: Make>(
    alloc: Global,
    make: &mut M,
    unsize: TraitId,
    adt: AdtId,
    from: Args,
    to: Args,
) -> Result<Clause, Stop>
    requires from { IsArgs (M.context make.old).trees from }
    requires to { IsArgs (M.context make.old).trees to }
    requires from_fit { parameters (world (M.context make.old)) AdtSort adt.0 ≡ Some (kinds_of (args_forest (M.context make.old).trees from)) }
    requires to_fit { parameters (world (M.context make.old)) AdtSort adt.0 ≡ Some (kinds_of (args_forest (M.context make.old).trees to)) }
    requires takes_a_type { parameters (world (M.context make.old)) TraitSort unsize.0 ≡ Some (TypeKind ∷ []) }
    ensures grows { Grows (M.context make.old) (M.context make.new) }
    ensures rest { M.rest make.new ≡ M.rest make.old }
    ensures sort { IfOk result (λ x. IsClause (M.context make.new).trees x) }
    ensures tree { let c = M.context make.old in IfOk result (λ x. clause_tree (M.context make.new).trees x ≡ tail_unsizes c unsize adt from to) }
    ensures cause { IfErr result (IsUnmade (M.context make.old) (M.context make.new)) }
{
    let left = tail(alloc, make, adt, from)?;
    let right = tail(alloc, make, adt, to)?;
    unsizes(make, unsize, left, right)
}

fn is_listed(numbers: &[u32], number: usize) -> bool
    ensures { result ≡ number_listed numbers.now number }
{
    numbers.iter().any(|listed| *listed as usize == number)
}

/// The first arguments, with those of these numbers from the second.
fn mixed_list(
    alloc: Global,
    changed: &[u32],
    first: &[GenericArg],
    second: &[GenericArg],
) -> Result<Vec<GenericArg>, AllocError>
    requires { length first.now ≡ length second.now }
    ensures { IfOk result (λ v. v.items ≡ mixed_list changed.now 0 first.now second.now) }
{
    let mut list = Vec::new(alloc);
    for i in 0..first.len() {
        let arg = if is_listed(changed, i) {
            second[i]
        } else {
            first[i]
        };
        list.push(arg)?;
    }
    Ok(list)
}

/// The structure with the first arguments, but for the parameters that unsizing may change: their arguments are from the second.
/// `Stop::Memory` comes where a growth was refused, `Stop::NodesFull` where a node was not made.
fn mixed_type<M: Make>(
    alloc: Global,
    make: &mut M,
    adt: AdtId,
    first: Args,
    second: Args,
) -> Result<Ty, Stop>
    requires first { IsArgs (M.context make.old).trees first }
    requires second { IsArgs (M.context make.old).trees second }
    requires first_fit { parameters (world (M.context make.old)) AdtSort adt.0 ≡ Some (kinds_of (args_forest (M.context make.old).trees first)) }
    requires second_fit { parameters (world (M.context make.old)) AdtSort adt.0 ≡ Some (kinds_of (args_forest (M.context make.old).trees second)) }
    ensures grows { Grows (M.context make.old) (M.context make.new) }
    ensures rest { M.rest make.new ≡ M.rest make.old }
    ensures sort { IfOk result (λ t. IsTy (M.context make.new).trees t) }
    ensures tree { let c = M.context make.old in IfOk result (λ t. ty_tree (M.context make.new).trees t ≡ mixed_struct c adt first second) }
    ensures cause { IfErr result (IsUnmade (M.context make.old) (M.context make.new)) }
{
    let cx = make.cx();
    let changed = cx.unsizing_parameters(adt);
    let list = mixed_list(alloc, changed, cx.args(first), cx.args(second))?;
    let args = make.mk_args(list.as_slice())?;
    make.mk_ty(TyKind::Adt(adt, args))
}

/// The structure by its unsizing parameters, and that its last field unsizes. It stops as `mixed_type` and `tails_unsize` do.
fn struct_parts<M: Make>(
    alloc: Global,
    make: &mut M,
    unsize: TraitId,
    adt: AdtId,
    from: Args,
    to: Args,
) -> Result<(Ty, Clause), Stop>
    requires from { IsArgs (M.context make.old).trees from }
    requires to { IsArgs (M.context make.old).trees to }
    requires from_fit { parameters (world (M.context make.old)) AdtSort adt.0 ≡ Some (kinds_of (args_forest (M.context make.old).trees from)) }
    requires to_fit { parameters (world (M.context make.old)) AdtSort adt.0 ≡ Some (kinds_of (args_forest (M.context make.old).trees to)) }
    requires takes_a_type { parameters (world (M.context make.old)) TraitSort unsize.0 ≡ Some (TypeKind ∷ []) }
    ensures grows { Grows (M.context make.old) (M.context make.new) }
    ensures rest { M.rest make.new ≡ M.rest make.old }
    ensures mixed { let c = M.context make.old in let us = (M.context make.new).trees in IfOk result (λ r. HasTree us r.0 (mixed_struct c adt from to)) }
    ensures clause { let c = M.context make.old in let us = (M.context make.new).trees in IfOk result (λ r. IsClause us r.1 × (clause_tree us r.1 ≡ tail_unsizes c unsize adt from to)) }
    ensures cause { IfErr result (IsUnmade (M.context make.old) (M.context make.new)) }
{
    let clause = tails_unsize(alloc, make, unsize, adt, from, to)?;
    let mixed = mixed_type(alloc, make, adt, from, to)?;
    Ok((mixed, clause))
}

/// The goal's self type, a structure with the first arguments, unsizes to the target, the same with the others: with the target's arguments
/// for its unsizing parameters it is the target, and its last field unsizes to the target's.
///
/// The state is left alike the one before. `NoSolution` comes where the structure has no unsizing parameters, where the types can't be
/// equated, and where the evaluator refuses; the stops are those of making nodes and lists, and the evaluator's.
pub(crate) fn unsize_struct<E: EvalCtxt>(
    alloc: Global,
    ecx: &mut E,
    env: ParamEnv,
    predicate: TraitPredicate,
    adt: AdtId,
    from: Args,
    to: Args,
    target: Ty,
) -> Result<Candidate, NoSolutionOrStop>
    requires goal { IsGoal trait_kind (E.context ecx.old) env predicate }
    requires takes_a_type { parameters (world (E.context ecx.old)) TraitSort predicate.trait_ref.def_id.0 ≡ Some (TypeKind ∷ []) }
    requires from { IsArgs (E.context ecx.old).trees from }
    requires to { IsArgs (E.context ecx.old).trees to }
    requires from_fit { parameters (world (E.context ecx.old)) AdtSort adt.0 ≡ Some (kinds_of (args_forest (E.context ecx.old).trees from)) }
    requires to_fit { parameters (world (E.context ecx.old)) AdtSort adt.0 ≡ Some (kinds_of (args_forest (E.context ecx.old).trees to)) }
    requires source { let V = view E.EvalCtxt ecx.old in self_of (trait_goal V.trees env predicate) ≡ record { head = H.Adt adt; children = args_forest V.trees from } }
    requires target { IsTy (E.context ecx.old).trees target }
    requires free { tree_holds is_param (ty_tree (E.context ecx.old).trees target) ≡ false }
    requires into { ty_tree (E.context ecx.old).trees target ≡ record { head = H.Adt adt; children = args_forest (E.context ecx.old).trees to } }
    ensures { Considers E.EvalCtxt ecx.old ecx.new (λ V. let goal = trait_goal V.trees env predicate in struct_to_struct V.context goal adt.0 (self_of goal) (ty_tree V.trees target)) result }
{
    if ecx.cx().unsizing_parameters(adt).is_empty() {
        return Err(NoSolutionOrStop::NoSolution);
    }
    let unsize = predicate.trait_ref.def_id;
    let (mixed, clause) = struct_parts(alloc, ecx, unsize, adt, from, to)?;
    consider_equal(alloc, ecx, env, mixed, target, &[clause])
}
