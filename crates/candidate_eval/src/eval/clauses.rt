//! What is read of clauses, and clauses that are made.

ghost use Rattle.std.specs.Prelude.{◌≡◌, ◌+◌, ◌≤◌, false, true, None, Some, MatchOption, IfOk, IfErr, IfSome};
ghost use Rattle.ir_trees.specs.Declarations.Context.{world};
ghost use Rattle.ir_trees.specs.Instantiation.Folding.{lacks_argument, substituted, substituted_tree};
ghost use Rattle.ir_trees.specs.Instantiation.Results.{MapsMembers, StopsOver, SubstitutesOn, row_at, tree_in};
ghost use Rattle.ir_trees.specs.Syntax.Nodes.{kind_at, tree_at};
ghost use Rattle.ir_trees.specs.Declarations.References.{ArgumentsFit, Takes};
ghost use Rattle.ir_trees.specs.Syntax.Trees.{Forest, height, heights, is_list_kind, is_param, tree_holds};
ghost use Rattle.ir_trees.specs.Syntax.Words.{IsArgs, IsClause, IsTy, ClauseFits, args_forest, clause_kind_tree, clause_tree, ty_tree};
ghost use Rattle.candidate_eval.specs.Interface.Unmade.{IsUnmade};
ghost use Rattle.candidate_eval.specs.Dynamic.ObjectRequirements.{arguments_of, first_tree, goals_in, trait_fact, trait_said};
ghost use Rattle.candidate_eval.specs.Interface.Shown.{Keeps, view};

use crate::eval::context::EvalCtxt;
use crate::structural::making::first_type;
use ir_context::decl::Cx;
use ir_context::decl::make::Make;
use ir_folds::decl::subst::subst;
use ir_trees::ir::kinds::{
    Args, Binder, Clause, ClauseKind, Goal, ParamEnv, TraitPredicate, TraitRef, Ty, Vars,
};
use ir_trees::ir::numbered::Numbered;
use ir_trees::ir::stop::Stop;
use ir_trees::ir::trees::Trees;
use std::alloc::Global;

/// What the clause says of a trait, that it holds or that it does not; `None` if it says something else. The reference is the one that
/// stands under the clause's binder.
pub fn predicate_in(cx: &Cx, clause: Clause) -> Option<TraitPredicate>
    requires { IsClause cx.now.trees clause }
    ensures said { MatchOption result (trait_said (clause_tree cx.now.trees clause).head ≡ None) (λ p. trait_said (clause_tree cx.now.trees clause).head ≡ Some (p.trait_ref.def_id, p.polarity)) }
    ensures fits { let ts = cx.now.trees in IfSome result (λ p. IsArgs ts p.trait_ref.args × ArgumentsFit cx.now p.trait_ref × (arguments_of (clause_tree ts clause) ≡ args_forest ts p.trait_ref.args)) }
{
    cx.recall_well_formed();
    match cx.clause(clause).value {
        ClauseKind::Trait(predicate) => Some(predicate),
        ClauseKind::Projection(_)
        | ClauseKind::TypeOutlives(_, _)
        | ClauseKind::RegionOutlives(_, _)
        | ClauseKind::AliasRelate(_, _)
        | ClauseKind::ConstEquate(_, _) => None,
    }
}

/// The self type of the reference: the first of its arguments.
pub fn self_ty(cx: &Cx, trait_ref: TraitRef) -> Ty
    requires args { IsArgs cx.now.trees trait_ref.args }
    requires fit { ArgumentsFit cx.now trait_ref }
    ensures sort { IsTy cx.now.trees result }
    ensures tree { ty_tree cx.now.trees result ≡ first_tree (args_forest cx.now.trees trait_ref.args) }
{
    match first_type(cx.args(trait_ref.args)) {
        Some(ty) => ty,
        None => unreachable!(),
    }
}

/// The clauses as goals in the environment. The only stop is `Stop::Memory`, where the list can't grow.
pub fn goals(alloc: Global, env: ParamEnv, clauses: &[Clause]) -> Result<Vec<Goal<Clause>>, Stop>
    ensures are { IfOk result (λ v. v.items ≡ goals_in env clauses.now) }
    ensures cause { IfErr result (λ s. s ≡ Stop.Memory) }
{
    let mut list = Vec::new(alloc);
    for clause in clauses {
        list.push(Goal {
            param_env: env,
            predicate: *clause,
        })?;
    }
    Ok(list)
}

/// The clause that says the predicate, under a binder of these variables. It stops as `mk_clause` does.
pub fn trait_clause<E: EvalCtxt>(
    ecx: &mut E,
    vars: Vars,
    predicate: TraitPredicate,
) -> Result<Clause, Stop>
    requires fits { ClauseFits (E.context ecx.old).trees (trait_fact vars predicate) }
    requires takes { Takes (world (E.context ecx.old)) (clause_kind_tree (E.context ecx.old).trees (trait_fact vars predicate)) }
    ensures kept { Keeps E.EvalCtxt ecx.old ecx.new }
    ensures same { E.state ecx.new ≡ E.state ecx.old }
    ensures sort { IfOk result (λ x. IsClause (E.context ecx.new).trees x) }
    ensures tree { IfOk result (λ x. clause_tree (E.context ecx.new).trees x ≡ clause_kind_tree (E.context ecx.old).trees (trait_fact vars predicate)) }
    ensures cause { IfErr result (IsUnmade (E.context ecx.old) (E.context ecx.new)) }
{
    ecx.mk_clause(Binder {
        vars,
        value: ClauseKind::Trait(predicate),
    })
}

/// What is given, with the arguments in the place of the parameters, by `subst`; it stops as that does. The state stays.
pub fn substitute<N: Numbered, E: EvalCtxt>(
    alloc: Global,
    ecx: &mut E,
    of: N,
    args: Args,
) -> Result<N, Stop>
    requires value { kind_at (E.context ecx.old).trees (N.number_of of) ≡ N.kind of }
    requires args { IsArgs (E.context ecx.old).trees args }
    requires there { let V = view E.EvalCtxt ecx.old in tree_holds (lacks_argument (args_forest V.trees args)) (tree_at V.trees (N.number_of of)) ≡ false }
    ensures kept { Keeps E.EvalCtxt ecx.old ecx.new }
    ensures same { E.state ecx.new ≡ E.state ecx.old }
    ensures sort { IfOk result (λ x. kind_at (E.context ecx.new).trees (N.number_of x) ≡ N.kind x) }
    ensures kind { IfOk result (λ x. N.kind x ≡ N.kind of) }
    ensures tree { let V = view E.EvalCtxt ecx.old in IfOk result (λ x. tree_in E.context N.number_of ecx.new x ≡ substituted_tree (args_forest V.trees args) (tree_at V.trees (N.number_of of))) }
    ensures list { let V = view E.EvalCtxt ecx.old in is_list_kind (N.kind of) ≡ true → MapsMembers E.context N.number_of ecx.old ecx.new of (substituted (args_forest V.trees args) 0) result }
    ensures cause { let V = view E.EvalCtxt ecx.old in StopsOver E.context ecx.new (substituted (args_forest V.trees args) 0 (row_at N.kind N.number_of V.trees of)) result }

    // Laws; those of lists follow from `list` alike.
    ensures unchanged { let V = view E.EvalCtxt ecx.old in let n = N.number_of of in tree_holds is_param (tree_at V.trees n) ≡ false → IfOk result (λ x. tree_in E.context N.number_of ecx.new x ≡ tree_at V.trees n) }
    ensures twice { let V = view E.EvalCtxt ecx.old in (others : Forest) → IfOk result (λ x. SubstitutesOn others (args_forest V.trees args) (tree_at V.trees (N.number_of of)) (tree_in E.context N.number_of ecx.new x)) }
    ensures height { let V = view E.EvalCtxt ecx.old in IfOk result (λ x. height (tree_in E.context N.number_of ecx.new x) ≤ height (tree_at V.trees (N.number_of of)) + heights (args_forest V.trees args)) }
{
    subst(alloc, ecx, of, args)
}
