//! The bounds of an alias, as clauses that may prove what is asked of it.

ghost use Rattle.std.specs.Prelude.{◌≡◌, All, [], false, length, IfOk, IfErr};
ghost use Rattle.ir_trees.specs.Declarations.Context.{Grows};
ghost use Rattle.ir_trees.specs.declared.ir.kinds.TyKind.TheVariants as kinds;
ghost use Rattle.ir_trees.specs.Instantiation.Owned.{AliasArgumentsFit, is_unsolved};
ghost use Rattle.ir_trees.specs.Syntax.Trees.{holds, is_param, tree_holds};
ghost use Rattle.ir_trees.specs.Syntax.Words.{ClauseListFits, IsArgs, IsClause, args_forest, clause_tree, kind_tree};
ghost use Rattle.candidate_eval.specs.Interface.Unmade.{IsUnmade};
ghost use Rattle.candidate_eval.specs.Derivations.Mentions.{IsBelow};
ghost use Rattle.candidate_eval.specs.Outcomes.ResponseTrees.{AreCandidates};
ghost use Rattle.candidate_eval.specs.Derivations.Rules.{ask};
ghost use Rattle.candidate_assembly.specs.Rules.AliasBounds.{bound_rules, bounds_of_kind, variable_rule};
ghost use Rattle.candidate_assembly.specs.Goals.Kinds.{GoalBelow, match_rule};
ghost use Rattle.candidate_assembly.specs.Answers.Shown.{Appends, Considers};
ghost use Rattle.candidate_assembly.specs.Goals.KindShown.{IsGoal, of_goal};
ghost use Rattle.candidate_assembly.specs.Calls.Seen.{clauses_with_arguments};
ghost use Rattle.candidate_eval.specs.Dynamic.Replacing.{clauses_at};

use crate::assembly::kind::GoalKind;
use crate::assembly::listing::push_considered;
use crate::assembly::matching::probe_and_consider_implied_clause;
use crate::assembly::steps::consider_with_nested;
use candidate_eval::eval::certainty::Certainty;
use candidate_eval::eval::context::EvalCtxt;
use candidate_eval::eval::refusal::NoSolutionOrStop;
use candidate_eval::eval::response::Candidate;
use candidate_eval::eval::source::CandidateSource;
use ir_context::decl::make::Make;
use ir_folds::decl::subst::subst;
use ir_trees::decl::contents::AliasBoundKind;
use ir_trees::ir::kinds::{AliasTy, Clause, GoalSource, ParamEnv};
use ir_trees::ir::stop::Stop;
use std::alloc::Global;

/// The bounds of the alias, its own or those of what it is a projection of, in order, with its arguments in the place of parameters. No
/// variable stands in them as they are declared.
///
/// `Stop::Memory` comes where a growth was refused, `Stop::NodesFull` where a clause was not made, as by `subst`.
pub(crate) fn bounds_with_arguments<M: Make>(
    alloc: Global,
    make: &mut M,
    alias: AliasTy,
    kind: AliasBoundKind,
) -> Result<Vec<Clause>, Stop>
    requires args { IsArgs (M.context make.old).trees alias.args }
    requires fit { AliasArgumentsFit (M.context make.old) alias }
    ensures grows { Grows (M.context make.old) (M.context make.new) }
    ensures rest { M.rest make.new ≡ M.rest make.old }
    ensures sort { IfOk result (λ v. ClauseListFits (M.context make.new).trees v.items) }
    ensures trees { let c = M.context make.old in IfOk result (λ v. clauses_at (M.context make.new).trees v.items ≡ clauses_with_arguments c.trees alias.args (bounds_of_kind c kind alias.id.0)) }
    ensures closed { let c = M.context make.old in IfOk result (λ _. All (λ x. tree_holds is_unsolved (clause_tree c.trees x) ≡ false) (bounds_of_kind c kind alias.id.0)) }
    ensures cause { IfErr result (IsUnmade (M.context make.old) (M.context make.new)) }
{
    let declared = Vec::from_slice(alloc, make.cx().bounds_of(alias, kind))?;
    let mut list = Vec::new(alloc);
    for clause in &declared {
        let clause = subst(alloc, make, *clause, alias.args)?;
        list.push(clause)?;
    }
    Ok(list)
}

/// The candidate by one bound of an alias, whose arguments stand in it already.
///
/// `NoSolution` comes where the bound isn't matched, and where the evaluator refuses the response; the stops are those of the match and of
/// the evaluator. The state is left alike the one before.
pub(crate) fn consider_alias_bound<E: EvalCtxt, G: GoalKind<E>>(
    alloc: Global,
    ecx: &mut E,
    env: ParamEnv,
    predicate: G,
    clause: Clause,
    kind: AliasBoundKind,
) -> Result<Candidate, NoSolutionOrStop>
    requires goal { IsGoal G.kind (E.context ecx.old) env predicate }
    requires clause { IsClause (E.context ecx.old).trees clause }
    requires free { holds is_param (clause_tree (E.context ecx.old).trees clause).children ≡ false }
    ensures { Considers E.EvalCtxt ecx.old ecx.new (λ V. of_goal G.kind match_rule V env predicate (clause_tree V.trees clause) [] (ask (CandidateSource.AliasBound kind) Certainty.Yes)) result }
{
    let source = CandidateSource::AliasBound(kind);
    probe_and_consider_implied_clause(alloc, ecx, source, env, predicate, clause, &[])
}

/// The candidate where a general variable stands for what an alias is a projection of: too little is known of it, so it is ambiguous.
///
/// `NoSolution` comes where the evaluator refuses the response; the stops are the evaluator's. The state is left alike the one before.
pub(crate) fn consider_behind_variable<E: EvalCtxt, G: GoalKind<E>>(
    alloc: Global,
    ecx: &mut E,
    env: ParamEnv,
    predicate: G,
) -> Result<Candidate, NoSolutionOrStop>
    requires goal { IsGoal G.kind (E.context ecx.old) env predicate }
    ensures { Considers E.EvalCtxt ecx.old ecx.new (λ V. variable_rule G.kind.rules (G.kind.seen V.trees env predicate)) result }
{
    let _ = predicate;
    let source = CandidateSource::AliasBound(AliasBoundKind::NonSelfBounds);
    let nested = GoalSource::Misc;
    consider_with_nested(
        alloc,
        ecx,
        env,
        true,
        nested,
        &[],
        source,
        Certainty::AMBIGUOUS,
    )
}

/// Adds the candidates by the bounds of the alias, its own or those of what it is a projection of, in their order. No parameter stands in
/// the alias, and it and the goal mention only the state's variables.
///
/// It stops at the first bound whose rule stops, with that stop; `Stop::Memory` comes where a list can't grow, `Stop::NodesFull` where a
/// bound was not made, as by `subst`. The state is left alike the one before.
pub(crate) fn consider_alias_bounds<E: EvalCtxt, G: GoalKind<E>>(
    alloc: Global,
    ecx: &mut E,
    env: ParamEnv,
    predicate: G,
    alias: AliasTy,
    kind: AliasBoundKind,
    candidates: &mut Vec<Candidate>,
) -> Result<(), Stop>
    requires goal { IsGoal G.kind (E.context ecx.old) env predicate }
    requires below { GoalBelow G.kind.rules (length (E.state ecx.old).variables) (G.kind.seen (E.context ecx.old).trees env predicate) }
    requires args { IsArgs (E.context ecx.old).trees alias.args }
    requires fit { AliasArgumentsFit (E.context ecx.old) alias }
    requires free { holds is_param (args_forest (E.context ecx.old).trees alias.args) ≡ false }
    requires alias_below { IsBelow (length (E.state ecx.old).variables) (args_forest (E.context ecx.old).trees alias.args) }
    requires candidates { AreCandidates (E.context ecx.old).trees candidates.old.items }
    ensures { Appends E.EvalCtxt ecx.old ecx.new candidates.old.items candidates.new.items (λ V. of_goal G.kind bound_rules V env predicate kind (kind_tree V.trees (kinds.Alias alias))) result }
{
    let bounds = bounds_with_arguments(alloc, ecx, alias, kind)?;
    for clause in &bounds {
        let answer = consider_alias_bound(alloc, ecx, env, predicate, *clause, kind);
        push_considered(candidates, answer)?;
    }
    Ok(())
}
