//! The rule of trait aliases: an alias holds where the where clauses of its trait do.

ghost use Rattle.std.specs.Prelude.{◌≡◌, IfOk, IfErr};
ghost use Rattle.ir_trees.specs.Declarations.Context.{Grows};
ghost use Rattle.ir_trees.specs.Declarations.References.{ArgumentsFit};
ghost use Rattle.ir_trees.specs.Syntax.Words.{ClauseListFits, IsArgs};
ghost use Rattle.candidate_eval.specs.Interface.Unmade.{IsUnmade};
ghost use Rattle.candidate_assembly.specs.Rules.BuiltinRules.{trait_alias_rule};
ghost use Rattle.candidate_assembly.specs.Goals.TraitGoals.{trait_goal};
ghost use Rattle.candidate_assembly.specs.Answers.Shown.{Considers};
ghost use Rattle.candidate_assembly.specs.Goals.KindShown.{IsGoal, trait_kind};
ghost use Rattle.candidate_assembly.specs.Calls.Seen.{wheres_of};
ghost use Rattle.candidate_eval.specs.Dynamic.Replacing.{clauses_at};

use crate::assembly::steps::consider_with_nested;
use crate::trait_goals::builtin::is_positive;
use candidate_eval::eval::certainty::Certainty;
use candidate_eval::eval::context::EvalCtxt;
use candidate_eval::eval::refusal::NoSolutionOrStop;
use candidate_eval::eval::response::Candidate;
use candidate_eval::eval::source::{BuiltinImplSource, CandidateSource};
use ir_context::decl::make::Make;
use ir_folds::decl::subst::subst;
use ir_trees::ir::kinds::{Clause, GoalSource, ParamEnv, TraitPredicate, TraitRef};
use ir_trees::ir::stop::Stop;
use std::alloc::Global;

/// The where clauses of the reference's trait, in order, with the reference's arguments in the place of parameters.
///
/// `Stop::Memory` comes where a growth was refused, `Stop::NodesFull` where a clause was not made, as by `subst`.
fn where_clauses<M: Make>(
    alloc: Global,
    make: &mut M,
    reference: TraitRef,
) -> Result<Vec<Clause>, Stop>
    requires args { IsArgs (M.context make.old).trees reference.args }
    requires fit { ArgumentsFit (M.context make.old) reference }
    ensures grows { Grows (M.context make.old) (M.context make.new) }
    ensures rest { M.rest make.new ≡ M.rest make.old }
    ensures sort { IfOk result (λ v. ClauseListFits (M.context make.new).trees v.items) }
    ensures trees { let c = M.context make.old in IfOk result (λ v. clauses_at (M.context make.new).trees v.items ≡ wheres_of c reference) }
    ensures cause { IfErr result (IsUnmade (M.context make.old) (M.context make.new)) }
{
    let declared = Vec::from_slice(alloc, make.cx().trait_where_clauses_of(reference))?;
    let mut list = Vec::new(alloc);
    for clause in &declared {
        let clause = subst(alloc, make, *clause, reference.args)?;
        list.push(clause)?;
    }
    Ok(list)
}

/// The rule of a trait alias.
///
/// The state is left alike the one before. `NoSolution` comes for a negative goal and where the evaluator refuses; the stops are those of
/// making nodes and lists, and the evaluator's.
pub(crate) fn consider_trait_alias<E: EvalCtxt>(
    alloc: Global,
    ecx: &mut E,
    env: ParamEnv,
    predicate: TraitPredicate,
) -> Result<Candidate, NoSolutionOrStop>
    requires goal { IsGoal trait_kind (E.context ecx.old) env predicate }
    ensures { Considers E.EvalCtxt ecx.old ecx.new (λ V. trait_alias_rule V.context (trait_goal V.trees env predicate)) result }
{
    if !is_positive(predicate.polarity) {
        return Err(NoSolutionOrStop::NoSolution);
    }
    let clauses = where_clauses(alloc, ecx, predicate.trait_ref)?;
    let source = CandidateSource::BuiltinImpl(BuiltinImplSource::Misc);
    let nested = clauses.as_slice();
    consider_with_nested(
        alloc,
        ecx,
        env,
        true,
        GoalSource::Misc,
        nested,
        source,
        Certainty::Yes,
    )
}
