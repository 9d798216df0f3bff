//! Kinds of goals.

ghost use Rattle.std.specs.Prelude.{◌≡◌, List, [], ◌∷◌, length, true, false, IfOk, IfErr, OnOk, OnErr};
ghost use Rattle.ir_trees.specs.declared.ir.kinds.ParamEnv.{ParamEnv as EnvNumber};
ghost use Rattle.ir_trees.specs.Syntax.Binders.{escapes};
ghost use Rattle.ir_trees.specs.Declarations.Context.{Context, Grows};
ghost use Rattle.ir_trees.specs.declared.decl.contents.LangItem.TheVariants as item;
ghost use Rattle.ir_trees.specs.declared.ir.kinds.TyKind.TheVariants as type_kind;
ghost use Rattle.ir_trees.specs.Syntax.Flags.{mark};
ghost use Rattle.ir_trees.specs.declared.ir.heads.Flag.TheVariants as flag;
ghost use Rattle.ir_trees.specs.Instantiation.Owned.{AliasArgumentsFit};
ghost use Rattle.ir_trees.specs.Declarations.References.{reference_of};
ghost use Rattle.ir_trees.specs.Unification.Substitutions.{alone};
ghost use Rattle.ir_trees.specs.Syntax.Trees.{Tree, holds, is_param};
ghost use Rattle.ir_trees.specs.Syntax.Words.{IsArgs, IsClause, IsParamEnv, IsTy, args_forest, clause_tree, env_forest, kind_tree, ty_tree};
ghost use Rattle.candidate_eval.specs.Interface.Accounts.{by_stop};
ghost use Rattle.candidate_eval.specs.Derivations.Mentions.{IsBelow};
ghost use Rattle.candidate_eval.specs.Derivations.Rules.{characterise, settle};
ghost use Rattle.candidate_assembly.specs.Goals.KindBounds.{UnsizingList};
ghost use Rattle.candidate_assembly.specs.Goals.KindLaws.{KindLaws};
ghost use Rattle.candidate_assembly.specs.Goals.Standing.{GoalIsValid};
ghost use Rattle.candidate_assembly.specs.Goals.TraitGoals.{is_item};
ghost use Rattle.candidate_assembly.specs.Goals.Kinds.{GoalBelow, IsAssumption, HasKnownSelfType, SaysTheSame, clause_judged, match_rule, passes, self_type};
ghost use Rattle.candidate_assembly.specs.Rules.Language.{rule_named};
ghost use Rattle.candidate_assembly.specs.Goals.KindShown.{IsGoal, Kind, impl_certainty, judged_by_impl, matched, of_goal, resolved_goal};
ghost use Rattle.candidate_eval.specs.declared.eval.source.CandidateSource.TheVariants as source;
ghost use Rattle.candidate_eval.specs.Interface.Shown.{Keeps, KeepsBut, LeavesAlike, StopsSomehow, view};
ghost use Rattle.candidate_assembly.specs.Rules.AliasFaults.{PutsOffAny};
ghost use Rattle.candidate_assembly.specs.Answers.Telling.{without_usages};
ghost use Rattle.candidate_assembly.specs.Answers.Shown.{After, Considers, IsCallable, IsCallableIn, IsCallableWith, ListsRules, ListsSome, StopsOfItself, TellsOf, TellsOfWith, TriesClause, TriesImpl};

use crate::assembly::language::LanguageRule;
use crate::assembly::matching::{match_and_characterize, with_usages};
use crate::assembly::steps::with_source;
use candidate_eval::eval::certainty::Certainty;
use candidate_eval::eval::context::{EvalCtxt, ProbeKind};
use candidate_eval::eval::refusal::NoSolutionOrStop;
use candidate_eval::eval::response::{Candidate, CandidateHeadUsages, CanonicalResponse};
use candidate_eval::eval::source::CandidateSource;
use ir_context::decl::Cx;
use ir_trees::decl::contents::ImplId;
use ir_trees::ir::kinds::{AliasTy, Clause, ParamEnv, TraitId, TraitRef, Ty};
use ir_trees::ir::stop::Stop;
use std::alloc::Global;

/// A clause doesn't pass quick rejection.
#[derive(Clone, Copy, Debug, PartialEq, Eq)]
pub struct NoSolution;

/// A kind of goals: what is to hold in an environment.
///
/// What a kind gives is data (`rules`), of which its calls say what they do. A goal is one of the context, with the arguments that its
/// trait takes, and neither a parameter nor an escaping bound variable stands in it.
///
/// Each `consider_*` answers the candidate of its one rule, or `NoSolution` where the rule's side condition doesn't hold or the evaluator
/// refuses it, and leaves a state alike the one before. Its stops are the evaluator's and those of making nodes and lists. The self type of
/// its goal is neither a general variable nor a bound type.
pub trait GoalKind<E: EvalCtxt>: Copy {
    /// What its goals are, and what it says of them.
    ghost kind: { Kind Self };

    /// The type that the goal is about.
    fn self_ty(cx: &Cx, env: ParamEnv, predicate: Self) -> Ty
        requires { IsGoal kind cx.now env predicate }
        ensures sort { IsTy cx.now.trees result }
        ensures tree { ty_tree cx.now.trees result ≡ self_type kind.rules cx.now (kind.seen cx.now.trees env predicate) };

    /// The trait reference that it is about.
    fn trait_ref(cx: &Cx, env: ParamEnv, predicate: Self) -> TraitRef
        requires { IsGoal kind cx.now env predicate }
        ensures sort { IsArgs cx.now.trees result.args }
        ensures is { reference_of cx.now.trees result ≡ kind.rules.reference_of cx.now (kind.seen cx.now.trees env predicate) };

    /// The trait of that reference.
    final fn trait_def_id(cx: &Cx, env: ParamEnv, predicate: Self) -> TraitId
        requires { IsGoal kind cx.now env predicate }
        ensures { result.0 ≡ (kind.rules.reference_of cx.now (kind.seen cx.now.trees env predicate)).trait }
    {
        Self::trait_ref(cx, env, predicate).def_id
    }

    /// Whether it holds an error.
    fn holds_error(cx: &Cx, env: ParamEnv, predicate: Self) -> bool
        requires { IsGoal kind cx.now env predicate }
        ensures { result ≡ holds (mark flag.Error) (kind.rules.trees_of (kind.seen cx.now.trees env predicate)) };

    /// The predicate with this self type. Where neither a parameter nor an escaping bound variable stands in that, it is a goal's again.
    fn with_replaced_self_ty(
        alloc: Global,
        ecx: &mut E,
        env: ParamEnv,
        predicate: Self,
        self_ty: Ty,
    ) -> Result<Self, Stop>
        requires goal { IsGoal kind (E.context ecx.old) env predicate }
        requires self_ty { IsTy (E.context ecx.old).trees self_ty }
        ensures kept { Keeps E.EvalCtxt ecx.old ecx.new }
        ensures same { E.state ecx.new ≡ E.state ecx.old }
        ensures is { let V = view E.EvalCtxt ecx.old in IfOk result (λ p. kind.seen (E.context ecx.new).trees env p ≡ kind.rules.with_self_type (kind.seen V.trees env predicate) (ty_tree V.trees self_ty)) }
        ensures goal { let V = view E.EvalCtxt ecx.old in let t = ty_tree V.trees self_ty in holds is_param (alone t) ≡ false → escapes 0 (alone t) ≡ false → IfOk result (λ p. IsGoal kind (E.context ecx.new) env p) }
        ensures cause { IfErr result (StopsSomehow E.EvalCtxt ecx.old ecx.new) };

    /// The predicate with all values put in, for an environment in which they are put in already. It is a goal's again where the state's
    /// values make sense.
    fn resolve_vars_if_possible(
        ecx: &mut E,
        env: ParamEnv,
        predicate: Self,
        resolved_env: ParamEnv,
    ) -> Result<Self, Stop>
        requires goal { IsGoal kind (E.context ecx.old) env predicate }
        requires env { IsParamEnv (E.context ecx.old).trees resolved_env }
        ensures kept { Keeps E.EvalCtxt ecx.old ecx.new }
        ensures same { E.state ecx.new ≡ E.state ecx.old }
        ensures is { let V = view E.EvalCtxt ecx.old in IfOk result (λ p. kind.seen (E.context ecx.new).trees resolved_env p ≡ resolved_goal kind V env predicate resolved_env) }
        ensures goal { GoalIsValid kind.rules (E.state ecx.old) (kind.seen (E.context ecx.old).trees env predicate) → IfOk result (λ p. IsGoal kind (E.context ecx.new) resolved_env p) }
        ensures cause { IfErr result (StopsSomehow E.EvalCtxt ecx.old ecx.new) };

    /// Whether a clause passes quick rejection: what it is about may be what the goal is about.
    fn fast_reject_assumption(
        cx: &Cx,
        env: ParamEnv,
        predicate: Self,
        assumption: Clause,
    ) -> Result<(), NoSolution>
        requires goal { IsGoal kind cx.now env predicate }
        requires assumption { IsClause cx.now.trees assumption }
        ensures passes { OnOk result (passes kind.rules cx.now (kind.seen cx.now.trees env predicate) (clause_tree cx.now.trees assumption) ≡ true) }
        ensures rejected { OnErr result (passes kind.rules cx.now (kind.seen cx.now.trees env predicate) (clause_tree cx.now.trees assumption) ≡ false) };

    /// Matches a clause that passes quick rejection, and answers what the closure answers then. What stood under the clause's binder is
    /// instantiated with fresh variables. The state is changed, so it is called in a probe.
    fn match_assumption<R, F: FnOnce(&mut E) -> Result<R, NoSolutionOrStop>>(
        alloc: Global,
        ecx: &mut E,
        env: ParamEnv,
        predicate: Self,
        assumption: Clause,
        then: F,
    ) -> Result<R, NoSolutionOrStop>
        requires goal { IsGoal kind (E.context ecx.old) env predicate }
        requires assumption { IsClause (E.context ecx.old).trees assumption }
        requires matches { let V = view E.EvalCtxt ecx.old in IsAssumption kind.rules V.context (kind.seen V.trees env predicate) (clause_tree V.trees assumption) }
        requires callable { IsCallable E.EvalCtxt F.FnOnce then ecx.old }
        ensures kept { KeepsBut E.EvalCtxt PutsOffAny ecx.old ecx.new }
        ensures after { let V = view E.EvalCtxt ecx.old in After E.EvalCtxt F.FnOnce then ecx.old (matched kind V env predicate assumption) result ecx.new };

    /// Whether an object has to fulfil what its trait asks for, where a bound of its own is to prove a goal. Where it hasn't, a match is enough.
    fn asks_of_objects() -> bool
        ensures { result ≡ kind.rules.asks_of_objects };

    /// The rule of an impl: its steps in a probe, and then what the closure answers, which is given the certainty that the impl gives.
    ///
    /// The state is left alike the one before. `NoSolution` comes where the impl doesn't serve the goal, where the evaluator refuses its
    /// header, and where the closure answers it; the stops are the evaluator's, those of making nodes and lists, and the closure's.
    fn consider_impl_candidate<
        F: FnOnce(&mut E, Certainty) -> Result<CanonicalResponse, NoSolutionOrStop>,
    >(
        alloc: Global,
        ecx: &mut E,
        env: ParamEnv,
        predicate: Self,
        of: ImplId,
        then: F,
    ) -> Result<Candidate, NoSolutionOrStop>
        requires goal { IsGoal kind (E.context ecx.old) env predicate }
        requires callable { IsCallableWith E.EvalCtxt F.FnOnce then ecx.old (E.state ecx.old ∷ E.probes ecx.old) }
        ensures kept { KeepsBut E.EvalCtxt PutsOffAny ecx.old ecx.new }
        ensures alike { LeavesAlike E.EvalCtxt ecx.old ecx.new }
        ensures tried { TriesImpl E.EvalCtxt F.FnOnce then kind ecx.old env predicate of result ecx.new }
        ensures told { TellsOfWith E.EvalCtxt F.FnOnce then ecx.old ecx.new (λ V. impl_certainty kind V env predicate of) result (λ V. judged_by_impl kind V env predicate of) }
        ensures cause { IfErr result (by_stop (StopsOfItself E.EvalCtxt ecx.old ecx.new)) };

    /// What the kind adds at an alias, beside its bounds. No parameter stands in the alias, and it and the goal mention only the state's
    /// variables. The state is left alike the one before.
    fn consider_additional_alias_assumptions(
        alloc: Global,
        ecx: &mut E,
        env: ParamEnv,
        predicate: Self,
        alias: AliasTy,
    ) -> Result<Vec<Candidate>, Stop>
        requires goal { IsGoal kind (E.context ecx.old) env predicate }
        requires below { GoalBelow kind.rules (length (E.state ecx.old).variables) (kind.seen (E.context ecx.old).trees env predicate) }
        requires args { IsArgs (E.context ecx.old).trees alias.args }
        requires fit { AliasArgumentsFit (E.context ecx.old) alias }
        requires free { holds is_param (args_forest (E.context ecx.old).trees alias.args) ≡ false }
        requires alias_below { IsBelow (length (E.state ecx.old).variables) (args_forest (E.context ecx.old).trees alias.args) }
        ensures { ListsRules E.EvalCtxt ecx.old ecx.new (λ v. v.items) (λ V. kind.bounds.additional V.context (kind.seen V.trees env predicate) (kind_tree V.trees (type_kind.Alias alias))) result };

    /// The candidates by unsizing, for a goal of the trait for that. The goal stands at a state whose values make sense. The state is left
    /// alike the one before.
    fn consider_structural_builtin_unsize_candidates(
        alloc: Global,
        ecx: &mut E,
        env: ParamEnv,
        predicate: Self,
    ) -> Result<Vec<Candidate>, Stop>
        requires goal { IsGoal kind (E.context ecx.old) env predicate }
        requires typed { HasKnownSelfType kind.rules (E.context ecx.old) (kind.seen (E.context ecx.old).trees env predicate) }
        requires stands { GoalIsValid kind.rules (E.state ecx.old) (kind.seen (E.context ecx.old).trees env predicate) }
        requires unsize { let V = view E.EvalCtxt ecx.old in is_item V.context item.Unsize (kind.rules.reference_of V.context (kind.seen V.trees env predicate)).trait ≡ true }
        ensures { ListsSome E.EvalCtxt ecx.old ecx.new (λ v. v.items) (λ V. UnsizingList kind.rules kind.bounds V.judge V.context V.state (kind.seen V.trees env predicate)) result };

    /// The candidate by the rule of that name that the language has, for errors or for some traits. The self type of the goal is neither a
    /// general variable nor a bound type.
    ///
    /// `NoSolution` comes where the rule doesn't apply to the goal, and where the evaluator refuses it; the stops are those of making nodes
    /// and lists, and the evaluator's. The state is left alike the one before.
    fn consider_builtin_candidate(
        alloc: Global,
        ecx: &mut E,
        env: ParamEnv,
        predicate: Self,
        rule: LanguageRule,
    ) -> Result<Candidate, NoSolutionOrStop>
        requires goal { IsGoal kind (E.context ecx.old) env predicate }
        requires typed { HasKnownSelfType kind.rules (E.context ecx.old) (kind.seen (E.context ecx.old).trees env predicate) }
        ensures { Considers E.EvalCtxt ecx.old ecx.new (λ V. let c = V.context in kind.rules.builtin_rule (rule_named rule) c (kind.seen c.trees env predicate)) result };

    /// A goal says the same where a context has grown.
    ghost stays: { (old new : Context) (env : EnvNumber) (predicate : Self) → Grows old new → IsGoal kind old env predicate → SaysTheSame kind.rules kind.seen old new env predicate };

    /// The environment of a goal is the one that is given.
    ghost env_given: { (ts : List Tree) (env : EnvNumber) (predicate : Self) → kind.rules.env_of (kind.seen ts env predicate) ≡ env_forest ts env };

    /// Its rules mention no other variables than the goal, and stay where a context grows; a goal with other trees holds these; and the
    /// arguments of its reference fit.
    ghost laws: { KindLaws kind.rules kind.bounds kind.arguments kind.types kind.seen };

    /// The candidate of a source by a clause: in a probe the clause is matched, and the closure called then.
    ///
    /// `NoSolution` comes where the clause doesn't pass quick rejection or isn't matched, and where the closure answers it; the stops
    /// are those of the match and of the closure. The state is left alike the one before.
    final fn probe_and_match_goal_against_assumption<
        F: FnOnce(&mut E) -> Result<CanonicalResponse, NoSolutionOrStop>,
    >(
        alloc: Global,
        ecx: &mut E,
        source: CandidateSource,
        env: ParamEnv,
        predicate: Self,
        clause: Clause,
        then: F,
    ) -> Result<Candidate, NoSolutionOrStop>
        requires goal { IsGoal kind (E.context ecx.old) env predicate }
        requires clause { IsClause (E.context ecx.old).trees clause }
        requires free { holds is_param (clause_tree (E.context ecx.old).trees clause).children ≡ false }
        requires callable { IsCallableIn E.EvalCtxt F.FnOnce then ecx.old (E.state ecx.old ∷ E.probes ecx.old) }
        ensures kept { KeepsBut E.EvalCtxt PutsOffAny ecx.old ecx.new }
        ensures alike { LeavesAlike E.EvalCtxt ecx.old ecx.new }
        ensures tried { TriesClause E.EvalCtxt F.FnOnce then kind ecx.old env predicate source clause result ecx.new }
        ensures told { TellsOf E.EvalCtxt F.FnOnce then ecx.old ecx.new result (λ V. clause_judged kind.rules V.judge V.context V.state (kind.seen V.trees env predicate) source (clause_tree V.trees clause)) }
        ensures cause { IfErr result (by_stop (StopsOfItself E.EvalCtxt ecx.old ecx.new)) }
    {
        if Self::fast_reject_assumption(ecx.cx(), env, predicate, clause).is_err() {
            return Err(NoSolutionOrStop::NoSolution);
        }
        let probe = ecx.begin_probe(ProbeKind::Kept)?;
        let answer = Self::match_assumption(alloc, ecx, env, predicate, clause, then);
        let usages = ecx.end_probe(probe);
        with_source(source, answer, usages)
    }

    /// The candidate by a clause of the environment: in a probe the clause is matched and what is pending evaluated; then the clause is
    /// characterised, of which the source and the highest certainty come. It has what its probe has used.
    ///
    /// Where there is none, which goals above were used until then: the clause doesn't pass quick rejection or isn't matched, or the
    /// evaluator refuses what is pending, a normal form or a response. The stops are those of the match, of the evaluator and of
    /// `characterize_param_env_assumption`. The state is left alike the one before.
    final fn probe_and_consider_param_env_candidate(
        alloc: Global,
        ecx: &mut E,
        env: ParamEnv,
        predicate: Self,
        clause: Clause,
    ) -> Result<Result<Candidate, CandidateHeadUsages>, Stop>
        requires goal { IsGoal kind (E.context ecx.old) env predicate }
        requires clause { IsClause (E.context ecx.old).trees clause }
        requires free { holds is_param (clause_tree (E.context ecx.old).trees clause).children ≡ false }
        ensures { Considers E.EvalCtxt ecx.old ecx.new (λ V. let t = clause_tree V.trees clause in of_goal kind match_rule V env predicate t (settle ∷ []) (characterise t)) (without_usages result) }
    {
        if Self::fast_reject_assumption(ecx.cx(), env, predicate, clause).is_err() {
            return Ok(Err(CandidateHeadUsages::new(alloc)));
        }
        let probe = ecx.begin_probe(ProbeKind::Kept)?;
        let answer = match_and_characterize(alloc, ecx, env, predicate, clause);
        let usages = ecx.end_probe(probe);
        with_usages(answer, usages)
    }
}
