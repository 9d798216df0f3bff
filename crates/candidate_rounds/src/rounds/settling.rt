//! Pending goals are evaluated.

ghost use Rattle.std.specs.Prelude.{◌≡◌, ◌&&◌, ◌++◌, [], false, IfErr, IfOk, IfSome, None, OnErr, OnOk, Some};
ghost use Rattle.std.specs.Option.{option_to_list};
ghost use Rattle.ir_trees.specs.Declarations.Context.{world};
ghost use Rattle.ir_trees.specs.Declarations.References.{Takes};
ghost use Rattle.ir_trees.specs.Hierarchy.Supers.{after_first};
ghost use Rattle.ir_trees.specs.Instantiation.Folds.{IsArg, arg_tree};
ghost use Rattle.ir_trees.specs.Unification.Substitutions.{alone};
ghost use Rattle.ir_trees.specs.Syntax.Trees.{none, tree};
ghost use Rattle.ir_trees.specs.Syntax.Words.{IsClause, IsParamEnv, IsTy, KindFits, clause_tree, env_forest, kind_tree, ty_tree};
ghost use Rattle.ir_trees.specs.declared.ir.heads.Head.TheVariants as H;
ghost use Rattle.ir_trees.specs.declared.ir.heads.PartHead.TheVariants as P;
ghost use Rattle.candidate_eval.specs.Derivations.Characterization.{bound_kinds};
ghost use Rattle.candidate_eval.specs.Interface.Evaluators.{IsGoal, kinds_listed, pending_of, pendings_of, with_left};
ghost use Rattle.candidate_eval.specs.Judges.States.{added, with_pending};
ghost use Rattle.candidate_eval.specs.Interface.Accounts.{if_refused, if_stopped};
ghost use Rattle.candidate_rounds.specs.Calls.Requesting.{asked_of, requested_at};
ghost use Rattle.candidate_rounds.specs.Table.Goals.{IsTraitGoal, goal_seen};
ghost use Rattle.candidate_rounds.specs.Evaluators.Known.{Each, GoesOn, judged_at, listing, reads, state};
ghost use Rattle.rounds_judge.specs.Equations.Opening.{are_open};
ghost use Rattle.rounds_judge.specs.Obligations.Settling.{certainty_of, has_unlisted, instantiated, recorded, with_facts};
ghost use Rattle.rounds_judge.specs.Table.Keys.{key_at};
ghost use Rattle.rounds_judge.specs.Table.TableSettling.{all_by, pass_by, passes_by};
ghost use Rattle.candidate_rounds.specs.Evaluators.Stopping.{AreGoalsStop, ArePassesStop, held, IsEvaluationStop, IsGoalStop, IsInstanceStop, IsListedStop, IsPassStop, IsProjectionStop, IsRelationStop, IsTraitStop, IsValueStop, StopsFrom};
ghost use Rattle.candidate_rounds.specs.Table.Trying.{Says, answered, answered_by, answered_related, answered_trait, evaluated_at, left_of, projection_of, second_if_bound, try_of, got_one, entries_gave};

use crate::rounds::Rounds;
use crate::rounds::inference::Entry;
use crate::rounds::table::Found;
use candidate_eval::eval::certainty::Certainty;
use candidate_eval::eval::context::EvalCtxt;
use candidate_eval::eval::refusal::NoSolutionOrStop;
use ir_context::decl::make::Build;
use ir_folds::decl::open::{binder_kinds, open_clause};
use ir_trees::ir::heads::Flag;
use ir_trees::ir::kinds::{
    AliasTy, Clause, ClauseKind, GenericArg, Goal, GoalSource, ParamEnv, ProjectionPredicate, Ty,
    TyKind, VarKind,
};
use ir_trees::ir::stop::Stop;
use ir_trees::ir::trees::Trees;
use std::alloc::Global;

impl Rounds {
    /// Records a region constraint. The only stop is `Stop::Memory`; nothing is recorded then.
    pub(crate) fn record_region(&mut self, region: Clause) -> Result<(), Stop>
        requires { IsClause self.old.context.trees region }
        ensures goes { GoesOn self.old self.new }
        ensures made { OnOk result (state self.new ≡ recorded (state self.old) (clause_tree self.old.context.trees region)) }
        ensures cause { IfErr result (λ s. s ≡ Stop.Memory) }
    {
        self.inference.record_region(region)
    }

    /// The clause under an empty binder, with placeholders of a fresh universe for the variables of its own, which are of these
    /// kinds.
    fn instantiate(
        &mut self,
        alloc: Global,
        clause: Clause,
        kinds: &[VarKind],
    ) -> Result<Clause, Stop>
        requires clause { IsClause self.old.context.trees clause }
        requires kinds { kinds_listed kinds.now ≡ bound_kinds (clause_tree self.old.context.trees clause).children }
        ensures goes { GoesOn self.old self.new }
        ensures state { OnOk result (state self.new ≡ (instantiated (state self.old) (clause_tree self.old.context.trees clause)).0) }
        ensures sort { IfOk result (λ x. IsClause self.new.context.trees x) }
        ensures tree { let ts = self.old.context.trees in IfOk result (λ x. clause_tree self.new.context.trees x ≡ with_facts (clause_tree ts clause) (instantiated (state self.old) (clause_tree ts clause)).1) }
        ensures cause { IfErr result (λ s. IsInstanceStop self.new.context.trees (state self.old) (clause_tree self.old.context.trees clause) s) }
    {
        let values = self.placeholder_args(kinds)?;
        open_clause(alloc, &mut self.cx, clause, values)
    }

    /// Where all values are put in, the type that is listed for an alias is made equal to the term, and the answer is true; no
    /// type is listed where it is false.
    fn try_alias(&mut self, alloc: Global, alias: Ty, term: Ty) -> Result<bool, NoSolutionOrStop>
        requires alias { IsTy self.old.context.trees alias }
        requires term { IsTy self.old.context.trees term }
        ensures goes { GoesOn self.old self.new }
        ensures ok { let ts = self.old.context.trees in IfOk result (λ b. judged_at self.old answered (ty_tree ts alias) (ty_tree ts term) ≡ Some (b, state self.new)) }
        ensures refused { let ts = self.old.context.trees in IfErr result (if_refused (judged_at self.old answered (ty_tree ts alias) (ty_tree ts term) ≡ None)) }
        ensures cause { let ts = self.old.context.trees in IfErr result (if_stopped (λ s. StopsFrom IsProjectionStop self.old self.new (ty_tree ts alias) (ty_tree ts term) s)) }
    {
        self.recall_well_kept();
        let resolved = self.resolve_ty_if_possible(alias)?;
        let Some(listed) = self.listed(resolved) else {
            return Ok(false);
        };
        self.try_listed(alloc, listed, term)
    }

    /// A listed type is made equal to the term of its alias, unless aliases are open and one stands in the term that isn't listed. The
    /// answer says whether they were.
    fn try_listed(&mut self, alloc: Global, listed: Ty, term: Ty) -> Result<bool, NoSolutionOrStop>
        requires listed { IsTy self.old.context.trees listed }
        requires term { IsTy self.old.context.trees term }
        ensures goes { GoesOn self.old self.new }
        ensures ok { let ts = self.old.context.trees in IfOk result (λ b. judged_at self.old answered_by (ty_tree ts term) (Some (ty_tree ts listed)) ≡ Some (b, state self.new)) }
        ensures refused { let ts = self.old.context.trees in IfErr result (if_refused (judged_at self.old answered_by (ty_tree ts term) (Some (ty_tree ts listed)) ≡ None)) }
        ensures cause { let ts = self.old.context.trees in IfErr result (if_stopped (λ s. StopsFrom IsListedStop self.old self.new (ty_tree ts listed) (ty_tree ts term) s)) }
    {
        self.recall_well_kept();
        if self.stays_open(alloc, GenericArg::Ty(term))? {
            return Ok(false);
        }
        self.equate(alloc, GenericArg::Ty(listed), GenericArg::Ty(term))?;
        Ok(true)
    }

    /// Whether aliases are open and one stands in the argument that isn't listed, once all values are put in. It stops as `value_for` does.
    fn stays_open(&mut self, alloc: Global, arg: GenericArg) -> Result<bool, Stop>
        requires { IsArg self.old.context.trees arg }
        ensures goes { GoesOn self.old self.new }
        ensures state { state self.new ≡ state self.old }
        ensures is { let t = arg_tree self.old.context.trees arg in IfOk result (λ b. b ≡ (judged_at self.old are_open && judged_at self.old has_unlisted (alone t))) }
        ensures cause { IfErr result (λ s. IsValueStop self.new.context.trees (listing self.old) (state self.old) [] (arg_tree self.old.context.trees arg) s) }
    {
        if !self.opens_aliases() {
            return Ok(false);
        }
        self.has_unlisted(alloc, arg)
    }

    /// Whether an alias stands in the argument that isn't listed, once all values are put in. It stops as `value_for` does.
    fn has_unlisted(&mut self, alloc: Global, arg: GenericArg) -> Result<bool, Stop>
        requires { IsArg self.old.context.trees arg }
        ensures goes { GoesOn self.old self.new }
        ensures state { state self.new ≡ state self.old }
        ensures is { IfOk result (λ b. b ≡ judged_at self.old has_unlisted (alone (arg_tree self.old.context.trees arg))) }
        ensures cause { IfErr result (λ s. IsValueStop self.new.context.trees (listing self.old) (state self.old) [] (arg_tree self.old.context.trees arg) s) }
    {
        let value = self.value_for(alloc, &[], arg)?;
        Ok(self.cx.has(value, Flag::Alias))
    }

    /// Two arguments that are to be one are made equal, once no alias stands in them that isn't listed. The answer says whether they
    /// were.
    fn try_related(
        &mut self,
        alloc: Global,
        left: GenericArg,
        right: GenericArg,
    ) -> Result<bool, NoSolutionOrStop>
        requires left { IsArg self.old.context.trees left }
        requires right { IsArg self.old.context.trees right }
        ensures goes { GoesOn self.old self.new }
        ensures ok { let ts = self.old.context.trees in IfOk result (λ b. judged_at self.old answered_related (arg_tree ts left) (arg_tree ts right) ≡ Some (b, state self.new)) }
        ensures refused { let ts = self.old.context.trees in IfErr result (if_refused (judged_at self.old answered_related (arg_tree ts left) (arg_tree ts right) ≡ None)) }
        ensures cause { let ts = self.old.context.trees in IfErr result (if_stopped (λ s. StopsFrom IsRelationStop self.old self.new (arg_tree ts left) (arg_tree ts right) s)) }
    {
        self.recall_well_kept();
        let first = self.has_unlisted(alloc, left)?;
        let second = self.has_unlisted(alloc, right)?;
        if first {
            return Ok(false);
        }
        if second {
            return Ok(false);
        }
        self.equate(alloc, left, right)?;
        Ok(true)
    }

    /// The type that is listed for the alias of a projection is made equal to its term. The answer says whether one is listed.
    fn try_projection(
        &mut self,
        alloc: Global,
        projection: ProjectionPredicate,
    ) -> Result<bool, NoSolutionOrStop>
        requires term { IsTy self.old.context.trees projection.term }
        requires fits { KindFits self.old.context.trees (projection_of projection) }
        requires takes { Takes (world self.old.context) (kind_tree self.old.context.trees (projection_of projection)) }
        ensures goes { GoesOn self.old self.new }
        ensures ok { let ts = self.old.context.trees in IfOk result (λ b. judged_at self.old answered (kind_tree ts (projection_of projection)) (ty_tree ts projection.term) ≡ Some (b, state self.new)) }
        ensures refused { let ts = self.old.context.trees in IfErr result (if_refused (judged_at self.old answered (kind_tree ts (projection_of projection)) (ty_tree ts projection.term) ≡ None)) }
        ensures cause { let ts = self.old.context.trees in IfErr result (if_stopped (λ s. StopsFrom IsProjectionStop self.old self.new (kind_tree ts (projection_of projection)) (ty_tree ts projection.term) s)) }
    {
        self.recall_well_kept();
        let alias = projection.projection_term;
        let kind = TyKind::Alias(AliasTy::projection(alias.def_id, alias.args));
        let alias = self.cx.mk_ty(kind)?;
        self.try_alias(alloc, alias, projection.term)
    }
}

/// What is left of a goal's clause: where its binder has variables, of these kinds, its instance.
fn left_clause(kinds: &[VarKind], clause: Clause, instance: Clause) -> Clause
    ensures { result ≡ second_if_bound kinds.now clause instance }
{
    if kinds.is_empty() { clause } else { instance }
}

/// Puts a goal, if there is one, at a list's end. The only stop is `Stop::Memory`.
fn push_some(
    list: &mut Vec<(GoalSource, Goal<Clause>)>,
    goal: Option<(GoalSource, Goal<Clause>)>,
) -> Result<(), Stop>
    ensures pushed { IfOk result (λ _. list.new.items ≡ list.old.items ++ option_to_list goal) }
    ensures cause { IfErr result (λ s. s ≡ Stop.Memory) }
{
    if let Some(goal) = goal {
        list.push(goal)?;
    }
    Ok(())
}

/// Whether a value came where there was none.
fn got_one(before: Option<GenericArg>, after: Option<GenericArg>) -> bool
    ensures { result ≡ got_one before after }
{
    before.is_none() && after.is_some()
}

/// Whether a variable that had no value has one now. There may be new variables.
fn gave_a_value(before: &[Entry], after: &[Entry]) -> bool
    ensures { result ≡ entries_gave before.now after.now }
{
    for i in 0..before.len() {
        if i >= after.len() {
            return false;
        }
        if got_one(before[i].value, after[i].value) {
            return true;
        }
    }
    false
}

/// How often goals that stay pending are evaluated at most.
pub(crate) const MAX_PASSES: u32 = 8;

impl Rounds {
    /// What the clause says, without its binder.
    fn under_binder(&self, clause: Clause) -> ClauseKind
        requires { IsClause self.now.context.trees clause }
        ensures { Says self.now.context (clause_tree self.now.context.trees clause) result }
    {
        self.cx.recall_well_formed();
        self.cx.clause(clause).value
    }

    /// The kinds of the variables of a clause's binder. The only stop is `Stop::Memory`.
    fn bound_kinds(&self, alloc: Global, clause: Clause) -> Result<Vec<VarKind>, Stop>
        requires { IsClause self.now.context.trees clause }
        ensures kinds { IfOk result (λ v. kinds_listed v.items ≡ bound_kinds (clause_tree self.now.context.trees clause).children) }
        ensures cause { IfErr result (λ s. s ≡ Stop.Memory) }
    {
        Ok(binder_kinds(alloc, &self.cx, clause)?)
    }

    /// A goal of a trait is looked up in the table: a refusal refuses it, what a Yes says is given, and else it stays. Where the table
    /// doesn't have the goal, a round asks for it. The answer is whether nothing stays of it.
    fn try_trait(&mut self, alloc: Global, goal: Goal<Clause>) -> Result<bool, NoSolutionOrStop>
        requires { IsTraitGoal self.old.context.trees goal }
        ensures goes { GoesOn self.old self.new }
        ensures ok { IfOk result (λ b. answered_trait (reads self.old) (state self.old) (goal_seen self.old.context.trees goal) ≡ Some (b, state self.new)) }
        ensures refused { IfErr result (if_refused (answered_trait (reads self.old) (state self.old) (goal_seen self.old.context.trees goal) ≡ None)) }
        ensures asked { IfOk result (λ b. b ≡ false → asked_of self.new ≡ requested_at self.old (key_at (state self.old) (goal_seen self.old.context.trees goal))) }
        ensures cause { let ts = self.old.context.trees in IfErr result (if_stopped (λ s. IsTraitStop (held self.new) (reads self.old) (state self.old) (env_forest ts goal.param_env) (clause_tree ts goal.predicate) s)) }
    {
        self.recall_well_kept();
        let asked = self.key_of(alloc, goal)?;
        match self.lookup(&asked.key) {
            Found::Missing => {
                self.request(alloc, asked.key)?;
                Ok(false)
            }
            Found::Open => {
                self.note_look_up(&asked.key);
                Ok(false)
            }
            Found::Refused => Err(NoSolutionOrStop::NoSolution),
            Found::Yes(place) => {
                let leaks = self.leaks_at(place);
                let response = self.yes_at(&asked.key, place)?;
                self.give(alloc, &asked.key, asked.numbers.as_slice(), &response)?;
                self.note_leak(leaks);
                Ok(true)
            }
        }
    }

    /// An instance, under an empty binder, is evaluated under an environment; the answer is whether nothing stays of it. What is recorded
    /// of a region constraint is the clause beside it.
    fn try_instance(
        &mut self,
        alloc: Global,
        env: ParamEnv,
        instance: Clause,
        clause: Clause,
    ) -> Result<bool, NoSolutionOrStop>
        requires env { IsParamEnv self.old.context.trees env }
        requires unbound { let ts = self.old.context.trees in (clause_tree ts instance).children ≡ tree (H.Part P.Vars) none (after_first (clause_tree ts instance).children) }
        requires instance { IsClause self.old.context.trees instance }
        requires clause { IsClause self.old.context.trees clause }
        ensures goes { GoesOn self.old self.new }
        ensures ok { IfOk result (λ b. evaluated_at self.old env instance clause ≡ Some (b, state self.new)) }
        ensures refused { IfErr result (if_refused (evaluated_at self.old env instance clause ≡ None)) }
        ensures cause { let ts = self.old.context.trees in IfErr result (if_stopped (λ s. IsEvaluationStop (held self.new) (reads self.old) (state self.old) (env_forest ts env) (clause_tree ts instance) s)) }
    {
        match self.under_binder(instance) {
            ClauseKind::Trait(_) => self.try_trait(
                alloc,
                Goal {
                    param_env: env,
                    predicate: instance,
                },
            ),
            ClauseKind::Projection(projection) => self.try_projection(alloc, projection),
            ClauseKind::TypeOutlives(_, _) | ClauseKind::RegionOutlives(_, _) => {
                self.record_region(clause)?;
                Ok(true)
            }
            ClauseKind::AliasRelate(left, right) => {
                self.try_related(alloc, GenericArg::Ty(left), GenericArg::Ty(right))
            }
            ClauseKind::ConstEquate(left, right) => {
                self.try_related(alloc, GenericArg::Const(left), GenericArg::Const(right))
            }
        }
    }

    /// A goal is evaluated: what stays of it is the answer.
    fn try_goal(
        &mut self,
        alloc: Global,
        source: GoalSource,
        goal: Goal<Clause>,
    ) -> Result<Option<(GoalSource, Goal<Clause>)>, NoSolutionOrStop>
        requires { IsGoal self.old.context.trees goal }
        ensures goes { GoesOn self.old self.new }
        ensures sort { IfOk result (λ o. IfSome o (λ g. IsGoal self.new.context.trees g.1)) }
        ensures ok { IfOk result (λ o. try_of (reads self.old) (state self.old) (pending_of self.old.context.trees source goal) ≡ Some (left_of self.new.context.trees o, state self.new)) }
        ensures refused { IfErr result (if_refused (try_of (reads self.old) (state self.old) (pending_of self.old.context.trees source goal) ≡ None)) }
        ensures cause { IfErr result (if_stopped (λ s. IsGoalStop (held self.new) (reads self.old) (state self.old) (pending_of self.old.context.trees source goal) s)) }
    {
        self.recall_well_kept();
        let kinds = self.bound_kinds(alloc, goal.predicate)?;
        let instance = self.instantiate(alloc, goal.predicate, kinds.as_slice())?;
        let predicate = left_clause(kinds.as_slice(), goal.predicate, instance);
        if self.try_instance(alloc, goal.param_env, instance, predicate)? {
            return Ok(None);
        }
        let param_env = goal.param_env;
        Ok(Some((
            source,
            Goal {
                param_env,
                predicate,
            },
        )))
    }

    /// The goals that are pending. The only stop is `Stop::Memory`.
    #[tactic(auto, unfolding(crate::specs::Evaluators::Known::IsEvaluator))]
    pub(crate) fn pending(&self, alloc: Global) -> Result<Vec<(GoalSource, Goal<Clause>)>, Stop>
        ensures fit { IfOk result (λ v. Each (λ g. IsGoal self.now.context.trees g.1) v.items) }
        ensures goals { IfOk result (λ v. pendings_of self.now.context.trees v.items ≡ (state self.now).pending) }
        ensures cause { IfErr result (λ s. s ≡ Stop.Memory) }
    {
        Ok(Vec::from_slice(alloc, self.inference.pending())?)
    }

    /// The goals are evaluated in order: what stays of them is the answer.
    fn try_goals(
        &mut self,
        alloc: Global,
        goals: &[(GoalSource, Goal<Clause>)],
    ) -> Result<Vec<(GoalSource, Goal<Clause>)>, NoSolutionOrStop>
        requires { Each (λ g. IsGoal self.old.context.trees g.1) goals.now }
        ensures goes { GoesOn self.old self.new }
        ensures fit { IfOk result (λ v. Each (λ g. IsGoal self.new.context.trees g.1) v.items) }
        ensures ok { IfOk result (λ v. all_by (try_of (reads self.old)) (state self.old) (pendings_of self.old.context.trees goals.now) ≡ Some (pendings_of self.new.context.trees v.items, state self.new)) }
        ensures refused { IfErr result (if_refused (all_by (try_of (reads self.old)) (state self.old) (pendings_of self.old.context.trees goals.now) ≡ None)) }
        ensures cause { IfErr result (if_stopped (λ s. AreGoalsStop (held self.new) (reads self.old) s (state self.old) (pendings_of self.old.context.trees goals.now))) }
    {
        self.recall_well_kept();
        let mut staying = Vec::new(alloc);
        for i in 0..goals.len() {
            let left = self.try_goal(alloc, goals[i].0, goals[i].1)?;
            push_some(&mut staying, left)?;
        }
        Ok(staying)
    }

    /// Nothing is pending from now on. The only stop is `Stop::Memory`, here and in the next two; here nothing is changed then.
    pub(crate) fn set_aside(&mut self) -> Result<(), Stop>
        ensures goes { GoesOn self.old self.new }
        ensures context { self.new.context ≡ self.old.context }
        ensures made { OnOk result (state self.new ≡ with_pending (state self.old) []) }
        ensures unchanged { OnErr result (self.new ≡ self.old) }
        ensures cause { IfErr result (λ s. s ≡ Stop.Memory) }
    {
        self.inference.set_aside()
    }

    /// The goal is pending, after all others.
    fn push_pending(&mut self, source: GoalSource, goal: Goal<Clause>) -> Result<(), Stop>
        requires { IsGoal self.old.context.trees goal }
        ensures goes { GoesOn self.old self.new }
        ensures context { self.new.context ≡ self.old.context }
        ensures made { OnOk result (state self.new ≡ added (state self.old) (pending_of self.old.context.trees source goal)) }
        ensures cause { IfErr result (λ s. s ≡ Stop.Memory) }
    {
        self.inference.add(source, goal)
    }

    /// The goals are pending, after all others.
    pub(crate) fn leave(&mut self, goals: &[(GoalSource, Goal<Clause>)]) -> Result<(), Stop>
        requires { Each (λ g. IsGoal self.old.context.trees g.1) goals.now }
        ensures goes { GoesOn self.old self.new }
        ensures context { self.new.context ≡ self.old.context }
        ensures made { OnOk result (state self.new ≡ with_left (pendings_of self.old.context.trees goals.now, state self.old)) }
        ensures cause { IfErr result (λ s. s ≡ Stop.Memory) }
    {
        for i in 0..goals.len() {
            self.push_pending(goals[i].0, goals[i].1)?;
        }
        Ok(())
    }

    /// From now on these goals are pending, and no others.
    fn set_pending(&mut self, goals: &[(GoalSource, Goal<Clause>)]) -> Result<(), Stop>
        requires { Each (λ g. IsGoal self.old.context.trees g.1) goals.now }
        ensures goes { GoesOn self.old self.new }
        ensures context { self.new.context ≡ self.old.context }
        ensures made { OnOk result (state self.new ≡ with_pending (state self.old) (pendings_of self.old.context.trees goals.now)) }
        ensures cause { IfErr result (λ s. s ≡ Stop.Memory) }
    {
        self.set_aside()?;
        for i in 0..goals.len() {
            self.push_pending(goals[i].0, goals[i].1)?;
        }
        Ok(())
    }

    /// All pending goals are evaluated once; what stays of them is pending then.
    fn settle_once(&mut self, alloc: Global) -> Result<(), NoSolutionOrStop>
        ensures goes { GoesOn self.old self.new }
        ensures ok { OnOk result (pass_by (try_of (reads self.old)) (state self.old) ≡ Some (state self.new)) }
        ensures refused { IfErr result (λ e. e ≡ NoSolutionOrStop.NoSolution → pass_by (try_of (reads self.old)) (state self.old) ≡ None) }
        ensures cause { IfErr result (if_stopped (λ s. IsPassStop (held self.new) (reads self.old) (state self.old) s)) }
    {
        let goals = self.pending(alloc)?;
        let staying = self.try_goals(alloc, goals.as_slice())?;
        self.set_pending(staying.as_slice())?;
        Ok(())
    }

    /// The variables as they are. The only stop is `Stop::Memory`.
    fn variables_now(&self, alloc: Global) -> Result<Vec<Entry>, Stop>
        ensures variables { IfOk result (λ v. v.items ≡ self.now.inference.variables) }
        ensures cause { IfErr result (λ s. s ≡ Stop.Memory) }
    {
        Ok(Vec::from_slice(alloc, self.inference.variables())?)
    }

    /// Whether a variable that had no value, where these were the variables, has one now.
    fn gave_since(&self, before: &[Entry]) -> bool
        ensures { result ≡ entries_gave before.now self.now.inference.variables }
    {
        gave_a_value(before, self.inference.variables())
    }

    /// What is pending is evaluated so many times at most, and again only while the last time gave a variable a value.
    pub(crate) fn settle(&mut self, alloc: Global, most: u32) -> Result<(), NoSolutionOrStop>
        ensures goes { GoesOn self.old self.new }
        ensures ok { OnOk result (passes_by (try_of (reads self.old)) most (state self.old) ≡ Some (state self.new)) }
        ensures refused { IfErr result (λ e. e ≡ NoSolutionOrStop.NoSolution → passes_by (try_of (reads self.old)) most (state self.old) ≡ None) }
        ensures cause { IfErr result (if_stopped (λ s. ArePassesStop (held self.new) (reads self.old) s most (state self.old))) }
    {
        self.recall_well_kept();
        for _pass in 0..most {
            let before = self.variables_now(alloc)?;
            self.settle_once(alloc)?;
            if !self.gave_since(before.as_slice()) {
                return Ok(());
            }
        }
        Ok(())
    }

    /// Sure, if nothing is pending.
    pub(crate) fn certainty(&self) -> Certainty
        ensures { result ≡ certainty_of (state self.now).pending }
    {
        if self.inference.pending().is_empty() {
            Certainty::Yes
        } else {
            Certainty::AMBIGUOUS
        }
    }
}
