//! What a projection comes to: rounds for the goal of its trait, and then the goal that the projection is a new variable.

ghost use Rattle.std.specs.Prelude.{◌≡◌, ◌<◌, ◌++◌, ◌∷◌, List, true, false, [], length, map, Some, None, IfErr, IfOk, IfSome, OnOk};
ghost use Rattle.ir_trees.specs.declared.ir.kinds.AliasKind.TheVariants as alias_kind;
ghost use Rattle.ir_trees.specs.Declarations.Context.{Grows};
ghost use Rattle.ir_trees.specs.Syntax.Trees.{Tree};
ghost use Rattle.ir_trees.specs.Syntax.Words.{IsArgs, IsTy, args_forest, ty_tree};
ghost use Rattle.candidate_eval.specs.Interface.Evaluators.{NoFault};
ghost use Rattle.candidate_eval.specs.Judges.States.{variable};
ghost use Rattle.candidate_eval.specs.Outcomes.ResponseTrees.{IsResponse};
ghost use Rattle.candidate_assembly.specs.Answers.Shown.{IsAnsweredBy};
ghost use Rattle.candidate_assembly.specs.Goals.KindShown.{IsGoal};
ghost use Rattle.candidate_assembly.specs.Goals.Standing.{GoalIsValid};
ghost use Rattle.candidate_rounds.specs.Calls.Starting.{started};
ghost use Rattle.candidate_rounds.specs.Evaluators.Inferences.{IsFullAt};
ghost use Rattle.candidate_rounds.specs.Evaluators.Known.{GoesOn, listing, state, sure_of, table_of};
ghost use Rattle.candidate_rounds.specs.Table.Entries.{new_entry};
ghost use Rattle.candidate_rounds.specs.Table.Goals.{IsKeyOf, key_seen, verdict_seen};
ghost use Rattle.candidate_rounds.specs.Table.Efforts.{IsEffort};
ghost use Rattle.candidate_rounds.specs.Table.Normalized.{IsLeftAfter, IsNormalized, IsNormalizedAt, IsNotBegun, as_answer, proved_via};
ghost use Rattle.candidate_rounds.specs.Table.Normalizing.{IsProjection, TakesAsTrait, goal_of_trait, rounds_shown, term_goal, trait_predicate, with_term};
ghost use Rattle.candidate_rounds.specs.Table.Running.{StaysBesideTable};
ghost use Rattle.derivations.specs.DerivedTables.{TableIsDerived};
ghost use Rattle.projection_goals.specs.Closures.{always, answers_rigid};
ghost use Rattle.projection_goals.specs.Normalizing.{normalizes_goal, normalizes_kind, normalizes_rules, trait_named};
ghost use Rattle.candidate_rounds.specs.Evaluators.Stopping.{IsCanonicalStop};
ghost use Rattle.rounds_judge.specs.Obligations.Responding.{renumbered, with_numbers};
ghost use Rattle.rounds_judge.specs.Table.GoalTable.{may_be_asked};
ghost use Rattle.rounds_judge.specs.Table.Keys.{key_at, newest_of};

use crate::rounds::Rounds;
use crate::rounds::effort::Effort;
use crate::rounds::goals::{GoalKey, Verdict};
use crate::rounds::inference::Inference;
use crate::rounds::keys::newest_of;
use crate::rounds::responding::{numbered_args, numbers_of};
use crate::rounds::running::predicate_of;
use candidate_assembly::assembly::merging::TraitGoalProvenVia;
use candidate_eval::eval::refusal::NoSolutionOrStop;
use candidate_eval::eval::response::CanonicalResponse;
use candidate_eval::eval::variable::{CanonicalVar, VariableKind};
use ir_context::decl::context::Cx;
use ir_context::decl::make::Build;
use ir_trees::ir::heads::VariableSort;
use ir_trees::ir::kinds::{
    AliasTy, Args, AssocId, InferTy, ParamEnv, PredicatePolarity, TraitPredicate, TraitRef, Ty,
    TyKind,
};
use ir_trees::ir::stop::Stop;
use projection_goals::kind::{NormalizesTo, trait_of};
use projection_goals::proving::compute_normalizes_to;
use std::alloc::Global;

/// Where a goal that a projection is a new variable is computed, and the goal.
#[derive(Drop)]
struct TermStart {
    inference: Inference,
    param_env: ParamEnv,
    goal: NormalizesTo,
}

/// The kind of the variable that stands for the term.
pub(crate) const TERM: VariableKind = VariableKind::Term(VariableSort::General);

/// That the trait of a projection holds of the projection's arguments.
pub fn trait_predicate(cx: &Cx, alias: AliasTy) -> TraitPredicate
    ensures { result ≡ trait_predicate cx.now alias }
{
    let trait_ref = TraitRef {
        def_id: trait_of(cx, AssocId(alias.id.0)),
        args: alias.args,
    };
    TraitPredicate {
        trait_ref,
        polarity: PredicatePolarity::Positive,
    }
}

/// The list with its variables numbered from 0 on, in the order in which they first occur. Nodes are made, and nothing else is changed.
/// `Stop::Memory` comes where a growth was refused, `Stop::NodesFull` where no number is left, a tree would be higher than 1,024, or a node
/// has more children than can be counted.
pub fn canonical_args(alloc: Global, cx: &mut Cx, args: Args) -> Result<Args, Stop>
    requires { IsArgs cx.old.trees args }
    ensures grows { Grows cx.old cx.new }
    ensures faults { NoFault cx.old cx.new }
    ensures sort { IfOk result (λ a. IsArgs cx.new.trees a) }
    ensures trees { let f = args_forest cx.old.trees args in IfOk result (λ a. args_forest cx.new.trees a ≡ renumbered (with_numbers [] f) f) }
    ensures cause { IfErr result (IsCanonicalStop cx.new.trees (args_forest cx.old.trees args)) }
{
    let numbers = numbers_of(alloc, cx, args, &[])?;
    numbered_args(alloc, cx, numbers.as_slice(), args)
}

/// How the goal of a verdict is proved, if it may hold: the way that the verdict names, also where it is a Maybe.
fn proved_via(verdict: &Verdict) -> Option<Option<TraitGoalProvenVia>>
    ensures { (ts : List Tree) → result ≡ proved_via (verdict_seen ts verdict.now) }
{
    match verdict {
        Verdict::Yes(_, way) | Verdict::Maybe(_, way) => Some(*way),
        Verdict::Refused => None,
    }
}

/// A refusal is an answer, too.
fn as_answer(
    answer: Result<CanonicalResponse, NoSolutionOrStop>,
) -> Result<Option<CanonicalResponse>, Stop>
    ensures { result ≡ as_answer answer }
{
    match answer {
        Ok(response) => Ok(Some(response)),
        Err(NoSolutionOrStop::NoSolution) => Ok(None),
        Err(NoSolutionOrStop::Stop(stop)) => Err(stop),
    }
}

/// One more variable for the key, the last: it stands for a projection's term. Its number is answered. `Stop::Memory` comes where a growth was
/// refused, `Stop::NodesFull` where no number is left.
pub(crate) fn add_term(key: &mut GoalKey, newest: u32) -> Result<u32, Stop>
    ensures goal { key.new.goal ≡ key.old.goal }
    ensures variables { OnOk result (key.new.variables.items ≡ key.old.variables.items ++ record { kind = VariableKind.Term VariableSort.General; universe = newest } ∷ []) }
    ensures number { IfOk result (λ n. n ≡ length key.old.variables.items) }
    ensures cause { IfErr result (λ s. IsFullAt (length key.old.variables.items) s) }
{
    let number = key.variables.len();
    if number >= u32::MAX as usize {
        return Err(Stop::NodesFull);
    }
    key.variables.push(CanonicalVar {
        kind: TERM,
        universe: newest,
    })?;
    Ok(number as u32)
}

/// The general variable of that number. `Stop::Memory` comes where a growth was refused, `Stop::NodesFull` where no node is left.
pub(crate) fn term(cx: &mut Cx, number: u32) -> Result<Ty, Stop>
    ensures grows { Grows cx.old cx.new }
    ensures faults { NoFault cx.old cx.new }
    ensures sort { IfOk result (λ t. IsTy cx.new.trees t) }
    ensures tree { IfOk result (λ t. ty_tree cx.new.trees t ≡ variable (VariableKind.Term VariableSort.General) number) }
    ensures cause { IfErr result (λ s. IsFullAt (length cx.new.trees) s) }
{
    cx.mk_ty(TyKind::Infer(InferTy::TyVar(number)))
}

/// Where the projection's goal is computed, of the arguments of the key, which is that of its trait's goal: the key's variables are there and
/// one more, of the newest universe, and nothing else is known; and the goal that the projection is that variable.
///
/// `Stop::Memory` comes where a growth was refused, `Stop::NodesFull` where no number is left or a node has more children than can be counted.
fn start_with_term(
    alloc: Global,
    cx: &mut Cx,
    mut key: GoalKey,
    alias: AliasTy,
) -> Result<TermStart, Stop>
    requires key { IsKeyOf cx.old.trees key }
    requires takes { TakesAsTrait cx.old alias }
    requires of { (key_seen cx.old.trees key).goal.reference.trait ≡ trait_named cx.old alias.id.0 }
    ensures grows { Grows cx.old cx.new }
    ensures faults { NoFault cx.old cx.new }
    ensures inference { let k = with_term (key_seen cx.old.trees key) in IfOk result (λ s. s.inference ≡ started (newest_of k) k.variables) }
    ensures projection { IfOk result (λ s. s.goal.alias.kind ≡ alias_kind.Projection) }
    ensures goal { IfOk result (λ s. IsGoal normalizes_kind cx.new s.param_env s.goal) }
    ensures says { IfOk result (λ s. normalizes_goal cx.new.trees s.param_env s.goal ≡ term_goal alias.id.0 (key_seen cx.old.trees key)) }
    ensures cause { IfErr result (IsNotBegun cx.new.trees (key_seen cx.old.trees key)) }
{
    let newest = newest_of(alloc, cx, &key)?;
    let number = add_term(&mut key, newest)?;
    let inference = Inference::at(alloc, newest, key.variables.as_slice())?;
    let term = term(cx, number)?;
    let predicate = predicate_of(cx, &key);
    let alias = AliasTy {
        kind: alias.kind,
        id: alias.id,
        args: predicate.trait_ref.args,
    };
    Ok(TermStart {
        inference,
        param_env: key.goal.param_env,
        goal: NormalizesTo { alias, term },
    })
}

impl Rounds {
    /// The start with a term over the evaluator's context: nodes are made, and nothing else changes.
    fn start_with_term(
        &mut self,
        alloc: Global,
        key: GoalKey,
        alias: AliasTy,
    ) -> Result<TermStart, Stop>
        requires key { IsKeyOf self.old.context.trees key }
        requires takes { TakesAsTrait self.old.context alias }
        requires of { (key_seen self.old.context.trees key).goal.reference.trait ≡ trait_named self.old.context alias.id.0 }
        ensures goes { GoesOn self.old self.new }
        ensures goals { self.new.goals ≡ self.old.goals }
        ensures state { state self.new ≡ state self.old }
        ensures inference { let k = with_term (key_seen self.old.context.trees key) in IfOk result (λ s. s.inference ≡ started (newest_of k) k.variables) }
        ensures projection { IfOk result (λ s. s.goal.alias.kind ≡ alias_kind.Projection) }
        ensures goal { IfOk result (λ s. IsGoal normalizes_kind self.new.context s.param_env s.goal) }
        ensures says { IfOk result (λ s. normalizes_goal self.new.context.trees s.param_env s.goal ≡ term_goal alias.id.0 (key_seen self.old.context.trees key)) }
        ensures cause { IfErr result (IsNotBegun self.new.context.trees (key_seen self.old.context.trees key)) }
    {
        start_with_term(alloc, &mut self.cx, key, alias)
    }

    /// `canonical_args` over the evaluator's context: nodes are made, and nothing else.
    fn number_args(&mut self, alloc: Global, args: Args) -> Result<Args, Stop>
        requires { IsArgs self.old.context.trees args }
        ensures goes { GoesOn self.old self.new }
        ensures goals { self.new.goals ≡ self.old.goals }
        ensures state { state self.new ≡ state self.old }
        ensures sort { IfOk result (λ a. IsArgs self.new.context.trees a) }
        ensures trees { let f = args_forest self.old.context.trees args in IfOk result (λ a. args_forest self.new.context.trees a ≡ renumbered (with_numbers [] f) f) }
        ensures cause { IfErr result (IsCanonicalStop self.new.context.trees (args_forest self.old.context.trees args)) }
    {
        canonical_args(alloc, &mut self.cx, args)
    }

    /// A list of the evaluator's context with its variables numbered from 0 on, in the order in which they first occur. Nodes are made, and
    /// nothing else is changed: the new numbers are those of no variable that is known of. It stops as the function `canonical_args` does.
    pub fn canonical_args(&mut self, alloc: Global, args: Args) -> Result<Args, Stop>
        requires { IsArgs self.old.context.trees args }
        ensures stays { StaysBesideTable self.old self.new }
        ensures table { table_of self.new ≡ table_of self.old }
        ensures sure { sure_of self.new ≡ sure_of self.old }
        ensures faults { NoFault self.old.context self.new.context }
        ensures sort { IfOk result (λ a. IsArgs self.new.context.trees a) }
        ensures trees { let f = args_forest self.old.context.trees args in IfOk result (λ a. args_forest self.new.context.trees a ≡ renumbered (with_numbers [] f) f) }
        ensures cause { IfErr result (IsCanonicalStop self.new.context.trees (args_forest self.old.context.trees args)) }
    {
        self.recall_well_kept();
        self.number_args(alloc, args)
    }

    /// What the projection of a key's arguments comes to, where its trait's goal has the key and was proved in that way. What is known stays.
    fn normalized(
        &mut self,
        alloc: Global,
        key: GoalKey,
        alias: AliasTy,
        way: Option<TraitGoalProvenVia>,
    ) -> Result<Option<CanonicalResponse>, Stop>
        requires key { IsKeyOf self.old.context.trees key }
        requires takes { TakesAsTrait self.old.context alias }
        requires of { (key_seen self.old.context.trees key).goal.reference.trait ≡ trait_named self.old.context alias.id.0 }
        ensures stays { StaysBesideTable self.old self.new }
        ensures table { table_of self.new ≡ table_of self.old }
        ensures sort { IfOk result (λ o. IfSome o (IsResponse self.new.context.trees)) }
        ensures answer { let k = key_seen self.old.context.trees key in IsNormalizedAt self.new.context.trees self.old (table_of self.old) k alias.id.0 way result }
    {
        self.recall_well_kept();
        let start = self.start_with_term(alloc, key, alias)?;
        self.recall_well_kept();
        self.recall_trees_fit();
        self.cx.recall_well_formed_table();
        let aside = self.suspend_state(alloc, start.inference);
        let answer = self.normalize_here(alloc, way, start.param_env, start.goal);
        self.recall_well_kept();
        self.restore_state(aside);
        as_answer(answer)
    }

    /// What a goal that a projection is a term comes to at what is known, by `compute_normalizes_to`.
    fn normalize_here(
        &mut self,
        alloc: Global,
        way: Option<TraitGoalProvenVia>,
        param_env: ParamEnv,
        goal: NormalizesTo,
    ) -> Result<CanonicalResponse, NoSolutionOrStop>
        requires goal { IsGoal normalizes_kind self.old.context param_env goal }
        requires projection { goal.alias.kind ≡ alias_kind.Projection }
        requires stands { GoalIsValid normalizes_rules (state self.old) (normalizes_goal self.old.context.trees param_env goal) }
        ensures answered { IsAnsweredBy rounds_shown (always None) tt (answers_rigid rounds_shown param_env goal) tt normalizes_kind self.old param_env goal way result self.new }
    {
        compute_normalizes_to(alloc, self, way, param_env, goal)
    }

    /// What was asked for meanwhile is entered in the table, after all others.
    fn keep_asked(&mut self)
        ensures { self.new ≡ record self.old { goals = record { table = self.old.goals.table ++ map new_entry self.old.goals.asked; asked = []; asks = self.old.goals.asks } } }
    {
        self.goals.keep_asked();
    }

    /// What the goal comes to as `normalize_here` has it, where goals are asked for meanwhile, which are entered then. Where it stops
    /// none is.
    fn normalized_once(
        &mut self,
        alloc: Global,
        key: GoalKey,
        alias: AliasTy,
        way: Option<TraitGoalProvenVia>,
    ) -> Result<Option<CanonicalResponse>, Stop>
        requires key { IsKeyOf self.old.context.trees key }
        requires takes { TakesAsTrait self.old.context alias }
        requires of { (key_seen self.old.context.trees key).goal.reference.trait ≡ trait_named self.old.context alias.id.0 }
        ensures stays { StaysBesideTable self.old self.new }
        ensures sort { IfOk result (λ o. IfSome o (IsResponse self.new.context.trees)) }
        ensures answer { let k = key_seen self.old.context.trees key in IsNormalizedAt self.new.context.trees self.old (table_of self.old) k alias.id.0 way result }
        ensures left { IsLeftAfter (table_of self.old) (table_of self.new) result }
        ensures asked { self.new.goals.asked ≡ [] }
        ensures asks { self.new.goals.asks ≡ false }
    {
        self.set_asking(true);
        match self.normalized(alloc, key, alias, way) {
            Ok(answer) => {
                self.recall_well_kept();
                self.keep_asked();
                self.set_asking(false);
                Ok(answer)
            }
            Err(stop) => {
                self.set_asking(false);
                Err(stop)
            }
        }
    }

    /// What type a projection is, by that effort: the goal of its trait is run, and where that isn't refused, the goal that the
    /// projection is a new variable is computed under the table then left, in the way that the trait's verdict names. `None` says that there
    /// is no type, as far as the rules go.
    ///
    /// The trait's goal may be a Maybe. More rounds may then refuse it, or find another way, and so take a sure answer back. Who needs an
    /// answer that stays runs the trait's goal first and asks where that is a Yes.
    ///
    /// The response is of the key of the trait's goal: it speaks of the variables of the environment and of the projection, in the order in
    /// which they first occur, the environment first, and last of the new one, whose value is the type that the projection is. The new one is
    /// of the newest universe of the key. In a rigid answer the value is the projection itself, or its listed type.
    ///
    /// What is known, what is pending and the open probes stay in each case. The goals that the projection's first asks for are entered, so
    /// that the rounds of a later call take them up. It stops as `run` does, and as `compute_normalizes_to` does; the table is then the one
    /// that the run left.
    pub fn normalize(
        &mut self,
        alloc: Global,
        param_env: ParamEnv,
        alias: AliasTy,
        effort: Effort,
    ) -> Result<Option<CanonicalResponse>, Stop>
        requires some { IsEffort effort }
        requires projection { IsProjection self.old.context param_env alias }
        requires asked { may_be_asked (key_at (state self.old) (goal_of_trait self.old.context param_env alias)) ≡ true }
        ensures stays { StaysBesideTable self.old self.new }
        ensures sort { IfOk result (λ o. IfSome o (IsResponse self.new.context.trees)) }
        ensures normalized { IsNormalized self.new.context.trees self.old param_env alias effort (table_of self.new) result }
        ensures asked { self.new.goals.asked ≡ [] }
        ensures asks { self.new.goals.asks ≡ false }
        ensures derived { TableIsDerived self.new.context (listing self.new) (table_of self.new) }
    {
        let predicate = trait_predicate(&self.cx, alias);
        let verdict = self.run_by(alloc, param_env, predicate, effort)?;
        let Some(way) = proved_via(&verdict) else {
            return Ok(None);
        };
        self.recall_well_kept();
        let key = self.key_for(alloc, param_env, predicate)?;
        let answer = self.normalized_once(alloc, key, alias, way);
        self.recall_well_kept();
        answer
    }
}
