//! The type that a projection is gets known, by the response that `Rounds::normalize` answers; and the goals that are pending are taken.

ghost use Rattle.std.specs.Prelude.{◌≡◌, ◌++◌, ◌∷◌, [], length, None, Some, IfErr, IfOk, OnErr, OnOk};
ghost use Rattle.ir_trees.specs.declared.ir.heads.VariableSort.{VariableSort};
ghost use Rattle.ir_trees.specs.Syntax.Words.{IsTy, ty_tree};
ghost use Rattle.candidate_eval.specs.declared.eval.variable.VariableKind.{VariableKind};
ghost use Rattle.candidate_eval.specs.Interface.Accounts.{if_refused, if_stopped};
ghost use Rattle.candidate_eval.specs.Interface.Evaluators.{IsGoal, Keeps, pendings_of};
ghost use Rattle.candidate_eval.specs.Judges.States.{variable, with_pending};
ghost use Rattle.candidate_eval.specs.Outcomes.ResponseTrees.{IsResponse, response_of};
ghost use Rattle.candidate_rounds.specs.Evaluators.Inferences.{IsFullAt};
ghost use Rattle.candidate_rounds.specs.Evaluators.Interface.{fixed};
ghost use Rattle.candidate_rounds.specs.Evaluators.Known.{Each, GoesOn, listing, probes, state, table_of};
ghost use Rattle.candidate_rounds.specs.Evaluators.Stopping.{StopsFrom};
ghost use Rattle.candidate_rounds.specs.Table.Goals.{IsTraitGoal, key_seen};
ghost use Rattle.candidate_rounds.specs.Table.Normalizing.{IsProjection, goal_of_trait, term_variable, with_term};
ghost use Rattle.candidate_rounds.specs.Table.Projected.{IsGivingNormalStop, IsOpenTermStop, IsTermKeyStop, with_normal};
ghost use Rattle.rounds_judge.specs.Table.Keys.{key_at, numbers_at};
ghost use Rattle.rounds_judge.specs.Table.TableSettling.{with_open};

use crate::rounds::Rounds;
use crate::rounds::goals::GoalKey;
use crate::rounds::keys::newest_of;
use crate::rounds::normalizing::{TERM, add_term, term, trait_predicate};
use candidate_eval::eval::refusal::NoSolutionOrStop;
use candidate_eval::eval::response::CanonicalResponse;
use candidate_eval::eval::variable::CanonicalVar;
use ir_trees::ir::kinds::{AliasTy, Clause, Goal, GoalSource, ParamEnv, Ty};
use ir_trees::ir::stop::Stop;
use std::alloc::Global;

/// The key of the goal of a projection's trait, with one more variable, the last, that stands for the type that the projection is.
#[derive(Drop)]
struct TermKey {
    key: GoalKey,
    /// The numbers of the key's variables.
    numbers: Vec<u32>,
    /// The number of the last one.
    term: u32,
}

impl Rounds {
    /// The goals that are pending, in order; none is pending then. The only stop is `Stop::Memory`; nothing is changed then.
    pub fn take_pending(&mut self, alloc: Global) -> Result<Vec<(GoalSource, Goal<Clause>)>, Stop>
        ensures goes { GoesOn self.old self.new }
        ensures context { self.new.context ≡ self.old.context }
        ensures kept { Keeps fixed probes (λ r. r.context) self.old self.new }
        ensures table { table_of self.new ≡ table_of self.old }
        ensures fit { IfOk result (λ v. Each (λ g. IsGoal self.new.context.trees g.1) v.items) }
        ensures goals { IfOk result (λ v. pendings_of self.new.context.trees v.items ≡ (state self.old).pending) }
        ensures made { OnOk result (state self.new ≡ with_pending (state self.old) []) }
        ensures unchanged { OnErr result (self.new ≡ self.old) }
        ensures stopped { OnErr result (state self.new ≡ state self.old) }
        ensures cause { IfErr result (λ s. s ≡ Stop.Memory) }
    {
        self.recall_well_kept();
        let goals = self.pending(alloc)?;
        self.set_aside()?;
        Ok(goals)
    }

    /// A new variable that stands for the type of a projection, of the newest universe of the key, which is that of its trait's goal, and
    /// whose variables have these numbers. `Stop::Memory` comes where a growth was refused, `Stop::NodesFull` where no number is left, or a
    /// node has more children than can be counted.
    fn open_term(
        &mut self,
        alloc: Global,
        mut key: GoalKey,
        mut numbers: Vec<u32>,
    ) -> Result<TermKey, Stop>
        requires { IsTraitGoal self.old.context.trees key.goal }
        ensures context { self.new.context ≡ self.old.context }
        ensures goes { GoesOn self.old self.new }
        ensures sort { IfOk result (λ x. IsTraitGoal self.new.context.trees x.key.goal) }
        ensures key { let ts = self.old.context.trees in IfOk result (λ x. key_seen ts x.key ≡ with_term (key_seen ts key)) }
        ensures numbers { IfOk result (λ x. x.numbers.items ≡ numbers.items ++ length (state self.old).variables ∷ []) }
        ensures term { IfOk result (λ x. x.term ≡ length (state self.old).variables) }
        ensures made { OnOk result (state self.new ≡ with_open (state self.old) (term_variable (key_seen self.old.context.trees key))) }
        ensures cause { IfErr result (λ s. IsOpenTermStop self.new.context.trees (state self.old) (key_seen self.old.context.trees key) s) }
    {
        let newest = newest_of(alloc, &self.cx, &key)?;
        add_term(&mut key, newest)?;
        let term = self.open_variable(CanonicalVar {
            kind: TERM,
            universe: newest,
        })?;
        numbers.push(term)?;
        Ok(TermKey { key, numbers, term })
    }

    /// The key of the goal that the projection's trait holds, at what is known, with a new variable for the projection's type.
    fn key_with_term(
        &mut self,
        alloc: Global,
        param_env: ParamEnv,
        alias: AliasTy,
    ) -> Result<TermKey, Stop>
        requires { IsProjection self.old.context param_env alias }
        ensures goes { GoesOn self.old self.new }
        ensures sort { IfOk result (λ x. IsTraitGoal self.new.context.trees x.key.goal) }
        ensures key { let r = self.old in IfOk result (λ x. key_seen self.new.context.trees x.key ≡ with_term (key_at (state r) (goal_of_trait r.context param_env alias))) }
        ensures numbers { let r = self.old in IfOk result (λ x. x.numbers.items ≡ numbers_at (state r) (goal_of_trait r.context param_env alias) ++ length (state r).variables ∷ []) }
        ensures term { IfOk result (λ x. x.term ≡ length (state self.old).variables) }
        ensures made { let r = self.old in OnOk result (state self.new ≡ with_open (state r) (term_variable (key_at (state r) (goal_of_trait r.context param_env alias)))) }
        ensures cause { let r = self.old in IfErr result (λ s. IsTermKeyStop self.new.context.trees (state r) (goal_of_trait r.context param_env alias) s) }
    {
        let predicate = trait_predicate(&self.cx, alias);
        let asked = self.asked_for(alloc, param_env, predicate)?;
        self.open_term(alloc, asked.key, asked.numbers)
    }

    /// The general variable of that number: nodes are made, and nothing else. It stops as `mk_ty` does.
    fn term_at(&mut self, number: u32) -> Result<Ty, Stop>
        ensures goes { GoesOn self.old self.new }
        ensures state { state self.new ≡ state self.old }
        ensures sort { IfOk result (λ t. IsTy self.new.context.trees t) }
        ensures tree { IfOk result (λ t. ty_tree self.new.context.trees t ≡ variable (VariableKind.Term VariableSort.General) number) }
        ensures cause { IfErr result (λ s. IsFullAt (length self.new.context.trees) s) }
    {
        term(&mut self.cx, number)
    }

    /// The type that a projection is, as the response of a key says it that `Rounds::normalize` answers for the projection at what is known: a
    /// new variable, whose value is the type. What the response says of the goal's variables is known then, and its constraints are recorded.
    /// It is refused where that can't be. Nothing is promised of what is known after a refusal or a stop: a caller probes.
    ///
    /// `Stop::Memory` comes where a growth was refused, `Stop::NodesFull` where no numbers or universes are left, a tree would be higher than
    /// 1,024, or a node has more children than can be counted.
    pub fn give_normal(
        &mut self,
        alloc: Global,
        param_env: ParamEnv,
        alias: AliasTy,
        response: &CanonicalResponse,
    ) -> Result<Ty, NoSolutionOrStop>
        requires projection { IsProjection self.old.context param_env alias }
        requires response { IsResponse self.old.context.trees response.now }
        ensures goes { GoesOn self.old self.new }
        ensures kept { Keeps fixed probes (λ r. r.context) self.old self.new }
        ensures table { table_of self.new ≡ table_of self.old }
        ensures sort { IfOk result (λ t. IsTy self.new.context.trees t) }
        ensures tree { IfOk result (λ t. ty_tree self.new.context.trees t ≡ variable (VariableKind.Term VariableSort.General) (length (state self.old).variables)) }
        ensures ok { let r = self.old in OnOk result (with_normal (listing r) (state r) (goal_of_trait r.context param_env alias) (response_of r.context.trees response.now) ≡ Some (state self.new)) }
        ensures refused { let r = self.old in IfErr result (if_refused (with_normal (listing r) (state r) (goal_of_trait r.context param_env alias) (response_of r.context.trees response.now) ≡ None)) }
        ensures cause { let r = self.old in IfErr result (if_stopped (StopsFrom IsGivingNormalStop r self.new (goal_of_trait r.context param_env alias) (response_of r.context.trees response.now))) }
    {
        self.recall_well_kept();
        let asked = self.key_with_term(alloc, param_env, alias)?;
        self.give(alloc, &asked.key, asked.numbers.as_slice(), response)?;
        Ok(self.term_at(asked.term)?)
    }
}
