//! Whether a goal stands at what is known, so that it may be asked.

ghost use Rattle.std.specs.Prelude.{◌≡◌, true, nat_lt, not, refl, slice_get};
ghost use Rattle.ir_trees.specs.Declarations.References.{ArgumentsFit};
ghost use Rattle.ir_trees.specs.Syntax.Words.{IsArgs, IsParamEnv, args_forest, env_forest};
ghost use Rattle.candidate_assembly.specs.Goals.KindShown.{IsGoal, trait_kind};
ghost use Rattle.candidate_assembly.specs.Goals.Standing.{GoalIsValid, IsValidAt};
ghost use Rattle.candidate_assembly.specs.Goals.TraitGoals.{trait_goal};
ghost use Rattle.candidate_assembly.specs.Goals.TraitRules.{trait_rules};
ghost use Rattle.candidate_rounds.specs.Calls.Standing.{forests_stand_at, is_free_as, is_strange_to, stands_at};
ghost use Rattle.candidate_rounds.specs.Evaluators.Known.{state};

use crate::rounds::Rounds;
use crate::rounds::inference::Inference;
use crate::rounds::keys::stands;
use crate::rounds::resolving::is_same_kind;
use candidate_eval::eval::variable::VariableKind;
use ir_trees::ir::heads::VariableSort;
use ir_trees::ir::kinds::{Args, ConstKind, ParamEnv, RegionKind, TraitPredicate, TyKind};
use ir_trees::ir::marks::Mark;
use ir_trees::ir::node::Node;
use std::alloc::Global;

/// The mark of what is strange to what is known: a variable that isn't there, is of another kind or has a value, or a placeholder of a
/// universe above the newest.
#[derive(Drop)]
struct OutOfScope<'a> {
    inference: &'a Inference,
}

impl OutOfScope<'_> {
    /// Whether the variable of that number isn't there, is of another kind or has a value.
    fn is_variable(&self, kind: VariableKind, number: u32) -> bool
        ensures { result ≡ not (is_free_as kind (slice_get self.now.inference.now.variables number)) }
    {
        match self.inference.entry(number) {
            Some(entry) => entry.value.is_some() || !is_same_kind(entry.kind, kind),
            None => true,
        }
    }

    /// Whether the universe is above the newest.
    fn is_above(&self, universe: u32) -> bool
        ensures { result ≡ nat_lt self.now.inference.now.newest_universe universe }
    {
        universe > self.inference.newest_universe()
    }
}

impl Mark for OutOfScope<'_> {
    ghost marks = { λ m. is_strange_to m.inference.now };

    fn is_on(&self, node: &Node) -> bool {
        match node {
            Node::Ty(TyKind::Infer(of)) => {
                let variable = of.variable();
                self.is_variable(VariableKind::Term(variable.sort), variable.number)
            }
            Node::Const(ConstKind::Infer(number)) => {
                self.is_variable(VariableKind::Term(VariableSort::Constant), *number)
            }
            Node::Region(RegionKind::Var(number)) => {
                self.is_variable(VariableKind::Region, *number)
            }
            Node::Ty(TyKind::Placeholder(placeholder))
            | Node::Const(ConstKind::Placeholder(placeholder))
            | Node::Region(RegionKind::Placeholder(placeholder)) => {
                self.is_above(placeholder.universe)
            }
            _ => false,
        }
    }

    ghost no_list = { λ _ _. refl };
}

impl Rounds {
    /// Whether the goal of an environment and a predicate stands at what is known, as `compute_trait_goal` and what lists candidates ask:
    /// the arguments are those that the trait takes, and in them and in the environment stands no parameter, no bound variable that
    /// escapes, no variable but those that are there and have no value, and no placeholder of a universe that isn't there.
    ///
    /// A goal in which a variable with a value stands may stand all the same, where the value makes sense; it gets a no here until its
    /// values are put in (`resolve_args_if_possible`, `resolve_clause_if_possible`).
    pub fn stands_here(&self, alloc: Global, param_env: ParamEnv, predicate: TraitPredicate) -> bool
        requires env { IsParamEnv self.now.context.trees param_env }
        requires args { IsArgs self.now.context.trees predicate.trait_ref.args }
        ensures goal { result ≡ true → IsGoal trait_kind self.now.context param_env predicate }
        ensures stands { result ≡ true → GoalIsValid trait_rules (state self.now) (trait_goal self.now.context.trees param_env predicate) }
        ensures all { ArgumentsFit self.now.context predicate.trait_ref → stands_at (state self.now) (trait_goal self.now.context.trees param_env predicate) ≡ true → result ≡ true }
    {
        self.recall_well_kept();
        if !self.cx.trait_ref_args_fit(predicate.trait_ref) {
            return false;
        }
        let strange = OutOfScope {
            inference: &self.inference,
        };
        stands(alloc, &self.cx, &strange, param_env)
            && stands(alloc, &self.cx, &strange, predicate.trait_ref.args)
    }

    /// Whether an environment and a list stand at what is known, as all that a goal of some other kind mentions has to. What arguments a
    /// definition takes isn't looked at; else it is a no where `stands_here` has one.
    pub fn list_stands_here(&self, alloc: Global, param_env: ParamEnv, list: Args) -> bool
        requires env { IsParamEnv self.now.context.trees param_env }
        requires list { IsArgs self.now.context.trees list }
        ensures stands { result ≡ true → IsValidAt (state self.now) (env_forest self.now.context.trees param_env) (args_forest self.now.context.trees list) }
        ensures all { forests_stand_at (state self.now) (env_forest self.now.context.trees param_env) (args_forest self.now.context.trees list) ≡ true → result ≡ true }
    {
        self.recall_well_kept();
        let strange = OutOfScope {
            inference: &self.inference,
        };
        stands(alloc, &self.cx, &strange, param_env) && stands(alloc, &self.cx, &strange, list)
    }
}
