//! Keys of goals of traits: what they are, which of them may be computed, and which verdicts may be read.

ghost use Rattle.std.specs.Prelude.{◌≡◌, ◌<◌, [], true, not, max, refl, length, map, slice_get, Some, IfErr, IfOk};
ghost use Rattle.std.specs.List.{list_all};
ghost use Rattle.ir_trees.specs.Declarations.Context.{Grows};
ghost use Rattle.candidate_eval.specs.Interface.Evaluators.{NoFault};
ghost use Rattle.ir_trees.specs.Syntax.Nodes.{kind_at, tree_at};
ghost use Rattle.ir_trees.specs.Syntax.Trees.{is_list_kind};
ghost use Rattle.ir_trees.specs.Unification.Substitutions.{alone};
ghost use Rattle.ir_trees.specs.Syntax.Words.{ClauseListFits, IsArgs, args_forest, clause_tree, env_forest};
ghost use Rattle.candidate_eval.specs.declared.eval.mode.TypingMode.{TypingMode};
ghost use Rattle.candidate_eval.specs.declared.eval.mode.TypingMode.TheVariants.{PostAnalysis};
ghost use Rattle.candidate_eval.specs.Interface.Noting.{IsNotingStop};
ghost use Rattle.candidate_eval.specs.Outcomes.ResponseTrees.{IsResponse, response_of};
ghost use Rattle.candidate_eval.specs.Judges.Soundness.{is_strange};
ghost use Rattle.candidate_eval.specs.Judges.States.{has_kind, resolved, resolved_tree};
ghost use Rattle.candidate_rounds.specs.Calls.Starting.{stand};
ghost use Rattle.candidate_rounds.specs.Calls.Walking.{AreUpTo};
ghost use Rattle.candidate_rounds.specs.Table.Goals.{IsTraitGoal, IsVerdict, goal_seen, key_seen, verdict_seen};
ghost use Rattle.candidate_rounds.specs.Evaluators.Known.{Each, GoesOn, IsKnown, SuitsKind, members_of, state, state_of};
ghost use Rattle.candidate_rounds.specs.Evaluators.Stopping.{IsKeyStop, IsNumberedStop};
ghost use Rattle.rounds_judge.specs.Table.GoalTable.{has_parameter, is_foreign, may_be_asked, may_be_given, may_be_read};
ghost use Rattle.rounds_judge.specs.Table.Keys.{every, fresh_state, goal_trees, greatest_named, greatest_of, key_at, newest_of, numbers_at, over_trees, root_of, universe_named};
ghost use Rattle.rounds_judge.specs.Obligations.Responding.{renumbered, with_numbers};
ghost use Rattle.rounds_judge.specs.Table.TableSettling.{are_bare, greatest_in, greatest_said};

use crate::rounds::Rounds;
use crate::rounds::goals::{GoalKey, Verdict};
use crate::rounds::inference::Inference;
use crate::rounds::resolving::{is_same_kind, resolved};
use crate::rounds::responding::{note_below, open_variables, renumbered};
use crate::rounds::walking::has_marked;
use candidate_eval::eval::certainty::Certainty;
use candidate_eval::eval::clauses::predicate_in;
use candidate_eval::eval::response::CanonicalResponse;
use candidate_eval::eval::variable::{CanonicalVar, VariableKind};
use ir_context::decl::context::Cx;
use ir_trees::ir::heads::{ConstHead, Flag, Head, Marks, VariableSort};
use ir_trees::ir::kinds::{Args, Clause, ConstKind, Goal, RegionKind, TyKind};
use ir_trees::ir::marks::Mark;
use ir_trees::ir::node::Node;
use ir_trees::ir::numbered::Numbered;
use ir_trees::ir::stop::Stop;
use ir_trees::ir::trees::Trees;
use ir_trees::ir::walked::Walked;
use std::alloc::Global;

/// A goal's key, and the numbers of the goal's variables, in the order of the key's.
#[derive(Drop)]
pub(crate) struct Asked {
    pub key: GoalKey,
    pub numbers: Vec<u32>,
}

/// The arguments of what the goal says of a trait.
fn arguments(cx: &Cx, goal: Goal<Clause>) -> Args
    requires { IsTraitGoal cx.now.trees goal }
    ensures sort { IsArgs cx.now.trees result }
    ensures trees { args_forest cx.now.trees result ≡ (goal_seen cx.now.trees goal).reference.arguments }
{
    match predicate_in(cx, goal.predicate) {
        Some(predicate) => predicate.trait_ref.args,
        None => unreachable!(),
    }
}

/// The universe of the placeholder that a number is, or the root.
fn universe_at(cx: &Cx, number: u32) -> u32
    requires { number < length cx.now.trees }
    ensures { result ≡ universe_named (tree_at cx.now.trees number).head }
{
    match cx.head(number) {
        Head::Placeholder(placeholder) => placeholder.universe,
        Head::Const(ConstHead::Placeholder(placeholder)) => placeholder.universe,
        Head::Region(RegionKind::Placeholder(placeholder)) => placeholder.universe,
        _ => 0,
    }
}

/// The greater one.
fn greater(a: u32, b: u32) -> u32
    ensures { result ≡ max a b }
{
    if a < b { b } else { a }
}

/// The greatest of a universe and those of the placeholders below a number, where none of those below the walked numbers is greater
/// than that universe. `Stop::NodesFull` comes where a node has more children than can be counted.
fn greatest_below(
    cx: &Cx,
    walked: &mut Walked<u32>,
    number: u32,
    universe: u32,
) -> Result<u32, Stop>
    requires number { number < length cx.now.trees }
    requires walked { AreUpTo universe cx.now.trees walked.old }
    ensures greatest { IfOk result (λ n. n ≡ max universe (greatest_named (tree_at cx.now.trees number).children)) }
    ensures walked { IfOk result (λ n. AreUpTo n cx.now.trees walked.new) }
    ensures cause { IfErr result (λ s. IsNotingStop cx.now.trees s) }
{
    if !cx.marks(number).has_placeholder() {
        return Ok(universe);
    }
    if walked.has(number) {
        return Ok(universe);
    }
    let mut greatest = universe;
    for place in 0..usize::MAX {
        let Some(child) = cx.child(number, place) else {
            walked.note(number, place);
            return Ok(greatest);
        };
        let with_child = greater(greatest, universe_at(cx, child));
        greatest = greatest_below(cx, walked, child, with_child)?;
    }
    Err(Stop::NodesFull)
}

/// The greatest universe of these variables, or the root.
fn greatest_of(variables: &[CanonicalVar]) -> u32
    ensures { result ≡ greatest_of variables.now }
{
    let mut greatest = 0;
    for i in 0..variables.len() {
        greatest = greater(greatest, variables[i].universe);
    }
    greatest
}

/// The greatest universe of the placeholders and variables of a key, or the root. It stops as `greatest_below` does, as what follows
/// does, too.
pub(crate) fn newest_of(alloc: Global, cx: &Cx, key: &GoalKey) -> Result<u32, Stop>
    requires { IsTraitGoal cx.now.trees key.now.goal }
    ensures newest { IfOk result (λ n. n ≡ newest_of (key_seen cx.now.trees key.now)) }
    ensures cause { IfErr result (λ s. IsNotingStop cx.now.trees s) }
{
    let mut walked = Walked::new(alloc);
    let variables = greatest_of(key.variables.as_slice());
    let env = greatest_below(cx, &mut walked, key.goal.param_env.0, variables)?;
    greatest_below(cx, &mut walked, arguments(cx, key.goal).0, env)
}

/// The greatest of a universe and those of the placeholders in clauses. Between calls, no universe below a number that was walked is
/// greater.
fn greatest_in(
    cx: &Cx,
    walked: &mut Walked<u32>,
    clauses: &[Clause],
    universe: u32,
) -> Result<u32, Stop>
    requires clauses { ClauseListFits cx.now.trees clauses.now }
    requires walked { AreUpTo universe cx.now.trees walked.old }
    ensures greatest { IfOk result (λ n. n ≡ max universe (greatest_in (map (clause_tree cx.now.trees) clauses.now))) }
    ensures cause { IfErr result (λ s. IsNotingStop cx.now.trees s) }
{
    let mut greatest = universe;
    for i in 0..clauses.len() {
        let with_root = greater(greatest, universe_at(cx, clauses[i].0));
        greatest = greatest_below(cx, walked, clauses[i].0, with_root)?;
    }
    Ok(greatest)
}

/// The greatest universe of the placeholders in what a response says, or the root.
pub(crate) fn greatest_said(
    alloc: Global,
    cx: &Cx,
    response: &CanonicalResponse,
) -> Result<u32, Stop>
    requires { IsResponse cx.now.trees response.now }
    ensures greatest { IfOk result (λ n. n ≡ greatest_said (response_of cx.now.trees response.now)) }
    ensures cause { IfErr result (λ s. IsNotingStop cx.now.trees s) }
{
    let mut walked = Walked::new(alloc);
    let values = greatest_below(cx, &mut walked, response.values.0, 0)?;
    greatest_in(cx, &mut walked, response.regions.as_slice(), values)
}

/// The mark of a variable that isn't among these or is of another kind, and of a placeholder of a universe above that one.
#[derive(Drop)]
struct OutOfScope<'a> {
    newest: u32,
    variables: &'a [CanonicalVar],
}

impl OutOfScope<'_> {
    /// Whether the variable of that number isn't among these, or is of another kind.
    fn is_variable(&self, kind: VariableKind, number: u32) -> bool
        ensures { result ≡ not (has_kind kind (slice_get (map root_of self.now.variables.now) number)) }
    {
        match self.variables.get(number as usize) {
            Some(variable) => !is_same_kind(variable.kind, kind),
            None => true,
        }
    }
}

impl Mark for OutOfScope<'_> {
    ghost marks = { λ m. is_strange (fresh_state PostAnalysis m.newest m.variables.now) every };

    fn is_on(&self, node: &Node) -> bool {
        match node {
            Node::Ty(TyKind::Infer(var)) => {
                let variable = var.variable();
                self.is_variable(VariableKind::Term(variable.sort), variable.number)
            }
            Node::Ty(TyKind::Placeholder(placeholder)) => placeholder.universe > self.newest,
            Node::Const(ConstKind::Infer(number)) => {
                self.is_variable(VariableKind::Term(VariableSort::Constant), *number)
            }
            Node::Const(ConstKind::Placeholder(placeholder)) => placeholder.universe > self.newest,
            Node::Region(RegionKind::Var(number)) => self.is_variable(
                VariableKind::Region,
                *number,
            ),
            Node::Region(RegionKind::Placeholder(placeholder)) => {
                placeholder.universe > self.newest
            }
            _ => false,
        }
    }

    fn may_stand(&self, kept: Marks) -> bool {
        kept.has_infer() || kept.has_placeholder()
    }

    ghost no_list = { λ _ _. refl };
}

/// What `OutOfScope` marks, but for placeholders of regions.
#[derive(Drop)]
struct OutOfScopeTerm<'a>(OutOfScope<'a>);

impl Mark for OutOfScopeTerm<'_> {
    ghost marks = { λ m. is_foreign (fresh_state PostAnalysis m.0.newest m.0.variables.now) };

    fn is_on(&self, node: &Node) -> bool {
        match node {
            Node::Region(RegionKind::Placeholder(_)) => false,
            _ => self.0.is_on(node),
        }
    }

    fn may_stand(&self, kept: Marks) -> bool {
        self.0.may_stand(kept)
    }

    ghost no_list = { λ _ _. refl };
}

/// Whether a list has closed trees alone, without parameters and without the mark.
pub(crate) fn stands<N: Numbered, M: Mark>(alloc: Global, cx: &Cx, mark: &M, list: N) -> bool
    requires list { kind_at cx.now.trees (N.number_of list) ≡ N.kind list }
    requires is_list { is_list_kind (N.kind list) ≡ true }
    ensures { result ≡ stand (M.marks mark.now) (members_of cx.now.trees (N.number_of list)) }
{
    let mut walked = Walked::new(alloc);
    !has_marked(cx, &mut walked, list, mark)
        && (!cx.has_escaping_bound_vars(list) && !cx.has(list, Flag::Param))
}

/// Whether the goal of the key may be computed: its trees are closed trees of its variables, without parameters.
pub(crate) fn may_be_asked(alloc: Global, cx: &Cx, key: &GoalKey) -> Result<bool, Stop>
    requires { IsTraitGoal cx.now.trees key.now.goal }
    ensures is { IfOk result (λ b. b ≡ may_be_asked (key_seen cx.now.trees key.now)) }
    ensures cause { IfErr result (λ s. IsNotingStop cx.now.trees s) }
{
    let mark = OutOfScope {
        newest: newest_of(alloc, cx, key)?,
        variables: key.variables.as_slice(),
    };
    let env = stands(alloc, cx, &mark, key.goal.param_env);
    Ok(env && stands(alloc, cx, &mark, arguments(cx, key.goal)))
}

/// Whether a parameter stands in one of the clauses.
fn any_has_param(cx: &Cx, clauses: &[Clause]) -> bool
    requires { ClauseListFits cx.now.trees clauses.now }
    ensures { not result ≡ list_all (λ t. not (has_parameter t)) (map (clause_tree cx.now.trees) clauses.now) }
{
    for i in 0..clauses.len() {
        if cx.has(clauses[i], Flag::Param) {
            return true;
        }
    }
    false
}

/// Whether the values of the response to a key may be given to goals that ask: they are closed trees of the variables that it leaves
/// open, though of regions of any universes, and neither they nor its constraints hold a parameter.
fn may_be_given(
    alloc: Global,
    cx: &Cx,
    key: &GoalKey,
    response: &CanonicalResponse,
) -> Result<bool, Stop>
    requires key { IsTraitGoal cx.now.trees key.now.goal }
    requires response { IsResponse cx.now.trees response.now }
    ensures is { IfOk result (λ b. b ≡ may_be_given (key_seen cx.now.trees key.now) (response_of cx.now.trees response.now)) }
    ensures cause { IfErr result (λ s. IsNotingStop cx.now.trees s) }
{
    let mark = OutOfScopeTerm(OutOfScope {
        newest: newest_of(alloc, cx, key)?,
        variables: response.vars.as_slice(),
    });
    let values = stands(alloc, cx, &mark, response.values);
    Ok(values && !any_has_param(cx, response.regions.as_slice()))
}

/// Whether goals that ask read the verdict: what a Yes says must be such that it may be given.
pub(crate) fn may_be_read(
    alloc: Global,
    cx: &Cx,
    key: &GoalKey,
    verdict: &Verdict,
) -> Result<bool, Stop>
    requires key { IsTraitGoal cx.now.trees key.now.goal }
    requires verdict { IsVerdict cx.now.trees (Some verdict.now) }
    ensures is { IfOk result (λ b. b ≡ may_be_read (key_seen cx.now.trees key.now) (Some (verdict_seen cx.now.trees verdict.now))) }
    ensures cause { IfErr result (λ s. IsNotingStop cx.now.trees s) }
{
    match verdict {
        Verdict::Yes(response, _) => {
            let given = may_be_given(alloc, cx, key, response)?;
            Ok(matches!(response.certainty, Certainty::Yes) && given)
        }
        Verdict::Maybe(_, _) | Verdict::Refused => Ok(true),
    }
}

/// The goal, with all values put in. It stops as `resolved` does.
fn resolved_goal(
    alloc: Global,
    cx: &mut Cx,
    inference: &Inference,
    goal: Goal<Clause>,
) -> Result<Goal<Clause>, Stop>
    requires goal { IsTraitGoal cx.old.trees goal }
    requires known { IsKnown cx.old.trees inference.now }
    requires kinds { Each (SuitsKind cx.old.trees) inference.now.variables }
    ensures grows { Grows cx.old cx.new }
    ensures faults { NoFault cx.old cx.new }
    ensures sort { IfOk result (λ g. IsTraitGoal cx.new.trees g) }
    ensures env { (m : TypingMode) → IfOk result (λ g. env_forest cx.new.trees g.param_env ≡ resolved (state_of cx.old.trees m inference.now) (env_forest cx.old.trees goal.param_env)) }
    ensures clause { (m : TypingMode) → IfOk result (λ g. clause_tree cx.new.trees g.predicate ≡ resolved_tree (state_of cx.old.trees m inference.now) (clause_tree cx.old.trees goal.predicate)) }
    ensures cause { let ts = cx.old.trees in (m : TypingMode) → IfErr result (λ s. IsKeyStop cx.new.trees (state_of ts m inference.now) (env_forest ts goal.param_env) (clause_tree ts goal.predicate) s) }
{
    let param_env = resolved(alloc, cx, inference, goal.param_env)?;
    let predicate = resolved(alloc, cx, inference, goal.predicate)?;
    Ok(Goal {
        param_env,
        predicate,
    })
}

/// The numbers of the variables of a goal, each once, in the order in which they first occur, the environment first. It stops as
/// `note_below` does.
fn numbers_of_goal(alloc: Global, cx: &Cx, goal: Goal<Clause>) -> Result<Vec<u32>, Stop>
    requires { IsTraitGoal cx.now.trees goal }
    ensures numbers { IfOk result (λ v. v.items ≡ with_numbers [] (goal_trees (goal_seen cx.now.trees goal))) }
    ensures bare { IfOk result (λ _. are_bare (goal_trees (goal_seen cx.now.trees goal)) ≡ true) }
    ensures cause { IfErr result (λ s. IsNotingStop cx.now.trees s) }
{
    let mut walked = Walked::new(alloc);
    let mut numbers = Vec::new(alloc);
    note_below(cx, &mut walked, &mut numbers, goal.param_env.0)?;
    note_below(cx, &mut walked, &mut numbers, goal.predicate.0)?;
    Ok(numbers)
}

/// The goal, whose variables all have these numbers, with its variables numbered anew. Where there are no numbers it stays as it is.
/// It stops as `renumbered` does.
fn numbered_goal(
    alloc: Global,
    cx: &mut Cx,
    numbers: &[u32],
    goal: Goal<Clause>,
) -> Result<Goal<Clause>, Stop>
    requires goal { IsTraitGoal cx.old.trees goal }
    requires all { numbers.now ≡ [] → with_numbers [] (goal_trees (goal_seen cx.old.trees goal)) ≡ [] }
    ensures grows { Grows cx.old cx.new }
    ensures faults { NoFault cx.old cx.new }
    ensures sort { IfOk result (λ g. IsTraitGoal cx.new.trees g) }
    ensures goal { IfOk result (λ g. goal_seen cx.new.trees g ≡ over_trees (renumbered numbers.now) (goal_seen cx.old.trees goal)) }
    ensures cause { IfErr result (λ s. IsNumberedStop cx.new.trees numbers.now (env_forest cx.old.trees goal.param_env) (clause_tree cx.old.trees goal.predicate) s) }
{
    if numbers.is_empty() {
        return Ok(goal);
    }
    let param_env = renumbered(alloc, cx, numbers, goal.param_env)?;
    let predicate = renumbered(alloc, cx, numbers, goal.predicate)?;
    Ok(Goal {
        param_env,
        predicate,
    })
}

/// The key of a goal of a trait at what is known, and the numbers of its variables. It stops as its parts do.
fn key_at(
    alloc: Global,
    cx: &mut Cx,
    inference: &Inference,
    goal: Goal<Clause>,
) -> Result<Asked, Stop>
    requires goal { IsTraitGoal cx.old.trees goal }
    requires known { IsKnown cx.old.trees inference.now }
    requires kinds { Each (SuitsKind cx.old.trees) inference.now.variables }
    ensures grows { Grows cx.old cx.new }
    ensures faults { NoFault cx.old cx.new }
    ensures sort { IfOk result (λ a. IsTraitGoal cx.new.trees a.key.goal) }
    ensures key { (m : TypingMode) → IfOk result (λ a. key_seen cx.new.trees a.key ≡ key_at (state_of cx.old.trees m inference.now) (goal_seen cx.old.trees goal)) }
    ensures numbers { (m : TypingMode) → IfOk result (λ a. a.numbers.items ≡ numbers_at (state_of cx.old.trees m inference.now) (goal_seen cx.old.trees goal)) }
    ensures bare { (m : TypingMode) → IfOk result (λ _. are_bare (resolved (state_of cx.old.trees m inference.now) (goal_trees (goal_seen cx.old.trees goal))) ≡ true) }
    ensures cause { let ts = cx.old.trees in (m : TypingMode) → IfErr result (λ s. IsKeyStop cx.new.trees (state_of ts m inference.now) (env_forest ts goal.param_env) (clause_tree ts goal.predicate) s) }
{
    let goal = resolved_goal(alloc, cx, inference, goal)?;
    let numbers = numbers_of_goal(alloc, cx, goal)?;
    let variables = open_variables(alloc, inference, numbers.as_slice())?;
    let goal = numbered_goal(alloc, cx, numbers.as_slice(), goal)?;
    let key = GoalKey { goal, variables };
    Ok(Asked { key, numbers })
}

impl Rounds {
    /// The key of a goal of a trait, and the numbers of its variables. Nodes are made, and nothing else is changed. `Stop::Memory` comes
    /// where a growth was refused, `Stop::NodesFull` where no numbers are left, a tree would be higher than 1,024, or the variables or
    /// the children of a node are too many.
    pub(crate) fn key_of(&mut self, alloc: Global, goal: Goal<Clause>) -> Result<Asked, Stop>
        requires { IsTraitGoal self.old.context.trees goal }
        ensures goes { GoesOn self.old self.new }
        ensures goals { self.new.goals ≡ self.old.goals }
        ensures inference { self.new.inference ≡ self.old.inference }
        ensures state { state self.new ≡ state self.old }
        ensures sort { IfOk result (λ a. IsTraitGoal self.new.context.trees a.key.goal) }
        ensures key { IfOk result (λ a. key_seen self.new.context.trees a.key ≡ key_at (state self.old) (goal_seen self.old.context.trees goal)) }
        ensures numbers { IfOk result (λ a. a.numbers.items ≡ numbers_at (state self.old) (goal_seen self.old.context.trees goal)) }
        ensures bare { IfOk result (λ _. are_bare (resolved (state self.old) (goal_trees (goal_seen self.old.context.trees goal))) ≡ true) }
        ensures cause { let ts = self.old.context.trees in IfErr result (λ s. IsKeyStop self.new.context.trees (state self.old) (env_forest ts goal.param_env) (clause_tree ts goal.predicate) s) }
    {
        key_at(alloc, &mut self.cx, &self.inference, goal)
    }
}
