//! What a Yes of the table gives a goal that asks.

ghost use Rattle.std.specs.Prelude.{◌≡◌, ◌+◌, true, map, None, Some, IfErr, IfOk, OnOk, option_map, length};
ghost use Rattle.ir_trees.specs.declared.ir.stop.Stop.{Stop};
ghost use Rattle.ir_trees.specs.Declarations.Context.{Grows};
ghost use Rattle.candidate_eval.specs.Interface.Evaluators.{NoFault};
ghost use Rattle.ir_trees.specs.Instantiation.Folds.{IsArg, IsOfKind, arg_tree};
ghost use Rattle.ir_trees.specs.Instantiation.Folding.{IsAnswerStop, IsSubstStop};
ghost use Rattle.ir_trees.specs.Syntax.Nodes.{kind_at, tree_at};
ghost use Rattle.ir_trees.specs.Instantiation.Results.{row_at};
ghost use Rattle.ir_trees.specs.Syntax.Trees.{is_list_kind, is_number};
ghost use Rattle.ir_trees.specs.Syntax.Words.{ClauseListFits, IsArgs, IsClause, ListFits, args_forest, clause_tree, list_forest};
ghost use Rattle.candidate_eval.specs.Outcomes.ResponseTrees.{IsResponse, response_of};
ghost use Rattle.candidate_eval.specs.Judges.States.{valued, valued_tree};
ghost use Rattle.candidate_eval.specs.Interface.Accounts.{if_refused, if_stopped};
ghost use Rattle.candidate_rounds.specs.Calls.Giving.{AreConstraintsStop, IsConstraintStop, IsNamingStop, clauses_translated, forest_translated, lift_of, lifted_as, placeholder_in, translation_of, with_constraints, with_more_universes};
ghost use Rattle.candidate_rounds.specs.Table.Goals.{IsTraitGoal, key_seen};
ghost use Rattle.candidate_rounds.specs.Evaluators.Inferences.{IsFullAt, IsOutOfRoom};
ghost use Rattle.candidate_rounds.specs.Evaluators.Known.{GoesOn, judged_at, state, tree_of};
ghost use Rattle.candidate_rounds.specs.Evaluators.Stopping.{IsGivingStop, IsLiftStop, StopsFrom, named_for};
ghost use Rattle.rounds_judge.specs.Obligations.Settling.{recorded};
ghost use Rattle.rounds_judge.specs.Table.TableSettling.{given, lift_to, own_variable, variables_row, with_open, with_universes};

use crate::rounds::Rounds;
use crate::rounds::fresh::{Leaves, leaf, variable};
use crate::rounds::goals::GoalKey;
use crate::rounds::keys::{greatest_said, newest_of};
use crate::rounds::responding::variable_in;
use candidate_eval::eval::refusal::NoSolutionOrStop;
use candidate_eval::eval::response::CanonicalResponse;
use candidate_eval::eval::variable::CanonicalVar;
use ir_context::decl::context::Cx;
use ir_folds::decl::answering::{PureFolder, fold_answers};
use ir_trees::ir::heads::{ConstHead, Head, Marks};
use ir_trees::ir::kinds::{Args, Clause, GenericArg, Placeholder, RegionKind, VarKind};
use ir_trees::ir::numbered::Numbered;
use ir_trees::ir::stop::Stop;
use ir_trees::ir::trees::Trees;
use std::alloc::Global;

/// Whether the argument is the variable of that number.
fn is_variable(cx: &Cx, arg: GenericArg, number: usize) -> bool
    requires { IsArg cx.now.trees arg }
    ensures { result ≡ is_number number (arg_tree cx.now.trees arg).head }
{
    match cx.variable_number(arg) {
        Some(other) => other as usize == number,
        None => false,
    }
}

/// The goal's own variable for the one of that place that a response leaves open, if it has one: of these variables, which have these
/// numbers, the first whose value is that one, and which is of the same kind and universe still.
fn own_variable(
    cx: &Cx,
    variables: &[CanonicalVar],
    numbers: &[u32],
    values: &[GenericArg],
    place: usize,
    left_open: CanonicalVar,
) -> Option<u32>
    requires { ListFits cx.now.trees values.now }
    ensures { result ≡ own_variable variables.now numbers.now (list_forest cx.now.trees values.now) place left_open }
{
    for i in 0..variables.len() {
        if i >= numbers.len() || i >= values.len() {
            return None;
        }
        if is_variable(cx, values[i], place) && variables[i] == left_open {
            return Some(numbers[i]);
        }
    }
    None
}

/// How the universes are lifted that a response's key doesn't have: those above that one, up to the greatest that the response names,
/// for which the newest of the state stands.
#[derive(Clone, Copy)]
struct Lift {
    above: u32,
    greatest: u32,
    newest: u32,
}

/// What stands for what a response says of its own: variables of these numbers for those that it leaves open, and placeholders of
/// universes that are lifted.
#[derive(Clone, Copy)]
struct Translation<'a> {
    names: &'a [u32],
    lift: Lift,
}

/// The placeholder that a head is, if it is one, with its kind.
fn placeholder_in(head: Head) -> Option<(VarKind, Placeholder)>
    ensures { result ≡ placeholder_in head }
{
    match head {
        Head::Placeholder(placeholder) => Some((VarKind::Ty, placeholder)),
        Head::Const(ConstHead::Placeholder(placeholder)) => Some((VarKind::Const, placeholder)),
        Head::Region(RegionKind::Placeholder(placeholder)) => Some((VarKind::Region, placeholder)),
        _ => None,
    }
}

/// What stands for a placeholder, if its universe is lifted. It stops as `translated` does.
fn lifted(cx: &mut Cx, lift: Lift, arg: GenericArg) -> Result<Option<GenericArg>, Stop>
    requires { IsArg cx.old.trees arg }
    ensures grows { Grows cx.old cx.new }
    ensures faults { NoFault cx.old cx.new }
    ensures rest { cx.new.delayed_bugs ≡ cx.old.delayed_bugs }
    ensures kind { IfOk result (λ o. IsOfKind cx.new.trees arg o) }
    ensures answer { IfOk result (λ o. option_map (arg_tree cx.new.trees) o ≡ lifted_as (lift_of lift) (placeholder_in (arg_tree cx.old.trees arg).head)) }
    ensures cause { IfErr result (λ s. IsAnswerStop (length cx.new.trees) (lifted_as (lift_of lift) (placeholder_in (arg_tree cx.old.trees arg).head)) s) }
{
    let Some((kind, placeholder)) = placeholder_in(cx.head(arg.number())) else {
        return Ok(None);
    };
    if placeholder.universe <= lift.above {
        return Ok(None);
    }
    let below = lift.greatest.saturating_sub(placeholder.universe);
    let universe = Leaves::Placeholders(lift.newest.saturating_sub(below));
    Ok(Some(leaf(cx, universe, kind, placeholder.index)?))
}

/// What stands for a variable or a placeholder that a response says of its own. `Stop::Memory` comes where a growth was refused,
/// `Stop::NodesFull` where no number is left.
fn translated(
    cx: &mut Cx,
    translation: &Translation<'_>,
    arg: GenericArg,
) -> Result<Option<GenericArg>, Stop>
    requires { IsArg cx.old.trees arg }
    ensures grows { Grows cx.old cx.new }
    ensures faults { NoFault cx.old cx.new }
    ensures rest { cx.new.delayed_bugs ≡ cx.old.delayed_bugs }
    ensures kind { IfOk result (λ o. IsOfKind cx.new.trees arg o) }
    ensures answer { IfOk result (λ o. option_map (arg_tree cx.new.trees) o ≡ translation_of translation.now (arg_tree cx.old.trees arg).head) }
    ensures cause { IfErr result (λ s. IsAnswerStop (length cx.new.trees) (translation_of translation.now (arg_tree cx.old.trees arg).head) s) }
{
    let Some((kind, number)) = variable_in(cx, arg) else {
        return lifted(cx, translation.lift, arg);
    };
    let name = translation.names.get(number as usize).copied().unwrap_or(0);
    Ok(Some(variable(cx, kind, name)?))
}

impl PureFolder<Cx> for Translation<'_> {
    ghost answers = { λ s ts. (λ d t. translation_of s t.head) };

    ghost is_of = { λ s ts. Unit {0} };

    ghost causes = { λ _. IsSubstStop };

    fn may_answer(&self, marks: Marks) -> bool {
        marks.has_infer() || marks.has_placeholder()
    }

    fn answer(
        &self,
        _alloc: Global,
        cx: &mut Cx,
        arg: GenericArg,
        _binders: u32,
    ) -> Result<Option<GenericArg>, Stop> {
        translated(cx, self, arg)
    }

    fn recall_laws(&self) {}
}

/// The list of the variables of these kinds that have these numbers.
fn own_row(
    alloc: Global,
    cx: &mut Cx,
    variables: &[CanonicalVar],
    numbers: &[u32],
) -> Result<Args, Stop>
    requires { length numbers.now ≡ length variables.now }
    ensures grows { Grows cx.old cx.new }
    ensures faults { NoFault cx.old cx.new }
    ensures sort { IfOk result (λ a. IsArgs cx.new.trees a) }
    ensures trees { IfOk result (λ a. args_forest cx.new.trees a ≡ variables_row variables.now numbers.now) }
    ensures cause { IfErr result (λ s. IsFullAt (length cx.new.trees) s) }
{
    let mut list = Vec::new(alloc);
    for i in 0..numbers.len() {
        list.push(variable(cx, variables[i].kind, numbers[i])?)?;
    }
    cx.mk_arg_list(list)
}

impl Rounds {
    /// A fresh variable for one that a response leaves open, of no universe that there isn't. `Stop::Memory` comes where a growth was
    /// refused, `Stop::NodesFull` where no number is left.
    pub(crate) fn open_variable(&mut self, left_open: CanonicalVar) -> Result<u32, Stop>
        ensures context { self.new.context ≡ self.old.context }
        ensures goes { GoesOn self.old self.new }
        ensures number { IfOk result (λ n. n ≡ length (state self.old).variables) }
        ensures made { OnOk result (state self.new ≡ with_open (state self.old) left_open) }
        ensures cause { IfErr result (λ s. IsFullAt (length (state self.old).variables) s) }
    {
        self.inference
            .open_variable(left_open.kind, left_open.universe)
    }

    /// The number for each variable that the response leaves open: of the goal's own variable, if it has one, or of a fresh one.
    fn names(
        &mut self,
        alloc: Global,
        key: &GoalKey,
        numbers: &[u32],
        response: &CanonicalResponse,
    ) -> Result<Vec<u32>, Stop>
        requires { IsResponse self.old.context.trees response.now }
        ensures context { self.new.context ≡ self.old.context }
        ensures goes { GoesOn self.old self.new }
        ensures names { let ts = self.old.context.trees in IfOk result (λ v. named_for (state self.old) (key_seen ts key.now) numbers.now (response_of ts response.now) ≡ (state self.new, v.items)) }
        ensures cause { IfErr result (λ s. IsNamingStop (length (state self.old).variables + length response.now.vars.items) s) }
    {
        self.recall_well_kept();
        let mut names = Vec::new(alloc);
        for place in 0..response.vars.len() {
            let left_open = response.vars[place];
            let values = self.cx.args(response.values);
            let variables = key.variables.as_slice();
            let name = match own_variable(&self.cx, variables, numbers, values, place, left_open) {
                Some(own) => own,
                None => self.open_variable(left_open)?,
            };
            names.push(name)?;
        }
        Ok(names)
    }

    /// So many more universes. Besides `Stop::Memory`, `Stop::NodesFull` comes where they can't all be told apart.
    fn add_universes(&mut self, count: u32) -> Result<(), Stop>
        ensures context { self.new.context ≡ self.old.context }
        ensures goes { GoesOn self.old self.new }
        ensures made { OnOk result (state self.new ≡ with_more_universes (state self.old) count) }
        ensures cause { IfErr result (λ s. IsOutOfRoom (state self.old).newest_universe count s) }
    {
        self.inference.add_universes(count)
    }

    /// New universes for those that a response names and its key doesn't have, and how they are lifted to them.
    fn lift(
        &mut self,
        alloc: Global,
        key: &GoalKey,
        response: &CanonicalResponse,
    ) -> Result<Lift, Stop>
        requires key { IsTraitGoal self.old.context.trees key.now.goal }
        requires response { IsResponse self.old.context.trees response.now }
        ensures context { self.new.context ≡ self.old.context }
        ensures goes { GoesOn self.old self.new }
        ensures made { let ts = self.old.context.trees in OnOk result (state self.new ≡ with_universes (state self.old) (key_seen ts key.now) (response_of ts response.now)) }
        ensures lift { let ts = self.old.context.trees in IfOk result (λ x. lift_of x ≡ lift_to (state self.new) (key_seen ts key.now) (response_of ts response.now)) }
        ensures cause { let ts = self.old.context.trees in IfErr result (λ s. IsLiftStop ts (state self.old) (key_seen ts key.now) (response_of ts response.now) s) }
    {
        let above = newest_of(alloc, &self.cx, key)?;
        let greatest = greatest_said(alloc, &self.cx, response)?;
        self.add_universes(greatest.saturating_sub(above))?;
        Ok(Lift {
            above,
            greatest,
            newest: self.inference.newest_universe(),
        })
    }

    /// Records the constraints, with what stands for what a response says of its own.
    fn record_given(
        &mut self,
        alloc: Global,
        translation: &Translation<'_>,
        constraints: &[Clause],
    ) -> Result<(), Stop>
        requires { ClauseListFits self.old.context.trees constraints.now }
        ensures goes { GoesOn self.old self.new }
        ensures recorded { OnOk result (state self.new ≡ with_constraints (state self.old) (clauses_translated self.old.context.trees translation.now constraints.now)) }
        ensures cause { IfErr result (λ s. AreConstraintsStop self.new.context.trees (translation_of translation.now) (map (clause_tree self.old.context.trees) constraints.now) s) }
    {
        self.recall_well_kept();
        for i in 0..constraints.len() {
            self.record_translated(alloc, translation, constraints[i])?;
        }
        Ok(())
    }

    /// Records one constraint so.
    fn record_translated(
        &mut self,
        alloc: Global,
        translation: &Translation<'_>,
        constraint: Clause,
    ) -> Result<(), Stop>
        requires { IsClause self.old.context.trees constraint }
        ensures goes { GoesOn self.old self.new }
        ensures recorded { OnOk result (state self.new ≡ recorded (state self.old) (valued_tree (translation_of translation.now) (clause_tree self.old.context.trees constraint))) }
        ensures cause { IfErr result (λ s. IsConstraintStop self.new.context.trees (translation_of translation.now) (clause_tree self.old.context.trees constraint) s) }
    {
        let region = self.translate(alloc, translation, constraint)?;
        self.record_region(region)
    }

    /// The list or clause, with what stands for what a response says of its own. What is said of `Rounds::resolve_ty_if_possible` holds
    /// here, too.
    fn translate<N: Numbered>(
        &mut self,
        alloc: Global,
        translation: &Translation<'_>,
        value: N,
    ) -> Result<N, Stop>
        requires { kind_at self.old.context.trees (N.number_of value) ≡ N.kind value }
        ensures goes { GoesOn self.old self.new }
        ensures state { state self.new ≡ state self.old }
        ensures sort { IfOk result (λ x. kind_at self.new.context.trees (N.number_of x) ≡ N.kind x) }
        ensures kind { IfOk result (λ x. N.kind x ≡ N.kind value) }
        ensures tree { IfOk result (λ x. tree_at self.new.context.trees (N.number_of x) ≡ valued_tree (translation_of translation.now) (tree_at self.old.context.trees (N.number_of value))) }
        ensures list { is_list_kind (N.kind value) ≡ true → IfOk result (λ x. (tree_of self.new (N.number_of x)).children ≡ forest_translated translation.now (tree_of self.old (N.number_of value)).children) }
        ensures cause { IfErr result (λ s. IsSubstStop (length self.new.context.trees) (valued (translation_of translation.now) (row_at N.kind N.number_of self.old.context.trees value)) s) }
    {
        fold_answers(alloc, &mut self.cx, value, translation)
    }

    /// The list of the key's variables, which have these numbers.
    fn own_variables(&mut self, alloc: Global, key: &GoalKey, numbers: &[u32]) -> Result<Args, Stop>
        requires { length numbers.now ≡ length key.now.variables.items }
        ensures goes { GoesOn self.old self.new }
        ensures state { state self.new ≡ state self.old }
        ensures sort { IfOk result (λ a. IsArgs self.new.context.trees a) }
        ensures trees { IfOk result (λ a. args_forest self.new.context.trees a ≡ variables_row key.now.variables.items numbers.now) }
        ensures cause { IfErr result (λ s. IsFullAt (length self.new.context.trees) s) }
    {
        own_row(alloc, &mut self.cx, key.variables.as_slice(), numbers)
    }

    /// The variables of these numbers, which are the key's, are made equal to the values that the response says, and its constraints
    /// are recorded. What the response leaves open is the goal's own variables, or fresh ones, and universes that the key doesn't have are
    /// new ones. It is refused where they can't be made equal. `Stop::Memory` comes where a growth was refused, `Stop::NodesFull` where no
    /// numbers or universes are left, a tree would be higher than 1,024, or a node has more children than can be counted.
    pub(crate) fn give(
        &mut self,
        alloc: Global,
        key: &GoalKey,
        numbers: &[u32],
        response: &CanonicalResponse,
    ) -> Result<(), NoSolutionOrStop>
        requires key { IsTraitGoal self.old.context.trees key.now.goal }
        requires response { IsResponse self.old.context.trees response.now }
        requires many { length numbers.now ≡ length key.now.variables.items }
        ensures goes { GoesOn self.old self.new }
        ensures ok { let ts = self.old.context.trees in OnOk result (judged_at self.old given (key_seen ts key.now) numbers.now (response_of ts response.now) ≡ Some (state self.new)) }
        ensures refused { let ts = self.old.context.trees in IfErr result (if_refused (judged_at self.old given (key_seen ts key.now) numbers.now (response_of ts response.now) ≡ None)) }
        ensures cause { let ts = self.old.context.trees in IfErr result (if_stopped (λ s. StopsFrom IsGivingStop self.old self.new (key_seen ts key.now) numbers.now (response_of ts response.now) s)) }
    {
        self.recall_well_kept();
        let names = self.names(alloc, key, numbers, response)?;
        let lift = self.lift(alloc, key, response)?;
        let translation = Translation {
            names: names.as_slice(),
            lift,
        };
        let row = self.own_variables(alloc, key, numbers)?;
        let values = self.translate(alloc, &translation, response.values)?;
        self.equate_args(alloc, row, values)?;
        self.record_given(alloc, &translation, response.regions.as_slice())?;
        Ok(())
    }
}
