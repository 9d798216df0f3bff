//! Responses: what is known of the root variables, with the variables that it leaves open numbered anew.

ghost use Rattle.std.specs.Prelude.{◌≡◌, ◌<◌, ◌++◌, [], true, Some, None, length, map, slice_get, option_map, IfErr, IfOk, IfSome, MatchOption};
ghost use Rattle.std.specs.Option.{option_to_list};
ghost use Rattle.ir_trees.specs.Declarations.Context.{Grows};
ghost use Rattle.candidate_eval.specs.Interface.Evaluators.{NoFault};
ghost use Rattle.ir_trees.specs.Instantiation.Folds.{IsArg, IsOfKind, arg_tree};
ghost use Rattle.ir_trees.specs.Syntax.Nodes.{kind_at, tree_at};
ghost use Rattle.ir_trees.specs.Unification.Substitutions.{alone, row_of};
ghost use Rattle.ir_trees.specs.Syntax.Trees.{is_list_kind, variable_number};
ghost use Rattle.ir_trees.specs.Syntax.Words.{ClauseListFits, IsArgs, IsClause, args_forest, clause_tree};
ghost use Rattle.candidate_eval.specs.Outcomes.ResponseTrees.{IsResponse, response_of};
ghost use Rattle.candidate_eval.specs.Judges.States.{resolved_tree, variable};
ghost use Rattle.candidate_eval.specs.declared.eval.mode.TypingMode.{TypingMode};
ghost use Rattle.candidate_rounds.specs.Calls.Gathered.{open_entry, renumbered_at, root_in};
ghost use Rattle.candidate_rounds.specs.Calls.Walking.{AreGathered};
ghost use Rattle.candidate_rounds.specs.Evaluators.Inferences.{IsFullAt};
ghost use Rattle.candidate_rounds.specs.Evaluators.Known.{Each, GoesOn, IsKnown, KeepsGiven, SuitsKind, members_of, probes, state, state_of};
ghost use Rattle.candidate_eval.specs.Interface.Noting.{IsNotingStop};
ghost use Rattle.candidate_rounds.specs.Evaluators.Stopping.{AreRenumberingStops, IsNewNumberStop, IsRenumberingStop, IsResponseStop};
ghost use Rattle.rounds_judge.specs.Table.TableSettling.{are_bare, is_bare};
ghost use Rattle.rounds_judge.specs.Obligations.Responding.{constraints, is_seen, place_of, renumbered, renumbered_tree, response, root_values, with_number, with_numbers, with_numbers_of};

use crate::rounds::Rounds;
use crate::rounds::fresh::variable;
use crate::rounds::inference::Inference;
use crate::rounds::resolving::{Lone, resolved};
use candidate_eval::eval::certainty::Certainty;
use candidate_eval::eval::response::CanonicalResponse;
use candidate_eval::eval::variable::{CanonicalVar, VariableKind};
use ir_context::decl::context::Cx;
use ir_folds::decl::answering::{PureFolder, fold_answers};
use ir_trees::ir::heads::{Marks, VariableSort};
use ir_trees::ir::kinds::{Args, Clause, ConstKind, GenericArg, RegionKind, TyKind};
use ir_trees::ir::marks::Unsolved;
use ir_trees::ir::numbered::Numbered;
use ir_trees::ir::stop::Stop;
use ir_trees::ir::trees::Trees;
use ir_trees::ir::walked::Walked;
use std::alloc::Global;

/// The place of a number among these; where it isn't there, how many they are.
fn place_of(numbers: &[u32], number: u32) -> usize
    ensures { result ≡ place_of numbers.now number }
{
    for i in 0..numbers.len() {
        if numbers[i] == number {
            return i;
        }
    }
    numbers.len()
}

/// Whether the number is among these.
#[tactic(auto, using(crate::proofs::Obligations::Places::seen_is))]
fn is_seen(numbers: &[u32], number: u32) -> bool
    ensures { result ≡ is_seen numbers.now number }
{
    place_of(numbers, number) < numbers.len()
}

/// Notes a variable's number, unless it is among those seen. The only stop is `Stop::Memory`.
pub(crate) fn note_number(numbers: &mut Vec<u32>, number: Option<u32>) -> Result<(), Stop>
    ensures noted { IfOk result (λ _. numbers.new.items ≡ with_number numbers.old.items number) }
    ensures cause { IfErr result (λ s. s ≡ Stop.Memory) }
{
    match number {
        Some(number) if !is_seen(numbers.as_slice(), number) => Ok(numbers.push(number)?),
        _ => Ok(()),
    }
}

/// Nothing stands below a variable of types or constants.
fn stands_bare(cx: &Cx, number: u32)
    requires { number < length cx.now.trees }
    ensures { is_bare (tree_at cx.now.trees number).head (tree_at cx.now.trees number).children ≡ true }
{
    let _ = cx.node(number);
}

/// Notes the numbers of the variables below a number of the context, where those below the walked numbers are noted. It stops by
/// `Stop::Memory`, or by `Stop::NodesFull` where there are more children than can be counted.
pub(crate) fn note_below(
    cx: &Cx,
    walked: &mut Walked<u32>,
    numbers: &mut Vec<u32>,
    number: u32,
) -> Result<(), Stop>
    requires number { number < length cx.now.trees }
    requires walked { AreGathered numbers.old.items cx.now.trees walked.old }
    ensures noted { IfOk result (λ _. numbers.new.items ≡ with_numbers numbers.old.items (tree_at cx.now.trees number).children) }
    ensures bare { IfOk result (λ _. are_bare (tree_at cx.now.trees number).children ≡ true) }
    ensures walked { IfOk result (λ _. AreGathered numbers.new.items cx.now.trees walked.new) }
    ensures cause { IfErr result (λ s. IsNotingStop cx.now.trees s) }
{
    if !cx.marks(number).has_infer() {
        return Ok(());
    }
    if walked.has(number) {
        return Ok(());
    }
    for place in 0..usize::MAX {
        let Some(child) = cx.child(number, place) else {
            walked.note(number, place);
            return Ok(());
        };
        stands_bare(cx, child);
        note_number(numbers, cx.head(child).variable_number())?;
        note_below(cx, walked, numbers, child)?;
    }
    Err(Stop::NodesFull)
}

/// Notes the numbers of the variables of an argument; it stops as `note_below` does.
fn note_arg(
    cx: &Cx,
    walked: &mut Walked<u32>,
    numbers: &mut Vec<u32>,
    arg: GenericArg,
) -> Result<(), Stop>
    requires arg { IsArg cx.now.trees arg }
    requires walked { AreGathered numbers.old.items cx.now.trees walked.old }
    ensures noted { IfOk result (λ _. numbers.new.items ≡ with_numbers numbers.old.items (alone (arg_tree cx.now.trees arg))) }
    ensures walked { IfOk result (λ _. AreGathered numbers.new.items cx.now.trees walked.new) }
    ensures cause { IfErr result (λ s. IsNotingStop cx.now.trees s) }
{
    if let Some(lone) = Lone::of(cx, arg) {
        return note_number(numbers, lone.number());
    }
    note_number(numbers, cx.variable_number(arg))?;
    note_below(cx, walked, numbers, arg.number())
}

/// Notes the numbers of the variables of a list; it stops as `note_below` does.
fn note_args(
    cx: &Cx,
    walked: &mut Walked<u32>,
    numbers: &mut Vec<u32>,
    args: Args,
) -> Result<(), Stop>
    requires args { IsArgs cx.now.trees args }
    requires walked { AreGathered numbers.old.items cx.now.trees walked.old }
    ensures noted { IfOk result (λ _. numbers.new.items ≡ with_numbers numbers.old.items (args_forest cx.now.trees args)) }
    ensures walked { IfOk result (λ _. AreGathered numbers.new.items cx.now.trees walked.new) }
    ensures cause { IfErr result (λ s. IsNotingStop cx.now.trees s) }
{
    let list = cx.args(args);
    for i in 0..list.len() {
        note_arg(cx, walked, numbers, list[i])?;
    }
    Ok(())
}

/// Notes the numbers of the variables of a clause; it stops as `note_below` does.
pub(crate) fn note_clause(
    cx: &Cx,
    walked: &mut Walked<u32>,
    numbers: &mut Vec<u32>,
    clause: Clause,
) -> Result<(), Stop>
    requires clause { IsClause cx.now.trees clause }
    requires walked { AreGathered numbers.old.items cx.now.trees walked.old }
    ensures noted { IfOk result (λ _. numbers.new.items ≡ with_numbers numbers.old.items (alone (clause_tree cx.now.trees clause))) }
    ensures walked { IfOk result (λ _. AreGathered numbers.new.items cx.now.trees walked.new) }
    ensures cause { IfErr result (λ s. IsNotingStop cx.now.trees s) }
{
    note_number(numbers, cx.head(clause.0).variable_number())?;
    note_below(cx, walked, numbers, clause.0)
}

/// The numbers of the variables of a list and of clauses, each once, in the order in which they first occur; it stops as
/// `note_below` does.
pub(crate) fn numbers_of(
    alloc: Global,
    cx: &Cx,
    args: Args,
    clauses: &[Clause],
) -> Result<Vec<u32>, Stop>
    requires args { IsArgs cx.now.trees args }
    requires clauses { ClauseListFits cx.now.trees clauses.now }
    ensures numbers { IfOk result (λ v. v.items ≡ with_numbers_of (with_numbers [] (args_forest cx.now.trees args)) (map (clause_tree cx.now.trees) clauses.now)) }
    ensures cause { IfErr result (λ s. IsNotingStop cx.now.trees s) }
{
    let mut walked = Walked::new(alloc);
    let mut numbers = Vec::new(alloc);
    note_args(cx, &mut walked, &mut numbers, args)?;
    for i in 0..clauses.len() {
        note_clause(cx, &mut walked, &mut numbers, clauses[i])?;
    }
    Ok(numbers)
}

/// What stands for the variable of that number, if it is a root: its value, or itself, where it has none. `Stop::Memory` comes where a
/// growth was refused, `Stop::NodesFull` where no number is left.
fn root_value(cx: &mut Cx, inference: &Inference, number: u32) -> Result<Option<GenericArg>, Stop>
    requires { IsKnown cx.old.trees inference.now }
    ensures grows { Grows cx.old cx.new }
    ensures faults { NoFault cx.old cx.new }
    ensures sort { IfOk result (λ o. IfSome o (λ a. IsArg cx.new.trees a)) }
    ensures tree { (m : TypingMode) → IfOk result (λ o. option_map (arg_tree cx.new.trees) o ≡ option_map (resolved_tree (state_of cx.old.trees m inference.now)) (root_in inference.now number)) }
    ensures cause { IfErr result (λ s. IsFullAt (length cx.new.trees) s) }
{
    let Some(entry) = inference.entry(number) else {
        return Ok(None);
    };
    if !entry.is_root {
        return Ok(None);
    }
    if entry.value.is_some() {
        return Ok(entry.value);
    }
    Ok(Some(variable(cx, entry.kind, number)?))
}

/// Puts an argument, if there is one, at a list's end. The only stop is `Stop::Memory`.
fn push_some(list: &mut Vec<GenericArg>, arg: Option<GenericArg>) -> Result<(), Stop>
    ensures pushed { IfOk result (λ _. list.new.items ≡ list.old.items ++ option_to_list arg) }
    ensures cause { IfErr result (λ s. s ≡ Stop.Memory) }
{
    if let Some(arg) = arg {
        list.push(arg)?;
    }
    Ok(())
}

/// The values of the root variables, in their order, with the variables themselves where they have none; it stops as `root_value`
/// does.
fn root_values(alloc: Global, cx: &mut Cx, inference: &Inference) -> Result<Args, Stop>
    requires { IsKnown cx.old.trees inference.now }
    ensures grows { Grows cx.old cx.new }
    ensures faults { NoFault cx.old cx.new }
    ensures sort { IfOk result (λ a. IsArgs cx.new.trees a) }
    ensures trees { (m : TypingMode) → IfOk result (λ a. args_forest cx.new.trees a ≡ root_values (state_of cx.old.trees m inference.now)) }
    ensures cause { (m : TypingMode) → IfErr result (λ s. IsResponseStop cx.new.trees (state_of cx.old.trees m inference.now) s) }
{
    let count = inference.next_variable()?;
    let mut list = Vec::new(alloc);
    for number in 0..count {
        let root = root_value(cx, inference, number)?;
        push_some(&mut list, root)?;
    }
    cx.mk_arg_list(list)
}

/// The region constraints, with all values put in; what is said of `Rounds::resolve_ty_if_possible` holds here, too.
fn constraints(alloc: Global, cx: &mut Cx, inference: &Inference) -> Result<Vec<Clause>, Stop>
    requires known { IsKnown cx.old.trees inference.now }
    requires kinds { Each (SuitsKind cx.old.trees) inference.now.variables }
    ensures grows { Grows cx.old cx.new }
    ensures faults { NoFault cx.old cx.new }
    ensures fit { IfOk result (λ v. ClauseListFits cx.new.trees v.items) }
    ensures trees { (m : TypingMode) → IfOk result (λ v. map (clause_tree cx.new.trees) v.items ≡ constraints (state_of cx.old.trees m inference.now)) }
    ensures cause { (m : TypingMode) → IfErr result (λ s. IsResponseStop cx.new.trees (state_of cx.old.trees m inference.now) s) }
{
    let regions = inference.regions();
    let mut list = Vec::new(alloc);
    for i in 0..regions.len() {
        list.push(resolved(alloc, cx, inference, regions[i])?)?;
    }
    Ok(list)
}

/// The variable that an argument is, if it is one: its kind and its number.
pub(crate) fn variable_in(cx: &Cx, arg: GenericArg) -> Option<(VariableKind, u32)>
    requires { IsArg cx.now.trees arg }
    ensures { MatchOption result (variable_number (arg_tree cx.now.trees arg).head ≡ None) (λ v. arg_tree cx.now.trees arg ≡ variable v.0 v.1) }
{
    match arg {
        GenericArg::Ty(ty) => match cx.kind(ty) {
            TyKind::Infer(var) => {
                let variable = var.variable();
                Some((VariableKind::Term(variable.sort), variable.number))
            }
            _ => None,
        },
        GenericArg::Const(constant) => match cx.const_kind(constant) {
            ConstKind::Infer(number) => {
                Some((VariableKind::Term(VariableSort::Constant), number))
            }
            _ => None,
        },
        GenericArg::Region(region) => match cx.region_kind(region) {
            RegionKind::Var(number) => Some((VariableKind::Region, number)),
            _ => None,
        },
    }
}

/// What stands for a variable, whose new number is the place of its old one. `Stop::Memory` comes where a growth was refused,
/// `Stop::NodesFull` where no number is left, or the place is too large to be one.
fn renumbered_at(cx: &mut Cx, numbers: &[u32], arg: GenericArg) -> Result<Option<GenericArg>, Stop>
    requires { IsArg cx.old.trees arg }
    ensures grows { Grows cx.old cx.new }
    ensures faults { NoFault cx.old cx.new }
    ensures rest { cx.new.delayed_bugs ≡ cx.old.delayed_bugs }
    ensures kind { IfOk result (λ o. IsOfKind cx.new.trees arg o) }
    ensures answer { IfOk result (λ o. option_map (arg_tree cx.new.trees) o ≡ renumbered_at numbers.now (arg_tree cx.old.trees arg)) }
    ensures cause { IfErr result (λ s. IsNewNumberStop (length numbers.now) (length cx.new.trees) (renumbered_at numbers.now (arg_tree cx.old.trees arg)) s) }
{
    let Some((kind, number)) = variable_in(cx, arg) else {
        return Ok(None);
    };
    let place = place_of(numbers, number);
    if place > u32::MAX as usize {
        return Err(Stop::NodesFull);
    }
    Ok(Some(variable(cx, kind, place as u32)?))
}

/// What `renumbered_at` answers.
#[derive(Drop)]
struct Renumbering<'a> {
    numbers: &'a [u32],
}

impl PureFolder<Cx> for Renumbering<'_> {
    ghost answers = { λ s _. (λ _ t. renumbered_at s.numbers.now t) };

    ghost is_of = { λ _ _. Unit {0} };

    ghost causes = { λ s. IsRenumberingStop (length s.numbers.now) };

    fn may_answer(&self, marks: Marks) -> bool {
        marks.has_infer()
    }

    fn answer(
        &self,
        alloc: Global,
        make: &mut Cx,
        arg: GenericArg,
        binders: u32,
    ) -> Result<Option<GenericArg>, Stop> {
        let _ = alloc;
        let _ = binders;
        renumbered_at(make, self.numbers, arg)
    }

    fn recall_laws(&self) {}
}

/// The list, clause or whatever else it is, whose variables all have these numbers, with its variables numbered anew. What is said
/// of `Rounds::resolve_ty_if_possible` holds here, too, and of `renumbered_at`.
pub(crate) fn renumbered<N: Numbered>(
    alloc: Global,
    cx: &mut Cx,
    numbers: &[u32],
    value: N,
) -> Result<N, Stop>
    requires { kind_at cx.old.trees (N.number_of value) ≡ N.kind value }
    ensures grows { Grows cx.old cx.new }
    ensures faults { NoFault cx.old cx.new }
    ensures sort { IfOk result (λ x. kind_at cx.new.trees (N.number_of x) ≡ N.kind x) }
    ensures kind { IfOk result (λ x. N.kind x ≡ N.kind value) }
    ensures tree { IfOk result (λ x. tree_at cx.new.trees (N.number_of x) ≡ renumbered_tree numbers.now (tree_at cx.old.trees (N.number_of value))) }
    ensures list { is_list_kind (N.kind value) ≡ true → IfOk result (λ x. members_of cx.new.trees (N.number_of x) ≡ renumbered numbers.now (members_of cx.old.trees (N.number_of value))) }
    ensures cause { IfErr result (λ s. IsRenumberingStop (length numbers.now) (length cx.new.trees) (renumbered numbers.now (row_of (N.kind value) (tree_at cx.old.trees (N.number_of value)))) s) }
{
    if !cx.has_marked(value, &Unsolved) {
        return Ok(value);
    }
    fold_answers(alloc, cx, value, &Renumbering { numbers })
}

/// The list, numbered anew so; where there are no numbers it stays as it is.
pub(crate) fn numbered_args(
    alloc: Global,
    cx: &mut Cx,
    numbers: &[u32],
    args: Args,
) -> Result<Args, Stop>
    requires args { IsArgs cx.old.trees args }
    requires all { numbers.now ≡ [] → with_numbers [] (args_forest cx.old.trees args) ≡ [] }
    ensures grows { Grows cx.old cx.new }
    ensures faults { NoFault cx.old cx.new }
    ensures sort { IfOk result (λ a. IsArgs cx.new.trees a) }
    ensures trees { IfOk result (λ a. args_forest cx.new.trees a ≡ renumbered numbers.now (args_forest cx.old.trees args)) }
    ensures cause { IfErr result (λ s. IsRenumberingStop (length numbers.now) (length cx.new.trees) (renumbered numbers.now (args_forest cx.old.trees args)) s) }
{
    if numbers.is_empty() {
        return Ok(args);
    }
    renumbered(alloc, cx, numbers, args)
}

/// The clauses, with their variables numbered anew.
fn renumbered_clauses(
    alloc: Global,
    cx: &mut Cx,
    numbers: &[u32],
    clauses: &[Clause],
) -> Result<Vec<Clause>, Stop>
    requires { ClauseListFits cx.old.trees clauses.now }
    ensures grows { Grows cx.old cx.new }
    ensures faults { NoFault cx.old cx.new }
    ensures fit { IfOk result (λ v. ClauseListFits cx.new.trees v.items) }
    ensures trees { IfOk result (λ v. map (clause_tree cx.new.trees) v.items ≡ map (renumbered_tree numbers.now) (map (clause_tree cx.old.trees) clauses.now)) }
    ensures cause { IfErr result (λ s. AreRenumberingStops cx.new.trees numbers.now (map (clause_tree cx.old.trees) clauses.now) s) }
{
    let mut list = Vec::new(alloc);
    for i in 0..clauses.len() {
        list.push(renumbered(alloc, cx, numbers, clauses[i])?)?;
    }
    Ok(list)
}

/// What the variable of that number is: its kind and its universe.
fn open_variable(inference: &Inference, number: u32) -> CanonicalVar
    ensures { result ≡ open_entry (slice_get inference.now.variables number) }
{
    match inference.entry(number) {
        Some(entry) => CanonicalVar {
            kind: entry.kind,
            universe: entry.universe,
        },
        None => CanonicalVar {
            kind: VariableKind::Region,
            universe: 0,
        },
    }
}

/// What the variables of these numbers are. The only stop is `Stop::Memory`.
pub(crate) fn open_variables(
    alloc: Global,
    inference: &Inference,
    numbers: &[u32],
) -> Result<Vec<CanonicalVar>, Stop>
    ensures variables { IfOk result (λ v. v.items ≡ map (λ n. open_entry (slice_get inference.now.variables n)) numbers.now) }
    ensures cause { IfErr result (λ s. s ≡ Stop.Memory) }
{
    let mut list = Vec::new(alloc);
    for i in 0..numbers.len() {
        list.push(open_variable(inference, numbers[i]))?;
    }
    Ok(list)
}

/// The response of what is known, with that certainty. It stops as its parts do; the nodes that were made stay then.
fn response(
    alloc: Global,
    cx: &mut Cx,
    inference: &Inference,
    certainty: Certainty,
) -> Result<CanonicalResponse, Stop>
    requires known { IsKnown cx.old.trees inference.now }
    requires kinds { Each (SuitsKind cx.old.trees) inference.now.variables }
    ensures grows { Grows cx.old cx.new }
    ensures faults { NoFault cx.old cx.new }
    ensures sort { IfOk result (λ r. IsResponse cx.new.trees r) }
    ensures is { (m : TypingMode) → IfOk result (λ r. response_of cx.new.trees r ≡ response (state_of cx.old.trees m inference.now) certainty) }
    ensures cause { (m : TypingMode) → IfErr result (λ s. IsResponseStop cx.new.trees (state_of cx.old.trees m inference.now) s) }
{
    let values = root_values(alloc, cx, inference)?;
    let regions = constraints(alloc, cx, inference)?;
    let numbers = numbers_of(alloc, cx, values, regions.as_slice())?;
    let vars = open_variables(alloc, inference, numbers.as_slice())?;
    let new_values = numbered_args(alloc, cx, numbers.as_slice(), values)?;
    let new_regions = renumbered_clauses(alloc, cx, numbers.as_slice(), regions.as_slice())?;
    Ok(CanonicalResponse {
        vars,
        values: new_values,
        regions: new_regions,
        certainty,
    })
}

impl Rounds {
    /// The response of what is known, with that certainty. Nothing that is pending is evaluated; nodes are made, it is noted whether a
    /// region leaks, and nothing else is changed. `Stop::Memory` comes where a growth was refused, `Stop::NodesFull` where no numbers are left, a tree would be higher than
    /// 1,024, or the variables that are left open or the children of a node are too many. After a stop the nodes that were made stay.
    pub fn make_canonical_response(
        &mut self,
        alloc: Global,
        certainty: Certainty,
    ) -> Result<CanonicalResponse, Stop>
        ensures goes { GoesOn self.old self.new }
        ensures grows { Grows self.old.context self.new.context }
        ensures faults { NoFault self.old.context self.new.context }
        ensures given { KeepsGiven self.old self.new }
        ensures probes { probes self.new ≡ probes self.old }
        ensures state { state self.new ≡ state self.old }
        ensures sort { IfOk result (λ r. IsResponse self.new.context.trees r) }
        ensures is { IfOk result (λ r. response_of self.new.context.trees r ≡ response (state self.old) certainty) }
        ensures cause { IfErr result (λ s. IsResponseStop self.new.context.trees (state self.old) s) }
    {
        let leaks = self.leaks_newly(alloc)?;
        self.leaks = self.leaks || leaks;
        response(alloc, &mut self.cx, &self.inference, certainty)
    }
}
