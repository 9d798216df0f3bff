//! Variables that get values.

ghost use Rattle.std.specs.Prelude.{◌≡◌, ◌≤◌, true, false, [], None, IfOk, IfErr, OnOk, length, slice_get};
ghost use Rattle.ir_trees.specs.Declarations.Context.{Grows};
ghost use Rattle.candidate_eval.specs.Interface.Evaluators.{NoFault};
ghost use Rattle.ir_trees.specs.Instantiation.Folding.{IsSubstStop};
ghost use Rattle.ir_trees.specs.Instantiation.Folds.{IsArg, arg_tree};
ghost use Rattle.ir_trees.specs.Unification.Substitutions.{alone, fits_sort, same_variable};
ghost use Rattle.ir_trees.specs.Syntax.Trees.{is_number, tree_holds};
ghost use Rattle.ir_trees.specs.Unification.Unify.{same_head};
ghost use Rattle.ir_trees.specs.Syntax.Words.{IsClause, IsRegion, clause_tree, region_tree};
ghost use Rattle.candidate_eval.specs.Judges.Soundness.{IsResolved};
ghost use Rattle.candidate_eval.specs.Judges.States.{value_of, valued_tree};
ghost use Rattle.candidate_eval.specs.declared.eval.mode.TypingMode.{TypingMode};
ghost use Rattle.candidate_eval.specs.declared.eval.variable.VariableKind.TheVariants.{Term};
ghost use Rattle.candidate_rounds.specs.Calls.Assigning.{IsRoom, allows, single_arg, with_all_renewed, with_info, with_its_value, with_its_universe, with_universes, with_values};
ghost use Rattle.rounds_judge.specs.Equations.Binding.{may_take, bound, single};
ghost use Rattle.rounds_judge.specs.Equations.Equating.{outlives, with_equal_regions};
ghost use Rattle.candidate_rounds.specs.Evaluators.Inferences.{IsFullAt, IsFurther, is_of_kind, back_to, record_region};
ghost use Rattle.candidate_rounds.specs.Evaluators.Stopping.{IsBindingStop, IsRegionsStop, IsRenewalStop, IsTreeStop};
ghost use Rattle.candidate_rounds.specs.Evaluators.Known.{AreMarks, GoesOn, HasResolvedValues, IsConsistent, IsEvaluator, is_open, state, state_of};

use crate::rounds::Rounds;
use crate::rounds::inference::Inference;
use crate::rounds::resolving::{Lone, is_same_kind};
use candidate_eval::eval::variable::VariableKind;
use ir_context::decl::context::Cx;
use ir_context::decl::make::Build;
use ir_folds::decl::answering::{PureFolder, fold_answers};
use ir_trees::ir::heads::{Builtin, Flag, Head, Marks, Variable, VariableSort};
use ir_trees::ir::kinds::{Binder, Clause, ClauseKind, GenericArg, Region};
use ir_trees::ir::numbered::Numbered;
use ir_trees::ir::stop::Stop;
use ir_trees::ir::trees::Trees;
use std::alloc::Global;

/// Whether a variable of the sort may go to the argument: one for integers to an integer type or another variable for integers.
fn fits_sort(cx: &Cx, sort: VariableSort, arg: GenericArg) -> bool
    requires { IsArg cx.now.trees arg }
    ensures { result ≡ fits_sort sort (arg_tree cx.now.trees arg).head }
{
    let head = cx.head(arg.number());
    match sort {
        VariableSort::General => matches!(arg, GenericArg::Ty(_)),
        VariableSort::Integer => match head {
            Head::Builtin(builtin) => matches!(builtin, Builtin::Int(_) | Builtin::Uint(_)),
            Head::Infer(variable) => variable.sort == VariableSort::Integer,
            _ => false,
        },
        VariableSort::Floating => match head {
            Head::Builtin(builtin) => matches!(builtin, Builtin::Float(_)),
            Head::Infer(variable) => variable.sort == VariableSort::Floating,
            _ => false,
        },
        VariableSort::Constant => matches!(arg, GenericArg::Const(_)),
    }
}

/// Whether the variable of that number stands anywhere in the argument.
fn holds_variable(cx: &Cx, arg: GenericArg, number: u32) -> bool
    requires { IsArg cx.now.trees arg }
    ensures { result ≡ tree_holds (is_number number) (arg_tree cx.now.trees arg) }
{
    match Lone::of(cx, arg) {
        Some(lone) => lone.has_number(number),
        None => cx.mentions(arg, number),
    }
}

/// Whether the argument, of which its sort isn't looked at, may be the value of a variable of that number and universe: it
/// doesn't hold it, is closed, and names no placeholder of a universe above the variable's.
fn is_allowed(cx: &Cx, number: u32, universe: u32, value: GenericArg) -> bool
    requires { IsArg cx.now.trees value }
    ensures { result ≡ allows number universe (arg_tree cx.now.trees value) }
{
    if let Some(lone) = Lone::of(cx, value) {
        return !lone.has_number(number);
    }
    if cx.mentions(value, number) {
        return false;
    }
    if cx.has_escaping_bound_vars(value) {
        return false;
    }
    !cx.has_placeholder_above(value, universe)
}

/// Whether two variables are the same.
fn is_same_variable(a: Variable, b: Variable) -> bool
    ensures { result ≡ same_variable a b }
{
    a.sort == b.sort && a.number == b.number
}

/// What is put in the place of an argument: the value in that of the variable.
fn put_for(cx: &Cx, variable: Variable, value: GenericArg, arg: GenericArg) -> Option<GenericArg>
    requires { IsArg cx.now.trees arg }
    ensures { result ≡ single_arg variable value (arg_tree cx.now.trees arg).head }
{
    match cx.head(arg.number()) {
        Head::Infer(other) if is_same_variable(variable, other) => Some(value),
        _ => None,
    }
}

/// What `put_for` answers.
#[derive(Clone, Copy)]
struct Assigning {
    variable: Variable,
    value: GenericArg,
}

impl PureFolder<Cx> for Assigning {
    ghost answers = { λ s ts. (λ _ t. single s.variable (arg_tree ts s.value) t.head) };

    ghost is_of = { λ s ts. IsArg ts s.value × (fits_sort s.variable.sort (arg_tree ts s.value).head ≡ true) };

    ghost causes = { λ _. IsSubstStop };

    fn may_answer(&self, marks: Marks) -> bool {
        marks.has_infer()
    }

    fn answer(
        &self,
        alloc: Global,
        make: &mut Cx,
        arg: GenericArg,
        binders: u32,
    ) -> Result<Option<GenericArg>, Stop> {
        let _ = alloc;
        let _ = binders;
        Ok(put_for(make, self.variable, self.value, arg))
    }

    fn recall_laws(&self) {}
}

/// The argument, with the value put in for the variable.
fn put_value(
    alloc: Global,
    cx: &mut Cx,
    variable: Variable,
    value: GenericArg,
    arg: GenericArg,
) -> Result<GenericArg, Stop>
    requires arg { IsArg cx.old.trees arg }
    requires value { IsArg cx.old.trees value }
    requires fits { fits_sort variable.sort (arg_tree cx.old.trees value).head ≡ true }
    ensures grows { Grows cx.old cx.new }
    ensures faults { NoFault cx.old cx.new }
    ensures sort { IfOk result (λ x. IsArg cx.new.trees x) }
    ensures tree { IfOk result (λ x. arg_tree cx.new.trees x ≡ valued_tree (single variable (arg_tree cx.old.trees value)) (arg_tree cx.old.trees arg)) }
    ensures cause { IfErr result (λ s. IsTreeStop cx.new.trees (valued_tree (single variable (arg_tree cx.old.trees value)) (arg_tree cx.old.trees arg)) s) }
{
    if let Some(put) = put_for(cx, variable, value, arg) {
        return Ok(put);
    }
    fold_answers(alloc, cx, arg, &Assigning { variable, value })
}

/// Whether a variable of types or constants may stand in the argument: where it says no, none does.
fn is_open(cx: &Cx, arg: GenericArg) -> bool
    requires { IsArg cx.now.trees arg }
    ensures { result ≡ false → tree_holds is_open (arg_tree cx.now.trees arg) ≡ false }
{
    if let Some(lone) = Lone::of(cx, arg) {
        return lone.is_variable();
    }
    if matches!(arg, GenericArg::Region(_)) {
        return true;
    }
    cx.has(arg, Flag::TyInfer) || cx.has(arg, Flag::ConstInfer)
}

/// The variable of that number gets its value, once a variable has the value: the value itself, or its own with the value put
/// in, which is noted only where that changes it. It stops where a growth is refused, and where its own value with the value put in
/// can't be made; nothing is noted then.
fn renew_value(
    alloc: Global,
    cx: &mut Cx,
    inference: &mut Inference,
    number: u32,
    variable: Variable,
    value: GenericArg,
) -> Result<(), Stop>
    requires value { IsArg cx.old.trees value }
    requires fits { fits_sort variable.sort (arg_tree cx.old.trees value).head ≡ true }
    requires kind { is_of_kind (Term variable.sort) (slice_get inference.old.variables variable.number) ≡ true }
    requires room { IsRoom inference.old number variable (arg_tree cx.old.trees value) }
    requires consistent { IsConsistent cx.old.trees inference.old [] }
    ensures grows { Grows cx.old cx.new }
    ensures faults { NoFault cx.old cx.new }
    ensures further { IsFurther inference.old inference.new }
    ensures consistent { IsConsistent cx.new.trees inference.new [] }
    ensures room { (inference.new.first_open ≡ inference.old.first_open) × (inference.new.end_open ≡ inference.old.end_open) }
    ensures renewed { (m : TypingMode) → OnOk result (state_of cx.new.trees m inference.new ≡ with_info (state_of cx.old.trees m inference.old) number (with_its_value variable (arg_tree cx.old.trees value) number)) }
    ensures unchanged { IfErr result (λ _. inference.new ≡ inference.old) }
    ensures cause { (m : TypingMode) → IfErr result (λ s. IsRenewalStop cx.new.trees (state_of cx.old.trees m inference.old) variable (arg_tree cx.old.trees value) number s) }
{
    let Some(entry) = inference.entry(number) else {
        return Ok(());
    };
    if number == variable.number {
        return inference.assign(number, value);
    }
    let Some(old) = entry.value else {
        return Ok(());
    };
    if !holds_variable(cx, old, variable.number) {
        return Ok(());
    }
    let new = put_value(alloc, cx, variable, value, old)?;
    inference.assign(number, new)
}

/// The universe of the variable of that number falls to that one, if it is above it and the variable stands in the value. The only stop
/// is `Stop::Memory`.
fn renew_universe(
    cx: &Cx,
    inference: &mut Inference,
    number: u32,
    value: GenericArg,
    universe: u32,
) -> Result<(), Stop>
    requires value { IsArg cx.now.trees value }
    requires consistent { IsConsistent cx.now.trees inference.old [] }
    ensures further { IsFurther inference.old inference.new }
    ensures consistent { IsConsistent cx.now.trees inference.new [] }
    ensures renewed { let ts = cx.now.trees in (m : TypingMode) → OnOk result (state_of ts m inference.new ≡ with_info (state_of ts m inference.old) number (with_its_universe universe (arg_tree ts value) number)) }
    ensures cause { IfErr result (λ s. s ≡ Stop.Memory) }
{
    let Some(entry) = inference.entry(number) else {
        return Ok(());
    };
    if entry.universe <= universe {
        return Ok(());
    }
    if !cx.mentions(value, number) {
        return Ok(());
    }
    inference.lower(number, universe)
}

/// Notes that the variable may get the value, where a variable stands in it. `Stop::Memory` comes where a growth was refused,
/// `Stop::NodesFull` where the variable's number is too large to be noted; nothing is noted then.
fn make_room(
    cx: &Cx,
    inference: &mut Inference,
    variable: Variable,
    value: GenericArg,
) -> Result<(), Stop>
    requires value { IsArg cx.now.trees value }
    requires consistent { IsConsistent cx.now.trees inference.old [] }
    ensures further { IsFurther inference.old inference.new }
    ensures consistent { IsConsistent cx.now.trees inference.new [] }
    ensures variables { inference.new.variables ≡ inference.old.variables }
    ensures state { (m : TypingMode) → state_of cx.now.trees m inference.new ≡ state_of cx.now.trees m inference.old }
    ensures room { OnOk result (IsRoom inference.new variable.number variable (arg_tree cx.now.trees value)) }
    ensures cause { IfErr result (λ s. IsFullAt variable.number s) }
{
    if !is_open(cx, value) {
        return Ok(());
    }
    inference.widen(variable.number)
}

/// All variables get the values that they have once the variable has the value. Only those are looked at in whose values a variable may
/// stand.
fn renew_values(
    alloc: Global,
    cx: &mut Cx,
    inference: &mut Inference,
    variable: Variable,
    value: GenericArg,
) -> Result<(), Stop>
    requires value { IsArg cx.old.trees value }
    requires fits { fits_sort variable.sort (arg_tree cx.old.trees value).head ≡ true }
    requires kind { is_of_kind (Term variable.sort) (slice_get inference.old.variables variable.number) ≡ true }
    requires room { IsRoom inference.old variable.number variable (arg_tree cx.old.trees value) }
    requires consistent { IsConsistent cx.old.trees inference.old [] }
    ensures grows { Grows cx.old cx.new }
    ensures faults { NoFault cx.old cx.new }
    ensures further { IsFurther inference.old inference.new }
    ensures consistent { IsConsistent cx.new.trees inference.new [] }
    ensures renewed { (m : TypingMode) → OnOk result (state_of cx.new.trees m inference.new ≡ with_values variable (arg_tree cx.old.trees value) (state_of cx.old.trees m inference.old)) }
    ensures cause { (m : TypingMode) → IfErr result (λ s. IsBindingStop cx.new.trees (state_of cx.old.trees m inference.old) variable (arg_tree cx.old.trees value) s) }
{
    let (first, end) = inference.open_values();
    for number in first..end {
        renew_value(alloc, cx, inference, number, variable, value)?;
    }
    renew_value(alloc, cx, inference, variable.number, variable, value)
}

/// The universes of all variables in the value fall to that one, where they are above it; none is, where that is the newest. Besides
/// `Stop::Memory`, `Stop::NodesFull` comes where more variables are there than can be numbered.
fn renew_universes(
    cx: &Cx,
    inference: &mut Inference,
    value: GenericArg,
    universe: u32,
) -> Result<(), Stop>
    requires value { IsArg cx.now.trees value }
    requires consistent { IsConsistent cx.now.trees inference.old [] }
    ensures further { IsFurther inference.old inference.new }
    ensures consistent { IsConsistent cx.now.trees inference.new [] }
    ensures renewed { let ts = cx.now.trees in (m : TypingMode) → OnOk result (state_of ts m inference.new ≡ with_universes universe (arg_tree ts value) (state_of ts m inference.old)) }
    ensures cause { IfErr result (λ s. IsFullAt (length inference.old.variables) s) }
{
    if inference.newest_universe() <= universe {
        return Ok(());
    }
    let count = inference.next_variables(0)?;
    for number in 0..count {
        renew_universe(cx, inference, number, value, universe)?;
    }
    Ok(())
}

/// All variables become what they are once the variable, of that universe, has the value.
fn renew_all(
    alloc: Global,
    cx: &mut Cx,
    inference: &mut Inference,
    variable: Variable,
    value: GenericArg,
    universe: u32,
) -> Result<(), Stop>
    requires value { IsArg cx.old.trees value }
    requires fits { fits_sort variable.sort (arg_tree cx.old.trees value).head ≡ true }
    requires kind { is_of_kind (Term variable.sort) (slice_get inference.old.variables variable.number) ≡ true }
    requires consistent { IsConsistent cx.old.trees inference.old [] }
    ensures grows { Grows cx.old cx.new }
    ensures faults { NoFault cx.old cx.new }
    ensures further { IsFurther inference.old inference.new }
    ensures consistent { IsConsistent cx.new.trees inference.new [] }
    ensures renewed { (m : TypingMode) → OnOk result (state_of cx.new.trees m inference.new ≡ with_all_renewed variable universe (arg_tree cx.old.trees value) (state_of cx.old.trees m inference.old)) }
    ensures cause { (m : TypingMode) → IfErr result (λ s. IsBindingStop cx.new.trees (state_of cx.old.trees m inference.old) variable (arg_tree cx.old.trees value) s) }
{
    make_room(cx, inference, variable, value)?;
    renew_values(alloc, cx, inference, variable, value)?;
    renew_universes(cx, inference, value, universe)
}

/// The variable gets the value, as `Rounds::bind` says.
fn bind_in(
    alloc: Global,
    cx: &mut Cx,
    inference: &mut Inference,
    variable: Variable,
    value: GenericArg,
) -> Result<(), Stop>
    requires value { IsArg cx.old.trees value }
    requires fits { fits_sort variable.sort (arg_tree cx.old.trees value).head ≡ true }
    requires kind { is_of_kind (Term variable.sort) (slice_get inference.old.variables variable.number) ≡ true }
    requires consistent { IsConsistent cx.old.trees inference.old [] }
    ensures grows { Grows cx.old cx.new }
    ensures faults { NoFault cx.old cx.new }
    ensures further { IsFurther inference.old inference.new }
    ensures consistent { IsConsistent cx.new.trees inference.new [] }
    ensures bound { (m : TypingMode) → OnOk result (state_of cx.new.trees m inference.new ≡ bound (state_of cx.old.trees m inference.old) variable (arg_tree cx.old.trees value)) }
    ensures undone { IfErr result (λ _. inference.new ≡ inference.old) }
    ensures cause { (m : TypingMode) → IfErr result (λ s. IsBindingStop cx.new.trees (state_of cx.old.trees m inference.old) variable (arg_tree cx.old.trees value) s) }
{
    let Some(entry) = inference.entry(variable.number) else {
        return Ok(());
    };
    let changes = inference.changes();
    if let Err(stop) = renew_all(alloc, cx, inference, variable, value, entry.universe) {
        inference.undo_to(changes);
        return Err(stop);
    }
    Ok(())
}

/// The clause that one region outlives another.
fn outlives(cx: &mut Cx, a: Region, b: Region) -> Result<Clause, Stop>
    requires first { IsRegion cx.old.trees a }
    requires second { IsRegion cx.old.trees b }
    ensures grows { Grows cx.old cx.new }
    ensures faults { NoFault cx.old cx.new }
    ensures sort { IfOk result (λ c. IsClause cx.new.trees c) }
    ensures tree { IfOk result (λ c. clause_tree cx.new.trees c ≡ outlives (region_tree cx.old.trees a) (region_tree cx.old.trees b)) }
    ensures cause { IfErr result (λ s. IsTreeStop cx.new.trees (outlives (region_tree cx.old.trees a) (region_tree cx.old.trees b)) s) }
{
    let vars = cx.mk_vars(&[])?;
    cx.mk_clause(Binder {
        vars,
        value: ClauseKind::RegionOutlives(a, b),
    })
}

/// The clauses that two regions are equal: each outlives the other.
fn equal_regions(cx: &mut Cx, a: Region, b: Region) -> Result<(Clause, Clause), Stop>
    requires first { IsRegion cx.old.trees a }
    requires second { IsRegion cx.old.trees b }
    ensures grows { Grows cx.old cx.new }
    ensures faults { NoFault cx.old cx.new }
    ensures one { IfOk result (λ p. IsClause cx.new.trees p.0 × (clause_tree cx.new.trees p.0 ≡ outlives (region_tree cx.old.trees a) (region_tree cx.old.trees b))) }
    ensures other { IfOk result (λ p. IsClause cx.new.trees p.1 × (clause_tree cx.new.trees p.1 ≡ outlives (region_tree cx.old.trees b) (region_tree cx.old.trees a))) }
    ensures cause { IfErr result (λ s. IsRegionsStop cx.new.trees (region_tree cx.old.trees a) (region_tree cx.old.trees b) s) }
{
    let one = outlives(cx, a, b)?;
    let other = outlives(cx, b, a)?;
    Ok((one, other))
}

/// Whether two regions are the same.
fn is_same_region(cx: &Cx, a: Region, b: Region) -> bool
    requires first { IsRegion cx.now.trees a }
    requires second { IsRegion cx.now.trees b }
    ensures { result ≡ same_head (region_tree cx.now.trees a).head (region_tree cx.now.trees b).head }
{
    cx.region_kind(a) == cx.region_kind(b)
}

/// Records two region constraints; none, where it stops. The only stop is `Stop::Memory`.
fn record_both(inference: &mut Inference, one: Clause, other: Clause) -> Result<(), Stop>
    ensures recorded { IfOk result (λ _. inference.new ≡ record_region (record_region inference.old one) other) }
    ensures unchanged { IfErr result (λ _. inference.new ≡ inference.old) }
    ensures cause { IfErr result (λ s. s ≡ Stop.Memory) }
{
    let changes = inference.changes();
    inference.record_region(one)?;
    if let Err(stop) = inference.record_region(other) {
        inference.undo_to(changes);
        return Err(stop);
    }
    Ok(())
}

impl Rounds {
    /// Whether the variable is there, and may get the value: it is of its sort, doesn't hold it, is closed, and names no placeholder of a
    /// universe above the variable's.
    pub(crate) fn may_take(&self, variable: Variable, value: GenericArg) -> bool
        requires { IsArg self.now.context.trees value }
        ensures { result ≡ may_take (state self.now) variable (arg_tree self.now.context.trees value) }
    {
        let Some(entry) = self.inference.entry(variable.number) else {
            return false;
        };
        if !is_same_kind(entry.kind, VariableKind::Term(variable.sort)) {
            return false;
        }
        if !fits_sort(&self.cx, variable.sort, value) {
            return false;
        }
        is_allowed(&self.cx, variable.number, entry.universe, value)
    }

    /// The variable, which has none yet, gets the value, which it may take: it is put into all values that hold the variable, and what
    /// stands in it is of no universe above the variable's. `Stop::Memory` comes where a growth was refused, `Stop::NodesFull` where no
    /// numbers are left or a tree would be higher than 1,024; nothing is known then that wasn't.
    pub(crate) fn bind(
        &mut self,
        alloc: Global,
        variable: Variable,
        value: GenericArg,
    ) -> Result<(), Stop>
        requires value { IsArg self.old.context.trees value }
        requires may { may_take (state self.old) variable (arg_tree self.old.context.trees value) ≡ true }
        requires free { value_of (state self.old) variable.number ≡ None }
        requires resolved { IsResolved (state self.old) (alone (arg_tree self.old.context.trees value)) }
        ensures goes { GoesOn self.old self.new }
        ensures bound { OnOk result (state self.new ≡ bound (state self.old) variable (arg_tree self.old.context.trees value)) }
        ensures undone { IfErr result (λ _. self.new.inference ≡ self.old.inference) }
        ensures cause { IfErr result (λ s. IsBindingStop self.new.context.trees (state self.old) variable (arg_tree self.old.context.trees value) s) }
    {
        bind_in(alloc, &mut self.cx, &mut self.inference, variable, value)
    }

    /// Records that two regions are equal, where they differ: each outlives the other. `Stop::Memory` comes where a growth was refused,
    /// `Stop::NodesFull` where no numbers are left; nothing is recorded then.
    pub(crate) fn record_equal_regions(&mut self, a: Region, b: Region) -> Result<(), Stop>
        requires first { IsRegion self.old.context.trees a }
        requires second { IsRegion self.old.context.trees b }
        ensures goes { GoesOn self.old self.new }
        ensures recorded { let ts = self.old.context.trees in OnOk result (state self.new ≡ with_equal_regions (state self.old) (region_tree ts a) (region_tree ts b)) }
        ensures undone { IfErr result (λ _. self.new.inference ≡ self.old.inference) }
        ensures cause { IfErr result (λ s. IsRegionsStop self.new.context.trees (region_tree self.old.context.trees a) (region_tree self.old.context.trees b) s) }
    {
        if is_same_region(&self.cx, a, b) {
            return Ok(());
        }
        let (one, other) = equal_regions(&mut self.cx, a, b)?;
        record_both(&mut self.inference, one, other)
    }

    /// What holds between calls, said to a caller that needs it. Nothing is done.
    pub(crate) fn recall_well_kept(&self)
        ensures { IsEvaluator self.now.context self.now.inference self.now.marks self.now.normal self.now.opaques self.now.goals }
    {
        let _ = &self.inference;
    }

    /// Takes back all changes of what is known but the first so many, of which each open probe has no more.
    pub(crate) fn undo_to(&mut self, changes: usize)
        requires few { changes ≤ length self.old.inference.trail }
        requires probes { AreMarks changes self.old.marks }
        requires resolved { HasResolvedValues self.old.context.trees (back_to changes self.old.inference) }
        ensures { self.new ≡ record self.old { inference = back_to changes self.old.inference } }
    {
        self.inference.undo_to(changes);
    }
}
