//! What variables stand for.

ghost use Rattle.std.specs.Prelude.{◌≡◌, ◌<◌, length, false, true, None, MatchOption, IfOk, IfErr};
ghost use Rattle.ir_trees.specs.Declarations.Context.{Grows};
ghost use Rattle.ir_trees.specs.Instantiation.Folding.{IsSubstStop};
ghost use Rattle.ir_trees.specs.Instantiation.Folds.{IsArg, arg_tree};
ghost use Rattle.ir_trees.specs.Syntax.Kinds.{arg_kind, arg_number};
ghost use Rattle.ir_trees.specs.Syntax.Nodes.{kind_at, tree_at};
ghost use Rattle.ir_trees.specs.Unification.Substitutions.{alone, row_of};
ghost use Rattle.ir_trees.specs.Syntax.Trees.{RegionKind, TypeKind, is_list_kind};
ghost use Rattle.candidate_eval.specs.Interface.Evaluators.{NoFault, resolved_root};
ghost use Rattle.candidate_eval.specs.Judges.States.{resolved, resolved_tree, same_kind, value_as};
ghost use Rattle.candidate_eval.specs.declared.eval.mode.TypingMode.{TypingMode};
ghost use Rattle.candidate_rounds.specs.Evaluators.Inferences.{kept_at, kept_value};
ghost use Rattle.candidate_rounds.specs.Evaluators.Known.{Each, IsKnown, IsValueAs, SuitsKind, members_of, resolved_members, state, state_of};
ghost use Rattle.candidate_rounds.specs.Calls.PureFolder.{kept_answers};
ghost use Rattle.candidate_rounds.specs.Calls.Lone.{IsLone, has_number, infer_at, is_lone, is_variable, lone_number, lone_value};

use crate::rounds::Rounds;
use crate::rounds::inference::Inference;
use candidate_eval::eval::variable::VariableKind;
use ir_context::decl::context::Cx;
use ir_folds::decl::answering::{PureFolder, fold_answers};
use ir_trees::ir::heads::{Head, Marks, Variable, VariableSort};
use ir_trees::ir::kinds::{ConstKind, GenericArg, Region, RegionKind as Kind, Ty, TyKind};
use ir_trees::ir::marks::Unsolved;
use ir_trees::ir::numbered::Numbered;
use ir_trees::ir::stop::Stop;
use ir_trees::ir::trees::Trees;
use std::alloc::Global;

/// What no walk is needed for.
#[derive(Clone, Copy)]
pub(crate) enum Lone {
    /// A variable of types or constants.
    Variable(Variable),
    /// A builtin type without children.
    Plain,
}

impl Lone {
    /// What the argument is, if it is lone.
    pub(crate) fn of(cx: &Cx, arg: GenericArg) -> Option<Lone>
        requires { IsArg cx.now.trees arg }
        ensures { MatchOption result (is_lone (arg_tree cx.now.trees arg).head ≡ false) (IsLone (arg_tree cx.now.trees arg)) }
    {
        match arg {
            GenericArg::Ty(ty) => match cx.kind(ty) {
                TyKind::Infer(var) => Some(Lone::Variable(var.variable())),
                TyKind::Bool | TyKind::Char | TyKind::Str | TyKind::Never => Some(Lone::Plain),
                TyKind::Int(_) | TyKind::Uint(_) | TyKind::Float(_) => Some(Lone::Plain),
                _ => None,
            },
            GenericArg::Const(constant) => match cx.const_kind(constant) {
                ConstKind::Infer(number) => Some(Lone::Variable(Variable {
                    sort: VariableSort::Constant,
                    number,
                })),
                _ => None,
            },
            GenericArg::Region(_) => None,
        }
    }

    /// Whether it is a variable.
    pub(crate) fn is_variable(self) -> bool
        ensures { result ≡ is_variable self }
    {
        matches!(self, Lone::Variable(_))
    }

    /// The number of the variable that it is, if it is one.
    pub(crate) fn number(self) -> Option<u32>
        ensures { result ≡ lone_number self }
    {
        match self {
            Lone::Variable(variable) => Some(variable.number),
            Lone::Plain => None,
        }
    }

    /// Whether it is the variable of that number.
    pub(crate) fn has_number(self, number: u32) -> bool
        ensures { result ≡ has_number number self }
    {
        match self {
            Lone::Variable(variable) => variable.number == number,
            Lone::Plain => false,
        }
    }

    /// The value of the variable that it is, if it is one that has a value.
    fn value(self, inference: &Inference) -> Option<GenericArg>
        ensures { result ≡ lone_value inference.now self }
    {
        match self {
            Lone::Variable(variable) => kept_value(
                inference,
                VariableKind::Term(variable.sort),
                variable.number,
            ),
            Lone::Plain => None,
        }
    }
}

/// The type that an argument is.
pub(crate) fn type_of(arg: GenericArg) -> Ty
    requires { arg_kind arg ≡ TypeKind }
    ensures { result.0 ≡ arg_number arg }
{
    match arg {
        GenericArg::Ty(ty) => ty,
        GenericArg::Const(_) | GenericArg::Region(_) => unreachable!(),
    }
}

/// The region that an argument is.
pub(crate) fn region_of(arg: GenericArg) -> Region
    requires { arg_kind arg ≡ RegionKind }
    ensures { result.0 ≡ arg_number arg }
{
    match arg {
        GenericArg::Region(region) => region,
        GenericArg::Ty(_) | GenericArg::Const(_) => unreachable!(),
    }
}

/// Whether two kinds of variables are the same.
pub(crate) fn is_same_kind(a: VariableKind, b: VariableKind) -> bool
    ensures { result ≡ same_kind a b }
{
    match (a, b) {
        (VariableKind::Term(a), VariableKind::Term(b)) => a == b,
        (VariableKind::Region, VariableKind::Region) => true,
        _ => false,
    }
}

/// The value of the variable of that number, if it is of that kind and has one.
pub(crate) fn kept_value(
    inference: &Inference,
    kind: VariableKind,
    number: u32,
) -> Option<GenericArg>
    ensures { result ≡ kept_value inference.now kind number }
{
    let entry = inference.entry(number)?;
    if !is_same_kind(entry.kind, kind) {
        return None;
    }
    entry.value
}

/// What stands for a type, constant or region that is a variable, if that has a value.
#[inline(always)]
fn value_for(cx: &Cx, inference: &Inference, arg: GenericArg) -> Option<GenericArg>
    requires { IsArg cx.now.trees arg }
    ensures { result ≡ kept_at inference.now (arg_tree cx.now.trees arg).head }
{
    match cx.head(arg.number()) {
        Head::Infer(variable) => kept_value(
            inference,
            VariableKind::Term(variable.sort),
            variable.number,
        ),
        Head::Region(Kind::Var(number)) => { kept_value(inference, VariableKind::Region, number) }
        _ => None,
    }
}

/// The argument with the value in the place of a variable of types or constants at its root, if that has one; another argument is
/// its own answer.
pub(crate) fn resolved_root(cx: &Cx, inference: &Inference, arg: GenericArg) -> GenericArg
    requires arg { IsArg cx.now.trees arg }
    requires known { IsKnown cx.now.trees inference.now }
    requires kinds { Each (SuitsKind cx.now.trees) inference.now.variables }
    ensures sort { IsArg cx.now.trees result × (arg_kind result ≡ arg_kind arg) }
    ensures tree { (m : TypingMode) → arg_tree cx.now.trees result ≡ resolved_root (state_of cx.now.trees m inference.now) (arg_tree cx.now.trees arg) }
{
    if let GenericArg::Region(_) = arg {
        return arg;
    }
    value_for(cx, inference, arg).unwrap_or(arg)
}

/// The variable of types or constants that a number is, if it is one.
pub(crate) fn variable_at(cx: &Cx, number: u32) -> Option<Variable>
    requires { number < length cx.now.trees }
    ensures { result ≡ infer_at (tree_at cx.now.trees number).head }
{
    match cx.head(number) {
        Head::Infer(variable) => Some(variable),
        _ => None,
    }
}

/// What `value_for` answers.
#[derive(Drop)]
struct Resolving<'a> {
    inference: &'a Inference,
}

impl PureFolder<Cx> for Resolving<'_> {
    ghost answers = { λ s ts. kept_answers ts s.inference.now };

    ghost is_of = { λ s ts. IsKnown ts s.inference.now × Each (SuitsKind ts) s.inference.now.variables };

    ghost causes = { λ _. IsSubstStop };

    fn may_answer(&self, marks: Marks) -> bool {
        marks.has_infer()
    }

    fn answer(
        &self,
        alloc: Global,
        make: &mut Cx,
        arg: GenericArg,
        binders: u32,
    ) -> Result<Option<GenericArg>, Stop> {
        let _ = alloc;
        let _ = binders;
        Ok(value_for(make, self.inference, arg))
    }

    fn recall_laws(&self) {}
}

/// The type, constant, list or whatever else it is, with all values put in.
pub(crate) fn resolved<N: Numbered>(
    alloc: Global,
    cx: &mut Cx,
    inference: &Inference,
    value: N,
) -> Result<N, Stop>
    requires value { kind_at cx.old.trees (N.number_of value) ≡ N.kind value }
    requires known { IsKnown cx.old.trees inference.now }
    requires kinds { Each (SuitsKind cx.old.trees) inference.now.variables }
    ensures grows { Grows cx.old cx.new }
    ensures faults { NoFault cx.old cx.new }
    ensures sort { IfOk result (λ x. kind_at cx.new.trees (N.number_of x) ≡ N.kind x) }
    ensures kind { IfOk result (λ x. N.kind x ≡ N.kind value) }
    ensures tree { (m : TypingMode) → IfOk result (λ x. tree_at cx.new.trees (N.number_of x) ≡ resolved_tree (state_of cx.old.trees m inference.now) (tree_at cx.old.trees (N.number_of value))) }
    ensures list { is_list_kind (N.kind value) ≡ true → (m : TypingMode) → IfOk result (λ x. members_of cx.new.trees (N.number_of x) ≡ resolved_members cx.old.trees m inference.now (N.number_of value)) }
    ensures cause { (m : TypingMode) → IfErr result (λ s. IsSubstStop (length cx.new.trees) (resolved (state_of cx.old.trees m inference.now) (row_of (N.kind value) (tree_at cx.old.trees (N.number_of value)))) s) }
{
    if !cx.has_marked(value, &Unsolved) {
        return Ok(value);
    }
    fold_answers(alloc, cx, value, &Resolving { inference })
}

/// The argument, with all values put in.
pub(crate) fn resolved_arg(
    alloc: Global,
    cx: &mut Cx,
    inference: &Inference,
    arg: GenericArg,
) -> Result<GenericArg, Stop>
    requires arg { IsArg cx.old.trees arg }
    requires known { IsKnown cx.old.trees inference.now }
    requires kinds { Each (SuitsKind cx.old.trees) inference.now.variables }
    ensures grows { Grows cx.old cx.new }
    ensures faults { NoFault cx.old cx.new }
    ensures sort { IfOk result (λ x. IsArg cx.new.trees x × (arg_kind x ≡ arg_kind arg)) }
    ensures tree { (m : TypingMode) → IfOk result (λ x. arg_tree cx.new.trees x ≡ resolved_tree (state_of cx.old.trees m inference.now) (arg_tree cx.old.trees arg)) }
    ensures cause { (m : TypingMode) → IfErr result (λ s. IsSubstStop (length cx.new.trees) (alone (resolved_tree (state_of cx.old.trees m inference.now) (arg_tree cx.old.trees arg))) s) }
{
    if let Some(lone) = Lone::of(cx, arg) {
        return Ok(lone.value(inference).unwrap_or(arg));
    }
    resolved(alloc, cx, inference, arg)
}

impl Rounds {
    /// The value of the variable of that number, if it is of that kind and has one.
    pub(crate) fn value(&self, kind: VariableKind, number: u32) -> Option<GenericArg>
        ensures { MatchOption result (value_as (state self.now) kind number ≡ None) (IsValueAs self.now kind number) }
    {
        kept_value(&self.inference, kind, number)
    }
}
