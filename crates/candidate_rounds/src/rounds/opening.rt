//! Aliases that may be any type: a fresh variable stands for each, and what they are is left to be proved.

ghost use Rattle.std.specs.Prelude.{false, map, true, ◌≡◌, ◌<◌, ◌&&◌, ◌⊎◌, All, IfErr, IfOk, MatchOption, None, OnErr, OnOk, Some, length};
ghost use Rattle.ir_trees.specs.Instantiation.Folding.{IsSubstStop};
ghost use Rattle.ir_trees.specs.Instantiation.Folds.{IsArg, arg_tree};
ghost use Rattle.ir_trees.specs.Declarations.Context.{Grows, parameter_kind};
ghost use Rattle.ir_trees.specs.Instantiation.Folds.{IsOfKind};
ghost use Rattle.ir_trees.specs.Syntax.Kinds.{arg_kind, arg_number};
ghost use Rattle.ir_trees.specs.Syntax.Nodes.{tree_at};
ghost use Rattle.ir_trees.specs.Syntax.Trees.{ConstantKind, holds, is_alias, is_type};
ghost use Rattle.ir_trees.specs.Syntax.Words.{IsArgs, IsClause, IsConst, IsParamEnv, IsTy, args_forest, clause_tree, const_tree, env_forest, ty_tree};
ghost use Rattle.ir_trees.specs.Unification.Substitutions.{alone};
ghost use Rattle.candidate_eval.specs.Interface.Accounts.{if_refused, if_stopped};
ghost use Rattle.candidate_eval.specs.Interface.Evaluators.{IsGoal, NoFault, kinds_listed, pendings_of};
ghost use Rattle.candidate_eval.specs.Interface.Noting.{HasWideNode, IsNotingStop};
ghost use Rattle.std.specs.Option.{option_map};
ghost use Rattle.rounds_judge.specs.Aliases.Listed.{listed_in};
ghost use Rattle.rounds_judge.specs.Aliases.Normalizing.{open_form};
ghost use Rattle.rounds_judge.specs.Aliases.OpenParts.{all_to_be, are_one, has_loose_alias, is_closed_term, is_open_part, opened, with_part, with_parts};
ghost use Rattle.candidate_eval.specs.Judges.States.{Env, resolved};
ghost use Rattle.rounds_judge.specs.Equations.Opening.{are_open, equated_openly, equation, opened_by, readied};
ghost use Rattle.candidate_rounds.specs.Calls.Opening.{asks_openly, AreArgs, AreNoted, AreTight, ArePaired, AreSidesOf, AreOpened, IsOpenedBy, IsPair, opened_answers, opened_at, opened_pairs, pairs_at, parts_of, trees_of};
ghost use Rattle.candidate_rounds.specs.Evaluators.Following.{FollowsEquation};
ghost use Rattle.candidate_rounds.specs.Evaluators.Inferences.{IsFullAt};
ghost use Rattle.candidate_rounds.specs.Evaluators.Interface.{led_to};
ghost use Rattle.candidate_rounds.specs.Evaluators.Known.{Each, GoesOn, judged_at, leaving, state};
ghost use Rattle.candidate_rounds.specs.Evaluators.Stopping.{AreReadyStop, IsOpeningStop, IsPairsStop, IsReadyStop, IsSidesStop, IsTreeStop, IsVariablesStop, StopsFrom};

use crate::rounds::Rounds;
use crate::rounds::resolving::type_of;
use crate::rounds::values::is_alias;
use candidate_eval::eval::context::EvalCtxt;
use candidate_eval::eval::refusal::NoSolutionOrStop;
use candidate_eval::eval::variable::VariableKind;
use ir_context::decl::context::Cx;
use ir_context::decl::make::Build;
use ir_folds::decl::answering::{PureFolder, fold_answers};
use ir_trees::ir::heads::{ConstHead, Flag, Head, Marks, VariableSort};
use ir_trees::ir::kinds::{
    Args, Binder, Clause, ClauseKind, Const, GenericArg, Goal, GoalSource, ParamEnv, Ty, VarKind,
};
use ir_trees::ir::numbered::Numbered;
use ir_trees::ir::stop::Stop;
use ir_trees::ir::trees::Trees;
use ir_trees::ir::walked::Walked;
use std::alloc::Global;

/// The type or constant that a number is, if no bound variable escapes from it.
fn closed_term(cx: &Cx, number: u32) -> Option<GenericArg>
    requires { number < length cx.now.trees }
    ensures { let ts = cx.now.trees in let t = tree_at ts number in MatchOption result (is_closed_term t.head t.children ≡ false) (λ a. IsArg ts a × (arg_tree ts a ≡ t) × (is_closed_term t.head t.children ≡ true)) }
{
    let arg = cx.argument(number)?;
    if let GenericArg::Region(_) = arg {
        return None;
    }
    if cx.has_escaping_bound_vars(arg) {
        return None;
    }
    Some(arg)
}

/// Whether the head of a number is that of an alias.
fn is_alias_at(cx: &Cx, number: u32) -> bool
    requires { number < length cx.now.trees }
    ensures { result ≡ is_alias (tree_at cx.now.trees number).head }
{
    matches!(
        cx.head(number),
        Head::Alias(_, _) | Head::Const(ConstHead::Unevaluated(_))
    )
}

/// Whether a child of a number is an alias from which a bound variable escapes, or has one below it that isn't within a closed type or
/// constant. `None`, where there are more children than can be counted.
fn has_loose_alias(cx: &Cx, tight: &mut Walked<u32>, number: u32) -> Option<bool>
    requires number { number < length cx.now.trees }
    requires tight { AreTight cx.now.trees tight.old }
    ensures is { MatchOption result (HasWideNode cx.now.trees) (λ b. b ≡ has_loose_alias (tree_at cx.now.trees number).children) }
    ensures tight { AreTight cx.now.trees tight.new }
{
    if !cx.marks(number).has(Flag::Alias) {
        return Some(false);
    }
    if tight.has(number) {
        return Some(false);
    }
    for place in 0..usize::MAX {
        let Some(child) = cx.child(number, place) else {
            tight.note(number, place);
            return Some(false);
        };
        if closed_term(cx, child).is_some() {
            continue;
        }
        if is_alias_at(cx, child) {
            return Some(true);
        }
        if has_loose_alias(cx, tight, child)? {
            return Some(true);
        }
    }
    None
}

/// The open part that a number is, if it is one. `Stop::NodesFull` comes where a node has more children than can be counted.
fn open_part(cx: &Cx, tight: &mut Walked<u32>, number: u32) -> Result<Option<GenericArg>, Stop>
    requires number { number < length cx.now.trees }
    requires tight { AreTight cx.now.trees tight.old }
    ensures is { let ts = cx.now.trees in let t = tree_at ts number in let p = is_open_part t.head t.children in IfOk result (λ o. MatchOption o (p ≡ false) (λ a. IsArg ts a × (arg_tree ts a ≡ t) × (p ≡ true))) }
    ensures tight { AreTight cx.now.trees tight.new }
    ensures cause { IfErr result (IsNotingStop cx.now.trees) }
{
    let Some(arg) = closed_term(cx, number) else {
        return Ok(None);
    };
    if is_alias_at(cx, number) {
        return Ok(Some(arg));
    }
    match has_loose_alias(cx, tight, number) {
        Some(true) => Ok(Some(arg)),
        Some(false) => Ok(None),
        None => Err(Stop::NodesFull),
    }
}

/// Notes a part, unless it is among those noted. The only stop is `Stop::Memory`.
fn note_part(cx: &Cx, parts: &mut Vec<GenericArg>, part: GenericArg) -> Result<(), Stop>
    requires parts { AreArgs cx.now.trees parts.old.items }
    requires part { IsArg cx.now.trees part }
    ensures noted { let ts = cx.now.trees in IfOk result (λ _. trees_of ts parts.new.items ≡ with_part (trees_of ts parts.old.items) (arg_tree ts part)) }
    ensures fit { IfOk result (λ _. AreArgs cx.now.trees parts.new.items) }
    ensures cause { IfErr result (λ s. s ≡ Stop.Memory) }
{
    for i in 0..parts.len() {
        if cx.same(parts[i], part) {
            return Ok(());
        }
    }
    Ok(parts.push(part)?)
}

/// Notes the open parts below a number, where those below the walked numbers are noted. It stops by `Stop::Memory`, or by
/// `Stop::NodesFull` where there are more children than can be counted.
fn note_parts(
    cx: &Cx,
    tight: &mut Walked<u32>,
    walked: &mut Walked<u32>,
    parts: &mut Vec<GenericArg>,
    number: u32,
) -> Result<(), Stop>
    requires number { number < length cx.now.trees }
    requires tight { AreTight cx.now.trees tight.old }
    requires walked { AreNoted (trees_of cx.now.trees parts.old.items) cx.now.trees walked.old }
    requires parts { AreArgs cx.now.trees parts.old.items }
    ensures noted { let ts = cx.now.trees in IfOk result (λ _. trees_of ts parts.new.items ≡ with_parts (trees_of ts parts.old.items) (tree_at ts number).children) }
    ensures tight { AreTight cx.now.trees tight.new }
    ensures walked { let ts = cx.now.trees in IfOk result (λ _. AreNoted (trees_of ts parts.new.items) ts walked.new) }
    ensures fit { IfOk result (λ _. AreArgs cx.now.trees parts.new.items) }
    ensures cause { IfErr result (IsNotingStop cx.now.trees) }
{
    if !cx.marks(number).has(Flag::Alias) {
        return Ok(());
    }
    if walked.has(number) {
        return Ok(());
    }
    for place in 0..usize::MAX {
        let Some(child) = cx.child(number, place) else {
            walked.note(number, place);
            return Ok(());
        };
        if let Some(part) = open_part(cx, tight, child)? {
            note_part(cx, parts, part)?;
            continue;
        }
        note_parts(cx, tight, walked, parts, child)?;
    }
    Err(Stop::NodesFull)
}

/// The open parts of both lists, each once. It stops as `note_parts` does.
fn open_parts(alloc: Global, cx: &Cx, a: Args, b: Args) -> Result<Vec<GenericArg>, Stop>
    requires left { IsArgs cx.now.trees a }
    requires right { IsArgs cx.now.trees b }
    ensures are { let ts = cx.now.trees in IfOk result (λ v. trees_of ts v.items ≡ parts_of ts a b) }
    ensures fit { IfOk result (λ v. AreArgs cx.now.trees v.items) }
    ensures cause { IfErr result (IsNotingStop cx.now.trees) }
{
    let mut parts = Vec::new(alloc);
    let mut tight = Walked::new(alloc);
    let mut walked = Walked::new(alloc);
    note_parts(cx, &mut tight, &mut walked, &mut parts, a.0)?;
    note_parts(cx, &mut tight, &mut walked, &mut parts, b.0)?;
    Ok(parts)
}

/// The kind of a variable for the argument.
fn kind_of(arg: GenericArg) -> VarKind
    ensures { parameter_kind result ≡ arg_kind arg }
{
    match arg {
        GenericArg::Ty(_) => VarKind::Ty,
        GenericArg::Const(_) => VarKind::Const,
        GenericArg::Region(_) => VarKind::Region,
    }
}

/// The kinds of variables for the arguments. The only stop is `Stop::Memory`.
fn kinds_of(alloc: Global, args: &[GenericArg]) -> Result<Vec<VarKind>, Stop>
    ensures are { IfOk result (λ v. kinds_listed v.items ≡ map arg_kind args.now) }
    ensures cause { IfErr result (λ s. s ≡ Stop.Memory) }
{
    let mut kinds = Vec::new(alloc);
    for i in 0..args.len() {
        kinds.push(kind_of(args[i]))?;
    }
    Ok(kinds)
}

/// Open parts, and what stands in their places, each at the place of its part.
#[derive(Drop)]
struct Opened {
    parts: Vec<GenericArg>,
    variables: Vec<GenericArg>,
}

/// Both sides of an equation without open parts, and the goals that each of these and what stands in its place are one.
#[derive(Drop)]
struct Sides {
    left: Args,
    right: Args,
    goals: Vec<(GoalSource, Goal<Clause>)>,
}

/// What stands in the place of the argument, if it is one of the parts.
fn variable_for(
    cx: &Cx,
    parts: &[GenericArg],
    variables: &[GenericArg],
    arg: GenericArg,
) -> Option<GenericArg>
    requires arg { IsArg cx.now.trees arg }
    requires paired { ArePaired cx.now.trees parts.now variables.now }
    ensures kind { IsOfKind cx.now.trees arg result }
    ensures is { let ts = cx.now.trees in option_map (arg_tree ts) result ≡ listed_in (pairs_at ts parts.now variables.now) (arg_tree ts arg) }
{
    for i in 0..parts.len() {
        if cx.same(parts[i], arg) {
            return Some(variables[i]);
        }
    }
    None
}

impl PureFolder<Cx> for Opened {
    ghost answers = { λ s ts. opened_answers s.parts.items s.variables.items ts };

    ghost is_of = { λ s ts. IsOpenedBy ts s };

    ghost causes = { λ _. IsSubstStop };

    fn may_answer(&self, marks: Marks) -> bool {
        let _ = marks;
        true
    }

    fn answer(
        &self,
        alloc: Global,
        make: &mut Cx,
        arg: GenericArg,
        binders: u32,
    ) -> Result<Option<GenericArg>, Stop> {
        let _ = alloc;
        let _ = binders;
        Ok(variable_for(make, self.parts.as_slice(), self.variables.as_slice(), arg))
    }

    fn recall_laws(&self) {}
}

/// The clause that two types are one.
fn types_are_one(cx: &mut Cx, a: Ty, b: Ty) -> Result<Clause, Stop>
    requires first { IsTy cx.old.trees a }
    requires second { IsTy cx.old.trees b }
    ensures grows { Grows cx.old cx.new }
    ensures faults { NoFault cx.old cx.new }
    ensures sort { IfOk result (λ c. IsClause cx.new.trees c) }
    ensures tree { IfOk result (λ c. clause_tree cx.new.trees c ≡ are_one (ty_tree cx.old.trees a) (ty_tree cx.old.trees b)) }
    ensures cause { IfErr result (λ s. IsTreeStop cx.new.trees (are_one (ty_tree cx.old.trees a) (ty_tree cx.old.trees b)) s) }
{
    let vars = cx.mk_vars(&[])?;
    cx.mk_clause(Binder {
        vars,
        value: ClauseKind::AliasRelate(a, b),
    })
}

/// The clause that two constants are one.
fn constants_are_one(cx: &mut Cx, a: Const, b: Const) -> Result<Clause, Stop>
    requires first { IsConst cx.old.trees a }
    requires second { IsConst cx.old.trees b }
    ensures grows { Grows cx.old cx.new }
    ensures faults { NoFault cx.old cx.new }
    ensures sort { IfOk result (λ c. IsClause cx.new.trees c) }
    ensures tree { IfOk result (λ c. clause_tree cx.new.trees c ≡ are_one (const_tree cx.old.trees a) (const_tree cx.old.trees b)) }
    ensures cause { IfErr result (λ s. IsTreeStop cx.new.trees (are_one (const_tree cx.old.trees a) (const_tree cx.old.trees b)) s) }
{
    let vars = cx.mk_vars(&[])?;
    cx.mk_clause(Binder {
        vars,
        value: ClauseKind::ConstEquate(a, b),
    })
}

/// The constant that an argument is.
fn const_of(arg: GenericArg) -> Const
    requires { arg_kind arg ≡ ConstantKind }
    ensures { result.0 ≡ arg_number arg }
{
    match arg {
        GenericArg::Const(constant) => constant,
        GenericArg::Ty(_) | GenericArg::Region(_) => unreachable!(),
    }
}

/// The clause that a part and what stands in its place are one. `Stop::Memory` comes where a growth was refused, `Stop::NodesFull` where no
/// number is left, or the clause would be higher than 1,024.
fn are_one(cx: &mut Cx, part: GenericArg, other: GenericArg) -> Result<Clause, Stop>
    requires { IsPair cx.old.trees part other }
    ensures grows { Grows cx.old cx.new }
    ensures faults { NoFault cx.old cx.new }
    ensures sort { IfOk result (λ c. IsClause cx.new.trees c) }
    ensures tree { IfOk result (λ c. clause_tree cx.new.trees c ≡ are_one (arg_tree cx.old.trees part) (arg_tree cx.old.trees other)) }
    ensures cause { IfErr result (λ s. IsTreeStop cx.new.trees (are_one (arg_tree cx.old.trees part) (arg_tree cx.old.trees other)) s) }
{
    match part {
        GenericArg::Ty(ty) => types_are_one(cx, ty, type_of(other)),
        GenericArg::Const(constant) => constants_are_one(cx, constant, const_of(other)),
        GenericArg::Region(_) => unreachable!(),
    }
}

/// The goals that each part and what stands in its place are one. It stops as `are_one` does.
fn all_to_be(
    alloc: Global,
    cx: &mut Cx,
    env: ParamEnv,
    parts: &[GenericArg],
    others: &[GenericArg],
) -> Result<Vec<(GoalSource, Goal<Clause>)>, Stop>
    requires env { IsParamEnv cx.old.trees env }
    requires paired { ArePaired cx.old.trees parts.now others.now }
    ensures grows { Grows cx.old cx.new }
    ensures faults { NoFault cx.old cx.new }
    ensures sort { IfOk result (λ v. Each (λ g. IsGoal cx.new.trees g.1) v.items) }
    ensures are { let ts = cx.old.trees in IfOk result (λ v. pendings_of cx.new.trees v.items ≡ all_to_be (env_forest ts env) (pairs_at ts parts.now others.now)) }
    ensures cause { let ts = cx.old.trees in IfErr result (IsPairsStop cx.new.trees (pairs_at ts parts.now others.now)) }
{
    let mut goals = Vec::new(alloc);
    for i in 0..parts.len() {
        let predicate = are_one(cx, parts[i], others[i])?;
        let goal = Goal {
            param_env: env,
            predicate,
        };
        goals.push((GoalSource::Misc, goal))?;
    }
    Ok(goals)
}

/// The list of the one argument. `Stop::Memory` comes where a growth was refused, `Stop::NodesFull` where no number is left or the list
/// would be higher than 1,024.
fn list_of(cx: &mut Cx, arg: GenericArg) -> Result<Args, Stop>
    requires { IsArg cx.old.trees arg }
    ensures grows { Grows cx.old cx.new }
    ensures faults { NoFault cx.old cx.new }
    ensures sort { IfOk result (λ x. IsArgs cx.new.trees x) }
    ensures tree { IfOk result (λ x. args_forest cx.new.trees x ≡ alone (arg_tree cx.old.trees arg)) }
    ensures cause { IfErr result (λ s. IsTreeStop cx.new.trees (arg_tree cx.old.trees arg) s) }
{
    cx.mk_args(&[arg])
}

impl Rounds {
    /// The list with all values put in, and listed types in the place of their aliases. It stops as `Rounds::resolve_ty_if_possible`
    /// does.
    fn readied(&mut self, alloc: Global, list: Args) -> Result<Args, Stop>
        requires { IsArgs self.old.context.trees list }
        ensures goes { GoesOn self.old self.new }
        ensures state { state self.new ≡ state self.old }
        ensures sort { IfOk result (λ x. IsArgs self.new.context.trees x) }
        ensures tree { IfOk result (λ x. args_forest self.new.context.trees x ≡ judged_at self.old readied (args_forest self.old.context.trees list)) }
        ensures cause { IfErr result (λ s. StopsFrom IsReadyStop self.old self.new (args_forest self.old.context.trees list) s) }
    {
        self.recall_well_kept();
        let resolved = self.resolve_args_if_possible(list)?;
        self.with_listed_types(alloc, resolved)
    }

    /// The open parts of two lists, each once, and a fresh variable for each.
    fn opening(&mut self, alloc: Global, a: Args, b: Args) -> Result<Opened, Stop>
        requires left { IsArgs self.old.context.trees a }
        requires right { IsArgs self.old.context.trees b }
        ensures goes { GoesOn self.old self.new }
        ensures paired { IfOk result (IsOpenedBy self.new.context.trees) }
        ensures is { let ts = self.old.context.trees in IfOk result (λ o. opened_pairs self.new.context.trees o ≡ (opened_by (state self.old) (parts_of ts a b)).pairs) }
        ensures state { let ts = self.old.context.trees in OnOk result (state self.new ≡ (opened_by (state self.old) (parts_of ts a b)).state) }
        ensures cause { let ts = self.old.context.trees in IfErr result (λ s. IsVariablesStop self.new.context.trees (state self.old) (parts_of ts a b) s) }
    {
        let parts = open_parts(alloc, &self.cx, a, b)?;
        let kinds = kinds_of(alloc, parts.as_slice())?;
        let list = self.fresh_args_for_item(kinds.as_slice())?;
        let variables = Vec::from_slice(alloc, self.cx.args(list))?;
        Ok(Opened { parts, variables })
    }

    /// Both lists with all values put in, and listed types in the place of their aliases. It stops as `readied` does.
    fn both_readied(&mut self, alloc: Global, a: Args, b: Args) -> Result<(Args, Args), Stop>
        requires left { IsArgs self.old.context.trees a }
        requires right { IsArgs self.old.context.trees b }
        ensures goes { GoesOn self.old self.new }
        ensures state { state self.new ≡ state self.old }
        ensures left { IfOk result (λ p. IsArgs self.new.context.trees p.0 × (args_forest self.new.context.trees p.0 ≡ judged_at self.old readied (args_forest self.old.context.trees a))) }
        ensures right { IfOk result (λ p. IsArgs self.new.context.trees p.1 × (args_forest self.new.context.trees p.1 ≡ judged_at self.old readied (args_forest self.old.context.trees b))) }
        ensures cause { let ts = self.old.context.trees in IfErr result (λ s. StopsFrom AreReadyStop self.old self.new (args_forest ts a) (args_forest ts b) s) }
    {
        self.recall_well_kept();
        let a = self.readied(alloc, a)?;
        let b = self.readied(alloc, b)?;
        Ok((a, b))
    }

    /// The list with what stands in the place of open parts. It stops as `Rounds::resolve_ty_if_possible` does.
    fn opened(&mut self, alloc: Global, list: Args, by: &Opened) -> Result<Args, Stop>
        requires list { IsArgs self.old.context.trees list }
        requires by { IsOpenedBy self.old.context.trees by.now }
        ensures goes { GoesOn self.old self.new }
        ensures state { state self.new ≡ state self.old }
        ensures sort { IfOk result (λ x. IsArgs self.new.context.trees x) }
        ensures tree { let ts = self.old.context.trees in IfOk result (λ x. args_forest self.new.context.trees x ≡ opened (opened_pairs ts by.now) (args_forest ts list)) }
        ensures cause { let ts = self.old.context.trees in IfErr result (IsSubstStop (length self.new.context.trees) (opened (opened_pairs ts by.now) (args_forest ts list))) }
    {
        if by.parts.as_slice().is_empty() {
            return Ok(list);
        }
        fold_answers(alloc, &mut self.cx, list, by)
    }

    /// The goals that each part and what stands in its place are one. It stops as `are_one` does.
    fn goals_of(
        &mut self,
        alloc: Global,
        env: ParamEnv,
        by: &Opened,
    ) -> Result<Vec<(GoalSource, Goal<Clause>)>, Stop>
        requires env { IsParamEnv self.old.context.trees env }
        requires by { IsOpenedBy self.old.context.trees by.now }
        ensures goes { GoesOn self.old self.new }
        ensures state { state self.new ≡ state self.old }
        ensures sort { IfOk result (λ v. Each (λ g. IsGoal self.new.context.trees g.1) v.items) }
        ensures are { let ts = self.old.context.trees in IfOk result (λ v. pendings_of self.new.context.trees v.items ≡ all_to_be (env_forest ts env) (opened_pairs ts by.now)) }
        ensures cause { let ts = self.old.context.trees in IfErr result (IsPairsStop self.new.context.trees (opened_pairs ts by.now)) }
    {
        all_to_be(
            alloc,
            &mut self.cx,
            env,
            by.parts.as_slice(),
            by.variables.as_slice(),
        )
    }

    /// Both lists with a fresh variable in the place of each open part, and the goals that both are one.
    fn open_sides(&mut self, alloc: Global, env: ParamEnv, a: Args, b: Args) -> Result<Sides, Stop>
        requires env { IsParamEnv self.old.context.trees env }
        requires left { IsArgs self.old.context.trees a }
        requires right { IsArgs self.old.context.trees b }
        ensures goes { GoesOn self.old self.new }
        ensures fit { IfOk result (AreSidesOf self.new.context.trees) }
        ensures are { let ts = self.old.context.trees in IfOk result (AreOpened self.new.context.trees (env_forest ts env) (args_forest ts a) (args_forest ts b) (opened_at self.old ts a b)) }
        ensures state { OnOk result (state self.new ≡ (opened_at self.old self.old.context.trees a b).state) }
        ensures cause { let ts = self.old.context.trees in IfErr result (IsSidesStop self.new.context.trees (args_forest ts a) (args_forest ts b) (opened_at self.old ts a b) (state self.old)) }
    {
        let by = self.opening(alloc, a, b)?;
        let left = self.opened(alloc, a, &by)?;
        let right = self.opened(alloc, b, &by)?;
        let goals = self.goals_of(alloc, env, &by)?;
        Ok(Sides { left, right, goals })
    }

    /// Two lists are made equal with fresh variables for their open parts: the goals that are left. After a refusal and a stop what is known
    /// may be more.
    fn equate_openly(
        &mut self,
        alloc: Global,
        env: ParamEnv,
        a: Args,
        b: Args,
    ) -> Result<Vec<(GoalSource, Goal<Clause>)>, NoSolutionOrStop>
        requires open { judged_at self.old are_open ≡ true }
        requires env { IsParamEnv self.old.context.trees env }
        requires left { IsArgs self.old.context.trees a }
        requires right { IsArgs self.old.context.trees b }
        ensures goes { GoesOn self.old self.new }
        ensures sort { IfOk result (λ v. Each (λ g. IsGoal self.new.context.trees g.1) v.items) }
        ensures ok { let ts = self.old.context.trees in IfOk result (λ v. judged_at self.old equated_openly (env_forest ts env) (args_forest ts a) (args_forest ts b) ≡ leaving self.new v.items) }
        ensures refused { let ts = self.old.context.trees in IfErr result (if_refused (judged_at self.old equated_openly (env_forest ts env) (args_forest ts a) (args_forest ts b) ≡ None)) }
        ensures cause { let ts = self.old.context.trees in IfErr result (if_stopped (λ s. StopsFrom IsOpeningStop self.old self.new (env_forest ts env) (args_forest ts a) (args_forest ts b) s)) }
    {
        self.recall_well_kept();
        let (a, b) = self.both_readied(alloc, a, b)?;
        let sides = self.open_sides(alloc, env, a, b)?;
        self.equate_args(alloc, sides.left, sides.right)?;
        Ok(sides.goals)
    }

    /// Whether an alias stands in the list once all values are put in. It stops as `Rounds::resolve_ty_if_possible` does.
    fn has_alias(&mut self, list: Args) -> Result<bool, Stop>
        requires { IsArgs self.old.context.trees list }
        ensures goes { GoesOn self.old self.new }
        ensures state { state self.new ≡ state self.old }
        ensures is { IfOk result (λ b. b ≡ holds is_alias (resolved (state self.old) (args_forest self.old.context.trees list))) }
        ensures cause { IfErr result (IsSubstStop (length self.new.context.trees) (resolved (state self.old) (args_forest self.old.context.trees list))) }
    {
        let resolved = self.resolve_args_if_possible(list)?;
        Ok(self.cx.has(resolved, Flag::Alias))
    }

    /// Whether aliases are open and one stands in the lists. It stops as `has_alias` does.
    fn asks_openly(&mut self, a: Args, b: Args) -> Result<bool, Stop>
        requires left { IsArgs self.old.context.trees a }
        requires right { IsArgs self.old.context.trees b }
        ensures goes { GoesOn self.old self.new }
        ensures state { state self.new ≡ state self.old }
        ensures is { let ts = self.old.context.trees in IfOk result (λ x. x ≡ judged_at self.old asks_openly (args_forest ts a) (args_forest ts b)) }
        ensures cause { let ts = self.old.context.trees in (e : Env) → IfErr result (StopsFrom IsOpeningStop self.old self.new e (args_forest ts a) (args_forest ts b)) }
    {
        if !self.opens_aliases() {
            return Ok(false);
        }
        if self.has_alias(a)? {
            return Ok(true);
        }
        self.has_alias(b)
    }

    /// Two lists are made equal: the goals that are left. After a refusal and a stop what is known may be more.
    fn equation_below(
        &mut self,
        alloc: Global,
        env: ParamEnv,
        a: Args,
        b: Args,
    ) -> Result<Vec<(GoalSource, Goal<Clause>)>, NoSolutionOrStop>
        requires env { IsParamEnv self.old.context.trees env }
        requires left { IsArgs self.old.context.trees a }
        requires right { IsArgs self.old.context.trees b }
        ensures goes { GoesOn self.old self.new }
        ensures sort { IfOk result (λ v. Each (λ g. IsGoal self.new.context.trees g.1) v.items) }
        ensures ok { let ts = self.old.context.trees in IfOk result (λ v. judged_at self.old equation (env_forest ts env) (args_forest ts a) (args_forest ts b) ≡ leaving self.new v.items) }
        ensures refused { let ts = self.old.context.trees in IfErr result (if_refused (judged_at self.old equation (env_forest ts env) (args_forest ts a) (args_forest ts b) ≡ None)) }
        ensures cause { let ts = self.old.context.trees in IfErr result (if_stopped (StopsFrom IsOpeningStop self.old self.new (env_forest ts env) (args_forest ts a) (args_forest ts b))) }
    {
        self.recall_well_kept();
        if self.asks_openly(a, b)? {
            return self.equate_openly(alloc, env, a, b);
        }
        self.equate_args(alloc, a, b)?;
        Ok(Vec::new(alloc))
    }

    /// Two lists are made equal: the goals that are left. Where they can't be made equal, and where it stops, what is known is what it
    /// was.
    pub(crate) fn equation_of_args(
        &mut self,
        alloc: Global,
        env: ParamEnv,
        a: Args,
        b: Args,
    ) -> Result<Vec<(GoalSource, Goal<Clause>)>, NoSolutionOrStop>
        requires env { IsParamEnv self.old.context.trees env }
        requires left { IsArgs self.old.context.trees a }
        requires right { IsArgs self.old.context.trees b }
        ensures goes { GoesOn self.old self.new }
        ensures sort { IfOk result (λ v. Each (λ g. IsGoal self.new.context.trees g.1) v.items) }
        ensures ok { let ts = self.old.context.trees in IfOk result (λ v. judged_at self.old equation (env_forest ts env) (args_forest ts a) (args_forest ts b) ≡ leaving self.new v.items) }
        ensures refused { let ts = self.old.context.trees in IfErr result (if_refused (judged_at self.old equation (env_forest ts env) (args_forest ts a) (args_forest ts b) ≡ None)) }
        ensures cause { let ts = self.old.context.trees in IfErr result (if_stopped (StopsFrom IsOpeningStop self.old self.new (env_forest ts env) (args_forest ts a) (args_forest ts b))) }
        ensures undone { OnErr result (self.new.inference ≡ self.old.inference) }
    {
        self.recall_well_kept();
        let changes = self.inference.changes();
        let result = self.equation_below(alloc, env, a, b);
        if result.is_err() {
            self.undo_to(changes);
        }
        result
    }

    /// The list of the one argument. It stops as `list_of` does.
    fn single(&mut self, arg: GenericArg) -> Result<Args, Stop>
        requires { IsArg self.old.context.trees arg }
        ensures goes { GoesOn self.old self.new }
        ensures inference { self.new.inference ≡ self.old.inference }
        ensures state { state self.new ≡ state self.old }
        ensures sort { IfOk result (λ x. IsArgs self.new.context.trees x) }
        ensures tree { IfOk result (λ x. args_forest self.new.context.trees x ≡ alone (arg_tree self.old.context.trees arg)) }
        ensures cause { IfErr result (λ s. IsTreeStop self.new.context.trees (arg_tree self.old.context.trees arg) s) }
    {
        list_of(&mut self.cx, arg)
    }

    /// The lists of each of two arguments. It stops as `single` does.
    fn singles(&mut self, a: GenericArg, b: GenericArg) -> Result<(Args, Args), Stop>
        requires left { IsArg self.old.context.trees a }
        requires right { IsArg self.old.context.trees b }
        ensures goes { GoesOn self.old self.new }
        ensures inference { self.new.inference ≡ self.old.inference }
        ensures state { state self.new ≡ state self.old }
        ensures left { let ts = self.old.context.trees in IfOk result (λ p. IsArgs self.new.context.trees p.0 × (args_forest self.new.context.trees p.0 ≡ alone (arg_tree ts a))) }
        ensures right { let ts = self.old.context.trees in IfOk result (λ p. IsArgs self.new.context.trees p.1 × (args_forest self.new.context.trees p.1 ≡ alone (arg_tree ts b))) }
        ensures cause { let ts = self.old.context.trees in IfErr result (λ s. IsTreeStop self.new.context.trees (arg_tree ts a) s ⊎ IsTreeStop self.new.context.trees (arg_tree ts b) s) }
    {
        let a = self.single(a)?;
        let b = self.single(b)?;
        Ok((a, b))
    }

    /// Two types, constants or regions are made equal: the goals that are left. Where they can't be made equal, and where it stops, what
    /// is known is what it was.
    pub(crate) fn equation(
        &mut self,
        alloc: Global,
        env: ParamEnv,
        a: GenericArg,
        b: GenericArg,
    ) -> Result<Vec<(GoalSource, Goal<Clause>)>, NoSolutionOrStop>
        requires env { IsParamEnv self.old.context.trees env }
        requires left { IsArg self.old.context.trees a }
        requires right { IsArg self.old.context.trees b }
        ensures goes { GoesOn self.old self.new }
        ensures sort { IfOk result (λ v. Each (λ g. IsGoal self.new.context.trees g.1) v.items) }
        ensures ok { let ts = self.old.context.trees in IfOk result (λ v. judged_at self.old equation (env_forest ts env) (alone (arg_tree ts a)) (alone (arg_tree ts b)) ≡ leaving self.new v.items) }
        ensures refused { let ts = self.old.context.trees in IfErr result (if_refused (judged_at self.old equation (env_forest ts env) (alone (arg_tree ts a)) (alone (arg_tree ts b)) ≡ None)) }
        ensures cause { let ts = self.old.context.trees in IfErr result (if_stopped (StopsFrom IsOpeningStop self.old self.new (env_forest ts env) (alone (arg_tree ts a)) (alone (arg_tree ts b)))) }
        ensures undone { OnErr result (self.new.inference ≡ self.old.inference) }
    {
        self.recall_well_kept();
        if !self.opens_aliases() {
            self.equate(alloc, a, b)?;
            return Ok(Vec::new(alloc));
        }
        let (a, b) = self.singles(a, b)?;
        self.equation_of_args(alloc, env, a, b)
    }

    /// Two lists are made equal, and the goals that are left are pending. Where they can't be made equal, and where it stops, what is known
    /// is what it was.
    pub(crate) fn lead_args(
        &mut self,
        alloc: Global,
        env: ParamEnv,
        a: Args,
        b: Args,
    ) -> Result<(), NoSolutionOrStop>
        requires env { IsParamEnv self.old.context.trees env }
        requires left { IsArgs self.old.context.trees a }
        requires right { IsArgs self.old.context.trees b }
        ensures goes { GoesOn self.old self.new }
        ensures ok { let ts = self.old.context.trees in OnOk result (led_to self.old (env_forest ts env) (args_forest ts a) (args_forest ts b) ≡ Some (state self.new)) }
        ensures follows { let ts = self.old.context.trees in OnOk result (FollowsEquation (state self.old) (state self.new) (args_forest ts a) (args_forest ts b)) }
        ensures refused { let ts = self.old.context.trees in IfErr result (if_refused (led_to self.old (env_forest ts env) (args_forest ts a) (args_forest ts b) ≡ None)) }
        ensures cause { let ts = self.old.context.trees in IfErr result (if_stopped (StopsFrom IsOpeningStop self.old self.new (env_forest ts env) (args_forest ts a) (args_forest ts b))) }
        ensures undone { OnErr result (self.new.inference ≡ self.old.inference) }
    {
        self.recall_well_kept();
        let changes = self.inference.changes();
        let goals = self.equation_of_args(alloc, env, a, b)?;
        match self.leave(goals.as_slice()) {
            Ok(()) => Ok(()),
            Err(stop) => {
                self.undo_to(changes);
                Err(NoSolutionOrStop::Stop(stop))
            }
        }
    }

    /// Two types, constants or regions are made equal, and the goals that are left are pending, as `lead_args` has it of lists.
    pub(crate) fn lead(
        &mut self,
        alloc: Global,
        env: ParamEnv,
        a: GenericArg,
        b: GenericArg,
    ) -> Result<(), NoSolutionOrStop>
        requires env { IsParamEnv self.old.context.trees env }
        requires left { IsArg self.old.context.trees a }
        requires right { IsArg self.old.context.trees b }
        ensures goes { GoesOn self.old self.new }
        ensures ok { let ts = self.old.context.trees in OnOk result (led_to self.old (env_forest ts env) (alone (arg_tree ts a)) (alone (arg_tree ts b)) ≡ Some (state self.new)) }
        ensures follows { let ts = self.old.context.trees in OnOk result (FollowsEquation (state self.old) (state self.new) (alone (arg_tree ts a)) (alone (arg_tree ts b))) }
        ensures refused { let ts = self.old.context.trees in IfErr result (if_refused (led_to self.old (env_forest ts env) (alone (arg_tree ts a)) (alone (arg_tree ts b)) ≡ None)) }
        ensures cause { let ts = self.old.context.trees in IfErr result (if_stopped (StopsFrom IsOpeningStop self.old self.new (env_forest ts env) (alone (arg_tree ts a)) (alone (arg_tree ts b)))) }
        ensures undone { OnErr result (self.new.inference ≡ self.old.inference) }
    {
        self.recall_well_kept();
        if !self.opens_aliases() {
            return self.equate(alloc, a, b);
        }
        let (a, b) = self.singles(a, b)?;
        self.lead_args(alloc, env, a, b)
    }

    /// Whether the type is an alias that may be any type.
    pub(crate) fn is_open_alias(&self, ty: Ty) -> bool
        requires { IsTy self.now.context.trees ty }
        ensures { result ≡ (judged_at self.now are_open && (is_alias (ty_tree self.now.context.trees ty).head && is_type (ty_tree self.now.context.trees ty).head)) }
    {
        self.opens_aliases() && is_alias(&self.cx, GenericArg::Ty(ty))
    }

    /// A fresh variable of types. `Stop::Memory` comes where a growth was refused, `Stop::NodesFull` where no number is left.
    pub(crate) fn open_type(&mut self) -> Result<Ty, Stop>
        ensures goes { GoesOn self.old self.new }
        ensures sort { IfOk result (λ x. IsTy self.new.context.trees x) }
        ensures is { IfOk result (λ x. (ty_tree self.new.context.trees x, state self.new) ≡ open_form (state self.old)) }
        ensures stopped { OnErr result (state self.new ≡ state self.old) }
        ensures cause { IfErr result (λ s. IsFullAt (length (state self.old).variables) s ⊎ IsFullAt (length self.new.context.trees) s) }
    {
        self.recall_well_kept();
        let kind = VariableKind::Term(VariableSort::General);
        Ok(type_of(self.new_variable(kind, false)?))
    }
}
