//! What generic code knows of an evaluator.

ghost use Rattle.std.specs.Prelude.{◌≡◌, ◌≢◌, List, [], ◌∷◌, ◌++◌, length, map, Some, None, All, IfOk, IfErr, OnOk, OnErr};
ghost use Rattle.ir_trees.specs.declared.ir.kinds.TyKind.TheVariants as K;
ghost use Rattle.ir_trees.specs.Declarations.Context.{Context, Grows, world};
ghost use Rattle.ir_trees.specs.Instantiation.Folds.{IsArg, arg_tree};
ghost use Rattle.ir_trees.specs.Unification.Substitutions.{alone};
ghost use Rattle.ir_trees.specs.Syntax.Trees.{Tree};
ghost use Rattle.ir_trees.specs.Syntax.Words.{IsTy, IsConst, IsRegion, IsArgs, IsClause, IsParamEnv, KindFits, ty_tree, const_tree, region_tree, args_forest, clause_tree, env_forest};
ghost use Rattle.candidate_eval.specs.Interface.Evaluators.{Keeps, KeepsBut, NoFault, PutsOffIfOk, IsGoal, IsHiddenOpaque, pending_of, pendings_of, with_goals_of, normal_ty, normal_const, accepted, arguments_accepted, arguments_equated, resolved_root, begun, kinds_listed, rigid, with_rigid, alias_trees, IsEvaluatorStop};
ghost use Rattle.candidate_eval.specs.Interface.Accounts.{Question, by_stop, if_refused};
ghost use Rattle.candidate_eval.specs.Interface.Accounts as question;
ghost use Rattle.ir_trees.specs.declared.ir.stop.Stop.{Stop};
ghost use Rattle.candidate_eval.specs.Judges.Lawful.{Lawful};
ghost use Rattle.candidate_eval.specs.Interface.Knowing.{SeesStates};
ghost use Rattle.candidate_eval.specs.Outcomes.ResponseTrees.{IsResponse, response_of};
ghost use Rattle.candidate_eval.specs.Judges.States.{State, Judge, added, fresh_variables, with_fresh_variables, resolved, resolved_tree};

use crate::eval::InferCtxtLike;
use crate::eval::certainty::Certainty;
use crate::eval::mode::TypingMode;
use crate::eval::refusal::NoSolutionOrStop;
use crate::eval::response::{CandidateHeadUsages, CanonicalResponse};
use ir_trees::ir::kinds::{
    AliasTy, Args, Clause, Const, GenericArg, Goal, GoalSource, ParamEnv, Region, Ty, VarKind,
};
use ir_trees::ir::stop::Stop;

/// What a probe begins with.
#[derive(Clone, Copy, Debug, PartialEq, Eq)]
pub enum ProbeKind {
    /// What is pending.
    Kept,
    /// Nothing pending: what was is set aside until the probe ends.
    SetAside,
}

/// An evaluator.
///
/// A call that answers a stop leaves a state alike the one before: the same universes, values, regions and pending goals. The evaluator
/// accounts for each of its stops (`stops`); they are `Memory`, `NodesFull`, or `EvaluatorLimit`. No call but `delay_bug` puts a fault off.
pub trait EvalCtxt: InferCtxtLike {
    /// What `begin_probe` gives and `end_probe` takes. It is not `Drop`, so it must be spent.
    type Probe;

    /// The type of what stays fixed.
    ghost Fixed: { Type 0 };

    /// What stays fixed.
    ghost fixed: { Self → Fixed };

    /// The answers that follow from it.
    ghost judge: { Fixed → Judge };

    /// The state.
    ghost state: { Self → State };

    /// The states at which the open probes began, the newest first.
    ghost probes: { Self → List State };

    /// Its account of its stops: why a call stopped that left it so, when it was asked that at the state.
    ghost stops: { Self → State → Question → Stop → Type 0 };

    /// What goals are asked for.
    fn typing_mode(&self) -> TypingMode
        ensures { result ≡ (state self.now).mode };

    /// The type, with all values put in.
    fn resolve_ty_if_possible(&mut self, ty: Ty) -> Result<Ty, Stop>
        requires { IsTy (Self.context self.old).trees ty }
        ensures kept { Keeps fixed probes Self.context self.old self.new }
        ensures same { state self.new ≡ state self.old }
        ensures sort { IfOk result (λ x. IsTy (Self.context self.new).trees x) }
        ensures tree { IfOk result (λ x. ty_tree (Self.context self.new).trees x ≡ resolved_tree (state self.old) (ty_tree (Self.context self.old).trees ty)) }
        ensures cause { IfErr result (stops self.new (state self.old) (question.resolve (alone (ty_tree (Self.context self.old).trees ty)))) };

    /// The constant, with all values put in.
    fn resolve_const_if_possible(&mut self, constant: Const) -> Result<Const, Stop>
        requires { IsConst (Self.context self.old).trees constant }
        ensures kept { Keeps fixed probes Self.context self.old self.new }
        ensures same { state self.new ≡ state self.old }
        ensures sort { IfOk result (λ x. IsConst (Self.context self.new).trees x) }
        ensures tree { IfOk result (λ x. const_tree (Self.context self.new).trees x ≡ resolved_tree (state self.old) (const_tree (Self.context self.old).trees constant)) }
        ensures cause { IfErr result (stops self.new (state self.old) (question.resolve (alone (const_tree (Self.context self.old).trees constant)))) };

    /// The list, with all values put in.
    fn resolve_args_if_possible(&mut self, list: Args) -> Result<Args, Stop>
        requires { IsArgs (Self.context self.old).trees list }
        ensures kept { Keeps fixed probes Self.context self.old self.new }
        ensures same { state self.new ≡ state self.old }
        ensures sort { IfOk result (λ x. IsArgs (Self.context self.new).trees x) }
        ensures tree { IfOk result (λ x. args_forest (Self.context self.new).trees x ≡ resolved (state self.old) (args_forest (Self.context self.old).trees list)) }
        ensures cause { IfErr result (stops self.new (state self.old) (question.resolve (args_forest (Self.context self.old).trees list))) };

    /// The clause, with all values put in.
    fn resolve_clause_if_possible(&mut self, clause: Clause) -> Result<Clause, Stop>
        requires { IsClause (Self.context self.old).trees clause }
        ensures kept { Keeps fixed probes Self.context self.old self.new }
        ensures same { state self.new ≡ state self.old }
        ensures sort { IfOk result (λ x. IsClause (Self.context self.new).trees x) }
        ensures tree { IfOk result (λ x. clause_tree (Self.context self.new).trees x ≡ resolved_tree (state self.old) (clause_tree (Self.context self.old).trees clause)) }
        ensures cause { IfErr result (stops self.new (state self.old) (question.resolve (alone (clause_tree (Self.context self.old).trees clause)))) };

    /// The region with its value in its place, if it is a variable that has one.
    fn eager_resolve_region(&self, region: Region) -> Region
        requires { IsRegion (Self.context self.now).trees region }
        ensures sort { IsRegion (Self.context self.now).trees result }
        ensures tree { region_tree (Self.context self.now).trees result ≡ resolved_tree (state self.now) (region_tree (Self.context self.now).trees region) };

    /// The type in normal form. A refusal leaves the state as it was, a stop one alike.
    fn structurally_normalize_ty(&mut self, env: ParamEnv, ty: Ty) -> Result<Ty, NoSolutionOrStop>
        requires env { IsParamEnv (Self.context self.old).trees env }
        requires ty { IsTy (Self.context self.old).trees ty }
        ensures kept { Keeps fixed probes Self.context self.old self.new }
        ensures sort { IfOk result (λ x. IsTy (Self.context self.new).trees x) }
        ensures ok { IfOk result (λ x. normal_ty (judge (fixed self.old)) (state self.old) (Self.context self.old).trees env ty ≡ Some (ty_tree (Self.context self.new).trees x, state self.new)) }
        ensures refused { IfErr result (if_refused (normal_ty (judge (fixed self.old)) (state self.old) (Self.context self.old).trees env ty ≡ None)) }
        ensures undone { OnErr result ((judge (fixed self.old)).alike (state self.old) (state self.new)) }
        ensures rests { IfErr result (λ e. e ≡ NoSolutionOrStop.NoSolution → state self.new ≡ state self.old) }
        ensures cause { let ts = (Self.context self.old).trees in IfErr result (by_stop (stops self.new (state self.old) (question.normalize (env_forest ts env) (ty_tree ts ty)))) };

    /// The constant in normal form. A refusal leaves the state as it was, a stop one alike.
    fn structurally_normalize_const(
        &mut self,
        env: ParamEnv,
        constant: Const,
    ) -> Result<Const, NoSolutionOrStop>
        requires env { IsParamEnv (Self.context self.old).trees env }
        requires constant { IsConst (Self.context self.old).trees constant }
        ensures kept { Keeps fixed probes Self.context self.old self.new }
        ensures sort { IfOk result (λ x. IsConst (Self.context self.new).trees x) }
        ensures ok { IfOk result (λ x. normal_const (judge (fixed self.old)) (state self.old) (Self.context self.old).trees env constant ≡ Some (const_tree (Self.context self.new).trees x, state self.new)) }
        ensures refused { IfErr result (if_refused (normal_const (judge (fixed self.old)) (state self.old) (Self.context self.old).trees env constant ≡ None)) }
        ensures undone { OnErr result ((judge (fixed self.old)).alike (state self.old) (state self.new)) }
        ensures rests { IfErr result (λ e. e ≡ NoSolutionOrStop.NoSolution → state self.new ≡ state self.old) }
        ensures cause { let ts = (Self.context self.old).trees in IfErr result (by_stop (stops self.new (state self.old) (question.normalize (env_forest ts env) (const_tree ts constant)))) };

    /// Fresh variables of the newest universe, in the place of parameters of these kinds.
    fn fresh_args_for_item(&mut self, kinds: &[VarKind]) -> Result<Args, Stop>
        ensures kept { Keeps fixed probes Self.context self.old self.new }
        ensures sort { IfOk result (λ a. IsArgs (Self.context self.new).trees a) }
        ensures trees { IfOk result (λ a. args_forest (Self.context self.new).trees a ≡ fresh_variables (state self.old) (kinds_listed kinds.now)) }
        ensures made { OnOk result (state self.new ≡ with_fresh_variables (state self.old) (kinds_listed kinds.now)) }
        ensures stopped { OnErr result ((judge (fixed self.old)).alike (state self.old) (state self.new)) }
        ensures cause { IfErr result (stops self.new (state self.old) (question.make_variables (kinds_listed kinds.now))) };

    /// Placeholders of a fresh universe, in the place of a binder's variables of these kinds. Without variables there is none.
    fn placeholder_args(&mut self, kinds: &[VarKind]) -> Result<Args, Stop>
        ensures kept { Keeps fixed probes Self.context self.old self.new }
        ensures sort { IfOk result (λ a. IsArgs (Self.context self.new).trees a) }
        ensures trees { IfOk result (λ a. args_forest (Self.context self.new).trees a ≡ rigid (state self.old) (kinds_listed kinds.now)) }
        ensures made { OnOk result (state self.new ≡ with_rigid (state self.old) (kinds_listed kinds.now)) }
        ensures stopped { OnErr result ((judge (fixed self.old)).alike (state self.old) (state self.new)) }
        ensures cause { IfErr result (stops self.new (state self.old) (question.make_placeholders (kinds_listed kinds.now))) };

    /// Two lists are made equal, argument by argument. The goals that this leaves become pending.
    fn eq_args(&mut self, env: ParamEnv, a: Args, b: Args) -> Result<(), NoSolutionOrStop>
        requires env { IsParamEnv (Self.context self.old).trees env }
        requires left { IsArgs (Self.context self.old).trees a }
        requires right { IsArgs (Self.context self.old).trees b }
        ensures kept { Keeps fixed probes Self.context self.old self.new }
        ensures ok { let ts = (Self.context self.old).trees in IfOk result (λ _. accepted (judge (fixed self.old)) (state self.old) (env_forest ts env) (args_forest ts a) (args_forest ts b) ≡ Some (state self.new)) }
        ensures refused { let ts = (Self.context self.old).trees in IfErr result (if_refused (accepted (judge (fixed self.old)) (state self.old) (env_forest ts env) (args_forest ts a) (args_forest ts b) ≡ None)) }
        ensures stopped { IfErr result (λ e. e ≢ NoSolutionOrStop.NoSolution → (judge (fixed self.old)).alike (state self.old) (state self.new)) }
        ensures cause { let ts = (Self.context self.old).trees in IfErr result (by_stop (stops self.new (state self.old) (question.equate (env_forest ts env) (args_forest ts a) (args_forest ts b)))) };

    /// Two types, constants or regions are made equal. The goals that this leaves become pending.
    fn eq(&mut self, env: ParamEnv, a: GenericArg, b: GenericArg) -> Result<(), NoSolutionOrStop>
        requires env { IsParamEnv (Self.context self.old).trees env }
        requires left { IsArg (Self.context self.old).trees a }
        requires right { IsArg (Self.context self.old).trees b }
        ensures kept { Keeps fixed probes Self.context self.old self.new }
        ensures ok { IfOk result (λ _. arguments_accepted (judge (fixed self.old)) (state self.old) (Self.context self.old).trees env a b ≡ Some (state self.new)) }
        ensures refused { IfErr result (if_refused (arguments_accepted (judge (fixed self.old)) (state self.old) (Self.context self.old).trees env a b ≡ None)) }
        ensures stopped { IfErr result (λ e. e ≢ NoSolutionOrStop.NoSolution → (judge (fixed self.old)).alike (state self.old) (state self.new)) }
        ensures cause { let ts = (Self.context self.old).trees in IfErr result (by_stop (stops self.new (state self.old) (question.equate (env_forest ts env) (alone (arg_tree ts a)) (alone (arg_tree ts b))))) };

    /// Two types, constants or regions are made equal. The goals that this leaves are answered, each with its source, and don't
    /// become pending.
    fn eq_and_get_goals(
        &mut self,
        env: ParamEnv,
        a: GenericArg,
        b: GenericArg,
    ) -> Result<Vec<(GoalSource, Goal<Clause>)>, NoSolutionOrStop>
        requires env { IsParamEnv (Self.context self.old).trees env }
        requires left { IsArg (Self.context self.old).trees a }
        requires right { IsArg (Self.context self.old).trees b }
        ensures kept { Keeps fixed probes Self.context self.old self.new }
        ensures sort { IfOk result (λ v. All (λ g. IsGoal (Self.context self.new).trees g.1) v.items) }
        ensures ok { IfOk result (λ v. arguments_equated (judge (fixed self.old)) (state self.old) (Self.context self.old).trees env a b ≡ Some (pendings_of (Self.context self.new).trees v.items, state self.new)) }
        ensures refused { IfErr result (if_refused (arguments_equated (judge (fixed self.old)) (state self.old) (Self.context self.old).trees env a b ≡ None)) }
        ensures stopped { IfErr result (λ e. e ≢ NoSolutionOrStop.NoSolution → (judge (fixed self.old)).alike (state self.old) (state self.new)) }
        ensures cause { let ts = (Self.context self.old).trees in IfErr result (by_stop (stops self.new (state self.old) (question.equate (env_forest ts env) (alone (arg_tree ts a)) (alone (arg_tree ts b))))) };

    /// A goal becomes pending, after all others.
    fn add_goal(&mut self, source: GoalSource, goal: Goal<Clause>) -> Result<(), Stop>
        requires { IsGoal (Self.context self.old).trees goal }
        ensures kept { Keeps fixed probes Self.context self.old self.new }
        ensures ok { OnOk result (state self.new ≡ added (state self.old) (pending_of (Self.context self.old).trees source goal)) }
        ensures stopped { OnErr result (state self.new ≡ state self.old) }
        ensures cause { IfErr result (stops self.new (state self.old) (question.add_goals (pending_of (Self.context self.old).trees source goal ∷ []))) };

    /// Goals become pending, in order, after all others; none where it stops.
    fn add_goals(&mut self, source: GoalSource, goals: &[Goal<Clause>]) -> Result<(), Stop>
        requires { All (IsGoal (Self.context self.old).trees) goals.now }
        ensures kept { Keeps fixed probes Self.context self.old self.new }
        ensures ok { OnOk result (state self.new ≡ with_goals_of (Self.context self.old).trees (state self.old) source goals.now) }
        ensures stopped { OnErr result (state self.new ≡ state self.old) }
        ensures cause { IfErr result (stops self.new (state self.old) (question.add_goals (map (pending_of (Self.context self.old).trees source) goals.now))) };

    /// How sure what is pending is, together. What is settled is pending no more.
    fn try_evaluate_added_goals(&mut self) -> Result<Certainty, NoSolutionOrStop>
        ensures kept { Keeps fixed probes Self.context self.old self.new }
        ensures ok { IfOk result (λ c. (judge (fixed self.old)).settled (state self.old) ≡ Some (c, state self.new)) }
        ensures refused { IfErr result (λ e. e ≡ NoSolutionOrStop.NoSolution → (judge (fixed self.old)).settled (state self.old) ≡ None) }
        ensures stopped { IfErr result (λ e. e ≢ NoSolutionOrStop.NoSolution → (judge (fixed self.old)).alike (state self.old) (state self.new)) }
        ensures cause { IfErr result (by_stop (stops self.new (state self.old) question.evaluate)) };

    /// The response, with at most that certainty. Nothing is said of the state that it leaves: it is asked for in a probe.
    fn evaluate_added_goals_and_make_canonical_response(
        &mut self,
        certainty: Certainty,
    ) -> Result<CanonicalResponse, NoSolutionOrStop>
        ensures kept { Keeps fixed probes Self.context self.old self.new }
        ensures sort { IfOk result (λ r. IsResponse (Self.context self.new).trees r) }
        ensures ok { IfOk result (λ r. (judge (fixed self.old)).responded (state self.old) certainty ≡ Some (response_of (Self.context self.new).trees r)) }
        ensures refused { IfErr result (if_refused ((judge (fixed self.old)).responded (state self.old) certainty ≡ None)) }
        ensures stopped { IfErr result (λ e. e ≢ NoSolutionOrStop.NoSolution → (judge (fixed self.old)).alike (state self.old) (state self.new)) }
        ensures cause { IfErr result (by_stop (stops self.new (state self.old) (question.respond certainty))) };

    /// Begins a probe.
    fn begin_probe(&mut self, kind: ProbeKind) -> Result<Self::Probe, Stop>
        ensures fixed { fixed self.new ≡ fixed self.old }
        ensures grows { Grows (Self.context self.old) (Self.context self.new) }
        ensures faults { NoFault (Self.context self.old) (Self.context self.new) }
        ensures ok { OnOk result ((state self.new ≡ begun kind (state self.old)) × (probes self.new ≡ state self.old ∷ probes self.old)) }
        ensures stopped { OnErr result ((state self.new ≡ state self.old) × (probes self.new ≡ probes self.old)) }
        ensures cause { IfErr result (stops self.new (state self.old) (question.begin_probe kind)) };

    /// Ends the newest probe. The state is then alike the one at which it began, what was pending there included.
    fn end_probe(&mut self, probe: Self::Probe) -> CandidateHeadUsages
        requires { probes self.old ≢ [] }
        ensures fixed { fixed self.new ≡ fixed self.old }
        ensures grows { Grows (Self.context self.old) (Self.context self.new) }
        ensures faults { NoFault (Self.context self.old) (Self.context self.new) }
        ensures closed { (S : State) (others : List State) → probes self.old ≡ S ∷ others → (judge (fixed self.old)).alike S (state self.new) }
        ensures left { (S : State) (others : List State) → probes self.old ≡ S ∷ others → probes self.new ≡ others };

    /// The opaque types that may be hidden behind the type.
    fn opaques_with_sub_unified_hidden_type(&mut self, ty: Ty) -> Result<Vec<AliasTy>, Stop>
        requires { IsTy (Self.context self.old).trees ty }
        ensures kept { Keeps fixed probes Self.context self.old self.new }
        ensures same { state self.new ≡ state self.old }
        ensures fit { IfOk result (λ v. All (λ a. KindFits (Self.context self.new).trees (K.Alias a)) v.items) }
        ensures hidden { IfOk result (λ v. All (IsHiddenOpaque (Self.context self.new) (length (state self.old).variables)) v.items) }
        ensures ok { IfOk result (λ v. alias_trees (Self.context self.new).trees v.items ≡ (judge (fixed self.old)).opaques (state self.old) (ty_tree (Self.context self.old).trees ty)) }
        ensures cause { IfErr result (stops self.new (state self.old) (question.find_opaques (ty_tree (Self.context self.old).trees ty))) };

    /// Forgets which goals a candidate has used.
    fn ignore_candidate_head_usages(&mut self, usages: CandidateHeadUsages)
        ensures kept { Keeps fixed probes Self.context self.old self.new }
        ensures same { state self.new ≡ state self.old };

    /// Puts off a fault.
    fn delay_bug(&mut self, text: &str) -> Result<(), Stop>
        ensures kept { KeepsBut (PutsOffIfOk (text.now ∷ []) result) fixed probes Self.context self.old self.new }
        ensures same { state self.new ≡ state self.old }
        ensures added { let c = Self.context self.old in OnOk result (Self.context self.new ≡ record c { delayed_bugs = c.delayed_bugs ++ text.now ∷ [] }) }
        ensures unchanged { OnErr result (Self.context self.new ≡ Self.context self.old) }
        ensures cause { IfErr result (stops self.new (state self.old) (question.delay text.now)) };

    /// It accounts for its own stops alone: others come of walks that no evaluator takes.
    ghost stops_itself: { (x : Self) (S : State) (q : Question) (s : Stop) → stops x S q s → IsEvaluatorStop s };

    /// The judge keeps the laws.
    ghost lawful: { (f : Fixed) → Lawful (judge f) };

    /// Its world and local crate are those that are declared.
    ghost declared: { (s : Self) → ((judge (fixed s)).world ≡ world (Self.context s)) × ((judge (fixed s)).local_crate ≡ (Self.context s).local.0) };

    /// Its limits are those that are declared: it walks as deep as the code.
    ghost walks: { (s : Self) → (judge (fixed s)).limits ≡ (Self.context s).limits };

    /// What a variable resolves to is its value in the state.
    ghost resolves: { (s : Self) (t : Tree) → Self.resolved (Self.seen s) t ≡ resolved_root (state s) t };

    /// What is seen is the state, of what is fixed.
    ghost sees: { SeesStates Self.seen Self.resolved fixed state };

    /// Making a node changes nothing of it.
    ghost by_rest: { (s t : Self) → Self.rest t ≡ Self.rest s → (fixed t ≡ fixed s) × (state t ≡ state s) × (probes t ≡ probes s) × NoFault (Self.context s) (Self.context t) };
}
