//! The evaluator as generic code knows it. What a call says beyond its trait is in clauses of its own, beside the trait's.

ghost use Rattle.std.specs.Prelude.{false, true, map, All, List, ◌≡◌, ◌≢◌, ◌++◌, ◌∷◌, [], Some, None, refl, length, IfOk, IfErr, OnOk, OnErr};
ghost use Rattle.ir_trees.specs.declared.ir.kinds.TyKind.TheVariants as K;
ghost use Rattle.ir_trees.specs.Declarations.Context.{Grows};
ghost use Rattle.ir_trees.specs.Instantiation.Folds.{IsArg, arg_tree};
ghost use Rattle.ir_trees.specs.Unification.Substitutions.{alone};
ghost use Rattle.ir_trees.specs.Syntax.Words.{IsArgs, IsClause, IsConst, IsParamEnv, IsTy, KindFits, args_forest, clause_tree, const_tree, env_forest, ty_tree};
ghost use Rattle.candidate_eval.specs.Interface.Accounts.{by_stop, if_refused};
ghost use Rattle.candidate_eval.specs.Interface.Accounts as question;
ghost use Rattle.candidate_eval.specs.Interface.Evaluators.{NoFault, IsGoal, IsHiddenOpaque, Keeps, KeepsBut, PutsOffIfOk, alias_trees, begun, kinds_listed, pending_of, pendings_of, resolved_root, rigid, with_goals_of, with_rigid};
ghost use Rattle.candidate_eval.specs.Outcomes.ResponseTrees.{IsResponse, response_of};
ghost use Rattle.candidate_eval.specs.Judges.States.{Env, State, added, fresh_variables, next, resolved, resolved_tree, with_fresh_variables};
ghost use Rattle.candidate_rounds.specs.Evaluators.Following.{FollowsEquation, FollowsSettling};
ghost use Rattle.candidate_rounds.specs.Evaluators.Interface.{Fixed, Rest, accepted_at, equation_at, fixed, judge_of, led_to, normal_form_at, rest, rest_parts, root_stays, state_seen};
ghost use Rattle.candidate_rounds.specs.Evaluators.Known.{GoesOn, KeepsGiven, judged_at, leaving, listing, probes, reading, state};
ghost use Rattle.candidate_rounds.specs.Laws.StopKinds.{stops_itself};
ghost use Rattle.candidate_rounds.specs.Evaluators.Stopping.{accounts};
ghost use Rattle.rounds_judge.specs.Equations.Opening.{are_open, equation};
ghost use Rattle.rounds_judge.specs.Aliases.Normalizing.{normalized};
ghost use Rattle.rounds_judge.specs.Table.TableSettling.{responded_with, settled_with};
ghost use Rattle.rounds_judge.proofs.Lawfulness.TableLawful.{table_keeps_the_laws};

use crate::rounds::Rounds;
use crate::rounds::fresh::Leaves;
use crate::rounds::resolving::{region_of, resolved, resolved_root, type_of};
use crate::rounds::settling::MAX_PASSES;
use candidate_eval::eval::InferCtxtLike;
use candidate_eval::eval::certainty::Certainty;
use candidate_eval::eval::context::{EvalCtxt, ProbeKind};
use candidate_eval::eval::mode::TypingMode;
use candidate_eval::eval::refusal::NoSolutionOrStop;
use candidate_eval::eval::response::{CandidateHeadUsages, CanonicalResponse};
use candidate_eval::eval::variable::VariableKind;
use ir_context::decl::context::Cx;
use ir_context::decl::make::{Build, Make};
use ir_trees::ir::kinds::{
    AliasTy, Args, Binder, Clause, ClauseKind, ClosureSig, Const, ConstKind, ExistentialPredicate,
    GenericArg, Goal, GoalSource, ParamEnv, Preds, Region, RegionKind, Sig, Ty, TyKind, VarKind,
    Vars,
};
use ir_trees::ir::making::New;
use ir_trees::ir::stop::Stop;
use ir_trees::ir::trees::Trees;
use std::alloc::Global;

impl Build for Rounds {
    ghost context = { λ r. r.context };

    ghost Rest = { Rest };

    ghost rest = { rest };

    ghost is_strict = { true };

    #[inline(always)]
    fn make(&mut self, new: New<'_>) -> Result<u32, Stop> {
        self.cx.make(new)
    }
}

impl Make for Rounds {
    fn cx(&self) -> &Cx {
        &self.cx
    }
}

impl InferCtxtLike for Rounds {
    ghost Seen = { State };

    ghost seen = { state };

    ghost resolved = { resolved_root };

    ghost stays = { root_stays };

    fn shallow_resolve(&self, ty: Ty) -> Ty {
        self.recall_well_kept();
        type_of(resolved_root(&self.cx, &self.inference, GenericArg::Ty(ty)))
    }
}

/// A probe that began and hasn't ended yet.
pub struct OpenProbe(());

impl Rounds {
    /// The allocator of all that it keeps.
    fn allocator(&self) -> Global {
        *self.normal.allocator()
    }
}

impl EvalCtxt for Rounds {
    type Probe = OpenProbe;

    ghost Fixed = { Fixed };

    ghost fixed = { fixed };

    ghost judge = { judge_of };

    ghost state = { state };

    ghost probes = { probes };

    ghost stops = { accounts };

    fn typing_mode(&self) -> TypingMode {
        self.mode
    }

    /// All values are put in: the value of each variable that has one stands in its place. `Stop::Memory` comes where a growth was
    /// refused, `Stop::NodesFull` where no numbers are left or what came of a part of the tree would be higher than 1,024. After a
    /// stop the nodes that were made stay. The same holds of the three calls below.
    fn resolve_ty_if_possible(&mut self, ty: Ty) -> Result<Ty, Stop>
        requires { IsTy self.old.context.trees ty }
        ensures goes { GoesOn self.old self.new }
        ensures kept { Keeps fixed probes (λ r. r.context) self.old self.new }
        ensures same { state self.new ≡ state self.old }
        ensures sort { IfOk result (λ x. IsTy self.new.context.trees x) }
        ensures tree { IfOk result (λ x. ty_tree self.new.context.trees x ≡ resolved_tree (state self.old) (ty_tree self.old.context.trees ty)) }
        ensures cause { IfErr result (accounts self.new (state self.old) (question.resolve (alone (ty_tree self.old.context.trees ty)))) }
    {
        let alloc = self.allocator();
        resolved(alloc, &mut self.cx, &self.inference, ty)
    }

    fn resolve_const_if_possible(&mut self, constant: Const) -> Result<Const, Stop>
        requires { IsConst self.old.context.trees constant }
        ensures goes { GoesOn self.old self.new }
        ensures kept { Keeps fixed probes (λ r. r.context) self.old self.new }
        ensures same { state self.new ≡ state self.old }
        ensures sort { IfOk result (λ x. IsConst self.new.context.trees x) }
        ensures tree { IfOk result (λ x. const_tree self.new.context.trees x ≡ resolved_tree (state self.old) (const_tree self.old.context.trees constant)) }
        ensures cause { IfErr result (accounts self.new (state self.old) (question.resolve (alone (const_tree self.old.context.trees constant)))) }
    {
        let alloc = self.allocator();
        resolved(alloc, &mut self.cx, &self.inference, constant)
    }

    fn resolve_args_if_possible(&mut self, list: Args) -> Result<Args, Stop>
        requires { IsArgs self.old.context.trees list }
        ensures goes { GoesOn self.old self.new }
        ensures kept { Keeps fixed probes (λ r. r.context) self.old self.new }
        ensures same { state self.new ≡ state self.old }
        ensures sort { IfOk result (λ x. IsArgs self.new.context.trees x) }
        ensures tree { IfOk result (λ x. args_forest self.new.context.trees x ≡ resolved (state self.old) (args_forest self.old.context.trees list)) }
        ensures cause { IfErr result (accounts self.new (state self.old) (question.resolve (args_forest self.old.context.trees list))) }
    {
        let alloc = self.allocator();
        resolved(alloc, &mut self.cx, &self.inference, list)
    }

    fn resolve_clause_if_possible(&mut self, clause: Clause) -> Result<Clause, Stop>
        requires { IsClause self.old.context.trees clause }
        ensures goes { GoesOn self.old self.new }
        ensures kept { Keeps fixed probes (λ r. r.context) self.old self.new }
        ensures same { state self.new ≡ state self.old }
        ensures sort { IfOk result (λ x. IsClause self.new.context.trees x) }
        ensures tree { IfOk result (λ x. clause_tree self.new.context.trees x ≡ resolved_tree (state self.old) (clause_tree self.old.context.trees clause)) }
        ensures cause { IfErr result (accounts self.new (state self.old) (question.resolve (alone (clause_tree self.old.context.trees clause)))) }
    {
        let alloc = self.allocator();
        resolved(alloc, &mut self.cx, &self.inference, clause)
    }

    fn eager_resolve_region(&self, region: Region) -> Region {
        match self.cx.region_kind(region) {
            RegionKind::Var(number) => match self.value(VariableKind::Region, number) {
                Some(value) => region_of(value),
                None => region,
            },
            _ => region,
        }
    }

    /// All values are put in, and if it is a listed alias then, its type stands in its place. It is never refused, and stops as
    /// `resolve_ty_if_possible` does.
    fn structurally_normalize_ty(&mut self, env: ParamEnv, ty: Ty) -> Result<Ty, NoSolutionOrStop>
        requires env { IsParamEnv self.old.context.trees env }
        requires ty { IsTy self.old.context.trees ty }
        ensures goes { GoesOn self.old self.new }
        ensures kept { Keeps fixed probes (λ r. r.context) self.old self.new }
        ensures same { are_open (listing self.old) (state self.old) ≡ false → state self.new ≡ state self.old }
        ensures sort { IfOk result (λ x. IsTy self.new.context.trees x) }
        ensures listed { (e : Env) → IfOk result (λ x. normalized (listing self.old) (state self.old) e (ty_tree self.old.context.trees ty) ≡ Some (ty_tree self.new.context.trees x, state self.new)) }
        ensures ok { IfOk result (λ x. normal_form_at self.old env (ty_tree self.old.context.trees ty) ≡ Some (ty_tree self.new.context.trees x, state self.new)) }
        ensures never { IfErr result (λ e. e ≢ NoSolutionOrStop.NoSolution) }
        ensures refused { IfErr result (if_refused (normal_form_at self.old env (ty_tree self.old.context.trees ty) ≡ None)) }
        ensures undone { OnErr result ((judge_of (fixed self.old)).alike (state self.old) (state self.new)) }
        ensures rests { IfErr result (λ e. e ≡ NoSolutionOrStop.NoSolution → state self.new ≡ state self.old) }
        ensures cause { let ts = self.old.context.trees in IfErr result (by_stop (accounts self.new (state self.old) (question.normalize (env_forest ts env) (ty_tree ts ty)))) }
    {
        self.recall_well_kept();
        let _ = env;
        let resolved = self.resolve_ty_if_possible(ty)?;
        let normal = self.listed_or_itself(resolved);
        if self.is_open_alias(normal) {
            return Ok(self.open_type()?);
        }
        Ok(normal)
    }

    /// All values are put in. No constant is ever listed, and none is refused; it stops as `resolve_ty_if_possible` does.
    fn structurally_normalize_const(
        &mut self,
        env: ParamEnv,
        constant: Const,
    ) -> Result<Const, NoSolutionOrStop>
        requires env { IsParamEnv self.old.context.trees env }
        requires constant { IsConst self.old.context.trees constant }
        ensures goes { GoesOn self.old self.new }
        ensures kept { Keeps fixed probes (λ r. r.context) self.old self.new }
        ensures same { state self.new ≡ state self.old }
        ensures sort { IfOk result (λ x. IsConst self.new.context.trees x) }
        ensures listed { (e : Env) → IfOk result (λ x. normalized (listing self.old) (state self.old) e (const_tree self.old.context.trees constant) ≡ Some (const_tree self.new.context.trees x, state self.new)) }
        ensures ok { IfOk result (λ x. normal_form_at self.old env (const_tree self.old.context.trees constant) ≡ Some (const_tree self.new.context.trees x, state self.new)) }
        ensures never { IfErr result (λ e. e ≢ NoSolutionOrStop.NoSolution) }
        ensures refused { IfErr result (if_refused (normal_form_at self.old env (const_tree self.old.context.trees constant) ≡ None)) }
        ensures undone { OnErr result ((judge_of (fixed self.old)).alike (state self.old) (state self.new)) }
        ensures rests { IfErr result (λ e. e ≡ NoSolutionOrStop.NoSolution → state self.new ≡ state self.old) }
        ensures cause { let ts = self.old.context.trees in IfErr result (by_stop (accounts self.new (state self.old) (question.normalize (env_forest ts env) (const_tree ts constant)))) }
    {
        self.recall_well_kept();
        let _ = env;
        Ok(self.resolve_const_if_possible(constant)?)
    }

    /// `Stop::Memory` comes where a growth was refused, `Stop::NodesFull` where no numbers are left.
    fn fresh_args_for_item(&mut self, kinds: &[VarKind]) -> Result<Args, Stop>
        ensures goes { GoesOn self.old self.new }
        ensures given { KeepsGiven self.old self.new }
        ensures kept { Keeps fixed probes (λ r. r.context) self.old self.new }
        ensures sort { IfOk result (λ a. IsArgs self.new.context.trees a) }
        ensures trees { IfOk result (λ a. args_forest self.new.context.trees a ≡ fresh_variables (state self.old) (kinds_listed kinds.now)) }
        ensures made { OnOk result (state self.new ≡ with_fresh_variables (state self.old) (kinds_listed kinds.now)) }
        ensures stopped { OnErr result ((judge_of (fixed self.old)).alike (state self.old) (state self.new)) }
        ensures cause { IfErr result (accounts self.new (state self.old) (question.make_variables (kinds_listed kinds.now))) }
    {
        self.recall_well_kept();
        let alloc = self.allocator();
        let first = self.inference.next_variables(kinds.len())?;
        let args = self.make_leaves(alloc, Leaves::Variables(first), kinds)?;
        self.add_variables(kinds)?;
        Ok(args)
    }

    /// `Stop::Memory` comes where a growth was refused, `Stop::NodesFull` where no numbers are left.
    fn placeholder_args(&mut self, kinds: &[VarKind]) -> Result<Args, Stop>
        ensures goes { GoesOn self.old self.new }
        ensures kept { Keeps fixed probes (λ r. r.context) self.old self.new }
        ensures sort { IfOk result (λ a. IsArgs self.new.context.trees a) }
        ensures trees { IfOk result (λ a. args_forest self.new.context.trees a ≡ rigid (state self.old) (kinds_listed kinds.now)) }
        ensures made { OnOk result (state self.new ≡ with_rigid (state self.old) (kinds_listed kinds.now)) }
        ensures stopped { OnErr result ((judge_of (fixed self.old)).alike (state self.old) (state self.new)) }
        ensures cause { IfErr result (accounts self.new (state self.old) (question.make_placeholders (kinds_listed kinds.now))) }
    {
        self.recall_well_kept();
        let alloc = self.allocator();
        if kinds.len() >= u32::MAX as usize {
            return Err(Stop::NodesFull);
        }
        let universe = self.inference.next_universe()?;
        let args = self.make_leaves(alloc, Leaves::Placeholders(universe), kinds)?;
        if !kinds.is_empty() {
            self.enter()?;
        }
        Ok(args)
    }

    /// Where they can't be made equal, and where it stops, what is known is what it was. Besides `Stop::Memory`, `Stop::NodesFull`
    /// comes where no numbers are left, a tree would be higher than 1,024, or a node has more children than can be counted. The same
    /// holds of the two calls below.
    fn eq_args(&mut self, env: ParamEnv, a: Args, b: Args) -> Result<(), NoSolutionOrStop>
        requires env { IsParamEnv self.old.context.trees env }
        requires left { IsArgs self.old.context.trees a }
        requires right { IsArgs self.old.context.trees b }
        ensures goes { GoesOn self.old self.new }
        ensures kept { Keeps fixed probes (λ r. r.context) self.old self.new }
        ensures listed { let ts = self.old.context.trees in OnOk result (led_to self.old (env_forest ts env) (args_forest ts a) (args_forest ts b) ≡ Some (state self.new)) }
        ensures follows { let ts = self.old.context.trees in OnOk result (FollowsEquation (state self.old) (state self.new) (args_forest ts a) (args_forest ts b)) }
        ensures ok { let ts = self.old.context.trees in IfOk result (λ _. accepted_at self.old env (args_forest ts a) (args_forest ts b) ≡ Some (state self.new)) }
        ensures refused { let ts = self.old.context.trees in IfErr result (if_refused (accepted_at self.old env (args_forest ts a) (args_forest ts b) ≡ None)) }
        ensures undone { OnErr result (self.new.inference ≡ self.old.inference) }
        ensures stopped { IfErr result (λ e. e ≢ NoSolutionOrStop.NoSolution → (judge_of (fixed self.old)).alike (state self.old) (state self.new)) }
        ensures cause { let ts = self.old.context.trees in IfErr result (by_stop (accounts self.new (state self.old) (question.equate (env_forest ts env) (args_forest ts a) (args_forest ts b)))) }
    {
        self.recall_well_kept();
        let alloc = self.allocator();
        self.lead_args(alloc, env, a, b)
    }

    fn eq(&mut self, env: ParamEnv, a: GenericArg, b: GenericArg) -> Result<(), NoSolutionOrStop>
        requires env { IsParamEnv self.old.context.trees env }
        requires left { IsArg self.old.context.trees a }
        requires right { IsArg self.old.context.trees b }
        ensures goes { GoesOn self.old self.new }
        ensures kept { Keeps fixed probes (λ r. r.context) self.old self.new }
        ensures listed { let ts = self.old.context.trees in OnOk result (led_to self.old (env_forest ts env) (alone (arg_tree ts a)) (alone (arg_tree ts b)) ≡ Some (state self.new)) }
        ensures follows { let ts = self.old.context.trees in OnOk result (FollowsEquation (state self.old) (state self.new) (alone (arg_tree ts a)) (alone (arg_tree ts b))) }
        ensures ok { let ts = self.old.context.trees in IfOk result (λ _. accepted_at self.old env (alone (arg_tree ts a)) (alone (arg_tree ts b)) ≡ Some (state self.new)) }
        ensures refused { let ts = self.old.context.trees in IfErr result (if_refused (accepted_at self.old env (alone (arg_tree ts a)) (alone (arg_tree ts b)) ≡ None)) }
        ensures undone { OnErr result (self.new.inference ≡ self.old.inference) }
        ensures stopped { IfErr result (λ e. e ≢ NoSolutionOrStop.NoSolution → (judge_of (fixed self.old)).alike (state self.old) (state self.new)) }
        ensures cause { let ts = self.old.context.trees in IfErr result (by_stop (accounts self.new (state self.old) (question.equate (env_forest ts env) (alone (arg_tree ts a)) (alone (arg_tree ts b))))) }
    {
        self.recall_well_kept();
        let alloc = self.allocator();
        self.lead(alloc, env, a, b)
    }

    fn eq_and_get_goals(
        &mut self,
        env: ParamEnv,
        a: GenericArg,
        b: GenericArg,
    ) -> Result<Vec<(GoalSource, Goal<Clause>)>, NoSolutionOrStop>
        requires env { IsParamEnv self.old.context.trees env }
        requires left { IsArg self.old.context.trees a }
        requires right { IsArg self.old.context.trees b }
        ensures goes { GoesOn self.old self.new }
        ensures kept { Keeps fixed probes (λ r. r.context) self.old self.new }
        ensures listed { let ts = self.old.context.trees in IfOk result (λ v. judged_at self.old equation (env_forest ts env) (alone (arg_tree ts a)) (alone (arg_tree ts b)) ≡ leaving self.new v.items) }
        ensures follows { let ts = self.old.context.trees in OnOk result (FollowsEquation (state self.old) (state self.new) (alone (arg_tree ts a)) (alone (arg_tree ts b))) }
        ensures sort { IfOk result (λ v. All (λ g. IsGoal self.new.context.trees g.1) v.items) }
        ensures ok { let ts = self.old.context.trees in IfOk result (λ v. equation_at self.old env (alone (arg_tree ts a)) (alone (arg_tree ts b)) ≡ leaving self.new v.items) }
        ensures refused { let ts = self.old.context.trees in IfErr result (if_refused (equation_at self.old env (alone (arg_tree ts a)) (alone (arg_tree ts b)) ≡ None)) }
        ensures undone { OnErr result (self.new.inference ≡ self.old.inference) }
        ensures stopped { IfErr result (λ e. e ≢ NoSolutionOrStop.NoSolution → (judge_of (fixed self.old)).alike (state self.old) (state self.new)) }
        ensures cause { let ts = self.old.context.trees in IfErr result (by_stop (accounts self.new (state self.old) (question.equate (env_forest ts env) (alone (arg_tree ts a)) (alone (arg_tree ts b))))) }
    {
        self.recall_well_kept();
        let alloc = self.allocator();
        self.equation(alloc, env, a, b)
    }

    /// The only stop is `Stop::Memory`; nothing is changed then.
    fn add_goal(&mut self, source: GoalSource, goal: Goal<Clause>) -> Result<(), Stop>
        requires { IsGoal self.old.context.trees goal }
        ensures context { self.new.context ≡ self.old.context }
        ensures given { KeepsGiven self.old self.new }
        ensures kept { Keeps fixed probes (λ r. r.context) self.old self.new }
        ensures ok { OnOk result (state self.new ≡ added (state self.old) (pending_of self.old.context.trees source goal)) }
        ensures unchanged { OnErr result (self.new ≡ self.old) }
        ensures stopped { OnErr result (state self.new ≡ state self.old) }
        ensures cause { IfErr result (accounts self.new (state self.old) (question.add_goals (pending_of self.old.context.trees source goal ∷ []))) }
    {
        self.inference.add(source, goal)
    }

    /// The only stop is `Stop::Memory`; nothing is changed then.
    fn add_goals(&mut self, source: GoalSource, goals: &[Goal<Clause>]) -> Result<(), Stop>
        requires { All (IsGoal self.old.context.trees) goals.now }
        ensures context { self.new.context ≡ self.old.context }
        ensures given { KeepsGiven self.old self.new }
        ensures kept { Keeps fixed probes (λ r. r.context) self.old self.new }
        ensures ok { OnOk result (state self.new ≡ with_goals_of self.old.context.trees (state self.old) source goals.now) }
        ensures unchanged { OnErr result (self.new ≡ self.old) }
        ensures stopped { OnErr result (state self.new ≡ state self.old) }
        ensures cause { IfErr result (accounts self.new (state self.old) (question.add_goals (map (pending_of self.old.context.trees source) goals.now))) }
    {
        self.inference.add_all(source, goals)
    }

    /// Where it is refused, or stops, nothing that is known changes. `Stop::Memory` comes where a growth was refused, `Stop::NodesFull`
    /// where no numbers are left, a tree would be higher than 1,024, a variable would be bound too far out, or the children of a node
    /// are too many.
    fn try_evaluate_added_goals(&mut self) -> Result<Certainty, NoSolutionOrStop>
        ensures goes { GoesOn self.old self.new }
        ensures kept { Keeps fixed probes (λ r. r.context) self.old self.new }
        ensures listed { IfOk result (λ c. settled_with (reading self.old) (listing self.old) (state self.old) ≡ Some (c, state self.new)) }
        ensures follows { OnOk result (FollowsSettling (state self.old) (state self.new)) }
        ensures ok { IfOk result (λ c. (judge_of (fixed self.old)).settled (state self.old) ≡ Some (c, state self.new)) }
        ensures none_listed { IfErr result (if_refused (settled_with (reading self.old) (listing self.old) (state self.old) ≡ None)) }
        ensures refused { IfErr result (λ e. e ≡ NoSolutionOrStop.NoSolution → (judge_of (fixed self.old)).settled (state self.old) ≡ None) }
        ensures undone { OnErr result (state self.new ≡ state self.old) }
        ensures stopped { IfErr result (λ e. e ≢ NoSolutionOrStop.NoSolution → (judge_of (fixed self.old)).alike (state self.old) (state self.new)) }
        ensures cause { IfErr result (by_stop (accounts self.new (state self.old) question.evaluate)) }
    {
        self.recall_well_kept();
        let alloc = self.allocator();
        let changes = self.inference.changes();
        match self.settle(alloc, MAX_PASSES) {
            Ok(()) => Ok(self.certainty()),
            Err(refusal) => {
                self.undo_to(changes);
                Err(refusal)
            }
        }
    }

    /// What is pending is evaluated, as `try_evaluate_added_goals` does, and then comes the response. Where it is refused, or stops,
    /// nothing that is known changes; it stops as that call and `make_canonical_response` do.
    fn evaluate_added_goals_and_make_canonical_response(
        &mut self,
        certainty: Certainty,
    ) -> Result<CanonicalResponse, NoSolutionOrStop>
        ensures goes { GoesOn self.old self.new }
        ensures kept { Keeps fixed probes (λ r. r.context) self.old self.new }
        ensures sort { IfOk result (λ r. IsResponse self.new.context.trees r) }
        ensures listed { IfOk result (λ r. responded_with (reading self.old) (listing self.old) (state self.old) certainty ≡ Some (response_of self.new.context.trees r)) }
        ensures ok { IfOk result (λ r. (judge_of (fixed self.old)).responded (state self.old) certainty ≡ Some (response_of self.new.context.trees r)) }
        ensures left { OnOk result (next (settled_with (reading self.old) (listing self.old) (state self.old)) (λ q. Some q.1) ≡ Some (state self.new)) }
        ensures none_listed { IfErr result (if_refused (responded_with (reading self.old) (listing self.old) (state self.old) certainty ≡ None)) }
        ensures refused { IfErr result (if_refused ((judge_of (fixed self.old)).responded (state self.old) certainty ≡ None)) }
        ensures undone { OnErr result (state self.new ≡ state self.old) }
        ensures stopped { IfErr result (λ e. e ≢ NoSolutionOrStop.NoSolution → (judge_of (fixed self.old)).alike (state self.old) (state self.new)) }
        ensures cause { IfErr result (by_stop (accounts self.new (state self.old) (question.respond certainty))) }
    {
        self.recall_well_kept();
        let alloc = self.allocator();
        let changes = self.inference.changes();
        let settled = self.try_evaluate_added_goals()?;
        match self.make_canonical_response(alloc, certainty.and(settled)) {
            Ok(response) => Ok(response),
            Err(stop) => {
                self.undo_to(changes);
                Err(NoSolutionOrStop::Stop(stop))
            }
        }
    }

    /// The only stop is `Stop::Memory`; nothing is changed then.
    fn begin_probe(&mut self, kind: ProbeKind) -> Result<OpenProbe, Stop>
        ensures context { self.new.context ≡ self.old.context }
        ensures given { KeepsGiven self.old self.new }
        ensures fixed { fixed self.new ≡ fixed self.old }
        ensures grows { Grows self.old.context self.new.context }
        ensures faults { NoFault self.old.context self.new.context }
        ensures ok { OnOk result ((state self.new ≡ begun kind (state self.old)) × (probes self.new ≡ state self.old ∷ probes self.old)) }
        ensures unchanged { OnErr result (self.new ≡ self.old) }
        ensures stopped { OnErr result ((state self.new ≡ state self.old) × (probes self.new ≡ probes self.old)) }
        ensures cause { IfErr result (accounts self.new (state self.old) (question.begin_probe kind)) }
    {
        match kind {
            ProbeKind::Kept => {
                self.probes.push(self.inference.changes())?;
                Ok(OpenProbe(()))
            }
            ProbeKind::SetAside => {
                self.begin_aside()?;
                Ok(OpenProbe(()))
            }
        }
    }

    /// The state is again what it was when the probe began.
    fn end_probe(&mut self, probe: OpenProbe) -> CandidateHeadUsages
        requires { probes self.old ≢ [] }
        ensures context { self.new.context ≡ self.old.context }
        ensures given { KeepsGiven self.old self.new }
        ensures fixed { fixed self.new ≡ fixed self.old }
        ensures grows { Grows self.old.context self.new.context }
        ensures faults { NoFault self.old.context self.new.context }
        ensures closed { (S : State) (others : List State) → probes self.old ≡ S ∷ others → (judge_of (fixed self.old)).alike S (state self.new) }
        ensures left { (S : State) (others : List State) → probes self.old ≡ S ∷ others → probes self.new ≡ others }
    {
        let OpenProbe(()) = probe;
        let alloc = self.allocator();
        let Some(changes) = self.probes.pop() else {
            return CandidateHeadUsages::new(alloc);
        };
        self.inference.undo_to(changes);
        CandidateHeadUsages::new(alloc)
    }

    /// Where the type stands for a general variable these are all that the evaluator was given, else none. The only stop is
    /// `Stop::Memory`.
    #[tactic(auto, unfolding(crate::specs::Evaluators::Known::IsEvaluator))]
    fn opaques_with_sub_unified_hidden_type(&mut self, ty: Ty) -> Result<Vec<AliasTy>, Stop>
        requires { IsTy self.old.context.trees ty }
        ensures unchanged { self.new ≡ self.old }
        ensures kept { Keeps fixed probes (λ r. r.context) self.old self.new }
        ensures same { state self.new ≡ state self.old }
        ensures fit { IfOk result (λ v. All (λ a. KindFits self.new.context.trees (K.Alias a)) v.items) }
        ensures hidden { IfOk result (λ v. All (IsHiddenOpaque self.new.context (length (state self.old).variables)) v.items) }
        ensures ok { IfOk result (λ v. alias_trees self.new.context.trees v.items ≡ (judge_of (fixed self.old)).opaques (state self.old) (ty_tree self.old.context.trees ty)) }
        ensures cause { IfErr result (accounts self.new (state self.old) (question.find_opaques (ty_tree self.old.context.trees ty))) }
    {
        let alloc = self.allocator();
        if !self.cx.kind(self.shallow_resolve(ty)).is_ty_var() {
            return Ok(Vec::new(alloc));
        }
        self.recall_well_kept();
        self.cx.recall_well_formed();
        Ok(Vec::from_slice(alloc, self.opaques.as_slice())?)
    }

    /// Of those goals nothing is kept.
    fn ignore_candidate_head_usages(&mut self, usages: CandidateHeadUsages)
        ensures unchanged { self.new ≡ self.old }
        ensures kept { Keeps fixed probes (λ r. r.context) self.old self.new }
        ensures same { state self.new ≡ state self.old }
    {
        drop(usages);
    }

    /// The text stands last among those of the context. The only stop is `Stop::Memory`; nothing is changed then.
    fn delay_bug(&mut self, text: &str) -> Result<(), Stop>
        ensures given { KeepsGiven self.old self.new }
        ensures kept { KeepsBut (PutsOffIfOk (text.now ∷ []) result) fixed probes (λ r. r.context) self.old self.new }
        ensures same { state self.new ≡ state self.old }
        ensures added { OnOk result (self.new.context ≡ record self.old.context { delayed_bugs = self.old.context.delayed_bugs ++ text.now ∷ [] }) }
        ensures unchanged { OnErr result (self.new.context ≡ self.old.context) }
        ensures cause { IfErr result (accounts self.new (state self.old) (question.delay text.now)) }
    {
        self.cx.delay_bug(text)
    }

    ghost stops_itself = { stops_itself };

    ghost lawful = { λ f. table_keeps_the_laws f.world f.local_crate f.limits f.listing f.opaques f.table };

    ghost declared = { λ _. (refl, refl) };

    ghost walks = { λ _. refl };

    ghost resolves = { λ _ _. refl };

    ghost sees = { state_seen };

    ghost by_rest = { rest_parts };
}
