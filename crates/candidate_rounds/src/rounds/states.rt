//! The state: variables, goals, probes.

ghost use Rattle.std.specs.Prelude.{false, true, ◌⊎◌, ◌<◌, ◌^◌, length, IfErr, ◌≡◌, [], ◌∷◌, IfOk, OnOk, OnErr};
ghost use Rattle.ir_trees.specs.Declarations.Context.{Grows};
ghost use Rattle.ir_trees.specs.Instantiation.Folds.{IsArg, arg_tree};
ghost use Rattle.ir_trees.specs.Syntax.Nodes.{rows};
ghost use Rattle.ir_trees.specs.Syntax.Words.{IsArgs, args_forest};
ghost use Rattle.candidate_eval.specs.Interface.Evaluators.{NoFault, begun, kinds_listed};
ghost use Rattle.candidate_eval.specs.Judges.Soundness.{IsSound, Live, ValuesFit};
ghost use Rattle.candidate_eval.specs.Judges.States.{variable, with_fresh_variables, with_universe};
ghost use Rattle.candidate_eval.specs.declared.eval.context.ProbeKind.{ProbeKind};
ghost use Rattle.candidate_rounds.specs.Evaluators.Inferences.{IsFullAt, IsOutOfRoom, with_variable};
ghost use Rattle.candidate_rounds.specs.Calls.Leaves.{all_leaves, last_number};
ghost use Rattle.candidate_rounds.specs.Evaluators.Interface.{fixed};
ghost use Rattle.candidate_rounds.specs.Evaluators.Known.{listing, state, state_of, probes, with_root, GoesOn, IsGiven, KeepsGiven};
ghost use Rattle.rounds_judge.specs.Equations.Opening.{are_open};

use crate::rounds::Rounds;
use crate::rounds::fresh::{Leaves, leaf_args, variable};
use crate::rounds::goals::Goals;
use crate::rounds::inference::Inference;
use candidate_eval::eval::mode::TypingMode;
use candidate_eval::eval::variable::VariableKind;
use ir_context::decl::context::Cx;
use ir_trees::ir::kinds::{AliasTy, Args, GenericArg, Ty, VarKind};
use ir_trees::ir::stop::Stop;
use ir_trees::ir::trees::Trees;
use std::alloc::Global;

impl Rounds {
    /// An evaluator over the context that knows nothing of variables yet. It normalises each alias of `normal` to the type that
    /// stands beside it; the opaque types of `opaques` may be hidden behind a variable. `may_be_listed` and `may_be_hidden` test
    /// what these have to be.
    pub fn new(
        alloc: Global,
        cx: Cx,
        mode: TypingMode,
        normal: Vec<(Ty, Ty)>,
        opaques: Vec<AliasTy>,
    ) -> Rounds
        requires { IsGiven cx.trees normal.items opaques.items }
        ensures context { result.context ≡ cx }
        ensures normal { result.normal ≡ record { pairs = normal.items; is_open = false } }
        ensures opaques { result.opaques ≡ opaques.items }
        ensures goals { result.goals ≡ record { table = []; asked = []; asks = false } }
        ensures state { state result ≡ record { newest_universe = 0; variables = []; regions = []; pending = []; mode = mode } }
        ensures probes { probes result ≡ [] }
        ensures sound { (L : Live) → IsSound (state result) L × ValuesFit (state result) L }
    {
        Rounds::over(alloc, cx, mode, normal, false, opaques)
    }

    /// An evaluator as `new` makes it, but that an alias that isn't listed is open in coherence: it may be any type.
    pub fn with_open_aliases(
        alloc: Global,
        cx: Cx,
        mode: TypingMode,
        normal: Vec<(Ty, Ty)>,
        opaques: Vec<AliasTy>,
    ) -> Rounds
        requires { IsGiven cx.trees normal.items opaques.items }
        ensures context { result.context ≡ cx }
        ensures normal { result.normal ≡ record { pairs = normal.items; is_open = true } }
        ensures opaques { result.opaques ≡ opaques.items }
        ensures goals { result.goals ≡ record { table = []; asked = []; asks = false } }
        ensures state { state result ≡ record { newest_universe = 0; variables = []; regions = []; pending = []; mode = mode } }
        ensures probes { probes result ≡ [] }
        ensures sound { (L : Live) → IsSound (state result) L × ValuesFit (state result) L }
    {
        Rounds::over(alloc, cx, mode, normal, true, opaques)
    }

    /// An evaluator that knows nothing of variables yet.
    fn over(
        alloc: Global,
        cx: Cx,
        mode: TypingMode,
        normal: Vec<(Ty, Ty)>,
        opens: bool,
        opaques: Vec<AliasTy>,
    ) -> Rounds
        requires { IsGiven cx.trees normal.items opaques.items }
        ensures context { result.context ≡ cx }
        ensures normal { result.normal ≡ record { pairs = normal.items; is_open = opens } }
        ensures opaques { result.opaques ≡ opaques.items }
        ensures goals { result.goals ≡ record { table = []; asked = []; asks = false } }
        ensures state { state result ≡ record { newest_universe = 0; variables = []; regions = []; pending = []; mode = mode } }
        ensures probes { probes result ≡ [] }
        ensures sound { (L : Live) → IsSound (state result) L × ValuesFit (state result) L }
    {
        cx.recall_well_formed_table();
        Rounds {
            cx,
            mode,
            normal,
            opens,
            opaques,
            goals: Goals::new(alloc),
            inference: Inference::new(alloc),
            probes: Vec::new(alloc),
            above: 0,
            leaks: false,
        }
    }

    /// Whether aliases that aren't listed are open: it was made so, and its mode is coherence.
    pub fn opens_aliases(&self) -> bool
        ensures { result ≡ are_open (listing self.now) (state self.now) }
    {
        self.opens && self.mode == TypingMode::Coherence
    }

    /// What it was given besides the context may be given. Nothing is done.
    pub fn recall_given(&self)
        ensures { IsGiven self.now.context.trees self.now.normal.pairs self.now.opaques }
    {
        self.recall_well_kept();
    }

    /// The context, and what the evaluator was given besides it.
    #[tactic(auto, unfolding(crate::specs::Evaluators::Known::IsEvaluator))]
    pub fn into_parts(self) -> (Cx, Vec<(Ty, Ty)>, Vec<AliasTy>)
        ensures context { result.0 ≡ self.context }
        ensures normal { result.1.items ≡ self.normal.pairs }
        ensures opaques { result.2.items ≡ self.opaques }
        ensures given { IsGiven result.0.trees result.1.items result.2.items }
    {
        (self.cx, self.normal, self.opaques)
    }

    /// A variable, of the newest universe, or, where it is a root, of the root's. `Stop::Memory` comes where a growth was refused,
    /// `Stop::NodesFull` where no number is left.
    pub(crate) fn new_variable(
        &mut self,
        kind: VariableKind,
        is_root: bool,
    ) -> Result<GenericArg, Stop>
        ensures grows { Grows self.old.context self.new.context }
        ensures faults { NoFault self.old.context self.new.context }
        ensures given { KeepsGiven self.old self.new }
        ensures mode { self.new.mode ≡ self.old.mode }
        ensures marks { self.new.marks ≡ self.old.marks }
        ensures probes { probes self.new ≡ probes self.old }
        ensures before { state_of self.new.context.trees self.old.mode self.old.inference ≡ state self.old }
        ensures sort { IfOk result (λ a. IsArg self.new.context.trees a) }
        ensures tree { IfOk result (λ a. arg_tree self.new.context.trees a ≡ variable kind (length self.old.inference.variables)) }
        ensures made { IfOk result (λ _. self.new.inference ≡ with_variable self.old.inference kind is_root) }
        ensures stopped { IfErr result (λ _. self.new.inference ≡ self.old.inference) }
        ensures cause { IfErr result (λ s. IsFullAt (length self.old.inference.variables) s ⊎ IsFullAt (length self.new.context.trees) s) }
    {
        let number = self.inference.next_variable()?;
        let arg = variable(&mut self.cx, kind, number)?;
        self.inference.add_variable(kind, is_root)?;
        Ok(arg)
    }

    /// A variable that comes with a goal, of the root universe. `Stop::Memory` comes where a growth was refused, `Stop::NodesFull`
    /// where no number is left.
    pub fn new_root_var(&mut self, kind: VariableKind) -> Result<GenericArg, Stop>
        ensures grows { Grows self.old.context self.new.context }
        ensures faults { NoFault self.old.context self.new.context }
        ensures given { KeepsGiven self.old self.new }
        ensures fixed { fixed self.new ≡ fixed self.old }
        ensures probes { probes self.new ≡ probes self.old }
        ensures sort { IfOk result (λ a. IsArg self.new.context.trees a) }
        ensures tree { IfOk result (λ a. arg_tree self.new.context.trees a ≡ variable kind (length (state self.old).variables)) }
        ensures made { OnOk result (state self.new ≡ with_root (state self.old) kind) }
        ensures stopped { OnErr result (state self.new ≡ state self.old) }
        ensures cause { IfErr result (λ s. IsFullAt (length (state self.old).variables) s ⊎ IsFullAt (length self.new.context.trees) s) }
    {
        self.recall_well_kept();
        self.new_variable(kind, true)
    }

    /// What stands for parameters of these kinds: nodes are made, and nothing else.
    pub(crate) fn make_leaves(
        &mut self,
        alloc: Global,
        leaves: Leaves,
        kinds: &[VarKind],
    ) -> Result<Args, Stop>
        requires { last_number leaves (length kinds.now) < 2 ^ 32 }
        ensures goes { GoesOn self.old self.new }
        ensures grows { Grows self.old.context self.new.context }
        ensures faults { NoFault self.old.context self.new.context }
        ensures given { KeepsGiven self.old self.new }
        ensures inference { self.new.inference ≡ self.old.inference }
        ensures probes { probes self.new ≡ probes self.old }
        ensures state { state self.new ≡ state self.old }
        ensures sort { IfOk result (λ a. IsArgs self.new.context.trees a) }
        ensures trees { IfOk result (λ a. args_forest self.new.context.trees a ≡ rows (all_leaves leaves kinds.now)) }
        ensures cause { IfErr result (λ s. IsFullAt (length self.new.context.trees) s) }
    {
        leaf_args(alloc, &mut self.cx, leaves, kinds)
    }

    /// Fresh variables, in the place of parameters of these kinds; none, where it stops.
    pub(crate) fn add_variables(&mut self, kinds: &[VarKind]) -> Result<(), Stop>
        ensures goes { GoesOn self.old self.new }
        ensures context { self.new.context ≡ self.old.context }
        ensures given { KeepsGiven self.old self.new }
        ensures probes { probes self.new ≡ probes self.old }
        ensures made { OnOk result (state self.new ≡ with_fresh_variables (state self.old) (kinds_listed kinds.now)) }
        ensures stopped { OnErr result (self.new ≡ self.old) }
        ensures cause { IfErr result (λ s. IsOutOfRoom (length (state self.old).variables) (length kinds.now) s) }
    {
        self.inference.add_variables(kinds)
    }

    /// There is a newer universe.
    pub(crate) fn enter(&mut self) -> Result<(), Stop>
        ensures context { self.new.context ≡ self.old.context }
        ensures given { KeepsGiven self.old self.new }
        ensures probes { probes self.new ≡ probes self.old }
        ensures goes { GoesOn self.old self.new }
        ensures made { OnOk result (state self.new ≡ with_universe (state self.old)) }
        ensures stopped { OnErr result (self.new ≡ self.old) }
        ensures cause { IfErr result (λ s. IsFullAt (state self.old).newest_universe s) }
    {
        self.inference.enter()
    }

    /// Begins a probe in which nothing is pending.
    pub(crate) fn begin_aside(&mut self) -> Result<(), Stop>
        ensures context { self.new.context ≡ self.old.context }
        ensures given { KeepsGiven self.old self.new }
        ensures ok { OnOk result ((state self.new ≡ begun ProbeKind.SetAside (state self.old)) × (probes self.new ≡ state self.old ∷ probes self.old)) }
        ensures stopped { OnErr result (self.new ≡ self.old) }
        ensures cause { IfErr result (λ s. s ≡ Stop.Memory) }
    {
        self.probes.push(self.inference.changes())?;
        match self.inference.set_aside() {
            Ok(()) => Ok(()),
            Err(stop) => {
                self.probes.pop();
                Err(stop)
            }
        }
    }
}
