//! Derivations of goals, as data. The definitions are in `specs`; the functions do nothing but say laws of them.
#![tactic(auto)]

ghost use Rattle.std.specs.Prelude.{◌≡◌};
ghost use Rattle.ir_trees.specs.declared.ir.heads.Head.{Head};
ghost use Rattle.ir_trees.specs.Declarations.Context.{Context, Grows};
ghost use Rattle.ir_trees.specs.Unification.Substitutions.{Universes};
ghost use Rattle.ir_trees.specs.Syntax.Trees.{Forest};
ghost use Rattle.ir_trees.specs.Validity.WellFormed.{IsWellFormedTable};
ghost use Rattle.candidate_eval.specs.Derivations.ImplRules.{TraitGoal};
ghost use Rattle.candidate_eval.specs.Judges.Instances.{Instance, IsAllowedInto};
ghost use Rattle.candidate_eval.specs.Judges.States.{Env};
ghost use Rattle.candidate_assembly.specs.Laws.Given.{IsCounted};
ghost use Rattle.rounds_judge.specs.Aliases.Congruence.{Same};
ghost use Rattle.rounds_judge.specs.Table.GoalTable.{GoalTable};
ghost use Rattle.rounds_judge.specs.Aliases.Listed.{Listing};
ghost use Rattle.rounds_judge.specs.Equations.Standing.{IsListing};
ghost use Rattle.rounds_judge.specs.Table.TableGranted.{FactsGrantedWith};
ghost use Rattle.derivations.specs.Derivations.{Derivation, StaysDerived};
ghost use Rattle.derivations.specs.DerivedTables.{AreDerived};
ghost use Rattle.derivations.specs.Ordinary.{AsksPlainly, IsUnordinary, ObjectsAreOrdinary};

/// Goals that are equal share derivations, each allowed instance of what is derived is, and what a table grants of which each Yes is derived. Where
/// what is declared is ordinary no object's own clause is assumed; and it is ordinary where it asks plainly.
pub fn derivations_keep<W>()
    ensures shared { (d : Context) (l : Listing) (w : Universes) (e f : Env) (h : Head) (ts us : Forest) → Derivation d l w e h ts → Same l e f → Same l ts us → Derivation d l w f h us }
    ensures instances { (d : Context) (l : Listing) (u w : Universes) (o : Instance) → IsListing l → IsAllowedInto u w o → StaysDerived d l u w o }
    ensures granted { (d : Context) (l : Listing) (T : GoalTable W) (u : Universes) (e : Env) (h : Head) (ts : Forest) → AreDerived d l T → FactsGrantedWith T l u e h ts → Derivation d l u e h ts }
    ensures ordinary { (d c : Context) (g : TraitGoal) → IsWellFormedTable d → IsCounted d → Grows d c → ObjectsAreOrdinary d → IsUnordinary c g → ⊥ }
    ensures plain { (d : Context) → IsWellFormedTable d → IsCounted d → AsksPlainly d → ObjectsAreOrdinary d }
{}
