//! What an evaluator that works in rounds is to answer: its judge. The definitions are in `specs`, and that they keep the laws of an
//! evaluator is proved in `proofs`. There is no code but one function that says so.
#![tactic(auto)]

ghost use Rattle.std.specs.Prelude.{ℕ, List};
ghost use Rattle.ir_trees.specs.Syntax.Trees.{Tree};
ghost use Rattle.ir_trees.specs.declared.decl.limits.Limits.{Limits};
ghost use Rattle.ir_trees.specs.Declarations.Worlds.{World};
ghost use Rattle.candidate_eval.specs.Judges.Lawful.{Lawful};
ghost use Rattle.candidate_eval.specs.Judges.Soundness.{IsSolution, IsSound, Live};
ghost use Rattle.candidate_eval.specs.Judges.States.{State};
ghost use Rattle.ir_trees.specs.Unification.Substitutions.{Substitution};
ghost use Rattle.rounds_judge.specs.Table.GoalTable.{GoalTable, well_entered};
ghost use Rattle.rounds_judge.specs.Equations.WithErrors.{EquatesErrors};
ghost use Rattle.rounds_judge.specs.Table.Decided.{FinalDecides};
ghost use Rattle.rounds_judge.specs.Aliases.Listed.{Listing};
ghost use Rattle.rounds_judge.specs.Table.TableJudge.{table_judge};
ghost use Rattle.rounds_judge.specs.Aliases.WellListed.{well_listed};
ghost use Rattle.rounds_judge.specs.Projections.ProjectionGoals.{ProjectionTables, well_entered_each};
ghost use Rattle.rounds_judge.specs.Projections.ProjectionJudge.{projection_judge};

/// Whatever is declared, wherever walks end, whatever pairs and opaque types it is given, and whatever table it reads, the judge keeps the laws of an
/// evaluator. Of the pairs those count that may be listed, and of the table what may be read; in what words it tells how a goal is proved
/// is the caller's, `W`. Each sound state has a solution, so that what is said of equations without one says something. A goal of a trait
/// for which the table that is read has a final verdict is refused or done, and doesn't stay pending. An error is equal to itself alone.
/// A second judge keeps the laws, too: it reads tables of goals of projections besides, by which an open alias is what its goal's Yes says. No
/// evaluator answers by that one yet. Nothing is done.
pub fn keeps_the_laws<W>()
    ensures solvable { (S : State) (L : Live) → IsSound S L → (s : Substitution) × IsSolution S L s }
    ensures lawful { (w : World) (local : ℕ) (limits : Limits) (pairs : Listing) (os : List Tree) (table : GoalTable W) → Lawful (table_judge w local limits (well_listed pairs) os (well_entered table)) }
    ensures errors { (w : World) (c : ℕ) (m : Limits) (ps : Listing) (os : List Tree) (T : GoalTable W) → EquatesErrors (table_judge w c m (well_listed ps) os (well_entered T)) }
    ensures projections { (w : World) (c : ℕ) (m : Limits) (ps : Listing) (os : List Tree) (Q : ProjectionTables W) (T : GoalTable W) → Lawful (projection_judge w c m (well_listed ps) os (well_entered_each Q) (well_entered T)) }
    ensures decided { (table : GoalTable W) → FinalDecides table }
{}
