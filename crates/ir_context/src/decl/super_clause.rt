//! The super clauses of a trait, in the place of a reference to it.

ghost use Rattle.std.specs.Prelude.{◌≡◌, ℕ, IfSome, slice_get, false};
ghost use Rattle.ir_trees.specs.Declarations.Declaring.{trait_at};
ghost use Rattle.ir_trees.specs.Declarations.References.{ArgumentsFit};
ghost use Rattle.ir_trees.specs.Hierarchy.Supers.{supers_at};
ghost use Rattle.ir_trees.specs.Instantiation.Folding.{lacks_argument};
ghost use Rattle.ir_trees.specs.Instantiation.Results.{HasArguments};
ghost use Rattle.ir_trees.specs.Syntax.Trees.{tree_holds};
ghost use Rattle.ir_trees.specs.Syntax.Words.{IsClause, ClauseListFits, args_forest, clause_tree};

use crate::decl::context::Cx;
use ir_trees::ir::kinds::{Clause, TraitRef};

impl Cx {
    /// All super clauses are of the context.
    #[tactic(auto, using(crate::proofs::Hierarchy::Walking::all_supers_fit))]
    pub fn recall_supers_fit(&self)
        ensures { (i : ℕ) → ClauseListFits self.now.trees (supers_at (trait_at self.now i)) }
    {
        let _ = self.contents.traits.len();
        self.recall_well_formed_table();
    }

    /// A super clause of the trait of a reference is of the context, and each of its parameters has an argument there.
    fn recall_super_clause_fits(&self, trait_ref: TraitRef, place: usize)
        requires { ArgumentsFit self.now trait_ref }
        ensures { let ts = self.now.trees in IfSome (slice_get (supers_at (trait_at self.now trait_ref.def_id.0)) place) (HasArguments ts trait_ref.args) }
    {
        let _ = self.contents.traits.len();
        self.recall_well_formed_table();
    }

    /// The super clause in that place of the trait of a reference: each of its parameters has an argument there.
    pub fn super_clause(&self, trait_ref: TraitRef, place: usize) -> Option<Clause>
        requires { ArgumentsFit self.now trait_ref }
        ensures is { result ≡ slice_get (supers_at (trait_at self.now trait_ref.def_id.0)) place }
        ensures sort { IfSome result (λ x. IsClause self.now.trees x) }
        ensures has { IfSome result (λ x. tree_holds (lacks_argument (args_forest self.now.trees trait_ref.args)) (clause_tree self.now.trees x) ≡ false) }
    {
        self.recall_super_clause_fits(trait_ref, place);
        self.super_clauses(trait_ref.def_id).get(place).copied()
    }
}
