//! Clauses that a trait without parameters holds of a type.

ghost use Rattle.std.specs.Prelude.{◌≡◌, [], Some, false, IfErr, IfOk, IfSome};
ghost use Rattle.ir_trees.specs.Declarations.Context.{Grows, world};
ghost use Rattle.ir_trees.specs.Declarations.Declaring.{takes_a_type};
ghost use Rattle.ir_trees.specs.Syntax.Words.{IsClause, IsTy, clause_tree, ty_tree};
ghost use Rattle.ir_trees.specs.Declarations.Worlds.{TraitSort, parameters};
ghost use Rattle.candidate_eval.specs.Interface.Unmade.{IsUnmade};
ghost use Rattle.candidate_assembly.specs.Rules.BuiltinRules.{meets};
ghost use Rattle.candidate_assembly.specs.Goals.TraitGoals.{item_trait};

use ir_context::decl::Cx;
use ir_context::decl::make::{Build, Make};
use ir_trees::decl::contents::LangItem;
use ir_trees::ir::kinds::{
    Binder, Clause, ClauseKind, GenericArg, PredicatePolarity, TraitId, TraitPredicate, TraitRef,
    Ty,
};
use ir_trees::ir::stop::Stop;

/// The trait that is the lang item has no parameters.
pub fn recall_item_has_no_parameters(cx: &Cx, item: LangItem)
    requires { takes_a_type item ≡ false }
    ensures { IfSome (item_trait cx.now item) (λ i. parameters (world cx.now) TraitSort i.0 ≡ Some []) }
{
    let _ = item;
    cx.recall_well_formed_table();
}

/// That a trait without parameters holds of the type, as a clause under an empty binder. `Stop::Memory` comes where a growth was refused,
/// `Stop::NodesFull` where a node was not made.
pub(crate) fn meets_trait<M: Make>(make: &mut M, trait_id: TraitId, ty: Ty) -> Result<Clause, Stop>
    requires ty { IsTy (M.context make.old).trees ty }
    requires no_parameters { parameters (world (M.context make.old)) TraitSort trait_id.0 ≡ Some [] }
    ensures grows { Grows (M.context make.old) (M.context make.new) }
    ensures rest { M.rest make.new ≡ M.rest make.old }
    ensures sort { IfOk result (λ x. IsClause (M.context make.new).trees x) }
    ensures tree { IfOk result (λ x. clause_tree (M.context make.new).trees x ≡ meets trait_id (ty_tree (M.context make.old).trees ty)) }
    ensures cause { IfErr result (IsUnmade (M.context make.old) (M.context make.new)) }
{
    let args = make.mk_args(&[GenericArg::Ty(ty)])?;
    let vars = make.mk_vars(&[])?;
    make.mk_clause(Binder {
        vars,
        value: ClauseKind::Trait(TraitPredicate {
            trait_ref: TraitRef {
                def_id: trait_id,
                args,
            },
            polarity: PredicatePolarity::Positive,
        }),
    })
}
