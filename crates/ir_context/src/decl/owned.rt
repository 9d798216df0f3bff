//! What a definition holds, where arguments are given for its parameters: each parameter has one of its kind.

ghost use Rattle.std.specs.Prelude.{◌≡◌, [], None, Some, false, All, IfSome, map, option_copied};
ghost use Rattle.ir_trees.specs.Declarations.Context.{parameter_kind, world};
ghost use Rattle.ir_trees.specs.Declarations.Declaring.{adt_at, bounds_at, impl_at, trait_at};
ghost use Rattle.ir_trees.specs.Instantiation.Folding.{lacks_argument};
ghost use Rattle.ir_trees.specs.Declarations.Lookups as lookup;
ghost use Rattle.ir_trees.specs.Instantiation.Owned.{AliasArgumentsFit, ClausesAreOwned, ImplIsOwned, bounds_among, is_unsolved};
ghost use Rattle.ir_trees.specs.Declarations.References.{ArgumentsFit};
ghost use Rattle.ir_trees.specs.Syntax.Binders.{tree_escapes};
ghost use Rattle.ir_trees.specs.Syntax.Trees.{tree_holds};
ghost use Rattle.ir_context.specs.Instantiation.Signatures.{SignatureHas};
ghost use Rattle.ir_trees.specs.Validity.WellFormed.{ImplIsGiven, SignatureFits, TypesFit};
ghost use Rattle.ir_trees.specs.Syntax.Words.{IsTy, args_forest, ty_tree};
ghost use Rattle.ir_trees.specs.Declarations.Worlds.{AdtSort, FunctionSort, OpaqueSort, parameters, kinds_of};

use crate::decl::context::Cx;
use ir_trees::decl::contents::{AliasBoundKind, Impl, ImplId, Sizedness};
use ir_trees::ir::kinds::{
    AdtId, AliasId, AliasTy, Args, AssocId, Binder, Clause, FnId, FnSig, TraitRef, Ty,
};

impl Cx {
    /// The types of the fields of the data type, in order, whose parameters have these arguments. No variable stands in
    /// them.
    #[tactic(auto, using(crate::proofs::Instantiation::Owned::fields_have_arguments))]
    pub fn fields_of(&self, adt: AdtId, args: Args) -> &[Ty]
        requires { parameters (world self.now) AdtSort adt.0 ≡ Some (kinds_of (args_forest self.now.trees args)) }
        ensures is { result.now ≡ lookup.maybe [] (λ a. a.fields) (adt_at self.now adt.0) }
        ensures fit { TypesFit self.now.trees result.now }
        ensures have { All (λ t. tree_holds (lacks_argument (args_forest self.now.trees args)) (ty_tree self.now.trees t) ≡ false) result.now }
        ensures closed { All (λ t. tree_holds is_unsolved (ty_tree self.now.trees t) ≡ false) result.now }
    {
        let _ = (args, self.contents.adts.len());
        self.recall_well_formed_table();
        self.fields(adt)
    }

    /// The type that has to be sized, in this sense, for the data type to be, whose parameters have these arguments.
    #[tactic(auto, using(crate::proofs::Instantiation::Owned::constraint_has_arguments))]
    pub fn constraint_of(&self, adt: AdtId, args: Args, sizedness: Sizedness) -> Option<Ty>
        requires { parameters (world self.now) AdtSort adt.0 ≡ Some (kinds_of (args_forest self.now.trees args)) }
        ensures is { result ≡ lookup.maybe None (lookup.constraint sizedness) (adt_at self.now adt.0) }
        ensures sort { IfSome result (λ t. IsTy self.now.trees t) }
        ensures has { IfSome result (λ t. tree_holds (lacks_argument (args_forest self.now.trees args)) (ty_tree self.now.trees t) ≡ false) }
    {
        let _ = (args, self.contents.adts.len());
        self.recall_well_formed_table();
        self.sizedness_constraint(adt, sizedness)
    }

    /// The type that the opaque type hides, whose parameters have these arguments. No variable stands in it.
    #[tactic(auto, using(crate::proofs::Instantiation::Owned::hidden_has_arguments))]
    pub fn hidden_type_of(&self, opaque: AliasId, args: Args) -> Option<Ty>
        requires { parameters (world self.now) OpaqueSort opaque.0 ≡ Some (kinds_of (args_forest self.now.trees args)) }
        ensures is { result ≡ lookup.hidden_type (lookup.definition self.now opaque.0) }
        ensures sort { IfSome result (λ t. IsTy self.now.trees t) }
        ensures has { IfSome result (λ t. tree_holds (lacks_argument (args_forest self.now.trees args)) (ty_tree self.now.trees t) ≡ false) }
        ensures closed { IfSome result (λ t. tree_holds is_unsolved (ty_tree self.now.trees t) ≡ false) }
    {
        let _ = args;
        self.recall_well_formed_table();
        self.hidden_type(opaque)
    }

    /// The impl as it was declared, whose parameters have these arguments. No variable stands in it.
    pub fn impl_of(&self, of: ImplId, args: Args) -> Option<&Impl>
        requires { kinds_of (args_forest self.now.trees args) ≡ map parameter_kind (lookup.maybe [] (λ i. i.parameters) (impl_at self.now of)) }
        ensures is { option_copied result ≡ impl_at self.now of }
        ensures given { IfSome (option_copied result) (ImplIsGiven self.now) }
        ensures owned { IfSome (option_copied result) (ImplIsOwned self.now.trees (args_forest self.now.trees args)) }
    {
        let _ = args;
        self.recall_well_formed_table();
        self.impl_contents(of)
    }

    /// What the impl says that the associated type is, if it says so, whose parameters have these arguments. No variable stands in it,
    /// and no bound variable escapes from it.
    pub fn assoc_value(&self, of: ImplId, args: Args, assoc: AssocId) -> Option<Ty>
        requires { kinds_of (args_forest self.now.trees args) ≡ map parameter_kind (lookup.maybe [] (λ i. i.parameters) (impl_at self.now of)) }
        ensures is { result ≡ lookup.maybe None (lookup.value_of assoc) (impl_at self.now of) }
        ensures sort { IfSome result (λ t. IsTy self.now.trees t) }
        ensures has { IfSome result (λ t. tree_holds (lacks_argument (args_forest self.now.trees args)) (ty_tree self.now.trees t) ≡ false) }
        ensures closed { IfSome result (λ t. tree_holds is_unsolved (ty_tree self.now.trees t) ≡ false) }
        ensures bound { IfSome result (λ t. tree_escapes 0 (ty_tree self.now.trees t) ≡ false) }
    {
        match self.impl_of(of, args) {
            Some(contents) => contents.value(assoc),
            None => None,
        }
    }

    /// The super clauses of the reference's trait, in order, whose parameters have the reference's arguments. No variable stands
    /// in them.
    pub fn super_clauses_of(&self, reference: TraitRef) -> &[Clause]
        requires { ArgumentsFit self.now reference }
        ensures is { result.now ≡ lookup.maybe [] (λ a. a.supers) (trait_at self.now reference.def_id.0) }
        ensures owned { ClausesAreOwned self.now.trees (args_forest self.now.trees reference.args) result.now }
    {
        let _ = self.contents.traits.len();
        self.recall_well_formed_table();
        self.super_clauses(reference.def_id)
    }

    /// The where clauses of the reference's trait, likewise.
    pub fn trait_where_clauses_of(&self, reference: TraitRef) -> &[Clause]
        requires { ArgumentsFit self.now reference }
        ensures is { result.now ≡ lookup.maybe [] (λ a. a.wheres) (trait_at self.now reference.def_id.0) }
        ensures owned { ClausesAreOwned self.now.trees (args_forest self.now.trees reference.args) result.now }
    {
        let _ = self.contents.traits.len();
        self.recall_well_formed_table();
        self.trait_where_clauses(reference.def_id)
    }

    /// The bounds of the alias, its own or those of what it is a projection of, in order, whose parameters have the alias's
    /// arguments. No variable stands in them.
    pub fn bounds_of(&self, alias: AliasTy, kind: AliasBoundKind) -> &[Clause]
        requires { AliasArgumentsFit self.now alias }
        ensures is { result.now ≡ lookup.maybe [] (bounds_among kind) (bounds_at self.now alias.id.0) }
        ensures owned { ClausesAreOwned self.now.trees (args_forest self.now.trees alias.args) result.now }
    {
        let _ = self.contents.bounds.len();
        self.recall_well_formed_table();
        match kind {
            AliasBoundKind::SelfBounds => self.self_bounds(alias.id),
            AliasBoundKind::NonSelfBounds => self.non_self_bounds(alias.id),
        }
    }

    /// The signature of the function, under its binder, whose parameters have these arguments.
    #[tactic(auto, using(crate::proofs::Instantiation::Owned::sig_has_arguments))]
    pub fn fn_sig_of(&self, function: FnId, args: Args) -> Option<Binder<FnSig>>
        requires { parameters (world self.now) FunctionSort function.0 ≡ Some (kinds_of (args_forest self.now.trees args)) }
        ensures is { result ≡ lookup.fn_sig (lookup.definition self.now function.0) }
        ensures fit { IfSome result (λ s. SignatureFits self.now.trees s) }
        ensures has { IfSome result (λ s. SignatureHas self.now.trees (args_forest self.now.trees args) s) }
    {
        let _ = args;
        self.recall_well_formed_table();
        self.fn_sig(function)
    }
}
