//! What is read of the declarations of a context: lists are lent. Of a number that isn't of the sort asked about there is
//! nothing.

ghost use Rattle.std.specs.Prelude.{◌≡◌, [], None, Some, false, slice_index_or, option_copied, IfOk, IfSome};
ghost use Rattle.ir_trees.specs.Declarations.Declaring.{adt_at, trait_at, bounds_at, impl_at, item_number};
ghost use Rattle.ir_trees.specs.Validity.Held.{definition_held, adt_held, trait_held, bounds_held, if_there};
ghost use Rattle.ir_trees.specs.declared.decl.held.Owner.TheVariants as O;
ghost use Rattle.ir_trees.specs.Syntax.Words.{IsTy, ClauseListFits};
ghost use Rattle.ir_trees.specs.Declarations.Lookups as lookup;
ghost use Rattle.ir_trees.specs.Validity.WellFormed.{TypesFit, SignatureFits, ImplIsGiven, AreGiven};

use crate::decl::context::Cx;
use ir_trees::decl::contents::{
    AdtContents, Bounds, Destructor, Impl, ImplId, LangItem, Sizedness, TraitContents, adt_place,
    bounds_place, trait_place,
};
use ir_trees::decl::definition::{
    AdtFlags, AdtShape, AssocKind, DefinitionKind, FnFlags, TraitFlags,
};
use ir_trees::ir::at::at;
use ir_trees::ir::kinds::{
    AdtId, AliasId, AssocId, Binder, Clause, ClosureId, FnId, FnSig, TraitId, Ty, VarKind,
};
use std::alloc::{AllocError, Global};

impl Cx {
    /// What the definition holds is there.
    #[tactic(auto, using(crate::proofs::Validity::Given::definition_given))]
    fn recall_definition_given(&self, number: u32)
        ensures { IfSome (lookup.definition self.now number) (λ k. AreGiven self.now (definition_held self.now.contents number k)) }
    {
        self.recall_well_formed_table();
    }

    #[tactic(auto, using(crate::proofs::Validity::Given::adt_given))]
    fn recall_adt_given(&self, adt: AdtId)
        ensures { AreGiven self.now (if_there (adt_held (O.Definition adt.0)) (adt_at self.now adt.0)) }
    {
        let _ = self.contents.adts.len();
        self.recall_well_formed_table();
    }

    #[tactic(auto, using(crate::proofs::Validity::Given::trait_given))]
    fn recall_trait_given(&self, of: TraitId)
        ensures { AreGiven self.now (if_there (trait_held (O.Definition of.0)) (trait_at self.now of.0)) }
    {
        let _ = self.contents.traits.len();
        self.recall_well_formed_table();
    }

    #[tactic(auto, using(crate::proofs::Validity::Given::bounds_given))]
    fn recall_bounds_given(&self, alias: AliasId)
        ensures { AreGiven self.now (if_there (bounds_held (O.Definition alias.0)) (bounds_at self.now alias.0)) }
    {
        let _ = self.contents.bounds.len();
        self.recall_well_formed_table();
    }

    #[tactic(auto, using(crate::proofs::Validity::Given::impl_given))]
    fn recall_impl_given(&self, of: ImplId)
        ensures { IfSome (impl_at self.now of) (ImplIsGiven self.now) }
    {
        self.recall_well_formed_table();
    }

    fn definition(&self, number: u32) -> Option<DefinitionKind>
        ensures is { result ≡ lookup.definition self.now number }
        ensures given { IfSome result (λ k. AreGiven self.now (definition_held self.now.contents number k)) }
    {
        self.recall_definition_given(number);
        match at(self.definitions.as_slice(), number as usize) {
            Some(definition) => Some(definition.kind()),
            None => None,
        }
    }

    /// What the data type was declared as.
    pub fn adt_shape(&self, adt: AdtId) -> Option<AdtShape>
        ensures { result ≡ lookup.adt_shape (lookup.definition self.now adt.0) }
    {
        match self.definition(adt.0) {
            Some(DefinitionKind::Adt(shape, _, _)) => Some(shape),
            _ => None,
        }
    }

    /// The flags of the data type.
    pub fn adt_flags(&self, adt: AdtId) -> Option<AdtFlags>
        ensures { result ≡ lookup.adt_flags (lookup.definition self.now adt.0) }
    {
        match self.definition(adt.0) {
            Some(DefinitionKind::Adt(_, flags, _)) => Some(flags),
            _ => None,
        }
    }

    /// The flags of the trait.
    pub fn trait_flags(&self, of: TraitId) -> Option<TraitFlags>
        ensures { result ≡ lookup.trait_flags (lookup.definition self.now of.0) }
    {
        match self.definition(of.0) {
            Some(DefinitionKind::Trait(flags, _)) => Some(flags),
            _ => None,
        }
    }

    /// The trait of the associated item.
    pub fn assoc_trait(&self, assoc: AssocId) -> Option<TraitId>
        ensures { result ≡ lookup.assoc_trait (lookup.definition self.now assoc.0) }
    {
        match self.definition(assoc.0) {
            Some(DefinitionKind::Assoc(of, _, _, _)) => Some(of),
            _ => None,
        }
    }

    /// What the associated item is.
    pub fn assoc_kind(&self, assoc: AssocId) -> Option<AssocKind>
        ensures { result ≡ lookup.assoc_kind (lookup.definition self.now assoc.0) }
    {
        match self.definition(assoc.0) {
            Some(DefinitionKind::Assoc(_, kind, _, _)) => Some(kind),
            _ => None,
        }
    }

    /// Whether the associated item requires that `Self` is sized.
    pub fn requires_sized_self(&self, assoc: AssocId) -> bool
        ensures { result ≡ lookup.requires_sized_self (lookup.definition self.now assoc.0) }
    {
        match self.definition(assoc.0) {
            Some(DefinitionKind::Assoc(_, _, sized, _)) => sized,
            _ => false,
        }
    }

    /// The type that the opaque type hides.
    #[tactic(auto, using(crate::proofs::Validity::Given::hidden_fits))]
    pub fn hidden_type(&self, opaque: AliasId) -> Option<Ty>
        ensures is { result ≡ lookup.hidden_type (lookup.definition self.now opaque.0) }
        ensures sort { IfSome result (λ t. IsTy self.now.trees t) }
    {
        match self.definition(opaque.0) {
            Some(DefinitionKind::Opaque(hidden, _)) => Some(hidden),
            _ => None,
        }
    }

    /// The flags of the function.
    pub fn fn_flags(&self, function: FnId) -> Option<FnFlags>
        ensures { result ≡ lookup.fn_flags (lookup.definition self.now function.0) }
    {
        match self.definition(function.0) {
            Some(DefinitionKind::Function(flags, _)) => Some(flags),
            _ => None,
        }
    }

    /// The signature of the function, under its binder.
    #[tactic(auto, using(crate::proofs::Validity::Given::sig_fits))]
    pub fn fn_sig(&self, function: FnId) -> Option<Binder<FnSig>>
        ensures is { result ≡ lookup.fn_sig (lookup.definition self.now function.0) }
        ensures fit { IfSome result (λ s. SignatureFits self.now.trees s) }
    {
        match self.definition(function.0) {
            Some(DefinitionKind::Function(_, sig)) => Some(sig),
            _ => None,
        }
    }

    /// Whether the closure can be called where a constant is computed.
    pub fn closure_is_const(&self, closure: ClosureId) -> bool
        ensures { result ≡ lookup.is_const_closure (lookup.definition self.now closure.0) }
    {
        match self.definition(closure.0) {
            Some(DefinitionKind::Closure(is_const)) => is_const,
            _ => false,
        }
    }

    fn adt(&self, adt: AdtId) -> Option<&AdtContents>
        ensures is { option_copied result ≡ adt_at self.now adt.0 }
        ensures given { AreGiven self.now (if_there (adt_held (O.Definition adt.0)) (option_copied result)) }
    {
        self.recall_adt_given(adt);
        let place = adt_place(self.definitions.as_slice(), adt);
        at(self.contents.adts.as_slice(), place)
    }

    fn trait_contents(&self, of: TraitId) -> Option<&TraitContents>
        ensures is { option_copied result ≡ trait_at self.now of.0 }
        ensures given { AreGiven self.now (if_there (trait_held (O.Definition of.0)) (option_copied result)) }
    {
        self.recall_trait_given(of);
        let place = trait_place(self.definitions.as_slice(), of);
        at(self.contents.traits.as_slice(), place)
    }

    fn bounds(&self, alias: AliasId) -> Option<&Bounds>
        ensures is { option_copied result ≡ bounds_at self.now alias.0 }
        ensures given { AreGiven self.now (if_there (bounds_held (O.Definition alias.0)) (option_copied result)) }
    {
        self.recall_bounds_given(alias);
        let place = bounds_place(self.definitions.as_slice(), alias);
        at(self.contents.bounds.as_slice(), place)
    }

    /// The impl as it was declared: its header, what it says of its trait, and its clauses, each list in order.
    pub fn impl_contents(&self, of: ImplId) -> Option<&Impl>
        ensures is { option_copied result ≡ impl_at self.now of }
        ensures given { IfSome (option_copied result) (ImplIsGiven self.now) }
    {
        self.recall_impl_given(of);
        at(self.contents.impls.as_slice(), of.0 as usize)
    }

    /// The kinds of the impl's parameters, in order. The only error is a refused growth.
    pub fn impl_parameters(&self, alloc: Global, of: ImplId) -> Result<Vec<VarKind>, AllocError>
        ensures { IfOk result (λ v. v.items ≡ lookup.maybe [] (λ i. i.parameters) (impl_at self.now of)) }
    {
        match self.impl_contents(of) {
            Some(contents) => contents.parameters.kinds(alloc),
            None => Ok(Vec::new(alloc)),
        }
    }

    /// The types of the fields of the data type, in order.
    #[tactic(auto, using(crate::proofs::Validity::Given::fields_fit))]
    pub fn fields(&self, adt: AdtId) -> &[Ty]
        ensures is { result.now ≡ lookup.maybe [] (λ a. a.fields) (adt_at self.now adt.0) }
        ensures fit { TypesFit self.now.trees result.now }
    {
        match self.adt(adt) {
            Some(contents) => contents.fields.as_slice(),
            None => &[],
        }
    }

    /// The type that has to be sized, in this sense, for the data type to be, if one was said.
    #[tactic(auto, using(crate::proofs::Validity::Given::constraint_fits))]
    pub fn sizedness_constraint(&self, adt: AdtId, sizedness: Sizedness) -> Option<Ty>
        ensures is { result ≡ lookup.maybe None (lookup.constraint sizedness) (adt_at self.now adt.0) }
        ensures sort { IfSome result (λ t. IsTy self.now.trees t) }
    {
        match self.adt(adt) {
            Some(contents) => match sizedness {
                Sizedness::Sized => contents.sized,
                Sizedness::MetaSized => contents.meta_sized,
            },
            None => None,
        }
    }

    /// The destructor of the data type, if it has one of its own.
    pub fn destructor(&self, adt: AdtId) -> Option<Destructor>
        ensures { result ≡ lookup.maybe None (λ a. a.destructor) (adt_at self.now adt.0) }
    {
        match self.adt(adt) {
            Some(contents) => contents.destructor,
            None => None,
        }
    }

    /// The numbers of the parameters that change where the data type is unsized, as they were said.
    pub fn unsizing_parameters(&self, adt: AdtId) -> &[u32]
        ensures { result.now ≡ lookup.maybe [] (λ a. a.unsizing) (adt_at self.now adt.0) }
    {
        match self.adt(adt) {
            Some(contents) => contents.unsizing.as_slice(),
            None => &[],
        }
    }

    /// The super clauses of the trait, in order.
    #[tactic(auto, using(crate::proofs::Validity::Given::supers_fit))]
    pub fn super_clauses(&self, of: TraitId) -> &[Clause]
        ensures is { result.now ≡ lookup.maybe [] (λ a. a.supers) (trait_at self.now of.0) }
        ensures fit { ClauseListFits self.now.trees result.now }
    {
        match self.trait_contents(of) {
            Some(contents) => contents.supers.as_slice(),
            None => &[],
        }
    }

    /// The where clauses of the trait, in order.
    #[tactic(auto, using(crate::proofs::Validity::Given::wheres_fit))]
    pub fn trait_where_clauses(&self, of: TraitId) -> &[Clause]
        ensures is { result.now ≡ lookup.maybe [] (λ a. a.wheres) (trait_at self.now of.0) }
        ensures fit { ClauseListFits self.now.trees result.now }
    {
        match self.trait_contents(of) {
            Some(contents) => contents.wheres.as_slice(),
            None => &[],
        }
    }

    /// The associated items of the trait, in the order of their declaration.
    pub fn associated_items(&self, of: TraitId) -> &[AssocId]
        ensures { result.now ≡ lookup.maybe [] (λ a. a.items) (trait_at self.now of.0) }
    {
        match self.trait_contents(of) {
            Some(contents) => contents.items.as_slice(),
            None => &[],
        }
    }

    /// The impls of the trait, in the order of their declaration.
    pub fn impls_of(&self, of: TraitId) -> &[ImplId]
        ensures { result.now ≡ lookup.maybe [] (λ a. a.impls) (trait_at self.now of.0) }
    {
        match self.trait_contents(of) {
            Some(contents) => contents.impls.as_slice(),
            None => &[],
        }
    }

    /// The bounds of the associated type or opaque type itself, in order.
    #[tactic(auto, using(crate::proofs::Validity::Given::self_bounds_fit))]
    pub fn self_bounds(&self, alias: AliasId) -> &[Clause]
        ensures is { result.now ≡ lookup.maybe [] (λ a. a.self_bounds) (bounds_at self.now alias.0) }
        ensures fit { ClauseListFits self.now.trees result.now }
    {
        match self.bounds(alias) {
            Some(contents) => contents.self_bounds.as_slice(),
            None => &[],
        }
    }

    /// The bounds of the alias that it is a projection of, in order.
    #[tactic(auto, using(crate::proofs::Validity::Given::non_self_bounds_fit))]
    pub fn non_self_bounds(&self, alias: AliasId) -> &[Clause]
        ensures is { result.now ≡ lookup.maybe [] (λ a. a.non_self_bounds) (bounds_at self.now alias.0) }
        ensures fit { ClauseListFits self.now.trees result.now }
    {
        match self.bounds(alias) {
            Some(contents) => contents.non_self_bounds.as_slice(),
            None => &[],
        }
    }

    /// The trait that is the lang item, if one is.
    pub fn lang_item(&self, item: LangItem) -> Option<TraitId>
        ensures { result ≡ slice_index_or self.now.contents.lang_items (item_number item) None }
    {
        self.contents.lang_items[item.number()]
    }
}
