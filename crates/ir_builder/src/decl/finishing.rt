//! What is wrong with all that was declared, and the end of declaring.

ghost use Rattle.std.specs.Prelude.{◌≡◌, ◌↔◌, ◌⊎◌, IsTrue, false, length, MatchOption, MatchResult};
ghost use Rattle.ir_trees.specs.Validity.Faults.{all_that_is_held, declarations_misname, contents_misname, has_unknown_id, has_wrong_parameters, AllArgumentsFit, has_wrong_kind, HasFault, IsFaultless, IsLowestFault};
ghost use Rattle.ir_builder.specs.Validity.Places.{IsDeclError};
ghost use Rattle.ir_builder.specs.Calls.Plain.{AllArePlain};
ghost use Rattle.ir_trees.specs.Validity.WellFormed.{IsWellFormedTable};
ghost use Rattle.ir_trees.specs.Hierarchy.Supertraits.{HasSupertraitCycle, IsAcyclic};

use crate::decl::builder::DeclsBuilder;
use crate::decl::cycles::has_supertrait_cycle;
use crate::decl::fault_places::DeclError;
use crate::decl::faults::{
    any_has_wrong_arity, any_has_wrong_value, any_impl_misnames, any_is_unknown,
    any_item_has_wrong_arity, any_item_misnames, any_lacks_tail, any_lacks_trait, any_unsizes_past,
};
use crate::decl::plain::all_are_plain;
use crate::decl::supers::any_has_wrong_super;
use ir_context::decl::finished::Decls;
use ir_trees::decl::arity::{any_names_unknown, impls_fit, nodes_fit};
use ir_trees::decl::fault::DeclFault;
use ir_trees::decl::heads::listed_impls;
use ir_trees::decl::held::{Held, all_held};
use ir_trees::decl::misplaced::{Misplaced, any_escapes, any_misplaces, any_not_given};

impl DeclsBuilder {
    fn declarations_misname(&self) -> bool
        ensures { result ≡ declarations_misname self.now }
    {
        self.contents.misnamed
            || self.local.is_unknown(self.crates)
            || any_is_unknown(self.definitions.as_slice(), self.crates)
            || any_lacks_trait(self.definitions.as_slice())
    }

    fn contents_misname(&self) -> bool
        ensures { result ≡ contents_misname self.now }
    {
        let definitions = self.definitions.as_slice();
        any_impl_misnames(self.crates, definitions, self.contents.impls.as_slice())
            || any_item_misnames(definitions, &self.contents.lang_items)
    }

    fn has_unknown_id(&self, held: &[Held]) -> bool
        requires { held.now ≡ all_that_is_held self.now }
        ensures { result ≡ has_unknown_id self.now }
    {
        self.declarations_misname()
            || self.contents_misname()
            || any_not_given(&self.nodes, held)
            || any_names_unknown(self.definitions.len(), &self.nodes)
    }

    /// Whether one look at what is held shows that nothing is misplaced there, and that no bound variable escapes.
    fn all_are_plain(&self, held: &[Held]) -> bool
        requires held { held.now ≡ all_that_is_held self.now }
        requires given { has_unknown_id self.now ≡ false }
        ensures { IsTrue result → AllArePlain self.now.trees self.now.declarations self.now.contents.impls held.now }
    {
        let definitions = self.definitions.as_slice();
        let impls = self.contents.impls.as_slice();
        all_are_plain(&self.nodes, definitions, impls, held)
    }

    fn has_wrong_parameters(&self, held: &[Held], are_plain: bool) -> bool
        requires held { held.now ≡ all_that_is_held self.now }
        requires given { has_unknown_id self.now ≡ false }
        requires plain { IsTrue are_plain → AllArePlain self.now.trees self.now.declarations self.now.contents.impls held.now }
        ensures { result ≡ has_wrong_parameters self.now }
    {
        let definitions = self.definitions.as_slice();
        let impls = self.contents.impls.as_slice();
        any_has_wrong_arity(definitions)
            || any_unsizes_past(definitions, &self.contents)
            || !are_plain && any_misplaces(&self.nodes, definitions, impls, Misplaced::Past, held)
    }

    fn arguments_fit(&self) -> bool
        ensures { IsTrue result ↔ AllArgumentsFit self.now }
    {
        let definitions = self.definitions.as_slice();
        nodes_fit(definitions, &self.nodes)
            && impls_fit(definitions, &self.nodes, self.contents.impls.as_slice())
    }

    fn has_wrong_kind(&self, held: &[Held], are_plain: bool) -> bool
        requires held { held.now ≡ all_that_is_held self.now }
        requires given { has_unknown_id self.now ≡ false }
        requires plain { IsTrue are_plain → AllArePlain self.now.trees self.now.declarations self.now.contents.impls held.now }
        ensures { result ≡ has_wrong_kind self.now }
    {
        let definitions = self.definitions.as_slice();
        let impls = self.contents.impls.as_slice();
        !are_plain && any_misplaces(&self.nodes, definitions, impls, Misplaced::Stray, held)
            || !are_plain && any_escapes(&self.nodes, held)
            || any_has_wrong_super(&self.nodes, definitions, &self.contents)
            || any_has_wrong_value(definitions, impls)
    }

    /// The fault that a search for a supertrait cycle finds, or a refused growth.
    fn supertrait_fault(&self) -> Option<DeclFault>
        ensures { MatchOption result (IsAcyclic self.now) (λ f. (f ≡ DeclFault.Memory) ⊎ ((f ≡ DeclFault.SupertraitCycle) × HasSupertraitCycle self.now)) }
    {
        let alloc = *self.definitions.allocator();
        let definitions = self.definitions.as_slice();
        match has_supertrait_cycle(alloc, &self.nodes, definitions, &self.contents) {
            Ok(true) => Some(DeclFault::SupertraitCycle),
            Ok(false) => None,
            Err(_) => Some(DeclFault::Memory),
        }
    }

    /// The fault with the lowest number, if there is one, or a refused growth.
    #[tactic(auto, using(ir_context::proofs::Validity::Faults::unknown_lowest, ir_context::proofs::Validity::Faults::arity_lowest, ir_context::proofs::Validity::Faults::kind_lowest, ir_context::proofs::Validity::Faults::cycle_lowest))]
    fn fault(&self, held: &[Held]) -> Option<DeclFault>
        requires { held.now ≡ all_that_is_held self.now }
        ensures { MatchOption result (IsFaultless self.now × IsWellFormedTable self.now) (λ f. (f ≡ DeclFault.Memory) ⊎ IsLowestFault self.now f) }
    {
        if self.has_unknown_id(held) {
            return Some(DeclFault::UnknownId);
        }
        let are_plain = self.all_are_plain(held);
        if self.has_wrong_parameters(held, are_plain) {
            return Some(DeclFault::WrongArity);
        }
        if !self.arguments_fit() {
            return Some(DeclFault::WrongArity);
        }
        if self.has_wrong_kind(held, are_plain) {
            return Some(DeclFault::WrongKind);
        }
        if let Some(fault) = self.supertrait_fault() {
            return Some(fault);
        }
        if any_lacks_tail(self.definitions.as_slice(), &self.contents) {
            return Some(DeclFault::NoTail);
        }
        if any_item_has_wrong_arity(self.definitions.as_slice(), &self.contents.lang_items) {
            return Some(DeclFault::LangArity);
        }
        if self.limits.is_bad() {
            return Some(DeclFault::BadLimit);
        }
        None
    }

    /// The declarations, if they have no fault; else the fault with the lowest number and whose content has it, or
    /// `DeclFault::Memory` where a growth was refused while they were looked at. The builder is spent in each case.
    ///
    /// Each node that was made counts, whether or not a declaration uses it: one that names a
    /// definition that was never given is `UnknownId`, and one whose arguments aren't those that its
    /// definition takes is `WrongArity`. A limit that is 0 is `BadLimit`, which comes after all others.
    pub fn finish(self) -> Result<Decls, DeclError>
        ensures { MatchResult result (λ d. IsFaultless self × IsWellFormedTable self × (d ≡ record self { declared_nodes = length self.trees })) (IsDeclError self) }
    {
        let alloc = *self.definitions.allocator();
        let held = all_held(alloc, self.definitions.as_slice(), &self.contents)?;
        if let Some(fault) = self.fault(held.as_slice()) {
            return Err(self.error(fault, held.as_slice()));
        }
        let impl_lists = listed_impls(alloc, &self.nodes, &self.contents)?;
        let DeclsBuilder {
            crates,
            local,
            limits,
            definitions,
            contents,
            nodes,
        } = self;
        Ok(Decls {
            crates,
            local,
            limits,
            definitions,
            contents,
            nodes,
            impl_lists,
        })
    }
}
