//! Whose content has a fault of declarations.

ghost use Rattle.std.specs.Prelude.{◌≡◌, ◌⊎◌, false, None, slice_get, MatchOption};
ghost use Rattle.std.specs.List.{position};
ghost use Rattle.ir_trees.specs.Declarations.Context.{world};
ghost use Rattle.ir_trees.specs.Validity.Faults.{all_that_is_held, ImplsFit, IsLowestFault};
ghost use Rattle.ir_trees.specs.Validity.Misplaced.{is_not_given, held_misplaces};
ghost use Rattle.ir_builder.specs.Validity.Places.{definition_has, definition_part, node_has, part_has, impl_has, is_same_owner, own_place, place_of_part, fault_place, memory_error, IsUnfit, IsOtherPlace, IsDeclError};

use crate::decl::builder::DeclsBuilder;
use crate::decl::faults::{has_wrong_value, impl_misnames, lacks_tail, unsizes_past};
use crate::decl::supers::{first_no_super, has_wrong_super};
use ir_trees::decl::arity::first_unfit;
use ir_trees::decl::contents::Impl;
use ir_trees::decl::definition::Declaration;
use ir_trees::decl::fault::DeclFault;
use ir_trees::decl::held::{Held, Owner};
use ir_trees::decl::misplaced::{Misplaced, held_escapes, held_misplaces, is_not_given};
use ir_trees::ir::at::at;
use std::alloc::{AllocError, AllocFailed};
use std::fmt;

/// Whose content has a fault.
#[derive(Clone, Copy, Debug, PartialEq, Eq)]
pub struct FaultPlace {
    /// The definition or the impl.
    pub owner: Owner,
    /// The number, from 0 on, of what it holds that has the fault; `None` where it has the fault itself.
    ///
    /// A data type holds its fields, and then the types that are to be `Sized` and `MetaSized` where it is; a trait its super clauses, and
    /// then its where clauses; an associated item its bounds, those of itself first; an opaque type its hidden type, and then such bounds;
    /// a function its binder, inputs and output; an impl the arguments of its header, its where clauses, its outlives clauses, and the
    /// types that it says its trait's associated types to be.
    pub part: Option<usize>,
}

/// Why `finish` refused declarations.
#[derive(Clone, Copy, Debug, PartialEq, Eq)]
pub struct DeclError {
    /// The fault with the lowest number.
    pub fault: DeclFault,
    /// Whose content has it: the first definition that has it itself, else the first of what definitions and impls hold, else the first impl.
    /// `None` where it is of none of them: a node's that a declaration may use or not, a lang item's, a limit's, of a crate or a number that
    /// a call named, of several traits that are supertraits of one another, or a refused growth.
    pub place: Option<FaultPlace>,
}

impl From<AllocError> for DeclError {
    ghost from_gives = { λ _ e. e ≡ memory_error };

    fn from(_: AllocError) -> Self {
        DeclError::without_place(DeclFault::Memory)
    }
}

impl<T: Drop> From<AllocFailed<T>> for DeclError {
    ghost from_gives = { λ _ e. e ≡ memory_error };

    fn from(_: AllocFailed<T>) -> Self {
        DeclError::without_place(DeclFault::Memory)
    }
}

impl From<DeclError> for DeclFault {
    ghost from_gives = { λ e f. f ≡ e.fault };

    fn from(error: DeclError) -> Self {
        error.fault
    }
}

/// The fault, in words.
impl fmt::Display for DeclError {
    fn fmt<W: fmt::Write>(&self, f: &mut fmt::Formatter<W>) -> fmt::Result {
        fmt::Display::fmt(&self.fault, f)
    }
}

impl DeclError {
    fn without_place(fault: DeclFault) -> Self
        ensures { result ≡ record { fault = fault; place = None } }
    {
        DeclError { fault, place: None }
    }
}

/// Whether the owners are the same.
fn is_same(owner: Owner, other: Owner) -> bool
    ensures { result ≡ is_same_owner owner other }
{
    match owner {
        Owner::Definition(number) => match other {
            Owner::Definition(other) => number == other,
            Owner::Impl(_) => false,
        },
        Owner::Impl(number) => match other {
            Owner::Definition(_) => false,
            Owner::Impl(other) => number == other,
        },
    }
}

/// The definition or the impl itself.
fn place_itself(owner: Owner) -> FaultPlace
    ensures { result ≡ own_place owner }
{
    FaultPlace { owner, part: None }
}

/// The number of the first thing that the owner holds, among all that is held.
fn first_of(held: &[Held], owner: Owner) -> Option<usize>
    ensures { result ≡ position (λ x. is_same_owner x.owner owner) held.now }
{
    held.iter().position(|held| is_same(held.owner, owner))
}

/// Where that is of which the number among all that is held is this.
fn place_of_part(held: &[Held], number: usize) -> Option<FaultPlace>
    ensures { result ≡ place_of_part held.now number (slice_get held.now number) }
{
    let owner = at(held, number)?.owner;
    let first = first_of(held, owner)?;
    Some(FaultPlace {
        owner,
        part: Some(number.saturating_sub(first)),
    })
}

impl DeclsBuilder {
    /// Whether the definition has the fault by what it is said to be, or by a super clause.
    fn definition_has(&self, fault: DeclFault, definition: &Declaration) -> bool
        ensures { result ≡ definition_has self.now fault definition.now }
    {
        match fault {
            DeclFault::UnknownId => {
                definition.krate().is_unknown(self.crates)
                    || definition.lacks_trait(self.definitions.as_slice())
            }
            DeclFault::WrongArity => {
                definition.has_wrong_arity() || unsizes_past(&self.contents, definition)
            }
            DeclFault::WrongKind => {
                has_wrong_super(&self.nodes, &self.contents, definition.kind())
            }
            DeclFault::NoTail => lacks_tail(&self.contents, definition.kind()),
            _ => false,
        }
    }

    fn misplaces(&self, what: Misplaced, held: Held) -> bool
        requires { is_not_given self.now.trees held ≡ false }
        ensures { result ≡ held_misplaces what self.now.trees self.now.declarations self.now.contents.impls held }
    {
        let definitions = self.definitions.as_slice();
        let impls = self.contents.impls.as_slice();
        held_misplaces(&self.nodes, definitions, impls, what, held)
    }

    /// Whether what is held has the fault, where it is a node of its sort.
    fn node_has(&self, fault: DeclFault, held: Held) -> bool
        requires { is_not_given self.now.trees held ≡ false }
        ensures { result ≡ node_has self.now fault held }
    {
        match fault {
            DeclFault::WrongArity => self.misplaces(Misplaced::Past, held),
            DeclFault::WrongKind => {
                self.misplaces(Misplaced::Stray, held) || held_escapes(&self.nodes, held)
            }
            _ => false,
        }
    }

    /// Whether what is held has the fault.
    fn part_has(&self, fault: DeclFault, held: Held) -> bool
        ensures { result ≡ part_has self.now fault held }
    {
        if is_not_given(&self.nodes, held) {
            return matches!(fault, DeclFault::UnknownId);
        }
        self.node_has(fault, held)
    }

    /// Whether the impl has the fault by what it is said to be, or by what it says that associated types are.
    fn impl_has(&self, fault: DeclFault, of: &Impl) -> bool
        ensures { result ≡ impl_has self.now fault of.now }
    {
        let definitions = self.definitions.as_slice();
        match fault {
            DeclFault::UnknownId => {
                impl_misnames(self.crates, definitions, self.contents.impls.len(), of)
            }
            DeclFault::WrongKind => has_wrong_value(definitions, of),
            _ => false,
        }
    }

    fn faulty_definition(&self, fault: DeclFault) -> Option<usize>
        ensures { result ≡ position (definition_has self.now fault) self.now.declarations }
    {
        self.definitions
            .iter()
            .position(|definition| self.definition_has(fault, definition))
    }

    fn faulty_part(&self, fault: DeclFault, held: &[Held]) -> Option<usize>
        ensures { result ≡ position (part_has self.now fault) held.now }
    {
        held.iter().position(|held| self.part_has(fault, *held))
    }

    fn faulty_impl(&self, fault: DeclFault) -> Option<usize>
        ensures { result ≡ position (impl_has self.now fault) self.now.contents.impls }
    {
        self.contents
            .impls
            .iter()
            .position(|of| self.impl_has(fault, of))
    }

    /// The number of the super clause that is at fault, if one is.
    fn definition_part(&self, fault: DeclFault, number: usize) -> Option<usize>
        ensures { result ≡ definition_part self.now fault (slice_get self.now.declarations number) }
    {
        let definition = at(self.definitions.as_slice(), number)?;
        match fault {
            DeclFault::WrongKind => {
                first_no_super(&self.nodes, &self.contents, definition.kind())
            }
            _ => None,
        }
    }

    /// Whose content has the fault: the first definition's, else the first of what is held, else the first impl's.
    fn fault_place(&self, fault: DeclFault, held: &[Held]) -> Option<FaultPlace>
        requires { held.now ≡ all_that_is_held self.now }
        ensures { result ≡ fault_place self.now fault }
    {
        if let Some(number) = self.faulty_definition(fault) {
            return Some(FaultPlace {
                owner: Owner::Definition(number),
                part: self.definition_part(fault, number),
            });
        }
        if let Some(number) = self.faulty_part(fault, held) {
            return place_of_part(held, number);
        }
        let number = self.faulty_impl(fault)?;
        Some(place_itself(Owner::Impl(number)))
    }

    /// The first impl whose header's arguments aren't those that its trait takes.
    fn unfit_impl(&self) -> Option<FaultPlace>
        ensures { MatchOption result (ImplsFit (world self.now) self.now.trees self.now.contents.impls) (IsUnfit self.now) }
    {
        let definitions = self.definitions.as_slice();
        let number = first_unfit(definitions, &self.nodes, self.contents.impls.as_slice())?;
        Some(place_itself(Owner::Impl(number)))
    }

    /// Whose content has the fault, where it is that of none in the order above.
    fn other_place(&self, fault: DeclFault) -> Option<FaultPlace>
        ensures { IsOtherPlace self.now fault result }
    {
        match fault {
            DeclFault::WrongArity => self.unfit_impl(),
            _ => None,
        }
    }

    /// The error that the fault is.
    #[tactic(auto, using(crate::proofs::Validity::Places::refused_growth, crate::proofs::Validity::Places::placed, crate::proofs::Validity::Places::otherwise_placed))]
    pub(crate) fn error(&self, fault: DeclFault, held: &[Held]) -> DeclError
        requires held { held.now ≡ all_that_is_held self.now }
        requires fault { (fault ≡ DeclFault.Memory) ⊎ IsLowestFault self.now fault }
        ensures { IsDeclError self.now result }
    {
        if matches!(fault, DeclFault::Memory) {
            return DeclError::without_place(fault);
        }
        match self.fault_place(fault, held) {
            Some(place) => DeclError {
                fault,
                place: Some(place),
            },
            None => DeclError {
                fault,
                place: self.other_place(fault),
            },
        }
    }
}
