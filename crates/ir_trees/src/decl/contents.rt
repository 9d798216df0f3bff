//! What definitions hold besides their parameters and flags, and the impls.

ghost use Rattle.std.specs.Prelude.{◌≡◌, [], None, false};
ghost use Rattle.ir_trees.specs.Declarations.Contents as seen;
ghost use Rattle.ir_trees.specs.Declarations.Declaring.{place, adt_place, trait_place, bounds_place, bare_impl, no_bounds, nothing, contents_of, item_number, takes_a_type};
ghost use Rattle.ir_trees.specs.Declarations.Lookups.{value_of};
ghost use Rattle.ir_trees.specs.Declarations.Parameters.{kinds_of};

use crate::decl::definition::{AssocKind, CrateId, Declaration, DefinitionKind, Parameters};
use crate::ir::at::at;
use crate::ir::kinds::{AdtId, AliasId, AssocId, Clause, TraitId, TraitRef, Ty};
use std::alloc::Global;
use std::marker::Model;

/// An impl of a trait, numbered from 0 in the order in which impls are added.
#[derive(Clone, Copy, Debug, PartialEq, Eq)]
pub struct ImplId(pub u32);

/// The two traits that say whether a type's size is known.
#[derive(Clone, Copy)]
pub enum Sizedness {
    /// When the program is compiled.
    Sized,
    /// From a pointer's metadata at the latest.
    MetaSized,
}

/// How a type is dropped that has a destructor of its own.
#[derive(Clone, Copy)]
pub enum Destructor {
    /// Only where the program runs.
    NotConst,
    /// Where a constant is computed, too.
    Const,
}

/// Which bounds of an alias a bound is among.
#[derive(Clone, Copy, Debug, PartialEq, Eq)]
pub enum AliasBoundKind {
    /// Those of the alias itself.
    SelfBounds,
    /// Those of the alias that this one is a projection of.
    NonSelfBounds,
}

/// What an impl says of its trait.
#[derive(Clone, Copy)]
pub enum ImplPolarity {
    /// The trait holds.
    Positive,
    /// The trait doesn't hold, for good.
    Negative,
    /// Whether it holds is left open.
    Reservation,
}

/// A trait that the language itself knows.
#[derive(Clone, Copy)]
pub enum LangItem {
    Sized,
    MetaSized,
    Copy,
    Clone,
    TrivialClone,
    Fn,
    FnMut,
    FnOnce,
    FnPtrTrait,
    Tuple,
    PointeeTrait,
    DiscriminantKind,
    Destruct,
    Drop,
    BikeshedGuaranteedNoDrop,
    Unsize,
}

impl LangItem {
    /// All of them, in their order.
    pub const ALL: [LangItem; 16] = [
        LangItem::Sized,
        LangItem::MetaSized,
        LangItem::Copy,
        LangItem::Clone,
        LangItem::TrivialClone,
        LangItem::Fn,
        LangItem::FnMut,
        LangItem::FnOnce,
        LangItem::FnPtrTrait,
        LangItem::Tuple,
        LangItem::PointeeTrait,
        LangItem::DiscriminantKind,
        LangItem::Destruct,
        LangItem::Drop,
        LangItem::BikeshedGuaranteedNoDrop,
        LangItem::Unsize,
    ];

    /// Whether its trait has one parameter after `Self`, a type; those of the others have none.
    pub fn takes_a_type(self) -> bool
        ensures { result ≡ takes_a_type self }
    {
        matches!(
            self,
            LangItem::Fn | LangItem::FnMut | LangItem::FnOnce | LangItem::Unsize
        )
    }

    /// The place of the item in the list of those that are declared, from 0 on.
    pub fn number(self) -> usize
        ensures { result ≡ item_number self }
    {
        self as usize
    }
}

/// What an algebraic data type holds.
#[derive(Drop)]
pub struct AdtContents {
    pub fields: Vec<Ty>,
    /// The types that have to be sized for it to be.
    pub sized: Option<Ty>,
    pub meta_sized: Option<Ty>,
    pub destructor: Option<Destructor>,
    /// The parameters that change where it is unsized, by their numbers.
    pub unsizing: Vec<u32>,
}

impl Model for AdtContents {
    ghost use Rattle.ir_trees.specs.Declarations.Contents as seen;

    ghost Value = { seen.AdtContents };

    ghost view = { λ a. record { fields = a.fields.items; sized = a.sized; meta_sized = a.meta_sized; destructor = a.destructor; unsizing = a.unsizing.items } };
}

/// What a trait holds.
#[derive(Drop)]
pub struct TraitContents {
    pub supers: Vec<Clause>,
    pub wheres: Vec<Clause>,
    pub items: Vec<AssocId>,
    pub impls: Vec<ImplId>,
}

impl Model for TraitContents {
    ghost use Rattle.ir_trees.specs.Declarations.Contents as seen;

    ghost Value = { seen.TraitContents };

    ghost view = { λ t. record { supers = t.supers.items; wheres = t.wheres.items; items = t.items.items; impls = t.impls.items } };
}

/// The bounds of an associated type or of an opaque type.
#[derive(Drop)]
pub struct Bounds {
    pub self_bounds: Vec<Clause>,
    pub non_self_bounds: Vec<Clause>,
}

impl Model for Bounds {
    ghost use Rattle.ir_trees.specs.Declarations.Contents as seen;

    ghost Value = { seen.Bounds };

    ghost view = { λ b. record { self_bounds = b.self_bounds.items; non_self_bounds = b.non_self_bounds.items } };
}

/// What an impl says that an associated type is.
#[derive(Clone, Copy)]
pub struct AssocValue {
    pub assoc: AssocId,
    pub ty: Ty,
}

/// An impl as it was declared.
#[derive(Drop)]
pub struct Impl {
    pub krate: CrateId,
    pub parameters: Parameters,
    pub trait_ref: TraitRef,
    pub polarity: ImplPolarity,
    pub is_default: bool,
    pub wheres: Vec<Clause>,
    pub super_outlives: Vec<Clause>,
    /// The impls that it specialises.
    pub specializes: Vec<ImplId>,
    /// What the associated types of its trait are.
    pub values: Vec<AssocValue>,
}

impl Model for Impl {
    ghost use Rattle.ir_trees.specs.Declarations.Contents as seen;
    ghost use Rattle.ir_trees.specs.Declarations.Parameters.{kinds_of};

    ghost Value = { seen.Impl };

    ghost view = { λ i. record { crate = i.krate; parameters = kinds_of i.parameters; trait_ref = i.trait_ref; polarity = i.polarity; is_default = i.is_default; wheres = i.wheres.items; super_outlives = i.super_outlives.items; specializes = i.specializes.items; values = i.values.items } };
}

/// The contents of all definitions, each sort by itself, and the impls.
#[derive(Drop)]
pub struct Contents {
    pub adts: Vec<AdtContents>,
    pub traits: Vec<TraitContents>,
    pub bounds: Vec<Bounds>,
    pub impls: Vec<Impl>,
    /// The trait that is each lang item.
    pub lang_items: [Option<TraitId>; 16],
    /// Whether a call has named what was never given.
    pub misnamed: bool,
}

impl AdtContents {
    /// No field, no constraint and no destructor.
    pub fn new(alloc: Global) -> Self
        ensures { result ≡ record { fields = []; sized = None; meta_sized = None; destructor = None; unsizing = [] } }
    {
        AdtContents {
            fields: Vec::new(alloc),
            sized: None,
            meta_sized: None,
            destructor: None,
            unsizing: Vec::new(alloc),
        }
    }
}

impl TraitContents {
    /// No clause, no item and no impl.
    pub fn new(alloc: Global) -> Self
        ensures { result ≡ record { supers = []; wheres = []; items = []; impls = [] } }
    {
        TraitContents {
            supers: Vec::new(alloc),
            wheres: Vec::new(alloc),
            items: Vec::new(alloc),
            impls: Vec::new(alloc),
        }
    }
}

impl Bounds {
    /// No bound, on the alias itself or on others.
    pub fn new(alloc: Global) -> Self
        ensures { result ≡ no_bounds }
    {
        Bounds {
            self_bounds: Vec::new(alloc),
            non_self_bounds: Vec::new(alloc),
        }
    }
}

impl Impl {
    /// An impl of that header of which nothing else is said: it has no where clause and no value, and specialises none.
    pub fn new(
        alloc: Global,
        krate: CrateId,
        parameters: Parameters,
        trait_ref: TraitRef,
        polarity: ImplPolarity,
    ) -> Self
        ensures { result ≡ bare_impl krate (kinds_of parameters) trait_ref polarity }
    {
        Impl {
            krate,
            parameters,
            trait_ref,
            polarity,
            is_default: false,
            wheres: Vec::new(alloc),
            super_outlives: Vec::new(alloc),
            specializes: Vec::new(alloc),
            values: Vec::new(alloc),
        }
    }

    /// What it says that the associated type is, if it says so.
    pub fn value(&self, assoc: AssocId) -> Option<Ty>
        ensures { result ≡ value_of assoc self.now }
    {
        let value = self.values.iter().find(|value| value.assoc == assoc)?;
        Some(value.ty)
    }
}

impl Contents {
    /// What declarations hold before the first: nothing.
    pub fn new(alloc: Global) -> Self
        ensures { contents_of result ≡ nothing }
    {
        Contents {
            adts: Vec::new(alloc),
            traits: Vec::new(alloc),
            bounds: Vec::new(alloc),
            impls: Vec::new(alloc),
            lang_items: [None; 16],
            misnamed: false,
        }
    }
}

/// The place of what has no contents of the sort asked for; no list is so long.
const NO_PLACE: usize = usize::MAX;

/// Where the contents of the algebraic data type stand.
pub fn adt_place(definitions: &[Declaration], adt: AdtId) -> usize
    ensures { result ≡ place adt_place definitions.now adt.0 }
{
    match at(definitions, adt.0 as usize) {
        Some(definition) => match definition.kind {
            DefinitionKind::Adt(_, _, place) => place as usize,
            _ => NO_PLACE,
        },
        None => NO_PLACE,
    }
}

/// Where the contents of the trait stand.
pub fn trait_place(definitions: &[Declaration], of: TraitId) -> usize
    ensures { result ≡ place trait_place definitions.now of.0 }
{
    match at(definitions, of.0 as usize) {
        Some(definition) => match definition.kind {
            DefinitionKind::Trait(_, place) => place as usize,
            _ => NO_PLACE,
        },
        None => NO_PLACE,
    }
}

/// Where the bounds of the associated type or of the opaque type stand.
pub fn bounds_place(definitions: &[Declaration], alias: AliasId) -> usize
    ensures { result ≡ place bounds_place definitions.now alias.0 }
{
    match at(definitions, alias.0 as usize) {
        Some(definition) => match definition.kind {
            DefinitionKind::Assoc(_, AssocKind::Type, _, place) => place as usize,
            DefinitionKind::Opaque(_, place) => place as usize,
            _ => NO_PLACE,
        },
        None => NO_PLACE,
    }
}
