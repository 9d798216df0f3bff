//! What is wrong with declarations, each fault by itself.

ghost use Rattle.std.specs.Prelude.{◌≡◌, ◌==◌, count_by, length, slice_get, nat_le, option_copied};
ghost use Rattle.std.specs.List.{list_any};
ghost use Rattle.ir_trees.specs.Declarations.Context.{is_unknown, is_declared_trait, lacks_trait, has_wrong_arity};
ghost use Rattle.ir_trees.specs.Declarations.Declaring.{contents_of};
ghost use Rattle.ir_trees.specs.Validity.Faults.{impl_misnames, is_declared_item, is_wrong_value, has_wrong_value, item_misnames, unsizes_past, has_past_unsizing, unsizes_without_tail, lacks_tail, has_item_parameters, item_has_wrong_arity, all_items};
ghost use Rattle.ir_trees.specs.Declarations.Parameters.{kinds_of};

use ir_trees::decl::contents::{AdtContents, AssocValue, Contents, Impl, ImplId, LangItem};
use ir_trees::decl::definition::{AdtShape, AssocKind, Declaration, DefinitionKind, Parameters};
use ir_trees::ir::at::at;
use ir_trees::ir::kinds::{AssocId, TraitId};

/// Whether it is the number of a trait.
fn is_declared_trait(definitions: &[Declaration], number: TraitId) -> bool
    ensures { result ≡ is_declared_trait (slice_get definitions.now number.0) }
{
    match at(definitions, number.0 as usize) {
        Some(definition) => definition.is_trait(),
        None => false,
    }
}

fn any_is_past(impls: &[ImplId], count: usize) -> bool
    ensures { result ≡ list_any (λ j. nat_le count j.0) impls.now }
{
    impls.iter().any(|of| count <= of.0 as usize)
}

fn any_value_is_past(values: &[AssocValue], count: usize) -> bool
    ensures { result ≡ list_any (λ v. nat_le count v.assoc.0) values.now }
{
    values.iter().any(|value| count <= value.assoc.0 as usize)
}

/// Whether the impl is of a crate that wasn't added, of what is no trait, specialises what is no impl, or says what no definition is.
pub(crate) fn impl_misnames(
    crates: u32,
    definitions: &[Declaration],
    count: usize,
    of: &Impl,
) -> bool
    ensures { result ≡ impl_misnames crates definitions.now count of.now }
{
    of.krate.is_unknown(crates)
        || !is_declared_trait(definitions, of.trait_ref.def_id)
        || any_is_past(of.specializes.as_slice(), count)
        || any_value_is_past(of.values.as_slice(), definitions.len())
}

/// Whether the number is that of a type among the items of the trait.
fn is_declared_item(definitions: &[Declaration], of: TraitId, number: AssocId) -> bool
    ensures { result ≡ is_declared_item of (slice_get definitions.now number.0) }
{
    match at(definitions, number.0 as usize) {
        Some(definition) => match definition.kind {
            DefinitionKind::Assoc(owner, AssocKind::Type, _, _) => owner == of,
            _ => false,
        },
        None => false,
    }
}

/// How many of the values are of the associated type.
fn count_of(values: &[AssocValue], assoc: AssocId) -> usize
    ensures { result ≡ count_by (λ v. v.assoc.0 == assoc.0) values.now }
{
    let is_of = |value: &&AssocValue| value.assoc == assoc;
    values.iter().filter(is_of).count()
}

/// Whether the value is of what is no type among the trait's items, or not the only one of its item.
fn is_wrong_value(
    definitions: &[Declaration],
    of: TraitId,
    values: &[AssocValue],
    value: AssocValue,
) -> bool
    ensures { result ≡ is_wrong_value definitions.now of values.now value }
{
    !is_declared_item(definitions, of, value.assoc) || 1 < count_of(values, value.assoc)
}

pub(crate) fn has_wrong_value(definitions: &[Declaration], of: &Impl) -> bool
    ensures { result ≡ has_wrong_value definitions.now of.now }
{
    let values = of.values.as_slice();
    values.iter().any(|value| is_wrong_value(definitions, of.trait_ref.def_id, values, *value))
}

/// Whether some impl says of what is no type among its trait's items what it is, or says it twice of one.
pub(crate) fn any_has_wrong_value(definitions: &[Declaration], impls: &[Impl]) -> bool
    ensures { result ≡ list_any (has_wrong_value definitions.now) impls.now }
{
    impls.iter().any(|of| has_wrong_value(definitions, of))
}

fn item_misnames(definitions: &[Declaration], item: Option<TraitId>) -> bool
    ensures { result ≡ item_misnames definitions.now item }
{
    match item {
        Some(of) => !is_declared_trait(definitions, of),
        None => false,
    }
}

fn any_number_is_past(numbers: &[u32], count: usize) -> bool
    ensures { result ≡ list_any (λ i. nat_le count i) numbers.now }
{
    numbers.iter().any(|number| count <= *number as usize)
}

/// Whether one of the parameters that change where it is unsized isn't there.
fn has_past_unsizing(parameters: &Parameters, adt: Option<&AdtContents>) -> bool
    ensures { result ≡ has_past_unsizing (kinds_of parameters.now) (option_copied adt.entry) }
{
    match adt {
        Some(adt) => any_number_is_past(adt.unsizing.as_slice(), parameters.count()),
        None => false,
    }
}

pub(crate) fn unsizes_past(contents: &Contents, definition: &Declaration) -> bool
    ensures { result ≡ unsizes_past (contents_of contents.now) definition.now }
{
    match definition.kind {
        DefinitionKind::Adt(_, _, place) => {
            has_past_unsizing(
                &definition.parameters,
                at(contents.adts.as_slice(), place as usize),
            )
        }
        _ => false,
    }
}

fn unsizes_without_tail(shape: AdtShape, adt: Option<&AdtContents>) -> bool
    ensures { result ≡ unsizes_without_tail shape (option_copied adt.entry) }
{
    let Some(adt) = adt else { return false };
    !adt.unsizing.is_empty() && (!matches!(shape, AdtShape::Struct) || adt.fields.is_empty())
}

pub(crate) fn lacks_tail(contents: &Contents, kind: DefinitionKind) -> bool
    ensures { result ≡ lacks_tail (contents_of contents.now) kind }
{
    match kind {
        DefinitionKind::Adt(shape, _, place) => {
            unsizes_without_tail(shape, at(contents.adts.as_slice(), place as usize))
        }
        _ => false,
    }
}

fn definition_lacks_tail(contents: &Contents, definition: &Declaration) -> bool
    ensures { result ≡ lacks_tail (contents_of contents.now) definition.now.kind }
{
    lacks_tail(contents, definition.kind)
}

/// Whether some definition is of none of the first so many crates.
pub(crate) fn any_is_unknown(definitions: &[Declaration], crates: u32) -> bool
    ensures { result ≡ list_any (λ d. is_unknown crates d.crate) definitions.now }
{
    definitions
        .iter()
        .any(|definition| definition.krate().is_unknown(crates))
}

/// Whether some definition is an associated item of what is no trait among them.
pub(crate) fn any_lacks_trait(definitions: &[Declaration]) -> bool
    ensures { result ≡ list_any (λ d. lacks_trait definitions.now d.kind) definitions.now }
{
    definitions
        .iter()
        .any(|definition| definition.lacks_trait(definitions))
}

/// Whether some definition has parameters that its flags don't allow.
pub(crate) fn any_has_wrong_arity(definitions: &[Declaration]) -> bool
    ensures { result ≡ list_any (λ d. has_wrong_arity d.kind d.parameters) definitions.now }
{
    definitions
        .iter()
        .any(|definition| definition.has_wrong_arity())
}

/// Whether some impl misnames: a crate, its trait, what it specialises, or what it says a type of.
pub(crate) fn any_impl_misnames(crates: u32, definitions: &[Declaration], impls: &[Impl]) -> bool
    ensures { result ≡ list_any (impl_misnames crates definitions.now (length impls.now)) impls.now }
{
    impls
        .iter()
        .any(|of| impl_misnames(crates, definitions, impls.len(), of))
}

/// Whether some lang item is no trait.
pub(crate) fn any_item_misnames(definitions: &[Declaration], items: &[Option<TraitId>]) -> bool
    ensures { result ≡ list_any (item_misnames definitions.now) items.now }
{
    items.iter().any(|item| item_misnames(definitions, *item))
}

/// Whether some definition names a parameter that it doesn't have, as one that changes where it is unsized.
pub(crate) fn any_unsizes_past(definitions: &[Declaration], contents: &Contents) -> bool
    ensures { result ≡ list_any (unsizes_past (contents_of contents.now)) definitions.now }
{
    definitions
        .iter()
        .any(|definition| unsizes_past(contents, definition))
}

/// Whether some definition changes where it is unsized, and isn't a struct with a field.
pub(crate) fn any_lacks_tail(definitions: &[Declaration], contents: &Contents) -> bool
    ensures { result ≡ list_any (λ d. lacks_tail (contents_of contents.now) d.kind) definitions.now }
{
    definitions
        .iter()
        .any(|definition| definition_lacks_tail(contents, definition))
}

/// Whether the trait that is the lang item has other parameters than the item has.
fn item_has_wrong_arity(
    definitions: &[Declaration],
    items: &[Option<TraitId>; 16],
    item: LangItem,
) -> bool
    ensures { result ≡ item_has_wrong_arity definitions.now items.now item }
{
    let Some(of) = items[item.number()] else {
        return false;
    };
    match at(definitions, of.0 as usize) {
        Some(definition) => !has_item_parameters(item, &definition.parameters),
        None => false,
    }
}

fn has_item_parameters(item: LangItem, parameters: &Parameters) -> bool
    ensures { result ≡ has_item_parameters item (kinds_of parameters.now) }
{
    if item.takes_a_type() {
        parameters.count() == 1 && parameters.begins_with_type()
    } else {
        parameters.is_empty()
    }
}

/// Whether some lang item's trait has other parameters than the item has.
pub(crate) fn any_item_has_wrong_arity(
    definitions: &[Declaration],
    items: &[Option<TraitId>; 16],
) -> bool
    ensures { result ≡ list_any (item_has_wrong_arity definitions.now items.now) all_items }
{
    LangItem::ALL
        .iter()
        .any(|item| item_has_wrong_arity(definitions, items, *item))
}
