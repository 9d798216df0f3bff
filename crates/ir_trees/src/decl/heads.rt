//! The impls of traits, listed by the heads of the types that they are for.

ghost use Rattle.std.specs.Prelude.{◌≡◌, ◌++◌, ◌∷◌, [], ◌&&◌, ◌==◌, IfOk, OnOk, MatchOption, None, Some, if◌then◌else◌, map, slice_get};
ghost use Rattle.ir_trees.specs.Declarations.Contents as seen;
ghost use Rattle.ir_trees.specs.Syntax.Words.{IsTy, ty_tree};
ghost use Rattle.ir_trees.specs.Unification.ImplClasses.{comes_first, is_in, joined};
ghost use Rattle.ir_trees.specs.Unification.Impls.{self_type};
ghost use Rattle.ir_trees.specs.Unification.ImplLists.{AreListed, listed_among, listed_at, same_list};
ghost use Rattle.ir_trees.specs.declared.decl.heads.ImplList.{ImplList};

use crate::decl::contents::{Contents, Impl, ImplId};
use crate::decl::misplaced::is_args;
use crate::ir::at::at;
use crate::ir::classes::ImplClass;
use crate::ir::heads::Head;
use crate::ir::kinds::{GenericArg, Ty};
use crate::ir::nodes::Nodes;
use crate::ir::trees::Trees;
use indexmap::IndexMap;
use std::alloc::{AllocError, Global};

/// One list: the place of its trait among the traits, and what its impls are for.
#[derive(Clone, Copy, PartialEq, Eq, Hash)]
pub struct ImplList {
    pub of: usize,
    pub class: ImplClass,
}

/// The type that the impl is for: the first of its header's arguments.
#[tactic(auto, using(crate::proofs::Unification::Impls::empty_header, crate::proofs::Unification::Impls::no_list, crate::proofs::Unification::Impls::header_kind, crate::proofs::Unification::Impls::header_type, crate::proofs::Unification::Impls::header_constant, crate::proofs::Unification::Impls::header_region))]
pub fn impl_self_ty(nodes: &Nodes, impls: &[Impl], of: ImplId) -> Option<Ty>
    ensures { MatchOption result (self_type nodes.now (slice_get impls.now of.0) ≡ None) (λ t. IsTy nodes.now t × (self_type nodes.now (slice_get impls.now of.0) ≡ Some (ty_tree nodes.now t))) }
{
    let trait_ref = at(impls, of.0 as usize)?.trait_ref;
    if !is_args(nodes, trait_ref.args) {
        return None;
    }
    match *nodes.args(trait_ref.args).first()? {
        GenericArg::Ty(ty) => Some(ty),
        GenericArg::Const(_) | GenericArg::Region(_) => None,
    }
}

/// Adds an impl to a list, with its place among the impls of its trait.
fn push_place(
    alloc: Global,
    lists: &mut IndexMap<ImplList, Vec<(usize, ImplId)>>,
    list: ImplList,
    impl_id: (usize, ImplId),
) -> Result<(), AllocError>
    ensures { OnOk result ((l : ImplList) → listed_at lists.new l ≡ (if same_list list l then listed_at lists.old l ++ impl_id ∷ [] else listed_at lists.old l)) }
{
    let listed = lists.entry(list)?.or_insert(Vec::new(alloc));
    listed.push(impl_id)?;
    Ok(())
}

/// Adds an impl of the trait in that place to each list that it belongs to.
fn list_impl(
    alloc: Global,
    lists: &mut IndexMap<ImplList, Vec<(usize, ImplId)>>,
    of: usize,
    head: Head,
    impl_id: (usize, ImplId),
) -> Result<(), AllocError>
    ensures { OnOk result ((l : ImplList) → listed_at lists.new l ≡ (if of == l.of && is_in l.class head then listed_at lists.old l ++ impl_id ∷ [] else listed_at lists.old l)) }
{
    let class = head.class();
    push_place(alloc, lists, ImplList { of, class }, impl_id)?;
    match head.number_class() {
        Some(class) => push_place(alloc, lists, ImplList { of, class }, impl_id),
        None => Ok(()),
    }
}

/// Lists the impls of the trait in that place.
fn list_own(
    alloc: Global,
    lists: &mut IndexMap<ImplList, Vec<(usize, ImplId)>>,
    nodes: &Nodes,
    impls: &[Impl],
    of: usize,
    own: &[ImplId],
) -> Result<(), AllocError>
    ensures { OnOk result ((l : ImplList) → listed_at lists.new l ≡ (if of == l.of then listed_at lists.old l ++ listed_among nodes.now impls.now own.now l else listed_at lists.old l)) }
{
    for place in 0..own.len() {
        let impl_id = own[place];
        if let Some(ty) = impl_self_ty(nodes, impls, impl_id) {
            list_impl(alloc, lists, of, nodes.head(ty.0), (place, impl_id))?;
        }
    }
    Ok(())
}

/// The lists of all impls.
pub fn listed_impls(
    alloc: Global,
    nodes: &Nodes,
    contents: &Contents,
) -> Result<IndexMap<ImplList, Vec<(usize, ImplId)>>, AllocError>
    ensures { IfOk result (λ m. AreListed m nodes.now contents.now.traits.items contents.now.impls.items) }
{
    let mut lists = IndexMap::new(alloc);
    let impls = contents.impls.as_slice();
    for of in 0..contents.traits.len() {
        list_own(
            alloc,
            &mut lists,
            nodes,
            impls,
            of,
            contents.traits[of].impls.as_slice(),
        )?;
    }
    Ok(lists)
}

/// Whether the one in its place in the first list comes before the one in its place in the second.
fn comes_first(
    first: &[(usize, ImplId)],
    taken: usize,
    second: &[(usize, ImplId)],
    passed: usize,
) -> bool
    ensures { result ≡ comes_first (slice_get first.now taken) (slice_get second.now passed) }
{
    match (at(first, taken), at(second, passed)) {
        (Some((own, _)), Some((others, _))) => own < others,
        (next, _) => next.is_some(),
    }
}

/// The impls of two lists in the order of their places.
pub fn join(
    alloc: Global,
    first: &[(usize, ImplId)],
    second: &[(usize, ImplId)],
) -> Result<Vec<ImplId>, AllocError>
    ensures { IfOk result (λ v. v.items ≡ map (λ x. x.1) (joined first.now second.now)) }
{
    let mut joined = Vec::with_capacity(alloc, first.len() + second.len())?;
    let mut taken = 0;
    let mut passed = 0;
    while taken < first.len() || passed < second.len() {
        if comes_first(first, taken, second, passed) {
            joined.push_reserved(first[taken].1);
            taken += 1;
        } else {
            joined.push_reserved(second[passed].1);
            passed += 1;
        }
    }
    Ok(joined)
}
