//! Which clauses may be a trait's super clauses.

ghost use Rattle.std.specs.Prelude.{◌≡◌, ◌<◌, None, Some, MatchOption, length, option_copied};
ghost use Rattle.std.specs.List.{list_any, position};
ghost use Rattle.ir_trees.specs.Declarations.Declaring.{contents_of};
ghost use Rattle.ir_trees.specs.Syntax.Nodes.{tree_at};
ghost use Rattle.ir_trees.specs.Hierarchy.Supers.{first_head, subject, is_self, says_of_type, is_super_clause, supers_at, supers_of, is_no_super, has_wrong_super};
ghost use Rattle.ir_trees.specs.Syntax.Words.{IsArgs, ClauseFits, args_forest, clause_kind_tree};

use ir_trees::decl::contents::{Contents, TraitContents};
use ir_trees::decl::definition::{Declaration, DefinitionKind};
use ir_trees::decl::misplaced::is_clause;
use ir_trees::ir::at::at;
use ir_trees::ir::heads::{ClauseHead, Head};
use ir_trees::ir::kinds::{Args, Binder, Clause, ClauseKind, PredicatePolarity};
use ir_trees::ir::nodes::Nodes;
use ir_trees::ir::numbered::Numbered;
use ir_trees::ir::trees::Trees;

/// The number of the first member of a list.
#[tactic(auto, using(crate::proofs::Hierarchy::Supers::no_first, crate::proofs::Hierarchy::Supers::first_of))]
fn first(nodes: &Nodes, args: Args) -> Option<u32>
    requires { IsArgs nodes.now args }
    ensures { MatchOption result (first_head (args_forest nodes.now args) ≡ None) (λ n. (n < length nodes.now) × (first_head (args_forest nodes.now args) ≡ Some (tree_at nodes.now n).head)) }
{
    let list = nodes.args(args);
    if list.is_empty() {
        return None;
    }
    Some(list[0].number())
}

/// The number of what a clause is about.
#[tactic(auto, using(crate::proofs::Hierarchy::Supers::trait_subject, crate::proofs::Hierarchy::Supers::no_trait_subject, crate::proofs::Hierarchy::Supers::projection_subject))]
fn subject(nodes: &Nodes, clause: Binder<ClauseKind>) -> Option<u32>
    requires { ClauseFits nodes.now clause }
    ensures { MatchOption result (subject (clause_kind_tree nodes.now clause) ≡ None) (λ n. (n < length nodes.now) × (subject (clause_kind_tree nodes.now clause) ≡ Some (tree_at nodes.now n).head)) }
{
    match clause.value {
        ClauseKind::Trait(predicate) => match first(nodes, predicate.trait_ref.args) {
            Some(number) => Some(number),
            None => None,
        },
        ClauseKind::Projection(predicate) => {
            match first(nodes, predicate.projection_term.args) {
                Some(number) => Some(number),
                None => Some(predicate.term.0),
            }
        }
        ClauseKind::TypeOutlives(ty, _) => Some(ty.0),
        ClauseKind::RegionOutlives(region, _) => Some(region.0),
        ClauseKind::AliasRelate(left, _) => Some(left.0),
        ClauseKind::ConstEquate(left, _) => Some(left.0),
    }
}

/// Whether it says that a trait holds, that an associated type is a type, or that a type outlives a region.
fn says_of_type(head: ClauseHead) -> bool
    ensures { result ≡ says_of_type head }
{
    match head {
        ClauseHead::Trait(_, polarity) => matches!(polarity, PredicatePolarity::Positive),
        ClauseHead::Projection(_) => true,
        ClauseHead::TypeOutlives => true,
        ClauseHead::RegionOutlives => false,
        ClauseHead::AliasRelate => false,
        ClauseHead::ConstEquate => false,
    }
}

fn is_self(head: Head) -> bool
    ensures { result ≡ is_self (Some head) }
{
    match head {
        Head::Param(index) => index == 0,
        _ => false,
    }
}

/// Whether the clause may be a super clause: it says one of these, about `Self`.
#[tactic(auto, using(crate::proofs::Hierarchy::Supers::not_super, crate::proofs::Hierarchy::Supers::says_else, crate::proofs::Hierarchy::Supers::says_of_self, crate::proofs::Hierarchy::Supers::says_of_nothing))]
fn is_super_clause(nodes: &Nodes, clause: Clause) -> bool
    ensures { result ≡ is_super_clause (tree_at nodes.now clause.0) }
{
    if !is_clause(nodes, clause) {
        return false;
    }
    let binder = nodes.clause(clause);
    if !says_of_type(binder.head()) {
        return false;
    }
    match subject(nodes, binder) {
        Some(number) => is_self(nodes.head(number)),
        None => false,
    }
}

fn is_no_super(nodes: &Nodes, clause: Clause) -> bool
    ensures { result ≡ is_no_super nodes.now clause }
{
    !is_super_clause(nodes, clause)
}

/// The number of the first super clause that says something else, or of something else.
pub(crate) fn first_no_super(
    nodes: &Nodes,
    contents: &Contents,
    kind: DefinitionKind,
) -> Option<usize>
    ensures { result ≡ position (is_no_super nodes.now) (supers_of (contents_of contents.now) kind) }
{
    let DefinitionKind::Trait(_, place) = kind else {
        return None;
    };
    let of = at(contents.traits.as_slice(), place as usize)?;
    of.supers
        .iter()
        .position(|clause| is_no_super(nodes, *clause))
}

fn any_is_no_super(nodes: &Nodes, of: Option<&TraitContents>) -> bool
    ensures { result ≡ list_any (is_no_super nodes.now) (supers_at (option_copied of.entry)) }
{
    match of {
        Some(of) => clauses_have_no_super(nodes, of.supers.as_slice()),
        None => false,
    }
}

fn clauses_have_no_super(nodes: &Nodes, clauses: &[Clause]) -> bool
    ensures { result ≡ list_any (is_no_super nodes.now) clauses.now }
{
    clauses.iter().any(|clause| is_no_super(nodes, *clause))
}

pub(crate) fn has_wrong_super(nodes: &Nodes, contents: &Contents, kind: DefinitionKind) -> bool
    ensures { result ≡ has_wrong_super nodes.now (contents_of contents.now) kind }
{
    match kind {
        DefinitionKind::Trait(_, place) => {
            any_is_no_super(nodes, at(contents.traits.as_slice(), place as usize))
        }
        _ => false,
    }
}

/// Whether some trait has a super clause that says something else, or of something else.
pub(crate) fn any_has_wrong_super(
    nodes: &Nodes,
    definitions: &[Declaration],
    contents: &Contents,
) -> bool
    ensures { result ≡ list_any (λ d. has_wrong_super nodes.now (contents_of contents.now) d.kind) definitions.now }
{
    definitions.iter().any(|definition| has_wrong_super(nodes, contents, definition.kind()))
}
