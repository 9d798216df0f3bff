//! What keeps two impls apart.

ghost use Rattle.std.specs.Prelude.{◌≡◌, None, IfOk, IfSome};
ghost use Rattle.candidate_rounds.specs.Table.Efforts.{IsEffort};
ghost use Rattle.examples.specs.Apart.{AreNotKeptApart, KeepsApart};

use candidate_ir::decl::contents::ImplId;
use candidate_ir::ir::stop::Stop;
use candidate_rounds::rounds::Rounds;
use candidate_rounds::rounds::effort::Effort;
use overlaps::overlap::{Overlap, WhereClause, impls_overlap};
use std::alloc::Global;

/// What keeps two impls of a trait apart.
#[derive(Clone, Copy, Debug, PartialEq, Eq)]
pub enum Reason {
    /// Their headers have no common instance.
    Headers,
    /// This where clause of one of them, where the headers are equal.
    Clause(WhereClause),
}

/// What keeps the two impls apart, by that effort for each where clause, if anything does.
///
/// After `Headers` no reference is an instance of both, whatever the aliases are that aren't listed. After `Clause` what that clause asks for
/// was refused, where the headers are equal: each declared impl that overlaps it was, but for `default` impls and those with an alias in
/// their header, of which nothing is said. And so was what it implies, or else no header without aliases overlaps it that a crate may write
/// which it doesn't name. An alias is equal to itself alone, unless it is listed or the evaluator opens aliases: a clause may be refused that
/// holds by the alias's type, and the impls overlap. Impls of two traits, and numbers that are none, are kept apart by nothing of these.
/// Where clauses decide in coherence alone. After `None` the two are of different traits, or their overlap is allowed, or each where clause of
/// both was asked and none is refused. It is the same whichever impl is given first. A stop is no answer.
pub fn kept_apart(
    alloc: Global,
    rounds: &mut Rounds,
    first: ImplId,
    second: ImplId,
    effort: Effort,
) -> Result<Option<Reason>, Stop>
    requires some { IsEffort effort }
    ensures apart { IfOk result (λ o. IfSome o (KeepsApart rounds.old rounds.new first second)) }
    ensures together { IfOk result (λ o. o ≡ None → AreNotKeptApart rounds.old rounds.new effort first second) }
{
    match impls_overlap(alloc, rounds, first, second, effort)? {
        Overlap::DisjointHeaders => Ok(Some(Reason::Headers)),
        Overlap::DisjointClause(clause) => Ok(Some(Reason::Clause(clause))),
        Overlap::NoCommonTrait | Overlap::Allowed(_) | Overlap::May(_) => Ok(None),
    }
}
