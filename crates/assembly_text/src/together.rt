//! What is said of two impls that may overlap: whether what their where clauses say keeps them apart, all together or one of them alone.

ghost use Rattle.std.specs.Prelude.{◌≡◌, ◌<◌, None, Ok, IfErr, IfOk, IfSome, OnOk, length, string_bytes};
ghost use Rattle.ir_trees.specs.Declarations.Context.{Grows};
ghost use Rattle.ir_trees.specs.Syntax.Words.{IsArgs};
ghost use Rattle.overlaps.specs.declared.overlap.Overlap.{Overlap};
ghost use Rattle.assembly_text.specs.Negating.{AddsOverlap, AddsUnlessApart, AddsUnlessNegated, IsDecided};
ghost use Rattle.assembly_text.specs.Overlapping.{IsOverlapStopped};
ghost use Rattle.assembly_text.specs.Specializing.{IsNegationAnswered, IsTestStopped};
ghost use Rattle.assembly_text.specs.Together.{IsApartAnswered};
ghost use Rattle.candidate_rounds.specs.Table.Efforts.{IsEffort};

use crate::asking::Asking;
use crate::solving::{apart_by_clauses, negated_clause};
use candidate_rounds::rounds::effort::Effort;
use ir_context::decl::context::Cx;
use ir_trees::decl::contents::ImplId;
use ir_trees::ir::heads::Flag;
use ir_trees::ir::kinds::{Args, Ty};
use ir_trees::ir::stop::Stop;
use ir_trees::ir::trees::Trees;
use overlaps::instance::CommonInstance;
use overlaps::overlap::{Overlap, WhereClause};

/// The instance of both impls, where they may overlap.
fn instance_of(overlap: Result<Overlap, Stop>) -> Option<CommonInstance>
    ensures may { IfSome result (λ x. overlap ≡ Ok (Overlap.May x)) }
    ensures decided { result ≡ None → IfOk overlap IsDecided }
{
    match overlap {
        Ok(Overlap::May(instance)) => Some(instance),
        Ok(Overlap::NoCommonTrait) => None,
        Ok(Overlap::Allowed(_)) => None,
        Ok(Overlap::DisjointHeaders) => None,
        Ok(Overlap::DisjointClause(_)) => None,
        Err(_) => None,
    }
}

/// Whether the number is that of an alias that stands first in one of these pairs. Where these are in the order of their numbers, as those of a
/// text mostly are, that is found in a few steps.
fn is_listed(normal_forms: &[(Ty, Ty)], number: u32) -> bool {
    let found = normal_forms.binary_search_by_key(&number, |pair| pair.0.0);
    found.is_ok() || normal_forms.iter().any(|pair| pair.0.0 == number)
}

/// Whether each child of the number is an alias that stands first in one of these pairs, or has no alias.
fn are_children_listed(cx: &Cx, normal_forms: &[(Ty, Ty)], number: u32) -> bool
    requires { number < length cx.now.trees }
{
    for place in 0..usize::MAX {
        let Some(child) = cx.child(number, place) else {
            return true;
        };
        if cx.marks(child).has(Flag::Alias) && !is_listed(normal_forms, child) {
            return false;
        }
    }
    false
}

/// Whether each of the arguments is an alias that stands first in one of these pairs, or has no alias.
fn are_listed(cx: &Cx, normal_forms: &[(Ty, Ty)], args: Args) -> bool
    requires { IsArgs cx.now.trees args }
{
    are_children_listed(cx, normal_forms, args.0)
}

/// Whether the impl has no where clause, and no alias is left of its header where those of these pairs are the types that stand beside them, as far
/// as its arguments themselves show.
fn leaves_no_goal(cx: &Cx, normal_forms: &[(Ty, Ty)], of: ImplId) -> bool {
    let Some(contents) = cx.impl_contents(of) else {
        return false;
    };
    if !contents.wheres.is_empty() {
        return false;
    }
    are_listed(cx, normal_forms, contents.trait_ref.args)
}

impl<'a> Asking<'a> {
    /// Adds whether the two impls overlap, in so many rounds for each where clause.
    pub(crate) fn answered_with_overlap(
        self,
        first: ImplId,
        second: ImplId,
        effort: Effort,
    ) -> (Asking<'a>, Result<(), Stop>)
        requires some { IsEffort effort }
        ensures { OnOk result.1 (AddsOverlap self.entry.scope.maker self.entry.given first second effort result.0.scope.maker (string_bytes self.entry.answer) (string_bytes result.0.answer)) }
    {
        let (mut asking, overlap) = self.overlapped(first, second, effort);
        match instance_of(overlap) {
            Some(instance) => asking.answered_unless_apart(first, second, instance, effort),
            None => {
                let made = asking.print_overlap(first, overlap);
                (asking, made)
            }
        }
    }

    /// Adds that the where clauses of the two can't hold together. Where that isn't known it adds which where clause can't hold where the
    /// other one does, if that is asked for, or else that they may overlap there.
    fn answered_unless_apart(
        self,
        first: ImplId,
        second: ImplId,
        instance: CommonInstance,
        effort: Effort,
    ) -> (Asking<'a>, Result<(), Stop>)
        requires some { IsEffort effort }
        requires printable { IsArgs self.scope.maker.trees instance.trait_ref.args }
        ensures { OnOk result.1 (AddsUnlessApart self.entry.scope.maker self.entry.given first second instance result.0.scope.maker (string_bytes self.entry.answer) (string_bytes result.0.answer)) }
    {
        let (mut asking, apart) = self.kept_apart(first, second, effort);
        match apart {
            Ok(true) => {
                let made = asking.print_apart();
                (asking, made)
            }
            Ok(false) => {
                if asking.given.negative {
                    return asking.answered_unless_negated(first, second, instance, effort);
                }
                let made = asking.print_instance(instance);
                (asking, made)
            }
            Err(stop) => (asking, Err(stop)),
        }
    }

    /// Adds which where clause of the two can't hold where the other one does, or else that they may overlap there.
    fn answered_unless_negated(
        self,
        first: ImplId,
        second: ImplId,
        instance: CommonInstance,
        effort: Effort,
    ) -> (Asking<'a>, Result<(), Stop>)
        requires some { IsEffort effort }
        requires printable { IsArgs self.scope.maker.trees instance.trait_ref.args }
        ensures { OnOk result.1 (AddsUnlessNegated self.entry.scope.maker self.entry.given first second instance result.0.scope.maker (string_bytes self.entry.answer) (string_bytes result.0.answer)) }
    {
        let (mut asking, clause) = self.negated(first, second, effort);
        let made = asking.print_unless_negated(first, instance, clause);
        (asking, made)
    }

    /// Whether it is plain that making the headers of the two equal leaves nothing to be proved, and that neither has a where clause.
    pub(crate) fn leave_no_goal(&self, first: ImplId, second: ImplId) -> bool {
        let cx = &self.scope.maker;
        let normal_forms = self.given.normal_forms.as_slice();
        leaves_no_goal(cx, normal_forms, first) && leaves_no_goal(cx, normal_forms, second)
    }

    /// Whether the where clauses of the two can't hold together, in so many rounds for each.
    pub(crate) fn kept_apart(
        self,
        first: ImplId,
        second: ImplId,
        effort: Effort,
    ) -> (Asking<'a>, Result<bool, Stop>)
        requires some { IsEffort effort }
        ensures grows { Grows self.entry.scope.maker result.0.scope.maker }
        ensures is { IfOk result.1 (IsApartAnswered self.entry.scope.maker self.entry.given first second result.0.scope.maker) }
        ensures stopped { IfErr result.1 (IsOverlapStopped self.entry.scope.maker self.entry.given result.0.scope.maker) }
        ensures names { result.0.scope.names ≡ self.entry.scope.names }
        ensures given { result.0.given ≡ self.entry.given }
        ensures answer { result.0.answer ≡ self.entry.answer }
    {
        let (maker, rest) = self.apart();
        let (maker, apart) = apart_by_clauses(
            rest.alloc,
            maker,
            &rest.given,
            first,
            second,
            effort,
        );
        (rest.with(maker), apart)
    }

    /// Which where clause of the two can't hold where the other one does, in so many rounds for each.
    pub(crate) fn negated(
        self,
        first: ImplId,
        second: ImplId,
        effort: Effort,
    ) -> (Asking<'a>, Result<Option<WhereClause>, Stop>)
        requires some { IsEffort effort }
        ensures grows { Grows self.entry.scope.maker result.0.scope.maker }
        ensures is { IfOk result.1 (IsNegationAnswered self.entry.scope.maker self.entry.given first second result.0.scope.maker) }
        ensures stopped { IfErr result.1 (IsTestStopped self.entry.scope.maker self.entry.given result.0.scope.maker) }
        ensures names { result.0.scope.names ≡ self.entry.scope.names }
        ensures given { result.0.given ≡ self.entry.given }
        ensures answer { result.0.answer ≡ self.entry.answer }
    {
        let (maker, rest) = self.apart();
        let (maker, clause) = negated_clause(rest.alloc, maker, &rest.given, first, second, effort);
        (rest.with(maker), clause)
    }
}
