//! What is found of two impls: whether they overlap, and whether one of them specialises the other one.

ghost use Rattle.std.specs.Prelude.{◌≡◌, ◌<◌, false, true, IfErr, IfOk, IfSome, None};
ghost use Rattle.ir_trees.specs.Syntax.Words.{IsArgs};
ghost use Rattle.overlaps.specs.declared.specializing.Specialization.{Specialization};
ghost use Rattle.assembly_text.specs.Checking.{Stays};
ghost use Rattle.assembly_text.specs.Specializing.{IsFoundOf, IsInstanceOr, IsInstanceUnless, IsInstanceUnlessApart, IsNotOneBy, IsNotOtherBy, IsNotSpecial, IsOneBy, IsOtherBy, IsPairStop, IsPrintableFound, IsSpecial, IsSpecialOfThem, NoneSpecializesAlone, is_declared_special};
ghost use Rattle.candidate_rounds.specs.Table.Efforts.{IsEffort};

use crate::asking::Asking;
use candidate_rounds::rounds::effort::Effort;
use ir_context::decl::context::Cx;
use ir_trees::decl::contents::ImplId;
use ir_trees::ir::stop::Stop;
use overlaps::allowance::Allowance;
use overlaps::instance::CommonInstance;
use overlaps::overlap::Overlap;
use overlaps::specializing::Specialization;

/// What is found of two impls.
#[derive(Clone, Copy)]
pub(crate) enum Found {
    /// They are disjoint, their overlap is allowed, or where clauses are known not to hold, one alone or all together.
    Nothing,
    /// They may overlap there.
    Instance(CommonInstance),
    /// The first one specialises the second one, which no line says.
    Specializes(ImplId, ImplId),
}

/// Whether a line says that the first impl specialises the second one.
fn is_declared_special(cx: &Cx, special: ImplId, general: ImplId) -> bool
    ensures { result ≡ is_declared_special cx.now special general }
{
    match cx.impl_contents(special) {
        Some(contents) => contents.specializes.iter().any(|of| of.0 == general.0),
        None => false,
    }
}

/// Whether the answer is that the first impl specialises the second one.
fn is_positive(answer: Specialization) -> bool
    ensures yes { result ≡ true → answer ≡ Specialization.Specializes }
    ensures no { result ≡ false → answer ≡ Specialization.Specializes → ⊥ }
{
    matches!(answer, Specialization::Specializes)
}

/// The two, unless a line has to say that the first one specialises the second one, and none does.
fn as_said(cx: &Cx, special: ImplId, general: ImplId, by_line: bool) -> Option<(ImplId, ImplId)>
    ensures those { IfSome result (λ p. p ≡ (special, general)) }
    ensures said { IfSome result (λ p. by_line ≡ true → is_declared_special cx.now special general ≡ true) }
    ensures unsaid { result ≡ None → (by_line ≡ true) × (is_declared_special cx.now special general ≡ false) }
{
    if by_line && !is_declared_special(cx, special, general) {
        return None;
    }
    Some((special, general))
}

impl<'a> Asking<'a> {
    /// What is found of the two impls, by that effort for each where clause. A line by which one of them specialises the other one counts
    /// where it is so.
    pub(crate) fn compare(
        self,
        first: ImplId,
        second: ImplId,
        effort: Effort,
    ) -> (Asking<'a>, Result<Found, Stop>)
        requires some { IsEffort effort }
        ensures stays { Stays self.entry result.0 }
        ensures answer { result.0.answer ≡ self.entry.answer }
        ensures found { IfOk result.1 (IsFoundOf self.entry.scope.maker self.entry.given effort first second) }
        ensures printable { IfOk result.1 (IsPrintableFound result.0.scope.maker.trees) }
        ensures stopped { IfErr result.1 (IsPairStop self.entry.scope.maker self.entry.given) }
    {
        let (asking, overlap) = self.overlapped(first, second, effort);
        match overlap {
            Ok(Overlap::May(instance)) => asking.unless_apart(first, second, instance, effort),
            Ok(Overlap::Allowed(Allowance::Specializes(_))) => {
                asking.compare_declared(first, second, effort)
            }
            Ok(Overlap::Allowed(Allowance::Reservation)) => (asking, Ok(Found::Nothing)),
            Ok(Overlap::Allowed(Allowance::Marker)) => (asking, Ok(Found::Nothing)),
            Ok(Overlap::NoCommonTrait) => (asking, Ok(Found::Nothing)),
            Ok(Overlap::DisjointHeaders) => (asking, Ok(Found::Nothing)),
            Ok(Overlap::DisjointClause(_)) => (asking, Ok(Found::Nothing)),
            Err(stop) => (asking, Err(stop)),
        }
    }

    /// What is found of two impls of which one is declared to specialise the other one.
    fn compare_declared(
        self,
        first: ImplId,
        second: ImplId,
        effort: Effort,
    ) -> (Asking<'a>, Result<Found, Stop>)
        requires some { IsEffort effort }
        ensures stays { Stays self.entry result.0 }
        ensures answer { result.0.answer ≡ self.entry.answer }
        ensures found { IfOk result.1 (IsFoundOf self.entry.scope.maker self.entry.given effort first second) }
        ensures printable { IfOk result.1 (IsPrintableFound result.0.scope.maker.trees) }
        ensures stopped { IfErr result.1 (IsPairStop self.entry.scope.maker self.entry.given) }
    {
        let (asking, special) = self.special_one(first, second, true, effort);
        match special {
            Ok(Some(_)) => (asking, Ok(Found::Nothing)),
            Ok(None) => asking.compare_anyway(first, second, effort),
            Err(stop) => (asking, Err(stop)),
        }
    }

    /// What is found of the two impls, whatever lines declare of them.
    fn compare_anyway(
        self,
        first: ImplId,
        second: ImplId,
        effort: Effort,
    ) -> (Asking<'a>, Result<Found, Stop>)
        requires some { IsEffort effort }
        ensures stays { Stays self.entry result.0 }
        ensures answer { result.0.answer ≡ self.entry.answer }
        ensures found { IfOk result.1 (IsFoundOf self.entry.scope.maker self.entry.given effort first second) }
        ensures printable { IfOk result.1 (IsPrintableFound result.0.scope.maker.trees) }
        ensures stopped { IfErr result.1 (IsPairStop self.entry.scope.maker self.entry.given) }
    {
        let (asking, overlap) = self.overlapped_anyway(first, second, effort);
        match overlap {
            Ok(Overlap::May(instance)) => asking.unless_apart(first, second, instance, effort),
            Ok(Overlap::Allowed(_)) => (asking, Ok(Found::Nothing)),
            Ok(Overlap::NoCommonTrait) => (asking, Ok(Found::Nothing)),
            Ok(Overlap::DisjointHeaders) => (asking, Ok(Found::Nothing)),
            Ok(Overlap::DisjointClause(_)) => (asking, Ok(Found::Nothing)),
            Err(stop) => (asking, Err(stop)),
        }
    }

    /// What is found of two impls that may overlap there: nothing where their where clauses can't hold together, or, if that is asked for, where
    /// one of them can't hold while the other impl does. Where no goal is left of the two, none keeps them apart, and that isn't asked.
    fn unless_apart(
        self,
        first: ImplId,
        second: ImplId,
        instance: CommonInstance,
        effort: Effort,
    ) -> (Asking<'a>, Result<Found, Stop>)
        requires printable { IsArgs self.scope.maker.trees instance.trait_ref.args }
        requires some { IsEffort effort }
        ensures stays { Stays self.entry result.0 }
        ensures answer { result.0.answer ≡ self.entry.answer }
        ensures found { IfOk result.1 (IsInstanceUnlessApart self.entry.scope.maker self.entry.given first second instance) }
        ensures printable { IfOk result.1 (IsPrintableFound result.0.scope.maker.trees) }
        ensures stopped { IfErr result.1 (IsPairStop self.entry.scope.maker self.entry.given) }
    {
        if self.leave_no_goal(first, second) {
            return self.unless_negated(first, second, instance, effort);
        }
        self.unless_kept_apart(first, second, instance, effort)
    }

    /// The same, where goals may be left.
    fn unless_kept_apart(
        self,
        first: ImplId,
        second: ImplId,
        instance: CommonInstance,
        effort: Effort,
    ) -> (Asking<'a>, Result<Found, Stop>)
        requires printable { IsArgs self.scope.maker.trees instance.trait_ref.args }
        requires some { IsEffort effort }
        ensures stays { Stays self.entry result.0 }
        ensures answer { result.0.answer ≡ self.entry.answer }
        ensures found { IfOk result.1 (IsInstanceUnlessApart self.entry.scope.maker self.entry.given first second instance) }
        ensures printable { IfOk result.1 (IsPrintableFound result.0.scope.maker.trees) }
        ensures stopped { IfErr result.1 (IsPairStop self.entry.scope.maker self.entry.given) }
    {
        let (asking, apart) = self.kept_apart(first, second, effort);
        match apart {
            Ok(true) => (asking, Ok(Found::Nothing)),
            Ok(false) => asking.unless_negated(first, second, instance, effort),
            Err(stop) => (asking, Err(stop)),
        }
    }

    /// What is found of two impls that may overlap there: nothing where a where clause of one of them can't hold while the other impl does, and
    /// that is asked for.
    fn unless_negated(
        self,
        first: ImplId,
        second: ImplId,
        instance: CommonInstance,
        effort: Effort,
    ) -> (Asking<'a>, Result<Found, Stop>)
        requires printable { IsArgs self.scope.maker.trees instance.trait_ref.args }
        requires some { IsEffort effort }
        ensures stays { Stays self.entry result.0 }
        ensures answer { result.0.answer ≡ self.entry.answer }
        ensures found { IfOk result.1 (IsInstanceUnless self.entry.scope.maker self.entry.given first second instance) }
        ensures printable { IfOk result.1 (IsPrintableFound result.0.scope.maker.trees) }
        ensures stopped { IfErr result.1 (IsPairStop self.entry.scope.maker self.entry.given) }
    {
        if !self.given.negative {
            return self.unless_special(first, second, instance, effort);
        }
        let (asking, clause) = self.negated(first, second, effort);
        match clause {
            Ok(Some(_)) => (asking, Ok(Found::Nothing)),
            Ok(None) => asking.unless_special(first, second, instance, effort),
            Err(stop) => (asking, Err(stop)),
        }
    }

    /// That the two may overlap there, unless that feature is used and one of them specialises the other one.
    fn unless_special(
        self,
        first: ImplId,
        second: ImplId,
        instance: CommonInstance,
        effort: Effort,
    ) -> (Asking<'a>, Result<Found, Stop>)
        requires printable { IsArgs self.scope.maker.trees instance.trait_ref.args }
        requires some { IsEffort effort }
        ensures stays { Stays self.entry result.0 }
        ensures answer { result.0.answer ≡ self.entry.answer }
        ensures found { IfOk result.1 (IsInstanceOr self.entry.scope.maker self.entry.given first second instance) }
        ensures printable { IfOk result.1 (IsPrintableFound result.0.scope.maker.trees) }
        ensures stopped { IfErr result.1 (IsPairStop self.entry.scope.maker self.entry.given) }
    {
        if !self.given.specialization {
            return (self, Ok(Found::Instance(instance)));
        }
        let (asking, special) = self.special_one(first, second, false, effort);
        match special {
            Ok(Some((special, general))) => (asking, Ok(Found::Specializes(special, general))),
            Ok(None) => (asking, Ok(Found::Instance(instance))),
            Err(stop) => (asking, Err(stop)),
        }
    }

    /// The one of the two that specialises the other one, and that one, unless each does; where lines are asked for, only as a line says.
    fn special_one(
        self,
        first: ImplId,
        second: ImplId,
        by_line: bool,
        effort: Effort,
    ) -> (Asking<'a>, Result<Option<(ImplId, ImplId)>, Stop>)
        requires some { IsEffort effort }
        ensures stays { Stays self.entry result.0 }
        ensures answer { result.0.answer ≡ self.entry.answer }
        ensures special { IfOk result.1 (λ o. IfSome o (λ p. IsSpecialOfThem self.entry.scope.maker self.entry.given by_line first second p.0 p.1)) }
        ensures none { IfOk result.1 (λ o. o ≡ None → NoneSpecializesAlone self.entry.scope.maker self.entry.given by_line first second) }
        ensures stopped { IfErr result.1 (IsPairStop self.entry.scope.maker self.entry.given) }
    {
        let (asking, is_first) = self.is_special(first, second, effort);
        match is_first {
            Ok(true) => asking.unless_other(first, second, by_line, effort),
            Ok(false) => asking.if_other(first, second, by_line, effort),
            Err(stop) => (asking, Err(stop)),
        }
    }

    /// The first one of the two, which specialises the second one, unless that specialises the first one, too.
    fn unless_other(
        self,
        first: ImplId,
        second: ImplId,
        by_line: bool,
        effort: Effort,
    ) -> (Asking<'a>, Result<Option<(ImplId, ImplId)>, Stop>)
        requires some { IsEffort effort }
        ensures stays { Stays self.entry result.0 }
        ensures answer { result.0.answer ≡ self.entry.answer }
        ensures special { IfOk result.1 (λ o. IfSome o (IsOneBy self.entry.scope.maker self.entry.given by_line first second)) }
        ensures none { IfOk result.1 (λ o. o ≡ None → IsNotOneBy self.entry.scope.maker self.entry.given by_line first second) }
        ensures stopped { IfErr result.1 (IsPairStop self.entry.scope.maker self.entry.given) }
    {
        let (asking, is_second) = self.is_special(second, first, effort);
        match is_second {
            Ok(false) => {
                let found = as_said(&asking.scope.maker, first, second, by_line);
                (asking, Ok(found))
            }
            Ok(true) => (asking, Ok(None)),
            Err(stop) => (asking, Err(stop)),
        }
    }

    /// The second one of the two, if it specialises the first one, which doesn't specialise it.
    fn if_other(
        self,
        first: ImplId,
        second: ImplId,
        by_line: bool,
        effort: Effort,
    ) -> (Asking<'a>, Result<Option<(ImplId, ImplId)>, Stop>)
        requires some { IsEffort effort }
        ensures stays { Stays self.entry result.0 }
        ensures answer { result.0.answer ≡ self.entry.answer }
        ensures special { IfOk result.1 (λ o. IfSome o (IsOtherBy self.entry.scope.maker self.entry.given by_line first second)) }
        ensures none { IfOk result.1 (λ o. o ≡ None → IsNotOtherBy self.entry.scope.maker self.entry.given by_line first second) }
        ensures stopped { IfErr result.1 (IsPairStop self.entry.scope.maker self.entry.given) }
    {
        let (asking, is_second) = self.is_special(second, first, effort);
        match is_second {
            Ok(true) => {
                let found = as_said(&asking.scope.maker, second, first, by_line);
                (asking, Ok(found))
            }
            Ok(false) => (asking, Ok(None)),
            Err(stop) => (asking, Err(stop)),
        }
    }

    /// Whether the first impl specialises the second one.
    fn is_special(
        self,
        special: ImplId,
        general: ImplId,
        effort: Effort,
    ) -> (Asking<'a>, Result<bool, Stop>)
        requires some { IsEffort effort }
        ensures stays { Stays self.entry result.0 }
        ensures answer { result.0.answer ≡ self.entry.answer }
        ensures special { IfOk result.1 (λ b. b ≡ true → IsSpecial self.entry.scope.maker self.entry.given special general) }
        ensures other { IfOk result.1 (λ b. b ≡ false → IsNotSpecial self.entry.scope.maker self.entry.given special general) }
        ensures stopped { IfErr result.1 (IsPairStop self.entry.scope.maker self.entry.given) }
    {
        let (asking, answer) = self.tested(special, general, effort);
        match answer {
            Ok(answer) => (asking, Ok(is_positive(answer))),
            Err(stop) => (asking, Err(stop)),
        }
    }
}
