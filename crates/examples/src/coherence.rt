//! What the client for overlap checkers answers.

ghost use Rattle.std.specs.Prelude.{◌≡◌, [], IfOk};
ghost use Rattle.ir_trees.specs.Syntax.Words.{IsRegion, IsTy};
ghost use Rattle.candidate_rounds.specs.Evaluators.Known.{state};

use crate::apart::{Reason, kept_apart};
use crate::asserts::Failures;
use crate::declared::declare;
use crate::holds::holds;
use crate::refused::is_refused_by_all;
use candidate_eval::eval::mode::TypingMode;
use candidate_ir::decl::contents::ImplId;
use candidate_ir::decl::make::Build;
use candidate_ir::ir::kinds::{
    GenericArg, Mutability, PredicatePolarity, Region, RegionKind, TraitId, TraitPredicate,
    TraitRef, Ty, TyKind, UintTy,
};
use candidate_ir::ir::stop::Stop;
use candidate_rounds::rounds::Rounds;
use candidate_rounds::rounds::effort::Effort;
use overlaps::overlap::WhereClause;
use std::alloc::Global;
use std::process::Abort;

/// An evaluator over the declarations of these tests, of which nothing is known and nothing is pending.
fn evaluator(rt: &impl Abort, alloc: Global, mode: TypingMode) -> Rounds
    ensures { (state result).pending ≡ [] }
{
    let cx = declare(alloc).expect(rt, "declarations");
    Rounds::with_open_aliases(alloc, cx, mode, Vec::new(alloc), Vec::new(alloc))
}

#[test]
fn aliases_are_open_in_coherence(rt: HostRuntime) {
    let alloc = rt.alloc();
    let cx = declare(alloc).expect(&rt, "declarations");
    let coherence = TypingMode::Coherence;
    let rigid = Rounds::new(alloc, cx, coherence, Vec::new(alloc), Vec::new(alloc));
    let open = evaluator(&rt, alloc, coherence);
    let elsewhere = evaluator(&rt, alloc, TypingMode::Analysis);
    let mut failures = Failures::new();
    for (opens, want, label) in [
        (rigid.opens_aliases(), false, "rigid aliases"),
        (open.opens_aliases(), true, "open aliases"),
        (elsewhere.opens_aliases(), false, "another mode"),
    ] {
        failures.compare(&rt, &opens, &want, label);
    }
    failures.end(&rt);
}

/// The first where clause of the impl of that number.
fn of_clause(of: u32) -> Option<Reason> {
    let of = ImplId(of);
    Some(Reason::Clause(WhereClause { of, number: 0 }))
}

/// What keeps the impls of these numbers apart in coherence.
fn reason_for(
    rt: &impl Abort,
    alloc: Global,
    first: u32,
    second: u32,
) -> Result<Option<Reason>, Stop> {
    let mut rounds = evaluator(rt, alloc, TypingMode::Coherence);
    kept_apart(
        alloc,
        &mut rounds,
        ImplId(first),
        ImplId(second),
        Effort::Rounds(4),
    )
}

#[test]
fn impls_are_kept_apart(rt: HostRuntime) {
    let headers = Some(Reason::Headers);
    let mut failures = Failures::new();
    for (first, second, want, label) in [
        (0, 1, None, "two traits"),
        (1, 6, None, "what is no impl"),
        (1, 2, headers, "two types"),
        (1, 3, None, "a type, and each"),
        (1, 4, of_clause(4), "a type without the bound"),
        (4, 1, of_clause(4), "the same in the other order"),
        (2, 4, None, "a type that has the bound"),
    ] {
        let why = reason_for(&rt, rt.alloc(), first, second);
        failures.compare(&rt, &why, &Ok(want), label);
    }
    failures.end(&rt);
}

/// The first trait that these tests declare.
const BOUND: TraitId = TraitId(0);

/// Whether it is refused that the bound holds of the integers of that width.
fn refuses_here(alloc: Global, rounds: &mut Rounds, width: UintTy) -> Result<bool, Stop>
    requires { (state rounds.old).pending ≡ [] }
{
    let ty = rounds.mk_ty(TyKind::Uint(width))?;
    let args = rounds.mk_args(&[GenericArg::Ty(ty)])?;
    let def_id = BOUND;
    let polarity = PredicatePolarity::Positive;
    let predicate = TraitPredicate {
        trait_ref: TraitRef { def_id, args },
        polarity,
    };
    is_refused_by_all(alloc, rounds, predicate, 4)
}

/// Whether a new evaluator refuses the bound of the integers of that width.
fn refuses(rt: &impl Abort, alloc: Global, mode: TypingMode, width: UintTy) -> Result<bool, Stop> {
    let mut rounds = evaluator(rt, alloc, mode);
    refuses_here(alloc, &mut rounds, width)
}

#[test]
fn goals_are_refused_in_coherence(rt: HostRuntime) {
    let coherence = TypingMode::Coherence;
    let mut failures = Failures::new();
    for (mode, width, want, label) in [
        (coherence, UintTy::U16, true, "no impl"),
        (coherence, UintTy::U8, false, "an impl"),
        (TypingMode::Analysis, UintTy::U16, false, "another mode"),
    ] {
        let refused = refuses(&rt, rt.alloc(), mode, width);
        failures.compare(&rt, &refused, &Ok(want), label);
    }
    failures.end(&rt);
}

/// Whether the bound holds of the type in four rounds.
fn bound_holds(alloc: Global, rounds: &mut Rounds, ty: Ty) -> Result<bool, Stop>
    requires { IsTy rounds.old.context.trees ty }
{
    let args = rounds.mk_args(&[GenericArg::Ty(ty)])?;
    let env = rounds.mk_param_env(&[])?;
    let predicate = TraitPredicate {
        trait_ref: TraitRef {
            def_id: BOUND,
            args,
        },
        polarity: PredicatePolarity::Positive,
    };
    holds(alloc, rounds, env, predicate, 4)
}

/// A reference in that region.
fn reference(rounds: &mut Rounds, region: Region, ty: Ty) -> Result<Ty, Stop>
    requires region { IsRegion rounds.old.context.trees region }
    requires ty { IsTy rounds.old.context.trees ty }
    ensures { IfOk result (IsTy rounds.new.context.trees) }
{
    rounds.mk_ty(TyKind::Ref(region, ty, Mutability::Not))
}

/// Whether the bound holds of a reference to the integers of eight bits in a region that is an error.
fn holds_of_error(alloc: Global, rounds: &mut Rounds) -> Result<bool, Stop> {
    let region = rounds.mk_region(RegionKind::Error)?;
    let ty = rounds.mk_ty(TyKind::Uint(UintTy::U8))?;
    let reference = reference(rounds, region, ty)?;
    bound_holds(alloc, rounds, reference)
}

#[test]
fn what_holds_has_a_derivation(rt: HostRuntime) {
    let alloc = rt.alloc();
    let mut failures = Failures::new();
    for (width, want, label) in [
        (UintTy::U8, true, "an impl"),
        (UintTy::U16, false, "no impl"),
    ] {
        let mut rounds = evaluator(&rt, alloc, TypingMode::Analysis);
        let ty = rounds.mk_ty(TyKind::Uint(width)).expect(&rt, "a type");
        let answer = bound_holds(alloc, &mut rounds, ty);
        failures.compare(&rt, &answer, &Ok(want), label);
        let errors = rounds.has_error_regions(alloc);
        failures.compare(&rt, &errors, &false, "no error was asked about");
    }
    let mut rounds = evaluator(&rt, alloc, TypingMode::Analysis);
    let answer = holds_of_error(alloc, &mut rounds);
    failures.compare(&rt, &answer, &Ok(false), "an error of regions");
    let errors = rounds.has_error_regions(alloc);
    failures.compare(&rt, &errors, &true, "it was asked about");
    failures.end(&rt);
}
