//! What an evaluator answers to a goal, and how several answers are merged.

ghost use Rattle.std.specs.Prelude.{◌≡◌, [], ◌↔◌, IsTrue, IfOk, IfErr, IfSome, Some, None, map, length, ◌<◌};
ghost use Rattle.std.specs.List.{All};
ghost use Rattle.ir_trees.specs.Instantiation.Folds.{IsArg, arg_tree};
ghost use Rattle.ir_trees.specs.Syntax.Trees.{is_number};
ghost use Rattle.ir_trees.specs.Syntax.Words.{clause_tree, ClauseListFits};
ghost use Rattle.candidate_eval.specs.Outcomes.ResponseTrees.{IsResponse, AreCandidates, response_of, candidates_of, merge_of, IsCopy, IsMergeTo};
ghost use Rattle.candidate_eval.specs.Outcomes.Responses.{has_only_region_constraints, has_no_inference_or_external_constraints};
ghost use Rattle.std.specs.Cmp.Lexicographic.{pointwise};
ghost use Rattle.ir_trees.specs.Hierarchy.Elaboration.{same_forest, same_tree};
ghost use Rattle.candidate_eval.specs.Outcomes.Merging.{same_response, is_always_applicable, first_applicable, all_answer, Merge, merged};

use crate::eval::certainty::Certainty;
use crate::eval::source::CandidateSource;
use crate::eval::variable::CanonicalVar;
use ir_context::decl::Cx;
use ir_context::decl::make::Make;
use ir_trees::ir::kinds::{Args, Clause, GenericArg};
use ir_trees::ir::stop::Stop;
use ir_trees::ir::trees::Trees;
use std::alloc::{AllocError, Global};
use std::fmt;

/// What an evaluator answers to a goal with root variables.
#[derive(Drop)]
pub struct CanonicalResponse {
    /// The variables that `values` and `regions` leave open, by their numbers from 0 on.
    pub vars: Vec<CanonicalVar>,
    /// What stands for each root variable, with what is left open numbered in the order in which it first occurs.
    pub values: Args,
    /// The outlives constraints, in the order in which they were found.
    pub regions: Vec<Clause>,
    pub certainty: Certainty,
}

/// Goals that are still being evaluated above, which an answer has used, by the numbers that an evaluator gives them.
#[derive(Drop)]
pub struct CandidateHeadUsages {
    heads: Vec<u32>,
}

impl CandidateHeadUsages {
    /// No goal.
    pub fn new(alloc: Global) -> CandidateHeadUsages
        ensures { result.heads.items ≡ [] }
    {
        CandidateHeadUsages {
            heads: Vec::new(alloc),
        }
    }

    /// The goals of these numbers. The only error is `Stop::Memory`, where a growth was refused.
    pub fn of(alloc: Global, heads: &[u32]) -> Result<CandidateHeadUsages, Stop>
        ensures heads { IfOk result (λ u. u.heads.items ≡ heads.now) }
        ensures cause { IfErr result (λ s. s ≡ Stop.Memory) }
    {
        Ok(CandidateHeadUsages {
            heads: Vec::from_slice(alloc, heads)?,
        })
    }

    /// Their numbers, as they were given.
    pub fn heads(&self) -> &[u32]
        ensures { result.now ≡ self.now.heads.items }
    {
        self.heads.as_slice()
    }
}

/// A way in which a goal may be proved.
#[derive(Drop)]
pub struct Candidate {
    pub source: CandidateSource,
    pub result: CanonicalResponse,
    pub head_usages: CandidateHeadUsages,
}

/// The source and the certainty.
impl fmt::Debug for Candidate {
    fn fmt<W: fmt::Write>(&self, f: &mut fmt::Formatter<W>) -> fmt::Result {
        write!(f, "{:?}: {:?}", self.source, self.result.certainty)
    }
}

/// Why candidates are merged.
#[derive(Clone, Copy, Debug, PartialEq, Eq)]
pub enum MergeCandidateInfo {
    /// The candidate of that number is sure and asks for nothing.
    AlwaysApplicable(usize),
    /// All responses are equal.
    EqualResponse,
}

/// Whether two lists have equal clauses, in one order.
fn same_clauses(cx: &Cx, a: &[Clause], b: &[Clause]) -> bool
    requires a { ClauseListFits cx.now.trees a.now }
    requires b { ClauseListFits cx.now.trees b.now }
    ensures { IsTrue result ↔ (map (clause_tree cx.now.trees) a.now ≡ map (clause_tree cx.now.trees) b.now) }
{
    if a.len() != b.len() {
        return false;
    }
    for i in 0..a.len() {
        if !cx.same(a[i], b[i]) {
            return false;
        }
    }
    true
}

#[tactic(auto, using(crate::proofs::Outcomes::Equal::row_says))]
fn same_regions(cx: &Cx, a: &CanonicalResponse, b: &CanonicalResponse) -> bool
    requires a { IsResponse cx.now.trees a.now }
    requires b { IsResponse cx.now.trees b.now }
    ensures { result ≡ pointwise same_tree (response_of cx.now.trees a.now).regions (response_of cx.now.trees b.now).regions }
{
    same_clauses(cx, a.regions.as_slice(), b.regions.as_slice())
}

#[tactic(auto, using(crate::proofs::Outcomes::Equal::forest_says))]
fn same_values(cx: &Cx, a: &CanonicalResponse, b: &CanonicalResponse) -> bool
    requires a { IsResponse cx.now.trees a.now }
    requires b { IsResponse cx.now.trees b.now }
    ensures { result ≡ same_forest (response_of cx.now.trees a.now).values (response_of cx.now.trees b.now).values }
{
    cx.same(a.values, b.values)
}

/// Whether two responses are equal in all their parts.
fn same_response(cx: &Cx, a: &CanonicalResponse, b: &CanonicalResponse) -> bool
    requires a { IsResponse cx.now.trees a.now }
    requires b { IsResponse cx.now.trees b.now }
    ensures { result ≡ same_response (response_of cx.now.trees a.now) (response_of cx.now.trees b.now) }
{
    a.vars.as_slice() == b.vars.as_slice()
        && same_values(cx, a, b)
        && same_regions(cx, a, b)
        && a.certainty == b.certainty
}

fn is_number(cx: &Cx, arg: GenericArg, number: usize) -> bool
    requires { IsArg cx.now.trees arg }
    ensures { result ≡ is_number number (arg_tree cx.now.trees arg).head }
{
    match cx.variable_number(arg) {
        Some(other) => other as usize == number,
        None => false,
    }
}

/// Whether no root variable has got a value and no two have become one: each root variable is the one of its own number.
pub fn has_only_region_constraints(cx: &Cx, response: &CanonicalResponse) -> bool
    requires { IsResponse cx.now.trees response.now }
    ensures { result ≡ has_only_region_constraints (response_of cx.now.trees response.now) }
{
    let values = cx.args(response.values);
    for i in 0..values.len() {
        if !is_number(cx, values[i], i) {
            return false;
        }
    }
    true
}

/// Whether besides no region constraint was found.
pub fn has_no_inference_or_external_constraints(cx: &Cx, response: &CanonicalResponse) -> bool
    requires { IsResponse cx.now.trees response.now }
    ensures { result ≡ has_no_inference_or_external_constraints (response_of cx.now.trees response.now) }
{
    has_only_region_constraints(cx, response) && response.regions.is_empty()
}

fn is_always_applicable(cx: &Cx, response: &CanonicalResponse) -> bool
    requires { IsResponse cx.now.trees response.now }
    ensures { result ≡ is_always_applicable (response_of cx.now.trees response.now) }
{
    matches!(response.certainty, Certainty::Yes)
        && has_no_inference_or_external_constraints(cx, response)
}

/// The number of the first candidate that is sure and asks for nothing.
fn first_applicable(cx: &Cx, candidates: &[Candidate]) -> Option<usize>
    requires { AreCandidates cx.now.trees candidates.now }
    ensures { result ≡ first_applicable 0 (candidates_of cx.now.trees candidates.now) }
{
    for i in 0..candidates.len() {
        if is_always_applicable(cx, &candidates[i].result) {
            return Some(i);
        }
    }
    None
}

/// Whether all candidates have that response.
fn all_answer(cx: &Cx, response: &CanonicalResponse, candidates: &[Candidate]) -> bool
    requires response { IsResponse cx.now.trees response.now }
    requires candidates { AreCandidates cx.now.trees candidates.now }
    ensures { result ≡ all_answer (response_of cx.now.trees response.now) (candidates_of cx.now.trees candidates.now) }
{
    for candidate in candidates {
        if !same_response(cx, &candidate.result, response) {
            return false;
        }
    }
    true
}

impl CanonicalResponse {
    /// A copy of the response. The error comes where a list can't grow.
    pub fn copied(&self) -> Result<CanonicalResponse, AllocError>
        ensures { IfOk result (λ r. IsCopy self.now r) }
    {
        Ok(CanonicalResponse {
            vars: self.vars.clone()?,
            values: self.values,
            regions: self.regions.clone()?,
            certainty: self.certainty,
        })
    }
}

/// The response of the candidate, if there is one.
fn merge_to(
    candidate: Option<&Candidate>,
    info: MergeCandidateInfo,
) -> Result<Option<(CanonicalResponse, MergeCandidateInfo)>, AllocError>
    ensures { IfOk result (λ o. IsMergeTo candidate.entry info o) }
{
    match candidate {
        Some(candidate) => Ok(Some((candidate.result.copied()?, info))),
        None => Ok(None),
    }
}

/// What candidates come to together: the response of the first that is sure and asks for nothing; else the one that all
/// have; else nothing.
///
/// The only error is `Stop::Memory`, where a growth was refused.
pub fn try_merge_candidates<M: Make>(
    ecx: &M,
    candidates: &[Candidate],
) -> Result<Option<(CanonicalResponse, MergeCandidateInfo)>, Stop>
    requires { AreCandidates (M.context ecx.now).trees candidates.now }
    ensures fits { IfOk result (λ o. IfSome o (λ m. IsResponse (M.context ecx.now).trees m.0)) }
    ensures is { IfOk result (λ o. merge_of (M.context ecx.now).trees o ≡ merged (candidates_of (M.context ecx.now).trees candidates.now)) }
    ensures cause { IfErr result (λ s. s ≡ Stop.Memory) }
{
    let cx = ecx.cx();
    if let Some(number) = first_applicable(cx, candidates) {
        let info = MergeCandidateInfo::AlwaysApplicable(number);
        return Ok(merge_to(candidates.get(number), info)?);
    }
    match candidates.split_first() {
        Some((first, others)) if all_answer(cx, &first.result, others) => {
            Ok(merge_to(Some(first), MergeCandidateInfo::EqualResponse)?)
        }
        _ => Ok(None),
    }
}
