//! The rules that the language has for some traits, by name.

ghost use Rattle.std.specs.Prelude.{◌≡◌};
ghost use Rattle.ir_trees.specs.Validity.Faults.{all_items};
ghost use Rattle.candidate_eval.specs.Outcomes.ResponseTrees.{AreCandidates};
ghost use Rattle.candidate_assembly.specs.Answers.Assembled.{language_rules, rule_among, rule_name, rule_of_item, rule_of_trait};
ghost use Rattle.candidate_assembly.specs.Goals.Kinds.{HasKnownSelfType};
ghost use Rattle.candidate_assembly.specs.Rules.Language.{if_named, rule_by_item, rule_named};
ghost use Rattle.candidate_assembly.specs.Answers.Shown.{Appends, Considers};
ghost use Rattle.candidate_assembly.specs.Goals.TraitGoals.{is_item};
ghost use Rattle.candidate_assembly.specs.Goals.KindShown.{IsGoal};

use crate::assembly::kind::GoalKind;
use crate::assembly::listing::push_considered;
use candidate_eval::eval::context::EvalCtxt;
use candidate_eval::eval::refusal::NoSolutionOrStop;
use candidate_eval::eval::response::Candidate;
use ir_context::decl::Cx;
use ir_trees::decl::contents::{LangItem, Sizedness};
use ir_trees::ir::kinds::{ClosureKind, ParamEnv, TraitId};
use ir_trees::ir::stop::Stop;
use std::alloc::Global;

/// A rule of the language.
#[derive(Clone, Copy)]
pub enum LanguageRule {
    /// Where the predicate holds an error.
    Error,
    AutoTrait,
    TraitAlias,
    Sizedness(Sizedness),
    /// For `Copy`, `Clone` and `TrivialClone`.
    CopyClone,
    FnTrait(ClosureKind),
    FnPtrTrait,
    Tuple,
    Pointee,
    DiscriminantKind,
    Destruct,
    NoDrop,
}

/// Whether the trait is the lang item.
pub(crate) fn is_item(cx: &Cx, item: LangItem, trait_id: TraitId) -> bool
    ensures { result ≡ is_item cx.now item trait_id.0 }
{
    match cx.lang_item(item) {
        Some(other) => other == trait_id,
        None => false,
    }
}

/// The rule of a lang item, if it has one.
fn rule_of_item(item: LangItem) -> Option<LanguageRule>
    ensures { if_named result ≡ rule_of_item item }
{
    let rule = match item {
        LangItem::Sized => LanguageRule::Sizedness(Sizedness::Sized),
        LangItem::MetaSized => LanguageRule::Sizedness(Sizedness::MetaSized),
        LangItem::Copy | LangItem::Clone | LangItem::TrivialClone => LanguageRule::CopyClone,
        LangItem::Fn => LanguageRule::FnTrait(ClosureKind::Fn),
        LangItem::FnMut => LanguageRule::FnTrait(ClosureKind::FnMut),
        LangItem::FnOnce => LanguageRule::FnTrait(ClosureKind::FnOnce),
        LangItem::FnPtrTrait => LanguageRule::FnPtrTrait,
        LangItem::Tuple => LanguageRule::Tuple,
        LangItem::PointeeTrait => LanguageRule::Pointee,
        LangItem::DiscriminantKind => LanguageRule::DiscriminantKind,
        LangItem::Destruct => LanguageRule::Destruct,
        LangItem::BikeshedGuaranteedNoDrop => LanguageRule::NoDrop,
        LangItem::Drop | LangItem::Unsize => return None,
    };
    Some(rule)
}

/// The rule of the item, where the trait is that item.
fn rule_by_item(cx: &Cx, trait_id: TraitId, item: LangItem) -> Option<LanguageRule>
    ensures { if_named result ≡ rule_by_item cx.now trait_id.0 item }
{
    if !is_item(cx, item, trait_id) {
        return None;
    }
    rule_of_item(item)
}

/// The rule of the first lang item that the trait is and that has one.
fn rule_among_items(cx: &Cx, trait_id: TraitId) -> Option<LanguageRule>
    ensures { if_named result ≡ rule_among cx.now trait_id.0 all_items }
{
    for item in &LangItem::ALL {
        if let Some(rule) = rule_by_item(cx, trait_id, *item) {
            return Some(rule);
        }
    }
    None
}

/// The rule that the language has for the trait, if it has one: an auto trait and a trait alias have theirs whatever items they are.
pub(crate) fn builtin_rule_of(cx: &Cx, trait_id: TraitId) -> Option<LanguageRule>
    ensures { if_named result ≡ rule_of_trait cx.now trait_id.0 }
{
    if let Some(flags) = cx.trait_flags(trait_id) {
        if flags.auto {
            return Some(LanguageRule::AutoTrait);
        }
        if flags.alias {
            return Some(LanguageRule::TraitAlias);
        }
    }
    rule_among_items(cx, trait_id)
}

/// The rule that the language has for the goal, if it has one: the one for errors, where it holds an error; else its trait's.
fn rule_for<E: EvalCtxt, G: GoalKind<E>>(
    cx: &Cx,
    env: ParamEnv,
    predicate: G,
) -> Option<LanguageRule>
    requires { IsGoal G.kind cx.now env predicate }
    ensures { if_named result ≡ rule_name G.kind.rules cx.now (G.kind.seen cx.now.trees env predicate) }
{
    if G::holds_error(cx, env, predicate) {
        return Some(LanguageRule::Error);
    }
    builtin_rule_of(cx, G::trait_def_id(cx, env, predicate))
}

/// Adds the candidate by the rule that the language has for the goal, if it has one and that gives one. The self type of the goal is neither a
/// general variable nor a bound type.
///
/// It stops as the rule does; `Stop::Memory` comes where the list can't grow. The state is left alike the one before.
pub(crate) fn assemble_language_candidates<E: EvalCtxt, G: GoalKind<E>>(
    alloc: Global,
    ecx: &mut E,
    env: ParamEnv,
    predicate: G,
    candidates: &mut Vec<Candidate>,
) -> Result<(), Stop>
    requires goal { IsGoal G.kind (E.context ecx.old) env predicate }
    requires typed { HasKnownSelfType G.kind.rules (E.context ecx.old) (G.kind.seen (E.context ecx.old).trees env predicate) }
    requires candidates { AreCandidates (E.context ecx.old).trees candidates.old.items }
    ensures { Appends E.EvalCtxt ecx.old ecx.new candidates.old.items candidates.new.items (λ V. let c = V.context in language_rules G.kind.rules c (G.kind.seen c.trees env predicate)) result }
{
    let Some(rule) = rule_for::<E, G>(ecx.cx(), env, predicate) else {
        return Ok(());
    };
    let answer = G::consider_builtin_candidate(alloc, ecx, env, predicate, rule);
    push_considered(candidates, answer)
}
