//! Regions that leak: the placeholder of a region that a binder binds is what can't name it, or has to outlive that.

ghost use Rattle.std.specs.Option.{option_to_list};
ghost use Rattle.std.specs.Prelude.{◌≡◌, ◌<◌, ◌++◌, ℕ, true, false, map, length, refl, slice_get, None, Some, IfErr, IfOk, IfSome};
ghost use Rattle.ir_trees.specs.declared.ir.stop.Stop.{Stop};
ghost use Rattle.ir_trees.specs.declared.ir.kinds.RegionKind.{RegionKind};
ghost use Rattle.ir_trees.specs.declared.ir.kinds.RegionKind.TheVariants as R;
ghost use Rattle.ir_trees.specs.Syntax.Words.{IsClause, clause_tree};
ghost use Rattle.candidate_eval.specs.Outcomes.ResponseTrees.{IsResponse, response_of};
ghost use Rattle.candidate_eval.specs.declared.eval.mode.TypingMode.{TypingMode};
ghost use Rattle.candidate_eval.specs.declared.eval.variable.CanonicalVar.{CanonicalVar};
ghost use Rattle.candidate_rounds.specs.declared.rounds.inference.Entry.{Entry};
ghost use Rattle.candidate_rounds.specs.declared.rounds.leaking.RegionOutlives.{RegionOutlives};
ghost use Rattle.candidate_rounds.specs.Calls.Leaking.{AreOutlived, AreSaid, IsSaid, IsSaidOf};
ghost use Rattle.candidate_rounds.specs.Evaluators.Known.{Each, IsEntry, IsKnown, info_of, state, state_of};
ghost use Rattle.candidate_rounds.specs.Evaluators.Leaking.{CantName, IsAmong, IsRecorded, Leaks, OutlivesTooMuch, RegionsLeak, ResponseLeaks, SaysOutlives, ValueLeaks, is_region_above};
ghost use Rattle.candidate_rounds.specs.Table.Entries.{leaks_at};

use crate::rounds::Rounds;
use crate::rounds::inference::{Entry, Inference};
use crate::rounds::walking::has_marked;
use candidate_eval::eval::response::CanonicalResponse;
use candidate_eval::eval::variable::CanonicalVar;
use ir_context::decl::context::Cx;
use ir_trees::ir::heads::Marks;
use ir_trees::ir::kinds::{Clause, ClauseKind, Placeholder, RegionKind};
use ir_trees::ir::marks::Mark;
use ir_trees::ir::node::Node;
use ir_trees::ir::stop::Stop;
use ir_trees::ir::trees::Trees;
use ir_trees::ir::walked::Walked;
use std::alloc::Global;

/// The mark of a region's placeholder of a universe above that one.
#[derive(Drop)]
struct RegionAbove(u32);

impl Mark for RegionAbove {
    ghost marks = { λ m. is_region_above m.0 };

    fn is_on(&self, node: &Node) -> bool {
        match node {
            Node::Region(RegionKind::Placeholder(placeholder)) => placeholder.universe > self.0,
            _ => false,
        }
    }

    ghost no_list = { λ _ _. refl };
}

/// That one region outlives another.
#[derive(Clone, Copy)]
struct RegionOutlives {
    longer: RegionKind,
    shorter: RegionKind,
}

/// What the clause says of two regions.
fn outlives_in(cx: &Cx, clause: Clause) -> Option<RegionOutlives>
    requires { IsClause cx.now.trees clause }
    ensures says { IfSome result (λ s. SaysOutlives (clause_tree cx.now.trees clause) s.longer s.shorter) }
    ensures none { result ≡ None → (a b : RegionKind) → SaysOutlives (clause_tree cx.now.trees clause) a b → ⊥ }
{
    match cx.clause(clause).value {
        ClauseKind::RegionOutlives(longer, shorter) => Some(RegionOutlives {
            longer: cx.region_kind(longer),
            shorter: cx.region_kind(shorter),
        }),
        _ => None,
    }
}

/// Puts what is said, if anything is, at a list's end. The only stop is `Stop::Memory`, here and below.
fn push_said(list: &mut Vec<RegionOutlives>, said: Option<RegionOutlives>) -> Result<(), Stop>
    ensures pushed { IfOk result (λ _. list.new.items ≡ list.old.items ++ option_to_list said) }
    ensures cause { IfErr result (λ s. s ≡ Stop.Memory) }
{
    if let Some(said) = said {
        list.push(said)?;
    }
    Ok(())
}

/// What the clauses say of regions, in their order.
fn all_outlives(alloc: Global, cx: &Cx, clauses: &[Clause]) -> Result<Vec<RegionOutlives>, Stop>
    requires { Each (IsClause cx.now.trees) clauses.now }
    ensures said { IfOk result (λ v. AreSaid (map (clause_tree cx.now.trees) clauses.now) v.items) }
    ensures cause { IfErr result (λ s. s ≡ Stop.Memory) }
{
    let mut list = Vec::new(alloc);
    for i in 0..clauses.len() {
        push_said(&mut list, outlives_in(cx, clauses[i]))?;
    }
    Ok(list)
}

/// Whether the region is one of these.
fn is_among(region: RegionKind, list: &[RegionKind]) -> bool
    ensures yes { result ≡ true → IsAmong list.now region }
    ensures no { result ≡ false → IsAmong list.now region → ⊥ }
{
    for i in 0..list.len() {
        if list[i] == region {
            return true;
        }
    }
    false
}

/// The first place that says of one of these regions what it outlives.
fn first_said_of(list: &[RegionKind], said: &[RegionOutlives]) -> Option<usize>
    ensures said { IfSome result (IsSaidOf list.now said.now) }
    ensures none { result ≡ None → Each (λ (x : RegionOutlives). IsAmong list.now x.longer → ⊥) said.now }
{
    for place in 0..said.len() {
        if is_among(said[place].longer, list) {
            return Some(place);
        }
    }
    None
}

/// All regions that the region has to outlive by what is said, itself among them.
fn outlived(
    alloc: Global,
    region: RegionKind,
    said: &[RegionOutlives],
) -> Result<Vec<RegionKind>, Stop>
    ensures are { IfOk result (λ v. AreOutlived said.now region v.items) }
    ensures cause { IfErr result (λ s. s ≡ Stop.Memory) }
{
    let mut left = Vec::from_slice(alloc, said)?;
    let mut list = Vec::new(alloc);
    list.push(region)?;
    while let Some(place) = first_said_of(list.as_slice(), left.as_slice()) {
        let next = left.remove(place);
        list.push(next.shorter)?;
    }
    Ok(list)
}

/// The universe of the variable of that number.
fn universe_at(universes: &[u32], number: u32) -> Option<u32>
    ensures { result ≡ slice_get universes.now number }
{
    universes.get(number as usize).copied()
}

/// Whether there is a universe, and it is older than that one.
fn is_older(universe: Option<u32>, than: u32) -> bool
    ensures yes { result ≡ true → (u : ℕ) × (universe ≡ Some u) × (u < than) }
    ensures no { result ≡ false → (u : ℕ) → universe ≡ Some u → u < than → ⊥ }
{
    match universe {
        Some(universe) => universe < than,
        None => false,
    }
}

/// Whether the region can't name the placeholder, where variables are of these universes.
fn cant_name(universes: &[u32], region: RegionKind, placeholder: Placeholder) -> bool
    ensures yes { result ≡ true → CantName universes.now placeholder region }
    ensures no { result ≡ false → CantName universes.now placeholder region → ⊥ }
{
    match region {
        RegionKind::Static => true,
        RegionKind::Placeholder(other) => other != placeholder,
        RegionKind::Var(number) => is_older(universe_at(universes, number), placeholder.universe),
        RegionKind::Error | RegionKind::Bound(_) => false,
    }
}

/// Whether the placeholder has to outlive a region that can't name it.
fn outlives_too_much(
    alloc: Global,
    universes: &[u32],
    placeholder: Placeholder,
    said: &[RegionOutlives],
) -> Result<bool, Stop>
    ensures yes { IfOk result (λ b. b ≡ true → OutlivesTooMuch (IsSaid said.now) universes.now placeholder) }
    ensures no { IfOk result (λ b. b ≡ false → OutlivesTooMuch (IsSaid said.now) universes.now placeholder → ⊥) }
    ensures cause { IfErr result (λ s. s ≡ Stop.Memory) }
{
    let list = outlived(alloc, RegionKind::Placeholder(placeholder), said)?;
    for i in 0..list.len() {
        if cant_name(universes, list[i], placeholder) {
            return Ok(true);
        }
    }
    Ok(false)
}

/// Whether a placeholder of a universe above that one has to outlive a region that can't name it, by what the clauses say.
fn regions_leak(
    alloc: Global,
    cx: &Cx,
    above: u32,
    universes: &[u32],
    clauses: &[Clause],
) -> Result<bool, Stop>
    requires { Each (IsClause cx.now.trees) clauses.now }
    ensures yes { IfOk result (λ b. b ≡ true → RegionsLeak (IsRecorded (map (clause_tree cx.now.trees) clauses.now)) above universes.now) }
    ensures no { IfOk result (λ b. b ≡ false → RegionsLeak (IsRecorded (map (clause_tree cx.now.trees) clauses.now)) above universes.now → ⊥) }
    ensures cause { IfErr result (λ s. s ≡ Stop.Memory) }
{
    let said = all_outlives(alloc, cx, clauses)?;
    for i in 0..said.len() {
        if let RegionKind::Placeholder(placeholder) = said[i].longer {
            if placeholder.universe > above
                && outlives_too_much(alloc, universes, placeholder, said.as_slice())?
            {
                return Ok(true);
            }
        }
    }
    Ok(false)
}

/// Whether a placeholder of a universe above that one stands in the value of a variable that can't name it.
fn entry_leaks(alloc: Global, cx: &Cx, above: u32, entry: &Entry) -> bool
    requires { IsEntry cx.now.trees entry.now }
    ensures yes { result ≡ true → ValueLeaks above (info_of cx.now.trees entry.now) }
    ensures no { result ≡ false → ValueLeaks above (info_of cx.now.trees entry.now) → ⊥ }
{
    match entry.value {
        Some(value) => {
            let mut walked = Walked::new(alloc);
            let highest = above.max(entry.universe);
            has_marked(cx, &mut walked, value, &RegionAbove(highest))
        }
        None => false,
    }
}

/// Whether that holds of one of the variables.
fn values_leak(alloc: Global, cx: &Cx, above: u32, entries: &[Entry]) -> bool
    requires { Each (IsEntry cx.now.trees) entries.now }
    ensures yes { result ≡ true → (e : Entry) × IsAmong entries.now e × ValueLeaks above (info_of cx.now.trees e) }
    ensures no { result ≡ false → Each (λ (e : Entry). ValueLeaks above (info_of cx.now.trees e) → ⊥) entries.now }
{
    for i in 0..entries.len() {
        if entry_leaks(alloc, cx, above, &entries[i]) {
            return true;
        }
    }
    false
}

/// The universes of the variables.
fn universes_of(alloc: Global, entries: &[Entry]) -> Result<Vec<u32>, Stop>
    ensures are { IfOk result (λ v. v.items ≡ map (λ (e : Entry). e.universe) entries.now) }
    ensures cause { IfErr result (λ s. s ≡ Stop.Memory) }
{
    let mut list = Vec::new(alloc);
    for i in 0..entries.len() {
        list.push(entries[i].universe)?;
    }
    Ok(list)
}

/// The universes of the variables that a response leaves open.
fn universes_left(alloc: Global, variables: &[CanonicalVar]) -> Result<Vec<u32>, Stop>
    ensures are { IfOk result (λ v. v.items ≡ map (λ (x : CanonicalVar). x.universe) variables.now) }
    ensures cause { IfErr result (λ s. s ≡ Stop.Memory) }
{
    let mut list = Vec::new(alloc);
    for i in 0..variables.len() {
        list.push(variables[i].universe)?;
    }
    Ok(list)
}

/// Whether a placeholder of a universe above that one leaks, by what is known.
fn leaks_in(alloc: Global, cx: &Cx, inference: &Inference, above: u32) -> Result<bool, Stop>
    requires { IsKnown cx.now.trees inference.now }
    ensures yes { (m : TypingMode) → IfOk result (λ b. b ≡ true → Leaks above (state_of cx.now.trees m inference.now)) }
    ensures no { (m : TypingMode) → IfOk result (λ b. b ≡ false → Leaks above (state_of cx.now.trees m inference.now) → ⊥) }
    ensures cause { IfErr result (λ s. s ≡ Stop.Memory) }
{
    if values_leak(alloc, cx, above, inference.variables()) {
        return Ok(true);
    }
    let universes = universes_of(alloc, inference.variables())?;
    regions_leak(alloc, cx, above, universes.as_slice(), inference.regions())
}

impl Rounds {
    /// The newest universe of what is known.
    pub fn newest_universe(&self) -> u32
        ensures { result ≡ (state self.now).newest_universe }
    {
        self.inference.newest_universe()
    }

    /// It is noted whether the goal which is computed rests on a region that leaks, besides what is noted already.
    pub(crate) fn note_leak(&mut self, leaks: bool)
        ensures { self.new ≡ self.old }
    {
        if leaks {
            self.leaks = true;
        }
    }

    /// Whether a placeholder leaks of a universe that is newer than those which came with the goal that is computed. The only stop is
    /// `Stop::Memory`.
    pub(crate) fn leaks_newly(&self, alloc: Global) -> Result<bool, Stop>
        ensures { IfErr result (λ s. s ≡ Stop.Memory) }
    {
        if self.inference.newest_universe() <= self.above {
            return Ok(false);
        }
        self.leaks_above(alloc, self.above)
    }

    /// Whether what is written for the goal of that place may rest on a region that leaks.
    pub(crate) fn leaks_at(&self, place: usize) -> bool
        ensures { result ≡ leaks_at self.now.goals.table place }
    {
        if place >= self.goals.len() {
            return false;
        }
        self.goals.entry_at(place).1.leaks
    }

    /// Whether the constraints of a response ask of a placeholder to outlive a region that can't name it, whatever regions came with the
    /// goal. The only stop is `Stop::Memory`.
    pub fn response_leaks(&self, alloc: Global, response: &CanonicalResponse) -> Result<bool, Stop>
        requires { IsResponse self.now.context.trees response.now }
        ensures yes { IfOk result (λ b. b ≡ true → ResponseLeaks (response_of self.now.context.trees response.now)) }
        ensures no { IfOk result (λ b. b ≡ false → ResponseLeaks (response_of self.now.context.trees response.now) → ⊥) }
        ensures cause { IfErr result (λ s. s ≡ Stop.Memory) }
    {
        let universes = universes_left(alloc, response.vars.as_slice())?;
        regions_leak(
            alloc,
            &self.cx,
            0,
            universes.as_slice(),
            response.regions.as_slice(),
        )
    }

    /// Whether a region's placeholder of a universe above that one leaks, by what is known: it stands in the value of a variable that can't
    /// name it, or has to outlive a region that can't, by what is recorded: `'static`, another placeholder, or a variable of an older
    /// universe. The only stop is `Stop::Memory`.
    pub fn leaks_above(&self, alloc: Global, above: u32) -> Result<bool, Stop>
        ensures yes { IfOk result (λ b. b ≡ true → Leaks above (state self.now)) }
        ensures no { IfOk result (λ b. b ≡ false → Leaks above (state self.now) → ⊥) }
        ensures cause { IfErr result (λ s. s ≡ Stop.Memory) }
    {
        self.recall_well_kept();
        leaks_in(alloc, &self.cx, &self.inference, above)
    }
}
