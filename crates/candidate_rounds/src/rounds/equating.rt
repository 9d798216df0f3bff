//! Trees are made equal: what is first on both sides is looked at, and then what is left.

ghost use Rattle.std.specs.Prelude.{◌≡◌, ◌<◌, ◌⊎◌, Some, None, List, [], ◌∷◌, ◌++◌, IfOk, IfErr, OnOk, OnErr, MatchOption, length, reverse, ◌&&◌, false, true};
ghost use Rattle.ir_trees.specs.Instantiation.Folds.{IsArg, arg_tree};
ghost use Rattle.ir_trees.specs.Syntax.Nodes.{tree_at};
ghost use Rattle.ir_trees.specs.Unification.Substitutions.{alone};
ghost use Rattle.ir_trees.specs.Syntax.Trees.{holds, none, skip};
ghost use Rattle.ir_trees.specs.Unification.Unify.{same_head};
ghost use Rattle.ir_trees.specs.Syntax.Words.{IsArgs, IsRegion, args_forest, region_tree};
ghost use Rattle.candidate_eval.specs.Interface.Evaluators.{resolved_root, root_value};
ghost use Rattle.candidate_eval.specs.Judges.States.{resolved_tree};
ghost use Rattle.candidate_eval.specs.Interface.Accounts.{if_refused, if_stopped};
ghost use Rattle.rounds_judge.specs.Equations.Active.{AreOne, is_active};
ghost use Rattle.rounds_judge.specs.Equations.Equating.{Pair, Refused, equated, looks, matched, met, offered, unified, visited, with_equal_regions};
ghost use Rattle.candidate_rounds.specs.Calls.Frames.{AreFrames, AreRegionsOf, IsChildFrom, IsFrame, both_regions, current_at, full_scope, left_at, pair_below, pairs_from, pairs_left, pairs_with, region_under, taken_if, with_binder};
ghost use Rattle.candidate_rounds.specs.Evaluators.Inferences.{IsFullAt};
ghost use Rattle.candidate_rounds.specs.Evaluators.Known.{GoesOn, judged_at, listing, state, tree_of};
ghost use Rattle.candidate_rounds.specs.Evaluators.Stopping.{IsEqualityStop, IsEquationStop, IsLookStop, IsMatchStop, IsMeetingStop, IsOfferStop, IsTreeStop, IsUnifyingStop, StopsAsBefore, StopsFrom};
ghost use Rattle.rounds_judge.specs.Equations.Scopes.{entered, has_binder, has_variables};

use crate::rounds::Rounds;
use crate::rounds::repeating::{Met, has_variables};
use crate::rounds::resolving::variable_at;
use crate::rounds::walking::is_passive;
use candidate_eval::eval::refusal::NoSolutionOrStop;
use ir_context::decl::context::Cx;
use ir_trees::ir::heads::Head;
use ir_trees::ir::kinds::{Args, GenericArg, Region};
use ir_trees::ir::numbered::Numbered;
use ir_trees::ir::stop::Stop;
use ir_trees::ir::trees::Trees;
use std::alloc::Global;

/// Two nodes of which what stands below is still to be made equal, from a place on.
#[derive(Clone, Copy)]
pub(crate) struct Frame {
    left: u32,
    right: u32,
    place: usize,
    /// How many of the binders that were entered are around them.
    binders: usize,
    /// True only where both are lists of arguments.
    are_lists: bool,
}

/// What is left of an equation.
#[derive(Drop)]
pub(crate) struct Rest {
    /// What comes next stands last.
    frames: Vec<Frame>,
    /// For each binder that was entered, the universe of the placeholders that stand for its variables; the innermost last.
    universes: Vec<u32>,
    /// The nodes of frames that came next.
    met: Met,
}

impl Rest {
    /// What is left of an equation of which nothing was looked at yet.
    fn new(alloc: Global) -> Rest
        ensures frames { result.frames.items ≡ [] }
        ensures universes { result.universes.items ≡ [] }
    {
        Rest {
            frames: Vec::new(alloc),
            universes: Vec::new(alloc),
            met: Met::new(alloc),
        }
    }

    /// How many binders were entered.
    fn binders(&self) -> usize
        ensures { result ≡ length self.now.universes.items }
    {
        self.universes.len()
    }

    /// A frame comes next. The only stop is `Stop::Memory`.
    fn push(&mut self, frame: Frame) -> Result<(), Stop>
        ensures universes { self.new.universes.items ≡ self.old.universes.items }
        ensures frames { OnOk result (self.new.frames.items ≡ self.old.frames.items ++ frame ∷ []) }
        ensures cause { IfErr result (λ s. s ≡ Stop.Memory) }
    {
        Ok(self.frames.push(frame)?)
    }
}

/// The number of the tree of that place below a number, from 0 on, if there are so many. A list of arguments isn't walked to the
/// place.
fn child_at(cx: &Cx, number: u32, place: usize, is_list: bool) -> Option<u32>
    requires number { number < length cx.now.trees }
    requires list { is_list ≡ true → IsArgs cx.now.trees (record { 0 = number }) }
    ensures { let ts = cx.now.trees in let f = (tree_at ts number).children in MatchOption result (skip place f ≡ none) (IsChildFrom ts f place) }
{
    if !is_list {
        return cx.child(number, place);
    }
    let list = cx.args(Args(number));
    if place >= list.len() {
        return None;
    }
    Some(list[place].number())
}

impl Rounds {
    /// The second number is offered as its value to the first, if that is a variable, which has none. Says whether it takes it. It stops
    /// as `bind` does.
    fn offered(
        &mut self,
        alloc: Global,
        universes: &[u32],
        to: u32,
        number: u32,
    ) -> Result<bool, Stop>
        requires to { to < length self.old.context.trees }
        requires number { number < length self.old.context.trees }
        requires free { root_value (state self.old) (tree_at self.old.context.trees to).head ≡ None }
        ensures goes { GoesOn self.old self.new }
        ensures taken { (more : List Pair) → IfOk result (λ b. judged_at self.old offered (reverse universes.now) (tree_of self.old to).head (tree_of self.old number) more ≡ taken_if b (state self.new) more) }
        ensures declined { IfOk result (λ b. b ≡ false → state self.new ≡ state self.old) }
        ensures cause { IfErr result (λ s. StopsFrom IsOfferStop self.old self.new (reverse universes.now) (tree_of self.old to).head (tree_of self.old number) s) }
    {
        self.recall_well_kept();
        let Some(variable) = variable_at(&self.cx, to) else {
            return Ok(false);
        };
        let Some(arg) = self.cx.argument(number) else {
            return Ok(false);
        };
        let value = self.value_for(alloc, universes, arg)?;
        if !self.may_take(variable, value) {
            return Ok(false);
        }
        self.bind(alloc, variable, value)?;
        Ok(true)
    }

    /// Two regions are recorded as equal, under the binders that were entered.
    fn equal_regions(&mut self, universes: &[u32], left: Region, right: Region) -> Result<(), Stop>
        requires left { IsRegion self.old.context.trees left }
        requires right { IsRegion self.old.context.trees right }
        ensures goes { GoesOn self.old self.new }
        ensures recorded { let ts = self.old.context.trees in OnOk result (state self.new ≡ with_equal_regions (state self.old) (region_under ts universes.now left) (region_under ts universes.now right)) }
        ensures cause { let ts = self.old.context.trees in IfErr result (λ s. IsEqualityStop self.new.context.trees (reverse universes.now) (region_tree ts left) (region_tree ts right) s) }
    {
        let left = self.placed_region(universes, left)?;
        let right = self.placed_region(universes, right)?;
        self.record_equal_regions(left, right)
    }

    /// Enters the binder of a number, with a fresh universe if it has variables. Says what the newest universe is then. It stops as
    /// `enter` does.
    fn enter_binder(&mut self, number: u32) -> Result<u32, Stop>
        requires { number < length self.old.context.trees }
        ensures goes { GoesOn self.old self.new }
        ensures context { self.new.context ≡ self.old.context }
        ensures entered { OnOk result (state self.new ≡ with_binder (has_variables (tree_at self.old.context.trees number).children) (state self.old)) }
        ensures universe { IfOk result (λ u. u ≡ (state self.new).newest_universe) }
        ensures cause { IfErr result (λ s. (has_variables (tree_at self.old.context.trees number).children ≡ true) × IsFullAt (state self.old).newest_universe s) }
    {
        if has_variables(&self.cx, number) {
            self.enter()?;
        }
        Ok(self.inference.newest_universe())
    }

    /// What is below two numbers of one head is left, before all else; a binder is entered, with a fresh universe if it has
    /// variables. It stops as `enter` does.
    fn enter_below(&mut self, rest: &mut Rest, left: u32, right: u32) -> Result<(), Stop>
        requires left { left < length self.old.context.trees }
        requires right { right < length self.old.context.trees }
        requires frames { AreFrames self.old.context.trees rest.old.universes.items rest.old.frames.items }
        ensures goes { GoesOn self.old self.new }
        ensures context { self.new.context ≡ self.old.context }
        ensures frames { OnOk result (AreFrames self.old.context.trees rest.new.universes.items rest.new.frames.items) }
        ensures state { let ts = self.old.context.trees in OnOk result (state self.new ≡ entered (state self.old) (tree_at ts left).head (tree_at ts left).children) }
        ensures below { OnOk result (pairs_left self.old rest.new ≡ pair_below (state self.old) (full_scope rest.old) (tree_of self.old left) (tree_of self.old right) ∷ pairs_left self.old rest.old) }
        ensures cause { let t = tree_at self.old.context.trees left in IfErr result (λ s. (s ≡ Stop.Memory) ⊎ ((has_binder t.head && has_variables t.children ≡ true) × IsFullAt (state self.old).newest_universe s)) }
    {
        if self.cx.head(left).binders() == 1 {
            let universe = self.enter_binder(left)?;
            rest.universes.push(universe)?;
        }
        let binders = rest.binders();
        rest.push(Frame {
            left,
            right,
            place: 0,
            binders,
            are_lists: false,
        })
    }

    /// The regions of two numbers, if both are of regions.
    fn regions(&self, left: u32, right: u32) -> Option<(Region, Region)>
        requires left { left < length self.now.context.trees }
        requires right { right < length self.now.context.trees }
        ensures { let ts = self.now.context.trees in MatchOption result (both_regions ts left right ≡ false) (AreRegionsOf ts left right) }
    {
        match (self.cx.head(left), self.cx.head(right)) {
            (Head::Region(_), Head::Region(_)) => Some((Region(left), Region(right))),
            _ => None,
        }
    }

    /// Whether two numbers have one head.
    fn have_one_head(&self, left: u32, right: u32) -> bool
        requires left { left < length self.now.context.trees }
        requires right { right < length self.now.context.trees }
        ensures { result ≡ same_head (tree_at self.now.context.trees left).head (tree_at self.now.context.trees right).head }
    {
        self.cx.head(left) == self.cx.head(right)
    }

    /// Two regions are recorded as equal, and two numbers of one head leave what is below them; others can't be made equal.
    fn matched(&mut self, rest: &mut Rest, left: u32, right: u32) -> Result<(), NoSolutionOrStop>
        requires left { left < length self.old.context.trees }
        requires right { right < length self.old.context.trees }
        requires frames { AreFrames self.old.context.trees rest.old.universes.items rest.old.frames.items }
        ensures goes { GoesOn self.old self.new }
        ensures frames { OnOk result (AreFrames self.new.context.trees rest.new.universes.items rest.new.frames.items) }
        ensures ok { OnOk result (matched (state self.old) (full_scope rest.old) (tree_of self.old left) (tree_of self.old right) (pairs_left self.old rest.old) ≡ left_at self.new rest.new) }
        ensures refused { IfErr result (if_refused (matched (state self.old) (full_scope rest.old) (tree_of self.old left) (tree_of self.old right) (pairs_left self.old rest.old) ≡ Refused)) }
        ensures cause { IfErr result (if_stopped (λ s. IsMatchStop self.new.context.trees (state self.old) (full_scope rest.old) (tree_of self.old left) (tree_of self.old right) s)) }
    {
        if let Some((left, right)) = self.regions(left, right) {
            return Ok(self.equal_regions(rest.universes.as_slice(), left, right)?);
        }
        if !self.have_one_head(left, right) {
            return Err(NoSolutionOrStop::NoSolution);
        }
        Ok(self.enter_below(rest, left, right)?)
    }

    /// What a number is at the state: see `current`. What is no type, constant or region is itself.
    fn current_number(&mut self, alloc: Global, number: u32) -> Result<u32, Stop>
        requires { number < length self.old.context.trees }
        ensures goes { GoesOn self.old self.new }
        ensures state { state self.new ≡ state self.old }
        ensures inside { IfOk result (λ n. n < length self.new.context.trees) }
        ensures tree { IfOk result (λ n. tree_of self.new n ≡ current_at self.old number) }
        ensures cause { let S = state self.old in IfErr result (λ s. IsTreeStop self.new.context.trees (resolved_tree S (resolved_root S (tree_at self.old.context.trees number))) s) }
    {
        match self.cx.argument(number) {
            Some(arg) => Ok(self.current(alloc, arg)?.number()),
            None => Ok(number),
        }
    }

    /// Two trees meet, of which none is a variable with a value: the left one's variable goes before the right one's, and where neither
    /// takes the other they have to match.
    fn meet(
        &mut self,
        alloc: Global,
        rest: &mut Rest,
        left: u32,
        right: u32,
    ) -> Result<(), NoSolutionOrStop>
        requires left { left < length self.old.context.trees }
        requires right { right < length self.old.context.trees }
        requires left_free { root_value (state self.old) (tree_at self.old.context.trees left).head ≡ None }
        requires right_free { root_value (state self.old) (tree_at self.old.context.trees right).head ≡ None }
        requires frames { AreFrames self.old.context.trees rest.old.universes.items rest.old.frames.items }
        ensures goes { GoesOn self.old self.new }
        ensures frames { OnOk result (AreFrames self.new.context.trees rest.new.universes.items rest.new.frames.items) }
        ensures ok { OnOk result (judged_at self.old met (full_scope rest.old) (tree_of self.old left) (tree_of self.old right) (pairs_left self.old rest.old) ≡ left_at self.new rest.new) }
        ensures refused { IfErr result (if_refused (judged_at self.old met (full_scope rest.old) (tree_of self.old left) (tree_of self.old right) (pairs_left self.old rest.old) ≡ Refused)) }
        ensures cause { IfErr result (if_stopped (λ s. StopsFrom IsMeetingStop self.old self.new (full_scope rest.old) (tree_of self.old left) (tree_of self.old right) s)) }
    {
        self.recall_well_kept();
        if self.offered(alloc, rest.universes.as_slice(), left, right)? {
            return Ok(());
        }
        if self.offered(alloc, rest.universes.as_slice(), right, left)? {
            return Ok(());
        }
        self.matched(rest, left, right)
    }

    /// Two trees meet as they are at the state.
    fn meet_current(
        &mut self,
        alloc: Global,
        rest: &mut Rest,
        left: u32,
        right: u32,
    ) -> Result<(), NoSolutionOrStop>
        requires left { left < length self.old.context.trees }
        requires right { right < length self.old.context.trees }
        requires frames { AreFrames self.old.context.trees rest.old.universes.items rest.old.frames.items }
        ensures goes { GoesOn self.old self.new }
        ensures frames { OnOk result (AreFrames self.new.context.trees rest.new.universes.items rest.new.frames.items) }
        ensures ok { OnOk result (judged_at self.old met (full_scope rest.old) (current_at self.old left) (current_at self.old right) (pairs_left self.old rest.old) ≡ left_at self.new rest.new) }
        ensures refused { IfErr result (if_refused (judged_at self.old met (full_scope rest.old) (current_at self.old left) (current_at self.old right) (pairs_left self.old rest.old) ≡ Refused)) }
        ensures cause { IfErr result (if_stopped (λ s. StopsFrom IsLookStop self.old self.new (full_scope rest.old) (tree_of self.old left) (tree_of self.old right) s)) }
    {
        self.recall_well_kept();
        let left = self.current_number(alloc, left)?;
        let right = self.current_number(alloc, right)?;
        self.meet(alloc, rest, left, right)
    }

    /// Looks at what is first on both sides of a frame, which is taken off what is left. Besides what stops `meet_current`,
    /// `Stop::NodesFull` comes where a place can't be counted.
    fn visit(
        &mut self,
        alloc: Global,
        rest: &mut Rest,
        frame: Frame,
    ) -> Result<(), NoSolutionOrStop>
        requires frame { IsFrame self.old.context.trees frame }
        requires binders { frame.binders ≡ length rest.old.universes.items }
        requires frames { AreFrames self.old.context.trees rest.old.universes.items rest.old.frames.items }
        ensures goes { GoesOn self.old self.new }
        ensures frames { OnOk result (AreFrames self.new.context.trees rest.new.universes.items rest.new.frames.items) }
        ensures ok { OnOk result (judged_at self.old visited (pairs_from self.old rest.old frame) ≡ left_at self.new rest.new) }
        ensures refused { IfErr result (if_refused (judged_at self.old visited (pairs_from self.old rest.old frame) ≡ Refused)) }
        ensures cause { IfErr result (if_stopped (λ s. IsUnifyingStop self.new.context.trees (listing self.old) s (state self.old) (pairs_from self.old rest.old frame))) }
    {
        let left = child_at(&self.cx, frame.left, frame.place, frame.are_lists);
        let right = child_at(&self.cx, frame.right, frame.place, frame.are_lists);
        match (left, right) {
            (None, None) => Ok(()),
            (Some(left), Some(right)) => {
                let Some(place) = frame.place.checked_add(1) else {
                    return Err(NoSolutionOrStop::Stop(Stop::NodesFull));
                };
                rest.push(Frame { place, ..frame })?;
                self.meet_current(alloc, rest, left, right)
            }
            _ => Err(NoSolutionOrStop::NoSolution),
        }
    }

    /// Whether a frame may be passed over: one node is on both sides, and nothing is active below it. Looks there would leave the state as
    /// it is, once for each place in which a part stands.
    fn may_pass_over(&self, alloc: Global, frame: Frame) -> bool
        requires { IsFrame self.now.context.trees frame }
        ensures { let r = self.now in result ≡ true → (frame.right ≡ frame.left) × (frame.place ≡ 0) × (holds (is_active (state r)) (tree_of r frame.left).children ≡ false) }
    {
        frame.left == frame.right
            && (frame.place == 0 && is_passive(alloc, &self.cx, &self.inference, frame.left))
    }

    /// Whether the nodes of a frame, types or constants at which nothing was looked yet, have met before, and what is below them is one by
    /// now. All looks there would leave the state as it is then.
    fn is_repeated(&mut self, alloc: Global, rest: &mut Rest, frame: Frame) -> bool
        requires { IsFrame self.old.context.trees frame }
        ensures goes { GoesOn self.old self.new }
        ensures state { state self.new ≡ state self.old }
        ensures universes { rest.new.universes.items ≡ rest.old.universes.items }
        ensures frames { rest.new.frames.items ≡ rest.old.frames.items }
        ensures one { result ≡ true → (frame.place ≡ 0) × AreOne (listing self.old) (state self.old) (tree_of self.old frame.left).children (tree_of self.old frame.right).children }
    {
        if frame.place != 0 || self.cx.argument(frame.left).is_none() {
            return false;
        }
        if !rest.met.meet_again(frame.left, frame.right) {
            return false;
        }
        let is_one = self.are_one(alloc, frame.left, frame.right);
        rest.met.learn(is_one);
        is_one
    }

    /// One look: what is first on both sides of a frame, which stood last, under the binders that are around it; or all looks at a frame
    /// that may be passed over. Whatever stops what is left then is among what stops all that was left.
    fn look(&mut self, alloc: Global, rest: &mut Rest, frame: Frame) -> Result<(), NoSolutionOrStop>
        requires { AreFrames self.old.context.trees rest.old.universes.items (rest.old.frames.items ++ frame ∷ []) }
        ensures goes { GoesOn self.old self.new }
        ensures frames { OnOk result (AreFrames self.new.context.trees rest.new.universes.items rest.new.frames.items) }
        ensures later { OnOk result (StopsAsBefore (listing self.old) (state self.old) (pairs_with self.old rest.old frame) (listing self.new) (state self.new) (pairs_left self.new rest.new)) }
        ensures less { OnOk result (judged_at self.new looks (pairs_left self.new rest.new) < judged_at self.old looks (pairs_with self.old rest.old frame)) }
        ensures ok { OnOk result (judged_at self.old unified (pairs_with self.old rest.old frame) ≡ judged_at self.new unified (pairs_left self.new rest.new)) }
        ensures refused { IfErr result (if_refused (judged_at self.old unified (pairs_with self.old rest.old frame) ≡ None)) }
        ensures cause { IfErr result (if_stopped (λ s. IsUnifyingStop self.new.context.trees (listing self.old) s (state self.old) (pairs_with self.old rest.old frame))) }
    {
        self.recall_well_kept();
        rest.universes.truncate(frame.binders);
        if self.may_pass_over(alloc, frame) {
            return Ok(());
        }
        if self.is_repeated(alloc, rest, frame) {
            return Ok(());
        }
        self.visit(alloc, rest, frame)
    }

    /// Looks at what is left until nothing is.
    fn unify(&mut self, alloc: Global, rest: &mut Rest) -> Result<(), NoSolutionOrStop>
        requires { AreFrames self.old.context.trees rest.old.universes.items rest.old.frames.items }
        ensures goes { GoesOn self.old self.new }
        ensures ok { OnOk result (judged_at self.old unified (pairs_left self.old rest.old) ≡ Some (state self.new)) }
        ensures refused { IfErr result (if_refused (judged_at self.old unified (pairs_left self.old rest.old) ≡ None)) }
        ensures cause { IfErr result (if_stopped (λ s. IsUnifyingStop self.new.context.trees (listing self.old) s (state self.old) (pairs_left self.old rest.old))) }
    {
        while let Some(frame) = rest.frames.pop() {
            self.look(alloc, rest, frame)?;
        }
        Ok(())
    }

    /// Two types, constants or regions are made equal. Where they can't be, and where it stops, what is known is what it was. Besides
    /// `Stop::Memory`, `Stop::NodesFull` comes where no numbers are left, a tree would be higher than 1,024, or a node has more children
    /// than can be counted.
    pub(crate) fn equate(
        &mut self,
        alloc: Global,
        a: GenericArg,
        b: GenericArg,
    ) -> Result<(), NoSolutionOrStop>
        requires left { IsArg self.old.context.trees a }
        requires right { IsArg self.old.context.trees b }
        ensures goes { GoesOn self.old self.new }
        ensures ok { let ts = self.old.context.trees in OnOk result (judged_at self.old equated (alone (arg_tree ts a)) (alone (arg_tree ts b)) ≡ Some (state self.new)) }
        ensures refused { let ts = self.old.context.trees in IfErr result (if_refused (judged_at self.old equated (alone (arg_tree ts a)) (alone (arg_tree ts b)) ≡ None)) }
        ensures cause { let ts = self.old.context.trees in IfErr result (if_stopped (λ s. StopsFrom IsEquationStop self.old self.new (alone (arg_tree ts a)) (alone (arg_tree ts b)) s)) }
        ensures undone { OnErr result (self.new.inference ≡ self.old.inference) }
    {
        self.recall_well_kept();
        let changes = self.inference.changes();
        let result = self.equate_numbers(alloc, a.number(), b.number());
        if result.is_err() {
            self.undo_to(changes);
        }
        result
    }

    /// Two lists are made equal, member by member; what is said of `equate` holds here, too.
    pub(crate) fn equate_args(
        &mut self,
        alloc: Global,
        a: Args,
        b: Args,
    ) -> Result<(), NoSolutionOrStop>
        requires left { IsArgs self.old.context.trees a }
        requires right { IsArgs self.old.context.trees b }
        ensures goes { GoesOn self.old self.new }
        ensures ok { let ts = self.old.context.trees in OnOk result (judged_at self.old equated (args_forest ts a) (args_forest ts b) ≡ Some (state self.new)) }
        ensures refused { let ts = self.old.context.trees in IfErr result (if_refused (judged_at self.old equated (args_forest ts a) (args_forest ts b) ≡ None)) }
        ensures cause { let ts = self.old.context.trees in IfErr result (if_stopped (λ s. StopsFrom IsEquationStop self.old self.new (args_forest ts a) (args_forest ts b) s)) }
        ensures undone { OnErr result (self.new.inference ≡ self.old.inference) }
    {
        self.recall_well_kept();
        let changes = self.inference.changes();
        let result = self.equate_below(alloc, a, b);
        if result.is_err() {
            self.undo_to(changes);
        }
        result
    }

    /// The members of two lists are made equal. After a refusal or a stop some changes may be left.
    fn equate_below(&mut self, alloc: Global, a: Args, b: Args) -> Result<(), NoSolutionOrStop>
        requires left { IsArgs self.old.context.trees a }
        requires right { IsArgs self.old.context.trees b }
        ensures goes { GoesOn self.old self.new }
        ensures ok { let ts = self.old.context.trees in OnOk result (judged_at self.old equated (args_forest ts a) (args_forest ts b) ≡ Some (state self.new)) }
        ensures refused { let ts = self.old.context.trees in IfErr result (if_refused (judged_at self.old equated (args_forest ts a) (args_forest ts b) ≡ None)) }
        ensures cause { let ts = self.old.context.trees in IfErr result (if_stopped (λ s. StopsFrom IsEquationStop self.old self.new (args_forest ts a) (args_forest ts b) s)) }
    {
        let mut rest = Rest::new(alloc);
        rest.push(Frame {
            left: a.0,
            right: b.0,
            place: 0,
            binders: 0,
            are_lists: true,
        })?;
        self.unify(alloc, &mut rest)
    }

    /// The trees of two numbers are made equal. After a refusal or a stop some changes may be left.
    fn equate_numbers(&mut self, alloc: Global, a: u32, b: u32) -> Result<(), NoSolutionOrStop>
        requires left { a < length self.old.context.trees }
        requires right { b < length self.old.context.trees }
        ensures goes { GoesOn self.old self.new }
        ensures ok { let ts = self.old.context.trees in OnOk result (judged_at self.old equated (alone (tree_at ts a)) (alone (tree_at ts b)) ≡ Some (state self.new)) }
        ensures refused { let ts = self.old.context.trees in IfErr result (if_refused (judged_at self.old equated (alone (tree_at ts a)) (alone (tree_at ts b)) ≡ None)) }
        ensures cause { let ts = self.old.context.trees in IfErr result (if_stopped (λ s. StopsFrom IsEquationStop self.old self.new (alone (tree_at ts a)) (alone (tree_at ts b)) s)) }
    {
        self.recall_well_kept();
        let mut rest = Rest::new(alloc);
        self.meet_current(alloc, &mut rest, a, b)?;
        self.unify(alloc, &mut rest)
    }
}
