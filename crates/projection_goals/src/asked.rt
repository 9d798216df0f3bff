//! Whether a goal may be asked, and what it mentions.

ghost use Rattle.std.specs.Prelude.{◌≡◌, true, IfErr, IfOk};
ghost use Rattle.ir_trees.specs.Declarations.Context.{Grows};
ghost use Rattle.ir_trees.specs.declared.ir.kinds.AliasKind.TheVariants as alias_kind;
ghost use Rattle.ir_trees.specs.Syntax.Trees.{heights, join};
ghost use Rattle.ir_trees.specs.Syntax.Words.{IsArgs, IsMkStop, IsParamEnv, IsTy, args_forest, ty_tree};
ghost use Rattle.ir_trees.specs.Unification.Substitutions.{alone};
ghost use Rattle.candidate_assembly.specs.Goals.KindShown.{IsGoal};
ghost use Rattle.projection_goals.specs.MayBeAsked.{Fits, IsClosed};
ghost use Rattle.projection_goals.specs.Normalizing.{normalizes_kind};

use crate::kind::{NormalizesTo, trait_of};
use ir_context::decl::Cx;
use ir_context::decl::make::Make;
use ir_trees::ir::heads::Flag;
use ir_trees::ir::kinds::{AliasKind, Args, AssocId, GenericArg, ParamEnv, TraitRef, TyKind};
use ir_trees::ir::stop::Stop;
use ir_trees::ir::trees::Trees;
use std::alloc::Global;

impl NormalizesTo {
    /// Whether it is a goal of the context, as the calls for such goals ask: a projection, with the arguments that it and its trait take, and
    /// neither a parameter nor an escaping bound variable in them or in the term.
    pub fn may_be_asked(self, cx: &Cx, param_env: ParamEnv) -> bool
        requires env { IsParamEnv cx.now.trees param_env }
        requires args { IsArgs cx.now.trees self.alias.args }
        requires term { IsTy cx.now.trees self.term }
        ensures goal { result ≡ true → IsGoal normalizes_kind cx.now param_env self }
        ensures projection { result ≡ true → self.alias.kind ≡ alias_kind.Projection }
        ensures all { Fits cx.now self → IsClosed cx.now self → result ≡ true }
    {
        let _ = param_env;
        self.fits(cx) && self.is_closed(cx)
    }

    /// Whether it is about a projection, with the arguments that this and its trait take.
    fn fits(self, cx: &Cx) -> bool
        requires { IsArgs cx.now.trees self.alias.args }
        ensures fits { result ≡ true → Fits cx.now self }
        ensures all { Fits cx.now self → result ≡ true }
    {
        let AliasKind::Projection = self.alias.kind else {
            return false;
        };
        if !cx.args_fit(TyKind::Alias(self.alias)) {
            return false;
        }
        cx.trait_ref_args_fit(TraitRef {
            def_id: trait_of(cx, AssocId(self.alias.id.0)),
            args: self.alias.args,
        })
    }

    /// Whether neither a parameter nor an escaping bound variable stands in it.
    fn is_closed(self, cx: &Cx) -> bool
        requires args { IsArgs cx.now.trees self.alias.args }
        requires term { IsTy cx.now.trees self.term }
        ensures closed { result ≡ true → IsClosed cx.now self }
        ensures all { IsClosed cx.now self → result ≡ true }
    {
        if cx.has(self.alias.args, Flag::Param) {
            return false;
        }
        if cx.has(self.term, Flag::Param) {
            return false;
        }
        if cx.has_escaping_bound_vars(self.alias.args) {
            return false;
        }
        !cx.has_escaping_bound_vars(self.term)
    }

    /// The list of all that it mentions: the projection's arguments, and then the term. Whoever finds that the list stands at a state knows
    /// that the goal does. `Stop::Memory` comes where a growth was refused, `Stop::NodesFull` where the list wasn't made; nothing is made
    /// then.
    pub fn mentioned<M: Make>(self, alloc: Global, make: &mut M) -> Result<Args, Stop>
        requires args { IsArgs (M.context make.old).trees self.alias.args }
        requires term { IsTy (M.context make.old).trees self.term }
        ensures grows { Grows (M.context make.old) (M.context make.new) }
        ensures rest { M.rest make.new ≡ M.rest make.old }
        ensures sort { IfOk result (λ l. IsArgs (M.context make.new).trees l) }
        ensures is { let ts = (M.context make.old).trees in IfOk result (λ l. args_forest (M.context make.new).trees l ≡ join (args_forest ts self.alias.args) (alone (ty_tree ts self.term))) }
        ensures unchanged { IfErr result (λ _. M.context make.new ≡ M.context make.old) }
        ensures cause { let ts = (M.context make.old).trees in IfErr result (λ s. IsMkStop ts (heights (join (args_forest ts self.alias.args) (alone (ty_tree ts self.term)))) s) }
    {
        let mut list = Vec::from_slice(alloc, make.cx().args(self.alias.args))?;
        list.push(GenericArg::Ty(self.term))?;
        make.mk_args(list.as_slice())
    }
}
