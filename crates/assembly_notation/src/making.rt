//! What the types of a text are made in: declarations that go on, or a context over them.

ghost use Rattle.std.specs.Prelude.{◌≡◌, Bool, IsTrue, true, false, Option, Some, None, IfOk, IfNone};
ghost use Rattle.ir_trees.specs.Declarations.Context.{Grows};
ghost use Rattle.ir_trees.specs.Syntax.Kinds.{ty_head};
ghost use Rattle.ir_trees.specs.Syntax.Making.{Makes, a_list, a_region};
ghost use Rattle.ir_trees.specs.Declarations.References.{ArgumentsFit};
ghost use Rattle.ir_trees.specs.Syntax.Trees.{is_param};
ghost use Rattle.ir_trees.specs.Syntax.Words.{IsTy, IsArgs, IsPreds, ty_tree, kind_tree, preds_forest, bounds_forest, KindFits, ListFits, BoundsFit, AtMostOnePrincipal};
ghost use Rattle.assembly_notation.specs.Given.{IsNoted, GivenFits};
ghost use Rattle.assembly_notation.specs.Notation.{IsLeaf};
ghost use Rattle.assembly_notation.specs.declared.given.Given.{Given};

use crate::faults::Fault;
use crate::first::{first_type, no_arguments, static_region};
use crate::given::Given;
use ir_builder::decl::builder::DeclsBuilder;
use ir_context::decl::context::Cx;
use ir_context::decl::make::Build;
use ir_trees::ir::kinds::{
    Args, Binder, ExistentialPredicate, GenericArg, InferTy, Preds, Region, RegionKind, TraitRef,
    Ty, TyKind,
};
use ir_trees::ir::making::New;
use ir_trees::ir::stop::Stop;

/// What types can be made in. Where the arguments of what is made have to be those that it takes (`is_strict`), what is read is
/// asked about: no parameter stands in it, and its arguments fit.
pub trait Maker: Build {
    /// Whether the type that was made last is an alias, if that is noted.
    ghost noted: { Self → Option Bool };

    /// What is wrong with a type of that kind, which a word alone is: it is a parameter, a variable or an error where none may stand.
    fn misplaced<'a>(&self, kind: TyKind) -> Option<Fault<'a>>
        ensures { IfNone result (Self.is_strict ≡ true → is_param (ty_head kind) ≡ false) };

    /// The type of that kind, which the word begins. Besides `Fault::Stop`, `Fault::UnknownName` comes where a context's
    /// definitions don't take its arguments.
    fn ty<'a>(&mut self, kind: TyKind, word: &'a str) -> Result<Ty, Fault<'a>>
        requires { KindFits (Self.context self.old).trees kind }
        ensures grows { Grows (Self.context self.old) (Self.context self.new) }
        ensures sort { IfOk result (λ t. IsTy (Self.context self.new).trees t) }
        ensures tree { IfOk result (λ t. ty_tree (Self.context self.new).trees t ≡ kind_tree (Self.context self.old).trees kind) }
        ensures alias { IfOk result (IsNoted (noted self.new) (Self.context self.new).trees) };

    /// The type of that kind, which a word alone is. Its faults are those of `ty`.
    fn leaf<'a>(&mut self, kind: TyKind, word: &'a str) -> Result<Ty, Fault<'a>>
        requires { IsLeaf kind }
        ensures grows { Grows (Self.context self.old) (Self.context self.new) }
        ensures sort { IfOk result (λ t. IsTy (Self.context self.new).trees t) }
        ensures tree { IfOk result (λ t. ty_tree (Self.context self.new).trees t ≡ kind_tree (Self.context self.old).trees kind) }
        ensures alias { IfOk result (IsNoted (noted self.new) (Self.context self.new).trees) };

    /// The static region.
    fn static_region(&mut self) -> Result<Region, Stop>
        ensures { Makes (a_region RegionKind.Static) (Self.context self.old) (Self.context self.new) result };

    /// The list of these arguments.
    fn args(&mut self, list: Vec<GenericArg>) -> Result<Args, Stop>
        requires { ListFits (Self.context self.old).trees list.items }
        ensures { Makes (a_list list.items) (Self.context self.old) (Self.context self.new) result };

    /// The bounds of a `dyn` type, which the word begins. Its faults are those of `ty`.
    fn bounds<'a>(
        &mut self,
        bounds: &[Binder<ExistentialPredicate>],
        word: &'a str,
    ) -> Result<Preds, Fault<'a>>
        requires fit { BoundsFit (Self.context self.old).trees bounds.now }
        requires principal { AtMostOnePrincipal bounds.now }
        ensures grows { Grows (Self.context self.old) (Self.context self.new) }
        ensures sort { IfOk result (λ p. IsPreds (Self.context self.new).trees p) }
        ensures tree { IfOk result (λ p. preds_forest (Self.context self.new).trees p ≡ bounds_forest (Self.context self.old).trees bounds.now) };

    /// Whether the trait takes these arguments, as far as that is asked here.
    fn reference_fits(&self, trait_ref: TraitRef) -> bool
        requires { IsArgs (Self.context self.now).trees trait_ref.args }
        ensures { Self.is_strict ≡ true → IsTrue result → ArgumentsFit (Self.context self.now) trait_ref };
}

/// A context, where a query is read: variables may stand, and no parameters.
impl Maker for Cx {
    ghost noted = { λ _. None };

    fn misplaced<'a>(&self, kind: TyKind) -> Option<Fault<'a>> {
        match kind {
            TyKind::Param(_) => Some(Fault::Parameter),
            _ => None,
        }
    }

    fn ty<'a>(&mut self, kind: TyKind, word: &'a str) -> Result<Ty, Fault<'a>> {
        if !self.args_fit(kind) {
            return Err(Fault::UnknownName(word));
        }
        Ok(self.mk_ty(kind)?)
    }

    fn leaf<'a>(&mut self, kind: TyKind, word: &'a str) -> Result<Ty, Fault<'a>> {
        match first_type(self, kind) {
            Some(ty) => Ok(ty),
            None => self.ty(kind, word),
        }
    }

    fn static_region(&mut self) -> Result<Region, Stop> {
        match static_region(self) {
            Some(region) => Ok(region),
            None => self.mk_region(RegionKind::Static),
        }
    }

    fn args(&mut self, list: Vec<GenericArg>) -> Result<Args, Stop> {
        if list.is_empty() {
            if let Some(args) = no_arguments(self) {
                return Ok(args);
            }
        }
        self.mk_arg_list(list)
    }

    fn bounds<'a>(
        &mut self,
        bounds: &[Binder<ExistentialPredicate>],
        word: &'a str,
    ) -> Result<Preds, Fault<'a>> {
        if !self.bounds_args_fit(bounds) {
            return Err(Fault::UnknownName(word));
        }
        Ok(self.mk_preds(bounds)?)
    }

    fn reference_fits(&self, trait_ref: TraitRef) -> bool {
        self.trait_ref_args_fit(trait_ref)
    }
}

/// Declarations that go on, with what goals are to be asked under, and what a line of them may hold.
#[derive(Drop)]
pub struct Draft {
    pub builder: DeclsBuilder,
    pub given: Given,
    /// Whether parameters may stand in the types of the line.
    pub has_parameters: bool,
    /// Whether errors may.
    pub has_errors: bool,
    /// Whether the type that was made last is an alias.
    pub is_alias: bool,
    /// Whether one was made that is, since this was last said to be false.
    pub has_alias: bool,
    pub ghost given_fits: { GivenFits builder.trees given },
    pub ghost alias_is_noted: { has_alias ≡ false → is_alias ≡ false },
}

impl Build for Draft {
    ghost context = { λ d. d.builder };

    ghost Rest = { Given × (Bool × (Bool × (Bool × Bool))) };

    ghost rest = { λ d. (d.given, (d.has_parameters, (d.has_errors, (d.is_alias, d.has_alias)))) };

    ghost is_strict = { false };

    #[inline(always)]
    fn make(&mut self, new: New<'_>) -> Result<u32, Stop> {
        self.builder.make(new)
    }
}

/// Declarations, whose arguments are looked at when they end: no variables may stand.
impl Maker for Draft {
    ghost noted = { λ d. Some d.is_alias };

    fn misplaced<'a>(&self, kind: TyKind) -> Option<Fault<'a>> {
        match kind {
            TyKind::Infer(InferTy::TyVar(_)) => Some(Fault::Variable),
            TyKind::Param(_) if !self.has_parameters => Some(Fault::Parameter),
            TyKind::Error if !self.has_errors => Some(Fault::Error),
            _ => None,
        }
    }

    fn ty<'a>(&mut self, kind: TyKind, _: &'a str) -> Result<Ty, Fault<'a>> {
        self.is_alias = matches!(kind, TyKind::Alias(_));
        self.has_alias |= self.is_alias;
        Ok(self.builder.mk_ty(kind)?)
    }

    fn leaf<'a>(&mut self, kind: TyKind, word: &'a str) -> Result<Ty, Fault<'a>> {
        self.ty(kind, word)
    }

    fn static_region(&mut self) -> Result<Region, Stop> {
        self.mk_region(RegionKind::Static)
    }

    fn args(&mut self, list: Vec<GenericArg>) -> Result<Args, Stop> {
        self.builder.mk_arg_list(list)
    }

    fn bounds<'a>(
        &mut self,
        bounds: &[Binder<ExistentialPredicate>],
        _: &'a str,
    ) -> Result<Preds, Fault<'a>> {
        Ok(self.builder.mk_preds(bounds)?)
    }

    fn reference_fits(&self, _: TraitRef) -> bool {
        true
    }
}
