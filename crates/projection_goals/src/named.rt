//! Types that the rules of the language name, and what they say of a type by its head.

ghost use Rattle.std.specs.Prelude.{◌≡◌, IfErr, IfOk};
ghost use Rattle.ir_trees.specs.Declarations.Context.{Grows};
ghost use Rattle.ir_trees.specs.Syntax.Words.{IsTy, ty_tree};
ghost use Rattle.candidate_eval.specs.Interface.Unmade.{IsUnmade};
ghost use Rattle.projection_goals.specs.LanguageTypes.{discriminant, discriminant_of_builtin, discriminant_of_shape, if_numeric, is_nothing, metadata, metadata_of_builtin, metadata_of_shape, named_type};

use ir_context::decl::Cx;
use ir_context::decl::make::{Build, Make};
use ir_trees::decl::definition::AdtShape;
use ir_trees::ir::heads::{Builtin, Head, VariableSort};
use ir_trees::ir::kinds::{Ty, TyKind, UintTy};
use ir_trees::ir::stop::Stop;
use ir_trees::ir::trees::Trees;

/// A type that the rules of the language name.
#[derive(Clone, Copy)]
pub enum NamedType {
    Error,
    Unit,
    Usize,
    U8,
}

impl NamedType {
    /// The type. `Stop::Memory` comes where a growth was refused, `Stop::NodesFull` where a node was not made.
    pub(crate) fn ty<M: Make>(self, make: &mut M) -> Result<Ty, Stop>
        ensures grows { Grows (M.context make.old) (M.context make.new) }
        ensures rest { M.rest make.new ≡ M.rest make.old }
        ensures sort { IfOk result (λ t. IsTy (M.context make.new).trees t) }
        ensures tree { IfOk result (λ t. ty_tree (M.context make.new).trees t ≡ named_type self) }
        ensures cause { IfErr result (IsUnmade (M.context make.old) (M.context make.new)) }
    {
        match self {
            NamedType::Error => make.mk_ty(TyKind::Error),
            NamedType::Unit => unit(make),
            NamedType::Usize => make.mk_ty(TyKind::Uint(UintTy::Usize)),
            NamedType::U8 => make.mk_ty(TyKind::Uint(UintTy::U8)),
        }
    }
}

/// The tuple of no types.
fn unit<M: Make>(make: &mut M) -> Result<Ty, Stop>
    ensures grows { Grows (M.context make.old) (M.context make.new) }
    ensures rest { M.rest make.new ≡ M.rest make.old }
    ensures sort { IfOk result (λ t. IsTy (M.context make.new).trees t) }
    ensures tree { IfOk result (λ t. ty_tree (M.context make.new).trees t ≡ named_type NamedType.Unit) }
    ensures cause { IfErr result (IsUnmade (M.context make.old) (M.context make.new)) }
{
    let none = make.mk_args(&[])?;
    make.mk_ty(TyKind::Tuple(none))
}

/// The type, where the variable stands for an integer or a floating-point type.
fn if_numeric(sort: VariableSort, named: NamedType) -> Option<NamedType>
    ensures { result ≡ if_numeric sort named }
{
    match sort {
        VariableSort::Integer | VariableSort::Floating => Some(named),
        VariableSort::General | VariableSort::Constant => None,
    }
}

/// Whether the type holds no other.
fn holds_nothing(cx: &Cx, ty: Ty) -> bool
    requires { IsTy cx.now.trees ty }
    ensures { result ≡ is_nothing (ty_tree cx.now.trees ty).children }
{
    cx.child(ty.0, 0).is_none()
}

/// The metadata of pointers to a type that no definition makes, where it is known; and whether the type holds no other.
fn metadata_of_builtin(builtin: Builtin, empty: bool) -> Option<NamedType>
    ensures { result ≡ metadata_of_builtin builtin empty }
{
    match builtin {
        Builtin::Str | Builtin::Slice => Some(NamedType::Usize),
        Builtin::Tuple if !empty => None,
        Builtin::UnsafeBinder => None,
        _ => Some(NamedType::Unit),
    }
}

/// The metadata of pointers to a data type, where it is known.
fn metadata_of_shape(shape: Option<AdtShape>) -> Option<NamedType>
    ensures { result ≡ metadata_of_shape shape }
{
    match shape {
        Some(AdtShape::Enum | AdtShape::Union) => Some(NamedType::Unit),
        Some(AdtShape::Struct) | None => None,
    }
}

/// The metadata of pointers to the type, where it is known.
pub(crate) fn metadata(cx: &Cx, ty: Ty) -> Option<NamedType>
    requires { IsTy cx.now.trees ty }
    ensures { let t = ty_tree cx.now.trees ty in result ≡ metadata cx.now t.head t.children }
{
    match cx.head(ty.0) {
        Head::Builtin(builtin) => metadata_of_builtin(builtin, holds_nothing(cx, ty)),
        Head::Adt(adt) => metadata_of_shape(cx.adt_shape(adt)),
        Head::Ref(_) | Head::Foreign(_) | Head::FnDef(_) | Head::Closure(_, _) => {
            Some(NamedType::Unit)
        }
        Head::Infer(variable) => if_numeric(variable.sort, NamedType::Unit),
        _ => None,
    }
}

/// The type of the discriminant of a type that no definition makes, where it is known.
fn discriminant_of_builtin(builtin: Builtin) -> Option<NamedType>
    ensures { result ≡ discriminant_of_builtin builtin }
{
    match builtin {
        Builtin::UnsafeBinder => None,
        _ => Some(NamedType::U8),
    }
}

/// The type of the discriminant of a data type, where it is known.
fn discriminant_of_shape(shape: Option<AdtShape>) -> Option<NamedType>
    ensures { result ≡ discriminant_of_shape shape }
{
    match shape {
        Some(AdtShape::Struct | AdtShape::Union) => Some(NamedType::U8),
        Some(AdtShape::Enum) | None => None,
    }
}

/// The type of the discriminant of a type with that head, where it is known.
pub(crate) fn discriminant(cx: &Cx, head: Head) -> Option<NamedType>
    ensures { result ≡ discriminant cx.now head }
{
    match head {
        Head::Builtin(builtin) => discriminant_of_builtin(builtin),
        Head::Adt(adt) => discriminant_of_shape(cx.adt_shape(adt)),
        Head::Ref(_) | Head::Foreign(_) | Head::Dynamic | Head::FnDef(_) | Head::Closure(_, _) =>
            Some(NamedType::U8),
        Head::Infer(variable) => if_numeric(variable.sort, NamedType::U8),
        _ => None,
    }
}
