//! What a definition is: its crate, the kinds of its parameters, its flags.

ghost use Rattle.std.specs.Prelude.{◌≡◌, ◌↔◌, IsTrue, map};
ghost use Rattle.std.specs.List.{list_all};
ghost use Rattle.ir_trees.specs.Declarations.Context.{begins_with_type as begins, parameter_kind};
ghost use Rattle.ir_trees.specs.Syntax.Kinds.{arg_kind};
ghost use Rattle.ir_trees.specs.Declarations.Parameters.{is_type_kind, is_type_arg};

use crate::ir::at::at;
use crate::ir::kinds::{Binder, FnSig, GenericArg, TraitId, Ty, VarKind};
use crate::ir::numbered::Numbered;
use std::alloc::{AllocError, Global};
use std::marker::Model;

/// A crate of the object language, numbered from 0 in the order in which crates are added.
#[derive(Clone, Copy, Debug, PartialEq, Eq)]
pub struct CrateId(pub u32);

impl CrateId {
    ghost use Rattle.std.specs.Prelude.{◌≡◌};
    ghost use Rattle.ir_trees.specs.Declarations.Context.{is_unknown};

    /// Whether it is none of the first so many crates.
    pub fn is_unknown(self, crates: u32) -> bool
        ensures { result ≡ is_unknown crates self }
    {
        self.0 >= crates
    }
}

/// What an algebraic data type was declared as.
#[derive(Clone, Copy)]
pub enum AdtShape {
    Struct,
    Enum,
    Union,
}

/// The flags of an algebraic data type; by default none is set.
#[derive(Clone, Copy, Default)]
pub struct AdtFlags {
    /// The orphan check looks through it, as through `Box`.
    pub fundamental: bool,
    /// It is the marker type that owns a value of its first parameter.
    pub phantom_data: bool,
    /// Its field isn't dropped.
    pub manually_drop: bool,
    /// Some of its fields are unsafe.
    pub unsafe_fields: bool,
}

/// The flags of a trait; by default none is set.
#[derive(Clone, Copy, Default)]
pub struct TraitFlags {
    /// It holds of a type whose parts meet it, unless an impl says otherwise.
    pub auto: bool,
    /// It stands for its where clauses.
    pub alias: bool,
    /// Its impls are unsafe.
    pub unsafe_: bool,
    /// Adding an impl of it for all types is a breaking change.
    pub fundamental: bool,
    /// It can be the principal of a `dyn` type.
    pub dyn_compatible: bool,
    /// It is a bound that types have by default.
    pub default: bool,
    /// Where it is an auto trait: an impl of it bars each type with the head of the impl's own type, as in rustc, and not those alone
    /// that the impl may be for.
    pub by_head: bool,
    /// Its impls may overlap.
    pub marker: bool,
}

/// What an associated item is.
#[derive(Clone, Copy)]
pub enum AssocKind {
    Type,
    Const,
}

/// What an alias of a type was declared as.
#[derive(Clone, Copy)]
pub enum AliasShape {
    /// An item of an impl that is of no trait.
    Inherent,
    /// An item that stands alone.
    Free,
}

/// The flags of a function; by default none is set.
#[derive(Clone, Copy, Default)]
pub struct FnFlags {
    /// It can be called where a constant is computed.
    pub is_const: bool,
    /// It needs features that the target may lack.
    pub target_features: bool,
}

/// A definition besides its crate and its parameters. The numbers say where the rest of it stands among the contents
/// of its sort.
#[derive(Clone, Copy)]
pub enum DefinitionKind {
    Adt(AdtShape, AdtFlags, u32),
    Trait(TraitFlags, u32),
    /// A type that is known by its name alone.
    Foreign,
    /// An item of the trait, and whether it requires that `Self` is sized.
    Assoc(TraitId, AssocKind, bool, u32),
    Alias(AliasShape),
    /// A type that is known by its bounds, and the type that it hides.
    Opaque(Ty, u32),
    Function(FnFlags, Binder<FnSig>),
    /// Whether it can be called where a constant is computed.
    Closure(bool),
}

/// What the number of a definition stands for.
#[derive(Clone, Copy)]
pub enum DefinitionSort {
    Adt,
    Foreign,
    Trait,
    AssociatedType,
    AssociatedConst,
    Alias,
    Opaque,
    Function,
    Closure,
}

impl DefinitionSort {
    ghost use Rattle.std.specs.Prelude.{◌≡◌};
    ghost use Rattle.ir_trees.specs.Declarations.Worlds.{sort_number};

    fn number(self) -> u32
        ensures { result ≡ sort_number self }
    {
        match self {
            DefinitionSort::Adt => 0,
            DefinitionSort::Foreign => 1,
            DefinitionSort::Trait => 2,
            DefinitionSort::AssociatedType => 3,
            DefinitionSort::AssociatedConst => 4,
            DefinitionSort::Alias => 5,
            DefinitionSort::Opaque => 6,
            DefinitionSort::Function => 7,
            DefinitionSort::Closure => 8,
        }
    }
}

impl DefinitionKind {
    ghost use Rattle.std.specs.Prelude.{◌≡◌};
    ghost use Rattle.ir_trees.specs.Declarations.Context.{fundamental_of, sort_of};

    /// Whether the definition is declared fundamental. Only types and traits can be.
    pub fn is_fundamental(self) -> bool
        ensures { result ≡ fundamental_of self }
    {
        match self {
            DefinitionKind::Adt(_, flags, _) => flags.fundamental,
            DefinitionKind::Trait(flags, _) => flags.fundamental,
            _ => false,
        }
    }

    pub(crate) fn sort(self) -> DefinitionSort
        ensures { result ≡ sort_of self }
    {
        match self {
            DefinitionKind::Adt(_, _, _) => DefinitionSort::Adt,
            DefinitionKind::Trait(_, _) => DefinitionSort::Trait,
            DefinitionKind::Foreign => DefinitionSort::Foreign,
            DefinitionKind::Assoc(_, AssocKind::Type, _, _) => DefinitionSort::AssociatedType,
            DefinitionKind::Assoc(_, AssocKind::Const, _, _) => DefinitionSort::AssociatedConst,
            DefinitionKind::Alias(_) => DefinitionSort::Alias,
            DefinitionKind::Opaque(_, _) => DefinitionSort::Opaque,
            DefinitionKind::Function(_, _) => DefinitionSort::Function,
            DefinitionKind::Closure(_) => DefinitionSort::Closure,
        }
    }
}

/// The parameters of a definition. Most definitions have types alone, which take no room of their own.
#[derive(Drop)]
pub enum Parameters {
    /// So many types.
    Types(usize),
    /// Others, or types among them.
    Kinds(Vec<VarKind>),
}

impl Parameters {
    ghost use Rattle.std.specs.Prelude.{◌≡◌, ◌↔◌, IsTrue, [], IfOk, map, slice_get, length};
    ghost use Rattle.ir_trees.specs.Declarations.Parameters.{kinds_of};
    ghost use Rattle.ir_trees.specs.Syntax.Kinds.{arg_kind};
    ghost use Rattle.ir_trees.specs.Declarations.Context.{begins_with_type, is_empty, parameter_kind};

    /// No parameters.
    pub fn none() -> Self
        ensures { kinds_of result ≡ [] }
    {
        Parameters::Types(0)
    }

    /// Parameters of these kinds. The only error is a refused growth.
    #[tactic(auto, using(crate::proofs::Kinding::Parameters::all_types))]
    pub fn of(alloc: Global, kinds: &[VarKind]) -> Result<Self, AllocError>
        ensures { IfOk result (λ p. kinds_of p ≡ kinds.now) }
    {
        if are_types(kinds) {
            return Ok(Parameters::Types(kinds.len()));
        }
        Ok(Parameters::Kinds(kinds.to_vec(alloc)?))
    }

    /// A copy of the parameters. The only error is a refused growth.
    pub fn copied(&self, alloc: Global) -> Result<Self, AllocError>
        ensures { IfOk result (λ p. kinds_of p ≡ kinds_of self.now) }
    {
        match self {
            Parameters::Types(count) => Ok(Parameters::Types(*count)),
            Parameters::Kinds(kinds) => Ok(Parameters::Kinds(kinds.to_vec(alloc)?)),
        }
    }

    /// Their kinds, in order. The only error is a refused growth.
    pub fn kinds(&self, alloc: Global) -> Result<Vec<VarKind>, AllocError>
        ensures { IfOk result (λ v. v.items ≡ kinds_of self.now) }
    {
        match self {
            Parameters::Types(count) => vec![in alloc; VarKind::Ty; *count],
            Parameters::Kinds(kinds) => kinds.to_vec(alloc),
        }
    }

    /// How many there are.
    #[tactic(auto, using(crate::proofs::Kinding::Parameters::types_count))]
    pub fn count(&self) -> usize
        ensures { result ≡ length (kinds_of self.now) }
    {
        match self {
            Parameters::Types(count) => *count,
            Parameters::Kinds(kinds) => kinds.len(),
        }
    }

    /// The kind of the parameter of that number, if there is one.
    #[tactic(auto, using(crate::proofs::Kinding::Parameters::kind_there, crate::proofs::Kinding::Parameters::kind_missing))]
    pub fn kind(&self, number: usize) -> Option<VarKind>
        ensures { result ≡ slice_get (kinds_of self.now) number }
    {
        match self {
            Parameters::Types(count) => {
                if number < *count {
                    Some(VarKind::Ty)
                } else {
                    None
                }
            }
            Parameters::Kinds(kinds) => at(kinds.as_slice(), number).copied(),
        }
    }

    /// Whether the arguments are of these kinds, one for one.
    pub(crate) fn are_of(&self, list: &[GenericArg]) -> bool
        ensures { IsTrue result ↔ (map parameter_kind (kinds_of self.now) ≡ map arg_kind list.now) }
    {
        match self {
            Parameters::Types(count) => { list.len() == *count && are_type_args(list) }
            Parameters::Kinds(kinds) => have_kinds(list, kinds.as_slice()),
        }
    }

    /// Whether there is no parameter.
    #[tactic(auto, using(crate::proofs::Kinding::Parameters::types_empty))]
    pub fn is_empty(&self) -> bool
        ensures { result ≡ is_empty (kinds_of self.now) }
    {
        match self {
            Parameters::Types(count) => *count == 0,
            Parameters::Kinds(kinds) => kinds.is_empty(),
        }
    }

    /// Whether the first parameter is there and is a type.
    #[tactic(auto, using(crate::proofs::Kinding::Parameters::types_begin))]
    pub fn begins_with_type(&self) -> bool
        ensures { result ≡ begins_with_type (kinds_of self.now) }
    {
        match self {
            Parameters::Types(count) => *count != 0,
            Parameters::Kinds(kinds) => begins_with_type(kinds.as_slice()),
        }
    }
}

/// Whether the arguments are of these kinds, one for one.
fn have_kinds(list: &[GenericArg], kinds: &[VarKind]) -> bool
    ensures { IsTrue result ↔ (map parameter_kind kinds.now ≡ map arg_kind list.now) }
{
    if list.len() != kinds.len() {
        return false;
    }
    for i in 0..list.len() {
        if !list[i].is_of(kinds[i]) {
            return false;
        }
    }
    true
}

/// Whether all of the arguments are types.
pub fn are_type_args(list: &[GenericArg]) -> bool
    ensures { result ≡ list_all is_type_arg list.now }
{
    list.iter().all(|arg| arg.is_type())
}

fn is_type(kind: VarKind) -> bool
    ensures { result ≡ is_type_kind kind }
{
    matches!(kind, VarKind::Ty)
}

fn are_types(kinds: &[VarKind]) -> bool
    ensures { result ≡ list_all is_type_kind kinds.now }
{
    kinds.iter().all(|kind| is_type(*kind))
}

/// One definition. Clauses see its parameters as a list.
#[derive(Drop)]
pub struct Declaration {
    pub krate: CrateId,
    pub parameters: Parameters,
    pub kind: DefinitionKind,
}

impl Model for Declaration {
    ghost use Rattle.ir_trees.specs.Declarations.Declaration as seen;
    ghost use Rattle.ir_trees.specs.Declarations.Parameters.{kinds_of};

    ghost Value = { seen.Declaration };

    ghost view = { λ d. record { crate = d.krate; parameters = kinds_of d.parameters; kind = d.kind } };
}

impl Declaration {
    ghost use Rattle.std.specs.Prelude.{◌≡◌};
    ghost use Rattle.ir_trees.specs.Declarations.Context.{fundamental_of, has_wrong_arity, is_trait, lacks_trait, definition_of};
    ghost use Rattle.ir_trees.specs.Validity.Misplaced.{has_self};
    ghost use Rattle.ir_trees.specs.Declarations.Worlds.{parameters_of};
    ghost use Rattle.ir_trees.specs.Syntax.Kinds.{arg_kind};
    ghost use Rattle.std.specs.Prelude.{◌↔◌, IsTrue, Some, map};

    /// What was declared.
    pub fn kind(&self) -> DefinitionKind
        ensures { result ≡ self.now.kind }
    {
        self.kind
    }

    /// The crate that declared it.
    pub fn krate(&self) -> CrateId
        ensures { result ≡ self.now.crate }
    {
        self.krate
    }

    /// Whether it is declared fundamental.
    pub fn is_fundamental(&self) -> bool
        ensures { result ≡ fundamental_of self.now.kind }
    {
        self.kind.is_fundamental()
    }

    /// Whether its parameters are counted from `Self` on.
    pub fn has_self(&self) -> bool
        ensures { result ≡ has_self self.now.kind }
    {
        matches!(
            self.kind,
            DefinitionKind::Trait(_, _) | DefinitionKind::Assoc(_, _, _, _)
        )
    }

    /// Whether it is a trait.
    pub fn is_trait(&self) -> bool
        ensures { result ≡ is_trait self.now.kind }
    {
        matches!(self.kind, DefinitionKind::Trait(_, _))
    }

    /// Whether it is an associated item of what is none of the traits among the definitions.
    pub fn lacks_trait(&self, definitions: &[Declaration]) -> bool
        ensures { result ≡ lacks_trait definitions.now self.now.kind }
    {
        match self.kind {
            DefinitionKind::Assoc(of, _, _, _) => match at(definitions, of.0 as usize) {
                Some(declaration) => !declaration.is_trait(),
                None => true,
            },
            _ => false,
        }
    }

    /// Whether it is of the sort, with parameters of the kinds of these arguments.
    pub(crate) fn takes(&self, sort: DefinitionSort, list: &[GenericArg]) -> bool
        ensures { IsTrue result ↔ (parameters_of sort (Some (definition_of self.now)) ≡ Some (map arg_kind list.now)) }
    {
        self.kind.sort().number() == sort.number() && self.parameters.are_of(list)
    }

    /// Whether it has parameters that its flags don't allow.
    pub fn has_wrong_arity(&self) -> bool
        ensures { result ≡ has_wrong_arity self.now.kind self.now.parameters }
    {
        match self.kind {
            DefinitionKind::Adt(_, flags, _) => {
                flags.phantom_data && !self.parameters.begins_with_type()
            }
            DefinitionKind::Trait(flags, _) => flags.auto && !self.parameters.is_empty(),
            _ => false,
        }
    }
}

fn begins_with_type(parameters: &[VarKind]) -> bool
    ensures { result ≡ begins parameters.now }
{
    matches!(parameters, [VarKind::Ty, ..])
}
