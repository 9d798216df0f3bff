//! What is an instance of the headers of two impls.

ghost use Rattle.std.specs.Prelude.{◌≡◌, false, IfErr, IfOk};
ghost use Rattle.ir_trees.specs.Syntax.Words.{IsArgs, args_forest};
ghost use Rattle.candidate_rounds.specs.Evaluators.Known.{state, sure_of, table_of};
ghost use Rattle.overlaps.specs.Instance.{IsReferenceAt};
ghost use Rattle.overlaps.specs.Refused.{StaysBesideSteps};
ghost use Rattle.overlaps.specs.Stopping.{IsOverlapStop};

use crate::opening::Opened;
use candidate_eval::eval::context::EvalCtxt;
use candidate_rounds::rounds::Rounds;
use ir_trees::ir::kinds::TraitRef;
use ir_trees::ir::stop::Stop;
use std::alloc::Global;
use std::fmt;

/// A reference that is an instance of the headers of two impls, as far as is known.
#[derive(Clone, Copy, PartialEq, Eq)]
pub struct CommonInstance {
    /// The header of the impl of the lower number, with all values of the headers' equation put in. Its variables have the numbers from 0
    /// on, in the order in which they first occur. Where an alias stands in one of the headers, and aliases aren't open, it is that
    /// header as it is.
    pub trait_ref: TraitRef,
    /// Whether both impls are known to hold of it: no alias stands in the headers, their equation leaks no region, and each where clause
    /// of both is answered by a Yes that gives no variable a value, save those of what outlives what, which are assumed. It isn't certain
    /// where a region leaks in what such a Yes rests on, where a clause is of a projection, or its trait may lead to an auto trait with an impl for some types of a head alone.
    pub is_certain: bool,
    /// Whether the headers' equation leaks a region that a binder of them binds. It isn't certain then.
    pub leaks: bool,
}

/// The trait, the number of the arguments' list, and whether it is certain.
impl fmt::Debug for CommonInstance {
    fn fmt<W: fmt::Write>(&self, f: &mut fmt::Formatter<W>) -> fmt::Result {
        let TraitRef { def_id, args } = self.trait_ref;
        write!(f, "{def_id:?} of {}, certain: {}", args.0, self.is_certain)
    }
}

/// The reference of an open impl's header at what is known.
pub(crate) fn common_instance(
    alloc: Global,
    rounds: &mut Rounds,
    first: &Opened,
    is_certain: bool,
) -> Result<CommonInstance, Stop>
    requires { IsArgs rounds.old.context.trees first.now.header }
    ensures stays { StaysBesideSteps rounds.old rounds.new }
    ensures table { table_of rounds.new ≡ table_of rounds.old }
    ensures sure { sure_of rounds.new ≡ sure_of rounds.old }
    ensures is { IfOk result (λ x. IsReferenceAt (state rounds.old) first.now.def_id (args_forest rounds.old.context.trees first.now.header) rounds.new.context.trees x.trait_ref) }
    ensures certain { IfOk result (λ x. x.is_certain ≡ is_certain) }
    ensures leaks { IfOk result (λ x. x.leaks ≡ false) }
    ensures cause { IfErr result (IsOverlapStop rounds.old rounds.new) }
{
    let args = rounds.resolve_args_if_possible(first.header)?;
    let args = rounds.canonical_args(alloc, args)?;
    let trait_ref = TraitRef {
        def_id: first.def_id,
        args,
    };
    Ok(CommonInstance {
        trait_ref,
        is_certain,
        leaks: false,
    })
}
