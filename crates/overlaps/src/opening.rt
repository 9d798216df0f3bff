//! Impls with fresh variables or placeholders in the place of their parameters.

ghost use Rattle.std.specs.Prelude.{◌≡◌, None, IfErr, IfOk, MatchOption, OnOk};
ghost use Rattle.ir_trees.specs.Declarations.Declaring.{impl_at};
ghost use Rattle.ir_trees.specs.Declarations.Worlds.{kinds_of};
ghost use Rattle.ir_trees.specs.Syntax.Words.{IsArgs, args_forest};
ghost use Rattle.candidate_eval.specs.Interface.Evaluators.{rigid, with_rigid};
ghost use Rattle.candidate_eval.specs.Interface.Shown.{Keeps, StopsSomehow};
ghost use Rattle.candidate_eval.specs.Judges.States.{with_fresh_variables};
ghost use Rattle.candidate_assembly.specs.Calls.Impls.{impl_kinds};
ghost use Rattle.overlaps.specs.Opening.{AreEntered, AreNotDeclared, AreOpened, IsEntered, IsOpened, IsOpenedAs};

use candidate_assembly::trait_goals::impls::{declared_by, fresh_args_for_impl, recall_impl_given};
use candidate_eval::eval::clauses::substitute;
use candidate_eval::eval::context::EvalCtxt;
use ir_trees::decl::contents::ImplId;
use ir_trees::ir::kinds::{Args, Clause, TraitId};
use ir_trees::ir::stop::Stop;
use std::alloc::Global;

/// An impl with fresh variables or placeholders in the place of its parameters.
#[derive(Drop)]
pub(crate) struct Opened {
    /// The impl.
    pub(crate) of: ImplId,
    /// The trait that it is for.
    pub(crate) def_id: TraitId,
    /// The variables or placeholders.
    pub(crate) locals: Args,
    /// The arguments of its header, in which they stand for the parameters.
    pub(crate) header: Args,
    /// Its where clauses, as they are declared.
    pub(crate) wheres: Vec<Clause>,
}

/// Two impls, opened one after the other.
#[derive(Drop)]
pub(crate) struct Pair {
    pub(crate) first: Opened,
    pub(crate) second: Opened,
}

/// The impl with these arguments in the place of its parameters; `None` of what is no impl.
fn open_with<E: EvalCtxt>(
    alloc: Global,
    ecx: &mut E,
    of: ImplId,
    locals: Args,
) -> Result<Option<Opened>, Stop>
    requires locals { IsArgs (E.context ecx.old).trees locals }
    requires kinds { kinds_of (args_forest (E.context ecx.old).trees locals) ≡ impl_kinds (E.context ecx.old) of }
    ensures kept { Keeps E.EvalCtxt ecx.old ecx.new }
    ensures same { E.state ecx.new ≡ E.state ecx.old }
    ensures opened { let c = E.context ecx.old in IfOk result (λ o. MatchOption o (impl_at c of ≡ None) (IsOpenedAs c (λ ks. args_forest c.trees locals) of (E.context ecx.new))) }
    ensures cause { IfErr result (StopsSomehow E.EvalCtxt ecx.old ecx.new) }
{
    let Some(declared) = declared_by(alloc, ecx.cx(), of, locals)? else {
        return Ok(None);
    };
    let header = substitute(alloc, ecx, declared.header, locals)?;
    Ok(Some(Opened {
        of,
        def_id: declared.def_id,
        locals,
        header,
        wheres: declared.wheres,
    }))
}

/// The impl with fresh variables in the place of its parameters; `None` of what is no impl.
pub(crate) fn open<E: EvalCtxt>(
    alloc: Global,
    ecx: &mut E,
    of: ImplId,
) -> Result<Option<Opened>, Stop>
    ensures kept { Keeps E.EvalCtxt ecx.old ecx.new }
    ensures state { OnOk result (E.state ecx.new ≡ with_fresh_variables (E.state ecx.old) (impl_kinds (E.context ecx.old) of)) }
    ensures opened { let c = E.context ecx.old in IfOk result (λ o. MatchOption o (impl_at c of ≡ None) (IsOpened c (E.state ecx.old) of (E.context ecx.new))) }
    ensures cause { IfErr result (StopsSomehow E.EvalCtxt ecx.old ecx.new) }
{
    recall_impl_given(ecx.cx(), of);
    let locals = fresh_args_for_impl(alloc, ecx, of)?;
    open_with(alloc, ecx, of, locals)
}

/// Placeholders of a fresh universe in the place of an impl's parameters; of what is no impl there are none.
pub(crate) fn placeholder_args_for_impl<E: EvalCtxt>(
    alloc: Global,
    ecx: &mut E,
    of: ImplId,
) -> Result<Args, Stop>
    ensures kept { Keeps E.EvalCtxt ecx.old ecx.new }
    ensures state { OnOk result (E.state ecx.new ≡ with_rigid (E.state ecx.old) (impl_kinds (E.context ecx.old) of)) }
    ensures sort { IfOk result (λ a. IsArgs (E.context ecx.new).trees a) }
    ensures trees { IfOk result (λ a. args_forest (E.context ecx.new).trees a ≡ rigid (E.state ecx.old) (impl_kinds (E.context ecx.old) of)) }
    ensures cause { IfErr result (StopsSomehow E.EvalCtxt ecx.old ecx.new) }
{
    let kinds = ecx.cx().impl_parameters(alloc, of)?;
    ecx.placeholder_args(kinds.as_slice())
}

/// The impl with placeholders of a fresh universe in the place of its parameters; `None` of what is no impl.
fn enter<E: EvalCtxt>(alloc: Global, ecx: &mut E, of: ImplId) -> Result<Option<Opened>, Stop>
    ensures kept { Keeps E.EvalCtxt ecx.old ecx.new }
    ensures state { OnOk result (E.state ecx.new ≡ with_rigid (E.state ecx.old) (impl_kinds (E.context ecx.old) of)) }
    ensures entered { let c = E.context ecx.old in IfOk result (λ o. MatchOption o (impl_at c of ≡ None) (IsEntered c (E.state ecx.old) of (E.context ecx.new))) }
    ensures cause { IfErr result (StopsSomehow E.EvalCtxt ecx.old ecx.new) }
{
    recall_impl_given(ecx.cx(), of);
    let locals = placeholder_args_for_impl(alloc, ecx, of)?;
    open_with(alloc, ecx, of, locals)
}

/// Both impls with fresh variables in the place of their parameters; `None` where one of them is no impl.
pub(crate) fn open_both<E: EvalCtxt>(
    alloc: Global,
    ecx: &mut E,
    first: ImplId,
    second: ImplId,
) -> Result<Option<Pair>, Stop>
    ensures kept { Keeps E.EvalCtxt ecx.old ecx.new }
    ensures opened { let c = E.context ecx.old in IfOk result (λ o. MatchOption o (AreNotDeclared c first second) (AreOpened c (E.state ecx.old) first second (E.context ecx.new) (E.state ecx.new))) }
    ensures cause { IfErr result (StopsSomehow E.EvalCtxt ecx.old ecx.new) }
{
    recall_impl_given(ecx.cx(), second);
    let Some(first) = open(alloc, ecx, first)? else {
        return Ok(None);
    };
    let Some(second) = open(alloc, ecx, second)? else {
        return Ok(None);
    };
    Ok(Some(Pair { first, second }))
}

/// The first impl with placeholders in the place of its parameters, and then the second one with fresh variables; `None` where one of them
/// is no impl.
pub(crate) fn enter_and_open<E: EvalCtxt>(
    alloc: Global,
    ecx: &mut E,
    first: ImplId,
    second: ImplId,
) -> Result<Option<Pair>, Stop>
    ensures kept { Keeps E.EvalCtxt ecx.old ecx.new }
    ensures entered { let c = E.context ecx.old in IfOk result (λ o. MatchOption o (AreNotDeclared c first second) (AreEntered c (E.state ecx.old) first second (E.context ecx.new) (E.state ecx.new))) }
    ensures cause { IfErr result (StopsSomehow E.EvalCtxt ecx.old ecx.new) }
{
    recall_impl_given(ecx.cx(), second);
    let Some(first) = enter(alloc, ecx, first)? else {
        return Ok(None);
    };
    let Some(second) = open(alloc, ecx, second)? else {
        return Ok(None);
    };
    Ok(Some(Pair { first, second }))
}
