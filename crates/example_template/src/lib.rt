//! A client to begin with: copy this folder, give it a line in `crates.txt`, and change what it asks. `docs/CLIENT.md` goes through it.
#![tactic(auto)]

ghost use Rattle.std.specs.Prelude.{◌≡◌, Ok, true};
ghost use Rattle.ir_trees.specs.Declarations.References.{ArgumentsFit};
ghost use Rattle.ir_trees.specs.Syntax.Words.{IsArgs};
ghost use Rattle.candidate_eval.specs.Knowability.Calls.{NoUnnamedHeaderHere};

use candidate_eval::coherence::{NormalizeErr, OrphanStop, trait_ref_is_knowable};
use candidate_ir::decl::Cx;
use candidate_ir::ir::heads::Flag;
use candidate_ir::ir::kinds::{TraitRef, Ty};
use candidate_ir::ir::trees::Trees;
use std::alloc::Global;
use std::convert::Infallible;

/// Whether all impls of the reference are known: no other crate may add one.
///
/// After a yes no header overlaps it that a crate may write which it doesn't name. A no promises nothing; a reference with a parameter
/// or an alias gets one. A check that gives up is a stop, and no answer.
pub fn all_known(
    alloc: Global,
    cx: &mut Cx,
    trait_ref: TraitRef,
) -> Result<bool, OrphanStop<Infallible>>
    requires sort { IsArgs cx.old.trees trait_ref.args }
    requires fit { ArgumentsFit cx.old trait_ref }
    ensures { result ≡ Ok true → NoUnnamedHeaderHere cx.old trait_ref }
{
    if cx.has_param(trait_ref) || cx.has(trait_ref.args, Flag::Alias) {
        return Ok(false);
    }
    let known = trait_ref_is_knowable(
        alloc,
        cx,
        trait_ref,
        |_, ty| -> Result<Ty, NormalizeErr<Infallible>> { Ok(ty) },
    );
    match known {
        Ok(Ok(())) => Ok(true),
        Ok(Err(_)) => Ok(false),
        Err(stop) => Err(stop),
    }
}

#[cfg(test)]
mod tests;
