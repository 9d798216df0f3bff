//! What an evaluator knows of the impls of a trait reference.

ghost use Rattle.std.specs.Prelude.{◌≡◌};
ghost use Rattle.ir_trees.specs.Syntax.Words.{IsArgs, IsParamEnv, IsTy};
ghost use Rattle.candidate_eval.specs.Knowability.Answers.{known_by};
ghost use Rattle.candidate_eval.specs.Interface.Knowing.{is_evaluator_stop};
ghost use Rattle.candidate_eval.specs.Knowability.Normalizer.{IsTold};
ghost use Rattle.candidate_eval.specs.Interface.Shown.{Keeps, NormalizesAsJudged, StopsKnowing, knows_here, view};

use crate::coherence::{Conflict, NormalizeErr, OrphanStop, knowable};
use crate::eval::context::EvalCtxt;
use crate::eval::refusal::NoSolutionOrStop;
use ir_trees::ir::kinds::{ParamEnv, TraitRef, Ty};
use ir_trees::ir::stop::Stop;
use std::alloc::Global;

/// The evaluator's normal form of a type.
fn normal_form<E: EvalCtxt>(ecx: &mut E, env: ParamEnv, ty: Ty) -> Result<Ty, NormalizeErr<()>>
    requires env { IsParamEnv (E.context ecx.old).trees env }
    requires ty { IsTy (E.context ecx.old).trees ty }
    ensures { NormalizesAsJudged E.EvalCtxt ecx.old ecx.new env ty result }
{
    match ecx.structurally_normalize_ty(env, ty) {
        Ok(ty) => Ok(ty),
        Err(NoSolutionOrStop::NoSolution) => Err(NormalizeErr::Failed(())),
        Err(NoSolutionOrStop::Stop(stop)) => Err(NormalizeErr::Stop(stop)),
    }
}

/// What may be known of the impls of a trait reference, where types are normalised as the evaluator
/// does in the environment.
///
/// `OrphanStop::Normalize` is a refused normal form. Where a parameter is met it stops with
/// `Unnameable`. After a stop of the evaluator nothing is said of its state.
pub fn is_knowable<E: EvalCtxt>(
    alloc: Global,
    ecx: &mut E,
    env: ParamEnv,
    trait_ref: TraitRef,
) -> Result<Result<(), Conflict>, OrphanStop<()>>
    requires env { IsParamEnv (E.context ecx.old).trees env }
    requires args { IsArgs (E.context ecx.old).trees trait_ref.args }
    ensures kept { Keeps E.EvalCtxt ecx.old ecx.new }
    ensures answer { let V = view E.EvalCtxt ecx.old in IsTold is_evaluator_stop result → knows_here V env trait_ref ≡ known_by result (E.state ecx.new) }
    ensures cause { (s : Stop) → result ≡ Err (OrphanStop.Stop s) → StopsKnowing E.EvalCtxt ecx.old ecx.new s }
{
    let mut normalize = move |ecx: &mut E, ty: Ty| -> Result<Ty, NormalizeErr<()>>
        requires env { IsParamEnv (E.context ecx.old).trees env }
        requires ty { IsTy (E.context ecx.old).trees ty }
        ensures { NormalizesAsJudged E.EvalCtxt ecx.old ecx.new env ty result }
    { normal_form(ecx, env, ty) };
    knowable(alloc, ecx, trait_ref, &mut normalize)
}
