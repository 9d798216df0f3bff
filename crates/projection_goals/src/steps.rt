//! What the rules of these goals have in common.

ghost use Rattle.std.specs.Prelude.{◌≡◌, Some, None, IfErr, IfOk};
ghost use Rattle.ir_trees.specs.Syntax.Words.{IsArgs, IsParamEnv, IsTy};
ghost use Rattle.candidate_eval.specs.Interface.Accounts.{by_stop, if_refused};
ghost use Rattle.candidate_eval.specs.Interface.Shown.{Keeps, StopsSomehow, view};
ghost use Rattle.projection_goals.specs.Equations.{both_accepted_here};

use candidate_eval::eval::context::EvalCtxt;
use candidate_eval::eval::refusal::NoSolutionOrStop;
use ir_trees::ir::kinds::{Args, GenericArg, ParamEnv, Ty};

/// Two lists are made equal, and then two types. The goals that this leaves become pending.
pub(crate) fn equate_both<E: EvalCtxt>(
    ecx: &mut E,
    env: ParamEnv,
    args: Args,
    other_args: Args,
    term: Ty,
    other_term: Ty,
) -> Result<(), NoSolutionOrStop>
    requires env { IsParamEnv (E.context ecx.old).trees env }
    requires args { IsArgs (E.context ecx.old).trees args }
    requires other_args { IsArgs (E.context ecx.old).trees other_args }
    requires term { IsTy (E.context ecx.old).trees term }
    requires other_term { IsTy (E.context ecx.old).trees other_term }
    ensures kept { Keeps E.EvalCtxt ecx.old ecx.new }
    ensures ok { IfOk result (λ _. both_accepted_here (view E.EvalCtxt ecx.old) env args other_args term other_term ≡ Some (E.state ecx.new)) }
    ensures refused { IfErr result (if_refused (both_accepted_here (view E.EvalCtxt ecx.old) env args other_args term other_term ≡ None)) }
    ensures cause { IfErr result (by_stop (StopsSomehow E.EvalCtxt ecx.old ecx.new)) }
{
    ecx.eq_args(env, args, other_args)?;
    ecx.eq(env, GenericArg::Ty(term), GenericArg::Ty(other_term))
}
