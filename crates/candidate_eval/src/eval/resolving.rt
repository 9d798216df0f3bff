//! Environments with all values put in.

ghost use Rattle.std.specs.Prelude.{◌≡◌, IfOk, IfErr};
ghost use Rattle.ir_trees.specs.Syntax.Words.{IsParamEnv, env_forest};
ghost use Rattle.candidate_eval.specs.Judges.States.{resolved};
ghost use Rattle.candidate_eval.specs.Interface.Shown.{Keeps, StopsSomehow};

use crate::eval::context::EvalCtxt;
use ir_context::decl::make::Make;
use ir_trees::ir::kinds::ParamEnv;
use ir_trees::ir::stop::Stop;
use ir_trees::ir::trees::Trees;
use std::alloc::Global;

/// The environment, with all values put in.
///
/// It stops as `resolve_clause_if_possible` and `mk_param_env` do; `Stop::Memory` comes where the list can't grow, too. After a
/// stop the nodes that were made stay.
pub fn resolve_env_if_possible<E: EvalCtxt>(
    alloc: Global,
    ecx: &mut E,
    env: ParamEnv,
) -> Result<ParamEnv, Stop>
    requires { IsParamEnv (E.context ecx.old).trees env }
    ensures kept { Keeps E.EvalCtxt ecx.old ecx.new }
    ensures same { E.state ecx.new ≡ E.state ecx.old }
    ensures sort { IfOk result (λ x. IsParamEnv (E.context ecx.new).trees x) }
    ensures tree { IfOk result (λ x. env_forest (E.context ecx.new).trees x ≡ resolved (E.state ecx.old) (env_forest (E.context ecx.old).trees env)) }
    ensures cause { IfErr result (StopsSomehow E.EvalCtxt ecx.old ecx.new) }
{
    let clauses = Vec::from_slice(alloc, ecx.cx().param_env(env))?;
    let mut list = Vec::new(alloc);
    for clause in &clauses {
        let resolved = ecx.resolve_clause_if_possible(*clause)?;
        list.push(resolved)?;
    }
    ecx.mk_param_env(list.as_slice())
}
