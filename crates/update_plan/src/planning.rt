// What an update does before its flows.
ghost use Rattle.std.specs.Prelude.{◌≡◌, IfErr, IfOk, None};
ghost use Rattle.update_plan.specs.Payloads.{ArePlanned};
ghost use Rattle.update_plan.specs.Refusals.{IsRefusedBy, refusal as the_refusal};

use crate::ends::{PlanEnd, Refresh, refusal};
use crate::payloads::planned;
use commit_payloads::{Definitions, Payloads};
use plan_core::Plan;
use std::alloc::Global;

/// The payloads that an update of a plan commits before its flows, in the order of their commits, where
/// `stored` are the definitions of the store.
///
/// With `Refresh::All` there is one fresh definition of all datasets, also where nothing is stored. Else,
/// where the plan has datasets that are not stored, there is one definition that leaves the stored ones
/// as they are, in their order, and has the new ones behind them in declared order; and with
/// `Refresh::Only` one reset follows, of the named datasets and of all tables that stream from one of them,
/// directly or not, in declared order. Names are the same but for the case of ASCII letters.
///
/// `UnknownTable` comes exactly where a name of `Only` is not declared, with the first such name of the
/// list as it stands there. Else, and never with `All`, the first stored definition that is not declared
/// gives `Removed` and the first whose text is not the declared one gives `Changed`, with the name as it
/// is stored; the earlier of the two in stored order comes. `Memory` comes for want of memory alone.
/// (Databricks documentation, Lakeflow Declarative Pipelines: run an update, full refresh.)
pub fn plan_update(
    alloc: Global,
    plan: &Plan,
    stored: &Definitions,
    refresh: &Refresh,
) -> Result<Payloads, PlanEnd>
    ensures accepted { IfOk result (λ _. the_refusal plan.now stored.now refresh.now ≡ None) }
    ensures planned { IfOk result (λ payloads. ArePlanned plan.now stored.now refresh.now payloads) }
    ensures refused { IfErr result (λ end. IsRefusedBy (the_refusal plan.now stored.now refresh.now) end) }
{
    if let Some(end) = refusal(alloc, plan, stored.as_slice(), refresh)? {
        return Err(end);
    }
    let payloads = planned(alloc, plan, stored.as_slice(), refresh)?;
    Ok(payloads)
}
