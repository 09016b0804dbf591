// The order in which the flows of a plan run.
ghost use Rattle.std.specs.Prelude.{◌≡◌, ◌≤◌, ◌^◌, ◌++◌, IfOk, OnOk};
ghost use Rattle.std.specs.List.{AllByRecursion};
ghost use Rattle.store_fitness.specs.Fitness.{AreAppends};
ghost use Rattle.flow_engine.specs.Flows.{FlowsAreNamed, IsFlow};
ghost use Rattle.update_run.specs.Order.{flow_order as the_flow_order, flows_from, flows_in, flows_of_level, levels_in};

use flow_engine::FlowId;
use plan_core::{Body, Dataset, Plan};
use std::alloc::{AllocError, Global};

/// How many flows fill a dataset.
fn flow_count(body: &Body) -> usize
    ensures { result ≡ flows_in body.now }
{
    match body {
        Body::Append(flows) => flows.len(),
        Body::Cdc(_) => 1,
        Body::View(_) => 1,
    }
}

/// Puts so many flows of the dataset at a place behind the others.
fn put_flows(order: &mut Vec<FlowId>, dataset: u32, count: u32) -> Result<(), AllocError>
    ensures { OnOk result (order.new.items ≡ order.old.items ++ flows_from dataset 0 count) }
{
    for flow in 0..count {
        order.push(FlowId { dataset, flow })?;
    }
    Ok(())
}

/// Puts the flows of the dataset at a place behind the others.
fn put_dataset(order: &mut Vec<FlowId>, place: usize, body: &Body) -> Result<(), AllocError>
    ensures { OnOk result (order.new.items ≡ order.old.items ++ flows_from place 0 (flows_in body.now)) }
{
    let count = flow_count(body);
    if place > u32::MAX as usize || count > u32::MAX as usize {
        return Err(AllocError);
    }
    put_flows(order, place as u32, count as u32)
}

/// Puts the flows of the datasets of a level behind the others.
fn put_level(order: &mut Vec<FlowId>, plan: &[Dataset], level: u32) -> Result<(), AllocError>
    ensures { OnOk result (order.new.items ≡ order.old.items ++ flows_of_level level 0 plan.now) }
{
    for (place, dataset) in plan.iter().enumerate() {
        if dataset.level == level {
            put_dataset(order, place, &dataset.body)?;
        }
    }
    Ok(())
}

/// One more than the greatest level.
fn level_count(plan: &[Dataset]) -> u64
    ensures count { result ≡ levels_in plan.now }
    ensures bound { result ≤ 2 ^ 32 }
{
    let mut count = 0;
    for dataset in plan {
        count = count.max(dataset.level as u64 + 1);
    }
    count
}

/// The flows of a plan of append tables in the order in which they run: level by level, and of one
/// level dataset by dataset and flow by flow, as they are declared. `Err` comes for want of memory
/// alone, which a plan of 2^32 datasets, or a table of 2^32 flows, counts as.
pub(crate) fn flow_order(alloc: Global, plan: &Plan) -> Result<Vec<FlowId>, AllocError>
    requires appends { AreAppends plan.now }
    requires named { FlowsAreNamed plan.now }
    ensures order { IfOk result (λ order. order.items ≡ the_flow_order plan.now) }
    ensures flows { IfOk result (λ order. AllByRecursion (IsFlow plan.now) order.items) }
{
    let datasets = plan.as_slice();
    let mut order = Vec::new(alloc);
    for level in 0..level_count(datasets) {
        put_level(&mut order, datasets, level as u32)?;
    }
    Ok(order)
}
