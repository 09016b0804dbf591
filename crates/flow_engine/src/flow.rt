// One flow of a plan.
ghost use Rattle.std.specs.Prelude.{◌≡◌, ◌≢◌, ◌<◌, ◌≤◌, ◌+◌, ℕ, Err, Some, None, length, slice_get, IfOk, OnOk};
ghost use Rattle.disk_model.specs.Disk.{IsHonest};
ghost use Rattle.disk_model.specs.Faults.{Rose};
ghost use Rattle.landing_core.specs.Folders.{HoldsPresent};
ghost use Rattle.plan_core.specs.declared.flow.AppendFlow.{AppendFlow as Appending};
ghost use Rattle.plan_core.specs.declared.plan.Dataset.{Dataset as Part};
ghost use Rattle.plan_core.specs.Sound.{IsSoundPlan};
ghost use Rattle.update_plan.specs.Commits.{PartsKeepText};
ghost use Rattle.pair_store.specs.Store.{AreAsLeft, store_broken};
ghost use Rattle.append_offers.specs.Looks.{flow_looks};
ghost use Rattle.store_fitness.specs.Fitness.{AreAppends, IsReady};
ghost use Rattle.flow_engine.specs.Engine.{BlamesEnd, HasRunFlow};
ghost use Rattle.flow_engine.specs.Flows.{AreListed, IsFlow, IsFlowAt, IsFlowOf};
ghost use Rattle.flow_engine.specs.Points as spec;
ghost use Rattle.flow_engine.specs.Points.{engine_halted, engine_state, engine_store, marked, point_of};
ghost use Rattle.flow_engine.specs.declared.ends.End.TheVariants.{Disk, Sink};

use crate::ends::End;
use crate::engine::Engine;
use crate::flow_id::FlowId;
use crate::listings::Listings;
use crate::running::run_unless_blocked;
use disk_model::Disk;
use landing_core::Landing;
use par_rows::Gate;
use plan_core::{AppendFlow, Body, Dataset, FlowEnd, Plan};
use sqlite_items::at;
use std::alloc::Global;
use std::sync::ledger::Ledger;
use std::thread::Threads;
use value_core::Steps;

/// The dataset of a flow of a plan.
fn dataset_at(plan: &Plan, flow: FlowId) -> &Dataset
    requires { IsFlow plan.now flow }
    ensures { slice_get plan.now flow.dataset ≡ Some result.now }
{
    match at(plan.as_slice(), flow.dataset as usize) {
        Some(dataset) => dataset,
        None => unreachable!(),
    }
}

/// The flow at this place of an append table.
fn flow_at(dataset: &Dataset, place: u32) -> &AppendFlow
    requires { (flow : Appending) × IsFlowOf dataset.now place flow }
    ensures { IsFlowOf dataset.now place result.now }
{
    match &dataset.body {
        Body::Append(flows) => match at(flows.as_slice(), place as usize) {
            Some(flow) => flow,
            None => unreachable!(),
        },
        Body::Cdc(_) => unreachable!(),
        Body::View(_) => unreachable!(),
    }
}

/// Whether a flow that ended so stopped or was skipped.
fn is_halt(end: &FlowEnd) -> bool
    ensures { result ≡ spec.is_halt end.now }
{
    match end {
        FlowEnd::Completed { .. } => false,
        FlowEnd::Current => false,
        FlowEnd::Stopped { .. } => true,
        FlowEnd::Skipped { .. } => true,
    }
}

/// Sets the mark at a place, if this is so.
fn mark(halted: &mut Vec<bool>, place: u32, is: bool)
    requires { place < length halted.old.items }
    ensures { halted.new.items ≡ marked place is halted.old.items }
{
    if is {
        halted[place as usize] = true;
    }
}

/// Runs one flow: what is new is committed, in one commit or none.
///
/// `Skipped` comes exactly where a dataset that the flow reads stopped or was skipped in this update,
/// and is judged first; it names the first such dataset in declared order. Else the flow ends by what
/// it comes to (`append_offer`): `Current` where its position stays, `Stopped` where something stops it,
/// and else `Completed` with the number of rows that it read and the version that its commit made. A flow
/// that stops or is skipped changes nothing.
///
/// `End::Disk` comes only where the disk's count of faults rose, `Full` and `VersionFull` come before the
/// disk is called. After an `End` the engine is given up.
pub fn run_flow<D: Disk, L: Landing, H: Threads + Sync, G: Gate + Sync, K: Ledger>(
    rt: &H,
    alloc: Global,
    plan: &Plan,
    engine: &mut Engine,
    disk: &mut D,
    landing: &mut L,
    listings: &Listings,
    flow: FlowId,
    gate: &G,
    workers: u32,
    steps: &mut Steps<K>,
) -> Result<FlowEnd, End>
    requires workers { (1 ≤ workers) × (workers ≤ 64) }
    requires appends { AreAppends plan.now }
    requires sound { IsSoundPlan plan.now }
    requires text { PartsKeepText plan.now }
    requires flow { IsFlow plan.now flow }
    requires listed { AreListed L.tells plan.now (L.present landing.old) listings.now }
    requires ready { IsReady plan.now (engine_state engine.old) }
    requires marks { length (engine_halted engine.old) ≡ length plan.now }
    requires whole { store_broken (engine_store engine.old) ≡ None }
    requires at_rest { D.tells → AreAsLeft (engine_store engine.old) (D.state disk.old) }

    // How it ended, what it committed, and what a crash leaves.
    ensures runs { D.tells → IsHonest (D.state disk.old) → (L.tells → HoldsPresent (L.present landing.old) (L.ever landing.old))
        → HasRunFlow D.tells_moments (record { tells = L.tells; present = L.present landing.old; ever = L.ever landing.old; listings = listings.now }) plan.now (D.room disk.old) flow (point_of engine.old) result engine.new (D.state disk.old) (D.state disk.new) }
    ensures looks { (dataset : Part) (appending : Appending) → IsFlowAt plan.now flow dataset appending → steps.new ≤ steps.old + flow_looks (engine_state engine.old) dataset appending }

    // The next flow may run.
    ensures ready { OnOk result (IsReady plan.now (engine_state engine.new)) }
    ensures marks { OnOk result (length (engine_halted engine.new) ≡ length plan.now) }
    ensures whole { OnOk result (store_broken (engine_store engine.new) ≡ None) }
    ensures at_rest { D.tells → IsHonest (D.state disk.old) → OnOk result (AreAsLeft (engine_store engine.new) (D.state disk.new)) }
    ensures honest { D.tells → IsHonest (D.state disk.old) → IsHonest (D.state disk.new) }
    ensures present { L.tells → L.present landing.new ≡ L.present landing.old }
    ensures ever { L.tells → L.ever landing.new ≡ L.ever landing.old }
    ensures room { D.room disk.new ≡ D.room disk.old }

    // Over any devices: an end that blames one comes only where its count of faults rose, and no count falls.
    ensures disk_fault { (count : ℕ) → result ≡ Err (Disk count) → Rose (D.faults disk.old) (D.faults disk.new) × (count ≡ D.faults disk.new) }
    ensures landing_fault { IfOk result (BlamesEnd listings.now (L.faults landing.old) (L.faults landing.new)) }
    ensures no_sink { result ≢ Err Sink }
    ensures disk_later { D.faults disk.old ≤ D.faults disk.new }
    ensures landing_later { L.faults landing.old ≤ L.faults landing.new }
{
    let dataset = dataset_at(plan, flow);
    let appending = flow_at(dataset, flow.flow);
    let ended = run_unless_blocked(
        rt,
        alloc,
        plan,
        &mut engine.store,
        engine.halted.as_slice(),
        disk,
        landing,
        listings,
        dataset,
        appending,
        gate,
        workers,
        steps,
    );
    match ended {
        Ok(end) => {
            mark(&mut engine.halted, flow.dataset, is_halt(&end));
            Ok(end)
        }
        Err(end) => Err(end),
    }
}
