// An update runs its flows.
ghost use Rattle.std.specs.Prelude.{◌≡◌, ◌≤◌, ℕ, Err, None, length, IfOk, OnOk};
ghost use Rattle.disk_model.specs.Disk.{IsHonest};
ghost use Rattle.disk_model.specs.Faults.{Rose};
ghost use Rattle.landing_core.specs.Folders.{HoldsPresent};
ghost use Rattle.plan_core.specs.Sound.{IsSoundPlan};
ghost use Rattle.update_plan.specs.Commits.{PartsKeepText};
ghost use Rattle.pair_store.specs.Store.{AreAsLeft, store_broken};
ghost use Rattle.store_fitness.specs.Fitness.{AreAppends, IsReady};
ghost use Rattle.flow_engine.specs.Flows.{FlowsAreNamed};
ghost use Rattle.flow_engine.specs.Points.{engine_halted, engine_state, engine_store, point_of};
ghost use Rattle.flow_engine.specs.declared.ends.End.TheVariants.{Disk, Sink as sink};
ghost use Rattle.update_run.specs.Runs.{Updates};

use crate::listing::list_all;
use crate::order::flow_order;
use crate::running::run_all;
use commit_trails::nothing_tried_leaves_a_trail;
use disk_model::{Disk, Sink};
use flow_engine::{End, Engine};
use landing_core::Landing;
use par_rows::Gate;
use plan_core::Plan;
use std::alloc::Global;
use std::sync::ledger::Ledger;
use std::thread::Threads;
use value_core::Steps;

/// Runs all flows of a plan once, level by level, and answers whether any of them stopped.
///
/// Each landing folder is listed once, before the first flow. The line of a flow is written right after
/// the flow has ended. After an `End` the engine is given up: the disk holds the commits made so far, and
/// one in which it failed may be there or not.
pub fn run_update<D: Disk, L: Landing, S: Sink, H: Threads + Sync, G: Gate + Sync, K: Ledger>(
    rt: &H,
    alloc: Global,
    plan: &Plan,
    engine: &mut Engine,
    disk: &mut D,
    landing: &mut L,
    out: &mut S,
    gate: &G,
    workers: u32,
    steps: &mut Steps<K>,
) -> Result<bool, End>
    requires workers { (1 ≤ workers) × (workers ≤ 64) }
    requires appends { AreAppends plan.now }
    requires sound { IsSoundPlan plan.now }
    requires text { PartsKeepText plan.now }
    requires named { FlowsAreNamed plan.now }
    requires ready { IsReady plan.now (engine_state engine.old) }
    requires marks { length (engine_halted engine.old) ≡ length plan.now }
    requires whole { store_broken (engine_store engine.old) ≡ None }
    requires at_rest { D.tells → AreAsLeft (engine_store engine.old) (D.state disk.old) }
    requires honest { D.tells → IsHonest (D.state disk.old) }

    ensures updates { D.tells → (L.tells → HoldsPresent (L.present landing.old) (L.ever landing.old))
        → Updates D.tells_moments S.tells L.tells (L.present landing.old) (L.ever landing.old) (L.faults landing.old) (L.faults landing.new) plan.now (D.room disk.old) (point_of engine.old) result (D.state disk.old) (D.state disk.new) (S.written out.old) (S.written out.new) }

    ensures honest { D.tells → IsHonest (D.state disk.new) }
    ensures present { L.tells → L.present landing.new ≡ L.present landing.old }
    ensures ever { L.tells → L.ever landing.new ≡ L.ever landing.old }
    ensures room { D.room disk.new ≡ D.room disk.old }

    // Over any devices: an end that blames one comes only where its count of faults rose, and no count falls.
    ensures disk_fault { (count : ℕ) → result ≡ Err (Disk count) → Rose (D.faults disk.old) (D.faults disk.new) × (count ≡ D.faults disk.new) }
    ensures sink_fault { result ≡ Err sink → Rose (S.faults out.old) (S.faults out.new) }
    ensures disk_later { D.faults disk.old ≤ D.faults disk.new }
    ensures landing_later { L.faults landing.old ≤ L.faults landing.new }
    ensures sink_later { S.faults out.old ≤ S.faults out.new }
{
    nothing_tried_leaves_a_trail::<D>();
    let Ok(listings) = list_all(alloc, plan, landing) else {
        return Err(End::Memory);
    };
    let Ok(order) = flow_order(alloc, plan) else {
        return Err(End::Memory);
    };
    run_all(
        rt,
        alloc,
        plan,
        engine,
        disk,
        landing,
        &listings,
        order.as_slice(),
        out,
        gate,
        workers,
        steps,
    )
}
