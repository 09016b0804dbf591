// Flows run one after the other.
ghost use Rattle.std.specs.Prelude.{◌≡◌, ◌≤◌, ◌||◌, ℕ, List, Err, None, length, OnOk};
ghost use Rattle.std.specs.List.{AllByRecursion};
ghost use Rattle.disk_model.specs.Disk.{IsHonest};
ghost use Rattle.disk_model.specs.Faults.{Rose};
ghost use Rattle.landing_core.specs.declared.landing.LandingFile.{LandingFile};
ghost use Rattle.landing_core.specs.Folders.{HoldsPresent};
ghost use Rattle.plan_core.specs.Sound.{IsSoundPlan};
ghost use Rattle.update_plan.specs.Commits.{PartsKeepText};
ghost use Rattle.pair_store.specs.Store.{AreAsLeft, store_broken};
ghost use Rattle.store_fitness.specs.Fitness.{AreAppends, IsReady};
ghost use Rattle.flow_engine.specs.Flows.{AreListed, IsFlow};
ghost use Rattle.flow_engine.specs.Points.{engine_halted, engine_state, engine_store, point_of};
ghost use Rattle.flow_engine.specs.declared.ends.End.TheVariants.{Disk, Sink as sink};
ghost use Rattle.update_run.specs.Folders.{AreBlamed};
ghost use Rattle.update_run.specs.Runs.{HaveRun, RunsNext, landed_by};

use crate::telling::{is_stop, tell};
use commit_trails::{nothing_tried_leaves_a_trail, trails_join};
use disk_model::{Disk, Sink};
use flow_engine::{End, Engine, FlowId, Listings, run_flow};
use landing_core::Landing;
use par_rows::Gate;
use plan_core::Plan;
use state_steps::a_commit_keeps_a_store_standing;
use std::alloc::Global;
use std::sync::ledger::Ledger;
use std::thread::Threads;
use value_core::Steps;

/// Runs one flow of several and writes its line, and whether it stopped.
fn run_next<D: Disk, L: Landing, S: Sink, H: Threads + Sync, G: Gate + Sync, K: Ledger>(
    rt: &H,
    alloc: Global,
    plan: &Plan,
    engine: &mut Engine,
    disk: &mut D,
    landing: &mut L,
    listings: &Listings,
    flow: FlowId,
    out: &mut S,
    gate: &G,
    workers: u32,
    steps: &mut Steps<K>,
) -> Result<bool, End>
    requires workers { (1 ≤ workers) × (workers ≤ 64) }
    requires appends { AreAppends plan.now }
    requires sound { IsSoundPlan plan.now }
    requires text { PartsKeepText plan.now }
    requires flow { IsFlow plan.now flow }
    requires listed { AreListed L.tells plan.now (L.present landing.old) listings.now }
    requires ready { IsReady plan.now (engine_state engine.old) }
    requires marks { length (engine_halted engine.old) ≡ length plan.now }
    requires whole { store_broken (engine_store engine.old) ≡ None }
    requires at_rest { D.tells → AreAsLeft (engine_store engine.old) (D.state disk.old) }

    ensures runs { D.tells → IsHonest (D.state disk.old) → (files past : List LandingFile)
        → (L.tells → L.present landing.old ≡ files) → (L.tells → L.ever landing.old ≡ past) → (L.tells → HoldsPresent files past)
        → (was now : ℕ) → AreBlamed was now listings.now → was ≤ L.faults landing.old → L.faults landing.new ≤ now
        → RunsNext D.tells_moments S.tells (landed_by L.tells files past listings.now) was now plan.now (D.room disk.old) flow (point_of engine.old) result engine.new (D.state disk.old) (D.state disk.new) (S.written out.old) (S.written out.new) }

    // The next flow may run.
    ensures ready { OnOk result (IsReady plan.now (engine_state engine.new)) }
    ensures marks { OnOk result (length (engine_halted engine.new) ≡ length plan.now) }
    ensures whole { OnOk result (store_broken (engine_store engine.new) ≡ None) }
    ensures at_rest { D.tells → IsHonest (D.state disk.old) → OnOk result (AreAsLeft (engine_store engine.new) (D.state disk.new)) }
    ensures honest { D.tells → IsHonest (D.state disk.old) → IsHonest (D.state disk.new) }
    ensures present { L.tells → L.present landing.new ≡ L.present landing.old }
    ensures ever { L.tells → L.ever landing.new ≡ L.ever landing.old }
    ensures room { D.room disk.new ≡ D.room disk.old }

    ensures disk_fault { (count : ℕ) → result ≡ Err (Disk count) → Rose (D.faults disk.old) (D.faults disk.new) × (count ≡ D.faults disk.new) }
    ensures sink_fault { result ≡ Err sink → Rose (S.faults out.old) (S.faults out.new) }
    ensures disk_later { D.faults disk.old ≤ D.faults disk.new }
    ensures landing_later { L.faults landing.old ≤ L.faults landing.new }
    ensures sink_later { S.faults out.old ≤ S.faults out.new }
{
    match run_flow(
        rt, alloc, plan, engine, disk, landing, listings, flow, gate, workers, steps,
    ) {
        Ok(end) => match tell(alloc, plan, flow, &end, out) {
            Ok(()) => Ok(is_stop(&end)),
            Err(why) => Err(why),
        },
        Err(why) => Err(why),
    }
}

fn either(one: bool, other: bool) -> bool
    ensures { result ≡ (one || other) }
{
    one || other
}

/// Runs flows in order, and whether any stopped.
pub(crate) fn run_all<D: Disk, L: Landing, S: Sink, H: Threads + Sync, G: Gate + Sync, K: Ledger>(
    rt: &H,
    alloc: Global,
    plan: &Plan,
    engine: &mut Engine,
    disk: &mut D,
    landing: &mut L,
    listings: &Listings,
    flows: &[FlowId],
    out: &mut S,
    gate: &G,
    workers: u32,
    steps: &mut Steps<K>,
) -> Result<bool, End>
    requires workers { (1 ≤ workers) × (workers ≤ 64) }
    requires appends { AreAppends plan.now }
    requires sound { IsSoundPlan plan.now }
    requires text { PartsKeepText plan.now }
    requires flows { AllByRecursion (IsFlow plan.now) flows.now }
    requires listed { AreListed L.tells plan.now (L.present landing.old) listings.now }
    requires ready { IsReady plan.now (engine_state engine.old) }
    requires marks { length (engine_halted engine.old) ≡ length plan.now }
    requires whole { store_broken (engine_store engine.old) ≡ None }
    requires at_rest { D.tells → AreAsLeft (engine_store engine.old) (D.state disk.old) }
    requires honest { D.tells → IsHonest (D.state disk.old) }

    ensures runs { D.tells → (files past : List LandingFile)
        → (L.tells → L.present landing.old ≡ files) → (L.tells → L.ever landing.old ≡ past) → (L.tells → HoldsPresent files past)
        → (was now : ℕ) → AreBlamed was now listings.now → was ≤ L.faults landing.old → L.faults landing.new ≤ now
        → HaveRun D.tells_moments S.tells (landed_by L.tells files past listings.now) was now plan.now (D.room disk.old) flows.now (point_of engine.old) result (D.state disk.old) (D.state disk.new) (S.written out.old) (S.written out.new) }

    ensures honest { D.tells → IsHonest (D.state disk.new) }
    ensures present { L.tells → L.present landing.new ≡ L.present landing.old }
    ensures ever { L.tells → L.ever landing.new ≡ L.ever landing.old }
    ensures room { D.room disk.new ≡ D.room disk.old }

    ensures disk_fault { (count : ℕ) → result ≡ Err (Disk count) → Rose (D.faults disk.old) (D.faults disk.new) × (count ≡ D.faults disk.new) }
    ensures sink_fault { result ≡ Err sink → Rose (S.faults out.old) (S.faults out.new) }
    ensures disk_later { D.faults disk.old ≤ D.faults disk.new }
    ensures landing_later { L.faults landing.old ≤ L.faults landing.new }
    ensures sink_later { S.faults out.old ≤ S.faults out.new }
{
    nothing_tried_leaves_a_trail::<D>();
    trails_join::<D>();
    a_commit_keeps_a_store_standing();
    let mut any = false;
    for flow in flows {
        match run_next(
            rt, alloc, plan, engine, disk, landing, listings, *flow, out, gate, workers, steps,
        ) {
            Ok(stopped) => any = either(any, stopped),
            Err(why) => return Err(why),
        }
    }
    Ok(any)
}
