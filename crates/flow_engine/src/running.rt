// A flow whose dataset is at hand.
ghost use Rattle.std.specs.Prelude.{◌≡◌, ◌≢◌, ◌≤◌, ◌+◌, ℕ, List, Err, None, IfOk, IfErr, OnOk};
ghost use Rattle.disk_model.specs.Disk.{IsHonest};
ghost use Rattle.disk_model.specs.Faults.{Rose};
ghost use Rattle.landing_core.specs.Folders.{HoldsPresent};
ghost use Rattle.pair_store.specs.Store.{AreAsLeft, store_broken, store_state};
ghost use Rattle.plan_core.specs.declared.plan.Dataset.{Dataset as Part};
ghost use Rattle.plan_core.specs.declared.stop.FlowEnd.TheVariants.{Skipped};
ghost use Rattle.store_fitness.specs.Fitness.{AreAppends, IsReady};
ghost use Rattle.append_offers.specs.Looks.{flow_looks};
ghost use Rattle.flow_news.specs.News.{IsListingFor};
ghost use Rattle.flow_engine.specs.Commits.{HasEnded, MayRun, end_of};
ghost use Rattle.flow_engine.specs.Ends as spec;
ghost use Rattle.flow_engine.specs.Ends.{Runs, RunsUnless};
ghost use Rattle.flow_engine.specs.Engine.{BlamesEnd, BlamesListing};
ghost use Rattle.flow_engine.specs.Flows.{blocked_by, listing_for};
ghost use Rattle.flow_engine.specs.declared.ends.End.TheVariants.{Disk, Memory, Sink};

use crate::ends::End;
use crate::listings::Listings;
use crate::offered::{blocked, listing_of};
use crate::settle::settle;
use append_offers::{FolderListing, append_offer};
use commit_trails::nothing_tried_leaves_a_trail;
use disk_model::Disk;
use landing_core::Landing;
use pair_store::Store;
use par_rows::Gate;
use plan_core::{AppendFlow, Dataset, FlowEnd, Plan};
use std::alloc::{AllocError, Global};
use std::sync::ledger::Ledger;
use std::thread::Threads;
use value_core::{Name, Steps};

/// The version of a dataset of a store, and 0 where there is none.
fn version_in(store: &Store, name: &Name) -> u64
    ensures { result ≡ spec.version_in (store_state store.now) name.now }
{
    match store.table(name) {
        None => 0,
        Some(table) => table.now(),
    }
}

/// Runs a flow of a dataset that nothing blocks.
fn run<D: Disk, L: Landing, H: Threads + Sync, G: Gate + Sync, K: Ledger>(
    rt: &H,
    alloc: Global,
    store: &mut Store,
    disk: &mut D,
    landing: &mut L,
    listing: &FolderListing,
    dataset: &Dataset,
    flow: &AppendFlow,
    gate: &G,
    workers: u32,
    steps: &mut Steps<K>,
) -> Result<FlowEnd, End>
    requires workers { (1 ≤ workers) × (workers ≤ 64) }
    requires listing { IsListingFor L.tells flow.now.origin (L.present landing.old) listing.now }
    requires may_run { (plan : List Part) × MayRun plan (store_state store.old) dataset.now flow.now }
    requires whole { store_broken store.old ≡ None }
    requires at_rest { D.tells → AreAsLeft store.old (D.state disk.old) }

    ensures ended { D.tells → IsHonest (D.state disk.old) → (L.tells → HoldsPresent (L.present landing.old) (L.ever landing.old))
        → HasEnded D.tells_moments L.tells (L.ever landing.old) dataset.now (Runs L.tells (L.present landing.old) (D.room disk.old) listing.now (store_state store.old) (end_of store.old) dataset.now flow.now) store.old store.new result (D.state disk.old) (D.state disk.new) }
    ensures looks { steps.new ≤ steps.old + flow_looks (store_state store.old) dataset.now flow.now }

    ensures ready { (plan : List Part) → AreAppends plan → IsReady plan (store_state store.old) → OnOk result (IsReady plan (store_state store.new)) }
    ensures still_whole { OnOk result (store_broken store.new ≡ None) }
    ensures still_at_rest { D.tells → IsHonest (D.state disk.old) → OnOk result (AreAsLeft store.new (D.state disk.new)) }
    ensures honest { D.tells → IsHonest (D.state disk.old) → IsHonest (D.state disk.new) }
    ensures present { L.tells → L.present landing.new ≡ L.present landing.old }
    ensures ever { L.tells → L.ever landing.new ≡ L.ever landing.old }
    ensures room { D.room disk.new ≡ D.room disk.old }

    ensures disk_fault { (count : ℕ) → result ≡ Err (Disk count) → Rose (D.faults disk.old) (D.faults disk.new) × (count ≡ D.faults disk.new) }
    ensures landing_fault { IfOk result (BlamesListing listing.now (L.faults landing.old) (L.faults landing.new)) }
    ensures no_sink { result ≢ Err Sink }
    ensures disk_later { D.faults disk.old ≤ D.faults disk.new }
    ensures landing_later { L.faults landing.old ≤ L.faults landing.new }
{
    nothing_tried_leaves_a_trail::<D>();
    let version = version_in(store, &dataset.name);
    let offered = append_offer(
        rt, alloc, store, landing, listing, dataset, flow, gate, workers, steps,
    );
    match offered {
        Ok(offer) => settle(store, disk, version, offer),
        Err(AllocError) => Err(End::Memory),
    }
}

/// A flow is skipped, for the dataset of this name.
fn skipped(alloc: Global, name: &Name) -> Result<FlowEnd, End>
    ensures skips { IfOk result (λ end. end ≡ Skipped name.now) }
    ensures memory { IfErr result (λ end. end ≡ Memory) }
{
    let name = name.copy(alloc)?;
    Ok(FlowEnd::Skipped { name })
}

/// Runs a flow of a dataset, unless a dataset that it reads is marked.
pub(crate) fn run_unless_blocked<D: Disk, L: Landing, H: Threads + Sync, G: Gate + Sync, K: Ledger>(
    rt: &H,
    alloc: Global,
    plan: &Plan,
    store: &mut Store,
    halted: &[bool],
    disk: &mut D,
    landing: &mut L,
    listings: &Listings,
    dataset: &Dataset,
    flow: &AppendFlow,
    gate: &G,
    workers: u32,
    steps: &mut Steps<K>,
) -> Result<FlowEnd, End>
    requires workers { (1 ≤ workers) × (workers ≤ 64) }
    requires listing { IsListingFor L.tells flow.now.origin (L.present landing.old) (listing_for listings.now flow.now.origin) }
    requires may_run { MayRun plan.now (store_state store.old) dataset.now flow.now }
    requires whole { store_broken store.old ≡ None }
    requires at_rest { D.tells → AreAsLeft store.old (D.state disk.old) }

    ensures ended { D.tells → IsHonest (D.state disk.old) → (L.tells → HoldsPresent (L.present landing.old) (L.ever landing.old))
        → HasEnded D.tells_moments L.tells (L.ever landing.old) dataset.now (RunsUnless L.tells (L.present landing.old) (D.room disk.old) (blocked_by flow.now.origin plan.now halted.now) (listing_for listings.now flow.now.origin) (store_state store.old) (end_of store.old) dataset.now flow.now) store.old store.new result (D.state disk.old) (D.state disk.new) }
    ensures looks { steps.new ≤ steps.old + flow_looks (store_state store.old) dataset.now flow.now }

    ensures ready { OnOk result (IsReady plan.now (store_state store.new)) }
    ensures still_whole { OnOk result (store_broken store.new ≡ None) }
    ensures still_at_rest { D.tells → IsHonest (D.state disk.old) → OnOk result (AreAsLeft store.new (D.state disk.new)) }
    ensures honest { D.tells → IsHonest (D.state disk.old) → IsHonest (D.state disk.new) }
    ensures present { L.tells → L.present landing.new ≡ L.present landing.old }
    ensures ever { L.tells → L.ever landing.new ≡ L.ever landing.old }
    ensures room { D.room disk.new ≡ D.room disk.old }

    ensures disk_fault { (count : ℕ) → result ≡ Err (Disk count) → Rose (D.faults disk.old) (D.faults disk.new) × (count ≡ D.faults disk.new) }
    ensures landing_fault { IfOk result (BlamesEnd listings.now (L.faults landing.old) (L.faults landing.new)) }
    ensures no_sink { result ≢ Err Sink }
    ensures disk_later { D.faults disk.old ≤ D.faults disk.new }
    ensures landing_later { L.faults landing.old ≤ L.faults landing.new }
{
    nothing_tried_leaves_a_trail::<D>();
    match blocked(&flow.origin, plan.as_slice(), halted) {
        Some(source) => skipped(alloc, &source.name),
        None => {
            let none = FolderListing::NoFolder;
            let listing = listing_of(listings, &flow.origin, &none);
            run(
                rt, alloc, store, disk, landing, listing, dataset, flow, gate, workers, steps,
            )
        }
    }
}
