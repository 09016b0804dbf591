// What an append flow comes to.
ghost use Rattle.std.specs.Prelude.{◌≡◌, ◌≤◌, ◌+◌, List, Some, IfOk};
ghost use Rattle.landing_core.specs.Folders.{HoldsPresent};
ghost use Rattle.plan_core.specs.declared.flow.AppendFlow.{AppendFlow as Appending};
ghost use Rattle.plan_core.specs.declared.plan.Body.TheVariants as body;
ghost use Rattle.plan_core.specs.declared.plan.Dataset.{Dataset as Part};
ghost use Rattle.plan_core.specs.Sound.{IsSoundPlan, dataset_named};
ghost use Rattle.state_model.specs.Dataset.{dataset_of};
ghost use Rattle.pair_store.specs.Store.{store_state};
ghost use Rattle.state_steps.specs.Stands.{Stands};
ghost use Rattle.state_steps.specs.Steps.{flow_named};
ghost use Rattle.store_fitness.specs.Fitness.{IsReady};
ghost use Rattle.update_plan.specs.Commits.{PartsKeepText};
ghost use Rattle.flow_news.specs.Commits.{IsOfStanding, MayBeTaken};
ghost use Rattle.append_offers.specs.Looks.{flow_looks};
ghost use Rattle.flow_news.specs.News.{IsListingFor};
ghost use Rattle.append_offers.specs.Offers.{IsOffer, OfOrigin, offer_of};
ghost use Rattle.flow_news.specs.Blames.{Blames};
ghost use Rattle.flow_news.specs.Finds.{found_of};
ghost use Rattle.flow_news.specs.Looks.{origin_looks};

use crate::batch::batch_offer;
use flow_kinds::append_rows_fit_the_table;
use flow_news::{FolderListing, News, Offer, find_news};
use landing_core::Landing;
use landing_history::{places_have_one_form, reach_keeps_ends};
use pair_state::a_state_comes_of_payloads;
use pair_store::Store;
use par_rows::Gate;
use plan_core::{AppendFlow, Dataset};
use state_steps::a_reading_finds_what_is_between;
use std::alloc::{AllocError, Global};
use std::sync::ledger::Ledger;
use std::thread::Threads;
use value_core::{Cursor, Steps, Tallies};

/// What a flow comes to by its news.
fn news_offer<H: Threads + Sync, G: Gate + Sync>(
    rt: &H,
    alloc: Global,
    gate: &G,
    workers: u32,
    dataset: &Dataset,
    flow: &AppendFlow,
    kept: &Tallies,
    news: News,
) -> Result<Offer, AllocError>
    requires { (1 ≤ workers) × (workers ≤ 64) }
    ensures { IfOk result (λ offer. offer ≡ offer_of dataset.now flow.now kept.now (found_of flow.now.origin news)) }
{
    match news {
        News::Idle => Ok(Offer::Idle),
        News::Halted(why) => Ok(Offer::Halted(why)),
        News::Unfit => Ok(Offer::Unfit),
        News::Come { rows, behind } => {
            let input = rows.input();
            batch_offer(
                rt, alloc, gate, workers, dataset, flow, kept, behind, &input,
            )
        }
    }
}

/// What a flow comes to that stands at this position, and whose dataset has these counts.
fn origin_offer<L: Landing, H: Threads + Sync, G: Gate + Sync, K: Ledger>(
    rt: &H,
    alloc: Global,
    store: &Store,
    landing: &mut L,
    listing: &FolderListing,
    dataset: &Dataset,
    flow: &AppendFlow,
    kept: &Tallies,
    cursor: &Cursor,
    gate: &G,
    workers: u32,
    steps: &mut Steps<K>,
) -> Result<Offer, AllocError>
    requires workers { (1 ≤ workers) × (workers ≤ 64) }
    requires listing { IsListingFor L.tells flow.now.origin (L.present landing.old) listing.now }
    ensures offer { IfOk result (OfOrigin L.tells (L.faults landing.old) (L.faults landing.new) (L.present landing.old) dataset.now flow.now kept.now (store_state store.now) listing.now cursor.now flow.now.origin) }
    ensures looks { steps.new ≤ steps.old + origin_looks (store_state store.now) flow.now.origin cursor.now }
    ensures present { L.tells → L.present landing.new ≡ L.present landing.old }
    ensures ever { L.tells → L.ever landing.new ≡ L.ever landing.old }
    ensures later { L.faults landing.old ≤ L.faults landing.new }
{
    let news = find_news(alloc, store, landing, listing, &flow.origin, cursor, steps)?;
    news_offer(rt, alloc, gate, workers, dataset, flow, kept, news)
}

/// What a flow comes to, by where the store has it.
fn offer_of<L: Landing, H: Threads + Sync, G: Gate + Sync, K: Ledger>(
    rt: &H,
    alloc: Global,
    store: &Store,
    landing: &mut L,
    listing: &FolderListing,
    dataset: &Dataset,
    flow: &AppendFlow,
    gate: &G,
    workers: u32,
    steps: &mut Steps<K>,
) -> Result<Offer, AllocError>
    requires workers { (1 ≤ workers) × (workers ≤ 64) }
    requires listing { IsListingFor L.tells flow.now.origin (L.present landing.old) listing.now }
    ensures offer { IfOk result (IsOffer L.tells (L.faults landing.old) (L.faults landing.new) (L.present landing.old) dataset.now flow.now (store_state store.now) listing.now (dataset_of (store_state store.now) dataset.now.name)) }
    ensures looks { steps.new ≤ steps.old + flow_looks (store_state store.now) dataset.now flow.now }
    ensures present { L.tells → L.present landing.new ≡ L.present landing.old }
    ensures ever { L.tells → L.ever landing.new ≡ L.ever landing.old }
    ensures later { L.faults landing.old ≤ L.faults landing.new }
{
    let Some(kept) = store.tallies(&dataset.name) else {
        return Ok(Offer::Unfit);
    };
    let Some(cursor) = store.cursor(&dataset.name, &flow.name) else {
        return Ok(Offer::Unfit);
    };
    origin_offer(
        rt, alloc, store, landing, listing, dataset, flow, kept, cursor, gate, workers, steps,
    )
}

/// What an append flow of a streaming table comes to before the disk is called (Databricks SQL
/// reference, CREATE STREAMING TABLE and CREATE FLOW).
///
/// From a folder its rows are those of the lines that are new in the listed files, file by file in the
/// order of their names and line by line; from a dataset that it has read up to a version, those that
/// the changes after the version add, change by change in row order; from one that it never read, the
/// whole content in row order. Rows are numbered from 1.
///
/// `Halted` has the first of these causes: `Landing` where the folder's listing failed, `Shrunk` where a
/// listed size is below the file's place, the first file by name, before any read; `Landing` where a
/// read failed, with the landing's count of faults before and after this call's reads; the stop of the
/// first row that has one; and `CountOverflow` of the first expectation whose kept count would pass
/// 2^63 - 1. `Idle` comes exactly where the position stays, `Ready` where it moves and nothing stops
/// the batch: also one of no row. `Unfit` comes of no store that stands for its plan, or is ready for it.
///
/// `listing` is what the landing listed of the flow's folder, by which it is read. `Err` comes for want
/// of memory alone. Rows are evaluated by at most as many threads as there are workers; what comes out
/// is the same for every number of them.
pub fn append_offer<L: Landing, H: Threads + Sync, G: Gate + Sync, K: Ledger>(
    rt: &H,
    alloc: Global,
    store: &Store,
    landing: &mut L,
    listing: &FolderListing,
    dataset: &Dataset,
    flow: &AppendFlow,
    gate: &G,
    workers: u32,
    steps: &mut Steps<K>,
) -> Result<Offer, AllocError>
    requires workers { (1 ≤ workers) × (workers ≤ 64) }
    requires listing { IsListingFor L.tells flow.now.origin (L.present landing.old) listing.now }
    ensures offer { IfOk result (IsOffer L.tells (L.faults landing.old) (L.faults landing.new) (L.present landing.old) dataset.now flow.now (store_state store.now) listing.now (dataset_of (store_state store.now) dataset.now.name)) }
    // Whatever the landing tells, it is blamed only where its count rose.
    ensures blames { IfOk result (Blames listing.now (L.faults landing.old) (L.faults landing.new)) }
    // Where the landing tells, and the store stands for parts that have the dataset with this flow, the batch may be
    // committed, and the flow can always go on.
    ensures standing { L.tells → HoldsPresent (L.present landing.old) (L.ever landing.old) → (parts : List Part) (flows : List Appending)
        → Stands parts (L.ever landing.old) (store_state store.now)
        → dataset_named parts dataset.now.name ≡ Some dataset.now
        → dataset.now.body ≡ body.Append flows
        → flow_named flows flow.now.name ≡ Some flow.now
        → IfOk result (IsOfStanding parts (L.ever landing.old) (store_state store.now)) }
    // Whatever the landing tells, the batch may be committed to a store that is ready for a sound plan with this dataset and flow.
    ensures follows { (plan : List Part) (flows : List Appending)
        → IsSoundPlan plan
        → PartsKeepText plan
        → IsReady plan (store_state store.now)
        → dataset_named plan dataset.now.name ≡ Some dataset.now
        → dataset.now.body ≡ body.Append flows
        → flow_named flows flow.now.name ≡ Some flow.now
        → IfOk result (MayBeTaken (store_state store.now) dataset.now) }
    ensures looks { steps.new ≤ steps.old + flow_looks (store_state store.now) dataset.now flow.now }
    ensures present { L.tells → L.present landing.new ≡ L.present landing.old }
    ensures ever { L.tells → L.ever landing.new ≡ L.ever landing.old }
    ensures later { L.faults landing.old ≤ L.faults landing.new }
{
    places_have_one_form();
    reach_keeps_ends();
    a_reading_finds_what_is_between();
    append_rows_fit_the_table();
    a_state_comes_of_payloads();
    offer_of(
        rt, alloc, store, landing, listing, dataset, flow, gate, workers, steps,
    )
}
