// What is new to a flow.
ghost use Rattle.std.specs.Prelude.{◌≡◌, ◌≤◌, ◌+◌, IfOk};
ghost use Rattle.pair_store.specs.Store.{store_state};
ghost use Rattle.flow_news.specs.Finds.{IsNews};
ghost use Rattle.flow_news.specs.Looks.{origin_looks};
ghost use Rattle.flow_news.specs.News.{IsListingFor};

use crate::files::files_news;
use crate::news::News;
use crate::offer::FolderListing;
use crate::source::table_news;
use landing_core::Landing;
use pair_store::Store;
use plan_core::Origin;
use std::alloc::{AllocError, Global};
use std::sync::ledger::Ledger;
use value_core::{Cursor, Steps};

/// What is new to a flow that stands at a position, and the position behind it.
///
/// From a folder it is the lines that are new in the listed files, file by file in the order of their names and line by
/// line; from a dataset that the flow has read up to a version, the rows that the changes after the version add, change by
/// change in row order; from one that it never read, the whole content in row order.
///
/// `Halted` has the first of these causes: `Landing` where the folder's listing failed, `Shrunk` where a listed size is below
/// the file's place, the first file by name, before any read; and `Landing` where a read failed, with the landing's count of
/// faults before and after this call's reads. `Idle` comes exactly where the position stays. `Unfit` comes where the store
/// lacks the source, or the position isn't of its kind, or is a version that isn't kept.
///
/// `listing` is what the landing listed of the flow's folder, by which it is read. `Err` comes for want of memory alone.
pub fn find_news<L: Landing, K: Ledger>(
    alloc: Global,
    store: &Store,
    landing: &mut L,
    listing: &FolderListing,
    from: &Origin,
    cursor: &Cursor,
    steps: &mut Steps<K>,
) -> Result<News, AllocError>
    requires { IsListingFor L.tells from.now (L.present landing.old) listing.now }
    ensures news { IfOk result (IsNews L.tells (L.faults landing.old) (L.faults landing.new) (L.present landing.old) (store_state store.now) listing.now cursor.now from.now) }
    ensures looks { steps.new ≤ steps.old + origin_looks (store_state store.now) from.now cursor.now }
    ensures present { L.tells → L.present landing.new ≡ L.present landing.old }
    ensures ever { L.tells → L.ever landing.new ≡ L.ever landing.old }
    ensures later { L.faults landing.old ≤ L.faults landing.new }
{
    match from {
        Origin::Files { dir, shape } => files_news(alloc, landing, dir, shape, listing, cursor),
        Origin::Table { name } => match store.table(name) {
            None => Ok(News::Unfit),
            Some(table) => table_news(alloc, table, cursor, steps),
        },
    }
}
