// The flow of a table: what is new is committed.
ghost use Rattle.std.specs.Prelude.{◌≡◌, ◌≤◌, ℕ, List, None, IsTrue, true};
ghost use Rattle.disk_model.specs.declared.disk.Side.TheVariants.{Right};
ghost use Rattle.disk_model.specs.Disk.{IsHonest};
ghost use Rattle.disk_model.specs.Faults.{Rose};
ghost use Rattle.value_core.specs.Bags.{IsInOrder};
ghost use Rattle.value_core.specs.FilePlaces.{IsPlaces};
ghost use Rattle.value_core.specs.declared.cursor.FilePlace.{FilePlace};
ghost use Rattle.commit_gate.specs.AtRest.{log_end, LeavesFile};
ghost use Rattle.landing_core.specs.declared.landing.LandingFile.{LandingFile};
ghost use Rattle.store_state.specs.Follows.{all_fit, none_falls};
ghost use Rattle.store_state.specs.State.{Dataset, version_of};
ghost use Rattle.store_core.specs.Ours.{IsOurs};
ghost use Rattle.store_core.specs.Spared.{LogGoesOn};
ghost use Rattle.store_core.specs.Store.{store_state, store_log, store_broken, IsAsLeft};
ghost use Rattle.table_update.specs.Commit.{FlowRan, IsOfRun, IsOfTake};
ghost use Rattle.table_update.specs.News.{IsNews};
ghost use Rattle.table_update.specs.Table.{columns_of, HoldsTable, is_sound};

use crate::commit::commit;
use crate::end::UpdateEnd;
use crate::news::{News, find_news, places_read};
use crate::table::AppendTable;
use disk_model::Disk;
use landing_core::Landing;
use std::alloc::Global;
use store_core::Store;

/// The table's version now.
fn version(table: &AppendTable, store: &Store) -> u64
    requires { (dataset : Dataset) × (places : List FilePlace) × HoldsTable table.now (store_state store.now) dataset places }
    ensures { (dataset : Dataset) (places : List FilePlace) → HoldsTable table.now (store_state store.now) dataset places → result ≡ version_of dataset }
{
    match store.table(&table.name) {
        Some(versions) => versions.now(),
        None => unreachable!(),
    }
}

/// Commits what is new.
fn take<D: Disk>(
    alloc: Global,
    disk: &mut D,
    table: &AppendTable,
    store: &mut Store,
    news: News,
) -> UpdateEnd
    requires at_rest { D.tells → IsAsLeft store.old (D.state disk.old) }
    requires whole { store_broken store.old ≡ None }
    // What is new fits the table, and goes on where its flow has read up to.
    requires goes_on { (dataset : Dataset) × (places : List FilePlace) × HoldsTable table.now (store_state store.old) dataset places × (none_falls places news.places ≡ true) }
    requires form { IsPlaces news.places }
    requires fits { all_fit (columns_of table.now.outputs) news.rows ≡ true }
    requires order { IsInOrder news.rows }

    ensures ran { D.tells → IsHonest (D.state disk.old) → (files : List LandingFile) (dataset : Dataset) (places : List FilePlace) → HoldsTable table.now (store_state store.old) dataset places → IsNews table.now files places news
        → FlowRan D.tells_moments table.now files (D.room disk.old) (log_end (store_log store.old)) (store_state store.old) result store.new (D.state disk.old) (D.state disk.new) }
    ensures honest { D.tells → IsHonest (D.state disk.old) → IsHonest (D.state disk.new) }
    ensures ours { D.tells → IsHonest (D.state disk.old) → IsOurs (D.state disk.old) → IsOurs (D.state disk.new) }
    ensures goes_on { D.tells → IsHonest (D.state disk.old) → LogGoesOn D.tells_moments (log_end (store_log store.old)) (D.state disk.old) (D.state disk.new) }
    ensures kept { D.tells → IsHonest (D.state disk.old) → LeavesFile Right (D.state disk.old) (D.state disk.new) }
    ensures own { IsOfTake result }
    ensures fault { result ≡ UpdateEnd.CommitFailed → Rose (D.faults disk.old) (D.faults disk.new) }
    ensures later { D.faults disk.old ≤ D.faults disk.new }
    ensures room { D.room disk.new ≡ D.room disk.old }
{
    let read = news.read;
    let version = version(table, store);
    let Ok(payload) = table.take(alloc, news.rows, news.places) else {
        return UpdateEnd::Memory;
    };
    match commit(store, disk, payload) {
        Ok(()) => UpdateEnd::Completed {
            read,
            version: version + 1,
        },
        Err(end) => end,
    }
}

/// Takes in what is new in the table's folder. The store has this table.
pub(crate) fn flow<D: Disk, L: Landing>(
    alloc: Global,
    disk: &mut D,
    landing: &mut L,
    table: &AppendTable,
    store: &mut Store,
) -> UpdateEnd
    requires at_rest { D.tells → IsAsLeft store.old (D.state disk.old) }
    requires whole { store_broken store.old ≡ None }
    requires holds { (dataset : Dataset) × (places : List FilePlace) × HoldsTable table.now (store_state store.old) dataset places }
    requires sound { IsTrue (is_sound table.now) }

    ensures ran { D.tells → L.tells → IsHonest (D.state disk.old) → FlowRan D.tells_moments table.now (L.present landing.old) (D.room disk.old) (log_end (store_log store.old)) (store_state store.old) result store.new (D.state disk.old) (D.state disk.new) }
    ensures honest { D.tells → IsHonest (D.state disk.old) → IsHonest (D.state disk.new) }
    ensures ours { D.tells → IsHonest (D.state disk.old) → IsOurs (D.state disk.old) → IsOurs (D.state disk.new) }
    ensures goes_on { D.tells → IsHonest (D.state disk.old) → LogGoesOn D.tells_moments (log_end (store_log store.old)) (D.state disk.old) (D.state disk.new) }
    ensures kept { D.tells → IsHonest (D.state disk.old) → LeavesFile Right (D.state disk.old) (D.state disk.new) }
    ensures present { L.tells → L.present landing.new ≡ L.present landing.old }
    ensures ever { L.tells → L.ever landing.new ≡ L.ever landing.old }
    ensures own { IsOfRun result }
    ensures commit_fault { result ≡ UpdateEnd.CommitFailed → Rose (D.faults disk.old) (D.faults disk.new) }
    ensures landing_fault { result ≡ UpdateEnd.LandingFailed → Rose (L.faults landing.old) (L.faults landing.new) }
    ensures disk_later { D.faults disk.old ≤ D.faults disk.new }
    ensures landing_later { L.faults landing.old ≤ L.faults landing.new }
    ensures room { D.room disk.new ≡ D.room disk.old }
{
    let news = match find_news(alloc, landing, table, places_read(table, store)) {
        Ok(news) => news,
        Err(end) => return end,
    };
    take(alloc, disk, table, store, news)
}
