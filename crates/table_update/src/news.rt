// What is new in the folder of a table.
ghost use Rattle.std.specs.Prelude.{◌≡◌, true, None, ℕ, List, IsTrue, IfOk, IfErr, OnOk};
ghost use Rattle.disk_model.specs.Faults.{HasCauseOf};
ghost use Rattle.value_core.specs.Bags.{IsInOrder};
ghost use Rattle.value_core.specs.FilePlaces.{IsPlaces};
ghost use Rattle.value_core.specs.declared.cursor.FilePlace.{FilePlace};
ghost use Rattle.landing_core.specs.Ends.{EndsBy};
ghost use Rattle.landing_core.specs.Folders.{AreThere, listed_names};
ghost use Rattle.landing_core.specs.Names.{AreAscending};
ghost use Rattle.landing_history.specs.Taken.{with_heads};
ghost use Rattle.store_core.specs.Store.{store_state};
ghost use Rattle.store_state.specs.Follows.{all_fit, none_falls};
ghost use Rattle.store_state.specs.State.{Dataset};
ghost use Rattle.table_update.specs.Flow.{FindsNone, lines, reach, shrunk, listing as listed};
ghost use Rattle.table_update.specs.News as spec;
ghost use Rattle.table_update.specs.News.{IsNews, IsOfNews, IsOfList};
ghost use Rattle.table_update.specs.Table.{columns_of, HoldsTable, is_sound};

use crate::end::UpdateEnd;
use crate::rows::sorted_rows;
use crate::table::AppendTable;
use landing_core::{Fresh, Landing, LineEnd, ListEnd, Listing, fresh_lines, is_same_places};
use std::alloc::Global;
use store_core::Store;
use value_core::{Cursor, FilePlaces, Rows};

/// What the table takes next: its rows in row order, how many lines they come from, and how far the
/// files are read then.
#[derive(Drop)]
pub(crate) struct News {
    pub(crate) rows: Rows,
    pub(crate) read: u64,
    pub(crate) places: FilePlaces,
}

/// How far the table's flow has read.
pub(crate) fn places_read<'a>(table: &AppendTable, store: &'a Store) -> &'a FilePlaces
    requires { (dataset : Dataset) × (places : List FilePlace) × HoldsTable table.now (store_state store.now) dataset places }
    ensures places { (dataset : Dataset) (places : List FilePlace) → HoldsTable table.now (store_state store.now) dataset places → result.now ≡ places }
    ensures form { IsPlaces result.now }
{
    match store.cursor(&table.name, &table.name) {
        Some(Cursor::Files(places)) => places,
        _ => unreachable!(),
    }
}

/// What the table's folder lists.
fn list<L: Landing>(
    alloc: Global,
    landing: &mut L,
    table: &AppendTable,
) -> Result<Listing, UpdateEnd>
    ensures listing { L.tells → IfOk result (λ listing. listing ≡ listed table.now (L.present landing.old)) }
    ensures there { L.tells → IfOk result (λ listing. AreThere table.now.folder (L.present landing.old) listing) }
    ensures ascending { IfOk result (λ listing. AreAscending (listed_names listing)) }
    ensures err { IfErr result IsOfList }
    ensures present { L.tells → L.present landing.new ≡ L.present landing.old }
    ensures ever { L.tells → L.ever landing.new ≡ L.ever landing.old }
    ensures cause { HasCauseOf UpdateEnd.LandingFailed (L.faults landing.old) (L.faults landing.new) result }
{
    match landing.list(alloc, table.folder.as_str()) {
        Ok(listing) => Ok(listing),
        Err(ListEnd::Failed) => Err(UpdateEnd::LandingFailed),
        Err(ListEnd::Memory) => Err(UpdateEnd::Memory),
    }
}

/// Why no lines were read, as the end of an update.
fn end_of_lines(end: LineEnd) -> UpdateEnd
    ensures { result ≡ spec.end_of_lines end }
{
    match end {
        LineEnd::Shrunk { file, cursor, size } => UpdateEnd::Shrunk { file, cursor, size },
        LineEnd::Failed => UpdateEnd::LandingFailed,
        LineEnd::Memory => UpdateEnd::Memory,
    }
}

/// The lines behind the places that the table's flow has read up to.
fn read_on<L: Landing>(
    alloc: Global,
    landing: &mut L,
    table: &AppendTable,
    places: &FilePlaces,
) -> Result<Fresh, UpdateEnd>
    requires { IsPlaces places.now }
    ensures heads { L.tells → IfOk result (λ fresh. with_heads fresh.heads fresh.lines ≡ lines table.now (L.present landing.old) places.now) }
    ensures cursor { L.tells → IfOk result (λ fresh. fresh.cursor ≡ reach table.now (L.present landing.old) places.now) }
    ensures unshrunk { L.tells → OnOk result (shrunk table.now (L.present landing.old) places.now ≡ None) }
    ensures moves { IfOk result (λ fresh. IsPlaces fresh.cursor × (none_falls places.now fresh.cursor ≡ true)) }
    ensures err { L.tells → IfErr result (FindsNone table.now (L.present landing.old) places.now) }
    ensures own { IfErr result IsOfNews }
    ensures present { L.tells → L.present landing.new ≡ L.present landing.old }
    ensures ever { L.tells → L.ever landing.new ≡ L.ever landing.old }
    ensures cause { HasCauseOf UpdateEnd.LandingFailed (L.faults landing.old) (L.faults landing.new) result }
{
    let listing = list(alloc, landing, table)?;
    fresh_lines(
        alloc,
        landing,
        table.folder.as_str(),
        &listing,
        places,
        table.shape.format,
        table.shape.header,
    )
    .map_err(end_of_lines)
}

/// What the table takes next. Where nothing is new the update is at its end.
pub(crate) fn find_news<L: Landing>(
    alloc: Global,
    landing: &mut L,
    table: &AppendTable,
    places: &FilePlaces,
) -> Result<News, UpdateEnd>
    requires sound { IsTrue (is_sound table.now) }
    requires form { IsPlaces places.now }
    ensures ok { L.tells → IfOk result (IsNews table.now (L.present landing.old) places.now) }
    ensures err { L.tells → IfErr result (FindsNone table.now (L.present landing.old) places.now) }
    ensures fits { IfOk result (λ news. all_fit (columns_of table.now.outputs) news.rows ≡ true) }
    ensures moves { IfOk result (λ news. IsPlaces news.places × (none_falls places.now news.places ≡ true)) }
    ensures order { IfOk result (λ news. IsInOrder news.rows) }
    ensures own { IfErr result IsOfNews }
    ensures present { L.tells → L.present landing.new ≡ L.present landing.old }
    ensures ever { L.tells → L.ever landing.new ≡ L.ever landing.old }
    ensures cause { HasCauseOf UpdateEnd.LandingFailed (L.faults landing.old) (L.faults landing.new) result }
{
    let fresh = read_on(alloc, landing, table, places)?;
    if is_same_places(fresh.cursor.as_slice(), places.as_slice()) {
        return Err(UpdateEnd::Current);
    }
    Ok(News {
        rows: sorted_rows(alloc, table, &fresh.heads, fresh.lines.as_slice())?,
        read: fresh.lines.len() as u64,
        places: fresh.cursor,
    })
}
