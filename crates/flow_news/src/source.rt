// What a flow reads of a dataset.
ghost use Rattle.std.specs.Prelude.{◌≡◌, ◌≤◌, ◌+◌, ◌++◌, ◌↔◌, length, IfOk, IsTrue, OnOk};
ghost use Rattle.plan_core.specs.declared.flow.Origin.{Origin as AnOrigin};
ghost use Rattle.value_core.specs.Bags.{in_row_order};
ghost use Rattle.value_core.specs.declared.cursor.Cursor.TheVariants.{At, Never};
ghost use Rattle.net_changes.specs.Chains.{all_added};
ghost use Rattle.table_versions.specs.Versions.{IsKept, changes_since, content_now, now_of, rows_in};
ghost use Rattle.flow_news.specs.Looks.{table_looks};
ghost use Rattle.flow_news.specs.News.{AreSince};
ghost use Rattle.flow_news.specs.Finds.{OfTable, OfVersion, Follow, found_of};

use crate::news::{NewRows, News};
use std::alloc::{AllocError, Global};
use std::sync::ledger::Ledger;
use table_versions::{Table, VersionEnd, a_version_has_one_content};
use value_core::{Change, Cursor, ListOf, Rows, Steps};

/// Puts copies of rows behind others.
fn append(alloc: Global, rows: &mut Rows, more: &Rows) -> Result<(), AllocError>
    ensures { OnOk result (rows.new ≡ rows.old ++ more.now) }
{
    for row in more.as_slice() {
        rows.push(row.copy(alloc)?)?;
    }
    Ok(())
}

/// The rows that changes add, one change after another.
fn added(alloc: Global, changes: &[Change]) -> Result<Rows, AllocError>
    ensures { IfOk result (λ rows. rows ≡ all_added changes.now) }
{
    let mut rows = ListOf::new(alloc);
    for change in changes {
        append(alloc, &mut rows, &change.added)?;
    }
    Ok(rows)
}

/// Whether a table keeps a version.
fn keeps(table: &Table, version: u64) -> bool
    ensures { IsTrue result ↔ IsKept table.now version }
{
    if version < table.base() {
        return false;
    }
    version <= table.now()
}

/// The rows that were added after a version, change by change; `None` exactly where the table doesn't
/// keep it.
fn rows_since<K: Ledger>(
    alloc: Global,
    table: &Table,
    version: u64,
    steps: &mut Steps<K>,
) -> Result<Option<Rows>, AllocError>
    ensures rows { IfOk result (AreSince table.now version) }
    ensures looks { steps.new ≤ steps.old + rows_in (changes_since table.now version) }
{
    if !keeps(table, version) {
        return Ok(None);
    }
    match table.since(alloc, version, steps) {
        Ok(changes) => {
            let rows = added(alloc, changes.as_slice())?;
            Ok(Some(rows))
        }
        Err(VersionEnd::NoVersion { .. }) => unreachable!(),
        Err(VersionEnd::Memory) => Err(AllocError),
    }
}

/// The whole content of a table now, in row order.
fn rows_now<K: Ledger>(
    alloc: Global,
    table: &Table,
    steps: &mut Steps<K>,
) -> Result<Rows, AllocError>
    ensures rows { IfOk result (λ rows. rows ≡ in_row_order (content_now table.now)) }
    ensures looks { steps.new ≤ steps.old + length (content_now table.now) }
{
    a_version_has_one_content();
    match table.content(alloc, table.now(), steps) {
        Ok(rows) => Ok(rows),
        Err(VersionEnd::NoVersion { .. }) => unreachable!(),
        Err(VersionEnd::Memory) => Err(AllocError),
    }
}

/// What is new of a source to a flow that stands at a version of it.
fn version_news<K: Ledger>(
    alloc: Global,
    table: &Table,
    version: u64,
    steps: &mut Steps<K>,
) -> Result<News, AllocError>
    ensures news { (from : AnOrigin) → IfOk result (λ news. OfVersion table.now version (found_of from news)) }
    ensures looks { steps.new ≤ steps.old + rows_in (changes_since table.now version) }
{
    let now = table.now();
    let Some(rows) = rows_since(alloc, table, version, steps)? else {
        return Ok(News::Unfit);
    };
    if version == now {
        return Ok(News::Idle);
    }
    Ok(News::Come {
        rows: NewRows::Rows(rows),
        behind: Cursor::At(now),
    })
}

/// What is new of a source to a flow that never read it.
fn first_news<K: Ledger>(
    alloc: Global,
    table: &Table,
    steps: &mut Steps<K>,
) -> Result<News, AllocError>
    ensures news { (from : AnOrigin) → IfOk result (λ news. Follow Never (in_row_order (content_now table.now)) (At (now_of table.now)) (found_of from news)) }
    ensures looks { steps.new ≤ steps.old + length (content_now table.now) }
{
    let rows = rows_now(alloc, table, steps)?;
    Ok(News::Come {
        rows: NewRows::Rows(rows),
        behind: Cursor::At(table.now()),
    })
}

/// What is new of a table to a flow that stands at this position.
pub(crate) fn table_news<K: Ledger>(
    alloc: Global,
    table: &Table,
    cursor: &Cursor,
    steps: &mut Steps<K>,
) -> Result<News, AllocError>
    ensures news { (from : AnOrigin) → IfOk result (λ news. OfTable table.now cursor.now (found_of from news)) }
    ensures looks { steps.new ≤ steps.old + table_looks table.now cursor.now }
{
    match cursor {
        Cursor::Never => first_news(alloc, table, steps),
        Cursor::At(version) => version_news(alloc, table, *version, steps),
        Cursor::Files(_) => Ok(News::Unfit),
    }
}
