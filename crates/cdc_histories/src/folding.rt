// The history that the events of a key fold to.
ghost use Rattle.std.specs.Prelude.{◌≡◌, [], IfOk, None, option_copied, unwrap_or};
ghost use Rattle.event_history.specs.Histories.{AreAscending};
ghost use Rattle.flow_model.specs.Current.{after_event};
ghost use Rattle.cdc_scd2.specs.Cache.{last_state};
ghost use Rattle.cdc_scd2.specs.Splices as splices;
ghost use Rattle.cdc_histories.specs.Building.{IsFolded, IsPart, entries_from};

use crate::cutting::KeyEvents;
use cdc_runs::{after, effective, end_runs};
use event_history::{Entry, History};
use plan_core::Cdc;
use std::alloc::{AllocError, Global};
use value_core::{Event, ListOf, Row, Rows};

/// The history of a key, and the rows of it.
#[derive(Drop)]
pub(crate) struct KeyHistory {
    pub(crate) key: Row,
    pub(crate) history: History,
    pub(crate) rows: Rows,
}

/// The columns from the last entry on.
fn last_columns(entries: &[Entry]) -> Option<&Row>
    ensures { option_copied result ≡ last_state None entries.now }
{
    match entries.last() {
        Some(entry) => after(entry),
        None => None,
    }
}

/// An event with the effective columns after it.
fn entry_of(alloc: Global, event: &Event, columns: Option<Row>) -> Result<Entry, AllocError>
    ensures event { IfOk result (λ entry. entry.event ≡ event.now) }
    ensures columns { IfOk result (λ entry. entry.effective ≡ unwrap_or columns []) }
{
    let event = event.copy(alloc)?;
    let effective = match columns {
        Some(row) => row,
        None => ListOf::new(alloc),
    };
    Ok(Entry { event, effective })
}

/// The entry of an event behind others.
fn next_entry(
    alloc: Global,
    ignore_null: bool,
    entries: &[Entry],
    event: &Event,
) -> Result<Entry, AllocError>
    ensures event { IfOk result (λ entry. entry.event ≡ event.now) }
    ensures columns { IfOk result (λ entry. entry.effective ≡ unwrap_or (after_event ignore_null (last_state None entries.now) event.now) []) }
{
    let columns = effective(alloc, ignore_null, last_columns(entries), event)?;
    entry_of(alloc, event, columns)
}

/// Events as entries, each with the effective columns after it.
fn entries_of(alloc: Global, ignore_null: bool, events: &[Event]) -> Result<Vec<Entry>, AllocError>
    ensures { IfOk result (λ entries. entries.items ≡ entries_from ignore_null None events.now) }
{
    let mut entries = Vec::new(alloc);
    let mut left = events;
    while let Some((event, more)) = left.split_first() {
        let entry = next_entry(alloc, ignore_null, entries.as_slice(), event)?;
        entries.push(entry)?;
        left = more;
    }
    Ok(entries)
}

/// The rows of a history.
fn rows_of(alloc: Global, tracked: &[u32], entries: &[Entry]) -> Result<Rows, AllocError>
    ensures { IfOk result (λ rows. rows ≡ splices.rows_of tracked.now entries.now) }
{
    let mut rows: Rows = ListOf::new(alloc);
    let _open = end_runs(alloc, tracked, None, entries, None, &mut rows)?;
    Ok(rows)
}

/// Entries as a history.
fn history_of(alloc: Global, entries: Vec<Entry>) -> Result<History, AllocError>
    requires { AreAscending entries.items }
    ensures { IfOk result (λ history. history ≡ entries.items) }
{
    let mut history = History::new(alloc);
    for entry in entries {
        let count = history.len();
        history.put(count, entry)?;
    }
    Ok(history)
}

/// The history of a key, by the rules of a flow, and the rows of it.
pub(crate) fn fold_part(
    alloc: Global,
    flow: &Cdc,
    part: &KeyEvents,
) -> Result<KeyHistory, AllocError>
    requires { IsPart part.now }
    ensures { IfOk result (IsFolded flow.now.ignore_null flow.now.tracked part.now) }
{
    let key = part.key.copy(alloc)?;
    let entries = entries_of(alloc, flow.ignore_null, part.events.as_slice())?;
    let rows = rows_of(alloc, flow.tracked.as_slice(), entries.as_slice())?;
    let history = history_of(alloc, entries)?;
    Ok(KeyHistory { key, history, rows })
}
