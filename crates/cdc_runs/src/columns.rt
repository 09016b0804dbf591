// The effective columns of a key after an event.
ghost use Rattle.std.specs.Prelude.{◌≡◌, if◌then◌else◌, IfOk, option_copied};
ghost use Rattle.value_core.specs.Order.{is_null};
ghost use Rattle.flow_model.specs.Current.{after_event, merged, overlaid};
ghost use Rattle.cdc_runs.specs.Entries.{columns_after};
ghost use Rattle.cdc_runs.specs.Runs.{same_columns};

use event_history::Entry;
use std::alloc::{AllocError, Global};
use value_core::{Event, EventKind, ListOf, Row, Value};

/// The new value, or where that is NULL the one that is there.
fn kept(alloc: Global, old: &Value, new: &Value) -> Result<Value, AllocError>
    ensures { IfOk result (λ value. value ≡ (if is_null new.now then old.now else new.now)) }
{
    match new {
        Value::Null => old.copy(alloc),
        _ => new.copy(alloc),
    }
}

/// Column by column the new value, or where that is NULL the one that is there.
fn overlay(alloc: Global, before: &[Value], columns: &[Value]) -> Result<Row, AllocError>
    ensures { IfOk result (λ row. row ≡ overlaid before.now columns.now) }
{
    let mut row: Row = ListOf::new(alloc);
    let mut old = before;
    for value in columns {
        match old.split_first() {
            Some((first, more)) => {
                row.push(kept(alloc, first, value)?)?;
                old = more;
            }
            None => row.push(value.copy(alloc)?)?,
        }
    }
    Ok(row)
}

/// The effective columns of a key after an event, from those before it: an upsert's columns, where under IGNORE NULL
/// UPDATES a NULL keeps the value that is there (Databricks documentation, AUTO CDC). A delete leaves none, and a truncate
/// neither. `Err` for want of memory alone.
pub fn effective(
    alloc: Global,
    ignore_null: bool,
    before: Option<&Row>,
    event: &Event,
) -> Result<Option<Row>, AllocError>
    ensures { IfOk result (λ after. after ≡ after_event ignore_null (option_copied before.entry) event.now) }
{
    match event.kind {
        EventKind::Delete => Ok(None),
        EventKind::Truncate => Ok(None),
        EventKind::Upsert => Ok(Some(upserted(alloc, ignore_null, before, &event.columns)?)),
    }
}

/// The effective columns after an upsert.
fn upserted(
    alloc: Global,
    ignore_null: bool,
    before: Option<&Row>,
    columns: &Row,
) -> Result<Row, AllocError>
    ensures { IfOk result (λ after. after ≡ (if ignore_null then merged (option_copied before.entry) columns.now else columns.now)) }
{
    if !ignore_null {
        return columns.copy(alloc);
    }
    match before {
        Some(row) => overlay(alloc, row.as_slice(), columns.as_slice()),
        None => columns.copy(alloc),
    }
}

/// The columns from an entry on, by its cached ones. After a delete there are none.
pub fn after(entry: &Entry) -> Option<&Row>
    ensures { option_copied result ≡ columns_after entry.now }
{
    match entry.event.kind {
        EventKind::Upsert => Some(&entry.effective),
        EventKind::Delete => None,
        EventKind::Truncate => None,
    }
}

/// Whether two states of a key are one: the same columns in both, or none in both.
pub fn is_same(left: Option<&Row>, right: Option<&Row>) -> bool
    ensures { result ≡ same_columns (option_copied left.entry) (option_copied right.entry) }
{
    match left {
        None => right.is_none(),
        Some(a) => match right {
            None => false,
            Some(b) => a == b,
        },
    }
}
