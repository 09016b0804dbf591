// The rows of runs, each told when it ends.
ghost use Rattle.std.specs.Prelude.{◌≡◌, ◌++◌, ◌∷◌, [], IfOk, OnOk, map, option_copied, option_to_list, unwrap_or, slice_get, slice_index_or};
ghost use Rattle.value_core.specs.Order.{same_row, same_value};
ghost use Rattle.value_core.specs.declared.value.Value.TheVariants.{Null};
ghost use Rattle.flow_model.specs.History.{agree, goes_on, interval_row, next_sequence};
ghost use Rattle.flow_model.specs.Feed.{pick};
ghost use Rattle.cdc_runs.specs.Entries.{moment_of, moments_of};
ghost use Rattle.cdc_runs.specs.Runs.{ended, ends_in, left_open, opened};

use crate::columns::after;
use event_history::Entry;
use std::alloc::{AllocError, Global};
use value_core::{Row, Rows, Value};

/// Whether two rows have one value at a place; where there is none it counts as NULL.
fn is_same_at(left: &[Value], right: &[Value], at: u32) -> bool
    ensures { result ≡ same_value (slice_index_or left.now at Null) (slice_index_or right.now at Null) }
{
    let null = Value::Null;
    let a = left.get(at as usize).unwrap_or(&null);
    let b = right.get(at as usize).unwrap_or(&null);
    a == b
}

/// Whether there are columns that agree with these at the tracked places.
fn agrees(tracked: &[u32], columns: &Row, other: Option<&Row>) -> bool
    ensures { result ≡ agree tracked.now columns.now (option_copied other.entry) }
{
    match other {
        None => false,
        Some(row) => agrees_with(tracked, columns.as_slice(), row.as_slice()),
    }
}

/// Whether rows agree at the tracked places.
fn agrees_with(tracked: &[u32], left: &[Value], right: &[Value]) -> bool
    ensures { result ≡ same_row (pick tracked.now left.now) (pick tracked.now right.now) }
{
    for at in tracked {
        if !is_same_at(left, right, *at) {
            return false;
        }
    }
    true
}

/// Whether the run of an entry with these columns goes on with the next entry: there is one, and its columns agree at the
/// tracked places. Places past the end of a row count as NULL.
pub fn runs_on(tracked: &[u32], columns: &Row, next: Option<&Entry>) -> bool
    ensures { result ≡ goes_on tracked.now columns.now (moments_of (option_to_list (option_copied next.entry))) }
{
    match next {
        None => false,
        Some(entry) => agrees(tracked, columns, after(entry)),
    }
}

/// Puts the values of a row behind those of another.
fn append(alloc: Global, row: &mut Row, more: &Row) -> Result<(), AllocError>
    ensures { OnOk result (row.new ≡ row.old ++ more.now) }
{
    for value in more.as_slice() {
        row.push(value.copy(alloc)?)?;
    }
    Ok(())
}

/// A row of the table: the columns, `__START_AT`, from which sequence they held, and `__END_AT`, up to which one they did;
/// without an end it is one NULL. `Err` for want of memory alone.
pub fn row_of(
    alloc: Global,
    columns: &Row,
    start: &Row,
    end: Option<&Row>,
) -> Result<Row, AllocError>
    ensures { IfOk result (λ row. row ≡ columns.now ++ start.now ++ unwrap_or (option_copied end.entry) (Null ∷ [])) }
{
    let mut row = columns.copy(alloc)?;
    append(alloc, &mut row, start)?;
    match end {
        Some(sequence) => append(alloc, &mut row, sequence)?,
        None => row.push(Value::Null)?,
    }
    Ok(row)
}

/// Where the run of an entry began: at `since`, if it began before the entry, and else at the entry's own sequence. `Err`
/// for want of memory alone.
pub fn start_of(alloc: Global, since: Option<Row>, entry: &Entry) -> Result<Row, AllocError>
    ensures { IfOk result (λ start. start ≡ unwrap_or since entry.now.event.sequence) }
{
    match since {
        Some(start) => Ok(start),
        None => entry.event.sequence.copy(alloc),
    }
}

/// The sequence of the next entry, if there is one: there the run before it ends.
pub fn sequence_of(next: Option<&Entry>) -> Option<&Row>
    ensures { option_copied result ≡ next_sequence (moments_of (option_to_list (option_copied next.entry))) }
{
    match next {
        None => None,
        Some(entry) => Some(&entry.event.sequence),
    }
}

/// Ends the run of an entry where it ends there, and tells where the run began that goes on.
fn end_run(
    alloc: Global,
    tracked: &[u32],
    since: Option<Row>,
    entry: &Entry,
    next: Option<&Entry>,
    rows: &mut Rows,
) -> Result<Option<Row>, AllocError>
    ensures rows { OnOk result (rows.new ≡ rows.old ++ map interval_row (ended tracked.now since (moment_of entry.now) (moments_of (option_to_list (option_copied next.entry))))) }
    ensures since { IfOk result (λ open_since. open_since ≡ opened tracked.now since (moment_of entry.now) (moments_of (option_to_list (option_copied next.entry)))) }
{
    let Some(columns) = after(entry) else {
        return Ok(None);
    };
    let start = start_of(alloc, since, entry)?;
    if runs_on(tracked, columns, next) {
        return Ok(Some(start));
    }
    rows.push(row_of(alloc, columns, &start, sequence_of(next))?)?;
    Ok(None)
}

/// The first of some entries, or where there are none the next one.
pub fn first_of<'a>(entries: &'a [Entry], next: Option<&'a Entry>) -> Option<&'a Entry>
    ensures { option_copied result ≡ slice_get (entries.now ++ option_to_list (option_copied next.entry)) 0 }
{
    match entries.first() {
        Some(entry) => Some(entry),
        None => next,
    }
}

/// Puts the rows of the runs that end within a stretch of entries behind `rows`, and answers where the run began that goes
/// on into `next`, if one does. `since` is where the run began that goes on into the stretch. `Err` for want of memory
/// alone; some of the rows stand behind `rows` then.
pub fn end_runs(
    alloc: Global,
    tracked: &[u32],
    since: Option<Row>,
    stretch: &[Entry],
    next: Option<&Entry>,
    rows: &mut Rows,
) -> Result<Option<Row>, AllocError>
    ensures rows { OnOk result (rows.new ≡ rows.old ++ map interval_row (ends_in tracked.now since (moments_of stretch.now) (moments_of (option_to_list (option_copied next.entry))))) }
    ensures since { IfOk result (λ open_since. open_since ≡ left_open tracked.now since (moments_of stretch.now) (moments_of (option_to_list (option_copied next.entry)))) }
{
    let mut begun = since;
    let mut left = stretch;
    while let Some((entry, more)) = left.split_first() {
        begun = end_run(alloc, tracked, begun, entry, first_of(more, next), rows)?;
        left = more;
    }
    Ok(begun)
}
