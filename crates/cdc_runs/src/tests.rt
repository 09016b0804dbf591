ghost use Rattle.std.specs.Prelude.{◌≡◌};

use crate::{
    after, changes_carry_on, effective, end_runs, first_of, is_same, row_of, run_end, run_start,
    runs_are_intervals, runs_on, sequence_of, start_of,
};
use event_history::{Entry, History, Place};
use std::alloc::{AllocError, Global};
use std::marker::Brand;
use std::process::Abort;
use std::sync::ledger::{Blank, Ledger};
use std::test::Fail;
use value_core::{Event, EventKind, ListOf, Row, Rows, Steps, Value};

/// A row of numbers; 0 stands for NULL.
fn numbers(alloc: Global, numbers: &[i64]) -> Result<Row, AllocError> {
    let mut row: Row = ListOf::new(alloc);
    for number in numbers {
        match *number {
            0 => row.push(Value::Null)?,
            n => row.push(Value::Big(n))?,
        }
    }
    Ok(row)
}

fn event(
    alloc: Global,
    kind: EventKind,
    sequence: i64,
    columns: &[i64],
) -> Result<Event, AllocError> {
    Ok(Event {
        kind,
        sequence: numbers(alloc, &[sequence])?,
        key: numbers(alloc, &[123])?,
        columns: numbers(alloc, columns)?,
    })
}

fn entry(
    alloc: Global,
    kind: EventKind,
    sequence: i64,
    columns: &[i64],
) -> Result<Entry, AllocError> {
    Ok(Entry {
        event: event(alloc, kind, sequence, columns)?,
        effective: numbers(alloc, columns)?,
    })
}

fn put<L: Ledger>(
    history: &mut History,
    entry: Entry,
    steps: &mut Steps<L>,
) -> Result<(), AllocError> {
    match history.find(&entry.event.sequence, steps) {
        Place::At(_) => {}
        Place::Between(i) => history.put(i, entry)?,
    }
    Ok(())
}

/// A user of one name moves from city 21 to city 22 at 5, and goes at 6.
fn moves<L: Ledger>(alloc: Global, steps: &mut Steps<L>) -> Result<History, AllocError> {
    let mut history = History::new(alloc);
    let first = entry(alloc, EventKind::Upsert, 1, &[11, 21])?;
    put(&mut history, first, steps)?;
    let second = entry(alloc, EventKind::Upsert, 5, &[11, 22])?;
    put(&mut history, second, steps)?;
    let third = entry(alloc, EventKind::Delete, 6, &[])?;
    put(&mut history, third, steps)?;
    Ok(history)
}

fn runs<L: Ledger>(rt: &impl Abort, alloc: Global, blank: Blank) -> Result<(), AllocError>
    requires name { blank.name ≡ L.name }
    requires parts { blank.parts ≡ L.parts }
    requires some { blank.parts ≡ 1 }
{
    let mut steps: Steps<L> = Steps::new(blank);
    let history = moves(alloc, &mut steps)?;
    if history.len() != 3 {
        return Ok(());
    }
    assert!(rt; run_end(&[0], &history, 0, &mut steps) == 1);
    assert!(rt; run_start(&[0], &history, 1, &mut steps) == 0);
    assert!(rt; run_end(&[0, 1], &history, 0, &mut steps) == 0);
    assert!(rt; run_start(&[0, 1], &history, 1, &mut steps) == 1);
    assert!(rt; run_start(&[0], &history, 2, &mut steps) == 2);
    Ok(())
}

#[test]
fn a_run_is_as_long_as_its_tracked_columns_agree(rt: HostRuntime) -> Result<(), Fail> {
    let alloc = rt.alloc();
    runs::<Brand>(&rt, alloc, Blank::new(1))?;
    runs_are_intervals();
    changes_carry_on();
    Ok(())
}

/// The rows of a run that goes on into the next entry or ends there.
fn rows_until(
    alloc: Global,
    tracked: &[u32],
    stretch: &[Entry],
    next: &Entry,
) -> Result<Rows, AllocError> {
    let mut rows: Rows = ListOf::new(alloc);
    let since = end_runs(alloc, tracked, None, stretch, Some(next), &mut rows)?;
    if let Some(start) = since {
        rows.push(start)?;
    }
    Ok(rows)
}

#[test]
fn a_run_is_one_row(rt: HostRuntime) -> Result<(), Fail> {
    let alloc = rt.alloc();
    let mut stretch = Vec::new(alloc);
    stretch.push(entry(alloc, EventKind::Upsert, 1, &[11, 21])?)?;
    let moved = entry(alloc, EventKind::Upsert, 5, &[11, 22])?;
    let open = rows_until(alloc, &[0], stretch.as_slice(), &moved)?;
    assert!(rt; open.as_slice().first() == Some(&numbers(alloc, &[1])?));
    let closed = rows_until(alloc, &[0, 1], stretch.as_slice(), &moved)?;
    assert!(rt; closed.as_slice().first() == Some(&numbers(alloc, &[11, 21, 1, 5])?));
    Ok(())
}

#[test]
fn an_entry_tells_its_row(rt: HostRuntime) -> Result<(), Fail> {
    let alloc = rt.alloc();
    let columns = numbers(alloc, &[11, 21])?;
    let first = entry(alloc, EventKind::Upsert, 1, &[11, 21])?;
    let gone = entry(alloc, EventKind::Delete, 6, &[])?;
    assert!(rt; is_same(after(&first), Some(&columns)) && after(&gone).is_none());
    assert!(rt; !runs_on(&[0], &columns, Some(&gone)) && first_of(&[], Some(&gone)).is_some());
    let start = start_of(alloc, None, &first)?;
    let row = row_of(alloc, &columns, &start, sequence_of(Some(&gone)))?;
    assert!(rt; row == numbers(alloc, &[11, 21, 1, 6])?);
    Ok(())
}

#[test]
fn a_null_keeps_what_is_there(rt: HostRuntime) -> Result<(), Fail> {
    let alloc = rt.alloc();
    let before = numbers(alloc, &[11, 21])?;
    let update = event(alloc, EventKind::Upsert, 3, &[0, 23])?;
    let kept = effective(alloc, true, Some(&before), &update)?;
    assert!(rt; is_same(kept.as_ref(), Some(&numbers(alloc, &[11, 23])?)));
    let set = effective(alloc, false, Some(&before), &update)?;
    assert!(rt; is_same(set.as_ref(), Some(&numbers(alloc, &[0, 23])?)));
    Ok(())
}
