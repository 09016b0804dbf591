ghost use Rattle.std.specs.Prelude.{◌≡◌};

use crate::{Entry, History, Place};
use std::alloc::{AllocError, Global};
use std::marker::Brand;
use std::process::Abort;
use std::sync::ledger::{Blank, Ledger};
use std::test::Fail;
use value_core::{Event, EventKind, ListOf, Row, Steps, Value};

fn crosses_threads<T: Send + Sync>() {}

/// A row of one number.
fn number(alloc: Global, number: i64) -> Result<Row, AllocError> {
    let mut row: Row = ListOf::new(alloc);
    row.push(Value::Big(number))?;
    Ok(row)
}

/// An upsert of key 123 at a sequence, with its columns cached.
fn entry(alloc: Global, sequence: i64) -> Result<Entry, AllocError> {
    Ok(Entry {
        event: Event {
            kind: EventKind::Upsert,
            sequence: number(alloc, sequence)?,
            key: number(alloc, 123)?,
            columns: number(alloc, sequence)?,
        },
        effective: number(alloc, sequence)?,
    })
}

/// Puts an event where its sequence belongs.
fn put<L: Ledger>(
    alloc: Global,
    history: &mut History,
    sequence: i64,
    steps: &mut Steps<L>,
) -> Result<(), AllocError> {
    let entry = entry(alloc, sequence)?;
    match history.find(&entry.event.sequence, steps) {
        Place::At(_) => {}
        Place::Between(i) => history.put(i, entry)?,
    }
    Ok(())
}

/// Whether an entry has these numbers as its sequence and its effective columns.
fn is_at<L: Ledger>(
    alloc: Global,
    history: &History,
    i: usize,
    sequence: i64,
    effective: i64,
    steps: &mut Steps<L>,
) -> Result<bool, AllocError> {
    if i >= history.len() {
        return Ok(false);
    }
    let entry = history.look(i, steps);
    let same = entry.event.sequence == number(alloc, sequence)?;
    Ok(same && entry.effective == number(alloc, effective)?)
}

fn late_events<L: Ledger>(rt: &impl Abort, alloc: Global, blank: Blank) -> Result<(), AllocError>
    requires name { blank.name ≡ L.name }
    requires parts { blank.parts ≡ L.parts }
    requires some { blank.parts ≡ 1 }
{
    let mut steps: Steps<L> = Steps::new(blank);
    let mut history = History::new(alloc);
    for sequence in &[6, 1, 5, 6, 3] {
        put(alloc, &mut history, *sequence, &mut steps)?;
    }
    assert!(rt; history.len() == 4);
    if history.len() == 4 {
        history.set_effective(1, number(alloc, 9)?);
    }
    assert!(rt; is_at(alloc, &history, 0, 1, 1, &mut steps)?);
    assert!(rt; is_at(alloc, &history, 1, 3, 9, &mut steps)?);
    assert!(rt; is_at(alloc, &history, 2, 5, 5, &mut steps)?);
    assert!(rt; is_at(alloc, &history, 3, 6, 6, &mut steps)?);
    Ok(())
}

#[test]
fn late_events_stand_in_order(rt: HostRuntime) -> Result<(), Fail> {
    let alloc = rt.alloc();
    late_events::<Brand>(&rt, alloc, Blank::new(1))?;
    crosses_threads::<History>();
    Ok(())
}
