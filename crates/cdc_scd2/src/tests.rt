ghost use Rattle.std.specs.Prelude.{◌≡◌, OnOk};
ghost use Rattle.cdc_scd2.specs.Cache.{IsCached};

use crate::{
    an_event_changes_its_key_alone, changes_stay_in_the_middle, splice, touches_are_worked,
};
use event_history::{History, Place};
use plan_core::{Cdc, Origin};
use sqlite_items::Boxed;
use std::alloc::{AllocError, Global};
use std::marker::Brand;
use std::process::Abort;
use std::sync::ledger::{Blank, Ledger};
use std::test::Fail;
use value_core::{Change, Event, EventKind, ListOf, Name, Places, Row, Rows, Steps, Value};

/// A row of numbers; 0 stands for NULL.
fn numbers(alloc: Global, numbers: &[i64]) -> Result<Row, AllocError> {
    let mut row: Row = ListOf::new(alloc);
    for number in numbers {
        match *number {
            0 => row.push(Value::Null)?,
            n => row.push(Value::Big(n))?,
        }
    }
    Ok(row)
}

/// An upsert of these columns, or without columns a delete.
fn event(alloc: Global, sequence: i64, columns: &[i64]) -> Result<Event, AllocError> {
    Ok(Event {
        kind: if columns.is_empty() {
            EventKind::Delete
        } else {
            EventKind::Upsert
        },
        sequence: numbers(alloc, &[sequence])?,
        key: numbers(alloc, &[123])?,
        columns: numbers(alloc, columns)?,
    })
}

/// A flow from a table that keeps histories.
fn keeping(alloc: Global, name: Name, source: Name, ignore_null: bool, tracked: Places) -> Cdc {
    Cdc {
        name,
        origin: Origin::Table { name: source },
        keys: ListOf::new(alloc),
        sequence: ListOf::new(alloc),
        delete_when: None,
        truncate_when: None,
        outputs: ListOf::new(alloc),
        ignore_null,
        scd2: true,
        tracked,
    }
}

fn places(alloc: Global, numbers: &[u32]) -> Result<Places, AllocError> {
    let mut places: Places = ListOf::new(alloc);
    for number in numbers {
        places.push(*number)?;
    }
    Ok(places)
}

/// A flow that keeps histories and tracks these columns.
fn flow(alloc: Global, ignore_null: bool, tracked: &[u32]) -> Result<Boxed<Cdc>, AllocError> {
    let name = Name::new(alloc, "f")?;
    let source = Name::new(alloc, "source")?;
    let tracked = places(alloc, tracked)?;
    Boxed::new(alloc, keeping(alloc, name, source, ignore_null, tracked))
}

/// Puts one line into a history, a sequence and columns, and answers the change.
fn add<L: Ledger>(
    alloc: Global,
    history: &mut History,
    flow: &Cdc,
    line: &[i64],
    steps: &mut Steps<L>,
) -> Result<Change, AllocError>
    requires { IsCached flow.now.ignore_null history.old }
    ensures { OnOk result (IsCached flow.now.ignore_null history.new) }
{
    let Some((sequence, columns)) = line.split_first() else {
        return Ok(no_change(alloc));
    };
    let event = event(alloc, *sequence, columns)?;
    match history.find(&event.sequence, steps) {
        Place::At(_) => Ok(no_change(alloc)),
        Place::Between(_i) => {
            let change = splice(alloc, history, flow, event, steps)?;
            Ok(change)
        }
    }
}

fn no_change(alloc: Global) -> Change {
    Change {
        removed: ListOf::new(alloc),
        added: ListOf::new(alloc),
    }
}

/// The change that the last of these lines makes, in order of arrival.
fn last_change<L: Ledger>(
    alloc: Global,
    flow: &Cdc,
    lines: &[&[i64]],
    steps: &mut Steps<L>,
) -> Result<Change, AllocError> {
    let mut history = History::new(alloc);
    let mut change = no_change(alloc);
    for line in lines {
        change = add(alloc, &mut history, flow, line, steps)?;
    }
    Ok(change)
}

fn rows(alloc: Global, lines: &[&[i64]]) -> Result<Rows, AllocError> {
    let mut rows: Rows = ListOf::new(alloc);
    for line in lines {
        rows.push(numbers(alloc, line)?)?;
    }
    Ok(rows)
}

fn is_change(
    alloc: Global,
    change: &Change,
    removed: &[&[i64]],
    added: &[&[i64]],
) -> Result<bool, AllocError> {
    let removed = rows(alloc, removed)?;
    let added = rows(alloc, added)?;
    Ok(
        change.removed.as_slice() == removed.as_slice()
            && change.added.as_slice() == added.as_slice(),
    )
}

/// A user of one name moves at 5 and goes at 6; that another name held from 3 on comes late.
fn late_split<L: Ledger>(alloc: Global, steps: &mut Steps<L>) -> Result<bool, AllocError> {
    let flow = flow(alloc, false, &[0])?;
    let lines: &[&[i64]] = &[&[1, 11, 21], &[5, 11, 22], &[6], &[3, 12, 23]];
    let change = last_change(alloc, flow.get(), lines, steps)?;
    let added: &[&[i64]] = &[&[11, 21, 1, 3], &[11, 22, 5, 6], &[12, 23, 3, 5]];
    is_change(alloc, &change, &[&[11, 22, 1, 6]], added)
}

/// The update at 3 has a NULL, for which the late event at 2 has a value.
fn late_null<L: Ledger>(alloc: Global, steps: &mut Steps<L>) -> Result<bool, AllocError> {
    let flow = flow(alloc, true, &[0, 1])?;
    let lines: &[&[i64]] = &[&[1, 31, 41], &[3, 0, 42], &[2, 32, 0]];
    let change = last_change(alloc, flow.get(), lines, steps)?;
    let removed: &[&[i64]] = &[&[31, 41, 1, 3], &[31, 42, 3, 0]];
    let added: &[&[i64]] = &[&[31, 41, 1, 2], &[32, 41, 2, 3], &[32, 42, 3, 0]];
    is_change(alloc, &change, removed, added)
}

/// An event in the middle of a long run, with the columns of that run, changes no row.
fn quiet<L: Ledger>(alloc: Global, steps: &mut Steps<L>) -> Result<bool, AllocError> {
    let flow = flow(alloc, false, &[0])?;
    let lines: &[&[i64]] = &[&[1, 11], &[2, 11], &[5, 11], &[6, 11], &[3, 11]];
    let change = last_change(alloc, flow.get(), lines, steps)?;
    is_change(alloc, &change, &[], &[])
}

fn changes<L: Ledger>(rt: &impl Abort, alloc: Global, blank: Blank) -> Result<(), AllocError>
    requires name { blank.name ≡ L.name }
    requires parts { blank.parts ≡ L.parts }
    requires some { blank.parts ≡ 1 }
{
    let mut steps: Steps<L> = Steps::new(blank);
    assert!(rt; late_split(alloc, &mut steps)?);
    assert!(rt; late_null(alloc, &mut steps)?);
    assert!(rt; quiet(alloc, &mut steps)?);
    Ok(())
}

#[test]
fn a_late_event_changes_the_rows_that_it_touches(rt: HostRuntime) -> Result<(), Fail> {
    let alloc = rt.alloc();
    changes::<Brand>(&rt, alloc, Blank::new(1))?;
    changes_stay_in_the_middle();
    an_event_changes_its_key_alone();
    touches_are_worked();
    Ok(())
}
