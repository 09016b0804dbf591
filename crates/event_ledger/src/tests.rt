ghost use Rattle.std.specs.Prelude.{◌≡◌};

use crate::{Insertion, Ledger};
use std::alloc::{AllocError, Global};
use std::marker::Brand;
use std::process::Abort;
use std::sync::ledger;
use std::sync::ledger::Blank;
use std::test::Fail;
use value_core::{Event, EventKind, ListOf, Row, Steps, Value};

/// A row of one number.
fn number(alloc: Global, number: i64) -> Result<Row, AllocError> {
    let mut row: Row = ListOf::new(alloc);
    row.push(Value::Big(number))?;
    Ok(row)
}

/// The upsert of a key at a sequence, with one column.
fn upsert(alloc: Global, key: i64, sequence: i64, column: i64) -> Result<Event, AllocError> {
    let key = number(alloc, key)?;
    let sequence = number(alloc, sequence)?;
    let columns = number(alloc, column)?;
    Ok(Event {
        kind: EventKind::Upsert,
        sequence,
        key,
        columns,
    })
}

fn truncate(alloc: Global, sequence: i64) -> Result<Event, AllocError> {
    let sequence = number(alloc, sequence)?;
    Ok(Event {
        kind: EventKind::Truncate,
        sequence,
        key: ListOf::new(alloc),
        columns: ListOf::new(alloc),
    })
}

/// 1 for a fresh event, 2 for a repeat, and 3 for one that is tied with an event of that column.
fn code(alloc: Global, answer: Insertion, column: i64) -> Result<u8, AllocError> {
    match answer {
        Insertion::Fresh => Ok(1),
        Insertion::Repeat => Ok(2),
        Insertion::Tied { kept } => {
            let columns = number(alloc, column)?;
            Ok(if kept.columns == columns { 3 } else { 4 })
        }
    }
}

/// What an event is by `test` and by `insert`, in one number: tens and ones.
fn put<L: ledger::Ledger>(
    alloc: Global,
    ledger: &mut Ledger,
    event: Event,
    steps: &mut Steps<L>,
) -> Result<u8, AllocError> {
    let before = code(alloc, ledger.test(alloc, &event, steps)?, 7)?;
    let after = code(alloc, ledger.insert(alloc, event, steps)?, 7)?;
    Ok(10 * (before % 10) + after % 10)
}

fn late_events<L: ledger::Ledger>(
    rt: &impl Abort,
    alloc: Global,
    blank: Blank,
) -> Result<(), AllocError>
    requires name { blank.name ≡ L.name }
    requires parts { blank.parts ≡ L.parts }
    requires some { blank.parts ≡ 1 }
{
    let mut steps: Steps<L> = Steps::new(blank);
    let mut ledger = Ledger::new(alloc);
    // Each event, and what it is: key 0 stands for a truncate.
    let feed = [
        (123, 5, 7, 11),
        (126, 2, 8, 11),
        (123, 1, 9, 11),
        (126, 2, 8, 22),
        (123, 5, 6, 33),
        (0, 5, 0, 11),
        (0, 5, 0, 22),
        (0, 3, 0, 11),
    ];
    for (key, sequence, column, wanted) in &feed {
        let event = if *key == 0 {
            truncate(alloc, *sequence)?
        } else {
            upsert(alloc, *key, *sequence, *column)?
        };
        assert!(rt; put(alloc, &mut ledger, event, &mut steps)? == *wanted);
    }
    Ok(())
}

#[test]
fn late_events_are_fresh_repeated_or_tied(rt: HostRuntime) -> Result<(), Fail> {
    let alloc = rt.alloc();
    late_events::<Brand>(&rt, alloc, Blank::new(1))?;
    Ok(())
}
