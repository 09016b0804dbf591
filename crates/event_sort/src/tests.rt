use crate::sorted_events;
use std::alloc::{AllocError, Global};
use std::process::Abort;
use std::test::Fail;
use value_core::{Event, EventKind, Events, ListOf, Row, Value};

fn row(alloc: Global, number: i64) -> Result<Row, AllocError> {
    let mut row: Row = ListOf::new(alloc);
    row.push(Value::Big(number))?;
    Ok(row)
}

/// Upserts of these keys and sequences.
fn events(alloc: Global, list: &[(i64, i64)]) -> Result<Events, AllocError> {
    let mut events = ListOf::new(alloc);
    for (key, sequence) in list {
        events.push(Event {
            kind: EventKind::Upsert,
            sequence: row(alloc, *sequence)?,
            key: row(alloc, *key)?,
            columns: row(alloc, *key)?,
        })?;
    }
    Ok(events)
}

fn are_alike(left: &[Event], right: &[Event]) -> bool {
    let mut rest = right;
    for event in left {
        let Some((other, more)) = rest.split_first() else {
            return false;
        };
        if event.key != other.key || event.sequence != other.sequence {
            return false;
        }
        rest = more;
    }
    rest.is_empty()
}

fn sorts(
    rt: &impl Abort,
    alloc: Global,
    from: &[(i64, i64)],
    to: &[(i64, i64)],
) -> Result<(), Fail> {
    let sorted = sorted_events(events(alloc, from)?)?;
    let wanted = events(alloc, to)?;
    assert!(rt; are_alike(sorted.as_slice(), wanted.as_slice()));
    Ok(())
}

#[test]
fn events_stand_by_key_and_then_by_sequence(rt: HostRuntime) -> Result<(), Fail> {
    let alloc = rt.alloc();
    let from = [(1, 7), (3, 5), (2, 6), (1, 4)];
    let to = [(1, 4), (1, 7), (2, 6), (3, 5)];
    sorts(&rt, alloc, &from, &to)
}
