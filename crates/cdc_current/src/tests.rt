use crate::{Current, events_may_be_sorted, events_without_ties_have_own_moments};
use plan_core::{Cdc, Origin};
use std::alloc::{AllocError, Global};
use std::process::Abort;
use std::test::Fail;
use value_core::{Change, Event, EventKind, Events, ListOf, Name, Row, Value};

/// A row of numbers; 0 stands for NULL.
fn numbers(alloc: Global, numbers: &[i64]) -> Result<Row, AllocError> {
    let mut row: Row = ListOf::new(alloc);
    for number in numbers {
        if *number == 0 {
            row.push(Value::Null)?;
        } else {
            row.push(Value::Big(*number))?;
        }
    }
    Ok(row)
}

fn by_flow(alloc: Global, name: Name, source: Name, ignore_null: bool) -> Current {
    let flow = Cdc {
        name,
        origin: Origin::Table { name: source },
        keys: ListOf::new(alloc),
        sequence: ListOf::new(alloc),
        delete_when: None,
        truncate_when: None,
        outputs: ListOf::new(alloc),
        ignore_null,
        scd2: false,
        tracked: ListOf::new(alloc),
    };
    Current::new(alloc, &flow)
}

/// No event yet.
fn begun(alloc: Global, ignore_null: bool) -> Result<Current, AllocError> {
    let name = Name::new(alloc, "f")?;
    let source = Name::new(alloc, "source")?;
    Ok(by_flow(alloc, name, source, ignore_null))
}

fn event(
    alloc: Global,
    kind: EventKind,
    sequence: i64,
    key: &[i64],
    columns: &[i64],
) -> Result<Event, AllocError> {
    let sequence = numbers(alloc, &[sequence])?;
    let key = numbers(alloc, key)?;
    let columns = numbers(alloc, columns)?;
    Ok(Event {
        kind,
        sequence,
        key,
        columns,
    })
}

fn only(alloc: Global, event: Event) -> Result<Events, AllocError> {
    let mut events: Events = ListOf::new(alloc);
    events.push(event)?;
    Ok(events)
}

/// What one event does to the rows.
fn change(alloc: Global, current: &mut Current, event: Event) -> Result<Change, AllocError> {
    let events = only(alloc, event)?;
    let change = current.apply(alloc, &events)?;
    Ok(change)
}

/// How many rows go and come with an upsert of key 7.
fn upserts(
    alloc: Global,
    current: &mut Current,
    sequence: i64,
) -> Result<(usize, usize), AllocError> {
    let event = event(alloc, EventKind::Upsert, sequence, &[7], &[7, sequence])?;
    let change = change(alloc, current, event)?;
    Ok((change.removed.len(), change.added.len()))
}

/// How many rows go and come with a delete of key 7.
fn deletes(
    alloc: Global,
    current: &mut Current,
    sequence: i64,
) -> Result<(usize, usize), AllocError> {
    let event = event(alloc, EventKind::Delete, sequence, &[7], &[])?;
    let change = change(alloc, current, event)?;
    Ok((change.removed.len(), change.added.len()))
}

/// How many rows go and come with a truncate.
fn truncates(
    alloc: Global,
    current: &mut Current,
    sequence: i64,
) -> Result<(usize, usize), AllocError> {
    let event = event(alloc, EventKind::Truncate, sequence, &[], &[])?;
    let change = change(alloc, current, event)?;
    Ok((change.removed.len(), change.added.len()))
}

#[test]
fn an_older_upsert_stays_deleted(rt: HostRuntime) -> Result<(), Fail> {
    let alloc = rt.alloc();
    let mut current = begun(alloc, false)?;
    assert!(rt; deletes(alloc, &mut current, 6)? == (0, 0));
    assert!(rt; upserts(alloc, &mut current, 5)? == (0, 0));
    assert!(rt; upserts(alloc, &mut current, 7)? == (0, 1));
    assert!(rt; upserts(alloc, &mut current, 8)? == (1, 1));
    Ok(())
}

#[test]
fn a_late_truncate_takes_what_is_below_it(rt: HostRuntime) -> Result<(), Fail> {
    let alloc = rt.alloc();
    let mut current = begun(alloc, false)?;
    assert!(rt; upserts(alloc, &mut current, 5)? == (0, 1));
    assert!(rt; truncates(alloc, &mut current, 5)? == (0, 0));
    assert!(rt; truncates(alloc, &mut current, 6)? == (1, 0));
    Ok(())
}

/// The row after an upsert at 5 and then an older one, each of which has a NULL.
fn merged(alloc: Global) -> Result<bool, AllocError> {
    let mut current = begun(alloc, true)?;
    let first = event(alloc, EventKind::Upsert, 5, &[7], &[7, 0, 40])?;
    change(alloc, &mut current, first)?;
    let older = event(alloc, EventKind::Upsert, 4, &[7], &[7, 30, 0])?;
    let change = change(alloc, &mut current, older)?;
    let wanted = numbers(alloc, &[7, 30, 40])?;
    Ok(change.added.as_slice().first() == Some(&wanted))
}

#[test]
fn an_older_upsert_fills_what_was_null(rt: HostRuntime) -> Result<(), Fail> {
    let alloc = rt.alloc();
    events_without_ties_have_own_moments();
    events_may_be_sorted();
    assert!(rt; merged(alloc)?);
    Ok(())
}
