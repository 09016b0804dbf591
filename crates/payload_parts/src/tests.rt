// Parts that fit, and parts that don't.
use crate::{
    all_fit, are_counts, are_distinct, are_new, begins_with, counts_fit, events_fit, files_move,
    flow_named, holds, is_append, is_store, is_view, is_writable, names_differ,
};
use commit_payloads::{
    DatasetState, Definition, Payload, State, StoredAction, StoredBody, StoredExpectation,
    StoredFlow, StoredOrigin,
};
use std::alloc::{AllocError, Global};
use std::process::Abort;
use std::test::Fail;
use value_core::{
    Change, Column, Cursor, Event, EventKind, Events, FilePlace, Kind, ListOf, Name, Row, Rows,
    Tally, Text, Value,
};

fn row(alloc: Global, number: i64) -> Result<Row, AllocError> {
    let mut row: Row = ListOf::new(alloc);
    row.push(Value::Big(number))?;
    Ok(row)
}

/// Rows of one number each.
fn rows(alloc: Global, numbers: &[i64]) -> Result<Rows, AllocError> {
    let mut rows: Rows = ListOf::new(alloc);
    for number in numbers {
        rows.push(row(alloc, *number)?)?;
    }
    Ok(rows)
}

fn upsert(sequence: Row, key: Row, columns: Row) -> Event {
    Event {
        kind: EventKind::Upsert,
        sequence,
        key,
        columns,
    }
}

/// Upserts of these keys and sequences.
fn events(alloc: Global, list: &[(i64, i64)]) -> Result<Events, AllocError> {
    let mut events: Events = ListOf::new(alloc);
    for (key, sequence) in list {
        let event = upsert(row(alloc, *sequence)?, row(alloc, *key)?, row(alloc, *key)?);
        events.push(event)?;
    }
    Ok(events)
}

fn only<T: Drop>(alloc: Global, item: T) -> Result<ListOf<T>, AllocError> {
    let mut list = ListOf::new(alloc);
    list.push(item)?;
    Ok(list)
}

fn column(name: Name) -> Column {
    Column {
        name,
        kind: Kind::Big,
    }
}

fn expectation(name: Name) -> StoredExpectation {
    StoredExpectation {
        name,
        action: StoredAction::Warn,
    }
}

fn flow(name: Name, source: Name) -> StoredFlow {
    StoredFlow {
        name,
        origin: StoredOrigin::Table(source),
    }
}

fn place(file: Text, place: u64) -> FilePlace {
    FilePlace { file, place }
}

/// The change feed of a name, whose key is its one column and whose sequence is a BIGINT.
fn feed(
    name: Name,
    text: Text,
    columns: ListOf<Column>,
    flows: ListOf<StoredFlow>,
    keys: ListOf<u64>,
    sequence: ListOf<Kind>,
    expectations: ListOf<StoredExpectation>,
) -> Definition {
    Definition {
        name,
        text,
        body: StoredBody::Scd1,
        columns,
        expectations,
        flows,
        keys,
        sequence,
    }
}

/// The change feed of a name over the dataset `s`.
fn definition(alloc: Global, name: &str) -> Result<Definition, AllocError> {
    let columns = only(alloc, column(Name::new(alloc, "a")?))?;
    let source = Name::new(alloc, "s")?;
    let flows = only(alloc, flow(Name::new(alloc, "f")?, source))?;
    let keys = only(alloc, 0)?;
    let sequence = only(alloc, Kind::Big)?;
    let expectations = only(alloc, expectation(Name::new(alloc, "x")?))?;
    Ok(feed(
        Name::new(alloc, name)?,
        Text::new(alloc, "")?,
        columns,
        flows,
        keys,
        sequence,
        expectations,
    ))
}

/// What is kept of a feed of these rows, one change and these events, whose source has not been read.
fn kept(
    alloc: Global,
    rows: Rows,
    change: Change,
    counts: ListOf<Tally>,
    events: Events,
) -> Result<DatasetState, AllocError> {
    let changes = only(alloc, change)?;
    let cursors = only(alloc, Cursor::Never)?;
    Ok(DatasetState {
        base: 4,
        rows,
        changes,
        cursors,
        counts,
        events,
    })
}

fn tally(passed: u64) -> Tally {
    Tally { passed, failed: 0 }
}

#[test]
fn an_event_is_new_unless_its_moment_is_kept_or_came(rt: HostRuntime) -> Result<(), Fail> {
    let alloc = rt.alloc();
    let old = events(alloc, &[(1, 5), (3, 4)])?;
    let late = events(alloc, &[(3, 6), (1, 4)])?;
    let again = events(alloc, &[(2, 1), (3, 4)])?;
    assert!(rt; are_new(alloc, old.as_slice(), late.as_slice())?);
    assert!(rt; !are_new(alloc, old.as_slice(), again.as_slice())?);
    Ok(())
}

#[test]
fn rows_are_there_as_often_as_they_are_held(rt: HostRuntime) -> Result<(), Fail> {
    let alloc = rt.alloc();
    let twice = rows(alloc, &[7, 7])?;
    assert!(rt; holds(alloc, rows(alloc, &[7, 3, 7])?, &twice)?);
    assert!(rt; !holds(alloc, rows(alloc, &[7, 3])?, &twice)?);
    Ok(())
}

/// What a definition says of itself, of its flows and of rows, counts and events.
fn judges(rt: &impl Abort, alloc: Global, of: &Definition) -> Result<(), Fail> {
    let some = rows(alloc, &[1, 2])?;
    assert!(rt; !is_append(of) && !is_view(of));
    assert!(rt; all_fit(of.columns.as_slice(), some.as_slice()));
    assert!(rt; are_counts(of.expectations.as_slice(), &[tally(9)]));
    let stamped = events(alloc, &[(1, 5)])?;
    assert!(rt; events_fit(alloc, of, stamped.as_slice())?);
    Ok(())
}

#[test]
fn parts_are_judged_by_their_definition(rt: HostRuntime) -> Result<(), Fail> {
    let alloc = rt.alloc();
    let of = definition(alloc, "t")?;
    judges(&rt, alloc, &of)?;
    let other = Name::new(alloc, "F")?;
    assert!(rt; flow_named(of.flows.as_slice(), &other).is_some());
    assert!(rt; !counts_fit(&[tally(1 << 62)], &[tally(1 << 62)]));
    Ok(())
}

#[test]
fn names_differ_and_old_definitions_come_first(rt: HostRuntime) -> Result<(), Fail> {
    let alloc = rt.alloc();
    let list = only(alloc, definition(alloc, "t")?)?;
    assert!(rt; are_distinct(list.as_slice()));
    assert!(rt; begins_with(list.as_slice(), list.as_slice()));
    let names = only(alloc, Name::new(alloc, "t")?)?;
    assert!(rt; names_differ(names.as_slice()));
    Ok(())
}

#[test]
fn places_in_files_do_not_fall(rt: HostRuntime) -> Result<(), Fail> {
    let alloc = rt.alloc();
    let before = Cursor::Files(only(alloc, place(Text::new(alloc, "a")?, 5))?);
    let behind = Cursor::Files(only(alloc, place(Text::new(alloc, "a")?, 7))?);
    assert!(rt; files_move(&before, &behind));
    assert!(rt; !files_move(&behind, &before));
    Ok(())
}

/// A store of one feed with a row that goes and one that comes.
fn store(alloc: Global) -> Result<State, AllocError> {
    let list = only(alloc, definition(alloc, "t")?)?;
    let change = Change {
        removed: rows(alloc, &[3])?,
        added: rows(alloc, &[4])?,
    };
    let counts = only(alloc, tally(2))?;
    let stamped = events(alloc, &[(3, 1), (4, 1)])?;
    let state = kept(alloc, rows(alloc, &[3, 5])?, change, counts, stamped)?;
    let states = only(alloc, state)?;
    Ok(State { list, states })
}

#[test]
fn a_saved_store_may_begin_a_log(rt: HostRuntime) -> Result<(), Fail> {
    let alloc = rt.alloc();
    let saved = store(alloc)?;
    if saved.states.len() == saved.list.len() {
        assert!(rt; is_store(alloc, &saved)?);
    }
    assert!(rt; is_writable(&Payload::Base(saved)));
    Ok(())
}
