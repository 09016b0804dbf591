use crate::{Contents, Undo};
use commit_records::{
    Definition, Definitions, Payload, StoredAction, StoredBody, StoredExpectation, StoredFlow,
    StoredOrigin, Take,
};
use std::alloc::Global;
use std::process::Abort;
use std::test::Fail;
use value_core::{Change, Column, Cursor, FilePlace, Kind, ListOf, Name, Row, Tally, Text, Value};

fn name(alloc: Global, text: &str) -> Result<Name, Fail> {
    Ok(Name::new(alloc, text)?)
}

fn column(alloc: Global) -> Result<ListOf<Column>, Fail> {
    let mut columns = ListOf::new(alloc);
    columns.push(Column {
        name: name(alloc, "a")?,
        kind: Kind::Big,
    })?;
    Ok(columns)
}

fn expectation(alloc: Global) -> Result<ListOf<StoredExpectation>, Fail> {
    let mut expectations = ListOf::new(alloc);
    expectations.push(StoredExpectation {
        name: name(alloc, "positive")?,
        action: StoredAction::Warn,
    })?;
    Ok(expectations)
}

fn flow(alloc: Global) -> Result<ListOf<StoredFlow>, Fail> {
    let mut flows = ListOf::new(alloc);
    flows.push(StoredFlow {
        name: name(alloc, "f")?,
        origin: StoredOrigin::Folder(Text::new(alloc, "in")?),
    })?;
    Ok(flows)
}

/// An append table with one BIGINT column, one expectation and one flow over a folder.
fn table(alloc: Global, text: &str) -> Result<Definition, Fail> {
    Ok(Definition {
        name: name(alloc, text)?,
        text: Text::new(alloc, "x")?,
        body: StoredBody::Append,
        columns: column(alloc)?,
        expectations: expectation(alloc)?,
        flows: flow(alloc)?,
        keys: ListOf::new(alloc),
        sequence: ListOf::new(alloc),
    })
}

fn define(alloc: Global, fresh: bool) -> Result<Payload, Fail> {
    let mut list: Definitions = ListOf::new(alloc);
    list.push(table(alloc, "t")?)?;
    Ok(Payload::Define { fresh, list })
}

/// The same table, with another one behind it.
fn define_two(alloc: Global) -> Result<Payload, Fail> {
    let mut list: Definitions = ListOf::new(alloc);
    list.push(table(alloc, "t")?)?;
    list.push(table(alloc, "u")?)?;
    Ok(Payload::Define { fresh: false, list })
}

fn places(alloc: Global, place: u64) -> Result<Cursor, Fail> {
    let mut places = ListOf::new(alloc);
    places.push(FilePlace {
        file: Text::new(alloc, "b.json")?,
        place,
    })?;
    Ok(Cursor::Files(places))
}

/// One row is added.
fn one_row(alloc: Global) -> Result<Change, Fail> {
    let mut row: Row = ListOf::new(alloc);
    row.push(Value::Big(7))?;
    let mut added = ListOf::new(alloc);
    added.push(row)?;
    Ok(Change {
        removed: ListOf::new(alloc),
        added,
    })
}

/// A batch of one row into `T`, up to a place of one file, with a count of one that passed.
fn batch(alloc: Global, place: u64) -> Result<Payload, Fail> {
    let mut counts = ListOf::new(alloc);
    counts.push(Tally {
        passed: 1,
        failed: 0,
    })?;
    Ok(Payload::Take(Take {
        table: name(alloc, "T")?,
        flow: name(alloc, "F")?,
        cursor: places(alloc, place)?,
        change: one_row(alloc)?,
        counts,
        events: ListOf::new(alloc),
    }))
}

fn put(rt: &impl Abort, contents: &mut Contents, payload: Payload) -> Result<Undo, Fail> {
    assert!(rt; contents.full_version(&payload).is_none());
    assert!(rt; contents.follows(&payload));
    Ok(contents.put(payload)?)
}

/// The table `t` after one batch up to place 19.
fn filled(rt: &impl Abort, alloc: Global) -> Result<Contents, Fail> {
    let mut contents = Contents::new(alloc);
    let _ = put(rt, &mut contents, define(alloc, true)?)?;
    let _ = put(rt, &mut contents, batch(alloc, 19)?)?;
    Ok(contents)
}

/// The version now of `t`.
fn version(alloc: Global, contents: &Contents) -> Result<u64, Fail> {
    let t = name(alloc, "t")?;
    Ok(contents.table(&t).ok_or("no table")?.now())
}

/// How many rows the expectation of `t` passed.
fn passed(alloc: Global, contents: &Contents) -> Result<u64, Fail> {
    let counts = contents.tallies(&name(alloc, "t")?).ok_or("no table")?;
    match counts.as_slice().first() {
        Some(count) => Ok(count.passed),
        None => Ok(0),
    }
}

/// How far the flow of `t` has read its file.
fn reached(alloc: Global, contents: &Contents) -> Result<u64, Fail> {
    let t = name(alloc, "t")?;
    let f = name(alloc, "f")?;
    match contents.cursor(&t, &f) {
        Some(Cursor::Files(places)) => match places.as_slice().first() {
            Some(place) => Ok(place.place),
            None => Ok(0),
        },
        _ => Ok(0),
    }
}

#[test]
fn a_batch_is_taken_and_taken_back(rt: HostRuntime) -> Result<(), Fail> {
    let alloc = rt.alloc();
    let mut contents = filled(&rt, alloc)?;
    let undo = put(&rt, &mut contents, batch(alloc, 30)?)?;
    assert!(rt; passed(alloc, &contents)? == 2);
    assert!(rt; reached(alloc, &contents)? == 30);
    contents.undo(undo);
    assert!(rt; reached(alloc, &contents)? == 19);
    Ok(())
}

#[test]
fn what_goes_back_does_not_follow(rt: HostRuntime) -> Result<(), Fail> {
    let alloc = rt.alloc();
    let contents = filled(&rt, alloc)?;
    assert!(rt; !contents.follows(&batch(alloc, 18)?));
    Ok(())
}

#[test]
fn tables_are_added(rt: HostRuntime) -> Result<(), Fail> {
    let alloc = rt.alloc();
    let mut contents = filled(&rt, alloc)?;
    let undo = put(&rt, &mut contents, define_two(alloc)?)?;
    assert!(rt; contents.definitions().len() == 2);
    contents.undo(undo);
    assert!(rt; contents.definitions().len() == 1);
    Ok(())
}

#[test]
fn tables_begin_anew(rt: HostRuntime) -> Result<(), Fail> {
    let alloc = rt.alloc();
    let mut contents = filled(&rt, alloc)?;
    let undo = put(&rt, &mut contents, define(alloc, true)?)?;
    assert!(rt; version(alloc, &contents)? == 0);
    contents.undo(undo);
    assert!(rt; version(alloc, &contents)? == 1);
    Ok(())
}

#[test]
fn a_table_shows_its_versions(rt: HostRuntime) -> Result<(), Fail> {
    let alloc = rt.alloc();
    let contents = filled(&rt, alloc)?;
    let t = name(alloc, "T")?;
    let table = contents.table(&t).ok_or("no table")?;
    assert!(rt; table.base() == 0);
    assert!(rt; table.rows().is_empty());
    assert!(rt; table.changes().len() == 1);
    Ok(())
}
