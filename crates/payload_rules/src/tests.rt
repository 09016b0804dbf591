// Payloads that follow, and what takes them back.
ghost use Rattle.std.specs.Prelude.{◌≡◌, ◌<◌};

use crate::{fits, follows, full_version};
use commit_payloads::{Definition, Payload, StoredBody, StoredFlow, StoredOrigin, Take};
use sqlite_items::Boxed;
use std::alloc::{AllocError, Global};
use std::marker::Brand;
use std::process::Abort;
use std::sync::ledger::{Blank, Ledger};
use std::test::Fail;
use store_tables::{Contents, Undo};
use value_core::{
    Change, Column, Cursor, Kind, ListOf, Name, Row, Rows, Schema, Steps, Text, Value,
};

fn only<T: Drop>(alloc: Global, item: T) -> Result<ListOf<T>, AllocError> {
    let mut list = ListOf::new(alloc);
    list.push(item)?;
    Ok(list)
}

fn column(name: Name) -> Column {
    Column {
        name,
        kind: Kind::Big,
    }
}

fn flow(name: Name, source: Name) -> StoredFlow {
    StoredFlow {
        name,
        origin: StoredOrigin::Table(source),
    }
}

fn table(
    alloc: Global,
    name: Name,
    text: Text,
    columns: Schema,
    flows: ListOf<StoredFlow>,
) -> Definition {
    Definition {
        name,
        text,
        body: StoredBody::Append,
        columns,
        expectations: ListOf::new(alloc),
        flows,
        keys: ListOf::new(alloc),
        sequence: ListOf::new(alloc),
    }
}

/// All begins anew with the append table `t`, whose flow `f` reads `t`.
fn define(alloc: Global) -> Result<Boxed<Payload>, AllocError> {
    let columns = only(alloc, column(Name::new(alloc, "a")?))?;
    let source = Name::new(alloc, "t")?;
    let flows = only(alloc, flow(Name::new(alloc, "f")?, source))?;
    let name = Name::new(alloc, "t")?;
    let text = Text::new(alloc, "")?;
    let list = only(alloc, table(alloc, name, text, columns, flows))?;
    Boxed::new(alloc, Payload::Define { fresh: true, list })
}

fn row(alloc: Global, number: i64) -> Result<Rows, AllocError> {
    let row: Row = only(alloc, Value::Big(number))?;
    only(alloc, row)
}

fn batch(alloc: Global, table: Name, flow: Name, version: u64, added: Rows) -> Payload {
    Payload::Take(Take {
        table,
        flow,
        cursor: Cursor::At(version),
        change: Change {
            removed: ListOf::new(alloc),
            added,
        },
        counts: ListOf::new(alloc),
        events: ListOf::new(alloc),
    })
}

/// One row into `t`, up to a version of `t`.
fn take(alloc: Global, version: u64) -> Result<Boxed<Payload>, AllocError> {
    let table = Name::new(alloc, "T")?;
    let flow = Name::new(alloc, "F")?;
    let added = row(alloc, 7)?;
    Boxed::new(alloc, batch(alloc, table, flow, version, added))
}

/// Puts a payload that follows, and gives what takes it back.
fn put<L: Ledger, R: Abort>(
    rt: &R,
    alloc: Global,
    contents: &mut Contents,
    payload: Boxed<Payload>,
    steps: &mut Steps<L>,
) -> Result<Undo, Fail> {
    let follow = follows(alloc, contents, payload.get(), steps)?;
    assert!(rt; follow);
    let fit = fits(alloc, contents, payload.get(), steps)?;
    assert!(rt; fit);
    let undo = contents.put(payload.into_inner())?;
    Ok(undo)
}

/// The version of a dataset, and 99 where there is none.
fn version(contents: &Contents, name: &Name) -> u64 {
    match contents.table(name) {
        Some(table) => table.now(),
        None => 99,
    }
}

/// A batch that goes past its source's version doesn't follow, though its table isn't full.
fn refuses<L: Ledger, R: Abort>(
    rt: &R,
    alloc: Global,
    contents: &Contents,
    steps: &mut Steps<L>,
) -> Result<(), Fail> {
    let late = take(alloc, 9)?;
    assert!(rt; full_version(contents, late.get()).is_none());
    let follow = follows(alloc, contents, late.get(), steps)?;
    assert!(rt; !follow);
    Ok(())
}

fn all<L: Ledger, R: Abort>(rt: &R, alloc: Global, blank: Blank) -> Result<(), Fail>
    requires name { blank.name ≡ L.name }
    requires parts { blank.parts ≡ L.parts }
    requires some { 0 < blank.parts }
{
    let mut steps = Steps::<L>::new(blank);
    let mut contents = Contents::new(alloc);
    let name = Name::new(alloc, "t")?;
    let _ = put(rt, alloc, &mut contents, define(alloc)?, &mut steps)?;
    let undo = put(rt, alloc, &mut contents, take(alloc, 0)?, &mut steps)?;
    assert_eq!(rt; version(&contents, &name), 1);
    refuses(rt, alloc, &contents, &mut steps)?;
    contents.undo(undo);
    assert_eq!(rt; version(&contents, &name), 0);
    Ok(())
}

#[test]
fn a_payload_that_follows_is_put_and_taken_back(rt: HostRuntime) -> Result<(), Fail> {
    let alloc = rt.alloc();
    all::<Brand, _>(&rt, alloc, Blank::new(1))
}
