// A view of two versions, folded at the first.
ghost use Rattle.std.specs.Prelude.{◌≡◌, ◌<◌};

use crate::*;
use net_changes::net;
use std::alloc::{AllocError, Global};
use std::marker::Brand;
use std::process::Abort;
use std::sync::ledger::{Blank, Ledger};
use std::test::Fail;
use value_core::{ListOf, Row, Rows, Steps, Value};

// The one row of a count and a sum.
fn counted(alloc: Global, count: i64) -> Result<Rows, AllocError> {
    let mut row: Row = ListOf::new(alloc);
    row.push(Value::Big(count))?;
    row.push(Value::Big(9223372036854775807))?;
    let mut rows: Rows = ListOf::new(alloc);
    rows.push(row)?;
    Ok(rows)
}

// One version more, at which the table has these rows.
fn turn<L: Ledger>(
    alloc: Global,
    table: &mut Table,
    rows: Rows,
    steps: &mut Steps<L>,
) -> Result<(), Fail> {
    let now = table.now();
    let old = table.content(alloc, now, steps)?;
    let change = net(alloc, old, rows)?;
    if now < 4611686018427387904 {
        table.apply(change)?;
    }
    Ok(())
}

// A table that is empty at version 0, and has another row at each of two more.
fn view<L: Ledger>(alloc: Global, steps: &mut Steps<L>) -> Result<Table, Fail> {
    let mut table = Table::new(alloc);
    turn(alloc, &mut table, counted(alloc, 1)?, steps)?;
    turn(alloc, &mut table, counted(alloc, 3)?, steps)?;
    Ok(table)
}

// What a version has.
fn has<L: Ledger, R: Abort>(
    rt: &R,
    alloc: Global,
    table: &Table,
    version: u64,
    want: &Rows,
    steps: &mut Steps<L>,
) -> Result<(), Fail> {
    let rows = table.content(alloc, version, steps)?;
    assert!(rt; rows.as_slice() == want.as_slice());
    Ok(())
}

// A version that isn't kept.
fn lacks<L: Ledger, R: Abort>(
    rt: &R,
    alloc: Global,
    table: &Table,
    want: VersionEnd,
    version: u64,
    steps: &mut Steps<L>,
) {
    match table.content(alloc, version, steps) {
        Ok(_) => assert!(rt; false, "{want:?}"),
        Err(end) => assert_eq!(rt; end, want),
    }
}

fn read<L: Ledger, R: Abort>(rt: &R, alloc: Global, steps: &mut Steps<L>) -> Result<(), Fail> {
    let table = view(alloc, steps)?;
    has(rt, alloc, &table, 0, &ListOf::new(alloc), steps)?;
    has(rt, alloc, &table, 1, &counted(alloc, 1)?, steps)?;
    has(rt, alloc, &table, 2, &counted(alloc, 3)?, steps)?;
    lacks(
        rt,
        alloc,
        &table,
        VersionEnd::NoVersion {
            asked: 3,
            base: 0,
            now: 2,
        },
        3,
        steps,
    );
    Ok(())
}

// What goes and what comes after version 1.
fn nets<L: Ledger, R: Abort>(
    rt: &R,
    alloc: Global,
    table: &Table,
    steps: &mut Steps<L>,
) -> Result<(), Fail> {
    let change = table.net(alloc, 1, steps)?;
    is(rt, &change.removed, &counted(alloc, 1)?);
    is(rt, &change.added, &counted(alloc, 3)?);
    Ok(())
}

fn is<R: Abort>(rt: &R, rows: &Rows, want: &Rows) {
    assert!(rt; rows.as_slice() == want.as_slice());
}

// The last version is one change after version 1, and can be taken back.
fn change<L: Ledger, R: Abort>(rt: &R, alloc: Global, steps: &mut Steps<L>) -> Result<(), Fail> {
    let mut table = view(alloc, steps)?;
    nets(rt, alloc, &table, steps)?;
    assert_eq!(rt; table.since(alloc, 1, steps)?.len(), 1);
    table.take_back();
    assert_eq!(rt; table.now(), 1);
    Ok(())
}

// The table with version 1 as its base, taken apart and put together.
fn folded<L: Ledger>(alloc: Global, steps: &mut Steps<L>) -> Result<Table, Fail> {
    let table = view(alloc, steps)?.fold_base(alloc, 1, steps)?;
    let (base, rows, changes) = table.into_parts();
    Ok(Table::from_parts(base, rows, changes))
}

fn fold<L: Ledger, R: Abort>(rt: &R, alloc: Global, steps: &mut Steps<L>) -> Result<(), Fail> {
    let table = folded(alloc, steps)?;
    assert_eq!(rt; (table.base(), table.now()), (1, 2));
    has(rt, alloc, &table, 1, &counted(alloc, 1)?, steps)?;
    has(rt, alloc, &table, 2, &counted(alloc, 3)?, steps)?;
    lacks(
        rt,
        alloc,
        &table,
        VersionEnd::NoVersion {
            asked: 0,
            base: 1,
            now: 2,
        },
        0,
        steps,
    );
    Ok(())
}

// One version more, without rows.
fn cleared<L: Ledger>(alloc: Global, steps: &mut Steps<L>) -> Result<Table, Fail> {
    let mut table = view(alloc, steps)?;
    if table.now() < 4611686018427387904 {
        table.clear(alloc)?;
    }
    Ok(table)
}

fn clear<L: Ledger, R: Abort>(rt: &R, alloc: Global, steps: &mut Steps<L>) -> Result<(), Fail> {
    let table = cleared(alloc, steps)?;
    has(rt, alloc, &table, 2, &counted(alloc, 3)?, steps)?;
    has(rt, alloc, &table, 3, &ListOf::new(alloc), steps)
}

// All of these, by one counter.
fn all<L: Ledger, R: Abort>(rt: &R, alloc: Global, blank: Blank) -> Result<(), Fail>
    requires name { blank.name ≡ L.name }
    requires parts { blank.parts ≡ L.parts }
    requires some { 0 < blank.parts }
{
    let mut steps = Steps::<L>::new(blank);
    read(rt, alloc, &mut steps)?;
    change(rt, alloc, &mut steps)?;
    fold(rt, alloc, &mut steps)?;
    clear(rt, alloc, &mut steps)
}

#[test]
fn a_table_is_read_at_its_versions_and_folded(rt: HostRuntime) -> Result<(), Fail> {
    let alloc = rt.alloc();
    a_change_leads_on();
    a_fold_keeps_later_versions();
    a_net_change_finds_its_rows();
    a_version_has_one_content();
    all::<Brand, _>(&rt, alloc, Blank::new(1))
}
