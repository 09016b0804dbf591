ghost use Rattle.std.specs.Prelude.{◌≡◌};

use crate::View;
use plan_core::{Expectations, Item, Items, Query};
use row_expr::Expr;
use sqlite_items::Boxed;
use std::alloc::{AllocError, Global};
use std::marker::Brand;
use std::process::Abort;
use std::sync::ledger::{Blank, Ledger};
use std::test::Fail;
use value_core::{Change, Kind, ListOf, Name, Row, Rows, Steps, Value};

/// A row of one BIGINT.
fn number(alloc: Global, number: i64) -> Result<Row, AllocError> {
    let mut row: Row = ListOf::new(alloc);
    row.push(Value::Big(number))?;
    Ok(row)
}

/// Rows of one BIGINT each.
fn rows(alloc: Global, numbers: &[i64]) -> Result<Rows, AllocError> {
    let mut rows: Rows = ListOf::new(alloc);
    for one in numbers {
        rows.push(number(alloc, *one)?)?;
    }
    Ok(rows)
}

fn change(alloc: Global, removed: &[i64], added: &[i64]) -> Result<Change, AllocError> {
    let removed = rows(alloc, removed)?;
    let added = rows(alloc, added)?;
    Ok(Change { removed, added })
}

/// `min(a)`
fn least_items(alloc: Global) -> Result<Items, AllocError> {
    let mut items: Items = ListOf::new(alloc);
    items.push(Item::Min(Expr::Column(0, Kind::Big)))?;
    Ok(items)
}

/// `SELECT min(a) FROM t`
fn least(alloc: Global) -> Result<Boxed<Query>, AllocError> {
    let items = least_items(alloc)?;
    let origin = Name::new(alloc, "t")?;
    let query = Query {
        origin,
        filter: None,
        groups: ListOf::new(alloc),
        items,
    };
    Boxed::new(alloc, query)
}

/// What turns the view of a query over these rows by a change.
fn turn_by<L: Ledger>(
    alloc: Global,
    query: &Query,
    rows: &Rows,
    delta: &Change,
    steps: &mut Steps<L>,
) -> Result<Change, AllocError> {
    let expectations: Expectations = ListOf::new(alloc);
    let mut view = View::build(alloc, query, &expectations, rows)?;
    match view.turn(alloc, query, &expectations, delta, steps) {
        Ok(turn) => Ok(turn.change),
        Err(_) => Err(AllocError),
    }
}

/// What the view does where its least value goes.
fn least_goes<L: Ledger>(alloc: Global, steps: &mut Steps<L>) -> Result<Change, AllocError> {
    let query = least(alloc)?;
    let rows = rows(alloc, &[125, 124])?;
    let delta = change(alloc, &[124], &[])?;
    turn_by(alloc, query.get(), &rows, &delta, steps)
}

fn is_number(rows: &Rows, number: i64) -> bool {
    match rows.as_slice() {
        [row] => matches!(row.as_slice(), [Value::Big(found)] if *found == number),
        _ => false,
    }
}

fn the_next_comes<L: Ledger>(rt: &impl Abort, alloc: Global, blank: Blank) -> Result<(), AllocError>
    requires name { blank.name ≡ L.name }
    requires parts { blank.parts ≡ L.parts }
    requires some { blank.parts ≡ 1 }
{
    let mut steps: Steps<L> = Steps::new(blank);
    let change = least_goes(alloc, &mut steps)?;
    assert!(rt; is_number(&change.removed, 124) && is_number(&change.added, 125));
    Ok(())
}

#[test]
fn a_least_value_goes(rt: HostRuntime) -> Result<(), Fail> {
    let alloc = rt.alloc();
    the_next_comes::<Brand>(&rt, alloc, Blank::new(1))?;
    Ok(())
}
