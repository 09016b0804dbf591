ghost use Rattle.std.specs.Prelude.{◌≡◌};

use crate::{Patches, Side, Sides};
use plan_core::{Exprs, Item, Items, Query};
use row_expr::Expr;
use std::alloc::{AllocError, Global};
use std::marker::Brand;
use std::process::Abort;
use std::sync::ledger::{Blank, Ledger};
use std::test::Fail;
use value_core::{Change, Kind, ListOf, Name, Row, Rows, Steps, Value};
use view_groups::Groups;

fn crosses_threads<T: Send + Sync>() {}

#[test]
fn patches_cross_threads() {
    crosses_threads::<Patches>();
    crosses_threads::<Sides>();
}

/// A row of two BIGINTs.
fn row(alloc: Global, a: i64, b: i64) -> Result<Row, AllocError> {
    let mut row: Row = ListOf::new(alloc);
    row.push(Value::Big(a))?;
    row.push(Value::Big(b))?;
    Ok(row)
}

/// `SELECT c, min(a) FROM t GROUP BY c`
fn least(alloc: Global) -> Result<Query, AllocError> {
    let mut groups: Exprs = ListOf::new(alloc);
    groups.push(Expr::Column(0, Kind::Big))?;
    let mut items: Items = ListOf::new(alloc);
    items.push(Item::Key(0))?;
    items.push(Item::Min(Expr::Column(1, Kind::Big)))?;
    let origin = Name::new(alloc, "t")?;
    Ok(Query {
        origin,
        filter: None,
        groups,
        items,
    })
}

/// The rows (1, 4), (1, 6) and (2, 5) in their groups.
fn three(alloc: Global, query: &Query) -> Result<Groups, AllocError> {
    let mut groups = Groups::new(alloc, query)?;
    groups.take_in(alloc, query, &row(alloc, 1, 4)?)?;
    groups.take_in(alloc, query, &row(alloc, 1, 6)?)?;
    groups.take_in(alloc, query, &row(alloc, 2, 5)?)?;
    Ok(groups)
}

/// (1, 4) and (2, 5) go, (3, 7) comes.
fn change(alloc: Global) -> Result<Change, AllocError> {
    let mut removed: Rows = ListOf::new(alloc);
    removed.push(row(alloc, 1, 4)?)?;
    removed.push(row(alloc, 2, 5)?)?;
    let mut added: Rows = ListOf::new(alloc);
    added.push(row(alloc, 3, 7)?)?;
    Ok(Change { removed, added })
}

/// Whether a side has these two rows.
fn has(side: &Side, first: Row, second: Row) -> bool {
    let rows = side.rows.as_slice();
    side.stop.is_none() && rows.first() == Some(&first) && rows.last() == Some(&second)
}

/// Touches the groups by the change, and takes it back.
fn there_and_back<L: Ledger>(rt: &impl Abort, alloc: Global, blank: Blank) -> Result<(), AllocError>
    requires name { blank.name ≡ L.name }
    requires parts { blank.parts ≡ L.parts }
    requires some { blank.parts ≡ 1 }
{
    let mut steps: Steps<L> = Steps::new(blank);
    let query = least(alloc)?;
    let mut groups = three(alloc, &query)?;
    let Ok(patches) = Patches::of_change(alloc, &query, &change(alloc)?, &mut steps) else {
        return Err(AllocError);
    };
    let sides = patches.apply(&mut groups, alloc, &query, &mut steps)?;
    assert!(rt; has(&sides.before, row(alloc, 1, 4)?, row(alloc, 2, 5)?));
    assert!(rt; has(&sides.after, row(alloc, 1, 6)?, row(alloc, 3, 7)?));
    let back = patches.undo(&mut groups, alloc, &query, &mut steps)?;
    assert!(rt; has(&back.after, row(alloc, 1, 4)?, row(alloc, 2, 5)?));
    Ok(())
}

#[test]
fn a_least_value_goes_and_comes_back(rt: HostRuntime) -> Result<(), Fail> {
    let alloc = rt.alloc();
    there_and_back::<Brand>(&rt, alloc, Blank::new(1))?;
    Ok(())
}
