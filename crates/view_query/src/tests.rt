use crate::{Judged, ask, in_order, judge, refresh};
use plan_core::{Action, Expectation, Expectations, Item, Items, Query, Stop, StopOr};
use row_expr::{Comparison, Expr};
use sqlite_items::Boxed;
use std::alloc::{AllocError, Global};
use std::test::Fail;
use value_core::{Kind, ListOf, Name, Row, Rows, Value};

fn crosses_threads<T: Send + Sync>() {}

#[test]
fn judged_rows_cross_threads() {
    crosses_threads::<Judged>();
}

/// `a`
fn a() -> Expr {
    Expr::Column(0, Kind::Big)
}

/// A row of BIGINTs.
fn row(alloc: Global, numbers: &[i64]) -> Result<Row, AllocError> {
    let mut row: Row = ListOf::new(alloc);
    for number in numbers {
        row.push(Value::Big(*number))?;
    }
    Ok(row)
}

/// Rows of one BIGINT each.
fn rows(alloc: Global, numbers: &[i64]) -> Result<Rows, AllocError> {
    let mut rows: Rows = ListOf::new(alloc);
    for number in numbers {
        rows.push(row(alloc, &[*number])?)?;
    }
    Ok(rows)
}

/// `SELECT items FROM origin`
fn query(alloc: Global, origin: Name, items: Items) -> Query {
    Query {
        origin,
        filter: None,
        groups: ListOf::new(alloc),
        items,
    }
}

/// `count(*), sum(a), min(a)`
fn total_items(alloc: Global) -> Result<Items, AllocError> {
    let mut items: Items = ListOf::new(alloc);
    items.push(Item::CountAll)?;
    items.push(Item::Sum(a()))?;
    items.push(Item::Min(a()))?;
    Ok(items)
}

/// `SELECT count(*), sum(a), min(a) FROM t`
fn totals(alloc: Global) -> Result<Boxed<Query>, AllocError> {
    let items = total_items(alloc)?;
    let origin = Name::new(alloc, "t")?;
    Boxed::new(alloc, query(alloc, origin, items))
}

/// `SELECT a FROM t`
fn all(alloc: Global) -> Result<Boxed<Query>, AllocError> {
    let mut items: Items = ListOf::new(alloc);
    items.push(Item::Plain(a()))?;
    let origin = Name::new(alloc, "t")?;
    Boxed::new(alloc, query(alloc, origin, items))
}

/// Whether an answer is the one row.
fn is_row(found: &Result<Rows, StopOr>, wanted: &Row) -> bool {
    match found {
        Ok(rows) => rows.len() == 1 && rows.as_slice().first() == Some(wanted),
        Err(_) => false,
    }
}

/// Whether an answer is the stop by this total of the one group.
fn is_overflow(found: &Result<Rows, StopOr>, wanted: i128) -> bool {
    match found {
        Err(StopOr::Stop(Stop::SumOverflow { group, total })) => {
            group.is_empty() && *total == wanted
        }
        _ => false,
    }
}

/// Whether a query gives one row over rows of these numbers.
fn gives(
    alloc: Global,
    query: &Query,
    numbers: &[i64],
    wanted: &[i64],
) -> Result<bool, AllocError> {
    let rows = rows(alloc, numbers)?;
    let wanted = row(alloc, wanted)?;
    Ok(is_row(&ask(alloc, query, &rows), &wanted))
}

/// Whether its total is this one, and no BIGINT.
fn overflows(
    alloc: Global,
    query: &Query,
    numbers: &[i64],
    total: i128,
) -> Result<bool, AllocError> {
    let rows = rows(alloc, numbers)?;
    Ok(is_overflow(&ask(alloc, query, &rows), total))
}

#[test]
fn a_total_is_exact_on_its_way(rt: HostRuntime) -> Result<(), Fail> {
    let m = rt.alloc();
    let query = totals(m)?;
    let top = 9223372036854775807;
    assert!(rt; gives(m, query.get(), &[top], &[1, top, top])?);
    assert!(rt; overflows(m, query.get(), &[top, 1], 9223372036854775808)?);
    assert!(rt; gives(m, query.get(), &[top, 1, -1], &[3, top, -1])?);
    Ok(())
}

/// `large EXPECT (column > bound)` with this action
fn expects(name: Name, column: Boxed<Expr>, bound: Boxed<Expr>, action: Action) -> Expectation {
    let test = Expr::Compare(Comparison::Gt, column, bound);
    Expectation { name, test, action }
}

/// `large EXPECT (a > 9)` with this action
fn large(alloc: Global, action: Action) -> Result<Expectations, AllocError> {
    let column = Boxed::new(alloc, a())?;
    let bound = Boxed::new(alloc, Expr::Literal(Value::Big(9)))?;
    let name = Name::new(alloc, "large")?;
    let mut expectations: Expectations = ListOf::new(alloc);
    expectations.push(expects(name, column, bound, action))?;
    Ok(expectations)
}

/// Whether a view keeps these rows, of which and of others it counts so many.
fn holds(found: &Result<Judged, StopOr>, wanted: &Rows, passed: u64, failed: u64) -> bool {
    match found {
        Ok(judged) => match judged.counts.as_slice().first() {
            Some(tally) => {
                judged.rows.as_slice() == wanted.as_slice()
                    && tally.passed == passed
                    && tally.failed == failed
            }
            None => false,
        },
        Err(_) => false,
    }
}

/// Whether a view stops by an expectation.
fn fails(found: &Result<Judged, StopOr>) -> bool {
    matches!(found, Err(StopOr::Stop(Stop::Expect { .. })))
}

/// Whether a first refresh over 12, 3 and 10 keeps 10 and 12.
fn drops(alloc: Global, query: &Query, source: &Rows) -> Result<bool, AllocError> {
    let large = large(alloc, Action::DropRow)?;
    let wanted = rows(alloc, &[10, 12])?;
    Ok(holds(&refresh(alloc, query, &large, source), &wanted, 2, 1))
}

/// Whether it stops where a row may not fail.
fn stops(alloc: Global, query: &Query, source: &Rows) -> Result<bool, AllocError> {
    let large = large(alloc, Action::FailUpdate)?;
    Ok(fails(&refresh(alloc, query, &large, source)))
}

/// Whether a warning keeps both of 10 and 3.
fn warns(alloc: Global) -> Result<bool, AllocError> {
    let large = large(alloc, Action::Warn)?;
    let sorted = in_order(rows(alloc, &[10, 3])?)?;
    let wanted = rows(alloc, &[3, 10])?;
    Ok(holds(&judge(alloc, &large, &sorted), &wanted, 1, 1))
}

#[test]
fn a_view_keeps_what_passes(rt: HostRuntime) -> Result<(), Fail> {
    let m = rt.alloc();
    let query = all(m)?;
    let source = rows(m, &[12, 3, 10])?;
    assert!(rt; drops(m, query.get(), &source)?);
    assert!(rt; stops(m, query.get(), &source)?);
    assert!(rt; warns(m)?);
    Ok(())
}
