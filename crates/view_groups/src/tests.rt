use crate::{Gives, Groups, Share, Turned, group_rows, is_grouped, part_of, project, stop_by};
use plan_core::{Exprs, Item, Items, Place, Query, Stop, StopOr};
use row_expr::{Arithmetic, Expr, RowFault};
use sqlite_items::Boxed;
use std::alloc::{AllocError, Global};
use std::process::Abort;
use std::test::Fail;
use value_core::{Kind, ListOf, Name, Row, Rows, Value};

fn crosses_threads<T: Send + Sync>() {}

#[test]
fn groups_cross_threads() {
    crosses_threads::<Groups>();
}

/// A row of BIGINTs.
fn row(alloc: Global, numbers: &[i64]) -> Result<Row, AllocError> {
    let mut row: Row = ListOf::new(alloc);
    for number in numbers {
        row.push(Value::Big(*number))?;
    }
    Ok(row)
}

/// `1 / c`, divided by the given expression.
fn inverse_of(one: Boxed<Expr>, c: Boxed<Expr>) -> Item {
    Item::Plain(Expr::Arithmetic(Arithmetic::Div, one, c))
}

/// A query of these groups and items.
fn query(origin: Name, groups: Exprs, items: Items) -> Query {
    Query {
        origin,
        filter: None,
        groups,
        items,
    }
}

/// The groups by `c`.
fn by_customer(alloc: Global) -> Result<Exprs, AllocError> {
    let mut groups: Exprs = ListOf::new(alloc);
    groups.push(Expr::Column(0, Kind::Big))?;
    Ok(groups)
}

/// `c, count(*), sum(a), max(a)`
fn totals(alloc: Global) -> Result<Items, AllocError> {
    let mut items: Items = ListOf::new(alloc);
    items.push(Item::Key(0))?;
    items.push(Item::CountAll)?;
    items.push(Item::Sum(Expr::Column(1, Kind::Big)))?;
    items.push(Item::Max(Expr::Column(1, Kind::Big)))?;
    Ok(items)
}

/// `SELECT c, count(*), sum(a), max(a) FROM orders GROUP BY c`
fn spend(alloc: Global) -> Result<Boxed<Query>, AllocError> {
    let groups = by_customer(alloc)?;
    let items = totals(alloc)?;
    Boxed::new(alloc, query(Name::new(alloc, "orders")?, groups, items))
}

/// `1 / c`
fn inverse(alloc: Global) -> Result<Items, AllocError> {
    let one = Boxed::new(alloc, Expr::Literal(Value::Big(1)))?;
    let c = Boxed::new(alloc, Expr::Column(0, Kind::Big))?;
    let mut items: Items = ListOf::new(alloc);
    items.push(inverse_of(one, c))?;
    Ok(items)
}

/// `SELECT 1 / c FROM orders`
fn inverses(alloc: Global) -> Result<Boxed<Query>, AllocError> {
    let items = inverse(alloc)?;
    let origin = Name::new(alloc, "orders")?;
    Boxed::new(alloc, query(origin, ListOf::new(alloc), items))
}

/// Orders: the customer and the amount of each.
fn orders(alloc: Global) -> Result<Rows, AllocError> {
    let mut rows: Rows = ListOf::new(alloc);
    rows.push(row(alloc, &[1, 250])?)?;
    rows.push(row(alloc, &[2, 40])?)?;
    rows.push(row(alloc, &[1, 60])?)?;
    Ok(rows)
}

/// Whether an answer is these rows.
fn gives_rows(found: &Result<Rows, StopOr>, wanted: &Rows) -> bool {
    match found {
        Ok(rows) => rows.as_slice() == wanted.as_slice(),
        Err(_) => false,
    }
}

/// What the query gives: by customer, how many orders, their sum and the greatest.
fn spent(alloc: Global) -> Result<Rows, AllocError> {
    let mut rows: Rows = ListOf::new(alloc);
    rows.push(row(alloc, &[1, 2, 310, 250])?)?;
    rows.push(row(alloc, &[2, 1, 40, 40])?)?;
    Ok(rows)
}

#[test]
fn groups_have_their_totals(rt: HostRuntime) -> Result<(), Fail> {
    let m = rt.alloc();
    let query = spend(m)?;
    assert!(rt; is_grouped(query.get()));
    let rows = group_rows(m, query.get(), orders(m)?.as_slice());
    assert!(rt; gives_rows(&rows, &spent(m)?));
    Ok(())
}

/// The groups of the orders.
fn order_groups(alloc: Global, query: &Query) -> Result<Groups, AllocError> {
    let mut groups = Groups::new(alloc, query)?;
    for row in orders(alloc)?.as_slice() {
        groups.take_in(alloc, query, row)?;
    }
    Ok(groups)
}

/// The share of an order of the first customer.
fn share(alloc: Global, amount: i64) -> Result<Vec<Share>, AllocError> {
    let mut shares = Vec::new(alloc);
    let group = row(alloc, &[1])?;
    let mut values: Row = ListOf::new(alloc);
    values.push(Value::Null)?;
    values.push(Value::Null)?;
    values.push(Value::Big(amount))?;
    values.push(Value::Big(amount))?;
    shares.push(Share { group, values })?;
    Ok(shares)
}

/// Whether a group gives this row.
fn gives(found: &Gives, row: &Row) -> bool {
    match found {
        Gives::OneRow(found) => found == row,
        _ => false,
    }
}

/// Whether a group gives no row.
fn gives_nothing(found: &Gives) -> bool {
    matches!(found, Gives::Nothing)
}

/// What the first customer's group gives before and after an order goes.
fn without(
    alloc: Global,
    groups: &mut Groups,
    query: &Query,
    amount: i64,
) -> Result<Turned, AllocError> {
    let key = row(alloc, &[1])?;
    let gone = share(alloc, amount)?;
    groups.touch(alloc, query, &key, gone.as_slice(), &[])
}

fn goes(
    rt: &impl Abort,
    alloc: Global,
    groups: &mut Groups,
    query: &Query,
) -> Result<(), AllocError> {
    let turned = without(alloc, groups, query, 250)?;
    assert!(rt; gives(&turned.before, &row(alloc, &[1, 2, 310, 250])?));
    assert!(rt; gives(&turned.after, &row(alloc, &[1, 1, 60, 60])?));
    Ok(())
}

#[test]
fn a_greatest_value_goes_with_its_row(rt: HostRuntime) -> Result<(), Fail> {
    let m = rt.alloc();
    let query = spend(m)?;
    let mut groups = order_groups(m, query.get())?;
    goes(&rt, m, &mut groups, query.get())?;
    assert!(rt; gives_nothing(&without(m, &mut groups, query.get(), 60)?.after));
    Ok(())
}

/// Whether an answer is a division by 0 at this row.
fn divides_by_zero(found: &Stop, row: &Row) -> bool {
    match found {
        Stop::ZeroDivisor {
            place: Place::Of(found),
        } => found == row,
        _ => false,
    }
}

/// Whether an answer is the stop by a division by 0 at this row.
fn stops_at(found: &StopOr, row: &Row) -> bool {
    match found {
        StopOr::Stop(stop) => divides_by_zero(stop, row),
        StopOr::Memory => false,
    }
}

/// Whether a part is the stop by a division by 0 at this row.
fn part_stops_at(found: &Result<Option<Share>, StopOr>, row: &Row) -> bool {
    match found {
        Ok(_) => false,
        Err(end) => stops_at(end, row),
    }
}

/// Whether a projection was stopped by a division by 0 at this row.
fn is_stopped_at(found: &Option<Stop>, row: &Row) -> bool {
    match found {
        Some(stop) => divides_by_zero(stop, row),
        None => false,
    }
}

/// A row of 0 stops the query, a row of 1 doesn't.
fn projects(rt: &impl Abort, alloc: Global, query: &Query, zero: &Row) -> Result<(), AllocError> {
    let mut out: Rows = ListOf::new(alloc);
    assert!(rt; is_stopped_at(&project(&mut out, alloc, query, zero)?, zero));
    assert!(rt; project(&mut out, alloc, query, &row(alloc, &[1])?)?.is_none());
    assert!(rt; out.len() == 1);
    Ok(())
}

#[test]
fn a_fault_stands_at_its_row(rt: HostRuntime) -> Result<(), Fail> {
    let m = rt.alloc();
    let query = inverses(m)?;
    let zero = row(m, &[0])?;
    assert!(rt; !is_grouped(query.get()));
    projects(&rt, m, query.get(), &zero)?;
    assert!(rt; part_stops_at(&part_of(m, query.get(), &zero), &zero));
    assert!(rt; stops_at(&stop_by(m, &zero, RowFault::ZeroDivisor), &zero));
    Ok(())
}
