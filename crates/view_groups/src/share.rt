ghost use Rattle.std.specs.Prelude.{◌≡◌, ◌++◌, ◌∷◌, [], map, IfOk, OnOk};
ghost use Rattle.row_expr.specs.Eval.{Answers};
ghost use Rattle.flow_model.specs.Append.{takes, projected};
ghost use Rattle.flow_model.specs.Views as views;
ghost use Rattle.view_groups.specs.Shares.{Gives, PartAnswers, ShareAnswers, StopsBy};

use plan_core::{Item, Place, Query, Stop, StopOr};
use row_expr::{Expr, RowFault, eval};
use std::alloc::{AllocError, Global};
use value_core::{ListOf, Row, Rows, Value};

/// What a row of the source gives to its group: the group, and for each item the value that the item reads.
#[derive(Debug, Drop)]
pub struct Share {
    pub group: Row,
    pub values: Row,
}

/// Whether a WHERE takes a row.
fn is_taken(alloc: Global, filter: &Option<Expr>, row: &Row) -> Result<bool, RowFault>
    ensures { Gives (takes filter.now row.now) result }
{
    match filter {
        Some(condition) => match eval(alloc, condition, row) {
            Ok(value) => Ok(value.is_true()),
            Err(fault) => Err(fault),
        },
        None => Ok(true),
    }
}

/// The values of expressions on a row, from left to right.
fn values_of(alloc: Global, outputs: &[Expr], row: &Row) -> Result<Row, RowFault>
    ensures { Gives (projected outputs.now row.now) result }
{
    let mut values = ListOf::new(alloc);
    for output in outputs {
        match eval(alloc, output, row) {
            Ok(value) => {
                if values.push(value).is_err() {
                    return Err(RowFault::Memory);
                }
            }
            Err(fault) => return Err(fault),
        }
    }
    Ok(values)
}

/// The value that an item reads of a row.
fn read(alloc: Global, item: &Item, row: &Row) -> Result<Value, RowFault>
    ensures { Answers (views.read item.now row.now) result }
{
    match item {
        Item::Key(_) => Ok(Value::Null),
        Item::Plain(e) => eval(alloc, e, row),
        Item::CountAll => Ok(Value::Null),
        Item::Count(e) => eval(alloc, e, row),
        Item::Sum(e) => eval(alloc, e, row),
        Item::Min(e) => eval(alloc, e, row),
        Item::Max(e) => eval(alloc, e, row),
    }
}

/// The values that the items read of a row, from left to right.
fn read_all(alloc: Global, items: &[Item], row: &Row) -> Result<Row, RowFault>
    ensures { Gives (views.read_all items.now row.now) result }
{
    let mut values = ListOf::new(alloc);
    for item in items {
        match read(alloc, item, row) {
            Ok(value) => {
                if values.push(value).is_err() {
                    return Err(RowFault::Memory);
                }
            }
            Err(fault) => return Err(fault),
        }
    }
    Ok(values)
}

/// What a row gives: WHERE, then the groups, then the items, each from left to right. `None` where WHERE doesn't take it.
/// A fault is the first in this order.
fn share_of(alloc: Global, query: &Query, row: &Row) -> Result<Option<Share>, RowFault>
    ensures { ShareAnswers (views.share query.now row.now) result }
{
    if !is_taken(alloc, &query.filter, row)? {
        return Ok(None);
    }
    let group = values_of(alloc, query.groups.as_slice(), row)?;
    let values = read_all(alloc, query.items.as_slice(), row)?;
    Ok(Some(Share { group, values }))
}

/// The stop by a fault at a row of a view or of what it reads. Memory comes where the fault is want of memory, and where
/// there is none for a copy of the row.
pub fn stop_by(alloc: Global, row: &Row, fault: RowFault) -> StopOr
    ensures { StopsBy row.now fault result }
{
    let Ok(copy) = row.copy(alloc) else {
        return StopOr::Memory;
    };
    let place = Place::Of(copy);
    match fault {
        RowFault::Overflow => StopOr::Stop(Stop::Overflow { place }),
        RowFault::ZeroDivisor => StopOr::Stop(Stop::ZeroDivisor { place }),
        RowFault::BadCast => StopOr::Stop(Stop::BadCast { place }),
        RowFault::Memory => StopOr::Memory,
    }
}

/// What a row of the source gives to its group: WHERE, then the groups, then the items are evaluated, each from left to
/// right (Databricks SQL reference, SELECT). `None` where WHERE isn't TRUE. The stop is the first fault in this order, at
/// this row. Memory comes where none is found.
pub fn part_of(alloc: Global, query: &Query, row: &Row) -> Result<Option<Share>, StopOr>
    ensures { PartAnswers row.now (views.share query.now row.now) result }
{
    match share_of(alloc, query, row) {
        Ok(part) => Ok(part),
        Err(fault) => Err(stop_by(alloc, row, fault)),
    }
}

/// Puts the projection of a row behind others, if WHERE takes it; a row that faults gives none, but a stop. `Err` for want
/// of memory alone.
pub fn project(
    out: &mut Rows,
    alloc: Global,
    query: &Query,
    row: &Row,
) -> Result<Option<Stop>, AllocError>
    ensures stop { IfOk result (λ stop. stop ≡ views.fault_stop row.now (views.share query.now row.now)) }
    ensures rows { OnOk result (out.new ≡ out.old ++ map (λ s. s.values) (views.shares_of query.now (row.now ∷ []))) }
{
    match part_of(alloc, query, row) {
        Ok(Some(share)) => {
            out.push(share.values)?;
            Ok(None)
        }
        Ok(None) => Ok(None),
        Err(StopOr::Stop(stop)) => Ok(Some(stop)),
        Err(StopOr::Memory) => Err(AllocError),
    }
}
