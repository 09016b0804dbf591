// What a query gives over rows.
ghost use Rattle.flow_model.specs.Views as views;
ghost use Rattle.view_query.specs.Asked.{AskAnswers};

use crate::order::in_order;
use crate::pass::result_of;
use plan_core::{Query, StopOr};
use std::alloc::Global;
use value_core::{Row, Rows};

/// What a query gives over rows, in row order, without expectations (Databricks SQL reference, CREATE MATERIALIZED VIEW):
/// WHERE, then the projections or the groups, whose totals are exact whole numbers. It stops with the fault of the least
/// row that has one, else with the first exact total that is no BIGINT, of the least group that has one. Memory comes where
/// none is found. Rows that are in row order are neither copied nor sorted.
pub fn ask(alloc: Global, query: &Query, rows: &Rows) -> Result<Rows, StopOr>
    ensures { AskAnswers (views.ask query.now rows.now) result }
{
    if rows.is_in_order() {
        return ask_in_order(alloc, query, rows.as_slice());
    }
    let Ok(copy) = rows.copy(alloc) else {
        return Err(StopOr::Memory);
    };
    match in_order(copy) {
        Ok(sorted) => ask_in_order(alloc, query, sorted.as_slice()),
        Err(_) => Err(StopOr::Memory),
    }
}

/// The same over rows in row order.
fn ask_in_order(alloc: Global, query: &Query, rows: &[Row]) -> Result<Rows, StopOr>
    ensures { AskAnswers (views.ask_in_order query.now rows.now) result }
{
    let result = result_of(alloc, query, rows)?;
    match in_order(result) {
        Ok(sorted) => Ok(sorted),
        Err(_) => Err(StopOr::Memory),
    }
}
