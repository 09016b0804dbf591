// A plain pass over source rows in row order.
ghost use Rattle.std.specs.Prelude.{◌≡◌, ◌++◌, map, None, IfOk};
ghost use Rattle.flow_model.specs.Views.{shares_of};
ghost use Rattle.view_groups.specs.AllGroups.{first_fault};
ghost use Rattle.view_query.specs.Asked.{PassAnswers, PlainAnswers};

use plan_core::{Query, Stop, StopOr};
use std::alloc::{AllocError, Global};
use value_core::{ListOf, Row, Rows};
use view_groups::{group_rows, is_grouped, project};

/// Puts the projections of rows behind others, as far as the first row that faults.
fn project_all(
    out: &mut Rows,
    alloc: Global,
    query: &Query,
    rows: &[Row],
) -> Result<Option<Stop>, AllocError>
    ensures stop { IfOk result (λ stop. stop ≡ first_fault query.now rows.now) }
    ensures rows { IfOk result (λ stop. stop ≡ None → out.new ≡ out.old ++ map (λ s. s.values) (shares_of query.now rows.now)) }
{
    for row in rows {
        let stop = project(out, alloc, query, row)?;
        if stop.is_some() {
            return Ok(stop);
        }
    }
    Ok(None)
}

/// The projections of rows, or the stop by the first that faults.
fn projections(alloc: Global, query: &Query, rows: &[Row]) -> Result<Rows, StopOr>
    ensures { PlainAnswers query.now rows.now result }
{
    let mut out: Rows = ListOf::new(alloc);
    match project_all(&mut out, alloc, query, rows) {
        Ok(None) => Ok(out),
        Ok(Some(stop)) => Err(StopOr::Stop(stop)),
        Err(_) => Err(StopOr::Memory),
    }
}

/// The result rows over source rows, in some order, or what stops the query.
pub(crate) fn result_of(alloc: Global, query: &Query, rows: &[Row]) -> Result<Rows, StopOr>
    ensures { PassAnswers query.now rows.now result }
{
    if is_grouped(query) {
        return group_rows(alloc, query, rows);
    }
    projections(alloc, query, rows)
}
