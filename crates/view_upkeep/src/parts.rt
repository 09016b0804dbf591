// The result rows that a change may make go and come, of a query that doesn't group.
ghost use Rattle.std.specs.Prelude.{◌≡◌, ◌+◌, ◌≤◌, ◌++◌, length, map, None, IfOk, OnOk};
ghost use Rattle.flow_model.specs.Views.{shares_of};
ghost use Rattle.view_groups.specs.AllGroups.{first_fault};
ghost use Rattle.view_upkeep.specs.Parts.{PartsAnswer};

use plan_core::{Query, Stop, StopOr};
use std::alloc::{AllocError, Global};
use std::sync::ledger::Ledger;
use value_core::{Change, ListOf, Row, Rows, Steps};
use view_groups::project;

/// The result rows that may go and those that may come.
#[derive(Debug, Drop)]
pub(crate) struct Parts {
    pub(crate) before: Rows,
    pub(crate) after: Rows,
}

/// The projections of rows that go; one that faults gives none. One tick a row.
fn project_out<K: Ledger>(
    alloc: Global,
    query: &Query,
    rows: &[Row],
    steps: &mut Steps<K>,
) -> Result<Rows, AllocError>
    ensures rows { IfOk result (λ out. out ≡ map (λ s. s.values) (shares_of query.now rows.now)) }
    ensures looks { steps.new ≤ steps.old + length rows.now }
{
    let mut out: Rows = ListOf::new(alloc);
    for row in rows {
        steps.tick();
        project(&mut out, alloc, query, row)?;
    }
    Ok(out)
}

/// The projections of rows that come, as far as the first that faults. One tick a row.
fn project_more<K: Ledger>(
    out: &mut Rows,
    alloc: Global,
    query: &Query,
    rows: &[Row],
    steps: &mut Steps<K>,
) -> Result<Option<Stop>, AllocError>
    ensures stop { IfOk result (λ stop. stop ≡ first_fault query.now rows.now) }
    ensures rows { IfOk result (λ stop. stop ≡ None → out.new ≡ out.old ++ map (λ s. s.values) (shares_of query.now rows.now)) }
    ensures looks { steps.new ≤ steps.old + length rows.now }
{
    for row in rows {
        steps.tick();
        let stop = project(out, alloc, query, row)?;
        if stop.is_some() {
            return Ok(stop);
        }
    }
    Ok(None)
}

/// The projections of the rows of a change, or the stop by the first fault of those that come. Ticks at most once a row.
pub(crate) fn plain_parts<K: Ledger>(
    alloc: Global,
    query: &Query,
    delta: &Change,
    steps: &mut Steps<K>,
) -> Result<Parts, StopOr>
    ensures parts { PartsAnswer query.now delta.now.removed delta.now.added result }
    ensures looks { steps.new ≤ steps.old + (length delta.now.removed + length delta.now.added) }
{
    let Ok(before) = project_out(alloc, query, delta.removed.as_slice(), steps) else {
        return Err(StopOr::Memory);
    };
    let mut after: Rows = ListOf::new(alloc);
    match project_more(&mut after, alloc, query, delta.added.as_slice(), steps) {
        Ok(None) => Ok(Parts { before, after }),
        Ok(Some(stop)) => Err(StopOr::Stop(stop)),
        Err(_) => Err(StopOr::Memory),
    }
}
