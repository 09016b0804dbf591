// What is kept of a view, from scratch.
ghost use Rattle.std.specs.Prelude.{◌≡◌, IfOk};
ghost use Rattle.value_core.specs.Bags.{in_row_order};
ghost use Rattle.plan_core.specs.Sound as sound;
ghost use Rattle.flow_model.specs.Views.{shares_of, viewed};
ghost use Rattle.view_groups.specs.AllGroups.{KeepsShares};
ghost use Rattle.view_upkeep.specs.Stands.{KeepsBy};

use plan_core::{Expectations, Query, StopOr};
use std::alloc::{AllocError, Global};
use value_core::{ListOf, Row, Rows, Tallies};
use view_groups::{Groups, is_grouped};
use view_query::{Judged, in_order, refresh};

/// The groups of rows; one that faults gives nothing.
fn fill(alloc: Global, query: &Query, rows: &[Row]) -> Result<Groups, AllocError>
    ensures { IfOk result (λ groups. KeepsShares query.now groups (shares_of query.now rows.now)) }
{
    let mut groups = Groups::new(alloc, query)?;
    for row in rows {
        groups.take_in(alloc, query, row)?;
    }
    Ok(groups)
}

/// The groups of rows, which are taken in row order.
fn sorted_groups(alloc: Global, query: &Query, rows: &Rows) -> Result<Groups, AllocError>
    ensures { IfOk result (λ groups. KeepsShares query.now groups (shares_of query.now (in_row_order rows.now))) }
{
    if rows.is_in_order() {
        return fill(alloc, query, rows.as_slice());
    }
    let copy = rows.copy(alloc)?;
    let sorted = in_order(copy)?;
    fill(alloc, query, sorted.as_slice())
}

/// The groups of source rows, of a query that groups.
pub(crate) fn groups_of(
    alloc: Global,
    query: &Query,
    rows: &Rows,
) -> Result<Option<Groups>, AllocError>
    ensures { IfOk result (λ groups. KeepsBy (sound.is_grouped query.now) groups query.now (shares_of query.now (in_row_order rows.now))) }
{
    if !is_grouped(query) {
        return Ok(None);
    }
    let groups = sorted_groups(alloc, query, rows)?;
    Ok(Some(groups))
}

/// The counts of the expectations of a view over source rows; none where something stops the view.
pub(crate) fn counts_of(
    alloc: Global,
    query: &Query,
    expectations: &Expectations,
    rows: &Rows,
) -> Result<Tallies, AllocError>
    ensures { IfOk result (λ counts. IfOk (viewed query.now expectations.now rows.now) (λ held. counts ≡ held.counts)) }
{
    match refresh(alloc, query, expectations, rows) {
        Ok(judged) => {
            let Judged { counts, .. } = judged;
            Ok(counts)
        }
        Err(StopOr::Stop(_)) => Ok(ListOf::new(alloc)),
        Err(StopOr::Memory) => Err(AllocError),
    }
}
