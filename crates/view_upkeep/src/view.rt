// A view, turned by a change of its source.
ghost use Rattle.std.specs.Prelude.{◌≡◌, ◌+◌, ◌*◌, ◌≤◌, List, true, false, length, Ok, IfOk};
ghost use Rattle.value_core.specs.declared.change.Change.{Change};
ghost use Rattle.value_core.specs.Bags.{in_row_order};
ghost use Rattle.value_core.specs.Order.{Row};
ghost use Rattle.plan_core.specs.Sound as sound;
ghost use Rattle.flow_model.specs.Views as views;
ghost use Rattle.flow_model.specs.Views.{shares_of};
ghost use Rattle.view_groups.specs.AllGroups.{KeepsShares};
ghost use Rattle.view_patches.specs.Patches.{PatchesAnswer, patched_groups};
ghost use Rattle.view_upkeep.specs.Stands.{GroupsAnswer, KeepsBy, KeptAnswer, MayTurn, PlainAnswer, StandsFor, TurnAnswers, groups_of_change, touched_groups};

use crate::building::{counts_of, groups_of};
use crate::parts::plain_parts;
pub use crate::settling::Turn;
use crate::settling::{settle, settle_sides};
use plan_core::{Expectations, Query, StopOr};
use std::alloc::{AllocError, Global};
use std::sync::ledger::Ledger;
use value_core::{Change, ListOf, Rows, Steps, Tallies};
use view_groups::{Groups, is_grouped};
use view_patches::Patches;

/// What is kept of a materialized view to turn it by the changes of its source: of a query that groups, its groups with
/// exact totals and bags of values, and the counts of its expectations. It keeps no row of its source, and none of its own.
#[derive(Debug, Drop)]
pub struct View {
    pub(crate) groups: Option<Groups>,
    pub(crate) counts: Tallies,
}

/// The turn of a query that doesn't group.
fn turn_plain<K: Ledger>(
    counts: &Tallies,
    alloc: Global,
    query: &Query,
    expectations: &Expectations,
    delta: &Change,
    steps: &mut Steps<K>,
) -> Result<Turn, StopOr>
    ensures turned { (rows : List Row) (before : views.Viewed) → sound.is_grouped query.now ≡ false → MayTurn query.now expectations.now rows delta.now before → counts.now ≡ before.counts → PlainAnswer query.now expectations.now rows delta.now before result }
    ensures looks { steps.new ≤ steps.old + (length delta.now.removed + length delta.now.added) }
{
    match plain_parts(alloc, query, delta, steps) {
        Ok(parts) => settle(alloc, expectations, counts, parts),
        Err(end) => Err(end),
    }
}

/// The turn by the patches of a change. After a stop they are taken back.
fn turn_by<K: Ledger>(
    groups: &mut Groups,
    counts: &Tallies,
    alloc: Global,
    query: &Query,
    expectations: &Expectations,
    patches: &Patches,
    steps: &mut Steps<K>,
) -> Result<Turn, StopOr>
    ensures turned { (rows : List Row) (change : Change) (before : views.Viewed) → sound.is_grouped query.now ≡ true → MayTurn query.now expectations.now rows change before → PatchesAnswer query.now change.removed change.added (Ok patches.now) → counts.now ≡ before.counts
        → KeepsShares query.now groups.old (shares_of query.now (in_row_order rows)) → GroupsAnswer query.now expectations.now rows change before groups.new result }
    ensures looks { steps.new ≤ steps.old + 2 * length (patched_groups patches.now) }
{
    let Ok(sides) = patches.apply(groups, alloc, query, steps) else {
        return Err(StopOr::Memory);
    };
    match settle_sides(alloc, expectations, counts, sides) {
        Ok(turn) => Ok(turn),
        Err(StopOr::Stop(stop)) => match patches.undo(groups, alloc, query, steps) {
            Ok(_) => Err(StopOr::Stop(stop)),
            Err(_) => Err(StopOr::Memory),
        },
        Err(StopOr::Memory) => Err(StopOr::Memory),
    }
}

/// The turn of a query that groups. After a stop the groups are as before.
fn turn_groups<K: Ledger>(
    groups: &mut Groups,
    counts: &Tallies,
    alloc: Global,
    query: &Query,
    expectations: &Expectations,
    delta: &Change,
    steps: &mut Steps<K>,
) -> Result<Turn, StopOr>
    ensures turned { (rows : List Row) (before : views.Viewed) → sound.is_grouped query.now ≡ true → MayTurn query.now expectations.now rows delta.now before → counts.now ≡ before.counts
        → KeepsShares query.now groups.old (shares_of query.now (in_row_order rows)) → GroupsAnswer query.now expectations.now rows delta.now before groups.new result }
    ensures looks { steps.new ≤ steps.old + (length delta.now.removed + length delta.now.added) + 2 * length (groups_of_change query.now delta.now) }
{
    match Patches::of_change(alloc, query, delta, steps) {
        Ok(patches) => turn_by(groups, counts, alloc, query, expectations, &patches, steps),
        Err(end) => Err(end),
    }
}

/// A copy of counts.
fn copy_tallies(alloc: Global, tallies: &Tallies) -> Result<Tallies, AllocError>
    ensures { IfOk result (λ copy. copy ≡ tallies.now) }
{
    let mut copy: Tallies = ListOf::new(alloc);
    for tally in tallies.as_slice() {
        copy.push(*tally)?;
    }
    Ok(copy)
}

/// The turn of a view by what is kept of it: a query that groups has groups.
fn turn_kept<K: Ledger>(
    groups: &mut Option<Groups>,
    counts: &Tallies,
    alloc: Global,
    query: &Query,
    expectations: &Expectations,
    delta: &Change,
    steps: &mut Steps<K>,
) -> Result<Turn, StopOr>
    ensures turned { (rows : List Row) (before : views.Viewed) → MayTurn query.now expectations.now rows delta.now before → counts.now ≡ before.counts
        → KeepsBy (sound.is_grouped query.now) groups.old query.now (shares_of query.now (in_row_order rows)) → KeptAnswer query.now expectations.now rows delta.now before groups.new result }
    ensures looks { steps.new ≤ steps.old + (length delta.now.removed + length delta.now.added) + 2 * length (touched_groups query.now delta.now) }
{
    if !is_grouped(query) {
        return turn_plain(counts, alloc, query, expectations, delta, steps);
    }
    match groups {
        Some(groups) => turn_groups(groups, counts, alloc, query, expectations, delta, steps),
        None => turn_plain(counts, alloc, query, expectations, delta, steps),
    }
}

impl View {
    /// What is kept of the view of a query over source rows, to turn it by later changes. A row that faults gives nothing: a
    /// view that something stops is no view that `turn` is owed of. Fails for want of memory alone.
    pub fn build(
        alloc: Global,
        query: &Query,
        expectations: &Expectations,
        rows: &Rows,
    ) -> Result<View, AllocError>
        ensures { IfOk result (λ view. StandsFor query.now expectations.now view rows.now) }
    {
        let groups = groups_of(alloc, query, rows)?;
        let counts = counts_of(alloc, query, expectations, rows)?;
        Ok(View { groups, counts })
    }

    /// Turns the view by a change of its source (Databricks documentation, incremental refresh for materialized views):
    /// answers the net difference of its rows and the counts of its expectations over the whole result after the change, or
    /// the stop of the view over the rows after it, and then the view is as before. The query and the expectations are those
    /// that it was built by. Ticks at most once a row of the change and twice a group that these rows are in. Memory comes
    /// where none is found, and then the view is of no more use.
    pub fn turn<K: Ledger>(
        &mut self,
        alloc: Global,
        query: &Query,
        expectations: &Expectations,
        delta: &Change,
        steps: &mut Steps<K>,
    ) -> Result<Turn, StopOr>
        ensures turned { (rows : List Row) (before : views.Viewed) → StandsFor query.now expectations.now self.old rows → MayTurn query.now expectations.now rows delta.now before → TurnAnswers query.now expectations.now rows delta.now before self.new result }
        ensures looks { steps.new ≤ steps.old + (length delta.now.removed + length delta.now.added) + 2 * length (touched_groups query.now delta.now) }
    {
        match turn_kept(
            &mut self.groups,
            &self.counts,
            alloc,
            query,
            expectations,
            delta,
            steps,
        ) {
            Ok(turn) => match copy_tallies(alloc, &turn.tallies) {
                Ok(counts) => {
                    self.counts = counts;
                    Ok(turn)
                }
                Err(_) => Err(StopOr::Memory),
            },
            Err(unturned) => Err(unturned),
        }
    }
}
