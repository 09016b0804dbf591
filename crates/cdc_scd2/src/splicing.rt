ghost use Rattle.std.specs.Prelude.{◌≡◌, ◌+◌, ◌*◌, ◌^◌, ◌<◌, ◌≤◌, ◌++◌, ℕ, [], None, IfOk, OnErr, OnOk, length, drop, take, unwrap_or};
ghost use Rattle.value_core.specs.Bags.{net_change};
ghost use Rattle.value_core.specs.EventOrder.{history_order, placed_by};
ghost use Rattle.event_history.specs.Histories.{AllAbove, AllBelow, events_of};
ghost use Rattle.flow_model.specs.Current.{after_event};
ghost use Rattle.flow_model.specs.History.{key_rows};
ghost use Rattle.cdc_scd2.specs.Looks.{touched};
ghost use Rattle.cdc_scd2.specs.Cache.{IsAbsent, IsCached, last_state, recached};

use crate::change::change_at;
use crate::zone::carry;
use cdc_runs::{after, effective};
use event_history::{Entry, History, Place};
use plan_core::Cdc;
use std::alloc::{AllocError, Global};
use std::sync::ledger::Ledger;
use value_core::{Change, Event, ListOf, Row, Steps};

/// The place where an event with a new sequence belongs.
fn place_of<L: Ledger>(history: &History, sequence: &Row, steps: &mut Steps<L>) -> usize
    requires { IsAbsent sequence.now history.now }
    ensures within { result ≤ length history.now }
    ensures below { AllBelow sequence.now (take result history.now) }
    ensures above { AllAbove sequence.now (drop result history.now) }
    ensures looks { (h : ℕ) → length history.now < 2 ^ h → steps.new ≤ steps.old + h }
{
    match history.find(sequence, steps) {
        Place::At(i) => i,
        Place::Between(i) => i,
    }
}

/// The effective columns after an event that is put at a place.
fn effective_at<L: Ledger>(
    alloc: Global,
    ignore_null: bool,
    history: &History,
    place: usize,
    event: &Event,
    steps: &mut Steps<L>,
) -> Result<Option<Row>, AllocError>
    requires { place ≤ length history.now }
    ensures columns { IfOk result (λ columns. columns ≡ after_event ignore_null (last_state None (take place history.now)) event.now) }
    ensures looks { OnOk result (steps.new ≤ steps.old + 1) }
{
    if place == 0 {
        let columns = effective(alloc, ignore_null, None, event)?;
        return Ok(columns);
    }
    let last = history.look(place - 1, steps);
    let columns = effective(alloc, ignore_null, after(last), event)?;
    Ok(columns)
}

/// Changes the effective columns from a place on.
fn set_columns(history: &mut History, from: usize, rows: Vec<Row>)
    requires { from + length rows.items ≤ length history.old }
    ensures { history.new ≡ take from history.old ++ recached (drop from history.old) rows.items }
{
    let mut left = rows;
    while let Some(row) = left.pop() {
        let _count = history.len();
        history.set_effective(from + left.len(), row);
    }
}

/// Puts an event into the history of its key, and answers what that does to the rows of the key: SCD type 2 (Databricks
/// documentation, AUTO CDC), by the flow's IGNORE NULL UPDATES and TRACK HISTORY ON. The event may come in any order. It
/// looks at the event's neighbours, and at the entries of a run or with effective columns only where the event changes
/// these. `Err` for want of memory alone; the history is as before then.
pub fn splice<L: Ledger>(
    alloc: Global,
    history: &mut History,
    flow: &Cdc,
    event: Event,
    steps: &mut Steps<L>,
) -> Result<Change, AllocError>
    requires absent { IsAbsent event.sequence history.old }
    requires cached { IsCached flow.now.ignore_null history.old }
    ensures events { OnOk result (events_of history.new ≡ placed_by history_order event (events_of history.old)) }
    ensures cached { OnOk result (IsCached flow.now.ignore_null history.new) }
    ensures change { IfOk result (λ change. change ≡ net_change (key_rows flow.now.ignore_null flow.now.tracked (events_of history.old)) (key_rows flow.now.ignore_null flow.now.tracked (events_of history.new))) }
    ensures looks { OnOk result ((h : ℕ) → length history.old < 2 ^ h → steps.new ≤ steps.old + 2 * h + 2 * touched flow.now.ignore_null flow.now.tracked (events_of history.old) event + 8) }
    ensures err { OnErr result (history.new ≡ history.old) }
{
    let change = splice_by(
        alloc,
        history,
        flow.ignore_null,
        flow.tracked.as_slice(),
        event,
        steps,
    )?;
    Ok(change)
}

/// The same, where the tracked places stand in a slice.
fn splice_by<L: Ledger>(
    alloc: Global,
    history: &mut History,
    ignore_null: bool,
    tracked: &[u32],
    event: Event,
    steps: &mut Steps<L>,
) -> Result<Change, AllocError>
    requires absent { IsAbsent event.sequence history.old }
    requires cached { IsCached ignore_null history.old }
    ensures events { OnOk result (events_of history.new ≡ placed_by history_order event (events_of history.old)) }
    ensures cached { OnOk result (IsCached ignore_null history.new) }
    ensures change { IfOk result (λ change. change ≡ net_change (key_rows ignore_null tracked.now (events_of history.old)) (key_rows ignore_null tracked.now (events_of history.new))) }
    ensures looks { OnOk result ((h : ℕ) → length history.old < 2 ^ h → steps.new ≤ steps.old + 2 * h + 2 * touched ignore_null tracked.now (events_of history.old) event + 8) }
    ensures err { OnErr result (history.new ≡ history.old) }
{
    let _count = history.len();
    let place = place_of(history, &event.sequence, steps);
    let columns = effective_at(alloc, ignore_null, history, place, &event, steps)?;
    let rows = carry(alloc, ignore_null, history, place, columns.as_ref(), steps)?;
    let entry = Entry {
        event,
        effective: row_or_none(alloc, columns),
    };
    let change = change_at(
        alloc,
        tracked,
        history,
        place,
        &entry,
        rows.as_slice(),
        steps,
    )?;
    history.put(place, entry)?;
    let _count = history.len();
    set_columns(history, place + 1, rows);
    Ok(change)
}

/// The columns, or none.
fn row_or_none(alloc: Global, columns: Option<Row>) -> Row
    ensures { result ≡ unwrap_or columns [] }
{
    match columns {
        Some(row) => row,
        None => ListOf::new(alloc),
    }
}
