// The change of rows that a splice makes.
ghost use Rattle.std.specs.Prelude.{◌≡◌, ◌+◌, ◌<◌, ◌≤◌, ◌++◌, ◌∷◌, [], IfOk, OnOk, length, drop, map, option_copied, option_to_list, Some, slice_get, take, unwrap_or};
ghost use Rattle.value_core.specs.Bags.{net_change};
ghost use Rattle.cdc_runs.specs.Entries.{IsRunFrom, moments_of};
ghost use Rattle.cdc_scd2.specs.Splices.{BeginsAs, Closes, Turns, rows_of, spliced};
ghost use Rattle.cdc_scd2.specs.Splices as spec;
ghost use Rattle.cdc_scd2.specs.Pays.{LooksBack, LooksBehind, LooksTo, Pays, PaysFirst, PaysLater};
ghost use Rattle.cdc_runs.specs.Runs.{left_open};

use crate::zone::{copy_stretch, goes_through, respliced};
use cdc_runs::{after, end_runs, is_same, row_of, run_end, run_start, sequence_of, start_of};
use event_history::{Entry, History};
use net_changes::net;
use std::alloc::{AllocError, Global};
use std::sync::ledger::Ledger;
use value_core::{Change, ListOf, Row, Rows, Steps};

/// The entry at a place, if there is one.
fn entry_at<'a, L: Ledger>(
    history: &'a History,
    place: usize,
    steps: &mut Steps<L>,
) -> Option<&'a Entry>
    ensures entry { option_copied result ≡ slice_get history.now place }
    ensures looks { steps.new ≤ steps.old + 1 }
{
    if place < history.len() {
        Some(history.look(place, steps))
    } else {
        None
    }
}

/// The entry behind a place, if there is one.
fn entry_behind<'a, L: Ledger>(
    history: &'a History,
    place: usize,
    steps: &mut Steps<L>,
) -> Option<&'a Entry>
    requires { place < length history.now }
    ensures entry { option_copied result ≡ slice_get history.now (place + 1) }
    ensures looks { steps.new ≤ steps.old + 1 }
{
    let count = history.len();
    if place + 1 < count {
        Some(history.look(place + 1, steps))
    } else {
        None
    }
}

/// Adds the row of the run that an entry stands in, as it was and as it is, where it now began at
/// another sequence.
fn close_run<L: Ledger>(
    alloc: Global,
    tracked: &[u32],
    history: &History,
    place: usize,
    was: &Row,
    is: &Row,
    removed: &mut Rows,
    added: &mut Rows,
    steps: &mut Steps<L>,
) -> Result<(), AllocError>
    requires { place < length history.now }
    ensures rows { OnOk result (Closes tracked.now (moments_of (drop place history.now)) (Some was.now) (Some is.now) removed.old removed.new added.old added.new) }
    ensures looks { OnOk result (LooksTo tracked.now history.now place steps.new steps.old) }
{
    let end = run_end(tracked, history, place, steps);
    let last = history.look(end, steps);
    let Some(columns) = after(last) else {
        return Ok(());
    };
    let next = entry_behind(history, end, steps);
    removed.push(row_of(alloc, columns, was, sequence_of(next))?)?;
    added.push(row_of(alloc, columns, is, sequence_of(next))?)?;
    Ok(())
}

/// Adds the row of the first run behind a place where it began at another sequence than before.
fn close_first<L: Ledger>(
    alloc: Global,
    tracked: &[u32],
    history: &History,
    place: usize,
    was: Option<Row>,
    is: Option<Row>,
    removed: &mut Rows,
    added: &mut Rows,
    steps: &mut Steps<L>,
) -> Result<(), AllocError>
    requires { place ≤ length history.now }
    ensures rows { OnOk result (Closes tracked.now (moments_of (drop place history.now)) was is removed.old removed.new added.old added.new) }
    ensures looks { OnOk result (LooksBehind tracked.now history.now place was is 1 steps.new steps.old) }
{
    let Some(entry) = entry_at(history, place, steps) else {
        return Ok(());
    };
    let Some(_columns) = after(entry) else {
        return Ok(());
    };
    let old = start_of(alloc, was, entry)?;
    let new = start_of(alloc, is, entry)?;
    if old == new {
        return Ok(());
    }
    close_run(
        alloc, tracked, history, place, &old, &new, removed, added, steps,
    )?;
    Ok(())
}

/// The net change of a stretch of a history and the run behind it.
fn turn<L: Ledger>(
    alloc: Global,
    tracked: &[u32],
    history: &History,
    place: usize,
    since: Option<&Row>,
    old: &[Entry],
    new: &[Entry],
    steps: &mut Steps<L>,
) -> Result<Change, AllocError>
    requires { place ≤ length history.now }
    ensures change { IfOk result (λ change. Turns tracked.now (option_copied since.entry) (moments_of old.now) (moments_of new.now) (moments_of (drop place history.now)) change) }
    ensures looks { OnOk result (LooksBehind tracked.now history.now place (left_open tracked.now (option_copied since.entry) (moments_of old.now) (moments_of (drop place history.now))) (left_open tracked.now (option_copied since.entry) (moments_of new.now) (moments_of (drop place history.now))) 2 steps.new steps.old) }
{
    let mut removed: Rows = ListOf::new(alloc);
    let mut added: Rows = ListOf::new(alloc);
    let next = entry_at(history, place, steps);
    let was = end_runs(
        alloc,
        tracked,
        copy_of(alloc, since)?,
        old,
        next,
        &mut removed,
    )?;
    let is = end_runs(
        alloc,
        tracked,
        copy_of(alloc, since)?,
        new,
        next,
        &mut added,
    )?;
    close_first(
        alloc,
        tracked,
        history,
        place,
        was,
        is,
        &mut removed,
        &mut added,
        steps,
    )?;
    let change = net(alloc, removed, added)?;
    Ok(change)
}

/// An equal sequence, if there is one.
fn copy_of(alloc: Global, since: Option<&Row>) -> Result<Option<Row>, AllocError>
    ensures { IfOk result (λ copy. copy ≡ option_copied since.entry) }
{
    match since {
        None => Ok(None),
        Some(row) => Ok(Some(row.copy(alloc)?)),
    }
}

/// Where the run began that goes on into an entry, if it has columns.
fn began<L: Ledger>(
    alloc: Global,
    tracked: &[u32],
    history: &History,
    place: usize,
    steps: &mut Steps<L>,
) -> Result<Option<Row>, AllocError>
    requires { place < length history.now }
    ensures begins { IfOk result (λ since. BeginsAs tracked.now history.now place since) }
    ensures looks { OnOk result (LooksBack tracked.now history.now place steps.new steps.old) }
{
    let entry = history.look(place, steps);
    let Some(_columns) = after(entry) else {
        return Ok(None);
    };
    let start = run_start(tracked, history, place, steps);
    let first = history.look(start, steps);
    Ok(Some(first.event.sequence.copy(alloc)?))
}

/// Whether one entry is there, and then another one behind it with the same columns.
fn is_quiet(old: &[Entry], new: &[Entry]) -> bool
    ensures { result ≡ spec.is_quiet old.now new.now }
{
    let Some((last, zone)) = old.split_first() else {
        return false;
    };
    let Some((_, more)) = new.split_first() else {
        return false;
    };
    let Some((entry, rest)) = more.split_first() else {
        return false;
    };
    zone.is_empty() && rest.is_empty() && is_same(after(last), after(entry))
}

/// Whether an entry behind the first one of a stretch leaves each row as it is.
fn leaves_rows(tracked: &[u32], old: &[Entry], new: &[Entry], next: Option<&Entry>) -> bool
    ensures { result ≡ spec.leaves_rows tracked.now old.now new.now (option_to_list (option_copied next.entry)) }
{
    if is_quiet(old, new) {
        return true;
    }
    goes_through(tracked, old, next) && goes_through(tracked, new, next)
}

/// The change of rows where there is no entry before.
fn first_change<L: Ledger>(
    alloc: Global,
    tracked: &[u32],
    history: &History,
    entry: &Entry,
    rows: &[Row],
    steps: &mut Steps<L>,
) -> Result<Change, AllocError>
    requires { length rows.now ≤ length history.now }
    ensures change { IfOk result (λ change. change ≡ net_change (rows_of tracked.now history.now) (rows_of tracked.now (spliced history.now 0 entry.now rows.now))) }
    ensures looks { OnOk result (PaysFirst tracked.now history.now entry.now rows.now steps.new steps.old) }
{
    let end = rows.len();
    let old = copy_stretch(alloc, history, 0, end, steps)?;
    let new = respliced(alloc, old.as_slice(), 0, entry, rows)?;
    let change = turn(
        alloc,
        tracked,
        history,
        end,
        None,
        old.as_slice(),
        new.as_slice(),
        steps,
    )?;
    Ok(change)
}

/// The change of rows where there is an entry before.
fn later_change<L: Ledger>(
    alloc: Global,
    tracked: &[u32],
    history: &History,
    place: usize,
    entry: &Entry,
    rows: &[Row],
    steps: &mut Steps<L>,
) -> Result<Change, AllocError>
    requires some { 0 < place }
    requires within { place + length rows.now ≤ length history.now }
    ensures change { IfOk result (λ change. change ≡ net_change (rows_of tracked.now history.now) (rows_of tracked.now (spliced history.now place entry.now rows.now))) }
    ensures looks { OnOk result (PaysLater tracked.now history.now place entry.now rows.now steps.new steps.old) }
{
    let _count = history.len();
    let end = place + rows.len();
    let old = copy_stretch(alloc, history, place - 1, end, steps)?;
    let new = respliced(alloc, old.as_slice(), 1, entry, rows)?;
    let next = entry_at(history, end, steps);
    if leaves_rows(tracked, old.as_slice(), new.as_slice(), next) {
        return Ok(Change {
            removed: ListOf::new(alloc),
            added: ListOf::new(alloc),
        });
    }
    let since = began(alloc, tracked, history, place - 1, steps)?;
    let change = turn(
        alloc,
        tracked,
        history,
        end,
        since.as_ref(),
        old.as_slice(),
        new.as_slice(),
        steps,
    )?;
    Ok(change)
}

/// The net change of rows where an entry is put at a place, and these effective columns behind it.
pub(crate) fn change_at<L: Ledger>(
    alloc: Global,
    tracked: &[u32],
    history: &History,
    place: usize,
    entry: &Entry,
    rows: &[Row],
    steps: &mut Steps<L>,
) -> Result<Change, AllocError>
    requires { place + length rows.now ≤ length history.now }
    ensures change { IfOk result (λ change. change ≡ net_change (rows_of tracked.now history.now) (rows_of tracked.now (spliced history.now place entry.now rows.now))) }
    ensures looks { OnOk result (Pays tracked.now history.now place entry.now rows.now steps.new steps.old) }
{
    if place == 0 {
        let change = first_change(alloc, tracked, history, entry, rows, steps)?;
        return Ok(change);
    }
    let change = later_change(alloc, tracked, history, place, entry, rows, steps)?;
    Ok(change)
}
