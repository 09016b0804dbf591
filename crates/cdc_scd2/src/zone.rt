// The zone behind an event, where effective columns change, and what stands on both sides of it.
ghost use Rattle.std.specs.Prelude.{◌≡◌, ◌+◌, ◌-◌, ◌<◌, ◌≤◌, ◌++◌, ◌∷◌, [], IfOk, OnOk, length, drop, take, option_copied, option_to_list};
ghost use Rattle.event_history.specs.declared.history.Entry.{Entry};
ghost use Rattle.cdc_scd2.specs.Cache.{carried_on, last_or, recached};
ghost use Rattle.cdc_runs.specs.Entries.{moments_of};
ghost use Rattle.cdc_runs.specs.Runs as spec;

use cdc_runs::{after, effective, first_of, is_same, runs_on};
use event_history::{Entry, History};
use std::alloc::{AllocError, Global};
use std::sync::ledger::Ledger;
use value_core::{Row, Steps};

/// The last of some rows, or else this state.
fn last_of<'a>(state: Option<&'a Row>, rows: &'a [Row]) -> Option<&'a Row>
    ensures { option_copied result ≡ last_or (option_copied state.entry) rows.now }
{
    match rows.last() {
        Some(row) => Some(row),
        None => state,
    }
}

/// The new effective columns of the entries from a place on, as far as they differ from the cached
/// ones. It looks at these entries and at one more.
pub(crate) fn carry<L: Ledger>(
    alloc: Global,
    ignore_null: bool,
    history: &History,
    place: usize,
    first: Option<&Row>,
    steps: &mut Steps<L>,
) -> Result<Vec<Row>, AllocError>
    requires { place ≤ length history.now }
    ensures rows { IfOk result (λ rows. rows.items ≡ carried_on ignore_null (option_copied first.entry) (drop place history.now)) }
    ensures looks { IfOk result (λ rows. steps.new ≤ steps.old + length rows.items + 1) }
{
    let mut rows = Vec::new(alloc);
    for i in place..history.len() {
        let entry = history.look(i, steps);
        let next = effective(
            alloc,
            ignore_null,
            last_of(first, rows.as_slice()),
            &entry.event,
        )?;
        let Some(columns) = next else {
            return Ok(rows);
        };
        if is_same(after(entry), Some(&columns)) {
            return Ok(rows);
        }
        rows.push(columns)?;
    }
    Ok(rows)
}

/// An equal entry.
fn copy_entry(alloc: Global, entry: &Entry) -> Result<Entry, AllocError>
    ensures { IfOk result (λ copy. copy ≡ entry.now) }
{
    Ok(Entry {
        event: entry.event.copy(alloc)?,
        effective: entry.effective.copy(alloc)?,
    })
}

/// Copies of the entries from one place up to another.
pub(crate) fn copy_stretch<L: Ledger>(
    alloc: Global,
    history: &History,
    from: usize,
    to: usize,
    steps: &mut Steps<L>,
) -> Result<Vec<Entry>, AllocError>
    requires ordered { from ≤ to }
    requires within { to ≤ length history.now }
    ensures stretch { IfOk result (λ stretch. (stretch.items ++ drop to history.now ≡ drop from history.now) × (length stretch.items + from ≡ to)) }
    ensures looks { IfOk result (λ stretch. steps.new ≡ steps.old + length stretch.items) }
{
    let mut stretch = Vec::new(alloc);
    for i in from..to {
        stretch.push(copy_entry(alloc, history.look(i, steps))?)?;
    }
    Ok(stretch)
}

/// Puts copies of entries behind others.
fn put_copies(alloc: Global, into: &mut Vec<Entry>, entries: &[Entry]) -> Result<(), AllocError>
    ensures { OnOk result (into.new.items ≡ into.old.items ++ entries.now) }
{
    for entry in entries {
        into.push(copy_entry(alloc, entry)?)?;
    }
    Ok(())
}

/// Puts copies of entries behind others, with these effective columns in the place of theirs.
fn put_recached(
    alloc: Global,
    into: &mut Vec<Entry>,
    entries: &[Entry],
    rows: &[Row],
) -> Result<(), AllocError>
    ensures { OnOk result (into.new.items ≡ into.old.items ++ recached entries.now rows.now) }
{
    let mut left = entries;
    for row in rows {
        let Some((entry, more)) = left.split_first() else {
            return Ok(());
        };
        into.push(Entry {
            event: entry.event.copy(alloc)?,
            effective: row.copy(alloc)?,
        })?;
        left = more;
    }
    put_copies(alloc, into, left)
}

/// The stretch as it is with an entry behind its first entries, and these effective columns behind it.
pub(crate) fn respliced(
    alloc: Global,
    stretch: &[Entry],
    at: usize,
    entry: &Entry,
    rows: &[Row],
) -> Result<Vec<Entry>, AllocError>
    requires { at ≤ length stretch.now }
    ensures { IfOk result (λ new. new.items ≡ take at stretch.now ++ entry.now ∷ recached (drop at stretch.now) rows.now) }
{
    let mut new = Vec::new(alloc);
    let (before, behind) = stretch.split_at(at);
    put_copies(alloc, &mut new, before)?;
    new.push(copy_entry(alloc, entry)?)?;
    put_recached(alloc, &mut new, behind, rows)?;
    Ok(new)
}

/// Whether one run goes through all these entries and into the next one.
pub(crate) fn goes_through(tracked: &[u32], entries: &[Entry], next: Option<&Entry>) -> bool
    ensures { result ≡ spec.goes_through tracked.now (moments_of entries.now) (moments_of (option_to_list (option_copied next.entry))) }
{
    let mut left = entries;
    while let Some((entry, more)) = left.split_first() {
        let Some(columns) = after(entry) else {
            return false;
        };
        if !runs_on(tracked, columns, first_of(more, next)) {
            return false;
        }
        left = more;
    }
    true
}
