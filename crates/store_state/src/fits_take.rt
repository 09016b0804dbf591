// Which batches may follow.
ghost use Rattle.std.specs.Prelude.{◌≡◌, ◌↔◌, IsTrue, IfSome, is_some};
ghost use Rattle.store_state.specs.Places.{AreAmong};
ghost use Rattle.store_state.specs.Follows as follows;
ghost use Rattle.store_state.specs.Follows.{FitsTable, FlowMoves, IsReached, MovesOn, VersionMoves, FilesMove};
ghost use Rattle.store_state.specs.Parts.{joined};

use crate::contents::Contents;
use crate::find::{cursor_named, flow_named};
use crate::fits_define::is_append;
use crate::part::Part;
use commit_records::{Definition, StoredFlow, StoredOrigin, Take};
use value_core::{Column, Cursor, FilePlace, Name, Row, Tally};

/// The number that a count stays below.
const COUNT_LIMIT: u64 = 1 << 63;

/// Whether two numbers come to less than the limit of counts.
fn is_within(kept: u64, more: u64) -> bool
    ensures { result ≡ follows.is_within kept more }
{
    kept < COUNT_LIMIT && more < COUNT_LIMIT - kept
}

fn tally_fits(kept: &Tally, more: &Tally) -> bool
    ensures { result ≡ follows.tally_fits kept.now more.now }
{
    is_within(kept.passed, more.passed) && is_within(kept.failed, more.failed)
}

/// Whether there is one further count for each count, and none passes its limit.
fn counts_fit(counts: &[Tally], more: &[Tally]) -> bool
    ensures { result ≡ follows.counts_fit counts.now more.now }
{
    let mut rest = more;
    for kept in counts {
        let Some((tally, behind)) = rest.split_first() else {
            return false;
        };
        if !tally_fits(kept, tally) {
            return false;
        }
        rest = behind;
    }
    rest.is_empty()
}

/// Whether a row has one value a column, NULL or of its kind.
fn is_row_of(columns: &[Column], row: &Row) -> bool
    ensures { result ≡ follows.is_row_of columns.now row.now }
{
    let mut values = row.as_slice();
    for column in columns {
        let Some((value, rest)) = values.split_first() else {
            return false;
        };
        if !value.fits(column.kind) {
            return false;
        }
        values = rest;
    }
    values.is_empty()
}

fn all_fit(columns: &[Column], rows: &[Row]) -> bool
    ensures { result ≡ follows.all_fit columns.now rows.now }
{
    for row in rows {
        if !is_row_of(columns, row) {
            return false;
        }
    }
    true
}

/// Whether a place is of the same file, and not before the old one.
fn keeps_place(old: &FilePlace, new: &FilePlace) -> bool
    ensures { result ≡ follows.keeps_place old.now new.now }
{
    new.file.as_str() == old.file.as_str() && old.place <= new.place
}

/// What stands behind the first place that keeps the old one.
fn behind<'a>(old: &FilePlace, places: &'a [FilePlace]) -> Option<&'a [FilePlace]>
    ensures kept { is_some result ≡ follows.is_kept old.now places.now }
    ensures among { IfSome result (λ rest. AreAmong rest.now places.now) }
{
    let mut rest = places;
    while let Some((new, more)) = rest.split_first() {
        if keeps_place(old, new) {
            return Some(more);
        }
        rest = more;
    }
    None
}

/// The same, sought in what is left of the places, and where it isn't there in all of them.
fn next_of<'a>(
    old: &FilePlace,
    rest: &'a [FilePlace],
    places: &'a [FilePlace],
) -> Option<&'a [FilePlace]>
    requires { AreAmong rest.now places.now }
    ensures kept { is_some result ≡ follows.is_kept old.now places.now }
    ensures among { IfSome result (λ more. AreAmong more.now places.now) }
{
    match behind(old, rest) {
        Some(more) => Some(more),
        None => behind(old, places),
    }
}

/// Whether each file is among the new places, and not before its old place. Places ascend, so that each
/// is sought behind the one before it, and among all of them only where it isn't there.
fn none_falls(old: &[FilePlace], new: &[FilePlace]) -> bool
    ensures { result ≡ follows.none_falls old.now new.now }
{
    let mut rest = new;
    for place in old {
        match next_of(place, rest, new) {
            Some(more) => rest = more,
            None => return false,
        }
    }
    true
}

fn files_move(old: &Cursor, new: &Cursor) -> bool
    ensures { IsTrue result ↔ FilesMove old.now new.now }
{
    match (old, new) {
        (Cursor::Files(old), Cursor::Files(new)) => none_falls(old.as_slice(), new.as_slice()),
        _ => false,
    }
}

/// The rules of a batch that speak of its table alone.
fn fits_table(definition: &Definition, part: &Part, batch: &Take) -> bool
    ensures { IsTrue result ↔ FitsTable batch.now (joined definition.now part.now) }
{
    if !is_append(definition) {
        return false;
    }
    if !batch.change.removed.is_empty() {
        return false;
    }
    if !batch.events.is_empty() {
        return false;
    }
    if !all_fit(definition.columns.as_slice(), batch.change.added.as_slice()) {
        return false;
    }
    if batch.counts.len() != definition.expectations.len() {
        return false;
    }
    counts_fit(part.counts.as_slice(), batch.counts.as_slice())
}

impl Contents {
    ghost use Rattle.std.specs.Prelude.{IsSomeAnd};
    ghost use Rattle.store_state.specs.Dataset.{cursor_of, dataset_of, flow_of};
    ghost use Rattle.store_state.specs.Follows.{FitsTake};

    /// Whether a dataset is there and has come to a version.
    fn is_reached(&self, source: &Name, version: u64) -> bool
        ensures { IsTrue result ↔ IsReached self.now source.now version }
    {
        match self.find(source) {
            Some((_, part)) => version <= part.table.now(),
            None => false,
        }
    }

    fn version_moves(&self, source: &Name, old: &Cursor, new: &Cursor) -> bool
        ensures { IsTrue result ↔ VersionMoves self.now source.now old.now new.now }
    {
        match (old, new) {
            (Cursor::Never, Cursor::Never) => true,
            (Cursor::Never, Cursor::At(version)) => self.is_reached(source, *version),
            (Cursor::At(old), Cursor::At(version)) => {
                *old <= *version && self.is_reached(source, *version)
            }
            _ => false,
        }
    }

    fn moves_on(&self, origin: &StoredOrigin, old: &Cursor, new: &Cursor) -> bool
        ensures { IsTrue result ↔ MovesOn self.now origin.now old.now new.now }
    {
        match origin {
            StoredOrigin::Folder(_) => files_move(old, new),
            StoredOrigin::Table(source) => self.version_moves(source, old, new),
        }
    }

    /// Whether the flow of a batch is one of its table's, and goes on from where it was.
    fn flow_moves(&self, definition: &Definition, part: &Part, batch: &Take) -> bool
        ensures { IsTrue result ↔ FlowMoves self.now (flow_of (joined definition.now part.now) batch.now.flow) (cursor_of (joined definition.now part.now) batch.now.flow) batch.now.cursor }
    {
        let flows = definition.flows.as_slice();
        let Some(flow) = flow_named(flows, &batch.flow) else {
            return false;
        };
        let Some(old) = cursor_named(flows, part.cursors.as_slice(), &batch.flow) else {
            return false;
        };
        self.moves_on(&flow.origin, old, &batch.cursor)
    }

    fn fits_into(&self, definition: &Definition, part: &Part, batch: &Take) -> bool
        ensures { IsTrue result ↔ FitsTake self.now batch.now (joined definition.now part.now) }
    {
        fits_table(definition, part, batch) && self.flow_moves(definition, part, batch)
    }

    pub(crate) fn fits_take(&self, batch: &Take) -> bool
        ensures { IsTrue result ↔ IsSomeAnd (dataset_of self.now batch.now.table) (FitsTake self.now batch.now) }
    {
        match self.find(&batch.table) {
            Some((definition, part)) => self.fits_into(definition, part, batch),
            None => false,
        }
    }
}
