// Which saved datasets may begin a log.
ghost use Rattle.std.specs.Prelude.{◌≡◌, ◌↔◌, ◌+◌, ◌≤◌, ◌^◌, [], IfOk, IsTrue, length};
ghost use Rattle.std.specs.List.{list_all};
ghost use Rattle.value_core.specs.declared.cursor.Cursor.TheVariants.{Files, Never};
ghost use Rattle.state_model.specs.After.{begun_cursor};
ghost use Rattle.state_model.specs.Follows as rules;
ghost use Rattle.state_model.specs.Follows.{CursorsFit, FilesMove, FitsStored, IsReached, IsStore, MovesOn, VersionMoves};
ghost use Rattle.state_model.specs.Saved.{joined, read_back};
ghost use Rattle.payload_parts.specs.Stored.{HasNoStrayEvents, IsShaped};

use crate::bag::changes_follow;
use crate::definitions::{are_distinct, keeps_events};
use crate::events::events_fit;
use crate::rows::{all_fit, are_counts};
use commit_payloads::{DatasetState, Definition, State, StoredFlow, StoredOrigin};
use std::alloc::{AllocError, Global};
use value_core::{Change, Cursor, Name};

/// The version at which a dataset takes no further one.
const VERSION_LIMIT: u64 = 1 << 62;

/// Whether the rows that changes add are rows of a table.
fn changes_fit(definition: &Definition, changes: &[Change]) -> bool
    ensures { result ≡ list_all (λ change. rules.all_fit definition.now.columns change.added) changes.now }
{
    for change in changes {
        if !all_fit(definition.columns.as_slice(), change.added.as_slice()) {
            return false;
        }
    }
    true
}

/// Whether a saved dataset has come to a version.
fn has_come_to(state: &DatasetState, version: u64) -> bool
    ensures { IsTrue result ↔ (version ≤ state.now.base + length state.now.changes) }
{
    version.saturating_sub(state.base) <= state.changes.len() as u64
}

/// Whether a dataset of a saved store is there and has come to a version.
fn is_reached(store: &State, source: &Name, version: u64) -> bool
    ensures { IsTrue result ↔ IsReached (read_back store.now) source.now version }
{
    let mut states = store.states.as_slice();
    for definition in store.list.as_slice() {
        let Some((state, more)) = states.split_first() else {
            return false;
        };
        if definition.name.is_same(source) {
            return has_come_to(state, version);
        }
        states = more;
    }
    false
}

/// Whether a cursor is one over files.
fn is_of_files(cursor: &Cursor) -> bool
    ensures { IsTrue result ↔ FilesMove (Files []) cursor.now }
{
    match cursor {
        Cursor::Files(_) => true,
        Cursor::At(_) => false,
        Cursor::Never => false,
    }
}

/// Whether a cursor is one over a dataset, and that has come to its version.
fn is_of_versions(store: &State, source: &Name, cursor: &Cursor) -> bool
    ensures { IsTrue result ↔ VersionMoves (read_back store.now) source.now Never cursor.now }
{
    match cursor {
        Cursor::Files(_) => false,
        Cursor::At(version) => is_reached(store, source, *version),
        Cursor::Never => true,
    }
}

/// Whether a cursor has the form of its flow's origin, and its source has come to its version.
fn stands(store: &State, flow: &StoredFlow, cursor: &Cursor) -> bool
    ensures { IsTrue result ↔ MovesOn (read_back store.now) flow.now.origin (begun_cursor flow.now.origin) cursor.now }
{
    match &flow.origin {
        StoredOrigin::Folder(_) => is_of_files(cursor),
        StoredOrigin::Table(source) => is_of_versions(store, source, cursor),
    }
}

/// Whether there is one cursor a flow, and each stands.
fn cursors_fit(store: &State, flows: &[StoredFlow], cursors: &[Cursor]) -> bool
    ensures { IsTrue result ↔ CursorsFit (read_back store.now) flows.now cursors.now }
{
    let mut rest = cursors;
    for flow in flows {
        let Some((cursor, more)) = rest.split_first() else {
            return false;
        };
        if !stands(store, flow, cursor) {
            return false;
        }
        rest = more;
    }
    rest.is_empty()
}

/// Whether a saved dataset's version is at or below the limit.
fn is_below_limit(state: &DatasetState) -> bool
    ensures { IsTrue result ↔ (state.now.base + length state.now.changes ≤ 2 ^ 62) }
{
    state.base <= VERSION_LIMIT && state.changes.len() as u64 <= VERSION_LIMIT - state.base
}

/// Whether only a change feed has events.
fn has_no_stray_events(definition: &Definition, state: &DatasetState) -> bool
    ensures { IsTrue result ↔ HasNoStrayEvents definition.now state.now }
{
    if keeps_events(definition) {
        return true;
    }
    state.events.is_empty()
}

/// Whether a saved dataset is of the defined shape.
fn has_shape(store: &State, definition: &Definition, state: &DatasetState) -> bool
    ensures { IsTrue result ↔ IsShaped store.now definition.now state.now }
{
    if !is_below_limit(state) {
        return false;
    }
    if !all_fit(definition.columns.as_slice(), state.rows.as_slice()) {
        return false;
    }
    if !changes_fit(definition, state.changes.as_slice()) {
        return false;
    }
    if !cursors_fit(store, definition.flows.as_slice(), state.cursors.as_slice()) {
        return false;
    }
    if state.counts.len() != definition.expectations.len() {
        return false;
    }
    if !are_counts(definition.expectations.as_slice(), state.counts.as_slice()) {
        return false;
    }
    has_no_stray_events(definition, state)
}

/// Whether a saved dataset may be one of a store.
fn is_stored(
    alloc: Global,
    store: &State,
    definition: &Definition,
    state: &DatasetState,
) -> Result<bool, AllocError>
    ensures { IfOk result (λ is. IsTrue is ↔ FitsStored (read_back store.now) (joined definition.now state.now)) }
{
    if !has_shape(store, definition, state) {
        return Ok(false);
    }
    if !events_fit(alloc, definition, state.events.as_slice())? {
        return Ok(false);
    }
    let follow = changes_follow(alloc, state.rows.as_slice(), state.changes.as_slice())?;
    Ok(follow)
}

/// Whether saved datasets are what a store may be: no two of one name, and each with its rows, changes, cursors, counts
/// and events as its definition wants them. There is one state a definition. `Err` for want of memory alone: it takes, dataset after dataset, a copy of
/// each row.
pub fn is_store(alloc: Global, store: &State) -> Result<bool, AllocError>
    requires { length store.now.states ≡ length store.now.list }
    ensures { IfOk result (λ is. IsTrue is ↔ IsStore (read_back store.now)) }
{
    if !are_distinct(store.list.as_slice()) {
        return Ok(false);
    }
    let mut states = store.states.as_slice();
    for definition in store.list.as_slice() {
        let Some((state, more)) = states.split_first() else {
            return Ok(true);
        };
        if !is_stored(alloc, store, definition, state)? {
            return Ok(false);
        }
        states = more;
    }
    Ok(true)
}
