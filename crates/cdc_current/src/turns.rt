// Events that come to their keys, one after another.
ghost use Rattle.std.specs.Prelude.{◌≡◌, ◌++◌, Bool, List, [], IfOk, OnOk};
ghost use Rattle.std.specs.Map.{values_of};
ghost use Rattle.value_core.specs.declared.event.Event.{Event as AnEvent};
ghost use Rattle.value_core.specs.declared.event.EventKind.TheVariants.{Delete, Truncate, Upsert};
ghost use Rattle.cdc_scd1.specs.Stamps.{latest as the_latest, stamped_by};
ghost use Rattle.cdc_current.specs.Keeping.{IsBalanced, Keeps, SetsKey, Takes, keeping, own_stamps, rows_kept, rows_under};

use crate::keys::KeyState;
use crate::rows::{all_rows, one_row, row_of};
use crate::sequences::latest;
use std::alloc::{AllocError, Global};
use std::collections::BTreeMap;
use value_core::{Change, Event, EventKind, Row};

/// What is kept of the key of a delete, after it.
fn after_delete(
    alloc: Global,
    keys: &BTreeMap<Row, KeyState>,
    event: &Event,
) -> Result<KeyState, AllocError>
    ensures { (ignore_null : Bool) → IfOk result (λ state. state ≡ stamped_by ignore_null (own_stamps event.now.key keys.now.entries) event.now Delete) }
{
    match keys.get(&event.key) {
        Some(state) => {
            let state = state.with_delete(alloc, event)?;
            Ok(state)
        }
        None => {
            let state = KeyState::new(alloc).with_delete(alloc, event)?;
            Ok(state)
        }
    }
}

/// What is kept of the key of an upsert, after it.
fn after_upsert(
    alloc: Global,
    ignore_null: bool,
    keys: &BTreeMap<Row, KeyState>,
    event: &Event,
) -> Result<KeyState, AllocError>
    ensures { IfOk result (λ state. state ≡ stamped_by ignore_null (own_stamps event.now.key keys.now.entries) event.now Upsert) }
{
    match keys.get(&event.key) {
        Some(state) => {
            let state = state.with_upsert(alloc, ignore_null, event)?;
            Ok(state)
        }
        None => {
            let state = KeyState::new(alloc).with_upsert(alloc, ignore_null, event)?;
            Ok(state)
        }
    }
}

/// Keeps this of a key in the place of what was kept, and answers the row that goes and the one that comes.
fn put(
    alloc: Global,
    truncated: &Option<Row>,
    keys: &mut BTreeMap<Row, KeyState>,
    key: &Row,
    state: KeyState,
) -> Result<Change, AllocError>
    ensures sets { OnOk result (SetsKey key.now state keys.old.entries keys.new.entries) }
    ensures balance { IfOk result (λ change. IsBalanced (rows_under truncated.now (values_of keys.old.entries)) (rows_under truncated.now (values_of keys.new.entries)) change.removed change.added) }
{
    let before = row_of(alloc, truncated, keys, key)?;
    let after = state.row(alloc, truncated)?;
    let removed = one_row(alloc, before)?;
    let added = one_row(alloc, after)?;
    let key = key.copy(alloc)?;
    keys.insert(key, state)?;
    Ok(Change { removed, added })
}

/// Takes a truncate, and answers all rows before it and all after it.
fn truncate(
    alloc: Global,
    truncated: &mut Option<Row>,
    keys: &BTreeMap<Row, KeyState>,
    event: &Event,
) -> Result<Change, AllocError>
    ensures greatest { OnOk result (truncated.new ≡ the_latest truncated.old event.now.sequence) }
    ensures balance { IfOk result (λ change. IsBalanced (rows_under truncated.old (values_of keys.now.entries)) (rows_under truncated.new (values_of keys.now.entries)) change.removed change.added) }
{
    let removed = all_rows(alloc, truncated, keys)?;
    let greatest = latest(alloc, truncated, &event.sequence)?;
    let added = all_rows(alloc, &greatest, keys)?;
    *truncated = greatest;
    Ok(Change { removed, added })
}

/// Takes an event, and answers rows that go and rows that come.
fn turn(
    alloc: Global,
    ignore_null: bool,
    truncated: &mut Option<Row>,
    keys: &mut BTreeMap<Row, KeyState>,
    event: &Event,
) -> Result<Change, AllocError>
    ensures takes { OnOk result (Takes event.now (keeping ignore_null truncated.old keys.old.entries) (keeping ignore_null truncated.new keys.new.entries)) }
    ensures balance { IfOk result (λ change. IsBalanced (rows_under truncated.old (values_of keys.old.entries)) (rows_under truncated.new (values_of keys.new.entries)) change.removed change.added) }
{
    match event.kind {
        EventKind::Truncate => {
            let change = truncate(alloc, truncated, keys, event)?;
            Ok(change)
        }
        EventKind::Delete => {
            let state = after_delete(alloc, keys, event)?;
            let change = put(alloc, truncated, keys, &event.key, state)?;
            Ok(change)
        }
        EventKind::Upsert => {
            let state = after_upsert(alloc, ignore_null, keys, event)?;
            let change = put(alloc, truncated, keys, &event.key, state)?;
            Ok(change)
        }
    }
}

/// Takes events, one after another, and puts the rows that go and come behind `removed` and `added`.
pub(crate) fn turn_all(
    alloc: Global,
    ignore_null: bool,
    truncated: &mut Option<Row>,
    keys: &mut BTreeMap<Row, KeyState>,
    events: &[Event],
    removed: &mut Vec<Row>,
    added: &mut Vec<Row>,
) -> Result<(), AllocError>
    requires none { (removed.old.items ≡ []) × (added.old.items ≡ []) }
    ensures kept { OnOk result ((kept : List AnEvent) → Keeps (keeping ignore_null truncated.old keys.old.entries) kept → Keeps (keeping ignore_null truncated.new keys.new.entries) (kept ++ events.now)) }
    ensures balance { OnOk result (IsBalanced (rows_kept (keeping ignore_null truncated.old keys.old.entries)) (rows_kept (keeping ignore_null truncated.new keys.new.entries)) removed.new.items added.new.items) }
{
    let mut left = events;
    while let Some((event, more)) = left.split_first() {
        let change = turn(alloc, ignore_null, truncated, keys, event)?;
        left = more;
        removed.append(&mut change.removed.into_vec())?;
        added.append(&mut change.added.into_vec())?;
    }
    Ok(())
}
