// Whether a flow can go on from where it stands.
ghost use Rattle.std.specs.Prelude.{◌≡◌, ◌↔◌, IfOk, IsSomeAnd, IsTrue, find};
ghost use Rattle.std.specs.Option.{option_copied};
ghost use Rattle.table_versions.specs.Versions.{IsKept, changes_since};
ghost use Rattle.pair_store.specs.Store.{store_state};
ghost use Rattle.state_model.specs.Dataset.{Dataset, dataset_of, is_flow};
ghost use Rattle.state_steps.specs.Consumed.{RemoveNone};
ghost use Rattle.store_fitness.specs.Fitness.{CanGoOn, FlowFits, PositionFits, ReadsOn};

use commit_payloads::{Definition, StoredBody, StoredFlow, StoredOrigin};
use pair_store::Store;
use std::alloc::{AllocError, Global};
use std::sync::ledger::Ledger;
use table_versions::{Table, VersionEnd};
use value_core::{Change, Cursor, Name, Steps};

/// Whether no change removes a row.
fn remove_none(changes: &[Change]) -> bool
    ensures { IsTrue result ↔ RemoveNone changes.now }
{
    let mut left = changes;
    while let Some((change, more)) = left.split_first() {
        if !change.removed.is_empty() {
            return false;
        }
        left = more;
    }
    true
}

/// Whether a table keeps a version.
fn keeps(table: &Table, version: u64) -> bool
    ensures { IsTrue result ↔ IsKept table.now version }
{
    if version < table.base() {
        return false;
    }
    version <= table.now()
}

/// Whether no row was removed after a version that is kept.
fn is_streamed<K: Ledger>(
    alloc: Global,
    table: &Table,
    version: u64,
    steps: &mut Steps<K>,
) -> Result<bool, AllocError>
    requires { IsKept table.now version }
    ensures { IfOk result (λ streamed. IsTrue streamed ↔ RemoveNone (changes_since table.now version)) }
{
    match table.since(alloc, version, steps) {
        Ok(changes) => Ok(remove_none(changes.as_slice())),
        Err(VersionEnd::NoVersion { .. }) => unreachable!(),
        Err(VersionEnd::Memory) => Err(AllocError),
    }
}

/// Whether a flow of a dataset of this body can go on from a version of its source.
fn can_go_on<K: Ledger>(
    alloc: Global,
    body: StoredBody,
    table: &Table,
    version: u64,
    steps: &mut Steps<K>,
) -> Result<bool, AllocError>
    ensures { (source : Dataset) → source.table ≡ table.now → IfOk result (λ can. IsTrue can ↔ CanGoOn body version source) }
{
    if !keeps(table, version) {
        return Ok(false);
    }
    match body {
        StoredBody::View => Ok(true),
        StoredBody::Append => is_streamed(alloc, table, version, steps),
        StoredBody::Scd1 => is_streamed(alloc, table, version, steps),
        StoredBody::Scd2 => is_streamed(alloc, table, version, steps),
    }
}

/// Whether it can go on from a version of the dataset of a name.
fn version_fits<K: Ledger>(
    alloc: Global,
    store: &Store,
    body: StoredBody,
    source: &Name,
    version: u64,
    steps: &mut Steps<K>,
) -> Result<bool, AllocError>
    ensures { IfOk result (λ fits. IsTrue fits ↔ IsSomeAnd (dataset_of (store_state store.now) source.now) (CanGoOn body version)) }
{
    match store.table(source) {
        None => Ok(false),
        Some(table) => can_go_on(alloc, body, table, version, steps),
    }
}

/// Whether it can go on from a position.
fn position_fits<K: Ledger>(
    alloc: Global,
    store: &Store,
    body: StoredBody,
    origin: &StoredOrigin,
    cursor: &Cursor,
    steps: &mut Steps<K>,
) -> Result<bool, AllocError>
    ensures { IfOk result (λ fits. IsTrue fits ↔ PositionFits (store_state store.now) body origin.now cursor.now) }
{
    match (origin, cursor) {
        (StoredOrigin::Table(source), Cursor::At(version)) => {
            version_fits(alloc, store, body, source, *version, steps)
        }
        _ => Ok(true),
    }
}

/// The first flow of a name.
fn flow_named<'a>(flows: &'a [StoredFlow], name: &Name) -> Option<&'a StoredFlow>
    ensures { option_copied result ≡ find (is_flow name.now) flows.now }
{
    let mut left = flows;
    while let Some((flow, more)) = left.split_first() {
        if flow.name.is_same(name) {
            return Some(flow);
        }
        left = more;
    }
    None
}

/// Whether the flow of a name of a dataset can go on from where it stands.
fn flow_fits<K: Ledger>(
    alloc: Global,
    store: &Store,
    definition: &Definition,
    name: &Name,
    steps: &mut Steps<K>,
) -> Result<bool, AllocError>
    ensures { IfOk result (λ fits. IsTrue fits ↔ FlowFits (store_state store.now) definition.now name.now) }
{
    let Some(flow) = flow_named(definition.flows.as_slice(), name) else {
        return Ok(true);
    };
    let Some(cursor) = store.cursor(&definition.name, name) else {
        return Ok(true);
    };
    position_fits(alloc, store, definition.body, &flow.origin, cursor, steps)
}

/// Whether each flow of a dataset can go on from where it stands.
pub(crate) fn reads_on<K: Ledger>(
    alloc: Global,
    store: &Store,
    definition: &Definition,
    steps: &mut Steps<K>,
) -> Result<bool, AllocError>
    ensures { IfOk result (λ reads. IsTrue reads ↔ ReadsOn (store_state store.now) definition.now) }
{
    let mut left = definition.flows.as_slice();
    while let Some((flow, more)) = left.split_first() {
        if !flow_fits(alloc, store, definition, &flow.name, steps)? {
            return Ok(false);
        }
        left = more;
    }
    Ok(true)
}
