// Equal values of what a store keeps.
ghost use Rattle.std.specs.Prelude.{◌≡◌, IfOk};

use commit_payloads::{
    Definition, Definitions, StoredExpectation, StoredExpectations, StoredFlow, StoredFlows,
    StoredOrigin,
};
use std::alloc::{AllocError, Global};
use value_core::{Cursor, Cursors, Events, Kind, Kinds, ListOf, Numbers, Tallies, Tally};

fn copy_expectations(
    alloc: Global,
    expectations: &[StoredExpectation],
) -> Result<StoredExpectations, AllocError>
    ensures { IfOk result (λ copies. copies ≡ expectations.now) }
{
    let mut copies = ListOf::new(alloc);
    for expectation in expectations {
        copies.push(StoredExpectation {
            name: expectation.name.copy(alloc)?,
            action: expectation.action,
        })?;
    }
    Ok(copies)
}

fn copy_origin(alloc: Global, origin: &StoredOrigin) -> Result<StoredOrigin, AllocError>
    ensures { IfOk result (λ copy. copy ≡ origin.now) }
{
    Ok(match origin {
        StoredOrigin::Folder(dir) => StoredOrigin::Folder(dir.copy(alloc)?),
        StoredOrigin::Table(name) => StoredOrigin::Table(name.copy(alloc)?),
    })
}

fn copy_flows(alloc: Global, flows: &[StoredFlow]) -> Result<StoredFlows, AllocError>
    ensures { IfOk result (λ copies. copies ≡ flows.now) }
{
    let mut copies = ListOf::new(alloc);
    for flow in flows {
        copies.push(StoredFlow {
            name: flow.name.copy(alloc)?,
            origin: copy_origin(alloc, &flow.origin)?,
        })?;
    }
    Ok(copies)
}

fn copy_numbers(alloc: Global, numbers: &[u64]) -> Result<Numbers, AllocError>
    ensures { IfOk result (λ copies. copies ≡ numbers.now) }
{
    let mut copies = ListOf::new(alloc);
    for number in numbers {
        copies.push(*number)?;
    }
    Ok(copies)
}

fn copy_kinds(alloc: Global, kinds: &[Kind]) -> Result<Kinds, AllocError>
    ensures { IfOk result (λ copies. copies ≡ kinds.now) }
{
    let mut copies = ListOf::new(alloc);
    for kind in kinds {
        copies.push(*kind)?;
    }
    Ok(copies)
}

fn copy_definition(alloc: Global, definition: &Definition) -> Result<Definition, AllocError>
    ensures { IfOk result (λ copy. copy ≡ definition.now) }
{
    Ok(Definition {
        name: definition.name.copy(alloc)?,
        text: definition.text.copy(alloc)?,
        body: definition.body,
        columns: definition.columns.copy(alloc)?,
        expectations: copy_expectations(alloc, definition.expectations.as_slice())?,
        flows: copy_flows(alloc, definition.flows.as_slice())?,
        keys: copy_numbers(alloc, definition.keys.as_slice())?,
        sequence: copy_kinds(alloc, definition.sequence.as_slice())?,
    })
}

pub(crate) fn copy_definitions(
    alloc: Global,
    definitions: &[Definition],
) -> Result<Definitions, AllocError>
    ensures { IfOk result (λ copies. copies ≡ definitions.now) }
{
    let mut copies = ListOf::new(alloc);
    for definition in definitions {
        copies.push(copy_definition(alloc, definition)?)?;
    }
    Ok(copies)
}

pub(crate) fn copy_cursors(alloc: Global, cursors: &[Cursor]) -> Result<Cursors, AllocError>
    ensures { IfOk result (λ copies. copies ≡ cursors.now) }
{
    let mut copies = ListOf::new(alloc);
    for cursor in cursors {
        copies.push(cursor.copy(alloc)?)?;
    }
    Ok(copies)
}

pub(crate) fn copy_tallies(alloc: Global, tallies: &[Tally]) -> Result<Tallies, AllocError>
    ensures { IfOk result (λ copies. copies ≡ tallies.now) }
{
    let mut copies = ListOf::new(alloc);
    for tally in tallies {
        copies.push(*tally)?;
    }
    Ok(copies)
}

pub(crate) fn copy_events(alloc: Global, events: &Events) -> Result<Events, AllocError>
    ensures { IfOk result (λ copies. copies ≡ events.now) }
{
    let mut copies = ListOf::new(alloc);
    for event in events.as_slice() {
        copies.push(event.copy(alloc)?)?;
    }
    Ok(copies)
}
