// Copies of stored definitions.
ghost use Rattle.std.specs.Prelude.{◌≡◌, IfOk};

use commit_payloads::{
    Definition, Definitions, StoredExpectation, StoredExpectations, StoredFlow, StoredFlows,
    StoredOrigin,
};
use std::alloc::{AllocError, Global};
use value_core::{Kinds, ListOf, Numbers};

fn copy_of_expectations(
    alloc: Global,
    expectations: &[StoredExpectation],
) -> Result<StoredExpectations, AllocError>
    ensures { IfOk result (λ copy. copy ≡ expectations.now) }
{
    let mut copy = ListOf::new(alloc);
    for expectation in expectations {
        copy.push(StoredExpectation {
            name: expectation.name.copy(alloc)?,
            action: expectation.action,
        })?;
    }
    Ok(copy)
}

fn copy_of_origin(alloc: Global, origin: &StoredOrigin) -> Result<StoredOrigin, AllocError>
    ensures { IfOk result (λ copy. copy ≡ origin.now) }
{
    match origin {
        StoredOrigin::Folder(dir) => Ok(StoredOrigin::Folder(dir.copy(alloc)?)),
        StoredOrigin::Table(name) => Ok(StoredOrigin::Table(name.copy(alloc)?)),
    }
}

fn copy_of_flow(alloc: Global, flow: &StoredFlow) -> Result<StoredFlow, AllocError>
    ensures { IfOk result (λ copy. copy ≡ flow.now) }
{
    Ok(StoredFlow {
        name: flow.name.copy(alloc)?,
        origin: copy_of_origin(alloc, &flow.origin)?,
    })
}

fn copy_of_flows(alloc: Global, flows: &[StoredFlow]) -> Result<StoredFlows, AllocError>
    ensures { IfOk result (λ copy. copy ≡ flows.now) }
{
    let mut copy = ListOf::new(alloc);
    for flow in flows {
        copy.push(copy_of_flow(alloc, flow)?)?;
    }
    Ok(copy)
}

fn copy_of_numbers(alloc: Global, numbers: &Numbers) -> Result<Numbers, AllocError>
    ensures { IfOk result (λ copy. copy ≡ numbers.now) }
{
    let mut copy = ListOf::new(alloc);
    for number in numbers.as_slice() {
        copy.push(*number)?;
    }
    Ok(copy)
}

fn copy_of_kinds(alloc: Global, kinds: &Kinds) -> Result<Kinds, AllocError>
    ensures { IfOk result (λ copy. copy ≡ kinds.now) }
{
    let mut copy = ListOf::new(alloc);
    for kind in kinds.as_slice() {
        copy.push(*kind)?;
    }
    Ok(copy)
}

fn copy_of(alloc: Global, definition: &Definition) -> Result<Definition, AllocError>
    ensures { IfOk result (λ copy. copy ≡ definition.now) }
{
    Ok(Definition {
        name: definition.name.copy(alloc)?,
        text: definition.text.copy(alloc)?,
        body: definition.body,
        columns: definition.columns.copy(alloc)?,
        expectations: copy_of_expectations(alloc, definition.expectations.as_slice())?,
        flows: copy_of_flows(alloc, definition.flows.as_slice())?,
        keys: copy_of_numbers(alloc, &definition.keys)?,
        sequence: copy_of_kinds(alloc, &definition.sequence)?,
    })
}

/// Equal definitions. Fails for want of memory alone.
pub(crate) fn copy_of_all(
    alloc: Global,
    definitions: &[Definition],
) -> Result<Definitions, AllocError>
    ensures { IfOk result (λ copy. copy ≡ definitions.now) }
{
    let mut copy = ListOf::new(alloc);
    for definition in definitions {
        copy.push(copy_of(alloc, definition)?)?;
    }
    Ok(copy)
}
