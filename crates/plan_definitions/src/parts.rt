// The parts of a definition that a dataset of a plan gives alone.
ghost use Rattle.std.specs.Prelude.{◌≡◌, IfOk, map};
ghost use Rattle.commit_payloads.specs.declared.definition.StoredOrigin.TheVariants.{Table};
ghost use Rattle.plan_definitions.specs.Stored.{one_stored};
ghost use Rattle.state_steps.specs.Parts as parts;

use commit_payloads::{
    StoredAction, StoredBody, StoredExpectation, StoredExpectations, StoredFlow, StoredFlows,
    StoredOrigin,
};
use plan_core::{Action, AppendFlow, Body, Dataset, Expectation, Origin};
use std::alloc::{AllocError, Global};
use value_core::{ListOf, Name, Numbers, Places};

fn stored_action(action: Action) -> StoredAction
    ensures { result ≡ parts.stored_action action }
{
    match action {
        Action::Warn => StoredAction::Warn,
        Action::DropRow => StoredAction::DropRow,
        Action::FailUpdate => StoredAction::FailUpdate,
    }
}

/// What a definition has of expectations.
pub(crate) fn stored_expectations(
    alloc: Global,
    expectations: &[Expectation],
) -> Result<StoredExpectations, AllocError>
    ensures { IfOk result (λ stored. stored ≡ map parts.stored_expectation expectations.now) }
{
    let mut stored = ListOf::new(alloc);
    for expectation in expectations {
        stored.push(StoredExpectation {
            name: expectation.name.copy(alloc)?,
            action: stored_action(expectation.action),
        })?;
    }
    Ok(stored)
}

fn stored_origin(alloc: Global, origin: &Origin) -> Result<StoredOrigin, AllocError>
    ensures { IfOk result (λ stored. stored ≡ parts.stored_origin origin.now) }
{
    match origin {
        Origin::Files { dir, shape: _ } => Ok(StoredOrigin::Folder(dir.copy(alloc)?)),
        Origin::Table { name } => Ok(StoredOrigin::Table(name.copy(alloc)?)),
    }
}

fn append_flow(alloc: Global, flow: &AppendFlow) -> Result<StoredFlow, AllocError>
    ensures { IfOk result (λ stored. stored ≡ parts.stored_flow flow.now) }
{
    Ok(StoredFlow {
        name: flow.name.copy(alloc)?,
        origin: stored_origin(alloc, &flow.origin)?,
    })
}

fn append_flows(alloc: Global, flows: &[AppendFlow]) -> Result<StoredFlows, AllocError>
    ensures { IfOk result (λ stored. stored ≡ map parts.stored_flow flows.now) }
{
    let mut stored = ListOf::new(alloc);
    for flow in flows {
        stored.push(append_flow(alloc, flow)?)?;
    }
    Ok(stored)
}

/// A list of one flow.
fn one_flow(alloc: Global, name: Name, origin: StoredOrigin) -> Result<StoredFlows, AllocError>
    ensures { IfOk result (λ stored. stored ≡ one_stored name origin) }
{
    let mut flows = ListOf::new(alloc);
    flows.push(StoredFlow { name, origin })?;
    Ok(flows)
}

fn feed_flow(alloc: Global, name: &Name, origin: &Origin) -> Result<StoredFlows, AllocError>
    ensures { IfOk result (λ stored. stored ≡ one_stored name.now (parts.stored_origin origin.now)) }
{
    let name = name.copy(alloc)?;
    let origin = stored_origin(alloc, origin)?;
    one_flow(alloc, name, origin)
}

fn view_flow(alloc: Global, name: &Name, source: &Name) -> Result<StoredFlows, AllocError>
    ensures { IfOk result (λ stored. stored ≡ one_stored name.now (Table source.now)) }
{
    let name = name.copy(alloc)?;
    let source = source.copy(alloc)?;
    one_flow(alloc, name, StoredOrigin::Table(source))
}

/// The flows of a dataset; a view has one, of its own name.
pub(crate) fn stored_flows(alloc: Global, dataset: &Dataset) -> Result<StoredFlows, AllocError>
    ensures { IfOk result (λ stored. stored ≡ parts.stored_flows dataset.now dataset.now.body) }
{
    match &dataset.body {
        Body::Append(flows) => append_flows(alloc, flows.as_slice()),
        Body::Cdc(cdc) => feed_flow(alloc, &cdc.name, &cdc.origin),
        Body::View(query) => view_flow(alloc, &dataset.name, &query.origin),
    }
}

/// What fills a dataset.
pub(crate) fn stored_body(body: &Body) -> StoredBody
    ensures { result ≡ parts.stored_body body.now }
{
    match body {
        Body::Append(_) => StoredBody::Append,
        Body::Cdc(cdc) => {
            if cdc.scd2 {
                StoredBody::Scd2
            } else {
                StoredBody::Scd1
            }
        }
        Body::View(_) => StoredBody::View,
    }
}

fn numbers_of(alloc: Global, places: &Places) -> Result<Numbers, AllocError>
    ensures { IfOk result (λ numbers. numbers ≡ places.now) }
{
    let mut numbers = ListOf::new(alloc);
    for place in places.as_slice() {
        numbers.push(*place as u64)?;
    }
    Ok(numbers)
}

/// The places of the keys of a change feed among its outputs.
pub(crate) fn stored_keys(alloc: Global, body: &Body) -> Result<Numbers, AllocError>
    ensures { IfOk result (λ keys. keys ≡ parts.stored_keys body.now) }
{
    match body {
        Body::Cdc(cdc) => numbers_of(alloc, &cdc.keys),
        _ => Ok(ListOf::new(alloc)),
    }
}
