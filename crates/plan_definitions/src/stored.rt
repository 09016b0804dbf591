// Datasets of a plan as definitions.
ghost use Rattle.std.specs.Prelude.{◌≡◌, IfOk};
ghost use Rattle.plan_definitions.specs.Stored.{definitions_by};
ghost use Rattle.state_steps.specs.Parts as parts;

use crate::parts::{stored_body, stored_expectations, stored_flows, stored_keys};
use crate::sequence::sequence_kinds;
use commit_payloads::{Definition, Definitions};
use plan_core::{Dataset, Plan};
use std::alloc::{AllocError, Global};
use value_core::ListOf;

/// What a store knows of a dataset of a plan beside its rows. Fails for want of memory alone.
pub fn definition_of(
    alloc: Global,
    plan: &Plan,
    dataset: &Dataset,
) -> Result<Definition, AllocError>
    ensures { IfOk result (λ definition. definition ≡ parts.definition_of plan.now dataset.now) }
{
    Ok(Definition {
        name: dataset.name.copy(alloc)?,
        text: dataset.text.copy(alloc)?,
        body: stored_body(&dataset.body),
        columns: dataset.columns.copy(alloc)?,
        expectations: stored_expectations(alloc, dataset.expectations.as_slice())?,
        flows: stored_flows(alloc, dataset)?,
        keys: stored_keys(alloc, &dataset.body)?,
        sequence: sequence_kinds(alloc, plan, dataset)?,
    })
}

/// The definitions of a plan's datasets, in declared order. Fails for want of memory alone.
pub fn definitions_of(alloc: Global, plan: &Plan) -> Result<Definitions, AllocError>
    ensures { IfOk result (λ definitions. definitions ≡ definitions_by plan.now) }
{
    let mut definitions = ListOf::new(alloc);
    for dataset in plan.as_slice() {
        definitions.push(definition_of(alloc, plan, dataset)?)?;
    }
    Ok(definitions)
}
