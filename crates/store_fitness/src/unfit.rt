// The first dataset of a store that doesn't fit a plan.
ghost use Rattle.std.specs.Prelude.{◌↔◌, IfOk, IsTrue};
ghost use Rattle.pair_store.specs.Store.{store_state};
ghost use Rattle.store_fitness.specs.Fitness.{Answers, IsAlike, ReadsOn};
ghost use Rattle.store_fitness.specs.Walks.{Finds};

use crate::position::reads_on;
use crate::same::are_equal_definitions;
use commit_payloads::Definition;
use pair_store::Store;
use plan_core::Plan;
use plan_definitions::definition_of;
use std::alloc::{AllocError, Global};
use std::sync::ledger::Ledger;
use value_core::{Name, Steps};

/// Whether a dataset is stored as the plan defines it.
fn is_alike(alloc: Global, plan: &Plan, definition: &Definition) -> Result<bool, AllocError>
    ensures { IfOk result (λ alike. IsTrue alike ↔ IsAlike plan.now definition.now) }
{
    let Some(dataset) = plan.find(&definition.name) else {
        return Ok(false);
    };
    let defined = definition_of(alloc, plan, dataset)?;
    Ok(are_equal_definitions(definition, &defined))
}

/// The name of the first dataset that is stored otherwise than the plan defines it.
fn first_unlike(
    alloc: Global,
    plan: &Plan,
    definitions: &[Definition],
) -> Result<Option<Name>, AllocError>
    ensures { IfOk result (Finds (IsAlike plan.now) definitions.now) }
{
    let mut left = definitions;
    while let Some((definition, more)) = left.split_first() {
        if !is_alike(alloc, plan, definition)? {
            let name = definition.name.copy(alloc)?;
            return Ok(Some(name));
        }
        left = more;
    }
    Ok(None)
}

/// The name of the first dataset with a flow that can't go on.
fn first_stuck<K: Ledger>(
    alloc: Global,
    store: &Store,
    definitions: &[Definition],
    steps: &mut Steps<K>,
) -> Result<Option<Name>, AllocError>
    ensures { IfOk result (Finds (ReadsOn (store_state store.now)) definitions.now) }
{
    let mut left = definitions;
    while let Some((definition, more)) = left.split_first() {
        if !reads_on(alloc, store, definition, steps)? {
            let name = definition.name.copy(alloc)?;
            return Ok(Some(name));
        }
        left = more;
    }
    Ok(None)
}

/// The first dataset of a store that doesn't fit a plan, in stored order, by its stored name: the first
/// one that is stored otherwise than the plan defines it and, where there is none, the first one with a
/// flow that stands at a version of its source that isn't kept, or, but for the flow of a view, after
/// which a row was removed. `None` where every dataset fits.
///
/// What a table of a change feed and a view show is not compared with what they have consumed: the answer
/// is whole for a plan of append tables alone. `Err` comes for want of memory alone. No bound is claimed
/// on the looks that it takes.
pub fn first_unfit<K: Ledger>(
    alloc: Global,
    store: &Store,
    plan: &Plan,
    steps: &mut Steps<K>,
) -> Result<Option<Name>, AllocError>
    ensures { IfOk result (Answers plan.now (store_state store.now)) }
{
    let definitions = store.definitions().as_slice();
    if let Some(name) = first_unlike(alloc, plan, definitions)? {
        return Ok(Some(name));
    }
    first_stuck(alloc, store, definitions, steps)
}
