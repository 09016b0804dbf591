//! The plan of the datasets of a walk, in declared order.

ghost use Rattle.std.specs.Prelude.{◌≡◌, [], map, IfOk};
ghost use Rattle.plan_check.specs.Names as names;
ghost use Rattle.plan_check.specs.Walks as spec;

use crate::visits::{Visit, by_level, visits_at};
use column_checks::items_at;
use plan_core::{Dataset, Plan};
use std::alloc::{AllocError, Global};
use value_core::ListOf;

/// Datasets that come by level, in the order of places.
fn in_order(
    alloc: Global,
    visits: &[Visit],
    places: &[usize],
    datasets: ListOf<Dataset>,
) -> Result<Vec<Dataset>, AllocError>
    ensures { IfOk result (λ ordered. ordered.items ≡ spec.in_order visits.now places.now datasets) }
{
    let order = by_level(alloc, visits)?;
    let indices = visits_at(alloc, order.as_slice(), places)?;
    items_at(alloc, datasets.into_vec(), indices.as_slice())
}

/// The plan of datasets whose names differ.
fn plan_of(alloc: Global, datasets: Vec<Dataset>) -> Result<Plan, AllocError>
    requires { names.AreNewBehind [] datasets.items }
    ensures { IfOk result (λ plan. plan ≡ datasets.items) }
{
    let mut plan = Plan::new(alloc);
    for dataset in datasets {
        plan.add(alloc, dataset)?;
    }
    Ok(plan)
}

/// The plan of datasets that come by level, in the order of places.
pub(crate) fn plan_in_order(
    alloc: Global,
    visits: &[Visit],
    places: &[usize],
    datasets: ListOf<Dataset>,
) -> Result<Plan, AllocError>
    requires { names.AreNewBehind [] (spec.in_order visits.now places.now datasets) }
    ensures { IfOk result (λ plan. plan ≡ spec.in_order visits.now places.now datasets) }
{
    let ordered = in_order(alloc, visits, places, datasets)?;
    plan_of(alloc, ordered)
}
