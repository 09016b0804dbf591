// Which datasets a reset of some names takes along.
ghost use Rattle.std.specs.Prelude.{◌≡◌, ◌<◌, ◌^◌, IfOk, length, slice_get};
ghost use Rattle.std.specs.List.{All};
ghost use Rattle.std.specs.Option.{option_copied};
ghost use Rattle.stream_closure.specs.Streams.{names_at as the_names_at};
ghost use Rattle.update_plan.specs.Payloads.{IsResetOf, places_of as the_places_of};

use crate::edges::{edges_of, place_of};
use graph_check::closure;
use plan_core::Dataset;
use std::alloc::{AllocError, Global};
use value_core::{ListOf, Name, Names};

/// The places of the datasets of these names.
fn places_of(alloc: Global, plan: &[Dataset], names: &[Name]) -> Result<Vec<u32>, AllocError>
    requires { length plan.now < 2 ^ 32 }
    ensures places { IfOk result (λ places. places.items ≡ the_places_of plan.now names.now) }
    ensures below { IfOk result (λ places. All (λ place. place < length plan.now) places.items) }
{
    let mut places = Vec::new(alloc);
    for name in names {
        if let Some(place) = place_of(plan, name) {
            places.push(place)?;
        }
    }
    Ok(places)
}

fn dataset_at(plan: &[Dataset], place: u32) -> Option<&Dataset>
    ensures { option_copied result ≡ slice_get plan.now place }
{
    let place = place as usize;
    if place >= plan.len() {
        return None;
    }
    Some(&plan[place])
}

/// The names of the datasets at these places.
fn names_at(alloc: Global, plan: &[Dataset], places: &[u32]) -> Result<Names, AllocError>
    ensures { IfOk result (λ names. names ≡ the_names_at plan.now places.now) }
{
    let mut names = ListOf::new(alloc);
    for place in places {
        if let Some(dataset) = dataset_at(plan, *place) {
            names.push(dataset.name.copy(alloc)?)?;
        }
    }
    Ok(names)
}

/// The names of what is reset, of a plan whose places have numbers.
fn reset_among(alloc: Global, plan: &[Dataset], names: &[Name]) -> Result<Names, AllocError>
    requires { length plan.now < 2 ^ 32 }
    ensures { IfOk result (λ reset. IsResetOf plan.now names.now reset) }
{
    let edges = edges_of(alloc, plan)?;
    let set = places_of(alloc, plan, names)?;
    let places = closure(alloc, plan.len() as u32, edges.as_slice(), set.as_slice())?;
    let reset = names_at(alloc, plan, places.as_slice())?;
    Ok(reset)
}

/// The names of the datasets of these names and of all tables that stream from one of them, directly or
/// not, in declared order. Fails for want of memory alone, which a plan of 2^32 datasets counts as.
pub(crate) fn reset_of(alloc: Global, plan: &[Dataset], names: &[Name]) -> Result<Names, AllocError>
    ensures { IfOk result (λ reset. IsResetOf plan.now names.now reset) }
{
    if plan.len() > u32::MAX as usize {
        return Err(AllocError);
    }
    reset_among(alloc, plan, names)
}
