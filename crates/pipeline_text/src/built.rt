// What an update can run.
ghost use Rattle.std.specs.Prelude.{◌≡◌, ◌+◌, IfOk, not};
ghost use Rattle.plan_core.specs.Sound.{is_append};
ghost use Rattle.plan_check.specs.Visits.{declared_places as the_declared_places};
ghost use Rattle.pipeline_text.specs.Built as spec;

use plan_core::{Body, Dataset};
use sql_tree::Statement;
use statement_checks::dataset_name;
use std::alloc::{AllocError, Global};

fn is_unbuilt(dataset: &Dataset) -> bool
    ensures { result ≡ not (is_append dataset.now.body) }
{
    match dataset.body {
        Body::Append(_) => false,
        Body::Cdc(_) => true,
        Body::View(_) => true,
    }
}

fn first_unbuilt(plan: &[Dataset]) -> Option<usize>
    ensures { result ≡ spec.first_unbuilt plan.now }
{
    plan.iter().position(|dataset| is_unbuilt(dataset))
}

/// The places of the statements that declare datasets.
fn declared_places(alloc: Global, statements: &[Statement]) -> Result<Vec<usize>, AllocError>
    ensures { IfOk result (λ places. places.items ≡ the_declared_places statements.now) }
{
    let mut places = Vec::new(alloc);
    for place in 0..statements.len() {
        if dataset_name(&statements[place]).is_some() {
            places.push(place)?;
        }
    }
    Ok(places)
}

/// The number from 1 of the statement at a place from 0.
fn number_of(place: usize) -> Result<u32, AllocError>
    ensures { IfOk result (λ number. number ≡ place + 1) }
{
    if place < 4294967295 {
        Ok(place as u32 + 1)
    } else {
        Err(AllocError)
    }
}

/// The number from 1 of the statement of the first dataset of a plan that an update can't run.
pub(crate) fn unbuilt_in(
    alloc: Global,
    statements: &[Statement],
    plan: &[Dataset],
) -> Result<Option<u32>, AllocError>
    ensures { IfOk result (λ unbuilt. unbuilt ≡ spec.unbuilt_in statements.now plan.now) }
{
    let Some(dataset) = first_unbuilt(plan) else {
        return Ok(None);
    };
    let places = declared_places(alloc, statements)?;
    let Some(place) = places.as_slice().get(dataset) else {
        return Ok(None);
    };
    let number = number_of(*place)?;
    Ok(Some(number))
}
