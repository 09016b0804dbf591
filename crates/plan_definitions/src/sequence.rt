// The kinds of what orders the events of a key.
ghost use Rattle.std.specs.Prelude.{◌≡◌, IfOk, [], option_and_then, slice_get, unwrap_or};
ghost use Rattle.std.specs.Option.{option_copied};
ghost use Rattle.plan_core.specs.declared.flow.Origin.TheVariants.{Table};
ghost use Rattle.plan_core.specs.Sound as sound;
ghost use Rattle.state_steps.specs.Parts as parts;

use plan_core::{Body, Cdc, Dataset, Origin, Plan};
use std::alloc::{AllocError, Global};
use value_core::{Column, Kind, Kinds, ListOf, Name, Schema};

/// Whether rows of a dataset are only gained.
fn is_append(body: &Body) -> bool
    ensures { result ≡ sound.is_append body.now }
{
    match body {
        Body::Append(_) => true,
        _ => false,
    }
}

/// The columns of an append table of a lesser level.
fn table_columns<'a>(plan: &'a Plan, level: u32, name: &Name) -> Option<&'a Schema>
    ensures { option_copied result ≡ sound.flow_columns plan.now level (Table name.now) }
{
    let Some(source) = plan.find(name) else {
        return None;
    };
    if source.level >= level {
        return None;
    }
    if !is_append(&source.body) {
        return None;
    }
    Some(&source.columns)
}

/// The columns that a flow of a dataset of this level reads.
fn flow_columns<'a>(plan: &'a Plan, level: u32, origin: &'a Origin) -> Option<&'a Schema>
    ensures { option_copied result ≡ sound.flow_columns plan.now level origin.now }
{
    match origin {
        Origin::Files { dir: _, shape } => Some(&shape.columns),
        Origin::Table { name } => table_columns(plan, level, name),
    }
}

/// The kind of the column at a place.
fn kind_at(columns: &[Column], place: u32) -> Option<Kind>
    ensures { result ≡ slice_get (sound.kinds_of columns.now) place }
{
    let place = place as usize;
    if place >= columns.len() {
        return None;
    }
    Some(columns[place].kind)
}

/// The kinds of the columns at these places, where all are there.
fn kinds_at(alloc: Global, columns: &[Column], places: &[u32]) -> Result<Option<Kinds>, AllocError>
    ensures { IfOk result (λ kinds. kinds ≡ sound.kinds_at (sound.kinds_of columns.now) places.now) }
{
    let mut kinds = ListOf::new(alloc);
    for place in places {
        let Some(kind) = kind_at(columns, *place) else {
            return Ok(None);
        };
        kinds.push(kind)?;
    }
    Ok(Some(kinds))
}

/// The kinds of the sequence of a change feed, where all are there.
fn feed_kinds(
    alloc: Global,
    plan: &Plan,
    level: u32,
    cdc: &Cdc,
) -> Result<Option<Kinds>, AllocError>
    ensures { IfOk result (λ kinds. kinds ≡ option_and_then (λ columns. sound.kinds_at (sound.kinds_of columns) cdc.now.sequence) (sound.flow_columns plan.now level cdc.now.origin)) }
{
    let Some(columns) = flow_columns(plan, level, &cdc.origin) else {
        return Ok(None);
    };
    kinds_at(alloc, columns.as_slice(), cdc.sequence.as_slice())
}

/// These kinds, or none.
fn or_none(alloc: Global, kinds: Option<Kinds>) -> Kinds
    ensures { result ≡ unwrap_or kinds [] }
{
    match kinds {
        Some(kinds) => kinds,
        None => ListOf::new(alloc),
    }
}

/// The kinds of what orders the events of a key of a dataset.
pub(crate) fn sequence_kinds(
    alloc: Global,
    plan: &Plan,
    dataset: &Dataset,
) -> Result<Kinds, AllocError>
    ensures { IfOk result (λ kinds. kinds ≡ parts.sequence_kinds plan.now dataset.now dataset.now.body) }
{
    match &dataset.body {
        Body::Cdc(cdc) => {
            let kinds = feed_kinds(alloc, plan, dataset.level, cdc)?;
            Ok(or_none(alloc, kinds))
        }
        _ => Ok(ListOf::new(alloc)),
    }
}
