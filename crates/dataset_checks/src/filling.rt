//! The flows that fill a table, by the places of their statements.

ghost use Rattle.std.specs.Prelude.{◌≡◌, ◌<◌, ◌++◌, length, slice_get, IfOk, OnOk};
ghost use Rattle.std.specs.List.{All};
ghost use Rattle.std.specs.Option.{option_copied};
ghost use Rattle.dataset_checks.specs.Filling as spec;

use sql_tree::{Select, Statement};
use sqlite_items::at;
use std::alloc::{AllocError, Global};
use value_core::Name;

fn fills(table: &Name, statement: &Statement) -> bool
    ensures { result ≡ spec.fills table.now statement.now }
{
    match statement {
        Statement::Table {
            name: _,
            items: _,
            select: _,
        } => false,
        Statement::View {
            name: _,
            items: _,
            select: _,
        } => false,
        Statement::Insert {
            flow: _,
            target,
            select: _,
        } => target.is_same(table),
        Statement::Cdc { flow: _, rest } => rest.target.is_same(table),
    }
}

fn add_fillers(
    places: &mut Vec<usize>,
    table: &Name,
    statements: &[Statement],
) -> Result<(), AllocError>
    ensures { OnOk result (places.new.items ≡ places.old.items ++ spec.fillers_from table.now 0 statements.now) }
{
    for place in 0..statements.len() {
        if fills(table, &statements[place]) {
            places.push(place)?;
        }
    }
    Ok(())
}

/// The places of the statement of the dataset of that name, which is at this place, and of the flows
/// of their own into it (Databricks SQL reference, CREATE FLOW), in declared order behind it. Names
/// are the same but for the case of ASCII letters. Fails for want of memory alone.
pub fn dataset_places(
    alloc: Global,
    statements: &[Statement],
    place: usize,
    name: &Name,
) -> Result<Vec<usize>, AllocError>
    requires { place < length statements.now }
    ensures places { IfOk result (λ places. places.items ≡ spec.dataset_places statements.now place name.now) }
    ensures within { IfOk result (λ places. All (λ at. at < length statements.now) places.items) }
{
    let mut places = Vec::new(alloc);
    places.push(place)?;
    add_fillers(&mut places, name, statements)?;
    Ok(places)
}

fn own_places(
    alloc: Global,
    place: usize,
    select: &Option<Select>,
) -> Result<Vec<usize>, AllocError>
    ensures { IfOk result (λ places. places.items ≡ spec.own_places place select.now) }
{
    let mut places = Vec::new(alloc);
    let Some(_) = select else {
        return Ok(places);
    };
    places.push(place)?;
    Ok(places)
}

/// The places of the flows that fill the table of that name at this place, its own AS first.
pub(crate) fn flow_places(
    alloc: Global,
    statements: &[Statement],
    place: usize,
    table: &Name,
    select: &Option<Select>,
) -> Result<Vec<usize>, AllocError>
    ensures { IfOk result (λ places. places.items ≡ spec.flow_places statements.now place table.now select.now) }
{
    let mut places = own_places(alloc, place, select)?;
    add_fillers(&mut places, table, statements)?;
    Ok(places)
}

fn is_feed(statement: &Statement) -> bool
    ensures { result ≡ spec.is_feed statement.now }
{
    match statement {
        Statement::Table {
            name: _,
            items: _,
            select: _,
        } => false,
        Statement::View {
            name: _,
            items: _,
            select: _,
        } => false,
        Statement::Insert {
            flow: _,
            target: _,
            select: _,
        } => false,
        Statement::Cdc { flow: _, rest: _ } => true,
    }
}

fn is_feed_there(statement: Option<&Statement>) -> bool
    ensures { result ≡ spec.is_feed_there (option_copied statement.entry) }
{
    match statement {
        Some(flow) => is_feed(flow),
        None => false,
    }
}

fn is_feed_at(statements: &[Statement], place: usize) -> bool
    ensures { result ≡ spec.is_feed_there (slice_get statements.now place) }
{
    is_feed_there(at(statements, place))
}

fn has_feed(statements: &[Statement], places: &[usize]) -> bool
    ensures { result ≡ spec.has_feed statements.now places.now }
{
    places.iter().any(|place| is_feed_at(statements, *place))
}

/// Whether one of these flows is a change feed, and there is another one.
pub(crate) fn are_mixed(statements: &[Statement], places: &[usize]) -> bool
    ensures { result ≡ spec.are_mixed statements.now places.now }
{
    1 < places.len() && has_feed(statements, places)
}
