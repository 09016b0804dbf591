//! Columns by name and by place.

ghost use Rattle.std.specs.Prelude.{◌≡◌, ◌++◌, IfOk, OnOk, option_to_list, slice_get};
ghost use Rattle.feed_checks.specs.Clauses as clauses;
ghost use Rattle.feed_checks.specs.Places as spec;

use sql_tree::{SqlSequence, SqlSome};
use sqlite_items::at;
use std::alloc::{AllocError, Global};
use value_core::{Column, ListOf, Name, Places, Schema};

/// A place as it is kept. One that is no `u32` is taken for want of memory.
fn kept_place(place: usize) -> Result<u32, AllocError>
    ensures { IfOk result (λ kept. kept ≡ place) }
{
    if place > 4294967295 {
        return Err(AllocError);
    }
    Ok(place as u32)
}

fn place_named(columns: &[Column], name: &Name) -> Option<usize>
    ensures { result ≡ spec.place_named columns.now name.now }
{
    columns.iter().position(|column| column.name.is_same(name))
}

fn add_named(places: &mut Places, columns: &[Column], name: &Name) -> Result<(), AllocError>
    ensures { OnOk result (places.new ≡ places.old ++ option_to_list (spec.place_named columns.now name.now)) }
{
    let Some(place) = place_named(columns, name) else {
        return Ok(());
    };
    let place = kept_place(place)?;
    places.push(place)?;
    Ok(())
}

/// The places of the columns of these names, in the order of the names.
pub fn places_named(alloc: Global, columns: &[Column], names: &[Name]) -> Result<Places, AllocError>
    ensures { IfOk result (λ places. places ≡ spec.places_named columns.now names.now) }
{
    let mut places = ListOf::new(alloc);
    for name in names {
        add_named(&mut places, columns, name)?;
    }
    Ok(places)
}

fn is_named_in(names: &[Name], name: &Name) -> bool
    ensures { result ≡ spec.is_named_in names.now name.now }
{
    names.iter().any(|other| other.is_same(name))
}

fn add_if_other(
    places: &mut Places,
    names: &[Name],
    place: usize,
    column: &Column,
) -> Result<(), AllocError>
    ensures { OnOk result (places.new ≡ places.old ++ spec.place_if_other names.now place column.now) }
{
    if is_named_in(names, &column.name) {
        return Ok(());
    }
    let place = kept_place(place)?;
    places.push(place)?;
    Ok(())
}

/// The places of the columns of none of these names.
fn others(alloc: Global, columns: &[Column], names: &[Name]) -> Result<Places, AllocError>
    ensures { IfOk result (λ places. places ≡ spec.others_from names.now 0 columns.now) }
{
    let mut places = ListOf::new(alloc);
    for place in 0..columns.len() {
        add_if_other(&mut places, names, place, &columns[place])?;
    }
    Ok(places)
}

/// The places of some columns: of all, of all but those of a list, or of those of a list in its
/// order.
pub fn some_places(
    alloc: Global,
    columns: &[Column],
    list: &Option<SqlSome>,
) -> Result<Places, AllocError>
    ensures { IfOk result (λ places. places ≡ spec.some_places columns.now list.now) }
{
    match list {
        None => others(alloc, columns, &[]),
        Some(some) => match some {
            SqlSome::Except(names) => others(alloc, columns, names.as_slice()),
            SqlSome::Only(names) => places_named(alloc, columns, names.as_slice()),
        },
    }
}

fn add_at(
    alloc: Global,
    found: &mut Schema,
    columns: &[Column],
    place: usize,
) -> Result<(), AllocError>
    ensures { OnOk result (found.new ≡ found.old ++ option_to_list (slice_get columns.now place)) }
{
    let Some(column) = at(columns, place) else {
        return Ok(());
    };
    let column = column.copy(alloc)?;
    found.push(column)?;
    Ok(())
}

/// The columns at places.
pub fn columns_at(alloc: Global, columns: &[Column], places: &[u32]) -> Result<Schema, AllocError>
    ensures { IfOk result (λ found. found ≡ spec.columns_at columns.now places.now) }
{
    let mut found = ListOf::new(alloc);
    for place in places {
        add_at(alloc, &mut found, columns, *place as usize)?;
    }
    Ok(found)
}

fn place_alone(alloc: Global, columns: &[Column], name: &Name) -> Result<Places, AllocError>
    ensures { IfOk result (λ places. places ≡ option_to_list (spec.place_named columns.now name.now)) }
{
    let mut places = ListOf::new(alloc);
    add_named(&mut places, columns, name)?;
    Ok(places)
}

/// The places of the parts of a sequence.
pub fn sequence_places(
    alloc: Global,
    columns: &[Column],
    sequence: &SqlSequence,
) -> Result<Places, AllocError>
    ensures { IfOk result (λ places. places ≡ spec.places_named columns.now (clauses.sequence_names sequence.now)) }
{
    match sequence {
        SqlSequence::One(name) => place_alone(alloc, columns, name),
        SqlSequence::Struct(names) => places_named(alloc, columns, names.as_slice()),
    }
}

// ---- the columns of the target

fn add_renamed(
    alloc: Global,
    found: &mut Schema,
    name: &str,
    columns: &[Column],
) -> Result<(), AllocError>
    ensures { OnOk result (found.new ≡ found.old ++ clauses.renamed name.now columns.now) }
{
    for column in columns {
        let name = Name::new(alloc, name)?;
        found.push(Column {
            name,
            kind: column.kind,
        })?;
    }
    Ok(())
}

/// The columns of the target: the outputs, and for SCD type 2 then where each row starts and ends.
pub fn target_columns(
    alloc: Global,
    history: bool,
    parts: &[Column],
    given: &Schema,
) -> Result<Schema, AllocError>
    ensures { IfOk result (λ columns. columns ≡ clauses.target_columns history parts.now given.now) }
{
    let mut columns = given.copy(alloc)?;
    if history {
        add_renamed(alloc, &mut columns, "__START_AT", parts)?;
        add_renamed(alloc, &mut columns, "__END_AT", parts)?;
    }
    Ok(columns)
}
