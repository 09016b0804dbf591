//! What a flow gives to a table that has its columns, by name.

ghost use Rattle.std.specs.Prelude.{◌≡◌, ◌++◌, IfOk, OnOk, Some, None, map, slice_set, option_to_list};
ghost use Rattle.std.specs.Option.{option_copied, option_or};
ghost use Rattle.expr_typing.specs.Typing as typing;
ghost use Rattle.column_checks.specs.ByName as spec;

use crate::tables::is_equal_column;
use statement_checks::CheckFault;
use std::alloc::{AllocError, Global};
use std::mem;
use value_core::{Column, Name};

fn has_equal(columns: &[Column], wanted: &Column) -> bool
    ensures { result ≡ spec.has_equal columns.now wanted.now }
{
    columns.iter().any(|column| is_equal_column(wanted, column))
}

fn has_column(columns: &[Column], name: &Name) -> bool
    ensures { result ≡ typing.has_column columns.now name.now }
{
    columns.iter().any(|column| column.name.is_same(name))
}

fn first_missing<'a>(columns: &[Column], table: &'a [Column]) -> Option<&'a Name>
    ensures { option_copied result ≡ spec.first_missing columns.now table.now }
{
    for wanted in table {
        if !has_equal(columns, wanted) {
            return Some(&wanted.name);
        }
    }
    None
}

fn first_beyond<'a>(table: &[Column], columns: &'a [Column]) -> Option<&'a Name>
    ensures { option_copied result ≡ spec.first_beyond table.now columns.now }
{
    for given in columns {
        if !has_column(table, &given.name) {
            return Some(&given.name);
        }
    }
    None
}

fn first_wrong<'a>(table: &'a [Column], columns: &'a [Column]) -> Option<&'a Name>
    ensures { option_copied result ≡ option_or (spec.first_missing columns.now table.now) (spec.first_beyond table.now columns.now) }
{
    let missing = first_missing(columns, table);
    if missing.is_some() {
        return missing;
    }
    first_beyond(table, columns)
}

/// SchemaDiffers where a flow doesn't give a table's columns by name and kind, in whatever order:
/// the first column of the table that it doesn't give, and else the first that it gives besides.
/// Fails for want of memory alone.
pub fn gives_table(
    alloc: Global,
    table: &[Column],
    columns: &[Column],
) -> Result<Option<CheckFault>, AllocError>
    ensures { IfOk result (λ fault. fault ≡ spec.gives_table table.now columns.now) }
{
    let Some(name) = first_wrong(table, columns) else {
        return Ok(None);
    };
    let name = name.copy(alloc)?;
    Ok(Some(CheckFault::SchemaDiffers { name }))
}

fn place_equal(columns: &[Column], wanted: &Column) -> Option<usize>
    ensures { result ≡ spec.place_equal columns.now wanted.now }
{
    columns
        .iter()
        .position(|column| is_equal_column(wanted, column))
}

fn add_place(places: &mut Vec<usize>, columns: &[Column], wanted: &Column) -> Result<(), AllocError>
    ensures { OnOk result (places.new.items ≡ places.old.items ++ option_to_list (spec.place_equal columns.now wanted.now)) }
{
    let Some(place) = place_equal(columns, wanted) else {
        return Ok(());
    };
    places.push(place)?;
    Ok(())
}

/// The places of the columns that a flow gives, in the order of the table's columns. Fails for want
/// of memory alone.
pub fn places_by_name(
    alloc: Global,
    table: &[Column],
    columns: &[Column],
) -> Result<Vec<usize>, AllocError>
    ensures { IfOk result (λ places. places.items ≡ spec.places_by_name table.now columns.now) }
{
    let mut places = Vec::new(alloc);
    for wanted in table {
        add_place(&mut places, columns, wanted)?;
    }
    Ok(places)
}

// ---- items in the order of places

/// The items, each of which can be taken.
fn slots_of<T: Drop>(alloc: Global, items: Vec<T>) -> Result<Vec<Option<T>>, AllocError>
    ensures { IfOk result (λ slots. slots.items ≡ map Some items.items) }
{
    let mut slots = Vec::new(alloc);
    for item in items {
        slots.push(Some(item))?;
    }
    Ok(slots)
}

/// Takes an item, if it is there and was not taken.
fn take_at<T: Drop>(slots: &mut Vec<Option<T>>, place: usize) -> Option<T>
    ensures taken { result ≡ spec.slot_left slots.old.items place }
    ensures left { slots.new.items ≡ slice_set slots.old.items place None }
{
    if place < slots.len() {
        mem::replace(&mut slots[place], None)
    } else {
        None
    }
}

fn take_into<T: Drop>(
    slots: &mut Vec<Option<T>>,
    place: usize,
    taken: &mut Vec<T>,
) -> Result<(), AllocError>
    ensures taken { OnOk result (taken.new.items ≡ taken.old.items ++ option_to_list (spec.slot_left slots.old.items place)) }
    ensures left { OnOk result (slots.new.items ≡ slice_set slots.old.items place None) }
{
    let Some(item) = take_at(slots, place) else {
        return Ok(());
    };
    taken.push(item)?;
    Ok(())
}

/// The items at places, in the order of the places; an item comes once, and a place behind the
/// items gives none. Fails for want of memory alone.
pub fn items_at<T: Drop>(
    alloc: Global,
    items: Vec<T>,
    places: &[usize],
) -> Result<Vec<T>, AllocError>
    ensures { IfOk result (λ found. found.items ≡ spec.items_placed items.items places.now) }
{
    let mut slots = slots_of(alloc, items)?;
    let mut taken = Vec::new(alloc);
    for place in places {
        take_into(&mut slots, *place, &mut taken)?;
    }
    Ok(taken)
}
