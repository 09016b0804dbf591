// The fields that stores and indexes write by themselves.
ghost use Rattle.std.specs.Prelude.{◌≡◌, ◌≤◌, ◌++◌, true, length, IfOk, OnOk};
ghost use Rattle.segment_rows.specs.EventParts.{has_its_parts};
ghost use Rattle.segment_rows.specs.Exact.{Finds};
ghost use Rattle.segment_rows.specs.Ranges.{IsNumber, IsText, IsRow, IsEvent};
ghost use Rattle.segment_rows.specs.Spelling.{spelled_number, spelled_text, spelled_row, spelled_event};

use crate::field::Field;
use crate::whole::take_field;
use crate::{event, number};
use std::alloc::{AllocError, Global};
use value_core::{Event, Row, Text};

/// Appends a number: 8 bytes, the highest first. After an error `out` is given up.
pub fn put_number(out: &mut Vec<u8>, number: u64) -> Result<(), AllocError>
    ensures { OnOk result (out.new.items ≡ out.old.items ++ spelled_number number) }
{
    number.put(out)
}

/// Appends a text: how many bytes, and its bytes in UTF-8. After an error `out` is given up.
pub fn put_text(out: &mut Vec<u8>, text: &Text) -> Result<(), AllocError>
    ensures bytes { OnOk result (out.new.items ≡ out.old.items ++ spelled_text text.now) }
    ensures range { OnOk result (IsText text.now) }
{
    text.put(out)
}

/// Appends a row: how many values, and the values. After an error `out` is given up.
pub fn put_row(out: &mut Vec<u8>, row: &Row) -> Result<(), AllocError>
    ensures bytes { OnOk result (out.new.items ≡ out.old.items ++ spelled_row row.now) }
    ensures range { OnOk result (IsRow row.now) }
{
    row.put(out)
}

/// Appends an event: its kind, and the rows sequence, key and columns. After an error `out` is given up.
pub fn put_event(out: &mut Vec<u8>, event: &Event) -> Result<(), AllocError>
    requires { has_its_parts event.now ≡ true }
    ensures bytes { OnOk result (out.new.items ≡ out.old.items ++ spelled_event event.now) }
    ensures range { OnOk result (IsEvent event.now × (has_its_parts event.now ≡ true)) }
{
    event.put(out)
}

/// The number that begins at a place, and the place behind it. `None` where fewer than 8 bytes are left.
pub fn take_number(bytes: &[u8], at: usize) -> Option<(u64, usize)>
    requires { at ≤ length bytes.now }
    ensures { Finds spelled_number IsNumber bytes.now at result }
{
    number::take_number(bytes, at)
}

/// The text that begins at a place, and the place behind it. `None` exactly where no spelling of a text begins there.
pub fn take_text(
    alloc: Global,
    bytes: &[u8],
    at: usize,
) -> Result<Option<(Text, usize)>, AllocError>
    requires { at ≤ length bytes.now }
    ensures { IfOk result (λ found. Finds spelled_text IsText bytes.now at found) }
{
    take_field(alloc, bytes, at)
}

/// The row that begins at a place, and the place behind it. `None` exactly where no spelling of a row begins there.
pub fn take_row(alloc: Global, bytes: &[u8], at: usize) -> Result<Option<(Row, usize)>, AllocError>
    requires { at ≤ length bytes.now }
    ensures { IfOk result (λ found. Finds spelled_row IsRow bytes.now at found) }
{
    take_field(alloc, bytes, at)
}

/// The event that begins at a place, and the place behind it. `None` exactly where no spelling of an event begins there.
pub fn take_event(
    alloc: Global,
    bytes: &[u8],
    at: usize,
) -> Result<Option<(Event, usize)>, AllocError>
    requires { at ≤ length bytes.now }
    ensures { IfOk result (λ found. Finds spelled_event (λ event. IsEvent event × (has_its_parts event ≡ true)) bytes.now at found) }
{
    let Some((event, end)) = take_field(alloc, bytes, at)? else {
        return Ok(None);
    };
    if !event::has_its_parts(&event) {
        return Ok(None);
    }
    Ok(Some((event, end)))
}
