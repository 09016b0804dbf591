ghost use Rattle.std.specs.Prelude.{◌≡◌, IfOk, option_map};
ghost use Rattle.serde_json.specs.View.{view, members_view};
ghost use Rattle.line_rows.specs.Json as spec;

use crate::reading::Reading;
use crate::text::text_in;
use serde_json::{Map, Value as Json};
use std::alloc::{AllocError, Global};
use value_core::{Column, Kind, Text, Value};

/// The number of an INT, where 32 bits hold it.
fn int_in(number: Option<i64>) -> Option<i32>
    ensures { result ≡ spec.int_in number }
{
    match number {
        Some(number) => i32::try_from(number).ok(),
        None => None,
    }
}

/// The text of a string, the digits of a whole number or the word of a boolean.
fn text_of(alloc: Global, json: &Json) -> Result<Option<Text>, AllocError>
    ensures { IfOk result (λ text. text ≡ spec.text_of (view json.now)) }
{
    match json {
        Json::String(text) => Ok(Some(Text::new(alloc, text.as_str())?)),
        Json::Number(number) => match number.as_i64() {
            Some(number) => Ok(Some(Text::from_string(number.to_string(alloc)?))),
            None => Ok(None),
        },
        Json::Bool(true) => Ok(Some(Text::new(alloc, "true")?)),
        Json::Bool(false) => Ok(Some(Text::new(alloc, "false")?)),
        _ => Ok(None),
    }
}

/// What a column of a kind takes from a value. `None` where it refuses it.
fn json_value(alloc: Global, kind: Kind, json: &Json) -> Result<Option<Value>, AllocError>
    ensures { IfOk result (λ value. value ≡ spec.json_value kind (view json.now)) }
{
    if json.is_null() {
        return Ok(Some(Value::Null));
    }
    match kind {
        Kind::Bool => Ok(json.as_bool().map(Value::Bool)),
        Kind::Int => Ok(int_in(json.as_i64()).map(Value::Int)),
        Kind::Big => Ok(json.as_i64().map(Value::Big)),
        Kind::Str => Ok(text_of(alloc, json)?.map(Value::Str)),
    }
}

/// What a column takes from an object: NULL where it has no member of the column's name.
fn json_member(alloc: Global, json: &Json, column: &Column) -> Result<Option<Value>, AllocError>
    ensures { IfOk result (λ value. value ≡ spec.json_member (view json.now) column.now) }
{
    match json.get(column.name.as_str()) {
        Some(member) => json_value(alloc, column.kind, member),
        None => Ok(Some(Value::Null)),
    }
}

/// Whether a column has this name.
fn is_named(columns: &[Column], name: &str) -> bool
    ensures { result ≡ spec.is_named columns.now name.now }
{
    columns.iter().any(|column| column.name.as_str() == name)
}

fn is_stray(columns: &[Column], name: &str, json: &Json) -> bool
    ensures { result ≡ spec.is_stray columns.now (name.now, view json.now) }
{
    !json.is_null() && !is_named(columns, name)
}

fn any_stray(columns: &[Column], members: &Map<String, Json>) -> bool
    ensures { result ≡ spec.has_stray columns.now (members_view members.now.entries) }
{
    members
        .iter()
        .any(|(name, member)| is_stray(columns, name.as_str(), member))
}

/// Whether an object has a member other than null that no column names.
fn has_stray_member(columns: &[Column], json: &Json) -> bool
    ensures { result ≡ spec.has_stray_member columns.now (view json.now) }
{
    match json.as_object() {
        Some(members) => any_stray(columns, members),
        None => false,
    }
}

/// The object that a line is. `None` where it isn't UTF-8, `serde_json` doesn't read it, or it is another value (RFC 8259 section 4).
fn object_of(alloc: Global, line: &[u8]) -> Result<Option<Json>, AllocError>
    ensures { IfOk result (λ json. option_map view json ≡ spec.object_of line.now) }
{
    let Some(text) = text_in(line) else {
        return Ok(None);
    };
    match Json::from_str(alloc, text) {
        Ok(json) if json.is_object() => Ok(Some(json)),
        Ok(_) => Ok(None),
        Err(error) if error.is_memory() => Err(AllocError),
        Err(_) => Ok(None),
    }
}

#[tactic(auto, using(crate::proofs::ReadingLemmas::reading_more))]
fn object_reading(alloc: Global, columns: &[Column], json: &Json) -> Result<Reading, AllocError>
    ensures { IfOk result (λ reading. reading ≡ spec.object_reading columns.now (view json.now)) }
{
    let mut reading = Reading::new(alloc, has_stray_member(columns, json));
    for column in columns {
        reading.push(json_member(alloc, json, column)?)?;
    }
    Ok(reading)
}

/// The reading of a JSON line. Of members that repeat the last one counts, as `serde_json` reads them.
pub fn json_reading(alloc: Global, columns: &[Column], line: &[u8]) -> Result<Reading, AllocError>
    ensures { IfOk result (λ reading. reading ≡ spec.json_reading columns.now line.now) }
{
    match object_of(alloc, line)? {
        Some(json) => object_reading(alloc, columns, &json),
        None => Reading::malformed(alloc, columns),
    }
}
