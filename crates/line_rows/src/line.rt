ghost use Rattle.std.specs.Prelude.{◌≡◌, ◌++◌, IfOk, IsTrue};
ghost use Rattle.std.specs.Option.{option_copied};
ghost use Rattle.value_core.specs.Fits.{row_fits};
ghost use Rattle.line_rows.specs.Lines as spec;

use crate::csv_line::csv_reading;
use crate::json_line::json_reading;
use crate::reading::Reading;
use crate::text::{push_hex, text_in};
use std::alloc::{AllocError, Global};
use value_core::{Column, Format, Row, Shape, Text, Value};

fn has_rescued(shape: &Shape) -> bool
    ensures { result ≡ spec.has_rescued shape.now }
{
    shape.rescued && !shape.columns.is_empty()
}

/// The columns that take what a line has: all but the rescued one.
fn columns_of(shape: &Shape) -> &[Column]
    ensures { result.now ≡ spec.columns_of shape.now }
{
    let columns = shape.columns.as_slice();
    if has_rescued(shape) {
        &columns[..columns.len() - 1]
    } else {
        columns
    }
}

/// What is kept of a rescued line: its text, and where it isn't UTF-8 `hex:` and two lower-case hexadecimal digits a byte.
fn rescued_text(alloc: Global, line: &[u8]) -> Result<Text, AllocError>
    ensures { IfOk result (λ text. text ≡ spec.rescued_text line.now) }
{
    if let Some(text) = text_in(line) {
        return Text::new(alloc, text);
    }
    let mut text = String::from_str(alloc, "hex:")?;
    push_hex(&mut text, line)?;
    Ok(Text::from_string(text))
}

/// The value of the rescued column, which is there: the line's text where it is rescued, else NULL.
fn rescued_value(alloc: Global, line: &[u8], is_rescued: bool) -> Result<Value, AllocError>
    ensures { IfOk result (λ value. value ≡ spec.rescued_value line.now is_rescued) }
{
    if is_rescued {
        Ok(Value::Str(rescued_text(alloc, line)?))
    } else {
        Ok(Value::Null)
    }
}

fn reading_of(
    alloc: Global,
    shape: &Shape,
    head: Option<&[u8]>,
    line: &[u8],
) -> Result<Reading, AllocError>
    ensures { IfOk result (λ reading. reading ≡ spec.reading_of_line shape.now (option_copied head.entry) line.now shape.now.format) }
{
    let columns = columns_of(shape);
    match shape.format {
        Format::Json => json_reading(alloc, columns, line),
        Format::Csv => csv_reading(alloc, shape.sep, columns, head, line),
    }
}

/// The row of one line that is neither blank nor the header of its file. Every line has one; it fails for want of memory alone.
///
/// `line` is the line without the LF at its end. `head` is the header line of a CSV file that has one: the columns then
/// find their fields by its names, and by their places without it. It means nothing for JSON.
///
/// What a column refuses is NULL. A line with something that no column took is rescued: its text then stands in the last
/// column, where the shape has a rescued column, which is NULL in every other row. So a row has one value a column, each
/// NULL or of its kind, where a rescued column is a STRING.
pub fn row_of(
    alloc: Global,
    shape: &Shape,
    head: Option<&[u8]>,
    line: &[u8],
) -> Result<Row, AllocError>
    ensures row { IfOk result (λ row. row ≡ spec.row_of shape.now (option_copied head.entry) line.now) }
    ensures fits { IfOk result (λ row. IsTrue (spec.keeps_text shape.now) → IsTrue (row_fits (spec.kinds_of shape.now.columns) row)) }
{
    let reading = reading_of(alloc, shape, head, line)?;
    let mut row = reading.values;
    if has_rescued(shape) {
        row.push(rescued_value(alloc, line, reading.is_rescued)?)?;
    }
    Ok(row)
}
