// Tables and rows as they are printed.
ghost use Rattle.std.specs.Prelude.{◌≡◌, ◌++◌, IfOk, OnOk};
ghost use Rattle.std.specs.Fmt.{signed_decimal};
ghost use Rattle.report_text.specs.Rows.{more_names, more_values, print_names, print_row, print_rows, print_table, print_value, truth_word as the_truth_word};

use crate::words::{put, put_named, put_word};
use std::alloc::{AllocError, Global};
use value_core::{Column, Row, Rows, Schema, Value};

fn truth_word(truth: bool) -> &'static str
    ensures { result.now ≡ the_truth_word truth }
{
    if truth { "true" } else { "false" }
}

fn put_int(alloc: Global, out: &mut Vec<u8>, number: i32) -> Result<(), AllocError>
    ensures { OnOk result (out.new.items ≡ out.old.items ++ signed_decimal number) }
{
    let digits = format!(in alloc; "{number}")?;
    put(out, digits.as_str())
}

fn put_big(alloc: Global, out: &mut Vec<u8>, number: i64) -> Result<(), AllocError>
    ensures { OnOk result (out.new.items ≡ out.old.items ++ signed_decimal number) }
{
    let digits = format!(in alloc; "{number}")?;
    put(out, digits.as_str())
}

fn put_value(alloc: Global, out: &mut Vec<u8>, value: &Value) -> Result<(), AllocError>
    ensures { OnOk result (out.new.items ≡ out.old.items ++ print_value value.now) }
{
    match value {
        Value::Null => put(out, "\\N"),
        Value::Bool(truth) => put(out, truth_word(*truth)),
        Value::Int(number) => put_int(alloc, out, *number),
        Value::Big(number) => put_big(alloc, out, *number),
        Value::Str(text) => put_word(out, text.as_str()),
    }
}

fn put_more_values(alloc: Global, out: &mut Vec<u8>, values: &[Value]) -> Result<(), AllocError>
    ensures { OnOk result (out.new.items ≡ out.old.items ++ more_values values.now) }
{
    for value in values {
        put(out, "|")?;
        put_value(alloc, out, value)?;
    }
    Ok(())
}

/// Puts the values of a row, joined by `|`, behind what `out` has.
pub(crate) fn put_row(alloc: Global, out: &mut Vec<u8>, row: &Row) -> Result<(), AllocError>
    ensures { OnOk result (out.new.items ≡ out.old.items ++ print_row row.now) }
{
    let Some((first, more)) = row.as_slice().split_first() else {
        return Ok(());
    };
    put_value(alloc, out, first)?;
    put_more_values(alloc, out, more)
}

fn put_more_names(out: &mut Vec<u8>, columns: &[Column]) -> Result<(), AllocError>
    ensures { OnOk result (out.new.items ≡ out.old.items ++ more_names columns.now) }
{
    for column in columns {
        put_named(out, "|", column.name.as_str())?;
    }
    Ok(())
}

fn put_names(out: &mut Vec<u8>, columns: &[Column]) -> Result<(), AllocError>
    ensures { OnOk result (out.new.items ≡ out.old.items ++ print_names columns.now) }
{
    let Some((first, more)) = columns.split_first() else {
        return Ok(());
    };
    put_word(out, first.name.as_str())?;
    put_more_names(out, more)
}

fn put_rows(alloc: Global, out: &mut Vec<u8>, rows: &[Row]) -> Result<(), AllocError>
    ensures { OnOk result (out.new.items ≡ out.old.items ++ print_rows rows.now) }
{
    for row in rows {
        put_row(alloc, out, row)?;
        out.push(b'\n')?;
    }
    Ok(())
}

/// What is printed of a table: the names of its columns as a row, and then its rows as they stand, each line ended by
/// LF. `Err` for want of memory alone.
pub fn table_text(alloc: Global, columns: &Schema, rows: &Rows) -> Result<Vec<u8>, AllocError>
    ensures { IfOk result (λ text. text.items ≡ print_table columns.now rows.now) }
{
    let mut text = Vec::new(alloc);
    put_names(&mut text, columns.as_slice())?;
    text.push(b'\n')?;
    put_rows(alloc, &mut text, rows.as_slice())?;
    Ok(text)
}
