// The rows of lines.
ghost use Rattle.std.specs.Prelude.{◌≡◌, true, List, IsTrue, IfOk, [], slice_index_or};
ghost use Rattle.value_core.specs.Bags.{in_row_order, IsInOrder};
ghost use Rattle.value_core.specs.declared.schema.Column.{Column};
ghost use Rattle.value_core.specs.declared.value.Value.TheVariants.{Null};
ghost use Rattle.line_rows.specs.Lines.{keeps_text, row_of as row_by};
ghost use Rattle.landing_history.specs.Taken.{with_heads};
ghost use Rattle.store_state.specs.Follows.{all_fit, is_row_of};
ghost use Rattle.table_update.specs.Table.{columns_of, head_given, is_sound, rows_of, selected};

use crate::table::{AppendTable, Output, Outputs};
use landing_core::{FreshLine, Heads};
use line_rows::row_of;
use std::alloc::{AllocError, Global};
use value_core::{ListOf, Row, Rows, Shape, Value};

/// The head of the file of a number, empty where there is none.
fn head_of(heads: &Heads, file: u64) -> &[u8]
    ensures { result.now ≡ slice_index_or heads.now file [] }
{
    match heads.as_slice().get(file as usize) {
        Some(head) => head.as_slice(),
        None => &[],
    }
}

/// The row that a line has, under the head of its file where lines have one.
fn line_row(
    alloc: Global,
    shape: &Shape,
    heads: &Heads,
    line: &FreshLine,
) -> Result<Row, AllocError>
    requires { IsTrue (keeps_text shape.now) }
    ensures row { IfOk result (λ row. row ≡ row_by shape.now (head_given shape.now (slice_index_or heads.now line.now.file [])) line.now.line) }
    ensures fits { IfOk result (λ row. is_row_of shape.now.columns row ≡ true) }
{
    let head = if shape.header {
        Some(head_of(heads, line.file))
    } else {
        None
    };
    row_of(alloc, shape, head, line.line.as_slice())
}

/// The value that an output takes of a row, NULL where the row has none at its place.
fn output_value(alloc: Global, output: &Output, row: &Row) -> Result<Value, AllocError>
    ensures { IfOk result (λ value. value ≡ slice_index_or row.now output.now.place Null) }
{
    match row.as_slice().get(output.place) {
        Some(value) => value.copy(alloc),
        None => Ok(Value::Null),
    }
}

/// The values that outputs take of a row.
fn selection(alloc: Global, outputs: &Outputs, row: &Row) -> Result<Row, AllocError>
    ensures { IfOk result (λ values. values ≡ selected outputs.now row.now) }
{
    let mut values = ListOf::new(alloc);
    for output in outputs.as_slice() {
        values.push(output_value(alloc, output, row)?)?;
    }
    Ok(values)
}

/// The row that the table has of a line.
fn row(
    alloc: Global,
    table: &AppendTable,
    heads: &Heads,
    line: &FreshLine,
) -> Result<Row, AllocError>
    requires { IsTrue (is_sound table.now) }
    ensures row { IfOk result (λ row. row ≡ selected table.now.outputs (row_by table.now.shape (head_given table.now.shape (slice_index_or heads.now line.now.file [])) line.now.line)) }
    ensures fits { IfOk result (λ row. is_row_of (columns_of table.now.outputs) row ≡ true) }
{
    let whole = line_row(alloc, &table.shape, heads, line)?;
    selection(alloc, &table.outputs, &whole)
}

/// A row a line, in the order of the lines.
fn rows_in_order(
    alloc: Global,
    table: &AppendTable,
    heads: &Heads,
    lines: &[FreshLine],
) -> Result<Vec<Row>, AllocError>
    requires { IsTrue (is_sound table.now) }
    ensures rows { IfOk result (λ rows. rows.items ≡ rows_of table.now (with_heads heads.now lines.now)) }
    ensures fits { IfOk result (λ rows. all_fit (columns_of table.now.outputs) rows.items ≡ true) }
{
    let mut rows = Vec::new(alloc);
    for line in lines {
        rows.push(row(alloc, table, heads, line)?)?;
    }
    Ok(rows)
}

/// Puts rows in row order.
fn sort(rows: &mut Vec<Row>)
    ensures rows { rows.new.items ≡ in_row_order rows.old.items }
    ensures fits { (columns : List Column) → all_fit columns rows.old.items ≡ true → all_fit columns rows.new.items ≡ true }
{
    rows.sort_unstable();
}

/// A row a line, in row order.
pub(crate) fn sorted_rows(
    alloc: Global,
    table: &AppendTable,
    heads: &Heads,
    lines: &[FreshLine],
) -> Result<Rows, AllocError>
    requires { IsTrue (is_sound table.now) }
    ensures rows { IfOk result (λ rows. rows ≡ in_row_order (rows_of table.now (with_heads heads.now lines.now))) }
    ensures fits { IfOk result (λ rows. all_fit (columns_of table.now.outputs) rows ≡ true) }
    ensures order { IfOk result IsInOrder }
{
    let mut rows = rows_in_order(alloc, table, heads, lines)?;
    sort(&mut rows);
    Ok(ListOf::from_vec(rows))
}
