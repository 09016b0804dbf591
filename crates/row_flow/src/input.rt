// What a flow reads, as rows.
ghost use Rattle.std.specs.Prelude.{◌≡◌, IfOk, [], slice_index_or};
ghost use Rattle.row_flow.specs.Rows.{line_row};

use landing_core::{Fresh, FreshLine, Heads};
use line_rows::row_of;
use std::alloc::{AllocError, Global};
use value_core::{Row, Rows, Shape};

/// What a flow reads: the new lines of a landing folder with the heads of their files, or rows of
/// another dataset. Its rows have the numbers from 1 on, in their order.
#[derive(Clone, Copy)]
pub enum Input<'a> {
    Lines(&'a Fresh),
    Rows(&'a Rows),
}

/// The head of the file of a number, empty where there is none.
fn head_of(heads: &Heads, file: u64) -> &[u8]
    ensures { result.now ≡ slice_index_or heads.now file [] }
{
    match heads.as_slice().get(file as usize) {
        Some(head) => head.as_slice(),
        None => &[],
    }
}

/// The row of a line, under the head of its file where lines have one.
pub(crate) fn row_of_line(
    alloc: Global,
    shape: &Shape,
    heads: &Heads,
    line: &FreshLine,
) -> Result<Row, AllocError>
    ensures { IfOk result (λ row. row ≡ line_row shape.now heads.now line.now) }
{
    let head = if shape.header {
        Some(head_of(heads, line.file))
    } else {
        None
    };
    row_of(alloc, shape, head, line.line.as_slice())
}
