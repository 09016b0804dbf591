// Lists of rows in row order.
ghost use Rattle.std.specs.Prelude.{◌≡◌, IfOk};
ghost use Rattle.value_core.specs.Bags.{in_row_order};

use std::alloc::AllocError;
use value_core::{ListOf, Rows};

/// The rows in row order, each as often as before. Fails for want of memory alone.
pub fn in_order(rows: Rows) -> Result<Rows, AllocError>
    ensures { IfOk result (λ sorted. sorted ≡ in_row_order rows) }
{
    let mut sorted = rows.into_vec();
    sorted.sort()?;
    Ok(ListOf::from_vec(sorted))
}
