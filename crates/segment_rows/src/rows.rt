// Rows as bytes: how many, and each row; a row is how many values, and each value.
ghost use Rattle.std.specs.Prelude.{◌≡◌, IfOk, OnOk};
ghost use Rattle.segment_rows.specs.Exact.{Spells};
ghost use Rattle.segment_rows.specs.Ranges.{AreRows};
ghost use Rattle.segment_rows.specs.Spelling.{spelled_rows};

use crate::whole::{read_whole, write_whole};
use std::alloc::{AllocError, Global};
use value_core::Rows;

/// The one spelling of the rows, in the order in which they stand.
pub fn write_rows(alloc: Global, rows: &Rows) -> Result<Vec<u8>, AllocError>
    ensures bytes { IfOk result (λ bytes. bytes.items ≡ spelled_rows rows.now) }
    ensures range { OnOk result (AreRows rows.now) }
{
    write_whole(alloc, rows)
}

/// The rows that the bytes spell, all of the bytes. `None` exactly where they are the spelling of no rows.
pub fn read_rows(alloc: Global, bytes: &[u8]) -> Result<Option<Rows>, AllocError>
    ensures { IfOk result (λ found. Spells spelled_rows AreRows bytes.now found) }
{
    read_whole(alloc, bytes)
}
