// A value whose spelling begins at a place, and one whose spelling is all of the bytes.
ghost use Rattle.std.specs.Prelude.{◌≡◌, ◌≤◌, IfOk, OnOk, length};
ghost use Rattle.segment_rows.specs.Exact.{Finds, Spells};

use crate::field::Field;
use std::alloc::{AllocError, Global};

/// The value that begins at a place, and the place behind it. `None` exactly where no spelling begins there.
pub(crate) fn take_field<T: Field>(
    alloc: Global,
    bytes: &[u8],
    at: usize,
) -> Result<Option<(T, usize)>, AllocError>
    requires { at ≤ length bytes.now }
    ensures { IfOk result (λ found. Finds T.spelled T.in_range bytes.now at found) }
{
    T::take(alloc, bytes, at)
}

/// The spelling of a value.
pub fn write_whole<T: Field>(alloc: Global, value: &T) -> Result<Vec<u8>, AllocError>
    ensures bytes { IfOk result (λ bytes. bytes.items ≡ T.spelled value.now) }
    ensures range { OnOk result (T.in_range value.now) }
{
    let mut out = Vec::new(alloc);
    value.put(&mut out)?;
    Ok(out)
}

/// The value that all of the bytes spell. `None` exactly where they are the spelling of none.
pub fn read_whole<T: Field>(alloc: Global, bytes: &[u8]) -> Result<Option<T>, AllocError>
    ensures { IfOk result (λ found. Spells T.spelled T.in_range bytes.now found) }
{
    let Some((value, end)) = T::take(alloc, bytes, 0)? else {
        return Ok(None);
    };
    if end != bytes.len() {
        return Ok(None);
    }
    Ok(Some(value))
}
