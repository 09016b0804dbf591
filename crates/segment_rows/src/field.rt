ghost use Rattle.std.specs.Prelude.{◌≡◌, ◌≤◌, ◌++◌, ℕ, List, Option, length, OnOk, IfOk};
ghost use Rattle.segment_rows.specs.Exact.{IsExact};
ghost use Rattle.segment_rows.specs.Reading.{Reads};

use std::alloc::{AllocError, Global};

/// A value that bytes spell in one way.
pub trait Field: Drop {
    /// The bytes that stand for it.
    ghost spelled: { Self → List ℕ };

    /// Whether a value of the type may be this one: numbers are in range, and texts are UTF-8.
    ghost in_range: { Self → Type 0 };

    /// What stands at the front of bytes, and the bytes behind it.
    ghost reading: { List ℕ → Option (Self × List ℕ) };

    /// Appends the spelling. After an error `out` is given up.
    fn put(&self, out: &mut Vec<u8>) -> Result<(), AllocError>
        ensures bytes { OnOk result (out.new.items ≡ out.old.items ++ spelled self.now) }
        ensures range { OnOk result (in_range self.now) };

    /// Reads the value that begins at a place, and the place behind it.
    fn take(alloc: Global, bytes: &[u8], at: usize) -> Result<Option<(Self, usize)>, AllocError>
        requires { at ≤ length bytes.now }
        ensures { IfOk result (λ found. Reads reading bytes.now at found) };

    /// The reading takes each spelling of a value in range, and nothing else.
    ghost exact: { IsExact spelled in_range reading };
}
