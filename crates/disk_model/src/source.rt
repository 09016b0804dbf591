// An input that is read from its front.
ghost use Rattle.std.specs.Prelude.{◌≡◌, ◌≤◌, ℕ, List, length, IfOk};
ghost use Rattle.disk_model.specs.Faults.{HasCause};
ghost use Rattle.disk_model.specs.Streams.{TakesNext};

use crate::Failed;

/// An input of bytes.
pub trait Source {
    /// That the input tells which bytes it has left.
    ghost tells: { Type 0 };

    /// The bytes that are left, where it tells.
    ghost left: { Self → List ℕ };

    /// How often it has failed, up to the last value of a `u64`.
    ghost faults: { Self → ℕ };

    /// Reads some of the next bytes into the front of `into`.
    fn read(&mut self, into: &mut [u8]) -> Result<usize, Failed>
        ensures bound { IfOk result (λ n. n ≤ length into.old) }
        ensures bytes { tells → TakesNext result (length into.old) into.new (left self.old) (left self.new) }
        ensures cause { HasCause (faults self.old) (faults self.new) result };
}
