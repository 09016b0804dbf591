// An output that is written at its end.
ghost use Rattle.std.specs.Prelude.{◌≡◌, ℕ, List};
ghost use Rattle.disk_model.specs.Faults.{HasCauseOf};
ghost use Rattle.disk_model.specs.Streams.{Appends};

/// Why a write to an output may fail: the outside did, which its count shows, or memory ran out.
#[derive(Clone, Copy, Debug, PartialEq, Eq)]
pub enum SinkFault {
    Failed,
    Memory,
}

/// An output of bytes.
pub trait Sink {
    /// That the output tells which bytes it got.
    ghost tells: { Type 0 };

    /// The bytes that it got, where it tells.
    ghost written: { Self → List ℕ };

    /// How often it has failed, up to the last value of a `u64`.
    ghost faults: { Self → ℕ };

    /// Writes the whole piece.
    fn write(&mut self, piece: &[u8]) -> Result<(), SinkFault>
        ensures bytes { tells → Appends result piece.now (written self.old) (written self.new) }
        ensures cause { HasCauseOf SinkFault.Failed (faults self.old) (faults self.new) result };
}
