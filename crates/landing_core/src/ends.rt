// Why no lines were read.
use disk_model::Failed;
use std::alloc::AllocError;
use value_core::Text;

/// Why the lines weren't read: a listed size (in bytes) is below how far the file was read, the
/// landing failed, which its count shows, or memory ran out.
#[derive(Drop)]
pub enum LineEnd {
    Shrunk { file: Text, cursor: u64, size: u64 },
    Failed,
    Memory,
}

impl From<AllocError> for LineEnd {
    ghost use Rattle.std.specs.Prelude.{◌≡◌};
    ghost use Rattle.landing_core.specs.declared.ends.LineEnd.TheVariants.{Memory};

    ghost from_gives = { λ _ e. e ≡ Memory };

    fn from(_e: AllocError) -> LineEnd {
        LineEnd::Memory
    }
}

impl From<Failed> for LineEnd {
    ghost use Rattle.std.specs.Prelude.{◌≡◌};
    ghost use Rattle.landing_core.specs.declared.ends.LineEnd.TheVariants.{Failed};

    ghost from_gives = { λ _ e. e ≡ Failed };

    fn from(_e: Failed) -> LineEnd {
        LineEnd::Failed
    }
}
