// Why a store was not loaded.
ghost use Rattle.std.specs.Prelude.{◌≡◌};
ghost use Rattle.store_core.specs.Refusals.{refusal_of_log, refusal_of_append};
ghost use Rattle.store_core.specs.declared.refusal.StoreRefusal.TheVariants.{Failed as failed, Memory};

use commit_gate::{AppendEnd, LogRefusal};
use disk_model::{Failed, Side};
use std::alloc::AllocError;

/// Why a store was not loaded.
#[derive(Clone, Copy, Debug, PartialEq, Eq)]
pub enum StoreRefusal {
    /// The file holds no live log, and with `len` bytes it is longer than a new log.
    Foreign { side: Side, len: u64 },
    /// The gate at this place is missing, or open with no whole record behind it; or the record behind
    /// it holds no payload, or one that doesn't follow those before it.
    Damaged { side: Side, at: u64 },
    /// A new log would end at `end`, beyond the file's room.
    Full { end: u64, room: u64 },
    /// The disk failed.
    Failed,
    /// There was no memory.
    Memory,
}

impl From<Failed> for StoreRefusal {
    ghost from_gives = { λ _ e. e ≡ failed };

    fn from(_: Failed) -> StoreRefusal {
        StoreRefusal::Failed
    }
}

impl From<LogRefusal> for StoreRefusal {
    ghost from_gives = { λ refusal e. e ≡ refusal_of_log refusal };

    fn from(refusal: LogRefusal) -> StoreRefusal {
        match refusal {
            LogRefusal::Damaged { at } => StoreRefusal::Damaged {
                side: Side::Left,
                at,
            },
            LogRefusal::Failed => StoreRefusal::Failed,
            LogRefusal::Memory => StoreRefusal::Memory,
        }
    }
}

impl From<AppendEnd> for StoreRefusal {
    ghost from_gives = { λ end e. e ≡ refusal_of_append end };

    fn from(end: AppendEnd) -> StoreRefusal {
        match end {
            AppendEnd::Full { end, room } => StoreRefusal::Full { end, room },
            AppendEnd::Failed => StoreRefusal::Failed,
        }
    }
}

impl From<AllocError> for StoreRefusal {
    ghost from_gives = { λ _ e. e ≡ Memory };

    fn from(_: AllocError) -> StoreRefusal {
        StoreRefusal::Memory
    }
}
