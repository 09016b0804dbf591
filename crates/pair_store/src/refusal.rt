// Why a store was not loaded.
ghost use Rattle.std.specs.Prelude.{◌≡◌};
ghost use Rattle.pair_store.specs.Refusals.{refusal_of_pair};
ghost use Rattle.pair_store.specs.declared.refusal.StoreRefusal.TheVariants.{Memory};

use disk_model::Side;
use log_pair::PairRefusal;
use std::alloc::AllocError;

/// Why a store was not loaded.
#[derive(Clone, Copy, Debug, PartialEq, Eq)]
pub enum StoreRefusal {
    /// Neither file holds a live log, and with `len` bytes this one is longer than a new log.
    Foreign { side: Side, len: u64 },
    /// The gate at this place is missing, or open with no whole record behind it; or the record behind
    /// it holds no payload, or one that doesn't follow those before it.
    Damaged { side: Side, at: u64 },
    /// Both logs are live with this epoch.
    SameEpoch { epoch: u64 },
    /// A first log would end at `end`, beyond the file's room.
    Full { end: u64, room: u64 },
    /// The disk failed.
    Failed,
    /// There was no memory.
    Memory,
}

/// The refusal of a pair as that of the store.
pub(crate) fn refusal_of(refusal: PairRefusal) -> StoreRefusal
    ensures { result ≡ refusal_of_pair refusal }
{
    match refusal {
        PairRefusal::Foreign { side, len } => StoreRefusal::Foreign { side, len },
        PairRefusal::Damaged { side, at } => StoreRefusal::Damaged { side, at },
        PairRefusal::SameEpoch { epoch } => StoreRefusal::SameEpoch { epoch },
        PairRefusal::Full { end, room } => StoreRefusal::Full { end, room },
        PairRefusal::Failed => StoreRefusal::Failed,
        PairRefusal::Memory => StoreRefusal::Memory,
    }
}

impl From<AllocError> for StoreRefusal {
    ghost from_gives = { λ _ e. e ≡ Memory };

    fn from(_: AllocError) -> StoreRefusal {
        StoreRefusal::Memory
    }
}
