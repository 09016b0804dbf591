// Why a store did not take the next state.
ghost use Rattle.std.specs.Prelude.{◌≡◌};
ghost use Rattle.pair_store.specs.declared.ends.CommitEnd.TheVariants.{Memory};

use std::alloc::AllocError;
use value_core::Name;

/// Why a payload was not committed, or a store not compacted.
#[derive(Debug, Drop)]
pub enum CommitEnd {
    /// The disk failed, now or in an earlier call: its count of faults was `count` then.
    Failed { count: u64 },
    /// The file would end at `end`, beyond its room.
    Full { end: u64, room: u64 },
    /// A dataset that the payload gives a version stands at the last one, 2^62. No compaction answers so.
    VersionFull { name: Name },
    /// The log's epoch is the last one. No commit answers so.
    EpochFull { epoch: u64 },
    /// There was no memory.
    Memory,
}

impl From<AllocError> for CommitEnd {
    ghost from_gives = { λ _ e. e ≡ Memory };

    fn from(_: AllocError) -> CommitEnd {
        CommitEnd::Memory
    }
}
