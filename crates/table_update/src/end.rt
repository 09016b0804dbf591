// How an update ends.
use std::alloc::AllocError;
use value_core::{Name, Text};

/// How an update of one append table ends, or of a pipeline without one.
#[derive(Debug, Drop)]
pub enum UpdateEnd {
    /// The disk failed while the store was loaded.
    LoadFailed,
    /// The store's file, of so many bytes, is no store's.
    Foreign {
        len: u64,
    },
    /// The store's file is damaged: the gate at this place is missing, or what is behind it is no payload
    /// that follows.
    Damaged {
        at: u64,
    },
    /// The store has a dataset of this name, which is not the table, or there is no table.
    Removed {
        name: Name,
    },
    /// The table's stored text isn't the given one.
    Changed {
        name: Name,
        stored: Text,
        given: Text,
    },
    /// The stored text is the given one, but other parts of the definition differ, as only another program
    /// writes them.
    Unfit {
        name: Name,
    },
    /// The store's file would have to end past its room.
    Full {
        end: u64,
        room: u64,
    },
    /// The table stands at the last version, 2^62.
    VersionFull {
        name: Name,
    },
    /// The disk failed in a commit.
    CommitFailed,
    /// The landing failed.
    LandingFailed,
    /// A landing file is shorter than how far it was read.
    Shrunk {
        file: Text,
        cursor: u64,
        size: u64,
    },
    /// There was nothing new, or no table to take it.
    Current,
    /// So many lines were taken, and the table has this version now.
    Completed {
        read: u64,
        version: u64,
    },
    /// Memory ran out.
    Memory,
}

impl From<AllocError> for UpdateEnd {
    ghost use Rattle.std.specs.Prelude.{◌≡◌};
    ghost use Rattle.table_update.specs.declared.end.UpdateEnd.TheVariants.{Memory};

    ghost from_gives = { λ _ e. e ≡ Memory };

    fn from(_: AllocError) -> UpdateEnd {
        UpdateEnd::Memory
    }
}
