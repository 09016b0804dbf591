// Why an update, or the opening of an engine, was cut short.
use std::alloc::AllocError;
use value_core::Name;

/// Why an update was cut short. The engine is given up then; the disk holds the commits made so far, and
/// one in which it failed may be there or not.
#[derive(Debug, Drop)]
pub enum End {
    /// The disk failed in a commit: its count of faults was `count` then.
    Disk { count: u64 },
    /// The output failed at a flow's line.
    Sink,
    /// The log would have to end at `end`, past its room.
    Full { end: u64, room: u64 },
    /// A dataset stands at the last version, 2^62.
    VersionFull { name: Name },
    /// There was no memory.
    Memory,
}

impl From<AllocError> for End {
    ghost use Rattle.std.specs.Prelude.{◌≡◌};
    ghost use Rattle.flow_engine.specs.declared.ends.End.TheVariants.{Memory};

    ghost from_gives = { λ _ e. e ≡ Memory };

    fn from(_: AllocError) -> End {
        End::Memory
    }
}

/// Why an engine was not opened.
#[derive(Debug, Drop)]
pub enum LoadEnd {
    /// The first dataset of the store, as it is stored, from which its plan can't go on. It is met only
    /// in a store that another program wrote.
    Unfit { name: Name },
    /// There was no memory.
    Memory,
}

impl From<AllocError> for LoadEnd {
    ghost use Rattle.std.specs.Prelude.{◌≡◌};
    ghost use Rattle.flow_engine.specs.declared.ends.LoadEnd.TheVariants.{Memory};

    ghost from_gives = { λ _ e. e ≡ Memory };

    fn from(_: AllocError) -> LoadEnd {
        LoadEnd::Memory
    }
}
