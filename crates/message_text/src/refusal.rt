use pair_store::{CommitEnd, StoreRefusal};
use plan_check::CheckRefusal;
use sql_tokens::SqlRefusal;
use std::alloc::AllocError;
use update_plan::PlanEnd;
use value_core::Name;

/// Why a run ends before all of its commands succeeded.
#[derive(Debug, Drop)]
pub enum Refusal {
    /// The words are of no form.
    Usage,
    /// The pipeline text couldn't be read.
    TextFailed,
    /// The text has no reading.
    Unread(SqlRefusal),
    /// Its statements break a check, or have a cycle.
    Unchecked(CheckRefusal),
    /// An update can't run the statement of this number, from 1.
    NotBuilt {
        statement: u32,
    },
    /// The store couldn't be loaded.
    Unloaded(StoreRefusal),
    /// The update is refused before it commits anything.
    Unplanned(PlanEnd),
    /// A stored dataset from which the plan can't go on.
    Unfit {
        name: Name,
    },
    /// A payload wasn't committed, or the store not compacted.
    Uncommitted(CommitEnd),
    /// No dataset of this name is stored.
    UnknownTable {
        name: Name,
    },
    /// A version of a dataset that isn't kept, and those that are.
    NoVersion {
        name: Name,
        asked: u64,
        base: u64,
        now: u64,
    },
    /// The output couldn't be written.
    SinkFailed,
    /// There was no memory.
    Memory,
}

impl From<AllocError> for Refusal {
    ghost use Rattle.std.specs.Prelude.{◌≡◌};
    ghost use Rattle.message_text.specs.declared.refusal.Refusal.TheVariants.{Memory};

    ghost from_gives = { λ _ e. e ≡ Memory };

    fn from(_: AllocError) -> Refusal {
        Refusal::Memory
    }
}
