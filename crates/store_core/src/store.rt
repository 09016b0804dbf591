// A store in memory.
ghost use Rattle.std.specs.Prelude.{◌≡◌, ◌↔◌, IsTrue};
ghost use Rattle.std.specs.Option.{option_copied, option_map, option_and_then};

use commit_gate::Log;
use commit_records::{Definitions, Payload};
use std::alloc::Global;
use store_state::{Contents, Table};
use value_core::{Cursor, Name, Tallies};

/// Datasets in memory, and the log of the left file of a disk that keeps them.
#[derive(Drop)]
pub struct Store {
    pub(crate) alloc: Global,
    pub(crate) log: Log,
    pub(crate) contents: Contents,
    pub(crate) broken: Option<u64>,
}

impl Store {
    ghost use Rattle.store_state.specs.Dataset.{counts_of, cursor_of, dataset_of, definitions_of, versions_of};
    ghost use Rattle.store_state.specs.State.{IsNext, WithinVersions};
    ghost use Rattle.store_core.specs.Store.{store_state, store_broken};

    /// The disk's count of faults at which a commit failed, if one did. From then on the store answers
    /// each commit so, and has to be loaded anew.
    pub fn broken(&self) -> Option<u64>
        ensures { result ≡ store_broken self.now }
    {
        self.broken
    }

    /// Whether a payload follows what the store holds: it may be written, names what is there, is of the
    /// defined shape, goes on where the last one ended, and passes no limit. One that does may be
    /// committed.
    pub fn follows(&self, payload: &Payload) -> bool
        ensures { IsTrue result ↔ (IsNext (store_state self.now) payload.now × WithinVersions (store_state self.now) payload.now) }
    {
        self.contents.follows(payload)
    }

    /// The definitions of the datasets, in their order.
    pub fn definitions(&self) -> &Definitions
        ensures { result.now ≡ definitions_of (store_state self.now) }
    {
        self.contents.definitions()
    }

    /// The versions that are kept of the dataset of a name. `None` exactly where there is none.
    pub fn table(&self, name: &Name) -> Option<&Table>
        ensures { option_copied result ≡ option_map versions_of (dataset_of (store_state self.now) name.now) }
    {
        self.contents.table(name)
    }

    /// How far a flow of a dataset has read. `None` exactly where there is no such dataset or flow.
    pub fn cursor(&self, name: &Name, flow: &Name) -> Option<&Cursor>
        ensures { option_copied result ≡ option_and_then (λ dataset. cursor_of dataset flow.now) (dataset_of (store_state self.now) name.now) }
    {
        self.contents.cursor(name, flow)
    }

    /// The counts of a dataset's expectations, in their order. `None` exactly where there is no such
    /// dataset.
    pub fn tallies(&self, name: &Name) -> Option<&Tallies>
        ensures { option_copied result ≡ option_map counts_of (dataset_of (store_state self.now) name.now) }
    {
        self.contents.tallies(name)
    }
}
