// A store in memory.
ghost use Rattle.std.specs.Prelude.{◌≡◌, ◌+◌, ◌↔◌, IfOk, IsTrue, MatchOption, length};
ghost use Rattle.std.specs.Option.{option_copied, option_map, option_and_then};

use commit_payloads::{Definitions, Payload};
use log_pair::Pair;
use payload_rules::follows;
use std::alloc::{AllocError, Global};
use std::sync::ledger::Ledger;
use store_tables::Contents;
use table_versions::Table;
use value_core::{Cursor, Events, Name, Steps, Tallies};

/// Datasets in memory, and the two logs of a disk that keep them.
#[derive(Drop)]
pub struct Store {
    pub(crate) alloc: Global,
    pub(crate) pair: Pair,
    pub(crate) contents: Contents,
    pub(crate) broken: Option<u64>,
}

impl Store {
    ghost use Rattle.commit_payloads.specs.Payloads.{IsWritable};
    ghost use Rattle.state_model.specs.Dataset.{cursor_of, dataset_of, definitions_of};
    ghost use Rattle.state_model.specs.Follows.{MayFollow};
    ghost use Rattle.store_tables.specs.Parts.{counts_of, events_of, table_of};
    ghost use Rattle.pair_store.specs.Store.{store_state, store_broken};

    /// The disk's count of faults at which a commit or a compaction failed, if one did. From then on the
    /// store answers each of them so, and has to be loaded anew.
    pub fn broken(&self) -> Option<u64>
        ensures { result ≡ store_broken self.now }
    {
        self.broken
    }

    /// Whether a payload follows what the store holds: it may be written, names what is there, is of the
    /// defined shape, goes on where the last one ended, and passes no limit. One that does may be
    /// committed. `Err` for want of memory alone.
    pub fn follows<L: Ledger>(
        &self,
        payload: &Payload,
        steps: &mut Steps<L>,
    ) -> Result<bool, AllocError>
        ensures follow { IfOk result (λ follow. IsTrue follow ↔ MayFollow (store_state self.now) payload.now) }
        ensures form { IfOk result (λ follow. IsTrue follow → IsWritable payload.now) }
    {
        follows(self.alloc, &self.contents, payload, steps)
    }

    /// The definitions of the datasets, in their order.
    pub fn definitions(&self) -> &Definitions
        ensures { result.now ≡ definitions_of (store_state self.now) }
    {
        self.contents.definitions()
    }

    /// The versions that are kept of the dataset of a name. `None` exactly where there is none.
    pub fn table(&self, name: &Name) -> Option<&Table>
        ensures { option_copied result ≡ option_map table_of (dataset_of (store_state self.now) name.now) }
    {
        self.contents.table(name)
    }

    /// How far a flow of a dataset has read. `None` exactly where there is no such dataset or flow.
    pub fn cursor(&self, name: &Name, flow: &Name) -> Option<&Cursor>
        ensures { option_copied result ≡ option_and_then (λ dataset. cursor_of dataset flow.now) (dataset_of (store_state self.now) name.now) }
    {
        self.contents.cursor(name, flow)
    }

    /// The counts of a dataset's expectations, in their order. `None` exactly where there is no such
    /// dataset.
    pub fn tallies(&self, name: &Name) -> Option<&Tallies>
        ensures { option_copied result ≡ option_map counts_of (dataset_of (store_state self.now) name.now) }
    {
        self.contents.tallies(name)
    }

    /// The events of a dataset, by key and then by sequence. `None` exactly where there is no such
    /// dataset. It counts one look for each event that it hands out.
    pub fn events<L: Ledger>(&self, name: &Name, steps: &mut Steps<L>) -> Option<&Events>
        ensures events { option_copied result ≡ option_map events_of (dataset_of (store_state self.now) name.now) }
        ensures looks { MatchOption result (steps.new ≡ steps.old) (λ events. steps.new ≡ steps.old + length events.now) }
    {
        self.contents.events(name, steps)
    }
}
