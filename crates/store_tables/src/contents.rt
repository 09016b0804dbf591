// What a store has of its datasets.
ghost use Rattle.std.specs.Prelude.{◌≡◌, ◌+◌, true, length, None, Some, MatchOption};
ghost use Rattle.std.specs.Option.{option_copied, option_map, option_and_then};

use crate::find::{cursor_named, place_of};
use crate::part::Part;
use commit_payloads::{Definition, Definitions};
use std::alloc::Global;
use std::marker::Model;
use std::sync::ledger::Ledger;
use table_versions::Table;
use value_core::{Cursor, Event, Events, ListOf, Name, Steps, Tallies};

/// The datasets of a store, no two of one name: their definitions, and beside each what is kept of it. It keeps the
/// allocator that it grows by. Contracts see the list of the datasets.
#[derive(Drop)]
pub struct Contents {
    pub(crate) alloc: Global,
    pub(crate) definitions: Definitions,
    pub(crate) parts: Vec<Part>,
}

impl Model for Contents {
    ghost use Rattle.state_model.specs.Dataset.{State};
    ghost use Rattle.store_tables.specs.Parts.{AreBeside, side_by_side};

    ghost Value = { State };

    ghost view = { λ contents. side_by_side contents.definitions contents.parts.items };

    ghost invariant = { λ contents. AreBeside contents.definitions contents.parts.items };
}

/// Counts one look an event.
pub(crate) fn count_events<L: Ledger>(events: &[Event], steps: &mut Steps<L>)
    ensures { steps.new ≡ steps.old + length events.now }
{
    for _event in events {
        steps.tick();
    }
}

impl Contents {
    ghost use Rattle.state_model.specs.Dataset.{cursor_of, dataset_of, definition_of, definitions_of, empty_state};
    ghost use Rattle.state_model.specs.Follows.{are_distinct};
    ghost use Rattle.store_tables.specs.Parts.{counts_of, events_of, joined, table_of};

    /// No dataset. Takes no memory.
    pub fn new(alloc: Global) -> Contents
        ensures { result ≡ empty_state }
    {
        Contents {
            alloc,
            definitions: ListOf::new(alloc),
            parts: Vec::new(alloc),
        }
    }

    /// The definitions of the datasets, in their order.
    pub fn definitions(&self) -> &Definitions
        ensures definitions { result.now ≡ definitions_of self.now }
        ensures distinct { are_distinct result.now ≡ true }
    {
        &self.definitions
    }

    /// The definition of the dataset of a name. `None` exactly where there is none.
    pub fn definition(&self, name: &Name) -> Option<&Definition>
        ensures { option_copied result ≡ option_map definition_of (dataset_of self.now name.now) }
    {
        match self.find(name) {
            Some((definition, _)) => Some(definition),
            None => None,
        }
    }

    /// The versions that are kept of the dataset of a name. `None` exactly where there is none.
    pub fn table(&self, name: &Name) -> Option<&Table>
        ensures { option_copied result ≡ option_map table_of (dataset_of self.now name.now) }
    {
        match self.find(name) {
            Some((_, part)) => Some(&part.table),
            None => None,
        }
    }

    /// How far a flow of a dataset has read. `None` exactly where there is no such dataset or flow.
    pub fn cursor(&self, name: &Name, flow: &Name) -> Option<&Cursor>
        ensures { option_copied result ≡ option_and_then (λ dataset. cursor_of dataset flow.now) (dataset_of self.now name.now) }
    {
        match self.find(name) {
            Some((definition, part)) => cursor_named(
                definition.flows.as_slice(),
                part.cursors.as_slice(),
                flow,
            ),
            None => None,
        }
    }

    /// The counts of a dataset's expectations, in their order. `None` exactly where there is no such dataset.
    pub fn tallies(&self, name: &Name) -> Option<&Tallies>
        ensures { option_copied result ≡ option_map counts_of (dataset_of self.now name.now) }
    {
        match self.find(name) {
            Some((_, part)) => Some(&part.counts),
            None => None,
        }
    }

    /// The events of a dataset, by key and then by sequence. `None` exactly where there is no such dataset. It counts one
    /// look for each event that it hands out.
    pub fn events<L: Ledger>(&self, name: &Name, steps: &mut Steps<L>) -> Option<&Events>
        ensures events { option_copied result ≡ option_map events_of (dataset_of self.now name.now) }
        ensures looks { MatchOption result (steps.new ≡ steps.old) (λ events. steps.new ≡ steps.old + length events.now) }
    {
        match self.find(name) {
            Some((_, part)) => {
                count_events(part.events.as_slice(), steps);
                Some(&part.events)
            }
            None => None,
        }
    }

    /// The definition of a name, and what is kept beside it.
    pub(crate) fn find(&self, name: &Name) -> Option<(&Definition, &Part)>
        ensures { MatchOption result (dataset_of self.now name.now ≡ None) (λ found. dataset_of self.now name.now ≡ Some (joined found.0.now found.1.now)) }
    {
        let Some(place) = place_of(self.definitions.as_slice(), name) else {
            return None;
        };
        Some((&self.definitions.as_slice()[place], &self.parts[place]))
    }
}
