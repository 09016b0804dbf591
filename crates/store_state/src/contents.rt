// What a store has of its datasets.
ghost use Rattle.std.specs.Prelude.{◌≡◌, None, Some, MatchOption};
ghost use Rattle.std.specs.Option.{option_copied, option_map, option_and_then};

use crate::find::{cursor_named, place_of};
use crate::part::Part;
use crate::table::Table;
use commit_records::{Definition, Definitions};
use std::alloc::Global;
use std::marker::Model;
use value_core::{Cursor, ListOf, Name, Tallies};

/// The datasets of a store: their definitions, and beside each what is kept of it. It keeps the
/// allocator that it grows by. Contracts see the list of the datasets.
#[derive(Drop)]
pub struct Contents {
    pub(crate) alloc: Global,
    pub(crate) definitions: Definitions,
    pub(crate) parts: Vec<Part>,
}

impl Model for Contents {
    ghost use Rattle.std.specs.Prelude.{◌≡◌, length};
    ghost use Rattle.store_state.specs.Dataset.{State};

    ghost Value = { State };

    ghost use Rattle.store_state.specs.Parts.{side_by_side};

    ghost view = { λ contents. side_by_side contents.definitions contents.parts.items };

    ghost invariant = { λ contents. length contents.definitions ≡ length contents.parts.items };
}

impl Contents {
    ghost use Rattle.store_state.specs.Dataset.{counts_of, cursor_of, dataset_of, definitions_of, empty_state, versions_of};
    ghost use Rattle.store_state.specs.Parts.{joined};

    /// No dataset. Takes no memory.
    pub fn new(alloc: Global) -> Contents
        ensures { result ≡ empty_state }
    {
        Contents {
            alloc,
            definitions: ListOf::new(alloc),
            parts: Vec::new(alloc),
        }
    }

    /// The definitions of the datasets, in their order.
    pub fn definitions(&self) -> &Definitions
        ensures { result.now ≡ definitions_of self.now }
    {
        &self.definitions
    }

    /// The versions that are kept of the dataset of a name. `None` exactly where there is none.
    pub fn table(&self, name: &Name) -> Option<&Table>
        ensures { option_copied result ≡ option_map versions_of (dataset_of self.now name.now) }
    {
        match self.find(name) {
            Some((_, part)) => Some(&part.table),
            None => None,
        }
    }

    /// How far a flow of a dataset has read. `None` exactly where there is no such dataset or flow.
    pub fn cursor(&self, name: &Name, flow: &Name) -> Option<&Cursor>
        ensures { option_copied result ≡ option_and_then (λ dataset. cursor_of dataset flow.now) (dataset_of self.now name.now) }
    {
        match self.find(name) {
            Some((definition, part)) => cursor_named(
                definition.flows.as_slice(),
                part.cursors.as_slice(),
                flow,
            ),
            None => None,
        }
    }

    /// The counts of a dataset's expectations, in their order. `None` exactly where there is no such dataset.
    pub fn tallies(&self, name: &Name) -> Option<&Tallies>
        ensures { option_copied result ≡ option_map counts_of (dataset_of self.now name.now) }
    {
        match self.find(name) {
            Some((_, part)) => Some(&part.counts),
            None => None,
        }
    }

    /// The definition of a name, and what is kept beside it.
    pub(crate) fn find(&self, name: &Name) -> Option<(&Definition, &Part)>
        ensures { MatchOption result (dataset_of self.now name.now ≡ None) (λ found. dataset_of self.now name.now ≡ Some (joined found.0.now found.1.now)) }
    {
        let Some(place) = place_of(self.definitions.as_slice(), name) else {
            return None;
        };
        Some((&self.definitions.as_slice()[place], &self.parts[place]))
    }
}
