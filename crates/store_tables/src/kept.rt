// What is kept of the dataset at a place.
ghost use Rattle.std.specs.Prelude.{◌≡◌, ◌+◌, None, Some, MatchOption, length, slice_get};
ghost use Rattle.std.specs.Option.{option_copied, option_map};

use crate::contents::{Contents, count_events};
use commit_payloads::Definition;
use std::sync::ledger::Ledger;
use table_versions::Table;
use value_core::{Cursor, Events, Steps, Tallies};

/// What is kept of a dataset: its definition, its versions, one cursor a flow and one count an expectation in the order
/// of its definition, and its events by key and then by sequence.
#[derive(Drop)]
pub struct Kept<'a> {
    pub definition: &'a Definition,
    pub table: &'a Table,
    pub cursors: &'a [Cursor],
    pub counts: &'a Tallies,
    pub events: &'a Events,
}

impl Contents {
    ghost use Rattle.store_tables.specs.Kept.{cursors_of, dataset_of_kept};

    /// How far the flows of the dataset at a place have read, one cursor a flow, in their order. `None` exactly where there
    /// are no more datasets than the place says.
    pub fn cursors_at(&self, place: usize) -> Option<&[Cursor]>
        ensures { option_copied result ≡ option_map cursors_of (slice_get self.now place) }
    {
        if place >= self.parts.len() {
            return None;
        }
        Some(self.parts[place].cursors.as_slice())
    }

    /// What is kept of the dataset at a place. `None` exactly where there are no more datasets than the place says. It
    /// counts one look for each event that it hands out.
    pub fn kept_at<L: Ledger>(&self, place: usize, steps: &mut Steps<L>) -> Option<Kept<'_>>
        ensures kept { MatchOption result (slice_get self.now place ≡ None) (λ kept. slice_get self.now place ≡ Some (dataset_of_kept kept)) }
        ensures looks { MatchOption result (steps.new ≡ steps.old) (λ kept. steps.new ≡ steps.old + length kept.events.now) }
    {
        if place >= self.parts.len() {
            return None;
        }
        let part = &self.parts[place];
        count_events(part.events.as_slice(), steps);
        Some(Kept {
            definition: &self.definitions.as_slice()[place],
            table: &part.table,
            cursors: part.cursors.as_slice(),
            counts: &part.counts,
            events: &part.events,
        })
    }
}
