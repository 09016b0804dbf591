ghost use Rattle.std.specs.Prelude.{◌≡◌, ◌+◌, ◌<◌, ◌≤◌, ◌^◌, ℕ, [], OnOk, OnErr, length, take, drop, set, slice_index_or};
ghost use Rattle.std.specs.List.{insert};
ghost use Rattle.event_history.specs.Histories.{AllAbove, AllBelow, AreAscending, IsPlaceOf, with_effective};

use std::alloc::{AllocError, Global};
use std::cmp::Ordering;
use std::marker::Model;
use std::sync::ledger::Ledger;
use value_core::{Event, Row, Steps};

/// An event of a key's history, and the effective columns after it: those that the key has from then on (Databricks
/// documentation, AUTO CDC). A delete leaves none, which an empty row stands for.
#[derive(Debug, Drop)]
pub struct Entry {
    pub event: Event,
    pub effective: Row,
}

/// The events of one key in order of their sequences, no two of which are equal. Rows are compared value by value, so a
/// sequence may have several parts.
#[derive(Debug, Drop)]
pub struct History {
    entries: Vec<Entry>,
}

impl Model for History {
    ghost use Rattle.std.specs.Prelude.{List};
    ghost use Rattle.event_history.specs.declared.history.Entry.{Entry};

    ghost Value = { List Entry };

    ghost use Rattle.event_history.specs.Histories.{AreAscending};

    ghost view = { λ history. history.entries.items };

    ghost invariant = { λ history. AreAscending history.entries.items };
}

/// Where a sequence stands in a history, or where it would.
#[derive(Clone, Copy, Debug)]
pub enum Place {
    At(usize),
    Between(usize),
}

impl History {
    /// No event yet. It keeps the allocator that it grows by, and takes no memory.
    pub fn new(alloc: Global) -> History
        ensures { result ≡ [] }
    {
        History {
            entries: Vec::new(alloc),
        }
    }

    /// How many events there are.
    pub fn len(&self) -> usize
        ensures len { result ≡ length self.now }
        ensures order { AreAscending self.now }
    {
        self.entries.len()
    }

    /// The entry at a place. This is the only way to an entry, and it counts one look.
    pub fn look<L: Ledger>(&self, i: usize, steps: &mut Steps<L>) -> &Entry
        requires { i < length self.now }
        ensures entry { result.now ≡ slice_index_or self.now i result.now }
        ensures looks { steps.new ≡ steps.old + 1 }
    {
        steps.tick();
        &self.entries[i]
    }

    /// Puts an entry at its place in the order: its sequence is above those before the place and below those from it on.
    /// After a failure, for want of memory alone, the history is as before.
    pub fn put(&mut self, i: usize, entry: Entry) -> Result<(), AllocError>
        requires place { i ≤ length self.old }
        requires below { AllBelow entry.event.sequence (take i self.old) }
        requires above { AllAbove entry.event.sequence (drop i self.old) }
        ensures ok { OnOk result (self.new ≡ insert self.old i entry) }
        ensures err { OnErr result (self.new ≡ self.old) }
    {
        self.entries.insert(i, entry)?;
        Ok(())
    }

    /// Changes the effective columns at a place, and nothing else.
    pub fn set_effective(&mut self, i: usize, columns: Row)
        requires { i < length self.old }
        ensures { self.new ≡ with_effective self.old i columns }
    {
        self.entries[i].effective = columns;
    }

    /// The place of a sequence, by halving. Among n events it takes at most h looks, where n is below 2^h.
    pub fn find<L: Ledger>(&self, sequence: &Row, steps: &mut Steps<L>) -> Place
        ensures place { IsPlaceOf self.now sequence.now result }
        ensures looks { (h : ℕ) → length self.now < 2 ^ h → steps.new ≤ steps.old + h }
    {
        let mut low = 0;
        let mut high = self.entries.len();
        while low < high {
            let middle = low + (high - low) / 2;
            match self.look(middle, steps).event.sequence.cmp(sequence) {
                Ordering::Less => low = middle + 1,
                Ordering::Greater => high = middle,
                Ordering::Equal => return Place::At(middle),
            }
        }
        Place::Between(low)
    }
}
