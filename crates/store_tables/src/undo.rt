// What takes a payload back.
ghost use Rattle.std.specs.Prelude.{◌≡◌};

use crate::contents::Contents;
use crate::find::place_of;
use crate::members::fill_again;
use crate::part::Rest;
use std::mem;
use value_core::{Cursor, Events, ListOf, Name, Tallies};

/// What a payload moved out of the contents, by which they are taken back to what they were.
#[derive(Drop)]
pub enum Undo {
    /// The whole contents from before, where all datasets began anew.
    Began(Contents),
    /// How many datasets there were, where others were added.
    Added {
        before: usize,
    },
    /// How far the flow had read, and the table's counts and events, where a batch was taken.
    Took {
        table: Name,
        flow: Name,
        cursor: Cursor,
        counts: Tallies,
        events: Events,
    },
    /// How far the view had read, and its counts, where it was refreshed.
    Refreshed {
        view: Name,
        cursors: Vec<Cursor>,
        counts: Tallies,
    },
    /// What was kept of each dataset beside its table, where some were emptied.
    Emptied {
        rests: Vec<Option<Rest>>,
    },
}

impl Contents {
    ghost use Rattle.std.specs.Prelude.{take};
    ghost use Rattle.state_model.specs.After.{updated};
    ghost use Rattle.store_tables.specs.Undo.{all_restored, undone, unrefreshed, untaken};

    /// Takes a payload back: after `put` gave this, and nothing came between, the contents are what they
    /// were before it. Takes no memory.
    pub fn undo(&mut self, undo: Undo)
        ensures { self.new ≡ undone self.old undo }
    {
        match undo {
            Undo::Began(old) => *self = old,
            Undo::Added { before } => self.cut(before),
            Undo::Took {
                table,
                flow,
                cursor,
                counts,
                events,
            } => self.untake(&table, &flow, cursor, counts, events),
            Undo::Refreshed {
                view,
                cursors,
                counts,
            } => self.unrefresh(&view, cursors, counts),
            Undo::Emptied { rests } => self.fill(rests),
        }
    }

    /// Leaves the first datasets.
    fn cut(&mut self, before: usize)
        ensures { self.new ≡ take before self.old }
    {
        let list = mem::replace(&mut self.definitions, ListOf::new(self.alloc));
        let mut items = list.into_vec();
        items.truncate(before);
        self.definitions = ListOf::from_vec(items);
        self.parts.truncate(before);
    }

    fn untake(&mut self, table: &Name, flow: &Name, cursor: Cursor, counts: Tallies, events: Events)
        ensures { self.new ≡ updated table.now (untaken flow.now cursor counts events) self.old }
    {
        let Some(place) = place_of(self.definitions.as_slice(), table) else {
            return;
        };
        let definition = &self.definitions.as_slice()[place];
        self.parts[place].untake(definition, flow, cursor, counts, events);
    }

    fn unrefresh(&mut self, view: &Name, cursors: Vec<Cursor>, counts: Tallies)
        ensures { self.new ≡ updated view.now (unrefreshed cursors.items counts) self.old }
    {
        let Some(place) = place_of(self.definitions.as_slice(), view) else {
            return;
        };
        self.parts[place].unrefresh(cursors, counts);
    }

    /// Fills datasets again that were emptied.
    fn fill(&mut self, rests: Vec<Option<Rest>>)
        ensures { self.new ≡ all_restored rests.items self.old }
    {
        fill_again(&mut self.parts, rests);
    }
}
