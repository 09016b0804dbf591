// What takes a payload back.
ghost use Rattle.std.specs.Prelude.{◌≡◌};

use crate::contents::Contents;
use crate::find::place_of;
use std::mem;
use value_core::{Cursor, ListOf, Name, Tallies};

/// What a payload moved out of the contents, by which they are taken back to what they were.
#[derive(Drop)]
pub enum Undo {
    /// The whole contents from before, where all datasets began anew.
    Began(Contents),
    /// How many datasets there were, where others were added.
    Added {
        before: usize,
    },
    /// How far the flow had read and the table's counts, where a batch was taken.
    Took {
        table: Name,
        flow: Name,
        cursor: Cursor,
        counts: Tallies,
    },
}

impl Contents {
    ghost use Rattle.std.specs.Prelude.{take};
    ghost use Rattle.store_state.specs.Dataset.{updated};
    ghost use Rattle.store_state.specs.Undo.{undone, untaken};

    /// Takes a payload back: after `put` gave this, and nothing came between, the contents are what they
    /// were before it. Takes no memory.
    pub fn undo(&mut self, undo: Undo)
        ensures { self.new ≡ undone self.old undo }
    {
        match undo {
            Undo::Began(old) => *self = old,
            Undo::Added { before } => self.cut(before),
            Undo::Took {
                table,
                flow,
                cursor,
                counts,
            } => self.untake(&table, &flow, cursor, counts),
        }
    }

    /// Leaves the first datasets.
    fn cut(&mut self, before: usize)
        ensures { self.new ≡ take before self.old }
    {
        let list = mem::replace(&mut self.definitions, ListOf::new(self.alloc));
        let mut items = list.into_vec();
        items.truncate(before);
        self.definitions = ListOf::from_vec(items);
        self.parts.truncate(before);
    }

    fn untake(&mut self, table: &Name, flow: &Name, cursor: Cursor, counts: Tallies)
        ensures { self.new ≡ updated table.now (untaken flow.now cursor counts) self.old }
    {
        let Some(place) = place_of(self.definitions.as_slice(), table) else {
            return;
        };
        let definition = &self.definitions.as_slice()[place];
        self.parts[place].untake(definition, flow, cursor, counts);
    }
}
