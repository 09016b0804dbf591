// What is kept beside a definition, and what a payload makes of it.
ghost use Rattle.std.specs.Prelude.{◌≡◌, ◌<◌, ◌^◌, true, map, IfOk, IsSome, OnOk, OnErr};
ghost use Rattle.value_core.specs.Changes.{Holds, IsChange};
ghost use Rattle.value_core.specs.Tallies as tallies;
ghost use Rattle.state_model.specs.After as after;
ghost use Rattle.state_model.specs.After.{begun, moved, no_tally};
ghost use Rattle.state_model.specs.Dataset.{cursor_in};
ghost use Rattle.state_model.specs.Follows.{counts_fit, tally_fits};

use crate::find::flow_place;
use crate::undo::Undo;
use commit_payloads::{
    DatasetState, Definition, Refresh, StoredExpectation, StoredFlow, StoredOrigin, Take,
};
use event_sort::sorted_events;
use std::alloc::{AllocError, Global};
use std::mem;
use table_versions::Table;
use value_core::{Cursor, Events, ListOf, Name, Tallies, Tally};

/// What is kept of a dataset beside its definition: its table, one cursor a flow, one count an expectation, and its
/// events by key and then by sequence.
#[derive(Debug, Drop)]
pub(crate) struct Part {
    pub table: Table,
    pub cursors: Vec<Cursor>,
    pub counts: Tallies,
    pub events: Events,
}

/// What was kept of a dataset beside its table, before it was emptied.
#[derive(Debug, Drop)]
pub struct Rest {
    pub cursors: Vec<Cursor>,
    pub counts: Tallies,
    pub events: Events,
}

/// Where a flow begins: with no file, or with no version read.
fn first_cursor(alloc: Global, flow: &StoredFlow) -> Cursor
    ensures { result ≡ after.first_cursor flow.now }
{
    match &flow.origin {
        StoredOrigin::Folder(_) => Cursor::Files(ListOf::new(alloc)),
        StoredOrigin::Table(_) => Cursor::Never,
    }
}

fn first_cursors(alloc: Global, flows: &[StoredFlow]) -> Result<Vec<Cursor>, AllocError>
    ensures { IfOk result (λ cursors. cursors.items ≡ map after.first_cursor flows.now) }
{
    let mut cursors = Vec::new(alloc);
    for flow in flows {
        cursors.push(first_cursor(alloc, flow))?;
    }
    Ok(cursors)
}

/// One count an expectation, all zero.
fn no_tallies(alloc: Global, expectations: &[StoredExpectation]) -> Result<Tallies, AllocError>
    ensures { IfOk result (λ counts. counts ≡ map no_tally expectations.now) }
{
    let mut counts = ListOf::new(alloc);
    for _expectation in expectations {
        counts.push(Tally {
            passed: 0,
            failed: 0,
        })?;
    }
    Ok(counts)
}

/// Both counts together.
fn both_tallies(kept: &Tally, more: &Tally) -> Tally
    requires { tally_fits kept.now more.now ≡ true }
    ensures { result ≡ tallies.both_tallies kept.now more.now }
{
    Tally {
        passed: kept.passed + more.passed,
        failed: kept.failed + more.failed,
    }
}

/// The counts with further ones, expectation by expectation.
fn added(alloc: Global, counts: &[Tally], more: &[Tally]) -> Result<Tallies, AllocError>
    requires { counts_fit counts.now more.now ≡ true }
    ensures { IfOk result (λ sums. sums ≡ tallies.added counts.now more.now) }
{
    let mut sums = ListOf::new(alloc);
    let mut rest = more;
    for kept in counts {
        let Some((tally, behind)) = rest.split_first() else {
            return Ok(sums);
        };
        sums.push(both_tallies(kept, tally))?;
        rest = behind;
    }
    Ok(sums)
}

fn copy_events(alloc: Global, events: &Events) -> Result<Events, AllocError>
    ensures { IfOk result (λ copies. copies ≡ events.now) }
{
    let mut copies = ListOf::new(alloc);
    for event in events.as_slice() {
        copies.push(event.copy(alloc)?)?;
    }
    Ok(copies)
}

/// The events that are kept once new ones came. The old ones stay beside them, for an undo that takes no memory.
fn with_events(alloc: Global, kept: &Events, new: Events) -> Result<Events, AllocError>
    ensures { IfOk result (λ events. events ≡ after.events_with kept.now new) }
{
    let mut items = copy_events(alloc, kept)?.into_vec();
    let mut more = new.into_vec();
    items.append(&mut more)?;
    let events = sorted_events(ListOf::from_vec(items))?;
    Ok(events)
}

/// Puts a cursor in the place of the one of the flow of a name, which is given back. `None` where there is none.
fn replace_cursor(
    flows: &[StoredFlow],
    cursors: &mut Vec<Cursor>,
    name: &Name,
    cursor: Cursor,
) -> Option<Cursor>
    ensures moved { cursors.new.items ≡ moved flows.now cursors.old.items name.now cursor }
    ensures old { result ≡ cursor_in flows.now cursors.old.items name.now }
{
    let Some(place) = flow_place(flows, name) else {
        return None;
    };
    if place >= cursors.len() {
        return None;
    }
    Some(mem::replace(&mut cursors[place], cursor))
}

impl Part {
    ghost use Rattle.table_versions.specs.Versions.{content_now, now_of};
    ghost use Rattle.state_model.specs.Dataset.{cursor_of};
    ghost use Rattle.state_model.specs.After.{emptied, refreshed, taken};
    ghost use Rattle.store_tables.specs.Members.{IsSavedTable};
    ghost use Rattle.store_tables.specs.Parts.{Becomes, IsFrom, joined};
    ghost use Rattle.store_tables.specs.Undo.{GivesBack, GivesViewBack, IsRestOf, restored, restored_if, unrefreshed, untaken};

    /// What is kept of a dataset that begins.
    pub fn new(alloc: Global, definition: &Definition) -> Result<Part, AllocError>
        ensures { IfOk result (λ part. joined definition.now part ≡ begun definition.now) }
    {
        Ok(Part {
            table: Table::new(alloc),
            cursors: first_cursors(alloc, definition.flows.as_slice())?,
            counts: no_tallies(alloc, definition.expectations.as_slice())?,
            events: ListOf::new(alloc),
        })
    }

    /// What was saved of a dataset. Takes no memory.
    pub fn from_saved(state: DatasetState) -> Part
        requires { IsSavedTable state }
        ensures { IsFrom state result }
    {
        let DatasetState {
            base,
            rows,
            changes,
            cursors,
            counts,
            events,
        } = state;
        Part {
            table: Table::from_parts(base, rows, changes),
            cursors: cursors.into_vec(),
            counts,
            events,
        }
    }

    /// Takes a batch. `Err` for want of memory alone; then nothing has changed.
    pub fn take(
        &mut self,
        alloc: Global,
        definition: &Definition,
        batch: Take,
    ) -> Result<Undo, AllocError>
        requires form { IsChange batch.change }
        requires there { Holds (content_now self.old.table) batch.change.removed }
        requires limit { now_of self.old.table < 2 ^ 62 }
        requires counts { counts_fit self.old.counts batch.counts ≡ true }
        requires flow { IsSome (cursor_of (joined definition.now self.old) batch.flow) }
        ensures taken { OnOk result (joined definition.now self.new ≡ taken batch (joined definition.now self.old)) }
        ensures back { IfOk result (GivesBack batch (joined definition.now self.old)) }
        ensures err { OnErr result (self.new ≡ self.old) }
    {
        let Take {
            table,
            flow,
            cursor,
            change,
            counts,
            events,
        } = batch;
        let counts = added(alloc, self.counts.as_slice(), counts.as_slice())?;
        let events = with_events(alloc, &self.events, events)?;
        self.table.apply(change)?;
        let flows = definition.flows.as_slice();
        let Some(cursor) = replace_cursor(flows, &mut self.cursors, &flow, cursor) else {
            unreachable!()
        };
        let counts = mem::replace(&mut self.counts, counts);
        let events = mem::replace(&mut self.events, events);
        Ok(Undo::Took {
            table,
            flow,
            cursor,
            counts,
            events,
        })
    }

    /// Takes a batch back.
    pub fn untake(
        &mut self,
        definition: &Definition,
        flow: &Name,
        cursor: Cursor,
        counts: Tallies,
        events: Events,
    )
        ensures { joined definition.now self.new ≡ untaken flow.now cursor counts events (joined definition.now self.old) }
    {
        self.table.take_back();
        let _ = replace_cursor(definition.flows.as_slice(), &mut self.cursors, flow, cursor);
        self.counts = counts;
        self.events = events;
    }

    /// Takes a refresh. `Err` for want of memory alone; then nothing has changed.
    pub fn refresh(&mut self, alloc: Global, refresh: Refresh) -> Result<Undo, AllocError>
        requires form { IsChange refresh.change }
        requires there { Holds (content_now self.old.table) refresh.change.removed }
        requires limit { now_of self.old.table < 2 ^ 62 }
        ensures refreshed { OnOk result (Becomes (refreshed refresh) self.old self.new) }
        ensures back { IfOk result (GivesViewBack refresh self.old) }
        ensures err { OnErr result (self.new ≡ self.old) }
    {
        let Refresh {
            view,
            cursor,
            change,
            counts,
        } = refresh;
        let mut cursors = Vec::new(alloc);
        cursors.push(cursor)?;
        self.table.apply(change)?;
        let cursors = mem::replace(&mut self.cursors, cursors);
        let counts = mem::replace(&mut self.counts, counts);
        Ok(Undo::Refreshed {
            view,
            cursors,
            counts,
        })
    }

    /// Takes a refresh back.
    pub fn unrefresh(&mut self, cursors: Vec<Cursor>, counts: Tallies)
        ensures { Becomes (unrefreshed cursors.items counts) self.old self.new }
    {
        self.table.take_back();
        self.cursors = cursors;
        self.counts = counts;
    }

    /// Takes all rows away by one version more, and lets cursors, counts and events begin anew. `Err` for want of
    /// memory alone; then nothing has changed.
    pub fn empty(&mut self, alloc: Global, definition: &Definition) -> Result<Rest, AllocError>
        requires { now_of self.old.table < 2 ^ 62 }
        ensures emptied { OnOk result (joined definition.now self.new ≡ emptied (joined definition.now self.old)) }
        ensures back { IfOk result (IsRestOf self.old) }
        ensures err { OnErr result (self.new ≡ self.old) }
    {
        let cursors = first_cursors(alloc, definition.flows.as_slice())?;
        let counts = no_tallies(alloc, definition.expectations.as_slice())?;
        self.table.clear(alloc)?;
        let cursors = mem::replace(&mut self.cursors, cursors);
        let counts = mem::replace(&mut self.counts, counts);
        let events = mem::replace(&mut self.events, ListOf::new(alloc));
        Ok(Rest {
            cursors,
            counts,
            events,
        })
    }

    /// Takes an emptying back.
    pub fn restore(&mut self, rest: Rest)
        ensures { Becomes (restored rest) self.old self.new }
    {
        let Rest {
            cursors,
            counts,
            events,
        } = rest;
        self.table.take_back();
        self.cursors = cursors;
        self.counts = counts;
        self.events = events;
    }

    /// The same where something is given.
    pub fn restore_if(&mut self, rest: Option<Rest>)
        ensures { Becomes (restored_if rest) self.old self.new }
    {
        if let Some(rest) = rest {
            self.restore(rest);
        }
    }
}
