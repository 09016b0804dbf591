// What is kept beside a definition, and what a batch makes of it.
ghost use Rattle.std.specs.Prelude.{◌≡◌, ◌<◌, true, map, IfOk, IsSome, OnOk, OnErr};
ghost use Rattle.store_state.specs.Dataset as Dataset;
ghost use Rattle.store_state.specs.Dataset.{begun, cursor_in, moved, no_tally};
ghost use Rattle.store_state.specs.Follows.{counts_fit, tally_fits};

use crate::find::flow_place;
use crate::table::Table;
use crate::undo::Undo;
use commit_records::{Definition, StoredExpectation, StoredFlow, StoredOrigin, Take};
use std::alloc::{AllocError, Global};
use std::mem;
use value_core::{Cursor, ListOf, Name, Tallies, Tally};

/// What is kept of a dataset beside its definition: its table, one cursor a flow and one count an expectation.
#[derive(Debug, Drop)]
pub(crate) struct Part {
    pub table: Table,
    pub cursors: Vec<Cursor>,
    pub counts: Tallies,
}

/// Where a flow begins: with no file, or with no version read.
fn first_cursor(alloc: Global, flow: &StoredFlow) -> Cursor
    ensures { result ≡ Dataset.first_cursor flow.now }
{
    match &flow.origin {
        StoredOrigin::Folder(_) => Cursor::Files(ListOf::new(alloc)),
        StoredOrigin::Table(_) => Cursor::Never,
    }
}

fn first_cursors(alloc: Global, flows: &[StoredFlow]) -> Result<Vec<Cursor>, AllocError>
    ensures { IfOk result (λ cursors. cursors.items ≡ map Dataset.first_cursor flows.now) }
{
    let mut cursors = Vec::new(alloc);
    for flow in flows {
        cursors.push(first_cursor(alloc, flow))?;
    }
    Ok(cursors)
}

/// One count an expectation, all zero.
fn no_tallies(alloc: Global, expectations: &[StoredExpectation]) -> Result<Tallies, AllocError>
    ensures { IfOk result (λ counts. counts ≡ map no_tally expectations.now) }
{
    let mut counts = ListOf::new(alloc);
    for _expectation in expectations {
        counts.push(Tally {
            passed: 0,
            failed: 0,
        })?;
    }
    Ok(counts)
}

/// Both counts together.
fn both_tallies(kept: &Tally, more: &Tally) -> Tally
    requires { tally_fits kept.now more.now ≡ true }
    ensures { result ≡ Dataset.both_tallies kept.now more.now }
{
    Tally {
        passed: kept.passed + more.passed,
        failed: kept.failed + more.failed,
    }
}

/// The counts with further ones, expectation by expectation.
fn added(alloc: Global, counts: &[Tally], more: &[Tally]) -> Result<Tallies, AllocError>
    requires { counts_fit counts.now more.now ≡ true }
    ensures { IfOk result (λ sums. sums ≡ Dataset.added counts.now more.now) }
{
    let mut sums = ListOf::new(alloc);
    let mut rest = more;
    for kept in counts {
        let Some((tally, behind)) = rest.split_first() else {
            return Ok(sums);
        };
        sums.push(both_tallies(kept, tally))?;
        rest = behind;
    }
    Ok(sums)
}

/// Puts a cursor in the place of the one of the flow of a name, which is given back. `None` where there is none.
fn replace_cursor(
    flows: &[StoredFlow],
    cursors: &mut Vec<Cursor>,
    name: &Name,
    cursor: Cursor,
) -> Option<Cursor>
    ensures moved { cursors.new.items ≡ moved flows.now cursors.old.items name.now cursor }
    ensures old { result ≡ cursor_in flows.now cursors.old.items name.now }
{
    let Some(place) = flow_place(flows, name) else {
        return None;
    };
    if place >= cursors.len() {
        return None;
    }
    Some(mem::replace(&mut cursors[place], cursor))
}

impl Part {
    ghost use Rattle.store_state.specs.Parts.{joined};
    ghost use Rattle.store_state.specs.Undo.{GivesBack, untaken};
    ghost use Rattle.store_state.specs.Dataset.{cursor_of, taken};

    /// What is kept of a dataset that begins.
    pub fn new(alloc: Global, definition: &Definition) -> Result<Part, AllocError>
        ensures { IfOk result (λ part. joined definition.now part ≡ begun definition.now) }
    {
        Ok(Part {
            table: Table::new(alloc),
            cursors: first_cursors(alloc, definition.flows.as_slice())?,
            counts: no_tallies(alloc, definition.expectations.as_slice())?,
        })
    }

    /// Takes a batch. `Err` for want of memory alone; then nothing has changed.
    pub fn take(
        &mut self,
        alloc: Global,
        definition: &Definition,
        batch: Take,
    ) -> Result<Undo, AllocError>
        requires counts { counts_fit self.old.counts batch.counts ≡ true }
        requires flow { IsSome (cursor_of (joined definition.now self.old) batch.flow) }
        ensures taken { OnOk result (joined definition.now self.new ≡ taken batch (joined definition.now self.old)) }
        ensures back { IfOk result (GivesBack batch (joined definition.now self.old)) }
        ensures err { OnErr result (self.new ≡ self.old) }
    {
        let Take {
            table,
            flow,
            cursor,
            change,
            counts,
            events: _events,
        } = batch;
        let counts = added(alloc, self.counts.as_slice(), counts.as_slice())?;
        self.table.push(change)?;
        let flows = definition.flows.as_slice();
        let Some(cursor) = replace_cursor(flows, &mut self.cursors, &flow, cursor) else {
            unreachable!()
        };
        let counts = mem::replace(&mut self.counts, counts);
        Ok(Undo::Took {
            table,
            flow,
            cursor,
            counts,
        })
    }

    /// Takes a batch back.
    pub fn untake(&mut self, definition: &Definition, flow: &Name, cursor: Cursor, counts: Tallies)
        ensures { joined definition.now self.new ≡ untaken flow.now cursor counts (joined definition.now self.old) }
    {
        self.table.pop();
        let _ = replace_cursor(definition.flows.as_slice(), &mut self.cursors, flow, cursor);
        self.counts = counts;
    }
}
