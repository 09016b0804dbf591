// Which definitions and batches have a spelling.
ghost use Rattle.std.specs.Prelude.{◌≡◌, ◌↔◌, IsTrue};
ghost use Rattle.std.specs.Option.{SomeIff};
ghost use Rattle.commit_records.specs.Forms as forms;
ghost use Rattle.commit_records.specs.Forms.{IsProgress, IsBatch};
ghost use Rattle.commit_records.specs.Payloads.{IsWritable};

use crate::definition::{Definition, StoredBody, StoredFlow};
use crate::payload::Payload;
use crate::take::Take;
use segment_rows::has_its_parts;
use value_core::{Change, Cursor, Event, Name};

/// Whether there is one flow, of this name.
fn is_own_flow(name: &Name, flows: &[StoredFlow]) -> bool
    ensures { result ≡ forms.is_own_flow name.now flows.now }
{
    match flows {
        [flow] => flow.name.as_str() == name.as_str(),
        _ => false,
    }
}

/// Whether keys and sequence are empty where no events are taken, and a view has one flow of its own name.
fn fits_its_body(definition: &Definition) -> bool
    ensures { result ≡ forms.fits_its_body definition.now }
{
    let takes_none = definition.keys.is_empty() && definition.sequence.is_empty();
    match definition.body {
        StoredBody::Append => takes_none,
        StoredBody::Scd1 => true,
        StoredBody::Scd2 => true,
        StoredBody::View => {
            takes_none && is_own_flow(&definition.name, definition.flows.as_slice())
        }
    }
}

pub(crate) fn all_fit(list: &[Definition]) -> bool
    ensures { result ≡ forms.all_fit list.now }
{
    for definition in list {
        if !fits_its_body(definition) {
            return false;
        }
    }
    true
}

fn all_have_their_parts(events: &[Event]) -> bool
    ensures { result ≡ forms.all_have_their_parts events.now }
{
    for event in events {
        if !has_its_parts(event) {
            return false;
        }
    }
    true
}

/// Whether places in files have names strictly ascending and are above 0.
fn is_progress(cursor: &Cursor) -> bool
    ensures { IsTrue result ↔ IsProgress cursor.now }
{
    match cursor {
        Cursor::Files(places) => places.is_ascending(),
        Cursor::At(_) => true,
        Cursor::Never => true,
    }
}

fn is_batch(take: &Take) -> bool
    ensures { IsTrue result ↔ IsBatch take.now }
{
    if !is_progress(&take.cursor) {
        return false;
    }
    if !take.change.is_net() {
        return false;
    }
    all_have_their_parts(take.events.as_slice())
}

/// Whether a payload may be written. One in memory has its numbers and texts in range, so that this is
/// whether it has a spelling.
pub fn is_writable(payload: &Payload) -> bool
    ensures { IsTrue result ↔ IsWritable payload.now }
{
    match payload {
        Payload::Define { list, .. } => all_fit(list.as_slice()),
        Payload::Take(take) => is_batch(take),
        Payload::Refresh(_) => false,
        Payload::Reset { .. } => false,
        Payload::Base(_) => false,
    }
}

/// The batch, where it has a spelling.
pub(crate) fn as_batch(take: Take) -> Option<Take>
    ensures { SomeIff result (IsBatch take) take }
{
    let Take {
        table,
        flow,
        cursor,
        change,
        counts,
        events,
    } = take;
    if !is_progress(&cursor) || !all_have_their_parts(events.as_slice()) {
        return None;
    }
    let Change { removed, added } = change;
    match Change::new(removed, added) {
        Some(change) => Some(Take {
            table,
            flow,
            cursor,
            change,
            counts,
            events,
        }),
        None => None,
    }
}
