// Which payloads have a spelling.
ghost use Rattle.std.specs.Prelude.{◌≡◌, ◌↔◌, IsTrue};
ghost use Rattle.std.specs.List.{AllByRecursion};
ghost use Rattle.value_core.specs.Changes.{IsChange};
ghost use Rattle.commit_payloads.specs.Forms as forms;
ghost use Rattle.commit_payloads.specs.Forms.{IsBase, IsBatch, IsKept, IsProgress, IsRenewal};
ghost use Rattle.commit_payloads.specs.Payloads.{IsWritable};

use commit_payloads::{
    DatasetState, Definition, Payload, Refresh, State, StoredBody, StoredFlow, Take,
};
use segment_rows::has_its_parts;
use std::cmp::Ordering;
use value_core::{Change, Cursor, Event, Name};

/// Whether a payload has a spelling: its definitions, cursors, changes, events and states are of the forms that they have
/// in a store.
pub fn is_writable(payload: &Payload) -> bool
    ensures { IsTrue result ↔ IsWritable payload.now }
{
    match payload {
        Payload::Define { list, .. } => all_fit(list.as_slice()),
        Payload::Take(take) => is_batch(take),
        Payload::Refresh(refresh) => is_renewal(refresh),
        Payload::Reset { .. } => true,
        Payload::Base(state) => is_base(state),
    }
}

/// Whether a batch has a spelling.
fn is_batch(take: &Take) -> bool
    ensures { IsTrue result ↔ IsBatch take.now }
{
    if !is_progress(&take.cursor) {
        return false;
    }
    if !take.change.is_net() {
        return false;
    }
    all_have_their_parts(take.events.as_slice())
}

/// Whether a refresh has a spelling.
fn is_renewal(refresh: &Refresh) -> bool
    ensures { IsTrue result ↔ IsRenewal refresh.now }
{
    if !is_progress(&refresh.cursor) {
        return false;
    }
    refresh.change.is_net()
}

/// Whether there is one flow, of this name.
fn is_own_flow(name: &Name, flows: &[StoredFlow]) -> bool
    ensures { result ≡ forms.is_own_flow name.now flows.now }
{
    match flows {
        [flow] => flow.name.as_str() == name.as_str(),
        _ => false,
    }
}

/// Whether keys and sequence are empty where no events are taken, and a view has one flow of its own name.
fn fits_its_body(definition: &Definition) -> bool
    ensures { result ≡ forms.fits_its_body definition.now }
{
    let takes_none = definition.keys.is_empty() && definition.sequence.is_empty();
    match definition.body {
        StoredBody::Append => takes_none,
        StoredBody::Scd1 => true,
        StoredBody::Scd2 => true,
        StoredBody::View => {
            takes_none && is_own_flow(&definition.name, definition.flows.as_slice())
        }
    }
}

fn all_fit(list: &[Definition]) -> bool
    ensures { result ≡ forms.all_fit list.now }
{
    for definition in list {
        if !fits_its_body(definition) {
            return false;
        }
    }
    true
}

fn all_have_their_parts(events: &[Event]) -> bool
    ensures { result ≡ forms.all_have_their_parts events.now }
{
    for event in events {
        if !has_its_parts(event) {
            return false;
        }
    }
    true
}

/// Whether places in files have names strictly ascending and are above 0.
fn is_progress(cursor: &Cursor) -> bool
    ensures { IsTrue result ↔ IsProgress cursor.now }
{
    match cursor {
        Cursor::Files(places) => places.is_ascending(),
        Cursor::At(_) => true,
        Cursor::Never => true,
    }
}

/// Whether an event comes before another one, by key and then by sequence.
fn comes_before(event: &Event, next: &Event) -> bool
    ensures { result ≡ forms.comes_before event.now next.now }
{
    match event.key.cmp(&next.key) {
        Ordering::Less => true,
        Ordering::Equal => event.sequence.cmp(&next.sequence).is_lt(),
        Ordering::Greater => false,
    }
}

/// Whether each event comes before the next one.
fn are_ascending(events: &[Event]) -> bool
    ensures { result ≡ forms.are_ascending events.now }
{
    let mut rest = events;
    while let Some((first, more)) = rest.split_first() {
        if let Some(next) = more.first() {
            if !comes_before(first, next) {
                return false;
            }
        }
        rest = more;
    }
    true
}

fn all_net(changes: &[Change]) -> bool
    ensures { IsTrue result ↔ AllByRecursion IsChange changes.now }
{
    for change in changes {
        if !change.is_net() {
            return false;
        }
    }
    true
}

fn all_progress(cursors: &[Cursor]) -> bool
    ensures { IsTrue result ↔ AllByRecursion IsProgress cursors.now }
{
    for cursor in cursors {
        if !is_progress(cursor) {
            return false;
        }
    }
    true
}

/// Whether rows, changes, cursors and events stand as they are kept.
fn is_kept(state: &DatasetState) -> bool
    ensures { IsTrue result ↔ IsKept state.now }
{
    if !state.rows.is_in_order() {
        return false;
    }
    if !all_net(state.changes.as_slice()) {
        return false;
    }
    if !all_progress(state.cursors.as_slice()) {
        return false;
    }
    if !all_have_their_parts(state.events.as_slice()) {
        return false;
    }
    are_ascending(state.events.as_slice())
}

fn all_kept(states: &[DatasetState]) -> bool
    ensures { IsTrue result ↔ AllByRecursion IsKept states.now }
{
    for state in states {
        if !is_kept(state) {
            return false;
        }
    }
    true
}

/// Whether there is one state a definition, and all are of their form.
fn is_base(state: &State) -> bool
    ensures { IsTrue result ↔ IsBase state.now }
{
    if !all_fit(state.list.as_slice()) {
        return false;
    }
    if state.states.len() != state.list.len() {
        return false;
    }
    all_kept(state.states.as_slice())
}
