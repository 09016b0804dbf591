// Which definitions and batches have a spelling.
ghost use Rattle.std.specs.Prelude.{◌≡◌, ◌↔◌, IsTrue};
ghost use Rattle.std.specs.List.{AllByRecursion};
ghost use Rattle.std.specs.Option.{SomeIff};
ghost use Rattle.value_core.specs.Changes.{IsChange};
ghost use Rattle.commit_payloads.specs.Forms as forms;
ghost use Rattle.commit_payloads.specs.Forms.{IsBase, IsKept, IsProgress, IsBatch, IsRenewal};

use crate::definition::{Definition, StoredBody, StoredFlow};
use crate::state::{DatasetState, State};
use crate::take::{Refresh, Take};
use segment_rows::has_its_parts;
use std::cmp::Ordering;
use value_core::{Change, Cursor, Event, Name};

/// Whether there is one flow, of this name.
fn is_own_flow(name: &Name, flows: &[StoredFlow]) -> bool
    ensures { result ≡ forms.is_own_flow name.now flows.now }
{
    match flows {
        [flow] => flow.name.as_str() == name.as_str(),
        _ => false,
    }
}

/// Whether keys and sequence are empty where no events are taken, and a view has one flow of its own name.
fn fits_its_body(definition: &Definition) -> bool
    ensures { result ≡ forms.fits_its_body definition.now }
{
    let takes_none = definition.keys.is_empty() && definition.sequence.is_empty();
    match definition.body {
        StoredBody::Append => takes_none,
        StoredBody::Scd1 => true,
        StoredBody::Scd2 => true,
        StoredBody::View => {
            takes_none && is_own_flow(&definition.name, definition.flows.as_slice())
        }
    }
}

pub(crate) fn all_fit(list: &[Definition]) -> bool
    ensures { result ≡ forms.all_fit list.now }
{
    for definition in list {
        if !fits_its_body(definition) {
            return false;
        }
    }
    true
}

fn all_have_their_parts(events: &[Event]) -> bool
    ensures { result ≡ forms.all_have_their_parts events.now }
{
    for event in events {
        if !has_its_parts(event) {
            return false;
        }
    }
    true
}

/// Whether places in files have names strictly ascending and are above 0.
fn is_progress(cursor: &Cursor) -> bool
    ensures { IsTrue result ↔ IsProgress cursor.now }
{
    match cursor {
        Cursor::Files(places) => places.is_ascending(),
        Cursor::At(_) => true,
        Cursor::Never => true,
    }
}

/// The batch, where it has a spelling.
pub(crate) fn as_batch(take: Take) -> Option<Take>
    ensures { SomeIff result (IsBatch take) take }
{
    let Take {
        table,
        flow,
        cursor,
        change,
        counts,
        events,
    } = take;
    if !is_progress(&cursor) || !all_have_their_parts(events.as_slice()) {
        return None;
    }
    let Change { removed, added } = change;
    match Change::new(removed, added) {
        Some(change) => Some(Take {
            table,
            flow,
            cursor,
            change,
            counts,
            events,
        }),
        None => None,
    }
}

/// The refresh, where it has a spelling.
pub(crate) fn as_renewal(refresh: Refresh) -> Option<Refresh>
    ensures { SomeIff result (IsRenewal refresh) refresh }
{
    let Refresh {
        view,
        cursor,
        change,
        counts,
    } = refresh;
    if !is_progress(&cursor) {
        return None;
    }
    let Change { removed, added } = change;
    let change = Change::new(removed, added)?;
    Some(Refresh {
        view,
        cursor,
        change,
        counts,
    })
}

/// Whether an event comes before another one, by key and then by sequence.
fn comes_before(event: &Event, next: &Event) -> bool
    ensures { result ≡ forms.comes_before event.now next.now }
{
    match event.key.cmp(&next.key) {
        Ordering::Less => true,
        Ordering::Equal => event.sequence.cmp(&next.sequence).is_lt(),
        Ordering::Greater => false,
    }
}

/// Whether each event comes before the next one.
fn are_ascending(events: &[Event]) -> bool
    ensures { result ≡ forms.are_ascending events.now }
{
    let mut rest = events;
    while let Some((first, more)) = rest.split_first() {
        if let Some(next) = more.first() {
            if !comes_before(first, next) {
                return false;
            }
        }
        rest = more;
    }
    true
}

fn all_net(changes: &[Change]) -> bool
    ensures { IsTrue result ↔ AllByRecursion IsChange changes.now }
{
    for change in changes {
        if !change.is_net() {
            return false;
        }
    }
    true
}

fn all_progress(cursors: &[Cursor]) -> bool
    ensures { IsTrue result ↔ AllByRecursion IsProgress cursors.now }
{
    for cursor in cursors {
        if !is_progress(cursor) {
            return false;
        }
    }
    true
}

/// Whether rows, changes, cursors and events stand as they are kept.
fn is_kept(state: &DatasetState) -> bool
    ensures { IsTrue result ↔ IsKept state.now }
{
    if !state.rows.is_in_order() {
        return false;
    }
    if !all_net(state.changes.as_slice()) {
        return false;
    }
    if !all_progress(state.cursors.as_slice()) {
        return false;
    }
    if !all_have_their_parts(state.events.as_slice()) {
        return false;
    }
    are_ascending(state.events.as_slice())
}

fn all_kept(states: &[DatasetState]) -> bool
    ensures { IsTrue result ↔ AllByRecursion IsKept states.now }
{
    for state in states {
        if !is_kept(state) {
            return false;
        }
    }
    true
}

/// Whether there is one state a definition, and all are of their form.
pub(crate) fn is_base(state: &State) -> bool
    ensures { IsTrue result ↔ IsBase state.now }
{
    if !all_fit(state.list.as_slice()) {
        return false;
    }
    if state.states.len() != state.list.len() {
        return false;
    }
    all_kept(state.states.as_slice())
}
