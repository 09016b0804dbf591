// Events cut by key.
ghost use Rattle.std.specs.Prelude.{◌≡◌, ◌≤◌, IfOk, length};
ghost use Rattle.value_core.specs.EventOrder.{event_order, sorted_by};
ghost use Rattle.event_ledger.specs.Keyed.{AreApart};
ghost use Rattle.cdc_scd2.specs.Keys.{AreKeyed};
ghost use Rattle.cdc_histories.specs.Building as spec;
ghost use Rattle.cdc_histories.specs.Building.{IsCut, cut_by_key};

use event_sort::sorted_events;
use std::alloc::{AllocError, Global};
use value_core::{Event, Events, ListOf, Row};

/// Events of one key, in order of sequence.
#[derive(Drop)]
pub(crate) struct KeyEvents {
    pub(crate) key: Row,
    pub(crate) events: Events,
}

/// The same events.
fn copies(alloc: Global, events: &[Event]) -> Result<Events, AllocError>
    ensures { IfOk result (λ copy. copy ≡ events.now) }
{
    let mut copy: Events = ListOf::new(alloc);
    for event in events {
        copy.push(event.copy(alloc)?)?;
    }
    Ok(copy)
}

/// How many events at the front are of a key.
fn span(key: &Row, events: &[Event]) -> usize
    ensures span { result ≡ spec.span key.now events.now }
    ensures within { result ≤ length events.now }
{
    let mut count = 0;
    let mut left = events;
    while let Some((event, more)) = left.split_first() {
        if event.key != *key {
            return count;
        }
        count += 1;
        left = more;
    }
    count
}

/// Events of a key as a part.
fn part_of(alloc: Global, key: &Row, events: &[Event]) -> Result<KeyEvents, AllocError>
    ensures key { IfOk result (λ part. part.key ≡ key.now) }
    ensures events { IfOk result (λ part. part.events ≡ events.now) }
{
    let key = key.copy(alloc)?;
    let events = copies(alloc, events)?;
    Ok(KeyEvents { key, events })
}

/// Events cut where the key changes.
fn cut(alloc: Global, events: &[Event]) -> Result<Vec<KeyEvents>, AllocError>
    ensures { IfOk result (λ parts. parts.items ≡ cut_by_key events.now) }
{
    let mut parts = Vec::new(alloc);
    let mut left = events;
    while let Some((first, _)) = left.split_first() {
        let count = span(&first.key, left);
        let (mine, more) = left.split_at(count);
        parts.push(part_of(alloc, &first.key, mine)?)?;
        left = more;
    }
    Ok(parts)
}

/// Events of own moments by key, and those of a key by sequence, in the order of the keys.
pub(crate) fn parts_of(alloc: Global, events: &Events) -> Result<Vec<KeyEvents>, AllocError>
    requires apart { AreApart events.now }
    requires keyed { AreKeyed events.now }
    ensures { IfOk result (λ parts. IsCut (sorted_by event_order events.now) parts.items) }
{
    let copy = copies(alloc, events.as_slice())?;
    let sorted = sorted_events(copy)?;
    let parts = cut(alloc, sorted.as_slice())?;
    Ok(parts)
}
