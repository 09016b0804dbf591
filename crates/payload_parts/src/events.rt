// Which events may follow.
ghost use Rattle.std.specs.Prelude.{◌≡◌, ◌*◌, ◌-◌, ◌++◌, false, true, [], IfOk, MatchOption, OnOk, filter_map, length, map, option_to_list, slice_get};
ghost use Rattle.std.specs.List.{list_all, list_any};
ghost use Rattle.std.specs.BTreeSet.{contains};
ghost use Rattle.value_core.specs.Order.{is_null};
ghost use Rattle.state_model.specs.Follows as rules;
ghost use Rattle.payload_parts.specs.Moments.{HasMoments, moment_key, moment_order};

use commit_payloads::{Definition, StoredBody};
use std::alloc::{AllocError, Global};
use std::collections::BTreeSet;
use value_core::{Column, Event, EventKind, Kind, Row, Value};

/// The kinds of columns.
fn kinds_of(alloc: Global, columns: &[Column]) -> Result<Vec<Kind>, AllocError>
    ensures { IfOk result (λ kinds. kinds.items ≡ map rules.kind_of columns.now) }
{
    let mut kinds = Vec::new(alloc);
    for column in columns {
        kinds.push(column.kind)?;
    }
    Ok(kinds)
}

/// How many columns are left without two for each part of a sequence.
fn own_width(columns: usize, sequence: usize) -> usize
    ensures { result ≡ columns - 2 * sequence }
{
    columns.saturating_sub(sequence).saturating_sub(sequence)
}

/// The kinds of the columns of an event.
fn event_kinds(alloc: Global, definition: &Definition) -> Result<Vec<Kind>, AllocError>
    ensures { IfOk result (λ kinds. kinds.items ≡ rules.event_kinds definition.now definition.now.body) }
{
    let mut kinds = kinds_of(alloc, definition.columns.as_slice())?;
    match definition.body {
        StoredBody::Append => {}
        StoredBody::Scd1 => {}
        StoredBody::Scd2 => {
            kinds.truncate(own_width(definition.columns.len(), definition.sequence.len()));
        }
        StoredBody::View => {}
    }
    Ok(kinds)
}

/// The kind at a place.
fn kind_at(kinds: &[Kind], at: u64) -> Option<Kind>
    ensures { result ≡ slice_get kinds.now at }
{
    kinds.get(at as usize).copied()
}

/// Puts the kind at a place behind others, where there is one.
fn put_kind_at(found: &mut Vec<Kind>, kinds: &[Kind], at: u64) -> Result<(), AllocError>
    ensures { OnOk result (found.new.items ≡ found.old.items ++ option_to_list (slice_get kinds.now at)) }
{
    match kind_at(kinds, at) {
        Some(kind) => {
            found.push(kind)?;
            Ok(())
        }
        None => Ok(()),
    }
}

/// The kinds at places.
fn kinds_at(alloc: Global, places: &[u64], kinds: &[Kind]) -> Result<Vec<Kind>, AllocError>
    ensures { IfOk result (λ found. found.items ≡ filter_map (λ at. slice_get kinds.now at) places.now) }
{
    let mut found = Vec::new(alloc);
    for at in places {
        put_kind_at(&mut found, kinds, *at)?;
    }
    Ok(found)
}

/// Whether a value of a row is NULL.
fn has_null(row: &Row) -> bool
    ensures { result ≡ list_any is_null row.now }
{
    for value in row.as_slice() {
        if let Value::Null = value {
            return true;
        }
    }
    false
}

/// Whether the key and the columns of an event are of these kinds, as far as an event of its kind has them.
fn parts_fit(definition: &Definition, keys: &[Kind], kinds: &[Kind], event: &Event) -> bool
    requires keys { keys.now ≡ rules.key_kinds definition.now }
    requires kinds { kinds.now ≡ rules.event_kinds definition.now definition.now.body }
    ensures { result ≡ rules.parts_fit definition.now event.now event.now.kind }
{
    match event.kind {
        EventKind::Upsert => event.key.fits(keys) && event.columns.fits(kinds),
        EventKind::Delete => event.key.fits(keys),
        EventKind::Truncate => true,
    }
}

/// Whether an event has the parts of its kind beside these kinds, and no NULL in its sequence.
fn event_fits(definition: &Definition, keys: &[Kind], kinds: &[Kind], event: &Event) -> bool
    requires keys { keys.now ≡ rules.key_kinds definition.now }
    requires kinds { kinds.now ≡ rules.event_kinds definition.now definition.now.body }
    ensures { result ≡ rules.event_fits definition.now event.now }
{
    if !event.sequence.fits(definition.sequence.as_slice()) {
        return false;
    }
    if has_null(&event.sequence) {
        return false;
    }
    parts_fit(definition, keys, kinds, event)
}

/// Whether each event does.
fn each_fits(definition: &Definition, keys: &[Kind], kinds: &[Kind], events: &[Event]) -> bool
    requires keys { keys.now ≡ rules.key_kinds definition.now }
    requires kinds { kinds.now ≡ rules.event_kinds definition.now definition.now.body }
    ensures { result ≡ list_all (rules.event_fits definition.now) events.now }
{
    for event in events {
        if !event_fits(definition, keys, kinds, event) {
            return false;
        }
    }
    true
}

/// Whether events have the parts that a definition gives them: a sequence of its kinds without NULL, and an upsert or a
/// delete a key, and an upsert the columns. `Err` for want of memory alone, of which it takes a list of kinds.
pub fn events_fit(
    alloc: Global,
    definition: &Definition,
    events: &[Event],
) -> Result<bool, AllocError>
    ensures { IfOk result (λ fit. fit ≡ list_all (rules.event_fits definition.now) events.now) }
{
    let kinds = event_kinds(alloc, definition)?;
    let keys = kinds_at(alloc, definition.keys.as_slice(), kinds.as_slice())?;
    let fit = each_fits(definition, keys.as_slice(), kinds.as_slice(), events);
    Ok(fit)
}

/// The key and the sequence of an event.
fn moment_of(alloc: Global, event: &Event) -> Result<(Row, Row), AllocError>
    ensures { IfOk result (λ when. when ≡ moment_key event.now) }
{
    let key = event.key.copy(alloc)?;
    let sequence = event.sequence.copy(alloc)?;
    Ok((key, sequence))
}

/// The moments of events. `None` where two of them are of one.
fn moments_of(alloc: Global, events: &[Event]) -> Result<Option<BTreeSet<(Row, Row)>>, AllocError>
    ensures differ { IfOk result (λ found. MatchOption found (rules.are_new [] events.now ≡ false) (λ moments. rules.are_new [] events.now ≡ true)) }
    ensures moments { IfOk result (λ found. MatchOption found (rules.are_new [] events.now ≡ false) (λ moments. HasMoments moments events.now)) }
{
    let mut moments = BTreeSet::new(alloc);
    for event in events {
        let when = moment_of(alloc, event)?;
        if !moments.insert(when)? {
            return Ok(None);
        }
    }
    Ok(Some(moments))
}

/// Whether one of these events is of one of these moments.
fn is_met(
    alloc: Global,
    moments: &BTreeSet<(Row, Row)>,
    events: &[Event],
) -> Result<bool, AllocError>
    ensures { IfOk result (λ met. met ≡ list_any (λ event. contains moment_order moments.now (moment_key event)) events.now) }
{
    for event in events {
        let when = moment_of(alloc, event)?;
        if moments.contains(&when) {
            return Ok(true);
        }
    }
    Ok(false)
}

/// Whether no event is of the moment of a kept one or of an earlier one. `Err` for want of memory alone: it takes a copy of
/// the moments of the new events, in which it seeks each kept one.
pub fn are_new(alloc: Global, kept: &[Event], events: &[Event]) -> Result<bool, AllocError>
    ensures { IfOk result (λ are. are ≡ rules.are_new kept.now events.now) }
{
    match moments_of(alloc, events)? {
        Some(moments) => {
            let met = is_met(alloc, &moments, kept)?;
            Ok(!met)
        }
        None => Ok(false),
    }
}
