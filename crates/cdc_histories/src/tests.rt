ghost use Rattle.std.specs.Prelude.{◌≡◌, ◌≤◌, ◌∷◌, [], false, pos, IfOk};
ghost use Rattle.value_core.specs.declared.event.Event.{Event as AnEvent};
ghost use Rattle.value_core.specs.declared.value.Value.TheVariants.{Big};
ghost use Rattle.value_core.specs.EventOrder.{Fresh, is_truncate, standing};
ghost use Rattle.event_ledger.specs.Keyed.{AreApart};
ghost use Rattle.cdc_scd2.specs.Keys.{AreKeyed};

use crate::Histories;
use par_rows::NoGate;
use plan_core::{Cdc, Origin};
use sqlite_items::Boxed;
use std::alloc::{AllocError, Global};
use std::marker::Brand;
use std::process::Abort;
use std::sync::ledger::{Blank, Ledger};
use std::test::Fail;
use std::thread::Threads;
use value_core::{Change, Event, EventKind, Events, ListOf, Name, Places, Row, Rows, Steps, Value};

fn crosses_threads<T: Send + Sync>() {}

/// A row of numbers.
fn numbers(alloc: Global, numbers: &[i64]) -> Result<Row, AllocError> {
    let mut row: Row = ListOf::new(alloc);
    for number in numbers {
        row.push(Value::Big(*number))?;
    }
    Ok(row)
}

fn upsert(sequence: Row, key: Row, columns: Row) -> Event
    ensures keyed { is_truncate result ≡ false }
    ensures at { result.sequence ≡ sequence }
{
    Event {
        kind: EventKind::Upsert,
        sequence,
        key,
        columns,
    }
}

/// An upsert of key 7 at sequence 5.
fn event(alloc: Global) -> Result<Event, AllocError>
    ensures { IfOk result (λ event. is_truncate event ≡ false) }
{
    let sequence = numbers(alloc, &[5])?;
    let key = numbers(alloc, &[7])?;
    let columns = numbers(alloc, &[7, 40])?;
    Ok(upsert(sequence, key, columns))
}

fn only(alloc: Global, event: Event) -> Result<Events, AllocError>
    ensures { IfOk result (λ events. events ≡ event ∷ []) }
{
    let mut events: Events = ListOf::new(alloc);
    events.push(event)?;
    Ok(events)
}

/// A flow from a table that keeps histories.
fn keeping(alloc: Global, name: Name, source: Name, tracked: Places) -> Cdc {
    Cdc {
        name,
        origin: Origin::Table { name: source },
        keys: ListOf::new(alloc),
        sequence: ListOf::new(alloc),
        delete_when: None,
        truncate_when: None,
        outputs: ListOf::new(alloc),
        ignore_null: false,
        scd2: true,
        tracked,
    }
}

fn places(alloc: Global, numbers: &[u32]) -> Result<Places, AllocError> {
    let mut places: Places = ListOf::new(alloc);
    for number in numbers {
        places.push(*number)?;
    }
    Ok(places)
}

/// A flow that tracks these columns.
fn flow(alloc: Global, tracked: &[u32]) -> Result<Boxed<Cdc>, AllocError> {
    let name = Name::new(alloc, "f")?;
    let source = Name::new(alloc, "source")?;
    let tracked = places(alloc, tracked)?;
    Boxed::new(alloc, keeping(alloc, name, source, tracked))
}

/// What one event does to no rows.
fn first_change<L: Ledger>(alloc: Global, steps: &mut Steps<L>) -> Result<Change, AllocError> {
    let flow = flow(alloc, &[])?;
    let mut kept = Histories::new(alloc, flow.get())?;
    let event = event(alloc)?;
    let events = only(alloc, event)?;
    let change = kept.apply(alloc, &events, steps)?;
    Ok(change)
}

/// Whether a row is the one of the event: its columns, from 5 on, without an end.
fn is_open(alloc: Global, row: &Row) -> Result<bool, AllocError> {
    let mut wanted = numbers(alloc, &[7, 40, 5])?;
    wanted.push(Value::Null)?;
    Ok(*row == wanted)
}

fn changes<L: Ledger>(rt: &impl Abort, alloc: Global, blank: Blank) -> Result<(), AllocError>
    requires name { blank.name ≡ L.name }
    requires parts { blank.parts ≡ L.parts }
    requires some { blank.parts ≡ 1 }
{
    let mut steps: Steps<L> = Steps::new(blank);
    let change = first_change(alloc, &mut steps)?;
    assert!(rt; change.removed.is_empty());
    for row in change.added.as_slice() {
        assert!(rt; is_open(alloc, row)?);
    }
    assert_eq!(rt; change.added.len(), 1);
    Ok(())
}

#[test]
fn an_event_opens_the_row_of_its_key(rt: HostRuntime) -> Result<(), Fail> {
    let alloc = rt.alloc();
    changes::<Brand>(&rt, alloc, Blank::new(1))?;
    Ok(())
}

// ---- a late event splits a past interval

/// A row of one number.
fn single(alloc: Global, number: i64) -> Result<Row, AllocError>
    ensures { IfOk result (λ row. row ≡ Big number ∷ []) }
{
    let mut row: Row = ListOf::new(alloc);
    row.push(Value::Big(number))?;
    Ok(row)
}

fn event_at(is_delete: bool, sequence: Row, key: Row, columns: Row) -> Event
    ensures keyed { is_truncate result ≡ false }
    ensures at { result.sequence ≡ sequence }
{
    if is_delete {
        Event {
            kind: EventKind::Delete,
            sequence,
            key,
            columns,
        }
    } else {
        upsert(sequence, key, columns)
    }
}

/// An event of a user: an upsert of these columns, or without columns a delete.
fn moment(alloc: Global, user: i64, sequence: i64, columns: &[i64]) -> Result<Event, AllocError>
    ensures keyed { IfOk result (λ event. is_truncate event ≡ false) }
    ensures at { IfOk result (λ event. event.sequence ≡ Big sequence ∷ []) }
{
    let at = single(alloc, sequence)?;
    let key = single(alloc, user)?;
    let values = numbers(alloc, columns)?;
    Ok(event_at(columns.is_empty(), at, key, values))
}

fn four(
    alloc: Global,
    first: Event,
    second: Event,
    third: Event,
    fourth: Event,
) -> Result<Events, AllocError>
    ensures { IfOk result (λ events. events ≡ first ∷ second ∷ third ∷ fourth ∷ []) }
{
    let mut events: Events = ListOf::new(alloc);
    events.push(first)?;
    events.push(second)?;
    events.push(third)?;
    events.push(fourth)?;
    Ok(events)
}

/// User 123, by name 11, moves from city 21 to city 22 at 5, and goes at 6; user 124 comes at 7.
fn users(alloc: Global) -> Result<Events, AllocError>
    ensures apart { IfOk result AreApart }
    ensures keyed { IfOk result AreKeyed }
    ensures late { IfOk result (λ events. (late : AnEvent) → late.sequence ≡ Big (pos 3) ∷ [] → standing events late ≡ Fresh) }
{
    let gone = moment(alloc, 123, 6, &[])?;
    let moved = moment(alloc, 123, 5, &[123, 11, 22])?;
    let other = moment(alloc, 124, 7, &[124, 14, 24])?;
    let came = moment(alloc, 123, 1, &[123, 11, 21])?;
    let events = four(alloc, gone, moved, other, came)?;
    Ok(events)
}

/// The histories of the users, and their rows.
fn built<H: Threads + Sync>(
    rt: &H,
    alloc: Global,
    workers: u32,
) -> Result<(Histories, Rows), AllocError>
    requires { (1 ≤ workers) × (workers ≤ 64) }
    ensures { IfOk result (λ built. (late : AnEvent) → late.sequence ≡ Big (pos 3) ∷ [] → AreApart (late ∷ built.0.events)) }
{
    let flow = flow(alloc, &[0, 1, 2])?;
    let events = users(alloc)?;
    let built = Histories::build(rt, alloc, &NoGate, workers, flow.get(), &events)?;
    Ok(built)
}

/// What it does to the rows that user 123 was named 12 in city 23 at 3.
fn late_change<L: Ledger>(
    alloc: Global,
    kept: &mut Histories,
    steps: &mut Steps<L>,
) -> Result<Change, AllocError>
    requires { (late : AnEvent) → late.sequence ≡ Big (pos 3) ∷ [] → AreApart (late ∷ kept.old.events) }
{
    let late = moment(alloc, 123, 3, &[123, 12, 23])?;
    let events = only(alloc, late)?;
    let change = kept.apply(alloc, &events, steps)?;
    Ok(change)
}

/// Whether rows are these, where 0 stands for NULL.
fn are(alloc: Global, rows: &Rows, wanted: &[&[i64]]) -> Result<bool, AllocError> {
    let mut left = rows.as_slice();
    for numbers in wanted {
        let Some((first, more)) = left.split_first() else {
            return Ok(false);
        };
        if !is_row(alloc, first, numbers)? {
            return Ok(false);
        }
        left = more;
    }
    Ok(left.is_empty())
}

/// Whether a row is of these numbers, where 0 stands for NULL.
fn is_row(alloc: Global, row: &Row, numbers: &[i64]) -> Result<bool, AllocError> {
    let mut wanted: Row = ListOf::new(alloc);
    for number in numbers {
        match *number {
            0 => wanted.push(Value::Null)?,
            n => wanted.push(Value::Big(n))?,
        }
    }
    Ok(*row == wanted)
}

fn splits<H: Threads + Abort + Sync, L: Ledger>(
    rt: &H,
    alloc: Global,
    workers: u32,
    blank: Blank,
) -> Result<(), AllocError>
    requires workers { (1 ≤ workers) × (workers ≤ 64) }
    requires name { blank.name ≡ L.name }
    requires parts { blank.parts ≡ L.parts }
    requires some { blank.parts ≡ 1 }
{
    let mut steps: Steps<L> = Steps::new(blank);
    let (mut kept, rows) = built(rt, alloc, workers)?;
    assert!(rt;
        are(
            alloc,
            &rows,
            &[
                &[123, 11, 21, 1, 5],
                &[123, 11, 22, 5, 6],
                &[124, 14, 24, 7, 0]
            ]
        )?
    );
    let change = late_change(alloc, &mut kept, &mut steps)?;
    assert!(rt; are(alloc, &change.removed, &[&[123, 11, 21, 1, 5]])?);
    assert!(rt;
        are(
            alloc,
            &change.added,
            &[&[123, 11, 21, 1, 3], &[123, 12, 23, 3, 5]]
        )?
    );
    Ok(())
}

#[test]
fn a_late_event_splits_a_past_interval(rt: HostRuntime) -> Result<(), Fail> {
    let alloc = rt.alloc();
    splits::<_, Brand>(&rt, alloc, 1, Blank::new(1))?;
    Ok(())
}

#[test]
fn any_number_of_workers_gives_the_same_rows(rt: HostRuntime) -> Result<(), Fail> {
    let alloc = rt.alloc();
    splits::<_, Brand>(&rt, alloc, 64, Blank::new(1))?;
    Ok(())
}

#[test]
fn histories_cross_threads() {
    crosses_threads::<Histories>();
}
