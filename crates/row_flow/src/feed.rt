// What a row of a change feed comes to.
ghost use Rattle.std.specs.Prelude.{◌≡◌, IfOk, length, slice_index_or};
ghost use Rattle.std.specs.List.{list_any};
ghost use Rattle.value_core.specs.Order.{is_null};
ghost use Rattle.value_core.specs.declared.event.EventKind.TheVariants.{Upsert};
ghost use Rattle.value_core.specs.declared.value.Value.TheVariants.{Null};
ghost use Rattle.flow_model.specs.Admission.{admit as admits};
ghost use Rattle.flow_model.specs.Feed as spec;
ghost use Rattle.row_admission.specs.Answers.{Gives};
ghost use Rattle.row_flow.specs.Judges.{FeedJudges, kind_behind};
ghost use Rattle.row_flow.specs.Results.{IsResult, feed_result};

use crate::result::{Judged, RowResult, RowStop, stop_of};
use plan_core::{Cdc, Expectations, Verdict};
use row_admission::{Marks, admit};
use row_expr::{Expr, RowFault, eval};
use std::alloc::{AllocError, Global};
use value_core::{Event, EventKind, ListOf, Row, Value};

/// Whether a condition is there and TRUE.
fn applies(alloc: Global, condition: &Option<Expr>, row: &Row) -> Result<bool, RowFault>
    ensures { Gives (spec.applies condition.now row.now) result }
{
    match condition {
        None => Ok(false),
        Some(condition) => match eval(alloc, condition, row) {
            Ok(value) => Ok(value.is_true()),
            Err(fault) => Err(fault),
        },
    }
}

/// A delete where its condition is TRUE, else an upsert.
fn kind_kept(alloc: Global, cdc: &Cdc, row: &Row) -> Result<EventKind, RowFault>
    ensures { Gives (kind_behind cdc.now row.now) result }
{
    match applies(alloc, &cdc.delete_when, row) {
        Ok(deletes) => {
            if deletes {
                Ok(EventKind::Delete)
            } else {
                Ok(EventKind::Upsert)
            }
        }
        Err(fault) => Err(fault),
    }
}

/// A truncate where its condition is TRUE, else a delete where its condition is, else an upsert.
fn kind(alloc: Global, cdc: &Cdc, row: &Row) -> Result<EventKind, RowFault>
    ensures { Gives (spec.kind_of cdc.now row.now) result }
{
    match applies(alloc, &cdc.truncate_when, row) {
        Ok(truncates) => {
            if truncates {
                Ok(EventKind::Truncate)
            } else {
                kind_kept(alloc, cdc, row)
            }
        }
        Err(fault) => Err(fault),
    }
}

/// The value at a place of a row, NULL where the row has none.
fn value_at(alloc: Global, row: &Row, at: u32) -> Result<Value, AllocError>
    ensures { IfOk result (λ value. value ≡ slice_index_or row.now at Null) }
{
    match row.as_slice().get(at as usize) {
        Some(value) => value.copy(alloc),
        None => Ok(Value::Null),
    }
}

/// The values of a row at these places.
fn pick(alloc: Global, places: &[u32], row: &Row) -> Result<Row, AllocError>
    ensures { IfOk result (λ values. values ≡ spec.pick places.now row.now) }
{
    let mut values = ListOf::new(alloc);
    for at in places {
        values.push(value_at(alloc, row, *at)?)?;
    }
    Ok(values)
}

/// The event of a kind that a row gives.
fn event(alloc: Global, cdc: &Cdc, row: &Row, kind: EventKind) -> Result<Event, AllocError>
    ensures { IfOk result (λ event. event ≡ spec.event_of cdc.now row.now kind) }
{
    let sequence = pick(alloc, cdc.sequence.as_slice(), row)?;
    let columns = pick(alloc, cdc.outputs.as_slice(), row)?;
    let key = pick(alloc, cdc.keys.as_slice(), &columns)?;
    match kind {
        EventKind::Truncate => Ok(Event {
            kind,
            sequence,
            key: ListOf::new(alloc),
            columns: ListOf::new(alloc),
        }),
        EventKind::Delete => Ok(Event {
            kind,
            sequence,
            key,
            columns: ListOf::new(alloc),
        }),
        EventKind::Upsert => Ok(Event {
            kind,
            sequence,
            key,
            columns,
        }),
    }
}

/// Whether a row has a NULL.
fn has_null(row: &Row) -> bool
    ensures { result ≡ list_any is_null row.now }
{
    row.as_slice().iter().any(|value| value.is_null())
}

/// What becomes of an upsert: the expectations are judged on its columns.
fn judge_upsert(
    alloc: Global,
    expectations: &Expectations,
    event: Event,
    marks: &mut Marks,
) -> Result<Judged, RowStop>
    requires marks { length marks.old ≡ length expectations.now }
    requires kind { event.kind ≡ Upsert }
    ensures { FeedJudges expectations.now (spec.by_verdict event (admits expectations.now event.columns)) result marks.new }
{
    match admit(alloc, expectations, &event.columns, marks) {
        Ok(Verdict::Keep) => Ok(Judged::Upsert(event)),
        Ok(Verdict::DropIt) => Ok(Judged::Dropped(event.columns)),
        Ok(Verdict::Fail { name }) => Err(RowStop::Fails(name)),
        Err(fault) => Err(RowStop::Fault(fault)),
    }
}

/// What becomes of an event: one with a NULL in its sequence stops the feed, whatever its kind.
fn judge_event(
    alloc: Global,
    expectations: &Expectations,
    event: Event,
    marks: &mut Marks,
) -> Result<Judged, RowStop>
    requires { length marks.old ≡ length expectations.now }
    ensures { FeedJudges expectations.now (spec.by_event expectations.now event) result marks.new }
{
    if has_null(&event.sequence) {
        return Err(RowStop::NoSequence);
    }
    match event.kind {
        EventKind::Upsert => judge_upsert(alloc, expectations, event, marks),
        EventKind::Delete => Ok(Judged::Other(event)),
        EventKind::Truncate => Ok(Judged::Other(event)),
    }
}

/// What becomes of a row: the conditions, then the sequence, then for an upsert the expectations.
fn judge(
    alloc: Global,
    cdc: &Cdc,
    expectations: &Expectations,
    row: &Row,
    marks: &mut Marks,
) -> Result<Judged, RowStop>
    requires { length marks.old ≡ length expectations.now }
    ensures { FeedJudges expectations.now (spec.reading cdc.now expectations.now row.now) result marks.new }
{
    match kind(alloc, cdc, row) {
        Ok(kind) => match event(alloc, cdc, row, kind) {
            Ok(event) => judge_event(alloc, expectations, event, marks),
            Err(_) => Err(RowStop::Fault(RowFault::Memory)),
        },
        Err(fault) => Err(RowStop::Fault(fault)),
    }
}

/// What a row of this number comes to. Fails for want of memory alone.
pub(crate) fn event_row(
    alloc: Global,
    cdc: &Cdc,
    expectations: &Expectations,
    number: u64,
    row: &Row,
) -> Result<RowResult, AllocError>
    ensures { IfOk result (IsResult expectations.now (feed_result number (spec.reading cdc.now expectations.now row.now))) }
{
    let mut marks = Marks::new(alloc, expectations.len())?;
    match judge(alloc, cdc, expectations, row, &mut marks) {
        Ok(judged) => Ok(RowResult { judged, marks }),
        Err(why) => {
            let judged = Judged::Halt(stop_of(number, why)?);
            Ok(RowResult { judged, marks })
        }
    }
}
