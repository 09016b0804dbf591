// The batches of flows.
ghost use Rattle.std.specs.Prelude.{◌≡◌, ◌≤◌, None, filter_map, length, IfOk, IfErr, OnOk};
ghost use Rattle.value_core.specs.Bags.{in_row_order};
ghost use Rattle.flow_model.specs.Admission.{counts};
ghost use Rattle.flow_model.specs.Append.{append_out, append_seen, append_stop};
ghost use Rattle.flow_model.specs.Feed.{upsert_in};
ghost use Rattle.flow_model.specs.Halts.{feed_halt, front, front_events};
ghost use Rattle.row_flow.specs.Batches.{IsStopOf};
ghost use Rattle.row_flow.specs.Results.{Come, append_results, feed_results};
ghost use Rattle.row_flow.specs.Rows.{rows_of};

use crate::gather::{Gathered, gather};
use crate::input::Input;
use crate::outcomes::{Outcomes, append_lines, append_rows, feed_lines, feed_rows};
use par_rows::Gate;
use plan_core::{AppendFlow, Cdc, Expectations, Origin, Stop, StopOr};
use std::alloc::{AllocError, Global};
use std::thread::Threads;
use value_core::{ListOf, NumberedEvents, Row, Rows, Tallies};

/// What a flow that appends makes of its rows: how many there were, the projections that are kept,
/// in row order, and one count an expectation.
#[derive(Debug, Drop)]
pub struct Batch {
    pub read: u64,
    pub rows: Rows,
    pub tallies: Tallies,
}

/// What a change feed gives: the stop of the first row that has one by itself, and of the rows before
/// it, or of all where there is none, how many they are, their events in row order and the counts of
/// their upserts.
#[derive(Debug, Drop)]
pub struct EventBatch {
    pub read: u64,
    pub events: NumberedEvents,
    pub tallies: Tallies,
    pub halt: Option<Stop>,
}

/// Puts rows in row order.
fn sort(rows: &mut Vec<Row>)
    ensures { rows.new.items ≡ in_row_order rows.old.items }
{
    rows.sort_unstable();
}

/// The batch of rows that were gathered, or their stop.
fn batch_of(gathered: Gathered) -> Result<Batch, StopOr>
    ensures goes_on { OnOk result (gathered.halt ≡ None) }
    ensures read { IfOk result (λ batch. batch.read ≡ gathered.read) }
    ensures rows { IfOk result (λ batch. batch.rows ≡ in_row_order gathered.rows.items) }
    ensures tallies { IfOk result (λ batch. batch.tallies ≡ gathered.tallies.items) }
    ensures stops { IfErr result (IsStopOf gathered.halt) }
{
    let Gathered {
        read,
        mut rows,
        events: _events,
        tallies,
        halt,
    } = gathered;
    match halt {
        Some(stop) => Err(StopOr::Stop(stop)),
        None => {
            sort(&mut rows);
            Ok(Batch {
                read,
                rows: ListOf::from_vec(rows),
                tallies: ListOf::from_vec(tallies),
            })
        }
    }
}

/// What each row of an input comes to in a flow that appends.
fn append_outcomes<H: Threads + Sync, G: Gate + Sync>(
    rt: &H,
    alloc: Global,
    gate: &G,
    workers: u32,
    flow: &AppendFlow,
    expectations: &Expectations,
    input: &Input,
) -> Result<Outcomes, AllocError>
    requires { (1 ≤ workers) × (workers ≤ 64) }
    ensures { IfOk result (λ outcomes. Come expectations.now (append_results flow.now expectations.now (rows_of flow.now.origin input.now)) outcomes.items) }
{
    match input {
        Input::Rows(rows) => append_rows(
            rt,
            alloc,
            gate,
            workers,
            flow,
            expectations,
            rows.as_slice(),
        ),
        Input::Lines(fresh) => match &flow.origin {
            Origin::Files { dir: _, shape } => append_lines(
                rt,
                alloc,
                gate,
                workers,
                flow,
                expectations,
                shape,
                &fresh.heads,
                fresh.lines.as_slice(),
            ),
            Origin::Table { name: _ } => Ok(Vec::new(alloc)),
        },
    }
}

/// The batch of a flow that appends (Databricks SQL reference, CREATE STREAMING TABLE and CREATE
/// FLOW). A row is judged where WHERE is absent or TRUE: its outputs are evaluated from left to right,
/// and the expectations are judged on them. The first row that faults there, or fails an expectation
/// with FAIL UPDATE, stops the flow: Stop comes exactly then, with its first cause, and there is no
/// batch. Memory comes where none is found.
///
/// Lines are read by the shape of the flow's files; a flow over a dataset has none for them, and takes
/// no line. The rows are evaluated by at most as many threads as there are workers; what comes out is the same
/// for every number of them.
pub fn append_batch<H: Threads + Sync, G: Gate + Sync>(
    rt: &H,
    alloc: Global,
    gate: &G,
    workers: u32,
    flow: &AppendFlow,
    expectations: &Expectations,
    input: &Input,
) -> Result<Batch, StopOr>
    requires { (1 ≤ workers) × (workers ≤ 64) }
    ensures goes_on { OnOk result (append_stop flow.now expectations.now (rows_of flow.now.origin input.now) ≡ None) }
    ensures read { IfOk result (λ batch. batch.read ≡ length (rows_of flow.now.origin input.now)) }
    ensures rows { IfOk result (λ batch. batch.rows ≡ in_row_order (append_out flow.now expectations.now (rows_of flow.now.origin input.now))) }
    ensures tallies { IfOk result (λ batch. batch.tallies ≡ counts expectations.now (append_seen flow.now expectations.now (rows_of flow.now.origin input.now))) }
    ensures stops { IfErr result (IsStopOf (append_stop flow.now expectations.now (rows_of flow.now.origin input.now))) }
{
    let Ok(outcomes) = append_outcomes(rt, alloc, gate, workers, flow, expectations, input) else {
        return Err(StopOr::Memory);
    };
    let Ok(gathered) = gather(alloc, expectations, outcomes) else {
        return Err(StopOr::Memory);
    };
    batch_of(gathered)
}

/// The events of rows that were gathered.
fn events_of(gathered: Gathered) -> EventBatch
    ensures read { result.read ≡ gathered.read }
    ensures events { result.events ≡ gathered.events }
    ensures tallies { result.tallies ≡ gathered.tallies.items }
    ensures halt { result.halt ≡ gathered.halt }
{
    let Gathered {
        read,
        rows: _rows,
        events,
        tallies,
        halt,
    } = gathered;
    EventBatch {
        read,
        events,
        tallies: ListOf::from_vec(tallies),
        halt,
    }
}

/// What each row of an input comes to in a change feed.
fn feed_outcomes<H: Threads + Sync, G: Gate + Sync>(
    rt: &H,
    alloc: Global,
    gate: &G,
    workers: u32,
    flow: &Cdc,
    expectations: &Expectations,
    input: &Input,
) -> Result<Outcomes, AllocError>
    requires { (1 ≤ workers) × (workers ≤ 64) }
    ensures { IfOk result (λ outcomes. Come expectations.now (feed_results flow.now expectations.now (rows_of flow.now.origin input.now)) outcomes.items) }
{
    match input {
        Input::Rows(rows) => feed_rows(
            rt,
            alloc,
            gate,
            workers,
            flow,
            expectations,
            rows.as_slice(),
        ),
        Input::Lines(fresh) => match &flow.origin {
            Origin::Files { dir: _, shape } => feed_lines(
                rt,
                alloc,
                gate,
                workers,
                flow,
                expectations,
                shape,
                &fresh.heads,
                fresh.lines.as_slice(),
            ),
            Origin::Table { name: _ } => Ok(Vec::new(alloc)),
        },
    }
}

/// The events of a change feed (Databricks SQL reference, AUTO CDC INTO), up to the first row that
/// stops it by itself: a condition or an expectation faults, its sequence has a NULL, or it fails an
/// expectation with FAIL UPDATE. That stop is the halt. Events that tie are not looked for: the
/// caller judges ties on the events that are given, and they come before the halt.
///
/// A row gives a truncate where the truncate condition is TRUE, else a delete where the delete
/// condition is, else an upsert, and an upsert that an expectation drops gives no event. NULL columns
/// are given as they are, also under IGNORE NULL UPDATES. Fails for want of memory alone.
///
/// Lines are read by the shape of the flow's files; a flow over a dataset has none for them, and takes
/// no line. The rows are evaluated by at most as many threads as there are workers; what comes out is the same
/// for every number of them.
pub fn event_batch<H: Threads + Sync, G: Gate + Sync>(
    rt: &H,
    alloc: Global,
    gate: &G,
    workers: u32,
    flow: &Cdc,
    expectations: &Expectations,
    input: &Input,
) -> Result<EventBatch, AllocError>
    requires { (1 ≤ workers) × (workers ≤ 64) }
    ensures halt { IfOk result (λ batch. batch.halt ≡ feed_halt flow.now expectations.now (rows_of flow.now.origin input.now)) }
    ensures read { IfOk result (λ batch. batch.read ≡ length (front flow.now expectations.now (rows_of flow.now.origin input.now))) }
    ensures events { IfOk result (λ batch. batch.events ≡ front_events flow.now expectations.now (rows_of flow.now.origin input.now)) }
    ensures tallies { IfOk result (λ batch. batch.tallies ≡ counts expectations.now (filter_map upsert_in (front flow.now expectations.now (rows_of flow.now.origin input.now)))) }
{
    let outcomes = feed_outcomes(rt, alloc, gate, workers, flow, expectations, input)?;
    let gathered = gather(alloc, expectations, outcomes)?;
    Ok(events_of(gathered))
}
