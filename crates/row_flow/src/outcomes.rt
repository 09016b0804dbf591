// The rows of a batch, each by itself, by several workers.
ghost use Rattle.std.specs.Prelude.{◌≤◌, ◌<◌, ◌+◌, ◌^◌, IfOk, map};
ghost use Rattle.flow_model.specs.Append.{judged};
ghost use Rattle.flow_model.specs.Feed.{reading};
ghost use Rattle.row_flow.specs.Results.{Come, IsResult, append_result, append_results, feed_result, feed_results};
ghost use Rattle.row_flow.specs.Rows.{line_row};

use crate::append::append_row;
use crate::feed::event_row;
use crate::input::row_of_line;
use crate::result::RowResult;
use landing_core::{FreshLine, Heads};
use par_rows::{Gate, map_rows};
use plan_core::{AppendFlow, Cdc, Expectations};
use std::alloc::{AllocError, Global};
use std::thread::Threads;
use value_core::{Row, Shape};

/// What each row comes to, or want of memory, in row order.
pub(crate) type Outcomes = Vec<Result<RowResult, AllocError>>;

/// What each row comes to in a flow that appends.
pub(crate) fn append_rows<H: Threads + Sync, G: Gate + Sync>(
    rt: &H,
    alloc: Global,
    gate: &G,
    workers: u32,
    flow: &AppendFlow,
    expectations: &Expectations,
    rows: &[Row],
) -> Result<Outcomes, AllocError>
    requires { (1 ≤ workers) × (workers ≤ 64) }
    ensures { IfOk result (λ outcomes. Come expectations.now (append_results flow.now expectations.now rows.now) outcomes.items) }
{
    let come = move |i: u64, row: &Row| -> Result<RowResult, AllocError>
        requires { i + 1 < 2 ^ 64 }
        ensures { IfOk result (IsResult expectations.entry.now (append_result (i + 1) (judged flow.entry.now expectations.entry.now row.entry.now))) }
    { append_row(alloc, flow, expectations, i + 1, row) };
    let outcomes = map_rows(rt, alloc, gate, workers, rows, &come)?;
    Ok(outcomes)
}

/// What the row of each line comes to in a flow that appends.
pub(crate) fn append_lines<H: Threads + Sync, G: Gate + Sync>(
    rt: &H,
    alloc: Global,
    gate: &G,
    workers: u32,
    flow: &AppendFlow,
    expectations: &Expectations,
    shape: &Shape,
    heads: &Heads,
    lines: &[FreshLine],
) -> Result<Outcomes, AllocError>
    requires { (1 ≤ workers) × (workers ≤ 64) }
    ensures { IfOk result (λ outcomes. Come expectations.now (append_results flow.now expectations.now (map (line_row shape.now heads.now) lines.now)) outcomes.items) }
{
    let come = move |i: u64, line: &FreshLine| -> Result<RowResult, AllocError>
        requires { i + 1 < 2 ^ 64 }
        ensures { IfOk result (IsResult expectations.entry.now (append_result (i + 1) (judged flow.entry.now expectations.entry.now (line_row shape.entry.now heads.entry.now line.entry.now)))) }
    {
        let row = row_of_line(alloc, shape, heads, line)?;
        append_row(alloc, flow, expectations, i + 1, &row)
    };
    let outcomes = map_rows(rt, alloc, gate, workers, lines, &come)?;
    Ok(outcomes)
}

/// What each row comes to in a change feed.
pub(crate) fn feed_rows<H: Threads + Sync, G: Gate + Sync>(
    rt: &H,
    alloc: Global,
    gate: &G,
    workers: u32,
    flow: &Cdc,
    expectations: &Expectations,
    rows: &[Row],
) -> Result<Outcomes, AllocError>
    requires { (1 ≤ workers) × (workers ≤ 64) }
    ensures { IfOk result (λ outcomes. Come expectations.now (feed_results flow.now expectations.now rows.now) outcomes.items) }
{
    let come = move |i: u64, row: &Row| -> Result<RowResult, AllocError>
        requires { i + 1 < 2 ^ 64 }
        ensures { IfOk result (IsResult expectations.entry.now (feed_result (i + 1) (reading flow.entry.now expectations.entry.now row.entry.now))) }
    { event_row(alloc, flow, expectations, i + 1, row) };
    let outcomes = map_rows(rt, alloc, gate, workers, rows, &come)?;
    Ok(outcomes)
}

/// What the row of each line comes to in a change feed.
pub(crate) fn feed_lines<H: Threads + Sync, G: Gate + Sync>(
    rt: &H,
    alloc: Global,
    gate: &G,
    workers: u32,
    flow: &Cdc,
    expectations: &Expectations,
    shape: &Shape,
    heads: &Heads,
    lines: &[FreshLine],
) -> Result<Outcomes, AllocError>
    requires { (1 ≤ workers) × (workers ≤ 64) }
    ensures { IfOk result (λ outcomes. Come expectations.now (feed_results flow.now expectations.now (map (line_row shape.now heads.now) lines.now)) outcomes.items) }
{
    let come = move |i: u64, line: &FreshLine| -> Result<RowResult, AllocError>
        requires { i + 1 < 2 ^ 64 }
        ensures { IfOk result (IsResult expectations.entry.now (feed_result (i + 1) (reading flow.entry.now expectations.entry.now (line_row shape.entry.now heads.entry.now line.entry.now)))) }
    {
        let row = row_of_line(alloc, shape, heads, line)?;
        event_row(alloc, flow, expectations, i + 1, &row)
    };
    let outcomes = map_rows(rt, alloc, gate, workers, lines, &come)?;
    Ok(outcomes)
}
