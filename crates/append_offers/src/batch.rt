// What rows come to.
ghost use Rattle.std.specs.Prelude.{◌≡◌, ◌≤◌, IfOk};
ghost use Rattle.flow_model.specs.Counts.{count_stop};
ghost use Rattle.row_flow.specs.Rows.{rows_of};
ghost use Rattle.append_offers.specs.Offers as spec;
ghost use Rattle.append_offers.specs.Offers.{batch_with};
ghost use Rattle.flow_news.specs.Made.{made};

use commit_payloads::Take;
use flow_news::{Offer, find_overflow};
use par_rows::Gate;
use plan_core::{AppendFlow, Dataset, StopOr};
use row_flow::{Batch, Input, append_batch};
use std::alloc::{AllocError, Global};
use std::thread::Threads;
use value_core::{Change, Cursor, ListOf, Rows, Tallies};

/// The batch with these rows and counts.
fn take(
    alloc: Global,
    dataset: &Dataset,
    flow: &AppendFlow,
    cursor: Cursor,
    added: Rows,
    counts: Tallies,
) -> Result<Take, AllocError>
    ensures { IfOk result (λ batch. batch ≡ batch_with dataset.now flow.now cursor added counts) }
{
    let table = dataset.name.copy(alloc)?;
    let flow = flow.name.copy(alloc)?;
    let removed = ListOf::new(alloc);
    Ok(Take {
        table,
        flow,
        cursor,
        change: Change { removed, added },
        counts,
        events: ListOf::new(alloc),
    })
}

/// What a batch comes to that no row stops: a count that would pass its limit stops it.
fn settle(
    alloc: Global,
    dataset: &Dataset,
    flow: &AppendFlow,
    kept: &Tallies,
    cursor: Cursor,
    batch: Batch,
) -> Result<Offer, AllocError>
    ensures { IfOk result (λ offer. offer ≡ made (count_stop dataset.now.expectations kept.now batch.tallies) batch.read (batch_with dataset.now flow.now cursor batch.rows batch.tallies)) }
{
    let Batch {
        read,
        rows,
        tallies,
    } = batch;
    let stop = find_overflow(
        alloc,
        dataset.expectations.as_slice(),
        kept.as_slice(),
        tallies.as_slice(),
    )?;
    match stop {
        Some(why) => Ok(Offer::Halted(why)),
        None => {
            let batch = take(alloc, dataset, flow, cursor, rows, tallies)?;
            Ok(Offer::Ready { read, batch })
        }
    }
}

/// What the rows of an input come to, and the position behind them.
pub(crate) fn batch_offer<H: Threads + Sync, G: Gate + Sync>(
    rt: &H,
    alloc: Global,
    gate: &G,
    workers: u32,
    dataset: &Dataset,
    flow: &AppendFlow,
    kept: &Tallies,
    cursor: Cursor,
    input: &Input,
) -> Result<Offer, AllocError>
    requires { (1 ≤ workers) × (workers ≤ 64) }
    ensures { IfOk result (λ offer. offer ≡ spec.batch_offer dataset.now flow.now kept.now (rows_of flow.now.origin input.now) cursor) }
{
    match append_batch(rt, alloc, gate, workers, flow, &dataset.expectations, input) {
        Ok(batch) => settle(alloc, dataset, flow, kept, cursor, batch),
        Err(StopOr::Stop(why)) => Ok(Offer::Halted(why)),
        Err(StopOr::Memory) => Err(AllocError),
    }
}
