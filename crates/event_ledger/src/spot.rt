// Where an event stands in the history of its key.
ghost use Rattle.std.specs.Prelude.{◌≡◌, ◌+◌, ◌<◌, ◌≤◌, ◌^◌, ℕ, IfOk, OnErr, length};
ghost use Rattle.value_core.specs.EventOrder.{kind_rank, same_event, standing};
ghost use Rattle.event_history.specs.Histories.{events_of};
ghost use Rattle.event_ledger.specs.Keyed.{AreOf, standing_in};
ghost use Rattle.event_ledger.specs.Spots.{entries_after, HasRoom, IsBeside, standing_at};

use crate::insertion::Insertion;
use event_history::{Entry, History, Place};
use std::alloc::{AllocError, Global};
use std::sync::ledger;
use value_core::{Event, EventKind, ListOf, Steps};

/// Where an event goes among those of its key, or what it is beside the kept one of its moment.
#[derive(Debug, Drop)]
pub(crate) enum Spot {
    Free(usize),
    Repeat,
    Tied(Event),
}

/// The answer that a spot stands for.
pub(crate) fn answer_at(spot: Spot) -> Insertion
    ensures { standing_in result ≡ standing_at spot }
{
    match spot {
        Spot::Free(_) => Insertion::Fresh,
        Spot::Repeat => Insertion::Repeat,
        Spot::Tied(kept) => Insertion::Tied { kept },
    }
}

fn rank(kind: EventKind) -> u8
    ensures { result ≡ kind_rank kind }
{
    match kind {
        EventKind::Truncate => 0,
        EventKind::Delete => 1,
        EventKind::Upsert => 2,
    }
}

/// Whether two events are equal.
fn is_same(kept: &Event, event: &Event) -> bool
    ensures { result ≡ same_event kept.now event.now }
{
    kept.key == event.key
        && kept.sequence == event.sequence
        && rank(kept.kind) == rank(event.kind)
        && kept.columns == event.columns
}

/// What an event is beside the kept one of its moment.
fn beside(alloc: Global, kept: &Event, event: &Event) -> Result<Spot, AllocError>
    ensures { IfOk result (IsBeside kept.now event.now) }
{
    if is_same(kept, event) {
        return Ok(Spot::Repeat);
    }
    let copy = kept.copy(alloc)?;
    Ok(Spot::Tied(copy))
}

/// Where an event stands in the history of its key. Among n events it takes at most h + 1 looks, where n is below
/// 2^h.
pub(crate) fn spot_of<L: ledger::Ledger>(
    alloc: Global,
    history: &History,
    event: &Event,
    steps: &mut Steps<L>,
) -> Result<Spot, AllocError>
    requires { AreOf event.now.key history.now }
    ensures standing { IfOk result (λ spot. standing_at spot ≡ standing (events_of history.now) event.now) }
    ensures room { IfOk result (HasRoom history.now event.now) }
    ensures looks { (h : ℕ) → length history.now < 2 ^ h → steps.new ≤ steps.old + (h + 1) }
{
    let _count = history.len();
    match history.find(&event.sequence, steps) {
        Place::Between(i) => Ok(Spot::Free(i)),
        Place::At(i) => {
            let kept = history.look(i, steps);
            beside(alloc, &kept.event, event)
        }
    }
}

/// Puts an event into the history of its key where it is fresh there, and says what it is.
pub(crate) fn put_in<L: ledger::Ledger>(
    alloc: Global,
    history: &mut History,
    event: Event,
    steps: &mut Steps<L>,
) -> Result<Insertion, AllocError>
    requires { AreOf event.key history.old }
    ensures standing { IfOk result (λ answer. standing_in answer ≡ standing (events_of history.old) event) }
    ensures after { IfOk result (λ answer. history.new ≡ entries_after (standing_in answer) event history.old) }
    ensures err { OnErr result (history.new ≡ history.old) }
    ensures looks { (h : ℕ) → length history.old < 2 ^ h → steps.new ≤ steps.old + (h + 1) }
{
    let spot = spot_of(alloc, history, &event, steps)?;
    if let Spot::Free(i) = spot {
        let effective = ListOf::new(alloc);
        history.put(i, Entry { event, effective })?;
        return Ok(Insertion::Fresh);
    }
    Ok(answer_at(spot))
}
