// Events are compared and sorted.
ghost use Rattle.std.specs.Prelude.{◌≡◌, IfOk};
ghost use Rattle.value_core.specs.EventOrder as order;
ghost use Rattle.value_core.specs.EventOrder.{event_order, history_order, sorted_by};

use std::alloc::AllocError;
use std::cmp::Ordering;
use value_core::{Event, EventKind, Events, ListOf};

/// Truncates, then deletes, then upserts.
fn kind_rank(kind: EventKind) -> u8
    ensures { result ≡ order.kind_rank kind }
{
    match kind {
        EventKind::Truncate => 0,
        EventKind::Delete => 1,
        EventKind::Upsert => 2,
    }
}

/// Events by sequence, and at one sequence by their kinds.
fn compare_in_history(left: &Event, right: &Event) -> Ordering
    ensures { result ≡ history_order left.now right.now }
{
    match left.sequence.cmp(&right.sequence) {
        Ordering::Less => Ordering::Less,
        Ordering::Equal => kind_rank(left.kind).cmp(&kind_rank(right.kind)),
        Ordering::Greater => Ordering::Greater,
    }
}

/// Events by key, and at one key as they stand in its history.
fn compare(left: &Event, right: &Event) -> Ordering
    ensures { result ≡ event_order left.now right.now }
{
    match left.key.cmp(&right.key) {
        Ordering::Less => Ordering::Less,
        Ordering::Equal => compare_in_history(left, right),
        Ordering::Greater => Ordering::Greater,
    }
}

/// The same events by key and then by sequence, at one sequence truncates before deletes and upserts. Events that are
/// alike in all three stay in the order in which they stand. `Err` for want of memory alone.
pub fn sorted_events(events: Events) -> Result<Events, AllocError>
    ensures { IfOk result (λ sorted. sorted ≡ sorted_by event_order events) }
{
    let mut items = events.into_vec();
    items.sort_by(|left, right| compare(left, right))?;
    Ok(ListOf::from_vec(items))
}
