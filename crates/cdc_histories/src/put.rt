// Events that come into the histories of their keys.
ghost use Rattle.std.specs.Prelude.{◌≡◌, ◌+◌, ◌*◌, ◌<◌, ◌≤◌, ◌^◌, ◌++◌, ℕ, List, [], false, IfOk, OnErr, OnOk, IsSome, length};
ghost use Rattle.std.specs.BTreeMap as tree;
ghost use Rattle.value_core.specs.declared.event.Event.{Event as AnEvent};
ghost use Rattle.value_core.specs.Bags.{net_change};
ghost use Rattle.value_core.specs.EventOrder.{Fresh, event_order, is_truncate, placed_by, standing};
ghost use Rattle.value_core.specs.Order.{Row as ARow, row_order};
ghost use Rattle.event_ledger.specs.Keyed.{all_events, AreApart, of_key};
ghost use Rattle.flow_model.specs.Current.{history};
ghost use Rattle.flow_model.specs.History.{scd2};
ghost use Rattle.cdc_scd2.specs.Keys.{AreKeyed};
ghost use Rattle.cdc_scd2.specs.Looks.{touched};
ghost use Rattle.cdc_histories.specs.Keeping.{AreInParts, HaveFirst, all_placed, looks_for};

use cdc_scd2::splice;
use event_history::History;
use plan_core::Cdc;
use std::alloc::{AllocError, Global};
use std::collections::BTreeMap;
use std::sync::ledger;
use value_core::{Change, Event, Row, Steps};

/// Sees that a key has a history, if only one without events.
fn open(
    alloc: Global,
    ignore_null: bool,
    histories: &mut BTreeMap<Row, History>,
    key: &Row,
) -> Result<(), AllocError>
    requires { AreInParts ignore_null histories.old.entries }
    ensures in_parts { AreInParts ignore_null histories.new.entries }
    ensures same { all_events histories.new.entries ≡ all_events histories.old.entries }
    ensures there { OnOk result (IsSome (tree.get row_order histories.new key.now)) }
{
    if histories.contains_key(key) {
        return Ok(());
    }
    let key = key.copy(alloc)?;
    histories.insert(key, History::new(alloc))?;
    Ok(())
}

/// Puts an event into the history of its key, which is there, and answers what that does to the rows.
fn put<L: ledger::Ledger>(
    alloc: Global,
    histories: &mut BTreeMap<Row, History>,
    flow: &Cdc,
    event: Event,
    steps: &mut Steps<L>,
) -> Result<Change, AllocError>
    requires in_parts { AreInParts flow.now.ignore_null histories.old.entries }
    requires there { IsSome (tree.get row_order histories.old event.key) }
    requires fresh { standing (all_events histories.old.entries) event ≡ Fresh }
    requires keyed { is_truncate event ≡ false }
    ensures in_parts { AreInParts flow.now.ignore_null histories.new.entries }
    ensures kept { OnOk result (all_events histories.new.entries ≡ placed_by event_order event (all_events histories.old.entries)) }
    ensures change { IfOk result (λ change. change ≡ net_change (scd2 flow.now.ignore_null flow.now.tracked (all_events histories.old.entries)) (scd2 flow.now.ignore_null flow.now.tracked (all_events histories.new.entries))) }
    ensures looks { OnOk result ((h : ℕ) → length (of_key event.key (all_events histories.old.entries)) < 2 ^ h → steps.new ≤ steps.old + (2 * h + 2 * touched flow.now.ignore_null flow.now.tracked (history event.key (all_events histories.old.entries)) event + 8)) }
    ensures err { OnErr result (all_events histories.new.entries ≡ all_events histories.old.entries) }
{
    let _count = histories.len();
    let history = histories.get_mut(&event.key).unwrap();
    let change = splice(alloc, history, flow, event, steps)?;
    let _count = history.len();
    Ok(change)
}

/// Puts a copy of an event into the history of its key, and answers what that does to the rows.
fn put_copy<L: ledger::Ledger>(
    alloc: Global,
    histories: &mut BTreeMap<Row, History>,
    flow: &Cdc,
    event: &Event,
    steps: &mut Steps<L>,
) -> Result<Change, AllocError>
    requires in_parts { AreInParts flow.now.ignore_null histories.old.entries }
    requires fresh { standing (all_events histories.old.entries) event.now ≡ Fresh }
    requires keyed { is_truncate event.now ≡ false }
    ensures in_parts { AreInParts flow.now.ignore_null histories.new.entries }
    ensures kept { OnOk result (all_events histories.new.entries ≡ placed_by event_order event.now (all_events histories.old.entries)) }
    ensures change { IfOk result (λ change. change ≡ net_change (scd2 flow.now.ignore_null flow.now.tracked (all_events histories.old.entries)) (scd2 flow.now.ignore_null flow.now.tracked (all_events histories.new.entries))) }
    ensures looks { OnOk result ((h : ℕ) → length (of_key event.now.key (all_events histories.old.entries)) < 2 ^ h → steps.new ≤ steps.old + (2 * h + 2 * touched flow.now.ignore_null flow.now.tracked (history event.now.key (all_events histories.old.entries)) event.now + 8)) }
    ensures err { OnErr result (all_events histories.new.entries ≡ all_events histories.old.entries) }
{
    let copy = event.copy(alloc)?;
    open(alloc, flow.ignore_null, histories, &copy.key)?;
    put(alloc, histories, flow, copy, steps)
}

/// Puts events into the histories of their keys, one after another, and the rows that go and come behind `removed` and
/// `added`.
pub(crate) fn put_all<L: ledger::Ledger>(
    alloc: Global,
    histories: &mut BTreeMap<Row, History>,
    flow: &Cdc,
    events: &[Event],
    removed: &mut Vec<Row>,
    added: &mut Vec<Row>,
    steps: &mut Steps<L>,
) -> Result<(), AllocError>
    requires in_parts { AreInParts flow.now.ignore_null histories.old.entries }
    requires apart { AreApart (events.now ++ all_events histories.old.entries) }
    requires keyed { AreKeyed events.now }
    requires none { (removed.old.items ≡ []) × (added.old.items ≡ []) }
    ensures in_parts { AreInParts flow.now.ignore_null histories.new.entries }
    ensures kept { OnOk result (all_events histories.new.entries ≡ all_placed (all_events histories.old.entries) events.now) }
    ensures net { OnOk result (net_change removed.new.items added.new.items ≡ net_change (scd2 flow.now.ignore_null flow.now.tracked (all_events histories.old.entries)) (scd2 flow.now.ignore_null flow.now.tracked (all_events histories.new.entries))) }
    ensures looks { OnOk result ((halvings : ARow → ℕ) → ((key : ARow) → length (of_key key (events.now ++ all_events histories.old.entries)) < 2 ^ halvings key) → steps.new ≤ steps.old + looks_for halvings flow.now.ignore_null flow.now.tracked (all_events histories.old.entries) events.now) }
    ensures err { OnErr result ((left : List AnEvent) × HaveFirst (all_events histories.old.entries) events.now left (all_events histories.new.entries)) }
{
    let mut left = events;
    while let Some((event, more)) = left.split_first() {
        let change = put_copy(alloc, histories, flow, event, steps)?;
        left = more;
        removed.append(&mut change.removed.into_vec())?;
        added.append(&mut change.added.into_vec())?;
    }
    Ok(())
}
