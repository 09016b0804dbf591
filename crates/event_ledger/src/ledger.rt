ghost use Rattle.std.specs.Prelude.{◌≡◌, ◌+◌, ◌<◌, ◌≤◌, ◌^◌, ℕ, [], IfOk, OnErr, OnOk, IsSome, length};
ghost use Rattle.std.specs.BTreeMap as tree;
ghost use Rattle.value_core.specs.EventOrder.{event_order, sorted_by, standing};
ghost use Rattle.value_core.specs.Order.{row_order};
ghost use Rattle.event_ledger.specs.Keyed.{all_events, AreApart, AreByKey, events_after, of_key, standing_in};

use crate::insertion::Insertion;
use crate::spot::{answer_at, put_in, spot_of};
use event_history::History;
use std::alloc::{AllocError, Global};
use std::collections::BTreeMap;
use std::marker::Model;
use std::sync::ledger;
use value_core::{Event, Events, Row, Steps};

/// The events that are kept of a change feed, which contracts see by key and then by sequence. No two of them are of
/// one moment.
#[derive(Drop)]
pub struct Ledger {
    histories: BTreeMap<Row, History>,
}

impl Model for Ledger {
    ghost use Rattle.std.specs.Prelude.{List};
    ghost use Rattle.value_core.specs.declared.event.Event.{Event};

    ghost Value = { List Event };

    ghost use Rattle.event_ledger.specs.Keyed.{all_events, AreByKey};

    ghost view = { λ ledger. all_events ledger.histories.entries };

    ghost invariant = { λ ledger. AreByKey ledger.histories.entries };
}

/// Sees that a key has a history, if only one without events.
fn open(alloc: Global, histories: &mut BTreeMap<Row, History>, key: &Row) -> Result<(), AllocError>
    requires { AreByKey histories.old.entries }
    ensures by_key { AreByKey histories.new.entries }
    ensures same { all_events histories.new.entries ≡ all_events histories.old.entries }
    ensures there { OnOk result (IsSome (tree.get row_order histories.new key.now)) }
{
    if histories.contains_key(key) {
        return Ok(());
    }
    let key = key.copy(alloc)?;
    histories.insert(key, History::new(alloc))?;
    Ok(())
}

/// Puts an event into the history of its key, which is there.
fn put<L: ledger::Ledger>(
    alloc: Global,
    histories: &mut BTreeMap<Row, History>,
    event: Event,
    steps: &mut Steps<L>,
) -> Result<Insertion, AllocError>
    requires by_key { AreByKey histories.old.entries }
    requires there { IsSome (tree.get row_order histories.old event.key) }
    ensures by_key { AreByKey histories.new.entries }
    ensures standing { IfOk result (λ answer. standing_in answer ≡ standing (all_events histories.old.entries) event) }
    ensures after { IfOk result (λ answer. all_events histories.new.entries ≡ events_after (standing_in answer) event (all_events histories.old.entries)) }
    ensures err { OnErr result (all_events histories.new.entries ≡ all_events histories.old.entries) }
    ensures looks { (h : ℕ) → length (of_key event.key (all_events histories.old.entries)) < 2 ^ h → steps.new ≤ steps.old + (h + 1) }
{
    let history = histories.get_mut(&event.key).unwrap();
    put_in(alloc, history, event, steps)
}

impl Ledger {
    /// No event yet. It keeps the allocator that it grows by, and takes no memory.
    pub fn new(alloc: Global) -> Ledger
        ensures { result ≡ [] }
    {
        Ledger {
            histories: BTreeMap::new(alloc),
        }
    }

    /// The ledger that keeps just these events, no two of which are of one moment. Fails for want of memory alone. It
    /// takes looks as `insert` does for each event.
    pub fn build<L: ledger::Ledger>(
        alloc: Global,
        events: &Events,
        steps: &mut Steps<L>,
    ) -> Result<Ledger, AllocError>
        requires { AreApart events.now }
        ensures { IfOk result (λ ledger. ledger ≡ sorted_by event_order events.now) }
    {
        let mut ledger = Ledger::new(alloc);
        let mut i = events.len();
        while i > 0 {
            i -= 1;
            let event = events.as_slice()[i].copy(alloc)?;
            ledger.insert(alloc, event, steps)?;
        }
        Ok(ledger)
    }

    /// What an event is beside the kept ones. It changes nothing, and fails for want of memory alone. Where n events
    /// of its key are kept it takes at most h + 1 looks, where n is below 2^h.
    pub fn test<L: ledger::Ledger>(
        &self,
        alloc: Global,
        event: &Event,
        steps: &mut Steps<L>,
    ) -> Result<Insertion, AllocError>
        ensures standing { IfOk result (λ answer. standing_in answer ≡ standing self.now event.now) }
        ensures looks { (h : ℕ) → length (of_key event.now.key self.now) < 2 ^ h → steps.new ≤ steps.old + (h + 1) }
    {
        let _count = self.histories.len();
        let Some(history) = self.histories.get(&event.key) else {
            return Ok(Insertion::Fresh);
        };
        let spot = spot_of(alloc, history, event, steps)?;
        Ok(answer_at(spot))
    }

    /// What an event is beside the kept ones, as `test` says; a fresh one is kept from then on, and no other. Fails for
    /// want of memory alone, and the same events are kept then. Where n events of its key were kept it takes at
    /// most h + 1 looks, where n is below 2^h.
    pub fn insert<L: ledger::Ledger>(
        &mut self,
        alloc: Global,
        event: Event,
        steps: &mut Steps<L>,
    ) -> Result<Insertion, AllocError>
        ensures standing { IfOk result (λ answer. standing_in answer ≡ standing self.old event) }
        ensures kept { IfOk result (λ answer. self.new ≡ events_after (standing_in answer) event self.old) }
        ensures err { OnErr result (self.new ≡ self.old) }
        ensures looks { (h : ℕ) → length (of_key event.key self.old) < 2 ^ h → steps.new ≤ steps.old + (h + 1) }
    {
        open(alloc, &mut self.histories, &event.key)?;
        put(alloc, &mut self.histories, event, steps)
    }
}
