ghost use Rattle.std.specs.Prelude.{◌≡◌, ◌+◌, ◌<◌, ◌≤◌, ◌^◌, ◌++◌, ℕ, List, [], IfOk, OnErr, OnOk, length};
ghost use Rattle.value_core.specs.declared.event.Event.{Event as AnEvent};
ghost use Rattle.value_core.specs.Bags.{net_change};
ghost use Rattle.value_core.specs.EventOrder.{event_order, sorted_by};
ghost use Rattle.value_core.specs.Order.{Row as ARow};
ghost use Rattle.event_ledger.specs.Keyed.{AreApart, of_key};
ghost use Rattle.flow_model.specs.History.{scd2};
ghost use Rattle.cdc_scd2.specs.Keys.{AreKeyed};
ghost use Rattle.cdc_histories.specs.Keeping.{HaveFirst, all_placed, looks_for, nothing_kept};

use crate::building::{fold_parts, put_together, sort};
use crate::cutting::parts_of;
use crate::put::put_all;
use crate::rules::rules_of;
use event_history::History;
use net_changes::net;
use par_rows::Gate;
use plan_core::Cdc;
use sqlite_items::Boxed;
use std::alloc::{AllocError, Global};
use std::collections::BTreeMap;
use std::marker::Model;
use std::sync::ledger;
use std::thread::Threads;
use value_core::{Change, Events, ListOf, Row, Rows, Steps};

/// The histories of all keys of a change feed, by the rules of its flow: IGNORE NULL UPDATES and TRACK HISTORY ON. Contracts
/// see these rules and the events that are kept, by key and then by sequence. No two of them are of one moment, and none is
/// a truncate. No rows are kept beside the histories.
#[derive(Drop)]
pub struct Histories {
    flow: Boxed<Cdc>,
    histories: BTreeMap<Row, History>,
}

impl Model for Histories {
    ghost use Rattle.event_ledger.specs.Keyed.{all_events};
    ghost use Rattle.cdc_histories.specs.Keeping.{Keeping, AreInParts};

    ghost Value = { Keeping };

    ghost view = { λ kept. record { ignore_null = kept.flow.ignore_null; tracked = kept.flow.tracked; events = all_events kept.histories.entries } };

    ghost invariant = { λ kept. AreInParts kept.flow.ignore_null kept.histories.entries };
}

impl Histories {
    /// No event yet, by the rules of a flow. `Err` for want of memory alone.
    pub fn new(alloc: Global, flow: &Cdc) -> Result<Histories, AllocError>
        ensures { IfOk result (λ kept. kept ≡ nothing_kept flow.now.ignore_null flow.now.tracked) }
    {
        Ok(Histories {
            flow: rules_of(alloc, flow)?,
            histories: BTreeMap::new(alloc),
        })
    }

    /// The histories of these events, in whatever order they stand, each upsert or delete of a moment of its own, and the rows
    /// of SCD type 2 in row order. The events are cut by key, and at most as many workers as `workers`, from 1 to 64, fold
    /// keys to their histories, behind the gate; the answer is the same for any number of them. `Err` for want of memory
    /// alone.
    pub fn build<H: Threads + Sync, G: Gate + Sync>(
        rt: &H,
        alloc: Global,
        gate: &G,
        workers: u32,
        flow: &Cdc,
        events: &Events,
    ) -> Result<(Histories, Rows), AllocError>
        requires workers { (1 ≤ workers) × (workers ≤ 64) }
        requires apart { AreApart events.now }
        requires keyed { AreKeyed events.now }
        ensures kept { IfOk result (λ built. built.0.events ≡ all_placed [] events.now) }
        ensures sorted { IfOk result (λ built. built.0.events ≡ sorted_by event_order events.now) }
        ensures rows { IfOk result (λ built. built.1 ≡ scd2 flow.now.ignore_null flow.now.tracked events.now) }
        ensures told { IfOk result (λ built. built.1 ≡ scd2 flow.now.ignore_null flow.now.tracked built.0.events) }
        ensures rules { IfOk result (λ built. (built.0.ignore_null ≡ flow.now.ignore_null) × (built.0.tracked ≡ flow.now.tracked)) }
    {
        let parts = parts_of(alloc, events)?;
        let answers = fold_parts(rt, alloc, gate, workers, flow, parts.as_slice())?;
        let mut histories = BTreeMap::new(alloc);
        let mut rows = Vec::new(alloc);
        put_together(answers, &mut histories, &mut rows)?;
        let _count = histories.len();
        sort(&mut rows);
        let flow = rules_of(alloc, flow)?;
        Ok((Histories { flow, histories }, ListOf::from_vec(rows)))
    }

    /// Takes further events, in any order of arrival, each upsert or delete of a moment of its own, and answers what they do
    /// to the rows: the net change from the rows of SCD type 2 without them to those with them. It is a splice for each
    /// event, one after another, and takes the looks of these. `Err` for want of memory alone; the first of the events are
    /// kept then, up to some.
    pub fn apply<L: ledger::Ledger>(
        &mut self,
        alloc: Global,
        events: &Events,
        steps: &mut Steps<L>,
    ) -> Result<Change, AllocError>
        requires apart { AreApart (events.now ++ self.old.events) }
        requires keyed { AreKeyed events.now }
        ensures kept { OnOk result (self.new.events ≡ all_placed self.old.events events.now) }
        ensures change { IfOk result (λ change. change ≡ net_change (scd2 self.old.ignore_null self.old.tracked self.old.events) (scd2 self.old.ignore_null self.old.tracked self.new.events)) }
        ensures looks { OnOk result ((halvings : ARow → ℕ) → ((key : ARow) → length (of_key key (events.now ++ self.old.events)) < 2 ^ halvings key) → steps.new ≤ steps.old + looks_for halvings self.old.ignore_null self.old.tracked self.old.events events.now) }
        ensures rules { (self.new.ignore_null ≡ self.old.ignore_null) × (self.new.tracked ≡ self.old.tracked) }
        ensures err { OnErr result ((left : List AnEvent) × HaveFirst self.old.events events.now left self.new.events) }
    {
        let mut removed = Vec::new(alloc);
        let mut added = Vec::new(alloc);
        put_all(
            alloc,
            &mut self.histories,
            self.flow.get(),
            events.as_slice(),
            &mut removed,
            &mut added,
            steps,
        )?;
        let change = net(alloc, ListOf::from_vec(removed), ListOf::from_vec(added))?;
        Ok(change)
    }
}
