ghost use Rattle.std.specs.Prelude.{◌≡◌, ◌++◌, List, [], IfOk, OnOk};
ghost use Rattle.value_core.specs.declared.event.Event.{Event as AnEvent};
ghost use Rattle.value_core.specs.Bags.{net_change};
ghost use Rattle.flow_model.specs.Current.{scd1};
ghost use Rattle.cdc_current.specs.Keeping.{HaveOwnMoments, Keeps, nothing_kept};

use crate::keys::KeyState;
use crate::turns::turn_all;
use cdc_arrivals::current_rows_are_told_in_any_order;
use net_changes::net;
use plan_core::Cdc;
use std::alloc::{AllocError, Global};
use std::collections::BTreeMap;
use std::marker::Model;
use value_core::{Change, Events, ListOf, Row};

/// The current rows of a change feed, SCD type 1 (Databricks documentation, AUTO CDC), by the rule of its flow, IGNORE NULL
/// UPDATES. Events aren't kept, but for each key what they leave in any order of arrival: a tombstone, the sequence of its
/// latest upsert, and for each column its value and the sequence of the upsert that set it; and once for all keys the
/// greatest sequence of a truncate. A deleted key keeps its tombstone, so that an older upsert that comes late gives no row.
/// No rows are kept beside these.
#[derive(Drop)]
pub struct Current {
    ignore_null: bool,
    truncated: Option<Row>,
    keys: BTreeMap<Row, KeyState>,
}

impl Model for Current {
    ghost use Rattle.cdc_current.specs.Keeping.{Keeping};

    ghost Value = { Keeping };

    ghost view = { λ current. record { ignore_null = current.ignore_null; truncated = current.truncated; keys = current.keys.entries } };
}

impl Current {
    /// No event yet, by the rule of a flow. Takes no memory.
    pub fn new(alloc: Global, flow: &Cdc) -> Current
        ensures rule { result ≡ nothing_kept flow.now.ignore_null }
        ensures kept { Keeps result [] }
    {
        Current {
            ignore_null: flow.ignore_null,
            truncated: None,
            keys: BTreeMap::new(alloc),
        }
    }

    /// Takes further events, in any order of arrival, and answers what they do to the rows: the net change from the rows of
    /// SCD type 1 of the events so far to those of all. Among all of them none repeats another and no two are tied: no two of
    /// a key are of one sequence, nor two truncates; and all upserts are of one width
    /// (`events_without_ties_have_own_moments`). An upsert or a delete goes to its key alone, a truncate through all keys.
    /// `Err` for want of memory alone; what is kept is of no more use then.
    pub fn apply(&mut self, alloc: Global, events: &Events) -> Result<Change, AllocError>
        ensures kept { OnOk result ((kept : List AnEvent) → Keeps self.old kept → Keeps self.new (kept ++ events.now)) }
        ensures change { IfOk result (λ change. (kept : List AnEvent) → Keeps self.old kept → HaveOwnMoments (kept ++ events.now) → change ≡ net_change (scd1 self.old.ignore_null kept) (scd1 self.old.ignore_null (kept ++ events.now))) }
        ensures rule { self.new.ignore_null ≡ self.old.ignore_null }
    {
        current_rows_are_told_in_any_order();
        let mut removed = Vec::new(alloc);
        let mut added = Vec::new(alloc);
        let _before = self.keys.len();
        turn_all(
            alloc,
            self.ignore_null,
            &mut self.truncated,
            &mut self.keys,
            events.as_slice(),
            &mut removed,
            &mut added,
        )?;
        let _after = self.keys.len();
        let change = net(alloc, ListOf::from_vec(removed), ListOf::from_vec(added))?;
        Ok(change)
    }
}
