// A key: its tombstone, its latest upsert, and its columns.
ghost use Rattle.std.specs.Prelude.{◌≡◌, Bool, IfOk};
ghost use Rattle.value_core.specs.declared.event.EventKind.TheVariants.{Delete, Upsert};
ghost use Rattle.cdc_scd1.specs.Stamps.{no_event, row_told, stamped_by};
ghost use Rattle.cdc_current.specs.Keeping.{under};

use crate::cells::{Cell, all_after, all_shown, copies};
use crate::sequences::{copy_of, latest, outlives};
use std::alloc::{AllocError, Global};
use std::marker::Model;
use value_core::{Event, ListOf, Row};

/// What is kept of a key: its tombstone, the greatest sequence of a delete; the greatest of an upsert; and its columns.
/// Truncates are kept once for all keys.
#[derive(Drop)]
pub(crate) struct KeyState {
    deleted: Option<Row>,
    upserted: Option<Row>,
    cells: ListOf<Cell>,
}

impl Model for KeyState {
    ghost use Rattle.std.specs.Prelude.{None};
    ghost use Rattle.cdc_scd1.specs.Stamps.{Stamps};

    ghost Value = { Stamps };

    ghost view = { λ state. record { truncated = None; deleted = state.deleted; upserted = state.upserted; cells = state.cells } };
}

impl KeyState {
    /// A key without an event.
    pub(crate) fn new(alloc: Global) -> KeyState
        ensures { result ≡ no_event }
    {
        KeyState {
            deleted: None,
            upserted: None,
            cells: ListOf::new(alloc),
        }
    }

    /// The key after a delete.
    pub(crate) fn with_delete(&self, alloc: Global, event: &Event) -> Result<KeyState, AllocError>
        ensures { (ignore_null : Bool) → IfOk result (λ state. state ≡ stamped_by ignore_null self.now event.now Delete) }
    {
        let deleted = latest(alloc, &self.deleted, &event.sequence)?;
        let upserted = copy_of(alloc, &self.upserted)?;
        let cells = copies(alloc, self.cells.as_slice())?;
        Ok(KeyState {
            deleted,
            upserted,
            cells,
        })
    }

    /// The key after an upsert.
    pub(crate) fn with_upsert(
        &self,
        alloc: Global,
        ignore_null: bool,
        event: &Event,
    ) -> Result<KeyState, AllocError>
        ensures { IfOk result (λ state. state ≡ stamped_by ignore_null self.now event.now Upsert) }
    {
        let deleted = copy_of(alloc, &self.deleted)?;
        let upserted = latest(alloc, &self.upserted, &event.sequence)?;
        let cells = all_after(
            alloc,
            ignore_null,
            &event.sequence,
            event.columns.as_slice(),
            self.cells.as_slice(),
        )?;
        Ok(KeyState {
            deleted,
            upserted,
            cells,
        })
    }

    /// The row of the key beside the greatest truncate, if it has one: it has where its latest upsert is there still.
    pub(crate) fn row(
        &self,
        alloc: Global,
        truncated: &Option<Row>,
    ) -> Result<Option<Row>, AllocError>
        ensures { IfOk result (λ row. row ≡ row_told (under truncated.now self.now)) }
    {
        if !outlives(&self.deleted, truncated, &self.upserted) {
            return Ok(None);
        }
        let row = all_shown(alloc, &self.deleted, truncated, self.cells.as_slice())?;
        Ok(Some(row))
    }
}
