// The versions that are kept of a table.
ghost use Rattle.std.specs.Prelude.{◌≡◌, ◌+◌, length, OnOk, OnErr};
ghost use Rattle.store_state.specs.Versions.{no_versions, grown, shrunk};

use std::alloc::{AllocError, Global};
use std::marker::Model;
use value_core::{Change, ListOf, Rows};

/// A table by its versions: its rows at a base version, in row order, and the change of each version after it.
#[derive(Debug, Drop)]
pub struct Table {
    base: u64,
    rows: Rows,
    changes: Vec<Change>,
}

impl Model for Table {
    ghost use Rattle.std.specs.Prelude.{◌≤◌, ◌^◌};
    ghost use Rattle.store_state.specs.Versions.{Versions};

    ghost Value = { Versions };

    ghost view = { λ table. record { base = table.base; rows = table.rows; changes = table.changes.items } };

    ghost invariant = { λ table. table.base ≤ 2 ^ 62 };
}

impl Table {
    /// The empty table, at version 0. Takes no memory.
    pub(crate) fn new(alloc: Global) -> Table
        ensures { result ≡ no_versions }
    {
        Table {
            base: 0,
            rows: ListOf::new(alloc),
            changes: Vec::new(alloc),
        }
    }

    /// The first version that is kept.
    pub fn base(&self) -> u64
        ensures { result ≡ self.now.base }
    {
        self.base
    }

    /// The version now: one more for each change after the base.
    pub fn now(&self) -> u64
        ensures { result ≡ self.now.base + length self.now.changes }
    {
        self.base + self.changes.len() as u64
    }

    /// The rows at the base version.
    pub fn rows(&self) -> &Rows
        ensures { result.now ≡ self.now.rows }
    {
        &self.rows
    }

    /// The changes after the base version, one a version.
    pub fn changes(&self) -> &[Change]
        ensures { result.now ≡ self.now.changes }
    {
        self.changes.as_slice()
    }

    /// One version more. `Err` for want of memory alone; then the table is as before.
    pub(crate) fn push(&mut self, change: Change) -> Result<(), AllocError>
        ensures ok { OnOk result (self.new ≡ grown self.old change) }
        ensures err { OnErr result (self.new ≡ self.old) }
    {
        self.changes.push(change)?;
        Ok(())
    }

    /// Takes the last version back, where there is one after the base.
    pub(crate) fn pop(&mut self)
        ensures { self.new ≡ shrunk self.old }
    {
        self.changes.pop();
    }
}
