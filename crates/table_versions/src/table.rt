// The versions that are kept of a table.
ghost use Rattle.std.specs.Prelude.{◌≡◌, ◌≢◌, ◌↔◌, ◌+◌, ◌-◌, ◌≤◌, ◌<◌, ◌^◌, ℕ, [], None, length, IfOk, OnOk, OnErr, MatchOption};
ghost use Rattle.value_core.specs.Bags.{IsInOrder, in_row_order, net_change};
ghost use Rattle.value_core.specs.Changes.{IsChange, Holds, change_of};
ghost use Rattle.net_changes.specs.Chains.{Follow};
ghost use Rattle.table_versions.specs.declared.table.VersionEnd.TheVariants.{NoVersion, Memory as memory};

use crate::rows::{content_of, copies_of, count_changes, count_rows, net_of};
use std::alloc::{AllocError, Global};
use std::marker::Model;
use std::sync::ledger::Ledger;
use value_core::{Change, Changes, ListOf, Rows, Steps};

/// Why a version was not read.
#[derive(Clone, Copy, Debug, PartialEq, Eq)]
pub enum VersionEnd {
    /// The version is below the base or above the version now.
    NoVersion { asked: u64, base: u64, now: u64 },
    /// There was no memory.
    Memory,
}

impl From<AllocError> for VersionEnd {
    ghost from_gives = { λ _ end. end ≡ memory };

    fn from(_: AllocError) -> VersionEnd {
        VersionEnd::Memory
    }
}

/// A table by its versions: its rows at a base version, in row order, and the change of each version after it. A row is
/// read by the calls alone that count looks.
#[derive(Debug, Drop)]
pub struct Table {
    base: u64,
    rows: Rows,
    changes: Vec<Change>,
}

impl Model for Table {
    ghost use Rattle.table_versions.specs.Versions.{Versions, IsTable, versions_of};

    ghost Value = { Versions };

    ghost view = { λ table. versions_of table.base table.rows table.changes.items };

    ghost invariant = { λ table. IsTable (versions_of table.base table.rows table.changes.items) };
}

impl Table {
    ghost use Rattle.table_versions.specs.Versions.{versions_of, no_versions, now_of, IsKept, IsTable, content_at, content_now, changes_since, rows_in, grown, shrunk, folded};

    /// The empty table, at version 0. It keeps the allocator that it grows by, and takes no memory yet.
    pub fn new(alloc: Global) -> Table
        ensures { result ≡ no_versions }
    {
        Table {
            base: 0,
            rows: ListOf::new(alloc),
            changes: Vec::new(alloc),
        }
    }

    /// The table with this base version, the rows at it and the changes after it. Takes no memory.
    pub fn from_parts(base: u64, rows: Rows, changes: Changes) -> Table
        requires order { IsInOrder rows }
        requires follow { Follow rows changes }
        requires limit { 0 < length changes → base + length changes ≤ 2 ^ 62 }
        ensures { result ≡ versions_of base rows changes }
    {
        Table {
            base,
            rows,
            changes: changes.into_vec(),
        }
    }

    /// The base version, the rows at it and the changes after it. Takes no memory.
    pub fn into_parts(self) -> (u64, Rows, Changes)
        ensures parts { versions_of result.0 result.1 result.2 ≡ self }
        // They are as `from_parts` wants them.
        ensures order { IsInOrder result.1 }
        ensures follow { Follow result.1 result.2 }
        ensures limit { 0 < length result.2 → result.0 + length result.2 ≤ 2 ^ 62 }
    {
        let Table {
            base,
            rows,
            changes,
        } = self;
        (base, rows, ListOf::from_vec(changes))
    }

    /// The first version that is kept.
    pub fn base(&self) -> u64
        ensures base { result ≡ self.now.base }
        ensures form { IsTable self.now }
    {
        self.base
    }

    /// The version now: one more for each change after the base.
    pub fn now(&self) -> u64
        ensures now { result ≡ now_of self.now }
        ensures form { IsTable self.now }
    {
        self.base + self.changes.len() as u64
    }

    // How many changes lead from the base to a version. `None` exactly where it isn't kept.
    fn place_of(&self, version: u64) -> Option<usize>
        ensures { MatchOption result (IsKept self.now version → ⊥) (λ place. IsKept self.now version × (place ≡ version - self.now.base)) }
    {
        if version < self.base {
            return None;
        }
        let place = version - self.base;
        if place > self.changes.len() as u64 {
            return None;
        }
        Some(place as usize)
    }

    fn no_version(&self, asked: u64) -> VersionEnd
        ensures { result ≡ NoVersion asked self.now.base (now_of self.now) }
    {
        VersionEnd::NoVersion {
            asked,
            base: self.base,
            now: self.now(),
        }
    }

    /// The rows at a version, in row order. It counts one look for each row that it hands out.
    pub fn content<L: Ledger>(
        &self,
        alloc: Global,
        version: u64,
        steps: &mut Steps<L>,
    ) -> Result<Rows, VersionEnd>
        ensures content { IfOk result (λ rows. rows ≡ content_at self.now version) }
        ensures looks { IfOk result (λ rows. steps.new ≡ steps.old + length rows) }
        // There is no such version exactly where it is below the base or above the version now.
        ensures no_version { (IsKept self.now version → ⊥) ↔ (result ≡ Err (NoVersion version self.now.base (now_of self.now))) }
        ensures no_version_by { (asked base now : ℕ) → result ≡ Err (NoVersion asked base now) → (asked ≡ version) × (base ≡ self.now.base) × (now ≡ now_of self.now) }
        ensures no_looks { OnErr result (steps.new ≡ steps.old) }
    {
        let Some(place) = self.place_of(version) else {
            return Err(self.no_version(version));
        };
        let (before, _) = self.changes.as_slice().split_at(place);
        let rows = content_of(alloc, &self.rows, before)?;
        count_rows(rows.as_slice(), steps);
        Ok(rows)
    }

    /// The changes after a version, one a version. It counts one look for each row that it hands out.
    pub fn since<L: Ledger>(
        &self,
        alloc: Global,
        version: u64,
        steps: &mut Steps<L>,
    ) -> Result<Changes, VersionEnd>
        ensures changes { IfOk result (λ changes. changes ≡ changes_since self.now version) }
        ensures looks { IfOk result (λ changes. steps.new ≡ steps.old + rows_in changes) }
        // There is no such version exactly where it is below the base or above the version now.
        ensures no_version { (IsKept self.now version → ⊥) ↔ (result ≡ Err (NoVersion version self.now.base (now_of self.now))) }
        ensures no_version_by { (asked base now : ℕ) → result ≡ Err (NoVersion asked base now) → (asked ≡ version) × (base ≡ self.now.base) × (now ≡ now_of self.now) }
        ensures no_looks { OnErr result (steps.new ≡ steps.old) }
    {
        let Some(place) = self.place_of(version) else {
            return Err(self.no_version(version));
        };
        let (_, after) = self.changes.as_slice().split_at(place);
        let changes = copies_of(alloc, after)?;
        count_changes(after, steps);
        Ok(changes)
    }

    /// The least change that makes the rows at a version those at the version now. It counts one look for each row of the
    /// changes after the version.
    pub fn net<L: Ledger>(
        &self,
        alloc: Global,
        version: u64,
        steps: &mut Steps<L>,
    ) -> Result<Change, VersionEnd>
        ensures net { IfOk result (λ change. change ≡ net_change (content_at self.now version) (content_now self.now)) }
        ensures looks { OnOk result (steps.new ≡ steps.old + rows_in (changes_since self.now version)) }
        // There is no such version exactly where it is below the base or above the version now.
        ensures no_version { (IsKept self.now version → ⊥) ↔ (result ≡ Err (NoVersion version self.now.base (now_of self.now))) }
        ensures no_version_by { (asked base now : ℕ) → result ≡ Err (NoVersion asked base now) → (asked ≡ version) × (base ≡ self.now.base) × (now ≡ now_of self.now) }
        ensures no_looks { OnErr result (steps.new ≡ steps.old) }
    {
        let Some(place) = self.place_of(version) else {
            return Err(self.no_version(version));
        };
        let (_, after) = self.changes.as_slice().split_at(place);
        let change = net_of(alloc, after)?;
        count_changes(after, steps);
        Ok(change)
    }

    /// The same table with this version for its base: the changes up to it are folded into the rows. It counts one look
    /// for each row of the new base and of the changes after it.
    pub fn fold_base<L: Ledger>(
        &self,
        alloc: Global,
        to: u64,
        steps: &mut Steps<L>,
    ) -> Result<Table, VersionEnd>
        ensures folded { IfOk result (λ table. table ≡ folded self.now to) }
        ensures looks { IfOk result (λ table. steps.new ≡ steps.old + length table.rows + rows_in table.changes) }
        // There is no such version exactly where it is below the base or above the version now.
        ensures no_version { (IsKept self.now to → ⊥) ↔ (result ≡ Err (NoVersion to self.now.base (now_of self.now))) }
        ensures no_version_by { (asked base now : ℕ) → result ≡ Err (NoVersion asked base now) → (asked ≡ to) × (base ≡ self.now.base) × (now ≡ now_of self.now) }
        ensures no_looks { OnErr result (steps.new ≡ steps.old) }
    {
        let Some(place) = self.place_of(to) else {
            return Err(self.no_version(to));
        };
        let (before, after) = self.changes.as_slice().split_at(place);
        let rows = content_of(alloc, &self.rows, before)?;
        let changes = copies_of(alloc, after)?;
        count_rows(rows.as_slice(), steps);
        count_changes(after, steps);
        Ok(Table {
            base: to,
            rows,
            changes: changes.into_vec(),
        })
    }

    /// One version more. `Err` for want of memory alone; then the table is as before, and the change is gone.
    pub fn apply(&mut self, change: Change) -> Result<(), AllocError>
        requires form { IsChange change }
        requires there { Holds (content_now self.old) change.removed }
        requires limit { now_of self.old < 2 ^ 62 }
        ensures ok { OnOk result (self.new ≡ grown self.old change) }
        ensures err { OnErr result (self.new ≡ self.old) }
    {
        self.changes.push(change)?;
        Ok(())
    }

    /// One version more, that takes all rows away. `Err` for want of memory alone; then the table is as before.
    pub fn clear(&mut self, alloc: Global) -> Result<(), AllocError>
        requires { now_of self.old < 2 ^ 62 }
        ensures ok { OnOk result (self.new ≡ grown self.old (change_of (in_row_order (content_now self.old)) [])) }
        ensures err { OnErr result (self.new ≡ self.old) }
    {
        let removed = content_of(alloc, &self.rows, self.changes.as_slice())?;
        let added = ListOf::new(alloc);
        self.changes.push(Change { removed, added })?;
        Ok(())
    }

    /// Takes the last version back, where there is one after the base: the rows are those from before. Takes no memory.
    pub fn take_back(&mut self)
        ensures { self.new ≡ shrunk self.old }
    {
        self.changes.pop();
    }
}
