ghost use Rattle.std.specs.Prelude.{[], ◌≡◌, ◌==◌, not, map, IfOk, OnOk, slice_index_or};
ghost use Rattle.value_core.specs.declared.value.Value.TheVariants.{Null};
ghost use Rattle.view_groups.specs.Cells.{AddsValue, TakesValue};
ghost use Rattle.view_groups.specs.Groups.{KeepsCells, KeepsGroup, AddsShare, TakesShare, AddsValues, TakesValues, GroupAnswers, Patches, Leaves, Joins};
ghost use Rattle.view_groups.specs.Shares.{seen};

use crate::cell::{Cell, GroupEnd, one_more};
use crate::share::Share;
use plan_core::Item;
use std::alloc::{AllocError, Global};
use value_core::{ListOf, Row};

/// What is kept of the rows of a group: how many they are, and a cell an item.
#[derive(Debug, Drop)]
pub(crate) struct Group {
    rows: u64,
    cells: Vec<Cell>,
}

/// The cells of no row.
fn new_cells(alloc: Global, items: &[Item]) -> Result<Vec<Cell>, AllocError>
    ensures { IfOk result (λ cells. KeepsCells items.now cells.items []) }
{
    let mut cells = Vec::new(alloc);
    for item in items {
        cells.push(Cell::new(alloc, item))?;
    }
    Ok(cells)
}

/// Takes the value at a place of a row in.
fn add_at(cell: &mut Cell, alloc: Global, values: &Row, at: usize) -> Result<(), AllocError>
    ensures { OnOk result (AddsValue (slice_index_or values.now at Null) cell.old cell.new) }
{
    match values.as_slice().get(at) {
        Some(value) => cell.add(alloc, value),
        None => Ok(()),
    }
}

/// Takes the value at a place of a row out.
fn take_at(cell: &mut Cell, values: &Row, at: usize) -> Result<(), AllocError>
    ensures { OnOk result (TakesValue (slice_index_or values.now at Null) cell.old cell.new) }
{
    match values.as_slice().get(at) {
        Some(value) => cell.take(value),
        None => Ok(()),
    }
}

/// Takes the values of a row in, each into its cell.
fn add_values(cells: &mut [Cell], alloc: Global, values: &Row) -> Result<(), AllocError>
    ensures { OnOk result (AddsValues values.now cells.old cells.new) }
{
    for at in 0..cells.len() {
        add_at(&mut cells[at], alloc, values, at)?;
    }
    Ok(())
}

/// Takes the values of a row out, each from its cell.
fn take_values(cells: &mut [Cell], values: &Row) -> Result<(), AllocError>
    ensures { OnOk result (TakesValues values.now cells.old cells.new) }
{
    for at in 0..cells.len() {
        take_at(&mut cells[at], values, at)?;
    }
    Ok(())
}

impl Group {
    /// The group without rows. Fails for want of memory alone.
    pub(crate) fn new(alloc: Global, items: &[Item]) -> Result<Group, AllocError>
        ensures { IfOk result (λ group. KeepsGroup items.now group []) }
    {
        Ok(Group {
            rows: 0,
            cells: new_cells(alloc, items)?,
        })
    }

    /// Takes the values of one more row in. Fails for want of memory alone.
    pub(crate) fn add(&mut self, alloc: Global, values: &Row) -> Result<(), AllocError>
        ensures { OnOk result (AddsShare values.now self.old self.new) }
    {
        one_more(&mut self.rows)?;
        add_values(self.cells.as_mut_slice(), alloc, values)
    }

    /// Takes the values of a row out that is there. Fails for want of memory alone.
    pub(crate) fn take(&mut self, values: &Row) -> Result<(), AllocError>
        ensures { OnOk result (TakesShare values.now self.old self.new) }
    {
        self.rows = self.rows.saturating_sub(1);
        take_values(self.cells.as_mut_slice(), values)
    }

    /// The result row of the group. Fails with the first exact total that is no BIGINT, and for want of memory.
    pub(crate) fn row(&self, alloc: Global, key: &Row) -> Result<Row, GroupEnd>
        ensures { GroupAnswers key.now self.now result }
    {
        let mut row = ListOf::new(alloc);
        for cell in self.cells.as_slice() {
            match cell.value(alloc, key, self.rows) {
                Ok(value) => row.push(value)?,
                Err(end) => return Err(end),
            }
        }
        Ok(row)
    }

    /// Whether the group has a row.
    pub(crate) fn has_rows(&self) -> bool
        ensures { result ≡ (not (self.now.rows == 0)) }
    {
        self.rows != 0
    }

    /// Takes shares out that are there, and then others in. Fails for want of memory alone.
    pub(crate) fn patch(
        &mut self,
        alloc: Global,
        out: &[Share],
        more: &[Share],
    ) -> Result<(), AllocError>
        ensures { OnOk result (Patches self.old self.new (map seen out.now) (map seen more.now)) }
    {
        take_all(self, out)?;
        add_all(self, alloc, more)
    }
}

/// Takes shares out that are there.
fn take_all(group: &mut Group, out: &[Share]) -> Result<(), AllocError>
    ensures { OnOk result (Leaves group.old group.new (map seen out.now)) }
{
    for share in out {
        group.take(&share.values)?;
    }
    Ok(())
}

/// Takes more shares in.
fn add_all(group: &mut Group, alloc: Global, more: &[Share]) -> Result<(), AllocError>
    ensures { OnOk result (Joins group.old group.new (map seen more.now)) }
{
    for share in more {
        group.add(alloc, &share.values)?;
    }
    Ok(())
}
