// A column of a key: its value, and the sequence of the upsert that set it.
ghost use Rattle.std.specs.Prelude.{◌≡◌, IfOk, Some, map};
ghost use Rattle.cdc_scd1.specs.Stamps.{cell_after, cells_after, shown, unset};
ghost use Rattle.cdc_current.specs.Keeping.{first_cell, later_cells};

use crate::sequences::{copy_of, is_later, outlives};
use std::alloc::{AllocError, Global};
use std::marker::Model;
use value_core::{ListOf, Row, Value};

/// A column's value, and the sequence of the upsert that set it, if one did.
#[derive(Drop)]
pub(crate) struct Cell {
    value: Value,
    stamp: Option<Row>,
}

impl Model for Cell {
    ghost use Rattle.cdc_scd1.specs.Stamps.{Cell as Seen};

    ghost Value = { Seen };

    ghost view = { λ cell. record { value = cell.value; stamp = cell.stamp } };
}

impl Cell {
    /// A column that no upsert set.
    fn blank() -> Cell
        ensures { result ≡ unset }
    {
        Cell {
            value: Value::Null,
            stamp: None,
        }
    }

    /// A column that an upsert set.
    fn set(alloc: Global, sequence: &Row, value: &Value) -> Result<Cell, AllocError>
        ensures value { IfOk result (λ cell. cell.value ≡ value.now) }
        ensures stamp { IfOk result (λ cell. cell.stamp ≡ Some sequence.now) }
    {
        let value = value.copy(alloc)?;
        let stamp = sequence.copy(alloc)?;
        Ok(Cell {
            value,
            stamp: Some(stamp),
        })
    }

    /// An equal column.
    fn copy(&self, alloc: Global) -> Result<Cell, AllocError>
        ensures { IfOk result (λ copy. copy ≡ self.now) }
    {
        let value = self.value.copy(alloc)?;
        let stamp = copy_of(alloc, &self.stamp)?;
        Ok(Cell { value, stamp })
    }

    /// The column after an upsert, which sets it unless a later one did, or its value is NULL and NULL is ignored.
    fn after(
        &self,
        alloc: Global,
        ignore_null: bool,
        sequence: &Row,
        value: &Value,
    ) -> Result<Cell, AllocError>
        ensures { IfOk result (λ cell. cell ≡ cell_after ignore_null sequence.now value.now self.now) }
    {
        if ignore_null && value.is_null() {
            let copy = self.copy(alloc)?;
            return Ok(copy);
        }
        if !is_later(&self.stamp, sequence) {
            let copy = self.copy(alloc)?;
            return Ok(copy);
        }
        let cell = Cell::set(alloc, sequence, value)?;
        Ok(cell)
    }

    /// What the column shows: its value, unless a delete or a truncate is behind the upsert that set it.
    fn shown(
        &self,
        alloc: Global,
        deleted: &Option<Row>,
        truncated: &Option<Row>,
    ) -> Result<Value, AllocError>
        ensures { IfOk result (λ value. value ≡ shown deleted.now truncated.now self.now) }
    {
        if !outlives(deleted, truncated, &self.stamp) {
            return Ok(Value::Null);
        }
        let value = self.value.copy(alloc)?;
        Ok(value)
    }
}

/// The first column after an upsert; where there is none, one that was never set.
fn first_after(
    alloc: Global,
    ignore_null: bool,
    sequence: &Row,
    value: &Value,
    cells: &[Cell],
) -> Result<Cell, AllocError>
    ensures { IfOk result (λ cell. cell ≡ cell_after ignore_null sequence.now value.now (first_cell cells.now)) }
{
    match cells.split_first() {
        Some((cell, _)) => {
            let cell = cell.after(alloc, ignore_null, sequence, value)?;
            Ok(cell)
        }
        None => {
            let cell = Cell::blank().after(alloc, ignore_null, sequence, value)?;
            Ok(cell)
        }
    }
}

/// The columns behind the first.
fn behind(cells: &[Cell]) -> &[Cell]
    ensures { result.now ≡ later_cells cells.now }
{
    match cells.split_first() {
        Some((_, later)) => later,
        None => cells,
    }
}

/// The columns of a key after an upsert with these values.
pub(crate) fn all_after(
    alloc: Global,
    ignore_null: bool,
    sequence: &Row,
    values: &[Value],
    cells: &[Cell],
) -> Result<ListOf<Cell>, AllocError>
    ensures { IfOk result (λ made. made ≡ cells_after ignore_null sequence.now values.now cells.now) }
{
    let mut made: ListOf<Cell> = ListOf::new(alloc);
    let mut old = cells;
    let mut left = values;
    while let Some((value, more)) = left.split_first() {
        made.push(first_after(alloc, ignore_null, sequence, value, old)?)?;
        old = behind(old);
        left = more;
    }
    Ok(made)
}

/// Equal columns.
pub(crate) fn copies(alloc: Global, cells: &[Cell]) -> Result<ListOf<Cell>, AllocError>
    ensures { IfOk result (λ copies. copies ≡ cells.now) }
{
    let mut copies: ListOf<Cell> = ListOf::new(alloc);
    for cell in cells {
        copies.push(cell.copy(alloc)?)?;
    }
    Ok(copies)
}

/// What the columns show.
pub(crate) fn all_shown(
    alloc: Global,
    deleted: &Option<Row>,
    truncated: &Option<Row>,
    cells: &[Cell],
) -> Result<Row, AllocError>
    ensures { IfOk result (λ row. row ≡ map (shown deleted.now truncated.now) cells.now) }
{
    let mut row: Row = ListOf::new(alloc);
    for cell in cells {
        row.push(cell.shown(alloc, deleted, truncated)?)?;
    }
    Ok(row)
}
