ghost use Rattle.std.specs.Prelude.{List, [], ◌≡◌, ◌∷◌, ◌+◌, ◌-◌, ◌+ℤ◌, ◌-ℤ◌, pos, slice_index_or, IfOk, IfErr, OnOk};
ghost use Rattle.value_core.specs.declared.value.Value.TheVariants.{Null, Big};
ghost use Rattle.row_expr.specs.Eval.{number_of};
ghost use Rattle.view_groups.specs.declared.cell.GroupEnd.TheVariants.{Memory};
ghost use Rattle.view_groups.specs.Cells.{KeepsCell, AddsValue, TakesValue, CellAnswers, SumAnswers};

use crate::bag::ValueBag;
use plan_core::Item;
use std::alloc::{AllocError, Global};
use value_core::{Row, Value};

/// How many values there are, and their exact total.
#[derive(Debug, Drop)]
pub(crate) struct Sum {
    known: u64,
    total: i128,
}

/// What a group keeps for an item, of the values that aren't NULL.
#[derive(Debug, Drop)]
pub(crate) enum Cell {
    /// A group expression needs no value.
    Key(u32),
    /// A query that groups has no plain item.
    Nothing,
    /// `count(*)` is the number of the rows.
    Rows,
    Known(u64),
    Total(Sum),
    Least(ValueBag),
    Greatest(ValueBag),
}

/// Why an item has no value.
#[derive(Debug, Drop)]
pub(crate) enum GroupEnd {
    /// The exact total is no BIGINT.
    NoBig { total: i128 },
    /// Want of memory, of which a count of 2^63 is one.
    Memory,
}

/// The number of an INT or a BIGINT.
fn number(value: &Value) -> i128
    ensures { result ≡ number_of value.now }
{
    match value {
        Value::Int(number) => *number as i128,
        Value::Big(number) => *number as i128,
        _ => 0,
    }
}

/// One more. Fails where that is no `u64`.
pub(crate) fn one_more(count: &mut u64) -> Result<(), AllocError>
    ensures { OnOk result (count.new ≡ count.old + 1) }
{
    match count.checked_add(1) {
        Some(more) => {
            *count = more;
            Ok(())
        }
        None => Err(AllocError),
    }
}

impl Sum {
    /// Takes one more number in. Fails where the count or the total has no room.
    fn add(&mut self, number: i128) -> Result<(), AllocError>
        ensures known { OnOk result (self.new.known ≡ self.old.known + 1) }
        ensures total { OnOk result (self.new.total ≡ self.old.total +ℤ number) }
    {
        one_more(&mut self.known)?;
        match self.total.checked_add(number) {
            Some(total) => {
                self.total = total;
                Ok(())
            }
            None => Err(AllocError),
        }
    }

    /// Takes a number out. Fails where the total has no room.
    fn take(&mut self, number: i128) -> Result<(), AllocError>
        ensures known { OnOk result (self.new.known ≡ self.old.known - 1) }
        ensures total { OnOk result (self.new.total ≡ self.old.total -ℤ number) }
    {
        self.known = self.known.saturating_sub(1);
        match self.total.checked_sub(number) {
            Some(total) => {
                self.total = total;
                Ok(())
            }
            None => Err(AllocError),
        }
    }
}

impl Cell {
    /// What is kept of no value.
    pub(crate) fn new(alloc: Global, item: &Item) -> Cell
        ensures { KeepsCell item.now result [] }
    {
        match item {
            Item::Key(at) => Cell::Key(*at),
            Item::Plain(_) => Cell::Nothing,
            Item::CountAll => Cell::Rows,
            Item::Count(_) => Cell::Known(0),
            Item::Sum(_) => Cell::Total(Sum { known: 0, total: 0 }),
            Item::Min(_) => Cell::Least(ValueBag::new(alloc)),
            Item::Max(_) => Cell::Greatest(ValueBag::new(alloc)),
        }
    }

    /// Takes one more value in. Fails for want of memory alone.
    pub(crate) fn add(&mut self, alloc: Global, value: &Value) -> Result<(), AllocError>
        ensures { OnOk result (AddsValue value.now self.old self.new) }
    {
        if value.is_null() {
            return Ok(());
        }
        match self {
            Cell::Known(known) => one_more(known),
            Cell::Total(sum) => sum.add(number(value)),
            Cell::Least(values) => values.add(value.copy(alloc)?),
            Cell::Greatest(values) => values.add(value.copy(alloc)?),
            _ => Ok(()),
        }
    }

    /// Takes a value out that is there. Fails for want of memory alone.
    pub(crate) fn take(&mut self, value: &Value) -> Result<(), AllocError>
        ensures { OnOk result (TakesValue value.now self.old self.new) }
    {
        if value.is_null() {
            return Ok(());
        }
        match self {
            Cell::Known(known) => {
                *known = known.saturating_sub(1);
                Ok(())
            }
            Cell::Total(sum) => sum.take(number(value)),
            Cell::Least(values) => {
                values.remove(value);
                Ok(())
            }
            Cell::Greatest(values) => {
                values.remove(value);
                Ok(())
            }
            _ => Ok(()),
        }
    }

    /// The item's value in a group of this key and so many rows.
    pub(crate) fn value(&self, alloc: Global, group: &Row, rows: u64) -> Result<Value, GroupEnd>
        ensures { CellAnswers group.now rows self.now result }
    {
        match self {
            Cell::Key(at) => key_value(alloc, group, *at),
            Cell::Nothing => Ok(Value::Null),
            Cell::Rows => count_value(rows),
            Cell::Known(known) => count_value(*known),
            Cell::Total(sum) => sum.value(),
            Cell::Least(values) => Ok(values.least(alloc)?),
            Cell::Greatest(values) => Ok(values.greatest(alloc)?),
        }
    }
}

impl From<AllocError> for GroupEnd {
    ghost use Rattle.std.specs.Prelude.{◌≡◌};
    ghost use Rattle.view_groups.specs.declared.cell.GroupEnd.TheVariants.{Memory};

    ghost from_gives = { λ _ e. e ≡ Memory };

    fn from(_: AllocError) -> GroupEnd {
        GroupEnd::Memory
    }
}

/// The value of a group expression.
fn key_value(alloc: Global, group: &Row, at: u32) -> Result<Value, GroupEnd>
    ensures ok { IfOk result (λ value. value ≡ slice_index_or group.now at Null) }
    ensures err { IfErr result (λ e. e ≡ Memory) }
{
    match group.as_slice().get(at as usize) {
        Some(value) => Ok(value.copy(alloc)?),
        None => Ok(Value::Null),
    }
}

/// A number as a BIGINT.
fn count_value(count: u64) -> Result<Value, GroupEnd>
    ensures ok { IfOk result (λ value. value ≡ Big (pos count)) }
    ensures err { IfErr result (λ e. e ≡ Memory) }
{
    match i64::try_from(count) {
        Ok(number) => Ok(Value::Big(number)),
        Err(_) => Err(GroupEnd::Memory),
    }
}

impl Sum {
    /// The total as a BIGINT, or NULL of no value.
    fn value(&self) -> Result<Value, GroupEnd>
        ensures { SumAnswers self.now.known self.now.total result }
    {
        if self.known == 0 {
            return Ok(Value::Null);
        }
        match i64::try_from(self.total) {
            Ok(number) => Ok(Value::Big(number)),
            Err(_) => Err(GroupEnd::NoBig { total: self.total }),
        }
    }
}
