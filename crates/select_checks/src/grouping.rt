//! Outputs of a grouped query that are neither aggregates nor groups.

ghost use Rattle.std.specs.Prelude.{◌≡◌, ◌+◌, IfOk, position, option_map, is_none};
ghost use Rattle.statement_checks.specs.declared.fault.CheckFault.TheVariants.{NotGrouped};
ghost use Rattle.tree_equality.specs.TreeCodes.{equal_place};
ghost use Rattle.select_checks.specs.Views as spec;

use select_names::{is_aggregate_call, is_grouped_select};
use sql_tree::{Out, Select, SqlExpr};
use statement_checks::CheckFault;
use std::alloc::{AllocError, Global};
use tree_equality::TreeTable;

fn is_no_group(alloc: Global, table: &TreeTable<'_>, tree: &SqlExpr) -> Result<bool, AllocError>
    ensures { IfOk result (λ is. is ≡ is_none (equal_place table.now tree.now)) }
{
    let place = table.place(alloc, tree)?;
    Ok(place.is_none())
}

fn is_outside(alloc: Global, table: &TreeTable<'_>, tree: &SqlExpr) -> Result<bool, AllocError>
    ensures { IfOk result (λ is. is ≡ spec.is_outside_tree table.now tree.now) }
{
    if is_aggregate_call(tree) {
        Ok(false)
    } else {
        is_no_group(alloc, table, tree)
    }
}

fn is_outside_groups(alloc: Global, table: &TreeTable<'_>, given: &Out) -> Result<bool, AllocError>
    ensures { IfOk result (λ is. is ≡ spec.is_outside_groups table.now given.now) }
{
    match given {
        Out::Star { except: _ } => Ok(true),
        Out::One { expr, name: _ } => is_outside(alloc, table, expr),
    }
}

/// The place of the first output that is neither an aggregate nor a group.
fn outside_place(
    alloc: Global,
    table: &TreeTable<'_>,
    outs: &[Out],
) -> Result<Option<usize>, AllocError>
    ensures { IfOk result (λ place. place ≡ position (spec.is_outside_groups table.now) outs.now) }
{
    for place in 0..outs.len() {
        if is_outside_groups(alloc, table, &outs[place])? {
            return Ok(Some(place));
        }
    }
    Ok(None)
}

/// The number from 1 of a place. A list so long that 32 bits don't number it has no place in memory.
fn number_of(place: usize) -> Result<u32, AllocError>
    ensures { IfOk result (λ number. number ≡ place + 1) }
{
    match u32::try_from(place) {
        Ok(place) => match place.checked_add(1) {
            Some(number) => Ok(number),
            None => Err(AllocError),
        },
        Err(_) => Err(AllocError),
    }
}

fn outside_fault(
    alloc: Global,
    table: &TreeTable<'_>,
    outs: &[Out],
) -> Result<Option<CheckFault>, AllocError>
    ensures { IfOk result (λ fault. fault ≡ option_map (λ place. NotGrouped (place + 1)) (position (spec.is_outside_groups table.now) outs.now)) }
{
    let Some(place) = outside_place(alloc, table, outs)? else {
        return Ok(None);
    };
    let item = number_of(place)?;
    Ok(Some(CheckFault::NotGrouped { item }))
}

/// The fault of the first output of a query with GROUP BY or an aggregate that is neither an
/// aggregate nor a group, if there is one: NotGrouped, with its number from 1, where `*` is one
/// output.
pub fn ungrouped_output(
    alloc: Global,
    select: &Select,
    table: &TreeTable<'_>,
) -> Result<Option<CheckFault>, AllocError>
    requires { table.now ≡ select.now.groups }
    ensures { IfOk result (λ fault. fault ≡ spec.outputs_are_grouped select.now) }
{
    if !is_grouped_select(select) {
        return Ok(None);
    }
    outside_fault(alloc, table, select.outs.as_slice())
}
