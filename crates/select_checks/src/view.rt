//! The query of a view.

ghost use Rattle.std.specs.Prelude.{◌≡◌, ◌∷◌, [], ◌&&◌, IfOk, map};
ghost use Rattle.std.specs.List.{list_all};
ghost use Rattle.statement_checks.specs.Repeats.{first_of};
ghost use Rattle.select_names.specs.SelectNames as names;
ghost use Rattle.select_checks.specs.Ends.{Judges};
ghost use Rattle.select_checks.specs.Kinded as kinded;
ghost use Rattle.select_checks.specs.Outputs as outputs_of;
ghost use Rattle.select_checks.specs.Views as spec;

use crate::end::SelectEnd;
use crate::grouping::ungrouped_output;
use crate::items::{
    ItemOutputs, KindedExprs, are_kinded_trees, group_exprs, grouped_outputs, groups_over,
    have_item_kinds, item_columns, items_given, plain_outputs,
};
use crate::kinded::{filter_over, is_filter, unboxed};
use crate::naming::naming_fault;
use crate::outputs::select_outputs;
use plan_core::{Exprs, Items};
use row_expr::Expr;
use select_names::{is_grouped_select, unknown_name};
use sql_tree::Select;
use sqlite_items::Boxed;
use statement_checks::CheckFault;
use std::alloc::{AllocError, Global};
use tree_equality::TreeTable;
use value_core::Schema;

/// What the query of a view gives: WHERE, GROUP BY and the items over the columns that it reads, and
/// the columns that the items are.
#[derive(Debug, Drop)]
pub struct ViewSelect {
    pub filter: Option<Expr>,
    pub groups: Exprs,
    pub items: Items,
    pub columns: Schema,
}

fn are_kinded(alloc: Global, source: &Schema, select: &Select) -> Result<bool, AllocError>
    ensures { IfOk result (λ are. are ≡ (kinded.is_filter source.now select.now.filter && list_all (spec.is_kinded_tree source.now) select.now.groups && list_all (spec.has_item_kind source.now) select.now.outs)) }
{
    if !is_filter(alloc, source, &select.filter)? {
        return Ok(false);
    }
    if !are_kinded_trees(alloc, source, select.groups.as_slice())? {
        return Ok(false);
    }
    have_item_kinds(alloc, source, select.outs.as_slice())
}

fn kind_fault(
    alloc: Global,
    source: &Schema,
    select: &Select,
) -> Result<Option<CheckFault>, AllocError>
    ensures { IfOk result (λ fault. fault ≡ spec.items_have_kinds source.now select.now) }
{
    if are_kinded(alloc, source, select)? {
        Ok(None)
    } else {
        Ok(Some(CheckFault::TypeMismatch))
    }
}

/// The fault of an output outside the groups, or else of its name.
fn output_fault(
    alloc: Global,
    select: &Select,
    source: &Schema,
    table: &TreeTable<'_>,
) -> Result<Option<CheckFault>, AllocError>
    requires { table.now ≡ select.now.groups }
    ensures { IfOk result (λ fault. fault ≡ first_of (spec.outputs_are_grouped select.now ∷ names.outputs_are_named select.now.outs ∷ names.outputs_differ source.now select.now.outs ∷ [])) }
{
    let fault = ungrouped_output(alloc, select, table)?;
    if fault.is_some() {
        return Ok(fault);
    }
    naming_fault(alloc, source, select.outs.as_slice())
}

/// The fault of kinds that don't meet, or else of an output.
fn item_fault(
    alloc: Global,
    select: &Select,
    source: &Schema,
    table: &TreeTable<'_>,
) -> Result<Option<CheckFault>, AllocError>
    requires { table.now ≡ select.now.groups }
    ensures { IfOk result (λ fault. fault ≡ first_of (spec.items_have_kinds source.now select.now ∷ spec.outputs_are_grouped select.now ∷ names.outputs_are_named select.now.outs ∷ names.outputs_differ source.now select.now.outs ∷ [])) }
{
    let fault = kind_fault(alloc, source, select)?;
    if fault.is_some() {
        return Ok(fault);
    }
    output_fault(alloc, select, source, table)
}

/// The fault of the first check that the query of a view breaks.
fn view_fault(
    alloc: Global,
    select: &Select,
    source: &Schema,
    table: &TreeTable<'_>,
) -> Result<Option<CheckFault>, AllocError>
    requires { table.now ≡ select.now.groups }
    ensures { IfOk result (λ fault. fault ≡ first_of (spec.view_checks select.now source.now)) }
{
    let fault = unknown_name(alloc, source.as_slice(), select)?;
    if fault.is_some() {
        return Ok(fault);
    }
    item_fault(alloc, select, source, table)
}

fn ungrouped_items(
    alloc: Global,
    select: &Select,
    source: &Schema,
) -> Result<ItemOutputs, AllocError>
    ensures { IfOk result (λ outputs. outputs ≡ map spec.plain_output (outputs_of.select_outputs source.now select.now.outs)) }
{
    let outputs = select_outputs(alloc, source, select.outs.as_slice())?;
    plain_outputs(alloc, outputs)
}

fn view_outputs(
    alloc: Global,
    select: &Select,
    source: &Schema,
    table: &TreeTable<'_>,
    groups: &KindedExprs,
) -> Result<ItemOutputs, AllocError>
    requires table { table.now ≡ select.now.groups }
    requires groups { groups.now ≡ spec.groups_over source.now select.now.groups }
    ensures { IfOk result (λ outputs. outputs ≡ spec.view_outputs source.now select.now) }
{
    if is_grouped_select(select) {
        grouped_outputs(
            alloc,
            source,
            table,
            groups.as_slice(),
            select.outs.as_slice(),
        )
    } else {
        ungrouped_items(alloc, select, source)
    }
}

fn view_with(
    filter: Option<Boxed<Expr>>,
    groups: Exprs,
    items: Items,
    columns: Schema,
) -> ViewSelect
    ensures filter { result.filter ≡ filter }
    ensures groups { result.groups ≡ groups }
    ensures items { result.items ≡ items }
    ensures columns { result.columns ≡ columns }
{
    ViewSelect {
        filter: unboxed(filter),
        groups,
        items,
        columns,
    }
}

/// A view of its groups and outputs.
fn assembled(
    alloc: Global,
    filter: Option<Boxed<Expr>>,
    groups: KindedExprs,
    outputs: ItemOutputs,
) -> Result<ViewSelect, AllocError>
    ensures { IfOk result (λ given. given ≡ spec.view_with filter groups outputs) }
{
    let groups = group_exprs(alloc, groups)?;
    let columns = item_columns(alloc, outputs.as_slice())?;
    let items = items_given(alloc, outputs)?;
    Ok(view_with(filter, groups, items, columns))
}

/// What a query gives that breaks no check.
fn view_given(
    alloc: Global,
    select: &Select,
    source: &Schema,
    table: &TreeTable<'_>,
) -> Result<ViewSelect, AllocError>
    requires { table.now ≡ select.now.groups }
    ensures { IfOk result (λ given. given ≡ spec.view_with (kinded.filter_over source.now select.now.filter) (spec.groups_over source.now select.now.groups) (spec.view_outputs source.now select.now)) }
{
    let filter = filter_over(alloc, source, &select.filter)?;
    let groups = groups_over(alloc, source, select.groups.as_slice())?;
    let outputs = view_outputs(alloc, select, source, table, &groups)?;
    assembled(alloc, filter, groups, outputs)
}

/// What the query of a view gives over the columns that it reads, whose origin is not looked at
/// (Databricks SQL reference, SELECT, GROUP BY and aggregate functions). The first fault of these is
/// answered, and else what is given: UnknownName of the first name in the text that no column has;
/// TypeMismatch where WHERE is no condition, a group or an output has no kind, an aggregate doesn't
/// take its operand, or an aggregate stands anywhere but as a whole output; NotGrouped of the first
/// output of a query with GROUP BY or an aggregate that is `*`, or no aggregate and not the same
/// expression as a group; NoName of the first output that is no plain column and has no name;
/// Duplicate of the first output that has the name of an earlier one. Outputs are numbered from 1,
/// and `*` is one. Names are compared but for the case of ASCII letters, and expressions else form
/// by form. Memory comes for want of it, and for an output or a group whose number 32 bits don't
/// hold.
pub fn check_view_select(
    alloc: Global,
    select: &Select,
    source: &Schema,
) -> Result<ViewSelect, SelectEnd>
    ensures { Judges (spec.view_select select.now source.now) result }
{
    let table = TreeTable::new(alloc, select.groups.as_slice())?;
    if let Some(fault) = view_fault(alloc, select, source, &table)? {
        return Err(SelectEnd::Fault(fault));
    }
    Ok(view_given(alloc, select, source, &table)?)
}
