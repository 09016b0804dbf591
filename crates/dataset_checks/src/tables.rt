//! What the flows of a streaming table make of it.

ghost use Rattle.std.specs.Prelude.{◌≡◌, ◌++◌, ◌∷◌, [], Result, IfOk, OnOk};
ghost use Rattle.std.specs.Option.{option_copied};
ghost use Rattle.statement_checks.specs.declared.fault.CheckFault.{CheckFault};
ghost use Rattle.select_checks.specs.Ends.{Judges};
ghost use Rattle.dataset_checks.specs.declared.parts.DatasetParts.{DatasetParts as Parts};
ghost use Rattle.dataset_checks.specs.declared.parts.TableFlow.{TableFlow as Appended};
ghost use Rattle.dataset_checks.specs.Ends.{Answers};
ghost use Rattle.dataset_checks.specs.Tables as spec;

use crate::appending::flow_by;
use crate::end::{DatasetEnd, no_flow, nothing_at, numbered};
use crate::feeding::feed_by;
use crate::filling::{are_mixed, flow_places};
use crate::parts::{DatasetParts, FlowParts, TableFlow};
use column_checks::columns_declared;
use origin_checks::Resolved;
use plan_core::{AppendFlows, Body, Dataset};
use select_checks::SelectEnd;
use sql_tree::{Select, SqlItems, Statement};
use sqlite_items::{Boxed, at};
use std::alloc::{AllocError, Global};
use value_core::{ListOf, Name, Schema};

// ---- one flow

fn appends(made: Result<Boxed<TableFlow>, SelectEnd>) -> Result<FlowParts, SelectEnd>
    ensures { (meant : Result Appended CheckFault) → Judges meant made → Judges (spec.appends meant) result }
{
    match made {
        Ok(flow) => Ok(FlowParts::Appends(flow)),
        Err(end) => Err(end),
    }
}

fn keeps(made: Result<Boxed<DatasetParts>, SelectEnd>) -> Result<FlowParts, SelectEnd>
    ensures { (meant : Result Parts CheckFault) → Judges meant made → Judges (spec.keeps meant) result }
{
    match made {
        Ok(table) => Ok(FlowParts::Keeps(table)),
        Err(end) => Err(end),
    }
}

/// The own AS of a table, a flow of the table's name.
fn own_parts(
    alloc: Global,
    mixed: bool,
    table: Option<&Schema>,
    sofar: &[Dataset],
    resolved: Option<&Resolved>,
    name: &Name,
    select: &Option<Select>,
) -> Result<FlowParts, SelectEnd>
    ensures { Judges (spec.own_parts mixed (option_copied table.entry) sofar.now (option_copied resolved.entry) name.now select.now) result }
{
    match select {
        Some(select) => appends(flow_by(alloc, mixed, name, select, table, sofar, resolved)),
        None => no_flow(alloc, name.as_str()),
    }
}

fn parts_of_flow(
    alloc: Global,
    mixed: bool,
    table: Option<&Schema>,
    sofar: &[Dataset],
    resolved: Option<&Resolved>,
    statement: &Statement,
) -> Result<FlowParts, SelectEnd>
    ensures { Judges (spec.parts_of_flow mixed (option_copied table.entry) sofar.now (option_copied resolved.entry) statement.now) result }
{
    match statement {
        Statement::Table {
            name,
            items: _,
            select,
        } => own_parts(alloc, mixed, table, sofar, resolved, name, select),
        Statement::View {
            name,
            items: _,
            select: _,
        } => no_flow(alloc, name.as_str()),
        Statement::Insert {
            flow,
            target: _,
            select,
        } => appends(flow_by(alloc, mixed, flow, select, table, sofar, resolved)),
        Statement::Cdc { flow, rest } => keeps(feed_by(alloc, mixed, flow, rest, sofar, resolved)),
    }
}

fn parts_if_there(
    alloc: Global,
    mixed: bool,
    table: Option<&Schema>,
    sofar: &[Dataset],
    resolved: Option<&Resolved>,
    statement: Option<&Statement>,
) -> Result<FlowParts, SelectEnd>
    ensures { Judges (spec.parts_if_there mixed (option_copied table.entry) sofar.now (option_copied resolved.entry) (option_copied statement.entry)) result }
{
    match statement {
        Some(flow) => parts_of_flow(alloc, mixed, table, sofar, resolved, flow),
        None => no_flow(alloc, ""),
    }
}

/// What the flow at a place gives to a table whose columns may be known.
fn parts_at(
    alloc: Global,
    statements: &[Statement],
    resolved: &[Resolved],
    sofar: &[Dataset],
    mixed: bool,
    table: Option<&Schema>,
    place: usize,
) -> Result<FlowParts, DatasetEnd>
    ensures { Answers (spec.parts_at statements.now resolved.now sofar.now mixed (option_copied table.entry) place) result }
{
    numbered(
        place,
        parts_if_there(
            alloc,
            mixed,
            table,
            sofar,
            at(resolved, place),
            at(statements, place),
        ),
    )
}

// ---- all flows

fn known(table: &Option<Schema>) -> Option<&Schema>
    ensures { option_copied result ≡ table.now }
{
    match table {
        Some(columns) => Some(columns),
        None => None,
    }
}

fn columns_or_none(alloc: Global, table: Option<Schema>) -> Schema
    ensures { result ≡ spec.columns_or_none table }
{
    match table {
        Some(columns) => columns,
        None => ListOf::new(alloc),
    }
}

/// A table that only gains rows.
fn append_dataset(
    alloc: Global,
    table: Option<Schema>,
    flows: AppendFlows,
) -> Result<Boxed<DatasetParts>, AllocError>
    ensures { IfOk result (λ made. made ≡ spec.append_dataset table flows) }
{
    let columns = columns_or_none(alloc, table);
    let seen = columns.copy(alloc)?;
    Boxed::new(
        alloc,
        DatasetParts {
            body: Body::Append(flows),
            columns,
            seen,
        },
    )
}

/// Puts a flow behind others; the columns that it gives.
fn add_flow(flows: &mut AppendFlows, given: Boxed<TableFlow>) -> Result<Schema, AllocError>
    ensures columns { IfOk result (λ columns. columns ≡ given.columns) }
    ensures flows { OnOk result (flows.new ≡ flows.old ++ given.flow ∷ []) }
{
    let TableFlow { flow, columns } = given.into_inner();
    flows.push(flow)?;
    Ok(columns)
}

/// The flows at places into a table whose columns may be known.
fn flows_joined(
    alloc: Global,
    statements: &[Statement],
    resolved: &[Resolved],
    sofar: &[Dataset],
    mixed: bool,
    places: &[usize],
    table: Option<Schema>,
) -> Result<Boxed<DatasetParts>, DatasetEnd>
    ensures { Answers (spec.flows_joined statements.now resolved.now sofar.now mixed places.now table []) result }
{
    let mut table = table;
    let mut flows = ListOf::new(alloc);
    for place in places {
        let given = match parts_at(
            alloc,
            statements,
            resolved,
            sofar,
            mixed,
            known(&table),
            *place,
        ) {
            Ok(given) => given,
            Err(end) => return Err(end),
        };
        match given {
            FlowParts::Appends(given) => table = Some(add_flow(&mut flows, given)?),
            FlowParts::Keeps(parts) => return Ok(parts),
        }
    }
    Ok(append_dataset(alloc, table, flows)?)
}

fn if_declared(columns: Schema) -> Option<Schema>
    ensures { result ≡ spec.if_declared columns }
{
    if columns.is_empty() {
        None
    } else {
        Some(columns)
    }
}

/// The columns that are known before the flows.
fn table_before(
    alloc: Global,
    items: &SqlItems,
    select: &Option<Select>,
) -> Result<Option<Schema>, AllocError>
    ensures { IfOk result (λ table. table ≡ spec.table_before items.now select.now) }
{
    match select {
        Some(_) => Ok(None),
        None => {
            let columns = columns_declared(alloc, items.as_slice())?;
            Ok(if_declared(columns))
        }
    }
}

fn flows_at(
    alloc: Global,
    statements: &[Statement],
    resolved: &[Resolved],
    sofar: &[Dataset],
    place: usize,
    name: &Name,
    table: Option<Schema>,
    places: &[usize],
) -> Result<Boxed<DatasetParts>, DatasetEnd>
    ensures { Answers (spec.flows_at statements.now resolved.now sofar.now place name.now table places.now) result }
{
    if places.is_empty() {
        return nothing_at(alloc, place, name.as_str());
    }
    let mixed = are_mixed(statements, places);
    flows_joined(alloc, statements, resolved, sofar, mixed, places, table)
}

/// What fills the streaming table at this place, or the first break of its flows.
pub(crate) fn table_parts(
    alloc: Global,
    statements: &[Statement],
    resolved: &[Resolved],
    sofar: &[Dataset],
    place: usize,
    name: &Name,
    items: &SqlItems,
    select: &Option<Select>,
) -> Result<Boxed<DatasetParts>, DatasetEnd>
    ensures { Answers (spec.table_parts statements.now resolved.now sofar.now place name.now items.now select.now) result }
{
    let table = table_before(alloc, items, select)?;
    let places = flow_places(alloc, statements, place, name, select)?;
    flows_at(
        alloc,
        statements,
        resolved,
        sofar,
        place,
        name,
        table,
        places.as_slice(),
    )
}
