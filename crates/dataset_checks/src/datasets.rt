//! The dataset that a statement and the flows that fill it make.

ghost use Rattle.std.specs.Prelude.{◌≡◌, Result, IfOk};
ghost use Rattle.std.specs.Option.{option_copied};
ghost use Rattle.statement_checks.specs.declared.fault.Break.{Break};
ghost use Rattle.select_checks.specs.Ends.{Judges};
ghost use Rattle.dataset_checks.specs.declared.parts.DatasetParts.{DatasetParts as Parts};
ghost use Rattle.dataset_checks.specs.Ends.{Answers};
ghost use Rattle.dataset_checks.specs.Datasets as spec;

use crate::end::{DatasetEnd, nothing_at, numbered};
use crate::parts::DatasetParts;
use crate::tables::table_parts;
use crate::viewing::view_by;
use column_checks::{columns_declared, declares_table, few_in_table};
use origin_checks::Resolved;
use plan_core::{Dataset, Expectations};
use select_checks::{SelectEnd, check_expectations};
use sql_tree::{SqlItems, Statement};
use sqlite_items::{Boxed, at};
use statement_checks::CheckFault;
use std::alloc::{AllocError, Global};
use value_core::{Name, Schema, Text};

/// The first fault of the whole list of columns.
fn own_fault(
    alloc: Global,
    items: &SqlItems,
    columns: &Schema,
) -> Result<Option<CheckFault>, AllocError>
    ensures { IfOk result (λ fault. fault ≡ spec.own_fault items.now columns.now) }
{
    let fault = few_in_table(columns.as_slice());
    if fault.is_some() {
        return Ok(fault);
    }
    let declared = columns_declared(alloc, items.as_slice())?;
    declares_table(alloc, declared.as_slice(), columns.as_slice())
}

fn dataset_of(
    name: Name,
    text: Text,
    level: u32,
    parts: Boxed<DatasetParts>,
    expectations: Expectations,
) -> Dataset
    ensures { result ≡ spec.dataset_of name text level parts expectations }
{
    let DatasetParts {
        body,
        columns,
        seen: _,
    } = parts.into_inner();
    Dataset {
        name,
        text,
        body,
        columns,
        expectations,
        level,
    }
}

fn named_dataset(
    alloc: Global,
    name: &Name,
    text: Text,
    level: u32,
    parts: Boxed<DatasetParts>,
    expectations: Expectations,
) -> Result<Boxed<Dataset>, AllocError>
    ensures { IfOk result (λ made. made ≡ spec.dataset_of name.now text level parts expectations) }
{
    let name = name.copy(alloc)?;
    Boxed::new(alloc, dataset_of(name, text, level, parts, expectations))
}

fn dataset_expecting(
    alloc: Global,
    name: &Name,
    items: &SqlItems,
    level: u32,
    text: Text,
    parts: Boxed<DatasetParts>,
) -> Result<Boxed<Dataset>, SelectEnd>
    ensures { Judges (spec.dataset_expecting name.now items.now level text parts) result }
{
    match check_expectations(alloc, items, &parts.get().seen) {
        Ok(expectations) => Ok(named_dataset(alloc, name, text, level, parts, expectations)?),
        Err(end) => Err(end),
    }
}

fn dataset_with(
    alloc: Global,
    name: &Name,
    items: &SqlItems,
    level: u32,
    text: Text,
    parts: Boxed<DatasetParts>,
) -> Result<Boxed<Dataset>, SelectEnd>
    ensures { Judges (spec.dataset_with name.now items.now level text parts) result }
{
    if let Some(fault) = own_fault(alloc, items, &parts.get().columns)? {
        return Err(SelectEnd::Fault(fault));
    }
    dataset_expecting(alloc, name, items, level, text, parts)
}

/// The faults of what fills the dataset come first.
fn dataset_filled(
    alloc: Global,
    place: usize,
    name: &Name,
    items: &SqlItems,
    level: u32,
    text: Text,
    filled: Result<Boxed<DatasetParts>, DatasetEnd>,
) -> Result<Boxed<Dataset>, DatasetEnd>
    ensures { (meant : Result Parts Break) → Answers meant filled → Answers (spec.dataset_filled place name.now items.now level text meant) result }
{
    match filled {
        Ok(parts) => numbered(place, dataset_with(alloc, name, items, level, text, parts)),
        Err(end) => Err(end),
    }
}

fn statement_judged(
    alloc: Global,
    statements: &[Statement],
    resolved: &[Resolved],
    sofar: &[Dataset],
    place: usize,
    level: u32,
    text: Text,
    statement: &Statement,
) -> Result<Boxed<Dataset>, DatasetEnd>
    ensures { Answers (spec.statement_judged statements.now resolved.now sofar.now place level text statement.now) result }
{
    match statement {
        Statement::Table {
            name,
            items,
            select,
        } => dataset_filled(
            alloc,
            place,
            name,
            items,
            level,
            text,
            table_parts(
                alloc, statements, resolved, sofar, place, name, items, select,
            ),
        ),
        Statement::View {
            name,
            items,
            select,
        } => dataset_filled(
            alloc,
            place,
            name,
            items,
            level,
            text,
            numbered(
                place,
                view_by(alloc, name, select, sofar, at(resolved, place)),
            ),
        ),
        Statement::Insert {
            flow,
            target: _,
            select: _,
        } => nothing_at(alloc, place, flow.as_str()),
        Statement::Cdc { flow, rest: _ } => { nothing_at(alloc, place, flow.as_str()) }
    }
}

fn judged_if_there(
    alloc: Global,
    statements: &[Statement],
    resolved: &[Resolved],
    sofar: &[Dataset],
    place: usize,
    level: u32,
    text: Text,
    statement: Option<&Statement>,
) -> Result<Boxed<Dataset>, DatasetEnd>
    ensures { Answers (spec.judged_if_there statements.now resolved.now sofar.now place level text (option_copied statement.entry)) result }
{
    match statement {
        Some(statement) => statement_judged(
            alloc, statements, resolved, sofar, place, level, text, statement,
        ),
        None => nothing_at(alloc, place, ""),
    }
}

/// The dataset that the statement at `place`, from 0, declares and its flows fill, or the first check
/// that is broken, with the number of the statement, from 1, in which it is (Databricks SQL
/// reference, CREATE STREAMING TABLE, CREATE MATERIALIZED VIEW, CREATE FLOW and AUTO CDC INTO).
/// `resolved` is what each statement reads, in order; `sofar` has the datasets that these flows read,
/// in whatever order.
///
/// The flows are judged in declared order, a table's own AS first, and each one from the top of this
/// list down: BadOption where `read_files` breaks a rule of its options, or TRACK HISTORY stands
/// with SCD type 1; NotStreaming, UnknownName and StreamOfChanging of what a flow reads, and for a
/// view NotBatch; MixedFlows where a change feed is not the only flow of its table; the faults of
/// the select or of the change feed over the columns that it reads; SchemaDiffers where an INSERT
/// doesn't give the table's columns by name and kind. Then come the dataset's own faults: NoFlow of
/// a streaming table that no flow fills; TooMany of more than 256 columns; SchemaDiffers where
/// columns are declared that are not those of the dataset in order. The faults of its expectations
/// come last.
///
/// A view has the columns of its query. The target of a change feed has those that the feed gives,
/// and its expectations see the outputs alone. Another table has the columns of its AS, else the
/// declared ones, else those of its first flow. The statement of a flow declares no dataset, and
/// neither does a place behind the statements: NoFlow. Names are the same but for the case of ASCII
/// letters. Memory comes for want of it, and for a number that 32 bits don't hold.
pub fn dataset_at(
    alloc: Global,
    statements: &[Statement],
    resolved: &[Resolved],
    sofar: &[Dataset],
    place: usize,
    level: u32,
    text: Text,
) -> Result<Dataset, DatasetEnd>
    ensures { Answers (spec.dataset_judged statements.now resolved.now sofar.now place level text) result }
{
    let judged = judged_if_there(
        alloc,
        statements,
        resolved,
        sofar,
        place,
        level,
        text,
        at(statements, place),
    );
    match judged {
        Ok(dataset) => Ok(dataset.into_inner()),
        Err(end) => Err(end),
    }
}
