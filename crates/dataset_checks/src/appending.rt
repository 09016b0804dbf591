//! The flow into a table that one select is.

ghost use Rattle.std.specs.Prelude.{◌≡◌, IfOk};
ghost use Rattle.std.specs.Option.{option_copied};
ghost use Rattle.column_checks.specs.ByName.{items_placed, places_by_name};
ghost use Rattle.origin_checks.specs.Origins as origins;
ghost use Rattle.select_checks.specs.Ends.{Judges};
ghost use Rattle.select_checks.specs.Streams.{stream_select};
ghost use Rattle.dataset_checks.specs.Appending as spec;

use crate::parts::TableFlow;
use crate::reading::{found_in, opened, reading_fault};
use column_checks::{gives_table, items_at, places_by_name};
use origin_checks::{Resolved, Source, columns_read, origin_of};
use plan_core::{AppendFlow, Dataset, Origin};
use select_checks::{SelectEnd, StreamSelect, check_stream_select};
use sql_tree::Select;
use sqlite_items::Boxed;
use std::alloc::{AllocError, Global};
use value_core::{ListOf, Name, Schema};

// ---- by name

/// The outputs at these places, and these columns.
fn select_at(
    alloc: Global,
    given: Boxed<StreamSelect>,
    places: &[usize],
    columns: Schema,
) -> Result<Boxed<StreamSelect>, AllocError>
    ensures filter { IfOk result (λ placed. placed.filter ≡ given.filter) }
    ensures outputs { IfOk result (λ placed. placed.outputs ≡ items_placed given.outputs places.now) }
    ensures columns { IfOk result (λ placed. placed.columns ≡ columns) }
{
    let StreamSelect {
        filter,
        outputs,
        columns: _,
    } = given.into_inner();
    let outputs = items_at(alloc, outputs.into_vec(), places)?;
    let outputs = ListOf::from_vec(outputs);
    Boxed::new(
        alloc,
        StreamSelect {
            filter,
            outputs,
            columns,
        },
    )
}

fn select_placed(
    alloc: Global,
    table: &Schema,
    given: Boxed<StreamSelect>,
) -> Result<Boxed<StreamSelect>, AllocError>
    ensures { IfOk result (λ placed. placed ≡ spec.select_placed table.now given) }
{
    let places = places_by_name(alloc, table.as_slice(), given.get().columns.as_slice())?;
    let columns = table.copy(alloc)?;
    select_at(alloc, given, places.as_slice(), columns)
}

/// Into a table of these columns, by name.
fn select_by_name(
    alloc: Global,
    table: &Schema,
    given: Boxed<StreamSelect>,
) -> Result<Boxed<StreamSelect>, SelectEnd>
    ensures { Judges (spec.select_by_name table.now given) result }
{
    if let Some(fault) = gives_table(alloc, table.as_slice(), given.get().columns.as_slice())? {
        return Err(SelectEnd::Fault(fault));
    }
    Ok(select_placed(alloc, table, given)?)
}

/// Into a table whose columns may be known.
fn select_into(
    alloc: Global,
    table: Option<&Schema>,
    given: Boxed<StreamSelect>,
) -> Result<Boxed<StreamSelect>, SelectEnd>
    ensures { Judges (spec.select_into (option_copied table.entry) given) result }
{
    match table {
        Some(table) => select_by_name(alloc, table, given),
        None => Ok(given),
    }
}

// ---- the flow

fn table_flow(name: Name, origin: Origin, given: Boxed<StreamSelect>) -> TableFlow
    ensures { result ≡ spec.table_flow name origin given }
{
    let StreamSelect {
        filter,
        outputs,
        columns,
    } = given.into_inner();
    TableFlow {
        flow: AppendFlow {
            name,
            origin,
            filter,
            outputs,
        },
        columns,
    }
}

fn named_flow(
    alloc: Global,
    name: &Name,
    reads: &Source,
    given: Boxed<StreamSelect>,
) -> Result<Boxed<TableFlow>, AllocError>
    ensures { IfOk result (λ flow. flow ≡ spec.table_flow name.now (origins.origin_as reads.now) given) }
{
    let name = name.copy(alloc)?;
    let origin = origin_of(alloc, reads)?;
    Boxed::new(alloc, table_flow(name, origin, given))
}

fn placed_flow(
    alloc: Global,
    name: &Name,
    reads: &Source,
    table: Option<&Schema>,
    given: Boxed<StreamSelect>,
) -> Result<Boxed<TableFlow>, SelectEnd>
    ensures { Judges (spec.placed_flow name.now reads.now (option_copied table.entry) given) result }
{
    match select_into(alloc, table, given) {
        Ok(placed) => Ok(named_flow(alloc, name, reads, placed)?),
        Err(end) => Err(end),
    }
}

/// The select over columns, in a place of its own.
fn checked_select(
    alloc: Global,
    select: &Select,
    source: &Schema,
) -> Result<Boxed<StreamSelect>, SelectEnd>
    ensures { Judges (stream_select select.now source.now) result }
{
    match check_stream_select(alloc, select, source) {
        Ok(given) => Ok(Boxed::new(alloc, given)?),
        Err(end) => Err(end),
    }
}

fn selected_flow(
    alloc: Global,
    name: &Name,
    select: &Select,
    table: Option<&Schema>,
    reads: &Source,
    source: &Schema,
) -> Result<Boxed<TableFlow>, SelectEnd>
    ensures { Judges (spec.selected_flow name.now select.now (option_copied table.entry) reads.now source.now) result }
{
    match checked_select(alloc, select, source) {
        Ok(given) => placed_flow(alloc, name, reads, table, given),
        Err(end) => Err(end),
    }
}

fn flow_from(
    alloc: Global,
    name: &Name,
    select: &Select,
    table: Option<&Schema>,
    reads: &Source,
    found: Option<&Dataset>,
) -> Result<Boxed<TableFlow>, SelectEnd>
    ensures { Judges (spec.selected_flow name.now select.now (option_copied table.entry) reads.now (origins.columns_read reads.now (option_copied found.entry))) result }
{
    let source = columns_read(alloc, reads, found)?;
    selected_flow(alloc, name, select, table, reads, &source)
}

fn flow_over(
    alloc: Global,
    mixed: bool,
    name: &Name,
    select: &Select,
    table: Option<&Schema>,
    reads: &Source,
    found: Option<&Dataset>,
) -> Result<Boxed<TableFlow>, SelectEnd>
    ensures { Judges (spec.flow_over mixed name.now select.now (option_copied table.entry) reads.now (option_copied found.entry)) result }
{
    if let Some(fault) = reading_fault(alloc, mixed, reads, found)? {
        return Err(SelectEnd::Fault(fault));
    }
    flow_from(alloc, name, select, table, reads, found)
}

/// The flow of that name into a table whose columns may be known, or the first check that it breaks:
/// by the options of `read_files`, by what it reads, by the flows beside it, by its select, and by
/// the columns of the table.
pub(crate) fn flow_by(
    alloc: Global,
    mixed: bool,
    name: &Name,
    select: &Select,
    table: Option<&Schema>,
    sofar: &[Dataset],
    resolved: Option<&Resolved>,
) -> Result<Boxed<TableFlow>, SelectEnd>
    ensures { Judges (spec.flow_by mixed name.now select.now (option_copied table.entry) sofar.now (option_copied resolved.entry)) result }
{
    match opened(alloc, name, resolved) {
        Ok(reads) => flow_over(
            alloc,
            mixed,
            name,
            select,
            table,
            reads,
            found_in(sofar, reads),
        ),
        Err(end) => Err(end),
    }
}
