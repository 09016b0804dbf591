//! One table: the first check that it breaks, or its dataset.

ghost use Rattle.std.specs.Prelude.{◌≡◌, ℕ, List, [], ◌∷◌, Some, Ok, IfOk};
ghost use Rattle.sql_tree.specs.declared.statement.SqlOption.{SqlOption};
ghost use Rattle.type_check.specs.Form as form;
ghost use Rattle.type_check.specs.Rules as spec;

use crate::fault::{CheckFault, TableEnd};
use crate::form::{declared_columns, is_plain_select};
use crate::names::{MAX_COLUMNS, first_difference, first_repeat, looked_at};
use crate::outputs::{Output, Outputs, columns_of, exprs_of, first_unknown, outputs_of};
use file_options::{FilesRead, OptionEnd, files_of};
use plan_core::{AppendFlow, AppendFlows, Body, Dataset, Origin};
use sql_print::print;
use sql_tree::{Out, Select, SqlExpr, SqlItem, SqlOptions, SqlOrigin, Statement, Statements};
use std::alloc::{AllocError, Global};
use value_core::{Column, ListOf, Name, Schema, Text};

// ---- the checks

fn names_differ(alloc: Global, columns: &[Column]) -> Result<Option<CheckFault>, AllocError>
    ensures { IfOk result (λ fault. fault ≡ spec.names_differ columns.now) }
{
    let Some(name) = first_repeat(looked_at(columns)) else {
        return Ok(None);
    };
    let name = name.copy(alloc)?;
    Ok(Some(CheckFault::Duplicate { name }))
}

fn few_columns(columns: &[Column]) -> Option<CheckFault>
    ensures { result ≡ spec.few_columns columns.now }
{
    if columns.len() > MAX_COLUMNS {
        Some(CheckFault::TooMany { count: 257 })
    } else {
        None
    }
}

fn is_streaming(alloc: Global, stream: bool) -> Result<Option<CheckFault>, AllocError>
    ensures { IfOk result (λ fault. fault ≡ spec.is_streaming stream) }
{
    if stream {
        return Ok(None);
    }
    let name = Name::new(alloc, "read_files")?;
    Ok(Some(CheckFault::NotStreaming { name }))
}

fn not_grouped(groups: &[SqlExpr]) -> Option<CheckFault>
    ensures { result ≡ spec.not_grouped groups.now }
{
    if groups.is_empty() {
        None
    } else {
        Some(CheckFault::AggregateInStream)
    }
}

fn names_known(
    alloc: Global,
    source: &[Column],
    outs: &[Out],
) -> Result<Option<CheckFault>, AllocError>
    ensures { IfOk result (λ fault. fault ≡ spec.names_known source.now outs.now) }
{
    let Some(name) = first_unknown(source, outs) else {
        return Ok(None);
    };
    let name = name.copy(alloc)?;
    Ok(Some(CheckFault::UnknownName { name }))
}

fn as_declared(
    alloc: Global,
    declared: &[Column],
    table: &[Column],
) -> Result<Option<CheckFault>, AllocError>
    ensures { IfOk result (λ fault. fault ≡ spec.as_declared declared.now table.now) }
{
    if declared.is_empty() {
        return Ok(None);
    }
    let Some(name) = first_difference(declared, table) else {
        return Ok(None);
    };
    let name = name.copy(alloc)?;
    Ok(Some(CheckFault::SchemaDiffers { name }))
}

fn declared_break(alloc: Global, declared: &[Column]) -> Result<Option<CheckFault>, AllocError>
    ensures { IfOk result (λ fault. fault ≡ spec.first_break (spec.declared_checks declared.now)) }
{
    let fault = names_differ(alloc, declared)?;
    if fault.is_some() {
        return Ok(fault);
    }
    Ok(few_columns(declared))
}

fn select_break(
    alloc: Global,
    stream: bool,
    select: &Select,
    source: &[Column],
) -> Result<Option<CheckFault>, AllocError>
    ensures { IfOk result (λ fault. fault ≡ spec.first_break (spec.select_checks stream select.now.groups select.now.outs source.now)) }
{
    let fault = is_streaming(alloc, stream)?;
    if fault.is_some() {
        return Ok(fault);
    }
    let fault = not_grouped(select.groups.as_slice());
    if fault.is_some() {
        return Ok(fault);
    }
    names_known(alloc, source, select.outs.as_slice())
}

fn column_break(
    alloc: Global,
    declared: &[Column],
    table: &[Column],
) -> Result<Option<CheckFault>, AllocError>
    ensures { IfOk result (λ fault. fault ≡ spec.first_break (spec.column_checks declared.now table.now)) }
{
    let fault = names_differ(alloc, table)?;
    if fault.is_some() {
        return Ok(fault);
    }
    let fault = few_columns(table);
    if fault.is_some() {
        return Ok(fault);
    }
    as_declared(alloc, declared, table)
}

// ---- the dataset

fn append_flow(
    alloc: Global,
    name: &Name,
    files: FilesRead,
    outputs: &[Output],
) -> Result<AppendFlow, AllocError>
    ensures { IfOk result (λ flow. flow ≡ spec.flow_with name.now files outputs.now) }
{
    let name = name.copy(alloc)?;
    let outputs = exprs_of(alloc, outputs)?;
    let FilesRead { dir, shape } = files;
    Ok(AppendFlow {
        name,
        origin: Origin::Files { dir, shape },
        filter: None,
        outputs,
    })
}

fn one_flow(alloc: Global, flow: AppendFlow) -> Result<AppendFlows, AllocError>
    ensures { IfOk result (λ flows. flows ≡ flow ∷ []) }
{
    let mut flows = ListOf::new(alloc);
    flows.push(flow)?;
    Ok(flows)
}

fn dataset_with(
    alloc: Global,
    statements: &Statements,
    name: &Name,
    flows: AppendFlows,
    columns: Schema,
) -> Result<Dataset, AllocError>
    ensures { IfOk result (λ dataset. dataset ≡ spec.dataset_with name.now (spec.text_of statements.now) flows columns) }
{
    let name = name.copy(alloc)?;
    let text = print(alloc, statements)?;
    Ok(Dataset {
        name,
        text,
        body: Body::Append(flows),
        columns,
        expectations: ListOf::new(alloc),
        level: 0,
    })
}

fn dataset_over(
    alloc: Global,
    statements: &Statements,
    name: &Name,
    files: FilesRead,
    outputs: &[Output],
) -> Result<Dataset, AllocError>
    ensures { IfOk result (λ dataset. dataset ≡ spec.dataset_over name.now (spec.text_of statements.now) files outputs.now) }
{
    let columns = columns_of(alloc, outputs)?;
    let flow = append_flow(alloc, name, files, outputs)?;
    let flows = one_flow(alloc, flow)?;
    dataset_with(alloc, statements, name, flows, columns)
}

// ---- by the form of the statement

/// The outputs of a query over what its options say, or the first check that they break.
fn outputs_over(
    alloc: Global,
    declared: &[Column],
    stream: bool,
    select: &Select,
    source: &[Column],
) -> Result<Outputs, TableEnd>
    ensures { spec.Told (λ answer. answer ≡ spec.outputs_over declared.now stream select.now.groups select.now.outs source.now) result }
{
    if let Some(fault) = select_break(alloc, stream, select, source)? {
        return Err(TableEnd::Fault(fault));
    }
    let outputs = outputs_of(alloc, source, select.outs.as_slice())?;
    let columns = columns_of(alloc, outputs.as_slice())?;
    if let Some(fault) = column_break(alloc, declared, columns.as_slice())? {
        return Err(TableEnd::Fault(fault));
    }
    Ok(outputs)
}

/// A table over what its options say.
fn table_over(
    alloc: Global,
    statements: &Statements,
    name: &Name,
    declared: &[Column],
    stream: bool,
    select: &Select,
    files: FilesRead,
) -> Result<Dataset, TableEnd>
    ensures { (path : List ℕ) (options : List SqlOption) → spec.Told (λ answer. answer ≡ spec.table_by (spec.text_of statements.now) (form.parts name.now declared.now select.now stream path options) (Ok files)) result }
{
    let source = files.shape.columns.as_slice();
    match outputs_over(alloc, declared, stream, select, source) {
        Ok(outputs) => Ok(dataset_over(alloc, statements, name, files, outputs.as_slice())?),
        Err(end) => Err(end),
    }
}

/// A table that reads files.
fn table_from(
    alloc: Global,
    statements: &Statements,
    name: &Name,
    declared: &[Column],
    select: &Select,
    stream: bool,
    path: &Text,
    options: &SqlOptions,
) -> Result<Dataset, TableEnd>
    ensures { spec.Told (spec.Judged (spec.text_of statements.now) (Some (form.parts name.now declared.now select.now stream path.now options.now))) result }
{
    if let Some(fault) = declared_break(alloc, declared)? {
        return Err(TableEnd::Fault(fault));
    }
    match files_of(alloc, path, options) {
        Ok(files) => match table_over(alloc, statements, name, declared, stream, select, files) {
            Ok(dataset) => Ok(dataset),
            Err(end) => Err(end),
        },
        Err(OptionEnd::Bad { word }) => Err(TableEnd::Fault(CheckFault::BadOption { word })),
        Err(OptionEnd::Memory) => Err(TableEnd::Memory),
    }
}

/// A table with AS.
fn table_as(
    alloc: Global,
    statements: &Statements,
    name: &Name,
    items: &[SqlItem],
    select: &Select,
) -> Result<Dataset, TableEnd>
    ensures { spec.Told (spec.Judged (spec.text_of statements.now) (form.form_with name.now items.now select.now)) result }
{
    if !is_plain_select(select) {
        return Err(TableEnd::Fault(CheckFault::NotYet));
    }
    let Some(declared) = declared_columns(alloc, items)? else {
        return Err(TableEnd::Fault(CheckFault::NotYet));
    };
    match &select.origin {
        SqlOrigin::Table { stream: _, name: _ } => Err(TableEnd::Fault(CheckFault::NotYet)),
        SqlOrigin::Files {
            stream,
            path,
            options,
        } => table_from(
            alloc,
            statements,
            name,
            declared.as_slice(),
            select,
            *stream,
            path,
            options,
        ),
    }
}

/// The dataset of a statement, or the first check that it breaks. Its text is that of the
/// statements.
pub fn table_of(
    alloc: Global,
    statements: &Statements,
    statement: &Statement,
) -> Result<Dataset, TableEnd>
    ensures { spec.Told (spec.Judged (spec.text_of statements.now) (form.form_of statement.now)) result }
{
    match statement {
        Statement::Table {
            name,
            items,
            select,
        } => match select {
            Some(select) => table_as(alloc, statements, name, items.as_slice(), select),
            None => Err(TableEnd::Fault(CheckFault::NotYet)),
        },
        Statement::View {
            name: _,
            items: _,
            select: _,
        } => Err(TableEnd::Fault(CheckFault::NotYet)),
        Statement::Insert {
            flow: _,
            target: _,
            select: _,
        } => Err(TableEnd::Fault(CheckFault::NotYet)),
        Statement::Cdc { flow: _, rest: _ } => Err(TableEnd::Fault(CheckFault::NotYet)),
    }
}
