//! The checks of what a flow and a view read.

ghost use Rattle.std.specs.Prelude.{◌≡◌, IfOk};
ghost use Rattle.std.specs.Option.{option_copied};
ghost use Rattle.plan_core.specs.Sound as sound;
ghost use Rattle.statement_checks.specs.Repeats.{first_of};
ghost use Rattle.origin_checks.specs.Origins as spec;

use crate::resolved::Source;
use file_options::FilesRead;
use plan_core::{Body, Dataset, Origin};
use statement_checks::CheckFault;
use std::alloc::{AllocError, Global};
use value_core::{ListOf, Name, Schema, Shape};

// ---- the checks one by one

fn streams_from(alloc: Global, stream: bool, name: &str) -> Result<Option<CheckFault>, AllocError>
    ensures { IfOk result (λ fault. fault ≡ spec.streams_under stream name.now) }
{
    if stream {
        return Ok(None);
    }
    let name = Name::new(alloc, name)?;
    Ok(Some(CheckFault::NotStreaming { name }))
}

fn is_stream(alloc: Global, source: &Source) -> Result<Option<CheckFault>, AllocError>
    ensures { IfOk result (λ fault. fault ≡ spec.is_stream source.now) }
{
    match source {
        Source::Dataset { stream, name } => streams_from(alloc, *stream, name.as_str()),
        Source::Files { stream, read: _ } => streams_from(alloc, *stream, "read_files"),
    }
}

fn is_batch(source: &Source) -> Option<CheckFault>
    ensures { result ≡ spec.is_batch source.now }
{
    match source {
        Source::Dataset { stream, name: _ } => {
            if *stream {
                Some(CheckFault::NotBatch)
            } else {
                None
            }
        }
        Source::Files { stream: _, read: _ } => Some(CheckFault::NotBatch),
    }
}

fn found_as(
    alloc: Global,
    name: &Name,
    found: Option<&Dataset>,
) -> Result<Option<CheckFault>, AllocError>
    ensures { IfOk result (λ fault. fault ≡ spec.found_as name.now (option_copied found.entry)) }
{
    let Some(_) = found else {
        let name = name.copy(alloc)?;
        return Ok(Some(CheckFault::UnknownName { name }));
    };
    Ok(None)
}

fn is_found(
    alloc: Global,
    source: &Source,
    found: Option<&Dataset>,
) -> Result<Option<CheckFault>, AllocError>
    ensures { IfOk result (λ fault. fault ≡ spec.is_found source.now (option_copied found.entry)) }
{
    match source {
        Source::Dataset { stream: _, name } => found_as(alloc, name, found),
        Source::Files { stream: _, read: _ } => Ok(None),
    }
}

fn is_append(body: &Body) -> bool
    ensures { result ≡ sound.is_append body.now }
{
    match body {
        Body::Append(_) => true,
        Body::Cdc(_) => false,
        Body::View(_) => false,
    }
}

fn only_gains(found: Option<&Dataset>) -> Option<CheckFault>
    ensures { result ≡ spec.only_gains (option_copied found.entry) }
{
    let Some(dataset) = found else {
        return None;
    };
    if is_append(&dataset.body) {
        return None;
    }
    Some(CheckFault::StreamOfChanging)
}

fn streams_gains(source: &Source, found: Option<&Dataset>) -> Option<CheckFault>
    ensures { result ≡ spec.streams_gains source.now (option_copied found.entry) }
{
    match source {
        Source::Dataset { stream: _, name: _ } => only_gains(found),
        Source::Files { stream: _, read: _ } => None,
    }
}

// ---- the checks in their order

/// The first check that a streaming flow breaks by what it reads; `found` is the dataset that it
/// names. It reads a stream; the dataset is there; and it is a table that only gains rows, and no
/// view and no target of a change feed. Fails for want of memory alone.
pub fn stream_break(
    alloc: Global,
    source: &Source,
    found: Option<&Dataset>,
) -> Result<Option<CheckFault>, AllocError>
    ensures { IfOk result (λ fault. fault ≡ first_of (spec.origin_stream_checks source.now (option_copied found.entry))) }
{
    let fault = is_stream(alloc, source)?;
    if fault.is_some() {
        return Ok(fault);
    }
    let fault = is_found(alloc, source, found)?;
    if fault.is_some() {
        return Ok(fault);
    }
    Ok(streams_gains(source, found))
}

/// The first check that a view breaks by what it reads; `found` is the dataset that it names. It
/// reads neither a stream nor files; and the dataset is there. Fails for want of memory alone.
pub fn batch_break(
    alloc: Global,
    source: &Source,
    found: Option<&Dataset>,
) -> Result<Option<CheckFault>, AllocError>
    ensures { IfOk result (λ fault. fault ≡ first_of (spec.origin_batch_checks source.now (option_copied found.entry))) }
{
    let fault = is_batch(source);
    if fault.is_some() {
        return Ok(fault);
    }
    is_found(alloc, source, found)
}

// ---- what is read

fn columns_found(alloc: Global, found: Option<&Dataset>) -> Result<Schema, AllocError>
    ensures { IfOk result (λ columns. columns ≡ spec.columns_found (option_copied found.entry)) }
{
    match found {
        Some(dataset) => dataset.columns.copy(alloc),
        None => Ok(ListOf::new(alloc)),
    }
}

/// The columns that are read: of the lines of files, or of the dataset, if it is there. Fails for
/// want of memory alone.
pub fn columns_read(
    alloc: Global,
    source: &Source,
    found: Option<&Dataset>,
) -> Result<Schema, AllocError>
    ensures { IfOk result (λ columns. columns ≡ spec.columns_read source.now (option_copied found.entry)) }
{
    match source {
        Source::Dataset { stream: _, name: _ } => columns_found(alloc, found),
        Source::Files { stream: _, read } => read.shape.columns.copy(alloc),
    }
}

fn files_origin(alloc: Global, read: &FilesRead) -> Result<Origin, AllocError>
    ensures { IfOk result (λ origin. origin ≡ spec.files_as read.now) }
{
    let dir = read.dir.copy(alloc)?;
    let columns = read.shape.columns.copy(alloc)?;
    Ok(Origin::Files {
        dir,
        shape: Shape {
            format: read.shape.format,
            columns,
            rescued: read.shape.rescued,
            header: read.shape.header,
            sep: read.shape.sep,
        },
    })
}

fn table_origin(alloc: Global, name: &Name) -> Result<Origin, AllocError>
    ensures { IfOk result (λ origin. origin ≡ spec.table_as name.now) }
{
    let name = name.copy(alloc)?;
    Ok(Origin::Table { name })
}

/// What a flow of the plan reads. Fails for want of memory alone.
pub fn origin_of(alloc: Global, source: &Source) -> Result<Origin, AllocError>
    ensures { IfOk result (λ origin. origin ≡ spec.origin_as source.now) }
{
    match source {
        Source::Dataset { stream: _, name } => table_origin(alloc, name),
        Source::Files { stream: _, read } => files_origin(alloc, read),
    }
}
