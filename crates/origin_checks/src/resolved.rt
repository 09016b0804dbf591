//! The options of each `read_files` are resolved once, at its statement.

ghost use Rattle.std.specs.Prelude.{◌≡◌, IfOk};
ghost use Rattle.std.specs.Option.{option_copied};
ghost use Rattle.origin_checks.specs.Resolving as spec;

use file_options::{FilesRead, OptionEnd, files_of};
use sql_tree::{SqlOptions, SqlOrigin, Statement};
use std::alloc::{AllocError, Global};
use value_core::{ListOf, Name, Text};

/// What a flow or a view reads.
#[derive(Debug, Drop)]
pub enum Source {
    /// A dataset, with STREAM or without.
    Dataset { stream: bool, name: Name },
    /// `read_files`, with STREAM or without (Databricks SQL reference, read_files).
    Files { stream: bool, read: FilesRead },
}

/// What a statement reads.
#[derive(Debug, Drop)]
pub enum Resolved {
    /// It reads nothing: a streaming table without AS.
    Nothing,
    /// `read_files` whose options break a rule: `path`, or the option's word.
    Bad { word: Text },
    From(Source),
}

/// What each statement reads, in order.
pub type ResolvedOrigins = ListOf<Resolved>;

/// What a statement reads, as it is written.
fn written_origin(statement: &Statement) -> Option<&SqlOrigin>
    ensures { option_copied result ≡ spec.written_origin statement.now }
{
    match statement {
        Statement::Table {
            name: _,
            items: _,
            select,
        } => match select {
            Some(select) => Some(&select.origin),
            None => None,
        },
        Statement::View {
            name: _,
            items: _,
            select,
        } => Some(&select.origin),
        Statement::Insert {
            flow: _,
            target: _,
            select,
        } => Some(&select.origin),
        Statement::Cdc { flow: _, rest } => Some(&rest.origin),
    }
}

/// Files by their options.
fn files_resolved(
    alloc: Global,
    stream: bool,
    path: &Text,
    options: &SqlOptions,
) -> Result<Resolved, AllocError>
    ensures { IfOk result (λ resolved. spec.IsFilesResolved stream path.now options.now resolved) }
{
    match files_of(alloc, path, options) {
        Ok(read) => Ok(Resolved::From(Source::Files { stream, read })),
        Err(OptionEnd::Bad { word }) => Ok(Resolved::Bad { word }),
        Err(OptionEnd::Memory) => Err(AllocError),
    }
}

fn origin_resolved(alloc: Global, origin: &SqlOrigin) -> Result<Resolved, AllocError>
    ensures { IfOk result (λ resolved. spec.IsOriginResolved origin.now resolved) }
{
    match origin {
        SqlOrigin::Table { stream, name } => {
            let name = name.copy(alloc)?;
            let stream = *stream;
            Ok(Resolved::From(Source::Dataset { stream, name }))
        }
        SqlOrigin::Files {
            stream,
            path,
            options,
        } => files_resolved(alloc, *stream, path, options),
    }
}

/// What a statement reads.
fn resolved_of(alloc: Global, statement: &Statement) -> Result<Resolved, AllocError>
    ensures { IfOk result (λ resolved. spec.IsResolved statement.now resolved) }
{
    match written_origin(statement) {
        Some(origin) => origin_resolved(alloc, origin),
        None => Ok(Resolved::Nothing),
    }
}

/// What each statement reads, in order; the options of each `read_files` are judged here, once.
/// Fails for want of memory alone.
pub fn all_resolved(alloc: Global, statements: &[Statement]) -> Result<ResolvedOrigins, AllocError>
    ensures { IfOk result (λ resolved. spec.AreResolved statements.now resolved) }
{
    let mut resolved = ListOf::new(alloc);
    for statement in statements {
        resolved.push(resolved_of(alloc, statement)?)?;
    }
    Ok(resolved)
}
