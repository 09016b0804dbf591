//! The query of a view.

ghost use Rattle.std.specs.Prelude.{◌≡◌, IfOk};
ghost use Rattle.std.specs.Option.{option_copied};
ghost use Rattle.origin_checks.specs.Origins as origins;
ghost use Rattle.select_checks.specs.Ends.{Judges};
ghost use Rattle.select_checks.specs.Views.{view_select};
ghost use Rattle.dataset_checks.specs.Viewing as spec;

use crate::parts::DatasetParts;
use crate::reading::{found_in, opened};
use origin_checks::{Resolved, Source, batch_break, columns_read};
use plan_core::{Body, Dataset, Query};
use select_checks::{SelectEnd, ViewSelect, check_view_select};
use sql_tree::Select;
use sqlite_items::Boxed;
use statement_checks::CheckFault;
use std::alloc::{AllocError, Global};
use value_core::{Name, Schema};

fn view_dataset(origin: Name, given: Boxed<ViewSelect>, seen: Schema) -> DatasetParts
    requires { seen ≡ given.columns }
    ensures { result ≡ spec.view_dataset origin given }
{
    let ViewSelect {
        filter,
        groups,
        items,
        columns,
    } = given.into_inner();
    DatasetParts {
        body: Body::View(Query {
            origin,
            filter,
            groups,
            items,
        }),
        columns,
        seen,
    }
}

fn view_parts(
    alloc: Global,
    origin: &Name,
    given: Boxed<ViewSelect>,
) -> Result<Boxed<DatasetParts>, AllocError>
    ensures { IfOk result (λ made. made ≡ spec.view_dataset origin.now given) }
{
    let origin = origin.copy(alloc)?;
    let seen = given.get().columns.copy(alloc)?;
    Boxed::new(alloc, view_dataset(origin, given, seen))
}

/// The query over columns, in a place of its own.
fn checked_view(
    alloc: Global,
    select: &Select,
    source: &Schema,
) -> Result<Boxed<ViewSelect>, SelectEnd>
    ensures { Judges (view_select select.now source.now) result }
{
    match check_view_select(alloc, select, source) {
        Ok(given) => Ok(Boxed::new(alloc, given)?),
        Err(end) => Err(end),
    }
}

fn viewed(
    alloc: Global,
    select: &Select,
    origin: &Name,
    source: &Schema,
) -> Result<Boxed<DatasetParts>, SelectEnd>
    ensures { Judges (spec.viewed select.now origin.now source.now) result }
{
    match checked_view(alloc, select, source) {
        Ok(given) => Ok(view_parts(alloc, origin, given)?),
        Err(end) => Err(end),
    }
}

fn view_from(
    alloc: Global,
    select: &Select,
    reads: &Source,
    found: Option<&Dataset>,
    origin: &Name,
) -> Result<Boxed<DatasetParts>, SelectEnd>
    ensures { Judges (spec.viewed select.now origin.now (origins.columns_read reads.now (option_copied found.entry))) result }
{
    let source = columns_read(alloc, reads, found)?;
    viewed(alloc, select, origin, &source)
}

fn view_over(
    alloc: Global,
    select: &Select,
    reads: &Source,
    found: Option<&Dataset>,
    origin: &Name,
) -> Result<Boxed<DatasetParts>, SelectEnd>
    ensures { Judges (spec.view_over select.now reads.now (option_copied found.entry) origin.now) result }
{
    if let Some(fault) = batch_break(alloc, reads, found)? {
        return Err(SelectEnd::Fault(fault));
    }
    view_from(alloc, select, reads, found, origin)
}

fn dataset_read(reads: &Source) -> Option<&Name>
    ensures { option_copied result ≡ spec.dataset_read reads.now }
{
    match reads {
        Source::Dataset { stream: _, name } => Some(name),
        Source::Files { stream: _, read: _ } => None,
    }
}

fn view_named(
    alloc: Global,
    select: &Select,
    reads: &Source,
    found: Option<&Dataset>,
    origin: Option<&Name>,
) -> Result<Boxed<DatasetParts>, SelectEnd>
    ensures { Judges (spec.view_named select.now reads.now (option_copied found.entry) (option_copied origin.entry)) result }
{
    match origin {
        Some(origin) => view_over(alloc, select, reads, found, origin),
        None => Err(SelectEnd::Fault(CheckFault::NotBatch)),
    }
}

/// What the query of the view of that name gives, or the first check that it breaks: by the options
/// of `read_files`, by what it reads, and by its select.
pub(crate) fn view_by(
    alloc: Global,
    name: &Name,
    select: &Select,
    sofar: &[Dataset],
    resolved: Option<&Resolved>,
) -> Result<Boxed<DatasetParts>, SelectEnd>
    ensures { Judges (spec.view_by name.now select.now sofar.now (option_copied resolved.entry)) result }
{
    match opened(alloc, name, resolved) {
        Ok(reads) => view_named(
            alloc,
            select,
            reads,
            found_in(sofar, reads),
            dataset_read(reads),
        ),
        Err(end) => Err(end),
    }
}
