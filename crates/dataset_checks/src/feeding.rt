//! The change feed that keeps a table.

ghost use Rattle.std.specs.Prelude.{◌≡◌, IfOk};
ghost use Rattle.std.specs.Option.{option_copied};
ghost use Rattle.origin_checks.specs.Origins as origins;
ghost use Rattle.select_checks.specs.Ends.{Judges};
ghost use Rattle.feed_checks.specs.Feeds as feeds;
ghost use Rattle.dataset_checks.specs.Feeding as spec;

use crate::parts::DatasetParts;
use crate::reading::{feed_reading_fault, found_in, opened};
use feed_checks::{FeedEnd, FeedParts, check_feed};
use origin_checks::{Resolved, Source, columns_read, origin_of};
use plan_core::{Body, Cdc, Dataset, Origin};
use select_checks::SelectEnd;
use sql_tree::CdcTree;
use sqlite_items::Boxed;
use std::alloc::{AllocError, Global};
use value_core::{Name, Schema};

fn feed_dataset(name: Name, origin: Origin, parts: Boxed<FeedParts>) -> DatasetParts
    ensures { result ≡ spec.feed_dataset name origin parts }
{
    let FeedParts {
        keys,
        sequence,
        delete_when,
        truncate_when,
        outputs,
        ignore_null,
        scd2,
        tracked,
        given,
        columns,
    } = parts.into_inner();
    DatasetParts {
        body: Body::Cdc(Cdc {
            name,
            origin,
            keys,
            sequence,
            delete_when,
            truncate_when,
            outputs,
            ignore_null,
            scd2,
            tracked,
        }),
        columns,
        seen: given,
    }
}

fn named_feed(
    alloc: Global,
    name: &Name,
    reads: &Source,
    parts: Boxed<FeedParts>,
) -> Result<Boxed<DatasetParts>, AllocError>
    ensures { IfOk result (λ made. made ≡ spec.feed_dataset name.now (origins.origin_as reads.now) parts) }
{
    let name = name.copy(alloc)?;
    let origin = origin_of(alloc, reads)?;
    Boxed::new(alloc, feed_dataset(name, origin, parts))
}

/// The change feed over columns, in a place of its own.
fn checked_feed(
    alloc: Global,
    feed: &CdcTree,
    source: &Schema,
) -> Result<Boxed<FeedParts>, SelectEnd>
    ensures { Judges (feeds.feed_parts feed.now source.now) result }
{
    match check_feed(alloc, feed, source) {
        Ok(parts) => Ok(Boxed::new(alloc, parts)?),
        Err(FeedEnd::Fault(fault)) => Err(SelectEnd::Fault(fault)),
        Err(FeedEnd::Memory) => Err(SelectEnd::Memory),
    }
}

fn fed(
    alloc: Global,
    name: &Name,
    feed: &CdcTree,
    reads: &Source,
    source: &Schema,
) -> Result<Boxed<DatasetParts>, SelectEnd>
    ensures { Judges (spec.fed name.now feed.now reads.now source.now) result }
{
    match checked_feed(alloc, feed, source) {
        Ok(parts) => Ok(named_feed(alloc, name, reads, parts)?),
        Err(end) => Err(end),
    }
}

fn feed_from(
    alloc: Global,
    name: &Name,
    feed: &CdcTree,
    reads: &Source,
    found: Option<&Dataset>,
) -> Result<Boxed<DatasetParts>, SelectEnd>
    ensures { Judges (spec.fed name.now feed.now reads.now (origins.columns_read reads.now (option_copied found.entry))) result }
{
    let source = columns_read(alloc, reads, found)?;
    fed(alloc, name, feed, reads, &source)
}

fn feed_over(
    alloc: Global,
    mixed: bool,
    name: &Name,
    feed: &CdcTree,
    reads: &Source,
    found: Option<&Dataset>,
) -> Result<Boxed<DatasetParts>, SelectEnd>
    ensures { Judges (spec.feed_over mixed name.now feed.now reads.now (option_copied found.entry)) result }
{
    if let Some(fault) = feed_reading_fault(alloc, mixed, feed, reads, found)? {
        return Err(SelectEnd::Fault(fault));
    }
    feed_from(alloc, name, feed, reads, found)
}

/// What the change feed of that name makes of its table, or the first check that it breaks: by the
/// options of `read_files`, TRACK HISTORY, what it reads, the flows beside it, and its clauses.
pub(crate) fn feed_by(
    alloc: Global,
    mixed: bool,
    name: &Name,
    feed: &CdcTree,
    sofar: &[Dataset],
    resolved: Option<&Resolved>,
) -> Result<Boxed<DatasetParts>, SelectEnd>
    ensures { Judges (spec.feed_by mixed name.now feed.now sofar.now (option_copied resolved.entry)) result }
{
    match opened(alloc, name, resolved) {
        Ok(reads) => feed_over(alloc, mixed, name, feed, reads, found_in(sofar, reads)),
        Err(end) => Err(end),
    }
}
