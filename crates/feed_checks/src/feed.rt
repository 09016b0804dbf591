//! What a change feed gives over the columns of its source.

ghost use Rattle.std.specs.Prelude.{◌≡◌, List, ℕ, IfOk, IsTrue};
ghost use Rattle.plan_core.specs.declared.flow.Origin.{Origin};
ghost use Rattle.plan_core.specs.Sound.{IsSoundFeed, is_condition_over, kinds_of, target_kinds};
ghost use Rattle.feed_checks.specs.Clauses as clauses;
ghost use Rattle.feed_checks.specs.Feeds as spec;
ghost use Rattle.feed_checks.specs.Places as places;

use crate::checks::{feed_fault, keeps_history, names_known};
use crate::conditions::conditions_of;
use crate::parts::{Conditions, FeedColumns, FeedEnd, FeedParts};
use crate::places::{columns_at, places_named, sequence_places, some_places, target_columns};
use sql_tree::CdcTree;
use sqlite_items::Boxed;
use statement_checks::CheckFault;
use std::alloc::{AllocError, Global};
use value_core::{Column, Places, Schema, Text};

/// Whether TRACK HISTORY ON stands with SCD type 1, which keeps no history (Databricks SQL
/// reference, AUTO CDC INTO). It is told before what the source of a feed is found to be. Fails for
/// want of memory alone.
pub fn track_fault(alloc: Global, feed: &CdcTree) -> Result<Option<CheckFault>, AllocError>
    ensures { IfOk result (λ fault. fault ≡ spec.track_fault feed.now) }
{
    if feed.track.is_some() && !keeps_history(feed) {
        let word = Text::new(alloc, "TRACK")?;
        return Ok(Some(CheckFault::BadOption { word }));
    }
    Ok(None)
}

fn target_of(
    alloc: Global,
    feed: &CdcTree,
    source: &[Column],
    sequence: &[u32],
    given: &Schema,
) -> Result<Schema, AllocError>
    ensures { IfOk result (λ columns. columns ≡ clauses.target_columns (clauses.keeps_history feed.now) (places.columns_at source.now sequence.now) given.now) }
{
    let parts = columns_at(alloc, source, sequence)?;
    target_columns(alloc, keeps_history(feed), parts.as_slice(), given)
}

/// The clauses that name columns, where these are the outputs.
fn columns_with(
    alloc: Global,
    feed: &CdcTree,
    source: &[Column],
    outputs: Places,
    given: Schema,
) -> Result<FeedColumns, AllocError>
    requires { outputs ≡ places.some_places source.now feed.now.columns }
    ensures { IfOk result (λ columns. columns ≡ spec.columns_with feed.now source.now given) }
{
    let keys = places_named(alloc, given.as_slice(), feed.keys.as_slice())?;
    let sequence = sequence_places(alloc, source, &feed.sequence)?;
    let tracked = some_places(alloc, given.as_slice(), &feed.track)?;
    let columns = target_of(alloc, feed, source, sequence.as_slice(), &given)?;
    Ok(FeedColumns {
        keys,
        sequence,
        outputs,
        tracked,
        given,
        columns,
    })
}

fn parts_with(feed: &CdcTree, columns: FeedColumns, made: Boxed<Conditions>) -> FeedParts
    ensures { result ≡ spec.parts_with feed.now columns made }
{
    let Conditions {
        delete_when,
        truncate_when,
    } = made.into_inner();
    let FeedColumns {
        keys,
        sequence,
        outputs,
        tracked,
        given,
        columns,
    } = columns;
    FeedParts {
        keys,
        sequence,
        delete_when,
        truncate_when,
        outputs,
        ignore_null: feed.ignore_null,
        scd2: keeps_history(feed),
        tracked,
        given,
        columns,
    }
}

fn parts_behind(
    alloc: Global,
    feed: &CdcTree,
    source: &Schema,
    outputs: Places,
    given: Schema,
    made: Boxed<Conditions>,
) -> Result<FeedParts, FeedEnd>
    requires { outputs ≡ places.some_places source.now feed.now.columns }
    ensures told { spec.FeedTells (spec.parts_behind feed.now source.now given made) result }
    ensures delete { IfOk result (λ parts. parts.delete_when ≡ made.delete_when) }
    ensures truncate { IfOk result (λ parts. parts.truncate_when ≡ made.truncate_when) }
{
    if let Some(fault) = feed_fault(alloc, feed, given.as_slice())? {
        return Err(FeedEnd::Fault(fault));
    }
    match columns_with(alloc, feed, source.as_slice(), outputs, given) {
        Ok(columns) => Ok(parts_with(feed, columns, made)),
        Err(AllocError) => Err(FeedEnd::Memory),
    }
}

fn parts_over(
    alloc: Global,
    feed: &CdcTree,
    source: &Schema,
    outputs: Places,
    given: Schema,
) -> Result<FeedParts, FeedEnd>
    requires { outputs ≡ places.some_places source.now feed.now.columns }
    ensures told { spec.FeedTells (spec.parts_over feed.now source.now given) result }
    ensures delete { IfOk result (λ parts. IsTrue (is_condition_over (kinds_of source.now) parts.delete_when)) }
    ensures truncate { IfOk result (λ parts. IsTrue (is_condition_over (kinds_of source.now) parts.truncate_when)) }
{
    if let Some(fault) = names_known(alloc, feed, source.as_slice(), given.as_slice())? {
        return Err(FeedEnd::Fault(fault));
    }
    match conditions_of(alloc, feed, source) {
        Ok(made) => parts_behind(alloc, feed, source, outputs, given, made),
        Err(end) => Err(end),
    }
}

/// What a change feed gives over the columns of its source (Databricks SQL reference, AUTO CDC
/// INTO), or the first check that it breaks. Names are compared but for the case of ASCII letters.
/// First come names that no column has, in the order of the text: KEYS, the two conditions, SEQUENCE
/// BY and COLUMNS name columns of the source, TRACK HISTORY ON names outputs (UnknownName). Then
/// come a condition that is neither BOOLEAN nor NULL, and KEYS or STRUCT without a name, which no
/// text has (TypeMismatch); a key that is no output (KeyNotOutput); with SCD type 2 a truncate
/// condition (TruncateScd2) and STRUCT (StructSequence); an output that has the name of an earlier
/// one or, with SCD type 2, is `__START_AT` or `__END_AT` (Duplicate). A fault spells a name as the
/// text does, and an output as the source does. The work is bounded by the length of the text times
/// that of the source where the names in each clause differ.
pub fn check_feed(alloc: Global, feed: &CdcTree, source: &Schema) -> Result<FeedParts, FeedEnd>
    ensures parts { spec.FeedTells (spec.feed_parts feed.now source.now) result }
    // The flow is sound over the columns of its source, whatever its name and origin are.
    ensures sound { IfOk result (λ parts. (name : List ℕ) (origin : Origin) → IsSoundFeed (kinds_of source.now) (spec.sequence_kinds source.now parts) (kinds_of parts.given) (spec.feed_flow name origin parts)) }
    ensures kinds { IfOk result (λ parts. kinds_of parts.columns ≡ target_kinds parts.scd2 (spec.sequence_kinds source.now parts) (kinds_of parts.given)) }
{
    let outputs = some_places(alloc, source.as_slice(), &feed.columns)?;
    let given = columns_at(alloc, source.as_slice(), outputs.as_slice())?;
    parts_over(alloc, feed, source, outputs, given)
}
