//! The checks of a change feed behind its names and conditions.

ghost use Rattle.std.specs.Prelude.{◌≡◌, IfOk};
ghost use Rattle.expr_typing.specs.Typing.{first_of};
ghost use Rattle.feed_checks.specs.Clauses as clauses;
ghost use Rattle.feed_checks.specs.Feeds as spec;

use crate::names::{first_taken, stray_name, stray_of_feed};
use sql_tree::{CdcTree, SqlSequence};
use statement_checks::CheckFault;
use std::alloc::{AllocError, Global};
use value_core::Column;

fn is_type_2(scd: Option<u8>) -> bool
    ensures { result ≡ clauses.is_type_2 scd }
{
    match scd {
        Some(kind) => kind == 2,
        None => false,
    }
}

/// Whether the target keeps history, as SCD type 2.
pub fn keeps_history(feed: &CdcTree) -> bool
    ensures { result ≡ clauses.keeps_history feed.now }
{
    is_type_2(feed.scd)
}

fn is_struct(sequence: &SqlSequence) -> bool
    ensures { result ≡ clauses.is_struct sequence.now }
{
    match sequence {
        SqlSequence::One(_) => false,
        SqlSequence::Struct(_) => true,
    }
}

fn has_no_part(sequence: &SqlSequence) -> bool
    ensures { result ≡ spec.has_no_part sequence.now }
{
    match sequence {
        SqlSequence::One(_) => false,
        SqlSequence::Struct(names) => names.as_slice().is_empty(),
    }
}

/// The first name in the text that is no column.
pub fn names_known(
    alloc: Global,
    feed: &CdcTree,
    source: &[Column],
    given: &[Column],
) -> Result<Option<CheckFault>, AllocError>
    ensures { IfOk result (λ fault. fault ≡ spec.feed_names_known feed.now source.now given.now) }
{
    let Some(name) = stray_of_feed(feed, source, given) else {
        return Ok(None);
    };
    let name = name.copy(alloc)?;
    Ok(Some(CheckFault::UnknownName { name }))
}

fn has_parts(feed: &CdcTree) -> Option<CheckFault>
    ensures { result ≡ spec.has_parts feed.now }
{
    if feed.keys.as_slice().is_empty() || has_no_part(&feed.sequence) {
        Some(CheckFault::TypeMismatch)
    } else {
        None
    }
}

fn keys_given(
    alloc: Global,
    feed: &CdcTree,
    given: &[Column],
) -> Result<Option<CheckFault>, AllocError>
    ensures { IfOk result (λ fault. fault ≡ spec.keys_given feed.now given.now) }
{
    let Some(name) = stray_name(given, feed.keys.as_slice()) else {
        return Ok(None);
    };
    let name = name.copy(alloc)?;
    Ok(Some(CheckFault::KeyNotOutput { name }))
}

fn no_truncate(feed: &CdcTree) -> Option<CheckFault>
    ensures { result ≡ spec.no_truncate feed.now }
{
    if keeps_history(feed) && feed.truncate_when.is_some() {
        Some(CheckFault::TruncateScd2)
    } else {
        None
    }
}

fn no_struct(feed: &CdcTree) -> Option<CheckFault>
    ensures { result ≡ spec.no_struct feed.now }
{
    if keeps_history(feed) && is_struct(&feed.sequence) {
        Some(CheckFault::StructSequence)
    } else {
        None
    }
}

fn outputs_differ(
    alloc: Global,
    feed: &CdcTree,
    given: &[Column],
) -> Result<Option<CheckFault>, AllocError>
    ensures { IfOk result (λ fault. fault ≡ spec.outputs_differ feed.now given.now) }
{
    let Some(name) = first_taken(keeps_history(feed), given) else {
        return Ok(None);
    };
    let name = name.copy(alloc)?;
    Ok(Some(CheckFault::Duplicate { name }))
}

/// The first of the checks behind the names and conditions that is broken.
pub fn feed_fault(
    alloc: Global,
    feed: &CdcTree,
    given: &[Column],
) -> Result<Option<CheckFault>, AllocError>
    ensures { IfOk result (λ fault. fault ≡ first_of (spec.feed_checks feed.now given.now)) }
{
    let fault = has_parts(feed);
    if fault.is_some() {
        return Ok(fault);
    }
    let fault = keys_given(alloc, feed, given)?;
    if fault.is_some() {
        return Ok(fault);
    }
    let fault = no_truncate(feed);
    if fault.is_some() {
        return Ok(fault);
    }
    let fault = no_struct(feed);
    if fault.is_some() {
        return Ok(fault);
    }
    outputs_differ(alloc, feed, given)
}
