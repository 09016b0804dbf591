// Sequences of a change feed, and the greatest one known.
ghost use Rattle.std.specs.Prelude.{◌≡◌, IfOk};
ghost use Rattle.cdc_scd1.specs.Stamps.{is_later as later_than, isnt_before as from_on, latest as the_latest, outlives as is_there_still};

use std::alloc::{AllocError, Global};
use value_core::Row;

/// Whether a sequence is above the known one, if there is one.
pub(crate) fn is_later(known: &Option<Row>, sequence: &Row) -> bool
    ensures { result ≡ later_than known.now sequence.now }
{
    match known {
        Some(known) => sequence.cmp(known).is_gt(),
        None => true,
    }
}

/// Whether a sequence isn't below the known one, if there is one.
fn isnt_before(known: &Option<Row>, sequence: &Row) -> bool
    ensures { result ≡ from_on known.now sequence.now }
{
    match known {
        Some(known) => !known.cmp(sequence).is_gt(),
        None => true,
    }
}

/// Whether what was set at a sequence is there still: a delete at or above it takes it away, and a truncate above it.
pub(crate) fn outlives(deleted: &Option<Row>, truncated: &Option<Row>, stamp: &Option<Row>) -> bool
    ensures { result ≡ is_there_still deleted.now truncated.now stamp.now }
{
    match stamp {
        Some(sequence) => is_later(deleted, sequence) && isnt_before(truncated, sequence),
        None => false,
    }
}

/// An equal sequence, if there is one.
pub(crate) fn copy_of(alloc: Global, known: &Option<Row>) -> Result<Option<Row>, AllocError>
    ensures { IfOk result (λ copy. copy ≡ known.now) }
{
    match known {
        Some(known) => {
            let copy = known.copy(alloc)?;
            Ok(Some(copy))
        }
        None => Ok(None),
    }
}

/// The greater of the known sequence and this one.
pub(crate) fn latest(
    alloc: Global,
    known: &Option<Row>,
    sequence: &Row,
) -> Result<Option<Row>, AllocError>
    ensures { IfOk result (λ greatest. greatest ≡ the_latest known.now sequence.now) }
{
    if !is_later(known, sequence) {
        let copy = copy_of(alloc, known)?;
        return Ok(copy);
    }
    let copy = sequence.copy(alloc)?;
    Ok(Some(copy))
}
