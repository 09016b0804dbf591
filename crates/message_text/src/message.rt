// The line of why a run ends, and that of a compaction.
ghost use Rattle.std.specs.Prelude.{◌≡◌, IfOk};
ghost use Rattle.message_text.specs.Messages as spec;

use crate::faults::{not_built_line, unchecked_line};
use crate::lines::{counted_line, plain_line};
use crate::refusal::Refusal;
use crate::refused::{
    no_version_line, store_name_line, uncommitted_line, unloaded_line, unplanned_line,
};
use sql_tokens::SqlRefusal;
use std::alloc::{AllocError, Global};

/// The line of a text that has no reading.
fn unread_line(alloc: Global, refusal: SqlRefusal) -> Result<Vec<u8>, AllocError>
    ensures { IfOk result (λ line. line.items ≡ spec.unread_line refusal) }
{
    match refusal {
        SqlRefusal::TextTooLong => plain_line(alloc, "pipeline refused: text too long"),
        SqlRefusal::BadToken { at } => {
            counted_line(alloc, "pipeline refused: ", "bad token at ", at as u64)
        }
        SqlRefusal::LiteralTooLarge { at } => counted_line(
            alloc,
            "pipeline refused: ",
            "literal too large at ",
            at as u64,
        ),
        SqlRefusal::Unexpected { at } => {
            counted_line(alloc, "pipeline refused: ", "unexpected at ", at as u64)
        }
        SqlRefusal::ExprTooLong { at } => counted_line(
            alloc,
            "pipeline refused: ",
            "expression too long at ",
            at as u64,
        ),
        SqlRefusal::Memory => Ok(Vec::new(alloc)),
    }
}

/// The line that is printed of why a run ends, with its LF: nothing where the output failed or memory ran out, since
/// no line can be relied on there. Names and texts are printed as strings of a table are. `Err` for want of memory
/// alone.
pub fn message_line(alloc: Global, refusal: &Refusal) -> Result<Vec<u8>, AllocError>
    ensures { IfOk result (λ line. line.items ≡ spec.message_of refusal.now) }
{
    match refusal {
        Refusal::Usage => plain_line(
            alloc,
            "usage: PIPELINE STORE LANDING COMMAND [then COMMAND]...",
        ),
        Refusal::TextFailed => plain_line(alloc, "text failed"),
        Refusal::Unread(refusal) => unread_line(alloc, *refusal),
        Refusal::Unchecked(refusal) => unchecked_line(alloc, refusal),
        Refusal::NotBuilt { statement } => not_built_line(alloc, *statement),
        Refusal::Unloaded(refusal) => unloaded_line(alloc, refusal),
        Refusal::Unplanned(end) => unplanned_line(alloc, end),
        Refusal::Unfit { name } => store_name_line(alloc, "unfit ", name),
        Refusal::Uncommitted(end) => uncommitted_line(alloc, end),
        Refusal::UnknownTable { name } => store_name_line(alloc, "unknown table ", name),
        Refusal::NoVersion {
            name,
            asked,
            base,
            now,
        } => no_version_line(alloc, name, *asked, *base, *now),
        Refusal::SinkFailed | Refusal::Memory => Ok(Vec::new(alloc)),
    }
}

/// The line of a store that was compacted into a log of this epoch, with its LF. `Err` for want of memory alone.
pub fn compacted_line(alloc: Global, epoch: u64) -> Result<Vec<u8>, AllocError>
    ensures { IfOk result (λ line. line.items ≡ spec.compacted_line epoch) }
{
    counted_line(alloc, "compacted: ", "epoch ", epoch)
}
