// Stores that are refused.
ghost use Rattle.std.specs.Prelude.{◌≡◌, ◌++◌, IfOk, OnOk};
ghost use Rattle.std.specs.Fmt.{decimal};
ghost use Rattle.report_text.specs.Words.{print_word};
ghost use Rattle.message_text.specs.Messages as spec;

use crate::lines::{counted_line, named_line, plain_line};
use disk_model::Side;
use pair_store::{CommitEnd, StoreRefusal};
use report_text::{put, put_counted, put_named};
use std::alloc::{AllocError, Global};
use update_plan::PlanEnd;
use value_core::{Name, Text};

fn side_word(side: Side) -> &'static str
    ensures { result.now ≡ spec.side_word side }
{
    match side {
        Side::Left => "left",
        Side::Right => "right",
    }
}

/// Puts a text, and then a side.
fn put_side(out: &mut Vec<u8>, wrong: &str, side: Side) -> Result<(), AllocError>
    ensures { OnOk result (out.new.items ≡ out.old.items ++ (wrong.now ++ spec.side_word side)) }
{
    put(out, wrong)?;
    put(out, side_word(side))
}

/// The line of the file of a side, with a number.
fn side_line(
    alloc: Global,
    wrong: &str,
    side: Side,
    before: &str,
    number: u64,
) -> Result<Vec<u8>, AllocError>
    ensures { IfOk result (λ line. line.items ≡ spec.store_refused (spec.side_text wrong.now side before.now number)) }
{
    let mut line = Vec::new(alloc);
    put(&mut line, "store refused: ")?;
    put_side(&mut line, wrong, side)?;
    put_counted(alloc, &mut line, before, number)?;
    line.push(b'\n')?;
    Ok(line)
}

/// The line of a log that would end beyond the room of its file.
fn full_line(alloc: Global, end: u64, room: u64) -> Result<Vec<u8>, AllocError>
    ensures { IfOk result (λ line. line.items ≡ spec.store_refused (spec.full_text end room)) }
{
    let mut line = Vec::new(alloc);
    put(&mut line, "store refused: ")?;
    put_counted(alloc, &mut line, "full: end ", end)?;
    put_counted(alloc, &mut line, ", room ", room)?;
    line.push(b'\n')?;
    Ok(line)
}

fn put_changed(
    out: &mut Vec<u8>,
    name: &Name,
    stored: &Text,
    given: &Text,
) -> Result<(), AllocError>
    ensures { OnOk result (out.new.items ≡ out.old.items ++ spec.changed_text name.now stored.now given.now) }
{
    put_named(out, "changed ", name.as_str())?;
    put_named(out, ": stored ", stored.as_str())?;
    put_named(out, ", given ", given.as_str())
}

/// The line of a dataset whose stored text isn't the given one.
fn changed_line(
    alloc: Global,
    name: &Name,
    stored: &Text,
    given: &Text,
) -> Result<Vec<u8>, AllocError>
    ensures { IfOk result (λ line. line.items ≡ spec.store_refused (spec.changed_text name.now stored.now given.now)) }
{
    let mut line = Vec::new(alloc);
    put(&mut line, "store refused: ")?;
    put_changed(&mut line, name, stored, given)?;
    line.push(b'\n')?;
    Ok(line)
}

/// The line of a dataset that stands at the last version.
fn versions_line(alloc: Global, name: &Name) -> Result<Vec<u8>, AllocError>
    ensures { IfOk result (λ line. line.items ≡ spec.store_refused (spec.versions_text name.now)) }
{
    let mut line = Vec::new(alloc);
    put(&mut line, "store refused: ")?;
    put_named(&mut line, "versions of ", name.as_str())?;
    put(&mut line, " are full")?;
    line.push(b'\n')?;
    Ok(line)
}

fn put_asked(alloc: Global, out: &mut Vec<u8>, name: &Name, asked: u64) -> Result<(), AllocError>
    ensures { OnOk result (out.new.items ≡ out.old.items ++ spec.asked_text name.now asked) }
{
    put_counted(alloc, out, "no version ", asked)?;
    put_named(out, " of ", name.as_str())
}

fn put_kept(alloc: Global, out: &mut Vec<u8>, base: u64, newest: u64) -> Result<(), AllocError>
    ensures { OnOk result (out.new.items ≡ out.old.items ++ spec.kept_text base newest) }
{
    put_counted(alloc, out, ", kept ", base)?;
    put_counted(alloc, out, " to ", newest)
}

/// The line of a version of a dataset that isn't kept.
pub(crate) fn no_version_line(
    alloc: Global,
    name: &Name,
    asked: u64,
    base: u64,
    newest: u64,
) -> Result<Vec<u8>, AllocError>
    ensures { IfOk result (λ line. line.items ≡ spec.store_refused (spec.no_version_text name.now asked base newest)) }
{
    let mut line = Vec::new(alloc);
    put(&mut line, "store refused: ")?;
    put_asked(alloc, &mut line, name, asked)?;
    put_kept(alloc, &mut line, base, newest)?;
    line.push(b'\n')?;
    Ok(line)
}

/// The line of a word and a name.
pub(crate) fn store_name_line(alloc: Global, word: &str, name: &Name) -> Result<Vec<u8>, AllocError>
    ensures { IfOk result (λ line. line.items ≡ spec.store_names word.now name.now) }
{
    named_line(alloc, "store refused: ", word, name.as_str())
}

/// The line of a store that isn't loaded.
pub(crate) fn unloaded_line(alloc: Global, refusal: &StoreRefusal) -> Result<Vec<u8>, AllocError>
    ensures { IfOk result (λ line. line.items ≡ spec.unloaded_line refusal.now) }
{
    match refusal {
        StoreRefusal::Foreign { side, len } => side_line(alloc, "foreign ", *side, " ", *len),
        StoreRefusal::Damaged { side, at } => side_line(alloc, "damaged ", *side, " at ", *at),
        StoreRefusal::SameEpoch { epoch } => {
            counted_line(alloc, "store refused: ", "both logs have epoch ", *epoch)
        }
        StoreRefusal::Full { end, room } => full_line(alloc, *end, *room),
        StoreRefusal::Failed => plain_line(alloc, "disk failed"),
        StoreRefusal::Memory => Ok(Vec::new(alloc)),
    }
}

/// The line of an update that isn't begun.
pub(crate) fn unplanned_line(alloc: Global, end: &PlanEnd) -> Result<Vec<u8>, AllocError>
    ensures { IfOk result (λ line. line.items ≡ spec.unplanned_line end.now) }
{
    match end {
        PlanEnd::Changed {
            name,
            stored,
            given,
        } => changed_line(alloc, name, stored, given),
        PlanEnd::Removed { name } => store_name_line(alloc, "removed ", name),
        PlanEnd::UnknownTable { name } => store_name_line(alloc, "unknown table ", name),
        PlanEnd::Memory => Ok(Vec::new(alloc)),
    }
}

/// The line of a payload that isn't committed, or of a store that isn't compacted.
pub(crate) fn uncommitted_line(alloc: Global, end: &CommitEnd) -> Result<Vec<u8>, AllocError>
    ensures { IfOk result (λ line. line.items ≡ spec.uncommitted_line end.now) }
{
    match end {
        CommitEnd::Failed { .. } => plain_line(alloc, "disk failed"),
        CommitEnd::Full { end, room } => full_line(alloc, *end, *room),
        CommitEnd::VersionFull { name } => versions_line(alloc, name),
        CommitEnd::EpochFull { .. } => plain_line(alloc, "store refused: epochs are full"),
        CommitEnd::Memory => Ok(Vec::new(alloc)),
    }
}
