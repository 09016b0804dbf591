// Checks that statements break.
ghost use Rattle.std.specs.Prelude.{◌≡◌, ◌++◌, IfOk, OnOk, codes};
ghost use Rattle.message_text.specs.Faults as spec;
ghost use Rattle.message_text.specs.Messages as messages;
ghost use Rattle.message_text.specs.Messages.{pipeline_refused};

use plan_check::CheckRefusal;
use report_text::{put, put_counted, put_named, put_word};
use statement_checks::{Break, CheckFault};
use std::alloc::{AllocError, Global};
use value_core::Name;

/// Puts which check is broken.
fn put_fault(alloc: Global, out: &mut Vec<u8>, fault: &CheckFault) -> Result<(), AllocError>
    ensures { OnOk result (out.new.items ≡ out.old.items ++ spec.fault_text fault.now) }
{
    match fault {
        CheckFault::Duplicate { name } => put_named(out, "duplicate ", name.as_str()),
        CheckFault::TooMany { count } => put_counted(alloc, out, "too many: ", *count as u64),
        CheckFault::UnknownName { name } => put_named(out, "unknown name ", name.as_str()),
        CheckFault::NotStreaming { name } => put_named(out, "not streaming ", name.as_str()),
        CheckFault::BadOption { word } => put_named(out, "bad option ", word.as_str()),
        CheckFault::NotBatch => put(out, "not batch"),
        CheckFault::StreamOfChanging => put(out, "stream of changing target"),
        CheckFault::MixedFlows => put(out, "mixed flows"),
        CheckFault::AggregateInStream => put(out, "aggregate in stream"),
        CheckFault::TypeMismatch => put(out, "type mismatch"),
        CheckFault::NotGrouped { item } => {
            put_counted(alloc, out, "not grouped: output ", *item as u64)
        }
        CheckFault::NoName { item } => put_counted(alloc, out, "no name: output ", *item as u64),
        CheckFault::KeyNotOutput { name } => put_named(out, "key not output ", name.as_str()),
        CheckFault::TruncateScd2 => put(out, "truncate with scd type 2"),
        CheckFault::StructSequence => put(out, "struct sequence with scd type 2"),
        CheckFault::SchemaDiffers { name } => put_named(out, "schema differs at ", name.as_str()),
        CheckFault::NoFlow { name } => put_named(out, "no flow ", name.as_str()),
    }
}

/// Puts a statement by its number, and a text of it.
fn put_statement(
    alloc: Global,
    out: &mut Vec<u8>,
    statement: u32,
    wrong: &str,
) -> Result<(), AllocError>
    ensures { OnOk result (out.new.items ≡ out.old.items ++ spec.statement_text statement wrong.now) }
{
    put_counted(alloc, out, "statement ", statement as u64)?;
    put(out, ": ")?;
    put(out, wrong)
}

fn put_break(alloc: Global, out: &mut Vec<u8>, found: &Break) -> Result<(), AllocError>
    ensures { OnOk result (out.new.items ≡ out.old.items ++ spec.break_text found.now) }
{
    put_counted(alloc, out, "statement ", found.statement as u64)?;
    put(out, ": ")?;
    put_fault(alloc, out, &found.fault)
}

/// The line of a check that a statement breaks.
fn break_line(alloc: Global, found: &Break) -> Result<Vec<u8>, AllocError>
    ensures { IfOk result (λ line. line.items ≡ pipeline_refused (spec.break_text found.now)) }
{
    let mut line = Vec::new(alloc);
    put(&mut line, "pipeline refused: ")?;
    put_break(alloc, &mut line, found)?;
    line.push(b'\n')?;
    Ok(line)
}

/// The line of a statement that an update can't run.
pub(crate) fn not_built_line(alloc: Global, statement: u32) -> Result<Vec<u8>, AllocError>
    ensures { IfOk result (λ line. line.items ≡ pipeline_refused (spec.statement_text statement (codes "not yet supported"))) }
{
    let mut line = Vec::new(alloc);
    put(&mut line, "pipeline refused: ")?;
    put_statement(alloc, &mut line, statement, "not yet supported")?;
    line.push(b'\n')?;
    Ok(line)
}

fn put_more_path(out: &mut Vec<u8>, names: &[Name]) -> Result<(), AllocError>
    ensures { OnOk result (out.new.items ≡ out.old.items ++ spec.more_path names.now) }
{
    for name in names {
        put_named(out, " -> ", name.as_str())?;
    }
    Ok(())
}

fn put_path(out: &mut Vec<u8>, names: &[Name]) -> Result<(), AllocError>
    ensures { OnOk result (out.new.items ≡ out.old.items ++ spec.path_text names.now) }
{
    let Some((first, more)) = names.split_first() else {
        return Ok(());
    };
    put_word(out, first.as_str())?;
    put_more_path(out, more)
}

/// The line of datasets that read one another in a cycle.
fn cycle_line(alloc: Global, path: &[Name]) -> Result<Vec<u8>, AllocError>
    ensures { IfOk result (λ line. line.items ≡ pipeline_refused (codes "cycle " ++ spec.path_text path.now)) }
{
    let mut line = Vec::new(alloc);
    put(&mut line, "pipeline refused: ")?;
    put(&mut line, "cycle ")?;
    put_path(&mut line, path)?;
    line.push(b'\n')?;
    Ok(line)
}

/// The line of statements that break a check, or have a cycle.
pub(crate) fn unchecked_line(alloc: Global, refusal: &CheckRefusal) -> Result<Vec<u8>, AllocError>
    ensures { IfOk result (λ line. line.items ≡ messages.unchecked_line refusal.now) }
{
    match refusal {
        CheckRefusal::Refused(found) => break_line(alloc, found),
        CheckRefusal::Cycle { path } => cycle_line(alloc, path.as_slice()),
        CheckRefusal::Memory => Ok(Vec::new(alloc)),
    }
}
