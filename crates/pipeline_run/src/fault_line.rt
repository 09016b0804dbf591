// What is printed of a check that statements break.
ghost use Rattle.std.specs.Prelude.{◌≡◌, ◌++◌, IfOk, OnOk};
ghost use Rattle.pipeline_run.specs.Escape.{ended, escaped};
ghost use Rattle.pipeline_run.specs.PlanLines.{broken_line as the_broken_line, fault_text};
ghost use Rattle.pipeline_run.specs.Report.{refused};

use crate::escape::{put, put_escaped};
use std::alloc::{AllocError, Global};
use type_check::CheckFault;

fn put_named(out: &mut Vec<u8>, words: &str, name: &str) -> Result<(), AllocError>
    ensures { OnOk result (out.new.items ≡ out.old.items ++ (words.now ++ escaped name.now)) }
{
    put(out, words)?;
    put_escaped(out, name)
}

fn put_fault(alloc: Global, out: &mut Vec<u8>, fault: &CheckFault) -> Result<(), AllocError>
    ensures { OnOk result (out.new.items ≡ out.old.items ++ fault_text fault.now) }
{
    match fault {
        CheckFault::NotYet => put(out, "not yet supported"),
        CheckFault::Duplicate { name } => put_named(out, "duplicate ", name.as_str()),
        CheckFault::TooMany { count } => {
            let limit = format!(in alloc; "too many: {count}")?;
            put(out, limit.as_str())
        }
        CheckFault::NotStreaming { name } => put_named(out, "not streaming ", name.as_str()),
        CheckFault::BadOption { word } => put_named(out, "bad option ", word.as_str()),
        CheckFault::AggregateInStream => put(out, "aggregate in stream"),
        CheckFault::UnknownName { name } => put_named(out, "unknown name ", name.as_str()),
        CheckFault::SchemaDiffers { name } => put_named(out, "schema differs at ", name.as_str()),
    }
}

/// The line of a check that the statement of this number, from 1, breaks.
pub(crate) fn broken_line(
    alloc: Global,
    statement: u32,
    fault: &CheckFault,
) -> Result<Vec<u8>, AllocError>
    ensures { IfOk result (λ line. line.items ≡ ended (refused (the_broken_line statement fault.now))) }
{
    let mut line = format!(in alloc; "pipeline refused: statement {statement}: ")?.into_bytes();
    put_fault(alloc, &mut line, fault)?;
    line.push(b'\n')?;
    Ok(line)
}
