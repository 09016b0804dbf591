// What is printed of an update.
ghost use Rattle.std.specs.Prelude.{◌≡◌, ◌++◌, codes, IfOk};
ghost use Rattle.std.specs.Fmt.{decimal};
ghost use Rattle.std.specs.Option.{option_copied};
ghost use Rattle.pipeline_run.specs.Escape.{ended, escaped};
ghost use Rattle.pipeline_run.specs.Report.{changed_line as the_changed_line, flow_line as the_flow_line, printed_end, shrunk_text as the_shrunk_text, status_of_end, store_refused, versions_line as the_versions_line};

use crate::escape::{put, put_escaped};
use crate::outcome::Status;
use std::alloc::{AllocError, Global};
use table_update::UpdateEnd;
use value_core::{Name, Text};

/// A name, escaped, between two texts.
fn named(alloc: Global, before: &str, name: &str, behind: &str) -> Result<Vec<u8>, AllocError>
    ensures { IfOk result (λ line. line.items ≡ before.now ++ escaped name.now ++ behind.now) }
{
    let mut line = Vec::from_slice(alloc, before.as_bytes())?;
    put_escaped(&mut line, name)?;
    put(&mut line, behind)?;
    Ok(line)
}

/// The line of a table whose stored text isn't the given one.
fn changed_line(
    alloc: Global,
    name: &Name,
    stored: &Text,
    given: &Text,
) -> Result<Vec<u8>, AllocError>
    ensures { IfOk result (λ line. line.items ≡ ended (store_refused (the_changed_line name.now stored.now given.now))) }
{
    let mut line = named(alloc, "store refused: changed ", name.as_str(), ": stored ")?;
    put_escaped(&mut line, stored.as_str())?;
    put(&mut line, ", given ")?;
    put_escaped(&mut line, given.as_str())?;
    line.push(b'\n')?;
    Ok(line)
}

/// The line of a table that stands at the last version.
fn versions_full_line(alloc: Global, name: &Name) -> Result<Vec<u8>, AllocError>
    ensures { IfOk result (λ line. line.items ≡ ended (store_refused (the_versions_line name.now))) }
{
    let mut line = named(
        alloc,
        "store refused: versions of ",
        name.as_str(),
        " are full",
    )?;
    line.push(b'\n')?;
    Ok(line)
}

/// How the flow of a file ends that is shorter than its place.
fn shrunk_text(alloc: Global, file: &Text, cursor: u64, size: u64) -> Result<Vec<u8>, AllocError>
    ensures { IfOk result (λ text. text.items ≡ the_shrunk_text file.now cursor size) }
{
    let mut text = Vec::from_slice(alloc, b"stopped: file ")?;
    put_escaped(&mut text, file.as_str())?;
    let rest = format!(in alloc; " shrunk: cursor {cursor}, size {size}")?;
    put(&mut text, rest.as_str())?;
    Ok(text)
}

/// How a flow ends that took lines.
fn completed_text(alloc: Global, read: u64, version: u64) -> Result<Vec<u8>, AllocError>
    ensures { IfOk result (λ text. text.items ≡ codes "completed, " ++ decimal read ++ codes " rows read, version " ++ decimal version) }
{
    Ok(format!(in alloc; "completed, {read} rows read, version {version}")?.into_bytes())
}

/// How the flow of the table of this name ended, and nothing without a table.
fn flow_line(alloc: Global, table: Option<&Name>, text: &[u8]) -> Result<Vec<u8>, AllocError>
    ensures { IfOk result (λ line. line.items ≡ the_flow_line (option_copied table.entry) text.now) }
{
    let Some(name) = table else {
        return Ok(Vec::new(alloc));
    };
    let mut line = named(alloc, "flow ", name.as_str(), " into ")?;
    put_escaped(&mut line, name.as_str())?;
    put(&mut line, ": ")?;
    line.extend_from_slice(text)?;
    line.push(b'\n')?;
    Ok(line)
}

/// A line with no value in it.
pub(crate) fn plain(alloc: Global, line: &str) -> Result<Vec<u8>, AllocError>
    ensures { IfOk result (λ bytes. bytes.items ≡ line.now) }
{
    Vec::from_slice(alloc, line.as_bytes())
}

/// What is printed of an update of the table of this name, or of none: the line of its end, and nothing where
/// memory ran out, or where the line would be that of a flow and there is no table.
pub(crate) fn end_line(
    alloc: Global,
    table: Option<&Name>,
    end: &UpdateEnd,
) -> Result<Vec<u8>, AllocError>
    ensures { IfOk result (λ line. line.items ≡ printed_end (option_copied table.entry) end.now) }
{
    match end {
        UpdateEnd::LoadFailed | UpdateEnd::CommitFailed => plain(alloc, "disk failed\n"),
        UpdateEnd::Foreign { len } => Ok(format!(in alloc;
            "store refused: foreign left {len}\n"
        )?.into_bytes()),
        UpdateEnd::Damaged { at } => Ok(format!(in alloc;
            "store refused: damaged left at {at}\n"
        )?.into_bytes()),
        UpdateEnd::Removed { name } => {
            named(alloc, "store refused: removed ", name.as_str(), "\n")
        }
        UpdateEnd::Changed {
            name,
            stored,
            given,
        } => changed_line(alloc, name, stored, given),
        UpdateEnd::Unfit { name } => named(alloc, "store refused: unfit ", name.as_str(), "\n"),
        UpdateEnd::Full { end, room } => Ok(format!(in alloc;
            "store refused: full: end {end}, room {room}\n"
        )?.into_bytes()),
        UpdateEnd::VersionFull { name } => versions_full_line(alloc, name),
        UpdateEnd::LandingFailed => flow_line(alloc, table, b"stopped: landing failed"),
        UpdateEnd::Shrunk { file, cursor, size } => {
            let text = shrunk_text(alloc, file, *cursor, *size)?;
            flow_line(alloc, table, text.as_slice())
        }
        UpdateEnd::Current => flow_line(alloc, table, b"current"),
        UpdateEnd::Completed { read, version } => {
            let text = completed_text(alloc, *read, *version)?;
            flow_line(alloc, table, text.as_slice())
        }
        UpdateEnd::Memory => Ok(Vec::new(alloc)),
    }
}

/// The status of an update.
pub(crate) fn end_status(end: &UpdateEnd) -> Status
    ensures { result ≡ status_of_end end.now }
{
    match end {
        UpdateEnd::LoadFailed | UpdateEnd::CommitFailed => Status::Disk,
        UpdateEnd::Foreign { .. }
        | UpdateEnd::Damaged { .. }
        | UpdateEnd::Removed { .. }
        | UpdateEnd::Changed { .. }
        | UpdateEnd::Unfit { .. }
        | UpdateEnd::Full { .. }
        | UpdateEnd::VersionFull { .. } => Status::Store,
        UpdateEnd::LandingFailed | UpdateEnd::Shrunk { .. } => Status::Stopped,
        UpdateEnd::Current | UpdateEnd::Completed { .. } => Status::Ok,
        UpdateEnd::Memory => Status::Memory,
    }
}
