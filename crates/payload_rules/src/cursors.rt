// How far the flows of a store may go.
ghost use Rattle.std.specs.Prelude.{◌↔◌, ◌≤◌, IsTrue, IsSomeAnd};
ghost use Rattle.std.specs.Option.{option_copied};
ghost use Rattle.value_core.specs.declared.cursor.Cursor.TheVariants.{At, Never};
ghost use Rattle.state_model.specs.Dataset.{cursor_of, dataset_of, flow_of};
ghost use Rattle.table_versions.specs.Versions.{now_of};
ghost use Rattle.state_model.specs.Follows.{FlowMoves, IsReached, MovesOn, VersionMoves};

use commit_payloads::{StoredFlow, StoredOrigin};
use payload_parts::{files_move, flow_named};
use store_tables::Contents;
use table_versions::Table;
use value_core::{Cursor, Name};

/// Whether a table has come to a version.
fn has_come_to(table: &Table, version: u64) -> bool
    ensures { IsTrue result ↔ (version ≤ now_of table.now) }
{
    version <= table.now()
}

/// Whether a dataset is there and has come to a version.
fn is_reached(contents: &Contents, source: &Name, version: u64) -> bool
    ensures { IsTrue result ↔ IsReached contents.now source.now version }
{
    match contents.table(source) {
        Some(table) => has_come_to(table, version),
        None => false,
    }
}

/// Whether a flow that had read nothing of its source may stand so.
fn version_begins(contents: &Contents, source: &Name, new: &Cursor) -> bool
    ensures { IsTrue result ↔ VersionMoves contents.now source.now Never new.now }
{
    match new {
        Cursor::Files(_) => false,
        Cursor::At(version) => is_reached(contents, source, *version),
        Cursor::Never => true,
    }
}

/// Whether a flow that had read up to a version of its source may stand so.
fn version_goes_on(contents: &Contents, source: &Name, old: u64, new: &Cursor) -> bool
    ensures { IsTrue result ↔ VersionMoves contents.now source.now (At old) new.now }
{
    match new {
        Cursor::Files(_) => false,
        Cursor::At(version) => old <= *version && is_reached(contents, source, *version),
        Cursor::Never => false,
    }
}

/// Whether a version doesn't fall, and its source has reached it.
fn version_moves(contents: &Contents, source: &Name, old: &Cursor, new: &Cursor) -> bool
    ensures { IsTrue result ↔ VersionMoves contents.now source.now old.now new.now }
{
    match old {
        Cursor::Files(_) => false,
        Cursor::At(version) => version_goes_on(contents, source, *version, new),
        Cursor::Never => version_begins(contents, source, new),
    }
}

/// Whether a cursor has the form of its flow's origin, and doesn't fall.
fn moves_on(contents: &Contents, origin: &StoredOrigin, old: &Cursor, new: &Cursor) -> bool
    ensures { IsTrue result ↔ MovesOn contents.now origin.now old.now new.now }
{
    match origin {
        StoredOrigin::Folder(_) => files_move(old, new),
        StoredOrigin::Table(source) => version_moves(contents, source, old, new),
    }
}

/// Whether a flow is there, and its cursor moves on.
fn goes_on(
    contents: &Contents,
    flow: Option<&StoredFlow>,
    old: Option<&Cursor>,
    new: &Cursor,
) -> bool
    ensures { IsTrue result ↔ FlowMoves contents.now (option_copied flow.entry) (option_copied old.entry) new.now }
{
    let Some(flow) = flow else {
        return false;
    };
    let Some(old) = old else {
        return false;
    };
    moves_on(contents, &flow.origin, old, new)
}

/// Whether a flow of a dataset is there, and goes on from where it was.
pub(crate) fn flow_moves(contents: &Contents, name: &Name, flow: &Name, new: &Cursor) -> bool
    ensures { IsTrue result ↔ IsSomeAnd (dataset_of contents.now name.now) (λ dataset. FlowMoves contents.now (flow_of dataset flow.now) (cursor_of dataset flow.now) new.now) }
{
    let Some(definition) = contents.definition(name) else {
        return false;
    };
    let found = flow_named(definition.flows.as_slice(), flow);
    let old = contents.cursor(name, flow);
    goes_on(contents, found, old, new)
}

/// Whether the flow of a dataset that has the dataset's own name is there, and goes on from where it was.
pub(crate) fn own_flow_moves(contents: &Contents, name: &Name, new: &Cursor) -> bool
    ensures { IsTrue result ↔ IsSomeAnd (dataset_of contents.now name.now) (λ dataset. FlowMoves contents.now (flow_of dataset dataset.definition.name) (cursor_of dataset dataset.definition.name) new.now) }
{
    let Some(definition) = contents.definition(name) else {
        return false;
    };
    let found = flow_named(definition.flows.as_slice(), &definition.name);
    let old = contents.cursor(name, &definition.name);
    goes_on(contents, found, old, new)
}
