// How far the flows and views of a store have read a dataset.
ghost use Rattle.std.specs.Prelude.{◌≡◌, option_to_list};
ghost use Rattle.state_model.specs.Saved.{least_of, read_version, readers_of, versions_read};
ghost use Rattle.store_folding.specs.Folding.{base_due};
ghost use Rattle.table_versions.specs.Versions.{IsKept};

use commit_payloads::{StoredFlow, StoredOrigin};
use store_tables::Contents;
use table_versions::Table;
use value_core::{Cursor, Name};

/// The version at which a flow over this origin stands in the dataset of a name, where it reads that one and has begun.
fn version_read(name: &Name, origin: &StoredOrigin, cursor: &Cursor) -> Option<u64>
    ensures { result ≡ read_version name.now origin.now cursor.now }
{
    let StoredOrigin::Table(source) = origin else {
        return None;
    };
    let Cursor::At(version) = cursor else {
        return None;
    };
    if source.is_same(name) {
        return Some(*version);
    }
    None
}

/// The lesser of two versions, where there is a second one.
fn lower(least: u64, version: Option<u64>) -> u64
    ensures { result ≡ least_of least (option_to_list version) }
{
    match version {
        Some(version) => least.min(version),
        None => least,
    }
}

/// The least of a version and those at which these flows stand in the dataset of a name.
fn least_of_flows(name: &Name, flows: &[StoredFlow], cursors: &[Cursor], least: u64) -> u64
    ensures { result ≡ least_of least (versions_read name.now flows.now cursors.now) }
{
    let mut rest = cursors;
    let mut now = least;
    for flow in flows {
        let Some((cursor, more)) = rest.split_first() else {
            return now;
        };
        now = lower(now, version_read(name, &flow.origin, cursor));
        rest = more;
    }
    now
}

/// The least of a version and those at which the flows and views of a store stand in the dataset of a name.
fn least_reader(contents: &Contents, name: &Name, least: u64) -> u64
    ensures { result ≡ least_of least (readers_of contents.now name.now) }
{
    let mut now = least;
    for (place, reader) in contents.definitions().as_slice().iter().enumerate() {
        if let Some(cursors) = contents.cursors_at(place) {
            now = least_of_flows(name, reader.flows.as_slice(), cursors, now);
        }
    }
    now
}

/// The version at which the base of a table of this name is to stand, which is one that is kept.
pub(crate) fn base_of(contents: &Contents, name: &Name, table: &Table) -> u64
    ensures due { result ≡ base_due contents.now name.now table.now }
    ensures kept { IsKept table.now result }
{
    let least = least_reader(contents, name, table.now());
    table.base().max(least)
}
