// A table is shown.
ghost use Rattle.std.specs.Prelude.{◌≡◌, ◌⊎◌, ◌≤◌, IfErr, IfOk, OnOk, find};
ghost use Rattle.std.specs.Option.{option_copied};
ghost use Rattle.disk_model.specs.Disk.{IsHonest};
ghost use Rattle.table_versions.specs.Versions.{IsKept, content_at, now_of};
ghost use Rattle.state_model.specs.Dataset.{Dataset, dataset_of, is_defined};
ghost use Rattle.pair_store.specs.Store.{store_state};
ghost use Rattle.report_text.specs.Rows.{print_table};
ghost use Rattle.message_text.specs.declared.refusal.Refusal.TheVariants.{Memory, NoVersion, UnknownTable};
ghost use Rattle.command_ends.specs.Ends.{Blames, HasCome, succeeded};
ghost use Rattle.store_commands.specs.Commands.{Shows, version_asked};
ghost use Rattle.store_commands.specs.Shown.{HasNoText, IsTextOf};

use command_ends::{load_store, print};
use commit_payloads::Definition;
use commit_trails::{a_load_leads_a_trail, nothing_tried_leaves_a_trail};
use disk_model::{Disk, Sink};
use message_text::Refusal;
use pair_store::Store;
use report_text::table_text;
use std::alloc::Global;
use std::sync::ledger::Ledger;
use table_versions::{Table, VersionEnd};
use value_core::{Name, Steps};

// The definition of a name. `None` exactly where there is none.
fn defined<'a>(definitions: &'a [Definition], name: &Name) -> Option<&'a Definition>
    ensures { option_copied result ≡ find (is_defined name.now) definitions.now }
{
    definitions
        .iter()
        .find(|definition| definition.name.is_same(name))
}

// That no dataset has a name.
fn unknown(alloc: Global, name: &Name) -> Refusal
    ensures { (result ≡ Memory) ⊎ (result ≡ UnknownTable name.now) }
{
    match name.copy(alloc) {
        Ok(name) => Refusal::UnknownTable { name },
        Err(_) => Refusal::Memory,
    }
}

// That a version of a dataset isn't kept.
fn not_kept(alloc: Global, name: &Name, asked: u64, base: u64, now: u64) -> Refusal
    ensures { (result ≡ Memory) ⊎ (result ≡ NoVersion name.now asked base now) }
{
    match name.copy(alloc) {
        Ok(name) => Refusal::NoVersion {
            name,
            asked,
            base,
            now,
        },
        Err(_) => Refusal::Memory,
    }
}

// The version that is asked for, and the last one where none is named.
fn version_or_last(version: Option<u64>, table: &Table) -> u64
    ensures { (dataset : Dataset) → dataset.table ≡ table.now → result ≡ version_asked version dataset }
{
    match version {
        Some(version) => version,
        None => table.now(),
    }
}

// The text of a table at a version.
fn text_at<K: Ledger>(
    alloc: Global,
    definition: &Definition,
    table: &Table,
    version: u64,
    steps: &mut Steps<K>,
) -> Result<Vec<u8>, Refusal>
    ensures kept { OnOk result (IsKept table.now version) }
    ensures text { IfOk result (λ text. text.items ≡ print_table definition.now.columns (content_at table.now version)) }
    ensures refused { IfErr result (λ why. (why ≡ Memory) ⊎ ((IsKept table.now version → ⊥) × (why ≡ NoVersion definition.now.name version table.now.base (now_of table.now)))) }
{
    match table.content(alloc, version, steps) {
        Ok(rows) => Ok(table_text(alloc, &definition.columns, &rows)?),
        Err(VersionEnd::NoVersion { asked, base, now }) => {
            Err(not_kept(alloc, &definition.name, asked, base, now))
        }
        Err(VersionEnd::Memory) => Err(Refusal::Memory),
    }
}

// The text of the dataset of a name.
fn text_of<K: Ledger>(
    alloc: Global,
    store: &Store,
    name: &Name,
    version: Option<u64>,
    steps: &mut Steps<K>,
) -> Result<Vec<u8>, Refusal>
    ensures text { IfOk result (λ text. IsTextOf version (dataset_of (store_state store.now) name.now) text.items) }
    ensures refused { IfErr result (HasNoText name.now version (dataset_of (store_state store.now) name.now)) }
{
    let Some(definition) = defined(store.definitions().as_slice(), name) else {
        return Err(unknown(alloc, name));
    };
    let Some(table) = store.table(name) else {
        return Err(unknown(alloc, name));
    };
    text_at(
        alloc,
        definition,
        table,
        version_or_last(version, table),
        steps,
    )
}

/// Prints the dataset of a name as of a version, or as of its last one: the names of its columns, and then
/// its rows in row order.
///
/// `Unloaded` comes where the store is refused, `UnknownTable` where no dataset has the name, with the name
/// as it was given, and `NoVersion` where the version is below the first that is kept or above the last,
/// with the name as it is stored. `SinkFailed` comes where the output failed. Nothing is committed.
pub fn show<D: Disk, S: Sink, K: Ledger>(
    alloc: Global,
    name: &Name,
    version: Option<u64>,
    disk: &mut D,
    out: &mut S,
    steps: &mut Steps<K>,
) -> Result<(), Refusal>
    requires honest { D.tells → IsHonest (D.state disk.old) }

    // What it came to, what a crash leaves, and what it printed.
    ensures comes { D.tells → HasCome D.tells_moments S.tells (Shows (D.room disk.old) name.now version (D.state disk.old).now) (succeeded result) (D.state disk.old) (D.state disk.new) (S.written out.old) (S.written out.new) }

    ensures honest { D.tells → IsHonest (D.state disk.new) }
    ensures room { D.room disk.new ≡ D.room disk.old }

    // Over any devices: an end that blames one comes only where its count of faults rose, and no count falls.
    ensures blames { IfErr result (Blames (record { text = 0; disk = D.faults disk.old; sink = S.faults out.old }) (record { text = 0; disk = D.faults disk.new; sink = S.faults out.new })) }
    ensures disk_later { D.faults disk.old ≤ D.faults disk.new }
    ensures sink_later { S.faults out.old ≤ S.faults out.new }
{
    nothing_tried_leaves_a_trail::<D>();
    a_load_leads_a_trail::<D>();
    match load_store(alloc, disk, steps) {
        Ok(store) => match text_of(alloc, &store, name, version, steps) {
            Ok(text) => print(out, text.as_slice()),
            Err(why) => Err(why),
        },
        Err(unloaded) => Err(unloaded),
    }
}
