// One update.
ghost use Rattle.std.specs.Prelude.{◌≡◌, ◌≤◌, ℕ, List, None, Some, IsTrue};
ghost use Rattle.std.specs.Option.{option_copied};
ghost use Rattle.disk_model.specs.declared.disk.Side.TheVariants.{Left, Right};
ghost use Rattle.disk_model.specs.Disk.{IsHonest, file};
ghost use Rattle.disk_model.specs.Faults.{Rose};
ghost use Rattle.commit_gate.specs.AtRest.{log_end, LeavesFile};
ghost use Rattle.landing_core.specs.Folders.{HoldsPresent};
ghost use Rattle.store_core.specs.Ours.{IsOurs};
ghost use Rattle.store_core.specs.Reach.{IsLogEnd, IsReachable};
ghost use Rattle.store_core.specs.Spared.{IsRefusedFile, IsSpared, LogGoesOn};
ghost use Rattle.store_core.specs.Store.{store_state, store_log, store_broken, IsAsLeft};
ghost use Rattle.table_update.specs.Commit.{UpdateRan, IsOfRun};
ghost use Rattle.table_update.specs.Crash.{Updated};
ghost use Rattle.table_update.specs.Stands.{IsFor, IsStanding};
ghost use Rattle.table_update.specs.Table.{is_sound_plan};
ghost use Rattle.table_update.specs.Update as spec;

use crate::end::UpdateEnd;
use crate::nothing::nothing;
use crate::run::run;
use crate::table::AppendTable;
use disk_model::Disk;
use landing_core::Landing;
use std::alloc::Global;
use store_core::{Store, StoreRefusal};

/// Why the store was not loaded, as the end of an update.
fn end_of_load(refusal: StoreRefusal) -> UpdateEnd
    ensures { result ≡ spec.end_of_load refusal }
{
    match refusal {
        StoreRefusal::Foreign { len, .. } => UpdateEnd::Foreign { len },
        StoreRefusal::Damaged { at, .. } => UpdateEnd::Damaged { at },
        StoreRefusal::Full { end, room } => UpdateEnd::Full { end, room },
        StoreRefusal::Failed => UpdateEnd::LoadFailed,
        StoreRefusal::Memory => UpdateEnd::Memory,
    }
}

/// An update once its store is loaded.
fn go_on<D: Disk, L: Landing>(
    alloc: Global,
    disk: &mut D,
    landing: &mut L,
    table: Option<&AppendTable>,
    store: &mut Store,
) -> UpdateEnd
    requires at_rest { D.tells → IsAsLeft store.old (D.state disk.old) }
    requires whole { store_broken store.old ≡ None }
    requires reached { IsReachable (store_state store.old) }
    requires honest { D.tells → IsHonest (D.state disk.old) }
    requires sound { IsTrue (is_sound_plan (option_copied table)) }

    ensures ran { D.tells → L.tells → IsHonest (D.state disk.old) → UpdateRan D.tells_moments (option_copied table.entry) (L.present landing.old) (D.room disk.old) (log_end (store_log store.old)) (store_state store.old) result store.new (D.state disk.old) (D.state disk.new) }
    ensures honest { D.tells → IsHonest (D.state disk.old) → IsHonest (D.state disk.new) }
    ensures ours { D.tells → IsHonest (D.state disk.old) → IsOurs (D.state disk.old) → IsOurs (D.state disk.new) }
    ensures goes_on { D.tells → IsHonest (D.state disk.old) → LogGoesOn D.tells_moments (log_end (store_log store.old)) (D.state disk.old) (D.state disk.new) }
    ensures kept { D.tells → IsHonest (D.state disk.old) → LeavesFile Right (D.state disk.old) (D.state disk.new) }
    ensures present { L.tells → L.present landing.new ≡ L.present landing.old }
    ensures ever { L.tells → L.ever landing.new ≡ L.ever landing.old }
    ensures own { IsOfRun result }
    ensures shrunk_of { (file : List ℕ) (cursor size : ℕ) → result ≡ UpdateEnd.Shrunk file cursor size → (given : AppendTable) × (option_copied table.entry ≡ Some given) }
    ensures commit_fault { result ≡ UpdateEnd.CommitFailed → Rose (D.faults disk.old) (D.faults disk.new) }
    ensures landing_fault { result ≡ UpdateEnd.LandingFailed → Rose (L.faults landing.old) (L.faults landing.new) }
    ensures disk_later { D.faults disk.old ≤ D.faults disk.new }
    ensures landing_later { L.faults landing.old ≤ L.faults landing.new }
    ensures room { D.room disk.new ≡ D.room disk.old }
{
    match table {
        Some(table) => run(alloc, disk, landing, table, store),
        None => nothing(alloc, store),
    }
}

/// One update of a pipeline that has this append table, or none: loads the store, defines the table where
/// the store has no dataset yet, and takes in the complete lines of its folder that are new, in one
/// commit. Without a table there is nothing new.
///
/// A store that holds another dataset, or this table by another text, is refused and stays as it is. So
/// does one where the flow stops: a file is shorter than how far it was read, the landing failed, the
/// batch has no room, or nothing is new. Lines that were taken are not taken again, whatever their files
/// become (Databricks documentation, Streaming tables).
///
/// A file that is no store's, that is damaged, or that has no room for its first log stays as it is, byte
/// for byte, and a live log keeps its number and all that it has.
///
/// Whatever a crash leaves, at any moment, is the store as it was with a front of the update's one or two
/// commits, and with each that was acknowledged. The disk reads what one of its images holds at first.
pub fn update<D: Disk, L: Landing>(
    alloc: Global,
    disk: &mut D,
    landing: &mut L,
    table: Option<&AppendTable>,
) -> UpdateEnd
    requires honest { D.tells → IsHonest (D.state disk.old) }
    // A column that keeps rescued lines is a STRING, and the table takes columns that lines have, of their kinds.
    requires sound { IsTrue (is_sound_plan (option_copied table)) }

    // How it ended, which payloads it committed, and what a crash leaves.
    ensures updated { D.tells → L.tells → Updated D.tells_moments (option_copied table.entry) (record { bytes = (D.state disk.old).now.left; room = D.room disk.old; landing = L.present landing.old }) result (D.state disk.old) (D.state disk.new) }
    // A file that is no store's, is damaged or has no room for its first log is spared, whatever the end,
    // and so is one that is refused by it.
    ensures spared { D.tells → IsRefusedFile (D.room disk.old) (file Left (D.state disk.old).now) → IsSpared D.tells_moments (D.state disk.old) (D.state disk.new) }
    ensures refused { D.tells → L.tells → spec.IsStoreRefused result → IsSpared D.tells_moments (D.state disk.old) (D.state disk.new) }
    // All that a live log has stays in front, its number too.
    ensures goes_on { D.tells → (at : ℕ) → IsLogEnd at (file Left (D.state disk.old).now) → LogGoesOn D.tells_moments at (D.state disk.old) (D.state disk.new) }

    // A store of this kind stays one, whatever a crash leaves.
    ensures ours { D.tells → IsOurs (D.state disk.old) → IsOurs (D.state disk.new) }

    // Where whatever a crash leaves of the store stood as it should, so it does after the update.
    ensures stands { D.tells → L.tells → HoldsPresent (L.present landing.old) (L.ever landing.old) → (asked : AppendTable) → IsFor (option_copied table.entry) asked → IsStanding asked (L.ever landing.old) (D.state disk.old) → IsStanding asked (L.ever landing.old) (D.state disk.new) }

    // What an update leaves alone.
    ensures honest { D.tells → IsHonest (D.state disk.new) }
    ensures kept { D.tells → LeavesFile Right (D.state disk.old) (D.state disk.new) }
    ensures room { D.room disk.new ≡ D.room disk.old }
    ensures present { L.tells → L.present landing.new ≡ L.present landing.old }
    ensures ever { L.tells → L.ever landing.new ≡ L.ever landing.old }

    // Over any devices: no count falls, and an end that blames a device comes only where its count rose.
    ensures disk_later { D.faults disk.old ≤ D.faults disk.new }
    ensures landing_later { L.faults landing.old ≤ L.faults landing.new }
    ensures load_fault { result ≡ UpdateEnd.LoadFailed → Rose (D.faults disk.old) (D.faults disk.new) }
    ensures commit_fault { result ≡ UpdateEnd.CommitFailed → Rose (D.faults disk.old) (D.faults disk.new) }
    ensures landing_fault { result ≡ UpdateEnd.LandingFailed → Rose (L.faults landing.old) (L.faults landing.new) }
    // Over any devices: without a table no flow stops.
    ensures shrunk_of { (file : List ℕ) (cursor size : ℕ) → result ≡ UpdateEnd.Shrunk file cursor size → (given : AppendTable) × (option_copied table.entry ≡ Some given) }
{
    match Store::load(alloc, disk) {
        Ok(mut store) => go_on(alloc, disk, landing, table, &mut store),
        Err(refusal) => end_of_load(refusal),
    }
}
