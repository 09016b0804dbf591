// An update from the loaded store on.
ghost use Rattle.std.specs.Prelude.{◌≡◌, ◌≤◌, None, Some, IsTrue};
ghost use Rattle.disk_model.specs.declared.disk.Side.TheVariants.{Right};
ghost use Rattle.disk_model.specs.Disk.{IsHonest};
ghost use Rattle.disk_model.specs.Faults.{Rose};
ghost use Rattle.commit_gate.specs.AtRest.{log_end, LeavesFile};
ghost use Rattle.store_core.specs.Ours.{IsOurs};
ghost use Rattle.store_core.specs.Reach.{IsReachable};
ghost use Rattle.store_core.specs.Spared.{LogGoesOn};
ghost use Rattle.store_core.specs.Store.{store_state, store_log, store_broken, IsAsLeft};
ghost use Rattle.table_update.specs.Commit.{UpdateRan, IsOfRun};
ghost use Rattle.table_update.specs.Table.{is_sound};

use crate::commit::commit;
use crate::end::UpdateEnd;
use crate::flow::flow;
use crate::judge::judge;
use crate::table::AppendTable;
use disk_model::Disk;
use landing_core::Landing;
use std::alloc::Global;
use store_core::Store;

/// Defines the table where the store has no dataset yet, and takes in what is new in its folder.
pub(crate) fn run<D: Disk, L: Landing>(
    alloc: Global,
    disk: &mut D,
    landing: &mut L,
    table: &AppendTable,
    store: &mut Store,
) -> UpdateEnd
    requires at_rest { D.tells → IsAsLeft store.old (D.state disk.old) }
    requires whole { store_broken store.old ≡ None }
    requires reached { IsReachable (store_state store.old) }
    requires honest { D.tells → IsHonest (D.state disk.old) }
    requires sound { IsTrue (is_sound table.now) }

    ensures ran { D.tells → L.tells → IsHonest (D.state disk.old) → UpdateRan D.tells_moments (Some table.now) (L.present landing.old) (D.room disk.old) (log_end (store_log store.old)) (store_state store.old) result store.new (D.state disk.old) (D.state disk.new) }
    ensures honest { D.tells → IsHonest (D.state disk.old) → IsHonest (D.state disk.new) }
    ensures ours { D.tells → IsHonest (D.state disk.old) → IsOurs (D.state disk.old) → IsOurs (D.state disk.new) }
    ensures goes_on { D.tells → IsHonest (D.state disk.old) → LogGoesOn D.tells_moments (log_end (store_log store.old)) (D.state disk.old) (D.state disk.new) }
    ensures kept { D.tells → IsHonest (D.state disk.old) → LeavesFile Right (D.state disk.old) (D.state disk.new) }
    ensures present { L.tells → L.present landing.new ≡ L.present landing.old }
    ensures ever { L.tells → L.ever landing.new ≡ L.ever landing.old }
    ensures own { IsOfRun result }
    ensures commit_fault { result ≡ UpdateEnd.CommitFailed → Rose (D.faults disk.old) (D.faults disk.new) }
    ensures landing_fault { result ≡ UpdateEnd.LandingFailed → Rose (L.faults landing.old) (L.faults landing.new) }
    ensures disk_later { D.faults disk.old ≤ D.faults disk.new }
    ensures landing_later { L.faults landing.old ≤ L.faults landing.new }
    ensures room { D.room disk.new ≡ D.room disk.old }
{
    let define = match judge(alloc, table, store) {
        Ok(define) => define,
        Err(end) => return end,
    };
    if !store.definitions().is_empty() {
        return flow(alloc, disk, landing, table, store);
    }
    match commit(store, disk, define) {
        Ok(()) => flow(alloc, disk, landing, table, store),
        Err(end) => end,
    }
}
