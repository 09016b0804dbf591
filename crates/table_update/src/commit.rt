// One commit of an update.
ghost use Rattle.std.specs.Prelude.{◌≡◌, ◌≤◌, ◌+◌, None, Err, length, OnOk, OnErr};
ghost use Rattle.disk_model.specs.declared.disk.Side.TheVariants.{Right};
ghost use Rattle.disk_model.specs.Disk.{IsHonest};
ghost use Rattle.disk_model.specs.Faults.{Rose};
ghost use Rattle.commit_gate.specs.AtRest.{log_end, LeavesFile};
ghost use Rattle.store_state.specs.State.{after_payload, IsNext};
ghost use Rattle.store_core.specs.Ours.{IsOurs};
ghost use Rattle.store_core.specs.Reach.{IsReachable};
ghost use Rattle.store_core.specs.Spared.{LogGoesOn};
ghost use Rattle.store_core.specs.Store.{store_state, store_log, store_broken, IsAsLeft};
ghost use Rattle.table_update.specs.Commit as spec;
ghost use Rattle.table_update.specs.Commit.{CommitEnds, IsCommitEnd, Stores, acked_by, tried_by};
ghost use Rattle.table_update.specs.Flow.{behind};
ghost use Rattle.table_update.specs.declared.end.UpdateEnd.TheVariants.{CommitFailed};

use crate::end::UpdateEnd;
use commit_records::Payload;
use disk_model::Disk;
use store_core::{CommitEnd, Store};

/// A commit's error as the end of the update.
fn end_of_commit(end: CommitEnd) -> UpdateEnd
    requires { IsCommitEnd end }
    ensures { result ≡ spec.end_of_commit end }
{
    match end {
        CommitEnd::Failed { .. } => UpdateEnd::CommitFailed,
        CommitEnd::Full { end, room } => UpdateEnd::Full { end, room },
        CommitEnd::VersionFull { name } => UpdateEnd::VersionFull { name },
        CommitEnd::EpochFull { .. } => unreachable!(),
        CommitEnd::Memory => UpdateEnd::Memory,
    }
}

/// Commits a payload to a store that is whole. An error is the end of the update.
pub(crate) fn commit<D: Disk>(
    store: &mut Store,
    disk: &mut D,
    payload: Payload,
) -> Result<(), UpdateEnd>
    requires at_rest { D.tells → IsAsLeft store.old (D.state disk.old) }
    requires whole { store_broken store.old ≡ None }
    requires next { IsNext (store_state store.old) payload }

    ensures answers { CommitEnds (store_state store.old) (D.room disk.old) (log_end (store_log store.old)) payload result }
    ensures state { OnOk result (store_state store.new ≡ after_payload (store_state store.old) payload) }
    ensures still_whole { OnOk result (store_broken store.new ≡ None) }
    ensures reached { OnOk result (IsReachable (store_state store.old) → IsReachable (store_state store.new)) }
    ensures grows { D.tells → IsHonest (D.state disk.old) → OnOk result (log_end (store_log store.new) ≡ behind (log_end (store_log store.old)) payload) }
    ensures at_rest { D.tells → IsHonest (D.state disk.old) → OnOk result (IsAsLeft store.new (D.state disk.new)) }

    ensures stores { D.tells → IsHonest (D.state disk.old) → Stores D.tells_moments (store_state store.old) (acked_by payload result) (tried_by payload result) (D.state disk.old) (D.state disk.new) }
    ensures honest { D.tells → IsHonest (D.state disk.old) → IsHonest (D.state disk.new) }
    ensures ours { D.tells → IsHonest (D.state disk.old) → IsOurs (D.state disk.old) → IsOurs (D.state disk.new) }
    ensures goes_on { D.tells → IsHonest (D.state disk.old) → LogGoesOn D.tells_moments (log_end (store_log store.old)) (D.state disk.old) (D.state disk.new) }
    ensures kept { D.tells → IsHonest (D.state disk.old) → LeavesFile Right (D.state disk.old) (D.state disk.new) }

    ensures fault { result ≡ Err CommitFailed → Rose (D.faults disk.old) (D.faults disk.new) }
    ensures later { D.faults disk.old ≤ D.faults disk.new }
    ensures room { D.room disk.new ≡ D.room disk.old }
{
    store.commit(disk, payload).map_err(end_of_commit)
}
