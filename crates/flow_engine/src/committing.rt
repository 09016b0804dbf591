// One commit of an update.
ghost use Rattle.std.specs.Prelude.{◌≡◌, ◌≢◌, ◌≤◌, ℕ, Err, None, OnOk};
ghost use Rattle.disk_model.specs.Disk.{IsHonest};
ghost use Rattle.disk_model.specs.Faults.{Rose};
ghost use Rattle.commit_payloads.specs.Payloads.{IsWritable};
ghost use Rattle.pair_state.specs.Leads.{IsReachable};
ghost use Rattle.pair_store.specs.Store.{AreAsLeft, store_broken, store_state};
ghost use Rattle.state_model.specs.After.{after_payload};
ghost use Rattle.state_model.specs.Follows.{Fits};
ghost use Rattle.flow_engine.specs.Commits.{HasCommitted, end_of};
ghost use Rattle.flow_engine.specs.Ends.{CommitEnds};
ghost use Rattle.flow_engine.specs.declared.ends.End.TheVariants.{Disk};

use crate::ends::End;
use commit_payloads::Payload;
use commit_trails::{a_commit_leaves_a_trail, nothing_tried_leaves_a_trail};
use disk_model::Disk;
use pair_store::{CommitEnd, Store};

/// Commits a payload to a store that is whole. At `Ok` the store holds it, and from then on whatever a
/// crash leaves has it.
///
/// `Full`, `VersionFull` and `Memory` come before the disk is called, and `VersionFull` is judged before
/// `Full`. `Disk` comes only where the disk's count of faults rose: the payload may be in the log or not.
/// `Sink` never comes. After an `End` the store is given up.
pub fn commit<D: Disk>(store: &mut Store, disk: &mut D, payload: Payload) -> Result<(), End>
    requires whole { store_broken store.old ≡ None }
    requires at_rest { D.tells → AreAsLeft store.old (D.state disk.old) }
    requires form { IsWritable payload }
    requires fits { Fits (store_state store.old) payload }

    // Each end has its cause.
    ensures ends { CommitEnds (store_state store.old) (end_of store.old) (D.room disk.old) payload result }
    // What a crash leaves, and the store behind it.
    ensures commits { D.tells → IsHonest (D.state disk.old) → HasCommitted D.tells_moments (D.room disk.old) payload store.old store.new result (D.state disk.old) (D.state disk.new) }

    ensures state { OnOk result (store_state store.new ≡ after_payload (store_state store.old) payload) }
    ensures reached { IsReachable (store_state store.old) → IsReachable (store_state store.new) }
    ensures still_whole { OnOk result (store_broken store.new ≡ None) }
    ensures still_at_rest { D.tells → IsHonest (D.state disk.old) → OnOk result (AreAsLeft store.new (D.state disk.new)) }
    ensures honest { D.tells → IsHonest (D.state disk.old) → IsHonest (D.state disk.new) }

    ensures fault { (count : ℕ) → result ≡ Err (Disk count) → Rose (D.faults disk.old) (D.faults disk.new) × (count ≡ D.faults disk.new) }
    ensures later { D.faults disk.old ≤ D.faults disk.new }
    ensures room { D.room disk.new ≡ D.room disk.old }
{
    nothing_tried_leaves_a_trail::<D>();
    a_commit_leaves_a_trail::<D>();
    match store.commit(disk, payload) {
        Ok(()) => Ok(()),
        Err(CommitEnd::Failed { count }) => Err(End::Disk { count }),
        Err(CommitEnd::Full { end, room }) => Err(End::Full { end, room }),
        Err(CommitEnd::VersionFull { name }) => Err(End::VersionFull { name }),
        Err(CommitEnd::EpochFull { .. }) => unreachable!(),
        Err(CommitEnd::Memory) => Err(End::Memory),
    }
}
