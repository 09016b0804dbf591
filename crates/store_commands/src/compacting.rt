// A store is compacted.
ghost use Rattle.std.specs.Prelude.{◌≡◌, ◌≤◌, None, IfErr};
ghost use Rattle.disk_model.specs.Disk.{IsHonest};
ghost use Rattle.disk_model.specs.Faults.{HasCauseOf};
ghost use Rattle.log_pair.specs.AtRest.{pair_epoch};
ghost use Rattle.pair_state.specs.Leads.{IsReachable};
ghost use Rattle.pair_store.specs.Store.{AreAsLeft, store_broken, store_pair, store_state};
ghost use Rattle.message_text.specs.Messages.{compacted_line as the_line};
ghost use Rattle.command_ends.specs.Ends.{Blames, HasCome, Printed, status_by, succeeded};
ghost use Rattle.command_ends.specs.Loads.{HasTold};
ghost use Rattle.store_commands.specs.Commands.{Compacts};
ghost use Rattle.store_commands.specs.Folding.{HasFolded, refusal_by};

use command_ends::{load_store, print};
use commit_trails::{
    a_compaction_leaves_a_trail, a_load_leads_a_trail, nothing_tried_leaves_a_trail,
};
use disk_model::{Disk, Sink};
use message_text::{Refusal, compacted_line};
use pair_store::{CommitEnd, Store};
use std::alloc::Global;
use std::sync::ledger::Ledger;
use value_core::Steps;

// Why the command ends where the store isn't folded.
fn refusal_of(end: CommitEnd) -> Refusal
    ensures { result ≡ refusal_by end }
{
    match end {
        CommitEnd::Memory => Refusal::Memory,
        end => Refusal::Uncommitted(end),
    }
}

// Tells the epoch of the new log.
fn tell<S: Sink>(alloc: Global, epoch: u64, out: &mut S) -> Result<(), Refusal>
    ensures told { HasTold (succeeded result) }
    ensures printed { S.tells → Printed (status_by (succeeded result)) (the_line epoch) (S.written out.old) (S.written out.new) }
    ensures cause { HasCauseOf Refusal.SinkFailed (S.faults out.old) (S.faults out.new) result }
{
    match compacted_line(alloc, epoch) {
        Ok(line) => print(out, line.as_slice()),
        Err(_) => Err(Refusal::Memory),
    }
}

// Folds a store that was loaded, and tells it.
fn fold<D: Disk, S: Sink, K: Ledger>(
    alloc: Global,
    store: Store,
    disk: &mut D,
    out: &mut S,
    steps: &mut Steps<K>,
) -> Result<(), Refusal>
    requires at_rest { D.tells → AreAsLeft store (D.state disk.old) }
    requires whole { store_broken store ≡ None }
    requires reached { IsReachable (store_state store) }
    requires honest { D.tells → IsHonest (D.state disk.old) }

    ensures folded { D.tells → HasFolded D.tells_moments S.tells (D.room disk.old) (store_state store) (pair_epoch (store_pair store)) (succeeded result) (D.state disk.old) (D.state disk.new) (S.written out.old) (S.written out.new) }
    ensures room { D.room disk.new ≡ D.room disk.old }

    ensures blames { IfErr result (Blames (record { text = 0; disk = D.faults disk.old; sink = S.faults out.old }) (record { text = 0; disk = D.faults disk.new; sink = S.faults out.new })) }
    ensures disk_later { D.faults disk.old ≤ D.faults disk.new }
    ensures sink_later { S.faults out.old ≤ S.faults out.new }
{
    nothing_tried_leaves_a_trail::<D>();
    a_compaction_leaves_a_trail::<D>();
    let mut store = store;
    match store.compact(disk, steps) {
        Ok(epoch) => tell(alloc, epoch, out),
        Err(end) => Err(refusal_of(end)),
    }
}

/// Folds the store into its other file, without the versions at which no flow or view stands, and prints
/// the epoch of the new log.
///
/// `Unloaded` comes where the store is refused. `Uncommitted` says why it was not folded: the epochs are
/// full, the new log would have no room, or the disk failed, after which the store may be folded or not.
/// `SinkFailed` comes where the output failed: then it is folded.
pub fn compact<D: Disk, S: Sink, K: Ledger>(
    alloc: Global,
    disk: &mut D,
    out: &mut S,
    steps: &mut Steps<K>,
) -> Result<(), Refusal>
    requires honest { D.tells → IsHonest (D.state disk.old) }

    // What it came to, what a crash leaves, and what it printed.
    ensures comes { D.tells → HasCome D.tells_moments S.tells (Compacts (D.room disk.old) (D.state disk.old).now) (succeeded result) (D.state disk.old) (D.state disk.new) (S.written out.old) (S.written out.new) }

    ensures honest { D.tells → IsHonest (D.state disk.new) }
    ensures room { D.room disk.new ≡ D.room disk.old }

    // Over any devices: an end that blames one comes only where its count of faults rose, and no count falls.
    ensures blames { IfErr result (Blames (record { text = 0; disk = D.faults disk.old; sink = S.faults out.old }) (record { text = 0; disk = D.faults disk.new; sink = S.faults out.new })) }
    ensures disk_later { D.faults disk.old ≤ D.faults disk.new }
    ensures sink_later { S.faults out.old ≤ S.faults out.new }
{
    a_load_leads_a_trail::<D>();
    match load_store(alloc, disk, steps) {
        Ok(store) => fold(alloc, store, disk, out, steps),
        Err(why) => Err(why),
    }
}
