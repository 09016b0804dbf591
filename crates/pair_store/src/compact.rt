// A store is folded into the other file.
ghost use Rattle.std.specs.Prelude.{◌≡◌, ◌≢◌, ◌≤◌, ◌+◌, ◌∷◌, [], ℕ, None, Some, OnOk, OnErr, IfOk};
ghost use Rattle.disk_model.specs.Disk.{IsHonest, file, other};
ghost use Rattle.commit_gate.specs.AtRest.{LeavesFile};
ghost use Rattle.commit_gate.specs.Fill.{new_log};
ghost use Rattle.log_pair.specs.AtRest.{pair_side, pair_epoch};
ghost use Rattle.log_pair.specs.Switch.{calls_before_gate};
ghost use Rattle.state_model.specs.Saved.{compacted};
ghost use Rattle.pair_state.specs.Leads.{IsReachable};
ghost use Rattle.pair_store.specs.Compact.{IsFolded, base_body};
ghost use Rattle.pair_store.specs.declared.ends.CommitEnd.TheVariants.{Failed};

use crate::commit::framed;
use crate::ends::CommitEnd;
use crate::store::Store;
use commit_gate::Framed;
use disk_model::Disk;
use log_pair::SwitchEnd;
use std::alloc::{AllocError, Global};
use std::sync::ledger::Ledger;
use store_folding::fold;
use store_tables::Contents;
use value_core::Steps;

// What the contents fold to, in memory and as the record of its base.
fn folded<L: Ledger>(
    alloc: Global,
    contents: &Contents,
    steps: &mut Steps<L>,
) -> Result<(Framed, Contents), AllocError>
    requires { IsReachable contents.now }
    ensures { IfOk result (λ both. IsFolded contents.now both.0 both.1) }
{
    let base = fold(alloc, contents, steps)?;
    let record = framed(alloc, &base)?;
    let mut anew = Contents::new(alloc);
    anew.put(base)?;
    Ok((record, anew))
}

impl Store {
    ghost use Rattle.pair_state.specs.Ours.{IsOursPair};
    ghost use Rattle.pair_store.specs.Next.{ReachesNext, ReachesNextByGate};
    ghost use Rattle.pair_store.specs.Commit.{broken_by};
    ghost use Rattle.pair_store.specs.Compact.{CompactAnswers};
    ghost use Rattle.pair_store.specs.Store.{store_state, store_pair, store_broken, AreAsLeft};

    /// Folds the versions away at which no flow or view stands, writes what is left as the base of a new log
    /// in the other file, and answers the epoch of that log. From then on whatever a crash leaves has the
    /// folded state.
    ///
    /// After any other answer the store holds what it held. `EpochFull`, where the epoch is the last one,
    /// `Full` and `Memory` come before the first call of the disk, and `EpochFull` is judged before `Full`.
    /// After `Failed` the disk may hold the folded state or that from before: the store is broken then, and
    /// answers so until it is loaded anew. The looks that the folding takes are counted.
    pub fn compact<D: Disk, L: Ledger>(
        &mut self,
        disk: &mut D,
        steps: &mut Steps<L>,
    ) -> Result<u64, CommitEnd>
        // Both files are as this store left them.
        requires at_rest { D.tells → store_broken self.old ≡ None → AreAsLeft self.old (D.state disk.old) }
        // The store came of payloads, as each store that was loaded does.
        requires reached { store_broken self.old ≡ None → IsReachable (store_state self.old) }

        // Each answer has its cause.
        ensures answers { CompactAnswers self.old (D.room disk.old) (D.faults disk.old) (D.faults disk.new) result }

        ensures state { OnOk result (store_state self.new ≡ compacted (store_state self.old)) }
        ensures reached { IsReachable (store_state self.old) → IsReachable (store_state self.new) }
        ensures err { OnErr result (store_state self.new ≡ store_state self.old) }
        ensures broken { store_broken self.new ≡ broken_by result }

        // But for `Failed` no error changes anything, and a broken store changes nothing.
        ensures early { ((count : ℕ) → result ≢ Err (Failed count)) → OnErr result ((self.new ≡ self.old) × (disk.new ≡ disk.old)) }
        ensures was_broken { store_broken self.old ≢ None → (self.new ≡ self.old) × (disk.new ≡ disk.old) }

        ensures at_rest { D.tells → IsHonest (D.state disk.old) → store_broken self.new ≡ None → AreAsLeft self.new (D.state disk.new) }
        ensures compacts { D.tells → IsHonest (D.state disk.old) → store_broken self.old ≡ None → ReachesNext (store_state self.old) (compacted (store_state self.old)) result (D.state disk.old) (D.state disk.new) }
        // The other file is shut first, and the new log is put behind its closed gate.
        ensures by_gate { D.tells → D.tells_moments → IsHonest (D.state disk.old) → store_broken self.old ≡ None
            → ReachesNextByGate (calls_before_gate (store_pair self.old) (D.state disk.old).now) (store_state self.old) (compacted (store_state self.old)) result (D.state disk.old) (D.state disk.new) }
        ensures ours { D.tells → IsHonest (D.state disk.old) → IsOursPair (D.state disk.old) → IsOursPair (D.state disk.new) }

        // The new log stands in the other file, with the base and no byte more.
        ensures turned { OnOk result ((pair_side (store_pair self.new) ≡ other (pair_side (store_pair self.old))) × (pair_epoch (store_pair self.new) ≡ pair_epoch (store_pair self.old) + 1)) }
        ensures written { D.tells → IsHonest (D.state disk.old) → OnOk result (file (other (pair_side (store_pair self.old))) (D.state disk.new).now ≡ new_log (pair_epoch (store_pair self.old) + 1) (Some (base_body (store_state self.old)))) }
        // The old log's file stays as it is.
        ensures kept { D.tells → IsHonest (D.state disk.old) → LeavesFile (pair_side (store_pair self.old)) (D.state disk.old) (D.state disk.new) }

        ensures later { D.faults disk.old ≤ D.faults disk.new }
        ensures room { D.room disk.new ≡ D.room disk.old }
    {
        if let Some(count) = self.broken {
            return Err(CommitEnd::Failed { count });
        }
        let (base, anew) = folded(self.alloc, &self.contents, steps)?;
        match self.pair.switch(disk, &base) {
            Ok(epoch) => {
                self.contents = anew;
                Ok(epoch)
            }
            Err(SwitchEnd::EpochFull { epoch }) => Err(CommitEnd::EpochFull { epoch }),
            Err(SwitchEnd::Full { end, room }) => Err(CommitEnd::Full { end, room }),
            Err(SwitchEnd::Failed) => {
                let count = disk.faults();
                self.broken = Some(count);
                Err(CommitEnd::Failed { count })
            }
        }
    }
}
