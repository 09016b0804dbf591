// A payload is committed.
ghost use Rattle.std.specs.Prelude.{◌≡◌, ◌≢◌, ◌≤◌, ◌+◌, ℕ, None, length, OnOk, OnErr, IfOk};
ghost use Rattle.disk_model.specs.Disk.{IsHonest, other};
ghost use Rattle.commit_gate.specs.AtRest.{LeavesFile};
ghost use Rattle.commit_payloads.specs.Payloads.{spelled_payload, HasSpelling, IsWritable};
ghost use Rattle.log_pair.specs.AtRest.{pair_side, pair_epoch, pair_end};
ghost use Rattle.state_model.specs.After.{after_payload};
ghost use Rattle.state_model.specs.Follows.{Fits};
ghost use Rattle.pair_store.specs.Prepare.{VersionAnswers, IsPrepared};
ghost use Rattle.pair_store.specs.declared.ends.CommitEnd.TheVariants.{Failed};

use crate::ends::CommitEnd;
use crate::store::Store;
use commit_gate::{AppendEnd, Framed};
use commit_payloads::{Payload, write};
use disk_model::Disk;
use payload_rules::full_version;
use std::alloc::{AllocError, Global};
use store_tables::{Contents, Undo};

// The bytes of a payload's record.
pub(crate) fn framed(alloc: Global, payload: &Payload) -> Result<Framed, AllocError>
    requires { IsWritable payload.now }
    ensures bytes { IfOk result (λ framed. framed ≡ spelled_payload payload.now) }
    ensures spelling { OnOk result (HasSpelling payload.now) }
{
    let bytes = write(alloc, payload)?;
    Framed::new(alloc, &bytes)
}

// No version would pass the limit.
fn check_versions(alloc: Global, contents: &Contents, payload: &Payload) -> Result<(), CommitEnd>
    ensures { VersionAnswers contents.now payload.now result }
{
    match full_version(contents, payload) {
        None => Ok(()),
        Some(name) => Err(CommitEnd::VersionFull {
            name: name.copy(alloc)?,
        }),
    }
}

// Takes a payload in memory, with the bytes of its record and what takes it back.
fn prepare(
    alloc: Global,
    contents: &mut Contents,
    payload: Payload,
) -> Result<(Framed, Undo), CommitEnd>
    requires form { IsWritable payload }
    requires fits { Fits contents.old payload }
    ensures ok { IfOk result (λ both. IsPrepared contents.old contents.new payload both.0 both.1) }
    ensures err { OnErr result (contents.new ≡ contents.old) }
    ensures answers { VersionAnswers contents.old payload result }
{
    check_versions(alloc, contents, &payload)?;
    let framed = framed(alloc, &payload)?;
    let undo = contents.put(payload)?;
    Ok((framed, undo))
}

impl Store {
    ghost use Rattle.pair_state.specs.Leads.{IsReachable};
    ghost use Rattle.pair_state.specs.Ours.{IsOursPair};
    ghost use Rattle.pair_store.specs.Commit.{PayloadAnswers, broken_by};
    ghost use Rattle.pair_store.specs.GoesOn.{PairGoesOn};
    ghost use Rattle.pair_store.specs.Next.{ReachesNext, ReachesNextByGate};
    ghost use Rattle.pair_store.specs.Store.{store_state, store_pair, store_broken, AreAsLeft};

    /// Commits a payload: at `Ok` the store holds it, and from then on whatever a crash leaves has it.
    ///
    /// After any other answer the store holds what it held. `Full`, `VersionFull` and `Memory` come
    /// before the first call of the disk. After `Failed` the payload may be in the file or not: the
    /// store is broken then, and answers so until it is loaded anew.
    pub fn commit<D: Disk>(&mut self, disk: &mut D, payload: Payload) -> Result<(), CommitEnd>
        // Both files are as this store left them.
        requires at_rest { D.tells → store_broken self.old ≡ None → AreAsLeft self.old (D.state disk.old) }
        // The payload follows what the store holds, the limit of versions left aside.
        requires form { store_broken self.old ≡ None → IsWritable payload }
        requires fits { store_broken self.old ≡ None → Fits (store_state self.old) payload }

        // Each answer has its cause.
        ensures answers { PayloadAnswers self.old payload (D.room disk.old) (D.faults disk.old) (D.faults disk.new) result }

        ensures state { OnOk result (store_state self.new ≡ after_payload (store_state self.old) payload) }
        ensures reached { IsReachable (store_state self.old) → IsReachable (store_state self.new) }
        ensures err { OnErr result (store_state self.new ≡ store_state self.old) }
        ensures broken { store_broken self.new ≡ broken_by result }

        // But for `Failed` no error changes anything, and a broken store changes nothing.
        ensures early { ((count : ℕ) → result ≢ Err (Failed count)) → OnErr result ((self.new ≡ self.old) × (disk.new ≡ disk.old)) }
        ensures was_broken { store_broken self.old ≢ None → (self.new ≡ self.old) × (disk.new ≡ disk.old) }

        ensures at_rest { D.tells → IsHonest (D.state disk.old) → store_broken self.new ≡ None → AreAsLeft self.new (D.state disk.new) }
        ensures commits { D.tells → IsHonest (D.state disk.old) → store_broken self.old ≡ None → ReachesNext (store_state self.old) (after_payload (store_state self.old) payload) result (D.state disk.old) (D.state disk.new) }
        // The third call writes the gate.
        ensures by_gate { D.tells → D.tells_moments → IsHonest (D.state disk.old) → store_broken self.old ≡ None → ReachesNextByGate 2 (store_state self.old) (after_payload (store_state self.old) payload) result (D.state disk.old) (D.state disk.new) }
        ensures ours { D.tells → IsHonest (D.state disk.old) → IsOursPair (D.state disk.old) → IsOursPair (D.state disk.new) }

        // All that the log has stays in front.
        ensures goes_on { D.tells → IsHonest (D.state disk.old) → store_broken self.old ≡ None → PairGoesOn D.tells_moments (pair_side (store_pair self.old)) (pair_end (store_pair self.old)) (D.state disk.old) (D.state disk.new) }
        // It keeps its file and its epoch, and the next record will stand behind this one.
        ensures same_log { (pair_side (store_pair self.new) ≡ pair_side (store_pair self.old)) × (pair_epoch (store_pair self.new) ≡ pair_epoch (store_pair self.old)) }
        ensures grows { D.tells → IsHonest (D.state disk.old) → OnOk result (pair_end (store_pair self.new) ≡ pair_end (store_pair self.old) + 9 + length (spelled_payload payload)) }
        // The other file stays as it is.
        ensures kept { D.tells → IsHonest (D.state disk.old) → LeavesFile (other (pair_side (store_pair self.old))) (D.state disk.old) (D.state disk.new) }

        ensures later { D.faults disk.old ≤ D.faults disk.new }
        ensures room { D.room disk.new ≡ D.room disk.old }
    {
        if let Some(count) = self.broken {
            return Err(CommitEnd::Failed { count });
        }
        let (framed, undo) = prepare(self.alloc, &mut self.contents, payload)?;
        match self.pair.append(disk, &framed) {
            Ok(()) => Ok(()),
            Err(AppendEnd::Full { end, room }) => {
                self.contents.undo(undo);
                Err(CommitEnd::Full { end, room })
            }
            Err(AppendEnd::Failed) => {
                self.contents.undo(undo);
                let count = disk.faults();
                self.broken = Some(count);
                Err(CommitEnd::Failed { count })
            }
        }
    }
}
