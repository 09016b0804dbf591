// A payload is committed.
ghost use Rattle.std.specs.Prelude.{◌≡◌, ◌≢◌, ◌≤◌, ◌+◌, ℕ, None, length, OnOk, OnErr, IfOk, IfErr};
ghost use Rattle.disk_model.specs.declared.disk.Side.TheVariants.{Right};
ghost use Rattle.disk_model.specs.Disk.{IsHonest};
ghost use Rattle.commit_gate.specs.AtRest.{log_end, LeavesFile};
ghost use Rattle.commit_records.specs.Payloads.{spelled_payload, HasSpelling, IsWritable};
ghost use Rattle.store_state.specs.State.{after_payload, Fits, IsNext};
ghost use Rattle.store_core.specs.Prepare.{VersionAnswers, IsPrepared};
ghost use Rattle.store_core.specs.Spared.{LogGoesOn};
ghost use Rattle.store_core.specs.declared.commit.CommitEnd.TheVariants.{Failed, Memory};

use crate::store::Store;
use commit_gate::{AppendEnd, Framed};
use commit_records::{Payload, write};
use disk_model::Disk;
use std::alloc::{AllocError, Global};
use store_state::{Contents, Undo};
use value_core::Name;

/// Why a payload was not committed.
#[derive(Debug, Drop)]
pub enum CommitEnd {
    /// The disk failed, now or in an earlier commit: its count of faults was `count` then.
    Failed { count: u64 },
    /// The file would end at `end`, beyond its room.
    Full { end: u64, room: u64 },
    /// A dataset that the payload gives a version stands at the last one, 2^62.
    VersionFull { name: Name },
    /// The log's number is the last one. No commit answers so.
    EpochFull { epoch: u64 },
    /// There was no memory.
    Memory,
}

impl From<AllocError> for CommitEnd {
    ghost from_gives = { λ _ e. e ≡ Memory };

    fn from(_: AllocError) -> CommitEnd {
        CommitEnd::Memory
    }
}

// The bytes of a payload's record.
fn framed(alloc: Global, payload: &Payload) -> Result<Framed, AllocError>
    requires { IsWritable payload.now }
    ensures bytes { IfOk result (λ framed. framed ≡ spelled_payload payload.now) }
    ensures spelling { OnOk result (HasSpelling payload.now) }
{
    let bytes = write(alloc, payload)?;
    Framed::new(alloc, &bytes)
}

// No version would pass the limit.
fn check_versions(alloc: Global, contents: &Contents, payload: &Payload) -> Result<(), CommitEnd>
    requires { Fits contents.now payload.now }
    ensures { VersionAnswers contents.now payload.now result }
{
    match contents.full_version(payload) {
        None => Ok(()),
        Some(name) => Err(CommitEnd::VersionFull {
            name: name.copy(alloc)?,
        }),
    }
}

// Takes a payload in memory, with the bytes of its record and what takes it back.
fn prepare(
    alloc: Global,
    contents: &mut Contents,
    payload: Payload,
) -> Result<(Framed, Undo), CommitEnd>
    requires { IsNext contents.old payload }
    ensures ok { IfOk result (λ both. IsPrepared contents.old contents.new payload both.0 both.1) }
    ensures err { OnErr result (contents.new ≡ contents.old) }
    ensures answers { VersionAnswers contents.old payload result }
{
    check_versions(alloc, contents, &payload)?;
    let framed = framed(alloc, &payload)?;
    let undo = contents.put(payload)?;
    Ok((framed, undo))
}

impl Store {
    ghost use Rattle.store_core.specs.Commit.{CommitAnswers, broken_by, Commits, CommitsByGate};
    ghost use Rattle.store_core.specs.Ours.{IsOurs};
    ghost use Rattle.store_core.specs.Reach.{IsReachable};
    ghost use Rattle.store_core.specs.Store.{store_state, store_log, store_broken, IsAsLeft};

    /// Commits a payload: at `Ok` the store holds it, and from then on whatever a crash leaves has it.
    ///
    /// After any other answer the store holds what it held. `Full`, `VersionFull` and `Memory` come
    /// before the first call of the disk. After `Failed` the payload may be in the file or not: the
    /// store is broken then, and answers so until it is loaded anew.
    pub fn commit<D: Disk>(&mut self, disk: &mut D, payload: Payload) -> Result<(), CommitEnd>
        // The left file is as this store left it.
        requires at_rest { D.tells → store_broken self.old ≡ None → IsAsLeft self.old (D.state disk.old) }
        // The payload follows what the store holds, the limit of versions left aside.
        requires next { store_broken self.old ≡ None → IsNext (store_state self.old) payload }

        // Each answer has its cause.
        ensures answers { CommitAnswers self.old payload (D.room disk.old) (D.faults disk.old) (D.faults disk.new) result }

        ensures state { OnOk result (store_state self.new ≡ after_payload (store_state self.old) payload) }
        ensures reached { OnOk result (IsReachable (store_state self.old) → IsReachable (store_state self.new)) }
        ensures err { OnErr result (store_state self.new ≡ store_state self.old) }
        ensures broken { store_broken self.new ≡ broken_by result }

        // But for `Failed` no error changes anything, and a broken store changes nothing.
        ensures early { ((count : ℕ) → result ≢ Err (Failed count)) → OnErr result ((self.new ≡ self.old) × (disk.new ≡ disk.old)) }
        ensures was_broken { store_broken self.old ≢ None → (self.new ≡ self.old) × (disk.new ≡ disk.old) }

        ensures at_rest { D.tells → IsHonest (D.state disk.old) → store_broken self.new ≡ None → IsAsLeft self.new (D.state disk.new) }
        ensures commits { D.tells → IsHonest (D.state disk.old) → store_broken self.old ≡ None → Commits (store_state self.old) payload result (D.state disk.old) (D.state disk.new) }
        ensures by_gate { D.tells → D.tells_moments → IsHonest (D.state disk.old) → store_broken self.old ≡ None → CommitsByGate (store_state self.old) payload result (D.state disk.old) (D.state disk.new) }
        ensures ours { D.tells → IsHonest (D.state disk.old) → IsOurs (D.state disk.old) → IsOurs (D.state disk.new) }

        // All that the log has stays in front, its number too.
        ensures goes_on { D.tells → IsHonest (D.state disk.old) → store_broken self.old ≡ None → LogGoesOn D.tells_moments (log_end (store_log self.old)) (D.state disk.old) (D.state disk.new) }
        // The next record will stand behind this one.
        ensures grows { D.tells → IsHonest (D.state disk.old) → OnOk result (log_end (store_log self.new) ≡ log_end (store_log self.old) + 9 + length (spelled_payload payload)) }

        // The right file stays as it is.
        ensures kept { D.tells → IsHonest (D.state disk.old) → LeavesFile Right (D.state disk.old) (D.state disk.new) }

        ensures later { D.faults disk.old ≤ D.faults disk.new }
        ensures room { D.room disk.new ≡ D.room disk.old }
    {
        if let Some(count) = self.broken {
            return Err(CommitEnd::Failed { count });
        }
        let (framed, undo) = prepare(self.alloc, &mut self.contents, payload)?;
        match self.log.append(disk, &framed) {
            Ok(()) => Ok(()),
            Err(AppendEnd::Full { end, room }) => {
                self.contents.undo(undo);
                Err(CommitEnd::Full { end, room })
            }
            Err(AppendEnd::Failed) => {
                self.contents.undo(undo);
                let count = disk.faults();
                self.broken = Some(count);
                Err(CommitEnd::Failed { count })
            }
        }
    }
}
