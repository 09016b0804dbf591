// A store is loaded.
ghost use Rattle.std.specs.Prelude.{◌≡◌, ◌≢◌, ◌<◌, ◌≤◌, ◌^◌, ℕ, None, length, IfOk, OnErr};
ghost use Rattle.disk_model.specs.declared.disk.Side.TheVariants.{Left, Right};
ghost use Rattle.disk_model.specs.Disk.{TwoFiles, Alone, IsHonest, file};
ghost use Rattle.disk_model.specs.Faults.{HasCauseOf};
ghost use Rattle.disk_model.specs.Moments.{LeavesOnly};
ghost use Rattle.commit_gate.specs.AtRest.{log_end, log_epoch, LeavesFile};
ghost use Rattle.commit_gate.specs.Log.{IsLive};
ghost use Rattle.store_core.specs.Begin.{KeepsSynced, Loads};
ghost use Rattle.store_core.specs.Reach.{EndsAt, IsReachable};
ghost use Rattle.store_core.specs.State.{HasState, IsBegun, KeepsState};
ghost use Rattle.store_core.specs.Ours.{IsOurs};
ghost use Rattle.store_core.specs.Spared.{IsSpared, MayBegin};

use crate::begin::begin;
use crate::bodies::contents_of;
use crate::refusal::StoreRefusal;
use crate::store::Store;
use commit_gate::{Found, Log};
use disk_model::{Disk, Side};
use std::alloc::Global;
use store_state::Contents;

impl Store {
    ghost use Rattle.store_core.specs.Load.{LoadAnswers, LoadIsExact};
    ghost use Rattle.store_core.specs.Store.{store_state, store_log, store_broken, IsAsLeft};

    /// Loads the store of the left file. Where there is no log yet it makes one, which is empty.
    ///
    /// It begins with a sync, so the state that it answers is on the disk. A file that it refuses, or that
    /// has a live log, stays as it is, byte for byte. The right file is not touched.
    pub fn load<D: Disk>(alloc: Global, disk: &mut D) -> Result<Store, StoreRefusal>
        // Each answer has its cause, and each cause its answer.
        ensures answers { D.tells → LoadAnswers (D.room disk.old) (file Left (D.state disk.old).now) result }
        ensures exact { D.tells → LoadIsExact (D.room disk.old) (file Left (D.state disk.old).now) result }

        // Whatever the disk tells, the state is one that payloads lead to.
        ensures reached { IfOk result (λ store. IsReachable (store_state store)) }
        // The next record will stand where the file ends.
        ensures ends { D.tells → IsHonest (D.state disk.old) → IfOk result (λ store. EndsAt (log_end (store_log store)) (file Left (D.state disk.old).now)) }
        // It reads a file of at most 2^40 bytes.
        ensures small { D.tells → result ≢ Err StoreRefusal.Failed → length (file Left (D.state disk.old).now) ≤ 2 ^ 40 }

        ensures whole { IfOk result (λ store. store_broken store ≡ None) }
        // The first log of a store has the number 1.
        ensures first { D.tells → IsBegun (file Left (D.state disk.old).now) → IfOk result (λ store. log_epoch (store_log store) ≡ 1) }

        ensures at_rest { D.tells → IsHonest (D.state disk.old) → IfOk result (λ store. IsAsLeft store (D.state disk.new)) }
        ensures on_disk { D.tells → IsHonest (D.state disk.old) → IfOk result (λ store. (files : TwoFiles) → (D.state disk.new).may_leave files → HasState (file Left files) (store_state store)) }

        // Only where a log is made does it write. So a file that it refuses is spared, whatever its answer.
        ensures spared { D.tells → (MayBegin (D.room disk.old) (file Left (D.state disk.old).now) → ⊥) → IsSpared D.tells_moments (D.state disk.old) (D.state disk.new) }
        // And so is one that it refuses, by its answer.
        ensures refused { D.tells → result ≢ Err StoreRefusal.Failed → OnErr result (IsSpared D.tells_moments (D.state disk.old) (D.state disk.new)) }
        // A live log keeps its number.
        ensures same_epoch { D.tells → (epoch : ℕ) → epoch < 2 ^ 64 → IsLive epoch (file Left (D.state disk.old).now) → IfOk result (λ store. log_epoch (store_log store) ≡ epoch) }

        // Whatever a crash leaves, now or at a moment of the call, has the state of what one might have left before.
        ensures loads { D.tells → IsHonest (D.state disk.old) → Loads (D.state disk.old) (D.state disk.new) }
        ensures by_moment { D.tells → D.tells_moments → IsHonest (D.state disk.old) → LeavesOnly (λ _. Alone Left KeepsState) (D.state disk.old) (D.state disk.new) }
        // Once its first call, a sync, has succeeded, that is the state that is read.
        ensures synced { D.tells → D.tells_moments → IsHonest (D.state disk.old) → result ≢ Err StoreRefusal.Failed → LeavesOnly (KeepsSynced (file Left (D.state disk.old).now)) (D.state disk.old) (D.state disk.new) }
        ensures ours { D.tells → IsHonest (D.state disk.old) → IsOurs (D.state disk.old) → IsOurs (D.state disk.new) }
        ensures untouched { D.tells → IsHonest (D.state disk.old) → LeavesFile Right (D.state disk.old) (D.state disk.new) }

        ensures cause { HasCauseOf StoreRefusal.Failed (D.faults disk.old) (D.faults disk.new) result }
        ensures room { D.room disk.new ≡ D.room disk.old }
    {
        match Log::load(alloc, disk, Side::Left)? {
            Found::Live { log, bodies } => {
                let contents = contents_of(alloc, bodies)?;
                Ok(Store {
                    alloc,
                    log,
                    contents,
                    broken: None,
                })
            }
            Found::Shut { len } => {
                let log = begin(disk, len)?;
                let contents = Contents::new(alloc);
                Ok(Store {
                    alloc,
                    log,
                    contents,
                    broken: None,
                })
            }
        }
    }
}
