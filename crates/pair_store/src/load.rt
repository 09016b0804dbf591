// A store is loaded.
ghost use Rattle.std.specs.Prelude.{◌≡◌, ◌≢◌, ◌<◌, ◌≤◌, ◌^◌, ℕ, None, length, IfOk, OnErr};
ghost use Rattle.disk_model.specs.declared.disk.Side.{Side};
ghost use Rattle.disk_model.specs.Disk.{TwoFiles, IsHonest};
ghost use Rattle.disk_model.specs.Faults.{HasCauseOf};
ghost use Rattle.disk_model.specs.Moments.{LeavesOnly};
ghost use Rattle.commit_gate.specs.Head.{IsUntouched, Same};
ghost use Rattle.commit_gate.specs.Log.{log_bytes};
ghost use Rattle.log_pair.specs.AtRest.{pair_end, pair_epoch, pair_side};
ghost use Rattle.log_pair.specs.Load.{MayBegin};
ghost use Rattle.log_pair.specs.Pair.{IsNewest, IsUnbegun};
ghost use Rattle.pair_state.specs.Leads.{IsReachable};
ghost use Rattle.pair_state.specs.Ours.{IsOursPair};
ghost use Rattle.pair_state.specs.PairEnd.{PairEndsAt};
ghost use Rattle.pair_state.specs.PairState.{HasPairState, KeepsPairState};
ghost use Rattle.pair_store.specs.Load.{KeepsPairStateSynced, StoreComes, StoreLoads};

use crate::bodies::contents_of;
use crate::refusal::{StoreRefusal, refusal_of};
use crate::store::Store;
use commit_gate::Bodies;
use disk_model::Disk;
use log_pair::{Pair, PairRefusal};
use std::alloc::Global;
use std::sync::ledger::Ledger;
use value_core::Steps;

// The store of a pair that was loaded with these bodies.
fn store_of<L: Ledger>(
    alloc: Global,
    pair: Pair,
    bodies: Bodies,
    steps: &mut Steps<L>,
) -> Result<Store, StoreRefusal>
    requires { length (log_bytes (pair_epoch pair) bodies) ≤ 2 ^ 40 }
    ensures { StoreComes (Ok (pair, bodies)) result }
{
    match contents_of(alloc, pair.side(), bodies, steps) {
        Ok(contents) => Ok(Store {
            alloc,
            pair,
            contents,
            broken: None,
        }),
        Err(refusal) => Err(refusal),
    }
}

// The store of what a pair answered.
fn finish<L: Ledger>(
    alloc: Global,
    loaded: Result<(Pair, Bodies), PairRefusal>,
    steps: &mut Steps<L>,
) -> Result<Store, StoreRefusal>
    requires { IfOk loaded (λ it. length (log_bytes (pair_epoch it.0) it.1) ≤ 2 ^ 40) }
    ensures { StoreComes loaded result }
{
    match loaded {
        Ok((pair, bodies)) => store_of(alloc, pair, bodies, steps),
        Err(refusal) => Err(refusal_of(refusal)),
    }
}

impl Store {
    ghost use Rattle.pair_store.specs.Load.{StoreLoadAnswers, StoreLoadIsExact};
    ghost use Rattle.pair_store.specs.Store.{store_state, store_pair, store_broken, AreAsLeft};

    /// Loads the store of the live log of the greater epoch. Where there is no log yet it makes one in the
    /// left file, which is empty.
    ///
    /// It begins with a sync of each file, so the state that it answers is on the disk. A pair that it
    /// refuses, or that has a live log, stays as it is, byte for byte. `Foreign` comes where neither log is
    /// live and a file is longer than 18 bytes, the left one first; `SameEpoch` where both are live with one
    /// epoch; `Damaged` where the log of the greater epoch is, or where one of its bodies is no payload that
    /// follows; `Full` where there is no log yet and the room is below 18. The looks that judging the
    /// payloads takes are counted.
    pub fn load<D: Disk, L: Ledger>(
        alloc: Global,
        disk: &mut D,
        steps: &mut Steps<L>,
    ) -> Result<Store, StoreRefusal>
        // Each answer has its cause, and each cause its answer.
        ensures answers { D.tells → StoreLoadAnswers (D.room disk.old) (D.state disk.old).now result }
        ensures exact { D.tells → StoreLoadIsExact (D.room disk.old) (D.state disk.old).now result }

        // Whatever the disk tells, the state is one that payloads lead to.
        ensures reached { IfOk result (λ store. IsReachable (store_state store)) }
        // The next record will stand where the pair ends.
        ensures ends { D.tells → IsHonest (D.state disk.old) → IfOk result (λ store. PairEndsAt (pair_side (store_pair store)) (pair_end (store_pair store)) (D.state disk.old).now) }
        // It reads files of at most 2^40 bytes.
        ensures small { D.tells → result ≢ Err StoreRefusal.Failed → (length (D.state disk.old).now.left ≤ 2 ^ 40) × (length (D.state disk.old).now.right ≤ 2 ^ 40) }

        ensures whole { IfOk result (λ store. store_broken store ≡ None) }
        // The first log of a store has the epoch 1, and a live one keeps its file and its epoch.
        ensures first { D.tells → IsUnbegun (D.state disk.old).now → IfOk result (λ store. pair_epoch (store_pair store) ≡ 1) }
        ensures same_epoch { D.tells → (side : Side) (epoch : ℕ) → IsNewest side epoch (D.state disk.old).now
            → IfOk result (λ store. (pair_side (store_pair store) ≡ side) × (pair_epoch (store_pair store) ≡ epoch)) }

        ensures at_rest { D.tells → IsHonest (D.state disk.old) → IfOk result (λ store. AreAsLeft store (D.state disk.new)) }
        ensures on_disk { D.tells → IsHonest (D.state disk.old) → IfOk result (λ store. (files : TwoFiles) → (D.state disk.new).may_leave files → HasPairState files (store_state store)) }

        // Only where a log is made does it write. So a pair that it refuses is spared, whatever its answer.
        ensures spared { D.tells → (MayBegin (D.room disk.old) (D.state disk.old).now → ⊥) → IsUntouched (D.state disk.old) (D.state disk.new) }
        ensures spared_time { D.tells → D.tells_moments → (MayBegin (D.room disk.old) (D.state disk.old).now → ⊥) → LeavesOnly Same (D.state disk.old) (D.state disk.new) }
        // And so is one that it refuses, by its answer.
        ensures refused { D.tells → result ≢ Err StoreRefusal.Failed → OnErr result (IsUntouched (D.state disk.old) (D.state disk.new)) }

        // Whatever a crash leaves, now or at a moment of the call, has the state of what one might have left before.
        ensures loads { D.tells → IsHonest (D.state disk.old) → StoreLoads (D.state disk.old) (D.state disk.new) }
        ensures by_moment { D.tells → D.tells_moments → IsHonest (D.state disk.old) → LeavesOnly (λ _. KeepsPairState) (D.state disk.old) (D.state disk.new) }
        // Once both files are synced, that is the state that is read.
        ensures synced { D.tells → D.tells_moments → IsHonest (D.state disk.old) → result ≢ Err StoreRefusal.Failed → LeavesOnly (KeepsPairStateSynced (D.state disk.old).now) (D.state disk.old) (D.state disk.new) }
        ensures ours { D.tells → IsHonest (D.state disk.old) → IsOursPair (D.state disk.old) → IsOursPair (D.state disk.new) }

        ensures cause { HasCauseOf StoreRefusal.Failed (D.faults disk.old) (D.faults disk.new) result }
        ensures room { D.room disk.new ≡ D.room disk.old }
    {
        let loaded = Pair::load(alloc, disk);
        finish(alloc, loaded, steps)
    }
}
