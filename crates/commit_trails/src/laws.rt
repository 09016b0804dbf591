// Laws of what commits leave, over any disk.
ghost use Rattle.std.specs.Prelude.{◌≡◌, ◌≢◌, ◌<◌, ◌^◌, ◌++◌, ℕ, List, [], ◌∷◌, length, Some, None, Result, Err, OnErr};
ghost use Rattle.disk_model.specs.Disk.{IsHonest};
ghost use Rattle.disk_model.specs.Moments.{LeavesOnly};
ghost use Rattle.commit_payloads.specs.declared.payload.Payload.{Payload};
ghost use Rattle.state_model.specs.After.{after_payload, state_from};
ghost use Rattle.state_model.specs.Dataset.{State};
ghost use Rattle.state_model.specs.Saved.{compacted};
ghost use Rattle.pair_state.specs.Ours.{IsOursPair};
ghost use Rattle.pair_state.specs.PairState.{HasPairState, KeepsPairState};
ghost use Rattle.pair_store.specs.Compact.{base_of};
ghost use Rattle.pair_store.specs.Load.{KeepsPairStateSynced, StoreLoads};
ghost use Rattle.pair_store.specs.Next.{ReachesNext, ReachesNextByGate};
ghost use Rattle.pair_store.specs.Store.{AreAsLeft, store_state};
ghost use Rattle.pair_store.specs.declared.ends.CommitEnd.{CommitEnd};
ghost use Rattle.pair_store.specs.declared.ends.CommitEnd.TheVariants.{Failed};
ghost use Rattle.pair_store.specs.declared.store.Store.{Store};
ghost use Rattle.commit_trails.specs.Stints.{Stint, StintTrail, joined, over};
ghost use Rattle.commit_trails.specs.Trails.{HasStateOnDisk, LoadedTrail, Trail, UnloadedTrail, acked_by, tried_by};

use disk_model::Disk;

/// A law: where both files are as a store left them, whatever a crash leaves has its state, and where
/// nothing is tried it stays so.
pub fn nothing_tried_leaves_a_trail<D: Disk>()
    ensures at_rest { (store : Store) (disk : D) → AreAsLeft store (D.state disk) → HasStateOnDisk (store_state store) (D.state disk) }
    ensures trail { (state : State) (disk : D) → HasStateOnDisk state (D.state disk) → Trail D.tells_moments state [] [] (D.state disk) (D.state disk) }
{}

/// A law: one commit leaves a trail of its payload and, where it ended before it came to the disk, a trail
/// of nothing.
pub fn a_commit_leaves_a_trail<D: Disk>()
    ensures trail { (before : ℕ) (state : State) (payload : Payload) (result : Result (Unit {0}) CommitEnd) (old new : D)
        → ReachesNext state (after_payload state payload) result (D.state old) (D.state new)
        → (D.tells_moments → ReachesNextByGate before state (after_payload state payload) result (D.state old) (D.state new))
        → Trail D.tells_moments state (acked_by payload result) (payload ∷ []) (D.state old) (D.state new) }
    ensures tried { (before : ℕ) (state : State) (payload : Payload) (result : Result (Unit {0}) CommitEnd) (was now : Store) (old new : D)
        → HasStateOnDisk state (D.state old)
        → ReachesNext state (after_payload state payload) result (D.state old) (D.state new)
        → (D.tells_moments → ReachesNextByGate before state (after_payload state payload) result (D.state old) (D.state new))
        → (((count : ℕ) → result ≢ Err (Failed count)) → OnErr result ((now ≡ was) × (new ≡ old)))
        → Trail D.tells_moments state (acked_by payload result) (tried_by payload result) (D.state old) (D.state new) }
{}

/// A law: trails of which the first was acknowledged whole join.
pub fn trails_join<D: Disk>()
    ensures { (state : State) (first acked tried : List Payload) (old mid new : D)
        → Trail D.tells_moments state first first (D.state old) (D.state mid)
        → Trail D.tells_moments (state_from state first) acked tried (D.state mid) (D.state new)
        → Trail D.tells_moments state (first ++ acked) (first ++ tried) (D.state old) (D.state new) }
{}

/// A law: a compaction leaves a trail of one payload, the base of what the store folds to, which comes to
/// the folded state. Where it ended before it came to the disk it leaves a trail of nothing.
pub fn a_compaction_leaves_a_trail<D: Disk>()
    ensures folded { (state : State) → after_payload state (base_of state) ≡ compacted state }
    ensures trail { (before : ℕ) (state : State) (result : Result ℕ CommitEnd) (old new : D)
        → ReachesNext state (compacted state) result (D.state old) (D.state new)
        → (D.tells_moments → ReachesNextByGate before state (compacted state) result (D.state old) (D.state new))
        → Trail D.tells_moments state (acked_by (base_of state) result) (base_of state ∷ []) (D.state old) (D.state new) }
    ensures tried { (before : ℕ) (state : State) (result : Result ℕ CommitEnd) (was now : Store) (old new : D)
        → HasStateOnDisk state (D.state old)
        → ReachesNext state (compacted state) result (D.state old) (D.state new)
        → (D.tells_moments → ReachesNextByGate before state (compacted state) result (D.state old) (D.state new))
        → (((count : ℕ) → result ≢ Err (Failed count)) → OnErr result ((now ≡ was) × (new ≡ old)))
        → Trail D.tells_moments state (acked_by (base_of state) result) (tried_by (base_of state) result) (D.state old) (D.state new) }
{}

/// A law: whatever a crash leaves behind a trail has a state, and that of the trail where all was
/// acknowledged.
pub fn a_trail_leaves_states<D: Disk>()
    ensures ours { (state : State) (acked tried : List Payload) (old new : D) → Trail D.tells_moments state acked tried (D.state old) (D.state new) → IsOursPair (D.state new) }
    ensures whole { (state : State) (acked : List Payload) (old new : D) → Trail D.tells_moments state acked acked (D.state old) (D.state new) → HasStateOnDisk (state_from state acked) (D.state new) }
{}

/// A law: a load of a store leads the trail that goes on from the state which it read.
pub fn a_load_leads_a_trail<D: Disk>()
    ensures { (state : State) (acked tried : List Payload) (old mid new : D)
        → HasPairState (D.state old).now state
        → StoreLoads (D.state old) (D.state mid)
        → (D.tells_moments → LeavesOnly (KeepsPairStateSynced (D.state old).now) (D.state old) (D.state mid))
        → Trail D.tells_moments state acked tried (D.state mid) (D.state new)
        → LoadedTrail D.tells_moments state acked tried (D.state old) (D.state new) }
{}

/// A law: a load that gave no store leaves a trail of its own, and so does what leaves the disk as it is.
pub fn a_refused_load_leaves_a_trail<D: Disk>()
    ensures refused { (old new : D)
        → StoreLoads (D.state old) (D.state new)
        → (D.tells_moments → LeavesOnly (λ _. KeepsPairState) (D.state old) (D.state new))
        → UnloadedTrail D.tells_moments (D.state old) (D.state new) }
    ensures idle { (disk : D) → UnloadedTrail D.tells_moments (D.state disk) (D.state disk) }
{}

/// A law: stints join. Of the first all that was tried is acknowledged, and a store that is loaded behind it
/// has the state that it left. Where it loaded none, a store is loaded behind it only if it made no call
/// of the disk.
pub fn stints_join<D: Disk>()
    ensures { (first second : Stint) (old mid new : D)
        → first.acked ≡ first.tried
        → ((one next : State) → first.loaded ≡ Some one → second.loaded ≡ Some next → next ≡ state_from one first.acked)
        → ((next : State) → D.tells_moments → first.loaded ≡ None → second.loaded ≡ Some next → (D.state mid).moment ≡ (D.state old).moment)
        → StintTrail D.tells_moments first (D.state old) (D.state mid)
        → StintTrail D.tells_moments second (D.state mid) (D.state new)
        → StintTrail D.tells_moments (joined first second) (D.state old) (D.state new) }
{}

/// A law: behind a stint that loaded a store, and of which all that was tried is acknowledged, each image has
/// the state with these payloads, and so have files that are read. Behind any stint images have states if
/// they had some before.
pub fn a_stint_leaves_states<D: Disk>()
    ensures whole { (state : State) (acked : List Payload) (old new : D) → StintTrail D.tells_moments (over state acked acked) (D.state old) (D.state new) → HasStateOnDisk (state_from state acked) (D.state new) }
    ensures next { (state next : State) (acked : List Payload) (old new : D)
        → StintTrail D.tells_moments (over state acked acked) (D.state old) (D.state new)
        → IsHonest (D.state new)
        → length (D.state new).now.left < 2 ^ 64
        → length (D.state new).now.right < 2 ^ 64
        → HasPairState (D.state new).now next
        → next ≡ state_from state acked }
    ensures ours { (stint : Stint) (old new : D) → IsOursPair (D.state old) → StintTrail D.tells_moments stint (D.state old) (D.state new) → IsOursPair (D.state new) }
{}
