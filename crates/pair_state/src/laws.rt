ghost use Rattle.std.specs.Prelude.{◌≡◌, ◌<◌, ◌^◌, ℕ, List, [], ◌∷◌, ◌++◌, length};
ghost use Rattle.disk_model.specs.declared.disk.Side.{Side};
ghost use Rattle.disk_model.specs.Disk.{TwoFiles};
ghost use Rattle.commit_payloads.specs.declared.payload.Payload.{Payload};
ghost use Rattle.commit_payloads.specs.declared.payload.Payload.TheVariants as payload;
ghost use Rattle.commit_payloads.specs.Payloads.{spelled_payload, HasSpelling};
ghost use Rattle.log_pair.specs.Load.{IsKeptOrBegun, MayBegin};
ghost use Rattle.log_pair.specs.Pair.{IsForeign, IsSameEpoch, IsUnbegun};
ghost use Rattle.pair_state.specs.Leads.{IsReachable, LeadsTo};
ghost use Rattle.pair_state.specs.PairEnd.{PairEndsAt};
ghost use Rattle.pair_state.specs.PairState.{HasPairState, IsRefusedIn, IsRefusedPair, KeepsPairState};
ghost use Rattle.state_keeps.specs.Stored.{IsStored};
ghost use Rattle.state_model.specs.After.{after_payload};
ghost use Rattle.state_model.specs.Dataset.{State, empty_state};
ghost use Rattle.state_model.specs.Follows.{MayFollow};
ghost use Rattle.state_model.specs.Saved.{compacted, saved};

/// A law: two files have one state at most, and then neither is foreign, the log of the greater epoch is not refused, and
/// the epochs differ. A pair is refused at one place and for one cause.
pub fn a_pair_has_one_state()
    ensures one { (files : TwoFiles) (a b : State) → length files.left < 2 ^ 64 → length files.right < 2 ^ 64 → HasPairState files a → HasPairState files b → a ≡ b }
    ensures not_foreign { (files : TwoFiles) (side : Side) (len : ℕ) (state : State) → HasPairState files state → IsForeign side len files → ⊥ }
    ensures not_same_epoch { (files : TwoFiles) (epoch : ℕ) (state : State) → HasPairState files state → IsSameEpoch epoch files → ⊥ }
    ensures not_refused { (files : TwoFiles) (side : Side) (at : ℕ) (state : State) → length files.left < 2 ^ 64 → length files.right < 2 ^ 64 → HasPairState files state → IsRefusedIn side at files → ⊥ }
    ensures one_place { (files : TwoFiles) (a b : Side) (at place : ℕ) → length files.left < 2 ^ 64 → length files.right < 2 ^ 64 → IsRefusedIn a at files → IsRefusedIn b place files → (a ≡ b) × (at ≡ place) }
    ensures refused_not_foreign { (files : TwoFiles) (a b : Side) (at len : ℕ) → IsRefusedIn a at files → IsForeign b len files → ⊥ }
    ensures refused_not_same_epoch { (files : TwoFiles) (side : Side) (at epoch : ℕ) → IsRefusedIn side at files → IsSameEpoch epoch files → ⊥ }
    ensures refused_not_begun { (files : TwoFiles) (side : Side) (at : ℕ) → IsRefusedIn side at files → IsUnbegun files → ⊥ }
{}

/// A law: files that are as they were, or in which a load made a first log, have the state that they had.
pub fn a_load_keeps_the_state()
    ensures { (was files : TwoFiles) → IsKeptOrBegun (Unit {0}) was files → KeepsPairState was files }
{}

/// A law: where a load refuses two files it makes no log in them.
pub fn a_refused_pair_is_spared()
    ensures { (room : ℕ) (files : TwoFiles) → IsRefusedPair room files → MayBegin room files → ⊥ }
{}

/// A law: whatever state two files have, payloads that follow one another lead to it, and what payloads lead to is a store.
pub fn a_state_comes_of_payloads()
    ensures reached { (files : TwoFiles) (state : State) → HasPairState files state → IsReachable state }
    ensures stored { (state : State) → IsReachable state → IsStored state }
{}

/// A law: one body more, the spelling of a payload that follows, leads to the state after that payload.
pub fn a_payload_leads_on()
    ensures { (bodies : List (List ℕ)) (state : State) (payload : Payload) → LeadsTo empty_state bodies state → MayFollow state payload
        → LeadsTo empty_state (bodies ++ spelled_payload payload ∷ []) (after_payload state payload) }
{}

/// A law: the base of what a store folds to, alone in a log, leads to that state.
pub fn the_folded_state_begins_a_log()
    ensures { (state : State) → IsReachable state → HasSpelling (payload.Base (saved (compacted state)))
        → LeadsTo empty_state (spelled_payload (payload.Base (saved (compacted state))) ∷ []) (compacted state) }
{}

/// A law: two files end at one place at most.
pub fn a_pair_ends_at_one_place()
    ensures { (files : TwoFiles) (a b : Side) (end place : ℕ) → length files.left < 2 ^ 64 → length files.right < 2 ^ 64 → PairEndsAt a end files → PairEndsAt b place files → (a ≡ b) × (end ≡ place) }
{}
