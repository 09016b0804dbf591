ghost use Rattle.std.specs.Prelude.{◌≡◌, ◌⊎◌, true, ℕ, List, [], ◌∷◌, ◌++◌};
ghost use Rattle.commit_payloads.specs.declared.payload.Payload.{Payload};
ghost use Rattle.state_model.specs.After.{after_payload, state_after};
ghost use Rattle.state_model.specs.Dataset.{State, definitions_of};
ghost use Rattle.state_model.specs.Follows.{Fits, IsAtLimit, WithinVersions, are_distinct};
ghost use Rattle.state_model.specs.Saved.{read_back, saved};
ghost use Rattle.state_model.specs.Worked as worked;

/// A law: the datasets of a store, written as a payload has them, are read back.
pub fn a_saved_store_is_read_back()
    ensures { (state : State) → read_back (saved state) ≡ state }
{}

/// A law: the state that payloads come to is the state of those before the last one, after the last one.
pub fn payloads_come_one_by_one()
    ensures { (payloads : List Payload) (payload : Payload) → state_after (payloads ++ payload ∷ []) ≡ after_payload (state_after payloads) payload }
{}

/// A law: where no two datasets have one name, none have after a payload that follows, so that a name has one dataset.
pub fn names_stay_distinct()
    ensures { (state : State) (payload : Payload) → Fits state payload → are_distinct (definitions_of state) ≡ true → are_distinct (definitions_of (after_payload state payload)) ≡ true }
{}

/// A law: either each dataset to which a payload adds a version has one left, or a dataset is named that stands at the
/// limit of versions, and never both.
pub fn versions_are_left_or_one_is_full()
    ensures either { (state : State) (payload : Payload) → WithinVersions state payload ⊎ ((name : List ℕ) × IsAtLimit state payload name) }
    ensures not_both { (state : State) (payload : Payload) (name : List ℕ) → WithinVersions state payload → IsAtLimit state payload name → ⊥ }
{}

/// A law: the payloads that were worked by hand.
pub fn payloads_are_worked()
    ensures taken { worked.Taken }
    ensures refreshed { worked.Refreshed }
    ensures emptied { worked.Emptied }
    ensures added { worked.Added }
    ensures anew { worked.Fresh }
    ensures compacted { worked.Compacted }
{}
