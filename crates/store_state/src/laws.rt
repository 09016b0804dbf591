ghost use Rattle.std.specs.Prelude.{◌≡◌, true, List, [], ◌∷◌, ◌++◌};
ghost use Rattle.commit_records.specs.declared.payload.Payload.{Payload};
ghost use Rattle.store_state.specs.Dataset.{State, after_payload, definitions_of, state_after};
ghost use Rattle.store_state.specs.Follows.{Fits, are_distinct};

/// A law: the state that payloads come to is the state of those before the last one, after the last one.
pub fn payloads_come_one_by_one()
    ensures { (payloads : List Payload) (payload : Payload) → state_after (payloads ++ payload ∷ []) ≡ after_payload (state_after payloads) payload }
{}

/// A law: where no two datasets have one name, none have after a payload that follows, so that a name has one dataset.
pub fn names_stay_distinct()
    ensures { (state : State) (payload : Payload) → Fits state payload → are_distinct (definitions_of state) ≡ true → are_distinct (definitions_of (after_payload state payload)) ≡ true }
{}
