ghost use Rattle.std.specs.Prelude.{[]};
ghost use Rattle.commit_payloads.specs.declared.payload.Payload.{Payload};
ghost use Rattle.commit_payloads.specs.declared.payload.Payload.TheVariants as payload;
ghost use Rattle.state_model.specs.After.{after_payload};
ghost use Rattle.state_model.specs.Dataset.{State};
ghost use Rattle.state_model.specs.Follows.{Fits, MayFollow};
ghost use Rattle.state_model.specs.Saved.{compacted, saved};
ghost use Rattle.state_keeps.specs.Stored.{IsStored};

/// A law: no datasets are a store.
pub fn no_datasets_are_a_store()
    ensures { IsStored [] }
{}

/// A law: each payload that follows a store leads to a store.
pub fn what_follows_keeps_a_store()
    ensures { (state : State) (payload : Payload) → IsStored state → MayFollow state payload → IsStored (after_payload state payload) }
{}

/// A law: a store whose older versions are folded away, up to the least one at which a flow or view stands, is a store.
pub fn a_folded_store_is_a_store()
    ensures { (state : State) → IsStored state → IsStored (compacted state) }
{}

/// A law: what a store comes to fits as the base with which a log begins.
pub fn a_store_may_begin_a_log()
    ensures { (state : State) → IsStored state → Fits [] (payload.Base (saved state)) }
{}
