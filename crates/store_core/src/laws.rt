ghost use Rattle.std.specs.Prelude.{◌≡◌, ◌<◌, ◌^◌, ℕ, List, length};
ghost use Rattle.commit_gate.specs.Log.{IsLive};
ghost use Rattle.store_state.specs.State.{State};
ghost use Rattle.store_core.specs.Reach.{EndsAt, IsLogEnd, IsReachable};
ghost use Rattle.store_core.specs.Spared.{GoesOn, IsRefusedFile, MayBegin};
ghost use Rattle.store_core.specs.State.{HasState, IsForeign, IsRefusedAt};

/// A law: a file has one state at most, and then it is neither foreign nor refused. One that is refused
/// is refused at one place, and is not foreign. A file ends at one place at most.
pub fn a_file_has_one_state()
    ensures one { (bytes : List ℕ) (a b : State) → length bytes < 2 ^ 64 → HasState bytes a → HasState bytes b → a ≡ b }
    ensures not_foreign { (len : ℕ) (bytes : List ℕ) (state : State) → HasState bytes state → IsForeign len bytes → ⊥ }
    ensures not_refused { (at : ℕ) (bytes : List ℕ) (state : State) → length bytes < 2 ^ 64 → HasState bytes state → IsRefusedAt at bytes → ⊥ }
    ensures one_place { (at place : ℕ) (bytes : List ℕ) → length bytes < 2 ^ 64 → IsRefusedAt at bytes → IsRefusedAt place bytes → at ≡ place }
    ensures one_cause { (at len : ℕ) (bytes : List ℕ) → IsRefusedAt at bytes → IsForeign len bytes → ⊥ }
    ensures one_end { (bytes : List ℕ) (a b : ℕ) → length bytes < 2 ^ 64 → EndsAt a bytes → EndsAt b bytes → a ≡ b }
{}

/// A law: in a file that a load refuses it makes no log, nor where there is a live one, so that it spares
/// them.
pub fn a_refused_file_is_spared()
    ensures refused { (room : ℕ) (bytes : List ℕ) → IsRefusedFile room bytes → MayBegin room bytes → ⊥ }
    ensures live { (room epoch : ℕ) (bytes : List ℕ) → IsLive epoch bytes → MayBegin room bytes → ⊥ }
{}

/// A law: a log that goes on keeps its number.
pub fn a_log_that_goes_on_keeps_its_epoch()
    ensures { (at : ℕ) (bytes image : List ℕ) → (log : IsLogEnd at bytes) → GoesOn at bytes image → IsLive log.epoch image }
{}

/// A law: whatever state a file has, payloads that follow one another lead to it.
pub fn a_state_comes_of_payloads()
    ensures reached { (bytes : List ℕ) (state : State) → HasState bytes state → IsReachable state }
{}
