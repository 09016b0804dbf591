// Laws of how an update ends where nothing outside stops it.
ghost use Rattle.std.specs.Prelude.{◌≡◌, ◌≤◌, ◌^◌, ℕ, Bool, List, length, Option, Some};
ghost use Rattle.commit_records.specs.declared.payload.Payload.{Payload};
ghost use Rattle.landing_core.specs.declared.landing.LandingFile.{LandingFile};
ghost use Rattle.store_state.specs.State.{State};
ghost use Rattle.store_core.specs.Reach.{EndsAt, IsLogEnd};
ghost use Rattle.store_core.specs.State.{HasState};
ghost use Rattle.table_update.specs.Crash.{HasThem};
ghost use Rattle.table_update.specs.Ends.{Alike, IsOwn, NothingRefused};
ghost use Rattle.table_update.specs.Fit.{IsOtherOfItsText};
ghost use Rattle.table_update.specs.Stands.{HasStanding};
ghost use Rattle.table_update.specs.Update.{Found, Updates, IsSuccess, MayRun, end_after};
ghost use Rattle.table_update.specs.declared.end.UpdateEnd.{UpdateEnd};
ghost use Rattle.table_update.specs.declared.end.UpdateEnd.TheVariants.{Unfit};
ghost use Rattle.table_update.specs.declared.table.AppendTable.{AppendTable};

use commit_gate::a_log_has_one_list_of_bodies;
use store_core::a_file_has_one_state;

/// A law: where no device fails and memory is there, what an update comes to and commits follows from
/// the table, if there is one, the store's file, its room and the landing files; two files that a store
/// takes for the same give the same.
pub fn an_update_has_one_end()
    ensures same { (plan : Option AppendTable) (found : Found) (loaded also_loaded : Bool) (acked tried also_acked also_tried : List Payload) (end other : UpdateEnd)
        → length found.bytes ≤ 2 ^ 40 → Updates plan found loaded acked tried end → Updates plan found also_loaded also_acked also_tried other → IsOwn end → IsOwn other
        → (end ≡ other) × (tried ≡ also_tried) }
    ensures alike { (plan : Option AppendTable) (found also : Found) (loaded also_loaded : Bool) (acked tried also_acked also_tried : List Payload) (end other : UpdateEnd)
        → length found.bytes ≤ 2 ^ 40 → length also.bytes ≤ 2 ^ 40 → Alike found.bytes also.bytes → also.room ≡ found.room → also.landing ≡ found.landing
        → Updates plan found loaded acked tried end → Updates plan also also_loaded also_acked also_tried other → IsOwn end → IsOwn other
        → (end ≡ other) × (tried ≡ also_tried) }
{
    a_file_has_one_state();
}

/// A law: the files that two updates leave are taken for the same, where both succeed with the same
/// payloads from one file or from two that are taken for the same.
pub fn settled_files_are_alike()
    ensures same { (plan : Option AppendTable) (found : Found) (loaded : Bool) (acked tried : List Payload) (end : UpdateEnd) (image other : List ℕ)
        → length found.bytes ≤ 2 ^ 40 → Updates plan found loaded acked tried end → IsSuccess end
        → HasThem found.bytes tried image → HasThem found.bytes tried other
        → ((at : ℕ) → EndsAt at found.bytes → IsLogEnd (end_after at tried) image) → ((at : ℕ) → EndsAt at found.bytes → IsLogEnd (end_after at tried) other)
        → Alike image other }
    ensures alike { (bytes also image other : List ℕ) (tried : List Payload)
        → Alike bytes also → HasThem bytes tried image → HasThem also tried other
        → ((at : ℕ) → EndsAt at bytes → IsLogEnd (end_after at tried) image) → ((at : ℕ) → EndsAt at also → IsLogEnd (end_after at tried) other)
        → Alike image other }
{
    a_log_has_one_list_of_bodies();
}

/// A law: where no device fails and memory is there, an update succeeds that has nothing to refuse: the
/// store loads, it has the table or nothing, no file is shorter than how far it was read, and there is
/// room. Without a table the store has nothing.
pub fn an_update_succeeds_where_nothing_is_refused()
    ensures { (plan : Option AppendTable) (found : Found) (loaded : Bool) (acked tried : List Payload) (end : UpdateEnd)
        → length found.bytes ≤ 2 ^ 40 → Updates plan found loaded acked tried end → IsOwn end → NothingRefused plan found → IsSuccess end }
{
    a_file_has_one_state();
}

/// A law: an update is unfit only where what the store has was stored for another table, of the same name
/// and text, by another definition. So it never is where a table's text says all of its definition, nor on
/// a store that stands for the table itself.
pub fn an_update_is_unfit_only_for_another_definition()
    ensures stored { (table other : AppendTable) (found : Found) (loaded : Bool) (acked tried : List Payload) (name : List ℕ) (state : State)
        → length found.bytes ≤ 2 ^ 40 → Updates (Some table) found loaded acked tried (Unfit name) → HasState found.bytes state → MayRun other state
        → IsOtherOfItsText table other }
    ensures standing { (table other : AppendTable) (found : Found) (loaded : Bool) (acked tried : List Payload) (name : List ℕ) (ever : List LandingFile)
        → length found.bytes ≤ 2 ^ 40 → Updates (Some table) found loaded acked tried (Unfit name) → HasStanding other ever found.bytes
        → IsOtherOfItsText table other }
{}
