// Laws of tables that stand for the lines that were ever there.
ghost use Rattle.std.specs.Prelude.{◌≡◌, ◌≢◌, ◌++◌, ◌≤◌, ◌^◌, ℕ, Bool, List, [], false, length, Option, Some};
ghost use Rattle.landing_core.specs.Folders.{HoldsPresent};
ghost use Rattle.landing_core.specs.declared.landing.LandingFile.{LandingFile};
ghost use Rattle.landing_history.specs.Taken.{HaveGrown};
ghost use Rattle.commit_records.specs.declared.payload.Payload.{Payload};
ghost use Rattle.store_state.specs.State.{State, state_from};
ghost use Rattle.store_core.specs.State.{HasState};
ghost use Rattle.table_update.specs.Crash.{IsImage, IsSettled};
ghost use Rattle.table_update.specs.Refresh.{NoneGone, IsFresh};
ghost use Rattle.table_update.specs.Stands.{IsFor, Stands, HasStanding, TableStands};
ghost use Rattle.table_update.specs.Update.{Found, Updates, IsSuccess};
ghost use Rattle.table_update.specs.declared.end.UpdateEnd.{UpdateEnd};
ghost use Rattle.table_update.specs.declared.end.UpdateEnd.TheVariants.{LoadFailed};
ghost use Rattle.table_update.specs.declared.table.AppendTable.{AppendTable};

/// A law: an update of a table, or of a pipeline without one, keeps the table standing, with any front of
/// its payloads, whatever a crash leaves of it and at whatever moment. Its premise: files that are there
/// hold all that they ever held.
pub fn an_update_keeps_a_table_standing()
    ensures fronts { (plan : Option AppendTable) (table : AppendTable) (found : Found) (loaded : Bool) (acked tried : List Payload) (end : UpdateEnd) (ever : List LandingFile) (state : State) (front behind : List Payload)
        → IsFor plan table → Updates plan found loaded acked tried end → length found.bytes ≤ 2 ^ 40 → HoldsPresent found.landing ever → HasState found.bytes state → Stands table ever state
        → tried ≡ front ++ behind → Stands table ever (state_from state front) }
    ensures images { (plan : Option AppendTable) (table : AppendTable) (found : Found) (loaded : Bool) (acked tried : List Payload) (end : UpdateEnd) (ever : List LandingFile) (was image : List ℕ)
        → IsFor plan table → Updates plan found loaded acked tried end → (end ≢ LoadFailed → length found.bytes ≤ 2 ^ 40) → HoldsPresent found.landing ever → HasStanding table ever found.bytes
        → HasStanding table ever was → IsSettled (loaded ≡ false) found.bytes acked tried was image → HasStanding table ever image }
    ensures moments { (plan : Option AppendTable) (table : AppendTable) (found : Found) (loaded : Bool) (acked tried : List Payload) (end : UpdateEnd) (ever : List LandingFile) (was image : List ℕ)
        → IsFor plan table → Updates plan found loaded acked tried end → (end ≢ LoadFailed → length found.bytes ≤ 2 ^ 40) → HoldsPresent found.landing ever → HasStanding table ever found.bytes
        → HasStanding table ever was → IsImage (Unit {0}) found.bytes tried was image → HasStanding table ever image }
{}

/// A law: files that grow, and files that appear, keep a table standing.
pub fn growth_keeps_a_table_standing()
    ensures { (table : AppendTable) (was now : List LandingFile) (state : State) → HaveGrown was now → Stands table was state → Stands table now state }
{}

/// A law: an empty file is a store that stands, whatever the table.
pub fn a_new_file_stands()
    ensures { (table : AppendTable) (ever : List LandingFile) (state : State) → HasState [] state → Stands table ever state }
{}

/// A law: where an update succeeds, and no file that the table has read from is gone, the table's rows
/// are those of a full refresh: a table that has read nothing before takes the same from what is there.
pub fn a_completed_update_is_a_full_refresh()
    ensures { (table : AppendTable) (found : Found) (loaded : Bool) (acked tried : List Payload) (end : UpdateEnd) (ever : List LandingFile) (state : State)
        → Updates (Some table) found loaded acked tried end → length found.bytes ≤ 2 ^ 40 → IsSuccess end → HoldsPresent found.landing ever → HasState found.bytes state → Stands table ever state
        → (stands : TableStands table ever (state_from state tried)) × (NoneGone found.landing stands → IsFresh found.landing stands) }
{}
