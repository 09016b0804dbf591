// Laws of stores that stand, and of what a disk holds of them.
ghost use Rattle.std.specs.Prelude.{◌≡◌, ◌⊎◌, ◌<◌, ◌^◌, ℕ, List, [], ◌∷◌, length, None, Ok};
ghost use Rattle.disk_model.specs.Disk.{IsHonest};
ghost use Rattle.landing_core.specs.declared.landing.LandingFile.{LandingFile};
ghost use Rattle.landing_history.specs.Taken.{HaveGrown};
ghost use Rattle.sql_tree.specs.declared.statement.Statement.{Statement};
ghost use Rattle.commit_payloads.specs.declared.payload.Payload.{Payload};
ghost use Rattle.plan_core.specs.declared.plan.Dataset.{Dataset as Part};
ghost use Rattle.plan_check.specs.Checks.{Checks};
ghost use Rattle.pair_state.specs.Ours.{IsOursPair};
ghost use Rattle.pair_state.specs.PairState.{HasPairState};
ghost use Rattle.pair_store.specs.Compact.{base_of};
ghost use Rattle.plan_texts.specs.Readings.{AreRead};
ghost use Rattle.state_model.specs.After.{state_from};
ghost use Rattle.state_model.specs.Dataset.{State, definitions_of};
ghost use Rattle.state_model.specs.Saved.{compacted};
ghost use Rattle.state_steps.specs.Parts.{AreTyped};
ghost use Rattle.state_steps.specs.Stands.{Stands};
ghost use Rattle.update_plan.specs.Commits.{AllCommit, IsOfPlan, parts_after};
ghost use Rattle.update_plan.specs.Refusals.{refusal};
ghost use Rattle.update_plan.specs.declared.ends.Refresh.{Refresh};
ghost use Rattle.commit_trails.specs.Stints.{Stint, StintTrail};
ghost use Rattle.commit_trails.specs.Trails.{LoadedTrail, UnloadedTrail};
ghost use Rattle.standing_store.specs.Fronts.{FrontsCommit};
ghost use Rattle.standing_store.specs.Standing.{AreOfText, FrontsStand, IsStanding, StandsFor, StandsOnDisk, StandsThroughout, StintStands};

use disk_model::Disk;
use pair_state::a_pair_has_one_state;
use plan_check::plans_have_different_names;
use plan_texts::datasets_of_one_text_are_one;
use state_model::a_saved_store_is_read_back;
use state_steps::{
    a_commit_keeps_a_store_standing, growth_keeps_a_store_standing, nothing_stands,
    steps_keep_the_shape,
};
use update_plan::an_update_is_accepted_where_texts_are_equal;

// ---- a store

/// A law: a store without datasets stands.
pub fn an_empty_store_stands()
    ensures { (ever : List LandingFile) → IsStanding ever [] }
{
    nothing_stands();
}

/// A law: commits that are allowed lead from a store that stands for datasets of a text to one that does.
pub fn commits_keep_standing()
    ensures { (ever : List LandingFile) (state : State) (parts now : List Part) (payloads : List Payload)
        → StandsFor ever state parts
        → AllCommit parts ever state payloads now
        → AreOfText now
        → StandsFor ever (state_from state payloads) now }
{
    a_commit_keeps_a_store_standing();
    steps_keep_the_shape();
}

/// A law: where an update is accepted, by the plan of whatever text, the datasets of a store that stands
/// are, unless everything begins anew, those that the plan has under their names.
pub fn an_accepted_update_is_of_the_plan()
    ensures { (ever : List LandingFile) (state : State) (parts plan : List Part) (statements : List Statement) (asked : Refresh)
        → StandsFor ever state parts
        → AreRead statements
        → Checks statements (Ok plan)
        → refusal plan (definitions_of state) asked ≡ None
        → IsOfPlan plan parts asked }
{
    datasets_of_one_text_are_one();
    an_update_is_accepted_where_texts_are_equal();
}

/// A law: where each front of what an update commits is allowed, and leads to the datasets that were
/// there or to those of the update, the store stands behind each front.
pub fn an_update_keeps_standing()
    ensures { (ever : List LandingFile) (state : State) (parts plan : List Part) (statements : List Statement) (asked : Refresh) (tried : List Payload)
        → StandsFor ever state parts
        → AreRead statements
        → Checks statements (Ok plan)
        → IsOfPlan plan parts asked
        → FrontsCommit parts ever state tried (parts_after plan parts state asked)
        → FrontsStand ever state tried }
{
    a_commit_keeps_a_store_standing();
    steps_keep_the_shape();
    plans_have_different_names();
}

/// A law: an update by the plan of whatever text leaves a store standing behind each front of what it
/// tried, where it tried nothing or was accepted, and where what it tried are steps of any store that
/// stands, has typed definitions and, unless everything begins anew, has datasets of the plan.
pub fn an_update_of_any_text_keeps_standing()
    ensures { (ever : List LandingFile) (state : State) (plan : List Part) (statements : List Statement) (asked : Refresh) (tried : List Payload)
        → IsStanding ever state
        → AreRead statements
        → Checks statements (Ok plan)
        → (tried ≡ []) ⊎ (refusal plan (definitions_of state) asked ≡ None)
        → ((parts : List Part) → Stands parts ever state → AreTyped parts parts (definitions_of state) → IsOfPlan plan parts asked → FrontsCommit parts ever state tried (parts_after plan parts state asked))
        → FrontsStand ever state tried }
{
    an_accepted_update_is_of_the_plan();
    an_update_keeps_standing();
}

/// A law: a compaction leaves a store that stands for the same datasets, so it stands behind each front
/// of the one payload of a compaction, and where nothing is tried.
pub fn a_compaction_keeps_standing()
    ensures folded { (ever : List LandingFile) (state : State) (parts : List Part) → StandsFor ever state parts → StandsFor ever (compacted state) parts }
    ensures tried { (ever : List LandingFile) (state : State) → IsStanding ever state → FrontsStand ever state (base_of state ∷ []) }
    ensures nothing { (ever : List LandingFile) (state : State) → IsStanding ever state → FrontsStand ever state [] }
{
    a_commit_keeps_a_store_standing();
    steps_keep_the_shape();
    a_saved_store_is_read_back();
}

// ---- what a disk holds

/// A law: where a command began with a disk on which a store stands, and the store that it loaded stands
/// behind each front of what it tried, whatever a crash leaves stands afterwards and at each moment.
pub fn trails_keep_standing<D: Disk>()
    ensures loaded { (ever : List LandingFile) (state : State) (acked tried : List Payload) (old new : D)
        → FrontsStand ever state tried
        → LoadedTrail D.tells_moments state acked tried (D.state old) (D.state new)
        → StandsOnDisk ever (D.state new) }
    ensures loaded_throughout { (ever : List LandingFile) (state : State) (acked tried : List Payload) (old new : D)
        → D.tells_moments
        → StandsOnDisk ever (D.state old)
        → FrontsStand ever state tried
        → LoadedTrail D.tells_moments state acked tried (D.state old) (D.state new)
        → StandsThroughout ever (D.state old) (D.state new) }
    ensures unloaded { (ever : List LandingFile) (old new : D)
        → StandsOnDisk ever (D.state old)
        → UnloadedTrail D.tells_moments (D.state old) (D.state new)
        → StandsOnDisk ever (D.state new) }
    ensures unloaded_throughout { (ever : List LandingFile) (old new : D)
        → D.tells_moments
        → StandsOnDisk ever (D.state old)
        → UnloadedTrail D.tells_moments (D.state old) (D.state new)
        → StandsThroughout ever (D.state old) (D.state new) }
    ensures stint { (ever : List LandingFile) (stint : Stint) (old new : D)
        → StandsOnDisk ever (D.state old)
        → StintStands ever stint
        → StintTrail D.tells_moments stint (D.state old) (D.state new)
        → StandsOnDisk ever (D.state new) }
    ensures stint_throughout { (ever : List LandingFile) (stint : Stint) (old new : D)
        → D.tells_moments
        → StandsOnDisk ever (D.state old)
        → StintStands ever stint
        → StintTrail D.tells_moments stint (D.state old) (D.state new)
        → StandsThroughout ever (D.state old) (D.state new) }
{}

/// A law: what stood at each moment of a first run of calls, and at each moment of a second one, stood at
/// each moment of both. Where no call is made it stands at the one moment.
pub fn moments_of_standing_join<D: Disk>()
    ensures joined { (ever : List LandingFile) (old mid new : D)
        → StandsThroughout ever (D.state old) (D.state mid)
        → StandsThroughout ever (D.state mid) (D.state new)
        → StandsThroughout ever (D.state old) (D.state new) }
    ensures none { (ever : List LandingFile) (disk : D) → StandsOnDisk ever (D.state disk) → StandsThroughout ever (D.state disk) (D.state disk) }
{}

/// A law: a store that is read from a disk on which whatever a crash leaves stands is one that stands.
pub fn a_loaded_store_stands<D: Disk>()
    ensures { (ever : List LandingFile) (state : State) (disk : D)
        → StandsOnDisk ever (D.state disk)
        → IsHonest (D.state disk)
        → length (D.state disk).now.left < 2 ^ 64
        → length (D.state disk).now.right < 2 ^ 64
        → HasPairState (D.state disk).now state
        → IsStanding ever state }
{
    a_pair_has_one_state();
}

/// A law: a disk on which whatever a crash leaves stands is one that only a store has written to.
pub fn a_standing_store_is_ours<D: Disk>()
    ensures { (ever : List LandingFile) (disk : D) → StandsOnDisk ever (D.state disk) → IsOursPair (D.state disk) }
{}

/// A law: files that grow, appear or go leave what a disk holds standing.
pub fn growth_keeps_standing<D: Disk>()
    ensures store { (ever now : List LandingFile) (state : State) → HaveGrown ever now → IsStanding ever state → IsStanding now state }
    ensures disk { (ever now : List LandingFile) (disk : D) → HaveGrown ever now → StandsOnDisk ever (D.state disk) → StandsOnDisk now (D.state disk) }
{
    growth_keeps_a_store_standing();
}
