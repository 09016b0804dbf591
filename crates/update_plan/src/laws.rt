// Laws of what an update commits before its flows.
ghost use Rattle.std.specs.Prelude.{◌≡◌, ◌↔◌, List, None};
ghost use Rattle.commit_payloads.specs.declared.definition.Definition.{Definition};
ghost use Rattle.commit_payloads.specs.declared.payload.Payload.{Payload};
ghost use Rattle.landing_core.specs.declared.landing.LandingFile.{LandingFile};
ghost use Rattle.plan_core.specs.Sound.{IsSoundPlan};
ghost use Rattle.plan_core.specs.declared.plan.Dataset.{Dataset as Part};
ghost use Rattle.state_model.specs.Dataset.{State, definitions_of};
ghost use Rattle.state_steps.specs.Parts.{AreTyped};
ghost use Rattle.state_steps.specs.Stands.{Stands};
ghost use Rattle.update_plan.specs.Commits.{AllCommit, IsAccepted, IsOfPlan, PartsKeepText, TextsTell, parts_after};
ghost use Rattle.update_plan.specs.Payloads.{ArePlanned};
ghost use Rattle.update_plan.specs.Refusals.{refusal};
ghost use Rattle.update_plan.specs.declared.ends.Refresh.{Refresh};

use state_steps::{a_commit_keeps_a_store_standing, nothing_stands};
use stream_closure::{a_closure_is_a_reset, a_plan_has_its_edges};

/// A law: of a store that stands, whose definitions are typed and, unless everything begins anew, whose
/// datasets are those that the plan has under their names, the payloads of an update may be committed one
/// after the other, and lead to the datasets of the plan: in declared order where everything begins anew,
/// and else with the new ones behind those that are stored. The plan is sound, and keeps rescued text in
/// STRING columns.
pub fn planned_payloads_are_commits()
    ensures { (plan parts : List Part) (ever : List LandingFile) (state : State) (refresh : Refresh) (payloads : List Payload)
        → IsSoundPlan plan
        → PartsKeepText plan
        → Stands parts ever state
        → AreTyped parts parts (definitions_of state)
        → IsOfPlan plan parts refresh
        → ArePlanned plan (definitions_of state) refresh payloads
        → AllCommit parts ever state payloads (parts_after plan parts state refresh) }
{
    nothing_stands();
    a_commit_keeps_a_store_standing();
    a_plan_has_its_edges();
    a_closure_is_a_reset();
}

/// A law: where nothing refuses an update and equal texts are of equal datasets, the datasets of a store
/// that stands are, unless everything begins anew, those that the plan has under their names.
pub fn an_accepted_store_is_of_the_plan()
    ensures { (plan parts : List Part) (ever : List LandingFile) (state : State) (refresh : Refresh)
        → Stands parts ever state
        → TextsTell plan parts
        → refusal plan (definitions_of state) refresh ≡ None
        → IsOfPlan plan parts refresh }
{}

/// A law: nothing refuses an update exactly where each listed name is declared and, unless everything
/// begins anew, each stored definition is declared with its text.
pub fn an_update_is_accepted_where_texts_are_equal()
    ensures { (plan : List Part) (stored : List Definition) (refresh : Refresh) → (refusal plan stored refresh ≡ None) ↔ IsAccepted plan stored refresh }
{}
