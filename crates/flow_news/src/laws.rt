ghost use Rattle.std.specs.Prelude.{◌≡◌, List, Some, ℕ};
ghost use Rattle.value_core.specs.declared.cursor.Cursor.{Cursor};
ghost use Rattle.value_core.specs.declared.schema.Column.{Column};
ghost use Rattle.landing_core.specs.declared.landing.LandingFile.{LandingFile};
ghost use Rattle.landing_core.specs.Folders.{HoldsPresent};
ghost use Rattle.plan_core.specs.declared.flow.Origin.{Origin};
ghost use Rattle.plan_core.specs.declared.plan.Dataset.{Dataset as Part};
ghost use Rattle.plan_core.specs.Sound.{flow_columns};
ghost use Rattle.state_model.specs.Dataset.{State};
ghost use Rattle.state_steps.specs.Consumed.{StreamStands};
ghost use Rattle.state_steps.specs.Parts.{KeepsText, stored_origin};
ghost use Rattle.store_fitness.specs.Fitness.{IsReady};
ghost use Rattle.flow_news.specs.declared.offer.FolderListing.{FolderListing};
ghost use Rattle.flow_news.specs.Blames.{FoundBlames};
ghost use Rattle.flow_news.specs.Finds.{Finds, Found};
ghost use Rattle.flow_news.specs.Goings.{IsGoing, IsNext, IsPosition, IsThere};
ghost use Rattle.flow_news.specs.News.{IsListingFor};

use landing_core::Landing;
use landing_history::{places_have_one_form, reach_keeps_ends};
use pair_state::a_state_comes_of_payloads;
use state_steps::a_reading_finds_what_is_between;

/// A law: where the landing tells, a flow that stands where it has consumed its source goes on by what it finds, and is never
/// lost.
pub fn a_flow_goes_on_by_what_it_finds<L: Landing>()
    ensures { L.tells → (was now : ℕ) (files ever : List LandingFile) (state : State) (listing : FolderListing) (from : Origin) (cursor : Cursor) (found : Found)
        → HoldsPresent files ever
        → StreamStands ever state from cursor
        → IsThere state from
        → IsListingFor L.tells from files listing
        → Finds L.tells was now files state listing cursor from found
        → IsGoing ever state from cursor found }
{
    places_have_one_form();
    reach_keeps_ends();
    a_reading_finds_what_is_between();
}

/// A law: whatever the landing tells, a flow of a store that is ready for its plan goes on by rows that fit the columns of its
/// source, moves on, and is never lost.
pub fn a_flow_of_a_ready_store_goes_on<L: Landing>()
    ensures { (was now : ℕ) (files : List LandingFile) (plan : List Part) (state : State) (level : ℕ) (listing : FolderListing) (from : Origin) (columns : List Column) (old : Cursor) (found : Found)
        → IsReady plan state
        → flow_columns plan level from ≡ Some columns
        → KeepsText from
        → IsPosition state (stored_origin from) old
        → Finds L.tells was now files state listing old from found
        → IsNext state from columns old found }
{
    a_state_comes_of_payloads();
}

/// A law: whatever the landing tells, what a flow finds blames it only where the folder's listing failed, or its count of
/// faults rose.
pub fn what_is_found_blames_a_landing_that_failed<L: Landing>()
    ensures { (was now : ℕ) (files : List LandingFile) (state : State) (listing : FolderListing) (from : Origin) (cursor : Cursor) (found : Found)
        → Finds L.tells was now files state listing cursor from found
        → FoundBlames listing was now found }
{}
