ghost use Rattle.std.specs.Prelude.{◌≡◌, ◌≤◌, Bool, List, [], ℕ, map};
ghost use Rattle.value_core.specs.declared.cursor.Cursor.TheVariants.{Files};
ghost use Rattle.value_core.specs.declared.cursor.FilePlace.{FilePlace};
ghost use Rattle.value_core.specs.declared.shape.Shape.{Shape};
ghost use Rattle.landing_core.specs.declared.landing.LandingFile.{LandingFile};
ghost use Rattle.landing_core.specs.declared.landing.Listed.{Listed};
ghost use Rattle.landing_core.specs.Fresh.{heads_of, new_lines, reach};
ghost use Rattle.landing_core.specs.Names.{AreAscending};
ghost use Rattle.landing_core.specs.Places.{placed_names};
ghost use Rattle.landing_history.specs.Taken.{AreEnds, CanReadOn, HaveGrown, with_heads};
ghost use Rattle.plan_core.specs.Sound.{IsSoundPlan};
ghost use Rattle.plan_core.specs.declared.flow.Origin.TheVariants as origin;
ghost use Rattle.plan_core.specs.declared.plan.Dataset.{Dataset as Part};
ghost use Rattle.commit_payloads.specs.declared.definition.Definition.{Definition};
ghost use Rattle.commit_payloads.specs.declared.payload.Payload.TheVariants as payload;
ghost use Rattle.commit_payloads.specs.declared.payload.Payload.{Payload};
ghost use Rattle.commit_payloads.specs.declared.take.Refresh.{Refresh};
ghost use Rattle.commit_payloads.specs.declared.take.Take.{Take};
ghost use Rattle.commit_payloads.specs.Forms.{AreDefinitions, IsBase, IsBatch, IsRenewal};
ghost use Rattle.plan_core.specs.declared.flow.Origin.{Origin};
ghost use Rattle.value_core.specs.declared.cursor.Cursor.{Cursor};
ghost use Rattle.state_model.specs.After.{after_payload};
ghost use Rattle.state_model.specs.Dataset.{Dataset, State};
ghost use Rattle.state_model.specs.Follows.{Fits};
ghost use Rattle.state_model.specs.Saved.{compacted, saved};
ghost use Rattle.state_keeps.specs.Stored.{IsStored};
ghost use Rattle.state_steps.specs.Consumed.{row_of_line};
ghost use Rattle.state_steps.specs.Fresh.{AllAtEnd, IsAtEnd, IsFresh, Landed, ReadsBelow, Table, table_of};
ghost use Rattle.state_steps.specs.Parts.{IsOf, definition_of};
ghost use Rattle.state_steps.specs.Runs.{AreAllOf, AreInLevels, RunsAll};
ghost use Rattle.state_steps.specs.Shapes.{AllHaveShape, AllWithin, written_on};
ghost use Rattle.state_steps.specs.Stands.{Stands};
ghost use Rattle.state_steps.specs.Steps.{AreBetween, Commits, Defines, IsFound, Refreshes, Situation, Step, Steps, Takes};

/// A law: a store without datasets stands.
pub fn nothing_stands()
    ensures stands { (ever : List LandingFile) → Stands [] ever [] }
    ensures shaped { AllHaveShape [] [] }
{}

/// A law: the stored definition of a dataset of a plan is that of its parts.
pub fn definitions_have_their_parts()
    ensures { (plan : List Part) (part : Part) → IsOf part (definition_of plan part) }
{}

/// A law: a commit that is allowed leads from a store that stands to one that stands.
pub fn a_commit_keeps_a_store_standing()
    ensures { (parts new : List Part) (ever : List LandingFile) (state : State) (body : Payload)
        → Stands parts ever state
        → Commits parts ever state body new
        → Stands new ever (after_payload state body) }
{}

/// A law: a commit that is allowed is one that follows the state of a store that stands and has its shape, where no
/// dataset is past the limit of versions; a base begins a log. Batches, refreshes, definitions and bases have the form in
/// which they are written.
pub fn a_commit_follows_a_standing_store()
    ensures follows { (parts new : List Part) (ever : List LandingFile) (state : State) (body : Payload)
        → Stands parts ever state
        → AllHaveShape parts state
        → Commits parts ever state body new
        → AllWithin state
        → Fits (written_on state body) body }
    ensures batch { (parts : List Part) (ever : List LandingFile) (state : State) (batch : Take) → Takes parts ever state batch → IsBatch batch }
    ensures renewal { (parts : List Part) (state : State) (refresh : Refresh) → Refreshes parts state refresh → IsRenewal refresh }
    ensures definitions { (parts new : List Part) (ever : List LandingFile) (state : State) (is_fresh : Bool) (list : List Definition)
        → Stands parts ever state
        → AllHaveShape parts state
        → Defines parts new state is_fresh list
        → AreDefinitions list }
    ensures base { (parts : List Part) (ever : List LandingFile) (state : State)
        → Stands parts ever state
        → AllHaveShape parts state
        → IsBase (saved (compacted state)) }
{}

/// A law: from a store that stands and has its shape, an allowed commit leads to one that has it, and so does each list
/// of steps.
pub fn steps_keep_the_shape()
    ensures one { (parts new : List Part) (ever : List LandingFile) (state : State) (body : Payload)
        → Stands parts ever state
        → AllHaveShape parts state
        → Commits parts ever state body new
        → AllHaveShape new (after_payload state body) }
    ensures many { (was now : Situation)
        → Steps was now
        → Stands was.parts was.ever was.state
        → AllHaveShape was.parts was.state
        → AllHaveShape now.parts now.state }
{}

/// A law: a store that stands and has its shape, of which no dataset is past the limit of versions, is what a store may
/// be, so that each payload that follows it leads to a store, and its log can begin anew with it.
pub fn a_standing_store_is_a_store()
    ensures { (parts : List Part) (ever : List LandingFile) (state : State)
        → Stands parts ever state
        → AllHaveShape parts state
        → AllWithin state
        → IsStored state }
{}

/// A law: files that grow, appear or go leave a store standing.
pub fn growth_keeps_a_store_standing()
    ensures { (parts : List Part) (ever now : List LandingFile) (state : State)
        → Stands parts ever state
        → HaveGrown ever now
        → Stands parts now state }
{}

/// A law: from a store that stands each list of steps, in any order, leads to a store that stands.
pub fn steps_keep_a_store_standing()
    ensures one { (was now : Situation) → Step was now → Stands was.parts was.ever was.state → Stands now.parts now.ever now.state }
    ensures many { (was now : Situation) → Steps was now → Stands was.parts was.ever was.state → Stands now.parts now.ever now.state }
{}

/// A law: the rows that a reading of a folder finds are those between the places where it began and
/// those to which it came.
pub fn a_reading_finds_what_is_between()
    ensures { (state : State) (shape : Shape) (dir : List ℕ) (present ever : List LandingFile) (places : List FilePlace) (listing : List Listed)
        → CanReadOn dir present ever places listing
        → AreAscending (placed_names places)
        → AreEnds dir ever places
        → AreBetween ever state (origin.Files dir shape) (Files places) (Files (reach dir present places listing))
        (map (row_of_line shape) (with_heads (heads_of shape.format shape.header dir present listing) (new_lines shape.format shape.header dir present places 0 listing))) }
{}

/// A law: a store that stands, whose cursors over files stand where a first reading comes and all
/// others at their source's version now, has the tables of a full refresh.
pub fn a_store_at_its_end_is_fresh()
    ensures { (landed : Landed) (parts : List Part) (state : State)
        → Stands parts landed.ever state
        → AllAtEnd landed state parts state
        → IsFresh landed parts (map table_of state) }
{}

/// A law: a batch into a dataset, or its refresh, leaves at its end what a dataset of its level, or
/// of a lesser one, has read to its end.
pub fn a_commit_leaves_lesser_levels_at_their_ends()
    ensures take { (landed : Landed) (parts : List Part) (ever : List LandingFile) (state : State) (batch : Take) (part : Part) (target : Dataset) (level : ℕ) (from : Origin) (cursor : Cursor)
        → Stands parts ever state
        → IsFound parts state batch.table part target
        → level ≤ part.level
        → ReadsBelow parts level from
        → IsAtEnd landed state from cursor
        → IsAtEnd landed (after_payload state (payload.Take batch)) from cursor }
    ensures refresh { (landed : Landed) (parts : List Part) (ever : List LandingFile) (state : State) (renewal : Refresh) (part : Part) (target : Dataset) (level : ℕ) (from : Origin) (cursor : Cursor)
        → Stands parts ever state
        → IsFound parts state renewal.view part target
        → level ≤ part.level
        → ReadsBelow parts level from
        → IsAtEnd landed state from cursor
        → IsAtEnd landed (after_payload state (payload.Refresh renewal)) from cursor }
{}

/// A law: where the datasets of a store that stands run level by level, each until all that it reads was read to its
/// end, the store stands with every cursor at its end, and so it has the tables of a full refresh.
pub fn flows_that_run_level_by_level_end()
    ensures { (landed : Landed) (parts order : List Part) (state last : State)
        → Stands parts landed.ever state
        → AreInLevels parts order
        → AreAllOf parts order
        → RunsAll landed parts order state last
        → Stands parts landed.ever last × AllAtEnd landed last parts last × IsFresh landed parts (map table_of last) }
{}

/// A law: a full refresh of a sound plan has one answer.
pub fn a_full_refresh_has_one_answer()
    ensures { (landed : Landed) (plan : List Part) (tables others : List Table)
        → IsSoundPlan plan
        → IsFresh landed plan tables
        → IsFresh landed plan others
        → tables ≡ others }
{}
