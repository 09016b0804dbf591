ghost use Rattle.std.specs.Prelude.{◌≡◌, ◌⊎◌, ℕ, List, [], Option, Some, IsTrue};
ghost use Rattle.plan_core.specs.declared.plan.Dataset.{Dataset};
ghost use Rattle.table_update.specs.declared.table.AppendTable.{AppendTable};
ghost use Rattle.landing_core.specs.declared.landing.LandingFile.{LandingFile};
ghost use Rattle.table_update.specs.declared.end.UpdateEnd.TheVariants as ends;
ghost use Rattle.table_update.specs.Stands.{HasStanding};
ghost use Rattle.table_update.specs.Table.{is_sound_plan};
ghost use Rattle.pipeline_run.specs.declared.outcome.Outcome.TheVariants as outcomes;
ghost use Rattle.pipeline_run.specs.declared.command.Command.{Command};
ghost use Rattle.pipeline_run.specs.declared.outcome.Status.{Status};
ghost use Rattle.pipeline_run.specs.declared.outcome.Status.TheVariants as status;
ghost use Rattle.pipeline_run.specs.Ends.{NothingFailed, RanWell, SameEnd, NothingRefused, HasShrunk, AreValidates, HaveUpdate};
ghost use Rattle.pipeline_run.specs.Pipeline.{HasPlan};
ghost use Rattle.pipeline_run.specs.Run.{Around, ComesTo, Ran, RunState};
ghost use Rattle.pipeline_run.specs.Table.{AsksFor, plan_of};
ghost use Rattle.pipeline_run.specs.Update.{Ended};

use pipeline_sql::{a_reading_has_one_print, a_text_has_one_answer};
use store_core::a_file_has_one_state;
use table_update::{
    an_update_has_one_end, an_update_succeeds_where_nothing_is_refused as an_update_succeeds,
    settled_files_are_alike,
};
use type_check::{checked_plans_are_sound, checked_tables_keep_text, statements_have_one_answer};

/// A law: where no device fails and memory is there, what a run answers, commits and prints follows from the words, the
/// text, the landing files, the store's file and its room.
pub fn a_run_has_one_end()
    ensures { (asked : Option (List Command)) (around : Around) (answer other : Status) (updates others : List Ended) (old new also : RunState) → RanWell asked around answer updates old new → RanWell asked around other others old also → SameEnd answer other updates others new also }
{
    a_text_has_one_answer();
    statements_have_one_answer();
    an_update_has_one_end();
    settled_files_are_alike();
}

/// A law: where no device fails, and there is nothing to refuse when commands begin, they succeed or memory runs out, however
/// many updates are among them. The text's statements break no check, the store is the pipeline's table or an empty one,
/// no file is shorter than its place, and there is room. So an update that succeeded leaves nothing to refuse to those behind it.
pub fn commands_succeed_where_nothing_is_refused()
    ensures { (commands : List Command) (around : Around) (answer : Status) (updates : List Ended) (old new : RunState) → Ran (Some commands) around answer updates old new → NothingFailed old new → NothingRefused around old.file → (answer ≡ status.Ok) ⊎ (answer ≡ status.Memory) }
{
    a_text_has_one_answer();
    statements_have_one_answer();
    an_update_succeeds();
}

/// A law: where no device fails, and a listed file is shorter than how far the pipeline's table has read it, commands with an
/// update among them stop, or memory runs out. Beside the law before, they stop exactly there, if nothing else is refused.
pub fn commands_stop_where_a_file_shrank()
    ensures { (commands : List Command) (around : Around) (answer : Status) (updates : List Ended) (old new : RunState) → HaveUpdate commands → Ran (Some commands) around answer updates old new → NothingFailed old new → HasShrunk around old.file → (answer ≡ status.Stopped) ⊎ (answer ≡ status.Memory) }
{
    a_text_has_one_answer();
    statements_have_one_answer();
    a_file_has_one_state();
}

/// A law: where no device fails and memory is there, `validate` succeeds where the text's statements break no check.
pub fn validates_succeed_where_no_check_is_broken()
    ensures { (commands : List Command) (around : Around) (answer : Status) (updates : List Ended) (old new : RunState) (plan : List Dataset) → AreValidates commands → RanWell (Some commands) around answer updates old new → HasPlan around.text plan → answer ≡ status.Ok }
{
    a_text_has_one_answer();
    statements_have_one_answer();
}

/// A law: tables of one canonical text are one, with their columns, files and options, whichever texts ask for them.
pub fn tables_of_one_text_are_one()
    ensures { (text other : List ℕ) (table also : AppendTable) → HasPlan text (plan_of (Some table)) → HasPlan other (plan_of (Some also)) → table.text ≡ also.text → table ≡ also }
{
    a_reading_has_one_print();
    statements_have_one_answer();
}

/// A law: where the store stands for the table of a text that passes the checks, whichever text that is, no command refuses it
/// as unfit.
pub fn a_store_that_stands_is_never_unfit()
    ensures { (text : List ℕ) (stood : AppendTable) (ever : List LandingFile) (command : Command) (around : Around) (table : Option (List ℕ)) (name : List ℕ) (updates : List Ended) (before after : List ℕ) → HasPlan text (plan_of (Some stood)) → HasStanding stood ever before → ComesTo command around (outcomes.Updated table (ends.Unfit name)) updates before after → ⊥ }
{
    a_reading_has_one_print();
    statements_have_one_answer();
    a_file_has_one_state();
}

/// A law: a text asks for one table or for none.
pub fn a_text_asks_for_one_table()
    ensures one { (text : List ℕ) (asked other : Option AppendTable) → HasPlan text (plan_of asked) → HasPlan text (plan_of other) → asked ≡ other }
    ensures table { (text : List ℕ) (table : AppendTable) → HasPlan text (plan_of (Some table)) → AsksFor text table }
    ensures none { (text : List ℕ) (table : AppendTable) → HasPlan text [] → AsksFor text table }
{
    a_text_has_one_answer();
    statements_have_one_answer();
}

/// A law: each plan that the checks give is that of a table, or of none.
pub fn each_plan_is_updated()
    ensures { (text : List ℕ) (plan : List Dataset) → HasPlan text plan → (asked : Option AppendTable) × (plan ≡ plan_of asked) × IsTrue (is_sound_plan asked) }
{
    checked_plans_are_sound();
    checked_tables_keep_text();
}
