//! Laws of the plans that the checks give.

ghost use Rattle.std.specs.Prelude.{List, Ok};
ghost use Rattle.std.specs.List.{AllByRecursion};
ghost use Rattle.sql_tree.specs.declared.statement.Statement.{Statement};
ghost use Rattle.plan_core.specs.declared.plan.Dataset.{Dataset};
ghost use Rattle.plan_core.specs.Sound.{IsSoundPlan};
ghost use Rattle.plan_check.specs.Checks.{Checks};
ghost use Rattle.state_steps.specs.Parts.{AllKeepText, streams_of};
ghost use Rattle.plan_laws.specs.Flows.{HasFlowsApart};

use feed_checks::{feeds_are_sound, targets_have_kinds};
use file_options::rescued_columns_are_texts;
use plan_check::plans_have_different_names;
use select_checks::{
    checked_expectations_are_sound, checked_streams_are_sound, checked_views_are_sound,
};

/// A law: a plan that the checks give is sound.
pub fn checked_plans_are_sound()
    ensures { (statements : List Statement) (plan : List Dataset) → Checks statements (Ok plan) → IsSoundPlan plan }
{
    plans_have_different_names();
    checked_streams_are_sound();
    checked_views_are_sound();
    checked_expectations_are_sound();
    feeds_are_sound();
    targets_have_kinds();
}

/// A law: in a plan that the checks give, what is rescued of the lines of files has a STRING column.
pub fn checked_plans_keep_text()
    ensures { (statements : List Statement) (plan : List Dataset) → Checks statements (Ok plan) → AllByRecursion (λ dataset. AllKeepText (streams_of dataset.body)) plan }
{
    rescued_columns_are_texts();
}

/// A law: in a plan that the checks give, the names of a table's flows differ in more than the case of
/// ASCII letters, and so each of these flows is the one that its name finds.
pub fn flows_of_checked_plans_differ()
    ensures { (statements : List Statement) (plan : List Dataset) → Checks statements (Ok plan) → AllByRecursion (λ dataset. HasFlowsApart dataset.body) plan }
{}
