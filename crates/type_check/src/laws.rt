//! Laws of what is checked.

ghost use Rattle.std.specs.Prelude.{◌≡◌, All, List, Result, Ok};
ghost use Rattle.sql_tree.specs.declared.statement.Statement.{Statement};
ghost use Rattle.plan_core.specs.declared.plan.Dataset.{Dataset};
ghost use Rattle.plan_core.specs.Sound.{IsSoundPlan};
ghost use Rattle.type_check.specs.Rules.{Break, Checked};
ghost use Rattle.type_check.specs.Texts.{KeepsText};

use file_options::{options_have_one_answer, rescued_columns_are_texts};

/// A law: the checks give one answer by statements.
pub fn statements_have_one_answer()
    ensures { (statements : List Statement) (one other : Result (List Dataset) Break)
        → Checked statements one → Checked statements other → one ≡ other }
{
    options_have_one_answer();
}

/// A law: a plan that the checks give is sound.
pub fn checked_plans_are_sound()
    ensures { (statements : List Statement) (plan : List Dataset) → Checked statements (Ok plan) → IsSoundPlan plan }
{}

/// A law: in a plan that the checks give, the columns of the lines of files end in a STRING column
/// where something is rescued.
pub fn checked_tables_keep_text()
    ensures { (statements : List Statement) (plan : List Dataset) → Checked statements (Ok plan) → All KeepsText plan }
{
    rescued_columns_are_texts();
}
