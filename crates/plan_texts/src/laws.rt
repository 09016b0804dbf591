//! Laws of the texts of datasets.

ghost use Rattle.std.specs.Prelude.{◌≡◌, List, Ok, ℕ};
ghost use Rattle.sql_tree.specs.declared.statement.Statement.{Statement};
ghost use Rattle.sql_print.specs.Placed.{statements_at};
ghost use Rattle.pipeline_sql.specs.Read.{print_text};
ghost use Rattle.plan_core.specs.Sound.{IsSoundPlan};
ghost use Rattle.plan_core.specs.declared.plan.Dataset.{Dataset};
ghost use Rattle.plan_check.specs.Checks.{Checks};
ghost use Rattle.plan_texts.specs.Judged.{AreJudged};
ghost use Rattle.plan_texts.specs.Readings.{AreRead};
ghost use Rattle.plan_texts.specs.Texts.{AreOfPlan, HaveTexts};

use file_options::options_have_one_answer;
use pipeline_sql::equal_prints_have_equal_statements;
use plan_check::{
    plans_have_different_names, plans_have_lesser_sources, plans_have_the_declared_names,
};
use sql_statements::answers_are_one;

/// A law: where some statements that are read of one text and some that are read of another one have
/// one canonical print, they are equal.
pub fn prints_tell_parts_apart()
    ensures { (first second : List Statement) (some others : List ℕ)
        → AreRead first
        → AreRead second
        → print_text (statements_at first some) ≡ print_text (statements_at second others)
        → statements_at first some ≡ statements_at second others }
{
    answers_are_one();
    equal_prints_have_equal_statements();
}

/// A law: each dataset of a plan that the checks give is what its statement and the flows into it make
/// over datasets of the plan, and has their canonical print for its text and the level above what they
/// read.
pub fn plans_are_judged()
    ensures { (statements : List Statement) (plan : List Dataset) → Checks statements (Ok plan) → AreJudged statements plan }
{
    plans_have_the_declared_names();
    plans_have_different_names();
    plans_have_lesser_sources();
}

/// A law: where datasets of one pipeline, closed under what they read, are declared in another one under
/// their names with their texts, that one has the very datasets under these names: the same columns,
/// flows or query, expectations and levels.
pub fn datasets_of_one_text_are_one()
    ensures { (first second : List Statement) (old new parts : List Dataset)
        → AreRead first
        → AreRead second
        → Checks first (Ok old)
        → Checks second (Ok new)
        → IsSoundPlan parts
        → AreOfPlan old parts
        → HaveTexts new parts
        → AreOfPlan new parts }
{
    prints_tell_parts_apart();
    plans_are_judged();
    options_have_one_answer();
}
