//! Laws of what is checked.

ghost use Rattle.std.specs.Prelude.{◌≡◌, ◌<◌, ℕ, IsTrue, List, Ok, Some, map, not, slice_get};
ghost use Rattle.std.specs.List.{AllPairs};
ghost use Rattle.value_core.specs.NameFold.{same_name};
ghost use Rattle.graph_check.specs.Graphs.{Reads};
ghost use Rattle.sql_tree.specs.declared.statement.Statement.{Statement};
ghost use Rattle.plan_core.specs.declared.plan.Dataset.{Dataset};
ghost use Rattle.name_checks.specs.Edges.{dataset_names, reading_edges};
ghost use Rattle.plan_check.specs.Checks.{Checks};

/// A law: the datasets of a plan that the checks give have the names that the statements declare, in
/// declared order.
pub fn plans_have_the_declared_names()
    ensures { (statements : List Statement) (plan : List Dataset) → Checks statements (Ok plan) → map (λ dataset. dataset.name) plan ≡ dataset_names statements }
{}

/// A law: the names of the datasets of a plan that the checks give differ in more than the case of
/// ASCII letters.
pub fn plans_have_different_names()
    ensures { (statements : List Statement) (plan : List Dataset) → Checks statements (Ok plan) → AllPairs (λ a b. IsTrue (not (same_name a.name b.name))) plan }
{}

/// A law: in a plan that the checks give, a dataset is of a greater level than each dataset that it
/// reads.
pub fn plans_have_lesser_sources()
    ensures { (statements : List Statement) (plan : List Dataset) → Checks statements (Ok plan) → (reader source : ℕ) (reading read : Dataset) → Reads (reading_edges statements) reader source → slice_get plan reader ≡ Some reading → slice_get plan source ≡ Some read → read.level < reading.level }
{}
