//! Laws of what the checks answer.

ghost use Rattle.std.specs.Prelude.{◌≡◌, ◌≢◌, ℕ, Err, List};
ghost use Rattle.sql_tree.specs.declared.statement.Statement.{Statement};
ghost use Rattle.graph_check.specs.Paths.{IsCyclePath};
ghost use Rattle.name_checks.specs.Edges.{IsNamedPath};
ghost use Rattle.origin_checks.specs.declared.resolved.Resolved.{Resolved};
ghost use Rattle.origin_checks.specs.Resolving.{AreResolved};
ghost use Rattle.plan_check.specs.declared.refusal.CheckRefusal.TheVariants as refusal;
ghost use Rattle.plan_check.specs.Checks.{Answer, Checks, Told};

use file_options::options_have_one_answer;
use graph_check::{levels_are_one, levels_have_no_cycle};

/// A law: a graph has at most one path by which a cycle is shown.
pub fn graphs_have_one_path()
    ensures { (edges : List (ℕ × ℕ)) (first second : List ℕ) → IsCyclePath edges first → IsCyclePath edges second → first ≡ second }
{}

/// A law: a cycle of datasets is told by at most one path of names.
pub fn cycles_have_one_named_path()
    ensures { (statements : List Statement) (first second : List (List ℕ)) → IsNamedPath statements first → IsNamedPath statements second
        → first ≡ second }
{}

/// A law: what statements read is resolved in at most one way.
pub fn origins_are_resolved_in_one_way()
    ensures { (statements : List Statement) (first second : List Resolved) → AreResolved statements first → AreResolved statements second
        → first ≡ second }
{
    options_have_one_answer();
}

/// A law: statements have at most one answer of their checks: a plan, the first check that they break, or
/// the path of a cycle.
pub fn statements_have_one_answer()
    ensures { (statements : List Statement) (first second : Answer) → Checks statements first → Checks statements second → first ≡ second }
{
    levels_are_one();
    levels_have_no_cycle();
    options_have_one_answer();
}

/// A law: want of memory is no answer of the checks.
pub fn checks_give_no_memory()
    ensures { (statements : List Statement) → Checks statements (Err refusal.Memory) → ⊥ }
{}

/// A law: what is told of the same statements twice, with memory for both, is the same.
pub fn two_checks_tell_the_same()
    ensures { (statements : List Statement) (first second : Answer) → Told (Checks statements) first → Told (Checks statements) second
        → first ≢ Err refusal.Memory → second ≢ Err refusal.Memory → first ≡ second }
{
    statements_have_one_answer();
}
