//! The phases of the checks, one behind the other.

ghost use Rattle.std.specs.Prelude.{◌≡◌, ◌≤◌, [], length, None, Ok, List};
ghost use Rattle.graph_check.specs.Levels.{AreLevels};
ghost use Rattle.plan_core.specs.declared.plan.Dataset.{Dataset as Datum};
ghost use Rattle.name_checks.specs.Edges.{dataset_names, reading_edges};
ghost use Rattle.name_checks.specs.Names.{first_name_break};
ghost use Rattle.statement_checks.specs.Breaks.{first_break as first_declared_break};
ghost use Rattle.plan_check.specs.Names as names;
ghost use Rattle.plan_check.specs.Walks as walks;
ghost use Rattle.plan_check.specs.Checks as spec;

use crate::placing::plan_in_order;
use crate::refusal::CheckRefusal;
use crate::visits::{Visit, declared_places, visits_with};
use crate::walking::walk;
use dataset_checks::DatasetEnd;
use name_checks::{LevelEnd, levels_of};
use origin_checks::{Resolved, all_resolved};
use plan_core::Plan;
use sql_tree::{Statement, Statements};
use std::alloc::{AllocError, Global};

/// The plan of the datasets of these visits, in the order of places, or the first break.
fn planned(
    alloc: Global,
    statements: &[Statement],
    resolved: &[Resolved],
    visits: &[Visit],
    places: &[usize],
) -> Result<Plan, CheckRefusal>
    requires { (datasets : List Datum) → walks.walk statements.now resolved.now visits.now ≡ Ok datasets → names.AreNewBehind [] (walks.in_order visits.now places.now datasets) }
    ensures { spec.Told (λ answer. answer ≡ spec.planned visits.now places.now (walks.walk statements.now resolved.now visits.now)) result }
{
    match walk(alloc, statements, resolved, visits) {
        Ok(datasets) => match plan_in_order(alloc, visits, places, datasets) {
            Ok(plan) => Ok(plan),
            Err(AllocError) => Err(CheckRefusal::Memory),
        },
        Err(DatasetEnd::Refused(found)) => Err(CheckRefusal::Refused(found)),
        Err(DatasetEnd::Memory) => Err(CheckRefusal::Memory),
    }
}

/// The datasets by level.
fn walked(alloc: Global, statements: &[Statement], levels: &[u32]) -> Result<Plan, CheckRefusal>
    requires declared { first_declared_break statements.now ≡ None }
    requires levels { AreLevels (length (dataset_names statements.now)) (reading_edges statements.now) levels.now }
    ensures { spec.Told (spec.IsWalked statements.now) result }
{
    let resolved = all_resolved(alloc, statements)?;
    let places = declared_places(alloc, statements)?;
    let visits = visits_with(alloc, places.as_slice(), levels)?;
    planned(
        alloc,
        statements,
        resolved.as_slice(),
        visits.as_slice(),
        places.as_slice(),
    )
}

/// Behind the names that statements use: the levels, and then the datasets.
fn levelled(alloc: Global, statements: &Statements) -> Result<Plan, CheckRefusal>
    requires few { length statements.now ≤ 1280 }
    requires declared { first_declared_break statements.now ≡ None }
    ensures { spec.Told (spec.BehindNames statements.now None) result }
{
    match levels_of(alloc, statements) {
        Ok(levels) => walked(alloc, statements.as_slice(), levels.as_slice()),
        Err(LevelEnd::Cycle { path }) => Err(CheckRefusal::Cycle { path }),
        Err(LevelEnd::Memory) => Err(CheckRefusal::Memory),
    }
}

/// Behind what each statement declares: the names that they use, and then the rest.
fn named(alloc: Global, statements: &Statements) -> Result<Plan, CheckRefusal>
    requires few { length statements.now ≤ 1280 }
    requires declared { first_declared_break statements.now ≡ None }
    ensures { spec.Told (spec.BehindNames statements.now (first_name_break statements.now)) result }
{
    if let Some(found) = name_checks::first_break(alloc, statements)? {
        return Err(CheckRefusal::Refused(found));
    }
    levelled(alloc, statements)
}

/// The plan of a pipeline's statements (Databricks SQL reference, CREATE STREAMING TABLE, CREATE
/// MATERIALIZED VIEW, CREATE FLOW and AUTO CDC INTO), its datasets in declared order, or the first
/// check that they break. The checks go in four phases. First comes what each statement declares,
/// statement by statement: limits, and names that occur twice. Then come the names that each
/// statement uses: of a target or a source that is no dataset, or of a target that is a view. Then
/// comes a cycle of datasets that read one another. Then the datasets are judged by level and, of one
/// level, in declared order, each with its flows, its own columns and its expectations. A refusal has
/// the number of the statement that breaks the check, from 1; a cycle has the names of its path.
/// Memory comes for want of it alone.
pub fn check(alloc: Global, statements: &Statements) -> Result<Plan, CheckRefusal>
    ensures { spec.Told (spec.Checks statements.now) result }
{
    if let Some(found) = statement_checks::first_break(alloc, statements)? {
        return Err(CheckRefusal::Refused(found));
    }
    named(alloc, statements)
}
