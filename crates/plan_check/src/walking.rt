//! The datasets by level, each over those of lesser levels.

ghost use Rattle.std.specs.Prelude.{◌≡◌, ◌<◌, length, Some, IfOk};
ghost use Rattle.dataset_checks.specs.Ends.{Answers};
ghost use Rattle.plan_check.specs.Walks as spec;

use crate::visits::{Visit, levels_in, of_level};
use dataset_checks::{DatasetEnd, dataset_at, dataset_places};
use origin_checks::Resolved;
use plan_core::Dataset;
use sql_print::print_placed;
use sql_tree::Statement;
use sqlite_items::at;
use statement_checks::dataset_name;
use std::alloc::{AllocError, Global};
use value_core::{ListOf, Name, Text};

/// The canonical print of the statement of a dataset and of the flows into it.
fn text_named(
    alloc: Global,
    statements: &[Statement],
    place: usize,
    name: &Name,
) -> Result<Text, AllocError>
    requires { place < length statements.now }
    ensures { IfOk result (λ text. text ≡ spec.text_named statements.now place (Some name.now)) }
{
    let places = dataset_places(alloc, statements, place, name)?;
    print_placed(alloc, statements, places.as_slice())
}

/// The text of the dataset whose statement is at a place.
fn text_at(alloc: Global, statements: &[Statement], place: usize) -> Result<Text, AllocError>
    ensures { IfOk result (λ text. text ≡ spec.text_at statements.now place) }
{
    let Some(statement) = at(statements, place) else {
        return Text::new(alloc, "");
    };
    let Some(name) = dataset_name(statement) else {
        return Text::new(alloc, "");
    };
    text_named(alloc, statements, place, name)
}

/// A dataset over those of lesser levels.
fn visited(
    alloc: Global,
    statements: &[Statement],
    resolved: &[Resolved],
    lesser: &[Dataset],
    visit: &Visit,
) -> Result<Dataset, DatasetEnd>
    ensures { Answers (spec.visited statements.now resolved.now lesser.now visit.now) result }
{
    let text = text_at(alloc, statements, visit.place)?;
    dataset_at(
        alloc,
        statements,
        resolved,
        lesser,
        visit.place,
        visit.level,
        text,
    )
}

/// The datasets of one level behind those of lesser ones, over which each is checked.
#[tactic(auto, using(crate::proofs::Steps::lesser_kept))]
fn level_behind(
    alloc: Global,
    statements: &[Statement],
    resolved: &[Resolved],
    lesser: ListOf<Dataset>,
    visits: &[Visit],
) -> Result<ListOf<Dataset>, DatasetEnd>
    ensures { Answers (spec.level_behind statements.now resolved.now lesser lesser visits.now) result }
{
    let mut datasets = lesser;
    let count = datasets.len();
    for visit in visits {
        let (lesser, _) = datasets.as_slice().split_at(count);
        match visited(alloc, statements, resolved, lesser, visit) {
            Ok(dataset) => datasets.push(dataset)?,
            Err(end) => return Err(end),
        }
    }
    Ok(datasets)
}

/// The datasets by level, or the first break.
pub(crate) fn walk(
    alloc: Global,
    statements: &[Statement],
    resolved: &[Resolved],
    visits: &[Visit],
) -> Result<ListOf<Dataset>, DatasetEnd>
    ensures { Answers (spec.walk statements.now resolved.now visits.now) result }
{
    let levels = levels_in(alloc, visits)?;
    let mut datasets = ListOf::new(alloc);
    for level in levels.as_slice() {
        let visits = of_level(alloc, visits, *level)?;
        match level_behind(alloc, statements, resolved, datasets, visits.as_slice()) {
            Ok(found) => datasets = found,
            Err(end) => return Err(end),
        }
    }
    Ok(datasets)
}
