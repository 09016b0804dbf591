//! The order in which datasets are checked.

ghost use Rattle.std.specs.Prelude.{◌≡◌, ◌++◌, IfOk, OnOk, option_to_list};
ghost use Rattle.plan_check.specs.Visits as spec;

use sql_tree::Statement;
use statement_checks::dataset_name;
use std::alloc::{AllocError, Global};

/// A dataset to check: the place of its statement, from 0, and its level.
#[derive(Clone, Copy, Debug)]
pub struct Visit {
    pub place: usize,
    pub level: u32,
}

/// The places of the statements that declare datasets.
pub(crate) fn declared_places(
    alloc: Global,
    statements: &[Statement],
) -> Result<Vec<usize>, AllocError>
    ensures { IfOk result (λ places. places.items ≡ spec.declared_places statements.now) }
{
    let mut places = Vec::new(alloc);
    for place in 0..statements.len() {
        if dataset_name(&statements[place]).is_some() {
            places.push(place)?;
        }
    }
    Ok(places)
}

/// The datasets at these places, each with its level.
pub(crate) fn visits_with(
    alloc: Global,
    places: &[usize],
    levels: &[u32],
) -> Result<Vec<Visit>, AllocError>
    ensures { IfOk result (λ visits. visits.items ≡ spec.visits_with places.now levels.now) }
{
    let mut visits = Vec::new(alloc);
    let mut rest = levels;
    for place in places {
        let Some((level, more)) = rest.split_first() else {
            return Ok(visits);
        };
        visits.push(Visit {
            place: *place,
            level: *level,
        })?;
        rest = more;
    }
    Ok(visits)
}

fn greatest_level(visits: &[Visit]) -> u32
    ensures { result ≡ spec.greatest_level visits.now }
{
    let mut greatest = 0;
    for visit in visits {
        greatest = greatest.max(visit.level);
    }
    greatest
}

/// The levels from 0 to the greatest.
#[tactic(auto, using(crate::proofs::Steps::range_more))]
pub(crate) fn levels_in(alloc: Global, visits: &[Visit]) -> Result<Vec<u32>, AllocError>
    ensures { IfOk result (λ levels. levels.items ≡ spec.levels_in visits.now) }
{
    let mut levels = Vec::new(alloc);
    let greatest = greatest_level(visits);
    for level in 0..greatest {
        levels.push(level)?;
    }
    levels.push(greatest)?;
    Ok(levels)
}

/// Adds the datasets of one level.
fn add_level(order: &mut Vec<Visit>, visits: &[Visit], level: u32) -> Result<(), AllocError>
    ensures { OnOk result (order.new.items ≡ order.old.items ++ spec.of_level visits.now level) }
{
    for visit in visits {
        if visit.level == level {
            order.push(*visit)?;
        }
    }
    Ok(())
}

/// The datasets of one level, in declared order.
pub(crate) fn of_level(
    alloc: Global,
    visits: &[Visit],
    level: u32,
) -> Result<Vec<Visit>, AllocError>
    ensures { IfOk result (λ found. found.items ≡ spec.of_level visits.now level) }
{
    let mut found = Vec::new(alloc);
    add_level(&mut found, visits, level)?;
    Ok(found)
}

/// The datasets by level, and of one level in declared order. Looks at each one once for each level.
#[tactic(auto, using(crate::proofs::Steps::levels_more))]
pub(crate) fn by_level(alloc: Global, visits: &[Visit]) -> Result<Vec<Visit>, AllocError>
    ensures { IfOk result (λ order. order.items ≡ spec.by_level visits.now) }
{
    let levels = levels_in(alloc, visits)?;
    let mut order = Vec::new(alloc);
    for level in levels.as_slice() {
        add_level(&mut order, visits, *level)?;
    }
    Ok(order)
}

fn visit_of(visits: &[Visit], place: usize) -> Option<usize>
    ensures { result ≡ spec.visit_of visits.now place }
{
    visits.iter().position(|visit| visit.place == place)
}

fn add_visit(indices: &mut Vec<usize>, visits: &[Visit], place: usize) -> Result<(), AllocError>
    ensures { OnOk result (indices.new.items ≡ indices.old.items ++ option_to_list (spec.visit_of visits.now place)) }
{
    let Some(index) = visit_of(visits, place) else {
        return Ok(());
    };
    indices.push(index)?;
    Ok(())
}

/// Which visits are to the datasets at these places, in their order. Looks at each visit once for
/// each place.
pub(crate) fn visits_at(
    alloc: Global,
    visits: &[Visit],
    places: &[usize],
) -> Result<Vec<usize>, AllocError>
    ensures { IfOk result (λ indices. indices.items ≡ spec.visits_at visits.now places.now) }
{
    let mut indices = Vec::new(alloc);
    for place in places {
        add_visit(&mut indices, visits, *place)?;
    }
    Ok(indices)
}
