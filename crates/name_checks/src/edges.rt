//! The levels of datasets that read one another.

ghost use Rattle.std.specs.Prelude.{◌≡◌, ◌≤◌, ◌<◌, length, map, option_and_then, IfOk, IfErr, IfSome};
ghost use Rattle.std.specs.List.{All};
ghost use Rattle.std.specs.Option.{option_copied};
ghost use Rattle.graph_check.specs.Graphs.{AreWithin, IsCyclic};
ghost use Rattle.graph_check.specs.Levels.{AreLevels};
ghost use Rattle.graph_check.specs.Paths.{IsCyclePath};
ghost use Rattle.name_checks.specs.Edges as spec;

use crate::sources::{reader_name, source_name};
use graph_check::{GraphEnd, LevelList, levels};
use sql_tree::{Statement, Statements};
use statement_checks::dataset_name;
use std::alloc::{AllocError, Global};
use value_core::{ListOf, Name, Names};

/// Why datasets have no levels.
#[derive(Debug, Drop)]
pub enum LevelEnd {
    /// Datasets read one another in a cycle: from the first dataset without a level on, each one is
    /// followed by the first without a level that it reads, until one comes again. The path begins
    /// and ends with that one.
    Cycle { path: Names },
    /// There was no memory.
    Memory,
}

impl From<AllocError> for LevelEnd {
    ghost use Rattle.std.specs.Prelude.{◌≡◌};
    ghost use Rattle.name_checks.specs.declared.edges.LevelEnd.TheVariants.{Memory};

    ghost from_gives = { λ _ e. e ≡ Memory };

    fn from(_: AllocError) -> LevelEnd {
        LevelEnd::Memory
    }
}

/// The names of the datasets, in declared order.
fn dataset_names(alloc: Global, statements: &[Statement]) -> Result<Names, AllocError>
    ensures names { IfOk result (λ names. names ≡ spec.dataset_names statements.now) }
    ensures few { IfOk result (λ names. length names ≤ length statements.now) }
{
    let mut names = ListOf::new(alloc);
    for statement in statements {
        if let Some(name) = dataset_name(statement) {
            names.push(name.copy(alloc)?)?;
        }
    }
    Ok(names)
}

/// The place of the dataset of a name.
fn place_of(names: &[Name], name: &Name) -> Option<usize>
    ensures place { result ≡ spec.dataset_place names.now name.now }
    ensures within { IfSome result (λ place. place < length names.now) }
{
    names.iter().position(|other| name.is_same(other))
}

/// The place of the dataset of a name, if there is one.
fn place_in(names: &[Name], name: Option<&Name>) -> Option<u32>
    requires { length names.now ≤ 1280 }
    ensures place { result ≡ option_and_then (spec.dataset_place names.now) (option_copied name.entry) }
    ensures within { IfSome result (λ place. place < length names.now) }
{
    let Some(name) = name else {
        return None;
    };
    let Some(place) = place_of(names, name) else {
        return None;
    };
    Some(place as u32)
}

/// A reader and its source, by their places.
fn edge_of(names: &[Name], statement: &Statement) -> Option<(u32, u32)>
    requires { length names.now ≤ 1280 }
    ensures edge { result ≡ spec.reading_edge names.now statement.now }
    ensures within { IfSome result (λ edge. (edge.0 < length names.now) × (edge.1 < length names.now)) }
{
    let Some(reader) = place_in(names, reader_name(statement)) else {
        return None;
    };
    let Some(source) = place_in(names, source_name(statement)) else {
        return None;
    };
    Some((reader, source))
}

/// What reads what, in declared order.
fn edges_in(
    alloc: Global,
    names: &[Name],
    statements: &[Statement],
) -> Result<Vec<(u32, u32)>, AllocError>
    requires { length names.now ≤ 1280 }
    ensures edges { IfOk result (λ edges. edges.items ≡ spec.edges_among names.now statements.now) }
    ensures within { IfOk result (λ edges. AreWithin (length names.now) edges.items) }
{
    let mut edges = Vec::new(alloc);
    for statement in statements {
        if let Some(edge) = edge_of(names, statement) {
            edges.push(edge)?;
        }
    }
    Ok(edges)
}

/// The names at these places.
fn names_at(alloc: Global, names: &[Name], places: &[u32]) -> Result<Names, AllocError>
    requires { All (λ place. place < length names.now) places.now }
    ensures { IfOk result (λ path. path ≡ map (spec.dataset_name_at names.now) places.now) }
{
    let mut path = ListOf::new(alloc);
    for place in places {
        path.push(names[*place as usize].copy(alloc)?)?;
    }
    Ok(path)
}

/// The level of each dataset, in declared order: 0 where it reads none, else one more than its
/// greatest source's. Answers the path of a cycle exactly where there is one. The statements have
/// passed the checks of what they declare and of their names. Looks at each flow once for each
/// dataset.
pub fn levels_of(alloc: Global, statements: &Statements) -> Result<LevelList, LevelEnd>
    requires { length statements.now ≤ 1280 }
    ensures levels { IfOk result (λ v. AreLevels (length (spec.dataset_names statements.now)) (spec.reading_edges statements.now) v) }
    ensures no_cycle { IfOk result (λ _. IsCyclic (spec.reading_edges statements.now) → ⊥) }
    ensures cycle { IfErr result (λ e. spec.IfNamedCycle e (λ _. IsCyclic (spec.reading_edges statements.now))) }
    ensures path { IfErr result (λ e. spec.IfNamedCycle e (λ path. spec.IsNamedPath statements.now path)) }
{
    let names = dataset_names(alloc, statements.as_slice())?;
    let edges = edges_in(alloc, names.as_slice(), statements.as_slice())?;
    match levels(alloc, names.len() as u32, edges.as_slice()) {
        Ok(levels) => Ok(levels),
        Err(GraphEnd::Cycle { path }) => {
            let path = names_at(alloc, names.as_slice(), path.as_slice())?;
            Err(LevelEnd::Cycle { path })
        }
        Err(GraphEnd::Memory) => Err(LevelEnd::Memory),
    }
}
