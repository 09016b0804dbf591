// The path of a cycle.
ghost use Rattle.std.specs.Prelude.{◌≡◌, ◌≢◌, ◌<◌, ◌↔◌, ℕ, IsTrue, IfOk, IfSome, IfNone, length, slice_index, ◌++◌, ◌∷◌, []};
ghost use Rattle.std.specs.List.{All, AllPairs};
ghost use Rattle.graph_check.specs.Graphs.{AreWithin};
ghost use Rattle.graph_check.specs.Levels.{HasLevel};
ghost use Rattle.graph_check.specs.Paths.{IsNext, IsLeastWithout, IsTrail, IsCyclePath};
ghost use Rattle.graph_check.specs.Rounds.{ShowLevels};

use crate::numbers::Places;
use std::alloc::{AllocError, Global};

/// Whether an edge leads from this node to one without a level.
fn leads_on(count: u32, heights: &[u32], node: u32, edge: &(u32, u32)) -> bool
    requires { edge.now.1 < length heights.now }
    ensures { IsTrue result ↔ ((edge.now.0 ≡ node) × (slice_index heights.now edge.now.1 ≡ count)) }
{
    if edge.0 != node {
        return false;
    }
    heights[edge.1 as usize] == count
}

/// The first source of a node without a level, in the order of the edges, that has none either.
fn next_of(count: u32, edges: &[(u32, u32)], heights: &[u32], node: u32) -> u32
    requires within { AreWithin count edges.now }
    requires shown { ShowLevels count edges.now heights.now }
    requires no_level { HasLevel edges.now node → ⊥ }
    ensures below { result < count }
    ensures next { IsNext edges.now node result }
{
    for edge in edges {
        if leads_on(count, heights, node, edge) {
            return edge.1;
        }
    }
    unreachable!()
}

/// The place of a node in a trail.
fn place_of(trail: &[u32], node: u32) -> Option<usize>
    ensures some { IfSome result (λ place. (place < length trail.now) × (slice_index trail.now place ≡ node)) }
    ensures none { IfNone result ((k : ℕ) → k < length trail.now → slice_index trail.now k ≢ node) }
{
    for (place, x) in trail.iter().enumerate() {
        if *x == node {
            return Some(place);
        }
    }
    None
}

/// The part of a trail from a place on, and behind it the node that stands there.
fn path_from(
    alloc: Global,
    count: u32,
    edges: &[(u32, u32)],
    trail: &[u32],
    place: usize,
    node: u32,
) -> Result<Places, AllocError>
    requires place { place < length trail.now }
    requires again { slice_index trail.now place ≡ node }
    requires trail { IsTrail edges.now (trail.now ++ node ∷ []) }
    requires distinct { AllPairs (λ x y. x ≢ y) trail.now }
    requires below { All (λ x. x < count) trail.now }
    requires inside { node < count }
    ensures path { IfOk result (λ path. IsCyclePath edges.now path) }
    ensures within { IfOk result (λ path. All (λ x. x < count) path) }
{
    let (_, part) = trail.split_at(place);
    let mut path = Vec::from_slice(alloc, part)?;
    path.push(node)?;
    Ok(Places::from_vec(path))
}

/// The path of the cycle to which the trail from the least node without a level comes.
pub(crate) fn cycle_path(
    alloc: Global,
    count: u32,
    edges: &[(u32, u32)],
    heights: &[u32],
    start: u32,
) -> Result<Places, AllocError>
    requires within { AreWithin count edges.now }
    requires shown { ShowLevels count edges.now heights.now }
    requires below { start < count }
    requires least { IsLeastWithout edges.now start }
    ensures path { IfOk result (λ path. IsCyclePath edges.now path) }
    ensures within { IfOk result (λ path. All (λ x. x < count) path) }
{
    let mut trail = Vec::new(alloc);
    let mut node = start;
    'walk: loop {
        if let Some(place) = place_of(trail.as_slice(), node) {
            return path_from(alloc, count, edges, trail.as_slice(), place, node);
        }
        trail.push(node)?;
        node = next_of(count, edges, heights, node);
    }
}
