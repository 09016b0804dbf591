// Levels by rounds: after so many rounds a node's height is the length of its longest walk, or the number of rounds where that is less.
ghost use Rattle.std.specs.Prelude.{◌≡◌, ◌≤◌, ◌<◌, ◌+◌, ◌^◌, ◌≢◌, ℕ, IfOk, IfErr, IfSome, IfNone, length, slice_index, slice_set};
ghost use Rattle.std.specs.List.{All};
ghost use Rattle.graph_check.specs.Graphs.{AreWithin, IsCyclic};
ghost use Rattle.graph_check.specs.Levels.{AreLevels};
ghost use Rattle.graph_check.specs.Paths.{IsCyclePath};
ghost use Rattle.graph_check.specs.Ends.{IfCycle};
ghost use Rattle.graph_check.specs.Rounds.{AreAtRound};

use crate::cycle::cycle_path;
use crate::numbers::{LevelList, Places};
use std::alloc::{AllocError, Global};

/// Why a graph has no levels.
#[derive(Debug, Drop)]
pub enum GraphEnd {
    /// Nodes read one another in a cycle. From the least node without a level on, each node is
    /// followed by its first source, in the order of the edges, that has none, until a node comes
    /// again: the path begins and ends with that node.
    Cycle { path: Places },
    /// There was no memory.
    Memory,
}

impl From<AllocError> for GraphEnd {
    ghost use Rattle.std.specs.Prelude.{◌≡◌};
    ghost use Rattle.graph_check.specs.declared.heights.GraphEnd.TheVariants.{Memory};

    ghost from_gives = { λ _ e. e ≡ Memory };

    fn from(_: AllocError) -> GraphEnd {
        GraphEnd::Memory
    }
}

/// Raises a reader above the round where its source is as high as the round.
fn raise_reader(edge: &(u32, u32), heights: &mut [u32], round: u32)
    requires reader { edge.now.0 < length heights.old }
    requires source { edge.now.1 < length heights.old }
    requires room { round + 1 < 2 ^ 32 }
    ensures raised { round ≤ slice_index heights.old edge.now.1 → heights.new ≡ slice_set heights.old edge.now.0 (round + 1) }
    ensures kept { slice_index heights.old edge.now.1 < round → heights.new ≡ heights.old }
{
    let (reader, source) = *edge;
    if heights[source as usize] < round {
        return;
    }
    heights[reader as usize] = round + 1;
}

/// One round more.
fn raise(count: u32, edges: &[(u32, u32)], heights: &mut [u32], round: u32)
    requires within { AreWithin count edges.now }
    requires complete { length heights.old ≡ count }
    requires room { round + 1 < 2 ^ 32 }
    requires before { AreAtRound edges.now round heights.old }
    ensures complete { length heights.new ≡ count }
    ensures after { AreAtRound edges.now (round + 1) heights.new }
{
    for edge in edges {
        raise_reader(edge, heights, round);
    }
}

/// The first node of this height.
fn first_at(heights: &[u32], height: u32) -> Option<usize>
    ensures some { IfSome result (λ node. (node < length heights.now) × (slice_index heights.now node ≡ height) × ((k : ℕ) → k < node → slice_index heights.now k ≢ height)) }
    ensures none { IfNone result ((k : ℕ) → k < length heights.now → slice_index heights.now k ≢ height) }
{
    for (node, at) in heights.iter().enumerate() {
        if *at == height {
            return Some(node);
        }
    }
    None
}

/// The level of each node of a graph of so many nodes. An edge is a reader and its source, both below
/// the count. A node that reads none has level 0, and another one more than its greatest source's.
/// Answers the path of a cycle exactly where there is one. Looks at each edge once for each node.
pub fn levels(alloc: Global, count: u32, edges: &[(u32, u32)]) -> Result<LevelList, GraphEnd>
    requires { AreWithin count edges.now }
    ensures levels { IfOk result (λ v. AreLevels count edges.now v) }
    ensures no_cycle { IfOk result (λ _. IsCyclic edges.now → ⊥) }
    ensures cycle { IfErr result (λ e. IfCycle e (λ _. IsCyclic edges.now)) }
    ensures path { IfErr result (λ e. IfCycle e (λ path. IsCyclePath edges.now path)) }
    ensures within { IfErr result (λ e. IfCycle e (λ path. All (λ node. node < count) path)) }
{
    let mut heights = vec![in alloc; 0; count as usize]?;
    for round in 0..count {
        raise(count, edges, heights.as_mut_slice(), round);
    }
    match first_at(heights.as_slice(), count) {
        None => Ok(LevelList::from_vec(heights)),
        Some(start) => {
            let path = cycle_path(alloc, count, edges, heights.as_slice(), start as u32)?;
            Err(GraphEnd::Cycle { path })
        }
    }
}
