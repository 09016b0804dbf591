// What reads from a set of nodes, by marks.
ghost use Rattle.std.specs.Prelude.{◌≡◌, ◌<◌, ◌≤◌, ◌↔◌, ◌^◌, ℕ, IfOk, length, not, true, slice_set};
ghost use Rattle.std.specs.Bool.{OnTrue, OnFalse};
ghost use Rattle.std.specs.List.{All, Contains, count_by};
ghost use Rattle.std.specs.List.Sorted.{IsStrictlyIncreasing};
ghost use Rattle.graph_check.specs.Graphs.{AreWithin, IsInClosure};
ghost use Rattle.graph_check.specs.Marks.{IsMarked, MarksReaders, LeadsToMarked};

use crate::numbers::Places;
use std::alloc::{AllocError, Global};

/// Marks the nodes of a set.
fn mark_set(alloc: Global, count: u32, set: &[u32]) -> Result<Vec<bool>, AllocError>
    requires { All (λ node. node < count) set.now }
    ensures complete { IfOk result (λ v. length v.items ≡ count) }
    ensures marked { IfOk result (λ v. (node : ℕ) → IsMarked v.items node ↔ Contains set.now node) }
{
    let mut marks = vec![in alloc; false; count as usize]?;
    for node in set {
        marks[*node as usize] = true;
    }
    Ok(marks)
}

/// Marks a reader where its source is marked, and tells whether it was not.
fn mark_reader(edge: &(u32, u32), marks: &mut [bool]) -> bool
    requires reader { edge.now.0 < length marks.old }
    requires source { edge.now.1 < length marks.old }
    ensures marked { OnTrue result (marks.new ≡ slice_set marks.old edge.now.0 true) }
    ensures by_source { OnTrue result (IsMarked marks.old edge.now.1) }
    ensures first { OnTrue result (IsMarked marks.old edge.now.0 → ⊥) }
    ensures kept { OnFalse result (marks.new ≡ marks.old) }
    ensures closed { OnFalse result (IsMarked marks.new edge.now.1 → IsMarked marks.new edge.now.0) }
{
    let (reader, source) = *edge;
    if !marks[source as usize] {
        return false;
    }
    if marks[reader as usize] {
        return false;
    }
    marks[reader as usize] = true;
    true
}

/// Marks readers of marked nodes, and tells whether one was marked.
fn mark_readers(count: u32, edges: &[(u32, u32)], marks: &mut [bool]) -> bool
    requires within { AreWithin count edges.now }
    requires complete { length marks.old ≡ count }
    ensures complete { length marks.new ≡ count }
    ensures kept { (node : ℕ) → IsMarked marks.old node → IsMarked marks.new node }
    ensures leads { (node : ℕ) → IsMarked marks.new node → LeadsToMarked edges.now marks.old node }
    ensures fewer { OnTrue result (count_by not marks.new < count_by not marks.old) }
    ensures closed { OnFalse result (MarksReaders edges.now marks.new) }
{
    let mut changed = false;
    for edge in edges {
        if mark_reader(edge, marks) {
            changed = true;
        }
    }
    changed
}

/// The marked places in order.
fn places_of(alloc: Global, marks: &[bool]) -> Result<Places, AllocError>
    requires { length marks.now < 2 ^ 32 }
    ensures ascending { IfOk result (λ v. IsStrictlyIncreasing v) }
    ensures marked { IfOk result (λ v. (node : ℕ) → Contains v node ↔ IsMarked marks.now node) }
{
    let mut places = Vec::new(alloc);
    for (place, mark) in marks.iter().enumerate() {
        if *mark {
            places.push(place as u32)?;
        }
    }
    Ok(Places::from_vec(places))
}

/// The nodes of a set and all that read from them, directly or not, in ascending order. An edge is a
/// reader and its source; nodes are below the count. Fails for want of memory alone. Looks at each
/// edge at most once more than there are nodes.
pub fn closure(
    alloc: Global,
    count: u32,
    edges: &[(u32, u32)],
    set: &[u32],
) -> Result<Places, AllocError>
    requires within { AreWithin count edges.now }
    requires below { All (λ node. node < count) set.now }
    ensures ascending { IfOk result (λ v. IsStrictlyIncreasing v) }
    ensures exact { IfOk result (λ v. (node : ℕ) → Contains v node ↔ IsInClosure edges.now set.now node) }
{
    let mut marks = mark_set(alloc, count, set)?;
    'rounds: loop {
        if !mark_readers(count, edges, marks.as_mut_slice()) {
            return places_of(alloc, marks.as_slice());
        }
    }
}
