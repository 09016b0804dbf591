ghost use Rattle.graph_check.specs.Graphs.{AreWithin};
ghost use Rattle.std.specs.Prelude.{◌<◌};
ghost use Rattle.std.specs.List.{All};

use crate::{
    GraphEnd, closure, closure_holds_its_readers, closure_is_least, levels, levels_are_one,
    levels_have_no_cycle, sources_are_lower,
};
use std::alloc::Global;
use std::test::Fail;

/// Whether these are the levels.
fn gives_levels(alloc: Global, count: u32, edges: &[(u32, u32)], wanted: &[u32]) -> bool
    requires { AreWithin count edges.now }
{
    match levels(alloc, count, edges) {
        Ok(found) => found.into_vec().as_slice() == wanted,
        Err(_) => false,
    }
}

/// Whether this is the path of a cycle.
fn gives_path(alloc: Global, count: u32, edges: &[(u32, u32)], wanted: &[u32]) -> bool
    requires { AreWithin count edges.now }
{
    match levels(alloc, count, edges) {
        Err(GraphEnd::Cycle { path }) => path.as_slice() == wanted,
        _ => false,
    }
}

/// Whether this is the closure.
fn gives_closure(
    alloc: Global,
    count: u32,
    edges: &[(u32, u32)],
    set: &[u32],
    wanted: &[u32],
) -> bool
    requires within { AreWithin count edges.now }
    requires below { All (λ node. node < count) set.now }
{
    match closure(alloc, count, edges, set) {
        Ok(found) => found.as_slice() == wanted,
        Err(_) => false,
    }
}

// Six datasets from bronze to gold; two tables that stream from one another; two views that read
// one another; silver, which is refreshed with bronze.
#[test]
fn worked_graphs(rt: HostRuntime) -> Result<(), Fail> {
    let alloc = rt.alloc();
    let gold = [(1, 0), (2, 1), (4, 3), (5, 2)];
    assert!(rt; gives_levels(alloc, 6, &gold, &[0, 1, 2, 0, 1, 3]));
    let pair = [(0, 1), (1, 0)];
    assert!(rt; gives_path(alloc, 2, &pair, &[0, 1, 0]));
    let silver = [(1, 0)];
    assert!(rt; gives_closure(alloc, 2, &silver, &[0], &[0, 1]));
    sources_are_lower();
    levels_have_no_cycle();
    levels_are_one();
    closure_holds_its_readers();
    closure_is_least();
    Ok(())
}
