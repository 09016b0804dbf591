// Which datasets of a plan stream from which, by their places.
ghost use Rattle.std.specs.Prelude.{◌≡◌, ◌<◌, ◌++◌, ◌^◌, [], ◌∷◌, IfOk, IfSome, OnOk, filter_map, length, map};
ghost use Rattle.graph_check.specs.Graphs.{AreWithin};
ghost use Rattle.state_steps.specs.Parts.{streams_of};
ghost use Rattle.stream_closure.specs.Streams.{edge_of, edges_of as the_edges_of, place_from};

use plan_core::{AppendFlow, Body, Dataset, Origin};
use std::alloc::{AllocError, Global};
use value_core::Name;

/// The place of the dataset of a name.
pub(crate) fn place_of(plan: &[Dataset], name: &Name) -> Option<u32>
    requires { length plan.now < 2 ^ 32 }
    ensures place { result ≡ place_from 0 plan.now name.now }
    ensures within { IfSome result (λ place. place < length plan.now) }
{
    for (place, dataset) in plan.iter().enumerate() {
        if dataset.name.is_same(name) {
            return Some(place as u32);
        }
    }
    None
}

/// The table at a place and the dataset from which its flow streams.
fn edge_to(plan: &[Dataset], reader: u32, origin: &Origin) -> Option<(u32, u32)>
    requires few { length plan.now < 2 ^ 32 }
    requires reader { reader < length plan.now }
    ensures edge { result ≡ edge_of plan.now reader origin.now }
    ensures within { IfSome result (λ edge. (edge.0 < length plan.now) × (edge.1 < length plan.now)) }
{
    match origin {
        Origin::Files { dir: _, shape: _ } => None,
        Origin::Table { name } => {
            let Some(source) = place_of(plan, name) else {
                return None;
            };
            Some((reader, source))
        }
    }
}

/// Puts the edge of a flow, if it has one, behind the others.
fn put_edge(
    edges: &mut Vec<(u32, u32)>,
    plan: &[Dataset],
    reader: u32,
    origin: &Origin,
) -> Result<(), AllocError>
    requires few { length plan.now < 2 ^ 32 }
    requires reader { reader < length plan.now }
    requires within { AreWithin (length plan.now) edges.old.items }
    ensures edges { OnOk result (edges.new.items ≡ edges.old.items ++ filter_map (edge_of plan.now reader) (origin.now ∷ [])) }
    ensures within { OnOk result (AreWithin (length plan.now) edges.new.items) }
{
    let Some(edge) = edge_to(plan, reader, origin) else {
        return Ok(());
    };
    edges.push(edge)?;
    Ok(())
}

/// Puts the edges of the flows of an append table.
fn put_flows(
    edges: &mut Vec<(u32, u32)>,
    plan: &[Dataset],
    reader: u32,
    flows: &[AppendFlow],
) -> Result<(), AllocError>
    requires few { length plan.now < 2 ^ 32 }
    requires reader { reader < length plan.now }
    requires within { AreWithin (length plan.now) edges.old.items }
    ensures edges { OnOk result (edges.new.items ≡ edges.old.items ++ filter_map (edge_of plan.now reader) (map (λ flow. flow.origin) flows.now)) }
    ensures within { OnOk result (AreWithin (length plan.now) edges.new.items) }
{
    for flow in flows {
        if let Some(edge) = edge_to(plan, reader, &flow.origin) {
            edges.push(edge)?;
        }
    }
    Ok(())
}

/// Puts the edges of a dataset.
fn put_edges(
    edges: &mut Vec<(u32, u32)>,
    plan: &[Dataset],
    reader: u32,
    body: &Body,
) -> Result<(), AllocError>
    requires few { length plan.now < 2 ^ 32 }
    requires reader { reader < length plan.now }
    requires within { AreWithin (length plan.now) edges.old.items }
    ensures edges { OnOk result (edges.new.items ≡ edges.old.items ++ filter_map (edge_of plan.now reader) (streams_of body.now)) }
    ensures within { OnOk result (AreWithin (length plan.now) edges.new.items) }
{
    match body {
        Body::Append(flows) => put_flows(edges, plan, reader, flows.as_slice()),
        Body::Cdc(cdc) => put_edge(edges, plan, reader, &cdc.origin),
        Body::View(_) => Ok(()),
    }
}

/// Each table and each dataset from which it streams, in declared order. Fails for want of memory alone.
pub(crate) fn edges_of(alloc: Global, plan: &[Dataset]) -> Result<Vec<(u32, u32)>, AllocError>
    requires { length plan.now < 2 ^ 32 }
    ensures edges { IfOk result (λ edges. edges.items ≡ the_edges_of plan.now) }
    ensures within { IfOk result (λ edges. AreWithin (length plan.now) edges.items) }
{
    let mut edges = Vec::new(alloc);
    for (place, dataset) in plan.iter().enumerate() {
        put_edges(&mut edges, plan, place as u32, &dataset.body)?;
    }
    Ok(edges)
}
