// What the edges from a node show.
ghost use Rattle.std.specs.Prelude.{◌≡◌, IfOk, Some, None};
ghost use Rattle.wm_verdict.specs.Places.{FitsNode, instance_at};
ghost use Rattle.wm_verdict.specs.Sites.{IsSeenAt, IsFound, AreLeading};

use crate::edges::{edge_seen, instance_at};
use std::alloc::Global;
use wm_domain::Domain;
use wm_flow::{Edge, Graph};
use wm_ops::NoMemory;
use wm_program::Program;
use wm_tally::Seen;

/// What an edge showed.
#[derive(Clone, Copy)]
pub struct Found {
    /// None where the edge has no site.
    pub site: Option<u32>,
    pub instance: u32,
    pub seen: Seen,
}

/// What an edge from a node shows by the node's label.
fn seen_by<D: Domain>(
    alloc: Global,
    program: &Program,
    graph: &Graph,
    node: u32,
    edge: &Edge,
    label: &D,
) -> Result<Seen, NoMemory>
    requires shape { FitsNode graph.now node (D.shape_of label.now) }
    ensures { IfOk result (λ seen. IsSeenAt D.holds program.now (Some label.now) edge.now.action edge.now.site seen) }
{
    match edge.site {
        None => Ok(Seen::Away),
        Some(site) => edge_seen(alloc, program, graph, node, edge, site, label),
    }
}

/// What an edge from a node shows by the node's label, with its site and its instance.
fn found_by<D: Domain>(
    alloc: Global,
    program: &Program,
    graph: &Graph,
    node: u32,
    edge: &Edge,
    label: &D,
) -> Result<Found, NoMemory>
    requires shape { FitsNode graph.now node (D.shape_of label.now) }
    requires source { edge.now.source ≡ node }
    ensures { IfOk result (λ found. IsFound D.holds program.now graph.now (Some label.now) edge.now found) }
{
    let seen = seen_by(alloc, program, graph, node, edge, label)?;
    Ok(Found {
        site: edge.site,
        instance: instance_at(graph, node),
        seen,
    })
}

/// What the edges of a node show, those at the head of the list.
pub(crate) fn found_at<D: Domain>(
    alloc: Global,
    program: &Program,
    graph: &Graph,
    edges: &[Edge],
    node: u32,
    label: &D,
) -> Result<Vec<Found>, NoMemory>
    requires shape { FitsNode graph.now node (D.shape_of label.now) }
    ensures { IfOk result (λ found. AreLeading D.holds program.now graph.now node label.now edges.now found.items) }
{
    let mut found = Vec::new(alloc);
    for edge in edges {
        if edge.source != node {
            return Ok(found);
        }
        found.push(found_by(alloc, program, graph, node, edge, label)?)?;
    }
    Ok(found)
}
