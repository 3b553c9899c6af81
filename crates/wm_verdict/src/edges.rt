// What an edge shows of its site.
ghost use Rattle.std.specs.Prelude.{◌≡◌, slice_index_or, slice_get, Some, IfOk};
ghost use Rattle.wm_verdict.specs.Places.{FitsNode, instance_at};
ghost use Rattle.wm_verdict.specs.Sites.{IsSeenOf};

use std::alloc::Global;
use wm_domain::{Domain, Shape};
use wm_flow::{Edge, Graph};
use wm_ops::NoMemory;
use wm_program::Program;
use wm_sight::look;
use wm_tally::Seen;

/// The number of a node's shape.
fn shape_number(shapes: &[u32], node: u32) -> u32
    ensures { result ≡ slice_index_or shapes.now node 0 }
{
    let place = node as usize;
    if place < shapes.len() {
        return shapes[place];
    }
    0
}

/// What an edge from a node shows by the node's state; a site or a shape that is not there, which no graph of the program has, is
/// refused.
#[tactic(auto, using(crate::proofs::Fits::node_shape))]
pub fn edge_seen<D: Domain>(
    alloc: Global,
    program: &Program,
    graph: &Graph,
    node: u32,
    edge: &Edge,
    site: u32,
    label: &D,
) -> Result<Seen, NoMemory>
    requires shape { FitsNode graph.now node (D.shape_of label.now) }
    ensures { IfOk result (λ seen. IsSeenOf D.holds (slice_get program.now.sites site) (Some label.now) edge.now.action seen) }
{
    let number = shape_number(graph.node_shape.items(), node);
    match graph.shapes.items().get(number as usize) {
        None => Err(NoMemory),
        Some(shape) => match program.sites.items().get(site as usize) {
            None => Err(NoMemory),
            Some(info) => look(alloc, info.kind, shape, &edge.action, label),
        },
    }
}

/// The instance of a node; 0 at a node of none, at which no site stands.
pub fn instance_at(graph: &Graph, node: u32) -> u32
    ensures { result ≡ instance_at graph.now node }
{
    match graph.node_instance.items().get(node as usize) {
        None => 0,
        Some(instance) => match *instance {
            None => 0,
            Some(instance) => instance,
        },
    }
}
