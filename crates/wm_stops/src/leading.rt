// The edges from a node.
ghost use Rattle.std.specs.Prelude.{◌≡◌, IfSome};
ghost use Rattle.wm_images.specs.Nodes.{node_shape};

use crate::stopping::stops;
use wm_domain::{Domain, Shape};
use wm_flow::{Edge, Graph};
use wm_ops::NoMemory;

/// The edges at the head of a list that lead from a node.
fn leading(edges: &[Edge], node: u32) -> &[Edge] {
    for place in 0..edges.len() {
        if edges[place].source != node {
            return &edges[..place];
        }
    }
    edges
}

/// The edges from a node that stand together from `start` on.
pub fn edges_from(edges: &[Edge], start: usize, node: u32) -> &[Edge] {
    if edges.len() < start {
        return &[];
    }
    leading(&edges[start..], node)
}

/// The shape of a node.
fn shape_at(graph: &Graph, node: u32) -> Option<&Shape>
    ensures { IfSome result (λ shape. shape.now ≡ node_shape graph.now node) }
{
    match graph.node_shape.items().get(node as usize) {
        None => None,
        Some(number) => graph.shapes.items().get(*number as usize),
    }
}

/// Whether a run may stop before one of these edges.
fn stops_before<D: Domain>(
    shape: &Shape,
    statics: u32,
    edges: &[Edge],
    label: &D,
) -> Result<bool, NoMemory>
    requires shape { D.shape_of label.now ≡ shape.now }
{
    for edge in edges {
        if stops(shape, statics, &edge.action, label)? {
            return Ok(true);
        }
    }
    Ok(false)
}

/// Whether a run may stop at a node, by its label and the edges from it. A label without a point stops nothing.
pub fn stops_at<D: Domain>(
    graph: &Graph,
    statics: u32,
    edges: &[Edge],
    node: u32,
    label: &D,
) -> Result<bool, NoMemory>
    requires shape { D.shape_of label.now ≡ node_shape graph.now node }
{
    if label.is_empty() {
        return Ok(false);
    }
    match shape_at(graph, node) {
        None => Err(NoMemory),
        Some(shape) => stops_before(shape, statics, edges, label),
    }
}
