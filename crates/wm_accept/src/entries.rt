// Whether the state of a head holds what an edge to it allows.
ghost use Rattle.std.specs.Prelude.{◌≡◌, length, slice_get, Some, IfOk, OnOk, IfSome};
ghost use Rattle.wm_domain.specs.Points.{Point};
ghost use Rattle.wm_domain.specs.States.{IsShape};
ghost use Rattle.wm_images.specs.Labels.{AreShaped, Receives};
ghost use Rattle.wm_images.specs.Nodes.{node_shape};
ghost use Rattle.wm_labels.specs.Live.{AreNoted};
ghost use Rattle.wm_walk.specs.Graphs.{AreDrawn};
ghost use Rattle.wm_accept.specs.Entries.{IfHeld};

use std::alloc::Global;
use wm_domain::{Domain, Shape};
use wm_flow::{Edge, Graph, Head};
use wm_gaps::{Passed, compared};
use wm_images::{Images, image_along};
use wm_kept::Kept;
use wm_labels::note;
use wm_ops::NoMemory;

/// What is known of an edge of a head.
#[derive(Clone, Copy, Debug, PartialEq, Eq)]
pub enum Entry {
    /// It was not looked at.
    Unseen,
    /// The head's state holds what the edge allows.
    Held,
    /// The first bound of the state that the image passes.
    Passes(Passed),
}

/// The edge of a number, where it leads to the node.
fn edge_into(graph: &Graph, number: u32, node: u32) -> Option<&Edge>
    ensures { IfSome result (λ edge. (slice_get graph.now.edges number ≡ Some edge.now) × (edge.now.target ≡ node)) }
{
    match graph.edges.items().get(number as usize) {
        None => None,
        Some(edge) => {
            if edge.target == node {
                return Some(edge);
            }
            None
        }
    }
}

/// The head of a number.
pub(crate) fn head_at(graph: &Graph, number: u32) -> Option<&Head>
    ensures { IfSome result (λ head. slice_get graph.now.heads number ≡ Some head.now) }
{
    graph.heads.items().get(number as usize)
}

/// The state of the head of a number.
pub(crate) fn state_at<D: Domain>(states: &[D], number: u32) -> Option<&D>
    ensures { IfSome result (λ state. slice_get states.now number ≡ Some state.now) }
{
    states.get(number as usize)
}

/// The shape of a node.
fn shape_at(graph: &Graph, node: u32) -> Option<&Shape>
    ensures { IfSome result (λ shape. shape.now ≡ node_shape graph.now node) }
{
    match graph.node_shape.items().get(node as usize) {
        None => None,
        Some(number) => graph.shapes.items().get(*number as usize),
    }
}

/// Whether the state holds the image.
fn entry_of<D: Domain>(
    alloc: Global,
    shape: &Shape,
    image: &D,
    state: &D,
) -> Result<Entry, NoMemory>
    requires image_shape { D.shape_of image.now ≡ shape.now }
    requires state_shape { D.shape_of state.now ≡ shape.now }
    ensures held { IfOk result (λ entry. IfHeld entry ((p : Point) → D.holds image.now p → D.holds state.now p)) }
{
    match compared(alloc, shape, image, state)? {
        None => Ok(Entry::Held),
        Some(passed) => Ok(Entry::Passes(passed)),
    }
}

/// Whether the state of a head at a node holds the image along an edge, and notes whether that image has a point.
pub(crate) fn tried<D: Domain, M: Images<D>>(
    alloc: Global,
    images: &M,
    graph: &Graph,
    kept: &Kept<D>,
    number: u32,
    node: u32,
    state: &D,
    live: &mut [bool],
) -> Result<Entry, NoMemory>
    requires drawn { AreDrawn M.drawn graph.now }
    requires kept { AreShaped D.shape_of graph.now kept.now.1 }
    requires state { D.shape_of state.now ≡ node_shape graph.now node }
    ensures same { length live.new ≡ length live.old }
    ensures noted { OnOk result (AreNoted M.allowed D.holds D.shape_of graph.now kept.now.1 live.old live.new) }
    ensures held { IfOk result (λ entry. IfHeld entry (Receives M.allowed D.holds D.shape_of graph.now kept.now.1 number state.now)) }
{
    let Some(_edge) = edge_into(graph, number, node) else {
        return Err(NoMemory);
    };
    let Some(shape) = shape_at(graph, node) else {
        return Err(NoMemory);
    };
    let image = image_along(alloc, images, graph, kept, number)?;
    note(images, graph, kept, number, &image, live);
    entry_of(alloc, shape, &image, state)
}
