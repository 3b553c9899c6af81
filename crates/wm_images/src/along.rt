// The image along an edge, from the states that are kept.
ghost use Rattle.std.specs.Prelude.{◌≡◌, slice_get, None, Some, IfOk, MatchOption};
ghost use Rattle.wm_images.specs.Nodes.{node_shape};
ghost use Rattle.wm_images.specs.Labels.{AreShaped, Receives};

use crate::Images;
use std::alloc::Global;
use wm_domain::Domain;
use wm_flow::{Edge, Graph};
use wm_kept::Kept;
use wm_ops::NoMemory;
use wm_uses::call_of;

/// The edge of a number.
#[tactic(auto, using(std::proofs::lemmas::Option::gets, std::proofs::lemmas::Grind::common_steps))]
fn edge_at(edges: &[Edge], number: u32) -> Option<&Edge>
    ensures { MatchOption result (slice_get edges.now number ≡ None) (λ edge. slice_get edges.now number ≡ Some edge.now) }
{
    edges.get(number as usize)
}

/// The image along an edge of the states that are kept at its source and, for a return, at the call's node.
///
/// `NoMemory`: memory ran out, or the state of such a node is not kept, which it is until its last use.
pub fn image_along<D: Domain, M: Images<D>>(
    alloc: Global,
    images: &M,
    graph: &Graph,
    kept: &Kept<D>,
    number: u32,
) -> Result<D, NoMemory>
    requires drawn { M.drawn graph.now number }
    requires shapes { AreShaped D.shape_of graph.now kept.now.1 }
    ensures shape { IfOk result (λ s. MatchOption (slice_get graph.now.edges number) ⊥ (λ edge. D.shape_of s ≡ node_shape graph.now edge.target)) }
    ensures sound { IfOk result (λ s. Receives M.allowed D.holds D.shape_of graph.now kept.now.1 number s) }
{
    let Some(edge) = edge_at(graph.edges.items(), number) else {
        return Err(NoMemory);
    };
    let Some(at) = kept.get(edge.source) else {
        return Err(NoMemory);
    };
    match call_of(&edge.action) {
        None => images.step(alloc, graph, number, at),
        Some(call) => match kept.get(call) {
            None => Err(NoMemory),
            Some(at_call) => images.leave(alloc, graph, number, at_call, at),
        },
    }
}
