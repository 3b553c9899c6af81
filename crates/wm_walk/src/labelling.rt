// The label of a node.
ghost use Rattle.std.specs.Prelude.{◌≡◌, length, All, IfOk, OnOk, IfSome, Some, slice_get};
ghost use Rattle.wm_domain.specs.States.{IsShape};
ghost use Rattle.wm_domain.specs.Points.{Point};
ghost use Rattle.wm_images.specs.Labels.{AreShaped, PointsAt};
ghost use Rattle.wm_images.specs.Nodes.{node_shape};
ghost use Rattle.wm_incoming.specs.Into.{numbers_into};
ghost use Rattle.wm_incoming.specs.Standing.{head_at};
ghost use Rattle.wm_labels.specs.Labels.{IsMade};
ghost use Rattle.wm_labels.specs.Live.{AreNoted};
ghost use Rattle.wm_walk.specs.Graphs.{AreDrawn, AreStates};

use std::alloc::Global;
use wm_domain::Domain;
use wm_flow::{Graph, Head};
use wm_images::Images;
use wm_kept::Kept;
use wm_labels::reached;
use wm_ops::NoMemory;
use wm_program::Program;

/// The head of a number, which stands at the node.
fn head_there(graph: &Graph, number: u32, node: u32) -> Option<&Head>
    ensures { IfSome result (λ head. (slice_get graph.now.heads number ≡ Some head.now) × (head.now.node ≡ node)) }
{
    match graph.heads.items().get(number as usize) {
        None => None,
        Some(head) => {
            if head.node == node {
                return Some(head);
            }
            None
        }
    }
}

/// The state of the head that stands at the node.
fn copied<D: Domain>(
    alloc: Global,
    graph: &Graph,
    states: &[D],
    number: u32,
    node: u32,
) -> Result<D, NoMemory>
    requires states { AreStates D.shape_of graph.now states.now }
    ensures shape { IfOk result (λ s. D.shape_of s ≡ node_shape graph.now node) }
    ensures same { IfOk result (λ s. (p : Point) → PointsAt D.holds states.now number p → D.holds s p) }
{
    let Some(_head) = head_there(graph, number, node) else {
        return Err(NoMemory);
    };
    match states.get(number as usize) {
        None => Err(NoMemory),
        Some(state) => state.copy(alloc),
    }
}

/// The label of a node: the state of the head that stands there, or what the edges to it allow from the labels that are kept.
/// Notes of each edge to a node without a head whether its image has a point.
///
/// `NoMemory`: memory ran out, or a label that is needed is not kept.
#[tactic(auto, using(wm_labels::proofs::Noting::noted_none))]
pub fn label_of<D: Domain, M: Images<D>>(
    alloc: Global,
    images: &M,
    program: &Program,
    graph: &Graph,
    states: &[D],
    kept: &Kept<D>,
    head: Option<u32>,
    into: &[u32],
    live: &mut [bool],
    node: u32,
) -> Result<D, NoMemory>
    requires head { head ≡ head_at node graph.now.heads }
    requires into { into.now ≡ numbers_into node graph.now.edges }
    requires drawn { AreDrawn M.drawn graph.now }
    requires shapes { All IsShape graph.now.shapes }
    requires states { AreStates D.shape_of graph.now states.now }
    requires kept { AreShaped D.shape_of graph.now kept.now.1 }
    ensures same { length live.new ≡ length live.old }
    ensures noted { OnOk result (AreNoted M.allowed D.holds D.shape_of graph.now kept.now.1 live.old live.new) }
    ensures made { IfOk result (λ s. IsMade M.allowed M.started D.holds D.shape_of program.now graph.now states.now kept.now.1 node s) }
{
    match head {
        Some(number) => copied(alloc, graph, states, number, node),
        None => reached(alloc, images, program, graph, kept, into, live, node),
    }
}
