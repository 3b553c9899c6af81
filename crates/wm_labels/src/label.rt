// The label of a node.
ghost use Rattle.std.specs.Prelude.{◌≡◌, ◌≢◌, length, slice_get, slice_set, false, All, IfOk, OnOk, IfSome, MatchOption};
ghost use Rattle.wm_domain.specs.States.{Keeps, IsShape, IsBare};
ghost use Rattle.wm_domain.specs.Points.{Point};
ghost use Rattle.wm_images.specs.Nodes.{node_shape};
ghost use Rattle.wm_images.specs.Labels.{PointsOf, AreShaped, Receives};
ghost use Rattle.wm_labels.specs.Labels.{Leads};
ghost use Rattle.wm_labels.specs.Live.{AreNoted};

use std::alloc::Global;
use wm_domain::Domain;
use wm_flow::Graph;
use wm_images::{Images, image_along};
use wm_kept::Kept;
use wm_ops::NoMemory;
use wm_program::Program;

fn set_mark(marks: &mut [bool], place: usize, mark: bool)
    ensures { marks.new ≡ slice_set marks.old place mark }
{
    if place < marks.len() {
        marks[place] = mark;
    }
}

/// Whether there is a point.
fn has_point<D: Domain>(state: &D) -> bool
    ensures none { result ≡ false → IsBare (D.holds state.now) }
{
    !state.is_empty()
}

/// Notes whether the image along an edge has a point.
pub fn note<D: Domain, M: Images<D>>(
    _images: &M,
    graph: &Graph,
    kept: &Kept<D>,
    number: u32,
    image: &D,
    live: &mut [bool],
)
    requires shape { MatchOption (slice_get graph.now.edges number) ⊥ (λ edge. D.shape_of image.now ≡ node_shape graph.now edge.target) }
    requires sound { Receives M.allowed D.holds D.shape_of graph.now kept.now.1 number image.now }
    ensures same { length live.new ≡ length live.old }
    ensures noted { AreNoted M.allowed D.holds D.shape_of graph.now kept.now.1 live.old live.new }
{
    let mark = has_point(image);
    set_mark(live, number as usize, mark);
}

/// What was reached so far, and one image more.
fn joined<D: Domain>(reached: Option<D>, next: D) -> D
    requires shape { IfSome reached (λ s. D.shape_of s ≡ D.shape_of next) }
    ensures shape { D.shape_of result ≡ D.shape_of next }
    ensures before { (p : Point) → PointsOf D.holds reached p → D.holds result p }
    ensures next { (p : Point) → D.holds next p → D.holds result p }
{
    match reached {
        None => next,
        Some(state) => both(state, &next),
    }
}

/// The least state that holds two.
fn both<D: Domain>(mut state: D, next: &D) -> D
    requires shape { D.shape_of state ≡ D.shape_of next.now }
    ensures shape { D.shape_of result ≡ D.shape_of next.now }
    ensures before { (p : Point) → D.holds state p → D.holds result p }
    ensures next { (p : Point) → D.holds next.now p → D.holds result p }
{
    state.join_with(next);
    state
}

/// The state of a node without a point.
pub fn nowhere<D: Domain>(alloc: Global, graph: &Graph, node: u32) -> Result<D, NoMemory>
    requires shape { IsShape (node_shape graph.now node) }
    ensures shape { IfOk result (λ s. D.shape_of s ≡ node_shape graph.now node) }
    ensures empty { IfOk result (λ s. IsBare (D.holds s)) }
{
    let Some(number) = graph.node_shape.items().get(node as usize) else {
        return Err(NoMemory);
    };
    let Some(shape) = graph.shapes.items().get(*number as usize) else {
        return Err(NoMemory);
    };
    let mut state = D::full(alloc, shape)?;
    state.clear();
    Ok(state)
}

/// The states with which a run starts, at the first node.
fn start<D: Domain, M: Images<D>>(
    alloc: Global,
    images: &M,
    program: &Program,
    graph: &Graph,
    node: u32,
) -> Result<Option<D>, NoMemory>
    ensures shape { IfOk result (λ reached. IfSome reached (λ s. D.shape_of s ≡ node_shape graph.now node)) }
    ensures sound { IfOk result (λ reached. MatchOption reached (node ≢ 0) (λ s. Keeps D.holds D.shape_of s (M.started program.now graph.now))) }
{
    if node == 0 {
        let state = images.first(alloc, program, graph)?;
        return Ok(Some(state));
    }
    Ok(None)
}

/// What was reached so far, and the image along one edge more.
#[tactic(auto, using(crate::proofs::Reaching::shape_there, crate::proofs::Reaching::received_more))]
fn receive<D: Domain, M: Images<D>>(
    alloc: Global,
    images: &M,
    graph: &Graph,
    kept: &Kept<D>,
    number: u32,
    live: &mut [bool],
    node: u32,
    reached: Option<D>,
) -> Result<D, NoMemory>
    requires leads { Leads M.drawn graph.now node number }
    requires shapes { AreShaped D.shape_of graph.now kept.now.1 }
    requires shape { IfSome reached (λ s. D.shape_of s ≡ node_shape graph.now node) }
    ensures same { length live.new ≡ length live.old }
    ensures shape { IfOk result (λ s. D.shape_of s ≡ node_shape graph.now node) }
    ensures before { IfOk result (λ s. (p : Point) → PointsOf D.holds reached p → D.holds s p) }
    ensures sound { IfOk result (λ s. Receives M.allowed D.holds D.shape_of graph.now kept.now.1 number s) }
    ensures noted { OnOk result (AreNoted M.allowed D.holds D.shape_of graph.now kept.now.1 live.old live.new) }
{
    let next = image_along(alloc, images, graph, kept, number)?;
    note(images, graph, kept, number, &next, live);
    Ok(joined(reached, next))
}

/// The label of a node at which no head stands: what the edges to it allow, and at the first node the states with which a
/// run starts. Notes for each of these edges whether its image has a point.
#[tactic(auto, using(crate::proofs::Noting::noted_none))]
pub fn reached<D: Domain, M: Images<D>>(
    alloc: Global,
    images: &M,
    program: &Program,
    graph: &Graph,
    kept: &Kept<D>,
    into: &[u32],
    live: &mut [bool],
    node: u32,
) -> Result<D, NoMemory>
    requires leads { All (Leads M.drawn graph.now node) into.now }
    requires shapes { AreShaped D.shape_of graph.now kept.now.1 }
    requires shape { IsShape (node_shape graph.now node) }
    ensures same { length live.new ≡ length live.old }
    ensures shape { IfOk result (λ s. D.shape_of s ≡ node_shape graph.now node) }
    ensures start { IfOk result (λ s. node ≡ 0 → Keeps D.holds D.shape_of s (M.started program.now graph.now)) }
    ensures edges { IfOk result (λ s. All (λ number. Receives M.allowed D.holds D.shape_of graph.now kept.now.1 number s) into.now) }
    ensures noted { OnOk result (AreNoted M.allowed D.holds D.shape_of graph.now kept.now.1 live.old live.new) }
{
    let mut state = start(alloc, images, program, graph, node)?;
    for number in into {
        let next = receive(alloc, images, graph, kept, *number, live, node, state)?;
        state = Some(next);
    }
    match state {
        Some(state) => Ok(state),
        None => nowhere(alloc, graph, node),
    }
}
