// The states of the heads while they change.
ghost use Rattle.std.specs.Prelude.{◌≡◌, ◌<◌, length, slice_get, slice_set, Some, All, IfOk, IfSome, OnOk};
ghost use Rattle.wm_domain.specs.Points.{Point};
ghost use Rattle.wm_domain.specs.States.{IsShape};
ghost use Rattle.wm_domain.specs.Changes.{InEither};
ghost use Rattle.wm_images.specs.Nodes.{node_shape};
ghost use Rattle.wm_walk.specs.Graphs.{AreStates};
ghost use Rattle.wm_fix.specs.Replaced.{IsSetAs, HoldsAt, IsShapedAt, IsLeastOn};

use std::alloc::Global;
use wm_domain::{Domain, Shape};
use wm_flow::{Graph, Head};
use wm_grid::Grid;
use wm_labels::nowhere;
use wm_ops::NoMemory;
use wm_rounding::rounded;

/// The shape of a node.
pub(crate) fn shape_at(graph: &Graph, node: u32) -> Option<&Shape>
    ensures { IfSome result (λ shape. shape.now ≡ node_shape graph.now node) }
{
    match graph.node_shape.items().get(node as usize) {
        None => None,
        Some(number) => graph.shapes.items().get(*number as usize),
    }
}

/// The head of a number, where it stands at the node.
pub(crate) fn head_there(graph: &Graph, number: u32, node: u32) -> Option<&Head>
    ensures { IfSome result (λ head. (slice_get graph.now.heads number ≡ Some head.now) × (head.now.node ≡ node)) }
{
    match graph.heads.items().get(number as usize) {
        None => None,
        Some(head) => {
            if head.node == node {
                return Some(head);
            }
            None
        }
    }
}

/// The head of a number.
pub(crate) fn head_at(graph: &Graph, number: u32) -> Option<&Head>
    ensures { IfSome result (λ head. slice_get graph.now.heads number ≡ Some head.now) }
{
    graph.heads.items().get(number as usize)
}

/// A state without a point at a node.
pub(crate) fn bare_at<D: Domain>(alloc: Global, graph: &Graph, node: u32) -> Result<D, NoMemory>
    requires shapes { All IsShape graph.now.shapes }
    ensures shape { IfOk result (λ s. D.shape_of s ≡ node_shape graph.now node) }
{
    nowhere(alloc, graph, node)
}

/// A state without a point for each head.
pub(crate) fn bare_states<D: Domain>(alloc: Global, graph: &Graph) -> Result<Vec<D>, NoMemory>
    requires shapes { All IsShape graph.now.shapes }
    ensures states { IfOk result (λ states. AreStates D.shape_of graph.now states.items) }
{
    let mut states = Vec::new(alloc);
    for head in graph.heads.items() {
        states.push(bare_at(alloc, graph, head.node)?)?;
    }
    Ok(states)
}

fn set_state<D: Domain>(states: &mut Vec<D>, place: usize, state: D)
    ensures { states.new.items ≡ slice_set states.old.items place state }
{
    if place < states.len() {
        states[place] = state;
    }
}

/// The least state on the grid that holds both.
fn raised<D: Domain>(
    alloc: Global,
    shape: &Shape,
    grid: &Grid,
    state: &D,
    mut image: D,
) -> Result<D, NoMemory>
    requires valid { IsShape shape.now }
    requires state { D.shape_of state.now ≡ shape.now }
    requires image { D.shape_of image ≡ shape.now }
    ensures shape { IfOk result (λ s. D.shape_of s ≡ shape.now) }
    ensures holds { IfOk result (λ s. (p : Point) → InEither (D.holds image) (D.holds state.now) p → D.holds s p) }
    ensures least { IfOk result (λ s. IsLeastOn grid.now D.PAIRS D.holds D.shape_of shape.now (InEither (D.holds image) (D.holds state.now)) s) }
{
    image.join_with(state);
    rounded(alloc, shape, grid, &image)
}

/// Raises the state of a head at a node to the grid until it holds the image. False where it holds it already.
pub(crate) fn raise<D: Domain>(
    alloc: Global,
    graph: &Graph,
    grid: &Grid,
    states: &mut Vec<D>,
    number: u32,
    node: u32,
    image: D,
) -> Result<bool, NoMemory>
    requires shapes { All IsShape graph.now.shapes }
    requires states { AreStates D.shape_of graph.now states.old.items }
    requires image { D.shape_of image ≡ node_shape graph.now node }
    ensures states { OnOk result (AreStates D.shape_of graph.now states.new.items) }
    ensures holds { OnOk result (HoldsAt D.holds states.new.items number (D.holds image)) }
    ensures shape { OnOk result (IsShapedAt D.shape_of states.new.items number (D.shape_of image)) }
{
    let Some(_head) = head_there(graph, number, node) else {
        return Err(NoMemory);
    };
    let Some(shape) = shape_at(graph, node) else {
        return Err(NoMemory);
    };
    let Some(state) = state_at(states, number) else {
        return Err(NoMemory);
    };
    if image.within(state) {
        return Ok(false);
    }
    let higher = raised(alloc, shape, grid, state, image)?;
    set_state(states, number as usize, higher);
    Ok(true)
}

/// Joins the image to one of the states.
fn join_at<D: Domain>(states: &mut Vec<D>, place: usize, image: &D)
    requires inside { place < length states.old.items }
    requires shape { IfSome (slice_get states.old.items place) (λ state. D.shape_of state ≡ D.shape_of image.now) }
    ensures joined { IsSetAs D.shape_of states.old.items place states.new.items }
    ensures holds { HoldsAt D.holds states.new.items place (D.holds image.now) }
{
    states[place].join_with(image);
}

/// The state of a head at a node holds the image too.
pub(crate) fn join<D: Domain>(
    graph: &Graph,
    states: &mut Vec<D>,
    number: u32,
    node: u32,
    image: &D,
) -> Result<(), NoMemory>
    requires states { AreStates D.shape_of graph.now states.old.items }
    requires image { D.shape_of image.now ≡ node_shape graph.now node }
    ensures states { OnOk result (AreStates D.shape_of graph.now states.new.items) }
    ensures holds { OnOk result (HoldsAt D.holds states.new.items number (D.holds image.now)) }
    ensures shape { OnOk result (IsShapedAt D.shape_of states.new.items number (D.shape_of image.now)) }
{
    let Some(_head) = head_there(graph, number, node) else {
        return Err(NoMemory);
    };
    let place = number as usize;
    if place >= states.len() {
        return Err(NoMemory);
    }
    join_at(states, place, image);
    Ok(())
}

/// The state of a number.
pub(crate) fn state_at<D: Domain>(states: &[D], number: u32) -> Option<&D>
    ensures { IfSome result (λ state. slice_get states.now number ≡ Some state.now) }
{
    states.get(number as usize)
}

/// Whether a state holds no more than another one of the same head.
pub(crate) fn is_within<D: Domain>(graph: &Graph, states: &[D], others: &[D], number: u32) -> bool
    requires states { AreStates D.shape_of graph.now states.now }
    requires others { AreStates D.shape_of graph.now others.now }
{
    let Some(_head) = head_at(graph, number) else {
        return false;
    };
    let Some(state) = state_at(states, number) else {
        return false;
    };
    let Some(other) = state_at(others, number) else {
        return false;
    };
    state.within(other)
}

/// Whether each state of the first so many heads holds no more than the other one.
pub(crate) fn are_within<D: Domain>(graph: &Graph, states: &[D], others: &[D], count: u32) -> bool
    requires states { AreStates D.shape_of graph.now states.now }
    requires others { AreStates D.shape_of graph.now others.now }
{
    for number in 0..count {
        if !is_within(graph, states, others, number) {
            return false;
        }
    }
    true
}
