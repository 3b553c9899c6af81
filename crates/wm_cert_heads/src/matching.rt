// The heads of a text against those of a graph.
ghost use Rattle.std.specs.Prelude.{◌≡◌, Some, slice_get, slice_index_or};
ghost use Rattle.wm_cert_heads.specs.Matching.{are_loop, is_frame, names_match, pairs_in, fits_shape, state_fits, shape_at, head_matches, is_matched, all_match, has_heads};

use crate::sums::are_told;
use wm_cert_text::{Head as Told, HeadName, Pair, State};
use wm_domain::Shape;
use wm_flow::{Graph, Head};

fn are_loop(loop_id: Option<u32>, instance: Option<u32>, told_id: u32, told_instance: u32) -> bool
    ensures { result ≡ are_loop loop_id instance told_id told_instance }
{
    match loop_id {
        None => false,
        Some(loop_id) => match instance {
            None => false,
            Some(instance) => {
                if loop_id == told_id {
                    return instance == told_instance;
                }
                false
            }
        },
    }
}

fn is_frame(loop_id: Option<u32>) -> bool
    ensures { result ≡ is_frame loop_id }
{
    match loop_id {
        None => true,
        Some(_loop_id) => false,
    }
}

fn names_match(loop_id: Option<u32>, instance: Option<u32>, name: HeadName) -> bool
    ensures { result ≡ names_match loop_id instance name }
{
    match name {
        HeadName::Frame => is_frame(loop_id),
        HeadName::Loop {
            loop_id: told_id,
            instance: told_instance,
        } => are_loop(loop_id, instance, told_id, told_instance),
    }
}

fn pairs_in(group: usize, pairs: &[Pair]) -> bool
    ensures { result ≡ pairs_in group pairs.now }
{
    for pair in pairs {
        if pair.second as usize >= group {
            return false;
        }
    }
    true
}

#[tactic(auto, unfolding(crate::specs::Matching::fits_shape))]
fn fits_shape(shape: &Shape, state: &State) -> bool
    ensures { result ≡ fits_shape shape.now state.now }
{
    let group = shape.group.items().len();
    if state.bounds.items().len() != group + shape.singles.items().len() {
        return false;
    }
    if state.arrays.items().len() != shape.arrays.items().len() {
        return false;
    }
    pairs_in(group, state.pairs.items())
}

fn state_fits(shape: &Shape, state: &Option<State>) -> bool
    ensures { result ≡ state_fits (Some shape.now) state.now }
{
    match state {
        None => true,
        Some(state) => fits_shape(shape, state),
    }
}

/// The number of a node's shape.
fn shape_number(shapes: &[u32], node: u32) -> u32
    ensures { result ≡ slice_index_or shapes.now node 0 }
{
    let place = node as usize;
    if place < shapes.len() {
        return shapes[place];
    }
    0
}

/// Whether the state has the shape of a node.
fn state_fits_at(graph: &Graph, node: u32, state: &Option<State>) -> bool
    ensures { result ≡ state_fits (shape_at graph.now node) state.now }
{
    let number = shape_number(graph.node_shape.items(), node);
    match graph.shapes.items().get(number as usize) {
        None => false,
        Some(shape) => state_fits(shape, state),
    }
}

#[tactic(auto, unfolding(crate::specs::Matching::head_matches))]
fn head_matches(graph: &Graph, number: usize, head: Head, told: &Told) -> bool
    ensures { result ≡ head_matches graph.now number head told.now }
{
    if !names_match(head.loop_id, head.instance, told.name) {
        return false;
    }
    if !are_told(number, told.sums.items(), graph.sums.items()) {
        return false;
    }
    state_fits_at(graph, head.node, &told.state)
}

fn is_matched(graph: &Graph, told: &[Told], number: usize, head: Head) -> bool
    ensures { result ≡ is_matched graph.now number head (slice_get told.now number) }
{
    match told.get(number) {
        None => false,
        Some(told) => head_matches(graph, number, head, told),
    }
}

fn all_match(graph: &Graph, told: &[Told], heads: &[Head]) -> bool
    ensures { result ≡ all_match graph.now told.now 0 heads.now }
{
    for (number, head) in heads.iter().enumerate() {
        if !is_matched(graph, told, number, *head) {
            return false;
        }
    }
    true
}

/// Whether a text's heads are those of the graph: as many, and each with the name, the sum counters, the number of variables
/// and the number of arrays of its head, and with pairs of its group alone.
#[tactic(auto, unfolding(crate::specs::Matching::has_heads))]
pub fn has_heads(graph: &Graph, told: &[Told]) -> bool
    ensures heads { result ≡ has_heads graph.now told.now }
{
    if told.len() != graph.heads.items().len() {
        return false;
    }
    all_match(graph, told, graph.heads.items())
}
