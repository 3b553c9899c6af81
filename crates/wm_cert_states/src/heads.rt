// The states of heads.
ghost use Rattle.std.specs.Prelude.{◌≡◌, All, IfOk, slice_get, slice_index_or, Some};
ghost use Rattle.wm_domain.specs.States.{IsShape};
ghost use Rattle.wm_cert_text.specs.declared.told.Head as texts;
ghost use Rattle.wm_state_of.specs.Meeting.{IsStateOf};
ghost use Rattle.wm_cert_states.specs.Shapes.{HaveShapes, shape_at};
ghost use Rattle.wm_cert_states.specs.Told.{AreTold};

use std::alloc::Global;
use wm_cert_text::Head as Told;
use wm_domain::Domain;
use wm_flow::{Graph, Head};
use wm_ops::{List, NoMemory};
use wm_state_of::state_of;

/// The number of a node's shape.
fn shape_number(shapes: &[u32], node: u32) -> u32
    ensures { result ≡ slice_index_or shapes.now node 0 }
{
    let place = node as usize;
    if place < shapes.len() {
        return shapes[place];
    }
    0
}

/// The state that a head is told to have. A head without a shape, which no graph of a program has, is refused.
fn head_state<D: Domain>(
    alloc: Global,
    graph: &Graph,
    head: Head,
    told: &[Told],
    number: usize,
) -> Result<D, NoMemory>
    requires shapes { All IsShape graph.now.shapes }
    ensures shape { IfOk result (λ state. shape_at graph.now head.node ≡ Some (D.shape_of state)) }
    ensures told { IfOk result (λ state. (it : texts.Head) → slice_get told.now number ≡ Some it → IsStateOf (D.shape_of state) it.state (D.holds state)) }
{
    let shape = shape_number(graph.node_shape.items(), head.node);
    match graph.shapes.items().get(shape as usize) {
        None => Err(NoMemory),
        Some(shape) => match told.get(number) {
            None => Err(NoMemory),
            Some(told) => state_of(alloc, shape, &told.state),
        },
    }
}

/// The states that the heads of a graph are told to have.
#[tactic(auto, using(crate::proofs::Pushed::told_pushed))]
pub fn head_states<D: Domain>(
    alloc: Global,
    graph: &Graph,
    told: &[Told],
) -> Result<List<D>, NoMemory>
    requires shapes { All IsShape graph.now.shapes }
    ensures states { IfOk result (λ states. HaveShapes D.shape_of graph.now states) }
    ensures told { IfOk result (λ states. AreTold D.shape_of D.holds told.now states) }
{
    let mut states = List::new(alloc);
    let mut number = 0;
    for head in graph.heads.items() {
        states.push(head_state(alloc, graph, *head, told, number)?)?;
        number += 1;
    }
    Ok(states)
}
