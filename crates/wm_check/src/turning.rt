// The turns of the loops of heads.
ghost use Rattle.std.specs.Prelude.{◌≡◌, IfOk, IfSome};
ghost use Rattle.wm_images.specs.Nodes.{node_shape};
ghost use Rattle.wm_walk.specs.Graphs.{AreStates};
ghost use Rattle.wm_check.specs.Counters.{first_growth, counter_of, IsTurns, IsTurnsOf, AreTurns};

use std::alloc::Global;
use wm_domain::{Domain, Shape};
use wm_flow::{Action, Graph, Growth, Head};
use wm_ops::{List, NoMemory};
use wm_trip::trips;

/// The shape of a node.
pub(crate) fn shape_at(graph: &Graph, node: u32) -> Option<&Shape>
    ensures { IfSome result (λ shape. shape.now ≡ node_shape graph.now node) }
{
    match graph.node_shape.items().get(node as usize) {
        None => None,
        Some(number) => graph.shapes.items().get(*number as usize),
    }
}

/// What grows first.
fn first_growth(growths: &[Growth]) -> Option<Growth>
    ensures { result ≡ first_growth growths.now }
{
    match growths.split_first() {
        None => None,
        Some((growth, _rest)) => Some(*growth),
    }
}

/// The counter of a loop and its step, which the back edge adds to it.
fn counter_of(graph: &Graph, head: &Head) -> Option<Growth>
    ensures { result ≡ counter_of graph.now head.now }
{
    match graph.edges.items().get(head.back as usize) {
        None => None,
        Some(edge) => match &edge.action {
            Action::Turn { growths } => first_growth(growths.items()),
            Action::AssignForm { .. } => None,
            Action::Plain { .. } => None,
            Action::Cast { .. } => None,
            Action::AssignRange { .. } => None,
            Action::SetArray { .. } => None,
            Action::Operate { .. } => None,
            Action::Read { .. } => None,
            Action::Write { .. } => None,
            Action::Clear { .. } => None,
            Action::Keep { .. } => None,
            Action::Test { .. } => None,
            Action::Count { .. } => None,
            Action::Enter { .. } => None,
            Action::Leave { .. } => None,
            Action::Reset { .. } => None,
            Action::Tie { .. } => None,
            Action::Inputs { .. } => None,
        },
    }
}

#[tactic(auto, using(crate::proofs::Turned::bare_turns, crate::proofs::Turned::told_turns))]
fn turns_by<D: Domain>(state: &D, shape: &Shape, growth: Growth) -> Result<Option<u64>, NoMemory>
    requires shape { D.shape_of state.now ≡ shape.now }
    ensures { IfOk result (λ turns. IsTurns D.holds growth state.now turns) }
{
    if growth.variable as usize >= shape.group.items().len() + shape.singles.items().len() {
        return Err(NoMemory);
    }
    if growth.step == 0 {
        return Err(NoMemory);
    }
    match state.range(growth.variable) {
        None => Ok(None),
        Some(range) => {
            if range.low < 0 {
                return Err(NoMemory);
            }
            Ok(trips(state, growth.variable, growth.step))
        }
    }
}

fn turns_of<D: Domain>(graph: &Graph, head: &Head, state: &D) -> Result<Option<u64>, NoMemory>
    requires shape { D.shape_of state.now ≡ node_shape graph.now head.now.node }
    ensures { IfOk result (λ turns. IsTurnsOf D.holds head.now.loop_id (counter_of graph.now head.now) state.now turns) }
{
    match head.loop_id {
        None => Ok(None),
        Some(_loop_id) => match counter_of(graph, head) {
            None => Err(NoMemory),
            Some(growth) => match shape_at(graph, head.node) {
                None => Err(NoMemory),
                Some(shape) => turns_by(state, shape, growth),
            },
        },
    }
}

/// The turns of each head: none at the frame head, at a head whose state has no point, and where no number bounds them.
pub(crate) fn turns_by_head<D: Domain>(
    alloc: Global,
    graph: &Graph,
    states: &[D],
) -> Result<List<Option<u64>>, NoMemory>
    requires states { AreStates D.shape_of graph.now states.now }
    ensures turns { IfOk result (λ turns. AreTurns D.holds graph.now states.now turns) }
{
    let heads = graph.heads.items();
    let mut turns = List::new(alloc);
    for k in 0..heads.len() {
        match states.get(k) {
            None => return Err(NoMemory),
            Some(state) => turns.push(turns_of(graph, &heads[k], state)?)?,
        }
    }
    Ok(turns)
}
