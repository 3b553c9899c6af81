// Whether the edges of a graph fit their nodes.
ghost use Rattle.std.specs.Prelude.{◌≡◌, true, ℕ, MatchOption};
ghost use Rattle.wm_images.specs.Nodes.{node_shape};
ghost use Rattle.wm_walk.specs.Graphs.{AreDrawn};
ghost use Rattle.wm_drawn.specs.Fitting.{LeaveFits};
ghost use Rattle.wm_drawn.specs.Drawn.{Fits, IsDrawn};

use crate::acts::{
    cast_fits, cells_fit, form_fits, inputs_fit, keep_fits, operate_fits, plain_fits, range_fits,
    read_fits, test_fits, tie_fits, turn_fits, variables_fit, write_fits,
};
use crate::calls::{enter_fits, leave_fits};
use crate::ways::is_way;
use std::alloc::Global;
use wm_carry::Way;
use wm_domain::Shape;
use wm_flow::{Action, Edge, Graph};
use wm_left::Return;
use wm_middle::Call;

/// The shape of a node; None where the graph has none for it.
pub fn shape_at(graph: &Graph, node: u32) -> Option<&Shape>
    ensures shape { MatchOption result (Unit {0}) (λ s. s.now ≡ node_shape graph.now node) }
{
    match graph.node_shape.items().get(node as usize) {
        None => None,
        Some(number) => graph.shapes.items().get(*number as usize),
    }
}

// whether a return fits its nodes and that of the call
fn return_fits(graph: &Graph, call: u32, source: &Shape, target: &Shape, it: &Return) -> bool
    ensures { result ≡ true → LeaveFits source.now target.now (node_shape graph.now call) it.now.from_call.now it.now.from_exit.now it.now.arrays.now it.now.result }
{
    match shape_at(graph, call) {
        None => false,
        Some(shape) => leave_fits(shape, source, target, it),
    }
}

// whether the action fits the shapes of its nodes
fn fits(graph: &Graph, way: &Way, action: &Action) -> bool
    ensures { result ≡ true → Fits graph.now way.now.source.now way.now.target.now action.now }
{
    match action {
        Action::AssignForm { target, form } => form_fits(way, *target, form),
        Action::Plain { args, target, .. } => plain_fits(way, args, *target),
        Action::Cast { form, target } => cast_fits(way, form, *target),
        Action::AssignRange { target, range } => range_fits(way, *target, *range),
        Action::SetArray { array, .. } => cells_fit(way, *array),
        Action::Operate {
            args,
            target,
            overflow,
            ..
        } => operate_fits(way, args, *target, *overflow),
        Action::Read { array, target } => read_fits(way, *array, *target),
        Action::Write { array, value, .. } => write_fits(way, *array, value),
        Action::Clear { variables } => variables_fit(way, variables.items()),
        Action::Keep { form, .. } => keep_fits(way, form),
        Action::Test {
            form,
            low,
            high,
            ..
        } => test_fits(way, form, *low, *high),
        Action::Count { .. } => is_way(way.source, way.target),
        Action::Enter {
            picks,
            arrays,
            arguments,
        } => enter_fits(
            way.source,
            way.target,
            &Call {
                picks: picks.items(),
                arrays: arrays.items(),
                arguments: arguments.items(),
            },
        ),
        Action::Leave {
            call,
            from_call,
            from_exit,
            arrays,
            result,
        } => return_fits(
            graph,
            *call,
            way.source,
            way.target,
            &Return {
                from_call: from_call.items(),
                from_exit: from_exit.items(),
                arrays: arrays.items(),
                result: *result,
            },
        ),
        Action::Reset { counters } => variables_fit(way, counters.items()),
        Action::Turn { growths } => turn_fits(way, growths.items()),
        Action::Tie {
            counter,
            loop_step,
            variable,
            ..
        } => tie_fits(way, *counter, *loop_step, *variable),
        Action::Inputs { scalars, arrays } => inputs_fit(way, scalars.items(), arrays.items()),
    }
}

// whether the edge fits its nodes
fn edge_fits(alloc: Global, graph: &Graph, edge: &Edge) -> bool
    ensures { result ≡ true → Fits graph.now (node_shape graph.now edge.now.source) (node_shape graph.now edge.now.target) edge.now.action }
{
    match shape_at(graph, edge.source) {
        None => false,
        Some(source) => match shape_at(graph, edge.target) {
            None => false,
            Some(target) => {
                let way = Way {
                    alloc,
                    source,
                    target,
                };
                fits(graph, &way, &edge.action)
            }
        },
    }
}

// whether the edge of a number fits its nodes, where there is one
#[tactic(auto, using(crate::proofs::Drawing::none_drawn, crate::proofs::Drawing::some_drawn))]
fn fits_at(alloc: Global, graph: &Graph, number: usize) -> bool
    ensures { result ≡ true → IsDrawn graph.now number }
{
    match graph.edges.items().get(number) {
        None => true,
        Some(edge) => edge_fits(alloc, graph, edge),
    }
}

/// Whether each edge fits its nodes, so that its image can be made.
#[tactic(auto, using(crate::proofs::Drawing::all_drawn))]
pub fn is_drawn(alloc: Global, graph: &Graph) -> bool
    ensures drawn { result ≡ true → AreDrawn IsDrawn graph.now }
{
    for number in 0..graph.edges.items().len() {
        if !fits_at(alloc, graph, number) {
            return false;
        }
    }
    true
}
