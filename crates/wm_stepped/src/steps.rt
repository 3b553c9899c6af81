// Images along the edges of a graph.
ghost use Rattle.std.specs.Prelude.{◌≡◌, slice_get, None, Some, IfOk, IfSome, MatchOption};
ghost use Rattle.wm_uses.specs.Last.{call_of};
ghost use Rattle.wm_domain.specs.States.{Keeps};
ghost use Rattle.wm_images.specs.Nodes.{node_shape};
ghost use Rattle.wm_drawn.specs.Drawn.{Fits};
ghost use Rattle.wm_stepped.specs.Allowing.{AllowedBy};
ghost use Rattle.wm_stepped.specs.Stepping.{IsReturnBy};

use crate::acting::acted;
use std::alloc::Global;
use wm_carry::Way;
use wm_domain::{Domain, Shape};
use wm_drawn::shape_at;
use wm_flow::{Action, Edge, Graph};
use wm_images::Images;
use wm_left::{Return, left};
use wm_ops::NoMemory;
use wm_program::Program;
use wm_started::first;

/// The rules by which states are carried along the edges of a graph.
#[derive(Clone, Copy)]
pub struct Steps;

// the edge of a number
#[tactic(auto, using(std::proofs::lemmas::Option::gets, std::proofs::lemmas::Grind::common_steps))]
fn edge_at(edges: &[Edge], number: u32) -> Option<&Edge>
    ensures { MatchOption result (slice_get edges.now number ≡ None) (λ edge. slice_get edges.now number ≡ Some edge.now) }
{
    edges.get(number as usize)
}

// the image along an edge that is taken as no return
fn stepped<D: Domain>(alloc: Global, graph: &Graph, edge: &Edge, at: &D) -> Result<D, NoMemory>
    requires fits { Fits graph.now (node_shape graph.now edge.now.source) (node_shape graph.now edge.now.target) edge.now.action }
    requires shape { D.shape_of at.now ≡ node_shape graph.now edge.now.source }
    ensures shape { IfOk result (λ s. D.shape_of s ≡ node_shape graph.now edge.now.target) }
    ensures sound { IfOk result (λ s. Keeps D.holds D.shape_of s (AllowedBy (node_shape graph.now edge.now.source) (node_shape graph.now edge.now.target) (D.holds at.now) (λ p. ⊥) edge.now.action)) }
{
    let Some(source) = shape_at(graph, edge.source) else {
        return Err(NoMemory);
    };
    let Some(target) = shape_at(graph, edge.target) else {
        return Err(NoMemory);
    };
    let way = Way {
        alloc,
        source,
        target,
    };
    acted(&way, at, &edge.action)
}

// the return, where the edge is one
fn return_of(action: &Action) -> Option<Return>
    ensures { IsReturnBy result action.now }
{
    match action {
        Action::Leave {
            from_call,
            from_exit,
            arrays,
            result,
            ..
        } => Some(Return {
            from_call: from_call.items(),
            from_exit: from_exit.items(),
            arrays: arrays.items(),
            result: *result,
        }),
        Action::AssignForm { .. } => None,
        Action::Plain { .. } => None,
        Action::Cast { .. } => None,
        Action::AssignRange { .. } => None,
        Action::SetArray { .. } => None,
        Action::Operate { .. } => None,
        Action::Read { .. } => None,
        Action::Write { .. } => None,
        Action::Clear { .. } => None,
        Action::Keep { .. } => None,
        Action::Test { .. } => None,
        Action::Count { .. } => None,
        Action::Enter { .. } => None,
        Action::Reset { .. } => None,
        Action::Turn { .. } => None,
        Action::Tie { .. } => None,
        Action::Inputs { .. } => None,
    }
}

// the image along an edge
fn returned<D: Domain>(
    alloc: Global,
    graph: &Graph,
    edge: &Edge,
    at_call: &D,
    at_exit: &D,
) -> Result<D, NoMemory>
    requires fits { Fits graph.now (node_shape graph.now edge.now.source) (node_shape graph.now edge.now.target) edge.now.action }
    requires shape { D.shape_of at_exit.now ≡ node_shape graph.now edge.now.source }
    requires call_shape { IfSome (call_of edge.now.action) (λ call. D.shape_of at_call.now ≡ node_shape graph.now call) }
    ensures shape { IfOk result (λ s. D.shape_of s ≡ node_shape graph.now edge.now.target) }
    ensures sound { IfOk result (λ s. Keeps D.holds D.shape_of s (AllowedBy (node_shape graph.now edge.now.source) (node_shape graph.now edge.now.target) (D.holds at_exit.now) (D.holds at_call.now) edge.now.action)) }
{
    let Some(it) = return_of(&edge.action) else {
        return stepped(alloc, graph, edge, at_exit);
    };
    let Some(target) = shape_at(graph, edge.target) else {
        return Err(NoMemory);
    };
    left(alloc, target, at_call, at_exit, &it)
}

impl<D: Domain> Images<D> for Steps {
    ghost use Rattle.wm_drawn.specs.Drawn.{IsDrawn};
    ghost use Rattle.wm_started.specs.Starting.{Starts};
    ghost use Rattle.wm_stepped.specs.Allowing.{Allows};

    ghost allowed = { Allows };

    ghost started = { λ program graph. Starts program };

    ghost drawn = { IsDrawn };

    fn step(&self, alloc: Global, graph: &Graph, number: u32, at: &D) -> Result<D, NoMemory> {
        match edge_at(graph.edges.items(), number) {
            None => Err(NoMemory),
            Some(edge) => stepped(alloc, graph, edge, at),
        }
    }

    fn leave(
        &self,
        alloc: Global,
        graph: &Graph,
        number: u32,
        at_call: &D,
        at_exit: &D,
    ) -> Result<D, NoMemory> {
        match edge_at(graph.edges.items(), number) {
            None => Err(NoMemory),
            Some(edge) => returned(alloc, graph, edge, at_call, at_exit),
        }
    }

    fn first(&self, alloc: Global, program: &Program, graph: &Graph) -> Result<D, NoMemory> {
        first(alloc, program, graph)
    }
}
