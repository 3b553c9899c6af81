//! Images of states along edges.

ghost use Rattle.std.specs.Prelude.{◌≡◌, ℕ, slice_get, IfOk, IfSome};
ghost use Rattle.wm_uses.specs.Last.{call_of};
ghost use Rattle.wm_domain.specs.Points.{Point};
ghost use Rattle.wm_domain.specs.States.{Keeps};
ghost use Rattle.wm_images.specs.Nodes.{node_shape};

use std::alloc::Global;
use wm_domain::Domain;
use wm_flow::Graph;
use wm_ops::NoMemory;
use wm_program::Program;

/// The image of a state along an edge holds each point that the edge allows from a point of the state, and for a return from
/// a point at the call's node too.
pub trait Images<D: Domain> {
    ghost use Rattle.wm_flow.specs.declared.graph.Graph.{Graph};
    ghost use Rattle.wm_program.specs.declared.program.Program.{Program};

    // the points that the edge of a number allows, from those at its source and those at its call's node
    ghost allowed: { Graph → (number : ℕ) → (Point → Type 0) → (Point → Type 0) → Point → Type 0 };

    // the points with which a run starts
    ghost started: { Program → Graph → Point → Type 0 };

    // what is asked of an edge
    ghost drawn: { Graph → (number : ℕ) → Type 0 };

    /// The image of the state at the source of the edge of this number, which is no return.
    fn step(&self, alloc: Global, graph: &Graph, number: u32, at: &D) -> Result<D, NoMemory>
        requires drawn { drawn graph.now number }
        requires shape { IfSome (slice_get graph.now.edges number) (λ edge. D.shape_of at.now ≡ node_shape graph.now edge.source) }
        ensures shape { IfOk result (λ s. IfSome (slice_get graph.now.edges number) (λ edge. D.shape_of s ≡ node_shape graph.now edge.target)) }
        ensures sound { IfOk result (λ s. Keeps D.holds D.shape_of s (allowed graph.now number (D.holds at.now) (λ p. ⊥))) };

    /// The image of the states at the call's node and at the exit, which is the source, along the return of this number.
    fn leave(
        &self,
        alloc: Global,
        graph: &Graph,
        number: u32,
        at_call: &D,
        at_exit: &D,
    ) -> Result<D, NoMemory>
        requires drawn { drawn graph.now number }
        requires shape { IfSome (slice_get graph.now.edges number) (λ edge. D.shape_of at_exit.now ≡ node_shape graph.now edge.source) }
        requires call_shape { IfSome (slice_get graph.now.edges number) (λ edge. IfSome (call_of edge.action) (λ call. D.shape_of at_call.now ≡ node_shape graph.now call)) }
        ensures shape { IfOk result (λ s. IfSome (slice_get graph.now.edges number) (λ edge. D.shape_of s ≡ node_shape graph.now edge.target)) }
        ensures sound { IfOk result (λ s. Keeps D.holds D.shape_of s (allowed graph.now number (D.holds at_exit.now) (D.holds at_call.now))) };

    /// The state of the static initial values, at the first node.
    fn first(&self, alloc: Global, program: &Program, graph: &Graph) -> Result<D, NoMemory>
        ensures shape { IfOk result (λ s. D.shape_of s ≡ node_shape graph.now 0) }
        ensures sound { IfOk result (λ s. Keeps D.holds D.shape_of s (started program.now graph.now)) };
}
