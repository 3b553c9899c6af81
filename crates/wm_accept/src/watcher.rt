//! What is shown the labels of the nodes.

ghost use Rattle.std.specs.Prelude.{◌≡◌, ◌+◌, ◌++◌, ◌∷◌, [], ℕ, List, OnOk};
ghost use Rattle.wm_images.specs.Nodes.{node_shape};

use std::alloc::Global;
use wm_domain::Domain;
use wm_flow::Graph;
use wm_ops::NoMemory;
use wm_program::Program;

/// The label of each node is shown once, in the order of the nodes.
pub trait Watcher<D: Domain> {
    ghost use Rattle.wm_program.specs.declared.program.Program.{Program};
    ghost use Rattle.wm_flow.specs.declared.graph.Graph.{Graph};

    // the node whose label is shown next
    ghost next: { Self → ℕ → Type 0 };

    // these labels of the first nodes were shown, and it holds what they tell
    ghost saw: { Program → Graph → Self → List D → Type 0 };

    /// Shows the label of a node, of which it has the shape.
    fn see(
        &mut self,
        alloc: Global,
        program: &Program,
        graph: &Graph,
        node: u32,
        label: &D,
    ) -> Result<(), NoMemory>
        requires next { next self.old node }
        requires shape { D.shape_of label.now ≡ node_shape graph.now node }
        ensures next { OnOk result (next self.new (node + 1)) }
        ensures saw { OnOk result ((labels : List D) → saw program.now graph.now self.old labels → saw program.now graph.now self.new (labels ++ label.now ∷ [])) };
}

/// No one looks at the labels.
#[derive(Clone, Copy, Debug)]
pub struct Unwatched;

impl<D: Domain> Watcher<D> for Unwatched {
    ghost use Rattle.std.specs.Prelude.{ℕ};

    ghost next = { λ _ _. Unit {0} };

    ghost saw = { λ _ _ _ _. Unit {0} };

    fn see(
        &mut self,
        _alloc: Global,
        _program: &Program,
        _graph: &Graph,
        _node: u32,
        _label: &D,
    ) -> Result<(), NoMemory> {
        Ok(())
    }
}
