// What the finder walks over.
ghost use Rattle.std.specs.Prelude.{◌≡◌, slice_get, Some, IfSome};

use crate::plan::Plan;
use crate::states::shape_at;
use std::alloc::Global;
use wm_apart::{Apart, Part};
use wm_domain::Shape;
use wm_flow::{Edge, Graph};
use wm_ops::NoMemory;

/// A graph, its edges apart from each other, and what is known of its nodes.
#[derive(Clone, Copy)]
pub(crate) struct Setting<'g> {
    pub alloc: Global,
    pub graph: &'g Graph,
    pub apart: &'g Apart,
    pub plan: &'g Plan,
}

/// The edge of a number.
pub(crate) fn edge_at(graph: &Graph, number: u32) -> Option<&Edge>
    ensures { IfSome result (λ edge. slice_get graph.now.edges number ≡ Some edge.now) }
{
    graph.edges.items().get(number as usize)
}

/// What the edge of a number names.
pub(crate) fn part_at(apart: &Apart, number: u32) -> Option<&Part> {
    apart.parts.as_slice().get(number as usize)
}

/// The shape of a node of the graph.
pub(crate) fn whole_shape<'g>(setting: &Setting<'g>, node: u32) -> Result<&'g Shape, NoMemory> {
    match shape_at(setting.graph, node) {
        None => Err(NoMemory),
        Some(shape) => Ok(shape),
    }
}
