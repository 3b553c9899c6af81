// The edges that lead to each node.
ghost use Rattle.std.specs.Prelude.{◌≡◌, ◌<◌, [], ℕ, length, slice_index_or, IfOk, OnOk};
ghost use Rattle.wm_incoming.specs.Into.{with_edge, numbers_from, numbers_into};

use std::alloc::Global;
use wm_flow::{Edge, Graph};
use wm_ops::{List, NoMemory};

/// Puts an edge behind those to the same node.
fn push_edge(rows: &mut Vec<List<u32>>, target: u32, number: u32) -> Result<(), NoMemory>
    ensures same { OnOk result (length rows.new.items ≡ length rows.old.items) }
    ensures each { OnOk result ((n : ℕ) → n < length rows.old.items → slice_index_or rows.new.items n [] ≡ with_edge target number n (slice_index_or rows.old.items n [])) }
{
    let place = target as usize;
    if place < rows.len() {
        rows[place].push(number)?;
    }
    Ok(())
}

/// No edge to any of so many nodes.
fn no_edges(alloc: Global, count: usize) -> Result<Vec<List<u32>>, NoMemory>
    ensures same { IfOk result (λ rows. length rows.items ≡ count) }
    ensures each { IfOk result (λ rows. (n : ℕ) → n < count → slice_index_or rows.items n [] ≡ []) }
{
    let mut rows = Vec::new(alloc);
    for k in 0..count {
        rows.push(List::new(alloc))?;
    }
    Ok(rows)
}

fn push_edges(rows: &mut Vec<List<u32>>, edges: &[Edge]) -> Result<(), NoMemory>
    ensures same { OnOk result (length rows.new.items ≡ length rows.old.items) }
    ensures each { OnOk result ((n : ℕ) → n < length rows.old.items → slice_index_or rows.new.items n [] ≡ numbers_from n 0 edges.now (slice_index_or rows.old.items n [])) }
{
    for place in 0..edges.len() {
        let Ok(number) = u32::try_from(place) else {
            return Err(NoMemory);
        };
        push_edge(rows, edges[place].target, number)?;
    }
    Ok(())
}

/// The numbers of the edges to each node, in their order. `NoMemory`: memory ran out, or there are more than 2^32 edges.
pub fn incoming(alloc: Global, graph: &Graph) -> Result<Vec<List<u32>>, NoMemory>
    ensures one_for_each { IfOk result (λ rows. length rows.items ≡ length graph.now.node_shape) }
    ensures edges { IfOk result (λ rows. (n : ℕ) → n < length graph.now.node_shape → slice_index_or rows.items n [] ≡ numbers_into n graph.now.edges) }
{
    let mut rows = no_edges(alloc, graph.node_shape.items().len())?;
    push_edges(&mut rows, graph.edges.items())?;
    Ok(rows)
}
