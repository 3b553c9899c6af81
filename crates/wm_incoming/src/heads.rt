// The head that stands at each node.
ghost use Rattle.std.specs.Prelude.{◌≡◌, ◌<◌, ℕ, length, slice_index_or, None, IfOk, OnOk};
ghost use Rattle.wm_incoming.specs.Standing.{with_head, head_from, head_at};

use std::alloc::Global;
use wm_flow::{Graph, Head};
use wm_ops::NoMemory;

fn set_head(found: &mut Vec<Option<u32>>, node: u32, number: u32)
    ensures same { length found.new.items ≡ length found.old.items }
    ensures each { (n : ℕ) → n < length found.old.items → slice_index_or found.new.items n None ≡ with_head node number n (slice_index_or found.old.items n None) }
{
    let place = node as usize;
    if place < found.len() {
        found[place] = Some(number);
    }
}

/// No head at any of so many nodes.
fn no_heads(alloc: Global, count: usize) -> Result<Vec<Option<u32>>, NoMemory>
    ensures same { IfOk result (λ found. length found.items ≡ count) }
    ensures each { IfOk result (λ found. (n : ℕ) → n < count → slice_index_or found.items n None ≡ None) }
{
    let mut found = Vec::new(alloc);
    for k in 0..count {
        found.push(None)?;
    }
    Ok(found)
}

fn set_heads(found: &mut Vec<Option<u32>>, heads: &[Head]) -> Result<(), NoMemory>
    ensures same { OnOk result (length found.new.items ≡ length found.old.items) }
    ensures each { OnOk result ((n : ℕ) → n < length found.old.items → slice_index_or found.new.items n None ≡ head_from n 0 heads.now (slice_index_or found.old.items n None)) }
{
    for place in 0..heads.len() {
        let Ok(number) = u32::try_from(place) else {
            return Err(NoMemory);
        };
        set_head(found, heads[place].node, number);
    }
    Ok(())
}

/// The number of the head at each node; none where no head stands. `NoMemory`: memory ran out, or there are more than 2^32
/// heads.
pub fn heads_by_node(alloc: Global, graph: &Graph) -> Result<Vec<Option<u32>>, NoMemory>
    ensures one_for_each { IfOk result (λ found. length found.items ≡ length graph.now.node_shape) }
    ensures heads { IfOk result (λ found. (n : ℕ) → n < length graph.now.node_shape → slice_index_or found.items n None ≡ head_at n graph.now.heads) }
{
    let mut found = no_heads(alloc, graph.node_shape.items().len())?;
    set_heads(&mut found, graph.heads.items())?;
    Ok(found)
}
