// The last node that needs the state of each node.
ghost use Rattle.std.specs.Prelude.{◌≡◌, ℕ, ◌<◌, ◌-◌, length, slice_index_or, IfOk};
ghost use Rattle.wm_uses.specs.Last.{call_of, raised, reaching, through, farthest, turning, turned, last_use};

use std::alloc::Global;
use wm_flow::{Action, Edge, Graph, Head};
use wm_ops::NoMemory;

/// The call's node, whose state a return takes too; none on other edges.
pub fn call_of(action: &Action) -> Option<u32>
    ensures { result ≡ call_of action.now }
{
    match action {
        Action::Leave { call, .. } => Some(*call),
        Action::AssignForm { .. } => None,
        Action::Plain { .. } => None,
        Action::Cast { .. } => None,
        Action::AssignRange { .. } => None,
        Action::SetArray { .. } => None,
        Action::Operate { .. } => None,
        Action::Read { .. } => None,
        Action::Write { .. } => None,
        Action::Clear { .. } => None,
        Action::Keep { .. } => None,
        Action::Test { .. } => None,
        Action::Count { .. } => None,
        Action::Enter { .. } => None,
        Action::Reset { .. } => None,
        Action::Turn { .. } => None,
        Action::Tie { .. } => None,
        Action::Inputs { .. } => None,
    }
}

/// The state of a node is needed until this node at least.
#[tactic(auto, using(crate::proofs::Raised::raised_at, crate::proofs::Raised::length_raised))]
fn raise(last: &mut Vec<u32>, node: u32, until: u32)
    ensures same { length last.new.items ≡ length last.old.items }
    ensures each { (k : ℕ) → k < length last.old.items → slice_index_or last.new.items k 0 ≡ reaching node until k (slice_index_or last.old.items k 0) }
{
    set_later(last, node, until);
}

fn set_later(last: &mut Vec<u32>, node: u32, until: u32)
    ensures { last.new.items ≡ raised last.old.items node until }
{
    let node = node as usize;
    if node < last.len() {
        let before = last[node];
        last[node] = before.max(until);
    }
}

/// The target of an edge needs the state of its source, and on a return that of the call.
#[tactic(auto, unfolding(crate::specs::Last::through))]
fn raise_ends(last: &mut Vec<u32>, edge: &Edge)
    ensures same { length last.new.items ≡ length last.old.items }
    ensures each { (k : ℕ) → k < length last.old.items → slice_index_or last.new.items k 0 ≡ through edge.now k (slice_index_or last.old.items k 0) }
{
    raise(last, edge.source, edge.target);
    match call_of(&edge.action) {
        Some(call) => raise(last, call, edge.target),
        None => {}
    }
}

/// The last node needs the state of the source of a head's back edge.
#[tactic(auto, unfolding(crate::specs::Last::turning))]
fn raise_back(last: &mut Vec<u32>, graph: &Graph, head: &Head, end: u32)
    ensures same { length last.new.items ≡ length last.old.items }
    ensures each { (k : ℕ) → k < length last.old.items → slice_index_or last.new.items k 0 ≡ turning graph.now.edges end head.now k (slice_index_or last.old.items k 0) }
{
    match graph.edges.items().get(head.back as usize) {
        Some(edge) => raise(last, edge.source, end),
        None => {}
    }
}

/// Each node by its own number.
fn own_numbers(alloc: Global, count: u32) -> Result<Vec<u32>, NoMemory>
    ensures same { IfOk result (λ last. length last.items ≡ count) }
    ensures each { IfOk result (λ last. (k : ℕ) → k < count → slice_index_or last.items k 0 ≡ k) }
{
    let mut last = Vec::new(alloc);
    for k in 0..count {
        last.push(k)?;
    }
    Ok(last)
}

fn raise_all_ends(last: &mut Vec<u32>, edges: &[Edge])
    ensures same { length last.new.items ≡ length last.old.items }
    ensures each { (k : ℕ) → k < length last.old.items → slice_index_or last.new.items k 0 ≡ farthest edges.now k (slice_index_or last.old.items k 0) }
{
    for edge in edges {
        raise_ends(last, edge);
    }
}

fn raise_all_backs(last: &mut Vec<u32>, graph: &Graph, end: u32)
    ensures same { length last.new.items ≡ length last.old.items }
    ensures each { (k : ℕ) → k < length last.old.items → slice_index_or last.new.items k 0 ≡ turned graph.now.edges end graph.now.heads k (slice_index_or last.old.items k 0) }
{
    for head in graph.heads.items() {
        raise_back(last, graph, head, end);
    }
}

/// For each node the greatest node that needs its state: the node itself, the target of an edge from it, and the target
/// of a return whose call it is. The source of a back edge is needed until the last node.
///
/// `NoMemory`: memory ran out, or the graph has 2^32 nodes or more.
pub fn last_uses(alloc: Global, graph: &Graph) -> Result<Vec<u32>, NoMemory>
    ensures one_for_each { IfOk result (λ last. length last.items ≡ length graph.now.node_shape) }
    ensures last { IfOk result (λ last. (node : ℕ) → node < length graph.now.node_shape → slice_index_or last.items node 0 ≡ last_use graph.now node) }
{
    let Ok(count) = u32::try_from(graph.node_shape.items().len()) else {
        return Err(NoMemory);
    };
    let mut last = own_numbers(alloc, count)?;
    raise_all_ends(&mut last, graph.edges.items());
    raise_all_backs(&mut last, graph, count.saturating_sub(1));
    Ok(last)
}
