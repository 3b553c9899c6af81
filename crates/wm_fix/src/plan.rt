// What the finder knows of a graph before it walks.
use std::alloc::Global;
use wm_flow::{Graph, Head};
use wm_ops::NoMemory;
use wm_uses::last_uses;
use wm_walk::{Rows, rows_of};

/// What is known of each node.
#[derive(Drop)]
pub(crate) struct Plan {
    pub rows: Rows,
    /// By node: the head to which its back edge leads.
    pub backs: Vec<Option<u32>>,
    /// By node: the last node that needs what is known of it.
    pub uses: Vec<u32>,
}

fn no_numbers(alloc: Global, count: usize) -> Result<Vec<Option<u32>>, NoMemory> {
    let mut backs = Vec::new(alloc);
    for _node in 0..count {
        backs.push(None)?;
    }
    Ok(backs)
}

/// Notes the number of a thing at its node.
fn set_number(found: &mut Vec<Option<u32>>, node: u32, number: u32) {
    let place = node as usize;
    if place < found.len() {
        found[place] = Some(number);
    }
}

/// The node from which the back edge of a head leads.
fn last_of(graph: &Graph, head: &Head) -> Result<u32, NoMemory> {
    match graph.edges.items().get(head.back as usize) {
        None => Err(NoMemory),
        Some(edge) => Ok(edge.source),
    }
}

/// By head the node from which its back edge leads.
fn lasts_of(alloc: Global, graph: &Graph) -> Result<Vec<u32>, NoMemory> {
    let mut lasts = Vec::new(alloc);
    for head in graph.heads.items() {
        lasts.push(last_of(graph, head)?)?;
    }
    Ok(lasts)
}

/// By node the number of the thing at it.
fn by_node(alloc: Global, count: usize, nodes: &[u32]) -> Result<Vec<Option<u32>>, NoMemory> {
    let mut found = no_numbers(alloc, count)?;
    let mut number: u32 = 0;
    for node in nodes {
        set_number(&mut found, *node, number);
        number = match u32::checked_add(number, 1) {
            Some(next) => next,
            None => return Err(NoMemory),
        };
    }
    Ok(found)
}

/// What the finder asks of a graph.
pub(crate) fn plan_of(alloc: Global, graph: &Graph) -> Result<Plan, NoMemory> {
    let rows = rows_of(alloc, graph)?;
    let lasts = lasts_of(alloc, graph)?;
    let count = graph.node_shape.items().len();
    let backs = by_node(alloc, count, lasts.as_slice())?;
    let uses = last_uses(alloc, graph)?;
    Ok(Plan { rows, backs, uses })
}

/// The head to which the back edge from a node leads.
pub(crate) fn back_at(plan: &Plan, node: u32) -> Option<u32> {
    match plan.backs.as_slice().get(node as usize) {
        None => None,
        Some(number) => *number,
    }
}

/// Whether a node is the last one that needs what is known of another.
pub(crate) fn is_last_use(plan: &Plan, node: u32, of: u32) -> bool {
    match plan.uses.as_slice().get(of as usize) {
        None => false,
        Some(last) => *last == node,
    }
}
