// What is known of each node of a graph before a walk.
ghost use Rattle.std.specs.Prelude.{◌≡◌, ◌<◌, ℕ, length, slice_index_or, None, [], IfOk};
ghost use Rattle.wm_incoming.specs.Into.{numbers_into};
ghost use Rattle.wm_incoming.specs.Standing.{head_at};
ghost use Rattle.wm_walk.specs.Rows.{AreRows};

use std::alloc::Global;
use wm_flow::Graph;
use wm_incoming::{heads_by_node, incoming};
use wm_ops::{List, NoMemory};
use wm_uses::last_uses;

/// For each node the edges to it, the head that stands there, and the nodes whose labels no later node needs; and how many
/// labels are needed at once.
#[derive(Drop)]
pub struct Rows {
    pub into: Vec<List<u32>>,
    pub heads: Vec<Option<u32>>,
    pub ended: Vec<List<u32>>,
    pub room: u32,
}

fn no_rows(alloc: Global, count: usize) -> Result<Vec<List<u32>>, NoMemory> {
    let mut rows = Vec::new(alloc);
    for _k in 0..count {
        rows.push(List::new(alloc))?;
    }
    Ok(rows)
}

/// Puts a node behind those whose last use is the same node.
fn push_ended(rows: &mut Vec<List<u32>>, until: u32, node: u32) -> Result<(), NoMemory> {
    let place = until as usize;
    if place < rows.len() {
        rows[place].push(node)?;
    }
    Ok(())
}

/// The nodes by their last use. Those that are needed up to the last node are never given up.
fn ended_rows(alloc: Global, last: &[u32]) -> Result<Vec<List<u32>>, NoMemory> {
    let mut rows = no_rows(alloc, last.len().saturating_sub(1))?;
    let mut node = 0;
    for until in last {
        push_ended(&mut rows, *until, node)?;
        node = match u32::checked_add(node, 1) {
            Some(next) => next,
            None => return Err(NoMemory),
        };
    }
    Ok(rows)
}

/// How many nodes up to each one are needed by it or by one behind it, at most.
fn most_at_once(ended: &[List<u32>], count: usize) -> Result<u32, NoMemory> {
    let mut now: usize = 0;
    let mut most: usize = 0;
    for node in 0..count {
        now = match now.checked_add(1) {
            Some(more) => more,
            None => return Err(NoMemory),
        };
        most = most.max(now);
        if node < ended.len() {
            now = now.saturating_sub(ended[node].items().len());
        }
    }
    match u32::try_from(most) {
        Ok(most) => Ok(most),
        Err(_) => Err(NoMemory),
    }
}

/// What a walk over the graph asks of each node. `NoMemory`: memory ran out, or the graph has 2^32 nodes or edges or more.
pub fn rows_of(alloc: Global, graph: &Graph) -> Result<Rows, NoMemory>
    ensures rows { IfOk result (λ rows. AreRows graph.now rows) }
{
    let into = incoming(alloc, graph)?;
    let heads = heads_by_node(alloc, graph)?;
    let last = last_uses(alloc, graph)?;
    let ended = ended_rows(alloc, last.as_slice())?;
    let room = most_at_once(ended.as_slice(), last.len())?;
    Ok(Rows {
        into,
        heads,
        ended,
        room,
    })
}

/// The numbers of the edges to a node.
pub fn into_at(rows: &Rows, node: u32) -> &[u32]
    ensures { result.now ≡ slice_index_or rows.now.into.items node [] }
{
    match rows.into.as_slice().get(node as usize) {
        Some(row) => row.items(),
        None => &[],
    }
}

/// The number of the head at a node.
pub fn head_of(rows: &Rows, node: u32) -> Option<u32>
    ensures { result ≡ slice_index_or rows.now.heads.items node None }
{
    let place = node as usize;
    if place < rows.heads.len() {
        return rows.heads[place];
    }
    None
}

/// The nodes whose labels no node behind this one needs.
pub fn ended_at(rows: &Rows, node: u32) -> &[u32] {
    match rows.ended.as_slice().get(node as usize) {
        Some(row) => row.items(),
        None => &[],
    }
}
