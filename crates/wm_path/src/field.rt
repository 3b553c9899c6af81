// What is known of a graph while paths through it are picked.
ghost use Rattle.std.specs.Prelude.{◌≡◌, ◌+◌, ◌<◌, ◌≤◌, ◌^◌, length, slice_index_or, slice_get, None, IfOk, OnOk, slice_set};
ghost use Rattle.wm_path.specs.Fields.{head_numbers, field_of, seen, target_of, mark_in, loop_behind};

use std::alloc::{AllocError, Global};
use wm_cost::{turnings_of, ways_of};
use wm_flow::{Graph, Head};
use wm_ways::whole::{added_of, firsts_of, marks_of};
use wm_ways::{Turning, Way};
use wm_weights::Weights;

/// The edges, the number of the first from each node, what loops add at their heads, and the loops with the numbers of their
/// heads, by node.
#[derive(Drop)]
pub struct Field {
    pub ways: Vec<Way>,
    pub firsts: Vec<usize>,
    pub added: Vec<u64>,
    pub marks: Vec<Option<Turning>>,
    pub heads: Vec<u32>,
}

fn put_number(numbers: &mut Vec<u32>, node: u32, number: u32)
    ensures { numbers.new.items ≡ slice_set numbers.old.items node number }
{
    let place = node as usize;
    if place < numbers.len() {
        numbers[place] = number;
    }
}

/// Puts the number of each head at its node.
fn put_numbers(numbers: &mut Vec<u32>, heads: &[Head])
    requires { length heads.now ≤ 2 ^ 32 }
    ensures { numbers.new.items ≡ head_numbers 0 heads.now numbers.old.items }
{
    for (number, head) in heads.iter().enumerate() {
        put_number(numbers, head.node, number as u32);
    }
}

/// What is known of a graph of so many nodes.
#[tactic(auto, unfolding(crate::specs::Fields::field_of))]
pub fn field_of(
    alloc: Global,
    graph: &Graph,
    weights: &Weights,
    turns: &[Option<u64>],
    live: &[bool],
    nodes: usize,
) -> Result<Field, AllocError>
    requires { length graph.now.heads ≤ 2 ^ 32 }
    ensures { IfOk result (λ field. seen field ≡ field_of graph.now weights.now turns.now live.now nodes) }
{
    let ways = ways_of(alloc, weights, live, graph.edges.items())?;
    let turnings = turnings_of(alloc, graph.edges.items(), turns, graph.heads.items())?;
    let firsts = firsts_of(alloc, &ways, nodes)?;
    let marks = marks_of(alloc, &turnings, nodes)?;
    let added = added_of(alloc, &ways, &firsts, &marks, nodes)?;
    let mut heads = vec![in alloc; 0; nodes]?;
    put_numbers(&mut heads, graph.heads.items());
    Ok(Field {
        ways,
        firsts,
        added,
        marks,
        heads,
    })
}

/// The node to which an edge leads.
fn target_of(ways: &[Way], number: u32) -> Option<u32>
    ensures { result ≡ target_of (slice_get ways.now number) }
{
    match ways.get(number as usize) {
        None => None,
        Some(way) => Some(way.target),
    }
}

/// The loop at a node.
fn mark_in(marks: &[Option<Turning>], node: Option<u32>) -> Option<Turning>
    ensures { result ≡ mark_in marks.now node }
{
    match node {
        None => None,
        Some(node) => {
            let place = node as usize;
            if place < marks.len() {
                return marks[place];
            }
            None
        }
    }
}

/// The loop to whose head an edge leads.
pub fn loop_behind(field: &Field, number: u32) -> Option<Turning>
    ensures { result ≡ loop_behind (seen field.now) number }
{
    mark_in(
        field.marks.as_slice(),
        target_of(field.ways.as_slice(), number),
    )
}

/// The number of the head at a node.
pub fn head_at(field: &Field, node: u32) -> u32
    ensures { result ≡ slice_index_or field.now.heads.items node 0 }
{
    let place = node as usize;
    if place < field.heads.len() {
        return field.heads[place];
    }
    0
}
