// The loops of a graph whose number of turns is bounded.
ghost use Rattle.std.specs.Prelude.{◌≡◌, ◌++◌, slice_index_or, None, IfOk, OnOk};
ghost use Rattle.wm_cost.specs.Turnings.{source_at, turning_of, turnings_from};

use std::alloc::{AllocError, Global};
use wm_flow::{Edge, Head};
use wm_ways::Turning;

/// The node from which an edge leads; 0 where there is no such edge.
pub fn source_at(edges: &[Edge], number: u32) -> u32
    ensures { result ≡ source_at edges.now number }
{
    match edges.get(number as usize) {
        None => 0,
        Some(edge) => edge.source,
    }
}

/// The turns of a head, or none behind the end of the list.
pub fn turns_at(turns: &[Option<u64>], place: usize) -> Option<u64>
    ensures { result ≡ slice_index_or turns.now place None }
{
    if place < turns.len() {
        return turns[place];
    }
    None
}

#[tactic(auto, unfolding(crate::specs::Turnings::turning_of))]
fn push_turning(
    turnings: &mut Vec<Turning>,
    edges: &[Edge],
    turns: Option<u64>,
    head: Head,
) -> Result<(), AllocError>
    ensures { OnOk result (turnings.new.items ≡ turnings.old.items ++ turning_of edges.now turns head) }
{
    let last = source_at(edges, head.back);
    match head.loop_id {
        None => Ok(()),
        Some(_loop_id) => match turns {
            None => Ok(()),
            Some(turns) => {
                turnings.push(Turning {
                    node: head.node,
                    last,
                    back: head.back,
                    turns,
                })?;
                Ok(())
            }
        },
    }
}

/// The loops of a graph whose number of turns is bounded. `turns` has an entry for each head.
pub fn turnings_of(
    alloc: Global,
    edges: &[Edge],
    turns: &[Option<u64>],
    heads: &[Head],
) -> Result<Vec<Turning>, AllocError>
    ensures { IfOk result (λ turnings. turnings.items ≡ turnings_from edges.now turns.now 0 heads.now) }
{
    let mut turnings = Vec::new(alloc);
    for number in 0..heads.len() {
        push_turning(&mut turnings, edges, turns_at(turns, number), heads[number])?;
    }
    Ok(turnings)
}
