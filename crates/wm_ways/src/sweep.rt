// Tables of the greatest weights of paths, by the node at which they begin.
ghost use Rattle.std.specs.Prelude.{◌≡◌, ◌<◌, length, slice_index_or, IfOk};
ghost use Rattle.wm_ways.specs.declared.ways.Way.{Way};
ghost use Rattle.wm_ways.specs.Sweeps.{best_at, onward, relaxed, swept, ending_at, end_mark, ending_in};

use crate::numbers::{along, greater};
use crate::ways::Way;
use std::alloc::{AllocError, Global};

/// What is known at a node; the nodes of the table are counted from its first one.
pub fn best_at(best: &[Option<u64>], first: u32, node: u32) -> Option<u64>
    ensures { result ≡ best_at first best.now node }
{
    let place = node.saturating_sub(first) as usize;
    if place < best.len() {
        return best[place];
    }
    None
}

/// A number of a table, or 0 behind its end.
pub fn number_at(numbers: &[u64], node: u32) -> u64
    ensures { result ≡ slice_index_or numbers.now node 0 }
{
    let place = node as usize;
    if place < numbers.len() {
        return numbers[place];
    }
    0
}

fn onward(best: &[Option<u64>], first: u32, added: &[u64], way: Way) -> Option<u64>
    ensures { result ≡ onward first added.now way best.now }
{
    let behind = best_at(best, first, way.target);
    greater(
        best_at(best, first, way.source),
        along(way.weight, number_at(added, way.target), behind),
    )
}

#[tactic(auto, unfolding(crate::specs::Sweeps::relaxed))]
fn relax(best: &mut Vec<Option<u64>>, first: u32, added: &[u64], way: Way)
    ensures { best.new.items ≡ relaxed first added.now way best.old.items }
{
    if way.open {
        let known = onward(best, first, added, way);
        let place = way.source.saturating_sub(first) as usize;
        if place < best.len() {
            best[place] = known;
        }
    }
}

pub fn way_at(ways: &[Way], place: usize) -> Way
    requires { place < length ways.now }
    ensures { (d : Way) → result ≡ slice_index_or ways.now place d }
{
    ways[place]
}

/// Takes the edges from the last to the first: what is known at the source of an open edge becomes the greater of what was known
/// there and of what the edge tells.
pub fn sweep(best: &mut Vec<Option<u64>>, first: u32, added: &[u64], ways: &[Way])
    ensures { best.new.items ≡ swept first added.now ways.now best.old.items }
{
    let mut left = ways.len();
    while left > 0 {
        left -= 1;
        let way = way_at(ways, left);
        relax(best, first, added, way);
    }
}

/// The table of the nodes from the first to the last, where paths end at the last.
#[tactic(auto, unfolding(crate::specs::Sweeps::ending_at))]
pub fn ending_at(alloc: Global, first: u32, last: u32) -> Result<Vec<Option<u64>>, AllocError>
    ensures { IfOk result (λ best. best.items ≡ ending_at first last) }
{
    let place = last.saturating_sub(first) as usize;
    let mut best = vec![in alloc; None; place + 1]?;
    best[place] = Some(0);
    Ok(best)
}

fn end_mark(ends: bool) -> Option<u64>
    ensures { result ≡ end_mark ends }
{
    if ends { Some(0) } else { None }
}

/// The table of some nodes, where paths end at those that are marked.
pub fn ending_in(alloc: Global, ends: &[bool]) -> Result<Vec<Option<u64>>, AllocError>
    ensures { IfOk result (λ best. best.items ≡ ending_in ends.now) }
{
    let mut best = Vec::new(alloc);
    for mark in ends {
        best.push(end_mark(*mark))?;
    }
    Ok(best)
}
