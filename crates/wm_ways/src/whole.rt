// The greatest weight of a path through a whole graph.
ghost use Rattle.std.specs.Prelude.{◌≡◌, drop, slice_index_or, length, IfOk};
ghost use Rattle.wm_ways.specs.Whole.{firsts_of, marks_of, added_of, onwards, greatest_weight};

use crate::loops::{fill, first_at, put_firsts, put_marks};
use crate::numbers::or_nought;
use crate::sweep::{best_at, ending_in, sweep};
use crate::ways::{Turning, Way};
use std::alloc::{AllocError, Global};

/// The number of the first edge from each of so many nodes, where the edges stand in the order of their sources; that of the
/// edges where none leads from it.
#[tactic(auto, unfolding(crate::specs::Whole::firsts_of))]
pub fn firsts_of(alloc: Global, ways: &[Way], nodes: usize) -> Result<Vec<usize>, AllocError>
    ensures { IfOk result (λ firsts. firsts.items ≡ firsts_of ways.now nodes) }
{
    let mut firsts = vec![in alloc; ways.len(); nodes]?;
    put_firsts(&mut firsts, ways);
    Ok(firsts)
}

/// The loop of each of so many nodes that is a head.
#[tactic(auto, unfolding(crate::specs::Whole::marks_of))]
pub fn marks_of(
    alloc: Global,
    turnings: &[Turning],
    nodes: usize,
) -> Result<Vec<Option<Turning>>, AllocError>
    ensures { IfOk result (λ marks. marks.items ≡ marks_of turnings.now nodes) }
{
    let mut marks = vec![in alloc; None; nodes]?;
    put_marks(&mut marks, turnings);
    Ok(marks)
}

/// What is added at each of so many nodes: at a head its turns times the greatest weight of one of them.
#[tactic(auto, unfolding(crate::specs::Whole::added_of))]
pub fn added_of(
    alloc: Global,
    ways: &[Way],
    firsts: &[usize],
    marks: &[Option<Turning>],
    nodes: usize,
) -> Result<Vec<u64>, AllocError>
    ensures { IfOk result (λ added. added.items ≡ added_of ways.now firsts.now marks.now nodes) }
{
    let mut added = vec![in alloc; 0; nodes]?;
    fill(alloc, ways, firsts, marks, &mut added)?;
    Ok(added)
}

/// The part of a slice from a place on.
pub fn from_place<T>(items: &[T], place: usize) -> &[T]
    ensures { result.now ≡ drop place items.now }
{
    let place = place.min(items.len());
    &items[place..]
}

#[tactic(auto, unfolding(crate::specs::Whole::onwards))]
fn onwards(
    alloc: Global,
    ways: &[Way],
    firsts: &[usize],
    added: &[u64],
    ends: &[bool],
    start: u32,
) -> Result<u64, AllocError>
    ensures { IfOk result (λ weight. weight ≡ onwards ways.now firsts.now added.now ends.now start) }
{
    let mut best = ending_in(alloc, from_place(ends, start as usize))?;
    sweep(
        &mut best,
        start,
        added,
        from_place(ways, first_at(firsts, start)),
    );
    Ok(or_nought(best_at(&best, start, start)))
}

/// The greatest weight of a path from `start` to a node that `ends` marks; there is a mark for each node. The weight of a
/// path is that of its edges, and at each head to which it comes the turns of the loop times the greatest weight of a path
/// from the head to the source of the back edge, or nothing where there is none. Without a path it is 0; above 10^15
/// it is 10^15 + 1.
///
/// It takes as long as the graph is large, and the bodies of its loops once more for each loop around them.
#[tactic(auto, unfolding(crate::specs::Whole::greatest_weight))]
pub fn greatest_weight(
    alloc: Global,
    ways: &[Way],
    turnings: &[Turning],
    ends: &[bool],
    start: u32,
) -> Result<u64, AllocError>
    ensures { IfOk result (λ weight. weight ≡ greatest_weight ways.now turnings.now ends.now start) }
{
    let nodes = ends.len();
    let firsts = firsts_of(alloc, ways, nodes)?;
    let marks = marks_of(alloc, turnings, nodes)?;
    let added = added_of(alloc, ways, &firsts, &marks, nodes)?;
    onwards(alloc, ways, &firsts, &added, ends, start)
}
