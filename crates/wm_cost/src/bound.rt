// The bound of a frame.
ghost use Rattle.std.specs.Prelude.{◌≡◌, true, slice_set, IfOk};
ghost use Rattle.wm_cost.specs.Bounds.{told, weight_from, bound_from, frame_bound};

use crate::endless::first_endless;
use crate::turnings::{source_at, turnings_of};
use crate::weighing::ways_of;
use std::alloc::{AllocError, Global};
use wm_flow::{Bound, Graph, Head};
use wm_ops::NoMemory;
use wm_ways::greatest_weight;
use wm_weights::Weights;

fn told(weight: u64) -> Bound
    ensures { result ≡ told weight }
{
    if weight <= 1_000_000_000_000_000 {
        Bound::At(weight)
    } else {
        Bound::TooLarge
    }
}

/// The marks with one more.
pub fn with_mark(alloc: Global, marks: &[bool], node: u32) -> Result<Vec<bool>, AllocError>
    ensures { IfOk result (λ all. all.items ≡ slice_set marks.now node true) }
{
    let mut all = Vec::new(alloc);
    all.extend_from_slice(marks)?;
    let place = node as usize;
    if place < all.len() {
        all[place] = true;
    }
    Ok(all)
}

#[tactic(auto, unfolding(crate::specs::Bounds::weight_from))]
fn weight_from(
    alloc: Global,
    graph: &Graph,
    weights: &Weights,
    turns: &[Option<u64>],
    live: &[bool],
    stops: &[bool],
    head: Head,
) -> Result<u64, AllocError>
    ensures { IfOk result (λ weight. weight ≡ weight_from graph.now weights.now turns.now live.now stops.now head) }
{
    let ways = ways_of(alloc, weights, live, graph.edges.items())?;
    let turnings = turnings_of(alloc, graph.edges.items(), turns, graph.heads.items())?;
    let ends = with_mark(alloc, stops, source_at(graph.edges.items(), head.back))?;
    greatest_weight(alloc, &ways, &turnings, &ends, head.node)
}

#[tactic(auto, unfolding(crate::specs::Bounds::bound_from))]
fn bound_from(
    alloc: Global,
    graph: &Graph,
    weights: &Weights,
    turns: &[Option<u64>],
    live: &[bool],
    stops: &[bool],
    head: Head,
) -> Result<Bound, NoMemory>
    ensures { IfOk result (λ bound. bound ≡ bound_from graph.now weights.now turns.now live.now stops.now head) }
{
    match first_endless(head.node, turns, live, graph.heads.items()) {
        Some(loop_id) => Ok(Bound::NoTrips { loop_id }),
        None => {
            let weight = weight_from(alloc, graph, weights, turns, live, stops, head)?;
            Ok(told(weight))
        }
    }
}

/// What a frame counts at most: the greatest weight of a path of live edges from the frame head to the frame's end or to a
/// node that stops, where an edge weighs as the word that it counts, and a loop head to which a path comes adds its turns
/// times the greatest weight of a path from it to the source of its back edge. 0 where there is no path.
///
/// `turns` has an entry for each head, `live` for each edge, `stops` for each node, and each word that an edge counts has a
/// weight; what is missing counts as none, false and 0. `NoTrips` names the first loop by number that has a live head
/// behind the frame head and no turns; it goes before `TooLarge`, which is a bound above 10^15.
pub fn frame_bound(
    alloc: Global,
    graph: &Graph,
    weights: &Weights,
    turns: &[Option<u64>],
    live: &[bool],
    stops: &[bool],
) -> Result<Bound, NoMemory>
    ensures bound { IfOk result (λ bound. bound ≡ frame_bound graph.now weights.now turns.now live.now stops.now) }
{
    match graph.heads.items().first() {
        None => Ok(Bound::At(0)),
        Some(head) => bound_from(alloc, graph, weights, turns, live, stops, *head),
    }
}
