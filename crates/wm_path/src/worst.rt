// The worst choice of a frame.
ghost use Rattle.std.specs.Prelude.{◌≡◌, ◌≤◌, ◌^◌, drop, length, slice_index_or, slice_get, IfOk};
ghost use Rattle.wm_path.specs.Fields.{seen};
ghost use Rattle.wm_path.specs.Worst.{onward_table, onward_edges, choice_from, choice_at, choice_behind, worst_path};

use crate::bodies::bodies_of;
use crate::choice::Choice;
use crate::field::{Field, field_of};
use crate::picking::picked;
use sqlite_items::Items;
use std::alloc::{AllocError, Global};
use wm_cost::{frame_bound, source_at, with_mark};
use wm_flow::{Bound, Facts, Graph, Head};
use wm_ops::{List, NoMemory};
use wm_ways::loops::first_at;
use wm_ways::sweep::{ending_in, sweep};
use wm_ways::whole::from_place;
use wm_weights::Weights;

/// The greatest weights of paths from nodes on to the ends.
#[tactic(auto, unfolding(crate::specs::Worst::onward_table))]
fn onward_table(
    alloc: Global,
    field: &Field,
    ends: &[bool],
    start: u32,
) -> Result<Vec<Option<u64>>, AllocError>
    ensures { IfOk result (λ best. best.items ≡ onward_table (seen field.now) ends.now start) }
{
    let from = first_at(field.firsts.as_slice(), start);
    let mut best = ending_in(alloc, from_place(ends, start as usize))?;
    sweep(
        &mut best,
        start,
        field.added.as_slice(),
        from_place(field.ways.as_slice(), from),
    );
    Ok(best)
}

#[tactic(auto, unfolding(crate::specs::Worst::onward_edges))]
fn onward_edges(
    alloc: Global,
    field: &Field,
    ends: &[bool],
    start: u32,
) -> Result<List<u32>, NoMemory>
    requires { length field.now.ways.items ≤ 2 ^ 32 }
    ensures { IfOk result (λ edges. edges ≡ onward_edges (seen field.now) ends.now start) }
{
    let best = onward_table(alloc, field, ends, start)?;
    let ending = ending_in(alloc, from_place(ends, start as usize))?;
    let from = first_at(field.firsts.as_slice(), start);
    let ways = from_place(field.ways.as_slice(), from);
    picked(
        alloc,
        start,
        field.added.as_slice(),
        best.as_slice(),
        ending.as_slice(),
        from,
        ways,
    )
}

#[tactic(auto, unfolding(crate::specs::Worst::choice_from))]
fn choice_from(alloc: Global, field: &Field, ends: &[bool], start: u32) -> Result<Choice, NoMemory>
    requires { length field.now.ways.items ≤ 2 ^ 32 }
    ensures { IfOk result (λ choice. choice ≡ choice_from (seen field.now) ends.now start) }
{
    let edges = onward_edges(alloc, field, ends, start)?;
    let bodies = bodies_of(alloc, field, ends.len(), edges.items())?;
    Ok(Choice { edges, bodies })
}

#[tactic(auto, unfolding(crate::specs::Worst::choice_at))]
fn choice_at(
    alloc: Global,
    graph: &Graph,
    weights: &Weights,
    facts: &Facts,
    head: Head,
) -> Result<Choice, NoMemory>
    requires edges { length graph.now.edges ≤ 2 ^ 32 }
    requires heads { length graph.now.heads ≤ 2 ^ 32 }
    ensures { IfOk result (λ choice. choice ≡ choice_at graph.now weights.now facts.now head) }
{
    let stops = facts.stops.items();
    let field = field_of(
        alloc,
        graph,
        weights,
        facts.turns.items(),
        facts.live.items(),
        stops.len(),
    )?;
    let ends = with_mark(alloc, stops, source_at(graph.edges.items(), head.back))?;
    choice_from(alloc, &field, ends.as_slice(), head.node)
}

fn choice_behind(
    alloc: Global,
    graph: &Graph,
    weights: &Weights,
    facts: &Facts,
) -> Result<Choice, NoMemory>
    ensures { IfOk result (λ choice. choice ≡ choice_behind graph.now weights.now facts.now (slice_get graph.now.heads 0)) }
{
    if graph.edges.items().len() > u32::MAX as usize {
        return Err(NoMemory);
    }
    if graph.heads.items().len() > u32::MAX as usize {
        return Err(NoMemory);
    }
    match graph.heads.items().first() {
        None => Ok(Choice {
            edges: List::new(alloc),
            bodies: Items::new(alloc),
        }),
        Some(head) => choice_at(alloc, graph, weights, facts, *head),
    }
}

/// The worst choice of a frame: of all paths of live edges from the frame head to the frame's end or to a node that stops, those
/// of the greatest weight, and of these the first in the order of lists of edge numbers; at each head of a loop to which it comes
/// the path of a turn, picked by the same rule, where a path leads through the body. It is empty where there is no path. None
/// exactly where `frame_bound` of the same is no number.
///
/// `facts` has an entry for each head, edge and node, and each word that an edge counts has a weight. `NoMemory`: memory ran out,
/// or the graph has more than 2^32 - 1 edges or heads.
pub fn worst_path(
    alloc: Global,
    graph: &Graph,
    weights: &Weights,
    facts: &Facts,
) -> Result<Option<Choice>, NoMemory>
    ensures worst { IfOk result (λ choice. choice ≡ worst_path graph.now weights.now facts.now) }
{
    let bound = frame_bound(
        alloc,
        graph,
        weights,
        facts.turns.items(),
        facts.live.items(),
        facts.stops.items(),
    )?;
    match bound {
        Bound::At(_) => {
            let choice = choice_behind(alloc, graph, weights, facts)?;
            Ok(Some(choice))
        }
        Bound::NoTrips { .. } => Ok(None),
        Bound::TooLarge => Ok(None),
    }
}
