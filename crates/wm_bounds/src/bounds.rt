// The bound of each frame function.
ghost use Rattle.std.specs.Prelude.{◌≡◌, IfOk};
ghost use Rattle.wm_bounds.specs.Bounds.{bound_in, bounds_from, bounds_of};

use crate::parts::{Part, lives_in, parts_of};
use std::alloc::Global;
use wm_cost::frame_bound;
use wm_flow::{Bound, Graph};
use wm_ops::{List, NoMemory};
use wm_program::Program;
use wm_weights::Weights;

fn bound_in(
    alloc: Global,
    graph: &Graph,
    weights: &Weights,
    turns: &[Option<u64>],
    live: &[bool],
    stops: &[bool],
    part: Part,
) -> Result<Bound, NoMemory>
    ensures { IfOk result (λ bound. bound ≡ bound_in graph.now weights.now turns.now live.now stops.now part) }
{
    let own = lives_in(alloc, graph, part, live)?;
    frame_bound(alloc, graph, weights, turns, own.as_slice(), stops)
}

/// The bound of each part.
fn bounds_from(
    alloc: Global,
    graph: &Graph,
    weights: &Weights,
    turns: &[Option<u64>],
    live: &[bool],
    stops: &[bool],
    parts: &[Part],
) -> Result<List<Bound>, NoMemory>
    ensures { IfOk result (λ bounds. bounds ≡ bounds_from graph.now weights.now turns.now live.now stops.now parts.now) }
{
    let mut bounds = List::new(alloc);
    for part in parts {
        bounds.push(bound_in(alloc, graph, weights, turns, live, stops, *part)?)?;
    }
    Ok(bounds)
}

/// For each frame function, in their order, what its frame counts at most: the bound where the edges from and to the nodes of the
/// instances of other frame functions are not live. `turns` has an entry for each head, `live` for each edge, `stops` for each node.
pub fn bounds_of(
    alloc: Global,
    program: &Program,
    graph: &Graph,
    weights: &Weights,
    turns: &[Option<u64>],
    live: &[bool],
    stops: &[bool],
) -> Result<List<Bound>, NoMemory>
    ensures bounds { IfOk result (λ bounds. bounds ≡ bounds_of program.now graph.now weights.now turns.now live.now stops.now) }
{
    let parts = parts_of(alloc, program)?;
    bounds_from(alloc, graph, weights, turns, live, stops, parts.as_slice())
}
