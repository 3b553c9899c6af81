// The paths of turns of loops.
ghost use Rattle.std.specs.Prelude.{◌≡◌, ◌≤◌, ◌^◌, length, IfOk};
ghost use Rattle.wm_path.specs.Fields.{seen};
ghost use Rattle.wm_path.specs.Bodies.{bodies_of, body_of, table_of, turn_edges};

use crate::choice::{Body, Choice};
use crate::field::{Field, head_at, loop_behind};
use crate::picking::picked;
use sqlite_items::Items;
use std::alloc::{AllocError, Global};
use wm_ops::{List, NoMemory};
use wm_ways::Turning;
use wm_ways::loops::{first_at, stretch};
use wm_ways::sweep::{best_at, ending_at, sweep};

/// The greatest weights of paths through the body of a loop to the source of its back edge.
fn table_of(alloc: Global, field: &Field, turning: Turning) -> Result<Vec<Option<u64>>, AllocError>
    ensures { IfOk result (λ best. best.items ≡ table_of (seen field.now) turning) }
{
    let from = first_at(field.firsts.as_slice(), turning.node);
    let inside = stretch(field.ways.as_slice(), from, turning.back as usize);
    let mut best = ending_at(alloc, turning.node, turning.last)?;
    sweep(&mut best, turning.node, field.added.as_slice(), inside);
    Ok(best)
}

/// The edges of a turn.
fn turn_edges(
    alloc: Global,
    field: &Field,
    turning: Turning,
    best: &[Option<u64>],
) -> Result<List<u32>, NoMemory>
    requires { length field.now.ways.items ≤ 2 ^ 32 }
    ensures { IfOk result (λ edges. edges ≡ turn_edges (seen field.now) turning best.now) }
{
    let from = first_at(field.firsts.as_slice(), turning.node);
    let inside = stretch(field.ways.as_slice(), from, turning.back as usize);
    let ending = ending_at(alloc, turning.node, turning.last)?;
    picked(
        alloc,
        turning.node,
        field.added.as_slice(),
        best,
        ending.as_slice(),
        from,
        inside,
    )
}

/// The path of a turn of a loop, with the paths of the loops in it; none where no path leads through its body.
#[tactic(auto, unfolding(crate::specs::Bodies::body_of))]
#[cycle(bodies)]
fn body_of(
    alloc: Global,
    field: &Field,
    levels: usize,
    turning: Turning,
) -> Result<Option<Body<Choice>>, NoMemory>
    requires { length field.now.ways.items ≤ 2 ^ 32 }
    ensures { IfOk result (λ body. body ≡ body_of levels (seen field.now) turning) }
{
    let best = table_of(alloc, field, turning)?;
    match best_at(best.as_slice(), turning.node, turning.node) {
        None => Ok(None),
        Some(_weight) => {
            let edges = turn_edges(alloc, field, turning, best.as_slice())?;
            let bodies = bodies_of(alloc, field, levels, edges.items())?;
            Ok(Some(Body {
                head: head_at(field, turning.node),
                turns: turning.turns,
                choice: Choice { edges, bodies },
            }))
        }
    }
}

/// The paths of turns of the loops to whose heads these edges lead, of which at most so many stand inside one another.
#[cycle(bodies)]
pub fn bodies_of(
    alloc: Global,
    field: &Field,
    levels: usize,
    edges: &[u32],
) -> Result<Items<Body<Choice>>, NoMemory>
    requires { length field.now.ways.items ≤ 2 ^ 32 }
    ensures { IfOk result (λ bodies. bodies ≡ bodies_of levels (seen field.now) edges.now) }
{
    let mut bodies = Items::new(alloc);
    if levels == 0 {
        return Ok(bodies);
    }
    for number in edges {
        match loop_behind(field, *number) {
            None => {}
            Some(turning) => match body_of(alloc, field, levels - 1, turning)? {
                None => {}
                Some(body) => bodies.push(body)?,
            },
        }
    }
    Ok(bodies)
}
