// The edges of a path.
ghost use Rattle.std.specs.Prelude.{◌≡◌, ℕ, ◌+◌, ◌<◌, ◌^◌, length, IfOk};
ghost use Rattle.wm_path.specs.Picks.{are_both, unless_nought, beyond, sought, attains, takes, picked};

use std::alloc::Global;
use wm_ops::{List, NoMemory};
use wm_ways::Way;
use wm_ways::numbers::along;
use wm_ways::sweep::{best_at, number_at};

fn are_both(a: Option<u64>, b: Option<u64>) -> bool
    ensures { result ≡ are_both a b }
{
    match a {
        None => false,
        Some(here) => match b {
            None => false,
            Some(there) => here == there,
        },
    }
}

fn unless_nought(weight: Option<u64>) -> Option<u64>
    ensures { result ≡ unless_nought weight }
{
    match weight {
        None => None,
        Some(weight) => { if weight == 0 { None } else { Some(weight) } }
    }
}

fn beyond(ending: Option<u64>, known: Option<u64>) -> Option<u64>
    ensures { result ≡ beyond ending known }
{
    match ending {
        None => known,
        Some(_nought) => unless_nought(known),
    }
}

/// What the rest of the path weighs from a node on.
fn sought(first: u32, best: &[Option<u64>], ending: &[Option<u64>], at: u32) -> Option<u64>
    ensures { result ≡ sought first best.now ending.now at }
{
    beyond(best_at(ending, first, at), best_at(best, first, at))
}

fn attains(
    first: u32,
    added: &[u64],
    best: &[Option<u64>],
    ending: &[Option<u64>],
    at: u32,
    way: Way,
) -> bool
    ensures { result ≡ attains first added.now best.now ending.now at way }
{
    let behind = best_at(best, first, way.target);
    are_both(
        sought(first, best, ending, at),
        along(way.weight, number_at(added, way.target), behind),
    )
}

/// Whether the path goes on from a node by this edge.
fn takes(
    first: u32,
    added: &[u64],
    best: &[Option<u64>],
    ending: &[Option<u64>],
    at: u32,
    way: Way,
) -> bool
    ensures { result ≡ takes first added.now best.now ending.now at way }
{
    if way.open {
        if way.source == at {
            return attains(first, added, best, ending, at, way);
        }
    }
    false
}

/// The numbers of the edges that are picked from a node on, of the edges from a number on. `best` has the greatest weights
/// of paths from nodes on to the ends, which `ending` has; the nodes of both are counted from the first.
pub fn picked(
    alloc: Global,
    first: u32,
    added: &[u64],
    best: &[Option<u64>],
    ending: &[Option<u64>],
    number: usize,
    ways: &[Way],
) -> Result<List<u32>, NoMemory>
    requires { (k : ℕ) → k < length ways.now → number + k < 2 ^ 32 }
    ensures { IfOk result (λ edges. edges ≡ picked first added.now best.now ending.now number first ways.now) }
{
    let mut edges = List::new(alloc);
    let mut at = first;
    for (k, way) in ways.iter().enumerate() {
        if takes(first, added, best, ending, at, *way) {
            edges.push((number + k) as u32)?;
            at = way.target;
        }
    }
    Ok(edges)
}
