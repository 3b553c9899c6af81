// What the loops add to paths that come to their heads.
ghost use Rattle.std.specs.Prelude.{◌≡◌, ◌<◌, length, Option, slice_index_or, slice_set, IfOk, OnOk};
ghost use Rattle.wm_ways.specs.declared.ways.Turning.{Turning};
ghost use Rattle.wm_ways.specs.declared.ways.Way.{Way};
ghost use Rattle.wm_ways.specs.Sweeps.{stretch};
ghost use Rattle.wm_ways.specs.Loops.{firsts_from, marked, body, with_turns, filled};

use crate::numbers::{or_nought, turned};
use crate::sweep::{best_at, ending_at, sweep, way_at};
use crate::ways::{Turning, Way};
use std::alloc::{AllocError, Global};

/// The edges from one number up to another.
#[tactic(auto, unfolding(crate::specs::Sweeps::stretch))]
pub fn stretch(ways: &[Way], from: usize, to: usize) -> &[Way]
    ensures { result.now ≡ stretch ways.now from to }
{
    let to = to.min(ways.len());
    if from < to {
        return &ways[from..to];
    }
    &[]
}

/// The number of the first edge from a node, or 0 behind the end of the table.
pub fn first_at(firsts: &[usize], node: u32) -> usize
    ensures { result ≡ slice_index_or firsts.now node 0 }
{
    let place = node as usize;
    if place < firsts.len() {
        return firsts[place];
    }
    0
}

fn put_first(firsts: &mut Vec<usize>, way: Way, number: usize)
    ensures { firsts.new.items ≡ slice_set firsts.old.items way.source number }
{
    let place = way.source as usize;
    if place < firsts.len() {
        firsts[place] = number;
    }
}

/// Puts the number of the first edge from each node into the table.
pub fn put_firsts(firsts: &mut Vec<usize>, ways: &[Way])
    ensures { firsts.new.items ≡ firsts_from 0 ways.now firsts.old.items }
{
    let mut left = ways.len();
    while left > 0 {
        left -= 1;
        let way = way_at(ways, left);
        put_first(firsts, way, left);
    }
}

/// Puts each loop at its head.
pub fn put_marks(marks: &mut Vec<Option<Turning>>, turnings: &[Turning])
    ensures { marks.new.items ≡ marked turnings.now marks.old.items }
{
    for turning in turnings {
        let place = turning.node as usize;
        if place < marks.len() {
            marks[place] = Some(*turning);
        }
    }
}

/// The greatest weight of one turn.
#[tactic(auto, unfolding(crate::specs::Loops::body))]
fn body(
    alloc: Global,
    ways: &[Way],
    firsts: &[usize],
    added: &[u64],
    turning: Turning,
) -> Result<u64, AllocError>
    ensures { IfOk result (λ weight. weight ≡ body ways.now firsts.now added.now turning) }
{
    let mut best = ending_at(alloc, turning.node, turning.last)?;
    let inside = stretch(ways, first_at(firsts, turning.node), turning.back as usize);
    sweep(&mut best, turning.node, added, inside);
    Ok(or_nought(best_at(&best, turning.node, turning.node)))
}

#[tactic(auto, unfolding(crate::specs::Loops::with_turns))]
fn add_turns(
    alloc: Global,
    ways: &[Way],
    firsts: &[usize],
    mark: Option<Turning>,
    added: &mut Vec<u64>,
) -> Result<(), AllocError>
    ensures { OnOk result (added.new.items ≡ with_turns ways.now firsts.now mark added.old.items) }
{
    match mark {
        None => Ok(()),
        Some(turning) => {
            let weight = body(alloc, ways, firsts, added, turning)?;
            put_at(added, turning.node, turned(turning.turns, weight));
            Ok(())
        }
    }
}

fn put_at(numbers: &mut Vec<u64>, node: u32, number: u64)
    ensures { numbers.new.items ≡ slice_set numbers.old.items node number }
{
    let place = node as usize;
    if place < numbers.len() {
        numbers[place] = number;
    }
}

fn mark_at(marks: &[Option<Turning>], place: usize) -> Option<Turning>
    requires { place < length marks.now }
    ensures { (d : Option Turning) → result ≡ slice_index_or marks.now place d }
{
    marks[place]
}

/// Takes the heads from the last to the first.
pub fn fill(
    alloc: Global,
    ways: &[Way],
    firsts: &[usize],
    marks: &[Option<Turning>],
    added: &mut Vec<u64>,
) -> Result<(), AllocError>
    ensures { OnOk result (added.new.items ≡ filled ways.now firsts.now marks.now added.old.items) }
{
    let mut left = marks.len();
    while left > 0 {
        left -= 1;
        let mark = mark_at(marks, left);
        add_turns(alloc, ways, firsts, mark, added)?;
    }
    Ok(())
}
