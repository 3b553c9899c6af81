// Rounds over all functions, each of which looks at what the round before it found for the called ones.
ghost use Rattle.std.specs.Prelude.{◌≡◌, IfOk, IsTrue};
ghost use Rattle.wm_calls.specs.Rounds.{all_ending, all_marked, all_reaching, any_marked, ends_round, is_marked, reach_round};

use std::alloc::Global;
use wm_ops::{List, NoMemory};
use wm_scope::CallPlace;

/// Whether a function is marked; one that is not there is not.
pub(crate) fn is_marked(marks: &[bool], function: usize) -> bool
    ensures { result ≡ is_marked marks.now function }
{
    match marks.get(function) {
        Some(mark) => *mark,
        None => false,
    }
}

fn are_all_marked(places: &[CallPlace], marks: &[bool]) -> bool
    ensures { result ≡ all_marked marks.now places.now }
{
    places
        .iter()
        .all(|place| is_marked(marks, place.function as usize))
}

fn is_any_marked(places: &[CallPlace], marks: &[bool]) -> bool
    ensures { result ≡ any_marked marks.now places.now }
{
    places
        .iter()
        .any(|place| is_marked(marks, place.function as usize))
}

#[tactic(auto, unfolding(crate::specs::Rounds::ends_round))]
fn ends_round(
    alloc: Global,
    calls: &[List<CallPlace>],
    marks: &[bool],
) -> Result<Vec<bool>, NoMemory>
    ensures { IfOk result (λ next. next.items ≡ ends_round calls.now marks.now) }
{
    let mut next = Vec::new(alloc);
    for places in calls {
        next.push(are_all_marked(places.items(), marks))?;
    }
    Ok(next)
}

#[tactic(auto, unfolding(crate::specs::Rounds::reach_round))]
fn reach_round(
    alloc: Global,
    calls: &[List<CallPlace>],
    to: usize,
    marks: &[bool],
) -> Result<Vec<bool>, NoMemory>
    ensures { IfOk result (λ next. next.items ≡ reach_round calls.now to marks.now) }
{
    let mut next = Vec::new(alloc);
    for places in calls {
        next.push(is_any_marked(places.items(), marks))?;
    }
    if to < next.len() {
        next[to] = true;
    }
    Ok(next)
}

fn are_alike(one: &[bool], other: &[bool]) -> bool
    ensures { IsTrue result → one.now ≡ other.now }
{
    one == other
}

/// The functions from which no chain of calls comes back to itself.
#[tactic(auto, using(crate::proofs::Repeating::goes, crate::proofs::Repeating::stays, crate::proofs::Repeating::ends), unfolding(crate::specs::Rounds::all_ending))]
pub(crate) fn all_ending(alloc: Global, calls: &[List<CallPlace>]) -> Result<Vec<bool>, NoMemory>
    ensures { IfOk result (λ marks. marks.items ≡ all_ending calls.now) }
{
    let mut marks = Vec::new(alloc);
    for round in 0..calls.len() {
        let next = ends_round(alloc, calls, marks.as_slice())?;
        if are_alike(next.as_slice(), marks.as_slice()) {
            return Ok(marks);
        }
        marks = next;
    }
    Ok(marks)
}

/// The functions that can reach this one by calls, itself among them.
#[tactic(auto, using(crate::proofs::Repeating::goes, crate::proofs::Repeating::stays, crate::proofs::Repeating::ends), unfolding(crate::specs::Rounds::all_reaching))]
pub(crate) fn all_reaching(
    alloc: Global,
    calls: &[List<CallPlace>],
    to: usize,
) -> Result<Vec<bool>, NoMemory>
    ensures { IfOk result (λ marks. marks.items ≡ all_reaching calls.now to) }
{
    let mut marks = Vec::new(alloc);
    for round in 0..calls.len() {
        let next = reach_round(alloc, calls, to, marks.as_slice())?;
        if are_alike(next.as_slice(), marks.as_slice()) {
            return Ok(marks);
        }
        marks = next;
    }
    Ok(marks)
}
