// Recursion: a call whose function can reach its caller.
ghost use Rattle.std.specs.Prelude.{◌≡◌, IfOk};
ghost use Rattle.wm_calls.specs.Rounds.{is_marked};
ghost use Rattle.wm_calls.specs.Recursion.{first_marked, first_back, recursion_of};

use crate::rounds::{all_ending, all_reaching, is_marked};
use std::alloc::Global;
use wm_lang::Position;
use wm_ops::{List, NoMemory};
use wm_scope::CallPlace;

/// The first of these calls whose function is marked.
fn first_marked(places: &[CallPlace], marks: &[bool]) -> Option<Position>
    ensures { result ≡ first_marked marks.now places.now }
{
    for place in places {
        if is_marked(marks, place.function as usize) {
            return Some(place.at);
        }
    }
    None
}

/// The first call of a function from which it can be reached again.
fn first_back(
    alloc: Global,
    calls: &[List<CallPlace>],
    caller: usize,
    places: &[CallPlace],
) -> Result<Option<Position>, NoMemory>
    ensures { IfOk result (λ at. at ≡ first_back calls.now caller places.now) }
{
    let marks = all_reaching(alloc, calls, caller)?;
    Ok(first_marked(places, marks.as_slice()))
}

/// Where the first call stands, in the order of the source, whose function can reach its caller by calls: the name in
/// the call. The calls are those of each function.
#[tactic(auto, using(crate::proofs::Endings::found), unfolding(crate::specs::Recursion::recursion_of))]
pub fn recursion(alloc: Global, calls: &[List<CallPlace>]) -> Result<Option<Position>, NoMemory>
    ensures first { IfOk result (λ at. at ≡ recursion_of calls.now) }
{
    let ending = all_ending(alloc, calls)?;
    for (caller, places) in calls.iter().enumerate() {
        let ends = is_marked(ending.as_slice(), caller);
        if !ends {
            let back = first_back(alloc, calls, caller, places.items())?;
            if back.is_some() {
                return Ok(back);
            }
        }
    }
    Ok(None)
}
