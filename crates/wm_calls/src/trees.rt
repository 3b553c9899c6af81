// How many instances a call of each function leads to, and where those of each call begin.
ghost use Rattle.std.specs.Prelude.{◌≡◌, IfOk, IsTrue};
ghost use Rattle.wm_calls.specs.Sizes.{size_at, size_in, size_round, sizes_of, offsets_in, offsets_from, offsets_of};

use std::alloc::Global;
use wm_ops::{List, NoMemory};
use wm_scope::CallPlace;

/// The size of a function's tree; a function that is not there has none.
pub fn size_at(sizes: &[u32], function: u32) -> u32
    ensures size { result ≡ size_at sizes.now function }
{
    match sizes.get(function as usize) {
        Some(size) => *size,
        None => 0,
    }
}

fn size_in(sizes: &[u32], places: &[CallPlace]) -> u32
    ensures { result ≡ size_in sizes.now places.now }
{
    let mut size: u32 = 1;
    for place in places {
        size = size.saturating_add(size_at(sizes, place.function));
    }
    size
}

#[tactic(auto, unfolding(crate::specs::Sizes::size_round))]
fn size_round(alloc: Global, calls: &[List<CallPlace>], sizes: &[u32]) -> Result<Vec<u32>, NoMemory>
    ensures { IfOk result (λ next. next.items ≡ size_round calls.now sizes.now) }
{
    let mut next = Vec::new(alloc);
    for places in calls {
        next.push(size_in(sizes, places.items()))?;
    }
    Ok(next)
}

fn are_alike(one: &[u32], other: &[u32]) -> bool
    ensures { IsTrue result → one.now ≡ other.now }
{
    one == other
}

/// For each function the number of instances of a call of it, that of the function itself among them. A number past
/// 2^32 - 1 counts as that. The calls are those of each function, and none of them comes back to its caller.
#[tactic(auto, using(crate::proofs::Repeating::goes, crate::proofs::Repeating::stays, crate::proofs::Repeating::ends), unfolding(crate::specs::Sizes::sizes_of))]
pub fn tree_sizes(alloc: Global, calls: &[List<CallPlace>]) -> Result<Vec<u32>, NoMemory>
    ensures sizes { IfOk result (λ sizes. sizes.items ≡ sizes_of calls.now) }
{
    let mut sizes = Vec::new(alloc);
    for round in 0..calls.len() {
        let next = size_round(alloc, calls, sizes.as_slice())?;
        if are_alike(next.as_slice(), sizes.as_slice()) {
            return Ok(sizes);
        }
        sizes = next;
    }
    Ok(sizes)
}

fn offsets_in(alloc: Global, sizes: &[u32], places: &[CallPlace]) -> Result<List<u32>, NoMemory>
    ensures { IfOk result (λ offsets. offsets ≡ offsets_in sizes.now places.now) }
{
    let mut offsets = List::new(alloc);
    let mut offset: u32 = 1;
    for place in places {
        offsets.push(offset)?;
        offset = offset.saturating_add(size_at(sizes, place.function));
    }
    Ok(offsets)
}

/// For each call of each function what its instance has more than the number of the caller's: 1, and the sizes of the
/// calls before it.
#[tactic(auto, unfolding(crate::specs::Sizes::offsets_of))]
pub fn call_offsets(
    alloc: Global,
    sizes: &[u32],
    calls: &[List<CallPlace>],
) -> Result<List<List<u32>>, NoMemory>
    ensures offsets { IfOk result (λ all. all ≡ offsets_of sizes.now calls.now) }
{
    let mut all = List::new(alloc);
    for places in calls {
        let offsets = offsets_in(alloc, sizes, places.items())?;
        all.push(offsets)?;
    }
    Ok(all)
}
