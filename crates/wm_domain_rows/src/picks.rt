// Picks of different things, some of none.

ghost use Rattle.std.specs.Prelude.{◌≡◌, ◌<◌, ◌≤◌, length, IfOk, IfSome};
ghost use Rattle.wm_domain.specs.Changes.{ArePicks};
ghost use Rattle.wm_domain_rows.specs.Turned.{place};

use crate::draws::Draws;
use std::alloc::Global;
use wm_ops::NoMemory;

// the number at place `k` of so many, counted from `first` on and round
#[tactic(auto, unfolding(crate::specs::Turned::place))]
fn turned(count: u32, first: u32, k: u32) -> u32
    requires first { first < count }
    requires inside { k < count }
    ensures inside { result < count }
    ensures place { place count first result ≡ k }
{
    if k < count - first {
        return first + k;
    }
    k - (count - first)
}

// the number at the next place, or none
fn drawn_pick(draws: &mut Draws, count: u32, first: u32, next: u32) -> Option<u32>
    requires first { next < count → first < count }
    ensures inside { IfSome result (λ v. v < count) }
    ensures place { IfSome result (λ v. place count first v ≡ next) }
    ensures more { IfSome result (λ v. next < count) }
{
    if next >= count {
        return None;
    }
    if draws.below(4) == 0 {
        return None;
    }
    Some(turned(count, first, next))
}

// one of so many, or 0 where there is none
fn first_of(draws: &mut Draws, count: u32) -> u32
    ensures { 0 < count → result < count }
{
    if count == 0 {
        return 0;
    }
    draws.index(count)
}

/// Picks of different ones of so many, for so many places; some of none.
pub(crate) fn draw_picks(
    alloc: Global,
    draws: &mut Draws,
    count: u32,
    places: u32,
) -> Result<Vec<Option<u32>>, NoMemory>
    ensures long { IfOk result (λ picks. length picks.items ≡ places) }
    ensures picks { IfOk result (λ picks. ArePicks count picks.items) }
{
    let first = first_of(draws, count);
    let mut next: u32 = 0;
    let mut picks = Vec::new(alloc);
    for _ in 0..places {
        match drawn_pick(draws, count, first, next) {
            None => picks.push(None)?,
            Some(v) => {
                picks.push(Some(v))?;
                next += 1;
            },
        }
    }
    Ok(picks)
}
