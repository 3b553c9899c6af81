//! How many turns a loop makes at most, by the range of its counter in a state at its head.
#![tactic(auto)]

ghost use Rattle.std.specs.Prelude.{◌≡◌, ◌<◌, ◌≤◌, ◌≤ℤ◌, pos};
ghost use Rattle.wm_interval.specs.declared.Interval.{Interval};
ghost use Rattle.wm_interval.specs.Holds.{IsHullOf};
ghost use Rattle.wm_domain.specs.Points.{Point};
ghost use Rattle.wm_domain.specs.States.{count_of, IsBare};
ghost use Rattle.wm_domain.specs.Changes.{IsValueOf};
ghost use Rattle.wm_trip.specs.Turns.{turns_up_to};

use wm_domain::Domain;
use wm_interval::Interval;

/// The turns that a range of a loop's counter allows, which goes up to 0 or more.
fn turns_in(range: Interval, step: u32) -> Option<u64>
    requires not_negative { pos 0 ≤ℤ range.high }
    requires stepping { 1 ≤ step }
    ensures { result ≡ turns_up_to range.high step }
{
    if range.high == 2_147_483_647 {
        return None;
    }
    Some(range.high as u64 / u64::from(step))
}

/// The greatest number of turns of a loop: the upper bound of its counter at its head, divided by its step and rounded
/// down. None exactly where that bound is 2147483647, at which counters stick.
///
/// The state has a point, the counter has no negative number there, and the step is at least 1.
#[tactic(auto, using(crate::proofs::Bounds::range_high, crate::proofs::Bounds::high_not_negative))]
pub fn trips<D: Domain>(at: &D, counter: u32, step: u32) -> Option<u64>
    requires inside { counter < count_of (D.shape_of at.now) }
    requires point { IsBare (D.holds at.now) → ⊥ }
    requires not_negative { (p : Point) → D.holds at.now p → pos 0 ≤ℤ p.values counter }
    requires stepping { 1 ≤ step }
    ensures exact { (range : Interval) → IsHullOf (IsValueOf (D.holds at.now) counter) range → result ≡ turns_up_to range.high step }
{
    match at.range(counter) {
        Some(range) => turns_in(range, step),
        None => None,
    }
}
