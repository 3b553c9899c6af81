// The points at which a sum counter has grown with each turn that the counter of the loop tells.
ghost use Rattle.std.specs.Prelude.{◌≡◌, ◌<◌, ◌≤◌, pos, negsuc, ◌≤ℤ◌, IfOk, OnOk};
ghost use Rattle.wm_domain.specs.Points.{Point};
ghost use Rattle.wm_domain.specs.States.{count_of, IsShape, Keeps, IsLeast};
ghost use Rattle.wm_carry.specs.Following.{IsWay};
ghost use Rattle.wm_step.specs.Images.{TieImage, most};
ghost use Rattle.wm_paced.specs.Pacing.{IsAbove, IsBelow, Paced, TiedAt};

use crate::numbers::{floored, grown, is_most, turns_down, turns_up};
use std::alloc::Global;
use wm_carry::{Way, carried};
use wm_domain::Domain;
use wm_interval::Interval;
use wm_ops::NoMemory;
use wm_tested::{keep_at_least, keep_at_most, of_variable};

/// The counter of a loop with its step, at least 1, and a sum counter with its step.
#[derive(Clone, Copy)]
pub struct Pace {
    pub counter: u32,
    pub loop_step: u32,
    pub variable: u32,
    pub step: u32,
}

// keeps the points at which the sum counter is not below what the least number of the loop's counter tells
fn keep_above<D: Domain>(alloc: Global, state: &mut D, pace: Pace, low: i64) -> Result<(), NoMemory>
    requires shaped { IsShape (D.shape_of state.old) }
    requires low { negsuc 2147483647 ≤ℤ low }
    requires high { low ≤ℤ most }
    requires stepping { 1 ≤ pace.loop_step }
    requires inside { pace.variable < count_of (D.shape_of state.old) }
    ensures shape { OnOk result (D.shape_of state.new ≡ D.shape_of state.old) }
    ensures sound { OnOk result (Keeps D.holds D.shape_of state.new (IsAbove (D.holds state.old) pace.variable pace.loop_step pace.step low)) }
    ensures made { OnOk result ((p : Point) → D.holds state.new p → IsAbove (D.holds state.old) pace.variable pace.loop_step pace.step low p) }
{
    let sum = of_variable(alloc, pace.variable, false, 0)?;
    let turns = turns_up(low, pace.loop_step);
    let all = grown(turns, pace.step);
    let least = floored(all);
    keep_at_least(alloc, state, &sum, least)?;
    Ok(())
}

// keeps the points at which it is not above what the greatest number tells
fn keep_below<D: Domain>(
    alloc: Global,
    state: &mut D,
    pace: Pace,
    high: i64,
) -> Result<(), NoMemory>
    requires shaped { IsShape (D.shape_of state.old) }
    requires low { negsuc 2147483647 ≤ℤ high }
    requires high { high ≤ℤ most }
    requires stepping { 1 ≤ pace.loop_step }
    requires inside { pace.variable < count_of (D.shape_of state.old) }
    ensures shape { OnOk result (D.shape_of state.new ≡ D.shape_of state.old) }
    ensures sound { OnOk result (Keeps D.holds D.shape_of state.new (IsBelow (D.holds state.old) pace.variable pace.loop_step pace.step high)) }
    ensures made { OnOk result ((p : Point) → D.holds state.new p → IsBelow (D.holds state.old) pace.variable pace.loop_step pace.step high p) }
{
    let sum = of_variable(alloc, pace.variable, false, 0)?;
    let turns = turns_down(high, pace.loop_step);
    let all = grown(turns, pace.step);
    let greatest = floored(all);
    keep_at_most(alloc, state, &sum, greatest)?;
    Ok(())
}

// both; a counter that may have stuck tells no most
fn keep_paced<D: Domain>(
    alloc: Global,
    state: &mut D,
    pace: Pace,
    r: Interval,
) -> Result<(), NoMemory>
    requires shaped { IsShape (D.shape_of state.old) }
    requires low_above { negsuc 2147483647 ≤ℤ r.low }
    requires low_below { r.low ≤ℤ most }
    requires high_above { negsuc 2147483647 ≤ℤ r.high }
    requires high_below { r.high ≤ℤ most }
    requires stepping { 1 ≤ pace.loop_step }
    requires inside { pace.variable < count_of (D.shape_of state.old) }
    ensures shape { OnOk result (D.shape_of state.new ≡ D.shape_of state.old) }
    ensures sound { OnOk result (Keeps D.holds D.shape_of state.new (Paced (D.holds state.old) pace.variable pace.loop_step pace.step r.low r.high)) }
    ensures made { OnOk result ((p : Point) → D.holds state.new p → Paced (D.holds state.old) pace.variable pace.loop_step pace.step r.low r.high p) }
{
    keep_above(alloc, state, pace, r.low)?;
    if is_most(r.high) {
        return Ok(());
    }
    keep_below(alloc, state, pace, r.high)?;
    Ok(())
}

// the points of the state that are so
fn with_range<D: Domain>(alloc: Global, at: &D, pace: Pace, r: Interval) -> Result<D, NoMemory>
    requires shaped { IsShape (D.shape_of at.now) }
    requires low_above { negsuc 2147483647 ≤ℤ r.low }
    requires low_below { r.low ≤ℤ most }
    requires high_above { negsuc 2147483647 ≤ℤ r.high }
    requires high_below { r.high ≤ℤ most }
    requires inside { pace.variable < count_of (D.shape_of at.now) }
    requires stepping { 1 ≤ pace.loop_step }
    ensures shape { IfOk result (λ s. D.shape_of s ≡ D.shape_of at.now) }
    ensures sound { IfOk result (λ s. Keeps D.holds D.shape_of s (Paced (D.holds at.now) pace.variable pace.loop_step pace.step r.low r.high)) }
    ensures made { IfOk result (λ s. (p : Point) → D.holds s p → Paced (D.holds at.now) pace.variable pace.loop_step pace.step r.low r.high p) }
{
    let mut state = at.copy(alloc)?;
    keep_paced(alloc, &mut state, pace, r)?;
    Ok(state)
}

// the same, by the range of the loop's counter
fn narrowed<D: Domain>(alloc: Global, at: &D, pace: Pace) -> Result<D, NoMemory>
    requires shaped { IsShape (D.shape_of at.now) }
    requires counter { pace.counter < count_of (D.shape_of at.now) }
    requires inside { pace.variable < count_of (D.shape_of at.now) }
    requires stepping { 1 ≤ pace.loop_step }
    ensures shape { IfOk result (λ s. D.shape_of s ≡ D.shape_of at.now) }
    ensures sound { IfOk result (λ s. Keeps D.holds D.shape_of s (TiedAt (D.holds at.now) pace.counter pace.loop_step pace.variable pace.step)) }
    ensures made { IfOk result (λ s. (p : Point) → D.holds s p → TiedAt (D.holds at.now) pace.counter pace.loop_step pace.variable pace.step p) }
{
    match at.range(pace.counter) {
        None => {
            let state = at.copy(alloc)?;
            Ok(state)
        }
        Some(r) => {
            let state = with_range(alloc, at, pace, r)?;
            Ok(state)
        }
    }
}

/// The points at which the sum counter has the step once for each turn, as far as the range of the loop's counter tells the
/// turns; both stick at 2147483647. `NoMemory`: memory ran out.
pub fn paced<D: Domain>(way: &Way, at: &D, pace: Pace) -> Result<D, NoMemory>
    requires way { IsWay way.now.source.now way.now.target.now }
    requires shape { D.shape_of at.now ≡ way.now.source.now }
    requires counter { pace.counter < count_of (D.shape_of at.now) }
    requires inside { pace.variable < count_of (D.shape_of at.now) }
    requires stepping { 1 ≤ pace.loop_step }
    ensures shape { IfOk result (λ s. D.shape_of s ≡ way.now.target.now) }
    ensures sound { IfOk result (λ s. Keeps D.holds D.shape_of s (TieImage way.now.source.now way.now.target.now (D.holds at.now) pace.counter pace.loop_step pace.variable pace.step)) }
    ensures least { IfOk result (λ s. IsLeast D.holds D.shape_of s (TieImage way.now.source.now way.now.target.now (D.holds at.now) pace.counter pace.loop_step pace.variable pace.step)) }
{
    let state = narrowed(way.alloc, at, pace)?;
    let moved = carried(way, &state)?;
    Ok(moved)
}
