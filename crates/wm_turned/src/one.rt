// One counter: the points at which it grows by its whole step, and those at which it sticks.
ghost use Rattle.std.specs.Prelude.{◌≡◌, ◌<◌, pos, ◌+ℤ◌, ◌-ℤ◌, ◌≤ℤ◌, false, OnOk};
ghost use Rattle.wm_domain.specs.Points.{Point};
ghost use Rattle.wm_domain.specs.States.{count_of, Keeps, IsLeast};
ghost use Rattle.wm_turned.specs.Turning.{Whole, Stuck, most};

use std::alloc::Global;
use wm_domain::Domain;
use wm_flow::Growth;
use wm_interval::Interval;
use wm_ops::NoMemory;
use wm_tested::{keep_at_least, keep_at_most, of_variable};

const MOST: i64 = 2147483647;

// the greatest number to which the step can be added
fn room(step: u32) -> i64
    ensures { result ≡ most -ℤ pos step }
{
    MOST - i64::from(step)
}

// the least number at which a counter sticks
fn brim(step: u32) -> i64
    ensures { result ≡ pos 2147483648 -ℤ pos step }
{
    MOST + 1 - i64::from(step)
}

fn whole(step: u32) -> i64
    ensures { result ≡ pos step }
{
    i64::from(step)
}

/// Keeps the points at which the counter can grow by its whole step, and lets it. `NoMemory`: memory ran out.
pub fn grow<D: Domain>(alloc: Global, state: &mut D, it: Growth) -> Result<(), NoMemory>
    requires inside { it.variable < count_of (D.shape_of state.old) }
    ensures shape { OnOk result (D.shape_of state.new ≡ D.shape_of state.old) }
    ensures sound { OnOk result (Keeps D.holds D.shape_of state.new (Whole (D.holds state.old) it)) }
    ensures least { OnOk result (IsLeast D.holds D.shape_of state.new (Whole (D.holds state.old) it)) }

    // exactly the points that were wanted
    ensures made { OnOk result ((p : Point) → D.holds state.new p → Whole (D.holds state.old) it p) }
{
    let counter = of_variable(alloc, it.variable, false, 0)?;
    let high = room(it.step);
    keep_at_most(alloc, state, &counter, high)?;
    let step = whole(it.step);
    let more = of_variable(alloc, it.variable, false, step)?;
    state.assign_form(it.variable, &more);
    Ok(())
}

/// Keeps the points at which the counter sticks, and lets it. `NoMemory`: memory ran out.
pub fn stick<D: Domain>(alloc: Global, state: &mut D, it: Growth) -> Result<(), NoMemory>
    requires inside { it.variable < count_of (D.shape_of state.old) }
    ensures shape { OnOk result (D.shape_of state.new ≡ D.shape_of state.old) }
    ensures sound { OnOk result (Keeps D.holds D.shape_of state.new (Stuck (D.holds state.old) it)) }
    ensures least { OnOk result (IsLeast D.holds D.shape_of state.new (Stuck (D.holds state.old) it)) }

    // each point cannot but be one that was wanted
    ensures made { OnOk result ((p : Point) → D.holds state.new p → (Stuck (D.holds state.old) it p → ⊥) → ⊥) }
{
    let counter = of_variable(alloc, it.variable, false, 0)?;
    let low = brim(it.step);
    keep_at_least(alloc, state, &counter, low)?;
    let all = Interval::new(MOST, MOST);
    state.assign_range(it.variable, all);
    Ok(())
}

// whether the range passes a number
fn passes(r: Interval, high: i64) -> bool
    ensures below { result ≡ false → r.high ≤ℤ high }
{
    high < r.high
}

/// Whether the counter may stick at a point of the state.
pub fn may_stick<D: Domain>(state: &D, it: Growth) -> bool
    requires inside { it.variable < count_of (D.shape_of state.now) }
    ensures never { result ≡ false → (p : Point) → D.holds state.now p → (p.values it.variable +ℤ pos it.step) ≤ℤ most }
{
    let high = room(it.step);
    match state.range(it.variable) {
        None => false,
        Some(r) => passes(r, high),
    }
}
