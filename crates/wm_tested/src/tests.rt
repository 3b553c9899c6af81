// The points at which a form is at most a number, at least one, or between two.
ghost use Rattle.std.specs.Prelude.{◌≡◌, ◌<◌, ◌^◌, ◌-ℤ◌, ◌≤ℤ◌, ◌<ℤ◌, unsigned_abs, length, false, IsTrue, OnOk};
ghost use Rattle.wm_domain.specs.Points.{Point};
ghost use Rattle.wm_domain.specs.Forms.{IsForm, AreBounded};
ghost use Rattle.wm_domain.specs.States.{count_of, Keeps, IsLeast};
ghost use Rattle.wm_tested.specs.Likes.{Below, Above, Between};

use crate::forms::with_constant;
use std::alloc::Global;
use wm_domain::{Domain, Form, Relation};
use wm_ops::NoMemory;

// The difference of two numbers, which is below 2^50 in size.
fn less(a: i64, b: i64) -> i64
    requires { unsigned_abs (a -ℤ b) < 2 ^ 50 }
    ensures value { result ≡ a -ℤ b }
    ensures small { unsigned_abs result < 2 ^ 50 }
{
    a - b
}

/// Keeps the points at which the form is at most `high`. The form's constant less `high` is below 2^50 in size. `NoMemory`:
/// memory ran out.
pub fn keep_at_most<D: Domain>(
    alloc: Global,
    state: &mut D,
    f: &Form,
    high: i64,
) -> Result<(), NoMemory>
    requires form { IsForm (count_of (D.shape_of state.old)) f.now }
    requires small { unsigned_abs (f.now.constant -ℤ high) < 2 ^ 50 }
    ensures shape { OnOk result (D.shape_of state.new ≡ D.shape_of state.old) }
    ensures sound { OnOk result (Keeps D.holds D.shape_of state.new (Below (D.holds state.old) f.now high)) }
    ensures least { OnOk result (IsLeast D.holds D.shape_of state.new (Below (D.holds state.old) f.now high)) }

    // exactly the points that were wanted, where the form is one whose bounds are kept as they are
    ensures made { OnOk result (AreBounded D.PAIRS (length (D.shape_of state.old).group) f.now.terms → (p : Point) → D.holds state.new p → Below (D.holds state.old) f.now high p) }

    ensures fewer { OnOk result ((p : Point) → D.holds state.new p → D.holds state.old p) }
{
    let constant = less(f.constant, high);
    let over = with_constant(alloc, f, false, constant)?;
    state.keep(&over, Relation::AtMost);
    Ok(())
}

/// Keeps the points at which the form is at least `low`. The form's constant less `low` is below 2^50 in size. `NoMemory`:
/// memory ran out.
pub fn keep_at_least<D: Domain>(
    alloc: Global,
    state: &mut D,
    f: &Form,
    low: i64,
) -> Result<(), NoMemory>
    requires form { IsForm (count_of (D.shape_of state.old)) f.now }
    requires small { unsigned_abs (low -ℤ f.now.constant) < 2 ^ 50 }
    ensures shape { OnOk result (D.shape_of state.new ≡ D.shape_of state.old) }
    ensures sound { OnOk result (Keeps D.holds D.shape_of state.new (Above (D.holds state.old) f.now low)) }
    ensures least { OnOk result (IsLeast D.holds D.shape_of state.new (Above (D.holds state.old) f.now low)) }

    // exactly the points that were wanted, where the form is one whose bounds are kept as they are
    ensures made { OnOk result (AreBounded D.PAIRS (length (D.shape_of state.old).group) f.now.terms → (p : Point) → D.holds state.new p → Above (D.holds state.old) f.now low p) }

    ensures fewer { OnOk result ((p : Point) → D.holds state.new p → D.holds state.old p) }
{
    let constant = less(low, f.constant);
    let under = with_constant(alloc, f, true, constant)?;
    state.keep(&under, Relation::AtMost);
    Ok(())
}

// whether no number lies from the first to the second
fn is_crossed(low: i64, high: i64) -> bool
    ensures crossed { IsTrue result → high <ℤ low }
    ensures ordered { result ≡ false → low ≤ℤ high }
{
    high < low
}

/// Keeps the points at which the form lies from `low` to `high`; none where `low` is above `high`. The form's constant less either is below 2^50 in size.
/// `NoMemory`: memory ran out.
pub fn keep_between<D: Domain>(
    alloc: Global,
    state: &mut D,
    f: &Form,
    low: i64,
    high: i64,
) -> Result<(), NoMemory>
    requires form { IsForm (count_of (D.shape_of state.old)) f.now }
    requires low { unsigned_abs (low -ℤ f.now.constant) < 2 ^ 50 }
    requires high { unsigned_abs (f.now.constant -ℤ high) < 2 ^ 50 }
    ensures shape { OnOk result (D.shape_of state.new ≡ D.shape_of state.old) }
    ensures sound { OnOk result (Keeps D.holds D.shape_of state.new (Between (D.holds state.old) f.now low high)) }
    ensures least { OnOk result (IsLeast D.holds D.shape_of state.new (Between (D.holds state.old) f.now low high)) }

    // exactly the points that were wanted, where the form is one whose bounds are kept as they are
    ensures made { OnOk result (AreBounded D.PAIRS (length (D.shape_of state.old).group) f.now.terms → (p : Point) → D.holds state.new p → Between (D.holds state.old) f.now low high p) }

    ensures fewer { OnOk result ((p : Point) → D.holds state.new p → D.holds state.old p) }
{
    if is_crossed(low, high) {
        state.clear();
        return Ok(());
    }
    keep_at_least(alloc, state, f, low)?;
    keep_at_most(alloc, state, f, high)?;
    Ok(())
}
