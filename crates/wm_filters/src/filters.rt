// Variables and arrays that get what some points have there already.
ghost use Rattle.std.specs.Prelude.{◌≡◌, ◌<◌, ◌-ℤ◌};
ghost use Rattle.wm_interval.specs.Holds.{Holds};
ghost use Rattle.wm_domain.specs.Points.{Point, AllowsCell};
ghost use Rattle.wm_domain.specs.Forms.{IsForm, IsSimple, form_value};
ghost use Rattle.wm_domain.specs.States.{count_of, array_count, IsShape, InShape, IsSized};
ghost use Rattle.wm_filters.specs.Stays.{SameBeside};

use crate::parts::{differences, words};
use wm_arrays::Summary;
use wm_domain::{Domain, Form};
use wm_interval::Interval;

// variable `v` gets any number of the range, which is small
fn set_range<D: Domain>(state: &mut D, v: u32, r: Interval)
    requires inside { v < count_of (D.shape_of state.old) }
    requires range { IsSized r }
    ensures shape { D.shape_of state.new ≡ D.shape_of state.old }
    ensures kept { (p : Point) → InShape (D.shape_of state.old) p → D.holds state.old p → Holds r (p.values v) → D.holds state.new p }
{
    state.assign_range(v, r);
}

/// Variable `v` gets any number of the range: each point stays at which it is one.
pub fn put_range<D: Domain>(state: &mut D, v: u32, r: Interval)
    requires shaped { IsShape (D.shape_of state.old) }
    requires inside { v < count_of (D.shape_of state.old) }
    ensures shape { D.shape_of state.new ≡ D.shape_of state.old }
    ensures kept { (p : Point) → InShape (D.shape_of state.old) p → D.holds state.old p → Holds r (p.values v) → D.holds state.new p }
{
    match words(r) {
        None => state.clear(),
        Some(w) => set_range(state, v, w),
    }
}

/// Array `a` gets any cells that the summary allows: each point stays, with any such cell there.
pub fn put_cells<D: Domain>(state: &mut D, a: u32, s: Summary)
    requires inside { a < array_count (D.shape_of state.old) }
    ensures shape { D.shape_of state.new ≡ D.shape_of state.old }
    ensures kept { (was p : Point) → InShape (D.shape_of state.old) p → D.holds state.old was → SameBeside (count_of (D.shape_of state.old)) (array_count (D.shape_of state.old)) a was p → AllowsCell s (p.cells a) → D.holds state.new p }
{
    state.set_array(a, s);
}

/// Variable `v` gets the value of the form, which has at most one term: each point stays at which it has it.
pub fn put_form<D: Domain>(state: &mut D, v: u32, f: &Form)
    requires inside { v < count_of (D.shape_of state.old) }
    requires form { IsForm (count_of (D.shape_of state.old)) f.now }
    requires simple { IsSimple f.now.terms }
    ensures shape { D.shape_of state.new ≡ D.shape_of state.old }
    ensures kept { (p : Point) → InShape (D.shape_of state.old) p → D.holds state.old p → p.values v ≡ form_value p.values f.now → D.holds state.new p }
{
    state.assign_form(v, f);
}

// variable `v` gets any number of a small range that differs from variable `w` by one of another
fn set_near<D: Domain>(state: &mut D, v: u32, w: u32, d: Interval, r: Interval)
    requires inside { v < count_of (D.shape_of state.old) }
    requires from { w < count_of (D.shape_of state.old) }
    requires difference { IsSized d }
    requires range { IsSized r }
    ensures shape { D.shape_of state.new ≡ D.shape_of state.old }
    ensures kept { (p : Point) → InShape (D.shape_of state.old) p → D.holds state.old p → Holds r (p.values v) → Holds d (p.values v -ℤ p.values w) → D.holds state.new p }
{
    state.assign_near(v, w, d, r);
}

/// Variable `v` gets any number of `r` that differs from variable `w` by a number of `d`: each point stays at which it is one.
pub fn put_near<D: Domain>(state: &mut D, v: u32, w: u32, d: Interval, r: Interval)
    requires shaped { IsShape (D.shape_of state.old) }
    requires inside { v < count_of (D.shape_of state.old) }
    requires from { w < count_of (D.shape_of state.old) }
    ensures shape { D.shape_of state.new ≡ D.shape_of state.old }
    ensures kept { (p : Point) → InShape (D.shape_of state.old) p → D.holds state.old p → Holds r (p.values v) → Holds d (p.values v -ℤ p.values w) → D.holds state.new p }
{
    match words(r) {
        None => state.clear(),
        Some(range) => match differences(d) {
            None => state.clear(),
            Some(difference) => set_near(state, v, w, difference, range),
        },
    }
}
