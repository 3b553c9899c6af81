// Bounds that a state implies already.
ghost use Rattle.std.specs.Prelude.{◌≤ℤ◌, IsTrue};
ghost use Rattle.wm_domain.specs.Forms.{IsForm, form_value};
ghost use Rattle.wm_domain.specs.Points.{Point};
ghost use Rattle.wm_domain.specs.States.{count_of};

use wm_domain::{Domain, Form};

/// Whether the range of a form says that it is at least the number at all points.
#[tactic(auto, using(crate::proofs::Implied::from_least))]
pub(crate) fn is_from<D: Domain>(state: &D, f: &Form, low: i64) -> bool
    requires form { IsForm (count_of (D.shape_of state.now)) f.now }
    ensures { IsTrue result → (p : Point) → D.holds state.now p → low ≤ℤ form_value p.values f.now }
{
    match state.form(f) {
        None => false,
        Some(range) => low <= range.low,
    }
}

/// Whether the range of a form says that it is at most the number at all points.
#[tactic(auto, using(crate::proofs::Implied::to_greatest))]
pub(crate) fn is_to<D: Domain>(state: &D, f: &Form, high: i64) -> bool
    requires form { IsForm (count_of (D.shape_of state.now)) f.now }
    ensures { IsTrue result → (p : Point) → D.holds state.now p → form_value p.values f.now ≤ℤ high }
{
    match state.form(f) {
        None => false,
        Some(range) => range.high <= high,
    }
}
