// The ranges of operands.
ghost use Rattle.std.specs.Prelude.{◌≡◌, ◌≤ℤ◌, ◌<ℤ◌, ◌⊎◌, ◌↔◌, true, false, MatchOption};
ghost use Rattle.wm_numbers.specs.Within.{Within};
ghost use Rattle.wm_domain.specs.Forms.{IsForm, form_value};
ghost use Rattle.wm_domain.specs.Points.{Point};
ghost use Rattle.wm_domain.specs.States.{count_of};
ghost use Rattle.wm_sight.specs.Operands.{Misses, Boxes};
ghost use Rattle.wm_sight.specs.Ranges.{IsBox, HasNoBox, Stays};

use wm_domain::{Domain, Form};
use wm_interval::Interval;

/// The range of the form, cut to the numbers from `low` to `high`; None where nothing is left of it.
#[tactic(auto, using(crate::proofs::Shown::bare_misses, crate::proofs::Shown::bare_no_box))]
pub fn cut_range<D: Domain>(label: &D, form: &Form, low: i64, high: i64) -> Option<Interval>
    requires form { IsForm (count_of (D.shape_of label.now)) form.now }
    requires order { low ≤ℤ high }
    ensures cut { MatchOption result (Misses (D.holds label.now) form.now low high) (Boxes (D.holds label.now) form.now low high) }
    ensures boxed { MatchOption result (HasNoBox (D.holds label.now) form.now low high) (IsBox (D.holds label.now) form.now low high) }
{
    match label.form(form) {
        None => None,
        Some(range) => range.meet(Interval::new(low, high)),
    }
}

/// Whether the range lies from `low` to `high`.
fn lies(range: Interval, low: i64, high: i64) -> bool
    ensures inside { result ≡ true → (low ≤ℤ range.low) × (range.high ≤ℤ high) }
    ensures outside { result ≡ false → (range.low <ℤ low) ⊎ (high <ℤ range.high) }
{
    if range.low < low {
        return false;
    }
    if high < range.high {
        return false;
    }
    true
}

/// Whether each value of the form lies from `low` to `high`.
#[tactic(auto, using(crate::proofs::Shown::bare_stays))]
pub fn stays<D: Domain>(label: &D, form: &Form, low: i64, high: i64) -> bool
    requires form { IsForm (count_of (D.shape_of label.now)) form.now }
    ensures stays { result ≡ true → (p : Point) → D.holds label.now p → Within low high (form_value p.values form.now) }
    ensures exact { (result ≡ true) ↔ Stays (D.holds label.now) form.now low high }
{
    match label.form(form) {
        None => true,
        Some(range) => lies(range, low, high),
    }
}
