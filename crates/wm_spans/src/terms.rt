// Terms: a variable or its negative.

ghost use Rattle.std.specs.Prelude.{◌≡◌, ◌<◌, ◌^◌, ◌↔◌, ℤ, neg_ℤ, false, length, if◌then◌else◌};
ghost use Rattle.wm_interval.specs.Holds.{Holds, IsHullOf, SizesBelow};
ghost use Rattle.wm_domain.specs.Points.{IsNarrow};
ghost use Rattle.wm_domain.specs.Forms.{signed};

use crate::spans::Spans;
use wm_domain::Term;
use wm_interval::Interval;

impl Spans {
    ghost use Rattle.wm_spans.specs.Spanned.{In, Kept};
    ghost use Rattle.wm_spans.specs.Exact.{Exactly};
    ghost use Rattle.wm_domain.specs.Terms.{IsTermValue, Ranged};

    /// The least and the greatest value of the term, where there is a point. They are at most 2^31 in size.
    pub fn term_range(&self, t: Term) -> Interval
        requires inside { t.variable < length self.now.full }
        ensures hull { self.now.empty ≡ false → IsHullOf (IsTermValue (In self.now) t) result }
        ensures size { SizesBelow (2 ^ 32) result }
    {
        turned(self.range(t.variable as usize), t.negative)
    }

    /// Keeps the points at which the term lies in `r`, whose ends are below 2^62 in size.
    pub fn cut_term(&mut self, t: Term, r: Interval)
        requires inside { t.variable < length self.old.full }
        requires size { SizesBelow (2 ^ 62) r }
        ensures full { self.new.full ≡ self.old.full }
        ensures array_full { self.new.array_full ≡ self.old.array_full }
        ensures points { Exactly self.new (Ranged (In self.old) t r.low r.high) }
    {
        self.cut(t.variable as usize, turned(r, t.negative));
    }
}

/// The interval, or the negatives of its numbers. Its ends are below 2^62 in size.
pub fn turned(r: Interval, negative: bool) -> Interval
    requires { SizesBelow (2 ^ 62) r }
    ensures low { result.low ≡ if negative then neg_ℤ r.high else r.low }
    ensures high { result.high ≡ if negative then neg_ℤ r.low else r.high }
    ensures holds { (z : ℤ) → Holds result (signed negative z) ↔ Holds r z }
    ensures back { (z : ℤ) → Holds result z ↔ Holds r (signed negative z) }
{
    if negative {
        return Interval::new(-r.high, -r.low);
    }
    r
}
