// Forms: their values, tests and assignments.

ghost use Rattle.std.specs.Prelude.{◌≡◌, ◌≢◌, ◌↔◌, ◌<◌, ◌^◌, [], ◌∷◌, false, ℤ, ◌+ℤ◌, unsigned_abs, length, MatchOption, IfSome};
ghost use Rattle.wm_interval.specs.Holds.{Holds, IsHullOf, SizesBelow};
ghost use Rattle.wm_domain.specs.Forms.{AreTerms, IsForm, IsSimple};
ghost use Rattle.wm_domain.specs.Points.{Point};
ghost use Rattle.wm_domain.specs.Changes.{Kept, Assigned, IsFormValue};
ghost use Rattle.wm_domain.specs.declared.form.Relation.TheVariants.{NotEqual};
ghost use Rattle.wm_spans.specs.Exact.{MeetsIn};

use crate::spans::Spans;
use wm_domain::{Form, Relation, Term};
use wm_interval::Interval;

impl Spans {
    ghost use Rattle.wm_spans.specs.Spanned.{In};
    ghost use Rattle.wm_spans.specs.Exact.{Leaves, IsSumValue};

    /// The least and the greatest value of the form, where there is a point.
    pub fn form_range(&self, f: &Form) -> Interval
        requires form { IsForm (length self.now.full) f.now }
        ensures hull { self.now.empty ≡ false → IsHullOf (IsFormValue (In self.now) f.now) result }
        ensures size { SizesBelow (2 ^ 51) result }
    {
        self.terms_range(f.terms.items())
            .add(Interval::new(f.constant, f.constant))
    }

    // the least and the greatest sum of the terms, where there is a point
    fn terms_range(&self, terms: &[Term]) -> Interval
        requires terms { AreTerms (length self.now.full) terms.now }
        ensures hull { self.now.empty ≡ false → IsHullOf (IsSumValue (In self.now) terms.now) result }
        ensures size { SizesBelow (2 ^ 34) result }
    {
        match terms.split_first() {
            None => self.no_term_range(),
            Some((first, rest)) => match rest.split_first() {
                None => self.one_term_range(*first),
                Some((second, _)) => self.two_terms_range(*first, *second),
            },
        }
    }

    fn no_term_range(&self) -> Interval
        ensures hull { self.now.empty ≡ false → IsHullOf (IsSumValue (In self.now) []) result }
        ensures size { SizesBelow (2 ^ 34) result }
    {
        let _kept = self.is_empty();
        Interval::new(0, 0)
    }

    fn one_term_range(&self, t: Term) -> Interval
        requires inside { t.variable < length self.now.full }
        ensures hull { self.now.empty ≡ false → IsHullOf (IsSumValue (In self.now) (t ∷ [])) result }
        ensures size { SizesBelow (2 ^ 34) result }
    {
        self.term_range(t)
    }

    fn two_terms_range(&self, a: Term, b: Term) -> Interval
        requires first { a.variable < length self.now.full }
        requires second { b.variable < length self.now.full }
        requires apart { a.variable ≢ b.variable }
        ensures hull { self.now.empty ≡ false → IsHullOf (IsSumValue (In self.now) (a ∷ b ∷ [])) result }
        ensures size { SizesBelow (2 ^ 34) result }
    {
        self.term_range(a).add(self.term_range(b))
    }

    /// Keeps the points at which the form is at most 0, or is 0. For `NotEqual` the points at which it is 0 go only where 0
    /// is its least or its greatest value.
    pub fn keep(&mut self, f: &Form, r: Relation)
        requires form { IsForm (length self.old.full) f.now }
        ensures leaves { Leaves self.old self.new (Kept (In self.old) f.now r) }
        ensures fewer { (p : Point) → In self.new p → In self.old p }
        ensures made { IsSimple f.now.terms → (p : Point) → In self.new p → Kept (In self.old) f.now r p }
    {
        let values = self.form_range(f);
        match limits(values, f.constant, r) {
            None => {},
            Some(between) => self.keep_between(f.terms.items(), between),
        }
    }

    /// Sets variable `v` to the value of the form, which has at most one term.
    pub fn set_form(&mut self, v: u32, f: &Form)
        requires inside { v < length self.old.full }
        requires form { IsForm (length self.old.full) f.now }
        requires simple { IsSimple f.now.terms }
        ensures leaves { Leaves self.old self.new (Assigned (In self.old) v f.now) }
    {
        let constant = Interval::new(f.constant, f.constant);
        match f.terms.items().split_first() {
            None => self.free(v as usize, constant),
            Some((t, _)) => {
                let full = self.full_range(v as usize);
                self.set_near(v, *t, constant, full);
            },
        }
    }
}

/// Between which ends the sum of a form's terms lies where the relation holds, for a form with these values; None where it
/// holds of each or cannot be told. The values and the constant are below 2^51 in size.
pub fn limits(values: Interval, constant: i64, r: Relation) -> Option<Interval>
    requires values { SizesBelow (2 ^ 51) values }
    requires constant { unsigned_abs constant < 2 ^ 50 }
    ensures exact { MatchOption result ((y : ℤ) → Holds values y → MeetsIn values r y) (λ l. (z : ℤ) → Holds values (z +ℤ constant) → Holds l z ↔ MeetsIn values r (z +ℤ constant)) }
    ensures size { IfSome result (λ l. SizesBelow (2 ^ 60) l) }
{
    match r {
        Relation::AtMost => Some(Interval::new(-4503599627370496, -constant)),
        Relation::Equal => Some(Interval::new(-constant, -constant)),
        Relation::NotEqual => past_the_end(values, constant),
    }
}

// between which ends the sum of a form's terms lies where the form is not 0, if 0 is an end of its values
fn past_the_end(values: Interval, constant: i64) -> Option<Interval>
    requires values { SizesBelow (2 ^ 51) values }
    requires constant { unsigned_abs constant < 2 ^ 50 }
    ensures exact { MatchOption result ((y : ℤ) → Holds values y → MeetsIn values NotEqual y) (λ l. (z : ℤ) → Holds values (z +ℤ constant) → Holds l z ↔ MeetsIn values NotEqual (z +ℤ constant)) }
    ensures size { IfSome result (λ l. SizesBelow (2 ^ 60) l) }
{
    if values.low == 0 {
        return Some(Interval::new(1 - constant, 4503599627370496));
    }
    if values.high == 0 {
        return Some(Interval::new(-4503599627370496, -1 - constant));
    }
    None
}
