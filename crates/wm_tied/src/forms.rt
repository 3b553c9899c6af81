// The values of terms and forms, and what is kept where a sum lies in a range.

ghost use Rattle.std.specs.Prelude.{◌≡◌, ◌≢◌, ◌<◌, ◌≤◌, ◌^◌, ◌+◌, [], ◌∷◌, length, true};
ghost use Rattle.wm_interval.specs.Holds.{IsHullOf, SizesBelow};
ghost use Rattle.wm_domain.specs.Points.{Point};
ghost use Rattle.wm_domain.specs.Forms.{AreTerms, IsForm, AreBounded};
ghost use Rattle.wm_domain.specs.Terms.{IsTermValue, Ranged, SumIn};
ghost use Rattle.wm_domain.specs.Changes.{IsFormValue, Kept};
ghost use Rattle.wm_spans.specs.Exact.{IsSumValue};
ghost use Rattle.wm_tied.specs.Leaving.{IsAlike, IsExactly, IsLeft};

use crate::tied::Tied;
use wm_domain::{Form, Term};
use wm_interval::Interval;
use wm_spans::turned;

impl Tied {
    ghost use Rattle.wm_tied.specs.Pointed.{In, HasPoint};

    /// The least and the greatest value of the term, where there is a point. They are at most 2^31 in size.
    pub fn term_range(&self, t: Term) -> Interval
        requires inside { t.variable < length self.now.group + length self.now.spans.full }
        ensures hull { HasPoint self.now → IsHullOf (IsTermValue (In self.now) t) result }
        ensures size { SizesBelow (2 ^ 32) result }
    {
        turned(self.range(t.variable as usize), t.negative)
    }

    /// Keeps the points at which the term lies in `r`, whose ends are below 2^62 in size.
    pub fn cut_term(&mut self, t: Term, r: Interval)
        requires inside { t.variable < length self.old.group + length self.old.spans.full }
        requires size { SizesBelow (2 ^ 62) r }
        ensures alike { IsAlike self.old self.new }
        ensures points { IsExactly self.new (Ranged (In self.old) t r.low r.high) }
    {
        self.cut(t.variable as usize, turned(r, t.negative));
    }

    /// The least and the greatest value of the form, where there is a point.
    pub fn form_range(&self, f: &Form) -> Interval
        requires form { IsForm (length self.now.group + length self.now.spans.full) f.now }
        ensures hull { HasPoint self.now → IsHullOf (IsFormValue (In self.now) f.now) result }
        ensures size { SizesBelow (2 ^ 51) result }
    {
        self.terms_range(f.terms.items())
            .add(Interval::new(f.constant, f.constant))
    }

    // the least and the greatest sum of the terms, where there is a point
    fn terms_range(&self, terms: &[Term]) -> Interval
        requires terms { AreTerms (length self.now.group + length self.now.spans.full) terms.now }
        ensures hull { HasPoint self.now → IsHullOf (IsSumValue (In self.now) terms.now) result }
        ensures size { SizesBelow (2 ^ 34) result }
    {
        match terms.split_first() {
            None => self.no_term_range(),
            Some((first, rest)) => match rest.split_first() {
                None => self.one_term_range(*first),
                Some((second, _)) => self.two_terms_range(*first, *second),
            },
        }
    }

    fn no_term_range(&self) -> Interval
        ensures hull { HasPoint self.now → IsHullOf (IsSumValue (In self.now) []) result }
        ensures size { SizesBelow (2 ^ 34) result }
    {
        Interval::new(0, 0)
    }

    fn one_term_range(&self, t: Term) -> Interval
        requires inside { t.variable < length self.now.group + length self.now.spans.full }
        ensures hull { HasPoint self.now → IsHullOf (IsSumValue (In self.now) (t ∷ [])) result }
        ensures size { SizesBelow (2 ^ 34) result }
    {
        self.term_range(t)
    }

    // two terms of the group, or of which one is of a variable past it
    fn two_terms_range(&self, a: Term, b: Term) -> Interval
        requires first { a.variable < length self.now.group + length self.now.spans.full }
        requires second { b.variable < length self.now.group + length self.now.spans.full }
        requires apart { a.variable ≢ b.variable }
        ensures hull { HasPoint self.now → IsHullOf (IsSumValue (In self.now) (a ∷ b ∷ [])) result }
        ensures size { SizesBelow (2 ^ 34) result }
    {
        let count = self.count();
        if b.variable as usize >= count {
            return self.apart_range(a, b);
        }
        if a.variable as usize >= count {
            return self.apart_range(b, a);
        }
        self.tied_range(a, b)
    }

    // two terms of which the second is of a variable past the group
    fn apart_range(&self, a: Term, b: Term) -> Interval
        requires first { a.variable < length self.now.group + length self.now.spans.full }
        requires second { b.variable < length self.now.group + length self.now.spans.full }
        requires apart { a.variable ≢ b.variable }
        requires single { length self.now.group ≤ b.variable }
        ensures hull { HasPoint self.now → IsHullOf (IsSumValue (In self.now) (a ∷ b ∷ [])) result }
        ensures size { SizesBelow (2 ^ 34) result }
    {
        self.term_range(a).add(self.term_range(b))
    }
}
