// Sums of two terms, and numbers near a term.

ghost use Rattle.std.specs.Prelude.{◌≡◌, ◌≢◌, ◌<◌, ◌^◌, [], ◌∷◌, length};
ghost use Rattle.wm_interval.specs.Holds.{SizesBelow};
ghost use Rattle.wm_domain.specs.Points.{Point, range_at};
ghost use Rattle.wm_domain.specs.Forms.{AreTerms, IsSimple};
ghost use Rattle.wm_spans.specs.Spanned.{Lies};

use crate::spans::Spans;
use wm_domain::Term;
use wm_interval::Interval;

impl Spans {
    ghost use Rattle.wm_spans.specs.Spanned.{In};
    ghost use Rattle.wm_spans.specs.Exact.{IsSpanned, NearIn};
    ghost use Rattle.wm_domain.specs.Terms.{SumIn};

    /// Keeps the points at which the sum of the terms lies in `r`, whose ends are below 2^60 in size.
    pub fn keep_between(&mut self, terms: &[Term], r: Interval)
        requires terms { AreTerms (length self.old.full) terms.now }
        requires size { SizesBelow (2 ^ 60) r }
        ensures full { self.new.full ≡ self.old.full }
        ensures array_full { self.new.array_full ≡ self.old.array_full }
        ensures kept { (p : Point) → SumIn (In self.old) terms.now r.low r.high p → In self.new p }
        ensures spanned { (p : Point) → In self.new p → IsSpanned (length self.old.full) (length self.old.array_full) (SumIn (In self.old) terms.now r.low r.high) p }
        ensures fewer { (p : Point) → In self.new p → In self.old p }
        ensures made { IsSimple terms.now → (p : Point) → In self.new p → SumIn (In self.old) terms.now r.low r.high p }
    {
        match terms.split_first() {
            None => self.keep_where(r),
            Some((first, rest)) => match rest.split_first() {
                None => self.keep_term(*first, r),
                Some((second, _)) => self.keep_sum(*first, *second, r),
            },
        }
    }

    // keeps the points where 0 lies in `r`
    fn keep_where(&mut self, r: Interval)
        ensures full { self.new.full ≡ self.old.full }
        ensures array_full { self.new.array_full ≡ self.old.array_full }
        ensures kept { (p : Point) → SumIn (In self.old) [] r.low r.high p → In self.new p }
        ensures spanned { (p : Point) → In self.new p → IsSpanned (length self.old.full) (length self.old.array_full) (SumIn (In self.old) [] r.low r.high) p }
        ensures made { (p : Point) → In self.new p → SumIn (In self.old) [] r.low r.high p }
    {
        if r.low > 0 {
            self.clear();
            return;
        }
        if r.high < 0 {
            self.clear();
            return;
        }
        let _unchanged = self.is_empty();
    }

    // keeps the points at which a term lies in `r`
    fn keep_term(&mut self, t: Term, r: Interval)
        requires inside { t.variable < length self.old.full }
        requires size { SizesBelow (2 ^ 60) r }
        ensures full { self.new.full ≡ self.old.full }
        ensures array_full { self.new.array_full ≡ self.old.array_full }
        ensures kept { (p : Point) → SumIn (In self.old) (t ∷ []) r.low r.high p → In self.new p }
        ensures spanned { (p : Point) → In self.new p → IsSpanned (length self.old.full) (length self.old.array_full) (SumIn (In self.old) (t ∷ []) r.low r.high) p }
        ensures made { (p : Point) → In self.new p → SumIn (In self.old) (t ∷ []) r.low r.high p }
    {
        self.cut_term(t, r);
    }

    // keeps the points at which the sum of two terms of different variables lies in `r`: the first is cut to what the range
    // of the second leaves, and then the second to what the range of the first leaves
    fn keep_sum(&mut self, a: Term, b: Term, r: Interval)
        requires first { a.variable < length self.old.full }
        requires second { b.variable < length self.old.full }
        requires apart { a.variable ≢ b.variable }
        requires size { SizesBelow (2 ^ 60) r }
        ensures full { self.new.full ≡ self.old.full }
        ensures array_full { self.new.array_full ≡ self.old.array_full }
        ensures kept { (p : Point) → SumIn (In self.old) (a ∷ b ∷ []) r.low r.high p → In self.new p }
        ensures spanned { (p : Point) → In self.new p → IsSpanned (length self.old.full) (length self.old.array_full) (SumIn (In self.old) (a ∷ b ∷ []) r.low r.high) p }
        ensures fewer { (p : Point) → In self.new p → In self.old p }
    {
        let b_range = self.term_range(b);
        self.cut_term(a, r.sub(b_range));
        let a_range = self.term_range(a);
        self.cut_term(b, r.sub(a_range));
    }

    /// Sets variable `v` to any number of `r` and of its full range that differs from the term by a number of `d`. The
    /// ends of `d` and `r` are below 2^60 in size.
    pub fn set_near(&mut self, v: u32, t: Term, d: Interval, r: Interval)
        requires inside { v < length self.old.full }
        requires from { t.variable < length self.old.full }
        requires difference { SizesBelow (2 ^ 60) d }
        requires range { SizesBelow (2 ^ 60) r }
        ensures full { self.new.full ≡ self.old.full }
        ensures array_full { self.new.array_full ≡ self.old.array_full }
        ensures kept { (p : Point) → NearIn self.old v t d r p → In self.new p }
        ensures spanned { (p : Point) → In self.new p → IsSpanned (length self.old.full) (length self.old.array_full) (NearIn self.old v t d r) p }
    {
        match self.full_range(v as usize).meet(r) {
            None => self.clear(),
            Some(fit) => self.set_near_within(v, t, d, fit),
        }
    }

    // the same with a part of the full range
    fn set_near_within(&mut self, v: u32, t: Term, d: Interval, r: Interval)
        requires inside { v < length self.old.full }
        requires from { t.variable < length self.old.full }
        requires difference { SizesBelow (2 ^ 60) d }
        requires range { SizesBelow (2 ^ 60) r }
        requires lies { Lies (range_at self.old.full v) r }
        ensures full { self.new.full ≡ self.old.full }
        ensures array_full { self.new.array_full ≡ self.old.array_full }
        ensures kept { (p : Point) → NearIn self.old v t d r p → In self.new p }
        ensures spanned { (p : Point) → In self.new p → IsSpanned (length self.old.full) (length self.old.array_full) (NearIn self.old v t d r) p }
    {
        self.cut_term(t, r.sub(d));
        let near = self.term_range(t).add(d);
        match near.meet(r) {
            None => self.clear(),
            Some(now) => self.free(v as usize, now),
        }
    }
}
