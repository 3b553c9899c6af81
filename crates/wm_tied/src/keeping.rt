// What is kept where a form or a sum of terms lies in a range.

ghost use Rattle.std.specs.Prelude.{◌≡◌, ◌≢◌, ◌<◌, ◌≤◌, ◌^◌, ◌+◌, [], ◌∷◌, length, true};
ghost use Rattle.wm_interval.specs.Holds.{SizesBelow};
ghost use Rattle.wm_domain.specs.Points.{Point};
ghost use Rattle.wm_domain.specs.Forms.{AreTerms, IsForm, AreBounded};
ghost use Rattle.wm_domain.specs.Terms.{SumIn};
ghost use Rattle.wm_domain.specs.Changes.{Kept};
ghost use Rattle.wm_tied.specs.Leaving.{IsAlike, IsExactly, IsLeft};

use crate::tied::Tied;
use wm_domain::{Form, Relation, Term};
use wm_interval::Interval;
use wm_spans::limits;

impl Tied {
    ghost use Rattle.wm_tied.specs.Pointed.{In};

    /// Keeps the points at which the form is at most 0, or is 0. For `NotEqual` the points at which it is 0 go only where 0
    /// is its least or its greatest value.
    pub fn keep(&mut self, f: &Form, r: Relation)
        requires form { IsForm (length self.old.group + length self.old.spans.full) f.now }
        ensures alike { IsAlike self.old self.new }
        ensures left { IsLeft self.new (Kept (In self.old) f.now r) }
        ensures fewer { (p : Point) → In self.new p → In self.old p }
        ensures made { AreBounded true (length self.old.group) f.now.terms → (p : Point) → In self.new p → Kept (In self.old) f.now r p }
    {
        let values = self.form_range(f);
        match limits(values, f.constant, r) {
            None => {},
            Some(between) => self.keep_between(f.terms.items(), between),
        }
    }

    /// Keeps the points at which the sum of the terms lies in `r`, whose ends are below 2^60 in size.
    pub fn keep_between(&mut self, terms: &[Term], r: Interval)
        requires terms { AreTerms (length self.old.group + length self.old.spans.full) terms.now }
        requires size { SizesBelow (2 ^ 60) r }
        ensures alike { IsAlike self.old self.new }
        ensures left { IsLeft self.new (SumIn (In self.old) terms.now r.low r.high) }
        ensures fewer { (p : Point) → In self.new p → In self.old p }
        ensures made { AreBounded true (length self.old.group) terms.now → (p : Point) → In self.new p → SumIn (In self.old) terms.now r.low r.high p }
    {
        match terms.split_first() {
            None => self.keep_where(r),
            Some((first, rest)) => match rest.split_first() {
                None => self.keep_term(*first, r),
                Some((second, _)) => self.keep_sum(*first, *second, r),
            },
        }
    }

    // keeps the points where 0 lies in `r`
    fn keep_where(&mut self, r: Interval)
        ensures alike { IsAlike self.old self.new }
        ensures points { IsExactly self.new (SumIn (In self.old) [] r.low r.high) }
    {
        if r.low > 0 {
            self.clear();
            return;
        }
        if r.high < 0 {
            self.clear();
            return;
        }
        let _unchanged = self.count();
    }

    // keeps the points at which a term lies in `r`
    fn keep_term(&mut self, t: Term, r: Interval)
        requires inside { t.variable < length self.old.group + length self.old.spans.full }
        requires size { SizesBelow (2 ^ 60) r }
        ensures alike { IsAlike self.old self.new }
        ensures points { IsExactly self.new (SumIn (In self.old) (t ∷ []) r.low r.high) }
    {
        self.cut_term(t, r);
    }

    // keeps the points at which the sum of two terms of different variables lies in `r`
    fn keep_sum(&mut self, a: Term, b: Term, r: Interval)
        requires first { a.variable < length self.old.group + length self.old.spans.full }
        requires second { b.variable < length self.old.group + length self.old.spans.full }
        requires apart { a.variable ≢ b.variable }
        requires size { SizesBelow (2 ^ 60) r }
        ensures alike { IsAlike self.old self.new }
        ensures left { IsLeft self.new (SumIn (In self.old) (a ∷ b ∷ []) r.low r.high) }
        ensures fewer { (p : Point) → In self.new p → In self.old p }
        ensures made { a.variable < length self.old.group → b.variable < length self.old.group → (p : Point) → In self.new p → SumIn (In self.old) (a ∷ b ∷ []) r.low r.high p }
    {
        let count = self.count();
        if b.variable as usize >= count {
            self.keep_apart(a, b, r);
            return;
        }
        if a.variable as usize >= count {
            self.keep_apart(b, a, r);
            return;
        }
        self.cut_tied_sum(a, b, r);
    }

    // the same for two terms of which the second is of a variable past the group: the first is cut to what the range of the
    // second leaves, and then the second to what the range of the first leaves
    fn keep_apart(&mut self, a: Term, b: Term, r: Interval)
        requires first { a.variable < length self.old.group + length self.old.spans.full }
        requires second { b.variable < length self.old.group + length self.old.spans.full }
        requires apart { a.variable ≢ b.variable }
        requires single { length self.old.group ≤ b.variable }
        requires size { SizesBelow (2 ^ 60) r }
        ensures alike { IsAlike self.old self.new }
        ensures left { IsLeft self.new (SumIn (In self.old) (a ∷ b ∷ []) r.low r.high) }
        ensures fewer { (p : Point) → In self.new p → In self.old p }
    {
        let b_range = self.term_range(b);
        self.cut_term(a, r.sub(b_range));
        let a_range = self.term_range(a);
        self.cut_term(b, r.sub(a_range));
    }
}
