// A variable gets the value of a form, or a number near a term.

ghost use Rattle.std.specs.Prelude.{◌≡◌, ◌<◌, ◌≤◌, ◌^◌, ◌+◌, ◌⊎◌, ◌++◌, ℤ, length};
ghost use Rattle.wm_interval.specs.Holds.{Holds, SizesBelow};
ghost use Rattle.wm_domain.specs.Points.{range_at, IsNarrow};
ghost use Rattle.wm_domain.specs.Forms.{IsForm, IsSimple};
ghost use Rattle.wm_domain.specs.Terms.{NearTerm};
ghost use Rattle.wm_domain.specs.Changes.{Assigned};
ghost use Rattle.wm_tied.specs.Leaving.{IsAlike, IsLeft};

use crate::tied::Tied;
use wm_domain::{Form, Term};
use wm_interval::Interval;

impl Tied {
    ghost use Rattle.wm_tied.specs.Pointed.{In};

    /// Sets variable `v` to the value of the form, which has at most one term.
    pub fn set_form(&mut self, v: u32, f: &Form)
        requires inside { v < length self.old.group + length self.old.spans.full }
        requires form { IsForm (length self.old.group + length self.old.spans.full) f.now }
        requires simple { IsSimple f.now.terms }
        ensures alike { IsAlike self.old self.new }
        ensures left { IsLeft self.new (Assigned (In self.old) v f.now) }
    {
        let constant = Interval::new(f.constant, f.constant);
        match f.terms.items().split_first() {
            None => self.free(v as usize, constant),
            Some((t, _)) => {
                let full = self.full_range(v as usize);
                self.set_near(v, *t, constant, full);
            },
        }
    }

    /// Sets variable `v` to any number of `r` and of its full range that differs from the term by a number of `d`, whose ends
    /// are below 2^60 in size. The term's variable may be `v`.
    pub fn set_near(&mut self, v: u32, t: Term, d: Interval, r: Interval)
        requires inside { v < length self.old.group + length self.old.spans.full }
        requires from { t.variable < length self.old.group + length self.old.spans.full }
        requires difference { SizesBelow (2 ^ 60) d }
        ensures alike { IsAlike self.old self.new }
        ensures left { IsLeft self.new (NearTerm (In self.old) v t d r) }
    {
        match self.full_range(v as usize).meet(r) {
            None => self.clear(),
            Some(fit) => self.set_near_within(v, t, d, fit),
        }
    }

    // the same with a part of the full range
    fn set_near_within(&mut self, v: u32, t: Term, d: Interval, r: Interval)
        requires inside { v < length self.old.group + length self.old.spans.full }
        requires from { t.variable < length self.old.group + length self.old.spans.full }
        requires difference { SizesBelow (2 ^ 60) d }
        requires narrow { IsNarrow r }
        requires lies { (z : ℤ) → Holds r z → Holds (range_at (self.old.group ++ self.old.spans.full) v) z }
        ensures alike { IsAlike self.old self.new }
        ensures left { IsLeft self.new (NearTerm (In self.old) v t d r) }
    {
        let count = self.count();
        if v as usize >= count {
            self.near_apart(v, t, d, r);
            return;
        }
        if t.variable as usize >= count {
            self.near_apart(v, t, d, r);
            return;
        }
        self.follow_tied(v as usize, t, d, r);
    }

    // the same where the variable or the term's lies past the group
    fn near_apart(&mut self, v: u32, t: Term, d: Interval, r: Interval)
        requires inside { v < length self.old.group + length self.old.spans.full }
        requires from { t.variable < length self.old.group + length self.old.spans.full }
        requires difference { SizesBelow (2 ^ 60) d }
        requires narrow { IsNarrow r }
        requires lies { (z : ℤ) → Holds r z → Holds (range_at (self.old.group ++ self.old.spans.full) v) z }
        requires apart { (length self.old.group ≤ v) ⊎ ((v < length self.old.group) × (length self.old.group ≤ t.variable)) }
        ensures alike { IsAlike self.old self.new }
        ensures left { IsLeft self.new (NearTerm (In self.old) v t d r) }
    {
        self.cut_term(t, r.sub(d));
        let near = self.term_range(t).add(d);
        match near.meet(r) {
            None => self.clear(),
            Some(now) => self.free(v as usize, now),
        }
    }
}
