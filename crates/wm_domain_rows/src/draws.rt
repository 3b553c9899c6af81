// A fixed generator of numbers, intervals, shapes and forms.

ghost use Rattle.std.specs.Prelude.{◌≡◌, ◌≢◌, ◌<◌, ◌≤◌, ◌+◌, ◌^◌, IfOk, All, length, unsigned_abs};
ghost use Rattle.wm_domain.specs.Points.{IsNarrow};
ghost use Rattle.wm_domain.specs.States.{IsSized};
ghost use Rattle.wm_domain.specs.Forms.{IsForm, IsSimple};
ghost use Rattle.wm_domain_rows.specs.Drawn.{IsTiny, IsSmall};

use crate::forms::{constant_form, one_form, two_form};
use std::alloc::Global;
use wm_arrays::Summary;
use wm_domain::{Form, Relation, Shape, Term};
use wm_interval::Interval;
use wm_ops::{List, NoMemory};

/// The numbers of the generator `x := x * 6364136223846793005 + 1442695040888963407` modulo 2^64, from 1.
#[derive(Drop)]
pub(crate) struct Draws {
    state: u64,
}

impl Draws {
    pub(crate) fn new() -> Draws {
        Draws { state: 1 }
    }

    // the upper 32 bits of the next number
    fn next(&mut self) -> u32 {
        self.state = self
            .state
            .wrapping_mul(6364136223846793005)
            .wrapping_add(1442695040888963407);
        (self.state >> 32) as u32
    }

    /// A number from 0, below `n`: the remainder of the next draw.
    #[tactic(auto, using(std::proofs::lemmas::Nat::mod_below))]
    pub(crate) fn below(&mut self, n: u64) -> u64
        requires { 0 < n }
        ensures { result < n }
    {
        u64::from(self.next()) % n
    }

    /// One of the first so many.
    pub(crate) fn index(&mut self, n: u32) -> u32
        requires { 0 < n }
        ensures { result < n }
    {
        self.below(u64::from(n)) as u32
    }

    pub(crate) fn coin(&mut self) -> bool {
        self.below(2) == 0
    }

    /// A number from -6 to 6.
    #[tactic(auto, using(crate::proofs::Sizes::tiny_small))]
    pub(crate) fn number(&mut self) -> i64
        ensures tiny { IsTiny result }
        ensures small { unsigned_abs result < 2 ^ 50 }
    {
        self.below(13) as i64 - 6
    }

    /// An interval from a number that is at most `most` in size, and of at most `wide` more numbers.
    pub(crate) fn interval(&mut self, most: u64, wide: u64) -> Interval
        requires most { most ≤ 6 }
        requires wide { wide ≤ 6 }
        ensures low { IsTiny result.low }
        ensures high { IsTiny result.high }
    {
        let low = self.below(most + 1) as i64 - self.below(most + 1) as i64;
        let high = low + self.below(wide + 1) as i64;
        Interval::new(low, high)
    }

    fn term(&mut self, count: u32) -> Term
        requires { 0 < count }
        ensures { result.variable < count }
    {
        let variable = self.index(count);
        Term {
            variable,
            negative: self.coin(),
        }
    }

    // a term of another variable
    fn another(&mut self, count: u32, first: Term) -> Term
        requires inside { first.variable < count }
        requires more { 1 < count }
        ensures inside { result.variable < count }
        ensures apart { result.variable ≢ first.variable }
    {
        let drawn = self.index(count - 1);
        let variable = if drawn < first.variable {
            drawn
        } else {
            drawn + 1
        };
        Term {
            variable,
            negative: self.coin(),
        }
    }

    /// A form of at most one term over so many variables.
    pub(crate) fn simple_form(&mut self, alloc: Global, count: u32) -> Result<Form, NoMemory>
        requires { 0 < count }
        ensures form { IfOk result (λ f. IsForm count f) }
        ensures simple { IfOk result (λ f. IsSimple f.terms) }
    {
        let constant = self.number();
        if self.coin() {
            return Ok(constant_form(alloc, constant));
        }
        let form = one_form(alloc, self.term(count), constant)?;
        Ok(form)
    }

    // a form of two terms
    fn pair_form(&mut self, alloc: Global, count: u32) -> Result<Form, NoMemory>
        requires { 1 < count }
        ensures form { IfOk result (λ f. IsForm count f) }
    {
        let constant = self.number();
        let first = self.term(count);
        let second = self.another(count, first);
        let form = two_form(alloc, first, second, constant)?;
        Ok(form)
    }

    /// A form of at most two terms over so many variables.
    pub(crate) fn form(&mut self, alloc: Global, count: u32) -> Result<Form, NoMemory>
        requires { 0 < count }
        ensures form { IfOk result (λ f. IsForm count f) }
    {
        if count < 2 {
            return self.simple_form(alloc, count);
        }
        if self.below(3) == 0 {
            return self.simple_form(alloc, count);
        }
        self.pair_form(alloc, count)
    }

    pub(crate) fn relation(&mut self) -> Relation {
        let drawn = self.below(4);
        if drawn == 0 {
            return Relation::Equal;
        }
        if drawn == 1 {
            return Relation::NotEqual;
        }
        Relation::AtMost
    }

    pub(crate) fn summary(&mut self) -> Summary {
        if self.below(3) == 0 {
            return Summary::Empty;
        }
        Summary::Range(self.interval(2, 2))
    }

    fn ranges(&mut self, alloc: Global, many: u64, wide: u64) -> Result<List<Interval>, NoMemory>
        requires wide { wide ≤ 6 }
        ensures long { IfOk result (λ ranges. length ranges ≡ many) }
        ensures narrow { IfOk result (λ ranges. All IsNarrow ranges) }
    {
        let mut ranges = List::new(alloc);
        for _ in 0..many {
            ranges.push(self.interval(2, wide))?;
        }
        Ok(ranges)
    }

    // how many variables are past the group
    fn others(&mut self, grouped: u64) -> u64
        requires { grouped ≤ 3 }
        ensures some { 0 < grouped + result }
        ensures few { grouped + result ≤ 4 }
    {
        if grouped == 0 {
            return 1 + self.below(2);
        }
        if grouped == 3 {
            return self.below(2);
        }
        self.below(3)
    }

    /// A shape of one to four variables, of which up to three are of the group, and up to two arrays.
    pub(crate) fn shape(&mut self, alloc: Global) -> Result<Shape, NoMemory>
        ensures small { IfOk result IsSmall }
    {
        let grouped = self.below(4);
        let others = self.others(grouped);
        let many = self.below(3);
        let group = self.ranges(alloc, grouped, 2)?;
        let singles = self.ranges(alloc, others, 2)?;
        let arrays = self.ranges(alloc, many, 1)?;
        Ok(Shape {
            group,
            singles,
            arrays,
        })
    }
}
