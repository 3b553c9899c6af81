//! A variable that gets the value of a side and a number of an interval.

ghost use Rattle.std.specs.Prelude.{◌≡◌, ℕ, ◌<◌};
ghost use Rattle.wm_octagon.specs.Changes.{source_of, rise, begin_beside, columns_beside};
ghost use Rattle.wm_octagon.specs.Assigning.{read_of, risen, IsLow};
ghost use Rattle.wm_octagon.specs.HalfTable.{IsSmall};
ghost use Rattle.wm_octagon.specs.Ways.{at, AllSmall};

use crate::changes::{count_beside, first_beside};
use crate::closing::plus;
use crate::layout::{Change, MOST_SIDES, opposite};

/// One variable gets the value of a side and a number of an interval.
#[derive(Drop)]
pub(crate) struct Assigning {
    pub(crate) variable: usize,
    // the side whose value it gets
    pub(crate) source: usize,
    // the bounds of all sides less the source, and less its opposite
    pub(crate) source_row: [i64; MOST_SIDES],
    pub(crate) mirror_row: [i64; MOST_SIDES],
    // the least and the greatest number of the interval
    pub(crate) low: i64,
    pub(crate) high: i64,
    ghost variable_in: { variable < 32 },
    ghost source_in: { source < 64 },
    ghost source_sized: { AllSmall source_row },
    ghost mirror_sized: { AllSmall mirror_row },
    ghost low_sized: { IsLow low },
    ghost high_sized: { IsLow high },
}

impl Change for Assigning {
    ghost sides = { λ _. 64 };

    ghost value = { λ s k l b. risen s.variable s.source s.low s.high (at s.source_row) (at s.mirror_row) b k l };

    ghost begin = { λ s k. begin_beside s.variable k };

    ghost columns = { λ s k. columns_beside s.variable k };

    #[inline(always)]
    fn changed(&self, k: usize, l: usize, bound: i64) -> i64 {
        if k == l {
            return 0;
        }
        let more = plus(self.rise(opposite(k)), self.rise(l));
        plus(self.read(k, l, bound), more)
    }

    #[inline(always)]
    fn first_column(&self, k: usize) -> usize {
        first_beside(self.variable, k)
    }

    #[inline(always)]
    fn column_count(&self, k: usize) -> usize {
        count_beside(self.variable, k)
    }
}

impl Assigning {
    // the old bound of the sides that sides `k` and `l` are measured by
    #[inline(always)]
    fn read(&self, k: usize, l: usize, bound: i64) -> i64
        requires row { k < 64 }
        requires column { l < 64 }
        requires small { IsSmall bound }
        ensures value { result ≡ read_of self.now.variable self.now.source (at self.now.source_row) (at self.now.mirror_row) bound k l }
        ensures small { IsSmall result }
    {
        if k == 2 * self.variable {
            return self.source_row[self.source_of(l)];
        }
        if k == 2 * self.variable + 1 {
            return self.mirror_row[self.source_of(l)];
        }
        if l == 2 * self.variable {
            return self.mirror_row[opposite(k)];
        }
        if l == 2 * self.variable + 1 {
            return self.source_row[opposite(k)];
        }
        bound
    }

    // the old side that side `l` is measured by
    #[inline(always)]
    fn source_of(&self, l: usize) -> usize
        requires { l < 64 }
        ensures value { result ≡ source_of self.now.variable self.now.source l }
        ensures inside { result < 64 }
    {
        if l == 2 * self.variable {
            return self.source;
        }
        if l == 2 * self.variable + 1 {
            return opposite(self.source);
        }
        l
    }

    // the most that side `l` rises by
    #[inline(always)]
    fn rise(&self, l: usize) -> i64
        requires { l < 64 }
        ensures value { result ≡ rise self.now.variable self.now.low self.now.high l }
        ensures low { IsLow result }
    {
        if l == 2 * self.variable {
            return self.high;
        }
        if l == 2 * self.variable + 1 {
            return -self.low;
        }
        0
    }
}
