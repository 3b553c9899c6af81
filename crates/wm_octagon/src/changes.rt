//! Changes of all bounds at once: sides that are known apart from each other alone, and variables that get new values.

ghost use Rattle.std.specs.Prelude.{◌≡◌, ◌<◌, ℕ, ◌+ℤ◌};
ghost use Rattle.wm_octagon.specs.Layout.{opposite, row_len};
ghost use Rattle.wm_octagon.specs.Changes.{apart, loosened, begin_beside, columns_beside};
ghost use Rattle.wm_octagon.specs.Ways.{at, AllSmall};

use crate::closing::plus;
use crate::layout::{Change, MOST_SIDES, opposite, row_len};

/// What is known of each side is its greatest value.
#[derive(Drop)]
pub(crate) struct Boxing {
    pub(crate) tops: [i64; MOST_SIDES],
    ghost sized: { AllSmall tops },
}

impl Change for Boxing {
    ghost sides = { λ _. 64 };

    ghost value = { λ s k l b. apart (at s.tops) k l };

    ghost begin = { λ _ _. 0 };

    ghost columns = { λ _ k. row_len k };

    #[inline(always)]
    fn changed(&self, k: usize, l: usize, _bound: i64) -> i64 {
        if k == l {
            return 0;
        }
        plus(self.tops[opposite(k)], self.tops[l])
    }

    #[inline(always)]
    fn first_column(&self, _k: usize) -> usize {
        0
    }

    #[inline(always)]
    fn column_count(&self, k: usize) -> usize {
        row_len(k)
    }
}

/// One variable is set free: what is known of its sides is the greatest value of each.
#[derive(Drop)]
pub(crate) struct Loosening {
    pub(crate) variable: usize,
    pub(crate) tops: [i64; MOST_SIDES],
    ghost variable_in: { variable < 32 },
    ghost sized: { AllSmall tops },
}

impl Change for Loosening {
    ghost sides = { λ _. 64 };

    ghost value = { λ s k l b. loosened s.variable (at s.tops) (λ _ _. b) k l };

    ghost begin = { λ s k. begin_beside s.variable k };

    ghost columns = { λ s k. columns_beside s.variable k };

    #[inline(always)]
    fn changed(&self, k: usize, l: usize, bound: i64) -> i64 {
        if k / 2 != self.variable && l / 2 != self.variable {
            return bound;
        }
        if k == l {
            return 0;
        }
        plus(self.tops[opposite(k)], self.tops[l])
    }

    #[inline(always)]
    fn first_column(&self, k: usize) -> usize {
        first_beside(self.variable, k)
    }

    #[inline(always)]
    fn column_count(&self, k: usize) -> usize {
        count_beside(self.variable, k)
    }
}

/// The first column of row `k` that a change of variable `v` alone may change.
#[inline(always)]
pub(crate) fn first_beside(v: usize, k: usize) -> usize
    requires variable { v < 32 }
    requires row { k < 64 }
    ensures { result ≡ begin_beside v k }
{
    if v < k / 2 { 2 * v } else { 0 }
}

/// How many columns of row `k` a change of variable `v` alone may change: those of the variable, or all in its own rows.
#[inline(always)]
pub(crate) fn count_beside(v: usize, k: usize) -> usize
    requires variable { v < 32 }
    requires row { k < 64 }
    ensures { result ≡ columns_beside v k }
{
    if v < k / 2 {
        return 2;
    }
    if k / 2 < v { 0 } else { row_len(k) }
}
