//! One more bound in a half table, brought up to date in a single pass over the list.

ghost use Rattle.std.specs.Prelude.{◌≡◌, ℕ, ◌*◌, ◌%◌, ◌<◌, ◌≤◌, ℤ, pos, ◌+ℤ◌, ◌-◌, ◌≤ℤ◌, replicate, slice_index_or};
ghost use Rattle.std.specs.Int.{int_min};
ghost use Rattle.wm_octagon.specs.Layout.{opposite, row_len, bound, table};
ghost use Rattle.wm_octagon.specs.Closing.{half_of, through, closed};
ghost use Rattle.wm_octagon.specs.HalfTable.{IsSmall};
ghost use Rattle.wm_octagon.specs.Medium.{IsMedium, IsRound, Filled};
ghost use Rattle.wm_octagon.specs.Points.{IsTight};
ghost use Rattle.wm_octagon.specs.Ways.{at, AreSized, least_way, BeginIn, IsUnmoved};

use crate::half::{Half, halved};
use crate::layout::{Change, MOST_SIDES, opposite, row_len};

/// What one more bound of side `j` less side `i` needs to change each bound: the rows of `j` and of `-i`, the ways from
/// each side that end with the new bound in `j` or in `-i`, and the greatest value that is left to each side.
#[derive(Drop)]
struct Closing<'c> {
    from_j: &'c [i64; MOST_SIDES],
    from_i: &'c [i64; MOST_SIDES],
    to_j: &'c [i64; MOST_SIDES],
    to_i: &'c [i64; MOST_SIDES],
    tops: &'c [i64; MOST_SIDES],
    // the columns of each row before this one stay as they are
    begins: &'c [usize; MOST_SIDES],
    ghost sized: { AreSized from_j.now from_i.now to_j.now to_i.now tops.now },
    ghost begins_in: { BeginIn begins.now },
}

impl Change for Closing<'_> {
    ghost sides = { λ _. 64 };

    ghost value = { λ s k l b. int_min (least_way s.to_j.now s.from_j.now s.to_i.now s.from_i.now b k l) (at s.tops.now (opposite k) +ℤ at s.tops.now l) };

    ghost begin = { λ s k. slice_index_or s.begins.now k 0 };

    ghost columns = { λ s k. row_len k - slice_index_or s.begins.now k 0 };

    #[inline(always)]
    fn changed(&self, k: usize, l: usize, bound: i64) -> i64 {
        let by_j = sum(self.to_j[k], self.from_j[l]);
        let by_i = sum(self.to_i[k], self.from_i[l]);
        let alone = sum(self.tops[opposite(k)], self.tops[l]);
        lesser(least(bound, by_j, by_i), alone)
    }

    #[inline(always)]
    fn first_column(&self, k: usize) -> usize {
        self.begins[k]
    }

    #[inline(always)]
    fn column_count(&self, k: usize) -> usize {
        row_len(k) - self.begins[k]
    }
}

/// Takes the bound 'side `j` less side `i` is at most `c`' into all bounds.
#[inline(always)]
pub(crate) fn take_in(half: &mut Half, i: usize, j: usize, c: i64)
    requires row { i < 2 * half.old.variables }
    requires column { j < 2 * half.old.variables }
    requires c { IsSmall c }
    requires tight { IsTight half.old.variables half.old.bounds }
    requires sized { (k l : ℕ) → k < 2 * half.old.variables → l < row_len k → IsSmall (closed (bound half.old.bounds) i j c k l) }
    ensures list { half.new ≡ record half.old { bounds = table (2 * half.old.variables) (closed (bound half.old.bounds) i j c) } }
{
    let mut from_j = [0; MOST_SIDES];
    let mut from_i = [0; MOST_SIDES];
    let mut to_j = [0; MOST_SIDES];
    let mut to_i = [0; MOST_SIDES];
    let mut tops = [0; MOST_SIDES];
    let mut begins = [0; MOST_SIDES];
    let sides = half.sides();
    half.fill_row(j, &mut from_j);
    half.fill_row(opposite(i), &mut from_i);
    let around_j = round_trip(c, half.bound(opposite(i), i));
    let around_i = round_trip(c, half.bound(j, opposite(j)));
    fill_ways(&from_i, &from_j, c, around_j, sides, &mut to_j);
    fill_ways(&from_j, &from_i, c, around_i, sides, &mut to_i);
    fill_tops(half, &to_j, &from_j, &to_i, &from_i, &mut tops);
    let lowered = first_less(&tops, &half.tops(), sides);
    fill_begins(half, j, opposite(i), &to_j, &to_i, lowered, &mut begins);
    let closing = Closing {
        from_j: &from_j,
        from_i: &from_i,
        to_j: &to_j,
        to_i: &to_i,
        tops: &tops,
        begins: &begins,
    };
    half.change(&closing);
}

#[inline(always)]
fn sum(a: i64, b: i64) -> i64
    requires a { IsMedium a }
    requires b { IsMedium b }
    ensures { result ≡ a +ℤ b }
{
    a + b
}

/// The sum of two small numbers.
#[inline(always)]
pub(crate) fn plus(a: i64, b: i64) -> i64
    requires a { IsSmall a }
    requires b { IsSmall b }
    ensures { result ≡ a +ℤ b }
{
    a + b
}

#[inline(always)]
fn lesser(a: i64, b: i64) -> i64
    ensures { result ≡ int_min a b }
{
    if b < a { b } else { a }
}

#[inline(always)]
fn least(a: i64, b: i64, c: i64) -> i64
    ensures { result ≡ int_min a (int_min b c) }
{
    lesser(a, lesser(b, c))
}

// what it costs to use the bound `c` twice, with `bound` between
#[inline(always)]
fn round_trip(c: i64, bound: i64) -> i64
    requires c { IsSmall c }
    requires bound { IsSmall bound }
    ensures value { result ≡ c +ℤ c +ℤ bound }
    ensures sized { IsRound result }
{
    c + c + bound
}

// the lesser of two ways that end with the new bound `c`: the one goes on from `near`, the other from `far` and round
#[inline(always)]
fn way(near: i64, far: i64, c: i64, around: i64) -> i64
    requires near { IsSmall near }
    requires far { IsSmall far }
    requires c { IsSmall c }
    requires around { IsRound around }
    ensures value { result ≡ int_min (near +ℤ c) (far +ℤ around) }
    ensures sized { IsMedium result }
{
    lesser(near + c, far + around)
}

/// The bounds of one side less each other by way of the new bound `c`: once, or after a way round that costs `around`.
#[inline(always)]
fn fill_ways(
    near: &[i64; MOST_SIDES],
    far: &[i64; MOST_SIDES],
    c: i64,
    around: i64,
    sides: usize,
    ways: &mut [i64; MOST_SIDES],
)
    requires few { sides ≤ 64 }
    requires even { sides % 2 ≡ 0 }
    requires near { (k : ℕ) → IsSmall (at near.now k) }
    requires far { (k : ℕ) → IsSmall (at far.now k) }
    requires c { IsSmall c }
    requires around { IsRound around }
    requires clear { ways.old ≡ replicate 64 (pos 0) }
    ensures value { Filled IsMedium (through (at near.now) (at far.now) around c) sides ways.new }
{
    for k in 0..sides {
        let other = opposite(k);
        ways[k] = way(near[other], far[other], c, around);
    }
}

// half of the least of an old bound and two ways, rounded down
#[inline(always)]
fn half_least(bound: i64, to_j: i64, from_j: i64, to_i: i64, from_i: i64) -> i64
    requires bound { IsSmall bound }
    requires to_j { IsMedium to_j }
    requires from_j { IsSmall from_j }
    requires to_i { IsMedium to_i }
    requires from_i { IsSmall from_i }
    ensures value { result ≡ half_of (int_min bound (int_min (to_j +ℤ from_j) (to_i +ℤ from_i))) }
    ensures sized { IsMedium result }
{
    halved(least(bound, to_j + from_j, to_i + from_i))
}

/// The greatest value that the old bounds and the ways by the new one leave each side.
#[inline(always)]
fn fill_tops(
    half: &Half,
    to_j: &[i64; MOST_SIDES],
    from_j: &[i64; MOST_SIDES],
    to_i: &[i64; MOST_SIDES],
    from_i: &[i64; MOST_SIDES],
    tops: &mut [i64; MOST_SIDES],
)
    requires to_j { (k : ℕ) → IsMedium (at to_j.now k) }
    requires from_j { (k : ℕ) → IsSmall (at from_j.now k) }
    requires to_i { (k : ℕ) → IsMedium (at to_i.now k) }
    requires from_i { (k : ℕ) → IsSmall (at from_i.now k) }
    requires clear { tops.old ≡ replicate 64 (pos 0) }
    ensures value { Filled IsMedium (λ k. half_of (least_way to_j.now from_j.now to_i.now from_i.now (bound half.now.bounds (opposite k) k) (opposite k) k)) (2 * half.now.variables) tops.new }
{
    let sides = half.sides();
    for k in 0..sides {
        let other = opposite(k);
        let old = half.bound(other, k);
        tops[k] = half_least(old, to_j[other], from_j[k], to_i[other], from_i[k]);
    }
}

/// The first of the sides at which a list has a lesser number than another, or the number of the sides.
fn first_less(news: &[i64; MOST_SIDES], olds: &[i64; MOST_SIDES], sides: usize) -> usize
    requires few { sides ≤ 64 }
    ensures few { result ≤ sides }
    ensures before { (k : ℕ) → k < result → at olds.now k ≤ℤ at news.now k }
{
    for k in 0..sides {
        if news[k] < olds[k] {
            return k;
        }
    }
    sides
}

// where row `k` begins to change: at once, where a way that ends with the new bound in `j` or in `i` is shorter than what is
// known, or where the greatest value of -k is less than it was; else at the first side whose greatest value is less
fn begin_at(
    half: &Half,
    k: usize,
    j: usize,
    i: usize,
    to_j: i64,
    to_i: i64,
    lowered: usize,
) -> usize
    requires row { k < 2 * half.now.variables }
    requires low { k < 64 }
    requires first { j < 2 * half.now.variables }
    requires second { i < 2 * half.now.variables }
    ensures inside { result ≤ row_len k }
    ensures unmoved { (l : ℕ) → l < result → IsUnmoved (bound half.now.bounds) j i to_j to_i lowered k l }
{
    if lowered <= opposite(k) {
        return 0;
    }
    if to_j < half.bound(k, j) {
        return 0;
    }
    if to_i < half.bound(k, i) {
        return 0;
    }
    shorter(row_len(k), lowered)
}

#[inline(always)]
fn shorter(a: usize, b: usize) -> usize
    ensures first { result ≤ a }
    ensures second { result ≤ b }
{
    if b < a { b } else { a }
}

/// Where each row begins to change.
fn fill_begins(
    half: &Half,
    j: usize,
    i: usize,
    to_j: &[i64; MOST_SIDES],
    to_i: &[i64; MOST_SIDES],
    lowered: usize,
    begins: &mut [usize; MOST_SIDES],
)
    requires first { j < 2 * half.now.variables }
    requires second { i < 2 * half.now.variables }
    requires to_j { (k : ℕ) → IsMedium (at to_j.now k) }
    requires to_i { (k : ℕ) → IsMedium (at to_i.now k) }
    requires clear { begins.old ≡ replicate 64 0 }
    ensures inside { BeginIn begins.new }
    ensures unmoved { (k l : ℕ) → k < 2 * half.now.variables → l < slice_index_or begins.new k 0 → IsUnmoved (bound half.now.bounds) j i (at to_j.now k) (at to_i.now k) lowered k l }
{
    for k in 0..half.sides() {
        begins[k] = begin_at(half, k, j, i, to_j[k], to_i[k], lowered);
    }
}
