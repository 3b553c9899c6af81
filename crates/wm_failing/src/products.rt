// The first two factors in their boxes whose product is out of 32 bits, each found by halving its box.
ghost use Rattle.std.specs.Prelude.{◌≡◌, ◌+ℤ◌, ◌-ℤ◌, ◌*ℤ◌, ◌≤ℤ◌, ◌<ℤ◌};
ghost use Rattle.wm_interval.specs.declared.Interval as intervals;
ghost use Rattle.wm_ops.specs.Clamping.{leaves32};
ghost use Rattle.wm_hull.specs.Failures.{Somewhere, TellsWhether, TellsLeaving32};
ghost use Rattle.wm_hull.specs.Ranges.{IsBox32};
ghost use Rattle.wm_hull.specs.Boxes.{zero_box};
ghost use Rattle.wm_hull.specs.Searches.{SearchedFirst, SearchedSecond};
ghost use Rattle.wm_failing.specs.Trials.{IsFirstOf};

use wm_interval::Interval;

/// Whether a number of the range is out of 32 bits.
#[tactic(auto, unfolding(wm_ops::specs::Clamping::leaves32))]
fn leaves(range: Interval) -> bool
    ensures { TellsLeaving32 result range.low range.high }
{
    range.low < -2_147_483_648 || range.high > 2_147_483_647
}

/// Whether some product of the boxes is out of 32 bits.
fn products_leave(x: Interval, y: Interval) -> bool
    requires first { IsBox32 x }
    requires second { IsBox32 y }
    ensures { (z : intervals.Interval) → TellsWhether result (λ a b c. leaves32 (a *ℤ b)) x y z }
{
    leaves(x.mul(y))
}

/// A number at or above the low end and below the high end, in the middle.
fn middle(range: Interval) -> i64
    requires size { IsBox32 range }
    requires proper { range.low <ℤ range.high }
    ensures low { range.low ≤ℤ result }
    ensures high { result <ℤ range.high }
{
    range.low + (range.high - range.low) / 2
}

/// The half of the first box in which the search goes on: the lower one, where some product leaves in it.
fn half_first(left: Interval, y: Interval) -> Interval
    requires size { IsBox32 left }
    requires second { IsBox32 y }
    requires proper { left.low <ℤ left.high }
    ensures keeps { (x z : intervals.Interval) → SearchedFirst (λ a b c. leaves32 (a *ℤ b)) x y z left → SearchedFirst (λ a b c. leaves32 (a *ℤ b)) x y z result }
    ensures shorter { (result.high -ℤ result.low) <ℤ (left.high -ℤ left.low) }
{
    let middle = middle(left);
    let lower = Interval::new(left.low, middle);
    if products_leave(lower, y) {
        return lower;
    }
    Interval::new(middle + 1, left.high)
}

/// The box of the first factors, cut to the least of them.
fn search_first(x: Interval, y: Interval) -> Interval
    requires first { IsBox32 x }
    requires second { IsBox32 y }
    requires some { Somewhere (λ a b c. leaves32 (a *ℤ b)) x y zero_box }
    ensures searched { SearchedFirst (λ a b c. leaves32 (a *ℤ b)) x y zero_box result }
    ensures point { result.low ≡ result.high }
{
    let mut left = x;
    while left.low < left.high {
        left = half_first(left, y);
    }
    left
}

/// The half of the second box in which the search goes on.
fn half_second(x: Interval, left: Interval) -> Interval
    requires first { IsBox32 x }
    requires size { IsBox32 left }
    requires proper { left.low <ℤ left.high }
    ensures keeps { (y z : intervals.Interval) → SearchedSecond (λ a b c. leaves32 (a *ℤ b)) x y z left → SearchedSecond (λ a b c. leaves32 (a *ℤ b)) x y z result }
    ensures shorter { (result.high -ℤ result.low) <ℤ (left.high -ℤ left.low) }
{
    let middle = middle(left);
    let lower = Interval::new(left.low, middle);
    if products_leave(x, lower) {
        return lower;
    }
    Interval::new(middle + 1, left.high)
}

/// The box of the second factors, cut to the least of them.
fn search_second(x: Interval, y: Interval) -> Interval
    requires first { IsBox32 x }
    requires second { IsBox32 y }
    requires some { Somewhere (λ a b c. leaves32 (a *ℤ b)) x y zero_box }
    ensures searched { SearchedSecond (λ a b c. leaves32 (a *ℤ b)) x y zero_box result }
    ensures point { result.low ≡ result.high }
{
    let mut left = y;
    while left.low < left.high {
        left = half_second(x, left);
    }
    left
}

/// The first two factors whose product is out of 32 bits.
pub fn first_product(x: Interval, y: Interval) -> Option<[i64; 3]>
    requires first { IsBox32 x }
    requires second { IsBox32 y }
    ensures { IsFirstOf (λ a b c. leaves32 (a *ℤ b)) x y zero_box result }
{
    if !products_leave(x, y) {
        return None;
    }
    let first = search_first(x, y);
    let second = search_second(first, y);
    Some([first.low, second.low, 0])
}
