//! Whether an operator fails or flags at some arguments in the boxes: from the exact range of the number that a clamp
//! is put on, since the clamp changes some number of it exactly where it changes one of its ends.

ghost use Rattle.std.specs.Prelude.{◌≡◌, ◌||◌, pos, neg_ℤ, unsigned_abs, ◌+ℤ◌, ◌-ℤ◌, ◌*ℤ◌};
ghost use Rattle.wm_interval.specs.declared.Interval as intervals;
ghost use Rattle.wm_numbers.specs.Clamp.{clamp32};
ghost use Rattle.wm_numbers.specs.Floor.{floor_shift};
ghost use Rattle.wm_ops.specs.Clamping as clamping;
ghost use Rattle.wm_ops.specs.Outcomes.{fails_of, flags_of};
ghost use Rattle.wm_hull.specs.Boxes.{BoxesFit};
ghost use Rattle.wm_hull.specs.Failures.{TellsWhether, sets_flag_of};
ghost use Rattle.wm_hull.specs.Ranges.{IsBox16, IsBox32};

use crate::overflows::{lefts_leave16, lefts_leave32, rights_leave16, rights_leave32};
use crate::products::{
    doubled, fractions, multiplied_from, multiplied_to, products, rounded_fractions,
    rounding_leaves,
};
use crate::ranges::{clamped32, leaves16, leaves32, negated};
use crate::sums::sizes;
use wm_interval::Interval;
use wm_ops::Op;

fn sums_leave16(x: Interval, y: Interval) -> bool
    requires first { IsBox16 x }
    requires second { IsBox16 y }
    ensures { (z : intervals.Interval) → TellsWhether result (λ a b c. clamping.leaves16 (a +ℤ b)) x y z }
{
    leaves16(x.add(y))
}

fn sums_leave32(x: Interval, y: Interval) -> bool
    requires first { IsBox32 x }
    requires second { IsBox32 y }
    ensures { (z : intervals.Interval) → TellsWhether result (λ a b c. clamping.leaves32 (a +ℤ b)) x y z }
{
    leaves32(x.add(y))
}

fn differences_leave16(x: Interval, y: Interval) -> bool
    requires first { IsBox16 x }
    requires second { IsBox16 y }
    ensures { (z : intervals.Interval) → TellsWhether result (λ a b c. clamping.leaves16 (a -ℤ b)) x y z }
{
    leaves16(x.sub(y))
}

fn differences_leave32(x: Interval, y: Interval) -> bool
    requires first { IsBox32 x }
    requires second { IsBox32 y }
    ensures { (z : intervals.Interval) → TellsWhether result (λ a b c. clamping.leaves32 (a -ℤ b)) x y z }
{
    leaves32(x.sub(y))
}

fn sizes_leave16(x: Interval) -> bool
    requires { IsBox16 x }
    ensures { (y z : intervals.Interval) → TellsWhether result (λ a b c. clamping.leaves16 (pos (unsigned_abs a))) x y z }
{
    leaves16(sizes(x))
}

fn sizes_leave32(x: Interval) -> bool
    requires { IsBox32 x }
    ensures { (y z : intervals.Interval) → TellsWhether result (λ a b c. clamping.leaves32 (pos (unsigned_abs a))) x y z }
{
    leaves32(sizes(x))
}

fn opposites_leave16(x: Interval) -> bool
    requires { IsBox16 x }
    ensures { (y z : intervals.Interval) → TellsWhether result (λ a b c. clamping.leaves16 (neg_ℤ a)) x y z }
{
    leaves16(negated(x))
}

fn opposites_leave32(x: Interval) -> bool
    requires { IsBox32 x }
    ensures { (y z : intervals.Interval) → TellsWhether result (λ a b c. clamping.leaves32 (neg_ℤ a)) x y z }
{
    leaves32(negated(x))
}

fn fractions_leave(x: Interval, y: Interval) -> bool
    requires first { IsBox16 x }
    requires second { IsBox16 y }
    ensures { (z : intervals.Interval) → TellsWhether result (λ a b c. clamping.leaves16 (floor_shift (a *ℤ b) 15)) x y z }
{
    leaves16(fractions(x, y))
}

fn rounded_fractions_leave(x: Interval, y: Interval) -> bool
    requires first { IsBox16 x }
    requires second { IsBox16 y }
    ensures { (z : intervals.Interval) → TellsWhether result (λ a b c. clamping.leaves16 (floor_shift ((a *ℤ b) +ℤ pos 16384) 15)) x y z }
{
    leaves16(rounded_fractions(x, y))
}

fn doubles_leave(x: Interval, y: Interval) -> bool
    requires first { IsBox16 x }
    requires second { IsBox16 y }
    ensures { (z : intervals.Interval) → TellsWhether result (λ a b c. clamping.leaves32 (pos 2 *ℤ (a *ℤ b))) x y z }
{
    leaves32(doubled(x, y))
}

fn sum_fails(x: Interval, y: Interval, z: Interval) -> bool
    requires first { IsBox32 x }
    requires second { IsBox16 y }
    requires third { IsBox16 z }
    ensures { TellsWhether result (λ a b c. clamping.leaves32 (pos 2 *ℤ (b *ℤ c)) || clamping.leaves32 (a +ℤ clamp32 (pos 2 *ℤ (b *ℤ c)))) x y z }
{
    let doubles = leaves32(doubled(y, z));
    let sums = leaves32(multiplied_to(x, y, z));
    either(doubles, sums)
}

fn difference_fails(x: Interval, y: Interval, z: Interval) -> bool
    requires first { IsBox32 x }
    requires second { IsBox16 y }
    requires third { IsBox16 z }
    ensures { TellsWhether result (λ a b c. clamping.leaves32 (pos 2 *ℤ (b *ℤ c)) || clamping.leaves32 (a -ℤ clamp32 (pos 2 *ℤ (b *ℤ c)))) x y z }
{
    let doubles = leaves32(doubled(y, z));
    let differences = leaves32(multiplied_from(x, y, z));
    either(doubles, differences)
}

fn products_added_leave(x: Interval, y: Interval, z: Interval) -> bool
    requires first { IsBox32 x }
    requires second { IsBox16 y }
    requires third { IsBox16 z }
    ensures { TellsWhether result (λ a b c. clamping.leaves32 (a +ℤ (b *ℤ c))) x y z }
{
    leaves32(x.add(products(y, z)))
}

fn products_taken_leave(x: Interval, y: Interval, z: Interval) -> bool
    requires first { IsBox32 x }
    requires second { IsBox16 y }
    requires third { IsBox16 z }
    ensures { TellsWhether result (λ a b c. clamping.leaves32 (a -ℤ (b *ℤ c))) x y z }
{
    leaves32(x.sub(products(y, z)))
}

fn roundings_leave(x: Interval) -> bool
    requires { IsBox32 x }
    ensures { (y z : intervals.Interval) → TellsWhether result (λ a b c. clamping.leaves32 (a +ℤ pos 32768)) x y z }
{
    rounding_leaves(x)
}

fn rounded_sum_fails(x: Interval, y: Interval, z: Interval) -> bool
    requires first { IsBox32 x }
    requires second { IsBox16 y }
    requires third { IsBox16 z }
    ensures { TellsWhether result (λ a b c. clamping.leaves32 (clamp32 (a +ℤ clamp32 (pos 2 *ℤ (b *ℤ c))) +ℤ pos 32768)) x y z }
{
    rounding_leaves(clamped32(multiplied_to(x, y, z)))
}

fn rounded_difference_fails(x: Interval, y: Interval, z: Interval) -> bool
    requires first { IsBox32 x }
    requires second { IsBox16 y }
    requires third { IsBox16 z }
    ensures { TellsWhether result (λ a b c. clamping.leaves32 (clamp32 (a -ℤ clamp32 (pos 2 *ℤ (b *ℤ c))) +ℤ pos 32768)) x y z }
{
    rounding_leaves(clamped32(multiplied_from(x, y, z)))
}

fn leaves_domain(x: Interval, y: Interval) -> bool
    ensures { (z : intervals.Interval) → TellsWhether result (fails_of Op.DivS) x y z }
{
    if x.low < 0 {
        return true;
    }
    if y.low < 1 {
        return true;
    }
    if x.high > y.low {
        return true;
    }
    false
}

/// Whether the operator saturates or leaves its domain at some arguments in the boxes.
pub(crate) fn fails(op: Op, x: Interval, y: Interval, z: Interval) -> bool
    requires { BoxesFit op x y z }
    ensures { TellsWhether result (fails_of op) x y z }
{
    match op {
        Op::Add => sums_leave16(x, y),
        Op::Sub => differences_leave16(x, y),
        Op::AbsS => sizes_leave16(x),
        Op::Negate => opposites_leave16(x),
        Op::Mult => fractions_leave(x, y),
        Op::MultR => rounded_fractions_leave(x, y),
        Op::Shl => lefts_leave16(x, y),
        Op::Shr => rights_leave16(x, y),
        Op::ShrR => rights_leave16(x, y),
        Op::LAdd => sums_leave32(x, y),
        Op::LSub => differences_leave32(x, y),
        Op::LAbs => sizes_leave32(x),
        Op::LNegate => opposites_leave32(x),
        Op::LMult => doubles_leave(x, y),
        Op::LMac => sum_fails(x, y, z),
        Op::LMsu => difference_fails(x, y, z),
        Op::LShl => lefts_leave32(x, y),
        Op::LShr => rights_leave32(x, y),
        Op::LShrR => rights_leave32(x, y),
        Op::ExtractH => false,
        Op::ExtractL => false,
        Op::LDepositH => false,
        Op::LDepositL => false,
        Op::Round => roundings_leave(x),
        Op::MacR => either(sum_fails(x, y, z), rounded_sum_fails(x, y, z)),
        Op::MsuR => either(difference_fails(x, y, z), rounded_difference_fails(x, y, z)),
        Op::NormS => false,
        Op::NormL => false,
        Op::DivS => leaves_domain(x, y),
        Op::SMax => false,
        Op::SMin => false,
        Op::LMax => false,
        Op::LMin => false,
        Op::LMult0 => false,
        Op::LMac0 => products_added_leave(x, y, z),
        Op::LMsu0 => products_taken_leave(x, y, z),
    }
}

fn either(one: bool, other: bool) -> bool
    ensures { result ≡ (one || other) }
{
    one || other
}

// Whether the operator can set the flag at all: it is not quiet, and it can saturate.
fn sets_flag(op: Op) -> bool
    ensures { result ≡ sets_flag_of op }
{
    match op {
        Op::AbsS => false,
        Op::Negate => false,
        Op::LAbs => false,
        Op::LNegate => false,
        Op::DivS => false,
        _ => true,
    }
}

/// Whether the operator sets the flag at some arguments in the boxes.
pub(crate) fn flags(op: Op, x: Interval, y: Interval, z: Interval) -> bool
    requires { BoxesFit op x y z }
    ensures { TellsWhether result (flags_of op) x y z }
{
    if !sets_flag(op) {
        return false;
    }
    fails(op, x, y, z)
}
