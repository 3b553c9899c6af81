//! The exact range of each operator over boxes in its argument types.

ghost use Rattle.wm_interval.specs.Holds.{IsHullOf};
ghost use Rattle.wm_interval.specs.declared.Interval as intervals;
ghost use Rattle.wm_hull.specs.Ranges.{IsBox16, IsBox32, Result};

use crate::parts::{lower_halves, norms};
use crate::products::{
    doubled, fractions, multiplied_from, multiplied_to, products, rounded, rounded_fractions,
};
use crate::ranges::{clamped16, clamped32, floored, negated, scaled};
use crate::shifts::{lefts, rights};
use crate::sums::{greater, lesser, sizes};
use wm_interval::Interval;
use wm_ops::Op;

pub(crate) fn add(x: Interval, y: Interval) -> Interval
    requires first { IsBox16 x }
    requires second { IsBox16 y }
    ensures { (z : intervals.Interval) → IsHullOf (Result Op.Add x y z) result }
{
    clamped16(x.add(y))
}

pub(crate) fn sub(x: Interval, y: Interval) -> Interval
    requires first { IsBox16 x }
    requires second { IsBox16 y }
    ensures { (z : intervals.Interval) → IsHullOf (Result Op.Sub x y z) result }
{
    clamped16(x.sub(y))
}

pub(crate) fn abs_s(x: Interval) -> Interval
    requires { IsBox16 x }
    ensures { (y z : intervals.Interval) → IsHullOf (Result Op.AbsS x y z) result }
{
    clamped16(sizes(x))
}

pub(crate) fn negate(x: Interval) -> Interval
    requires { IsBox16 x }
    ensures { (y z : intervals.Interval) → IsHullOf (Result Op.Negate x y z) result }
{
    clamped16(negated(x))
}

pub(crate) fn mult(x: Interval, y: Interval) -> Interval
    requires first { IsBox16 x }
    requires second { IsBox16 y }
    ensures { (z : intervals.Interval) → IsHullOf (Result Op.Mult x y z) result }
{
    clamped16(fractions(x, y))
}

pub(crate) fn mult_r(x: Interval, y: Interval) -> Interval
    requires first { IsBox16 x }
    requires second { IsBox16 y }
    ensures { (z : intervals.Interval) → IsHullOf (Result Op.MultR x y z) result }
{
    clamped16(rounded_fractions(x, y))
}

pub(crate) fn shl(x: Interval, y: Interval) -> Interval
    requires first { IsBox16 x }
    requires second { IsBox16 y }
    ensures { (z : intervals.Interval) → IsHullOf (Result Op.Shl x y z) result }
{
    lefts(Op::Shl, x, y)
}

pub(crate) fn shr(x: Interval, y: Interval) -> Interval
    requires first { IsBox16 x }
    requires second { IsBox16 y }
    ensures { (z : intervals.Interval) → IsHullOf (Result Op.Shr x y z) result }
{
    rights(Op::Shr, x, y)
}

pub(crate) fn shr_r(x: Interval, y: Interval) -> Interval
    requires first { IsBox16 x }
    requires second { IsBox16 y }
    ensures { (z : intervals.Interval) → IsHullOf (Result Op.ShrR x y z) result }
{
    rights(Op::ShrR, x, y)
}

pub(crate) fn l_add(x: Interval, y: Interval) -> Interval
    requires first { IsBox32 x }
    requires second { IsBox32 y }
    ensures { (z : intervals.Interval) → IsHullOf (Result Op.LAdd x y z) result }
{
    clamped32(x.add(y))
}

pub(crate) fn l_sub(x: Interval, y: Interval) -> Interval
    requires first { IsBox32 x }
    requires second { IsBox32 y }
    ensures { (z : intervals.Interval) → IsHullOf (Result Op.LSub x y z) result }
{
    clamped32(x.sub(y))
}

pub(crate) fn l_abs(x: Interval) -> Interval
    requires { IsBox32 x }
    ensures { (y z : intervals.Interval) → IsHullOf (Result Op.LAbs x y z) result }
{
    clamped32(sizes(x))
}

pub(crate) fn l_negate(x: Interval) -> Interval
    requires { IsBox32 x }
    ensures { (y z : intervals.Interval) → IsHullOf (Result Op.LNegate x y z) result }
{
    clamped32(negated(x))
}

pub(crate) fn l_mult(x: Interval, y: Interval) -> Interval
    requires first { IsBox16 x }
    requires second { IsBox16 y }
    ensures { (z : intervals.Interval) → IsHullOf (Result Op.LMult x y z) result }
{
    clamped32(doubled(x, y))
}

pub(crate) fn l_mac(x: Interval, y: Interval, z: Interval) -> Interval
    requires first { IsBox32 x }
    requires second { IsBox16 y }
    requires third { IsBox16 z }
    ensures { IsHullOf (Result Op.LMac x y z) result }
{
    clamped32(multiplied_to(x, y, z))
}

pub(crate) fn l_msu(x: Interval, y: Interval, z: Interval) -> Interval
    requires first { IsBox32 x }
    requires second { IsBox16 y }
    requires third { IsBox16 z }
    ensures { IsHullOf (Result Op.LMsu x y z) result }
{
    clamped32(multiplied_from(x, y, z))
}

pub(crate) fn l_shl(x: Interval, y: Interval) -> Interval
    requires first { IsBox32 x }
    requires second { IsBox16 y }
    ensures { (z : intervals.Interval) → IsHullOf (Result Op.LShl x y z) result }
{
    lefts(Op::LShl, x, y)
}

pub(crate) fn l_shr(x: Interval, y: Interval) -> Interval
    requires first { IsBox32 x }
    requires second { IsBox16 y }
    ensures { (z : intervals.Interval) → IsHullOf (Result Op.LShr x y z) result }
{
    rights(Op::LShr, x, y)
}

pub(crate) fn l_shr_r(x: Interval, y: Interval) -> Interval
    requires first { IsBox32 x }
    requires second { IsBox16 y }
    ensures { (z : intervals.Interval) → IsHullOf (Result Op.LShrR x y z) result }
{
    rights(Op::LShrR, x, y)
}

pub(crate) fn extract_h(x: Interval) -> Interval
    requires { IsBox32 x }
    ensures { (y z : intervals.Interval) → IsHullOf (Result Op.ExtractH x y z) result }
{
    floored(x, 16)
}

pub(crate) fn extract_l(x: Interval) -> Interval
    requires { IsBox32 x }
    ensures { (y z : intervals.Interval) → IsHullOf (Result Op.ExtractL x y z) result }
{
    lower_halves(x)
}

pub(crate) fn l_deposit_h(x: Interval) -> Interval
    requires { IsBox16 x }
    ensures { (y z : intervals.Interval) → IsHullOf (Result Op.LDepositH x y z) result }
{
    scaled(x, 65536)
}

pub(crate) fn l_deposit_l(x: Interval) -> Interval
    requires { IsBox16 x }
    ensures { (y z : intervals.Interval) → IsHullOf (Result Op.LDepositL x y z) result }
{
    x
}

pub(crate) fn round(x: Interval) -> Interval
    requires { IsBox32 x }
    ensures { (y z : intervals.Interval) → IsHullOf (Result Op.Round x y z) result }
{
    rounded(x)
}

pub(crate) fn mac_r(x: Interval, y: Interval, z: Interval) -> Interval
    requires first { IsBox32 x }
    requires second { IsBox16 y }
    requires third { IsBox16 z }
    ensures { IsHullOf (Result Op.MacR x y z) result }
{
    rounded(clamped32(multiplied_to(x, y, z)))
}

pub(crate) fn msu_r(x: Interval, y: Interval, z: Interval) -> Interval
    requires first { IsBox32 x }
    requires second { IsBox16 y }
    requires third { IsBox16 z }
    ensures { IsHullOf (Result Op.MsuR x y z) result }
{
    rounded(clamped32(multiplied_from(x, y, z)))
}

pub(crate) fn norm_s(x: Interval) -> Interval
    requires { IsBox16 x }
    ensures { (y z : intervals.Interval) → IsHullOf (Result Op.NormS x y z) result }
{
    norms(Op::NormS, x)
}

pub(crate) fn norm_l(x: Interval) -> Interval
    requires { IsBox32 x }
    ensures { (y z : intervals.Interval) → IsHullOf (Result Op.NormL x y z) result }
{
    norms(Op::NormL, x)
}

pub(crate) fn s_max(x: Interval, y: Interval) -> Interval
    requires first { IsBox16 x }
    requires second { IsBox16 y }
    ensures { (z : intervals.Interval) → IsHullOf (Result Op.SMax x y z) result }
{
    greater(x, y)
}

pub(crate) fn s_min(x: Interval, y: Interval) -> Interval
    requires first { IsBox16 x }
    requires second { IsBox16 y }
    ensures { (z : intervals.Interval) → IsHullOf (Result Op.SMin x y z) result }
{
    lesser(x, y)
}

pub(crate) fn l_max(x: Interval, y: Interval) -> Interval
    requires first { IsBox32 x }
    requires second { IsBox32 y }
    ensures { (z : intervals.Interval) → IsHullOf (Result Op.LMax x y z) result }
{
    greater(x, y)
}

pub(crate) fn l_min(x: Interval, y: Interval) -> Interval
    requires first { IsBox32 x }
    requires second { IsBox32 y }
    ensures { (z : intervals.Interval) → IsHullOf (Result Op.LMin x y z) result }
{
    lesser(x, y)
}

pub(crate) fn l_mult0(x: Interval, y: Interval) -> Interval
    requires first { IsBox16 x }
    requires second { IsBox16 y }
    ensures { (z : intervals.Interval) → IsHullOf (Result Op.LMult0 x y z) result }
{
    products(x, y)
}

pub(crate) fn l_mac0(x: Interval, y: Interval, z: Interval) -> Interval
    requires first { IsBox32 x }
    requires second { IsBox16 y }
    requires third { IsBox16 z }
    ensures { IsHullOf (Result Op.LMac0 x y z) result }
{
    clamped32(x.add(products(y, z)))
}

pub(crate) fn l_msu0(x: Interval, y: Interval, z: Interval) -> Interval
    requires first { IsBox32 x }
    requires second { IsBox16 y }
    requires third { IsBox16 z }
    ensures { IsHullOf (Result Op.LMsu0 x y z) result }
{
    clamped32(x.sub(products(y, z)))
}
