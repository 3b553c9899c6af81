//! The range of an operator, by the row list.

ghost use Rattle.wm_hull.specs.Boxes.{BoxesFit};
ghost use Rattle.wm_hull.specs.Ranges.{IsHull};

use crate::hulls::{
    abs_s, add, extract_h, extract_l, l_abs, l_add, l_deposit_h, l_deposit_l, l_mac, l_mac0, l_max,
    l_min, l_msu, l_msu0, l_mult, l_mult0, l_negate, l_shl, l_shr, l_shr_r, l_sub, mac_r, msu_r,
    mult, mult_r, negate, norm_l, norm_s, round, s_max, s_min, shl, shr, shr_r, sub,
};
use crate::quotients::div_s;
use wm_interval::Interval;
use wm_ops::Op;

/// The least and the greatest result over the three boxes; None where no arguments in them are in the domain.
pub(crate) fn range(op: Op, x: Interval, y: Interval, z: Interval) -> Option<Interval>
    requires { BoxesFit op x y z }
    ensures { IsHull op x y z result }
{
    match op {
        Op::Add => Some(add(x, y)),
        Op::Sub => Some(sub(x, y)),
        Op::AbsS => Some(abs_s(x)),
        Op::Negate => Some(negate(x)),
        Op::Mult => Some(mult(x, y)),
        Op::MultR => Some(mult_r(x, y)),
        Op::Shl => Some(shl(x, y)),
        Op::Shr => Some(shr(x, y)),
        Op::ShrR => Some(shr_r(x, y)),
        Op::LAdd => Some(l_add(x, y)),
        Op::LSub => Some(l_sub(x, y)),
        Op::LAbs => Some(l_abs(x)),
        Op::LNegate => Some(l_negate(x)),
        Op::LMult => Some(l_mult(x, y)),
        Op::LMac => Some(l_mac(x, y, z)),
        Op::LMsu => Some(l_msu(x, y, z)),
        Op::LShl => Some(l_shl(x, y)),
        Op::LShr => Some(l_shr(x, y)),
        Op::LShrR => Some(l_shr_r(x, y)),
        Op::ExtractH => Some(extract_h(x)),
        Op::ExtractL => Some(extract_l(x)),
        Op::LDepositH => Some(l_deposit_h(x)),
        Op::LDepositL => Some(l_deposit_l(x)),
        Op::Round => Some(round(x)),
        Op::MacR => Some(mac_r(x, y, z)),
        Op::MsuR => Some(msu_r(x, y, z)),
        Op::NormS => Some(norm_s(x)),
        Op::NormL => Some(norm_l(x)),
        Op::DivS => div_s(x, y),
        Op::SMax => Some(s_max(x, y)),
        Op::SMin => Some(s_min(x, y)),
        Op::LMax => Some(l_max(x, y)),
        Op::LMin => Some(l_min(x, y)),
        Op::LMult0 => Some(l_mult0(x, y)),
        Op::LMac0 => Some(l_mac0(x, y, z)),
        Op::LMsu0 => Some(l_msu0(x, y, z)),
    }
}
