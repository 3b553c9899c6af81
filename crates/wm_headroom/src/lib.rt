//! How far the operands of an operator have to be shifted to the right so that it no longer fails over its boxes.
#![tactic(auto)]

ghost use Rattle.std.specs.Prelude.{◌≡◌, ◌<◌};
ghost use Rattle.wm_hull.specs.Boxes.{BoxesFit, used_box};
ghost use Rattle.wm_headroom.specs.Headroom as rooms;

use wm_hull::worst;
use wm_interval::Interval;
use wm_numbers::floor_shift;
use wm_ops::Op;

/// The least number of places, from 0 to 31, by which the operands have to be shifted to the right so that the operator
/// neither saturates nor leaves its domain at any arguments in the boxes; None exactly where no such number does.
/// Shifted are all operands, but for these: of products without a sum and of shifts the first alone, of a sum and a
/// product the first two, of `div_s` none. The boxes that the operator uses lie in its argument types; the others may be
/// any. No call takes memory.
pub fn headroom(op: Op, boxes: &[Interval; 3]) -> Option<u32>
    requires { BoxesFit op (used_box op boxes.now 0) (used_box op boxes.now 1) (used_box op boxes.now 2) }
    ensures least { rooms.IsHeadroom op boxes.now result }
{
    for places in 0..32 {
        if passes(op, boxes, places) {
            return Some(places);
        }
    }
    None
}

// Whether the operator fails nowhere in the boxes when its operands are shifted by so many places.
fn passes(op: Op, boxes: &[Interval; 3], places: u32) -> bool
    requires places { places < 32 }
    requires types { BoxesFit op (used_box op boxes.now 0) (used_box op boxes.now 1) (used_box op boxes.now 2) }
    ensures { rooms.TellsPassing result op boxes.now places }
{
    let [x, y, z] = *boxes;
    let first = operand(op, 0, x, places);
    let second = operand(op, 1, y, places);
    let third = operand(op, 2, z, places);
    worst(op, &[first, second, third]).is_none()
}

// The operand k, shifted where it is one of those that are.
fn operand(op: Op, k: usize, x: Interval, places: u32) -> Interval
    requires { places < 32 }
    ensures { result ≡ rooms.operand_of op k x places }
{
    if k < shifted_operands(op) {
        return shifted(x, places);
    }
    x
}

fn shifted(x: Interval, places: u32) -> Interval
    requires { places < 32 }
    ensures { result ≡ rooms.shifted_box x places }
{
    Interval {
        low: floor_shift(x.low, places),
        high: floor_shift(x.high, places),
    }
}

// How many operands, from the first, are shifted.
fn shifted_operands(op: Op) -> usize
    ensures { result ≡ rooms.shifted_operands op }
{
    match op {
        Op::Add => 2,
        Op::Sub => 2,
        Op::AbsS => 1,
        Op::Negate => 1,
        Op::Mult => 1,
        Op::MultR => 1,
        Op::Shl => 1,
        Op::Shr => 1,
        Op::ShrR => 1,
        Op::LAdd => 2,
        Op::LSub => 2,
        Op::LAbs => 1,
        Op::LNegate => 1,
        Op::LMult => 1,
        Op::LMac => 2,
        Op::LMsu => 2,
        Op::LShl => 1,
        Op::LShr => 1,
        Op::LShrR => 1,
        Op::ExtractH => 1,
        Op::ExtractL => 1,
        Op::LDepositH => 1,
        Op::LDepositL => 1,
        Op::Round => 1,
        Op::MacR => 2,
        Op::MsuR => 2,
        Op::NormS => 1,
        Op::NormL => 1,
        Op::DivS => 0,
        Op::SMax => 2,
        Op::SMin => 2,
        Op::LMax => 2,
        Op::LMin => 2,
        Op::LMult0 => 1,
        Op::LMac0 => 2,
        Op::LMsu0 => 2,
    }
}
