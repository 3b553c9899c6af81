//! Exact ranges of the operators over boxes of arguments: the least and the greatest result, the first argument at
//! which an operator fails, and whether one sets the flag. No call takes memory, and none goes through its boxes.
#![tactic(auto)]

ghost use Rattle.std.specs.Prelude.{◌≡◌, ◌<◌};
ghost use Rattle.wm_ops.specs.Outcomes.{flags_of};
ghost use Rattle.wm_hull.specs.Boxes.{BoxesFit, used_box};
ghost use Rattle.wm_hull.specs.Failures.{IsWorst, TellsWhether};
ghost use Rattle.wm_hull.specs.Ranges.{IsHull};

mod failures;
mod first;
mod hulls;
mod overflows;
mod parts;
mod products;
mod quotients;
mod ranges;
mod shifts;
mod sums;
mod table;

use wm_interval::Interval;
use wm_ops::{Op, arity};

/// The least and the greatest result of the operator over all arguments in the boxes and in its domain; None exactly
/// where no argument in the boxes is in the domain. The boxes that the operator uses lie in its argument types; the
/// others may be any.
pub fn hull(op: Op, boxes: &[Interval; 3]) -> Option<Interval>
    requires { BoxesFit op (used_box op boxes.now 0) (used_box op boxes.now 1) (used_box op boxes.now 2) }
    ensures range { IsHull op (used_box op boxes.now 0) (used_box op boxes.now 1) (used_box op boxes.now 2) result }
{
    let x = used(op, boxes, 0);
    let y = used(op, boxes, 1);
    let z = used(op, boxes, 2);
    table::range(op, x, y, z)
}

/// The first argument in the boxes, in lexicographic order, at which the operator saturates or leaves its domain, with
/// 0 in the places that it does not use; None exactly where there is none. The boxes that the operator uses lie in
/// its argument types; the others may be any.
pub fn worst(op: Op, boxes: &[Interval; 3]) -> Option<[i64; 3]>
    requires { BoxesFit op (used_box op boxes.now 0) (used_box op boxes.now 1) (used_box op boxes.now 2) }
    ensures first { IsWorst op (used_box op boxes.now 0) (used_box op boxes.now 1) (used_box op boxes.now 2) result }
{
    let x = used(op, boxes, 0);
    let y = used(op, boxes, 1);
    let z = used(op, boxes, 2);
    first::first_failure(op, x, y, z)
}

/// Whether the operator sets the flag at some argument in the boxes. The boxes that the operator uses lie in its
/// argument types; the others may be any.
pub fn flags(op: Op, boxes: &[Interval; 3]) -> bool
    requires { BoxesFit op (used_box op boxes.now 0) (used_box op boxes.now 1) (used_box op boxes.now 2) }
    ensures somewhere { TellsWhether result (flags_of op) (used_box op boxes.now 0) (used_box op boxes.now 1) (used_box op boxes.now 2) }
{
    let x = used(op, boxes, 0);
    let y = used(op, boxes, 1);
    let z = used(op, boxes, 2);
    failures::flags(op, x, y, z)
}

// The box of the argument k where the operator uses it, and 0..0 where it does not.
fn used(op: Op, boxes: &[Interval; 3], k: usize) -> Interval
    requires { k < 3 }
    ensures { result ≡ used_box op boxes.now k }
{
    if k < arity(op) {
        return boxes[k];
    }
    Interval { low: 0, high: 0 }
}
