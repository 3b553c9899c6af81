// The first operands at which a trial fails.
ghost use Rattle.wm_hull.specs.Boxes.{zero_box};
ghost use Rattle.wm_hull.specs.Ranges.{IsBox32};
ghost use Rattle.wm_program.specs.declared.tree.PlainMark.TheVariants.{Divide};
ghost use Rattle.wm_failing.specs.declared.trial.Trial.TheVariants.{Computes, Negates, Stays};
ghost use Rattle.wm_failing.specs.Trials.{fails_on, box_at, TrialFits, IsFirstOf, IsToldFirst};

use crate::products::first_product;
use crate::trial::Trial;
use wm_hull::worst;
use wm_interval::Interval;
use wm_ops::Op;
use wm_program::PlainMark;

/// The first number of the box that is below `low` or above `high`.
fn first_outside(x: Interval, low: i64, high: i64) -> Option<[i64; 3]>
    ensures { IsFirstOf (fails_on (Stays low high)) x zero_box zero_box result }
{
    if x.low < low {
        return Some([x.low, 0, 0]);
    }
    if x.high <= high {
        return None;
    }
    if x.low > high {
        return Some([x.low, 0, 0]);
    }
    Some([high + 1, 0, 0])
}

/// The one quotient of numbers of 32 bits that is out of them is -2147483648 / -1.
fn first_quotient(x: Interval, y: Interval) -> Option<[i64; 3]>
    requires first { IsBox32 x }
    ensures { IsFirstOf (fails_on (Computes Divide)) x y zero_box result }
{
    if x.low > -2_147_483_648 {
        return None;
    }
    if y.low > -1 {
        return None;
    }
    if y.high < -1 {
        return None;
    }
    Some([-2_147_483_648, -1, 0])
}

/// The first operands at which the plain operation is out of 32 bits.
fn first_computed(mark: PlainMark, x: Interval, y: Interval) -> Option<[i64; 3]>
    requires first { IsBox32 x }
    requires second { IsBox32 y }
    ensures { IsToldFirst (Computes mark) x y zero_box result }
{
    let zero = Interval { low: 0, high: 0 };
    match mark {
        PlainMark::Plus => worst(Op::LAdd, &[x, y, zero]),
        PlainMark::Minus => worst(Op::LSub, &[x, y, zero]),
        PlainMark::Times => first_product(x, y),
        PlainMark::Divide => first_quotient(x, y),
    }
}

/// The first operands in the boxes, in lexicographic order, at which the trial fails, with 0 past its operands; None exactly
/// where there are none. The boxes lie in the types of the operands.
pub fn first_failing(trial: Trial, boxes: &[Interval; 3]) -> Option<[i64; 3]>
    requires types { TrialFits trial (box_at trial boxes.now 0) (box_at trial boxes.now 1) (box_at trial boxes.now 2) }
    ensures first { IsToldFirst trial (box_at trial boxes.now 0) (box_at trial boxes.now 1) (box_at trial boxes.now 2) result }
{
    match trial {
        Trial::Applies(op) => worst(op, boxes),
        Trial::Computes(mark) => first_computed(mark, boxes[0], boxes[1]),
        Trial::Negates => first_negated(boxes[0]),
        Trial::Stays { low, high } => first_outside(boxes[0], low, high),
    }
}

fn first_negated(x: Interval) -> Option<[i64; 3]>
    requires { IsBox32 x }
    ensures { IsFirstOf (fails_on Negates) x zero_box zero_box result }
{
    let zero = Interval { low: 0, high: 0 };
    worst(Op::LNegate, &[x, zero, zero])
}
