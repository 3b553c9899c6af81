// Intervals of differences.
ghost use Rattle.std.specs.Prelude.{◌≡◌, ◌<◌, ◌<ℤ◌, ◌∷◌, [], negsuc, MatchOption};
ghost use Rattle.wm_interval.specs.declared.Interval as intervals;
ghost use Rattle.wm_hull.specs.Boxes.{BoxesFit, used_box, zero_box};
ghost use Rattle.wm_step.specs.Operating.{IsTurned, IsChange, IsAdded, IsProduct, box_at};
ghost use Rattle.wm_differing.specs.Differing.{IsToldBy, FactorsFit, Joins, told};

use wm_hull::{hull, worst};
use wm_interval::Interval;
use wm_ops::Op;

// the numbers with the other sign, where they are taken away; None where they are too large
fn turned(r: Interval, away: bool) -> Option<Interval>
    ensures { MatchOption result (r.low <ℤ negsuc 4294967295) (IsTurned away r) }
{
    if !away {
        return Some(r);
    }
    if r.low < -4_294_967_296 {
        return None;
    }
    Some(Interval::new(-r.high, -r.low))
}

// the box at a place
fn box_of(boxes: &[Interval; 3], k: usize) -> Interval
    requires { k < 3 }
    ensures { result ≡ box_at boxes.now k }
{
    boxes[k]
}

// the results of an operator of two arguments over the boxes of the second and the third argument
fn product(op: Op, boxes: &[Interval; 3], away: bool) -> Option<Interval>
    requires fit { BoxesFit op (used_box op (box_at boxes.now 1 ∷ box_at boxes.now 2 ∷ zero_box ∷ []) 0) (used_box op (box_at boxes.now 1 ∷ box_at boxes.now 2 ∷ zero_box ∷ []) 1) (used_box op (box_at boxes.now 1 ∷ box_at boxes.now 2 ∷ zero_box ∷ []) 2) }
    ensures { MatchOption result ((d : intervals.Interval) → IsProduct op away boxes.now d → ⊥) (IsProduct op away boxes.now) }
{
    let second = box_of(boxes, 1);
    let third = box_of(boxes, 2);
    let others = [second, third, Interval { low: 0, high: 0 }];
    match hull(op, &others) {
        None => None,
        Some(r) => turned(r, away),
    }
}

// what an operator adds to its first argument
#[derive(Clone, Copy)]
enum Summand {
    /// The second argument.
    Second { away: bool },
    /// The product of the second and the third argument, with doubling.
    Doubled { away: bool },
    /// The product without doubling.
    Plain { away: bool },
}

// what the operator adds; None where it adds nothing to its first argument
fn added_by(op: Op) -> Option<Summand>
    ensures { IsToldBy result op }
{
    match op {
        Op::Add => Some(Summand::Second { away: false }),
        Op::Sub => Some(Summand::Second { away: true }),
        Op::LAdd => Some(Summand::Second { away: false }),
        Op::LSub => Some(Summand::Second { away: true }),
        Op::LMac => Some(Summand::Doubled { away: false }),
        Op::LMsu => Some(Summand::Doubled { away: true }),
        Op::LMac0 => Some(Summand::Plain { away: false }),
        Op::LMsu0 => Some(Summand::Plain { away: true }),
        Op::AbsS => None,
        Op::Negate => None,
        Op::Mult => None,
        Op::MultR => None,
        Op::Shl => None,
        Op::Shr => None,
        Op::ShrR => None,
        Op::LAbs => None,
        Op::LNegate => None,
        Op::LMult => None,
        Op::LShl => None,
        Op::LShr => None,
        Op::LShrR => None,
        Op::ExtractH => None,
        Op::ExtractL => None,
        Op::LDepositH => None,
        Op::LDepositL => None,
        Op::Round => None,
        Op::MacR => None,
        Op::MsuR => None,
        Op::NormS => None,
        Op::NormL => None,
        Op::DivS => None,
        Op::SMax => None,
        Op::SMin => None,
        Op::LMax => None,
        Op::LMin => None,
        Op::LMult0 => None,
    }
}

// the interval of what is added
fn added(what: Summand, boxes: &[Interval; 3]) -> Option<Interval>
    requires fit { FactorsFit what boxes.now }
    ensures { MatchOption result ((d : intervals.Interval) → IsAdded (told what) boxes.now d → ⊥) (IsAdded (told what) boxes.now) }
{
    match what {
        Summand::Second { away } => turned(box_of(boxes, 1), away),
        Summand::Doubled { away } => product(Op::LMult, boxes, away),
        Summand::Plain { away } => product(Op::LMult0, boxes, away),
    }
}

// joined with 0, where the operator saturates somewhere in the boxes
fn joined(op: Op, boxes: &[Interval; 3], d: Interval) -> Interval
    requires fit { BoxesFit op (used_box op boxes.now 0) (used_box op boxes.now 1) (used_box op boxes.now 2) }
    ensures { Joins op boxes.now d result }
{
    match worst(op, boxes) {
        None => d,
        Some(_first) => d.join(Interval { low: 0, high: 0 }),
    }
}

/// The numbers by which the result of an operator over the boxes may differ from its first argument, 0 among them where it
/// saturates somewhere in the boxes. None exactly where the operator adds nothing to its first argument.
pub fn change(op: Op, boxes: &[Interval; 3]) -> Option<Interval>
    requires fit { BoxesFit op (used_box op boxes.now 0) (used_box op boxes.now 1) (used_box op boxes.now 2) }
    ensures exact { MatchOption result ((d : intervals.Interval) → IsChange op boxes.now d → ⊥) (IsChange op boxes.now) }
{
    match added_by(op) {
        None => None,
        Some(what) => match added(what, boxes) {
            None => None,
            Some(d) => Some(joined(op, boxes, d)),
        },
    }
}
