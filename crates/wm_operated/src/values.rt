// The numbers that the result of an operator may be.
ghost use Rattle.std.specs.Prelude.{◌≡◌, ◌<◌, ◌↔◌, ◌-ℤ◌, ℕ, ℤ, All, IfOk, MatchOption};
ghost use Rattle.wm_numbers.specs.Within.{IsWord32};
ghost use Rattle.wm_hull.specs.Boxes.{BoxesFit, used_box};
ghost use Rattle.wm_interval.specs.Holds.{Holds};
ghost use Rattle.wm_domain.specs.declared.shape.Shape.{Shape};
ghost use Rattle.wm_domain.specs.Points.{Point};
ghost use Rattle.wm_domain.specs.Forms.{IsForm};
ghost use Rattle.wm_domain.specs.States.{count_of, IsSized};
ghost use Rattle.wm_assign.specs.Allowing.{Allowed, IsFit};
ghost use Rattle.wm_assign.specs.Giving.{IsSeen};
ghost use Rattle.wm_step.specs.Operating.{AreBoxes, IsOperated, IsResult};
ghost use Rattle.wm_operated.specs.Differences.{DiffersFrom, Differs, HasWord, IsSeenBy};

use crate::sums::{variable_of, with_sum};
use std::alloc::Global;
use wm_assign::Value;
use wm_differing::change;
use wm_domain::{Domain, Form};
use wm_hull::hull;
use wm_interval::Interval;
use wm_ops::{NoMemory, Op};

// the part of a range that has 32 bits
fn words(r: Interval) -> Option<Interval>
    ensures exact { (z : ℤ) → IsWord32 z → IsResult result z ↔ Holds r z }
    ensures small { MatchOption result (Unit {0}) IsSized }
{
    r.meet(Interval::new(-2147483648, 2147483647))
}

// the part of a range in which differences of two numbers of 32 bits lie
fn differences(d: Interval) -> Option<Interval>
    ensures exact { (z x : ℤ) → IsWord32 z → IsWord32 x → IsResult result (z -ℤ x) ↔ Holds d (z -ℤ x) }
    ensures small { MatchOption result (Unit {0}) IsSized }
{
    d.meet(Interval::new(-4294967295, 4294967295))
}

// the numbers of the range that differ from a variable by what the operator adds to it
fn near(op: Op, boxes: &[Interval; 3], from: u32, range: Interval) -> Option<Value>
    requires fit { BoxesFit op (used_box op boxes.now 0) (used_box op boxes.now 1) (used_box op boxes.now 2) }
    requires range { IsSized range }
    ensures exact { (was : Point) (z : ℤ) → IsWord32 z → IsWord32 (was.values from) → Allowed result was z ↔ (Holds range z × DiffersFrom op boxes.now (was.values from) z) }
    ensures fit { (s t : Shape) (v : ℕ) → from < count_of s → IsSeen s t v from → IsFit s t v result }
{
    match change(op, boxes) {
        None => Some(Value::Any(range)),
        Some(d) => match differences(d) {
            None => None,
            Some(difference) => Some(Value::Near {
                from,
                difference,
                range,
            }),
        },
    }
}

// the numbers of the range, which differ from the first argument by what is added, where that is a variable
fn beside(op: Op, args: &[Form; 3], boxes: &[Interval; 3], range: Interval) -> Option<Value>
    requires fit { BoxesFit op (used_box op boxes.now 0) (used_box op boxes.now 1) (used_box op boxes.now 2) }
    ensures exact { (was : Point) (z : ℤ) → IsWord32 z → HasWord args.now was → Allowed result was z ↔ (Holds range z × Differs op args.now boxes.now was z) }
    ensures fit { (s t : Shape) (v : ℕ) → IsSeenBy s t v args.now → IsFit s t v result }
{
    match words(range) {
        None => None,
        Some(part) => match variable_of(&args[0]) {
            None => Some(Value::Any(part)),
            Some(from) => near(op, boxes, from, part),
        },
    }
}

/// The numbers that the result may be, by the boxes of the arguments. `NoMemory`: memory ran out.
pub fn value_of<D: Domain>(
    alloc: Global,
    at: &D,
    op: Op,
    args: &[Form; 3],
    boxes: &[Interval; 3],
) -> Result<Option<Value>, NoMemory>
    requires fit { BoxesFit op (used_box op boxes.now 0) (used_box op boxes.now 1) (used_box op boxes.now 2) }
    requires forms { All (IsForm (count_of (D.shape_of at.now))) args.now }
    requires boxes { AreBoxes (D.holds at.now) op args.now boxes.now }
    ensures exact { IfOk result (λ value. (was : Point) (z : ℤ) → D.holds at.now was → IsWord32 z → HasWord args.now was → Allowed value was z ↔ IsOperated (D.holds at.now) op args.now was z) }
    ensures fit { IfOk result (λ value. (s t : Shape) (v : ℕ) → IsSeenBy s t v args.now → IsFit s t v value) }
{
    match hull(op, boxes) {
        None => Ok(None),
        Some(range) => {
            let part = with_sum(alloc, at, op, args, range)?;
            match part {
                None => Ok(None),
                Some(r) => Ok(beside(op, args, boxes, r)),
            }
        }
    }
}
