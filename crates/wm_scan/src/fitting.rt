//! Tests that numbers and boxes lie in the argument types of an operator.

ghost use Rattle.std.specs.Prelude.{IsTrue, [], ◌∷◌};
ghost use Rattle.wm_ops.specs.Arguments.{FitsAt};
ghost use Rattle.wm_hull.specs.Boxes.{BoxesFit, used_box};

use wm_interval::Interval;
use wm_ops::{Op, Outcome, Width, apply, arg_width, arity};

/// Whether the number may be the operator's argument k.
fn fits(op: Op, k: usize, z: i64) -> bool
    ensures { IsTrue result → FitsAt op k z }
{
    if k >= arity(op) {
        return true;
    }
    match arg_width(op, k) {
        Width::W16 => -32768 <= z && z <= 32767,
        Width::W32 => -2147483648 <= z && z <= 2147483647,
    }
}

/// The operator at these arguments; None where one of them is not of its type.
pub(crate) fn applied(op: Op, a: i64, b: i64, c: i64) -> Option<Outcome> {
    if !fits(op, 0, a) {
        return None;
    }
    if !fits(op, 1, b) {
        return None;
    }
    if !fits(op, 2, c) {
        return None;
    }
    Some(apply(op, &[a, b, c]))
}

/// Whether three boxes lie in the argument types.
pub(crate) fn boxes_fit(op: Op, x: Interval, y: Interval, z: Interval) -> bool
    ensures { IsTrue result → BoxesFit op (used_box op (x ∷ y ∷ z ∷ []) 0) (used_box op (x ∷ y ∷ z ∷ []) 1) (used_box op (x ∷ y ∷ z ∷ []) 2) }
{
    if !fits(op, 0, x.low) {
        return false;
    }
    if !fits(op, 1, y.low) {
        return false;
    }
    if !fits(op, 2, z.low) {
        return false;
    }
    if !fits(op, 0, x.high) {
        return false;
    }
    if !fits(op, 1, y.high) {
        return false;
    }
    if !fits(op, 2, z.high) {
        return false;
    }
    true
}
