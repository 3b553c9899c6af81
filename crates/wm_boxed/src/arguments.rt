// The boxes of arguments.
ghost use Rattle.std.specs.Prelude.{◌↔◌, ℤ, All, Some};
ghost use Rattle.wm_interval.specs.Holds.{Holds};
ghost use Rattle.wm_ops.specs.Arguments.{HasWidth};
ghost use Rattle.wm_domain.specs.Forms.{IsForm};
ghost use Rattle.wm_domain.specs.States.{count_of};
ghost use Rattle.wm_step.specs.Operating.{form_at};
ghost use Rattle.wm_boxed.specs.Boxing.{IsArgumentBox, AreBoxesOf};

use wm_domain::{Domain, Form};
use wm_given::cut;
use wm_interval::Interval;
use wm_ops::{Op, Width, arg_width, arity};

// the numbers of a width
fn numbers_of(width: Width) -> Interval
    ensures numbers { (z : ℤ) → Holds result z ↔ HasWidth width z }
{
    match width {
        Width::W16 => Interval::new(-32768, 32767),
        Width::W32 => Interval::new(-2147483648, 2147483647),
    }
}

/// The numbers of the argument's type between two values of the form, None where there are none; 0 alone past the
/// operator's arguments.
pub fn argument_box<D: Domain>(at: &D, op: Op, k: usize, f: &Form) -> Option<Interval>
    requires form { IsForm (count_of (D.shape_of at.now)) f.now }
    ensures exact { IsArgumentBox (D.holds at.now) op k f.now result }
{
    if k < arity(op) {
        let all = numbers_of(arg_width(op, k));
        return cut(at, f, all);
    }
    Some(Interval::new(0, 0))
}

// the three boxes, of which two are given
#[tactic(auto, using(crate::proofs::Cut::all_boxes, crate::proofs::Cut::third_missing))]
fn with_third<D: Domain>(
    at: &D,
    op: Op,
    args: &[Form; 3],
    x: Interval,
    y: Interval,
) -> Option<[Interval; 3]>
    requires forms { All (IsForm (count_of (D.shape_of at.now))) args.now }
    requires first { IsArgumentBox (D.holds at.now) op 0 (form_at args.now 0) (Some x) }
    requires second { IsArgumentBox (D.holds at.now) op 1 (form_at args.now 1) (Some y) }
    ensures exact { AreBoxesOf (D.holds at.now) op args.now result }
{
    match argument_box(at, op, 2, &args[2]) {
        None => None,
        Some(z) => Some([x, y, z]),
    }
}

/// The boxes of all arguments; None where one of them has no number.
pub fn boxes<D: Domain>(at: &D, op: Op, args: &[Form; 3]) -> Option<[Interval; 3]>
    requires forms { All (IsForm (count_of (D.shape_of at.now))) args.now }
    ensures exact { AreBoxesOf (D.holds at.now) op args.now result }
{
    match argument_box(at, op, 0, &args[0]) {
        None => None,
        Some(x) => match argument_box(at, op, 1, &args[1]) {
            None => None,
            Some(y) => with_third(at, op, args, x, y),
        },
    }
}
