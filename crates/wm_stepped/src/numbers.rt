// Arms of the image along an edge: a variable gets a number.
ghost use Rattle.std.specs.Prelude.{◌≡◌, IfOk};
ghost use Rattle.wm_interval.specs.Holds.{Holds};
ghost use Rattle.wm_domain.specs.States.{Keeps};
ghost use Rattle.wm_assign.specs.Giving.{Sets, IsGiven};
ghost use Rattle.wm_plain.specs.Results.{InResults};
ghost use Rattle.wm_cast.specs.Casting.{InCast};
ghost use Rattle.wm_step.specs.Operating.{OperateImage, form_at};
ghost use Rattle.wm_drawn.specs.Fitting.{FormFits, PlainFits, CastFits, RangeFits, OperateFits};
ghost use Rattle.wm_stepped.specs.Allowing.{operation_of};

use crate::computing::computed;
use wm_assign::any;
use wm_carry::Way;
use wm_cast::cast;
use wm_domain::{Domain, Form};
use wm_formed::formed;
use wm_interval::Interval;
use wm_operated::operated;
use wm_ops::{NoMemory, Op};
use wm_program::PlainMark;

// a form's value
#[inline(never)]
pub(crate) fn assign_form<D: Domain>(
    way: &Way,
    at: &D,
    target: u32,
    form: &Form,
) -> Result<D, NoMemory>
    requires fits { FormFits way.now.source.now way.now.target.now target form.now }
    requires shape { D.shape_of at.now ≡ way.now.source.now }
    ensures shape { IfOk result (λ s. D.shape_of s ≡ way.now.target.now) }
    ensures sound { IfOk result (λ s. Keeps D.holds D.shape_of s (Sets way.now.source.now way.now.target.now (D.holds at.now) target (IsGiven (D.holds at.now) form.now))) }
{
    formed(way, at, target, form)
}

// a plain operation's result
#[inline(never)]
pub(crate) fn compute<D: Domain>(
    way: &Way,
    at: &D,
    mark: PlainMark,
    args: &[Form; 2],
    target: u32,
) -> Result<D, NoMemory>
    requires fits { PlainFits way.now.source.now way.now.target.now args.now target }
    requires shape { D.shape_of at.now ≡ way.now.source.now }
    ensures shape { IfOk result (λ s. D.shape_of s ≡ way.now.target.now) }
    ensures sound { IfOk result (λ s. Keeps D.holds D.shape_of s (Sets way.now.source.now way.now.target.now (D.holds at.now) target (λ was z. InResults (D.holds at.now) (operation_of mark) (form_at args.now 0) (form_at args.now 1) z))) }
{
    computed(way, at, mark, args, target)
}

// a form's value, cast to 16 bits
#[inline(never)]
pub(crate) fn cast_form<D: Domain>(
    way: &Way,
    at: &D,
    form: &Form,
    target: u32,
) -> Result<D, NoMemory>
    requires fits { CastFits way.now.source.now way.now.target.now form.now target }
    requires shape { D.shape_of at.now ≡ way.now.source.now }
    ensures shape { IfOk result (λ s. D.shape_of s ≡ way.now.target.now) }
    ensures sound { IfOk result (λ s. Keeps D.holds D.shape_of s (Sets way.now.source.now way.now.target.now (D.holds at.now) target (λ was z. InCast (D.holds at.now) form.now z))) }
{
    cast(way, at, form, target)
}

// any number of a range
#[inline(never)]
pub(crate) fn assign_range<D: Domain>(
    way: &Way,
    at: &D,
    target: u32,
    range: Interval,
) -> Result<D, NoMemory>
    requires fits { RangeFits way.now.source.now way.now.target.now target range }
    requires shape { D.shape_of at.now ≡ way.now.source.now }
    ensures shape { IfOk result (λ s. D.shape_of s ≡ way.now.target.now) }
    ensures sound { IfOk result (λ s. Keeps D.holds D.shape_of s (Sets way.now.source.now way.now.target.now (D.holds at.now) target (λ was z. Holds range z))) }
{
    any(way, at, target, range)
}

// an operator's result and its flag
#[inline(never)]
pub(crate) fn operate<D: Domain>(
    way: &Way,
    at: &D,
    op: Op,
    args: &[Form; 3],
    target: u32,
    overflow: u32,
) -> Result<D, NoMemory>
    requires fits { OperateFits way.now.source.now way.now.target.now args.now target overflow }
    requires shape { D.shape_of at.now ≡ way.now.source.now }
    ensures shape { IfOk result (λ s. D.shape_of s ≡ way.now.target.now) }
    ensures sound { IfOk result (λ s. Keeps D.holds D.shape_of s (OperateImage way.now.source.now way.now.target.now (D.holds at.now) op args.now target overflow)) }
{
    operated(way, at, op, args, target, overflow)
}
