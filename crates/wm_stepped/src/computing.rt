// Plain operations.
ghost use Rattle.std.specs.Prelude.{◌≡◌, ◌<◌, ℕ, ℤ, IfOk};
ghost use Rattle.wm_domain.specs.Points.{Point};
ghost use Rattle.wm_domain.specs.Forms.{IsForm};
ghost use Rattle.wm_domain.specs.States.{count_of, Keeps};
ghost use Rattle.wm_domain.specs.declared.shape.Shape.{Shape};
ghost use Rattle.wm_carry.specs.Following.{IsWay};
ghost use Rattle.wm_assign.specs.Allowing.{Allowed, IsFit};
ghost use Rattle.wm_assign.specs.Giving.{Sets};
ghost use Rattle.wm_plain.specs.Results.{InResults};
ghost use Rattle.wm_step.specs.Operating.{form_at};
ghost use Rattle.wm_stepped.specs.Allowing.{operation_of};

use wm_assign::{Value, set};
use wm_carry::Way;
use wm_domain::{Domain, Form};
use wm_ops::NoMemory;
use wm_plain::{difference, product, sum};
use wm_program::PlainMark;
use wm_quotient::quotient;

// the results of the operation on numbers of the two forms
fn results<D: Domain>(at: &D, mark: PlainMark, f: &Form, g: &Form) -> Option<Value>
    requires first { IsForm (count_of (D.shape_of at.now)) f.now }
    requires second { IsForm (count_of (D.shape_of at.now)) g.now }
    ensures allowed { (was : Point) (z : ℤ) → InResults (D.holds at.now) (operation_of mark) f.now g.now z → Allowed result was z }
    ensures fit { (s t : Shape) (v : ℕ) → IsFit s t v result }
{
    match mark {
        PlainMark::Plus => sum(at, f, g),
        PlainMark::Minus => difference(at, f, g),
        PlainMark::Times => product(at, f, g),
        PlainMark::Divide => quotient(at, f, g),
    }
}

/// The target gets any number of 32 bits that the operation can give. `NoMemory`: memory ran out.
pub(crate) fn computed<D: Domain>(
    way: &Way,
    at: &D,
    mark: PlainMark,
    args: &[Form; 2],
    target: u32,
) -> Result<D, NoMemory>
    requires way { IsWay way.now.source.now way.now.target.now }
    requires shape { D.shape_of at.now ≡ way.now.source.now }
    requires inside { target < count_of way.now.target.now }
    requires first { IsForm (count_of way.now.source.now) (form_at args.now 0) }
    requires second { IsForm (count_of way.now.source.now) (form_at args.now 1) }
    ensures shape { IfOk result (λ s. D.shape_of s ≡ way.now.target.now) }
    ensures sound { IfOk result (λ s. Keeps D.holds D.shape_of s (Sets way.now.source.now way.now.target.now (D.holds at.now) target (λ was z. InResults (D.holds at.now) (operation_of mark) (form_at args.now 0) (form_at args.now 1) z))) }
{
    let value = results(at, mark, &args[0], &args[1]);
    let state = set(way, at, target, value)?;
    Ok(state)
}
