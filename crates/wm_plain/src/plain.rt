// The numbers that plain operations give.
ghost use Rattle.std.specs.Prelude.{◌≡◌, ◌<◌, ◌+ℤ◌, ◌-ℤ◌, ◌*ℤ◌, ℕ, ℤ};
ghost use Rattle.wm_numbers.specs.Within.{IsWord32};
ghost use Rattle.wm_interval.specs.Holds.{Holds};
ghost use Rattle.wm_domain.specs.Points.{Point};
ghost use Rattle.wm_domain.specs.Forms.{IsForm};
ghost use Rattle.wm_domain.specs.States.{count_of};
ghost use Rattle.wm_domain.specs.declared.shape.Shape.{Shape};
ghost use Rattle.wm_assign.specs.Allowing.{Allowed, IsFit};
ghost use Rattle.wm_plain.specs.Results.{InResults, IsOperand};

use wm_assign::Value;
use wm_domain::{Domain, Form};
use wm_given::cut;
use wm_interval::Interval;

/// The numbers of 32 bits between two values of the form; None where there are none.
pub fn operand<D: Domain>(at: &D, f: &Form) -> Option<Interval>
    requires form { IsForm (count_of (D.shape_of at.now)) f.now }
    ensures operand { IsOperand (D.holds at.now) f.now result }
{
    let all = Interval::new(-2147483648, 2147483647);
    cut(at, f, all)
}

/// The numbers of 32 bits of the interval; None where there are none.
pub fn kept(results: Interval) -> Option<Value>
    ensures allowed { (was : Point) (z : ℤ) → Holds results z → IsWord32 z → Allowed result was z }
    ensures made { (was : Point) (z : ℤ) → Allowed result was z → Holds results z × IsWord32 z }
    ensures fit { (s t : Shape) (v : ℕ) → IsFit s t v result }
{
    let all = Interval::new(-2147483648, 2147483647);
    match results.meet(all) {
        None => None,
        Some(r) => Some(Value::Any(r)),
    }
}

/// The sums of a number of each form, both of 32 bits, that have 32 bits.
pub fn sum<D: Domain>(at: &D, f: &Form, g: &Form) -> Option<Value>
    requires first { IsForm (count_of (D.shape_of at.now)) f.now }
    requires second { IsForm (count_of (D.shape_of at.now)) g.now }
    ensures allowed { (was : Point) (z : ℤ) → InResults (D.holds at.now) ◌+ℤ◌ f.now g.now z → Allowed result was z }
    ensures made { (was : Point) (z : ℤ) → Allowed result was z → InResults (D.holds at.now) ◌+ℤ◌ f.now g.now z }
    ensures fit { (s t : Shape) (v : ℕ) → IsFit s t v result }
{
    match operand(at, f) {
        None => None,
        Some(x) => match operand(at, g) {
            None => None,
            Some(y) => kept(x.add(y)),
        },
    }
}

/// The differences of a number of each form, both of 32 bits, that have 32 bits.
pub fn difference<D: Domain>(at: &D, f: &Form, g: &Form) -> Option<Value>
    requires first { IsForm (count_of (D.shape_of at.now)) f.now }
    requires second { IsForm (count_of (D.shape_of at.now)) g.now }
    ensures allowed { (was : Point) (z : ℤ) → InResults (D.holds at.now) ◌-ℤ◌ f.now g.now z → Allowed result was z }
    ensures made { (was : Point) (z : ℤ) → Allowed result was z → InResults (D.holds at.now) ◌-ℤ◌ f.now g.now z }
    ensures fit { (s t : Shape) (v : ℕ) → IsFit s t v result }
{
    match operand(at, f) {
        None => None,
        Some(x) => match operand(at, g) {
            None => None,
            Some(y) => kept(x.sub(y)),
        },
    }
}

/// The products of a number of each form, both of 32 bits, that have 32 bits.
pub fn product<D: Domain>(at: &D, f: &Form, g: &Form) -> Option<Value>
    requires first { IsForm (count_of (D.shape_of at.now)) f.now }
    requires second { IsForm (count_of (D.shape_of at.now)) g.now }
    ensures allowed { (was : Point) (z : ℤ) → InResults (D.holds at.now) ◌*ℤ◌ f.now g.now z → Allowed result was z }
    ensures made { (was : Point) (z : ℤ) → Allowed result was z → InResults (D.holds at.now) ◌*ℤ◌ f.now g.now z }
    ensures fit { (s t : Shape) (v : ℕ) → IsFit s t v result }
{
    match operand(at, f) {
        None => None,
        Some(x) => match operand(at, g) {
            None => None,
            Some(y) => kept(x.mul(y)),
        },
    }
}
