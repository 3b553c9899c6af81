// The numbers that a division gives.
ghost use Rattle.std.specs.Prelude.{◌≡◌, ◌≢◌, ◌≤◌, ◌<ℤ◌, ◌^◌, pos, ℕ, ℤ, int_div, unsigned_abs};
ghost use Rattle.wm_numbers.specs.Within.{IsWord32};
ghost use Rattle.wm_domain.specs.Points.{Point};
ghost use Rattle.wm_domain.specs.Forms.{IsForm};
ghost use Rattle.wm_domain.specs.States.{count_of};
ghost use Rattle.wm_domain.specs.declared.shape.Shape.{Shape};
ghost use Rattle.wm_assign.specs.Allowing.{Allowed, IsFit};
ghost use Rattle.wm_interval.specs.Holds.{Holds, SizesAtMost};
ghost use Rattle.wm_plain.specs.Results.{InResults};
ghost use Rattle.wm_quotient.specs.Dividing.{HoldsQuotientsBy, HoldsQuotients};

use wm_assign::Value;
use wm_domain::{Domain, Form};
use wm_interval::Interval;
use wm_plain::{kept, operand};

// the quotient, truncated towards zero
#[tactic(auto, using(crate::proofs::Division::quotient_fits))]
fn over(dividend: i64, divisor: i64) -> i64
    requires size { unsigned_abs dividend ≤ 2 ^ 31 }
    requires some { divisor ≢ pos 0 }
    ensures { result ≡ int_div dividend divisor }
{
    dividend / divisor
}

// the quotients by a number above 0, which are the greater the greater the dividend
fn by_positive(x: Interval, divisor: i64) -> Interval
    requires sizes { SizesAtMost (2 ^ 31) x }
    requires positive { pos 0 <ℤ divisor }
    ensures low { result.low ≡ int_div x.low divisor }
    ensures high { result.high ≡ int_div x.high divisor }
{
    let low = over(x.low, divisor);
    let high = over(x.high, divisor);
    Interval::new(low, high)
}

// the quotients by a number below 0, which are the less the greater the dividend
#[tactic(auto, using(crate::proofs::Division::falls))]
fn by_negative(x: Interval, divisor: i64) -> Interval
    requires sizes { SizesAtMost (2 ^ 31) x }
    requires negative { divisor <ℤ pos 0 }
    ensures low { result.low ≡ int_div x.high divisor }
    ensures high { result.high ≡ int_div x.low divisor }
{
    let low = over(x.high, divisor);
    let high = over(x.low, divisor);
    Interval::new(low, high)
}

// all numbers of 32 bits
fn words() -> Interval
    ensures all { (z : ℤ) → IsWord32 z → Holds result z }
{
    Interval::new(-2147483648, 2147483647)
}

// the quotients by one number, truncated towards zero; all numbers of 32 bits where it is 0
fn by_number(x: Interval, divisor: i64) -> Interval
    requires sizes { SizesAtMost (2 ^ 31) x }
    ensures { HoldsQuotientsBy x divisor result }
{
    if divisor > 0 {
        return by_positive(x, divisor);
    }
    if divisor < 0 {
        return by_negative(x, divisor);
    }
    words()
}

// the quotients by a number of the second interval; all numbers of 32 bits where that has several
fn quotients(x: Interval, y: Interval) -> Interval
    requires sizes { SizesAtMost (2 ^ 31) x }
    requires others { SizesAtMost (2 ^ 31) y }
    ensures { HoldsQuotients x y result }
{
    if y.low == y.high {
        return by_number(x, y.low);
    }
    words()
}

/// The quotients, truncated towards zero, of a number of each form, both of 32 bits, that have 32 bits. Where the divisor
/// is no single number or 0, all numbers of 32 bits.
pub fn quotient<D: Domain>(at: &D, f: &Form, g: &Form) -> Option<Value>
    requires first { IsForm (count_of (D.shape_of at.now)) f.now }
    requires second { IsForm (count_of (D.shape_of at.now)) g.now }
    ensures allowed { (was : Point) (z : ℤ) → InResults (D.holds at.now) int_div f.now g.now z → Allowed result was z }
    ensures fit { (s t : Shape) (v : ℕ) → IsFit s t v result }
{
    match operand(at, f) {
        None => None,
        Some(x) => match operand(at, g) {
            None => None,
            Some(y) => kept(quotients(x, y)),
        },
    }
}
