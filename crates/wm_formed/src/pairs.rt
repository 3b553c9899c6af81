// What a state tells of the sum of two terms and a constant.
ghost use Rattle.std.specs.Prelude.{◌≡◌, ◌∷◌, ◌<◌, [], ℕ, ℤ, ◌-ℤ◌, IfOk};
ghost use Rattle.wm_numbers.specs.Within.{IsWord32};
ghost use Rattle.wm_domain.specs.declared.shape.Shape.{Shape};
ghost use Rattle.wm_domain.specs.Points.{Point};
ghost use Rattle.wm_domain.specs.Forms.{IsForm};
ghost use Rattle.wm_domain.specs.States.{count_of};
ghost use Rattle.wm_assign.specs.Allowing.{Allowed, IsFit};
ghost use Rattle.wm_assign.specs.Giving.{IsGivenBy, AreSeen, IsSeen, InRange, rest_form};

use std::alloc::Global;
use wm_assign::Value;
use wm_domain::{Domain, Form, Term};
use wm_given::cut;
use wm_interval::Interval;
use wm_ops::NoMemory;
use wm_tested::of_variable;

// a number of the form's range that differs from a variable by one of the range of the rest
fn beside<D: Domain>(
    alloc: Global,
    at: &D,
    f: &Form,
    from: u32,
    other: Term,
) -> Result<Option<Value>, NoMemory>
    requires form { IsForm (count_of (D.shape_of at.now)) f.now }
    requires from { from < count_of (D.shape_of at.now) }
    requires other { other.variable < count_of (D.shape_of at.now) }
    ensures allowed { IfOk result (λ value. (was : Point) (z : ℤ) → IsWord32 (was.values from) → IsWord32 z → InRange (D.holds at.now) f.now z → InRange (D.holds at.now) (rest_form other f.now.constant) (z -ℤ was.values from) → Allowed value was z) }
    ensures made { IfOk result (λ value. (was : Point) (z : ℤ) → Allowed value was z → InRange (D.holds at.now) f.now z × InRange (D.holds at.now) (rest_form other f.now.constant) (z -ℤ was.values from)) }
    ensures fit { IfOk result (λ value. (s t : Shape) (v : ℕ) → count_of s ≡ count_of (D.shape_of at.now) → IsSeen s t v from → IsFit s t v value) }
{
    let words = Interval::new(-2147483648, 2147483647);
    let rest = of_variable(alloc, other.variable, other.negative, f.constant)?;
    match cut(at, f, words) {
        None => Ok(None),
        Some(range) => {
            let differences = Interval::new(-4294967295, 4294967295);
            match cut(at, &rest, differences) {
                None => Ok(None),
                Some(difference) => Ok(Some(Value::Near {
                    from,
                    difference,
                    range,
                })),
            }
        }
    }
}

// a number of the form's range
fn ranged<D: Domain>(at: &D, f: &Form) -> Option<Value>
    requires form { IsForm (count_of (D.shape_of at.now)) f.now }
    ensures allowed { (was : Point) (z : ℤ) → IsWord32 z → InRange (D.holds at.now) f.now z → Allowed result was z }
    ensures made { (was : Point) (z : ℤ) → Allowed result was z → InRange (D.holds at.now) f.now z }
    ensures fit { (s t : Shape) (v : ℕ) → IsFit s t v result }
{
    let words = Interval::new(-2147483648, 2147483647);
    match cut(at, f, words) {
        None => None,
        Some(range) => Some(Value::Any(range)),
    }
}

/// The numbers of the form's range that differ from the first variable with the plus sign, where there is one, by a number
/// of the range of the rest. The form has these two terms. `NoMemory`: memory ran out.
pub fn pair_value<D: Domain>(
    alloc: Global,
    at: &D,
    f: &Form,
    t: Term,
    u: Term,
) -> Result<Option<Value>, NoMemory>
    requires form { IsForm (count_of (D.shape_of at.now)) f.now }
    requires first { t.variable < count_of (D.shape_of at.now) }
    requires second { u.variable < count_of (D.shape_of at.now) }
    ensures allowed { IfOk result (λ value. (was : Point) (z : ℤ) → IsWord32 (was.values t.variable) → IsWord32 (was.values u.variable) → IsWord32 z → IsGivenBy (D.holds at.now) f.now (t ∷ u ∷ []) was z → Allowed value was z) }
    ensures made { IfOk result (λ value. (was : Point) (z : ℤ) → Allowed value was z → IsGivenBy (D.holds at.now) f.now (t ∷ u ∷ []) was z) }
    ensures fit { IfOk result (λ value. (s g : Shape) (v : ℕ) → count_of s ≡ count_of (D.shape_of at.now) → AreSeen s g v (t ∷ u ∷ []) → IsFit s g v value) }
{
    if !t.negative {
        return beside(alloc, at, f, t.variable, u);
    }
    if !u.negative {
        return beside(alloc, at, f, u.variable, t);
    }
    Ok(ranged(at, f))
}
