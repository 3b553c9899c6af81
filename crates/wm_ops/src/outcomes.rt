// An operator at its arguments.
ghost use Rattle.std.specs.Prelude.{◌≡◌, ◌↔◌};
ghost use Rattle.wm_ops.specs.Arguments.{ArgsFit, arg_at};
ghost use Rattle.wm_ops.specs.Division.{InQuotient};
ghost use Rattle.wm_ops.specs.Outcomes.{outcome_of, OutcomeFits};

use crate::formulas::{formula, in_domain, is_quiet};
use crate::operators::Op;

/// What an operator gives: a value, with whether it saturates and whether it sets the flag `Overflow`; or that the
/// arguments are outside its domain.
#[derive(Clone, Copy, Debug, PartialEq, Eq)]
pub enum Outcome {
    Value {
        value: i64,
        saturates: bool,
        flag: bool,
    },
    OutOfDomain,
}

/// The operator at three arguments, of which it looks at as many as it takes.
#[tactic(auto, unfolding(crate::specs::Outcomes::outcome_of))]
fn result_of(op: Op, a: i64, b: i64, c: i64) -> Outcome
    requires { ArgsFit op a b c }
    ensures outcome { result ≡ outcome_of op a b c }
{
    if !in_domain(op, a, b) {
        return Outcome::OutOfDomain;
    }
    let clamped = formula(op, a, b, c);
    Outcome::Value {
        value: clamped.value,
        saturates: clamped.changed,
        flag: clamped.changed && !is_quiet(op),
    }
}

/// The operator at its arguments, exactly as its formula in G.191 says over whole numbers: the value; whether some clamp
/// of the formula changes its number, also where a later clamp leaves it in range; and whether that sets the flag, which
/// `abs_s`, `negate`, `L_abs` and `L_negate` never do. `OutOfDomain` comes exactly for `div_s` outside 0 <= a <= b and
/// b > 0. Each argument below the arity is to be of its type; the others are ignored.
pub fn apply(op: Op, args: &[i64; 3]) -> Outcome
    requires { ArgsFit op (arg_at args.now 0) (arg_at args.now 1) (arg_at args.now 2) }
    ensures outcome { result ≡ outcome_of op (arg_at args.now 0) (arg_at args.now 1) (arg_at args.now 2) }
    ensures width { OutcomeFits op result }
    ensures refused { (result ≡ Outcome.OutOfDomain) ↔ ((op ≡ Op.DivS) × ¬ InQuotient (arg_at args.now 0) (arg_at args.now 1)) }
{
    let [a, b, c] = *args;
    result_of(op, a, b, c)
}
