// Sums and differences of two variables.
ghost use Rattle.std.specs.Prelude.{◌≡◌, ◌∷◌, [], ◌<◌, ◌↔◌, ℤ, All, IfOk};
ghost use Rattle.wm_interval.specs.Holds.{Holds};
ghost use Rattle.wm_domain.specs.Forms.{IsForm};
ghost use Rattle.wm_domain.specs.Points.{Point};
ghost use Rattle.wm_domain.specs.States.{count_of};
ghost use Rattle.wm_step.specs.Operating as operating;
ghost use Rattle.wm_step.specs.Operating.{IsResult, form_at, sum_form, clamped_to};
ghost use Rattle.wm_operated.specs.Clamping.{IsPair, IsClamped, AreDifferent};

use std::alloc::Global;
use wm_domain::{Domain, Form, Term};
use wm_interval::Interval;
use wm_numbers::{clamp16, clamp32};
use wm_ops::{List, NoMemory, Op, Width, result_width};

// the variable, where there is nothing more
fn plain_variable(t: Term, constant: i64) -> Option<u32>
    ensures { result ≡ operating.variable_by (t ∷ []) constant }
{
    if t.negative {
        return None;
    }
    if constant == 0 {
        return Some(t.variable);
    }
    None
}

/// The variable that a form is; None where it is anything else.
pub fn variable_of(f: &Form) -> Option<u32>
    ensures { result ≡ operating.variable_of f.now }
{
    match f.terms.items().split_first() {
        None => None,
        Some((t, rest)) => match rest.split_first() {
            None => plain_variable(*t, f.constant),
            Some((_u, _more)) => None,
        },
    }
}

// whether the operator takes its second argument away; None where it is no sum or difference of its two arguments
fn sum_sign(op: Op) -> Option<bool>
    ensures { result ≡ operating.sum_sign op }
{
    match op {
        Op::Add => Some(false),
        Op::Sub => Some(true),
        Op::LAdd => Some(false),
        Op::LSub => Some(true),
        Op::AbsS => None,
        Op::Negate => None,
        Op::Mult => None,
        Op::MultR => None,
        Op::Shl => None,
        Op::Shr => None,
        Op::ShrR => None,
        Op::LAbs => None,
        Op::LNegate => None,
        Op::LMult => None,
        Op::LMac => None,
        Op::LMsu => None,
        Op::LShl => None,
        Op::LShr => None,
        Op::LShrR => None,
        Op::ExtractH => None,
        Op::ExtractL => None,
        Op::LDepositH => None,
        Op::LDepositL => None,
        Op::Round => None,
        Op::MacR => None,
        Op::MsuR => None,
        Op::NormS => None,
        Op::NormL => None,
        Op::DivS => None,
        Op::SMax => None,
        Op::SMin => None,
        Op::LMax => None,
        Op::LMin => None,
        Op::LMult0 => None,
        Op::LMac0 => None,
        Op::LMsu0 => None,
    }
}

/// Two variables that an operator adds, or the second of which it takes away.
#[derive(Clone, Copy)]
pub struct Pair {
    pub first: u32,
    pub second: u32,
    pub away: bool,
}

// the two variables, where they are different ones
fn different(first: Option<u32>, second: Option<u32>, away: bool) -> Option<Pair>
    ensures { AreDifferent first second away result }
{
    match first {
        None => None,
        Some(v) => match second {
            None => None,
            Some(w) => {
                if v == w {
                    return None;
                }
                Some(Pair {
                    first: v,
                    second: w,
                    away,
                })
            }
        },
    }
}

// the two variables of a sum or difference; None where the operator is none of two different variables
fn pair_of(op: Op, args: &[Form; 3]) -> Option<Pair>
    ensures { IsPair op args.now result }
{
    match sum_sign(op) {
        None => None,
        Some(away) => {
            let first = variable_of(&args[0]);
            let second = variable_of(&args[1]);
            different(first, second, away)
        }
    }
}

// the first variable and the second one or its negative
fn pair_form(alloc: Global, pair: Pair) -> Result<Form, NoMemory>
    ensures { IfOk result (λ f. f ≡ sum_form pair.first pair.second pair.away) }
{
    let mut terms = List::new(alloc);
    terms.push(Term {
        variable: pair.first,
        negative: false,
    })?;
    terms.push(Term {
        variable: pair.second,
        negative: pair.away,
    })?;
    Ok(Form { terms, constant: 0 })
}

// the range clamped to the width
#[tactic(auto, using(std::proofs::lemmas::Int::ints, std::proofs::lemmas::Int::clamps), unfolding(wm_numbers::specs::Clamp::clamp))]
fn clamped(width: Width, r: Interval) -> Interval
    ensures low { result.low ≡ clamped_to width r.low }
    ensures high { result.high ≡ clamped_to width r.high }
{
    match width {
        Width::W16 => Interval::new(clamp16(r.low), clamp16(r.high)),
        Width::W32 => Interval::new(clamp32(r.low), clamp32(r.high)),
    }
}

/// The part of the operator's range in which the clamp of the sum lies, where it is one of two different variables; None
/// where there is no such number. `NoMemory`: memory ran out.
pub fn with_sum<D: Domain>(
    alloc: Global,
    at: &D,
    op: Op,
    args: &[Form; 3],
    range: Interval,
) -> Result<Option<Interval>, NoMemory>
    requires forms { All (IsForm (count_of (D.shape_of at.now))) args.now }
    ensures exact { IfOk result (λ part. (was : Point) → D.holds at.now was → (z : ℤ) → IsResult part z ↔ (Holds range z × IsClamped (D.holds at.now) op args.now z)) }
{
    match pair_of(op, args) {
        None => Ok(Some(range)),
        Some(pair) => {
            let form = pair_form(alloc, pair)?;
            match at.form(&form) {
                None => Ok(None),
                Some(sums) => Ok(range.meet(clamped(result_width(op), sums))),
            }
        }
    }
}
