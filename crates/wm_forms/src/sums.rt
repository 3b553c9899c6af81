// Sums and differences.
ghost use Rattle.std.specs.Prelude.{◌≡◌, ◌+ℤ◌, pos, IfOk};
ghost use Rattle.wm_flow.specs.Kept as forms;

use crate::terms::{has_term, same_sign, same_variable, turned_terms};
use wm_domain::Term;
use wm_flow::{Kept, Pair};
use wm_ops::NoMemory;

/// One more term beside one or two: a term that cancels goes, a new one stands last.
fn with_second(term: Term, a: Term, second: Option<Term>) -> Option<Pair>
    ensures { result ≡ forms.with_second term a second }
{
    match second {
        None => {
            if same_variable(a, term) {
                if same_sign(a.negative, term.negative) {
                    return None;
                }
                return Some(Pair {
                    first: None,
                    second: None,
                });
            }
            Some(Pair {
                first: Some(a),
                second: Some(term),
            })
        }
        Some(b) => {
            if same_variable(a, term) {
                if same_sign(a.negative, term.negative) {
                    return None;
                }
                return Some(Pair {
                    first: Some(b),
                    second: None,
                });
            }
            if same_variable(b, term) {
                if same_sign(b.negative, term.negative) {
                    return None;
                }
                return Some(Pair {
                    first: Some(a),
                    second: None,
                });
            }
            None
        }
    }
}

#[tactic(auto, unfolding(wm_flow::specs::Kept::with_term))]
fn with_term(term: Term, first: Option<Term>, second: Option<Term>) -> Option<Pair>
    ensures { result ≡ forms.with_term term first second }
{
    match first {
        Some(a) => with_second(term, a, second),
        None => Some(Pair {
            first: Some(term),
            second: None,
        }),
    }
}

fn then_term(term: Term, pair: Option<Pair>) -> Option<Pair>
    ensures { result ≡ forms.then_term term pair }
{
    match pair {
        Some(pair) => with_term(term, pair.first, pair.second),
        None => None,
    }
}

fn has_variable(term: Term, first: Option<Term>, second: Option<Term>) -> bool
    ensures { result ≡ forms.has_variable term first second }
{
    if has_term(term, first) {
        return true;
    }
    has_term(term, second)
}

/// Two more terms of different variables, one that cancels first.
#[tactic(auto, unfolding(wm_flow::specs::Kept::with_terms))]
fn with_terms(
    a: Option<Term>,
    b: Option<Term>,
    first: Option<Term>,
    second: Option<Term>,
) -> Option<Pair>
    ensures { result ≡ forms.with_terms a b first second }
{
    match first {
        None => Some(Pair {
            first: a,
            second: b,
        }),
        Some(c) => match second {
            None => with_term(c, a, b),
            Some(d) => {
                if has_variable(d, a, b) {
                    return then_term(c, with_term(d, a, b));
                }
                then_term(d, with_term(c, a, b))
            }
        },
    }
}

fn turned_number(turn: bool, z: i64) -> i128
    ensures { result ≡ forms.turned_number turn z }
{
    if turn {
        return -i128::from(z);
    }
    i128::from(z)
}

fn sum_of(a: i64, b: i64, turn: bool) -> i128
    ensures { result ≡ a +ℤ forms.turned_number turn b }
{
    i128::from(a) + turned_number(turn, b)
}

fn kept_of(pair: Option<Pair>, z: i128) -> Option<Kept>
    ensures { result ≡ forms.kept_of pair z }
{
    match pair {
        None => None,
        Some(pair) => {
            if z > -1125899906842624 {
                if z < 1125899906842624 {
                    return Some(Kept {
                        first: pair.first,
                        second: pair.second,
                        constant: z as i64,
                    });
                }
                return None;
            }
            None
        }
    }
}

/// The sum of two forms, or their difference where the second is turned. None where it is no form: where a variable would
/// stand twice, there would be three, or the constant is 2^50 or more in size.
#[tactic(auto, unfolding(wm_flow::specs::Kept::collected))]
pub fn collected(a: Kept, turn: bool, b: Kept) -> Option<Kept>
    ensures { result ≡ forms.collected a turn b }
{
    let first = turned_terms(turn, b.first);
    let second = turned_terms(turn, b.second);
    let pair = with_terms(a.first, a.second, first, second);
    kept_of(pair, sum_of(a.constant, b.constant, turn))
}

/// The form with all signs changed. `NoMemory`, too, where its constant has no negative of 64 bits.
pub fn negative_of(kept: Kept) -> Result<Kept, NoMemory>
    ensures { IfOk result (λ negative. negative ≡ forms.negative_of kept) }
{
    match kept.constant.checked_neg() {
        Some(constant) => Ok(Kept {
            first: turned_terms(true, kept.first),
            second: turned_terms(true, kept.second),
            constant,
        }),
        None => Err(NoMemory),
    }
}

/// The form and 1. `NoMemory`, too, where the constant does not fit 64 bits.
pub fn one_more(kept: Kept) -> Result<Kept, NoMemory>
    ensures { IfOk result (λ more. more ≡ record kept { constant = kept.constant +ℤ pos 1 }) }
{
    match kept.constant.checked_add(1) {
        Some(constant) => Ok(Kept { constant, ..kept }),
        None => Err(NoMemory),
    }
}
