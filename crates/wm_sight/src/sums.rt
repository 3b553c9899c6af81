// The form that a sum or a difference of two operands is.
ghost use Rattle.std.specs.Prelude.{◌≡◌, ◌∷◌, IfOk};
ghost use Rattle.wm_sight.specs.Sums as sums;

use std::alloc::Global;
use wm_domain::{Form, Term};
use wm_flow::Kept;
use wm_forms::{collected, form_of};
use wm_ops::NoMemory;

/// The form in a fixed room; None where it has more than two terms.
fn kept_of(form: &Form) -> Option<Kept>
    ensures { result ≡ sums.room_of form.now.terms form.now.constant }
{
    match form.terms.items().split_first() {
        None => Some(Kept {
            first: None,
            second: None,
            constant: form.constant,
        }),
        Some((first, rest)) => kept_behind(*first, rest, form.constant),
    }
}

fn kept_behind(first: Term, rest: &[Term], constant: i64) -> Option<Kept>
    ensures { result ≡ sums.room_of (first ∷ rest.now) constant }
{
    match rest.split_first() {
        None => Some(Kept {
            first: Some(first),
            second: None,
            constant,
        }),
        Some((second, more)) => {
            if 0 < more.len() {
                return None;
            }
            Some(Kept {
                first: Some(first),
                second: Some(*second),
                constant,
            })
        }
    }
}

fn collected_of(a: Option<Kept>, turn: bool, b: Option<Kept>) -> Option<Kept>
    ensures { result ≡ sums.collected_of a turn b }
{
    match a {
        None => None,
        Some(a) => match b {
            None => None,
            Some(b) => collected(a, turn, b),
        },
    }
}

/// The sum of two forms, or their difference where the second is turned; None where it is no form.
pub fn sum_of(alloc: Global, a: &Form, turn: bool, b: &Form) -> Result<Option<Form>, NoMemory>
    ensures sum { IfOk result (λ form. form ≡ sums.sum_of a.now turn b.now) }
{
    match collected_of(kept_of(a), turn, kept_of(b)) {
        None => Ok(None),
        Some(kept) => Ok(Some(form_of(alloc, kept)?)),
    }
}
