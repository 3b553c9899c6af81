// Whether forms are forms over the variables of a state.
ghost use Rattle.std.specs.Prelude.{◌≡◌, ◌∷◌, true};
ghost use Rattle.wm_domain.specs.Forms.{IsForm};
ghost use Rattle.wm_sight.specs.Operands.{are_terms};

use wm_domain::{Form, Term};

fn is_second(count: usize, t: Term, rest: &[Term]) -> bool
    ensures { result ≡ are_terms count (t ∷ rest.now) }
{
    match rest.split_first() {
        None => (t.variable as usize) < count,
        Some((u, more)) => {
            if 0 < more.len() {
                return false;
            }
            if t.variable as usize >= count {
                return false;
            }
            if u.variable as usize >= count {
                return false;
            }
            t.variable != u.variable
        }
    }
}

fn are_terms(count: usize, terms: &[Term]) -> bool
    ensures { result ≡ are_terms count terms.now }
{
    match terms.split_first() {
        None => true,
        Some((t, rest)) => is_second(count, *t, rest),
    }
}

/// Whether the form has at most two terms, of different variables of so many, and a constant below 2^50 in size.
pub fn is_form(count: usize, form: &Form) -> bool
    ensures form { result ≡ true → IsForm count form.now }
{
    if form.constant <= -1_125_899_906_842_624 {
        return false;
    }
    if form.constant >= 1_125_899_906_842_624 {
        return false;
    }
    are_terms(count, form.terms.items())
}
