// What a form is made of.
ghost use Rattle.std.specs.Prelude.{◌≡◌, ◌++◌, nat_lt, true, IfOk, OnOk};
ghost use Rattle.std.specs.Option.{option_map_or};
ghost use Rattle.wm_flow.specs.Kept as forms;

use std::alloc::Global;
use wm_domain::{Form, Term};
use wm_flow::Kept;
use wm_ops::{List, NoMemory};

/// A number.
pub fn constant(z: i64) -> Kept
    ensures { result ≡ forms.constant z }
{
    Kept {
        first: None,
        second: None,
        constant: z,
    }
}

/// A variable.
pub fn variable(v: u32) -> Kept
    ensures { result ≡ forms.variable v }
{
    Kept {
        first: Some(Term {
            variable: v,
            negative: false,
        }),
        second: None,
        constant: 0,
    }
}

/// Puts a term at the end of a list, if there is one.
fn push_term(terms: &mut List<Term>, term: Option<Term>) -> Result<(), NoMemory>
    ensures { OnOk result (terms.new ≡ terms.old ++ forms.terms_of term) }
{
    match term {
        Some(term) => terms.push(term),
        None => Ok(()),
    }
}

/// The form with its terms in a list. `NoMemory`: memory ran out.
pub fn form_of(alloc: Global, kept: Kept) -> Result<Form, NoMemory>
    ensures { IfOk result (λ form. form ≡ forms.form_of kept) }
{
    let mut terms = List::new(alloc);
    push_term(&mut terms, kept.first)?;
    push_term(&mut terms, kept.second)?;
    Ok(Form {
        terms,
        constant: kept.constant,
    })
}

fn is_term_below(limit: u32, term: Option<Term>) -> bool
    ensures { result ≡ option_map_or (λ (it : Term). nat_lt it.variable limit) term true }
{
    match term {
        Some(term) => term.variable < limit,
        None => true,
    }
}

/// Whether all variables of the form are below this number.
pub fn is_below(limit: u32, kept: Kept) -> bool
    ensures { result ≡ forms.is_below limit kept }
{
    if is_term_below(limit, kept.first) {
        return is_term_below(limit, kept.second);
    }
    false
}

fn is_zero(z: i64) -> bool
    ensures { result ≡ forms.is_zero z }
{
    if z < 0 {
        return false;
    }
    if z > 0 {
        return false;
    }
    true
}

/// Whether the form is a variable or a constant, and nothing more.
pub fn is_side(kept: Kept) -> bool
    ensures { result ≡ forms.is_side kept }
{
    match kept.first {
        None => true,
        Some(term) => match kept.second {
            None => {
                if term.negative {
                    return false;
                }
                is_zero(kept.constant)
            }
            Some(_) => false,
        },
    }
}
