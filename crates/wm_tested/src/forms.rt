// Forms that are made of a form or of a variable.
ghost use Rattle.std.specs.Prelude.{◌≡◌, IfOk};
ghost use Rattle.wm_tested.specs.Likes as likes;

use std::alloc::Global;
use wm_domain::{Form, Term};
use wm_ops::{List, NoMemory};

fn turned(term: Term, negative: bool) -> Term
    ensures { result ≡ likes.turned negative term }
{
    if negative {
        return Term {
            variable: term.variable,
            negative: !term.negative,
        };
    }
    term
}

/// The terms of the form, or their negatives, with another constant. `NoMemory`: memory ran out.
pub fn with_constant(
    alloc: Global,
    f: &Form,
    negative: bool,
    constant: i64,
) -> Result<Form, NoMemory>
    ensures { IfOk result (λ it. it ≡ likes.like f.now negative constant) }
{
    let mut terms = List::new(alloc);
    for term in f.terms.items() {
        terms.push(turned(*term, negative))?;
    }
    Ok(Form { terms, constant })
}

/// The variable or its negative, and a constant. `NoMemory`: memory ran out.
pub fn of_variable(
    alloc: Global,
    variable: u32,
    negative: bool,
    constant: i64,
) -> Result<Form, NoMemory>
    ensures { IfOk result (λ it. it ≡ likes.variable_form variable negative constant) }
{
    let mut terms = List::new(alloc);
    terms.push(Term { variable, negative })?;
    Ok(Form { terms, constant })
}
