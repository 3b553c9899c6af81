// Forms of one and of two variables.
ghost use Rattle.std.specs.Prelude.{◌≡◌, IfOk};
ghost use Rattle.wm_state_of.specs.Meeting.{one_form, two_form};

use std::alloc::Global;
use wm_domain::{Form, Term};
use wm_ops::{List, NoMemory};

pub fn one_form(alloc: Global, v: u32, negative: bool, constant: i64) -> Result<Form, NoMemory>
    ensures { IfOk result (λ form. form ≡ one_form v negative constant) }
{
    let mut terms = List::new(alloc);
    terms.push(Term {
        variable: v,
        negative,
    })?;
    Ok(Form { terms, constant })
}

pub fn two_form(
    alloc: Global,
    v: u32,
    negative: bool,
    w: u32,
    other: bool,
    constant: i64,
) -> Result<Form, NoMemory>
    ensures { IfOk result (λ form. form ≡ two_form v negative w other constant) }
{
    let mut terms = List::new(alloc);
    terms.push(Term {
        variable: v,
        negative,
    })?;
    terms.push(Term {
        variable: w,
        negative: other,
    })?;
    Ok(Form { terms, constant })
}
