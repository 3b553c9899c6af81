// Forms of one and of two variables.
ghost use Rattle.std.specs.Prelude.{◌≡◌, IfOk};
ghost use Rattle.wm_rounding.specs.Forms.{one_form, pair_form};

use std::alloc::Global;
use wm_domain::{Form, Term};
use wm_ops::{List, NoMemory};

/// A variable.
pub(crate) fn one_form(alloc: Global, v: u32) -> Result<Form, NoMemory>
    ensures { IfOk result (λ form. form ≡ one_form v) }
{
    let mut terms = List::new(alloc);
    terms.push(Term {
        variable: v,
        negative: false,
    })?;
    Ok(Form { terms, constant: 0 })
}

/// The sum of two variables, or the first less the second.
pub(crate) fn pair_form(alloc: Global, v: u32, w: u32, negative: bool) -> Result<Form, NoMemory>
    ensures { IfOk result (λ form. form ≡ pair_form v w negative) }
{
    let mut terms = List::new(alloc);
    terms.push(Term {
        variable: v,
        negative: false,
    })?;
    terms.push(Term {
        variable: w,
        negative,
    })?;
    Ok(Form { terms, constant: 0 })
}
