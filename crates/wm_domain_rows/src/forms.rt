// Forms of at most two terms.

ghost use Rattle.std.specs.Prelude.{◌≡◌, ◌≢◌, ◌<◌, ◌^◌, [], ◌∷◌, IfOk, unsigned_abs};
ghost use Rattle.wm_domain.specs.Forms.{IsForm, IsSimple};

use std::alloc::Global;
use wm_domain::{Form, Term};
use wm_ops::{List, NoMemory};

/// The constant alone.
pub(crate) fn constant_form(alloc: Global, constant: i64) -> Form
    ensures { result ≡ record { terms = []; constant = constant } }
{
    Form {
        terms: List::new(alloc),
        constant,
    }
}

/// A term and a constant.
pub(crate) fn one_form(alloc: Global, t: Term, constant: i64) -> Result<Form, NoMemory>
    ensures { IfOk result (λ f. f ≡ record { terms = t ∷ []; constant = constant }) }
{
    let mut terms = List::new(alloc);
    terms.push(t)?;
    Ok(Form { terms, constant })
}

/// Two terms and a constant.
pub(crate) fn two_form(alloc: Global, t: Term, u: Term, constant: i64) -> Result<Form, NoMemory>
    ensures { IfOk result (λ f. f ≡ record { terms = t ∷ u ∷ []; constant = constant }) }
{
    let mut terms = List::new(alloc);
    terms.push(t)?;
    terms.push(u)?;
    Ok(Form { terms, constant })
}
