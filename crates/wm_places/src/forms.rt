// What the variables of a form are.
ghost use Rattle.std.specs.Prelude.{◌≡◌, ◌==◌, false, IfOk};
ghost use Rattle.std.specs.Option.{option_map_or};
ghost use Rattle.wm_domain.specs.declared.form.Term.{Term};
ghost use Rattle.wm_flow.specs.Places as places;

use crate::bases::{first_temporary, group_size, overflow_place, related_states};
use wm_domain::Term;
use wm_flow::{Bases, Kept};
use wm_forms::is_below;
use wm_ops::NoMemory;

fn is_static(bases: Bases, v: u32) -> Result<bool, NoMemory>
    ensures { IfOk result (λ is. is ≡ places.is_static bases v) }
{
    let size = group_size(bases)?;
    let overflow = overflow_place(bases)?;
    if v < related_states(bases.counts) {
        return Ok(true);
    }
    if v < size {
        return Ok(false);
    }
    Ok(v <= overflow)
}

fn is_static_term(bases: Bases, term: Option<Term>) -> Result<bool, NoMemory>
    ensures { IfOk result (λ is. is ≡ option_map_or (λ (it : Term). places.is_static bases it.variable) term false) }
{
    match term {
        Some(term) => is_static(bases, term.variable),
        None => Ok(false),
    }
}

/// Whether a scalar of static storage stands in the form, `Overflow` among them.
pub fn has_static(bases: Bases, kept: Kept) -> Result<bool, NoMemory>
    ensures { IfOk result (λ has. has ≡ places.has_static bases kept) }
{
    if is_static_term(bases, kept.first)? {
        return Ok(true);
    }
    is_static_term(bases, kept.second)
}

fn is_variable(v: u32, term: Option<Term>) -> bool
    ensures { result ≡ option_map_or (λ (it : Term). it.variable == v) term false }
{
    match term {
        Some(term) => term.variable == v,
        None => false,
    }
}

/// Whether `Overflow` stands in the form.
pub fn has_overflow(bases: Bases, kept: Kept) -> Result<bool, NoMemory>
    ensures { IfOk result (λ has. has ≡ places.has_overflow bases kept) }
{
    let overflow = overflow_place(bases)?;
    if is_variable(overflow, kept.first) {
        return Ok(true);
    }
    Ok(is_variable(overflow, kept.second))
}

/// Whether the form is made of numbers and variables that have a name.
pub fn is_named(bases: Bases, kept: Kept) -> Result<bool, NoMemory>
    ensures { IfOk result (λ is. is ≡ places.is_named bases kept) }
{
    let first = first_temporary(bases)?;
    Ok(is_below(first, kept))
}
