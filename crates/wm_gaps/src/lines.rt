// Single lines: whether the numbers of one state on a line pass those of another.
ghost use Rattle.std.specs.Prelude.{◌≡◌, ◌≢◌, ◌<◌, IfOk};
ghost use Rattle.wm_domain.specs.States.{count_of, array_count};
ghost use Rattle.wm_gaps.specs.First.{IsThe, IsAnswer};
ghost use Rattle.wm_gaps.specs.Passed.{pair_form, cells_in};

use crate::passed::{Passed, passed_on};
use std::alloc::Global;
use wm_arrays::Summary;
use wm_cert::Line;
use wm_domain::{Domain, Form, Term};
use wm_interval::Interval;
use wm_ops::{List, NoMemory};

/// The range of a variable.
#[tactic(auto, using(crate::proofs::Answered::variable_answer, crate::proofs::Answered::no_value))]
pub(crate) fn variable_passed<D: Domain>(have: &D, allowed: &D, v: u32) -> Option<Passed>
    requires inside { v < count_of (D.shape_of have.now) }
    requires shape { D.shape_of have.now ≡ D.shape_of allowed.now }
    ensures first { IsAnswer (IsThe (Line.Bound v)) (D.holds have.now) (D.holds allowed.now) result }
{
    match have.range(v) {
        None => None,
        Some(range) => passed_on(Line::Bound { variable: v }, range, allowed.range(v)),
    }
}

/// The sum of two variables, or the first less the second.
pub(crate) fn pair_form(
    alloc: Global,
    first: u32,
    second: u32,
    negative: bool,
) -> Result<Form, NoMemory>
    ensures { IfOk result (λ form. form ≡ pair_form first second negative) }
{
    let mut terms = List::new(alloc);
    terms.push(Term {
        variable: first,
        negative: false,
    })?;
    terms.push(Term {
        variable: second,
        negative,
    })?;
    Ok(Form { terms, constant: 0 })
}

/// The range of a difference.
#[tactic(auto, using(crate::proofs::Answered::difference_answer, crate::proofs::Answered::no_difference, crate::proofs::Passing::is_pair))]
pub(crate) fn difference_passed<D: Domain>(
    alloc: Global,
    have: &D,
    allowed: &D,
    first: u32,
    second: u32,
) -> Result<Option<Passed>, NoMemory>
    requires first { first < count_of (D.shape_of have.now) }
    requires second { second < count_of (D.shape_of have.now) }
    requires apart { first ≢ second }
    requires shape { D.shape_of have.now ≡ D.shape_of allowed.now }
    ensures first { IfOk result (λ found. IsAnswer (IsThe (Line.Minus first second)) (D.holds have.now) (D.holds allowed.now) found) }
{
    let form = pair_form(alloc, first, second, true)?;
    match have.form(&form) {
        None => Ok(None),
        Some(range) => Ok(passed_on(Line::Minus { first, second }, range, allowed.form(&form))),
    }
}

/// The range of a sum.
#[tactic(auto, using(crate::proofs::Answered::sum_answer, crate::proofs::Answered::no_sum, crate::proofs::Passing::is_pair))]
pub(crate) fn sum_passed<D: Domain>(
    alloc: Global,
    have: &D,
    allowed: &D,
    first: u32,
    second: u32,
) -> Result<Option<Passed>, NoMemory>
    requires first { first < count_of (D.shape_of have.now) }
    requires second { second < count_of (D.shape_of have.now) }
    requires apart { first ≢ second }
    requires shape { D.shape_of have.now ≡ D.shape_of allowed.now }
    ensures first { IfOk result (λ found. IsAnswer (IsThe (Line.Plus first second)) (D.holds have.now) (D.holds allowed.now) found) }
{
    let form = pair_form(alloc, first, second, false)?;
    match have.form(&form) {
        None => Ok(None),
        Some(range) => Ok(passed_on(Line::Plus { first, second }, range, allowed.form(&form))),
    }
}

/// The interval of a summary, where it has one.
pub(crate) fn cells(summary: Option<Summary>) -> Option<Interval>
    ensures { result ≡ cells_in summary }
{
    match summary {
        None => None,
        Some(Summary::Empty) => None,
        Some(Summary::Range(range)) => Some(range),
    }
}

/// The set cells of an array.
#[tactic(auto, using(crate::proofs::Answered::array_answer, crate::proofs::Answered::no_cell))]
pub(crate) fn array_passed<D: Domain>(have: &D, allowed: &D, a: u32) -> Option<Passed>
    requires inside { a < array_count (D.shape_of have.now) }
    requires shape { D.shape_of have.now ≡ D.shape_of allowed.now }
    ensures first { IsAnswer (IsThe (Line.Array a)) (D.holds have.now) (D.holds allowed.now) result }
{
    match cells(have.array(a)) {
        None => None,
        Some(range) => passed_on(Line::Array { array: a }, range, cells(allowed.array(a))),
    }
}
