// All lines of a head, in the order of a certificate's text.
ghost use Rattle.std.specs.Prelude.{◌≡◌, ◌≤◌, ◌<◌, ℕ, length, IfOk, IfSome, IfNone, MatchOption};
ghost use Rattle.wm_domain.specs.Points.{Point};
ghost use Rattle.wm_domain.specs.States.{count_of, array_count};
ghost use Rattle.wm_gaps.specs.First.{IsVariableLine, IsOfPair, IsRowLine, IsPairLine, IsGroupLine, IsArrayLine, IsLine, IsFirst, IsAnswer, IsWithin};

use crate::lines::{array_passed, difference_passed, sum_passed, variable_passed};
use crate::passed::Passed;
use std::alloc::Global;
use wm_domain::{Domain, Shape};
use wm_ops::NoMemory;

fn variables_passed<D: Domain>(have: &D, allowed: &D, count: u32) -> Option<Passed>
    requires inside { count ≤ count_of (D.shape_of have.now) }
    requires shape { D.shape_of have.now ≡ D.shape_of allowed.now }
    ensures first { IsAnswer (IsVariableLine count) (D.holds have.now) (D.holds allowed.now) result }
{
    for v in 0..count {
        let found = variable_passed(have, allowed, v);
        if found.is_some() {
            return found;
        }
    }
    None
}

/// The difference and then the sum.
#[tactic(auto, using(crate::proofs::Ordering::difference_first, crate::proofs::Ordering::sum_second))]
fn pair_passed<D: Domain>(
    alloc: Global,
    have: &D,
    allowed: &D,
    first: u32,
    second: u32,
) -> Result<Option<Passed>, NoMemory>
    requires order { first < second }
    requires inside { second < count_of (D.shape_of have.now) }
    requires shape { D.shape_of have.now ≡ D.shape_of allowed.now }
    ensures first { IfOk result (λ found. IsAnswer (IsOfPair first second) (D.holds have.now) (D.holds allowed.now) found) }
{
    match difference_passed(alloc, have, allowed, first, second)? {
        Some(found) => Ok(Some(found)),
        None => sum_passed(alloc, have, allowed, first, second),
    }
}

/// The pairs of a variable with those behind it.
#[tactic(auto, using(crate::proofs::Walking::row_found))]
fn row_passed<D: Domain>(
    alloc: Global,
    have: &D,
    allowed: &D,
    first: u32,
    count: u32,
) -> Result<Option<Passed>, NoMemory>
    requires inside { count ≤ count_of (D.shape_of have.now) }
    requires shape { D.shape_of have.now ≡ D.shape_of allowed.now }
    ensures first { IfOk result (λ found. IsAnswer (IsRowLine first count) (D.holds have.now) (D.holds allowed.now) found) }
{
    for second in 0..count {
        if first < second {
            let found = pair_passed(alloc, have, allowed, first, second)?;
            if found.is_some() {
                return Ok(found);
            }
        }
    }
    Ok(None)
}

#[tactic(auto, using(crate::proofs::Walking::pairs_found))]
fn pairs_passed<D: Domain>(
    alloc: Global,
    have: &D,
    allowed: &D,
    count: u32,
) -> Result<Option<Passed>, NoMemory>
    requires inside { count ≤ count_of (D.shape_of have.now) }
    requires shape { D.shape_of have.now ≡ D.shape_of allowed.now }
    ensures first { IfOk result (λ found. IsAnswer (IsPairLine count) (D.holds have.now) (D.holds allowed.now) found) }
{
    for first in 0..count {
        let found = row_passed(alloc, have, allowed, first, count)?;
        if found.is_some() {
            return Ok(found);
        }
    }
    Ok(None)
}

fn arrays_passed<D: Domain>(have: &D, allowed: &D, count: u32) -> Option<Passed>
    requires inside { count ≤ array_count (D.shape_of have.now) }
    requires shape { D.shape_of have.now ≡ D.shape_of allowed.now }
    ensures first { IsAnswer (IsArrayLine count) (D.holds have.now) (D.holds allowed.now) result }
{
    for a in 0..count {
        let found = array_passed(have, allowed, a);
        if found.is_some() {
            return found;
        }
    }
    None
}

/// The pairs of the group, where states keep bounds on them.
fn group_passed<D: Domain>(
    alloc: Global,
    have: &D,
    allowed: &D,
    count: u32,
) -> Result<Option<Passed>, NoMemory>
    requires inside { count ≤ count_of (D.shape_of have.now) }
    requires shape { D.shape_of have.now ≡ D.shape_of allowed.now }
    ensures first { IfOk result (λ found. IsAnswer (IsGroupLine D.PAIRS count) (D.holds have.now) (D.holds allowed.now) found) }
{
    if D::PAIRS {
        return pairs_passed(alloc, have, allowed, count);
    }
    Ok(None)
}

/// A length in 32 bits.
fn counted(count: usize) -> Result<u32, NoMemory>
    ensures { IfOk result (λ n. n ≡ count) }
{
    match u32::try_from(count) {
        Ok(count) => Ok(count),
        Err(_) => Err(NoMemory),
    }
}

/// The first line, in the order of a certificate's text, on which the first state has a number that the second one has not
/// between its bounds: the ranges of the variables, the differences and sums of the group, and the cells of the arrays.
#[tactic(auto, using(crate::proofs::Whole::variable_first, crate::proofs::Whole::group_first, crate::proofs::Whole::arrays_answer))]
pub fn first_passed<D: Domain>(
    alloc: Global,
    shape: &Shape,
    have: &D,
    allowed: &D,
) -> Result<Option<Passed>, NoMemory>
    requires have_shape { D.shape_of have.now ≡ shape.now }
    requires allowed_shape { D.shape_of allowed.now ≡ shape.now }
    ensures first { IfOk result (λ found. IsAnswer (IsLine D.PAIRS shape.now) (D.holds have.now) (D.holds allowed.now) found) }
{
    let group = counted(shape.group.items().len())?;
    let variables = counted(shape.group.items().len() + shape.singles.items().len())?;
    let arrays = counted(shape.arrays.items().len())?;
    match variables_passed(have, allowed, variables) {
        Some(found) => Ok(Some(found)),
        None => match group_passed(alloc, have, allowed, group)? {
            Some(found) => Ok(Some(found)),
            None => Ok(arrays_passed(have, allowed, arrays)),
        },
    }
}

/// None exactly where each point of the first state is one of the second, else the first bound that it passes.
///
/// `NoMemory`: memory ran out, or no bound tells the states apart, which the law of a domain excludes.
#[tactic(auto, using(crate::proofs::Outside::outside))]
pub fn compared<D: Domain>(
    alloc: Global,
    shape: &Shape,
    have: &D,
    allowed: &D,
) -> Result<Option<Passed>, NoMemory>
    requires have_shape { D.shape_of have.now ≡ shape.now }
    requires allowed_shape { D.shape_of allowed.now ≡ shape.now }
    ensures within { IfOk result (λ found. IfNone found ((p : Point) → D.holds have.now p → D.holds allowed.now p)) }
    ensures first { IfOk result (λ found. IfSome found (IsFirst (IsLine D.PAIRS shape.now) (D.holds have.now) (D.holds allowed.now))) }
    ensures outside { IfOk result (λ found. IfSome found (λ passed. IsWithin (D.holds have.now) (D.holds allowed.now) → ⊥)) }
{
    if have.within(allowed) {
        return Ok(None);
    }
    match first_passed(alloc, shape, have, allowed)? {
        Some(found) => Ok(Some(found)),
        None => Err(NoMemory),
    }
}
