// All that a state tells.
ghost use Rattle.std.specs.Prelude.{◌≡◌, IfOk, MatchOption};
ghost use Rattle.wm_domain.specs.States.{IsShape, IsBare};
ghost use Rattle.wm_told.specs.Tells.{ArePairs, pairs_of, IsToldOf};

use crate::cells::arrays;
use crate::counts::small;
use crate::pairs::all_pairs;
use crate::ranges::ranges;
use std::alloc::Global;
use wm_cert_text::{Pair, State};
use wm_domain::{Domain, Shape};
use wm_ops::{List, NoMemory};

/// The pairs of the group where the domain keeps bounds on pairs, and else none.
fn kept_pairs<D: Domain>(alloc: Global, shape: &Shape, state: &D) -> Result<List<Pair>, NoMemory>
    requires shape { D.shape_of state.now ≡ shape.now }
    requires valid { IsShape shape.now }
    requires point { IsBare (D.holds state.now) → ⊥ }
    ensures exact { IfOk result (λ pairs. ArePairs (D.holds state.now) (pairs_of D.PAIRS shape.now.group) pairs) }
{
    if D::PAIRS {
        return all_pairs(alloc, shape.group.items(), state);
    }
    Ok(List::new(alloc))
}

/// All that a state with a point tells.
fn told_of<D: Domain>(alloc: Global, shape: &Shape, state: &D) -> Result<State, NoMemory>
    requires shape { D.shape_of state.now ≡ shape.now }
    requires valid { IsShape shape.now }
    requires point { IsBare (D.holds state.now) → ⊥ }
    ensures exact { IfOk result (λ told. IsToldOf D.PAIRS shape.now (D.holds state.now) told) }
{
    let count = small(shape.group.items().len() + shape.singles.items().len())?;
    let array_count = small(shape.arrays.items().len())?;
    Ok(State {
        bounds: ranges(alloc, state, count)?,
        pairs: kept_pairs(alloc, shape, state)?,
        arrays: arrays(alloc, state, array_count)?,
    })
}

/// All that a state tells: the least and the greatest number of each variable, of each pair of the group where the domain
/// keeps bounds on pairs (the difference and then the sum, in the order of the variables), and of the set cells of each array.
/// None exactly where the state has no point.
pub fn tell<D: Domain>(alloc: Global, shape: &Shape, state: &D) -> Result<Option<State>, NoMemory>
    requires shape { D.shape_of state.now ≡ shape.now }
    requires valid { IsShape shape.now }
    ensures exact { IfOk result (λ told. MatchOption told (IsBare (D.holds state.now)) (IsToldOf D.PAIRS shape.now (D.holds state.now))) }
{
    if state.is_empty() {
        return Ok(None);
    }
    Ok(Some(told_of(alloc, shape, state)?))
}
