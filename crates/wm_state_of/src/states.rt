// The state that the lines of a head bound.
ghost use Rattle.std.specs.Prelude.{◌≡◌, ◌≤◌, ◌<◌, ◌^◌, IfOk, OnOk, length, Some};
ghost use Rattle.wm_domain.specs.Points.{Point};
ghost use Rattle.wm_domain.specs.Changes.{IsUnset};
ghost use Rattle.wm_domain.specs.States.{IsShape, InShape, count_of, array_count};
ghost use Rattle.wm_state_of.specs.Meeting.{IsStateOf};

use crate::arrays::set_arrays;
use crate::bounds::{keep_bounds, keep_pairs};
use std::alloc::Global;
use wm_cert_text::State;
use wm_domain::{Domain, Shape};
use wm_ops::NoMemory;

/// Keeps what the lines bound, where no array has a set cell. Lines past the shape, and other lines of arrays than one for each,
/// which no text of the graph has, are refused.
fn bound<D: Domain>(
    alloc: Global,
    shape: &Shape,
    state: &mut D,
    told: &State,
) -> Result<(), NoMemory>
    requires shape { D.shape_of state.old ≡ shape.now }
    requires full { (p : Point) → InShape shape.now p → IsUnset shape.now p → D.holds state.old p }
    ensures shape { OnOk result (D.shape_of state.new ≡ shape.now) }
    ensures state { OnOk result (IsStateOf shape.now (Some told.now) (D.holds state.new)) }
{
    let variables = shape.group.items().len() + shape.singles.items().len();
    if variables < told.bounds.items().len() || 4_294_967_295 < variables {
        return Err(NoMemory);
    }
    let arrays = shape.arrays.items().len();
    if arrays != told.arrays.items().len() || 4_294_967_295 < arrays {
        return Err(NoMemory);
    }
    set_arrays(state, told.arrays.items());
    keep_bounds(alloc, state, told.bounds.items())?;
    keep_pairs(alloc, state, shape.group.items().len(), told.pairs.items())?;
    Ok(())
}

/// The state of the shape that holds exactly the points within the told ends; without a point where none is told.
#[tactic(auto, using(crate::proofs::Setting::unset_kept))]
pub fn state_of<D: Domain>(
    alloc: Global,
    shape: &Shape,
    told: &Option<State>,
) -> Result<D, NoMemory>
    requires valid { IsShape shape.now }
    ensures shape { IfOk result (λ state. D.shape_of state ≡ shape.now) }
    ensures state { IfOk result (λ state. IsStateOf shape.now told.now (D.holds state)) }
{
    let mut state = D::full(alloc, shape)?;
    match told {
        None => state.clear(),
        Some(told) => bound(alloc, shape, &mut state, told)?,
    }
    Ok(state)
}
