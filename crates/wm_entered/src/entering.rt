// The image of a state along the edge on which a call begins.
ghost use Rattle.std.specs.Prelude.{◌≡◌, ◌<◌, ◌^◌, All, length, IfOk};
ghost use Rattle.wm_domain.specs.States.{count_of, array_count, IsShape, Keeps};
ghost use Rattle.wm_domain.specs.Changes.{ArePicks};
ghost use Rattle.wm_step.specs.Images.{EnterImage};
ghost use Rattle.wm_middle.specs.Parting.{IsArgument};

use crate::arguments::{put_arguments, put_others};
use crate::between::{back, toward};
use crate::values::Between;
use std::alloc::Global;
use wm_domain::{Domain, Shape};
use wm_middle::{Call, middle_of, shape_of};
use wm_ops::NoMemory;

/// The state at the callee's first node, of the shape `target`. Variables and arrays that are picked have what the caller
/// has there, the other arrays no set cell, and each parameter has the value of its argument: the value itself where it has
/// at most one term, and of two a number of its range that differs from the first variable with the plus sign by a number of
/// the range of the rest. All else may be any. `NoMemory`: memory ran out.
pub fn entered<D: Domain>(alloc: Global, target: &Shape, at: &D, call: &Call) -> Result<D, NoMemory>
    requires shaped { IsShape target.now }
    requires call_shaped { IsShape (D.shape_of at.now) }
    requires few { count_of target.now < 2 ^ 32 }
    requires few_arrays { array_count target.now < 2 ^ 32 }
    requires long { length call.now.picks.now ≡ count_of target.now }
    requires arrays_long { length call.now.arrays.now ≡ array_count target.now }
    requires picks { ArePicks (count_of (D.shape_of at.now)) call.now.picks.now }
    requires array_picks { ArePicks (array_count (D.shape_of at.now)) call.now.arrays.now }
    requires arguments { All (IsArgument (count_of (D.shape_of at.now)) (count_of target.now)) call.now.arguments.now }
    ensures shape { IfOk result (λ s. D.shape_of s ≡ target.now) }
    ensures sound { IfOk result (λ s. Keeps D.holds D.shape_of s (EnterImage (D.holds at.now) call.now.picks.now call.now.arrays.now call.now.arguments.now)) }
{
    let middle = middle_of(alloc, call, target.group.items().len())?;
    let shape = shape_of(alloc, target, &middle)?;
    let between = Between {
        alloc,
        parts: &middle.parts,
    };
    let mut state = toward(alloc, &shape, at, &middle.parts, call.arrays)?;
    put_arguments(&between, at, &mut state, call.arguments)?;
    let mut behind = back(alloc, target, &state, &middle.parts, call.picks)?;
    put_others(&middle.parts, at, &mut behind, call.arguments);
    Ok(behind)
}
