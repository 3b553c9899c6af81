// The image of two states along the edge of a return.
ghost use Rattle.std.specs.Prelude.{◌≡◌, ◌<◌, ◌^◌, length, IfOk, OnOk};
ghost use Rattle.wm_domain.specs.States.{count_of, array_count, IsShape, Keeps};
ghost use Rattle.wm_domain.specs.Changes.{ArePicks};
ghost use Rattle.wm_filters.specs.Stays.{Stays};
ghost use Rattle.wm_step.specs.Images.{LeaveImage, IsReturned};
ghost use Rattle.wm_left.specs.Taking.{TakenFrom, IsResult};

use crate::pairs::take_pairs;
use crate::single::{take_one, take_ranges};
use std::alloc::Global;
use wm_domain::{Domain, Shape};
use wm_flow::Returned;
use wm_ops::NoMemory;

/// From where the variables and arrays behind a call come, and the result.
#[derive(Clone, Copy)]
pub struct Return<'g> {
    pub from_call: &'g [Option<u32>],
    pub from_exit: &'g [Option<u32>],
    pub arrays: &'g [Option<u32>],
    pub result: Option<Returned>,
}

// pairs, where states keep bounds on them
fn take_related<D: Domain>(
    alloc: Global,
    there: &D,
    state: &mut D,
    picks: &[Option<u32>],
    group: usize,
) -> Result<(), NoMemory>
    requires shaped { IsShape (D.shape_of there.now) }
    requires long { length picks.now ≡ count_of (D.shape_of state.old) }
    requires few { length picks.now < 2 ^ 32 }
    requires picks { ArePicks (count_of (D.shape_of there.now)) picks.now }
    ensures shape { OnOk result (D.shape_of state.new ≡ D.shape_of state.old) }
    ensures kept { OnOk result (Stays D.holds (D.shape_of state.old) state.old state.new (TakenFrom (D.holds there.now) picks.now)) }
{
    if D::PAIRS {
        return take_pairs(alloc, there, state, picks, group);
    }
    Ok(())
}

// what comes from the call's node
fn take_own<D: Domain>(
    alloc: Global,
    group: usize,
    there: &D,
    state: &mut D,
    picks: &[Option<u32>],
) -> Result<(), NoMemory>
    requires shaped { IsShape (D.shape_of there.now) }
    requires shaped_here { IsShape (D.shape_of state.old) }
    requires long { length picks.now ≡ count_of (D.shape_of state.old) }
    requires few { length picks.now < 2 ^ 32 }
    requires picks { ArePicks (count_of (D.shape_of there.now)) picks.now }
    ensures shape { OnOk result (D.shape_of state.new ≡ D.shape_of state.old) }
    ensures kept { OnOk result (Stays D.holds (D.shape_of state.old) state.old state.new (TakenFrom (D.holds there.now) picks.now)) }
{
    if there.is_empty() {
        state.clear();
        return Ok(());
    }
    take_ranges(there, state, picks);
    take_related(alloc, there, state, picks, group)?;
    Ok(())
}

// the result comes from the exit
fn take_result<D: Domain>(at_exit: &D, state: &mut D, returned: Option<Returned>)
    requires shaped { IsShape (D.shape_of state.old) }
    requires result { IsResult (count_of (D.shape_of state.old)) (count_of (D.shape_of at_exit.now)) returned }
    ensures shape { D.shape_of state.new ≡ D.shape_of state.old }
    ensures kept { Stays D.holds (D.shape_of state.old) state.old state.new (IsReturned (D.holds at_exit.now) returned) }
{
    match returned {
        None => {}
        Some(it) => take_one(at_exit, state, it.target, it.at_exit),
    }
}

/// The state behind a call. What is static comes from the exit, and the caller's own variables from the call's node, with
/// the relations that they have there; nothing relates the two, and the result lies in its range at the exit. `NoMemory`:
/// memory ran out.
pub fn left<D: Domain>(
    alloc: Global,
    target: &Shape,
    at_call: &D,
    at_exit: &D,
    it: &Return,
) -> Result<D, NoMemory>
    requires shaped { IsShape target.now }
    requires call_shaped { IsShape (D.shape_of at_call.now) }
    requires few { count_of target.now < 2 ^ 32 }
    requires call_long { length it.now.from_call.now ≡ count_of target.now }
    requires exit_long { length it.now.from_exit.now ≡ count_of target.now }
    requires arrays_long { length it.now.arrays.now ≡ array_count target.now }
    requires call_picks { ArePicks (count_of (D.shape_of at_call.now)) it.now.from_call.now }
    requires exit_picks { ArePicks (count_of (D.shape_of at_exit.now)) it.now.from_exit.now }
    requires array_picks { ArePicks (array_count (D.shape_of at_exit.now)) it.now.arrays.now }
    requires result { IsResult (count_of target.now) (count_of (D.shape_of at_exit.now)) it.now.result }
    ensures shape { IfOk result (λ s. D.shape_of s ≡ target.now) }
    ensures sound { IfOk result (λ s. Keeps D.holds D.shape_of s (LeaveImage (D.holds at_call.now) (D.holds at_exit.now) it.now.from_call.now it.now.from_exit.now it.now.arrays.now it.now.result)) }
{
    let mut state = at_exit.project(alloc, target, it.from_exit, it.arrays)?;
    let group = target.group.items().len();
    take_own(alloc, group, at_call, &mut state, it.from_call)?;
    take_result(at_exit, &mut state, it.result);
    Ok(state)
}
