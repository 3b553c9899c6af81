// The flag `Overflow`, which an operator may set.
ghost use Rattle.std.specs.Prelude.{◌≡◌, ◌<◌, OnOk};
ghost use Rattle.wm_hull.specs.Boxes.{BoxesFit, used_box};
ghost use Rattle.wm_domain.specs.States.{count_of, Keeps, IsLeast};
ghost use Rattle.wm_step.specs.Operating.{FlagsSomewhere};
ghost use Rattle.wm_operated.specs.Raising.{Raised};

use std::alloc::Global;
use wm_domain::Domain;
use wm_hull::flags;
use wm_interval::Interval;
use wm_ops::{NoMemory, Op};

// the variable keeps its number or becomes 1: the join of both states, for what is told of it with others
fn raise<D: Domain>(alloc: Global, state: &mut D, overflow: u32) -> Result<(), NoMemory>
    requires inside { overflow < count_of (D.shape_of state.old) }
    ensures shape { OnOk result (D.shape_of state.new ≡ D.shape_of state.old) }
    ensures sound { OnOk result (Keeps D.holds D.shape_of state.new (Raised (D.holds state.old) (Unit {0}) overflow)) }
    ensures least { OnOk result (IsLeast D.holds D.shape_of state.new (Raised (D.holds state.old) (Unit {0}) overflow)) }
{
    let mut risen = state.copy(alloc)?;
    let one = Interval::new(1, 1);
    risen.assign_range(overflow, one);
    state.join_with(&risen);
    Ok(())
}

/// The flag keeps its number or, where the operator sets it somewhere in the boxes, becomes 1. `NoMemory`: memory ran out.
pub fn flagged<D: Domain>(
    alloc: Global,
    state: &mut D,
    op: Op,
    boxes: &[Interval; 3],
    overflow: u32,
) -> Result<(), NoMemory>
    requires fit { BoxesFit op (used_box op boxes.now 0) (used_box op boxes.now 1) (used_box op boxes.now 2) }
    requires inside { overflow < count_of (D.shape_of state.old) }
    ensures shape { OnOk result (D.shape_of state.new ≡ D.shape_of state.old) }
    ensures sound { OnOk result (Keeps D.holds D.shape_of state.new (Raised (D.holds state.old) (FlagsSomewhere op boxes.now) overflow)) }
    ensures least { OnOk result (IsLeast D.holds D.shape_of state.new (Raised (D.holds state.old) (FlagsSomewhere op boxes.now) overflow)) }
{
    if flags(op, boxes) {
        raise(alloc, state, overflow)?;
        return Ok(());
    }
    Ok(())
}
