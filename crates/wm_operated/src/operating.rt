// The image of a state where an operator is applied.
ghost use Rattle.std.specs.Prelude.{◌≡◌, ◌≢◌, ◌<◌, Some, All, IfOk};
ghost use Rattle.wm_domain.specs.Forms.{IsForm};
ghost use Rattle.wm_domain.specs.States.{count_of, Keeps, IsLeast};
ghost use Rattle.wm_carry.specs.Following.{IsWay, origin};
ghost use Rattle.wm_assign.specs.Giving.{AreSeen};
ghost use Rattle.wm_step.specs.Operating.{OperateImage, form_at};

use crate::flags::flagged;
use crate::values::value_of;
use wm_assign::{bare, set};
use wm_boxed::boxes;
use wm_carry::Way;
use wm_domain::{Domain, Form};
use wm_ops::{NoMemory, Op};

/// The target gets the result of the operator: any number of its exact range over the boxes of the arguments that differs
/// from a first argument that is a variable by a number of what is added, with 0 where the operator saturates, and lies
/// between the clamps of the sum of two variables. The variable `overflow` keeps its number or, where the operator sets the
/// flag somewhere in the boxes, becomes 1. There is no point where an argument has no number of its type, or where the
/// operator has no result in the boxes. `NoMemory`: memory ran out.
pub fn operated<D: Domain>(
    way: &Way,
    at: &D,
    op: Op,
    args: &[Form; 3],
    target: u32,
    overflow: u32,
) -> Result<D, NoMemory>
    requires way { IsWay way.now.source.now way.now.target.now }
    requires shape { D.shape_of at.now ≡ way.now.source.now }
    requires inside { target < count_of way.now.target.now }
    requires forms { All (IsForm (count_of way.now.source.now)) args.now }
    requires seen { AreSeen way.now.source.now way.now.target.now target (form_at args.now 0).terms }
    requires flag { origin way.now.source.now way.now.target.now overflow ≡ Some overflow }
    requires flag_inside { overflow < count_of way.now.target.now }
    requires apart { target ≢ overflow }
    ensures shape { IfOk result (λ s. D.shape_of s ≡ way.now.target.now) }
    ensures sound { IfOk result (λ s. Keeps D.holds D.shape_of s (OperateImage way.now.source.now way.now.target.now (D.holds at.now) op args.now target overflow)) }
    ensures least { IfOk result (λ s. IsLeast D.holds D.shape_of s (OperateImage way.now.source.now way.now.target.now (D.holds at.now) op args.now target overflow)) }
{
    match boxes(at, op, args) {
        None => {
            let state = bare(way, at)?;
            Ok(state)
        }
        Some(all) => {
            let value = value_of(way.alloc, at, op, args, &all)?;
            let mut state = set(way, at, target, value)?;
            flagged(way.alloc, &mut state, op, &all, overflow)?;
            Ok(state)
        }
    }
}
