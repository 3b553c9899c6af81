// One value that waits.
ghost use Rattle.std.specs.Prelude.{◌≡◌, ◌&&◌, OnOk, IfOk};
ghost use Rattle.wm_flow.specs.Places as places;
ghost use Rattle.wm_flow.specs.Yields as yields;
ghost use Rattle.wm_places.specs.Seen.{plan_of};
ghost use Rattle.wm_steps.specs.Moves.{waiting};
ghost use Rattle.wm_steps.specs.Values.{waited};

use crate::temporaries::{after, to_temporary};
use wm_flow::{Bases, Coming, Kept, Scene};
use wm_forms::variable;
use wm_ops::NoMemory;
use wm_pen::Pen;
use wm_places::{Plan, bases_of, has_overflow, has_static, next, temporary};

/// A value that waits, and how many temporaries are in use.
#[derive(Clone, Copy, Debug, PartialEq, Eq)]
pub struct Waiting {
    pub value: Kept,
    pub temporaries: u32,
}

fn changes_by_call(bases: Bases, it: Coming, kept: Kept) -> Result<bool, NoMemory>
    ensures { IfOk result (λ must. must ≡ (it.call && places.has_static bases kept)) }
{
    if it.call {
        return has_static(bases, kept);
    }
    Ok(false)
}

fn changes_by_operator(bases: Bases, it: Coming, kept: Kept) -> Result<bool, NoMemory>
    ensures { IfOk result (λ must. must ≡ (it.operator && places.has_overflow bases kept)) }
{
    if it.operator {
        return has_overflow(bases, kept);
    }
    Ok(false)
}

/// Whether a value must go to a temporary before what comes.
#[tactic(auto, unfolding(wm_flow::specs::Yields::must_yield))]
fn must_yield(bases: Bases, it: Coming, kept: Kept) -> Result<bool, NoMemory>
    ensures { IfOk result (λ must. must ≡ yields.must_yield bases it kept) }
{
    if changes_by_call(bases, it, kept)? {
        return Ok(true);
    }
    changes_by_operator(bases, it, kept)
}

/// The value that waits goes to a temporary where it must.
#[tactic(auto, unfolding(crate::specs::Moves::waiting, crate::specs::Values::waited))]
pub(crate) fn wait(
    plan: &Plan,
    scene: Scene,
    it: Coming,
    kept: Kept,
    temporaries: u32,
    pen: &mut Pen,
) -> Result<Waiting, NoMemory>
    ensures value { IfOk result (λ waits. waits ≡ waited (places.bases_of (plan_of plan.now) scene) it kept temporaries) }
    ensures strokes { OnOk result (pen.new ≡ waiting (plan_of plan.now) scene it kept temporaries pen.old) }
{
    let bases = bases_of(plan, scene)?;
    if must_yield(bases, it, kept)? {
        to_temporary(plan, scene, temporaries, kept, pen)?;
        let v = temporary(bases, temporaries)?;
        let count = next(temporaries)?;
        return Ok(Waiting {
            value: variable(v),
            temporaries: count,
        });
    }
    Ok(Waiting {
        value: kept,
        temporaries,
    })
}

/// The left operand of an operator waits for what comes in the right one.
pub fn wait_left(
    plan: &Plan,
    scene: Scene,
    it: Coming,
    kept: Kept,
    temporaries: u32,
    pen: &mut Pen,
) -> Result<Waiting, NoMemory>
    ensures value { IfOk result (λ waits. waits ≡ waited (places.bases_of (plan_of plan.now) scene) it kept (yields.after (places.bases_of (plan_of plan.now) scene) kept temporaries)) }
    ensures strokes { OnOk result (pen.new ≡ waiting (plan_of plan.now) scene it kept (yields.after (places.bases_of (plan_of plan.now) scene) kept temporaries) pen.old) }
{
    let bases = bases_of(plan, scene)?;
    let count = after(bases, kept, temporaries)?;
    wait(plan, scene, it, kept, count, pen)
}
