// Values that wait, one after another.
ghost use Rattle.std.specs.Prelude.{◌≡◌, OnOk, IfOk};
ghost use Rattle.wm_flow.specs.Places as places;
ghost use Rattle.wm_flow.specs.Yields as yields;
ghost use Rattle.wm_places.specs.Seen.{plan_of};
ghost use Rattle.wm_steps.specs.Moves.{waiting, yielding};
ghost use Rattle.wm_steps.specs.Values.{with_waited, all_waited};

use crate::temporaries::no_values;
use crate::waits::wait;
use wm_flow::{Coming, Held, Kept, Scene};
use wm_ops::NoMemory;
use wm_pen::Pen;
use wm_places::Plan;

/// One more value that waits, behind others.
#[tactic(auto, unfolding(crate::specs::Values::with_waited))]
fn wait_next(
    plan: &Plan,
    scene: Scene,
    it: Coming,
    held: &mut Held,
    kept: Kept,
    pen: &mut Pen,
) -> Result<(), NoMemory>
    ensures values { OnOk result (held.new ≡ with_waited (places.bases_of (plan_of plan.now) scene) it held.old kept) }
    ensures strokes { OnOk result (pen.new ≡ waiting (plan_of plan.now) scene it kept held.old.temporaries pen.old) }
{
    let waits = wait(plan, scene, it, kept, held.temporaries, pen)?;
    held.values.push(waits.value)?;
    held.temporaries = waits.temporaries;
    Ok(())
}

/// Values that wait, behind others.
fn wait_all(
    plan: &Plan,
    scene: Scene,
    it: Coming,
    held: &mut Held,
    values: &[Kept],
    pen: &mut Pen,
) -> Result<(), NoMemory>
    ensures values { OnOk result (held.new ≡ all_waited (places.bases_of (plan_of plan.now) scene) it held.old values.now) }
    ensures strokes { OnOk result (pen.new ≡ yielding (plan_of plan.now) scene it values.now held.old.temporaries pen.old) }
{
    for kept in values {
        wait_next(plan, scene, it, held, *kept, pen)?;
    }
    Ok(())
}

/// The values as they wait for what comes: those that must have gone to temporaries.
#[tactic(auto, using(crate::proofs::ValuesWait::all_yielded))]
pub fn yielded(
    plan: &Plan,
    scene: Scene,
    it: Coming,
    values: &[Kept],
    temporaries: u32,
    pen: &mut Pen,
) -> Result<Held, NoMemory>
    ensures values { IfOk result (λ held. held ≡ yields.yielded (places.bases_of (plan_of plan.now) scene) it values.now temporaries) }
    ensures strokes { OnOk result (pen.new ≡ yielding (plan_of plan.now) scene it values.now temporaries pen.old) }
{
    let mut held = no_values(plan.alloc, temporaries);
    wait_all(plan, scene, it, &mut held, values, pen)?;
    Ok(held)
}
