// Arguments: one more value behind those that have waited for it.
ghost use Rattle.std.specs.Prelude.{◌≡◌, pos, OnOk, IfOk};
ghost use Rattle.wm_flow.specs.Places as places;
ghost use Rattle.wm_flow.specs.Yields as yields;
ghost use Rattle.wm_places.specs.Seen.{plan_of};
ghost use Rattle.wm_results.specs.Draws.{taking, begun, viewing};

use crate::elements::cells_in;
use wm_flow::{Held, Kept, Scene};
use wm_ops::NoMemory;
use wm_pen::Pen;
use wm_places::{Plan, bases_of, offset_of};
use wm_program::Array;
use wm_steps::{after, narrow, place, place_form, with_value};

/// A value, with the test of its conversion, where there is one.
#[tactic(auto, unfolding(crate::specs::Draws::taking))]
pub fn passed_value(
    plan: &Plan,
    scene: Scene,
    narrowing: Option<u32>,
    wait: Held,
    kept: Kept,
    pen: &mut Pen,
) -> Result<Held, NoMemory>
    ensures values { IfOk result (λ held. held ≡ yields.with_value (places.bases_of (plan_of plan.now) scene) wait kept) }
    ensures strokes { OnOk result (pen.new ≡ taking (plan_of plan.now) scene narrowing wait kept pen.old) }
{
    let bases = bases_of(plan, scene)?;
    let count = after(bases, kept, wait.temporaries)?;
    narrow(plan, scene, narrowing, kept, count, pen)?;
    with_value(bases, wait, kept)
}

/// A whole array: the value is where it begins.
pub fn passed_whole(plan: &Plan, scene: Scene, array: Array, held: Held) -> Result<Held, NoMemory>
    ensures values { IfOk result (λ more. more ≡ yields.with_value (places.bases_of (plan_of plan.now) scene) held (places.offset_of (plan_of plan.now) scene array)) }
{
    let bases = bases_of(plan, scene)?;
    let offset = offset_of(plan, scene, array)?;
    with_value(bases, held, offset)
}

/// The part of an array from an index on. The value is where it begins, which may be behind the last cell.
#[tactic(auto, unfolding(crate::specs::Draws::viewing, crate::specs::Draws::begun))]
pub fn passed_view(
    plan: &Plan,
    scene: Scene,
    array: Array,
    site: u32,
    wait: Held,
    at: Kept,
    pen: &mut Pen,
) -> Result<Held, NoMemory>
    ensures values { IfOk result (λ held. held ≡ yields.with_value (places.bases_of (plan_of plan.now) scene) wait (begun (plan_of plan.now) scene array wait at)) }
    ensures strokes { OnOk result (pen.new ≡ viewing (plan_of plan.now) scene array site wait at pen.old) }
{
    let bases = bases_of(plan, scene)?;
    let offset = offset_of(plan, scene, array)?;
    let count = after(bases, at, wait.temporaries)?;
    let kept = place_form(bases, offset, at, count)?;
    let left = after(bases, kept, wait.temporaries)?;
    let ends = (0, i64::from(cells_in(plan, scene, array)));
    place(plan, scene, offset, at, ends, site, count, left, pen)?;
    with_value(bases, wait, kept)
}
