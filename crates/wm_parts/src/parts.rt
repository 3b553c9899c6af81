// The strokes of an instance: its parameters, its function's body, and its exit.
ghost use Rattle.std.specs.Prelude.{◌≡◌, OnOk, IfOk};
ghost use Rattle.wm_flow.specs.Calls.{scene_of};
ghost use Rattle.wm_flow.specs.Parts as parts;
ghost use Rattle.wm_places.specs.Seen.{plan_of};
ghost use Rattle.wm_pen.specs.Ink.{drawing, measuring};
ghost use Rattle.wm_pen.specs.Seen.{strokes_of};
ghost use Rattle.wm_program.specs.Code.{routine_at};
ghost use Rattle.wm_trees.specs.Draws.{embodying};
ghost use Rattle.wm_parts.specs.Draws.{parting};

use wm_control::join;
use wm_crossings::{addressed_in, result_size, scene_of};
use wm_flow::Scene;
use wm_ops::NoMemory;
use wm_parameters::store_all;
use wm_pen::{Pen, Stroke};
use wm_places::Plan;
use wm_statements::body;

/// The body of the function of a scene; nothing for a function that is not there.
#[tactic(auto, unfolding(wm_places::specs::Seen::plan_of), using(wm_places::proofs::Routines::routine_there, wm_places::proofs::Routines::routine_nowhere, crate::proofs::PartsDrawn::none_is))]
fn body_in(plan: &Plan, scene: Scene, pen: &mut Pen) -> Result<(), NoMemory>
    ensures { OnOk result (pen.new ≡ embodying (plan_of plan.now) scene (routine_at (plan_of plan.now).code scene.function).body pen.old) }
{
    match plan.program.functions.items().get(scene.function as usize) {
        Some(info) => body(&info.body.statements, plan, scene, pen),
        None => Ok(()),
    }
}

/// An instance, from its first node on.
#[tactic(auto, unfolding(crate::specs::Draws::parting))]
fn part(plan: &Plan, scene: Scene, pen: &mut Pen) -> Result<(), NoMemory>
    ensures { OnOk result (pen.new ≡ parting (plan_of plan.now) scene pen.old) }
{
    let addressed = addressed_in(plan, scene.function)?;
    pen.begin(plan, scene, addressed)?;
    store_all(plan, scene, pen)?;
    body_in(plan, scene, pen)?;
    join(plan, scene, result_size(plan, scene.function), pen)
}

/// How far the exit of an instance lies behind its first node. `NoMemory`, here and below: memory ran out, or a number is
/// past 32 bits.
#[tactic(auto, using(crate::proofs::PartsDrawn::part_measured))]
pub fn part_size(plan: &Plan, instance: u32) -> Result<u32, NoMemory>
    ensures size { IfOk result (λ size. size ≡ parts.part_size (plan_of plan.now) instance) }
{
    let mut pen = Pen::measuring(plan.alloc);
    part(plan, scene_of(plan, instance), &mut pen)?;
    Ok(pen.node())
}

/// The nodes and edges of an instance, from this node on.
#[tactic(auto, using(crate::proofs::PartsDrawn::part_drawn))]
pub fn part_strokes(plan: &Plan, instance: u32, start: u32) -> Result<Vec<Stroke>, NoMemory>
    ensures strokes { IfOk result (λ list. strokes_of list.items ≡ parts.part_strokes (plan_of plan.now) instance start) }
{
    let mut pen = Pen::new(plan.alloc, start);
    part(plan, scene_of(plan, instance), &mut pen)?;
    Ok(pen.into_strokes())
}
