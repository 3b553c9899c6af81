// Tie edges: one for each sum counter of the innermost loop.
ghost use Rattle.std.specs.Prelude.{◌≡◌, suc, None, OnOk, IfOk};
ghost use Rattle.wm_flow.specs.Places as places;
ghost use Rattle.wm_flow.specs.Plain as plain;
ghost use Rattle.wm_flow.specs.Views.{doing_of};
ghost use Rattle.wm_flow.specs.Statements as statements;
ghost use Rattle.wm_places.specs.Seen.{plan_of};
ghost use Rattle.wm_steps.specs.Moves.{stepped};
ghost use Rattle.wm_control.specs.Moves.{tying, tying_from};

use crate::loops::step_of;
use wm_flow::{Action, Scene, Sum};
use wm_ops::NoMemory;
use wm_pen::Pen;
use wm_places::{Plan, bases_of, counter, first_sum, next, sums_in};
use wm_steps::step;

#[tactic(auto, unfolding(wm_flow::specs::Views::doing_of))]
fn tie(plan: &Plan, scene: Scene, loop_id: u32, variable: u32, sum: Sum) -> Result<Action, NoMemory>
    ensures { IfOk result (λ action. doing_of action ≡ plain.Tie (places.counter (places.bases_of (plan_of plan.now) scene)) (statements.step_of (plan_of plan.now) loop_id) variable sum.step) }
{
    let bases = bases_of(plan, scene)?;
    let counter = counter(bases)?;
    Ok(Action::Tie {
        counter,
        loop_step: step_of(plan, loop_id),
        variable,
        step: sum.step,
    })
}

/// One tie, and the next sum counter.
fn tie_next(
    plan: &Plan,
    scene: Scene,
    loop_id: u32,
    variable: u32,
    sum: Sum,
    pen: &mut Pen,
) -> Result<u32, NoMemory>
    ensures next { IfOk result (λ more. more ≡ suc variable) }
    ensures strokes { OnOk result (pen.new ≡ stepped (plan_of plan.now) scene (plain.Tie (places.counter (places.bases_of (plan_of plan.now) scene)) (statements.step_of (plan_of plan.now) loop_id) variable sum.step) None 0 pen.old) }
{
    let action = tie(plan, scene, loop_id, variable, sum)?;
    step(plan, scene, action, None, 0, pen)?;
    next(variable)
}

fn ties_from(
    sums: &[Sum],
    plan: &Plan,
    scene: Scene,
    loop_id: u32,
    first: u32,
    pen: &mut Pen,
) -> Result<(), NoMemory>
    ensures { OnOk result (pen.new ≡ tying_from (plan_of plan.now) scene loop_id first sums.now pen.old) }
{
    let mut variable = first;
    for sum in sums {
        variable = tie_next(plan, scene, loop_id, variable, *sum, pen)?;
    }
    Ok(())
}

/// The ties of the sum counters of a loop, where the scene is inside it.
pub fn ties(plan: &Plan, scene: Scene, loop_id: u32, pen: &mut Pen) -> Result<(), NoMemory>
    ensures { OnOk result (pen.new ≡ tying (plan_of plan.now) scene loop_id pen.old) }
{
    let bases = bases_of(plan, scene)?;
    let first = first_sum(bases)?;
    let sums = sums_in(plan, scene.instance, scene.inner)?;
    ties_from(sums, plan, scene, loop_id, first, pen)?;
    Ok(())
}

/// How many ties there are, where the scene is inside the loop.
pub fn ties_size(plan: &Plan, scene: Scene) -> Result<u32, NoMemory>
    ensures { IfOk result (λ size. size ≡ statements.ties_size (plan_of plan.now) scene) }
{
    let sums = sums_in(plan, scene.instance, scene.inner)?;
    match u32::try_from(sums.len()) {
        Ok(size) => Ok(size),
        Err(_) => Err(NoMemory),
    }
}
