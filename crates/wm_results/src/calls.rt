// Calls of functions.
ghost use Rattle.std.specs.Prelude.{◌≡◌, ◌+◌, OnOk, IfOk};
ghost use Rattle.wm_program.specs.Code as codes;
ghost use Rattle.wm_flow.specs.Places as places;
ghost use Rattle.wm_flow.specs.Expressions as expressions;
ghost use Rattle.wm_places.specs.Seen.{plan_of};
ghost use Rattle.wm_results.specs.Draws.{calling};

use wm_crossings::{enter, leave, result_of, result_size, size_at};
use wm_flow::{Bases, Kept, Scene};
use wm_forms::{constant, variable};
use wm_ops::NoMemory;
use wm_pen::Pen;
use wm_places::{Plan, bases_of, function_of, next, plus, temporary};

/// The value of a call: the next temporary but so many, or 0 where there is no result.
fn call_value(plan: &Plan, bases: Bases, function: u32, temporaries: u32) -> Result<Kept, NoMemory>
    ensures { IfOk result (λ kept. kept ≡ expressions.call_value (plan_of plan.now) bases function temporaries) }
{
    if result_of(plan, function) {
        let v = temporary(bases, temporaries)?;
        return Ok(variable(v));
    }
    Ok(constant(0))
}

/// The call of an instance, its nodes, and the return to a node with `temporaries` in use, and one more where there is a
/// result.
#[tactic(auto, unfolding(wm_flow::specs::Expressions::call_strokes), using(crate::proofs::CallsDrawn::calling_joins))]
fn call(
    plan: &Plan,
    scene: Scene,
    function: u32,
    instance: u32,
    values: &[Kept],
    temporaries: u32,
    pen: &mut Pen,
) -> Result<(), NoMemory>
    ensures { OnOk result (pen.new ≡ calling (plan_of plan.now) scene function instance values.now temporaries pen.old) }
{
    let node = pen.node();
    let start = next(node)?;
    let size = size_at(plan, instance);
    let exit = plus(start, size)?;
    let target = next(exit)?;
    let count = plus(temporaries, result_size(plan, function))?;
    let entry = enter(plan, scene, instance, values)?;
    let back = leave(plan, scene, instance, node, temporaries)?;
    let behind = next(size)?;
    pen.line(node, start, entry, None)?;
    pen.part(instance, start)?;
    pen.line(exit, target, back, None)?;
    pen.skip(behind)?;
    pen.point(plan, scene, count)
}

/// A call of the instance whose number is so much greater than the scene's, with the values of its arguments.
#[tactic(auto, unfolding(wm_places::specs::Seen::plan_of))]
pub fn called(
    plan: &Plan,
    scene: Scene,
    offset: u32,
    values: &[Kept],
    temporaries: u32,
    pen: &mut Pen,
) -> Result<Kept, NoMemory>
    ensures value { IfOk result (λ kept. kept ≡ expressions.call_value (plan_of plan.now) (places.bases_of (plan_of plan.now) scene) (codes.function_of (plan_of plan.now).code (scene.instance + offset)) temporaries) }
    ensures strokes { OnOk result (pen.new ≡ calling (plan_of plan.now) scene (codes.function_of (plan_of plan.now).code (scene.instance + offset)) (scene.instance + offset) values.now temporaries pen.old) }
{
    let bases = bases_of(plan, scene)?;
    let instance = plus(scene.instance, offset)?;
    let function = function_of(plan.program, instance);
    let value = call_value(plan, bases, function, temporaries)?;
    call(plan, scene, function, instance, values, temporaries, pen)?;
    Ok(value)
}
