// Numbers made of numbers.
ghost use Rattle.std.specs.Prelude.{◌≡◌, suc, OnOk, IfOk};
ghost use Rattle.wm_flow.specs.Kept as forms;
ghost use Rattle.wm_flow.specs.Places as places;
ghost use Rattle.wm_flow.specs.Views.{doing_of};
ghost use Rattle.wm_flow.specs.Expressions as expressions;
ghost use Rattle.wm_places.specs.Seen.{plan_of};
ghost use Rattle.wm_steps.specs.Moves.{operating};
ghost use Rattle.wm_results.specs.Draws.{negating, casting};

use wm_flow::{Action, Held, Kept, Scene};
use wm_forms::{form_of, negative_of, variable};
use wm_ops::{NoMemory, Op, Width};
use wm_pen::Pen;
use wm_places::{Plan, bases_of, next, temporary};
use wm_steps::{after, operate, step, tested_negative};

/// The number with the other sign. It is tested to lie in 32 bits and stays a form.
#[tactic(auto, unfolding(crate::specs::Draws::negating))]
pub fn negated(
    plan: &Plan,
    scene: Scene,
    a: Kept,
    site: u32,
    temporaries: u32,
    pen: &mut Pen,
) -> Result<Kept, NoMemory>
    ensures value { IfOk result (λ kept. kept ≡ forms.negative_of a) }
    ensures strokes { OnOk result (pen.new ≡ negating (plan_of plan.now) scene a site temporaries pen.old) }
{
    let bases = bases_of(plan, scene)?;
    let count = after(bases, a, temporaries)?;
    let kept = negative_of(a)?;
    let action = tested_negative(plan.alloc, kept, a)?;
    step(plan, scene, action, Some(site), count, pen)?;
    Ok(kept)
}

/// What a cast does.
#[tactic(auto, unfolding(wm_flow::specs::Views::doing_of))]
fn cast_action(
    plan: &Plan,
    scene: Scene,
    to: Width,
    a: Kept,
    target: u32,
) -> Result<Action, NoMemory>
    ensures { IfOk result (λ action. doing_of action ≡ expressions.cast_doing (plan_of plan.now) scene to a target) }
{
    let form = form_of(plan.alloc, a)?;
    match to {
        Width::W16 => Ok(Action::Cast { form, target }),
        Width::W32 => Ok(Action::AssignForm { target, form }),
    }
}

/// A cast to a type of this width: the value goes to the next temporary but so many.
#[tactic(auto, unfolding(crate::specs::Draws::casting))]
pub fn cast(
    plan: &Plan,
    scene: Scene,
    to: Width,
    a: Kept,
    temporaries: u32,
    pen: &mut Pen,
) -> Result<Kept, NoMemory>
    ensures value { IfOk result (λ kept. kept ≡ forms.variable (places.temporary (places.bases_of (plan_of plan.now) scene) temporaries)) }
    ensures strokes { OnOk result (pen.new ≡ casting (plan_of plan.now) scene to a temporaries pen.old) }
{
    let bases = bases_of(plan, scene)?;
    let target = temporary(bases, temporaries)?;
    let count = next(temporaries)?;
    let action = cast_action(plan, scene, to, a, target)?;
    step(plan, scene, action, None, count, pen)?;
    Ok(variable(target))
}

/// An operator on the values of its arguments, whose result goes to the next temporary but so many.
pub fn operated(
    plan: &Plan,
    scene: Scene,
    op: Op,
    site: u32,
    held: &Held,
    temporaries: u32,
    pen: &mut Pen,
) -> Result<Kept, NoMemory>
    ensures value { IfOk result (λ kept. kept ≡ forms.variable (places.temporary (places.bases_of (plan_of plan.now) scene) temporaries)) }
    ensures strokes { OnOk result (pen.new ≡ operating (plan_of plan.now) scene op site held.now (places.temporary (places.bases_of (plan_of plan.now) scene) temporaries) (suc temporaries) pen.old) }
{
    let bases = bases_of(plan, scene)?;
    let target = temporary(bases, temporaries)?;
    let count = next(temporaries)?;
    operate(plan, scene, op, site, held, target, count, pen)?;
    Ok(variable(target))
}
