// The nodes of a scene.
ghost use Rattle.std.specs.Prelude.{◌≡◌, ◌+◌, length, IfOk};
ghost use Rattle.wm_flow.specs.Places.{sums_in};
ghost use Rattle.wm_flow.specs.Strokes as strokes;
ghost use Rattle.wm_places.specs.Seen.{plan_of};
ghost use Rattle.wm_pen.specs.Seen.{stroke_of};

use crate::stroke::Stroke;
use wm_flow::Scene;
use wm_ops::NoMemory;
use wm_places::{Plan, bases_of, head_of, plus};

/// By what the shapes of the nodes of a scene are numbered.
#[tactic(auto, unfolding(wm_places::specs::Seen::plan_of))]
fn context_of(plan: &Plan, scene: Scene) -> Result<u32, NoMemory>
    ensures { IfOk result (λ context. context ≡ strokes.context_of (plan_of plan.now).tables scene.instance scene.inner) }
{
    match scene.inner {
        None => plus(plan.tables.heads, scene.instance),
        Some(loop_id) => head_of(plan.tables, scene.instance, loop_id),
    }
}

/// How many counters of both kinds the nodes of a scene have.
#[tactic(auto, unfolding(wm_flow::specs::Places::bases_of))]
fn counters_in(plan: &Plan, scene: Scene) -> Result<u32, NoMemory>
    ensures { IfOk result (λ counters. counters ≡ scene.depth + length (sums_in (plan_of plan.now) scene.instance scene.inner)) }
{
    let bases = bases_of(plan, scene)?;
    plus(scene.depth, bases.sums)
}

/// A node of a scene.
#[tactic(auto, unfolding(wm_flow::specs::Strokes::point))]
pub(crate) fn point_at(plan: &Plan, scene: Scene, temporaries: u32) -> Result<Stroke, NoMemory>
    ensures { IfOk result (λ stroke. stroke_of stroke ≡ strokes.point (plan_of plan.now) scene temporaries) }
{
    let context = context_of(plan, scene)?;
    let counters = counters_in(plan, scene)?;
    Ok(Stroke::Point {
        context,
        instance: Some(scene.instance),
        counters,
        temporaries,
    })
}
