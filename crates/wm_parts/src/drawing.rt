// Strokes, drawn one after another, with those of the instances in their places.
ghost use Rattle.std.specs.Prelude.{◌≡◌, OnOk, IfOk};
ghost use Rattle.wm_flow.specs.Graphs as graphs;
ghost use Rattle.wm_places.specs.Seen.{plan_of};
ghost use Rattle.wm_pen.specs.Seen.{stroke_of, strokes_of};

use crate::parts::part_strokes;
use crate::sizes::number_of;
use wm_frames::whole_strokes;
use wm_ops::NoMemory;
use wm_pen::Stroke;
use wm_places::{Plan, plus};
use wm_sketch::Sketch;

/// A stroke; the instances that it leads to have so many levels of calls.
#[cycle(drawing)]
#[tactic(auto, unfolding(wm_flow::specs::Graphs::drawn, wm_places::specs::Seen::plan_of))]
fn stroke(plan: &Plan, levels: u32, it: Stroke, sketch: &mut Sketch) -> Result<(), NoMemory>
    ensures { OnOk result (sketch.new ≡ graphs.drawn (plan_of plan.now).code (graphs.drawn_part (plan_of plan.now) levels) (stroke_of it) sketch.old) }
{
    match it {
        Stroke::Point {
            context,
            instance,
            counters,
            temporaries,
        } => sketch.point(
            plan.alloc,
            plan.program,
            context,
            instance,
            counters,
            temporaries,
        ),
        Stroke::Line {
            source,
            target,
            action,
            site,
        } => sketch.edge(source, target, action, site),
        Stroke::Part { instance, start } => part(plan, levels, instance, start, sketch),
        Stroke::Begins {
            head,
            instance,
            loop_id,
            node,
        } => sketch.begins(head, instance, loop_id, node),
        Stroke::Turns { head } => sketch.turns(head),
    }
}

/// Strokes, one after another.
#[cycle(drawing)]
fn strokes(plan: &Plan, levels: u32, list: Vec<Stroke>, sketch: &mut Sketch) -> Result<(), NoMemory>
    ensures { OnOk result (sketch.new ≡ graphs.all_drawn (plan_of plan.now).code (graphs.drawn_part (plan_of plan.now) levels) (strokes_of list.items) sketch.old) }
{
    for it in list {
        stroke(plan, levels, it, sketch)?;
    }
    Ok(())
}

/// An instance with all that it calls.
#[cycle(drawing)]
#[tactic(auto, using(crate::proofs::StrokesDrawn::part_none, crate::proofs::StrokesDrawn::part_some))]
fn part(
    plan: &Plan,
    levels: u32,
    instance: u32,
    start: u32,
    sketch: &mut Sketch,
) -> Result<(), NoMemory>
    ensures { OnOk result (sketch.new ≡ graphs.drawn_part (plan_of plan.now) levels instance start sketch.old) }
{
    if levels == 0 {
        return Ok(());
    }
    let list = part_strokes(plan, instance, start)?;
    strokes(plan, levels - 1, list, sketch)
}

#[tactic(auto, unfolding(wm_places::specs::Seen::plan_of))]
fn blank(plan: &Plan) -> Result<Sketch, NoMemory>
    ensures { IfOk result (λ sketch. sketch ≡ graphs.nothing_drawn (plan_of plan.now)) }
{
    let count = number_of(plan.program)?;
    let contexts = plus(plan.tables.heads, count)?;
    Sketch::new(plan.alloc, contexts, plan.tables.heads)
}

/// The whole graph of a program. `NoMemory`: memory ran out, or a number is past 32 bits.
#[tactic(auto, unfolding(wm_places::specs::Seen::plan_of))]
pub fn drawn(plan: &Plan) -> Result<Sketch, NoMemory>
    ensures whole { IfOk result (λ sketch. sketch ≡ graphs.whole_drawn (plan_of plan.now)) }
{
    let levels = number_of(plan.program)?;
    let mut sketch = blank(plan)?;
    let list = whole_strokes(plan)?;
    strokes(plan, levels, list, &mut sketch)?;
    Ok(sketch)
}
