// What runs before the frames, and a frame.
ghost use Rattle.std.specs.Prelude.{◌≡◌, ◌++◌, ◌∷◌, [], Some, None, OnOk, IfOk};
ghost use Rattle.wm_flow.specs.Calls as calls;
ghost use Rattle.wm_flow.specs.Graphs as graphs;
ghost use Rattle.wm_flow.specs.Strokes as strokes;
ghost use Rattle.wm_flow.specs.Views.{doing_of};
ghost use Rattle.wm_places.specs.Seen.{plan_of};
ghost use Rattle.wm_pen.specs.Seen.{stroke_of, strokes_of};
ghost use Rattle.wm_frames.specs.Frames.{frame_start, frame_inside, frame_end, exit_of};

use crate::inputs::taking_inputs;
use wm_crossings::{from_head, scene_of, size_at, to_head, to_head_from_start};
use wm_flow::Action;
use wm_ops::NoMemory;
use wm_pen::{Pen, Stroke};
use wm_places::{Plan, next, plus};

/// A node of the frame head's shape.
fn static_point() -> Stroke
    ensures { stroke_of result ≡ graphs.static_point }
{
    Stroke::Point {
        context: 0,
        instance: None,
        counters: 0,
        temporaries: 0,
    }
}

#[tactic(auto, unfolding(wm_pen::specs::Seen::stroke_of))]
fn line(source: u32, target: u32, action: Action) -> Stroke
    ensures { stroke_of result ≡ strokes.Line source target (doing_of action) None }
{
    Stroke::Line {
        source,
        target,
        action,
        site: None,
    }
}

/// The number of the frame head's node.
#[tactic(auto, unfolding(wm_places::specs::Seen::plan_of))]
fn head_node(plan: &Plan) -> Result<u32, NoMemory>
    ensures { IfOk result (λ node. node ≡ graphs.head_node (plan_of plan.now)) }
{
    match plan.program.init {
        Some(init) => next(size_at(plan, init)),
        None => Ok(1),
    }
}

/// A run without init starts at a node of the head's shape.
fn start(plan: &Plan) -> Result<Vec<Stroke>, NoMemory>
    ensures { IfOk result (λ list. strokes_of list.items ≡ graphs.before_frames (plan_of plan.now) None) }
{
    let action = to_head_from_start(plan)?;
    let mut list = Vec::new(plan.alloc);
    list.push(static_point())?;
    list.push(line(0, 1, action))?;
    Ok(list)
}

/// A run with init starts at the first node of its instance.
fn start_at(plan: &Plan, init: u32) -> Result<Vec<Stroke>, NoMemory>
    ensures { IfOk result (λ list. strokes_of list.items ≡ graphs.before_frames (plan_of plan.now) (Some init)) }
{
    let action = to_head(plan, init)?;
    let exit = size_at(plan, init);
    let head = next(exit)?;
    let mut list = Vec::new(plan.alloc);
    list.push(Stroke::Part {
        instance: init,
        start: 0,
    })?;
    list.push(line(exit, head, action))?;
    Ok(list)
}

/// What runs before the frames: init, or nothing.
#[tactic(auto, unfolding(wm_places::specs::Seen::plan_of))]
fn before(plan: &Plan) -> Result<Vec<Stroke>, NoMemory>
    ensures { IfOk result (λ list. strokes_of list.items ≡ graphs.before_frames (plan_of plan.now) (plan_of plan.now).code.init) }
{
    match plan.program.init {
        None => start(plan),
        Some(init) => start_at(plan, init),
    }
}

/// The frame head, and the edge behind it.
#[tactic(auto, unfolding(wm_places::specs::Seen::plan_of))]
fn frame_head(plan: &Plan, head: u32) -> Result<Vec<Stroke>, NoMemory>
    ensures { IfOk result (λ list. strokes_of list.items ≡ frame_start (plan_of plan.now) head) }
{
    let action = from_head(plan, plan.program.frame)?;
    let first = plus(head, 1)?;
    let mut list = Vec::new(plan.alloc);
    list.push(Stroke::Begins {
        head: 0,
        instance: None,
        loop_id: None,
        node: head,
    })?;
    list.push(static_point())?;
    list.push(line(head, first, action))?;
    Ok(list)
}

/// The first node of the frame function, before the inputs come.
#[tactic(auto, unfolding(wm_places::specs::Seen::plan_of, wm_pen::specs::Ink::put))]
fn first_point(plan: &Plan, node: u32) -> Result<Vec<Stroke>, NoMemory>
    ensures { IfOk result (λ list. strokes_of list.items ≡ strokes.point (plan_of plan.now) (calls.scene_of (plan_of plan.now) (plan_of plan.now).code.frame) 0 ∷ []) }
{
    let mut pen = Pen::new(plan.alloc, node);
    pen.begin(plan, scene_of(plan, plan.program.frame), 0)?;
    Ok(pen.into_strokes())
}

/// The inputs and the frame function.
#[tactic(auto, unfolding(wm_places::specs::Seen::plan_of))]
fn frame(plan: &Plan, head: u32) -> Result<Vec<Stroke>, NoMemory>
    ensures { IfOk result (λ list. strokes_of list.items ≡ frame_inside (plan_of plan.now) head) }
{
    let inputs = taking_inputs(plan)?;
    let first = plus(head, 1)?;
    let taken = plus(head, 2)?;
    let mut list = Vec::new(plan.alloc);
    list.push(line(first, taken, inputs))?;
    list.push(Stroke::Part {
        instance: plan.program.frame,
        start: taken,
    })?;
    Ok(list)
}

/// The last node of the frame function.
#[tactic(auto, unfolding(wm_places::specs::Seen::plan_of))]
fn frame_exit(plan: &Plan, head: u32) -> Result<u32, NoMemory>
    ensures { IfOk result (λ node. node ≡ exit_of (plan_of plan.now) head) }
{
    let taken = plus(head, 2)?;
    plus(taken, size_at(plan, plan.program.frame))
}

/// The way back.
#[tactic(auto, unfolding(wm_places::specs::Seen::plan_of))]
fn frame_back(plan: &Plan, head: u32) -> Result<Vec<Stroke>, NoMemory>
    ensures { IfOk result (λ list. strokes_of list.items ≡ frame_end (plan_of plan.now) head) }
{
    let back = to_head(plan, plan.program.frame)?;
    let exit = frame_exit(plan, head)?;
    let mut list = Vec::new(plan.alloc);
    list.push(line(exit, head, back))?;
    list.push(Stroke::Turns { head: 0 })?;
    Ok(list)
}

/// One list of strokes behind another.
#[tactic(auto, using(crate::proofs::Gathered::strokes_joined))]
fn push_all(list: &mut Vec<Stroke>, more: Vec<Stroke>) -> Result<(), NoMemory>
    ensures { OnOk result (strokes_of list.new.items ≡ strokes_of list.old.items ++ strokes_of more.items) }
{
    let mut more = more;
    list.append(&mut more)?;
    Ok(())
}

/// The strokes of the whole graph but for those inside its instances.
#[tactic(auto, using(crate::proofs::Gathered::whole_gathered))]
pub fn whole_strokes(plan: &Plan) -> Result<Vec<Stroke>, NoMemory>
    ensures { IfOk result (λ list. strokes_of list.items ≡ graphs.whole_strokes (plan_of plan.now)) }
{
    let head = head_node(plan)?;
    let mut list = before(plan)?;
    push_all(&mut list, frame_head(plan, head)?)?;
    push_all(&mut list, first_point(plan, head)?)?;
    push_all(&mut list, frame(plan, head)?)?;
    push_all(&mut list, frame_back(plan, head)?)?;
    Ok(list)
}
