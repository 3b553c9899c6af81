// The edge that enters a loop, and its back edge.
ghost use Rattle.std.specs.Prelude.{◌≡◌, ◌++◌, ◌∷◌, suc, Some, OnOk, IfOk};
ghost use Rattle.wm_flow.specs.Places as places;
ghost use Rattle.wm_flow.specs.Views.{doing_of};
ghost use Rattle.wm_flow.specs.Statements as statements;
ghost use Rattle.wm_places.specs.Seen.{plan_of};
ghost use Rattle.wm_control.specs.Moves.{entering, turning};

use wm_flow::{Action, Growth, Scene, Sum};
use wm_ops::{List, NoMemory};
use wm_pen::Pen;
use wm_places::{Plan, bases_of, counter, first_sum, head_of, next, sums_in};

/// Inside a loop.
pub fn inside(scene: Scene, loop_id: u32) -> Result<Scene, NoMemory>
    ensures { IfOk result (λ it. it ≡ statements.inside scene loop_id) }
{
    let depth = next(scene.depth)?;
    Ok(Scene {
        instance: scene.instance,
        function: scene.function,
        depth,
        inner: Some(loop_id),
    })
}

/// What a loop's counter grows by with each turn.
#[tactic(auto, unfolding(wm_places::specs::Seen::plan_of))]
pub(crate) fn step_of(plan: &Plan, loop_id: u32) -> u32
    ensures { result ≡ statements.step_of (plan_of plan.now) loop_id }
{
    match plan.program.loops.items().get(loop_id as usize) {
        Some(info) => info.step,
        None => 0,
    }
}

/// The places of the sum counters, from a variable on, behind others.
fn push_places(list: &mut List<u32>, first: u32, sums: &[Sum]) -> Result<(), NoMemory>
    ensures { OnOk result (list.new ≡ list.old ++ statements.sum_places first sums.now) }
{
    let mut variable = first;
    for sum in sums {
        list.push(variable)?;
        variable = next(variable)?;
    }
    Ok(())
}

/// What the sum counters grow by, from a variable on, behind others.
fn push_growths(list: &mut List<Growth>, first: u32, sums: &[Sum]) -> Result<(), NoMemory>
    ensures { OnOk result (list.new ≡ list.old ++ statements.sum_growths first sums.now) }
{
    let mut variable = first;
    for sum in sums {
        list.push(Growth {
            variable,
            step: sum.step,
        })?;
        variable = next(variable)?;
    }
    Ok(())
}

/// All counters are 0, where the scene is inside the loop.
#[tactic(auto, unfolding(wm_flow::specs::Statements::resetting, wm_flow::specs::Views::doing_of))]
fn resetting(plan: &Plan, scene: Scene) -> Result<Action, NoMemory>
    ensures { IfOk result (λ action. doing_of action ≡ statements.resetting (plan_of plan.now) scene) }
{
    let bases = bases_of(plan, scene)?;
    let first = first_sum(bases)?;
    let sums = sums_in(plan, scene.instance, scene.inner)?;
    let mut counters = List::new(plan.alloc);
    counters.push(counter(bases)?)?;
    push_places(&mut counters, first, sums)?;
    Ok(Action::Reset { counters })
}

/// All counters grow, where the scene is inside the loop.
#[tactic(auto, unfolding(wm_flow::specs::Statements::turning, wm_flow::specs::Views::doing_of))]
fn growing(plan: &Plan, scene: Scene, loop_id: u32) -> Result<Action, NoMemory>
    ensures { IfOk result (λ action. doing_of action ≡ statements.turning (plan_of plan.now) scene loop_id) }
{
    let bases = bases_of(plan, scene)?;
    let first = first_sum(bases)?;
    let sums = sums_in(plan, scene.instance, scene.inner)?;
    let mut growths = List::new(plan.alloc);
    growths.push(Growth {
        variable: counter(bases)?,
        step: step_of(plan, loop_id),
    })?;
    push_growths(&mut growths, first, sums)?;
    Ok(Action::Turn { growths })
}

/// The edge that enters a loop, and its head.
pub fn enter(plan: &Plan, scene: Scene, loop_id: u32, pen: &mut Pen) -> Result<(), NoMemory>
    ensures { OnOk result (pen.new ≡ entering (plan_of plan.now) scene loop_id pen.old) }
{
    let within = inside(scene, loop_id)?;
    let node = pen.node();
    let target = next(node)?;
    let action = resetting(plan, within)?;
    let head = head_of(plan.tables, scene.instance, loop_id)?;
    pen.line(node, target, action, None)?;
    pen.begins(head, Some(scene.instance), Some(loop_id), target)?;
    pen.point(plan, within, 0)?;
    Ok(())
}

/// The back edge of a loop, to its head, and the node behind the loop.
pub fn turn(
    plan: &Plan,
    scene: Scene,
    loop_id: u32,
    head: u32,
    pen: &mut Pen,
) -> Result<(), NoMemory>
    ensures { OnOk result (pen.new ≡ turning (plan_of plan.now) scene loop_id head pen.old) }
{
    let within = inside(scene, loop_id)?;
    let node = pen.node();
    let action = growing(plan, within, loop_id)?;
    let number = head_of(plan.tables, scene.instance, loop_id)?;
    pen.line(node, head, action, None)?;
    pen.turns(number)?;
    pen.point(plan, scene, 0)?;
    Ok(())
}
