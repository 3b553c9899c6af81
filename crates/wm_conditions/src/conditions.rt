// Conditions: one cycle over their tree.
ghost use Rattle.std.specs.Prelude.{◌≡◌, map, OnOk};
ghost use Rattle.std.specs.Option.{option_map_or};
ghost use Rattle.wm_places.specs.Seen.{plan_of};
ghost use Rattle.wm_program.specs.Tree.{Always};
ghost use Rattle.wm_program.specs.Trees.{test_of};
ghost use Rattle.wm_conditions.specs.Draws.{testing};
ghost use Rattle.wm_conditions.specs.Steps as steps;

use crate::evaluation::decide;
use sqlite_items::{Boxed, Items};
use wm_comparisons::{compare, compare_number};
use wm_flow::{Action, Scene};
use wm_ops::{List, NoMemory};
use wm_pen::Pen;
use wm_places::{Plan, next, plus};
use wm_program::Condition;

fn hit_of(any: bool, hit: u32, between: u32) -> u32
    ensures { result ≡ steps.hit_of any hit between }
{
    if any {
        return hit;
    }
    between
}

fn miss_of(any: bool, miss: u32, between: u32) -> u32
    ensures { result ≡ steps.miss_of any miss between }
{
    if any {
        return between;
    }
    miss
}

/// One of several conditions. The next begins behind it, where it is not the last; where that is, is told before it is
/// drawn.
#[cycle(condition)]
#[tactic(auto, unfolding(crate::specs::Steps::parting), using(crate::proofs::ConditionsDrawn::passing_joins))]
fn part(
    c: &Condition,
    plan: &Plan,
    scene: Scene,
    any: bool,
    last: bool,
    hit: u32,
    miss: u32,
    pen: &mut Pen,
) -> Result<(), NoMemory>
    ensures { OnOk result (pen.new ≡ steps.parting (plan_of plan.now) scene any last (test_of c.now) hit miss pen.old) }
{
    if last {
        return condition(c, plan, scene, hit, miss, pen);
    }
    let mut ruler = pen.ruler(plan.alloc);
    condition(c, plan, scene, 0, 0, &mut ruler)?;
    let end = plus(pen.node(), ruler.node())?;
    let between = next(end)?;
    condition(
        c,
        plan,
        scene,
        hit_of(any, hit, between),
        miss_of(any, miss, between),
        pen,
    )?;
    pen.point(plan, scene, 0)
}

/// The conditions behind the first.
#[cycle(condition)]
#[tactic(auto, using(crate::proofs::ConditionsDrawn::done_at))]
fn others(
    rest: &Items<Condition>,
    plan: &Plan,
    scene: Scene,
    any: bool,
    hit: u32,
    miss: u32,
    pen: &mut Pen,
) -> Result<(), NoMemory>
    ensures { OnOk result (pen.new ≡ steps.following (plan_of plan.now) scene any (map test_of rest.now) hit miss pen.old) }
{
    let mut left = rest.len();
    for c in rest.as_slice() {
        left -= 1;
        part(c, plan, scene, any, left == 0, hit, miss, pen)?;
    }
    Ok(())
}

/// A condition, which leads to the node `hit` where it holds and to `miss` where it does not. `NoMemory`: memory ran out,
/// or a number is past its size.
#[cycle(condition)]
#[tactic(auto, using(crate::proofs::ConditionsDrawn::on_or, crate::proofs::ConditionsDrawn::on_and, crate::proofs::ConditionsDrawn::on_not, crate::proofs::ConditionsDrawn::on_compare, crate::proofs::ConditionsDrawn::on_truth, crate::proofs::ConditionsDrawn::on_rest))]
pub fn condition(
    c: &Condition,
    plan: &Plan,
    scene: Scene,
    hit: u32,
    miss: u32,
    pen: &mut Pen,
) -> Result<(), NoMemory>
    ensures strokes { OnOk result (pen.new ≡ testing (plan_of plan.now) scene (test_of c.now) hit miss pen.old) }
{
    if pen.rests() {
        return Ok(());
    }
    match c {
        Condition::Or { first, rest } => {
            part(
                first.get(),
                plan,
                scene,
                true,
                rest.len() == 0,
                hit,
                miss,
                pen,
            )?;
            others(rest, plan, scene, true, hit, miss, pen)
        }
        Condition::And { first, rest } => {
            part(
                first.get(),
                plan,
                scene,
                false,
                rest.len() == 0,
                hit,
                miss,
                pen,
            )?;
            others(rest, plan, scene, false, hit, miss, pen)
        }
        Condition::Not(inner) => condition(inner.get(), plan, scene, miss, hit, pen),
        Condition::Compare { left, mark, right } => {
            decide(compare(left, *mark, right), plan, scene, hit, miss, pen)
        }
        Condition::Truth(x) => decide(compare_number(x), plan, scene, hit, miss, pen),
    }
}

/// What holds always: an edge without effect.
#[tactic(auto, unfolding(wm_flow::specs::Views::doing_of), using(crate::proofs::ConditionsDrawn::always))]
fn always(plan: &Plan, scene: Scene, hit: u32, miss: u32, pen: &mut Pen) -> Result<(), NoMemory>
    ensures { OnOk result (pen.new ≡ testing (plan_of plan.now) scene Always hit miss pen.old) }
{
    let node = pen.node();
    let variables = List::new(plan.alloc);
    pen.line(node, hit, Action::Clear { variables }, None)
}

/// A condition that may be absent, and then holds.
pub fn optional_condition(
    c: &Option<Condition>,
    plan: &Plan,
    scene: Scene,
    hit: u32,
    miss: u32,
    pen: &mut Pen,
) -> Result<(), NoMemory>
    ensures strokes { OnOk result (pen.new ≡ testing (plan_of plan.now) scene (option_map_or test_of c.now Always) hit miss pen.old) }
{
    match c {
        Some(c) => condition(c, plan, scene, hit, miss, pen),
        None => always(plan, scene, hit, miss, pen),
    }
}
