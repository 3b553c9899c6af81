// Statements without words of their own.
ghost use Rattle.std.specs.Prelude.{◌≡◌, map, OnOk};
ghost use Rattle.wm_program.specs.Tree as tree;
ghost use Rattle.wm_places.specs.Seen.{plan_of};
ghost use Rattle.wm_program.specs.Trees.{expression_of, target_of, effect_of};
ghost use Rattle.wm_effects.specs.Draws.{acting, acting_all, acting_each};

use crate::stores::{find, store, update};
use sqlite_items::Items;
use wm_flow::Scene;
use wm_ops::NoMemory;
use wm_pen::Pen;
use wm_places::{Plan, array_source, scalar_source};
use wm_program::{Converted, Expr, PlainMark, Simple, Spot};
use wm_results::cells_in;
use wm_stores::{count_call, drop_value};
use wm_values::expression;

#[tactic(auto, using(crate::proofs::EffectsDrawn::assign_scalar, crate::proofs::EffectsDrawn::assign_element))]
fn assign(
    spot: &Spot,
    plan: &Plan,
    scene: Scene,
    value: &Converted<Expr>,
    pen: &mut Pen,
) -> Result<(), NoMemory>
    ensures { OnOk result (pen.new ≡ acting (plan_of plan.now) scene (tree.Assign (target_of spot.now) (expression_of value.now.value) value.now.narrowing) pen.old) }
{
    match spot {
        Spot::Scalar(scalar) => {
            let source = scalar_source(plan, scene, *scalar)?;
            store(&value.value, plan, scene, source, 1, value.narrowing, pen)
        }
        Spot::Element { array, index, site } => {
            let source = array_source(plan, scene, *array)?;
            let cells = cells_in(plan, scene, *array);
            find(index, plan, scene, *array, *site, pen)?;
            store(
                &value.value,
                plan,
                scene,
                source,
                cells,
                value.narrowing,
                pen,
            )
        }
    }
}

#[tactic(auto, using(crate::proofs::EffectsDrawn::update_scalar, crate::proofs::EffectsDrawn::update_element))]
fn update_spot(
    spot: &Spot,
    plan: &Plan,
    scene: Scene,
    mark: PlainMark,
    value: &Expr,
    arithmetic: u32,
    narrowing: Option<u32>,
    pen: &mut Pen,
) -> Result<(), NoMemory>
    ensures { OnOk result (pen.new ≡ acting (plan_of plan.now) scene (tree.Update (target_of spot.now) mark (expression_of value.now) arithmetic narrowing) pen.old) }
{
    match spot {
        Spot::Scalar(scalar) => {
            let source = scalar_source(plan, scene, *scalar)?;
            update(
                value, plan, scene, source, 1, None, mark, arithmetic, narrowing, pen,
            )
        }
        Spot::Element { array, index, site } => {
            let source = array_source(plan, scene, *array)?;
            let cells = cells_in(plan, scene, *array);
            find(index, plan, scene, *array, *site, pen)?;
            update(
                value,
                plan,
                scene,
                source,
                cells,
                Some(*site),
                mark,
                arithmetic,
                narrowing,
                pen,
            )
        }
    }
}

/// A call whose value is dropped.
#[tactic(auto, using(crate::proofs::EffectsDrawn::evaluate_joins))]
fn evaluate(x: &Expr, plan: &Plan, scene: Scene, pen: &mut Pen) -> Result<(), NoMemory>
    ensures { OnOk result (pen.new ≡ acting (plan_of plan.now) scene (tree.Evaluate (expression_of x.now)) pen.old) }
{
    let kept = expression(x, plan, scene, 0, pen)?;
    drop_value(plan, scene, kept, pen)
}

/// A statement without words of its own. `NoMemory`: memory ran out, or a number is past its size.
#[tactic(auto, using(crate::proofs::EffectsDrawn::count_drawn))]
pub fn effect(e: &Simple, plan: &Plan, scene: Scene, pen: &mut Pen) -> Result<(), NoMemory>
    ensures strokes { OnOk result (pen.new ≡ acting (plan_of plan.now) scene (effect_of e.now) pen.old) }
{
    match e {
        Simple::Assign { spot, value } => assign(spot, plan, scene, value, pen),
        Simple::Update {
            spot,
            mark,
            value,
            arithmetic,
            narrowing,
        } => update_spot(
            spot,
            plan,
            scene,
            *mark,
            value,
            *arithmetic,
            *narrowing,
            pen,
        ),
        Simple::Evaluate(x) => evaluate(x, plan, scene, pen),
        Simple::Count(call) => count_call(plan, scene, *call, pen),
    }
}

fn each(list: &Items<Simple>, plan: &Plan, scene: Scene, pen: &mut Pen) -> Result<(), NoMemory>
    ensures { OnOk result (pen.new ≡ acting_each (plan_of plan.now) scene (map effect_of list.now) pen.old) }
{
    for e in list.as_slice() {
        effect(e, plan, scene, pen)?;
    }
    Ok(())
}

/// Statements without words of their own, one after another.
#[tactic(auto, using(crate::proofs::EffectsDrawn::each_all))]
pub fn effects(
    list: &Items<Simple>,
    plan: &Plan,
    scene: Scene,
    pen: &mut Pen,
) -> Result<(), NoMemory>
    ensures strokes { OnOk result (pen.new ≡ acting_all (plan_of plan.now) scene (map effect_of list.now) pen.old) }
{
    each(list, plan, scene, pen)
}
