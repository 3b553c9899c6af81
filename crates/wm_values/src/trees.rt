// Expressions: one cycle over their tree.
ghost use Rattle.std.specs.Prelude.{◌≡◌, map, suc, OnOk, IfOk};
ghost use Rattle.wm_flow.specs.Kept as forms;
ghost use Rattle.wm_flow.specs.Places as places;
ghost use Rattle.wm_flow.specs.Expressions as expressions;
ghost use Rattle.wm_places.specs.Seen.{plan_of};
ghost use Rattle.wm_program.specs.Trees.{expression_of};
ghost use Rattle.wm_program.specs.UsedParts.{operands_of, plain_value, plain_passed, plain_link};
ghost use Rattle.wm_steps.specs.Moves.{operating};
ghost use Rattle.wm_values.specs.Draws.{evaluating, evaluating_all};
ghost use Rattle.wm_values.specs.Turns.{linked, linking, linked_all, linking_all, argued, arguing, argued_all, arguing_all, viewed, seeing, handed_all, handing_all};

use sqlite_items::{Boxed, Items};
use wm_coming::coming;
use wm_flow::{Held, Kept, Scene};
use wm_forms::constant;
use wm_ops::{NoMemory, Op};
use wm_pen::Pen;
use wm_places::{Plan, scalar_source};
use wm_program::{Array, Converted, Expr, Link, Passed, PlainMark, View};
use wm_results::{
    called, cast, element, negated, operated, passed_value, passed_view, passed_whole,
};
use wm_steps::{named, no_values, plain, wait_left, yielded};

/// One more operator of a chain, with the operand behind it; `first` is the value so far.
#[cycle(expression)]
#[tactic(auto, unfolding(crate::specs::Turns::first_waits, crate::specs::Turns::linked, crate::specs::Turns::linking))]
pub fn link(
    operand: &Expr,
    plan: &Plan,
    scene: Scene,
    mark: PlainMark,
    site: u32,
    first: Kept,
    temporaries: u32,
    pen: &mut Pen,
) -> Result<Kept, NoMemory>
    ensures value { IfOk result (λ kept. kept ≡ linked (plan_of plan.now) scene mark (expression_of operand.now) first temporaries) }
    ensures strokes { OnOk result (pen.new ≡ linking (plan_of plan.now) scene mark (expression_of operand.now) site first temporaries pen.old) }
{
    let wait = wait_left(plan, scene, coming(operand), first, temporaries, pen)?;
    let second = expression(operand, plan, scene, wait.temporaries, pen)?;
    plain(
        plan,
        scene,
        mark,
        wait.value,
        second,
        site,
        temporaries,
        pen,
    )
}

/// The operators of a chain, from left to right.
#[cycle(expression)]
fn links(
    rest: &Items<Link<Expr>>,
    plan: &Plan,
    scene: Scene,
    first: Kept,
    temporaries: u32,
    pen: &mut Pen,
) -> Result<Kept, NoMemory>
    ensures value { IfOk result (λ kept. kept ≡ linked_all (plan_of plan.now) scene (map plain_link rest.now) first temporaries) }
    ensures strokes { OnOk result (pen.new ≡ linking_all (plan_of plan.now) scene (map plain_link rest.now) first temporaries pen.old) }
{
    let mut kept = first;
    for part in rest.as_slice() {
        kept = link(
            &part.operand,
            plan,
            scene,
            part.mark,
            part.site,
            kept,
            temporaries,
            pen,
        )?;
    }
    Ok(kept)
}

/// One more value, before which others have been evaluated.
#[cycle(expression)]
#[tactic(auto, unfolding(crate::specs::Turns::argued, crate::specs::Turns::arguing, crate::specs::Turns::coming_to))]
fn argument(
    x: &Expr,
    plan: &Plan,
    scene: Scene,
    narrowing: Option<u32>,
    held: &Held,
    pen: &mut Pen,
) -> Result<Held, NoMemory>
    ensures values { IfOk result (λ more. more ≡ argued (plan_of plan.now) scene (expression_of x.now) held.now) }
    ensures strokes { OnOk result (pen.new ≡ arguing (plan_of plan.now) scene (expression_of x.now) narrowing held.now pen.old) }
{
    let wait = yielded(
        plan,
        scene,
        coming(x),
        held.values.items(),
        held.temporaries,
        pen,
    )?;
    let kept = expression(x, plan, scene, wait.temporaries, pen)?;
    passed_value(plan, scene, narrowing, wait, kept, pen)
}

/// The part of an array from an index on, before which others have been evaluated.
#[cycle(expression)]
#[tactic(auto, unfolding(crate::specs::Turns::viewed, crate::specs::Turns::seeing, crate::specs::Turns::coming_to))]
fn view(
    index: &Expr,
    plan: &Plan,
    scene: Scene,
    array: Array,
    site: u32,
    held: &Held,
    pen: &mut Pen,
) -> Result<Held, NoMemory>
    ensures values { IfOk result (λ more. more ≡ viewed (plan_of plan.now) scene array (expression_of index.now) held.now) }
    ensures strokes { OnOk result (pen.new ≡ seeing (plan_of plan.now) scene array (expression_of index.now) site held.now pen.old) }
{
    let wait = yielded(
        plan,
        scene,
        coming(index),
        held.values.items(),
        held.temporaries,
        pen,
    )?;
    let at = expression(index, plan, scene, wait.temporaries, pen)?;
    passed_view(plan, scene, array, site, wait, at, pen)
}

/// The values of an operator's arguments, over no others.
#[cycle(expression)]
fn operands(
    arguments: &Items<Converted<Expr>>,
    plan: &Plan,
    scene: Scene,
    temporaries: u32,
    pen: &mut Pen,
) -> Result<Held, NoMemory>
    ensures values { IfOk result (λ held. held ≡ argued_all (plan_of plan.now) scene (map plain_value arguments.now) (expressions.no_values (plan_of plan.now) scene temporaries)) }
    ensures strokes { OnOk result (pen.new ≡ arguing_all (plan_of plan.now) scene (map plain_value arguments.now) (expressions.no_values (plan_of plan.now) scene temporaries) pen.old) }
{
    let mut held = no_values(plan.alloc, temporaries);
    for part in arguments.as_slice() {
        held = argument(&part.value, plan, scene, part.narrowing, &held, pen)?;
    }
    Ok(held)
}

/// An operator on its arguments.
#[cycle(expression)]
fn operator(
    arguments: &Items<Converted<Expr>>,
    plan: &Plan,
    scene: Scene,
    op: Op,
    site: u32,
    temporaries: u32,
    pen: &mut Pen,
) -> Result<Kept, NoMemory>
    ensures value { IfOk result (λ kept. kept ≡ forms.variable (places.temporary (places.bases_of (plan_of plan.now) scene) temporaries)) }
    ensures strokes { OnOk result (pen.new ≡ operating (plan_of plan.now) scene op site (argued_all (plan_of plan.now) scene (map plain_value arguments.now) (expressions.no_values (plan_of plan.now) scene temporaries)) (places.temporary (places.bases_of (plan_of plan.now) scene) temporaries) (suc temporaries) (arguing_all (plan_of plan.now) scene (map plain_value arguments.now) (expressions.no_values (plan_of plan.now) scene temporaries) pen.old)) }
{
    let held = operands(arguments, plan, scene, temporaries, pen)?;
    operated(plan, scene, op, site, &held, temporaries, pen)
}

/// The values of a function's arguments, over no others.
#[cycle(expression)]
fn passed(
    arguments: &Items<Passed<Expr>>,
    plan: &Plan,
    scene: Scene,
    temporaries: u32,
    pen: &mut Pen,
) -> Result<Held, NoMemory>
    ensures values { IfOk result (λ held. held ≡ handed_all (plan_of plan.now) scene (map plain_passed arguments.now) (expressions.no_values (plan_of plan.now) scene temporaries)) }
    ensures strokes { OnOk result (pen.new ≡ handing_all (plan_of plan.now) scene (map plain_passed arguments.now) (expressions.no_values (plan_of plan.now) scene temporaries) pen.old) }
{
    let mut held = no_values(plan.alloc, temporaries);
    for part in arguments.as_slice() {
        match part {
            Passed::Value(x) => {
                held = argument(&x.value, plan, scene, x.narrowing, &held, pen)?;
            }
            Passed::View(View::Whole(array)) => {
                held = passed_whole(plan, scene, *array, held)?;
            }
            Passed::View(View::From { array, index, site }) => {
                held = view(index, plan, scene, *array, *site, &held, pen)?;
            }
        }
    }
    Ok(held)
}

/// An expression, with so many temporaries in use before it: its value, and its nodes and edges. `NoMemory`: memory ran
/// out, or a number is past its size.
#[cycle(expression)]
#[tactic(auto, using(crate::proofs::ExpressionsDrawn::on_constant_value, crate::proofs::ExpressionsDrawn::on_scalar_value, crate::proofs::ExpressionsDrawn::on_element_value, crate::proofs::ExpressionsDrawn::on_operator_value, crate::proofs::ExpressionsDrawn::on_call_value, crate::proofs::ChainsDrawn::chain_value, crate::proofs::ExpressionsDrawn::on_negate_value, crate::proofs::ExpressionsDrawn::on_plus_value, crate::proofs::ExpressionsDrawn::on_cast_value, crate::proofs::ExpressionsDrawn::on_constant_drawn, crate::proofs::ExpressionsDrawn::on_scalar_drawn, crate::proofs::ExpressionsDrawn::on_element_drawn, crate::proofs::ExpressionsDrawn::on_operator_drawn, crate::proofs::ExpressionsDrawn::on_call_drawn, crate::proofs::ChainsDrawn::chain_drawn, crate::proofs::ExpressionsDrawn::on_negate_drawn, crate::proofs::ExpressionsDrawn::on_plus_drawn, crate::proofs::ExpressionsDrawn::on_cast_drawn))]
pub fn expression(
    x: &Expr,
    plan: &Plan,
    scene: Scene,
    temporaries: u32,
    pen: &mut Pen,
) -> Result<Kept, NoMemory>
    ensures value { IfOk result (λ kept. kept ≡ expressions.value (plan_of plan.now) scene (expression_of x.now) temporaries) }
    ensures strokes { OnOk result (pen.new ≡ evaluating (plan_of plan.now) scene (expression_of x.now) temporaries pen.old) }
{
    match x {
        Expr::Constant(z) => Ok(constant(*z)),
        Expr::Scalar(scalar) => {
            let source = scalar_source(plan, scene, *scalar)?;
            named(plan, scene, source, temporaries, pen)
        }
        Expr::Element { array, index, site } => {
            let at = expression(index.get(), plan, scene, temporaries, pen)?;
            element(plan, scene, *array, *site, at, temporaries, pen)
        }
        Expr::Operator {
            op,
            arguments,
            site,
        } => operator(arguments, plan, scene, *op, *site, temporaries, pen),
        Expr::Call(call) => {
            let held = passed(&call.arguments, plan, scene, temporaries, pen)?;
            called(
                plan,
                scene,
                call.offset,
                held.values.items(),
                temporaries,
                pen,
            )
        }
        Expr::Chain { first, rest } => {
            let kept = expression(first.get(), plan, scene, temporaries, pen)?;
            links(rest, plan, scene, kept, temporaries, pen)
        }
        Expr::Negate { operand, site } => {
            let a = expression(operand.get(), plan, scene, temporaries, pen)?;
            negated(plan, scene, a, *site, temporaries, pen)
        }
        Expr::Plus(operand) => expression(operand.get(), plan, scene, temporaries, pen),
        Expr::Cast { to, operand } => {
            let a = expression(operand.get(), plan, scene, temporaries, pen)?;
            cast(plan, scene, *to, a, temporaries, pen)
        }
    }
}

/// The values of an operator's arguments, with so many temporaries in use before them.
#[tactic(auto, using(crate::proofs::ArgumentsDrawn::operands_after, crate::proofs::ArgumentsDrawn::operands_drawn))]
pub fn operator_values(
    arguments: &Items<Converted<Expr>>,
    plan: &Plan,
    scene: Scene,
    temporaries: u32,
    pen: &mut Pen,
) -> Result<Held, NoMemory>
    ensures values { IfOk result (λ held. held ≡ expressions.values_after (plan_of plan.now) scene (operands_of arguments.now) (expressions.no_values (plan_of plan.now) scene temporaries)) }
    ensures strokes { OnOk result (pen.new ≡ evaluating_all (plan_of plan.now) scene (operands_of arguments.now) (expressions.no_values (plan_of plan.now) scene temporaries) pen.old) }
{
    operands(arguments, plan, scene, temporaries, pen)
}
