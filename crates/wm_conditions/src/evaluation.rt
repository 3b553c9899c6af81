// Comparisons: their sides are evaluated and compared.
ghost use Rattle.std.specs.Prelude.{◌≡◌, OnOk, IfOk};
ghost use Rattle.wm_flow.specs.Tests as tests;
ghost use Rattle.wm_places.specs.Seen.{plan_of};
ghost use Rattle.wm_program.specs.Trees.{expression_of};
ghost use Rattle.wm_program.specs.UsedParts.{operands_of};
ghost use Rattle.wm_values.specs.Draws.{evaluating};
ghost use Rattle.wm_comparisons.specs.Seen.{compared_of};
ghost use Rattle.wm_conditions.specs.Steps.{plain_sides, plain_siding, applied_sides, applied_siding, sides_at, preparing, deciding};

use wm_applied::Applied;
use wm_coming::coming;
use wm_comparisons::{Compared, mark_of, sides};
use wm_flow::{Scene, Sides};
use wm_forms::constant;
use wm_ops::NoMemory;
use wm_pen::Pen;
use wm_places::{Plan, bases_of, next, temporary};
use wm_program::Expr;
use wm_steps::{after, apply, operands, value_at, wait_left};
use wm_values::{expression, operator_values};

/// Two numbers, the left one evaluated first.
#[tactic(auto, unfolding(crate::specs::Steps::plain_sides, crate::specs::Steps::plain_siding, wm_values::specs::Turns::first_waits))]
fn plain_sides(
    left: &Expr,
    right: &Expr,
    plan: &Plan,
    scene: Scene,
    pen: &mut Pen,
) -> Result<Sides, NoMemory>
    ensures value { IfOk result (λ sides. sides ≡ plain_sides (plan_of plan.now) scene (expression_of left.now) (expression_of right.now)) }
    ensures strokes { OnOk result (pen.new ≡ plain_siding (plan_of plan.now) scene (expression_of left.now) (expression_of right.now) pen.old) }
{
    let bases = bases_of(plan, scene)?;
    let a = expression(left, plan, scene, 0, pen)?;
    let wait = wait_left(plan, scene, coming(right), a, 0, pen)?;
    let b = expression(right, plan, scene, wait.temporaries, pen)?;
    let temporaries = after(bases, b, wait.temporaries)?;
    Ok(Sides {
        left: wait.value,
        right: b,
        temporaries,
    })
}

/// A number, and 0.
#[tactic(auto, unfolding(crate::specs::Steps::sides_at))]
fn number_sides(x: &Expr, plan: &Plan, scene: Scene, pen: &mut Pen) -> Result<Sides, NoMemory>
    ensures value { IfOk result (λ sides. sides ≡ sides_at (plan_of plan.now) scene (tests.Number (expression_of x.now))) }
    ensures strokes { OnOk result (pen.new ≡ evaluating (plan_of plan.now) scene (expression_of x.now) 0 pen.old) }
{
    let bases = bases_of(plan, scene)?;
    let left = expression(x, plan, scene, 0, pen)?;
    let temporaries = after(bases, left, 0)?;
    Ok(Sides {
        left,
        right: constant(0),
        temporaries,
    })
}

/// The arguments of a subtraction, which is counted and applied.
#[tactic(auto, unfolding(crate::specs::Steps::applied_sides, crate::specs::Steps::applied_siding), using(wm_steps::proofs::Operates::operating_joins))]
fn applied_sides(
    it: Applied<'_>,
    plan: &Plan,
    scene: Scene,
    pen: &mut Pen,
) -> Result<Sides, NoMemory>
    ensures value { IfOk result (λ sides. sides ≡ applied_sides (plan_of plan.now) scene (operands_of it.entry.arguments.now)) }
    ensures strokes { OnOk result (pen.new ≡ applied_siding (plan_of plan.now) scene it.entry.op (operands_of it.entry.arguments.now) it.entry.site pen.old) }
{
    let bases = bases_of(plan, scene)?;
    let held = operator_values(it.arguments, plan, scene, 0, pen)?;
    let own = operands(plan, scene, &held, pen)?;
    let target = temporary(bases, own.temporaries)?;
    let count = next(own.temporaries)?;
    apply(plan, scene, it.op, it.site, &own, target, count, pen)?;
    Ok(Sides {
        left: value_at(own.values.items(), 0),
        right: value_at(own.values.items(), 1),
        temporaries: count,
    })
}

/// The sides when they have been evaluated.
#[tactic(auto, using(crate::proofs::Evaluated::sides_plainly, crate::proofs::Evaluated::sides_applied, crate::proofs::Evaluated::drawn_plainly, crate::proofs::Evaluated::drawn_number, crate::proofs::Evaluated::drawn_applied))]
fn evaluated(it: Compared<'_>, plan: &Plan, scene: Scene, pen: &mut Pen) -> Result<Sides, NoMemory>
    ensures value { IfOk result (λ sides. sides ≡ sides_at (plan_of plan.now) scene (compared_of it.entry)) }
    ensures strokes { OnOk result (pen.new ≡ preparing (plan_of plan.now) scene (compared_of it.entry) pen.old) }
{
    match it {
        Compared::Plainly { left, right, .. } => plain_sides(left, right, plan, scene, pen),
        Compared::Number(x) => number_sides(x, plan, scene, pen),
        Compared::Applied { applied, .. } => applied_sides(applied, plan, scene, pen),
    }
}

/// A comparison, which leads to the node `hit` where it holds and to `miss` where it does not.
#[tactic(auto, using(crate::proofs::Evaluated::deciding_joins))]
pub(crate) fn decide(
    it: Compared<'_>,
    plan: &Plan,
    scene: Scene,
    hit: u32,
    miss: u32,
    pen: &mut Pen,
) -> Result<(), NoMemory>
    ensures { OnOk result (pen.new ≡ deciding (plan_of plan.now) scene (compared_of it.entry) hit miss pen.old) }
{
    let standing = evaluated(it, plan, scene, pen)?;
    sides(plan, scene, mark_of(it), standing, hit, miss, pen)
}
