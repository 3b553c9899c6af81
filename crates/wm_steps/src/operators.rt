// Operators.
ghost use Rattle.std.specs.Prelude.{◌≡◌, ◌∷◌, [], pos, slice_index_or, OnOk, IfOk};
ghost use Rattle.wm_ops.specs.declared.words.Counted.TheVariants as counted;
ghost use Rattle.wm_flow.specs.Kept as forms;
ghost use Rattle.wm_flow.specs.Places as places;
ghost use Rattle.wm_flow.specs.Plain as plain;
ghost use Rattle.wm_flow.specs.Views.{doing_of};
ghost use Rattle.wm_flow.specs.Yields as yields;
ghost use Rattle.wm_flow.specs.Expressions as expressions;
ghost use Rattle.wm_places.specs.Seen.{plan_of};
ghost use Rattle.wm_steps.specs.Moves.{yielding, applying, operating};

use crate::temporaries::step;
use crate::yields::yielded;
use std::alloc::Global;
use wm_coming::own_operator;
use wm_domain::Form;
use wm_flow::{Action, Held, Kept, Scene};
use wm_forms::{constant, form_of};
use wm_ops::{Counted, NoMemory, Op};
use wm_pen::Pen;
use wm_places::{Plan, bases_of, overflow_place};

/// A value by its number, 0 where there is none.
pub fn value_at(values: &[Kept], k: usize) -> Kept
    ensures { result ≡ slice_index_or values.now k (forms.constant (pos 0)) }
{
    match values.get(k) {
        Some(kept) => *kept,
        None => constant(0),
    }
}

fn argument_form(alloc: Global, values: &[Kept], k: usize) -> Result<Form, NoMemory>
    ensures { IfOk result (λ form. form ≡ expressions.argument_form values.now k) }
{
    form_of(alloc, value_at(values, k))
}

/// The values of arguments as they stand when their operator is applied.
pub fn operands(plan: &Plan, scene: Scene, held: &Held, pen: &mut Pen) -> Result<Held, NoMemory>
    ensures values { IfOk result (λ own. own ≡ expressions.operands (places.bases_of (plan_of plan.now) scene) held.now) }
    ensures strokes { OnOk result (pen.new ≡ yielding (plan_of plan.now) scene yields.own_operator held.now.values held.now.temporaries pen.old) }
{
    yielded(
        plan,
        scene,
        own_operator(),
        held.values.items(),
        held.temporaries,
        pen,
    )
}

#[tactic(auto, unfolding(wm_flow::specs::Views::doing_of))]
fn operation(
    alloc: Global,
    op: Op,
    values: &[Kept],
    target: u32,
    overflow: u32,
) -> Result<Action, NoMemory>
    ensures { IfOk result (λ action. doing_of action ≡ plain.Operate op (expressions.argument_form values.now 0 ∷ expressions.argument_form values.now 1 ∷ expressions.argument_form values.now 2 ∷ []) target overflow) }
{
    let first = argument_form(alloc, values, 0)?;
    let second = argument_form(alloc, values, 1)?;
    let third = argument_form(alloc, values, 2)?;
    Ok(Action::Operate {
        op,
        args: [first, second, third],
        target,
        overflow,
    })
}

#[tactic(auto, unfolding(wm_flow::specs::Views::doing_of))]
fn count_of(op: Op) -> Action
    ensures { doing_of result ≡ plain.Count (counted.Operator op) }
{
    Action::Count {
        word: Counted::Operator(op),
    }
}

/// An operator on values that stand: it is counted and applied, and gives its result to a variable of a node with so many
/// temporaries.
#[tactic(auto, unfolding(crate::specs::Moves::applying))]
pub fn apply(
    plan: &Plan,
    scene: Scene,
    op: Op,
    site: u32,
    own: &Held,
    target: u32,
    temporaries: u32,
    pen: &mut Pen,
) -> Result<(), NoMemory>
    ensures { OnOk result (pen.new ≡ applying (plan_of plan.now) scene op site own.now target temporaries pen.old) }
{
    let bases = bases_of(plan, scene)?;
    let overflow = overflow_place(bases)?;
    step(plan, scene, count_of(op), None, own.temporaries, pen)?;
    let action = operation(plan.alloc, op, own.values.items(), target, overflow)?;
    step(plan, scene, action, Some(site), temporaries, pen)
}

/// An operator on the values of its arguments.
#[tactic(auto, using(crate::proofs::Operates::operating_joins))]
pub fn operate(
    plan: &Plan,
    scene: Scene,
    op: Op,
    site: u32,
    held: &Held,
    target: u32,
    temporaries: u32,
    pen: &mut Pen,
) -> Result<(), NoMemory>
    ensures { OnOk result (pen.new ≡ operating (plan_of plan.now) scene op site held.now target temporaries pen.old) }
{
    let own = operands(plan, scene, held, pen)?;
    apply(plan, scene, op, site, &own, target, temporaries, pen)
}
