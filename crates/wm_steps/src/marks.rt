// Plain operators.
ghost use Rattle.std.specs.Prelude.{◌≡◌, ◌∷◌, [], OnOk, IfOk};
ghost use Rattle.std.specs.Option.{option_map_or};
ghost use Rattle.wm_flow.specs.Kept as forms;
ghost use Rattle.wm_flow.specs.Places as places;
ghost use Rattle.wm_flow.specs.Views.{doing_of};
ghost use Rattle.wm_flow.specs.Expressions as expressions;
ghost use Rattle.wm_flow.specs.Plain as plain;
ghost use Rattle.wm_places.specs.Seen.{plan_of};
ghost use Rattle.wm_steps.specs.Moves.{combining};

use crate::temporaries::{after, step};
use crate::tests::tested_two;
use std::alloc::Global;
use wm_flow::{Action, Bases, Combined, Kept, Scene};
use wm_forms::{collected, form_of, variable};
use wm_ops::NoMemory;
use wm_pen::Pen;
use wm_places::{Plan, bases_of, is_named, temporary};
use wm_program::PlainMark;

fn sum_of(mark: PlainMark, a: Kept, b: Kept) -> Option<Kept>
    ensures { result ≡ expressions.sum_of mark a b }
{
    match mark {
        PlainMark::Plus => collected(a, false, b),
        PlainMark::Minus => collected(a, true, b),
        PlainMark::Times => None,
        PlainMark::Divide => None,
    }
}

fn combined_by(mark: PlainMark) -> Combined
    ensures { result ≡ expressions.combined_by mark }
{
    match mark {
        PlainMark::Plus => Combined::Sum,
        PlainMark::Minus => Combined::Difference,
        PlainMark::Times => Combined::Itself,
        PlainMark::Divide => Combined::Itself,
    }
}

/// The form of a sum or difference of named scalars and numbers, where it is one.
#[tactic(auto, unfolding(wm_flow::specs::Expressions::plain_form))]
fn plain_form(bases: Bases, mark: PlainMark, a: Kept, b: Kept) -> Result<Option<Kept>, NoMemory>
    ensures { IfOk result (λ form. form ≡ expressions.plain_form bases mark a b) }
{
    if is_named(bases, a)? {
        if is_named(bases, b)? {
            return Ok(sum_of(mark, a, b));
        }
        return Ok(None);
    }
    Ok(None)
}

/// The form, or the temporary that holds the value.
fn value_of(form: Option<Kept>, target: u32) -> Kept
    ensures { result ≡ option_map_or (λ kept. kept) form (forms.variable target) }
{
    match form {
        Some(kept) => kept,
        None => variable(target),
    }
}

/// The operation on two numbers.
#[tactic(auto, unfolding(wm_flow::specs::Views::doing_of))]
fn operation(
    alloc: Global,
    mark: PlainMark,
    a: Kept,
    b: Kept,
    target: u32,
) -> Result<Action, NoMemory>
    ensures { IfOk result (λ action. doing_of action ≡ plain.Plain mark (forms.form_of a ∷ forms.form_of b ∷ []) target) }
{
    let first = form_of(alloc, a)?;
    let second = form_of(alloc, b)?;
    Ok(Action::Plain {
        mark,
        args: [first, second],
        target,
    })
}

/// What the operator does: it tests its form, or gives its value to a temporary.
fn plain_action(
    alloc: Global,
    bases: Bases,
    mark: PlainMark,
    a: Kept,
    b: Kept,
    target: u32,
    form: Option<Kept>,
) -> Result<Action, NoMemory>
    ensures { IfOk result (λ action. doing_of action ≡ expressions.plain_doing bases mark a b target form) }
{
    match form {
        None => {
            let v = temporary(bases, target)?;
            operation(alloc, mark, a, b, v)
        }
        Some(kept) => tested_two(alloc, kept, a, b, combined_by(mark)),
    }
}

/// A plain operator between two values, whose value goes to this temporary where it is no form.
#[tactic(auto, unfolding(crate::specs::Moves::combining, crate::specs::Moves::stepped, wm_flow::specs::Expressions::plain_strokes))]
pub fn plain(
    plan: &Plan,
    scene: Scene,
    mark: PlainMark,
    a: Kept,
    b: Kept,
    site: u32,
    target: u32,
    pen: &mut Pen,
) -> Result<Kept, NoMemory>
    ensures value { IfOk result (λ kept. kept ≡ expressions.plain_value (places.bases_of (plan_of plan.now) scene) mark a b target) }
    ensures strokes { OnOk result (pen.new ≡ combining (plan_of plan.now) scene mark a b site target pen.old) }
{
    let bases = bases_of(plan, scene)?;
    let form = plain_form(bases, mark, a, b)?;
    let v = temporary(bases, target)?;
    let value = value_of(form, v);
    let count = after(bases, value, target)?;
    let action = plain_action(plan.alloc, bases, mark, a, b, target, form)?;
    step(plan, scene, action, Some(site), count, pen)?;
    Ok(value)
}
