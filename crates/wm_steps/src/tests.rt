// Actions that test a form.
ghost use Rattle.std.specs.Prelude.{◌≡◌, ◌∷◌, [], IfOk};
ghost use Rattle.wm_flow.specs.Kept as forms;
ghost use Rattle.wm_flow.specs.Strokes as strokes;
ghost use Rattle.wm_flow.specs.Expressions as expressions;
ghost use Rattle.wm_flow.specs.Views.{doing_of};

use std::alloc::Global;
use wm_domain::Form;
use wm_flow::{Action, Combined, Kept};
use wm_forms::form_of;
use wm_ops::{List, NoMemory};

fn one_form(alloc: Global, a: Kept) -> Result<List<Form>, NoMemory>
    ensures { IfOk result (λ list. list ≡ forms.form_of a ∷ []) }
{
    let mut list = List::new(alloc);
    list.push(form_of(alloc, a)?)?;
    Ok(list)
}

fn two_forms(alloc: Global, a: Kept, b: Kept) -> Result<List<Form>, NoMemory>
    ensures { IfOk result (λ list. list ≡ forms.form_of a ∷ forms.form_of b ∷ []) }
{
    let mut list = one_form(alloc, a)?;
    list.push(form_of(alloc, b)?)?;
    Ok(list)
}

/// A test of the one operand itself.
#[tactic(auto, unfolding(wm_flow::specs::Views::doing_of))]
pub fn tested_itself(alloc: Global, kept: Kept, low: i64, high: i64) -> Result<Action, NoMemory>
    ensures { IfOk result (λ action. doing_of action ≡ strokes.tested kept (kept ∷ []) low high Combined.Itself) }
{
    let args = one_form(alloc, kept)?;
    let form = form_of(alloc, kept)?;
    Ok(Action::Test {
        args,
        form,
        low,
        high,
        how: Combined::Itself,
    })
}

/// A test that the negative of an operand lies in 32 bits.
#[tactic(auto, unfolding(wm_flow::specs::Views::doing_of))]
pub fn tested_negative(alloc: Global, kept: Kept, operand: Kept) -> Result<Action, NoMemory>
    ensures { IfOk result (λ action. doing_of action ≡ strokes.tested kept (operand ∷ []) expressions.least32 expressions.greatest32 Combined.Negative) }
{
    let args = one_form(alloc, operand)?;
    let form = form_of(alloc, kept)?;
    Ok(Action::Test {
        args,
        form,
        low: -2147483648,
        high: 2147483647,
        how: Combined::Negative,
    })
}

/// A test that the sum or difference of two operands lies in 32 bits.
#[tactic(auto, unfolding(wm_flow::specs::Views::doing_of))]
pub fn tested_two(
    alloc: Global,
    kept: Kept,
    a: Kept,
    b: Kept,
    how: Combined,
) -> Result<Action, NoMemory>
    ensures { IfOk result (λ action. doing_of action ≡ strokes.tested kept (a ∷ b ∷ []) expressions.least32 expressions.greatest32 how) }
{
    let args = two_forms(alloc, a, b)?;
    let form = form_of(alloc, kept)?;
    Ok(Action::Test {
        args,
        form,
        low: -2147483648,
        high: 2147483647,
        how,
    })
}
