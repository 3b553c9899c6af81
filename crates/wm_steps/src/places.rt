// The tests of indices.
ghost use Rattle.std.specs.Prelude.{◌≡◌, ◌∷◌, [], true, Some, OnOk, IfOk, map};
ghost use Rattle.wm_flow.specs.Kept as forms;
ghost use Rattle.wm_flow.specs.Places as places;
ghost use Rattle.wm_flow.specs.Strokes as strokes;
ghost use Rattle.wm_flow.specs.Views.{doing_of};
ghost use Rattle.wm_flow.specs.Expressions as expressions;
ghost use Rattle.wm_places.specs.Seen.{plan_of};
ghost use Rattle.wm_steps.specs.Moves.{moving, place_doing, placing};

use crate::temporaries::{step, to_temporary};
use crate::tests::tested_itself;
use wm_flow::{Action, Bases, Kept, Scene};
use wm_forms::{collected, variable};
use wm_ops::NoMemory;
use wm_pen::Pen;
use wm_places::{Plan, bases_of, temporary};

fn moves(offset: Kept, index: Kept) -> bool
    ensures { result ≡ expressions.moves offset index }
{
    match collected(offset, false, index) {
        Some(_) => false,
        None => true,
    }
}

/// The form that is tested for an index, with so many temporaries in use behind it.
#[tactic(auto, unfolding(wm_flow::specs::Expressions::place_form))]
pub fn place_form(
    bases: Bases,
    offset: Kept,
    index: Kept,
    temporaries: u32,
) -> Result<Kept, NoMemory>
    ensures { IfOk result (λ kept. kept ≡ expressions.place_form bases offset index temporaries) }
{
    match collected(offset, false, index) {
        Some(kept) => Ok(kept),
        None => {
            let v = temporary(bases, temporaries)?;
            match collected(offset, false, variable(v)) {
                Some(kept) => Ok(kept),
                None => Ok(index),
            }
        }
    }
}

/// The index goes to a temporary first, where its sum with the offset is no form.
#[tactic(auto, unfolding(crate::specs::Moves::moving))]
fn prepare(
    plan: &Plan,
    scene: Scene,
    offset: Kept,
    index: Kept,
    temporaries: u32,
    pen: &mut Pen,
) -> Result<(), NoMemory>
    ensures { OnOk result (pen.new ≡ moving (plan_of plan.now) scene offset index temporaries pen.old) }
{
    if moves(offset, index) {
        return to_temporary(plan, scene, temporaries, index, pen);
    }
    Ok(())
}

/// The test of an index, between these ends.
#[tactic(auto, unfolding(crate::specs::Moves::place_doing))]
fn place_action(
    plan: &Plan,
    scene: Scene,
    offset: Kept,
    index: Kept,
    temporaries: u32,
    low: i64,
    high: i64,
) -> Result<Action, NoMemory>
    ensures { IfOk result (λ action. doing_of action ≡ place_doing (plan_of plan.now) scene offset index temporaries low high) }
{
    let bases = bases_of(plan, scene)?;
    let kept = place_form(bases, offset, index, temporaries)?;
    tested_itself(plan.alloc, kept, low, high)
}

/// The test of an index, after which `left` temporaries are in use.
#[tactic(auto, using(crate::proofs::IndexTests::placing_joins))]
pub fn place(
    plan: &Plan,
    scene: Scene,
    offset: Kept,
    index: Kept,
    ends: (i64, i64),
    site: u32,
    temporaries: u32,
    left: u32,
    pen: &mut Pen,
) -> Result<(), NoMemory>
    ensures { OnOk result (pen.new ≡ placing (plan_of plan.now) scene offset index ends.0 ends.1 site temporaries left pen.old) }
{
    let action = place_action(plan, scene, offset, index, temporaries, ends.0, ends.1)?;
    prepare(plan, scene, offset, index, temporaries, pen)?;
    step(plan, scene, action, Some(site), left, pen)
}
