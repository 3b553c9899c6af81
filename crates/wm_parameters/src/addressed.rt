// Parameters whose addresses are taken: each is written from its temporary into its array, the last one first.
ghost use Rattle.std.specs.Prelude.{◌≡◌, [], ◌∷◌, OnOk, IfOk};
ghost use Rattle.wm_flow.specs.Kept as forms;
ghost use Rattle.wm_flow.specs.Places as places;
ghost use Rattle.wm_flow.specs.Plain as plain;
ghost use Rattle.wm_flow.specs.Views.{doing_of};
ghost use Rattle.wm_places.specs.Seen.{plan_of};
ghost use Rattle.wm_program.specs.Code.{routine_at};
ghost use Rattle.wm_parameters.specs.Draws.{storing, storing_all};

use wm_crossings::{parameters_of, seats_of};
use wm_flow::{Action, LocalSeat, Scene};
use wm_forms::{form_of, variable};
use wm_ops::NoMemory;
use wm_pen::Pen;
use wm_places::{Plan, above_at, bases_of, next, plus, temporary};
use wm_steps::step;

/// An array gets the value of a temporary.
#[tactic(auto, unfolding(wm_flow::specs::Views::doing_of))]
fn write_of(plan: &Plan, scene: Scene, array: u32, k: u32) -> Result<Action, NoMemory>
    ensures { IfOk result (λ action. doing_of action ≡ plain.Write array (forms.form_of (forms.variable (places.temporary (places.bases_of (plan_of plan.now) scene) k))) 1) }
{
    let bases = bases_of(plan, scene)?;
    let v = temporary(bases, k)?;
    let value = form_of(plan.alloc, variable(v))?;
    Ok(Action::Write {
        array,
        value,
        length: 1,
    })
}

/// The first so many locals, behind so many temporaries that stay in use.
#[tactic(auto, using(crate::proofs::ParametersStored::stored_none, crate::proofs::ParametersStored::stored_end, crate::proofs::ParametersStored::stored_scalar, crate::proofs::ParametersStored::stored_array))]
fn store(
    seats: &[LocalSeat],
    plan: &Plan,
    scene: Scene,
    count: u32,
    above: u32,
    kept: u32,
    pen: &mut Pen,
) -> Result<(), NoMemory>
    ensures { OnOk result (pen.new ≡ storing (plan_of plan.now) scene seats.now count above kept pen.old) }
{
    match seats.split_first() {
        None => Ok(()),
        Some((seat, rest)) => {
            if count == 0 {
                return Ok(());
            }
            match *seat {
                LocalSeat::Scalar(_) => store(rest, plan, scene, count - 1, above, kept, pen),
                LocalSeat::Array(k) => {
                    store(rest, plan, scene, count - 1, above, next(kept)?, pen)?;
                    let array = plus(above, k)?;
                    let action = write_of(plan, scene, array, kept)?;
                    step(plan, scene, action, None, kept, pen)
                }
            }
        }
    }
}

/// How many parameters a function has.
#[tactic(auto, unfolding(wm_places::specs::Seen::plan_of))]
fn parameters_in(plan: &Plan, function: u32) -> u32
    ensures { result ≡ (routine_at (plan_of plan.now).code function).parameters }
{
    parameters_of(plan.program, function)
}

/// How many arrays stand before those of an instance.
#[tactic(auto, unfolding(wm_places::specs::Seen::plan_of))]
fn above_in(plan: &Plan, instance: u32) -> u32
    ensures { result ≡ places.above_at (plan_of plan.now).tables instance }
{
    above_at(plan.tables, instance)
}

/// All parameters of an instance whose addresses are taken, from its first node on. `NoMemory`: memory ran out, or a
/// number is past 32 bits.
#[tactic(auto, using(crate::proofs::ParametersStored::all_stored))]
pub fn store_all(plan: &Plan, scene: Scene, pen: &mut Pen) -> Result<(), NoMemory>
    ensures strokes { OnOk result (pen.new ≡ storing_all (plan_of plan.now) scene pen.old) }
{
    store(
        seats_of(plan, scene.function),
        plan,
        scene,
        parameters_in(plan, scene.function),
        above_in(plan, scene.instance),
        0,
        pen,
    )
}
