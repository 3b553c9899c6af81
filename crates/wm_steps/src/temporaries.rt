// Temporaries in use, and forms that go to one.
ghost use Rattle.std.specs.Prelude.{◌≡◌, suc, [], OnOk, IfOk};
ghost use Rattle.wm_flow.specs.Views.{doing_of};
ghost use Rattle.wm_flow.specs.Yields as yields;
ghost use Rattle.wm_flow.specs.Kept as forms;
ghost use Rattle.wm_places.specs.Seen.{plan_of};
ghost use Rattle.wm_steps.specs.Moves.{stepped, kept_away};

use std::alloc::Global;
use wm_flow::{Action, Bases, Held, Kept, Scene};
use wm_forms::form_of;
use wm_ops::{List, NoMemory};
use wm_pen::Pen;
use wm_places::{Plan, bases_of, is_named, next, temporary};

/// One edge to a new node with so many temporaries.
#[tactic(auto, unfolding(crate::specs::Moves::stepped))]
pub fn step(
    plan: &Plan,
    scene: Scene,
    action: Action,
    site: Option<u32>,
    temporaries: u32,
    pen: &mut Pen,
) -> Result<(), NoMemory>
    ensures { OnOk result (pen.new ≡ stepped (plan_of plan.now) scene (doing_of action) site temporaries pen.old) }
{
    pen.step(plan, scene, action, site, temporaries)
}

/// How many temporaries are in use where this value was evaluated over so many.
#[tactic(auto, unfolding(wm_flow::specs::Yields::after))]
pub fn after(bases: Bases, kept: Kept, temporaries: u32) -> Result<u32, NoMemory>
    ensures { IfOk result (λ count. count ≡ yields.after bases kept temporaries) }
{
    if is_named(bases, kept)? {
        return Ok(temporaries);
    }
    next(temporaries)
}

/// No values, over so many temporaries.
pub fn no_values(alloc: Global, temporaries: u32) -> Held
    ensures { result ≡ record { values = []; temporaries = temporaries } }
{
    Held {
        values: List::new(alloc),
        temporaries,
    }
}

/// One more value.
pub fn with_value(bases: Bases, held: Held, kept: Kept) -> Result<Held, NoMemory>
    ensures { IfOk result (λ more. more ≡ yields.with_value bases held kept) }
{
    let temporaries = after(bases, kept, held.temporaries)?;
    let mut values = held.values;
    values.push(kept)?;
    Ok(Held {
        values,
        temporaries,
    })
}

fn assigned(alloc: Global, target: u32, kept: Kept) -> Result<Action, NoMemory>
    ensures { IfOk result (λ action. action ≡ Action.AssignForm target (forms.form_of kept)) }
{
    let form = form_of(alloc, kept)?;
    Ok(Action::AssignForm { target, form })
}

/// A form goes to the next temporary.
#[tactic(auto, unfolding(crate::specs::Moves::kept_away, crate::specs::Moves::stepped, wm_flow::specs::Yields::to_temporary, wm_flow::specs::Views::doing_of))]
pub fn to_temporary(
    plan: &Plan,
    scene: Scene,
    temporaries: u32,
    kept: Kept,
    pen: &mut Pen,
) -> Result<(), NoMemory>
    ensures { OnOk result (pen.new ≡ kept_away (plan_of plan.now) scene temporaries kept pen.old) }
{
    let bases = bases_of(plan, scene)?;
    let target = temporary(bases, temporaries)?;
    let count = next(temporaries)?;
    let action = assigned(plan.alloc, target, kept)?;
    step(plan, scene, action, None, count, pen)
}
