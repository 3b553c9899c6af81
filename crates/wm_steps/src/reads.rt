// Reads of names and of cells.
ghost use Rattle.std.specs.Prelude.{◌≡◌, suc, OnOk, IfOk};
ghost use Rattle.wm_flow.specs.Kept as forms;
ghost use Rattle.wm_flow.specs.Layouts as layouts;
ghost use Rattle.wm_flow.specs.Places as places;
ghost use Rattle.wm_flow.specs.Views.{doing_of, range_of};
ghost use Rattle.wm_flow.specs.Expressions as expressions;
ghost use Rattle.wm_places.specs.Seen.{plan_of};
ghost use Rattle.wm_steps.specs.Moves.{stepped, naming};

use crate::temporaries::step;
use std::alloc::Global;
use wm_flow::{Action, Kept, Scene, Source};
use wm_forms::{form_of, variable};
use wm_interval::Interval;
use wm_ops::NoMemory;
use wm_pen::Pen;
use wm_places::{Plan, bases_of, next, temporary};

/// The numbers from `low` to `high`. `NoMemory`, too, where there are none: the tables of a program have no such ends.
pub fn interval(low: i64, high: i64) -> Result<Interval, NoMemory>
    ensures { IfOk result (λ it. range_of it ≡ layouts.range low high) }
{
    if low <= high {
        return Ok(Interval::new(low, high));
    }
    Err(NoMemory)
}

/// What reads a source into a variable. `NoMemory`, too, where a const object has no values.
#[tactic(auto, unfolding(wm_flow::specs::Views::doing_of))]
pub fn reading(alloc: Global, source: Source, target: u32) -> Result<Action, NoMemory>
    ensures { IfOk result (λ action. doing_of action ≡ expressions.reading source target) }
{
    match source {
        Source::Variable(v) => {
            let form = form_of(alloc, variable(v))?;
            Ok(Action::AssignForm { target, form })
        }
        Source::Cells(array) => Ok(Action::Read { array, target }),
        Source::Fixed { low, high } => {
            let range = interval(low, high)?;
            Ok(Action::AssignRange { target, range })
        }
    }
}

fn reading_site(source: Source, site: Option<u32>) -> Option<u32>
    ensures { result ≡ expressions.reading_site source site }
{
    match source {
        Source::Variable(_) => None,
        Source::Cells(_) => site,
        Source::Fixed { .. } => None,
    }
}

/// Reads a source into the next temporary but so many, after which one more is in use.
pub fn read(
    plan: &Plan,
    scene: Scene,
    source: Source,
    site: Option<u32>,
    temporaries: u32,
    pen: &mut Pen,
) -> Result<(), NoMemory>
    ensures { OnOk result (pen.new ≡ stepped (plan_of plan.now) scene (expressions.reading source (places.temporary (places.bases_of (plan_of plan.now) scene) temporaries)) (expressions.reading_site source site) (suc temporaries) pen.old) }
{
    let bases = bases_of(plan, scene)?;
    let target = temporary(bases, temporaries)?;
    let count = next(temporaries)?;
    let action = reading(plan.alloc, source, target)?;
    step(plan, scene, action, reading_site(source, site), count, pen)
}

/// The value of a name, which is read where it is no variable.
#[tactic(auto, using(crate::proofs::NamesRead::naming_variable, crate::proofs::NamesRead::naming_cells, crate::proofs::NamesRead::naming_fixed))]
pub fn named(
    plan: &Plan,
    scene: Scene,
    source: Source,
    temporaries: u32,
    pen: &mut Pen,
) -> Result<Kept, NoMemory>
    ensures value { IfOk result (λ kept. kept ≡ expressions.named_value (plan_of plan.now) scene source temporaries) }
    ensures strokes { OnOk result (pen.new ≡ naming (plan_of plan.now) scene source temporaries pen.old) }
{
    match source {
        Source::Variable(v) => Ok(variable(v)),
        Source::Cells(_) => read_new(plan, scene, source, temporaries, pen),
        Source::Fixed { .. } => read_new(plan, scene, source, temporaries, pen),
    }
}

/// Reads a source into a new temporary, which is the value.
fn read_new(
    plan: &Plan,
    scene: Scene,
    source: Source,
    temporaries: u32,
    pen: &mut Pen,
) -> Result<Kept, NoMemory>
    ensures value { IfOk result (λ kept. kept ≡ forms.variable (places.temporary (places.bases_of (plan_of plan.now) scene) temporaries)) }
    ensures strokes { OnOk result (pen.new ≡ stepped (plan_of plan.now) scene (expressions.reading source (places.temporary (places.bases_of (plan_of plan.now) scene) temporaries)) (expressions.reading_site source None) (suc temporaries) pen.old) }
{
    read(plan, scene, source, None, temporaries, pen)?;
    let bases = bases_of(plan, scene)?;
    let target = temporary(bases, temporaries)?;
    Ok(variable(target))
}
