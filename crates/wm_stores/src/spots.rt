// What a spot holds, and what it gets.
ghost use Rattle.std.specs.Prelude.{◌≡◌, OnOk, IfOk};
ghost use Rattle.wm_flow.specs.Effects as effects;
ghost use Rattle.wm_flow.specs.Kept as forms;
ghost use Rattle.wm_flow.specs.Places as places;
ghost use Rattle.wm_flow.specs.Views.{doing_of};
ghost use Rattle.wm_places.specs.Seen.{plan_of};
ghost use Rattle.wm_flow.specs.Expressions as expressions;
ghost use Rattle.wm_steps.specs.Moves.{stepped};
ghost use Rattle.wm_stores.specs.Draws.{finishing, looking};

use crate::drops::nothing;
use std::alloc::Global;
use wm_flow::{Action, Kept, Scene, Source};
use wm_forms::{form_of, variable};
use wm_ops::NoMemory;
use wm_pen::Pen;
use wm_places::{Plan, bases_of, temporary};
use wm_steps::{after, narrow, read, step};

/// What a value is stored by, in an array of so many cells.
#[tactic(auto, unfolding(wm_flow::specs::Views::doing_of))]
fn storing(alloc: Global, source: Source, kept: Kept, cells: u32) -> Result<Action, NoMemory>
    ensures { IfOk result (λ action. doing_of action ≡ effects.storing source kept cells) }
{
    match source {
        Source::Variable(target) => {
            let form = form_of(alloc, kept)?;
            Ok(Action::AssignForm { target, form })
        }
        Source::Cells(array) => {
            let value = form_of(alloc, kept)?;
            Ok(Action::Write {
                array,
                value,
                length: cells,
            })
        }
        Source::Fixed { .. } => Ok(nothing(alloc)),
    }
}

/// The test of a value's conversion, where there is one, and its store, in an array of so many cells.
#[tactic(auto, unfolding(crate::specs::Draws::finishing))]
pub fn finish(
    plan: &Plan,
    scene: Scene,
    source: Source,
    cells: u32,
    narrowing: Option<u32>,
    kept: Kept,
    pen: &mut Pen,
) -> Result<(), NoMemory>
    ensures { OnOk result (pen.new ≡ finishing (plan_of plan.now) scene source cells narrowing kept pen.old) }
{
    let bases = bases_of(plan, scene)?;
    let count = after(bases, kept, 0)?;
    narrow(plan, scene, narrowing, kept, count, pen)?;
    let action = storing(plan.alloc, source, kept, cells)?;
    step(plan, scene, action, None, 0, pen)
}

fn read_first(
    plan: &Plan,
    scene: Scene,
    source: Source,
    site: Option<u32>,
    pen: &mut Pen,
) -> Result<Kept, NoMemory>
    ensures value { IfOk result (λ kept. kept ≡ forms.variable (places.temporary (places.bases_of (plan_of plan.now) scene) 0)) }
    ensures strokes { OnOk result (pen.new ≡ stepped (plan_of plan.now) scene (expressions.reading source (places.temporary (places.bases_of (plan_of plan.now) scene) 0)) (expressions.reading_site source site) 1 pen.old) }
{
    let bases = bases_of(plan, scene)?;
    let target = temporary(bases, 0)?;
    read(plan, scene, source, site, 0, pen)?;
    Ok(variable(target))
}

/// The number of a spot as it is read, at this site where it is a cell.
#[tactic(auto, using(crate::proofs::SpotsDrawn::looking_variable, crate::proofs::SpotsDrawn::looking_cells, crate::proofs::SpotsDrawn::looking_fixed))]
pub fn current(
    plan: &Plan,
    scene: Scene,
    source: Source,
    site: Option<u32>,
    pen: &mut Pen,
) -> Result<Kept, NoMemory>
    ensures value { IfOk result (λ kept. kept ≡ effects.current (plan_of plan.now) scene source) }
    ensures strokes { OnOk result (pen.new ≡ looking (plan_of plan.now) scene source site pen.old) }
{
    match source {
        Source::Variable(v) => Ok(variable(v)),
        Source::Cells(_) => read_first(plan, scene, source, site, pen),
        Source::Fixed { .. } => read_first(plan, scene, source, site, pen),
    }
}
