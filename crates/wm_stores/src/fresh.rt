// Names that a declaration makes.
ghost use Rattle.std.specs.Prelude.{◌≡◌, ◌∷◌, [], None, Some, OnOk, IfOk};
ghost use Rattle.wm_flow.specs.Plain as plain;
ghost use Rattle.wm_flow.specs.Effects as effects;
ghost use Rattle.wm_flow.specs.Layouts as layouts;
ghost use Rattle.wm_flow.specs.Seats as seats;
ghost use Rattle.wm_flow.specs.Views.{doing_of, range_of, cells_of};
ghost use Rattle.wm_places.specs.Seen.{plan_of};
ghost use Rattle.wm_steps.specs.Moves.{stepped};

use crate::drops::nothing;
use std::alloc::Global;
use wm_arrays::Summary;
use wm_flow::{Action, Scene, Source};
use wm_interval::Interval;
use wm_ops::{List, NoMemory, Width};
use wm_pen::Pen;
use wm_places::{Plan, own_source};
use wm_seats::{high_of, low_of};
use wm_steps::{interval, step};

fn width_interval(width: Width) -> Result<Interval, NoMemory>
    ensures { IfOk result (λ it. range_of it ≡ layouts.width_range width) }
{
    match width {
        Width::W16 => interval(-32768, 32767),
        Width::W32 => interval(-2147483648, 2147483647),
    }
}

/// One variable may have any number from here on.
#[tactic(auto, unfolding(wm_flow::specs::Views::doing_of))]
fn clearing(alloc: Global, v: u32) -> Result<Action, NoMemory>
    ensures { IfOk result (λ action. doing_of action ≡ plain.Clear (v ∷ [])) }
{
    let mut variables = List::new(alloc);
    variables.push(v)?;
    Ok(Action::Clear { variables })
}

/// A scalar that takes any number of its width.
#[tactic(auto, unfolding(wm_flow::specs::Views::doing_of))]
fn filling(plan: &Plan, scene: Scene, source: Source, width: Width) -> Result<Action, NoMemory>
    ensures { IfOk result (λ action. doing_of action ≡ effects.filling (plan_of plan.now) scene source width) }
{
    match source {
        Source::Variable(v) => clearing(plan.alloc, v),
        Source::Cells(array) => {
            let range = width_interval(width)?;
            Ok(Action::SetArray {
                array,
                summary: Summary::Range(range),
            })
        }
        Source::Fixed { .. } => Ok(nothing(plan.alloc)),
    }
}

/// An array that gets cells of this summary.
#[tactic(auto, unfolding(wm_flow::specs::Views::doing_of))]
fn setting(plan: &Plan, scene: Scene, source: Source, summary: Summary) -> Action
    ensures { doing_of result ≡ effects.setting (plan_of plan.now) scene source (cells_of summary) }
{
    match source {
        Source::Variable(_) => nothing(plan.alloc),
        Source::Cells(array) => Action::SetArray { array, summary },
        Source::Fixed { .. } => nothing(plan.alloc),
    }
}

/// A scalar without a value, by its number among the locals: it has any number of its width.
pub fn filled(
    plan: &Plan,
    scene: Scene,
    local: u32,
    width: Width,
    pen: &mut Pen,
) -> Result<(), NoMemory>
    ensures { OnOk result (pen.new ≡ stepped (plan_of plan.now) scene (effects.filling (plan_of plan.now) scene (effects.own_source (plan_of plan.now) scene local) width) None 0 pen.old) }
{
    let source = own_source(plan, scene, local)?;
    let action = filling(plan, scene, source, width)?;
    step(plan, scene, action, None, 0, pen)
}

/// An array without values, by its number among the locals: no cell is set.
pub fn blank(plan: &Plan, scene: Scene, local: u32, pen: &mut Pen) -> Result<(), NoMemory>
    ensures { OnOk result (pen.new ≡ stepped (plan_of plan.now) scene (effects.setting (plan_of plan.now) scene (effects.own_source (plan_of plan.now) scene local) None) None 0 pen.old) }
{
    let source = own_source(plan, scene, local)?;
    let action = setting(plan, scene, source, Summary::Empty);
    step(plan, scene, action, None, 0, pen)
}

/// An array of this length that begins with these values, by its number among the locals.
pub fn listed(
    plan: &Plan,
    scene: Scene,
    local: u32,
    length: u32,
    values: &[i64],
    pen: &mut Pen,
) -> Result<(), NoMemory>
    ensures { OnOk result (pen.new ≡ stepped (plan_of plan.now) scene (effects.setting (plan_of plan.now) scene (effects.own_source (plan_of plan.now) scene local) (Some (layouts.range (seats.low_of length values.now) (seats.high_of length values.now)))) None 0 pen.old) }
{
    let source = own_source(plan, scene, local)?;
    let range = interval(low_of(length, values), high_of(length, values))?;
    let action = setting(plan, scene, source, Summary::Range(range));
    step(plan, scene, action, None, 0, pen)
}
