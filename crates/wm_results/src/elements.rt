// Elements of arrays.
ghost use Rattle.std.specs.Prelude.{◌≡◌, pos, OnOk, IfOk};
ghost use Rattle.wm_flow.specs.Kept as forms;
ghost use Rattle.wm_flow.specs.Places as places;
ghost use Rattle.wm_flow.specs.Yields as yields;
ghost use Rattle.wm_flow.specs.Expressions as expressions;
ghost use Rattle.wm_places.specs.Seen.{plan_of};
ghost use Rattle.wm_results.specs.Draws.{locating, indexing};

use wm_flow::{Kept, Scene};
use wm_forms::variable;
use wm_ops::NoMemory;
use wm_pen::Pen;
use wm_places::{Plan, array_source, bases_of, length_of, offset_of, root_of, temporary};
use wm_program::Array;
use wm_steps::{after, place, read};

/// How many cells the root of an array has.
#[tactic(auto, unfolding(wm_places::specs::Seen::plan_of))]
pub fn cells_in(plan: &Plan, scene: Scene, array: Array) -> u32
    ensures { result ≡ expressions.cells_in (plan_of plan.now) scene array }
{
    length_of(plan.program, root_of(plan, scene, array))
}

fn last_index(plan: &Plan, scene: Scene, array: Array) -> i64
    ensures { result ≡ expressions.last_index (plan_of plan.now) scene array }
{
    i64::from(cells_in(plan, scene, array)) - 1
}

/// The test of an index that is this value, evaluated over so many temporaries; `left` are in use behind it.
#[tactic(auto, unfolding(crate::specs::Draws::locating))]
pub fn locate(
    plan: &Plan,
    scene: Scene,
    array: Array,
    site: u32,
    at: Kept,
    temporaries: u32,
    left: u32,
    pen: &mut Pen,
) -> Result<(), NoMemory>
    ensures { OnOk result (pen.new ≡ locating (plan_of plan.now) scene array site at temporaries left pen.old) }
{
    let offset = offset_of(plan, scene, array)?;
    let ends = (0, last_index(plan, scene, array));
    place(plan, scene, offset, at, ends, site, temporaries, left, pen)
}

/// An element, by the value of its index: it is read into the next temporary but so many.
#[tactic(auto, using(crate::proofs::ElementsRead::indexing_joins))]
pub fn element(
    plan: &Plan,
    scene: Scene,
    array: Array,
    site: u32,
    at: Kept,
    temporaries: u32,
    pen: &mut Pen,
) -> Result<Kept, NoMemory>
    ensures value { IfOk result (λ kept. kept ≡ forms.variable (places.temporary (places.bases_of (plan_of plan.now) scene) temporaries)) }
    ensures strokes { OnOk result (pen.new ≡ indexing (plan_of plan.now) scene array site at temporaries pen.old) }
{
    let bases = bases_of(plan, scene)?;
    let source = array_source(plan, scene, array)?;
    let count = after(bases, at, temporaries)?;
    let target = temporary(bases, temporaries)?;
    locate(plan, scene, array, site, at, count, count, pen)?;
    read(plan, scene, source, Some(site), temporaries, pen)?;
    Ok(variable(target))
}
