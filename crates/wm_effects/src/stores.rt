// Stores, and updates of what is stored.
ghost use Rattle.std.specs.Prelude.{◌≡◌, OnOk};
ghost use Rattle.wm_places.specs.Seen.{plan_of};
ghost use Rattle.wm_program.specs.Trees.{expression_of};
ghost use Rattle.wm_stores.specs.Directs.{direct_of};
ghost use Rattle.wm_effects.specs.Stores as drawn;

use wm_flow::{Scene, Source};
use wm_ops::NoMemory;
use wm_pen::Pen;
use wm_places::{Plan, bases_of, overflow_place};
use wm_program::{Array, Expr, PlainMark};
use wm_results::locate;
use wm_steps::{after, operate};
use wm_stores::{Direct, current, direct_store, finish};
use wm_values::{expression, link, operator_values};

/// An operator gives its value to a variable.
#[tactic(auto, unfolding(crate::specs::Stores::giving))]
fn give(it: Direct<'_>, plan: &Plan, scene: Scene, pen: &mut Pen) -> Result<(), NoMemory>
    ensures { OnOk result (pen.new ≡ drawn.giving (plan_of plan.now) scene (direct_of it.entry) pen.old) }
{
    let applied = it.applied;
    let held = operator_values(applied.arguments, plan, scene, 0, pen)?;
    operate(
        plan,
        scene,
        applied.op,
        applied.site,
        &held,
        it.target,
        0,
        pen,
    )
}

/// A value is evaluated, converted and stored.
#[tactic(auto, unfolding(crate::specs::Stores::keeping))]
fn keep(
    x: &Expr,
    plan: &Plan,
    scene: Scene,
    source: Source,
    cells: u32,
    narrowing: Option<u32>,
    pen: &mut Pen,
) -> Result<(), NoMemory>
    ensures { OnOk result (pen.new ≡ drawn.keeping (plan_of plan.now) scene source cells (expression_of x.now) narrowing pen.old) }
{
    let kept = expression(x, plan, scene, 0, pen)?;
    finish(plan, scene, source, cells, narrowing, kept, pen)
}

/// A value goes to what a name or an element stands for, an array of so many cells.
#[tactic(auto, using(crate::proofs::StoresDrawn::storing_as))]
pub(crate) fn store(
    x: &Expr,
    plan: &Plan,
    scene: Scene,
    source: Source,
    cells: u32,
    narrowing: Option<u32>,
    pen: &mut Pen,
) -> Result<(), NoMemory>
    ensures { OnOk result (pen.new ≡ drawn.storing (plan_of plan.now) scene source cells (expression_of x.now) narrowing pen.old) }
{
    let bases = bases_of(plan, scene)?;
    let overflow = overflow_place(bases)?;
    match direct_store(overflow, source, x, narrowing) {
        Some(it) => give(it, plan, scene, pen),
        None => keep(x, plan, scene, source, cells, narrowing, pen),
    }
}

/// The index of an element that is written: it is used up by its test.
#[tactic(auto, using(crate::proofs::StoresDrawn::finding_joins))]
pub(crate) fn find(
    index: &Expr,
    plan: &Plan,
    scene: Scene,
    array: Array,
    site: u32,
    pen: &mut Pen,
) -> Result<(), NoMemory>
    ensures { OnOk result (pen.new ≡ drawn.finding (plan_of plan.now) scene array (expression_of index.now) site pen.old) }
{
    let bases = bases_of(plan, scene)?;
    let at = expression(index, plan, scene, 0, pen)?;
    let count = after(bases, at, 0)?;
    locate(plan, scene, array, site, at, count, 0, pen)
}

/// The number of a spot and another are combined, and the value goes to the spot.
#[tactic(auto, using(crate::proofs::StoresDrawn::updating_joins))]
pub(crate) fn update(
    x: &Expr,
    plan: &Plan,
    scene: Scene,
    source: Source,
    cells: u32,
    site: Option<u32>,
    mark: PlainMark,
    arithmetic: u32,
    narrowing: Option<u32>,
    pen: &mut Pen,
) -> Result<(), NoMemory>
    ensures { OnOk result (pen.new ≡ drawn.updating (plan_of plan.now) scene source cells site mark (expression_of x.now) arithmetic narrowing pen.old) }
{
    let first = current(plan, scene, source, site, pen)?;
    let kept = link(x, plan, scene, mark, arithmetic, first, 0, pen)?;
    finish(plan, scene, source, cells, narrowing, kept, pen)
}
