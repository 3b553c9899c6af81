// Declarations.
ghost use Rattle.std.specs.Prelude.{◌≡◌, map, OnOk};
ghost use Rattle.wm_places.specs.Seen.{plan_of};
ghost use Rattle.wm_program.specs.Trees.{scalar_of, array_of, fresh_of};
ghost use Rattle.wm_effects.specs.Draws.{making, declaring, making_each};

use crate::stores::store;
use sqlite_items::Items;
use wm_flow::Scene;
use wm_ops::{NoMemory, Width};
use wm_pen::Pen;
use wm_places::{Plan, own_source};
use wm_program::{Converted, Declared, Expr};
use wm_stores::{blank, filled, listed};

#[tactic(auto, using(crate::proofs::NamesMade::given_drawn, crate::proofs::NamesMade::filled_drawn))]
fn declare_scalar(
    initial: &Option<Converted<Expr>>,
    plan: &Plan,
    scene: Scene,
    local: u32,
    width: Width,
    pen: &mut Pen,
) -> Result<(), NoMemory>
    ensures { OnOk result (pen.new ≡ making (plan_of plan.now) scene (scalar_of local width initial.now) pen.old) }
{
    match initial {
        Some(x) => {
            let source = own_source(plan, scene, local)?;
            store(&x.value, plan, scene, source, 1, x.narrowing, pen)
        }
        None => filled(plan, scene, local, width, pen),
    }
}

#[tactic(auto, using(crate::proofs::NamesMade::blank_drawn, crate::proofs::NamesMade::listed_drawn))]
fn declare_array(
    values: &Option<Items<i64>>,
    plan: &Plan,
    scene: Scene,
    local: u32,
    length: u32,
    pen: &mut Pen,
) -> Result<(), NoMemory>
    ensures { OnOk result (pen.new ≡ making (plan_of plan.now) scene (array_of local length values.now) pen.old) }
{
    match values {
        Some(values) => listed(plan, scene, local, length, values.as_slice(), pen),
        None => blank(plan, scene, local, pen),
    }
}

fn declare(one: &Declared, plan: &Plan, scene: Scene, pen: &mut Pen) -> Result<(), NoMemory>
    ensures { OnOk result (pen.new ≡ making (plan_of plan.now) scene (fresh_of one.now) pen.old) }
{
    match one {
        Declared::Scalar {
            local,
            width,
            initial,
        } => declare_scalar(initial, plan, scene, *local, *width, pen),
        Declared::Array {
            local,
            length,
            values,
        } => declare_array(values, plan, scene, *local, *length, pen),
    }
}

fn each(list: &Items<Declared>, plan: &Plan, scene: Scene, pen: &mut Pen) -> Result<(), NoMemory>
    ensures { OnOk result (pen.new ≡ making_each (plan_of plan.now) scene (map fresh_of list.now) pen.old) }
{
    for one in list.as_slice() {
        declare(one, plan, scene, pen)?;
    }
    Ok(())
}

/// The names that a declaration makes. `NoMemory`: memory ran out, or a number is past its size.
#[tactic(auto, using(crate::proofs::NamesMade::each_all))]
pub fn declared(
    list: &Items<Declared>,
    plan: &Plan,
    scene: Scene,
    pen: &mut Pen,
) -> Result<(), NoMemory>
    ensures strokes { OnOk result (pen.new ≡ declaring (plan_of plan.now) scene (map fresh_of list.now) pen.old) }
{
    each(list, plan, scene, pen)
}
