// The two sides of a comparison.
ghost use Rattle.std.specs.Prelude.{◌≡◌, OnOk, IfOk};
ghost use Rattle.wm_flow.specs.Places as places;
ghost use Rattle.wm_flow.specs.Tests as tests;
ghost use Rattle.wm_places.specs.Seen.{plan_of};
ghost use Rattle.wm_comparisons.specs.Draws.{standing, siding, comparing};

use crate::marks::part;
use wm_flow::{Kept, Scene, Sides};
use wm_forms::{collected, constant, is_side, variable};
use wm_ops::NoMemory;
use wm_pen::Pen;
use wm_places::{Plan, bases_of, next, temporary};
use wm_program::Comparison;
use wm_steps::{Waiting, to_temporary};

/// Whether the difference of the sides is no form.
fn is_apart(sides: Sides) -> bool
    ensures { result ≡ tests.is_apart sides }
{
    match collected(sides.left, true, sides.right) {
        Some(_) => false,
        None => true,
    }
}

/// Whether a side goes to a temporary.
fn goes(apart: bool, kept: Kept) -> bool
    ensures { result ≡ tests.goes apart kept }
{
    if apart {
        return !is_side(kept);
    }
    false
}

/// A side as it is compared: one that must goes to the next temporary.
#[tactic(auto, unfolding(crate::specs::Draws::standing), using(crate::proofs::SidesDrawn::side_drawn))]
fn side(
    plan: &Plan,
    scene: Scene,
    apart: bool,
    kept: Kept,
    temporaries: u32,
    pen: &mut Pen,
) -> Result<Waiting, NoMemory>
    ensures value { IfOk result (λ side. side ≡ standing (places.bases_of (plan_of plan.now) scene) apart kept temporaries) }
    ensures strokes { OnOk result (pen.new ≡ siding (plan_of plan.now) scene apart kept temporaries pen.old) }
{
    if goes(apart, kept) {
        let bases = bases_of(plan, scene)?;
        let v = temporary(bases, temporaries)?;
        let count = next(temporaries)?;
        to_temporary(plan, scene, temporaries, kept, pen)?;
        return Ok(Waiting {
            value: variable(v),
            temporaries: count,
        });
    }
    Ok(Waiting {
        value: kept,
        temporaries,
    })
}

/// The difference of two sides that are a variable or a constant each, or whose difference is a form.
fn difference_of(a: Kept, b: Kept) -> Kept
    ensures { result ≡ tests.difference_of a b }
{
    match collected(a, true, b) {
        Some(kept) => kept,
        None => constant(0),
    }
}

/// Sides that stand at a node, and their two ways: to the node `hit` where they compare so, and to `miss` where they do
/// not. Where their difference is no form, each that is no variable and no constant goes to a temporary. `NoMemory`:
/// memory ran out, or a number is past its size.
#[tactic(auto, using(crate::proofs::SidesDrawn::comparing_joins))]
pub fn sides(
    plan: &Plan,
    scene: Scene,
    mark: Comparison,
    sides: Sides,
    hit: u32,
    miss: u32,
    pen: &mut Pen,
) -> Result<(), NoMemory>
    ensures strokes { OnOk result (pen.new ≡ comparing (plan_of plan.now) scene mark sides hit miss pen.old) }
{
    let apart = is_apart(sides);
    let left = side(plan, scene, apart, sides.left, sides.temporaries, pen)?;
    let right = side(plan, scene, apart, sides.right, left.temporaries, pen)?;
    let difference = difference_of(left.value, right.value);
    part(plan.alloc, mark, difference, hit, miss, pen)
}
