// Conversions to 16 bits.
ghost use Rattle.std.specs.Prelude.{◌≡◌, OnOk};
ghost use Rattle.wm_places.specs.Seen.{plan_of};
ghost use Rattle.wm_steps.specs.Moves.{narrowing};

use crate::temporaries::step;
use crate::tests::tested_itself;
use wm_flow::{Kept, Scene};
use wm_ops::NoMemory;
use wm_pen::Pen;
use wm_places::Plan;

/// The test of a conversion, where there is one.
#[tactic(auto, using(crate::proofs::IndexTests::narrowing_nowhere, crate::proofs::IndexTests::narrowing_there))]
pub fn narrow(
    plan: &Plan,
    scene: Scene,
    site: Option<u32>,
    kept: Kept,
    temporaries: u32,
    pen: &mut Pen,
) -> Result<(), NoMemory>
    ensures { OnOk result (pen.new ≡ narrowing (plan_of plan.now) scene site kept temporaries pen.old) }
{
    match site {
        None => Ok(()),
        Some(site) => {
            let action = tested_itself(plan.alloc, kept, -32768, 32767)?;
            step(plan, scene, action, Some(site), temporaries, pen)
        }
    }
}
