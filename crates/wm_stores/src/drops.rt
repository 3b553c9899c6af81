// Values that are dropped, and counting calls.
ghost use Rattle.std.specs.Prelude.{◌≡◌, None, OnOk};
ghost use Rattle.wm_flow.specs.Plain as plain;
ghost use Rattle.wm_flow.specs.Strokes as strokes;
ghost use Rattle.wm_flow.specs.Views.{doing_of};
ghost use Rattle.wm_ops.specs.declared.words.Counted.TheVariants as counted;
ghost use Rattle.wm_places.specs.Seen.{plan_of};
ghost use Rattle.wm_steps.specs.Moves.{stepped};
ghost use Rattle.wm_stores.specs.Draws.{dropping};

use std::alloc::Global;
use wm_flow::{Action, Kept, Scene};
use wm_ops::{CountCall, Counted, List, NoMemory};
use wm_pen::Pen;
use wm_places::{Plan, bases_of};
use wm_steps::{after, step};

/// An edge without effect.
#[tactic(auto, unfolding(wm_flow::specs::Views::doing_of))]
pub(crate) fn nothing(alloc: Global) -> Action
    ensures { doing_of result ≡ strokes.nothing }
{
    Action::Clear {
        variables: List::new(alloc),
    }
}

/// A value that is dropped: where it stands in a temporary, one more edge drops that.
#[tactic(auto, using(crate::proofs::SpotsDrawn::dropping_as))]
pub fn drop_value(plan: &Plan, scene: Scene, kept: Kept, pen: &mut Pen) -> Result<(), NoMemory>
    ensures { OnOk result (pen.new ≡ dropping (plan_of plan.now) scene kept pen.old) }
{
    let bases = bases_of(plan, scene)?;
    let count = after(bases, kept, 0)?;
    if count == 0 {
        return Ok(());
    }
    step(plan, scene, nothing(plan.alloc), None, 0, pen)
}

#[tactic(auto, unfolding(wm_flow::specs::Views::doing_of))]
fn counting(call: CountCall) -> Action
    ensures { doing_of result ≡ plain.Count (counted.Call call) }
{
    Action::Count {
        word: Counted::Call(call),
    }
}

/// A counting call.
pub fn count_call(plan: &Plan, scene: Scene, call: CountCall, pen: &mut Pen) -> Result<(), NoMemory>
    ensures { OnOk result (pen.new ≡ stepped (plan_of plan.now) scene (plain.Count (counted.Call call)) None 0 pen.old) }
{
    step(plan, scene, counting(call), None, 0, pen)
}
