// Edges without effect: to where a statement leads, and where two ways join.
ghost use Rattle.std.specs.Prelude.{◌≡◌, [], OnOk};
ghost use Rattle.wm_flow.specs.Plain as plain;
ghost use Rattle.wm_flow.specs.Views.{doing_of};
ghost use Rattle.wm_places.specs.Seen.{plan_of};
ghost use Rattle.wm_control.specs.Moves.{jumping, joining, jumping_out};

use crate::blocks::clear;
use crate::counted::word;
use std::alloc::Global;
use wm_flow::{Action, Scene};
use wm_ops::{ControlWord, List, NoMemory};
use wm_pen::Pen;
use wm_places::Plan;
use wm_steps::step;

#[tactic(auto, unfolding(wm_flow::specs::Views::doing_of))]
fn nothing(alloc: Global) -> Action
    ensures { doing_of result ≡ plain.Clear [] }
{
    Action::Clear {
        variables: List::new(alloc),
    }
}

/// An edge to this node, and a node that only a way from elsewhere reaches.
#[tactic(auto, using(crate::proofs::SmallPieces::jumping_joins))]
pub fn jump(plan: &Plan, scene: Scene, target: u32, pen: &mut Pen) -> Result<(), NoMemory>
    ensures { OnOk result (pen.new ≡ jumping (plan_of plan.now) scene target pen.old) }
{
    let node = pen.node();
    pen.line(node, target, nothing(plan.alloc), None)?;
    pen.point(plan, scene, 0)
}

/// An edge to the next node, where two ways join.
#[tactic(auto, using(crate::proofs::SmallPieces::joining_steps))]
pub fn join(plan: &Plan, scene: Scene, temporaries: u32, pen: &mut Pen) -> Result<(), NoMemory>
    ensures { OnOk result (pen.new ≡ joining (plan_of plan.now) scene temporaries pen.old) }
{
    step(plan, scene, nothing(plan.alloc), None, temporaries, pen)
}

/// A break or a continue, to this node; the locals of the blocks that it leaves are left.
#[tactic(auto, using(crate::proofs::SmallPieces::jumping_out_joins))]
pub fn jump_out(
    plan: &Plan,
    scene: Scene,
    is_counted: bool,
    control: ControlWord,
    locals: &[u32],
    target: u32,
    pen: &mut Pen,
) -> Result<(), NoMemory>
    ensures { OnOk result (pen.new ≡ jumping_out (plan_of plan.now) scene is_counted control locals.now target pen.old) }
{
    word(plan, scene, is_counted, control, pen)?;
    clear(plan, scene, locals, 0, pen)?;
    jump(plan, scene, target, pen)
}
