// Counted words of control.
ghost use Rattle.std.specs.Prelude.{◌≡◌, OnOk};
ghost use Rattle.wm_ops.specs.declared.words.Counted.TheVariants as counted;
ghost use Rattle.wm_flow.specs.Plain as plain;
ghost use Rattle.wm_flow.specs.Views.{doing_of};
ghost use Rattle.wm_places.specs.Seen.{plan_of};
ghost use Rattle.wm_control.specs.Moves.{wording};

use wm_flow::{Action, Scene};
use wm_ops::{ControlWord, Counted, NoMemory};
use wm_pen::Pen;
use wm_places::Plan;
use wm_steps::step;

#[tactic(auto, unfolding(wm_flow::specs::Views::doing_of))]
fn count_of(word: ControlWord) -> Action
    ensures { doing_of result ≡ plain.Count (counted.Word word) }
{
    Action::Count {
        word: Counted::Word(word),
    }
}

/// A word, where it is counted. `NoMemory`, here and below: memory ran out, or a number is past 32 bits.
#[tactic(auto, using(crate::proofs::SmallPieces::word_counted, crate::proofs::SmallPieces::word_plain))]
pub fn word(
    plan: &Plan,
    scene: Scene,
    is_counted: bool,
    word: ControlWord,
    pen: &mut Pen,
) -> Result<(), NoMemory>
    ensures { OnOk result (pen.new ≡ wording (plan_of plan.now) scene is_counted word pen.old) }
{
    if is_counted {
        return step(plan, scene, count_of(word), None, 0, pen);
    }
    Ok(())
}
