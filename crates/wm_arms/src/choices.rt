// The beginnings of the two parts of an if.
ghost use Rattle.std.specs.Prelude.{◌≡◌, ◌+◌, suc, OnOk, IfOk};
ghost use Rattle.wm_program.specs.Trees.{test_of};
ghost use Rattle.wm_flow.specs.Statements.{word_size};
ghost use Rattle.wm_flow.specs.Tests.{test_size};
ghost use Rattle.wm_places.specs.Seen.{plan_of};
ghost use Rattle.wm_pen.specs.Ink.{ahead};
ghost use Rattle.wm_conditions.specs.Draws.{testing};
ghost use Rattle.wm_arms.specs.Moves.{pointing, choosing, otherwise_moving};

use crate::numbers::behind;
use wm_conditions::condition;
use wm_control::{jump, word};
use wm_flow::Scene;
use wm_ops::{ControlWord, NoMemory};
use wm_pen::Pen;
use wm_places::{Plan, next, plus};
use wm_program::Condition;

/// How many nodes a word makes.
fn word_size(is_counted: bool) -> u32
    ensures { result ≡ word_size is_counted }
{
    if is_counted {
        return 1;
    }
    0
}

/// How many nodes a condition will make.
#[tactic(auto, unfolding(wm_conditions::specs::Draws::testing), using(wm_pen::proofs::Joins::ruled))]
fn condition_ahead(test: &Condition, plan: &Plan, scene: Scene, pen: &Pen) -> Result<u32, NoMemory>
    ensures { IfOk result (λ size. size ≡ ahead pen.now (test_size (plan_of plan.now) scene (test_of test.now))) }
{
    let mut ruler = pen.ruler(plan.alloc);
    condition(test, plan, scene, 0, 0, &mut ruler)?;
    Ok(ruler.node())
}

/// A condition with where it leads, and the node there where it holds.
#[tactic(auto, unfolding(crate::specs::Moves::pointing))]
pub(crate) fn asked(
    test: &Condition,
    plan: &Plan,
    scene: Scene,
    hit: u32,
    miss: u32,
    pen: &mut Pen,
) -> Result<(), NoMemory>
    ensures { OnOk result (pen.new ≡ pointing (plan_of plan.now) scene (testing (plan_of plan.now) scene (test_of test.now) hit miss pen.old)) }
{
    condition(test, plan, scene, hit, miss, pen)?;
    pen.point(plan, scene, 0)
}

/// The node to which a condition leads where it holds: the next one behind it.
pub(crate) fn hit_of(
    test: &Condition,
    plan: &Plan,
    scene: Scene,
    pen: &Pen,
) -> Result<u32, NoMemory>
    ensures { IfOk result (λ hit. hit ≡ suc (pen.now.node + ahead pen.now (test_size (plan_of plan.now) scene (test_of test.now)))) }
{
    let size = condition_ahead(test, plan, scene, pen)?;
    behind(pen.node(), size)
}

/// The word and the condition of an if, up to the first node of its statement, which makes so many nodes.
#[tactic(auto, unfolding(crate::specs::Moves::asking_ahead), using(crate::proofs::Asks::choosing_asks))]
pub fn choose(
    test: &Condition,
    plan: &Plan,
    scene: Scene,
    is_counted: bool,
    size: u32,
    pen: &mut Pen,
) -> Result<(), NoMemory>
    ensures { OnOk result (pen.new ≡ choosing (plan_of plan.now) scene is_counted (test_of test.now) size pen.old) }
{
    word(plan, scene, is_counted, ControlWord::If, pen)?;
    let hit = hit_of(test, plan, scene, pen)?;
    let miss = behind(hit, size)?;
    asked(test, plan, scene, hit, miss, pen)
}

/// The end of the first part of an if, and the word of its other part, which makes so many nodes.
#[tactic(auto, unfolding(crate::specs::Moves::otherwise_moving))]
pub fn otherwise(
    plan: &Plan,
    scene: Scene,
    is_counted: bool,
    size: u32,
    pen: &mut Pen,
) -> Result<(), NoMemory>
    ensures { OnOk result (pen.new ≡ otherwise_moving (plan_of plan.now) scene is_counted size pen.old) }
{
    let miss = next(pen.node())?;
    let other = plus(miss, word_size(is_counted))?;
    let past = behind(other, size)?;
    jump(plan, scene, past, pen)?;
    word(plan, scene, is_counted, ControlWord::Else, pen)
}
