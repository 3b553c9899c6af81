// The beginnings and ends of loops.
ghost use Rattle.std.specs.Prelude.{◌≡◌, ◌+◌, suc, map, OnOk, IfOk};
ghost use Rattle.std.specs.Option.{option_map_or};
ghost use Rattle.wm_program.specs.Tree.{Always};
ghost use Rattle.wm_program.specs.Trees.{test_of, effect_of};
ghost use Rattle.wm_flow.specs.Statements.{ties_size, word_size};
ghost use Rattle.wm_flow.specs.Effects.{effects_size};
ghost use Rattle.wm_flow.specs.Tests.{test_size};
ghost use Rattle.wm_places.specs.Seen.{plan_of};
ghost use Rattle.wm_pen.specs.Ink.{ahead};
ghost use Rattle.wm_conditions.specs.Draws.{testing};
ghost use Rattle.wm_arms.specs.Moves.{opening, opening_for, for_head, opening_while, opening_do, do_head, pointing, asking_while, asking_for, asking_last, closing_for, closing_while};

use crate::choices::{asked, hit_of};
use crate::numbers::behind;
use sqlite_items::Items;
use wm_conditions::{condition, optional_condition};
use wm_control::{enter, inside, join, ties, ties_size, turn, word};
use wm_effects::effects;
use wm_flow::Scene;
use wm_ops::{ControlWord, NoMemory};
use wm_pen::Pen;
use wm_places::{Plan, next, plus};
use wm_program::{Condition, Simple};

/// How many nodes effects will make.
#[tactic(auto, unfolding(wm_effects::specs::Draws::acting_all), using(wm_pen::proofs::Joins::ruled))]
pub fn effects_ahead(
    list: &Items<Simple>,
    plan: &Plan,
    scene: Scene,
    pen: &Pen,
) -> Result<u32, NoMemory>
    ensures { IfOk result (λ size. size ≡ ahead pen.now (effects_size (plan_of plan.now) scene (map effect_of list.now))) }
{
    let mut ruler = pen.ruler(plan.alloc);
    effects(list, plan, scene, &mut ruler)?;
    Ok(ruler.node())
}

#[tactic(auto, unfolding(wm_conditions::specs::Draws::testing), using(wm_pen::proofs::Joins::ruled))]
fn optional_ahead(
    test: &Option<Condition>,
    plan: &Plan,
    scene: Scene,
    pen: &Pen,
) -> Result<u32, NoMemory>
    ensures { IfOk result (λ size. size ≡ ahead pen.now (test_size (plan_of plan.now) scene (option_map_or test_of test.now Always))) }
{
    let mut ruler = pen.ruler(plan.alloc);
    optional_condition(test, plan, scene, 0, 0, &mut ruler)?;
    Ok(ruler.node())
}

/// The entry of a loop, and the ties behind its head.
#[tactic(auto, unfolding(crate::specs::Moves::opening))]
fn open(plan: &Plan, scene: Scene, loop_id: u32, pen: &mut Pen) -> Result<(), NoMemory>
    ensures { OnOk result (pen.new ≡ opening (plan_of plan.now) scene loop_id pen.old) }
{
    let within = inside(scene, loop_id)?;
    enter(plan, scene, loop_id, pen)?;
    ties(plan, within, loop_id, pen)
}

/// A for loop up to its condition, and the node of its head.
#[tactic(auto, unfolding(crate::specs::Moves::opening_for, crate::specs::Moves::beginning_for, crate::specs::Moves::for_head))]
pub fn open_for(
    begin: &Items<Simple>,
    plan: &Plan,
    scene: Scene,
    is_counted: bool,
    loop_id: u32,
    pen: &mut Pen,
) -> Result<u32, NoMemory>
    ensures head { IfOk result (λ head. head ≡ for_head (plan_of plan.now) scene is_counted (map effect_of begin.now) pen.old) }
    ensures strokes { OnOk result (pen.new ≡ opening_for (plan_of plan.now) scene is_counted loop_id (map effect_of begin.now) pen.old) }
{
    word(plan, scene, is_counted, ControlWord::For, pen)?;
    effects(begin, plan, scene, pen)?;
    let head = next(pen.node())?;
    open(plan, scene, loop_id, pen)?;
    Ok(head)
}

/// A while loop up to its condition.
#[tactic(auto, unfolding(crate::specs::Moves::opening_while))]
pub fn open_while(
    plan: &Plan,
    scene: Scene,
    is_counted: bool,
    loop_id: u32,
    pen: &mut Pen,
) -> Result<(), NoMemory>
    ensures { OnOk result (pen.new ≡ opening_while (plan_of plan.now) scene is_counted loop_id pen.old) }
{
    let within = inside(scene, loop_id)?;
    open(plan, scene, loop_id, pen)?;
    word(plan, within, is_counted, ControlWord::While, pen)
}

/// A do loop up to its body, and the node of its head.
#[tactic(auto, unfolding(crate::specs::Moves::opening_do, crate::specs::Moves::do_head))]
pub fn open_do(
    plan: &Plan,
    scene: Scene,
    is_counted: bool,
    loop_id: u32,
    pen: &mut Pen,
) -> Result<u32, NoMemory>
    ensures head { IfOk result (λ head. head ≡ do_head (plan_of plan.now) scene is_counted pen.old) }
    ensures strokes { OnOk result (pen.new ≡ opening_do (plan_of plan.now) scene is_counted loop_id pen.old) }
{
    word(plan, scene, is_counted, ControlWord::Do, pen)?;
    let head = next(pen.node())?;
    open(plan, scene, loop_id, pen)?;
    Ok(head)
}

/// Where a loop leads whose turn begins behind this node: behind its body of so many nodes and the edge that joins its ways.
fn past_body(plan: &Plan, scene: Scene, hit: u32, size: u32) -> Result<u32, NoMemory>
    ensures { IfOk result (λ again. again ≡ suc (hit + ties_size (plan_of plan.now) scene + size)) }
{
    let turn = plus(hit, ties_size(plan, scene)?)?;
    behind(turn, size)
}

/// The condition of a while loop up to the first node of its body, which makes so many nodes; the scene is inside the loop.
#[tactic(auto, unfolding(crate::specs::Moves::asking_ahead), using(crate::proofs::Asks::while_asks))]
pub fn ask(
    test: &Condition,
    plan: &Plan,
    scene: Scene,
    loop_id: u32,
    size: u32,
    pen: &mut Pen,
) -> Result<(), NoMemory>
    ensures { OnOk result (pen.new ≡ asking_while (plan_of plan.now) scene loop_id (test_of test.now) size pen.old) }
{
    let hit = hit_of(test, plan, scene, pen)?;
    let again = past_body(plan, scene, hit, size)?;
    let miss = next(again)?;
    asked(test, plan, scene, hit, miss, pen)?;
    ties(plan, scene, loop_id, pen)
}

#[tactic(auto, unfolding(crate::specs::Moves::pointing))]
fn asked_first(
    test: &Option<Condition>,
    plan: &Plan,
    scene: Scene,
    hit: u32,
    miss: u32,
    pen: &mut Pen,
) -> Result<(), NoMemory>
    ensures { OnOk result (pen.new ≡ pointing (plan_of plan.now) scene (testing (plan_of plan.now) scene (option_map_or test_of test.now Always) hit miss pen.old)) }
{
    optional_condition(test, plan, scene, hit, miss, pen)?;
    pen.point(plan, scene, 0)
}

/// The condition of a for loop, likewise; its step makes `after` nodes.
#[tactic(auto, unfolding(crate::specs::Moves::asking_ahead), using(crate::proofs::Asks::for_asks))]
pub fn ask_first(
    test: &Option<Condition>,
    plan: &Plan,
    scene: Scene,
    loop_id: u32,
    size: u32,
    after: u32,
    pen: &mut Pen,
) -> Result<(), NoMemory>
    ensures { OnOk result (pen.new ≡ asking_for (plan_of plan.now) scene loop_id (option_map_or test_of test.now Always) size after pen.old) }
{
    let asked = optional_ahead(test, plan, scene, pen)?;
    let hit = behind(pen.node(), asked)?;
    let again = past_body(plan, scene, hit, size)?;
    let miss = behind(again, after)?;
    asked_first(test, plan, scene, hit, miss, pen)?;
    ties(plan, scene, loop_id, pen)
}

/// How many nodes the condition of a do loop will make, with its word.
#[tactic(auto, using(crate::proofs::Asks::tail_ruled))]
pub fn tail_ahead(
    test: &Condition,
    plan: &Plan,
    scene: Scene,
    is_counted: bool,
    pen: &Pen,
) -> Result<u32, NoMemory>
    ensures { IfOk result (λ size. size ≡ ahead pen.now (word_size is_counted + test_size (plan_of plan.now) scene (test_of test.now))) }
{
    let mut ruler = pen.ruler(plan.alloc);
    word(plan, scene, is_counted, ControlWord::While, &mut ruler)?;
    condition(test, plan, scene, 0, 0, &mut ruler)?;
    Ok(ruler.node())
}

/// The end of a do loop behind its body: its condition, and the back edge to its head.
#[tactic(auto, unfolding(crate::specs::Moves::asking_ahead), using(crate::proofs::Asks::last_asks))]
pub fn ask_last(
    test: &Condition,
    plan: &Plan,
    scene: Scene,
    is_counted: bool,
    loop_id: u32,
    head: u32,
    pen: &mut Pen,
) -> Result<(), NoMemory>
    ensures { OnOk result (pen.new ≡ asking_last (plan_of plan.now) scene is_counted loop_id (test_of test.now) head pen.old) }
{
    let within = inside(scene, loop_id)?;
    join(plan, within, 0, pen)?;
    word(plan, within, is_counted, ControlWord::While, pen)?;
    let hit = hit_of(test, plan, within, pen)?;
    let past = next(hit)?;
    asked(test, plan, within, hit, past, pen)?;
    turn(plan, scene, loop_id, head, pen)
}

/// The end of a for loop behind its body: its step, and the back edge to its head.
#[tactic(auto, unfolding(crate::specs::Moves::closing_for))]
pub fn close_for(
    after: &Items<Simple>,
    plan: &Plan,
    scene: Scene,
    loop_id: u32,
    head: u32,
    pen: &mut Pen,
) -> Result<(), NoMemory>
    ensures { OnOk result (pen.new ≡ closing_for (plan_of plan.now) scene loop_id (map effect_of after.now) head pen.old) }
{
    let within = inside(scene, loop_id)?;
    join(plan, within, 0, pen)?;
    effects(after, plan, within, pen)?;
    turn(plan, scene, loop_id, head, pen)
}

/// The end of a while loop behind its body.
#[tactic(auto, unfolding(crate::specs::Moves::closing_while))]
pub fn close_while(
    plan: &Plan,
    scene: Scene,
    loop_id: u32,
    head: u32,
    pen: &mut Pen,
) -> Result<(), NoMemory>
    ensures { OnOk result (pen.new ≡ closing_while (plan_of plan.now) scene loop_id head pen.old) }
{
    let within = inside(scene, loop_id)?;
    join(plan, within, 0, pen)?;
    turn(plan, scene, loop_id, head, pen)
}
