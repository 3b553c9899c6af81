// Statements: one cycle over their tree.
ghost use Rattle.std.specs.Prelude.{◌≡◌, map, OnOk, IfOk};
ghost use Rattle.std.specs.Option.{option_map_or};
ghost use Rattle.wm_program.specs.Tree as tree;
ghost use Rattle.wm_program.specs.Tree.{Always, For, While, Do};
ghost use Rattle.wm_program.specs.Trees.{test_of, effect_of, tree_of};
ghost use Rattle.wm_program.specs.UsedParts.{tree_all};
ghost use Rattle.wm_flow.specs.Parts as parts;
ghost use Rattle.wm_pen.specs.Ink.{ruler};
ghost use Rattle.wm_places.specs.Seen.{plan_of};
ghost use Rattle.wm_control.specs.Seen.{around_of};
ghost use Rattle.wm_trees.specs.Draws.{moving, embodying};
ghost use Rattle.wm_statements.specs.Moves.{first_moving, other_moving, moving_all};

use crate::leading::{at_exit, in_block, leading};
use sqlite_items::{Boxed, Items};
use wm_arms::{
    ask, ask_first, ask_last, behind, choose, close_for, close_while, effects_ahead, give, leave,
    open_do, open_for, open_while, otherwise, tail_ahead,
};
use wm_control::{Around, clear, inside, join, joined, jump_out, made_in};
use wm_effects::{declared, effect};
use wm_flow::Scene;
use wm_ops::{ControlWord, NoMemory};
use wm_pen::Pen;
use wm_places::{Plan, next};
use wm_program::{Condition, Simple, Statement};

/// How many nodes a statement will make.
#[cycle(statements)]
fn ahead(
    it: &Statement,
    plan: &Plan,
    scene: Scene,
    around: Around,
    pen: &Pen,
) -> Result<u32, NoMemory>
    ensures { IfOk result (λ size. size ≡ (moving (plan_of plan.now) scene (around_of around.entry) (tree_of it.now) (ruler pen.now)).node) }
{
    let mut ruler = pen.ruler(plan.alloc);
    statement(it, plan, scene, around, &mut ruler)?;
    Ok(ruler.node())
}

/// The condition of an if with the statement behind it.
#[cycle(statements)]
#[tactic(auto, unfolding(crate::specs::Moves::first_moving))]
fn first(
    then: &Statement,
    plan: &Plan,
    scene: Scene,
    around: Around,
    is_counted: bool,
    condition: &Condition,
    pen: &mut Pen,
) -> Result<(), NoMemory>
    ensures { OnOk result (pen.new ≡ first_moving (plan_of plan.now) scene (around_of around.entry) is_counted (test_of condition.now) (tree_of then.now) pen.old) }
{
    let size = ahead(then, plan, scene, around, pen)?;
    choose(condition, plan, scene, is_counted, size, pen)?;
    statement(then, plan, scene, around, pen)
}

/// The other part of an if, and where its ways join.
#[cycle(statements)]
#[tactic(auto, unfolding(crate::specs::Moves::other_moving))]
fn other(
    body: &Statement,
    plan: &Plan,
    scene: Scene,
    around: Around,
    is_counted: bool,
    pen: &mut Pen,
) -> Result<(), NoMemory>
    ensures { OnOk result (pen.new ≡ other_moving (plan_of plan.now) scene (around_of around.entry) is_counted (tree_of body.now) pen.old) }
{
    let size = ahead(body, plan, scene, around, pen)?;
    otherwise(plan, scene, is_counted, size, pen)?;
    statement(body, plan, scene, around, pen)?;
    join(plan, scene, 0, pen)
}

#[cycle(statements)]
#[tactic(auto, unfolding(wm_control::specs::Seen::around_of), using(wm_trees::proofs::LoopsDrawn::for_is))]
fn for_loop(
    body: &Statement,
    plan: &Plan,
    scene: Scene,
    around: Around,
    is_counted: bool,
    number: u32,
    begin: &Items<Simple>,
    condition: &Option<Condition>,
    after: &Items<Simple>,
    pen: &mut Pen,
) -> Result<(), NoMemory>
    ensures { OnOk result (pen.new ≡ moving (plan_of plan.now) scene (around_of around.entry) (For is_counted number (map effect_of begin.now) (option_map_or test_of condition.now Always) (map effect_of after.now) (tree_of body.now)) pen.old) }
{
    let within = inside(scene, number)?;
    let far = joined(plan.alloc, around.near, around.far)?;
    let inner = leading(0, 0, around.exit, far.items());
    let size = ahead(body, plan, within, inner, pen)?;
    let later = effects_ahead(after, plan, within, pen)?;
    let head = open_for(begin, plan, scene, is_counted, number, pen)?;
    ask_first(condition, plan, within, number, size, later, pen)?;
    let again = behind(pen.node(), size)?;
    let stop = behind(again, later)?;
    let inner = leading(stop, again, around.exit, far.items());
    statement(body, plan, within, inner, pen)?;
    close_for(after, plan, scene, number, head, pen)
}

#[cycle(statements)]
#[tactic(auto, unfolding(wm_control::specs::Seen::around_of), using(wm_trees::proofs::LoopsDrawn::while_is))]
fn while_loop(
    body: &Statement,
    plan: &Plan,
    scene: Scene,
    around: Around,
    is_counted: bool,
    number: u32,
    condition: &Condition,
    pen: &mut Pen,
) -> Result<(), NoMemory>
    ensures { OnOk result (pen.new ≡ moving (plan_of plan.now) scene (around_of around.entry) (While is_counted number (test_of condition.now) (tree_of body.now)) pen.old) }
{
    let within = inside(scene, number)?;
    let far = joined(plan.alloc, around.near, around.far)?;
    let inner = leading(0, 0, around.exit, far.items());
    let size = ahead(body, plan, within, inner, pen)?;
    let head = next(pen.node())?;
    open_while(plan, scene, is_counted, number, pen)?;
    ask(condition, plan, within, number, size, pen)?;
    let again = behind(pen.node(), size)?;
    let stop = next(again)?;
    let inner = leading(stop, again, around.exit, far.items());
    statement(body, plan, within, inner, pen)?;
    close_while(plan, scene, number, head, pen)
}

#[cycle(statements)]
#[tactic(auto, unfolding(wm_control::specs::Seen::around_of), using(wm_trees::proofs::LoopsDrawn::do_is))]
fn do_loop(
    body: &Statement,
    plan: &Plan,
    scene: Scene,
    around: Around,
    is_counted: bool,
    is_tail_counted: bool,
    number: u32,
    condition: &Condition,
    pen: &mut Pen,
) -> Result<(), NoMemory>
    ensures { OnOk result (pen.new ≡ moving (plan_of plan.now) scene (around_of around.entry) (Do is_counted is_tail_counted number (tree_of body.now) (test_of condition.now)) pen.old) }
{
    let within = inside(scene, number)?;
    let far = joined(plan.alloc, around.near, around.far)?;
    let inner = leading(0, 0, around.exit, far.items());
    let size = ahead(body, plan, within, inner, pen)?;
    let tail = tail_ahead(condition, plan, within, is_tail_counted, pen)?;
    let head = open_do(plan, scene, is_counted, number, pen)?;
    let again = behind(pen.node(), size)?;
    let hit = behind(again, tail)?;
    let stop = next(hit)?;
    let inner = leading(stop, again, around.exit, far.items());
    statement(body, plan, within, inner, pen)?;
    ask_last(condition, plan, scene, is_tail_counted, number, head, pen)
}

/// The statements of a block, one after another.
#[cycle(statements)]
fn all(
    list: &Items<Statement>,
    plan: &Plan,
    scene: Scene,
    around: Around,
    pen: &mut Pen,
) -> Result<(), NoMemory>
    ensures { OnOk result (pen.new ≡ moving_all (plan_of plan.now) scene (around_of around.entry) (map tree_of list.now) pen.old) }
{
    for it in list.as_slice() {
        statement(it, plan, scene, around, pen)?;
    }
    Ok(())
}

/// A block, whose scalars are left at its end. `NoMemory`: memory ran out, or a number is past its size.
#[cycle(statements)]
#[tactic(auto, unfolding(wm_control::specs::Seen::around_of), using(crate::proofs::Variants::block_is))]
fn block(
    list: &Items<Statement>,
    plan: &Plan,
    scene: Scene,
    around: Around,
    pen: &mut Pen,
) -> Result<(), NoMemory>
    ensures strokes { OnOk result (pen.new ≡ moving (plan_of plan.now) scene (around_of around.entry) (tree.Block (tree_all list.now)) pen.old) }
{
    let made = made_in(plan.alloc, list)?;
    let near = joined(plan.alloc, made.items(), around.near)?;
    let inner = in_block(near.items(), around);
    all(list, plan, scene, inner, pen)?;
    clear(plan, scene, made.items(), 0, pen)
}

#[cycle(statements)]
#[tactic(auto, unfolding(wm_control::specs::Seen::around_of), using(crate::proofs::Variants::on_rest, crate::proofs::Variants::on_block, crate::proofs::Variants::on_empty, crate::proofs::Variants::on_declare, crate::proofs::Variants::on_simple, crate::proofs::Variants::on_if, crate::proofs::Variants::on_if_else, crate::proofs::Variants::on_for, crate::proofs::Variants::on_while, crate::proofs::Variants::on_do, crate::proofs::Variants::on_break, crate::proofs::Variants::on_continue, crate::proofs::Variants::on_return, crate::proofs::Variants::on_leave))]
fn statement(
    it: &Statement,
    plan: &Plan,
    scene: Scene,
    around: Around,
    pen: &mut Pen,
) -> Result<(), NoMemory>
    ensures { OnOk result (pen.new ≡ moving (plan_of plan.now) scene (around_of around.entry) (tree_of it.now) pen.old) }
{
    if pen.rests() {
        return Ok(());
    }
    match it {
        Statement::Block(list) => block(list, plan, scene, around, pen),
        Statement::Empty => Ok(()),
        Statement::Declare(list) => declared(list, plan, scene, pen),
        Statement::Simple(simple) => effect(simple, plan, scene, pen),
        Statement::If {
            is_counted,
            condition,
            then,
            otherwise,
        } => {
            first(then.get(), plan, scene, around, *is_counted, condition, pen)?;
            match otherwise {
                None => join(plan, scene, 0, pen),
                Some(part) => other(part.body.get(), plan, scene, around, part.is_counted, pen),
            }
        }
        Statement::For {
            is_counted,
            number,
            begin,
            condition,
            step,
            body,
        } => for_loop(
            body.get(),
            plan,
            scene,
            around,
            *is_counted,
            *number,
            begin,
            condition,
            step,
            pen,
        ),
        Statement::While {
            is_counted,
            number,
            condition,
            body,
        } => while_loop(
            body.get(),
            plan,
            scene,
            around,
            *is_counted,
            *number,
            condition,
            pen,
        ),
        Statement::Do {
            is_counted,
            is_tail_counted,
            number,
            body,
            condition,
        } => do_loop(
            body.get(),
            plan,
            scene,
            around,
            *is_counted,
            *is_tail_counted,
            *number,
            condition,
            pen,
        ),
        Statement::Break { is_counted } => jump_out(
            plan,
            scene,
            *is_counted,
            ControlWord::Break,
            around.near,
            around.stop,
            pen,
        ),
        Statement::Continue { is_counted } => jump_out(
            plan,
            scene,
            *is_counted,
            ControlWord::Continue,
            around.near,
            around.again,
            pen,
        ),
        Statement::Return(value) => match value {
            Some(x) => give(&x.value, plan, scene, around, x.narrowing, pen),
            None => leave(plan, scene, around, pen),
        },
    }
}

/// How many nodes the block of a function will make.
fn body_ahead(
    list: &Items<Statement>,
    plan: &Plan,
    scene: Scene,
    pen: &Pen,
) -> Result<u32, NoMemory>
    ensures { IfOk result (λ size. size ≡ (moving (plan_of plan.now) scene (parts.at_exit 0) (tree.Block (tree_all list.now)) (ruler pen.now)).node) }
{
    let mut ruler = pen.ruler(plan.alloc);
    block(list, plan, scene, at_exit(0), &mut ruler)?;
    Ok(ruler.node())
}

/// The block of a function, which leads to the node behind its last one. `NoMemory`: memory ran out, or a number is past
/// its size.
#[tactic(auto, using(wm_trees::proofs::BodiesDrawn::body_drawn))]
pub fn body(
    list: &Items<Statement>,
    plan: &Plan,
    scene: Scene,
    pen: &mut Pen,
) -> Result<(), NoMemory>
    ensures strokes { OnOk result (pen.new ≡ embodying (plan_of plan.now) scene (tree.Block (tree_all list.now)) pen.old) }
{
    let size = body_ahead(list, plan, scene, pen)?;
    let exit = behind(pen.node(), size)?;
    block(list, plan, scene, at_exit(exit), pen)
}
