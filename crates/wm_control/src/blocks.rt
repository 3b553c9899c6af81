// Blocks that are left: their scalars may have any number from there on.
ghost use Rattle.std.specs.Prelude.{◌≡◌, ◌++◌, OnOk, IfOk};
ghost use Rattle.wm_flow.specs.Plain as plain;
ghost use Rattle.wm_flow.specs.Views.{doing_of};
ghost use Rattle.wm_flow.specs.Statements as statements;
ghost use Rattle.wm_places.specs.Seen.{plan_of};
ghost use Rattle.wm_control.specs.Moves.{clearing, clearing_these, no_variables};

use crate::made::joined;
use wm_flow::{Action, Bases, LocalSeat, Scene};
use wm_ops::{List, NoMemory};
use wm_pen::Pen;
use wm_places::{Plan, bases_of, local_seat_at, scalar_place};
use wm_steps::step;

fn push_variable(list: &mut List<u32>, bases: Bases, seat: LocalSeat) -> Result<(), NoMemory>
    ensures { OnOk result (list.new ≡ list.old ++ statements.variable_among bases seat) }
{
    match seat {
        LocalSeat::Scalar(k) => {
            let v = scalar_place(bases, k)?;
            list.push(v)
        }
        LocalSeat::Array(_) => Ok(()),
    }
}

/// Those locals that are no arrays, as variables.
#[tactic(auto, unfolding(wm_places::specs::Seen::plan_of))]
fn variables_of(plan: &Plan, scene: Scene, locals: &[u32]) -> Result<List<u32>, NoMemory>
    ensures { IfOk result (λ list. list ≡ statements.variables_of (plan_of plan.now) scene locals.now) }
{
    let bases = bases_of(plan, scene)?;
    let mut list = List::new(plan.alloc);
    for local in locals {
        let seat = local_seat_at(plan.tables, scene.function, *local);
        push_variable(&mut list, bases, seat)?;
    }
    Ok(list)
}

fn is_none(variables: &[u32]) -> bool
    ensures { result ≡ no_variables variables.now }
{
    match variables.first() {
        Some(_) => false,
        None => true,
    }
}

#[tactic(auto, unfolding(wm_flow::specs::Views::doing_of))]
fn clear_action(variables: List<u32>) -> Action
    ensures { doing_of result ≡ plain.Clear variables }
{
    Action::Clear { variables }
}

fn clear_these(
    plan: &Plan,
    scene: Scene,
    variables: List<u32>,
    temporaries: u32,
    pen: &mut Pen,
) -> Result<(), NoMemory>
    ensures { OnOk result (pen.new ≡ clearing_these (plan_of plan.now) scene variables temporaries pen.old) }
{
    if is_none(variables.items()) {
        return Ok(());
    }
    let action = clear_action(variables);
    step(plan, scene, action, None, temporaries, pen)?;
    Ok(())
}

/// The locals of a block are left.
pub fn clear(
    plan: &Plan,
    scene: Scene,
    locals: &[u32],
    temporaries: u32,
    pen: &mut Pen,
) -> Result<(), NoMemory>
    ensures { OnOk result (pen.new ≡ clearing (plan_of plan.now) scene locals.now temporaries pen.old) }
{
    let variables = variables_of(plan, scene, locals)?;
    clear_these(plan, scene, variables, temporaries, pen)?;
    Ok(())
}

/// The locals of all blocks of a function are left.
pub fn clear_both(
    plan: &Plan,
    scene: Scene,
    near: &[u32],
    far: &[u32],
    temporaries: u32,
    pen: &mut Pen,
) -> Result<(), NoMemory>
    ensures { OnOk result (pen.new ≡ clearing (plan_of plan.now) scene (near.now ++ far.now) temporaries pen.old) }
{
    let both = joined(plan.alloc, near, far)?;
    clear(plan, scene, both.items(), temporaries, pen)
}
