// Returns: the value stands in the one temporary of the exit.
ghost use Rattle.std.specs.Prelude.{◌≡◌, ◌==◌, ◌&&◌, not, OnOk, IfOk};
ghost use Rattle.wm_program.specs.Trees.{expression_of};
ghost use Rattle.wm_flow.specs.Statements as statements;
ghost use Rattle.wm_places.specs.Seen.{plan_of};
ghost use Rattle.wm_control.specs.Seen.{around_of};
ghost use Rattle.wm_arms.specs.Moves.{placing, returning, leaving};

use wm_control::{Around, clear_both, jump};
use wm_domain::Term;
use wm_flow::{Bases, Kept, Scene};
use wm_forms::is_side;
use wm_ops::NoMemory;
use wm_pen::Pen;
use wm_places::{Plan, bases_of, temporary};
use wm_program::Expr;
use wm_steps::{after, narrow, to_temporary};
use wm_values::expression;

fn is_plus(term: Term, v: u32) -> bool
    ensures { result ≡ ((term.variable == v) && not term.negative) }
{
    if term.variable == v {
        return !term.negative;
    }
    false
}

/// Whether the value stands there.
fn stands(bases: Bases, kept: Kept) -> Result<bool, NoMemory>
    ensures { IfOk result (λ it. it ≡ statements.stands bases kept) }
{
    let v = temporary(bases, 0)?;
    match kept.first {
        Some(term) => {
            if is_plus(term, v) {
                return Ok(is_side(kept));
            }
            Ok(false)
        }
        None => Ok(false),
    }
}

/// The value goes there, unless it stands there.
#[tactic(auto, unfolding(crate::specs::Moves::placing))]
fn place(plan: &Plan, scene: Scene, kept: Kept, pen: &mut Pen) -> Result<(), NoMemory>
    ensures { OnOk result (pen.new ≡ placing (plan_of plan.now) scene kept pen.old) }
{
    let bases = bases_of(plan, scene)?;
    if stands(bases, kept)? {
        return Ok(());
    }
    to_temporary(plan, scene, 0, kept, pen)
}

/// A return with a value.
pub fn give(
    x: &Expr,
    plan: &Plan,
    scene: Scene,
    around: Around,
    narrowing: Option<u32>,
    pen: &mut Pen,
) -> Result<(), NoMemory>
    ensures { OnOk result (pen.new ≡ returning (plan_of plan.now) scene (around_of around.entry) (expression_of x.now) narrowing pen.old) }
{
    let bases = bases_of(plan, scene)?;
    let kept = expression(x, plan, scene, 0, pen)?;
    let count = after(bases, kept, 0)?;
    narrow(plan, scene, narrowing, kept, count, pen)?;
    place(plan, scene, kept, pen)?;
    clear_both(plan, scene, around.near, around.far, 1, pen)?;
    jump(plan, scene, around.exit, pen)?;
    Ok(())
}

/// A return without a value.
#[tactic(auto, unfolding(crate::specs::Moves::leaving, wm_control::specs::Seen::around_of))]
pub fn leave(plan: &Plan, scene: Scene, around: Around, pen: &mut Pen) -> Result<(), NoMemory>
    ensures { OnOk result (pen.new ≡ leaving (plan_of plan.now) scene (around_of around.entry) pen.old) }
{
    clear_both(plan, scene, around.near, around.far, 0, pen)?;
    jump(plan, scene, around.exit, pen)
}
