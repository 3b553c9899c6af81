// The image of a state along an edge, by its action.
ghost use Rattle.std.specs.Prelude.{◌≡◌, IfOk};
ghost use Rattle.wm_domain.specs.States.{Keeps};
ghost use Rattle.wm_stepped.specs.Allowing.{AllowedBy};
ghost use Rattle.wm_stepped.specs.Stepping.{StepFits};

use crate::calls::{enter, nowhere};
use crate::cells::{read_cell, set_array, write_cell};
use crate::moves::{
    carry, clear_variables, keep_between, keep_relation, reset_counters, supply, tie, turn,
};
use crate::numbers::{assign_form, assign_range, cast_form, compute, operate};
use wm_carry::Way;
use wm_domain::Domain;
use wm_flow::Action;
use wm_ops::NoMemory;

/// The image along an edge, which has no point where the edge is a return. `NoMemory`: memory ran out.
pub(crate) fn acted<D: Domain>(way: &Way, at: &D, action: &Action) -> Result<D, NoMemory>
    requires fits { StepFits way.now.source.now way.now.target.now action.now }
    requires shape { D.shape_of at.now ≡ way.now.source.now }
    ensures shape { IfOk result (λ s. D.shape_of s ≡ way.now.target.now) }
    ensures sound { IfOk result (λ s. Keeps D.holds D.shape_of s (AllowedBy way.now.source.now way.now.target.now (D.holds at.now) (λ p. ⊥) action.now)) }
{
    match action {
        Action::AssignForm { target, form } => assign_form(way, at, *target, form),
        Action::Plain { mark, args, target } => compute(way, at, *mark, args, *target),
        Action::Cast { form, target } => cast_form(way, at, form, *target),
        Action::AssignRange { target, range } => assign_range(way, at, *target, *range),
        Action::SetArray { array, summary } => set_array(way, at, *array, *summary),
        Action::Operate {
            op,
            args,
            target,
            overflow,
        } => operate(way, at, *op, args, *target, *overflow),
        Action::Read { array, target } => read_cell(way, at, *array, *target),
        Action::Write {
            array,
            value,
            length,
        } => write_cell(way, at, *array, value, *length),
        Action::Clear { variables } => clear_variables(way, at, variables.items()),
        Action::Keep { form, relation } => keep_relation(way, at, form, *relation),
        Action::Test {
            form,
            low,
            high,
            ..
        } => keep_between(way, at, form, *low, *high),
        Action::Count { .. } => carry(way, at),
        Action::Enter {
            picks,
            arrays,
            arguments,
        } => enter(way, at, picks.items(), arrays.items(), arguments.items()),
        Action::Leave { .. } => nowhere(way),
        Action::Reset { counters } => reset_counters(way, at, counters.items()),
        Action::Turn { growths } => turn(way, at, growths.items()),
        Action::Tie {
            counter,
            loop_step,
            variable,
            step,
        } => tie(way, at, *counter, *loop_step, *variable, *step),
        Action::Inputs { scalars, arrays } => supply(way, at, scalars.items(), arrays.items()),
    }
}
