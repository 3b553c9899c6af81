// The edge on which the inputs of a frame come.
ghost use Rattle.std.specs.Prelude.{◌≡◌, ◌++◌, map, OnOk, IfOk};
ghost use Rattle.wm_flow.specs.Graphs as graphs;
ghost use Rattle.wm_flow.specs.Views.{doing_of, bounded_of};
ghost use Rattle.wm_places.specs.Seen.{plan_of};
ghost use Rattle.wm_program.specs.Code.{input_of};

use std::alloc::Global;
use wm_crossings::scene_of;
use wm_flow::{Action, Bases, Given, Seat, Tables};
use wm_ops::{List, NoMemory};
use wm_places::{Plan, bases_of, input_place, seat_at};
use wm_program::InputInfo;

#[tactic(auto, using(crate::proofs::InputsBounded::one_bounded))]
fn push_scalar(
    list: &mut List<Given>,
    bases: Bases,
    input: &InputInfo,
    seat: Seat,
) -> Result<(), NoMemory>
    ensures { OnOk result (map bounded_of list.new ≡ map bounded_of list.old ++ graphs.scalar_input bases (input_of input.now) seat) }
{
    match seat {
        Seat::Input(k) => {
            let target = input_place(bases, k)?;
            list.push(Given {
                target,
                range: input.range,
            })
        }
        Seat::State(_) => Ok(()),
        Seat::Array(_) => Ok(()),
        Seat::Constant { .. } => Ok(()),
    }
}

#[tactic(auto, using(crate::proofs::InputsBounded::one_bounded))]
fn push_array(list: &mut List<Given>, input: &InputInfo, seat: Seat) -> Result<(), NoMemory>
    ensures { OnOk result (map bounded_of list.new ≡ map bounded_of list.old ++ graphs.array_input (input_of input.now) seat) }
{
    match seat {
        Seat::Array(k) => list.push(Given {
            target: k,
            range: input.range,
        }),
        Seat::State(_) => Ok(()),
        Seat::Input(_) => Ok(()),
        Seat::Constant { .. } => Ok(()),
    }
}

/// The inputs that are scalars, as variables of the frame function's node.
fn scalars(
    alloc: Global,
    tables: &Tables,
    bases: Bases,
    inputs: &[InputInfo],
) -> Result<List<Given>, NoMemory>
    ensures { IfOk result (λ list. map bounded_of list ≡ graphs.scalar_inputs tables.now bases (map input_of inputs.now)) }
{
    let mut list = List::new(alloc);
    for input in inputs {
        push_scalar(&mut list, bases, input, seat_at(tables, input.object))?;
    }
    Ok(list)
}

/// The inputs that are arrays.
fn arrays(alloc: Global, tables: &Tables, inputs: &[InputInfo]) -> Result<List<Given>, NoMemory>
    ensures { IfOk result (λ list. map bounded_of list ≡ graphs.array_inputs tables.now (map input_of inputs.now)) }
{
    let mut list = List::new(alloc);
    for input in inputs {
        push_array(&mut list, input, seat_at(tables, input.object))?;
    }
    Ok(list)
}

/// Each input has any number of its range.
#[tactic(auto, unfolding(wm_places::specs::Seen::plan_of, wm_flow::specs::Graphs::taking_inputs, wm_flow::specs::Views::doing_of))]
pub fn taking_inputs(plan: &Plan) -> Result<Action, NoMemory>
    ensures { IfOk result (λ action. doing_of action ≡ graphs.taking_inputs (plan_of plan.now)) }
{
    let bases = bases_of(plan, scene_of(plan, plan.program.frame))?;
    let inputs = plan.program.inputs.items();
    let scalars = scalars(plan.alloc, plan.tables, bases, inputs)?;
    let arrays = arrays(plan.alloc, plan.tables, inputs)?;
    Ok(Action::Inputs { scalars, arrays })
}
