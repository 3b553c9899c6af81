// What is asked of an instance and its function at a call.
ghost use Rattle.std.specs.Prelude.{◌≡◌, IfOk};
ghost use Rattle.wm_flow.specs.Calls as calls;
ghost use Rattle.wm_flow.specs.Expressions as expressions;
ghost use Rattle.wm_program.specs.Code as codes;
ghost use Rattle.wm_crossings.specs.Arrays.{array_count};
ghost use Rattle.wm_places.specs.Seen.{plan_of};

use wm_flow::{LocalSeat, Scene};
use wm_ops::NoMemory;
use wm_places::{Plan, function_of, plus};
use wm_program::Program;

/// Where an instance begins: no loop is open.
#[tactic(auto, unfolding(wm_places::specs::Seen::plan_of))]
pub fn scene_of(plan: &Plan, instance: u32) -> Scene
    ensures { result ≡ calls.scene_of (plan_of plan.now) instance }
{
    Scene {
        instance,
        function: function_of(plan.program, instance),
        depth: 0,
        inner: None,
    }
}

/// Whether a function has a result.
#[tactic(auto, unfolding(wm_places::specs::Seen::plan_of), using(wm_places::proofs::Routines::routine_there, wm_places::proofs::Routines::routine_nowhere))]
pub fn result_of(plan: &Plan, function: u32) -> bool
    ensures { result ≡ calls.result_of (plan_of plan.now) function }
{
    match plan.program.functions.items().get(function as usize) {
        Some(info) => match info.result {
            Some(_) => true,
            None => false,
        },
        None => false,
    }
}

/// How many temporaries the exit has: one for the result, where there is one.
pub fn result_size(plan: &Plan, function: u32) -> u32
    ensures { result ≡ calls.result_size (plan_of plan.now) function }
{
    if result_of(plan, function) {
        return 1;
    }
    0
}

/// What the locals of a function are.
#[tactic(auto, unfolding(wm_places::specs::Seen::plan_of))]
pub fn seats_of<'p>(plan: &Plan<'p>, function: u32) -> &'p [LocalSeat]
    ensures { result.now ≡ calls.seats_of (plan_of plan.now) function }
{
    match plan.tables.locals.items().get(function as usize) {
        Some(seats) => seats.items(),
        None => &[],
    }
}

/// One, where a local is kept as an array.
fn array_count(seat: LocalSeat) -> u32
    ensures { result ≡ array_count seat }
{
    match seat {
        LocalSeat::Scalar(_) => 0,
        LocalSeat::Array(_) => 1,
    }
}

/// How many of the first so many locals are kept as arrays.
#[tactic(auto, using(crate::proofs::Among::among_none, crate::proofs::Among::among_one))]
fn addressed_among(seats: &[LocalSeat], count: u32) -> Result<u32, NoMemory>
    ensures { IfOk result (λ number. number ≡ calls.addressed_among seats.now count) }
{
    let mut left = count;
    let mut number = 0;
    for seat in seats {
        if left == 0 {
            return Ok(number);
        }
        number = plus(number, array_count(*seat))?;
        left -= 1;
    }
    Ok(number)
}

/// How many parameters a function has.
#[tactic(auto, using(wm_places::proofs::Routines::routine_there, wm_places::proofs::Routines::routine_nowhere))]
pub fn parameters_of(program: &Program, function: u32) -> u32
    ensures { result ≡ (codes.routine_at (codes.code_of program.now) function).parameters }
{
    match program.functions.items().get(function as usize) {
        Some(info) => info.parameters,
        None => 0,
    }
}

/// How many parameters are kept as arrays, since their addresses are taken.
#[tactic(auto, unfolding(wm_places::specs::Seen::plan_of))]
pub fn addressed_in(plan: &Plan, function: u32) -> Result<u32, NoMemory>
    ensures { IfOk result (λ number. number ≡ calls.addressed_in (plan_of plan.now) function) }
{
    addressed_among(
        seats_of(plan, function),
        parameters_of(plan.program, function),
    )
}

/// The last node of an instance lies so far behind its first one.
#[tactic(auto, unfolding(wm_places::specs::Seen::plan_of))]
pub fn size_at(plan: &Plan, instance: u32) -> u32
    ensures { result ≡ expressions.size_at (plan_of plan.now) instance }
{
    match plan.sizes.get(instance as usize) {
        Some(size) => *size,
        None => 0,
    }
}
