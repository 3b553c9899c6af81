// What a name stands for.
ghost use Rattle.std.specs.Prelude.{◌≡◌, IfOk, slice_index_or, []};
ghost use Rattle.wm_program.specs.declared.tree.Scalar.TheVariants as scalar;
ghost use Rattle.wm_program.specs.State as states;
ghost use Rattle.wm_flow.specs.Places as places;
ghost use Rattle.wm_places.specs.Seen.{plan_of};

use crate::bases::{bases_of, input_place, overflow_place, scalar_place, state_place};
use crate::numbers::plus;
use crate::plan::Plan;
use crate::program::{function_of, roots_of};
use wm_flow::{Bases, Kept, LocalSeat, Scene, Seat, Source, Tables};
use wm_forms::{constant, variable};
use wm_ops::NoMemory;
use wm_program::{Array, Root, Scalar};

/// What an object of static storage is in a state.
pub fn seat_at(tables: &Tables, object: u32) -> Seat
    ensures { result ≡ places.seat_at tables.now object }
{
    match tables.objects.items().get(object as usize) {
        Some(seat) => *seat,
        None => Seat::Constant { low: 0, high: 0 },
    }
}

/// What a local of a function is in a state.
pub fn local_seat_at(tables: &Tables, function: u32, local: u32) -> LocalSeat
    ensures { result ≡ places.local_seat_at tables.now function local }
{
    match tables.locals.items().get(function as usize) {
        Some(seats) => match seats.items().get(local as usize) {
            Some(seat) => *seat,
            None => LocalSeat::Scalar(0),
        },
        None => LocalSeat::Scalar(0),
    }
}

fn seat_source(bases: Bases, seat: Seat) -> Result<Source, NoMemory>
    ensures { IfOk result (λ source. source ≡ places.seat_source bases seat) }
{
    match seat {
        Seat::State(k) => {
            let v = state_place(bases, k)?;
            Ok(Source::Variable(v))
        }
        Seat::Input(k) => {
            let v = input_place(bases, k)?;
            Ok(Source::Variable(v))
        }
        Seat::Array(k) => Ok(Source::Cells(k)),
        Seat::Constant { low, high } => Ok(Source::Fixed { low, high }),
    }
}

fn local_source(bases: Bases, above: u32, seat: LocalSeat) -> Result<Source, NoMemory>
    ensures { IfOk result (λ source. source ≡ places.local_source bases above seat) }
{
    match seat {
        LocalSeat::Scalar(k) => {
            let v = scalar_place(bases, k)?;
            Ok(Source::Variable(v))
        }
        LocalSeat::Array(k) => {
            let array = plus(above, k)?;
            Ok(Source::Cells(array))
        }
    }
}

/// How many arrays stand before those of an instance.
pub fn above_at(tables: &Tables, instance: u32) -> u32
    ensures { result ≡ places.above_at tables.now instance }
{
    match tables.above.items().get(instance as usize) {
        Some(above) => *above,
        None => 0,
    }
}

#[tactic(auto, unfolding(crate::specs::Seen::plan_of, wm_flow::specs::Places::root_source))]
fn root_source(plan: &Plan, bases: Bases, root: Root) -> Result<Source, NoMemory>
    ensures { IfOk result (λ source. source ≡ places.root_source (plan_of plan.now) bases root) }
{
    match root {
        Root::Object(object) => seat_source(bases, seat_at(plan.tables, object)),
        Root::Local { instance, local } => {
            let function = function_of(plan.program, instance);
            local_source(
                bases,
                above_at(plan.tables, instance),
                local_seat_at(plan.tables, function, local),
            )
        }
    }
}

/// What a scalar stands for at a node.
#[tactic(auto, unfolding(wm_flow::specs::Places::scalar_source))]
pub fn scalar_source(plan: &Plan, scene: Scene, scalar: Scalar) -> Result<Source, NoMemory>
    ensures { IfOk result (λ source. source ≡ places.scalar_source (plan_of plan.now) scene scalar) }
{
    let bases = bases_of(plan, scene)?;
    match scalar {
        Scalar::Overflow => {
            let v = overflow_place(bases)?;
            Ok(Source::Variable(v))
        }
        Scalar::Object(object) => root_source(plan, bases, Root::Object(object)),
        Scalar::Local(local) => root_source(
            plan,
            bases,
            Root::Local {
                instance: scene.instance,
                local,
            },
        ),
    }
}

/// What a local stands for at a node.
pub fn own_source(plan: &Plan, scene: Scene, local: u32) -> Result<Source, NoMemory>
    ensures { IfOk result (λ source. source ≡ places.scalar_source (plan_of plan.now) scene (scalar.Local local)) }
{
    scalar_source(plan, scene, Scalar::Local(local))
}

fn own(instance: u32, local: u32) -> Root
    ensures { result ≡ Root.Local instance local }
{
    Root::Local { instance, local }
}

/// What holds the cells of an array.
#[tactic(auto, unfolding(crate::specs::Seen::plan_of))]
pub fn root_of(plan: &Plan, scene: Scene, array: Array) -> Root
    ensures { result ≡ states.root_of (places.here_of (plan_of plan.now) scene) array }
{
    match array {
        Array::Object(object) => Root::Object(object),
        Array::Local(local) => own(scene.instance, local),
        Array::View { local, number } => {
            match roots_of(plan.program, scene.instance).get(number as usize) {
                Some(root) => *root,
                None => own(scene.instance, local),
            }
        }
    }
}

/// What an array stands for at a node.
#[tactic(auto, unfolding(wm_flow::specs::Places::array_source))]
pub fn array_source(plan: &Plan, scene: Scene, array: Array) -> Result<Source, NoMemory>
    ensures { IfOk result (λ source. source ≡ places.array_source (plan_of plan.now) scene array) }
{
    let bases = bases_of(plan, scene)?;
    root_source(plan, bases, root_of(plan, scene, array))
}

fn source_value(source: Source) -> Kept
    ensures { result ≡ places.source_value source }
{
    match source {
        Source::Variable(v) => variable(v),
        Source::Cells(_) => constant(0),
        Source::Fixed { .. } => constant(0),
    }
}

/// Where an array begins in what holds its cells.
#[tactic(auto, unfolding(wm_flow::specs::Places::offset_of))]
pub fn offset_of(plan: &Plan, scene: Scene, array: Array) -> Result<Kept, NoMemory>
    ensures { IfOk result (λ offset. offset ≡ places.offset_of (plan_of plan.now) scene array) }
{
    match array {
        Array::Object(_) => Ok(constant(0)),
        Array::Local(_) => Ok(constant(0)),
        Array::View { local, .. } => {
            let source = own_source(plan, scene, local)?;
            Ok(source_value(source))
        }
    }
}
