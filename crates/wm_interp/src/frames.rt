// The runs of a machine: of init behind the static values, and of a frame.
ghost use Rattle.std.specs.Prelude.{◌≡◌, [], ◌∷◌, ◌++◌, map, take, drop, replicate, IfOk, OnOk};
ghost use Rattle.wm_program.specs.Code.{code_of};
ghost use Rattle.wm_program.specs.Runs as runs;
ghost use Rattle.wm_weights.specs.Table.{weight_of};
ghost use Rattle.wm_interp.specs.Frames as frames;
ghost use Rattle.wm_interp.specs.Seen.{held_of};
ghost use Rattle.wm_interp.specs.Standing.{ran_seen, frame_with};

use crate::access::{function_of, length_of};
use crate::fill::Fill;
use crate::halt::{Halt, Refusal};
use crate::memory::Memory;
use crate::run::invoke;
use crate::scene::Scene;
use crate::store::Store;
use std::alloc::Global;
use wm_ops::{List, NoMemory};
use wm_program::{End, Event, FrameResult, InputInfo, Inputs, ObjectInfo, Program, Root};
use wm_weights::Weights;

/// How deep the recursion over the trees may go.
const DEPTH: u64 = 1_000_000_000_000;

/// What is held between frames, and how the run has halted.
#[derive(Drop)]
pub(crate) struct Ran {
    pub(crate) memory: Memory,
    pub(crate) halted: Option<End>,
}

/// The static values, and then init.
#[tactic(auto, unfolding(crate::specs::Frames::started_on))]
pub(crate) fn first_run(
    alloc: Global,
    program: &Program,
    weights: &Weights,
    fill: Vec<i64>,
    steps: u64,
) -> Result<Ran, Refusal>
    ensures { IfOk result (λ ran. ran_seen ran ≡ frames.started_on (code_of program.now) (weight_of weights.now) fill.items steps) }
{
    let memory = first_memory(alloc, program, fill, steps)?;
    match program.init {
        Some(instance) => run_root(memory, alloc, program, weights, instance),
        None => Ok(Ran {
            memory,
            halted: None,
        }),
    }
}

/// A frame; nothing, where the run has halted.
#[tactic(auto, unfolding(crate::specs::Frames::frame_on))]
pub(crate) fn next_run(
    ran: Ran,
    alloc: Global,
    program: &Program,
    weights: &Weights,
    inputs: &Inputs,
    steps: u64,
) -> Result<Ran, Refusal>
    ensures { IfOk result (λ new. ran_seen new ≡ frames.frame_on (code_of program.now) (weight_of weights.now) (frame_with inputs.now steps) (ran_seen ran)) }
{
    let Ran { mut memory, halted } = ran;
    match halted {
        Some(end) => {
            let left = memory.steps;
            memory.begin(left);
            Ok(Ran {
                memory,
                halted: Some(end),
            })
        }
        None => {
            memory.begin(steps);
            store_inputs(&mut memory, program, inputs)?;
            run_root(memory, alloc, program, weights, program.frame)
        }
    }
}

/// The function of an instance without parameters.
fn run_root(
    memory: Memory,
    alloc: Global,
    program: &Program,
    weights: &Weights,
    instance: u32,
) -> Result<Ran, Refusal>
    ensures { IfOk result (λ ran. ran_seen ran ≡ frames.stand_in (frames.root_on (code_of program.now) (weight_of weights.now) instance (held_of memory))) }
{
    let mut memory = memory;
    let count = program.instances.items().len();
    if count > u32::MAX as usize {
        return Err(Refusal::Unfit);
    }
    let at = Scene {
        program,
        weights,
        alloc,
        instance,
        roots: &[],
        levels: count as u32,
    };
    match invoke(&mut memory, &at, function_of(program, instance), &[], DEPTH) {
        Ok(_) => Ok(Ran {
            memory,
            halted: None,
        }),
        Err(Halt::Over(end)) => Ok(Ran {
            memory,
            halted: Some(end),
        }),
        Err(Halt::Refused(refusal)) => Err(refusal),
    }
}

/// The memory as init begins.
fn first_memory(
    alloc: Global,
    program: &Program,
    fill: Vec<i64>,
    steps: u64,
) -> Result<Memory, Refusal>
    ensures { IfOk result (λ memory. held_of memory ≡ frames.begun_on steps (frames.first_held (code_of program.now) fill.items)) }
{
    Ok(Memory {
        objects: first_objects(alloc, program.objects.items())?,
        locals: no_locals(alloc, program.instances.items().len())?,
        overflow: 0,
        fill: Fill::new(fill),
        steps,
        count: 0,
        events: Vec::new(alloc),
    })
}

fn first_objects(alloc: Global, objects: &[ObjectInfo]) -> Result<Store, Refusal>
    ensures { IfOk result (λ store. store ≡ map runs.initial_cells objects.now) }
{
    let mut store = Store::new(alloc);
    for object in objects {
        store.push_list(alloc, object.length as usize, object.initial.items())?;
    }
    Ok(store)
}

fn no_locals(alloc: Global, count: usize) -> Result<Vec<Store>, Refusal>
    ensures { IfOk result (λ locals. locals.items ≡ replicate count []) }
{
    let mut locals = Vec::new(alloc);
    for _ in 0..count {
        match locals.push(Store::new(alloc)) {
            Ok(()) => {}
            Err(_) => return Err(Refusal::NoMemory),
        }
    }
    Ok(locals)
}

/// Stores the inputs, each of which takes as many numbers as it has cells.
fn store_inputs(memory: &mut Memory, program: &Program, inputs: &Inputs) -> Result<(), Refusal>
    ensures { OnOk result (held_of memory.new ≡ frames.input_on (code_of program.now) inputs.now.values (held_of memory.old)) }
{
    let mut rest = inputs.values.items();
    for input in program.inputs.items() {
        let count = length_of(program, Root::Object(input.object));
        if count > rest.len() {
            return Err(Refusal::Unfit);
        }
        let (taken, left) = rest.split_at(count);
        memory.objects.write(input.object as usize, taken)?;
        rest = left;
    }
    Ok(())
}

/// What is seen of a run.
pub(crate) fn shown(alloc: Global, ran: &Ran) -> Result<FrameResult, NoMemory>
    ensures { IfOk result (λ shown. shown ≡ frames.shown_by (ran_seen ran.now)) }
{
    let events = copied(alloc, ran.memory.events.as_slice())?;
    Ok(FrameResult {
        count: ran.memory.count,
        overflow: ran.memory.overflow,
        events,
        end: end_of(ran.halted),
    })
}

fn end_of(halted: Option<End>) -> End
    ensures { result ≡ frames.end_of halted }
{
    match halted {
        Some(end) => end,
        None => End::Ended,
    }
}

fn copied(alloc: Global, events: &[Event]) -> Result<List<Event>, NoMemory>
    ensures { IfOk result (λ list. list ≡ events.now) }
{
    let mut list = List::new(alloc);
    for event in events {
        list.push(*event)?;
    }
    Ok(list)
}
