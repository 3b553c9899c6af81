// The program of a unit that has no fault.
ghost use Rattle.std.specs.Prelude.{◌≡◌, IfOk, OnOk};
ghost use Rattle.wm_assemble.specs.Linked.{functions_of, objects_of, inputs_of, with_call, finished};

use crate::plan::{Laid, Started, has_choice};
use std::alloc::Global;
use wm_inputs::{call_input, call_object, chooser, inputs, marked_objects};
use wm_ops::{List, NoMemory};
use wm_program::{FunctionInfo, InputInfo, ObjectInfo, Program, Spec};
use wm_scope::Reading;

fn number(k: usize) -> Result<u32, NoMemory>
    ensures { IfOk result (λ number. number ≡ k) }
{
    match u32::try_from(k) {
        Ok(number) => Ok(number),
        Err(_) => Err(NoMemory),
    }
}

/// The functions, and behind them the one that chooses by the object of this number.
fn functions_of(
    alloc: Global,
    call: u32,
    sizes: &[u32],
    frames: &[u32],
    functions: List<FunctionInfo>,
) -> Result<List<FunctionInfo>, NoMemory>
    ensures { IfOk result (λ all. all ≡ functions_of call sizes.now frames.now functions) }
{
    if !has_choice(frames) {
        return Ok(functions);
    }
    let mut all = functions;
    let last = chooser(alloc, call, sizes, frames)?;
    all.push(last)?;
    Ok(all)
}

/// The objects with the inputs marked, and behind them `call` where there are several frame functions.
fn objects_of(
    alloc: Global,
    spec: &Spec,
    frames: &[u32],
    objects: &[ObjectInfo],
) -> Result<List<ObjectInfo>, NoMemory>
    ensures { IfOk result (λ all. all ≡ objects_of spec.now frames.now objects.now) }
{
    let mut all = marked_objects(alloc, objects, spec.ranges.items())?;
    if !has_choice(frames) {
        return Ok(all);
    }
    let call = call_object(alloc)?;
    all.push(call)?;
    Ok(all)
}

/// The inputs, `call` before the others where there are several frame functions.
fn inputs_of(
    alloc: Global,
    call: u32,
    spec: &Spec,
    frames: &[u32],
    objects: &[ObjectInfo],
) -> Result<List<InputInfo>, NoMemory>
    ensures { IfOk result (λ all. all ≡ inputs_of call spec.now frames.now objects.now) }
{
    let mut all = List::new(alloc);
    push_call(&mut all, call, frames)?;
    inputs(&mut all, objects, spec)?;
    Ok(all)
}

fn push_call(inputs: &mut List<InputInfo>, call: u32, frames: &[u32]) -> Result<(), NoMemory>
    ensures { OnOk result (inputs.new ≡ with_call call frames.now inputs.old) }
{
    if !has_choice(frames) {
        return Ok(());
    }
    let input = call_input(call, frames)?;
    inputs.push(input)
}

/// The program of a unit without faults, of what was made of a first way through it and of a second one, which knew where the
/// instances of calls stand.
#[tactic(auto, unfolding(crate::specs::Linked::finished))]
pub fn finish(
    alloc: Global,
    spec: &Spec,
    started: Started,
    reading: Reading,
) -> Result<Program, NoMemory>
    ensures finished { IfOk result (λ program. program ≡ finished spec.now started reading) }
{
    let Reading {
        functions,
        objects,
        sites,
        loops,
        calls: _,
        least: _,
    } = reading;
    let Started {
        laid,
        frames,
        sizes,
        offsets: _,
        constants,
    } = started;
    let Laid {
        instances,
        init,
        frame,
    } = laid;
    let call = number(objects.items().len())?;
    let functions = functions_of(alloc, call, sizes.items(), frames.items(), functions)?;
    let inputs = inputs_of(alloc, call, spec, frames.items(), objects.items())?;
    let objects = objects_of(alloc, spec, frames.items(), objects.items())?;
    Ok(Program {
        functions,
        objects,
        sites,
        loops,
        instances,
        inputs,
        constants,
        init,
        frame,
    })
}
