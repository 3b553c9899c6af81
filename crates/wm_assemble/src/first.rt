// From a first way through a unit to what a second one needs.
ghost use Rattle.std.specs.Prelude.{◌≡◌, IfOk};
ghost use Rattle.wm_assemble.specs.Answers.{Answers};
ghost use Rattle.wm_assemble.specs.Linked.{laid_fault, gathered, counted, planned, early_fault, started};

use crate::faults::{limit_fault, spec_fault, token_fault};
use crate::plan::{Laid, Plan, Started, lay, make_plan, total_of};
use std::alloc::Global;
use wm_calls::{call_offsets, recursion, tree_sizes};
use wm_instances::{distinct_constants, exceeds_steps, heads, size};
use wm_lang::Unit;
use wm_ops::{List, NoMemory};
use wm_program::{FunctionInfo, LinkFault, LoopInfo, Spec, What};
use wm_scope::Reading;

/// The first limit that is passed, behind that of instances.
fn laid_fault(
    alloc: Global,
    functions: &[FunctionInfo],
    loops: &[LoopInfo],
    laid: &Laid,
    constants: &[i64],
) -> Result<Option<LinkFault>, NoMemory>
    ensures { IfOk result (λ fault. fault ≡ laid_fault functions.now loops.now laid.now constants.now) }
{
    let instances = laid.instances.items();
    let exceeds = exceeds_steps(alloc, 16, loops)?;
    Ok(limit_fault(
        heads(loops, instances),
        size(functions, instances),
        constants.len() <= 4096,
        exceeds,
    ))
}

fn listed(alloc: Global, numbers: &[u32]) -> Result<List<u32>, NoMemory>
    ensures { IfOk result (λ list. list ≡ numbers.now) }
{
    let mut list = List::new(alloc);
    for number in numbers {
        list.push(*number)?;
    }
    Ok(list)
}

#[tactic(auto, unfolding(crate::specs::Linked::gathered))]
fn gathered(
    alloc: Global,
    plan: &Plan,
    sizes: &[u32],
    laid: Laid,
    constants: List<i64>,
) -> Result<Started, NoMemory>
    ensures { IfOk result (λ started. started ≡ gathered plan.now sizes.now laid constants) }
{
    let offsets = call_offsets(alloc, sizes, plan.calls.items())?;
    let frames = listed(alloc, plan.frames.items())?;
    let sizes = listed(alloc, sizes)?;
    Ok(Started {
        laid,
        frames,
        sizes,
        offsets,
        constants,
    })
}

/// What is made of instances that are not too many.
#[tactic(auto, using(crate::proofs::Refusing::counted_fault, crate::proofs::Refusing::counted_started))]
fn counted(
    alloc: Global,
    unit: &Unit,
    functions: &[FunctionInfo],
    loops: &[LoopInfo],
    plan: &Plan,
    sizes: &[u32],
) -> Result<Started, LinkFault>
    ensures { Answers result (counted unit.now functions.now loops.now plan.now sizes.now) }
{
    let laid = lay(alloc, plan)?;
    let constants = distinct_constants(alloc, unit)?;
    match laid_fault(alloc, functions, loops, &laid, constants.items())? {
        Some(fault) => Err(fault),
        None => {
            let started = gathered(alloc, plan, sizes, laid, constants)?;
            Ok(started)
        }
    }
}

/// What is made of a unit without faults at tokens or in the specification.
#[tactic(auto, using(crate::proofs::Refusing::planned_many))]
fn planned(
    alloc: Global,
    unit: &Unit,
    functions: &[FunctionInfo],
    loops: &[LoopInfo],
    plan: &Plan,
) -> Result<Started, LinkFault>
    ensures { Answers result (planned unit.now functions.now loops.now plan.now) }
{
    let sizes = tree_sizes(alloc, plan.calls.items())?;
    if 1024 < total_of(sizes.as_slice(), plan) {
        return Err(LinkFault::TooMany {
            what: What::Instances,
        });
    }
    counted(alloc, unit, functions, loops, plan, sizes.as_slice())
}

/// The first fault at a token or in the specification.
#[tactic(auto, using(crate::proofs::Refusing::early_first, crate::proofs::Refusing::early_second))]
fn early_fault(alloc: Global, spec: &Spec, reading: &Reading) -> Result<Option<LinkFault>, NoMemory>
    ensures { IfOk result (λ fault. fault ≡ early_fault spec.now reading.now) }
{
    let circle = recursion(alloc, reading.calls.items())?;
    let fault = token_fault(reading.least, circle);
    if fault.is_some() {
        return Ok(fault);
    }
    spec_fault(
        alloc,
        reading.functions.items(),
        reading.objects.items(),
        spec,
    )
}

/// What is made of a first way through a unit, or the first fault of the unit and the specification: the fault at the least token,
/// at one token the first in the order of `LinkFault`; then NoFrame, NoInit, BadInput, and TooMany of instances, heads, size,
/// constants and steps. Want of memory is NoMemory, as is a number that does not fit 32 bits.
#[tactic(auto, using(crate::proofs::Refusing::linked_fault, crate::proofs::Refusing::linked_rest))]
pub fn start(
    alloc: Global,
    unit: &Unit,
    spec: &Spec,
    reading: Reading,
) -> Result<Started, LinkFault>
    ensures started { Answers result (started unit.now spec.now reading) }
{
    match early_fault(alloc, spec, &reading)? {
        Some(fault) => Err(fault),
        None => {
            let Reading {
                functions,
                objects: _,
                sites: _,
                loops,
                calls,
                least: _,
            } = reading;
            let plan = make_plan(alloc, unit, spec, functions.items(), calls)?;
            planned(alloc, unit, functions.items(), loops.items(), &plan)
        }
    }
}
