// The numbers of heads and arrays: by loop, by function, by instance.
ghost use Rattle.std.specs.Prelude.{◌≡◌, ◌+◌, IfOk, slice_index_or, slice_get, []};
ghost use Rattle.wm_program.specs.declared.program.InstanceInfo.{InstanceInfo};
ghost use Rattle.std.specs.Option.{option_map_or};
ghost use Rattle.wm_flow.specs.Seats as seats;
ghost use Rattle.wm_seats.specs.Locals.{all_loops_in};

use crate::objects::next;
use std::alloc::Global;
use wm_flow::LocalCounts;
use wm_ops::{List, NoMemory};
use wm_program::{FunctionInfo, InstanceInfo, LoopInfo};

fn sum(a: u32, b: u32) -> Result<u32, NoMemory>
    ensures { IfOk result (λ both. both ≡ a + b) }
{
    match a.checked_add(b) {
        Some(both) => Ok(both),
        None => Err(NoMemory),
    }
}

fn rank_after(before: u32, following: u32, function: u32) -> u32
    ensures { result ≡ seats.rank_after before following function }
{
    if before == function {
        return following;
    }
    0
}

/// How many loops of its function stand before each loop.
pub(crate) fn ranks(alloc: Global, loops: &[LoopInfo]) -> Result<List<u32>, NoMemory>
    ensures { IfOk result (λ list. list ≡ seats.ranks_from 0 0 loops.now) }
{
    let mut list = List::new(alloc);
    let mut before = 0;
    let mut following = 0;
    for it in loops {
        let rank = rank_after(before, following, it.function);
        list.push(rank)?;
        before = it.function;
        following = next(rank)?;
    }
    Ok(list)
}

/// How many loops a function has.
fn loops_in(loops: &[LoopInfo], function: u32) -> Result<u32, NoMemory>
    ensures { IfOk result (λ count. count ≡ seats.loops_in loops.now function) }
{
    let mut count = 0;
    for it in loops {
        if it.function == function {
            count = next(count)?;
        }
    }
    Ok(count)
}

/// How many loops each function has.
pub(crate) fn loop_counts(
    alloc: Global,
    functions: &[FunctionInfo],
    loops: &[LoopInfo],
) -> Result<Vec<u32>, NoMemory>
    ensures { IfOk result (λ list. list.items ≡ all_loops_in functions.now loops.now 0) }
{
    let mut list = Vec::new(alloc);
    let mut number = 0;
    for _function in functions {
        list.push(loops_in(loops, number)?)?;
        number = next(number)?;
    }
    Ok(list)
}

fn count_at(counts: &[u32], function: u32) -> u32
    ensures { result ≡ slice_index_or counts.now function 0 }
{
    match counts.get(function as usize) {
        Some(count) => *count,
        None => 0,
    }
}

/// The number of the first head of each instance.
pub(crate) fn first_heads(
    alloc: Global,
    counts: &[u32],
    instances: &[InstanceInfo],
) -> Result<List<u32>, NoMemory>
    ensures { IfOk result (λ list. list ≡ seats.heads_from counts.now 1 instances.now) }
{
    let mut list = List::new(alloc);
    let mut number = 1;
    for info in instances {
        list.push(number)?;
        number = sum(number, count_at(counts, info.function))?;
    }
    Ok(list)
}

/// The number of all heads.
pub(crate) fn head_count(counts: &[u32], instances: &[InstanceInfo]) -> Result<u32, NoMemory>
    ensures { IfOk result (λ count. count ≡ seats.heads_behind counts.now 1 instances.now) }
{
    let mut number = 1;
    for info in instances {
        number = sum(number, count_at(counts, info.function))?;
    }
    Ok(number)
}

fn function_at(instances: &[InstanceInfo], instance: u32) -> u32
    ensures { result ≡ option_map_or (λ (it : InstanceInfo). it.function) (slice_get instances.now instance) 0 }
{
    match instances.get(instance as usize) {
        Some(info) => info.function,
        None => 0,
    }
}

fn arrays_in(counts: &[LocalCounts], function: u32) -> u32
    ensures { result ≡ (seats.counts_in counts.now function).arrays }
{
    match counts.get(function as usize) {
        Some(counts) => counts.arrays,
        None => 0,
    }
}

/// How many arrays stand before those of an instance whose caller is among those that are known.
fn above_of(
    statics: u32,
    counts: &[LocalCounts],
    instances: &[InstanceInfo],
    known: &[u32],
    info: &InstanceInfo,
) -> Result<u32, NoMemory>
    ensures { IfOk result (λ above. above ≡ seats.above_of statics counts.now instances.now known.now info.now) }
{
    match info.caller {
        Some(caller) => sum(
            count_at(known, caller),
            arrays_in(counts, function_at(instances, caller)),
        ),
        None => Ok(statics),
    }
}

/// How many arrays stand before those of each instance.
pub(crate) fn above(
    alloc: Global,
    statics: u32,
    counts: &[LocalCounts],
    instances: &[InstanceInfo],
) -> Result<List<u32>, NoMemory>
    ensures { IfOk result (λ list. list ≡ seats.above_from statics counts.now instances.now [] instances.now) }
{
    let mut list = List::new(alloc);
    for info in instances {
        let number = above_of(statics, counts, instances, list.items(), info)?;
        list.push(number)?;
    }
    Ok(list)
}
