// How many nodes each instance has: an instance calls later ones alone, so the last one is looked at first.
ghost use Rattle.std.specs.Prelude.{◌≡◌, length, replicate, slice_set, IfOk, OnOk};
ghost use Rattle.wm_program.specs.Code.{code_of};
ghost use Rattle.wm_flow.specs.Parts as parts;

use crate::parts::part_size;
use std::alloc::Global;
use wm_flow::{Sum, Tables};
use wm_ops::{List, NoMemory};
use wm_places::Plan;
use wm_program::Program;

/// So many zeros.
#[tactic(auto, using(crate::proofs::SizesTold::zeros_step))]
fn zeros(alloc: Global, count: u32) -> Result<Vec<u32>, NoMemory>
    ensures { IfOk result (λ list. list.items ≡ replicate count 0) }
{
    let mut list = Vec::new(alloc);
    for k in 0..count {
        list.push(0)?;
    }
    Ok(list)
}

fn set(sizes: &mut Vec<u32>, instance: u32, size: u32)
    ensures { sizes.new.items ≡ slice_set sizes.old.items instance size }
{
    let instance = instance as usize;
    if instance < sizes.len() {
        sizes[instance] = size;
    }
}

/// An instance gets its size, by those of the instances that it calls.
#[tactic(auto, unfolding(wm_places::specs::Seen::plan_of))]
fn size_next(
    alloc: Global,
    program: &Program,
    tables: &Tables,
    sums: &[List<Sum>],
    instance: u32,
    sizes: &mut Vec<u32>,
) -> Result<(), NoMemory>
    ensures { OnOk result (sizes.new.items ≡ slice_set sizes.old.items instance (parts.part_size (parts.plan_with (code_of program.now) tables.now sums.now sizes.old.items) instance)) }
{
    let plan = Plan {
        alloc,
        program,
        tables,
        sums,
        sizes: sizes.as_slice(),
    };
    let size = part_size(&plan, instance)?;
    set(sizes, instance, size);
    Ok(())
}

/// How many nodes each instance of a program has, for these sum counters by head.
#[tactic(auto, unfolding(wm_flow::specs::Parts::plan_for), using(crate::proofs::SizesTold::sized_next))]
pub fn sizes_of(
    alloc: Global,
    program: &Program,
    tables: &Tables,
    sums: &[List<Sum>],
) -> Result<Vec<u32>, NoMemory>
    ensures sizes { IfOk result (λ sizes. parts.plan_with (code_of program.now) tables.now sums.now sizes.items ≡ parts.plan_for (code_of program.now) tables.now sums.now) }
{
    let count = number_of(program)?;
    let mut sizes = zeros(alloc, count)?;
    let mut left = count;
    while left > 0 {
        left -= 1;
        size_next(alloc, program, tables, sums, left, &mut sizes)?;
    }
    Ok(sizes)
}

/// How many instances a program has.
pub(crate) fn number_of(program: &Program) -> Result<u32, NoMemory>
    ensures { IfOk result (λ count. count ≡ length program.now.instances) }
{
    match u32::try_from(program.instances.items().len()) {
        Ok(count) => Ok(count),
        Err(_) => Err(NoMemory),
    }
}
