// The full ranges of the parameters and automatic variables of instances.
ghost use Rattle.std.specs.Prelude.{◌≡◌, IfOk, OnOk, ◌++◌, drop, slice_get};
ghost use Rattle.wm_flow.specs.Layouts as layouts;
ghost use Rattle.wm_flow.specs.Seats as seats;
ghost use Rattle.wm_flow.specs.Views.{range_of};
ghost use Rattle.wm_layouts.specs.Ranges.{ranges_of};
ghost use Rattle.wm_program.specs.Code as codes;

use crate::ranges::{push_range, up_to, width_range};
use std::alloc::Global;
use wm_interval::Interval;
use wm_ops::{List, NoMemory};
use wm_places::{function_of, length_of};
use wm_program::{LocalInfo, Program, Root};

fn is_array(local: &LocalInfo) -> bool
    ensures { result ≡ seats.is_array local.now }
{
    if local.addressed {
        return true;
    }
    match local.array {
        Some(_) => true,
        None => false,
    }
}

/// The offsets of a view into the first of these roots.
fn view_range(program: &Program, roots: &[Root]) -> Interval
    ensures { range_of result ≡ layouts.view_range (codes.code_of program.now) (slice_get roots.now 0) }
{
    match roots.first() {
        Some(root) => up_to(length_of(program, *root)),
        None => up_to(0),
    }
}

fn others(roots: &[Root]) -> &[Root]
    ensures { result.now ≡ drop 1 roots.now }
{
    match roots.split_first() {
        Some((_root, rest)) => rest,
        None => roots,
    }
}

/// The scalars of a function whose views look into these roots.
fn scalar_ranges(
    alloc: Global,
    program: &Program,
    roots: &[Root],
    locals: &[LocalInfo],
) -> Result<List<Interval>, NoMemory>
    ensures { IfOk result (λ list. ranges_of list ≡ layouts.scalar_ranges (codes.code_of program.now) roots.now locals.now) }
{
    let mut list = List::new(alloc);
    let mut left = roots;
    for local in locals {
        if !is_array(local) {
            if local.view {
                push_range(&mut list, view_range(program, left))?;
                left = others(left);
            } else {
                push_range(&mut list, width_range(local.width))?;
            }
        }
    }
    Ok(list)
}

/// The arrays of a function, behind others.
fn push_arrays(list: &mut List<Interval>, locals: &[LocalInfo]) -> Result<(), NoMemory>
    ensures { OnOk result (ranges_of list.new ≡ ranges_of list.old ++ layouts.array_ranges locals.now) }
{
    for local in locals {
        if is_array(local) {
            push_range(list, width_range(local.width))?;
        }
    }
    Ok(())
}

/// The locals of an instance's function.
#[tactic(auto, using(wm_places::proofs::Routines::routine_there, wm_places::proofs::Routines::routine_nowhere))]
fn locals_of(program: &Program, instance: u32) -> &[LocalInfo]
    ensures { result.now ≡ layouts.locals_of (codes.code_of program.now) instance }
{
    let function = function_of(program, instance);
    match program.functions.items().get(function as usize) {
        Some(info) => info.locals.items(),
        None => &[],
    }
}

fn roots_of(program: &Program, instance: u32) -> &[Root]
    ensures { result.now ≡ codes.roots_of (codes.code_of program.now) instance }
{
    match program.instances.items().get(instance as usize) {
        Some(info) => info.roots.items(),
        None => &[],
    }
}

fn caller_of(program: &Program, instance: u32) -> Option<u32>
    ensures { result ≡ layouts.caller_of (codes.code_of program.now) instance }
{
    match program.instances.items().get(instance as usize) {
        Some(info) => info.caller,
        None => None,
    }
}

/// The scalars of an instance.
pub(crate) fn instance_scalars(
    alloc: Global,
    program: &Program,
    instance: u32,
) -> Result<List<Interval>, NoMemory>
    ensures { IfOk result (λ list. ranges_of list ≡ layouts.instance_scalars (codes.code_of program.now) instance) }
{
    scalar_ranges(
        alloc,
        program,
        roots_of(program, instance),
        locals_of(program, instance),
    )
}

/// The arrays of the instances from the root to this one, through so many callers, behind others.
#[tactic(auto, using(crate::proofs::Paths::path_end, crate::proofs::Paths::path_root))]
pub(crate) fn push_path(
    list: &mut List<Interval>,
    program: &Program,
    levels: usize,
    instance: u32,
) -> Result<(), NoMemory>
    ensures { OnOk result (ranges_of list.new ≡ ranges_of list.old ++ layouts.path_arrays (codes.code_of program.now) levels instance) }
{
    if levels == 0 {
        return push_arrays(list, locals_of(program, instance));
    }
    match caller_of(program, instance) {
        Some(caller) => {
            push_path(list, program, levels - 1, caller)?;
            push_arrays(list, locals_of(program, instance))
        }
        None => push_arrays(list, locals_of(program, instance)),
    }
}
