// What names mean in an instance, and the cells that they stand for.
ghost use Rattle.std.specs.Prelude.{◌≡◌, [], slice_index_or, slice_set, replicate, OnOk, IfOk};
ghost use Rattle.wm_program.specs.Code as codes;
ghost use Rattle.wm_program.specs.Execution as execution;
ghost use Rattle.wm_program.specs.State as states;
ghost use Rattle.wm_interp.specs.Going.{place_seen, offset_on, named_on};
ghost use Rattle.wm_interp.specs.Doing as doing;
ghost use Rattle.wm_interp.specs.Seen.{held_of, here_of, setting_of};

use crate::halt::{Location, Refusal};
use crate::memory::Memory;
use crate::numbers::clamp_to;
use crate::scene::Scene;
use crate::store::Store;
use wm_ops::Width;
use wm_program::{Array, Program, Root, Scalar};

/// A local of the scene's instance.
pub(crate) fn own(at: &Scene, local: u32) -> Root
    ensures { result ≡ Root.Local at.now.instance local }
{
    Root::Local {
        instance: at.instance,
        local,
    }
}

/// What an array looks into.
pub(crate) fn root_of(at: &Scene, array: Array) -> Root
    ensures { result ≡ states.root_of (here_of at.now) array }
{
    match array {
        Array::Object(object) => Root::Object(object),
        Array::Local(local) => own(at, local),
        Array::View { local, number } => match at.roots.get(number as usize) {
            Some(root) => *root,
            None => own(at, local),
        },
    }
}

/// Where a scalar stands.
#[tactic(auto, unfolding(crate::specs::Seen::setting_of))]
pub(crate) fn location_of(at: &Scene, scalar: Scalar) -> Location
    ensures { result ≡ doing.location_on (setting_of at.now) scalar }
{
    match scalar {
        Scalar::Overflow => Location::Flag,
        Scalar::Object(object) => Location::Cell {
            root: Root::Object(object),
            index: 0,
        },
        Scalar::Local(local) => Location::Cell {
            root: own(at, local),
            index: 0,
        },
    }
}

/// How many cells a root has.
pub(crate) fn length_of(program: &Program, root: Root) -> usize
    ensures { result ≡ codes.length_of (codes.code_of program.now) root }
{
    match root {
        Root::Object(object) => match program.objects.items().get(object as usize) {
            Some(info) => info.length as usize,
            None => 0,
        },
        Root::Local { instance, local } => local_cells(
            program,
            function_of(program, instance),
            local,
        ),
    }
}

/// The function of an instance.
pub(crate) fn function_of(program: &Program, instance: u32) -> u32
    ensures { result ≡ codes.function_of (codes.code_of program.now) instance }
{
    match program.instances.items().get(instance as usize) {
        Some(info) => info.function,
        None => 0,
    }
}

/// How many cells a local of a function has.
#[tactic(auto, using(crate::proofs::Routines::routine_there, crate::proofs::Routines::routine_nowhere))]
fn local_cells(program: &Program, function: u32, local: u32) -> usize
    ensures { result ≡ codes.local_cells (codes.routine_at (codes.code_of program.now) function) local }
{
    match program.functions.items().get(function as usize) {
        Some(info) => match info.locals.items().get(local as usize) {
            Some(local) => cells_in(local.array),
            None => 0,
        },
        None => 0,
    }
}

/// The cells of a local of this array length; a scalar has one.
pub(crate) fn cells_in(array: Option<u32>) -> usize
    ensures { result ≡ codes.array_length array }
{
    match array {
        Some(count) => count as usize,
        None => 1,
    }
}

/// The number at a location; none where a cell is unset.
pub(crate) fn number_at(memory: &Memory, location: Location) -> Option<i64>
    ensures { result ≡ states.number_at (place_seen location) (held_of memory.now).state }
{
    match location {
        Location::Flag => Some(memory.overflow),
        Location::Cell { root, index } => cell_at(memory, root, index),
    }
}

fn cell_at(memory: &Memory, root: Root, index: usize) -> Option<i64>
    ensures { result ≡ states.number_in (states.cells_of root (held_of memory.now).state) index }
{
    match root {
        Root::Object(object) => memory.objects.cell(object as usize, index),
        Root::Local { instance, local } => {
            cell_of_local(memory.locals.as_slice(), instance, local, index)
        }
    }
}

fn cell_of_local(locals: &[Store], instance: u32, local: u32, index: usize) -> Option<i64>
    ensures { result ≡ states.number_in (slice_index_or (slice_index_or locals.now instance []) local []) index }
{
    match locals.get(instance as usize) {
        Some(store) => store.cell(local as usize, index),
        None => None,
    }
}

/// The number at a location that is always set where it is read.
#[tactic(auto, unfolding(crate::specs::Doing::number_on))]
pub(crate) fn set_number(memory: &Memory, location: Location) -> i64
    ensures { result ≡ doing.number_on location (held_of memory.now) }
{
    match number_at(memory, location) {
        Some(number) => number,
        None => 0,
    }
}

/// The number of a scalar.
#[tactic(auto, unfolding(crate::specs::Doing::number_on, crate::specs::Going::named_on, crate::specs::Seen::setting_of))]
pub(crate) fn named(memory: &Memory, at: &Scene, scalar: Scalar) -> i64
    ensures { result ≡ named_on (setting_of at.now) scalar (held_of memory.now) }
{
    set_number(memory, location_of(at, scalar))
}

/// How far into its root an array begins.
#[tactic(auto, unfolding(crate::specs::Doing::number_on, crate::specs::Going::offset_on, crate::specs::Seen::setting_of))]
pub(crate) fn offset(memory: &Memory, at: &Scene, array: Array) -> i64
    ensures { result ≡ offset_on (setting_of at.now) array (held_of memory.now) }
{
    match array {
        Array::Object(_) => 0,
        Array::Local(_) => 0,
        Array::View { local, .. } => set_number(
            memory,
            Location::Cell {
                root: own(at, local),
                index: 0,
            },
        ),
    }
}

/// Writes a number.
#[tactic(auto, unfolding(crate::specs::Doing::write_on))]
pub(crate) fn write(memory: &mut Memory, location: Location, z: i64) -> Result<(), Refusal>
    ensures { OnOk result (held_of memory.new ≡ doing.write_on location z (held_of memory.old)) }
{
    match location {
        Location::Flag => {
            memory.overflow = z;
            Ok(())
        }
        Location::Cell {
            root: Root::Object(object),
            index,
        } => memory.objects.set(object as usize, index, z),
        Location::Cell {
            root: Root::Local { instance, local },
            index,
        } => write_local(&mut memory.locals, instance, local, index, z),
    }
}

fn write_local(
    locals: &mut Vec<Store>,
    instance: u32,
    local: u32,
    index: usize,
    z: i64,
) -> Result<(), Refusal>
    ensures { OnOk result (locals.new.items ≡ slice_set locals.old.items instance (slice_set (slice_index_or locals.old.items instance []) local (slice_set (slice_index_or (slice_index_or locals.old.items instance []) local []) index (Some z)))) }
{
    if instance as usize >= locals.len() {
        return Err(Refusal::Unfit);
    }
    locals[instance as usize].set(local as usize, index, z)
}

/// Gives an automatic scalar the next number of the fill list.
#[tactic(auto, unfolding(crate::specs::Doing::filled_on, crate::specs::Seen::setting_of))]
pub(crate) fn fill(memory: &mut Memory, at: &Scene, local: u32, width: Width) -> Result<(), Refusal>
    ensures { OnOk result (held_of memory.new ≡ doing.filled_on (setting_of at.now) local width (held_of memory.old)) }
{
    let z = clamp_to(width, memory.fill.take());
    write(memory, location_of(at, Scalar::Local(local)), z)
}

/// Makes each cell of an automatic array unset.
#[tactic(auto, unfolding(crate::specs::Doing::cells_on, crate::specs::Seen::setting_of))]
pub(crate) fn blank(memory: &mut Memory, at: &Scene, local: u32, count: u32) -> Result<(), Refusal>
    ensures { OnOk result (held_of memory.new ≡ doing.cells_on (setting_of at.now) local (replicate count None) (held_of memory.old)) }
{
    blank_local(&mut memory.locals, at.instance, local, count)
}

fn blank_local(
    locals: &mut Vec<Store>,
    instance: u32,
    local: u32,
    count: u32,
) -> Result<(), Refusal>
    ensures { OnOk result (locals.new.items ≡ slice_set locals.old.items instance (slice_set (slice_index_or locals.old.items instance []) local (replicate count None))) }
{
    if instance as usize >= locals.len() {
        return Err(Refusal::Unfit);
    }
    locals[instance as usize].blank(local as usize, count as usize)
}

/// Gives an automatic array its numbers, and 0 to the cells behind them.
#[tactic(auto, unfolding(crate::specs::Doing::cells_on, crate::specs::Seen::setting_of))]
pub(crate) fn list(
    memory: &mut Memory,
    at: &Scene,
    local: u32,
    count: u32,
    numbers: &[i64],
) -> Result<(), Refusal>
    ensures { OnOk result (held_of memory.new ≡ doing.cells_on (setting_of at.now) local (execution.listed count numbers.now) (held_of memory.old)) }
{
    list_local(&mut memory.locals, at.instance, local, count, numbers)
}

fn list_local(
    locals: &mut Vec<Store>,
    instance: u32,
    local: u32,
    count: u32,
    numbers: &[i64],
) -> Result<(), Refusal>
    ensures { OnOk result (locals.new.items ≡ slice_set locals.old.items instance (slice_set (slice_index_or locals.old.items instance []) local (execution.listed count numbers.now))) }
{
    if instance as usize >= locals.len() {
        return Err(Refusal::Unfit);
    }
    locals[instance as usize].list(local as usize, count as usize, numbers)
}
