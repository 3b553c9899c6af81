// States in slim nodes, from what holds of a group and beside it.
ghost use Rattle.std.specs.Prelude.{◌≡◌, ◌+◌, true, length, IfOk, OnOk};
ghost use Rattle.wm_domain.specs.States.{IsSized};

use crate::tables::{Table, cells_at, range_at};
use std::alloc::Global;
use wm_arrays::Summary;
use wm_carry::{Way, carried};
use wm_domain::{Domain, Shape};
use wm_drawn::is_way;
use wm_interval::Interval;
use wm_ops::NoMemory;

pub(crate) fn count_of(shape: &Shape) -> usize
    ensures { result ≡ length shape.now.group + length shape.now.singles }
{
    shape.group.items().len() + shape.singles.items().len()
}

/// Whether the ends of a range are below 2^50 in size, as all ranges of variables are.
fn is_sized(r: Interval) -> bool
    ensures { result ≡ true → IsSized r }
{
    if r.low <= -1_125_899_906_842_624 {
        return false;
    }
    r.high < 1_125_899_906_842_624
}

/// Gives a variable a range.
pub(crate) fn set_range<D: Domain>(
    shape: &Shape,
    state: &mut D,
    v: usize,
    range: Interval,
) -> Result<(), NoMemory>
    requires shape { D.shape_of state.old ≡ shape.now }
    ensures shape { OnOk result (D.shape_of state.new ≡ shape.now) }
{
    if v >= count_of(shape) || v > 4_294_967_295 {
        return Err(NoMemory);
    }
    if !is_sized(range) {
        return Err(NoMemory);
    }
    state.assign_range(v as u32, range);
    Ok(())
}

/// Gives an array what its cells hold.
pub(crate) fn set_cells<D: Domain>(
    shape: &Shape,
    state: &mut D,
    a: usize,
    summary: Summary,
) -> Result<(), NoMemory>
    requires shape { D.shape_of state.old ≡ shape.now }
    ensures shape { OnOk result (D.shape_of state.new ≡ shape.now) }
{
    if a >= shape.arrays.items().len() || a > 4_294_967_295 {
        return Err(NoMemory);
    }
    state.set_array(a as u32, summary);
    Ok(())
}

/// The range of a variable.
fn range_in<D: Domain>(shape: &Shape, state: &D, v: usize) -> Result<Interval, NoMemory>
    requires shape { D.shape_of state.now ≡ shape.now }
{
    if v >= count_of(shape) || v > 4_294_967_295 {
        return Err(NoMemory);
    }
    match state.range(v as u32) {
        None => Err(NoMemory),
        Some(range) => Ok(range),
    }
}

fn cells_in<D: Domain>(shape: &Shape, state: &D, a: usize) -> Result<Summary, NoMemory>
    requires shape { D.shape_of state.now ≡ shape.now }
{
    if a >= shape.arrays.items().len() || a > 4_294_967_295 {
        return Err(NoMemory);
    }
    match state.array(a as u32) {
        None => Err(NoMemory),
        Some(summary) => Ok(summary),
    }
}

/// The ranges of the singles.
pub(crate) fn ranges_in<D: Domain>(
    alloc: Global,
    shape: &Shape,
    state: &D,
) -> Result<Vec<Interval>, NoMemory>
    requires shape { D.shape_of state.now ≡ shape.now }
{
    let first = shape.group.items().len();
    let mut ranges = Vec::new(alloc);
    for rank in 0..shape.singles.items().len() {
        ranges.push(range_in(shape, state, first.saturating_add(rank))?)?;
    }
    Ok(ranges)
}

/// What the cells of the arrays hold.
pub(crate) fn all_cells_in<D: Domain>(
    alloc: Global,
    shape: &Shape,
    state: &D,
) -> Result<Vec<Summary>, NoMemory>
    requires shape { D.shape_of state.now ≡ shape.now }
{
    let mut cells = Vec::new(alloc);
    for array in 0..shape.arrays.items().len() {
        cells.push(cells_in(shape, state, array)?)?;
    }
    Ok(cells)
}

/// The state of another shape with the same group.
pub(crate) fn moved<D: Domain>(
    alloc: Global,
    source: &Shape,
    target: &Shape,
    state: &D,
) -> Result<D, NoMemory>
    requires shape { D.shape_of state.now ≡ source.now }
    ensures shape { IfOk result (λ s. D.shape_of s ≡ target.now) }
{
    if !is_way(source, target) {
        return Err(NoMemory);
    }
    let way = Way {
        alloc,
        source,
        target,
    };
    carried(&way, state)
}

/// Gives the first singles these ranges.
pub(crate) fn set_ranges<D: Domain>(
    shape: &Shape,
    state: &mut D,
    ranges: &[Interval],
) -> Result<(), NoMemory>
    requires shape { D.shape_of state.old ≡ shape.now }
    ensures shape { OnOk result (D.shape_of state.new ≡ shape.now) }
{
    let first = shape.group.items().len();
    for rank in 0..ranges.len() {
        set_range(shape, state, first.saturating_add(rank), ranges[rank])?;
    }
    Ok(())
}

/// Gives the first arrays what their cells hold.
pub(crate) fn set_all_cells<D: Domain>(
    shape: &Shape,
    state: &mut D,
    cells: &[Summary],
) -> Result<(), NoMemory>
    requires shape { D.shape_of state.old ≡ shape.now }
    ensures shape { OnOk result (D.shape_of state.new ≡ shape.now) }
{
    for array in 0..cells.len() {
        set_cells(shape, state, array, cells[array])?;
    }
    Ok(())
}

/// The ranges of these ranks.
pub(crate) fn named_ranges(
    ranges: &mut Vec<Interval>,
    table: &Table,
    ranks: &[u32],
) -> Result<(), NoMemory> {
    for rank in ranks {
        ranges.push(range_at(table.ranges.as_slice(), *rank)?)?;
    }
    Ok(())
}

/// What the cells of these arrays hold.
pub(crate) fn named_cells(
    cells: &mut Vec<Summary>,
    table: &Table,
    arrays: &[u32],
) -> Result<(), NoMemory> {
    for array in arrays {
        cells.push(cells_at(table.cells.as_slice(), *array)?)?;
    }
    Ok(())
}
