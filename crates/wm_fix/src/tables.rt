// The ranges of the variables behind the group and what the cells of the arrays hold, at one node. They stand in no relation to
// anything, so they are kept beside the group.
use std::alloc::Global;
use wm_arrays::Summary;
use wm_domain::Shape;
use wm_grid::Grid;
use wm_interval::Interval;
use wm_ops::NoMemory;

/// By rank the ranges, and by number the arrays.
#[derive(Drop)]
pub(crate) struct Table {
    pub ranges: Vec<Interval>,
    pub cells: Vec<Summary>,
}

pub(crate) fn copied(alloc: Global, table: &Table) -> Result<Table, NoMemory> {
    Ok(Table {
        ranges: Vec::from_slice(alloc, table.ranges.as_slice())?,
        cells: Vec::from_slice(alloc, table.cells.as_slice())?,
    })
}

pub(crate) fn range_at(ranges: &[Interval], rank: u32) -> Result<Interval, NoMemory> {
    match ranges.get(rank as usize) {
        None => Err(NoMemory),
        Some(range) => Ok(*range),
    }
}

pub(crate) fn cells_at(cells: &[Summary], array: u32) -> Result<Summary, NoMemory> {
    match cells.get(array as usize) {
        None => Err(NoMemory),
        Some(summary) => Ok(*summary),
    }
}

pub(crate) fn set_range(table: &mut Table, rank: u32, range: Interval) {
    let place = rank as usize;
    if place < table.ranges.len() {
        table.ranges[place] = range;
    }
}

pub(crate) fn set_cells(table: &mut Table, array: u32, summary: Summary) {
    let place = array as usize;
    if place < table.cells.len() {
        table.cells[place] = summary;
    }
}

fn extend_ranges(ranges: &mut Vec<Interval>, full: &[Interval]) -> Result<(), NoMemory> {
    if ranges.len() < full.len() {
        let old = ranges.len();
        ranges.extend_from_slice(&full[old..])?;
    }
    Ok(())
}

fn extend_cells(cells: &mut Vec<Summary>, count: usize) -> Result<(), NoMemory> {
    for _array in cells.len()..count {
        cells.push(Summary::Empty)?;
    }
    Ok(())
}

/// The same at a node of a shape: what it has not is dropped, and what it alone has may be any, with no cell set.
pub(crate) fn fit(table: &mut Table, shape: &Shape) -> Result<(), NoMemory> {
    table.ranges.truncate(shape.singles.items().len());
    table.cells.truncate(shape.arrays.items().len());
    extend_ranges(&mut table.ranges, shape.singles.items())?;
    extend_cells(&mut table.cells, shape.arrays.items().len())
}

/// Joins the ranges and the cells of another of the same shape.
pub(crate) fn join(table: &mut Table, other: &Table) {
    if table.ranges.len() != other.ranges.len() || table.cells.len() != other.cells.len() {
        return;
    }
    for rank in 0..other.ranges.len() {
        table.ranges[rank] = table.ranges[rank].join(other.ranges[rank]);
    }
    for array in 0..other.cells.len() {
        table.cells[array] = table.cells[array].join(other.cells[array]);
    }
}

fn ranges_within(ranges: &[Interval], others: &[Interval]) -> bool {
    if ranges.len() != others.len() {
        return false;
    }
    for rank in 0..ranges.len() {
        if !ranges[rank].within(others[rank]) {
            return false;
        }
    }
    true
}

fn cells_within(cells: &[Summary], others: &[Summary]) -> bool {
    if cells.len() != others.len() {
        return false;
    }
    for array in 0..cells.len() {
        if !cells[array].within(others[array]) {
            return false;
        }
    }
    true
}

/// Whether each range and all cells lie within those of another of the same shape.
pub(crate) fn is_within(table: &Table, other: &Table) -> bool {
    ranges_within(table.ranges.as_slice(), other.ranges.as_slice())
        && cells_within(table.cells.as_slice(), other.cells.as_slice())
}

/// The least range between numbers of the grid, or ends of the full range, that holds another.
fn rounded_range(grid: &Grid, full: Interval, range: Interval) -> Interval {
    let low = match grid.down(range.low) {
        None => full,
        Some(low) => Interval::new(low, low),
    };
    let high = match grid.up(range.high) {
        None => full,
        Some(high) => Interval::new(high, high),
    };
    match low.join(range).join(high).meet(full) {
        None => full,
        Some(rounded) => rounded,
    }
}

fn rounded_cells(grid: &Grid, full: Interval, cells: Summary) -> Summary {
    match cells {
        Summary::Empty => Summary::Empty,
        Summary::Range(range) => Summary::Range(rounded_range(grid, full, range)),
    }
}

/// Each range and all cells on the grid.
pub(crate) fn round(grid: &Grid, shape: &Shape, table: &mut Table) {
    let singles = shape.singles.items();
    for rank in 0..table.ranges.len() {
        if rank < singles.len() {
            table.ranges[rank] = rounded_range(grid, singles[rank], table.ranges[rank]);
        }
    }
    let arrays = shape.arrays.items();
    for array in 0..table.cells.len() {
        if array < arrays.len() {
            table.cells[array] = rounded_cells(grid, arrays[array], table.cells[array]);
        }
    }
}

/// Raises the table of a head to the grid until it holds another. False where it holds it already.
pub(crate) fn raise(
    grid: &Grid,
    shape: &Shape,
    held: &mut Option<Table>,
    mut table: Table,
) -> bool {
    match held {
        None => {}
        Some(old) => {
            if is_within(&table, old) {
                return false;
            }
            join(&mut table, old);
        }
    }
    round(grid, shape, &mut table);
    *held = Some(table);
    true
}

/// Joins a table to one that there may be.
pub(crate) fn joined(held: Option<Table>, table: Table) -> Table {
    match held {
        None => table,
        Some(mut old) => {
            join(&mut old, &table);
            old
        }
    }
}

/// Whether one of two tables that there may be lies within the other.
pub(crate) fn is_below(table: &Option<Table>, other: &Option<Table>) -> bool {
    match table {
        None => true,
        Some(table) => match other {
            None => false,
            Some(other) => is_within(table, other),
        },
    }
}
