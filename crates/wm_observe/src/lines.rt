// What is seen of objects.
ghost use Rattle.std.specs.Prelude.{◌≡◌, ◌<◌, ◌||◌, length, map, slice_index_or, IfOk};
ghost use Rattle.wm_arrays.specs.declared.state_line.StateLine.{StateLine};
ghost use Rattle.wm_arrays.specs.Ends.{ends_of};
ghost use Rattle.wm_interp.specs.Standing.{stand_of};
ghost use Rattle.wm_observe.specs.Lines.{line_of, lines_of, line_for, looked_at, unseen_from, with_cell, with_cells};
ghost use Rattle.wm_observe.specs.Standing.{objects_in};

use std::alloc::Global;
use wm_arrays::{StateLine, Summary};
use wm_interp::Machine;
use wm_interval::Interval;
use wm_ops::NoMemory;
use wm_program::ObjectInfo;

fn with_cell(summary: Summary, cell: Option<i64>) -> Summary
    ensures { ends_of result ≡ with_cell (ends_of summary) cell }
{
    match cell {
        None => summary,
        Some(number) => summary.join(Summary::Range(Interval::new(number, number))),
    }
}

fn with_cells(summary: Summary, cells: &[Option<i64>]) -> Summary
    ensures { ends_of result ≡ with_cells (ends_of summary) cells.now }
{
    let mut found = summary;
    for cell in cells {
        found = with_cell(found, *cell);
    }
    found
}

/// The line with the cells of its object as they stand.
fn looked_at(line: StateLine, machine: &Machine<'_>) -> StateLine
    ensures { line_of result ≡ looked_at (objects_in (stand_of machine.now)) (line_of line) }
{
    match machine.cells(line.object) {
        None => line,
        Some(cells) => StateLine {
            object: line.object,
            summary: with_cells(line.summary, cells),
        },
    }
}

fn line_at(lines: &Vec<StateLine>, k: usize) -> StateLine
    requires { k < length lines.now.items }
    ensures { (d : StateLine) → result ≡ slice_index_or lines.now.items k d }
{
    lines[k]
}

/// Looks at the cells of all objects that have a line.
pub fn look(lines: &mut Vec<StateLine>, machine: &Machine<'_>)
    ensures { lines_of lines.new.items ≡ map (looked_at (objects_in (stand_of machine.now))) (lines_of lines.old.items) }
{
    for k in 0..lines.len() {
        let line = line_at(lines, k);
        lines[k] = looked_at(line, machine);
    }
}

/// Whether nothing is told of an object: it is const or an input.
fn is_untold(object: &ObjectInfo) -> bool
    ensures { result ≡ (object.now.constant || object.now.input) }
{
    object.constant || object.input
}

/// A line for each object that has one, with nothing seen.
pub fn no_lines(alloc: Global, objects: &[ObjectInfo]) -> Result<Vec<StateLine>, NoMemory>
    ensures { IfOk result (λ lines. lines_of lines.items ≡ unseen_from 0 objects.now) }
{
    let mut lines = Vec::new(alloc);
    if objects.len() > u32::MAX as usize {
        return Err(NoMemory);
    }
    for number in 0..objects.len() {
        if !is_untold(&objects[number]) {
            lines.push(StateLine {
                object: number as u32,
                summary: Summary::Empty,
            })?;
        }
    }
    Ok(lines)
}
