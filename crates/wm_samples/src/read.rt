// Reads a sample file: frame by frame, in each the inputs, in each the cells.
ghost use Rattle.std.specs.Prelude.{◌≡◌, ◌^◌, ◌<◌, ◌&&◌, [], length, int_le};
ghost use Rattle.wm_samples.specs.Cells.{form_seen};
ghost use Rattle.wm_samples.specs.Form.{forms_of, frame_bytes};
ghost use Rattle.wm_samples.specs.Samples.{frames_of, count_of, read_frames, read_inputs, read_cells};
ghost use Rattle.wm_samples.specs.Seen.{Gives, GivesState, values_of};

use crate::cells::{InputCells, cells_of, frame_bytes};
use crate::fault::SampleFault;
use crate::numbers::{behind, bytes_of, number_in};
use std::alloc::Global;
use wm_interval::Interval;
use wm_ops::List;
use wm_program::{Inputs, Program};

/// The frames of a sample file. They follow each other; each has the inputs in the program's order, cell
/// by cell, a cell of 16 bits in two bytes and one of 32 bits in four, least byte first, in two's
/// complement.
///
/// `Rest` is looked at first. There are fewer than 2^32 inputs.
pub fn frames(alloc: Global, bytes: &[u8], program: &Program) -> Result<Vec<Inputs>, SampleFault>
    requires few { length program.now.inputs < 2 ^ 32 }
    ensures frames { Gives values_of result (frames_of (forms_of program.now) bytes.now) }
{
    match count_frames(bytes, program) {
        Ok(count) => read_frames(alloc, count, bytes, program),
        Err(fault) => Err(fault),
    }
}

/// How many frames of the program the bytes are.
fn count_frames(bytes: &[u8], program: &Program) -> Result<u64, SampleFault>
    ensures count { Gives (λ count. count) result (count_of (frame_bytes (forms_of program.now)) (length bytes.now)) }
{
    frame_count(bytes.len() as u64, frame_bytes(program))
}

/// How many frames there are of a size, in bytes.
fn frame_count(bytes: u64, size: u64) -> Result<u64, SampleFault>
    ensures { Gives (λ count. count) result (count_of size bytes) }
{
    let rest = if size == 0 { bytes } else { bytes % size };
    if rest > 0 {
        return Err(SampleFault::Rest { bytes: rest });
    }
    if size == 0 {
        return Ok(0);
    }
    Ok(bytes / size)
}

/// The first `count` frames of the bytes.
#[tactic(auto, using(crate::proofs::Steps::next_frame))]
fn read_frames(
    alloc: Global,
    count: u64,
    bytes: &[u8],
    program: &Program,
) -> Result<Vec<Inputs>, SampleFault>
    requires few { length program.now.inputs < 2 ^ 32 }
    ensures frames { Gives values_of result (read_frames count (forms_of program.now) 0 [] bytes.now) }
{
    let mut frames = Vec::new(alloc);
    let mut rest = bytes;
    for frame in 0..count {
        let mut values = List::new(alloc);
        match read_inputs(frame, rest, program, &mut values) {
            Ok(left) => rest = left,
            Err(fault) => return Err(fault),
        }
        match frames.push(Inputs { values }) {
            Ok(()) => {}
            Err(_) => return Err(SampleFault::NoMemory),
        }
    }
    Ok(frames)
}

/// Reads the inputs of a frame, and gives the bytes behind them.
fn read_inputs<'b>(
    frame: u64,
    bytes: &'b [u8],
    program: &Program,
    values: &mut List<i64>,
) -> Result<&'b [u8], SampleFault>
    requires few { length program.now.inputs < 2 ^ 32 }
    ensures state { GivesState result values.new (read_inputs (forms_of program.now) frame 0 (values.old, bytes.now)) }
{
    let inputs = program.inputs.items();
    let mut rest = bytes;
    for (number, input) in inputs.iter().enumerate() {
        let cells = cells_of(program, *input);
        match read_cells(frame, number as u32, cells, rest, values) {
            Ok(left) => rest = left,
            Err(fault) => return Err(fault),
        }
    }
    Ok(rest)
}

/// Reads the cells of an input, and gives the bytes behind them.
#[tactic(auto, using(crate::proofs::Steps::next_cell))]
fn read_cells<'b>(
    frame: u64,
    input: u32,
    cells: InputCells,
    bytes: &'b [u8],
    values: &mut List<i64>,
) -> Result<&'b [u8], SampleFault>
    ensures state { GivesState result values.new (read_cells cells.count frame input 0 (form_seen cells) (values.old, bytes.now)) }
{
    let mut rest = bytes;
    for cell in 0..cells.count {
        let value = number_in(cells.width, rest);
        if !lies_in(value, cells.range) {
            return Err(SampleFault::OutOfRange {
                frame,
                input,
                cell,
                value,
            });
        }
        if values.push(value).is_err() {
            return Err(SampleFault::NoMemory);
        }
        rest = behind(rest, bytes_of(cells.width));
    }
    Ok(rest)
}

/// Whether a number lies in a range.
fn lies_in(number: i64, range: Interval) -> bool
    ensures { result ≡ (int_le range.low number && int_le number range.high) }
{
    range.low <= number && number <= range.high
}
