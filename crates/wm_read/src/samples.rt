// The samples.
ghost use Rattle.std.specs.Prelude.{◌≡◌, ◌≤◌};
ghost use Rattle.wm_read.specs.Asking.{Bytes, Finds, IsFault, Reads};
ghost use Rattle.wm_read.specs.Files.{input_name, sample_fault, samples_asked, samples_from};
ghost use Rattle.wm_read.specs.Seen.{read_of};
ghost use Rattle.wm_samples.specs.Seen.{values_of};

use crate::fault::{read_failed, too_long};
use crate::input::{Input, input_of};
use std::alloc::Global;
use wm_files::Files;
use wm_lang::Name;
use wm_program::{Inputs, Program};
use wm_report::RunFault;
use wm_samples::{SampleFault, frames};

/// The greatest number of bytes of a sample file.
const LIMIT: u64 = 16_777_216;

/// The name of an input.
fn input_name(program: &Program, input: u32) -> &[u8]
    ensures { result.now ≡ input_name program.now input }
{
    let Some(input) = program.inputs.items().get(input as usize) else {
        return b"";
    };
    match program.objects.items().get(input.object as usize) {
        Some(object) => object.name.bytes(),
        None => b"",
    }
}

/// The refusal for what is wrong with samples.
fn sample_fault(alloc: Global, program: &Program, fault: SampleFault) -> RunFault
    ensures { IsFault result (sample_fault program.now fault) }
{
    match fault {
        SampleFault::Rest { bytes } => RunFault::Rest { bytes },
        SampleFault::OutOfRange {
            frame,
            input,
            cell,
            value,
        } => match Name::new(alloc, input_name(program, input)) {
            Ok(name) => RunFault::OutOfRange {
                frame,
                name,
                cell,
                value,
            },
            Err(_) => RunFault::Memory,
        },
        SampleFault::NoMemory => RunFault::Memory,
    }
}

fn samples_of_bytes(
    alloc: Global,
    program: &Program,
    name: &[u8],
    bytes: &[u8],
) -> Result<Vec<Inputs>, RunFault>
    ensures { Finds values_of result (samples_from program.now name.now (Bytes bytes.now)) }
{
    // No linked program has so many inputs.
    if program.inputs.items().len() > u32::MAX as usize {
        return Err(RunFault::Memory);
    }
    match frames(alloc, bytes, program) {
        Ok(frames) => Ok(frames),
        Err(fault) => Err(sample_fault(alloc, program, fault)),
    }
}

/// The frames in what was read.
fn samples_of(
    alloc: Global,
    program: &Program,
    name: &[u8],
    input: Input,
) -> Result<Vec<Inputs>, RunFault>
    ensures { Finds values_of result (samples_from program.now name.now (read_of input)) }
{
    match input {
        Input::Bytes(bytes) => samples_of_bytes(alloc, program, name, &bytes),
        Input::TooLong => Err(too_long(alloc, name)),
        Input::Failed => Err(read_failed(alloc, name)),
    }
}

/// The frames of a program in the sample file of this name.
///
/// `ReadFailed`: the file could not be read. `FileTooLong`: it has more than 16 MiB. `Rest`: it ends inside a frame.
/// `OutOfRange`: a number is outside the range of its input. `Memory`: memory ran out.
pub fn read_samples<F: Files>(
    alloc: Global,
    program: &Program,
    name: &[u8],
    files: &mut F,
) -> Result<Vec<Inputs>, RunFault>
    ensures given { Reads values_of (F.held files.old) (F.faults files.old) (F.faults files.new) (samples_asked program.now name.now) result }
    ensures held { F.held files.new ≡ F.held files.old }
    ensures count { F.faults files.old ≤ F.faults files.new }
{
    match input_of(alloc, name, LIMIT, files) {
        Ok(input) => samples_of(alloc, program, name, input),
        Err(_) => Err(RunFault::Memory),
    }
}
