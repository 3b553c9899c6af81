// The weights.
ghost use Rattle.std.specs.Prelude.{◌≡◌, ◌≤◌};
ghost use Rattle.wm_read.specs.Asking.{Bytes, Finds, IsFault, Reads};
ghost use Rattle.wm_read.specs.Files.{weight_fault, weights_asked, weights_from};
ghost use Rattle.wm_read.specs.Seen.{read_of, same};

use crate::fault::{not_toml, read_failed, too_long};
use crate::input::{Input, input_of};
use std::alloc::Global;
use wm_files::Files;
use wm_lang::Name;
use wm_report::RunFault;
use wm_weights::{WeightFault, Weights, all_ones, read_weights};

/// The greatest number of bytes of a weights file.
const LIMIT: u64 = 1_048_576;

/// The refusal for what is wrong with a weights file.
fn weight_fault(alloc: Global, name: &[u8], fault: WeightFault) -> RunFault
    ensures { IsFault result (weight_fault name.now fault) }
{
    match fault {
        WeightFault::NotToml => not_toml(alloc, name),
        WeightFault::BadKey { key } => RunFault::BadKey { key },
        WeightFault::BadNumber { key } => RunFault::BadNumber { key },
        WeightFault::NoMemory => RunFault::Memory,
    }
}

fn weights_of_bytes(alloc: Global, name: &[u8], bytes: &[u8]) -> Result<Weights, RunFault>
    ensures { Finds same result (weights_from name.now (Bytes bytes.now)) }
{
    match read_weights(alloc, bytes) {
        Ok(weights) => Ok(weights),
        Err(fault) => Err(weight_fault(alloc, name, fault)),
    }
}

/// The weights in what was read.
fn weights_of(alloc: Global, name: &[u8], input: Input) -> Result<Weights, RunFault>
    ensures { Finds same result (weights_from name.now (read_of input)) }
{
    match input {
        Input::Bytes(bytes) => weights_of_bytes(alloc, name, &bytes),
        Input::TooLong => Err(too_long(alloc, name)),
        Input::Failed => Err(read_failed(alloc, name)),
    }
}

/// The weights of the file of this name.
fn read_named<F: Files>(alloc: Global, name: &Name, files: &mut F) -> Result<Weights, RunFault>
    ensures given { Reads same (F.held files.old) (F.faults files.old) (F.faults files.new) (weights_asked (Some name.now)) result }
    ensures held { F.held files.new ≡ F.held files.old }
    ensures count { F.faults files.old ≤ F.faults files.new }
{
    match input_of(alloc, name.bytes(), LIMIT, files) {
        Ok(input) => weights_of(alloc, name.bytes(), input),
        Err(_) => Err(RunFault::Memory),
    }
}

/// The weights of the file of this name; without one each word weighs 1.
pub(crate) fn read_weights_file<F: Files>(
    alloc: Global,
    name: &Option<Name>,
    files: &mut F,
) -> Result<Weights, RunFault>
    ensures given { Reads same (F.held files.old) (F.faults files.old) (F.faults files.new) (weights_asked name.now) result }
    ensures held { F.held files.new ≡ F.held files.old }
    ensures count { F.faults files.old ≤ F.faults files.new }
{
    match name {
        Some(name) => read_named(alloc, name, files),
        None => Ok(all_ones()),
    }
}
