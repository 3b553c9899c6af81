// The specification.
ghost use Rattle.std.specs.Prelude.{◌≡◌, ◌≤◌};
ghost use Rattle.wm_program.specs.Settings.{settings_of};
ghost use Rattle.wm_read.specs.Asking.{Bytes, Finds, IsFault, Reads};
ghost use Rattle.wm_read.specs.Files.{settings_from, spec_fault, specification_asked};
ghost use Rattle.wm_read.specs.Seen.{read_of};

use crate::fault::{not_toml, read_failed, too_long};
use crate::input::{Input, input_of};
use std::alloc::Global;
use wm_files::Files;
use wm_program::Spec;
use wm_report::RunFault;
use wm_spec::{SpecFault, read_spec};

/// The greatest number of bytes of a specification.
const LIMIT: u64 = 1_048_576;

/// The refusal for what is wrong with a specification.
fn spec_fault(alloc: Global, name: &[u8], fault: SpecFault) -> RunFault
    ensures { IsFault result (spec_fault name.now fault) }
{
    match fault {
        SpecFault::NotToml => not_toml(alloc, name),
        SpecFault::MissingKey { key } => RunFault::MissingKey { key },
        SpecFault::UnknownKey { key } => RunFault::UnknownKey { key },
        SpecFault::BadValue { key } => RunFault::BadValue { key },
        SpecFault::NoMemory => RunFault::Memory,
    }
}

fn spec_of_bytes(alloc: Global, name: &[u8], bytes: &[u8]) -> Result<Spec, RunFault>
    ensures { Finds settings_of result (settings_from name.now (Bytes bytes.now)) }
{
    match read_spec(alloc, bytes) {
        Ok(spec) => Ok(spec),
        Err(fault) => Err(spec_fault(alloc, name, fault)),
    }
}

/// The specification in what was read.
fn spec_of(alloc: Global, name: &[u8], input: Input) -> Result<Spec, RunFault>
    ensures { Finds settings_of result (settings_from name.now (read_of input)) }
{
    match input {
        Input::Bytes(bytes) => spec_of_bytes(alloc, name, &bytes),
        Input::TooLong => Err(too_long(alloc, name)),
        Input::Failed => Err(read_failed(alloc, name)),
    }
}

/// The specification of this name.
pub(crate) fn read_specification<F: Files>(
    alloc: Global,
    name: &[u8],
    files: &mut F,
) -> Result<Spec, RunFault>
    ensures given { Reads settings_of (F.held files.old) (F.faults files.old) (F.faults files.new) (specification_asked name.now) result }
    ensures held { F.held files.new ≡ F.held files.old }
    ensures count { F.faults files.old ≤ F.faults files.new }
{
    match input_of(alloc, name, LIMIT, files) {
        Ok(input) => spec_of(alloc, name, input),
        Err(_) => Err(RunFault::Memory),
    }
}
