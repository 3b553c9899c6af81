// One read of a file.
ghost use Rattle.std.specs.Prelude.{◌≡◌, ◌≤◌, IfOk};
ghost use Rattle.wm_read.specs.Asking.{ReadGives};
ghost use Rattle.wm_read.specs.Seen.{read_of};

use std::alloc::Global;
use wm_files::{Files, ReadFault};
use wm_ops::NoMemory;

/// What a read gave.
#[derive(Drop)]
pub(crate) enum Input {
    Bytes(Vec<u8>),
    /// More bytes are held than the limit.
    TooLong,
    /// The name is not held, or the world outside failed.
    Failed,
}

/// What is under a name, at most so many bytes.
pub(crate) fn input_of<F: Files>(
    alloc: Global,
    name: &[u8],
    limit: u64,
    files: &mut F,
) -> Result<Input, NoMemory>
    ensures given { IfOk result (λ input. ReadGives (F.held files.old) (F.faults files.old) (F.faults files.new) name.now limit (read_of input)) }
    ensures held { F.held files.new ≡ F.held files.old }
    ensures count { F.faults files.old ≤ F.faults files.new }
{
    match files.read(alloc, name, limit) {
        Ok(bytes) => Ok(Input::Bytes(bytes)),
        Err(ReadFault::NotHeld) => Ok(Input::Failed),
        Err(ReadFault::Failed) => Ok(Input::Failed),
        Err(ReadFault::TooLong) => Ok(Input::TooLong),
        Err(ReadFault::NoMemory) => Err(NoMemory),
    }
}
