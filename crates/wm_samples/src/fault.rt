// What can be wrong with a sample file.
use wm_ops::NoMemory;

/// Why a sample file gave no frames.
#[derive(Drop)]
pub enum SampleFault {
    /// This many bytes are left over behind the last whole frame; without inputs all bytes are.
    Rest {
        bytes: u64,
    },
    /// The first cell, in the order of the file, whose number is outside the range of its input. Frame,
    /// input and cell count from 0.
    OutOfRange {
        frame: u64,
        input: u32,
        cell: u32,
        value: i64,
    },
    /// Memory ran out.
    NoMemory,
}

impl From<NoMemory> for SampleFault {
    ghost use Rattle.std.specs.Prelude.{◌≡◌};
    ghost use Rattle.wm_samples.specs.declared.fault.SampleFault.TheVariants.{NoMemory};

    ghost from_gives = { λ _ fault. fault ≡ NoMemory };

    fn from(_refused: NoMemory) -> SampleFault {
        SampleFault::NoMemory
    }
}
