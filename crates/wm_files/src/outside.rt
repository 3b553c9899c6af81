// The world outside as the product sees it: files by name, a sink for its text, and how each can fail.
ghost use Rattle.std.specs.Prelude.{◌≡◌, ◌≤◌, ℕ, List, Option};
ghost use Rattle.wm_files.specs.Outside.{Held, Reads, Writes, Puts};

use std::alloc::Global;
use thiserror::Error;

/// Why a read gave no bytes.
#[derive(Clone, Copy, Debug, PartialEq, Eq, Error)]
pub enum ReadFault {
    /// The object tells what it holds, and does not hold the name.
    #[error("the name is not held")]
    NotHeld,
    /// The world outside failed, and the count of faults rose.
    #[error("the read failed")]
    Failed,
    /// More bytes are held than the limit of the read.
    #[error("more bytes are held than may be read")]
    TooLong,
    /// Memory ran out.
    #[error("memory ran out")]
    NoMemory,
}

/// Why a write or a put was not done whole.
#[derive(Clone, Copy, Debug, PartialEq, Eq, Error)]
pub enum WriteFault {
    /// The world outside failed, and the count of faults rose.
    #[error("the write failed")]
    Failed,
    /// Memory ran out.
    #[error("memory ran out")]
    NoMemory,
}

/// Files by name. An object may tell what it holds, as one in memory does, or not, as a real folder.
pub trait Files {
    /// The bytes under each name, where the object tells them.
    ghost held: { Self → Option Held };

    /// How often the world outside has failed: a count of 64 bits that stays at its greatest number.
    ghost faults: { Self → ℕ };

    /// The bytes under the name, at most `limit` of them.
    ///
    /// `NotHeld`: the object tells what it holds and does not hold the name. `Failed`: the count of
    /// faults rose in this call. `TooLong`: more than `limit` bytes are held. `NoMemory`: memory ran out.
    fn read(&mut self, alloc: Global, name: &[u8], limit: u64) -> Result<Vec<u8>, ReadFault>
        ensures answer { Reads (held self.old) name.now limit (faults self.old) (faults self.new) result }
        ensures held { held self.new ≡ held self.old }
        ensures count { faults self.old ≤ faults self.new };

    /// Makes the name hold exactly these bytes. Other names keep theirs, whatever the answer is.
    ///
    /// `Failed`: the count of faults rose, and the name holds a prefix of the bytes or what it held.
    /// `NoMemory`: memory ran out, and the name holds what it held.
    fn write(&mut self, name: &[u8], bytes: &[u8]) -> Result<(), WriteFault>
        ensures answer { Writes (held self.old) (held self.new) name.now bytes.now (faults self.old) (faults self.new) result }
        ensures count { faults self.old ≤ faults self.new };
}

/// A place to write to. It may tell what was written, as one in memory does, or not, as a terminal.
pub trait Sink {
    /// What was written, where the object tells it.
    ghost written: { Self → Option (List ℕ) };

    /// How often the world outside has failed: a count of 64 bits that stays at its greatest number.
    ghost faults: { Self → ℕ };

    /// Writes exactly these bytes after what was written.
    ///
    /// `Failed`: the count of faults rose, and a prefix of the bytes was written. `NoMemory`: memory
    /// ran out, and nothing was written.
    fn put(&mut self, bytes: &[u8]) -> Result<(), WriteFault>
        ensures answer { Puts (written self.old) (written self.new) bytes.now (faults self.old) (faults self.new) result }
        ensures count { faults self.old ≤ faults self.new };
}
