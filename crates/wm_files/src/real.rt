// The files and the standard output of the system, which tell no content: the trusted edge of the product.
ghost use Rattle.std.specs.Prelude.{◌≡◌, ◌≤◌, None, OnErr};
ghost use Rattle.wm_files.specs.Outside.{Rose};
ghost use Rattle.wm_files.specs.Whole.{ReadsAll, WritesAll};

use crate::plan::one_more;
use crate::{Files, ReadFault, Sink, WriteFault};
use std::alloc::Global;
use std::fs::File;
use std::io::{Print, Read, Write};
use std::{io, rt, str};

/// The files of the system, as the runtime `R` reaches them. They tell no content.
#[derive(Drop)]
pub struct RealFiles<R> {
    system: R,
    faults: u64,
}

impl<R: rt::Files> RealFiles<R> {
    /// Files that have not failed yet.
    pub fn new(system: R) -> RealFiles<R> {
        RealFiles { system, faults: 0 }
    }
}

impl<R: rt::Files> Files for RealFiles<R> {
    ghost held = { λ _. None };

    ghost faults = { λ files. files.faults };

    /// `Failed` also for a missing file, and for a name that is not UTF-8.
    fn read(&mut self, alloc: Global, name: &[u8], limit: u64) -> Result<Vec<u8>, ReadFault> {
        match read_file(&self.system, alloc, name, limit) {
            Err(ReadFault::Failed) => {
                self.faults = one_more(self.faults);
                Err(ReadFault::Failed)
            }
            answer => answer,
        }
    }

    /// `Failed` also for a name that is not UTF-8.
    fn write(&mut self, name: &[u8], bytes: &[u8]) -> Result<(), WriteFault> {
        let answer = write_file(&self.system, name, bytes);
        if answer.is_err() {
            self.faults = one_more(self.faults);
        }
        answer
    }
}

/// The standard output, as the runtime `R` reaches it. It tells no content.
#[derive(Drop)]
pub struct RealOut<R> {
    system: R,
    faults: u64,
}

impl<R: Print> RealOut<R> {
    /// An output that has not failed yet.
    pub fn new(system: R) -> RealOut<R> {
        RealOut { system, faults: 0 }
    }
}

impl<R: Print> Sink for RealOut<R> {
    ghost written = { λ _. None };

    ghost faults = { λ out. out.faults };

    fn put(&mut self, bytes: &[u8]) -> Result<(), WriteFault> {
        let answer = write_whole(&mut io::writer(&self.system), bytes);
        if answer.is_err() {
            self.faults = one_more(self.faults);
        }
        answer
    }
}

/// The bytes of a file, at most `limit` of them.
fn read_file<R: rt::Files>(
    system: &R,
    alloc: Global,
    name: &[u8],
    limit: u64,
) -> Result<Vec<u8>, ReadFault>
    ensures { ReadsAll None limit result }
{
    let Ok(path) = str::from_utf8(name) else {
        return Err(ReadFault::Failed);
    };
    match File::open(system, path) {
        Ok(mut file) => read_whole(&mut file, alloc, limit),
        Err(_) => Err(ReadFault::Failed),
    }
}

/// Makes a file hold these bytes.
fn write_file<R: rt::Files>(system: &R, name: &[u8], bytes: &[u8]) -> Result<(), WriteFault>
    ensures { OnErr result (result ≡ Err WriteFault.Failed) }
{
    let Ok(path) = str::from_utf8(name) else {
        return Err(WriteFault::Failed);
    };
    match File::create(system, path) {
        Ok(mut file) => write_whole(&mut file, bytes),
        Err(_) => Err(WriteFault::Failed),
    }
}

const PIECE: usize = 8192;

/// All that a source has left, where that is at most `limit` bytes. A source that gives no byte is at
/// its end.
pub(crate) fn read_whole<S: Read>(
    source: &mut S,
    alloc: Global,
    limit: u64,
) -> Result<Vec<u8>, ReadFault>
    ensures { ReadsAll (S.remaining source.old) limit result }
{
    let mut bytes = Vec::new(alloc);
    let mut piece = [0u8; PIECE];
    while bytes.len() as u64 <= limit {
        match source.read(&mut piece) {
            Ok(0) => return Ok(bytes),
            Ok(taken) => match bytes.extend_from_slice(&piece[..taken]) {
                Ok(()) => {}
                Err(_) => return Err(ReadFault::NoMemory),
            },
            Err(_) => return Err(ReadFault::Failed),
        }
    }
    Err(ReadFault::TooLong)
}

/// Writes all of the bytes. A writer that takes none of a piece has failed.
pub(crate) fn write_whole<W: Write>(to: &mut W, bytes: &[u8]) -> Result<(), WriteFault>
    ensures { WritesAll (W.contents to.old) (W.contents to.new) bytes.now result }
{
    let mut rest = bytes;
    while !rest.is_empty() {
        match to.write(rest) {
            Ok(0) => return Err(WriteFault::Failed),
            Ok(taken) => rest = &rest[taken..],
            Err(_) => return Err(WriteFault::Failed),
        }
    }
    Ok(())
}
