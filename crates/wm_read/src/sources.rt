// The source files, which have one limit together.
ghost use Rattle.std.specs.Prelude.{◌≡◌, ◌≤◌, IfOk, vec_len, All};
ghost use Rattle.wm_read.specs.Asking.{Bytes, Finds, Reads};
ghost use Rattle.wm_read.specs.Files.{source_asked, source_from, sources_asked};
ghost use Rattle.wm_read.specs.Given.{IsText, sources_of};
ghost use Rattle.wm_read.specs.Seen.{bytes_of, read_of};

use crate::fault::read_failed;
use crate::input::{Input, input_of};
use std::alloc::Global;
use wm_files::Files;
use wm_lang::Name;
use wm_report::RunFault;

/// The greatest number of bytes of all sources together.
const LIMIT: u64 = 4_194_304;

/// The text in what was read.
fn source_of(alloc: Global, name: &[u8], input: Input) -> Result<Vec<u8>, RunFault>
    ensures found { Finds bytes_of result (source_from name.now (read_of input)) }
    ensures text { IfOk result (λ text. Bytes text.items ≡ read_of input) }
{
    match input {
        Input::Bytes(text) => Ok(text),
        Input::TooLong => Err(RunFault::SourcesTooLong),
        Input::Failed => Err(read_failed(alloc, name)),
    }
}

/// The source of this name, for which so much room is left.
fn read_source<F: Files>(
    alloc: Global,
    name: &[u8],
    room: u64,
    files: &mut F,
) -> Result<Vec<u8>, RunFault>
    ensures given { Reads bytes_of (F.held files.old) (F.faults files.old) (F.faults files.new) (source_asked room name.now) result }
    ensures short { IfOk result (λ text. vec_len text ≤ room) }
    ensures held { F.held files.new ≡ F.held files.old }
    ensures count { F.faults files.old ≤ F.faults files.new }
{
    match input_of(alloc, name, room, files) {
        Ok(input) => source_of(alloc, name, input),
        Err(_) => Err(RunFault::Memory),
    }
}

/// The sources of these names. Each may have as many bytes as those before it left of the limit.
pub(crate) fn read_sources<F: Files>(
    alloc: Global,
    names: &[Name],
    files: &mut F,
) -> Result<Vec<Vec<u8>>, RunFault>
    ensures given { Reads sources_of (F.held files.old) (F.faults files.old) (F.faults files.new) (sources_asked names.now) result }
    ensures short { IfOk result (λ texts. All IsText texts.items) }
    ensures held { F.held files.new ≡ F.held files.old }
    ensures count { F.faults files.old ≤ F.faults files.new }
{
    let mut texts = Vec::new(alloc);
    let mut room = LIMIT;
    for name in names {
        match read_source(alloc, name.bytes(), room, files) {
            Ok(text) => {
                room -= text.len() as u64;
                match texts.push(text) {
                    Ok(()) => {}
                    Err(_) => return Err(RunFault::Memory),
                }
            }
            Err(fault) => return Err(fault),
        }
    }
    Ok(texts)
}
