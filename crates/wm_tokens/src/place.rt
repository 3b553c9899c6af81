// Places of faults, with the names of files.
ghost use Rattle.std.specs.Prelude.{◌≡◌, IfOk};
ghost use Rattle.wm_read.specs.Asking.{IsFault};
ghost use Rattle.wm_tokens.specs.Places.{name_in, at_place, at_token};
ghost use Rattle.wm_tokens.specs.Tokens.{placed, at_a_token};
ghost use Rattle.std.specs.Prelude.{slice_get};

use std::alloc::Global;
use wm_lang::{Name, Place, Token};
use wm_ops::NoMemory;
use wm_report::{At, RunFault, SourceName};

/// The name of the source of this number.
fn name_in(names: &[Name], file: u32) -> &[u8]
    ensures { result.now ≡ name_in (slice_get names.now file) }
{
    match names.get(file as usize) {
        Some(name) => name.bytes(),
        None => b"",
    }
}

/// A place with the name of its file.
fn at_place(alloc: Global, names: &[Name], place: Place) -> Result<At, NoMemory>
    ensures { IfOk result (λ at. at ≡ at_place names.now place) }
{
    match Name::new(alloc, name_in(names, place.file)) {
        Ok(file) => Ok(At {
            file,
            line: place.line,
            column: place.column,
        }),
        Err(_) => Err(NoMemory),
    }
}

/// The place of the token of this number; none behind the last token.
pub fn at_token(
    alloc: Global,
    names: &[Name],
    tokens: &[Token],
    number: usize,
) -> Result<Option<At>, NoMemory>
    ensures at { IfOk result (λ at. at ≡ at_token names.now tokens.now number) }
{
    match tokens.get(number) {
        Some(token) => match at_place(alloc, names, token.place) {
            Ok(at) => Ok(Some(at)),
            Err(_) => Err(NoMemory),
        },
        None => Ok(None),
    }
}

/// The refusal for a fault at a place.
pub(crate) fn placed(alloc: Global, names: &[Name], fault: SourceName, place: Place) -> RunFault
    ensures { IsFault result (placed names.now fault place) }
{
    match at_place(alloc, names, place) {
        Ok(at) => RunFault::Source {
            fault,
            at: Some(at),
        },
        Err(_) => RunFault::Memory,
    }
}

/// The refusal for a fault at the token of this number, or behind the last one. `Memory`: memory ran out.
pub fn source_fault(
    alloc: Global,
    names: &[Name],
    tokens: &[Token],
    fault: SourceName,
    token: usize,
) -> RunFault
    ensures fault { IsFault result (at_a_token names.now tokens.now fault token) }
{
    match at_token(alloc, names, tokens, token) {
        Ok(at) => RunFault::Source { fault, at },
        Err(_) => RunFault::Memory,
    }
}
