// Tokens of the sources.
ghost use Rattle.std.specs.Prelude.{All};
ghost use Rattle.wm_read.specs.Asking.{Finds, IsFault};
ghost use Rattle.wm_read.specs.Given.{IsText};
ghost use Rattle.wm_read.specs.Seen.{texts_of};
ghost use Rattle.wm_tokens.specs.Tokens.{items_of, lex_fault, tokens_in};

use crate::place::placed;
use std::alloc::Global;
use wm_lang::{Name, Token};
use wm_lex::{LexFault, lex};
use wm_report::{RunFault, SourceName};

/// The refusal for what is wrong with the texts.
fn lex_fault(alloc: Global, names: &[Name], fault: LexFault) -> RunFault
    ensures { IsFault result (lex_fault names.now fault) }
{
    match fault {
        LexFault::BadByte { place } => placed(alloc, names, SourceName::BadByte, place),
        LexFault::OpenComment { place } => placed(alloc, names, SourceName::OpenComment, place),
        LexFault::BadNumber { place } => placed(alloc, names, SourceName::BadNumber, place),
        LexFault::BadDirective { place } => placed(alloc, names, SourceName::BadDirective, place),
        LexFault::MacroLoop { place } => placed(alloc, names, SourceName::MacroLoop, place),
        LexFault::TooManyTokens { place } => placed(alloc, names, SourceName::TooManyTokens, place),
        LexFault::NoMemory => RunFault::Memory,
    }
}

/// The tokens of the sources of these names.
///
/// `Source`: the first fault of the texts by file, line and column, with its place. `Memory`: memory ran out.
#[tactic(auto, unfolding(crate::specs::Tokens::tokens_in))]
pub fn read_tokens(alloc: Global, names: &[Name], texts: &[Vec<u8>]) -> Result<Vec<Token>, RunFault>
    requires short { All IsText texts.now }
    ensures tokens { Finds items_of result (tokens_in names.now (texts_of texts.now)) }
{
    // No specification names so many sources.
    if texts.len() > u32::MAX as usize {
        return Err(RunFault::Memory);
    }
    match lex(alloc, texts) {
        Ok(tokens) => Ok(tokens),
        Err(fault) => Err(lex_fault(alloc, names, fault)),
    }
}
