// The faults of names, kinds and limits as refusals of the call.
ghost use Rattle.wm_read.specs.Asking.{IsFault};
ghost use Rattle.wm_report.specs.declared.fault.RunFault.TheVariants.{TooMany};
ghost use Rattle.wm_tokens.specs.Places.{at_token};
ghost use Rattle.wm_tokens.specs.Tokens.{link_fault};

use crate::place::{at_token, source_fault};
use std::alloc::Global;
use wm_lang::{Name, Token};
use wm_program::{LinkFault, What};
use wm_report::{RunFault, SourceName};

/// The refusal for too many of something at a token.
fn too_many_at(
    alloc: Global,
    names: &[Name],
    tokens: &[Token],
    what: What,
    token: usize,
) -> RunFault
    ensures { IsFault result (TooMany what (at_token names.now tokens.now token)) }
{
    match at_token(alloc, names, tokens, token) {
        Ok(at) => RunFault::TooMany { what, at },
        Err(_) => RunFault::Memory,
    }
}

/// The refusal for what a linker refuses: at its token where it has one. `Memory`: memory ran out.
pub fn link_fault(alloc: Global, names: &[Name], tokens: &[Token], fault: LinkFault) -> RunFault
    ensures fault { IsFault result (link_fault names.now tokens.now fault) }
{
    match fault {
        LinkFault::UnknownName { token } => {
            source_fault(alloc, names, tokens, SourceName::UnknownName, token)
        }
        LinkFault::Redefined { token } => {
            source_fault(alloc, names, tokens, SourceName::Redefined, token)
        }
        LinkFault::WrongKind { token } => {
            source_fault(alloc, names, tokens, SourceName::WrongKind, token)
        }
        LinkFault::WrongCount { token } => {
            source_fault(alloc, names, tokens, SourceName::WrongCount, token)
        }
        LinkFault::NotConstant { token } => {
            source_fault(alloc, names, tokens, SourceName::NotConstant, token)
        }
        LinkFault::BadLength { token } => {
            source_fault(alloc, names, tokens, SourceName::BadLength, token)
        }
        LinkFault::AssignToConst { token } => {
            source_fault(alloc, names, tokens, SourceName::AssignToConst, token)
        }
        LinkFault::BreakOutside { token } => {
            source_fault(alloc, names, tokens, SourceName::BreakOutside, token)
        }
        LinkFault::MissingReturn { token } => {
            source_fault(alloc, names, tokens, SourceName::MissingReturn, token)
        }
        LinkFault::Recursion { token } => {
            source_fault(alloc, names, tokens, SourceName::Recursion, token)
        }
        LinkFault::TooManyAt { what, token } => too_many_at(alloc, names, tokens, what, token),
        LinkFault::NoFrame { name } => RunFault::NoFrame { name },
        LinkFault::NoInit { name } => RunFault::NoInit { name },
        LinkFault::BadInput { name } => RunFault::BadInput { name },
        LinkFault::TooMany { what } => RunFault::TooMany { what, at: None },
        LinkFault::NoMemory => RunFault::Memory,
    }
}
