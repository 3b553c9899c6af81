// What is wrong with the tokens and the structs of a unit, as refusals of the call.
ghost use Rattle.wm_read.specs.Asking.{IsFault};
ghost use Rattle.wm_unit.specs.Trees.{struct_fault};

use std::alloc::Global;
use wm_lang::{Name, Token};
use wm_report::{RunFault, SourceName};
use wm_struct::StructFault;
use wm_tokens::source_fault;

/// The refusal for what is wrong with the structs of a unit.
pub(crate) fn struct_fault(
    alloc: Global,
    names: &[Name],
    tokens: &[Token],
    fault: StructFault,
) -> RunFault
    ensures { IsFault result (struct_fault names.now tokens.now fault) }
{
    match fault {
        StructFault::NoStruct { token } => {
            source_fault(alloc, names, tokens, SourceName::NoStruct, token)
        }
        StructFault::StructTwice { token } => {
            source_fault(alloc, names, tokens, SourceName::StructTwice, token)
        }
        StructFault::StructSize { token } => {
            source_fault(alloc, names, tokens, SourceName::StructSize, token)
        }
        StructFault::NoMember { token } => {
            source_fault(alloc, names, tokens, SourceName::NoMember, token)
        }
        StructFault::StructKind { token } => {
            source_fault(alloc, names, tokens, SourceName::StructKind, token)
        }
        StructFault::NoMemory => RunFault::Memory,
    }
}
