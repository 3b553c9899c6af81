// The words of the texts: one for each fault, quantity and cause.
ghost use Rattle.std.specs.Prelude.{◌≡◌};
ghost use Rattle.wm_report.specs.Words.{source_word, what_word, cause_word, edge_word, end_word};

use crate::fault::SourceName;
use wm_cert::End2;
use wm_program::{Cause, What};

pub fn source_word(fault: SourceName) -> &'static [u8]
    ensures { result.now ≡ source_word fault }
{
    match fault {
        SourceName::BadByte => b"BadByte",
        SourceName::OpenComment => b"OpenComment",
        SourceName::BadNumber => b"BadNumber",
        SourceName::BadDirective => b"BadDirective",
        SourceName::MacroLoop => b"MacroLoop",
        SourceName::TooManyTokens => b"TooManyTokens",
        SourceName::Syntax => b"Syntax",
        SourceName::NoStruct => b"NoStruct",
        SourceName::StructTwice => b"StructTwice",
        SourceName::StructSize => b"StructSize",
        SourceName::NoMember => b"NoMember",
        SourceName::StructKind => b"StructKind",
        SourceName::UnknownName => b"UnknownName",
        SourceName::Redefined => b"Redefined",
        SourceName::WrongKind => b"WrongKind",
        SourceName::WrongCount => b"WrongCount",
        SourceName::NotConstant => b"NotConstant",
        SourceName::BadLength => b"BadLength",
        SourceName::AssignToConst => b"AssignToConst",
        SourceName::BreakOutside => b"BreakOutside",
        SourceName::MissingReturn => b"MissingReturn",
        SourceName::Recursion => b"Recursion",
    }
}

pub fn what_word(what: What) -> &'static [u8]
    ensures { result.now ≡ what_word what }
{
    match what {
        What::Functions => b"Functions",
        What::Objects => b"Objects",
        What::Locals => b"Locals",
        What::LoopNest => b"LoopNest",
        What::Instances => b"Instances",
        What::Heads => b"Heads",
        What::Size => b"Size",
        What::Constants => b"Constants",
        What::Steps => b"Steps",
    }
}

pub fn cause_word(cause: Cause) -> &'static [u8]
    ensures { result.now ≡ cause_word cause }
{
    match cause {
        Cause::Saturates => b"saturates",
        Cause::Domain => b"domain",
        Cause::Index => b"index",
        Cause::Arithmetic => b"arithmetic",
        Cause::Narrowing => b"narrowing",
        Cause::Unset => b"unset",
    }
}

pub fn edge_word(back: bool) -> &'static [u8]
    ensures { result.now ≡ edge_word back }
{
    if back { b"back" } else { b"entry" }
}

pub fn end_word(end: End2) -> &'static [u8]
    ensures { result.now ≡ end_word end }
{
    match end {
        End2::Low => b"low",
        End2::High => b"high",
    }
}
