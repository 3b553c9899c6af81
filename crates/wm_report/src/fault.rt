// Everything that a call of the program can refuse for.
use wm_cert::Gap;
use wm_lang::Name;
use wm_ops::Counted;
use wm_program::What;

/// A place in a source file, which has a name here.
#[derive(Drop)]
pub struct At {
    pub file: Name,
    /// The line, from 1.
    pub line: u32,
    /// The column in bytes, from 1.
    pub column: u32,
}

/// A fault of the sources that stands at a token or a byte.
#[derive(Clone, Copy, Debug, PartialEq, Eq)]
pub enum SourceName {
    BadByte,
    OpenComment,
    BadNumber,
    BadDirective,
    MacroLoop,
    TooManyTokens,
    Syntax,
    NoStruct,
    StructTwice,
    StructSize,
    NoMember,
    StructKind,
    UnknownName,
    Redefined,
    WrongKind,
    WrongCount,
    NotConstant,
    BadLength,
    AssignToConst,
    BreakOutside,
    MissingReturn,
    Recursion,
}

/// A refusal, with what its line tells.
#[derive(Drop)]
pub enum RunFault {
    /// The sources are together longer than their limit.
    SourcesTooLong,
    /// A fault at a place; none where it stands behind the last token.
    Source {
        fault: SourceName,
        at: Option<At>,
    },
    /// Too many of something, at a place or in the whole program.
    TooMany {
        what: What,
        at: Option<At>,
    },
    NoFrame {
        name: Name,
    },
    NoInit {
        name: Name,
    },
    BadInput {
        name: Name,
    },
    /// A specification, weights file or sample file is longer than its limit.
    FileTooLong {
        name: Name,
    },
    NotToml {
        name: Name,
    },
    MissingKey {
        key: Name,
    },
    UnknownKey {
        key: Name,
    },
    BadValue {
        key: Name,
    },
    BadKey {
        key: Name,
    },
    BadNumber {
        key: Name,
    },
    /// A word that the program uses has no weight.
    MissingWeight {
        word: Counted,
    },
    /// This many bytes of a sample file are left over.
    Rest {
        bytes: u64,
    },
    /// A sample is outside the range of its input. Frame and cell count from 0.
    OutOfRange {
        frame: u64,
        name: Name,
        cell: u32,
        value: i64,
    },
    CertificateTooLong,
    /// The first line, from 1, with which a certificate is none.
    BadText {
        line: u64,
    },
    WrongHeads,
    NotInductive {
        gap: Gap,
    },
    ReadFailed {
        name: Name,
    },
    WriteFailed {
        name: Name,
    },
    Memory,
    Words,
}
