// Why texts have no tokens.
ghost use Rattle.std.specs.Prelude.{◌≡◌};
ghost use Rattle.wm_lex.specs.declared.fault.LexFault.TheVariants.{NoMemory};

use std::alloc::{AllocError, AllocFailed};
use wm_lang::Place;

/// The first fault of the texts, by file, line and column; at one place the first in this order.
#[derive(Clone, Copy, Debug, PartialEq, Eq)]
pub enum LexFault {
    /// A byte that begins no token, outside comments and lines that are passed over.
    BadByte { place: Place },
    /// A comment `/*` that does not end in its file, at its first byte.
    OpenComment { place: Place },
    /// A number in another spelling than C99 6.4.4.1 has for decimal, octal and hexadecimal constants with at most one
    /// suffix `L`, or a decimal value above 2,147,483,647, or another value above 4,294,967,295.
    BadNumber { place: Place },
    /// A directive line in another form than the profile takes, at its `#`.
    BadDirective { place: Place },
    /// A macro that reaches itself, or reaches one that does, at its name in the text.
    MacroLoop { place: Place },
    /// The token at which tokens made and names replaced are together more than 1,000,000.
    TooManyTokens { place: Place },
    /// Memory was refused.
    NoMemory,
}

impl From<AllocError> for LexFault {
    ghost from_gives = { λ _ fault. fault ≡ NoMemory };

    fn from(_refused: AllocError) -> LexFault {
        LexFault::NoMemory
    }
}

impl<T: Drop> From<AllocFailed<T>> for LexFault {
    ghost from_gives = { λ _ fault. fault ≡ NoMemory };

    fn from(_refused: AllocFailed<T>) -> LexFault {
        LexFault::NoMemory
    }
}

impl From<wm_ops::NoMemory> for LexFault {
    ghost from_gives = { λ _ fault. fault ≡ NoMemory };

    fn from(_refused: wm_ops::NoMemory) -> LexFault {
        LexFault::NoMemory
    }
}
