// Why a unit has no program.
ghost use Rattle.std.specs.Prelude.{◌≡◌};

use wm_lang::Name;
use wm_ops::NoMemory;

/// The quantities of a program that have a limit.
#[derive(Clone, Copy, Debug, PartialEq, Eq)]
pub enum What {
    /// Functions, at most 1,024.
    Functions,
    /// Objects of static storage, at most 512.
    Objects,
    /// Parameters and automatic variables of one function, at most 256.
    Locals,
    /// Loops inside one another in one function, at most 8.
    LoopNest,
    /// Chains of call places, at most 1,024.
    Instances,
    /// Loop heads over all instances, with that of the frames, at most 2,048.
    Heads,
    /// Tokens of the function bodies, added over all instances, at most 100,000.
    Size,
    /// Different numbers in function bodies, at most 4,096.
    Constants,
    /// Different steps of loops, at most 16.
    Steps,
}

/// The first fault of a unit and its specification. Those with a token come first, the least token before the others, at one token
/// in the order in which they stand here; the others follow in their order. A token is a number of the unit's tokens, from 0.
#[derive(Drop)]
pub enum LinkFault {
    /// A name that is used and not declared, or a name of a block in its own initialiser.
    UnknownName { token: usize },
    /// The later of two declarations of a name in one scope; or a name of file scope that is an operator's, a counting call's or
    /// `Overflow`.
    Redefined { token: usize },
    /// A number, view, spot, function or result stands where something of another kind is needed.
    WrongKind { token: usize },
    /// A call with another number of arguments than its function has parameters.
    WrongCount { token: usize },
    /// A length, an initialiser of static storage or of an array, or a divisor that is not constant, or a divisor of 0.
    NotConstant { token: usize },
    /// A length outside 1 to 65,536, more initialisers than cells, or empty brackets without a list.
    BadLength { token: usize },
    /// A const variable, or an element of one, is written.
    AssignToConst { token: usize },
    /// A break or continue outside of loops.
    BreakOutside { token: usize },
    /// A function with a result can end without a return.
    MissingReturn { token: usize },
    /// A call whose function can reach its caller.
    Recursion { token: usize },
    /// One function, object, local or open loop more than there may be.
    TooManyAt { what: What, token: usize },
    /// A name of `frame` that is no function without parameters.
    NoFrame { name: Name },
    /// The name of `init` that is no function without parameters.
    NoInit { name: Name },
    /// The name of a range that is no object of file scope which may change, or whose range is not in its type.
    BadInput { name: Name },
    /// More of something in the whole program than there may be.
    TooMany { what: What },
    /// Memory was refused.
    NoMemory,
}

impl From<NoMemory> for LinkFault {
    ghost use Rattle.wm_program.specs.declared.faults.LinkFault.TheVariants.{NoMemory as Refused};

    ghost from_gives = { λ _ fault. fault ≡ Refused };

    fn from(_refused: NoMemory) -> LinkFault {
        LinkFault::NoMemory
    }
}
