// What may be wrong at a token, and which fault of several is told.
ghost use Rattle.std.specs.Prelude.{◌≡◌};
ghost use Rattle.wm_scope.specs.Faults.{rank, is_before, with_fault, fault_at};

use wm_program::{LinkFault, What};

/// What is wrong at a token: the faults of a unit that have one, but that of calls in a circle.
#[derive(Clone, Copy, Debug, PartialEq, Eq)]
pub enum TokenFault {
    /// A name that is used and not declared, or a name of a block in its own initialiser.
    UnknownName,
    /// The later of two declarations of a name in one scope; or a name of file scope that is an operator's, a counting
    /// call's or `Overflow`.
    Redefined,
    /// Something stands where something of another kind is needed.
    WrongKind,
    /// A call with another number of arguments than its function has parameters.
    WrongCount,
    /// A length, an initialiser of static storage or of an array, or a divisor that is not constant, or a divisor of 0.
    NotConstant,
    /// A length outside 1 to 65,536, more initialisers than cells, or empty brackets without a list.
    BadLength,
    /// A const variable, or an element of one, is written.
    AssignToConst,
    /// A break or continue outside of loops.
    BreakOutside,
    /// A function with a result can end without a return.
    MissingReturn,
    /// One function, object, local or open loop more than there may be.
    TooMany(What),
}

impl TokenFault {
    /// The place in the order of the faults at one token, from 0; 9 is that of a call in a circle.
    pub fn rank(self) -> u8
        ensures rank { result ≡ rank self }
    {
        match self {
            TokenFault::UnknownName => 0,
            TokenFault::Redefined => 1,
            TokenFault::WrongKind => 2,
            TokenFault::WrongCount => 3,
            TokenFault::NotConstant => 4,
            TokenFault::BadLength => 5,
            TokenFault::AssignToConst => 6,
            TokenFault::BreakOutside => 7,
            TokenFault::MissingReturn => 8,
            TokenFault::TooMany(_) => 10,
        }
    }

    /// The fault of a unit at this token.
    pub fn at(self, token: usize) -> LinkFault
        ensures fault { result ≡ fault_at self token }
    {
        match self {
            TokenFault::UnknownName => LinkFault::UnknownName { token },
            TokenFault::Redefined => LinkFault::Redefined { token },
            TokenFault::WrongKind => LinkFault::WrongKind { token },
            TokenFault::WrongCount => LinkFault::WrongCount { token },
            TokenFault::NotConstant => LinkFault::NotConstant { token },
            TokenFault::BadLength => LinkFault::BadLength { token },
            TokenFault::AssignToConst => LinkFault::AssignToConst { token },
            TokenFault::BreakOutside => LinkFault::BreakOutside { token },
            TokenFault::MissingReturn => LinkFault::MissingReturn { token },
            TokenFault::TooMany(what) => LinkFault::TooManyAt { what, token },
        }
    }
}

/// A fault and the number of its token.
#[derive(Clone, Copy, Debug, PartialEq, Eq)]
pub struct Found {
    pub fault: TokenFault,
    pub token: usize,
}

impl Found {
    /// Whether this fault is told before another: it has the lesser token, or at one token the lesser rank.
    pub fn is_before(self, other: Found) -> bool
        ensures before { result ≡ is_before self other }
    {
        if self.token == other.token {
            return self.fault.rank() < other.fault.rank();
        }
        self.token < other.token
    }

    /// The fault that is told of the least so far and this one.
    pub fn or_earlier(self, least: Option<Found>) -> Found
        ensures least { result ≡ with_fault self least }
    {
        match least {
            None => self,
            Some(other) => {
                if self.is_before(other) {
                    return self;
                }
                other
            }
        }
    }
}

#[cfg(test)]
mod tests {
    use super::{Found, TokenFault};
    use std::process::Abort;
    use wm_program::What;

    #[test]
    fn the_least_token_wins(rt: HostRuntime) {
        let found = |fault: TokenFault, token: usize| Found { fault, token };
        for (one, other) in [
            (
                found(TokenFault::MissingReturn, 3),
                found(TokenFault::UnknownName, 4),
            ),
            (
                found(TokenFault::WrongKind, 4),
                found(TokenFault::NotConstant, 4),
            ),
            (
                found(TokenFault::MissingReturn, 1),
                found(TokenFault::TooMany(What::Functions), 1),
            ),
        ] {
            assert_eq!(rt; one.or_earlier(None), one);
            assert_eq!(rt; one.or_earlier(Some(other)), one);
            assert_eq!(rt; other.or_earlier(Some(one)), one);
        }
    }
}
