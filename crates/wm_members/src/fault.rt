// Why a unit has no expansion.
ghost use Rattle.std.specs.Prelude.{◌≡◌};
ghost use Rattle.wm_members.specs.Faults.{rank, is_before, with_fault, fault_of};

use wm_ops::NoMemory;

/// The first struct fault of a unit: that at the least token, at one token the first in this order. Each has the number of its token.
#[derive(Clone, Copy, Debug, PartialEq, Eq)]
pub enum StructFault {
    /// The name of a struct that is not declared before.
    NoStruct { token: usize },
    /// A struct or a member that was declared before; or a name that was declared before in its scope, where one of the two is a
    /// struct object or a struct parameter; or a struct object with the name of an operator, a counting call or `Overflow`.
    StructTwice { token: usize },
    /// The 33rd member of a struct, and each behind it.
    StructSize { token: usize },
    /// A member that the struct has not.
    NoMember { token: usize },
    /// `.` behind anything but a struct object or `->` behind anything but a struct parameter, at the mark; a struct object or
    /// parameter in another use, at its name; an argument at the place of a struct parameter that is no object or parameter of that
    /// struct, or such an argument at another place, at its first token.
    StructKind { token: usize },
    /// Memory was refused.
    NoMemory,
}

impl From<NoMemory> for StructFault {
    ghost use Rattle.wm_members.specs.declared.fault.StructFault.TheVariants.{NoMemory as Refused};

    ghost from_gives = { λ _ fault. fault ≡ Refused };

    fn from(_refused: NoMemory) -> StructFault {
        StructFault::NoMemory
    }
}

/// What is wrong, without the place.
#[derive(Clone, Copy)]
pub enum Kind {
    NoStruct,
    StructTwice,
    StructSize,
    NoMember,
    StructKind,
}

impl Kind {
    /// The place in the order of the faults at one token.
    fn rank(self) -> u8
        ensures { result ≡ rank self }
    {
        match self {
            Kind::NoStruct => 0,
            Kind::StructTwice => 1,
            Kind::StructSize => 2,
            Kind::NoMember => 3,
            Kind::StructKind => 4,
        }
    }
}

/// A fault and the number of its token.
#[derive(Clone, Copy)]
pub struct Found {
    pub kind: Kind,
    pub token: usize,
}

impl Found {
    /// Whether this fault is told before another.
    fn is_before(self, other: Found) -> bool
        ensures { result ≡ is_before self other }
    {
        if self.token == other.token {
            return self.kind.rank() < other.kind.rank();
        }
        self.token < other.token
    }

    /// The fault that is told of those so far and this one.
    pub fn or_earlier(self, least: Option<Found>) -> Found
        ensures { result ≡ with_fault self least }
    {
        match least {
            None => self,
            Some(other) => {
                if self.is_before(other) {
                    return self;
                }
                other
            }
        }
    }

    /// The fault as it is answered.
    pub fn fault(self) -> StructFault
        ensures { result ≡ fault_of self }
    {
        let token = self.token;
        match self.kind {
            Kind::NoStruct => StructFault::NoStruct { token },
            Kind::StructTwice => StructFault::StructTwice { token },
            Kind::StructSize => StructFault::StructSize { token },
            Kind::NoMember => StructFault::NoMember { token },
            Kind::StructKind => StructFault::StructKind { token },
        }
    }
}
