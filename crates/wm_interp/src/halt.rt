// Why an evaluation gives no value.
ghost use Rattle.std.specs.Prelude.{◌≡◌};
ghost use Rattle.wm_interp.specs.Doing.{is_next, ended_by};

use wm_program::{End, Root};

/// Why the machine cannot go on.
#[derive(Clone, Copy, Debug, PartialEq, Eq)]
pub(crate) enum Refusal {
    /// Memory ran out.
    NoMemory,
    /// The program is no linked one: a number does not lie in its type.
    Unfit,
}

/// Why nothing more is evaluated.
#[derive(Clone, Copy, Debug, PartialEq, Eq)]
pub(crate) enum Halt {
    /// The run has ended so.
    Over(End),
    Refused(Refusal),
}

impl From<Refusal> for Halt {
    ghost use Rattle.std.specs.Prelude.{◌≡◌};
    ghost use Rattle.wm_interp.specs.declared.halt.Halt.TheVariants.{Refused};

    ghost from_gives = { λ refusal halt. halt ≡ Refused refusal };

    fn from(refusal: Refusal) -> Halt {
        Halt::Refused(refusal)
    }
}

/// How a statement ends.
#[derive(Clone, Copy, Debug, PartialEq, Eq)]
pub(crate) enum Flow {
    Next,
    Broke,
    Continued,
    Returned(i64),
}

impl Flow {
    pub(crate) fn returned(z: i64) -> Flow
        ensures { result ≡ Flow.Returned z }
    {
        Flow::Returned(z)
    }

    /// Whether what follows is next.
    pub(crate) fn is_next(self) -> bool
        ensures { result ≡ is_next self }
    {
        match self {
            Flow::Next => true,
            Flow::Broke => false,
            Flow::Continued => false,
            Flow::Returned(_) => false,
        }
    }

    /// How a body that ends so ends its loop; none where the loop goes on.
    pub(crate) fn ended(self) -> Option<Flow>
        ensures { result ≡ ended_by self }
    {
        match self {
            Flow::Next => None,
            Flow::Broke => Some(Flow::Next),
            Flow::Continued => None,
            Flow::Returned(_) => Some(self),
        }
    }
}

/// Where an assignment writes, or an element is read.
#[derive(Clone, Copy, Debug, PartialEq, Eq)]
pub(crate) enum Location {
    /// The flag `Overflow`.
    Flag,
    Cell { root: Root, index: usize },
}
