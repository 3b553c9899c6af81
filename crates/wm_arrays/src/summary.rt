// A summary of the cells of an array: what a write does to it, the least that holds two, and inclusion.

ghost use Rattle.std.specs.Prelude.{◌≡◌, ℤ, ◌↔◌, ◌≤◌, IsTrue};
ghost use Rattle.wm_arrays.specs.Meaning.{Allows, AllowsEach, IsLeastFor, IsEither, KeepsWrites, IsLeastKeeping, IncludesEach, IsIncluded};
ghost use Rattle.wm_arrays.specs.Ends.{ends_of, joined, written};

use wm_interval::Interval;

/// What the cells of an array may be, where a cell may be set or unset.
#[derive(Clone, Copy, PartialEq, Eq, Debug)]
pub enum Summary {
    /// No cell is set.
    Empty,
    /// Each set cell has a number of the interval.
    Range(Interval),
}

impl Summary {
    /// The summary after a number of `r` was written to some cell of an array with `length` cells: in an array of
    /// length 1 that number is all there is, in a longer one the other cells keep what they held.
    pub fn write(self, r: Interval, length: u32) -> Summary
        ensures ends { ends_of result ≡ written (ends_of self) r.low r.high length }
        ensures keeps { KeepsWrites self r length result }
        ensures least { 1 ≤ length → IsLeastKeeping self r length result }
    {
        if length == 1 {
            return Summary::Range(r);
        }
        self.join(Summary::Range(r))
    }

    /// The least summary that holds what either does.
    pub fn join(self, other: Summary) -> Summary
        ensures ends { ends_of result ≡ joined (ends_of self) (ends_of other) }
        ensures least { IsLeastFor (IsEither self other) result }
    {
        match self {
            Summary::Empty => other,
            Summary::Range(here) => match other {
                Summary::Empty => self,
                Summary::Range(there) => Summary::Range(here.join(there)),
            },
        }
    }

    /// Whether each array that this summary holds of is one that the other holds of.
    pub fn within(self, other: Summary) -> bool
        ensures numbers { IsTrue result ↔ IsIncluded self other }
        ensures arrays { IsTrue result ↔ IncludesEach self other }
    {
        match self {
            Summary::Empty => true,
            Summary::Range(here) => match other {
                Summary::Empty => false,
                Summary::Range(there) => here.within(there),
            },
        }
    }
}
