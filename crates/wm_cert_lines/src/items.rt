// What a line tells.
use wm_cert_text::{Cells, Ends, HeadName, Pair, SumStep};

/// A line of a certificate's text. What a text counts from 1 is counted from 0 here.
#[derive(Clone, Copy)]
pub enum Item {
    /// The first line, of the first version or the second, which has sum counters.
    Version { second: bool },
    /// The number of heads less one.
    Heads { last: u32 },
    Head { head: u32, name: HeadName },
    Sum(SumStep),
    /// A head's state has no point.
    Empty,
    Bound { variable: u32, ends: Ends },
    Pair(Pair),
    Array { array: u32, held: Cells },
    End,
}
