// The place at which a certificate does not hold the image of an edge.

/// An end of a range.
#[derive(Clone, Copy, Debug, PartialEq, Eq)]
pub enum End2 {
    Low,
    High,
}

/// A line of a certificate's head: what it bounds. Variables and arrays count from 0.
#[derive(Clone, Copy, Debug, PartialEq, Eq)]
pub enum Line {
    /// The range of a variable.
    Bound { variable: u32 },
    /// The range of the first variable less the second.
    Minus { first: u32, second: u32 },
    /// The range of the sum of two variables.
    Plus { first: u32, second: u32 },
    /// The range of the set cells of an array.
    Array { array: u32 },
}

/// The first bound that an image passes.
#[derive(Clone, Copy, Debug, PartialEq, Eq)]
pub struct Gap {
    /// The number of the head, from 0.
    pub head: u32,
    /// Whether the image is that of the back edge, and not that of the entry.
    pub back: bool,
    pub line: Line,
    pub end: End2,
    /// The bound of the image.
    pub have: i64,
    /// The bound of the head's state; none where that state, or the array in it, is empty.
    pub allowed: Option<i64>,
}
