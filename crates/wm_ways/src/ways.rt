// Edges as paths see them, and loops.

/// An edge between two nodes.
#[derive(Clone, Copy, Debug, PartialEq, Eq)]
pub struct Way {
    pub source: u32,
    pub target: u32,
    pub weight: u32,
    /// Whether a path may take it. It then leads to a higher node.
    pub open: bool,
}

/// A loop: a path that comes to its head makes its turns there.
#[derive(Clone, Copy, Debug, PartialEq, Eq)]
pub struct Turning {
    /// The head.
    pub node: u32,
    /// The node from which the back edge leads to the head.
    pub last: u32,
    /// The number of the back edge.
    pub back: u32,
    /// How often the loop turns.
    pub turns: u64,
}
