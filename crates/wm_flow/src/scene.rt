// Where a node stands, and what is known of it while its program is looked at.
use crate::kept::Kept;
use crate::seats::{Counts, LocalCounts};
use wm_ops::List;

/// Where a node stands: its instance with the function, how many loops of it are open, and the innermost one.
#[derive(Clone, Copy, Debug, PartialEq, Eq)]
pub struct Scene {
    pub instance: u32,
    pub function: u32,
    pub depth: u32,
    pub inner: Option<u32>,
}

/// What the numbers of a node's variables rest on.
#[derive(Clone, Copy, Debug, PartialEq, Eq)]
pub struct Bases {
    pub counts: Counts,
    pub locals: LocalCounts,
    /// The counters of loops.
    pub loops: u32,
    /// The sum counters.
    pub sums: u32,
}

/// What a name stands for.
#[derive(Clone, Copy, Debug, PartialEq, Eq)]
pub enum Source {
    Variable(u32),
    /// An array.
    Cells(u32),
    /// A const object, with the ends of its values.
    Fixed { low: i64, high: i64 },
}

/// Values that wait, and how many temporaries are in use.
#[derive(Drop)]
pub struct Held {
    pub values: List<Kept>,
    pub temporaries: u32,
}

/// What comes: a call of a function, a call of an operator.
#[derive(Clone, Copy, Debug, PartialEq, Eq)]
pub struct Coming {
    pub call: bool,
    pub operator: bool,
}

/// The two sides of a comparison, with the temporaries in use.
#[derive(Clone, Copy, Debug, PartialEq, Eq)]
pub struct Sides {
    pub left: Kept,
    pub right: Kept,
    pub temporaries: u32,
}
