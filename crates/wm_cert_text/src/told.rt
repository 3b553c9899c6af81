// What a certificate's text tells, as plain data. What a text counts from 1 is counted from 0 here.
use wm_ops::List;

/// The least and the greatest number of a range.
#[derive(Clone, Copy, Debug, PartialEq, Eq)]
pub struct Ends {
    pub low: i64,
    pub high: i64,
}

/// What the set cells of an array hold.
#[derive(Clone, Copy, Debug, PartialEq, Eq)]
pub enum Cells {
    /// No cell is set.
    Empty,
    Range(Ends),
}

/// The name of a head.
#[derive(Clone, Copy, Debug, PartialEq, Eq)]
pub enum HeadName {
    Frame,
    Loop { loop_id: u32, instance: u32 },
}

/// A sum counter: its accumulator, and what it grows by with each turn.
#[derive(Clone, Copy, Debug, PartialEq, Eq)]
pub struct SumStep {
    pub variable: u32,
    pub step: u32,
}

/// What is bounded of two variables.
#[derive(Clone, Copy, Debug, PartialEq, Eq)]
pub enum Kind {
    /// The first less the second.
    Minus,
    /// Their sum.
    Plus,
}

/// Bounds on two variables of the group.
#[derive(Clone, Copy, Debug, PartialEq, Eq)]
pub struct Pair {
    pub kind: Kind,
    pub first: u32,
    pub second: u32,
    pub ends: Ends,
}

/// A state with a point: the range of each variable, the pairs that are told, and what each array holds.
#[derive(Drop)]
pub struct State {
    pub bounds: List<Ends>,
    pub pairs: List<Pair>,
    pub arrays: List<Cells>,
}

/// A head.
#[derive(Drop)]
pub struct Head {
    pub name: HeadName,
    pub sums: List<SumStep>,
    /// None where the state has no point.
    pub state: Option<State>,
}
