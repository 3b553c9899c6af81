// Where the objects and the locals of a program stand in the shapes of its nodes.
use wm_ops::List;

/// What an object of static storage is in a state.
#[derive(Clone, Copy, Debug, PartialEq, Eq)]
pub enum Seat {
    /// A state scalar, by its number among them.
    State(u32),
    /// An input scalar, by its number among them.
    Input(u32),
    /// An array, or a scalar whose address is taken, by its number among those that are not const.
    Array(u32),
    /// A const object, which is no part of a state: the least and the greatest of its values.
    Constant { low: i64, high: i64 },
}

/// What a local is in a state.
#[derive(Clone, Copy, Debug, PartialEq, Eq)]
pub enum LocalSeat {
    /// A scalar or the offset of a view, by its number among them.
    Scalar(u32),
    /// An array, or a scalar whose address is taken, by its number among them.
    Array(u32),
}

/// How many objects of each kind there are.
#[derive(Clone, Copy, Debug, PartialEq, Eq)]
pub struct Counts {
    pub states: u32,
    pub inputs: u32,
    pub arrays: u32,
}

/// How many locals of each kind a function has.
#[derive(Clone, Copy, Debug, PartialEq, Eq)]
pub struct LocalCounts {
    pub scalars: u32,
    pub arrays: u32,
}

/// What is told once of a whole program, so that each name is looked up and not searched.
#[derive(Drop)]
pub struct Tables {
    /// By object.
    pub objects: List<Seat>,
    pub counts: Counts,
    /// By function, and in each by local.
    pub locals: List<List<LocalSeat>>,
    /// By function.
    pub local_counts: List<LocalCounts>,
    /// By instance: how many arrays stand before its own ones.
    pub above: List<u32>,
    /// By instance: the number of the head of its first loop.
    pub first_heads: List<u32>,
    /// By loop: how many loops of its function stand before it.
    pub ranks: List<u32>,
    /// The number of all heads.
    pub heads: u32,
}
