// What is told of an object at the beginning of a frame.
use crate::summary::Summary;

/// What the set cells of an object of static storage may be at the beginning of a frame.
#[derive(Clone, Copy, PartialEq, Eq, Debug)]
pub struct StateLine {
    /// The number of the object.
    pub object: u32,
    /// The numbers of its set cells.
    pub summary: Summary,
}
