// The findings of a program, of which each report is a text.
use wm_arrays::StateLine;
use wm_flow::Bound;
use wm_interval::Interval;
use wm_ops::List;

/// What is found of a site, over all its instances.
#[derive(Drop)]
pub enum Verdict {
    /// It never fails; `unset` where a cell that no one set may be read there, at which a run stops.
    Safe {
        unset: bool,
    },
    /// No run comes to it.
    Never,
    /// It may fail for the values in the boxes, and `values` are the first in lexicographic order for which it does: one box and
    /// one value for each operand.
    Unproved {
        boxes: List<Interval>,
        values: List<i64>,
        /// The first instance in which it may fail.
        instance: u32,
    },
}

/// How often a loop turns, over all instances with a head that a run may come to.
#[derive(Clone, Copy, PartialEq, Eq, Debug)]
pub enum Turns {
    /// No run comes to it.
    Never,
    /// No number bounds its turns.
    None,
    /// At most so many turns for each entry.
    Most(u64),
}

/// What is found of a program for all lists of frames in its ranges.
#[derive(Drop)]
pub struct Findings {
    /// By site.
    pub sites: List<Verdict>,
    /// By loop.
    pub loops: List<Turns>,
    /// Of the objects of static storage that are neither const nor input, in the order of their declaration, as a frame begins.
    pub states: List<StateLine>,
    /// What a frame counts at most, by frame function.
    pub bounds: List<Bound>,
}

/// What was seen while sample frames were run.
#[derive(Drop)]
pub struct Seen {
    /// How many frames were run: up to the first that does not end, that one included.
    pub frames: u64,
    /// What the set cells of each object of the state lines were as these frames began.
    pub states: List<StateLine>,
    /// The greatest count of a frame, by frame function; 0 where none of its frames was run.
    pub counts: List<u128>,
}
