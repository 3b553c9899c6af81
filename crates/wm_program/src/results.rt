// What a run shows: how it ends, what failed on the way, and what it counted.
use wm_ops::List;

/// Why a site failed or stopped the run.
#[derive(Clone, Copy, Debug, PartialEq, Eq)]
pub enum Cause {
    /// The operator saturated; the run goes on.
    Saturates,
    /// The operator's arguments are outside its domain.
    Domain,
    /// The index, or the beginning of a view, is outside the array.
    Index,
    /// The value of a plain operator is outside 32 bits.
    Arithmetic,
    /// The value does not fit 16 bits.
    Narrowing,
    /// A cell is read that was never written. That is no failure of the site.
    Unset,
}

/// How a frame ends.
#[derive(Clone, Copy, Debug, PartialEq, Eq)]
pub enum End {
    Ended,
    Stopped { site: u32, cause: Cause },
    StepLimit,
}

/// How often a site failed from one cause.
#[derive(Clone, Copy, Debug, PartialEq, Eq)]
pub struct Event {
    pub site: u32,
    pub cause: Cause,
    pub times: u128,
}

/// What a frame is seen to do.
#[derive(Drop)]
pub struct FrameResult {
    /// The weights of the counted words, added up.
    pub count: u128,
    /// `Overflow` at the end.
    pub overflow: i64,
    /// The failures by site and cause, in the order of their first time.
    pub events: List<Event>,
    pub end: End,
}
