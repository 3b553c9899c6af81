// A bound that is passed.
ghost use Rattle.std.specs.Prelude.{◌≡◌};
ghost use Rattle.wm_gaps.specs.Passed.{passed_on};

use wm_cert::{End2, Line};
use wm_interval::Interval;

/// A bound of a state that another state passes.
#[derive(Clone, Copy, Debug, PartialEq, Eq)]
pub struct Passed {
    pub line: Line,
    pub end: End2,
    /// The bound of the state that passes it.
    pub have: i64,
    /// The bound that is passed; none where nothing is allowed on the line.
    pub allowed: Option<i64>,
}

/// The end at which the numbers on a line pass those that are allowed there; the low one first.
pub(crate) fn passed_on(line: Line, have: Interval, allowed: Option<Interval>) -> Option<Passed>
    ensures { result ≡ passed_on line have allowed }
{
    let Some(allowed) = allowed else {
        return Some(Passed {
            line,
            end: End2::Low,
            have: have.low,
            allowed: None,
        });
    };
    if have.low < allowed.low {
        return Some(Passed {
            line,
            end: End2::Low,
            have: have.low,
            allowed: Some(allowed.low),
        });
    }
    if allowed.high < have.high {
        return Some(Passed {
            line,
            end: End2::High,
            have: have.high,
            allowed: Some(allowed.high),
        });
    }
    None
}
