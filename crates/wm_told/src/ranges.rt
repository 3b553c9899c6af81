// The ends of variables.
ghost use Rattle.std.specs.Prelude.{◌<◌, ◌≤◌, IfOk};
ghost use Rattle.wm_domain.specs.Changes.{IsValueOf};
ghost use Rattle.wm_domain.specs.States.{count_of, IsBare};
ghost use Rattle.wm_told.specs.Tells.{AreEnds, AreRanges};

use std::alloc::Global;
use wm_cert_text::Ends;
use wm_domain::Domain;
use wm_ops::{List, NoMemory};

/// The ends of a variable of a state that has a point.
fn range_at<D: Domain>(state: &D, v: u32) -> Ends
    requires inside { v < count_of (D.shape_of state.now) }
    requires point { IsBare (D.holds state.now) → ⊥ }
    ensures exact { AreEnds (IsValueOf (D.holds state.now) v) result }
{
    match state.range(v) {
        Some(range) => Ends {
            low: range.low,
            high: range.high,
        },
        None => Ends { low: 0, high: 0 },
    }
}

/// The ends of the first so many variables.
#[tactic(auto, using(crate::proofs::Pushed::ranges_pushed))]
pub fn ranges<D: Domain>(alloc: Global, state: &D, count: u32) -> Result<List<Ends>, NoMemory>
    requires inside { count ≤ count_of (D.shape_of state.now) }
    requires point { IsBare (D.holds state.now) → ⊥ }
    ensures exact { IfOk result (λ ranges. AreRanges (D.holds state.now) count ranges) }
{
    let mut ranges = List::new(alloc);
    for v in 0..count {
        ranges.push(range_at(state, v))?;
    }
    Ok(ranges)
}
