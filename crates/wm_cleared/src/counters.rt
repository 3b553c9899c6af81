// Counters that begin at 0.
ghost use Rattle.std.specs.Prelude.{◌≡◌, ◌+◌, ◌<◌, All, length, IfOk};
ghost use Rattle.wm_domain.specs.States.{Keeps, IsLeast};
ghost use Rattle.wm_carry.specs.Following.{IsWay};
ghost use Rattle.wm_cleared.specs.Dropping.{Reset};

use crate::moved::cleared;
use wm_carry::Way;
use wm_domain::Domain;
use wm_interval::Interval;
use wm_ops::NoMemory;

/// The state at the next node, where these counters are 0. `NoMemory`: memory ran out.
pub fn reset<D: Domain>(way: &Way, at: &D, counters: &[u32]) -> Result<D, NoMemory>
    requires way { IsWay way.now.source.now way.now.target.now }
    requires shape { D.shape_of at.now ≡ way.now.source.now }
    requires inside { All (λ v. v < length way.now.target.now.group + length way.now.target.now.singles) counters.now }
    ensures shape { IfOk result (λ s. D.shape_of s ≡ way.now.target.now) }
    ensures sound { IfOk result (λ s. Keeps D.holds D.shape_of s (Reset way.now.source.now way.now.target.now (D.holds at.now) counters.now)) }
    ensures least { IfOk result (λ s. IsLeast D.holds D.shape_of s (Reset way.now.source.now way.now.target.now (D.holds at.now) counters.now)) }
{
    let mut state = cleared(way, at, counters)?;
    let zero = Interval::new(0, 0);
    for k in 0..counters.len() {
        state.assign_range(counters[k], zero);
    }
    Ok(state)
}
