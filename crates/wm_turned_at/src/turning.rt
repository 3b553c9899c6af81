// The image of a state along the back edge of a loop.
ghost use Rattle.std.specs.Prelude.{◌≡◌, IfOk};
ghost use Rattle.wm_domain.specs.States.{Keeps, IsLeast};
ghost use Rattle.wm_carry.specs.Following.{IsWay};
ghost use Rattle.wm_step.specs.Images.{TurnImage};
ghost use Rattle.wm_turned_at.specs.Counters.{AreCounters};

use wm_carry::{Way, carried};
use wm_domain::Domain;
use wm_flow::Growth;
use wm_ops::NoMemory;
use wm_turned_all::turned_from;

/// The state at the head after one more turn: each counter has grown by its step or stuck at 2147483647; the state is the join
/// of the cases of which counters stick. `NoMemory`: memory ran out.
pub fn turned<D: Domain>(way: &Way, at: &D, growths: &[Growth]) -> Result<D, NoMemory>
    requires way { IsWay way.now.source.now way.now.target.now }
    requires shape { D.shape_of at.now ≡ way.now.source.now }
    requires counters { AreCounters way.now.source.now way.now.target.now growths.now }
    ensures shape { IfOk result (λ s. D.shape_of s ≡ way.now.target.now) }
    ensures sound { IfOk result (λ s. Keeps D.holds D.shape_of s (TurnImage way.now.source.now way.now.target.now (D.holds at.now) growths.now)) }
    ensures least { IfOk result (λ s. IsLeast D.holds D.shape_of s (TurnImage way.now.source.now way.now.target.now (D.holds at.now) growths.now)) }
{
    let moved = carried(way, at)?;
    let state = turned_from(way.alloc, &moved, growths)?;
    Ok(state)
}
