// A state at the next node, where nothing has changed.
ghost use Rattle.std.specs.Prelude.{◌≡◌, [], IfOk};
ghost use Rattle.wm_domain.specs.States.{Keeps, IsLeast};
ghost use Rattle.wm_carry.specs.Following.{IsWay, Moved};

use crate::way::Way;
use wm_domain::Domain;
use wm_ops::NoMemory;

/// The state at the next node, which has what is paired with something of the first. A variable that only the next node has
/// has any number of its full range, and an array that only it has has no set cell. `NoMemory`: memory ran out.
pub fn carried<D: Domain>(way: &Way, at: &D) -> Result<D, NoMemory>
    requires way { IsWay way.now.source.now way.now.target.now }
    requires shape { D.shape_of at.now ≡ way.now.source.now }
    ensures shape { IfOk result (λ s. D.shape_of s ≡ way.now.target.now) }
    ensures sound { IfOk result (λ s. Keeps D.holds D.shape_of s (Moved way.now.source.now way.now.target.now (D.holds at.now) [] [])) }
    ensures least { IfOk result (λ s. IsLeast D.holds D.shape_of s (Moved way.now.source.now way.now.target.now (D.holds at.now) [] [])) }
{
    let state = at.follow(way.alloc, way.target)?;
    Ok(state)
}
