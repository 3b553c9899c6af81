// The image of a state along the edge of a condition or of a test.
ghost use Rattle.std.specs.Prelude.{◌≡◌, ◌<◌, ◌^◌, ◌-ℤ◌, [], unsigned_abs, IfOk};
ghost use Rattle.wm_domain.specs.Forms.{IsForm};
ghost use Rattle.wm_domain.specs.States.{count_of, Keeps, IsLeast};
ghost use Rattle.wm_domain.specs.Changes.{Kept};
ghost use Rattle.wm_carry.specs.Following.{IsWay, Moved};
ghost use Rattle.wm_tested.specs.Likes.{Between};

use wm_carry::{Way, carried};
use wm_domain::{Domain, Form, Relation};
use wm_ops::NoMemory;
use wm_tested::keep_between;

/// The points at which the form stands so to 0 go on. `NotEqual` stops those at which it is 0 only where 0 is its least or
/// its greatest value. `NoMemory`: memory ran out.
pub fn kept<D: Domain>(way: &Way, at: &D, f: &Form, r: Relation) -> Result<D, NoMemory>
    requires way { IsWay way.now.source.now way.now.target.now }
    requires shape { D.shape_of at.now ≡ way.now.source.now }
    requires form { IsForm (count_of (D.shape_of at.now)) f.now }
    ensures shape { IfOk result (λ s. D.shape_of s ≡ way.now.target.now) }
    ensures sound { IfOk result (λ s. Keeps D.holds D.shape_of s (Moved way.now.source.now way.now.target.now (Kept (D.holds at.now) f.now r) [] [])) }
    ensures least { IfOk result (λ s. IsLeast D.holds D.shape_of s (Moved way.now.source.now way.now.target.now (Kept (D.holds at.now) f.now r) [] [])) }
{
    let mut state = at.copy(way.alloc)?;
    state.keep(f, r);
    let moved = carried(way, &state)?;
    Ok(moved)
}

/// The points at which the form lies from `low` to `high` go on. The form's constant less either is below 2^50 in size.
/// `NoMemory`: memory ran out.
pub fn tested<D: Domain>(way: &Way, at: &D, f: &Form, low: i64, high: i64) -> Result<D, NoMemory>
    requires way { IsWay way.now.source.now way.now.target.now }
    requires shape { D.shape_of at.now ≡ way.now.source.now }
    requires form { IsForm (count_of (D.shape_of at.now)) f.now }
    requires low { unsigned_abs (low -ℤ f.now.constant) < 2 ^ 50 }
    requires high { unsigned_abs (f.now.constant -ℤ high) < 2 ^ 50 }
    ensures shape { IfOk result (λ s. D.shape_of s ≡ way.now.target.now) }
    ensures sound { IfOk result (λ s. Keeps D.holds D.shape_of s (Moved way.now.source.now way.now.target.now (Between (D.holds at.now) f.now low high) [] [])) }
    ensures least { IfOk result (λ s. IsLeast D.holds D.shape_of s (Moved way.now.source.now way.now.target.now (Between (D.holds at.now) f.now low high) [] [])) }
{
    let mut state = at.copy(way.alloc)?;
    keep_between(way.alloc, &mut state, f, low, high)?;
    let moved = carried(way, &state)?;
    Ok(moved)
}
