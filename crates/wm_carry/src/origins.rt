// Where the variables of the next node come from.
ghost use Rattle.std.specs.Prelude.{◌≡◌, ◌+◌, ◌<◌, ◌^◌, length};
ghost use Rattle.wm_carry.specs.Following as following;

use crate::way::Way;

// the place that has the rank `k` of so many, the first of which has this number
fn origin_in(first: usize, count: usize, k: usize) -> Option<u32>
    requires { first + count < 2 ^ 32 }
    ensures { result ≡ following.origin_in first count k }
{
    if k < count {
        return Some((first + k) as u32);
    }
    None
}

/// The variable from which variable `v` of the next node comes; None where only the next node has it. The first node has
/// fewer than 2^32 variables.
#[tactic(auto, unfolding(crate::specs::Following::origin))]
pub fn origin(way: &Way, v: usize) -> Option<u32>
    requires few { length way.now.source.now.group + length way.now.source.now.singles < 2 ^ 32 }
    ensures { result ≡ following.origin way.now.source.now way.now.target.now v }
{
    let before = way.source.group.items().len();
    let group = way.target.group.items().len();
    if v < group {
        return origin_in(0, before, v);
    }
    origin_in(before, way.source.singles.items().len(), v - group)
}
