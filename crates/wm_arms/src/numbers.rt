// Numbers of nodes.
ghost use Rattle.std.specs.Prelude.{◌≡◌, ◌+◌, suc, IfOk};

use wm_ops::NoMemory;
use wm_places::{next, plus};

/// The node behind so many.
pub fn behind(node: u32, count: u32) -> Result<u32, NoMemory>
    ensures { IfOk result (λ it. it ≡ suc (node + count)) }
{
    let last = plus(node, count)?;
    next(last)
}
