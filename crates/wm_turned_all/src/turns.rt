// A turn: the cases of which counters stick.
ghost use Rattle.std.specs.Prelude.{◌≡◌, ◌<◌, All, IfOk};
ghost use Rattle.wm_domain.specs.Points.{Point};
ghost use Rattle.wm_domain.specs.States.{count_of, InShape, IsLeast};
ghost use Rattle.wm_turned.specs.Turning.{AllGrown};

use std::alloc::Global;
use wm_domain::Domain;
use wm_flow::Growth;
use wm_ops::NoMemory;
use wm_turned::{grow, may_stick, stick};

/// The state at which each counter has grown by its step or stuck at 2147483647: the join of the cases of which counters
/// stick. `NoMemory`: memory ran out.
pub fn turned_from<D: Domain>(alloc: Global, state: &D, growths: &[Growth]) -> Result<D, NoMemory>
    requires inside { All (λ it. it.variable < count_of (D.shape_of state.now)) growths.now }
    ensures shape { IfOk result (λ s. D.shape_of s ≡ D.shape_of state.now) }
    ensures sound { IfOk result (λ s. (p : Point) → InShape (D.shape_of state.now) p → AllGrown (D.shape_of state.now) (D.holds state.now) growths.now p → D.holds s p) }
    ensures least { IfOk result (λ s. IsLeast D.holds D.shape_of s (AllGrown (D.shape_of state.now) (D.holds state.now) growths.now)) }
{
    match growths.split_first() {
        None => {
            let same = state.copy(alloc)?;
            Ok(same)
        }
        Some((it, rest)) => {
            let mut moved = state.copy(alloc)?;
            grow(alloc, &mut moved, *it)?;
            let mut all = turned_from(alloc, &moved, rest)?;
            let sticks = may_stick(state, *it);
            if !sticks {
                return Ok(all);
            }
            let mut held = state.copy(alloc)?;
            stick(alloc, &mut held, *it)?;
            let others = turned_from(alloc, &held, rest)?;
            all.join_with(&others);
            Ok(all)
        }
    }
}
