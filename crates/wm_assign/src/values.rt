// What a variable may get.
ghost use Rattle.std.specs.Prelude.{◌≡◌, ◌<◌, Some, IfOk};
ghost use Rattle.wm_domain.specs.States.{count_of, Keeps, IsLeast};
ghost use Rattle.wm_carry.specs.Following.{IsWay};
ghost use Rattle.wm_assign.specs.Giving.{Sets};
ghost use Rattle.wm_assign.specs.Allowing.{Allowed, IsFit};

use crate::numbers::{any, bare, near};
use wm_carry::Way;
use wm_domain::Domain;
use wm_interval::Interval;
use wm_ops::NoMemory;

/// Some numbers.
#[derive(Clone, Copy)]
pub enum Value {
    /// Any number of the range.
    Any(Interval),
    /// Any number of `range` that differs from a variable of the first node by a number of `difference`.
    Near {
        from: u32,
        difference: Interval,
        range: Interval,
    },
}

// variable `v` gets one of the numbers
fn set_some<D: Domain>(way: &Way, at: &D, v: u32, value: Value) -> Result<D, NoMemory>
    requires way { IsWay way.now.source.now way.now.target.now }
    requires shape { D.shape_of at.now ≡ way.now.source.now }
    requires inside { v < count_of way.now.target.now }
    requires fit { IsFit way.now.source.now way.now.target.now v (Some value) }
    ensures shape { IfOk result (λ s. D.shape_of s ≡ way.now.target.now) }
    ensures sound { IfOk result (λ s. Keeps D.holds D.shape_of s (Sets way.now.source.now way.now.target.now (D.holds at.now) v (Allowed (Some value)))) }
    ensures least { IfOk result (λ s. IsLeast D.holds D.shape_of s (Sets way.now.source.now way.now.target.now (D.holds at.now) v (Allowed (Some value)))) }
{
    match value {
        Value::Any(r) => {
            let state = any(way, at, v, r)?;
            Ok(state)
        }
        Value::Near {
            from,
            difference,
            range,
        } => {
            let state = near(way, at, v, from, difference, range)?;
            Ok(state)
        }
    }
}

/// Variable `v` gets one of the numbers; there is no point where there is none. `NoMemory`: memory ran out.
pub fn set<D: Domain>(way: &Way, at: &D, v: u32, value: Option<Value>) -> Result<D, NoMemory>
    requires way { IsWay way.now.source.now way.now.target.now }
    requires shape { D.shape_of at.now ≡ way.now.source.now }
    requires inside { v < count_of way.now.target.now }
    requires fit { IsFit way.now.source.now way.now.target.now v value }
    ensures shape { IfOk result (λ s. D.shape_of s ≡ way.now.target.now) }
    ensures sound { IfOk result (λ s. Keeps D.holds D.shape_of s (Sets way.now.source.now way.now.target.now (D.holds at.now) v (Allowed value))) }
    ensures least { IfOk result (λ s. IsLeast D.holds D.shape_of s (Sets way.now.source.now way.now.target.now (D.holds at.now) v (Allowed value))) }
{
    match value {
        None => {
            let state = bare(way, at)?;
            Ok(state)
        }
        Some(numbers) => {
            let state = set_some(way, at, v, numbers)?;
            Ok(state)
        }
    }
}
