// A state at the next node, where some variables have any numbers.
ghost use Rattle.std.specs.Prelude.{◌≡◌, ◌+◌, ◌<◌, [], All, length, IfOk};
ghost use Rattle.wm_domain.specs.Points.{range_at};
ghost use Rattle.wm_domain.specs.States.{variables_of, Keeps, IsLeast};
ghost use Rattle.wm_carry.specs.Following.{IsWay, Moved};

use wm_carry::{Way, carried};
use wm_domain::{Domain, Shape};
use wm_interval::Interval;
use wm_ops::NoMemory;

// the full range of variable `v`
fn full_range(shape: &Shape, v: usize) -> Interval
    requires inside { v < length shape.now.group + length shape.now.singles }
    ensures value { result ≡ range_at (variables_of shape.now) v }
{
    let group = shape.group.items();
    if v < group.len() {
        return at(group, v);
    }
    at(shape.singles.items(), v - group.len())
}

fn at(ranges: &[Interval], v: usize) -> Interval
    requires { v < length ranges.now }
    ensures { result ≡ range_at ranges.now v }
{
    ranges[v]
}

/// The state at the next node, where these variables have any numbers of their full ranges. `NoMemory`: memory ran out.
pub fn cleared<D: Domain>(way: &Way, at: &D, variables: &[u32]) -> Result<D, NoMemory>
    requires way { IsWay way.now.source.now way.now.target.now }
    requires shape { D.shape_of at.now ≡ way.now.source.now }
    requires inside { All (λ v. v < length way.now.target.now.group + length way.now.target.now.singles) variables.now }
    ensures shape { IfOk result (λ s. D.shape_of s ≡ way.now.target.now) }
    ensures sound { IfOk result (λ s. Keeps D.holds D.shape_of s (Moved way.now.source.now way.now.target.now (D.holds at.now) variables.now [])) }
    ensures least { IfOk result (λ s. IsLeast D.holds D.shape_of s (Moved way.now.source.now way.now.target.now (D.holds at.now) variables.now [])) }
{
    let mut state = carried(way, at)?;
    for k in 0..variables.len() {
        let full = full_range(way.target, variables[k] as usize);
        state.assign_range(variables[k], full);
    }
    Ok(state)
}
