// The image of a state where one variable of the next node gets a number.
ghost use Rattle.std.specs.Prelude.{◌≡◌, ◌<◌, ◌-ℤ◌, IfOk};
ghost use Rattle.wm_interval.specs.Holds.{Holds};
ghost use Rattle.wm_domain.specs.Forms.{IsForm, IsSimple, form_value};
ghost use Rattle.wm_domain.specs.States.{count_of, Keeps, IsLeast, IsBare, IsSized};
ghost use Rattle.wm_carry.specs.Following.{IsWay};
ghost use Rattle.wm_assign.specs.Giving.{Sets, IsSeen, AreSeen};

use wm_carry::{Way, carried, origin};
use wm_domain::{Domain, Form};
use wm_interval::Interval;
use wm_ops::NoMemory;

/// No point. `NoMemory`: memory ran out.
pub fn bare<D: Domain>(way: &Way, at: &D) -> Result<D, NoMemory>
    requires way { IsWay way.now.source.now way.now.target.now }
    requires shape { D.shape_of at.now ≡ way.now.source.now }
    ensures shape { IfOk result (λ s. D.shape_of s ≡ way.now.target.now) }
    ensures bare { IfOk result (λ s. IsBare (D.holds s)) }
{
    let mut state = carried(way, at)?;
    state.clear();
    Ok(state)
}

/// Variable `v` gets any number of `r`. `NoMemory`: memory ran out.
pub fn any<D: Domain>(way: &Way, at: &D, v: u32, r: Interval) -> Result<D, NoMemory>
    requires way { IsWay way.now.source.now way.now.target.now }
    requires shape { D.shape_of at.now ≡ way.now.source.now }
    requires inside { v < count_of way.now.target.now }
    requires range { IsSized r }
    ensures shape { IfOk result (λ s. D.shape_of s ≡ way.now.target.now) }
    ensures sound { IfOk result (λ s. Keeps D.holds D.shape_of s (Sets way.now.source.now way.now.target.now (D.holds at.now) v (λ was z. Holds r z))) }
    ensures least { IfOk result (λ s. IsLeast D.holds D.shape_of s (Sets way.now.source.now way.now.target.now (D.holds at.now) v (λ was z. Holds r z))) }
{
    let mut state = carried(way, at)?;
    state.assign_range(v, r);
    Ok(state)
}

/// Variable `v` gets any number of `r` that differs from variable `from` of the first node by a number of `d`. Where `v` is
/// new, `from` has one number in both nodes. `NoMemory`: memory ran out.
pub fn near<D: Domain>(
    way: &Way,
    at: &D,
    v: u32,
    from: u32,
    d: Interval,
    r: Interval,
) -> Result<D, NoMemory>
    requires way { IsWay way.now.source.now way.now.target.now }
    requires shape { D.shape_of at.now ≡ way.now.source.now }
    requires inside { v < count_of way.now.target.now }
    requires from { from < count_of way.now.source.now }
    requires seen { IsSeen way.now.source.now way.now.target.now v from }
    requires difference { IsSized d }
    requires range { IsSized r }
    ensures shape { IfOk result (λ s. D.shape_of s ≡ way.now.target.now) }
    ensures sound { IfOk result (λ s. Keeps D.holds D.shape_of s (Sets way.now.source.now way.now.target.now (D.holds at.now) v (λ was z. Holds r z × Holds d (z -ℤ was.values from)))) }
    ensures least { IfOk result (λ s. IsLeast D.holds D.shape_of s (Sets way.now.source.now way.now.target.now (D.holds at.now) v (λ was z. Holds r z × Holds d (z -ℤ was.values from)))) }
{
    match origin(way, v as usize) {
        Some(old) => {
            let mut state = at.copy(way.alloc)?;
            state.assign_near(old, from, d, r);
            let moved = carried(way, &state)?;
            Ok(moved)
        }
        None => {
            let mut state = carried(way, at)?;
            state.assign_near(v, from, d, r);
            Ok(state)
        }
    }
}

/// Variable `v` gets the value of the form, which has at most one term, at the first node. Where `v` is new, the form's
/// variable has one number in both nodes. `NoMemory`: memory ran out.
pub fn exact<D: Domain>(way: &Way, at: &D, v: u32, f: &Form) -> Result<D, NoMemory>
    requires way { IsWay way.now.source.now way.now.target.now }
    requires shape { D.shape_of at.now ≡ way.now.source.now }
    requires inside { v < count_of way.now.target.now }
    requires form { IsForm (count_of way.now.source.now) f.now }
    requires simple { IsSimple f.now.terms }
    requires seen { AreSeen way.now.source.now way.now.target.now v f.now.terms }
    ensures shape { IfOk result (λ s. D.shape_of s ≡ way.now.target.now) }
    ensures sound { IfOk result (λ s. Keeps D.holds D.shape_of s (Sets way.now.source.now way.now.target.now (D.holds at.now) v (λ was z. z ≡ form_value was.values f.now))) }
    ensures least { IfOk result (λ s. IsLeast D.holds D.shape_of s (Sets way.now.source.now way.now.target.now (D.holds at.now) v (λ was z. z ≡ form_value was.values f.now))) }
{
    match origin(way, v as usize) {
        Some(old) => {
            let mut state = at.copy(way.alloc)?;
            state.assign_form(old, f);
            let moved = carried(way, &state)?;
            Ok(moved)
        }
        None => {
            let mut state = carried(way, at)?;
            state.assign_form(v, f);
            Ok(state)
        }
    }
}
