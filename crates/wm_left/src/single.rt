// What another state tells of single variables.
ghost use Rattle.std.specs.Prelude.{◌≡◌, ◌<◌, ◌≤◌, ◌^◌, length};
ghost use Rattle.wm_domain.specs.States.{count_of, IsShape};
ghost use Rattle.wm_domain.specs.Changes.{ArePicks};
ghost use Rattle.wm_filters.specs.Stays.{Stays};
ghost use Rattle.wm_step.specs.Images.{IsBetween};
ghost use Rattle.wm_left.specs.Taking.{TakenAt, TakenFrom, IsPickBelow};

use wm_domain::Domain;
use wm_filters::put_range;

/// Variable `v` has a number between two of variable `w` at another state.
pub fn take_one<D: Domain>(from: &D, state: &mut D, v: u32, w: u32)
    requires shaped { IsShape (D.shape_of state.old) }
    requires inside { v < count_of (D.shape_of state.old) }
    requires from { w < count_of (D.shape_of from.now) }
    ensures shape { D.shape_of state.new ≡ D.shape_of state.old }
    ensures kept { Stays D.holds (D.shape_of state.old) state.old state.new (λ p. IsBetween (D.holds from.now) w (p.values v)) }
{
    match from.range(w) {
        None => state.clear(),
        Some(r) => put_range(state, v, r),
    }
}

// variable `v` has a number of the range of the picked one, where one is picked
fn take_pick<D: Domain>(from: &D, state: &mut D, v: u32, pick: Option<u32>)
    requires shaped { IsShape (D.shape_of state.old) }
    requires inside { v < count_of (D.shape_of state.old) }
    requires pick { IsPickBelow (count_of (D.shape_of from.now)) pick }
    ensures shape { D.shape_of state.new ≡ D.shape_of state.old }
    ensures kept { Stays D.holds (D.shape_of state.old) state.old state.new (TakenAt (D.holds from.now) v pick) }
{
    match pick {
        None => {}
        Some(w) => take_one(from, state, v, w),
    }
}

/// Each variable that comes from another state has a number of its range there.
pub fn take_ranges<D: Domain>(from: &D, state: &mut D, picks: &[Option<u32>])
    requires shaped { IsShape (D.shape_of state.old) }
    requires long { length picks.now ≤ count_of (D.shape_of state.old) }
    requires few { length picks.now < 2 ^ 32 }
    requires picks { ArePicks (count_of (D.shape_of from.now)) picks.now }
    ensures shape { D.shape_of state.new ≡ D.shape_of state.old }
    ensures kept { Stays D.holds (D.shape_of state.old) state.old state.new (TakenFrom (D.holds from.now) picks.now) }
{
    for v in 0..picks.len() {
        take_pick(from, state, v as u32, picks[v]);
    }
}
