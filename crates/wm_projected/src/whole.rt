// Projections that leave every variable and every array at its place.

ghost use Rattle.std.specs.Prelude.{◌≡◌, ℕ, ◌<◌, length, slice_index_or, true, None, Some};
ghost use Rattle.wm_projected.specs.Fitting.{AreOwn, IsIdentity, IsWhole};

use wm_interval::Interval;
use wm_tied::Tied;

/// Whether the pick at this place names this place.
fn is_own(pick: Option<u32>, place: usize) -> bool
    ensures { result ≡ true → pick ≡ Some place }
{
    match pick {
        None => false,
        Some(v) => v as usize == place,
    }
}

/// Whether each place is picked for itself.
fn are_own(picks: &[Option<u32>]) -> bool
    ensures own { result ≡ true → AreOwn picks.now }
{
    for k in 0..picks.len() {
        if !is_own(picks[k], k) {
            return false;
        }
    }
    true
}

fn are_equal(a: &[Interval], b: &[Interval]) -> bool
    ensures { result ≡ true → a.now ≡ b.now }
{
    a == b
}

/// Whether the full ranges are those of the state.
fn is_whole(tied: &Tied, group: &[Interval], singles: &[Interval], arrays: &[Interval]) -> bool
    ensures whole { result ≡ true → IsWhole tied.now group.now singles.now arrays.now }
{
    if !are_equal(tied.group(), group) {
        return false;
    }
    if !are_equal(tied.spans().full(), singles) {
        return false;
    }
    are_equal(tied.spans().array_full(), arrays)
}

/// Whether every variable and every array stays at its place.
pub(crate) fn is_identity(
    tied: &Tied,
    group: &[Interval],
    singles: &[Interval],
    arrays: &[Interval],
    picks: &[Option<u32>],
    array_picks: &[Option<u32>],
) -> bool
    ensures identity { result ≡ true → IsIdentity tied.now group.now singles.now arrays.now picks.now array_picks.now }
{
    if !is_whole(tied, group, singles, arrays) {
        return false;
    }
    if !are_own(picks) {
        return false;
    }
    are_own(array_picks)
}
