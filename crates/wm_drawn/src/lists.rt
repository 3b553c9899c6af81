// Numbers of variables and picks.
ghost use Rattle.std.specs.Prelude.{◌≡◌, ◌<◌, true, All};
ghost use Rattle.wm_drawn.specs.Pairing.{AreRising};
ghost use Rattle.wm_flow.specs.declared.action.Given.{Given};

use wm_flow::Given;

/// Whether each is one of so many.
pub(crate) fn are_below(count: usize, numbers: &[u32]) -> bool
    ensures { result ≡ true → All (λ v. v < count) numbers.now }
{
    match numbers.split_first() {
        None => true,
        Some((v, rest)) => {
            if (*v as usize) < count {
                return are_below(count, rest);
            }
            false
        }
    }
}

/// Whether each goes to one of so many.
pub(crate) fn targets_below(count: usize, given: &[Given]) -> bool
    ensures { result ≡ true → All (λ (g : Given). g.target < count) given.now }
{
    match given.split_first() {
        None => true,
        Some((it, rest)) => {
            if (it.target as usize) < count {
                return targets_below(count, rest);
            }
            false
        }
    }
}

/// Whether each pick is one of so many, from `first` on, and greater than those before.
pub(crate) fn are_rising(first: usize, count: usize, picks: &[Option<u32>]) -> bool
    ensures { result ≡ true → AreRising first count picks.now }
{
    match picks.split_first() {
        None => true,
        Some((pick, rest)) => match pick {
            None => are_rising(first, count, rest),
            Some(v) => {
                let place = *v as usize;
                if place < first {
                    return false;
                }
                if place >= count {
                    return false;
                }
                are_rising(place + 1, count, rest)
            }
        },
    }
}
