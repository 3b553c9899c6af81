// The counters of a turn.
ghost use Rattle.std.specs.Prelude.{◌≡◌, true};
ghost use Rattle.wm_domain.specs.States.{count_of};
ghost use Rattle.wm_carry.specs.Following.{IsWay};
ghost use Rattle.wm_turned_at.specs.Counters.{IsOther, IsCounter, AreCounters};

use wm_carry::{Way, origin};
use wm_flow::Growth;

// whether none of these is the counter
fn is_other(v: u32, growths: &[Growth]) -> bool
    ensures { result ≡ true → IsOther v growths.now }
{
    match growths.split_first() {
        None => true,
        Some((it, rest)) => {
            if v == it.variable {
                return false;
            }
            is_other(v, rest)
        }
    }
}

// whether the counter stands in both nodes
fn is_counter(way: &Way, count: usize, it: Growth) -> bool
    requires way { IsWay way.now.source.now way.now.target.now }
    requires count { count ≡ count_of way.now.target.now }
    ensures { result ≡ true → IsCounter way.now.source.now way.now.target.now it }
{
    if it.variable as usize >= count {
        return false;
    }
    match origin(way, it.variable as usize) {
        None => false,
        Some(_from) => true,
    }
}

/// Whether these are different counters, each of which stands in both nodes.
pub(crate) fn are_counters(way: &Way, count: usize, growths: &[Growth]) -> bool
    requires way { IsWay way.now.source.now way.now.target.now }
    requires count { count ≡ count_of way.now.target.now }
    ensures { result ≡ true → AreCounters way.now.source.now way.now.target.now growths.now }
{
    match growths.split_first() {
        None => true,
        Some((it, rest)) => {
            if !is_counter(way, count, *it) {
                return false;
            }
            if !is_other(it.variable, rest) {
                return false;
            }
            are_counters(way, count, rest)
        }
    }
}
