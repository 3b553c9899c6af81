// The turns that the counter of a loop tells, and the sums after these.
ghost use Rattle.std.specs.Prelude.{◌≡◌, ◌≤◌, pos, negsuc, neg_ℤ, ◌*ℤ◌, ◌≤ℤ◌, ◌<ℤ◌, false, IsTrue};
ghost use Rattle.std.specs.Int.{int_div_euclid, int_min};
ghost use Rattle.wm_step.specs.Images.{most};

/// The greatest number of 32 bits, at which counters stick.
pub const MOST: i64 = 2147483647;

// the greatest number below those of 32 bits
const FLOOR: i64 = -2147483649;

/// The least number of turns after which a counter is at least this.
#[tactic(auto, using(crate::proofs::Rounding::up_low, crate::proofs::Rounding::up_high))]
pub fn turns_up(count: i64, by: u32) -> i64
    requires low { negsuc 2147483647 ≤ℤ count }
    requires high { count ≤ℤ most }
    requires stepping { 1 ≤ by }
    ensures value { result ≡ neg_ℤ (int_div_euclid (neg_ℤ count) (pos by)) }
    ensures low { negsuc 2147483647 ≤ℤ result }
    ensures high { result ≤ℤ most }
{
    let back = -count;
    let turns = back.div_euclid(i64::from(by));
    -turns
}

/// The greatest number of turns after which a counter is at most this.
#[tactic(auto, using(crate::proofs::Rounding::down_low, crate::proofs::Rounding::down_high))]
pub fn turns_down(count: i64, by: u32) -> i64
    requires low { negsuc 2147483647 ≤ℤ count }
    requires high { count ≤ℤ most }
    requires stepping { 1 ≤ by }
    ensures value { result ≡ int_div_euclid count (pos by) }
    ensures low { negsuc 2147483647 ≤ℤ result }
    ensures high { result ≤ℤ most }
{
    count.div_euclid(i64::from(by))
}

#[tactic(auto, using(crate::proofs::Rounding::product_fits))]
fn product(turns: i64, step: u32) -> i64
    requires low { negsuc 2147483647 ≤ℤ turns }
    requires high { turns ≤ℤ most }
    ensures value { result ≡ pos step *ℤ turns }
{
    i64::from(step) * turns
}

#[tactic(auto, using(crate::proofs::Rounding::least_high))]
fn capped(all: i64) -> i64
    ensures value { result ≡ int_min most all }
    ensures high { result ≤ℤ most }
{
    all.min(MOST)
}

/// The sum after so many turns, at most 2147483647.
pub fn grown(turns: i64, step: u32) -> i64
    requires low { negsuc 2147483647 ≤ℤ turns }
    requires high { turns ≤ℤ most }
    ensures value { result ≡ int_min most (pos step *ℤ turns) }
    ensures high { result ≤ℤ most }
{
    capped(product(turns, step))
}

/// The sum, or the greatest number below those of 32 bits where it is less: no number of 32 bits tells the two apart.
pub fn floored(sum: i64) -> i64
    requires high { sum ≤ℤ most }
    ensures same { negsuc 2147483648 ≤ℤ sum → result ≡ sum }
    ensures past { sum <ℤ negsuc 2147483648 → result ≡ negsuc 2147483648 }
    ensures low { negsuc 2147483648 ≤ℤ result }
    ensures high { result ≤ℤ most }
{
    if sum < FLOOR {
        return FLOOR;
    }
    sum
}

/// Whether a counter may have stuck: its greatest number is 2147483647.
pub fn is_most(high: i64) -> bool
    requires high { high ≤ℤ most }
    ensures most { IsTrue result → high ≡ most }
    ensures less { result ≡ false → high <ℤ most }
{
    high == MOST
}
