// Weights: numbers above 10^15 are all alike, so that none is too large to be kept.
ghost use Rattle.std.specs.Prelude.{◌≡◌, ◌+◌, ◌*◌};
ghost use Rattle.wm_ways.specs.Numbers.{cut, along, greater, or_nought};

const LIMIT: u64 = 1_000_000_000_000_001;

/// A number, with those above 10^15 all alike.
pub fn cut(n: u128) -> u64
    ensures { result ≡ cut n }
{
    if n < 1_000_000_000_000_001 {
        n as u64
    } else {
        LIMIT
    }
}

/// The weight of a path that begins with an edge, by that of its rest.
pub fn along(weight: u32, added: u64, rest: Option<u64>) -> Option<u64>
    ensures { result ≡ along weight added rest }
{
    match rest {
        None => None,
        Some(rest) => Some(cut(u128::from(weight) + u128::from(added) + u128::from(rest))),
    }
}

/// The greater weight of two paths, where there are paths.
pub fn greater(a: Option<u64>, b: Option<u64>) -> Option<u64>
    ensures { result ≡ greater a b }
{
    match a {
        None => b,
        Some(here) => match b {
            None => Some(here),
            Some(there) => Some(here.max(there)),
        },
    }
}

/// The weight of so many turns.
pub fn turned(turns: u64, weight: u64) -> u64
    ensures { result ≡ cut (turns * weight) }
{
    cut(u128::from(turns) * u128::from(weight))
}

/// Where there is no path, nothing.
pub fn or_nought(weight: Option<u64>) -> u64
    ensures { result ≡ or_nought weight }
{
    match weight {
        None => 0,
        Some(weight) => weight,
    }
}
