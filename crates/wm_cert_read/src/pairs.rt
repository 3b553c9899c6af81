// When the line of a pair may follow what has been read.
ghost use Rattle.std.specs.Prelude.{◌≡◌, length, ◌-ℤ◌, ◌+ℤ◌};
ghost use Rattle.wm_cert_text.specs.declared.told.Ends.{Ends};
ghost use Rattle.wm_cert_read.specs.Pairs.{ends_at, given, is_tighter, before_kind, is_before, follows, is_next, is_of, tells, fits_pair};

use wm_cert_text::{Ends, Kind, Pair};

fn ends_at(bounds: &[Ends], variable: u32) -> Ends
    ensures { result ≡ ends_at bounds.now variable }
{
    let place = variable as usize;
    if place < bounds.len() {
        return bounds[place];
    }
    Ends { low: 0, high: 0 }
}

/// Whether the range is tighter at one end than these ends, and at no end wider.
fn is_within(inner: Ends, low: i128, high: i128) -> bool
    ensures { result ≡ is_tighter inner (record { low = low; high = high }) }
{
    let inner_low = i128::from(inner.low);
    let inner_high = i128::from(inner.high);
    if inner_low < low {
        return false;
    }
    if high < inner_high {
        return false;
    }
    if low < inner_low {
        return true;
    }
    inner_high < high
}

fn less(a: i64, b: i64) -> i128
    ensures { result ≡ a -ℤ b }
{
    i128::from(a) - i128::from(b)
}

fn sum(a: i64, b: i64) -> i128
    ensures { result ≡ a +ℤ b }
{
    i128::from(a) + i128::from(b)
}

fn is_tighter(inner: Ends, kind: Kind, a: Ends, b: Ends) -> bool
    ensures { result ≡ is_tighter inner (given kind a b) }
{
    match kind {
        Kind::Minus => is_within(inner, less(a.low, b.high), less(a.high, b.low)),
        Kind::Plus => is_within(inner, sum(a.low, b.low), sum(a.high, b.high)),
    }
}

fn before_kind(a: Kind, b: Kind) -> bool
    ensures { result ≡ before_kind a b }
{
    match a {
        Kind::Minus => match b {
            Kind::Minus => false,
            Kind::Plus => true,
        },
        Kind::Plus => false,
    }
}

fn is_before(a: Pair, b: Pair) -> bool
    ensures { result ≡ is_before a b }
{
    if a.first < b.first {
        return true;
    }
    if b.first < a.first {
        return false;
    }
    if a.second < b.second {
        return true;
    }
    if b.second < a.second {
        return false;
    }
    before_kind(a.kind, b.kind)
}

#[tactic(auto, unfolding(crate::specs::Pairs::is_next))]
fn is_next(pairs: &[Pair], pair: Pair) -> bool
    ensures { result ≡ is_next pairs.now pair }
{
    match pairs.get(pairs.len().saturating_sub(1)) {
        None => true,
        Some(last) => is_before(*last, pair),
    }
}

fn is_of(count: usize, pair: Pair) -> bool
    ensures { result ≡ is_of count pair }
{
    if pair.first >= pair.second {
        return false;
    }
    if pair.second as usize >= count {
        return false;
    }
    pair.second < 32
}

#[tactic(auto, unfolding(crate::specs::Pairs::tells))]
fn tells(bounds: &[Ends], pair: Pair) -> bool
    ensures { result ≡ tells bounds.now pair }
{
    let first = ends_at(bounds, pair.first);
    let second = ends_at(bounds, pair.second);
    is_tighter(pair.ends, pair.kind, first, second)
}

/// Whether a pair of bounded variables comes behind those so far and tells more than the two ranges.
#[tactic(auto, unfolding(crate::specs::Pairs::fits_pair))]
pub fn fits_pair(bounds: &[Ends], pairs: &[Pair], pair: Pair) -> bool
    ensures { result ≡ fits_pair bounds.now pairs.now pair }
{
    if !is_of(bounds.len(), pair) {
        return false;
    }
    if !is_next(pairs, pair) {
        return false;
    }
    tells(bounds, pair)
}
