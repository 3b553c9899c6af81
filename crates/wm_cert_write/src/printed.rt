// The pairs of a state that a text prints.
ghost use Rattle.std.specs.Prelude.{◌≡◌, ◌-ℤ◌, ◌+ℤ◌, IfOk};
ghost use Rattle.wm_cert_read.specs.Pairs.{ends_at, given, is_tighter, tells};
ghost use Rattle.wm_cert_write.specs.Printed.{tighter, printed};

use std::alloc::Global;
use wm_cert_text::{Ends, Kind, Pair, State};
use wm_ops::{List, NoMemory};

fn ends_at(bounds: &[Ends], variable: u32) -> Ends
    ensures { result ≡ ends_at bounds.now variable }
{
    let place = variable as usize;
    if place < bounds.len() {
        return bounds[place];
    }
    Ends { low: 0, high: 0 }
}

/// Whether the range is tighter at one end than these ends, and at no end wider.
fn is_within(inner: Ends, low: i128, high: i128) -> bool
    ensures { result ≡ is_tighter inner (record { low = low; high = high }) }
{
    let inner_low = i128::from(inner.low);
    let inner_high = i128::from(inner.high);
    if inner_low < low {
        return false;
    }
    if high < inner_high {
        return false;
    }
    if low < inner_low {
        return true;
    }
    inner_high < high
}

fn less(a: i64, b: i64) -> i128
    ensures { result ≡ a -ℤ b }
{
    i128::from(a) - i128::from(b)
}

fn sum(a: i64, b: i64) -> i128
    ensures { result ≡ a +ℤ b }
{
    i128::from(a) + i128::from(b)
}

fn is_tighter(inner: Ends, kind: Kind, a: Ends, b: Ends) -> bool
    ensures { result ≡ is_tighter inner (given kind a b) }
{
    match kind {
        Kind::Minus => is_within(inner, less(a.low, b.high), less(a.high, b.low)),
        Kind::Plus => is_within(inner, sum(a.low, b.low), sum(a.high, b.high)),
    }
}

#[tactic(auto, unfolding(wm_cert_read::specs::Pairs::tells))]
fn tells(bounds: &[Ends], pair: Pair) -> bool
    ensures { result ≡ tells bounds.now pair }
{
    is_tighter(
        pair.ends,
        pair.kind,
        ends_at(bounds, pair.first),
        ends_at(bounds, pair.second),
    )
}

/// The pairs that are tighter than what the two ranges give.
fn tighter(alloc: Global, bounds: &[Ends], pairs: &[Pair]) -> Result<List<Pair>, NoMemory>
    ensures { IfOk result (λ list. list ≡ tighter bounds.now pairs.now) }
{
    let mut list = List::new(alloc);
    for pair in pairs {
        if tells(bounds, *pair) {
            list.push(*pair)?;
        }
    }
    Ok(list)
}

/// What a text prints of all that a state tells.
pub fn printed(alloc: Global, state: State) -> Result<State, NoMemory>
    ensures { IfOk result (λ it. it ≡ printed state) }
{
    let pairs = tighter(alloc, state.bounds.items(), state.pairs.items())?;
    Ok(State {
        bounds: state.bounds,
        pairs,
        arrays: state.arrays,
    })
}
