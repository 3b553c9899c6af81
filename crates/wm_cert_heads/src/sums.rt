// The sum counters of a head, in a graph and in a text.
ghost use Rattle.std.specs.Prelude.{◌≡◌, Some, slice_get};
ghost use Rattle.wm_cert_heads.specs.Sums.{is_same, are_told};

use wm_cert_text::SumStep;
use wm_flow::Sum;

fn is_same(sum: Sum, told: SumStep) -> bool
    ensures { result ≡ is_same sum (Some told) }
{
    if sum.variable == told.variable {
        return sum.step == told.step;
    }
    false
}

/// Whether the sum counter is told at a place.
fn is_told(sum: Sum, told: &[SumStep], place: usize) -> bool
    ensures { result ≡ is_same sum (slice_get told.now place) }
{
    match told.get(place) {
        None => false,
        Some(told) => is_same(sum, *told),
    }
}

/// Whether the sum counters of a graph that belong to a head are those that are told, in their order.
pub fn are_told(head: usize, told: &[SumStep], sums: &[Sum]) -> bool
    ensures { result ≡ are_told head told.now 0 sums.now }
{
    let mut place = 0;
    for sum in sums {
        if sum.head as usize == head {
            if !is_told(*sum, told, place) {
                return false;
            }
            place += 1;
        }
    }
    told.len() == place
}
