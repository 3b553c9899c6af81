// Sum counters by head.
ghost use Rattle.std.specs.Prelude.{◌≡◌, IfOk};
ghost use Rattle.wm_flow.specs.Places as places;

use std::alloc::Global;
use wm_flow::Sum;
use wm_ops::{List, NoMemory};

fn sums_at(alloc: Global, sums: &[Sum], head: u32) -> Result<List<Sum>, NoMemory>
    ensures { IfOk result (λ list. list ≡ places.sums_at sums.now head) }
{
    let mut list = List::new(alloc);
    for sum in sums {
        if sum.head == head {
            list.push(*sum)?;
        }
    }
    Ok(list)
}

/// The sum counters of each of the first so many heads. `NoMemory`: memory ran out.
pub fn sum_rows(alloc: Global, heads: u32, sums: &[Sum]) -> Result<List<List<Sum>>, NoMemory>
    ensures { IfOk result (λ rows. rows ≡ places.sum_rows heads sums.now) }
{
    let mut rows = List::new(alloc);
    for head in 0..heads {
        rows.push(sums_at(alloc, sums, head)?)?;
    }
    Ok(rows)
}
