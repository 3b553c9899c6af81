// What arrays hold.
ghost use Rattle.std.specs.Prelude.{◌≡◌, ◌<◌, ◌≤◌, IfOk};
ghost use Rattle.wm_domain.specs.Changes.{IsCellOf};
ghost use Rattle.wm_domain.specs.States.{array_count, IsBare};
ghost use Rattle.wm_told.specs.Tells.{AreCells, AreArrays, cells_of};

use std::alloc::Global;
use wm_arrays::Summary;
use wm_cert_text::{Cells, Ends};
use wm_domain::Domain;
use wm_ops::{List, NoMemory};

fn cells_of(summary: Summary) -> Cells
    ensures { result ≡ cells_of summary }
{
    match summary {
        Summary::Empty => Cells::Empty,
        Summary::Range(range) => Cells::Range(Ends {
            low: range.low,
            high: range.high,
        }),
    }
}

/// What an array of a state that has a point holds.
#[tactic(auto, using(crate::proofs::Pushed::cells_told))]
fn cells_at<D: Domain>(state: &D, a: u32) -> Cells
    requires inside { a < array_count (D.shape_of state.now) }
    requires point { IsBare (D.holds state.now) → ⊥ }
    ensures exact { AreCells (IsCellOf (D.holds state.now) a) result }
{
    match state.array(a) {
        Some(summary) => cells_of(summary),
        None => Cells::Empty,
    }
}

/// What the first so many arrays hold.
#[tactic(auto, using(crate::proofs::Pushed::arrays_pushed))]
pub fn arrays<D: Domain>(alloc: Global, state: &D, count: u32) -> Result<List<Cells>, NoMemory>
    requires inside { count ≤ array_count (D.shape_of state.now) }
    requires point { IsBare (D.holds state.now) → ⊥ }
    ensures exact { IfOk result (λ arrays. AreArrays (D.holds state.now) count arrays) }
{
    let mut arrays = List::new(alloc);
    for a in 0..count {
        arrays.push(cells_at(state, a))?;
    }
    Ok(arrays)
}
