// The lines of arrays.
ghost use Rattle.std.specs.Prelude.{◌≡◌, ◌≤◌, ◌<◌, ◌^◌, length, slice_index_or, Option, ℤ};
ghost use Rattle.wm_domain.specs.Points.{Point, AllowsCell};
ghost use Rattle.wm_domain.specs.States.{InShape, array_count};
ghost use Rattle.wm_state_of.specs.Meeting.{CellMet};
ghost use Rattle.wm_state_of.specs.Setting.{CellSet, ArraysSet};

use wm_arrays::Summary;
use wm_cert_text::Cells;
use wm_domain::Domain;
use wm_interval::Interval;

/// What the cells are; ends that are not in order, which no text has, hold nothing.
#[tactic(auto, using(crate::proofs::Summaries::in_order, crate::proofs::Summaries::of_order, crate::proofs::Summaries::out_of_order))]
fn summary_of(held: Cells) -> Summary
    ensures allowed { (c : Option ℤ) → AllowsCell result c → CellMet held c }
    ensures met { (c : Option ℤ) → CellMet held c → AllowsCell result c }
{
    match held {
        Cells::Empty => Summary::Empty,
        Cells::Range(ends) => {
            if ends.low <= ends.high {
                return Summary::Range(Interval::new(ends.low, ends.high));
            }
            Summary::Empty
        }
    }
}

/// The cells at a place of a list.
fn cells_at(arrays: &[Cells], place: usize) -> Cells
    ensures { result ≡ slice_index_or arrays.now place Cells.Empty }
{
    if place < arrays.len() {
        return arrays[place];
    }
    Cells::Empty
}

/// Sets what one array holds.
fn set_one<D: Domain>(state: &mut D, a: u32, held: Cells)
    requires inside { a < array_count (D.shape_of state.old) }
    ensures shape { D.shape_of state.new ≡ D.shape_of state.old }
    ensures made { (p : Point) → D.holds state.new p → CellSet (D.holds state.old) a held p }
    ensures kept { (p : Point) → InShape (D.shape_of state.old) p → CellSet (D.holds state.old) a held p → D.holds state.new p }
{
    state.set_array(a, summary_of(held));
}

/// Sets what the first arrays hold.
#[tactic(auto, using(crate::proofs::Setting::none_set))]
pub fn set_arrays<D: Domain>(state: &mut D, arrays: &[Cells])
    requires narrow { length arrays.now < 2 ^ 32 }
    requires inside { length arrays.now ≤ array_count (D.shape_of state.old) }
    ensures shape { D.shape_of state.new ≡ D.shape_of state.old }
    ensures made { (p : Point) → D.holds state.new p → ArraysSet (D.holds state.old) (length arrays.now) arrays.now p }
    ensures kept { (p : Point) → InShape (D.shape_of state.old) p → ArraysSet (D.holds state.old) (length arrays.now) arrays.now p → D.holds state.new p }
{
    for place in 0..arrays.len() {
        set_one(state, place as u32, cells_at(arrays, place));
    }
}
