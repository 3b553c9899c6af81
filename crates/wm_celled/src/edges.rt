// The image of a state along an edge that reads or changes the cells of an array.
ghost use Rattle.std.specs.Prelude.{◌≡◌, ◌<◌, length, IfOk};
ghost use Rattle.wm_domain.specs.Points.{range_at};
ghost use Rattle.wm_domain.specs.Forms.{IsForm};
ghost use Rattle.wm_domain.specs.States.{count_of, array_count, IsShape, Keeps, IsLeast, IsCellBetween};
ghost use Rattle.wm_carry.specs.Following.{IsWay};
ghost use Rattle.wm_assign.specs.Giving.{Sets};
ghost use Rattle.wm_celled.specs.Cells.{ArraySetTo, WrittenTo, IsCells, cells_range};

use wm_arrays::Summary;
use wm_assign::{any, bare};
use wm_carry::{Way, carried};
use wm_domain::{Domain, Form};
use wm_given::cut;
use wm_interval::Interval;
use wm_ops::NoMemory;

// the range at a place
fn range_of(ranges: &[Interval], a: usize) -> Interval
    requires { a < length ranges.now }
    ensures { result ≡ range_at ranges.now a }
{
    ranges[a]
}

/// The array gets cells of the summary. `NoMemory`: memory ran out.
pub fn array_set<D: Domain>(way: &Way, at: &D, array: u32, summary: Summary) -> Result<D, NoMemory>
    requires way { IsWay way.now.source.now way.now.target.now }
    requires shape { D.shape_of at.now ≡ way.now.source.now }
    requires inside { array < array_count way.now.target.now }
    ensures shape { IfOk result (λ s. D.shape_of s ≡ way.now.target.now) }
    ensures sound { IfOk result (λ s. Keeps D.holds D.shape_of s (ArraySetTo way.now.source.now way.now.target.now (D.holds at.now) array summary)) }
    ensures least { IfOk result (λ s. IsLeast D.holds D.shape_of s (ArraySetTo way.now.source.now way.now.target.now (D.holds at.now) array summary)) }
{
    let mut state = carried(way, at)?;
    state.set_array(array, summary);
    Ok(state)
}

// the range of what the cells hold; None where none is set
fn range_in(s: Summary) -> Option<Interval>
    ensures { result ≡ cells_range s }
{
    match s {
        Summary::Empty => None,
        Summary::Range(r) => Some(r),
    }
}

// the numbers between two of set cells; None where there are none
fn between_cells<D: Domain>(at: &D, array: u32) -> Option<Interval>
    requires shape { IsShape (D.shape_of at.now) }
    requires inside { array < array_count (D.shape_of at.now) }
    ensures cells { IsCells (D.holds at.now) array result }
{
    match at.array(array) {
        None => None,
        Some(s) => range_in(s),
    }
}

/// Variable `target` of the next node gets any number between two of set cells of the array; there is no point where none is
/// set. `NoMemory`: memory ran out.
pub fn read<D: Domain>(way: &Way, at: &D, array: u32, target: u32) -> Result<D, NoMemory>
    requires way { IsWay way.now.source.now way.now.target.now }
    requires shape { D.shape_of at.now ≡ way.now.source.now }
    requires array { array < array_count (D.shape_of at.now) }
    requires shaped { IsShape (D.shape_of at.now) }
    requires inside { target < count_of way.now.target.now }
    ensures shape { IfOk result (λ s. D.shape_of s ≡ way.now.target.now) }
    ensures sound { IfOk result (λ s. Keeps D.holds D.shape_of s (Sets way.now.source.now way.now.target.now (D.holds at.now) target (λ was z. IsCellBetween (D.holds at.now) array z))) }
    ensures least { IfOk result (λ s. IsLeast D.holds D.shape_of s (Sets way.now.source.now way.now.target.now (D.holds at.now) target (λ was z. IsCellBetween (D.holds at.now) array z))) }
{
    match between_cells(at, array) {
        None => {
            let state = bare(way, at)?;
            Ok(state)
        }
        Some(r) => {
            let state = any(way, at, target, r)?;
            Ok(state)
        }
    }
}

/// A number of the value's range that the array can hold is written to one of its cells, of which there are `length`.
/// `NoMemory`: memory ran out.
pub fn written<D: Domain>(
    way: &Way,
    at: &D,
    array: u32,
    value: &Form,
    length: u32,
) -> Result<D, NoMemory>
    requires way { IsWay way.now.source.now way.now.target.now }
    requires shape { D.shape_of at.now ≡ way.now.source.now }
    requires before { array < array_count way.now.source.now }
    requires inside { array < array_count way.now.target.now }
    requires form { IsForm (count_of (D.shape_of at.now)) value.now }
    ensures shape { IfOk result (λ s. D.shape_of s ≡ way.now.target.now) }
    ensures sound { IfOk result (λ s. Keeps D.holds D.shape_of s (WrittenTo way.now.source.now way.now.target.now (D.holds at.now) array (range_at way.now.target.now.arrays array) value.now length)) }
    ensures least { IfOk result (λ s. IsLeast D.holds D.shape_of s (WrittenTo way.now.source.now way.now.target.now (D.holds at.now) array (range_at way.now.target.now.arrays array) value.now length)) }
{
    let full = range_of(way.target.arrays.items(), array as usize);
    match cut(at, value, full) {
        None => {
            let state = bare(way, at)?;
            Ok(state)
        }
        Some(r) => {
            let mut state = carried(way, at)?;
            state.write(array, r, length);
            Ok(state)
        }
    }
}
