// Arms of the image along an edge: cells of arrays.
ghost use Rattle.std.specs.Prelude.{◌≡◌, IfOk};
ghost use Rattle.wm_domain.specs.Points.{range_at};
ghost use Rattle.wm_domain.specs.States.{Keeps, IsCellBetween};
ghost use Rattle.wm_assign.specs.Giving.{Sets};
ghost use Rattle.wm_celled.specs.Cells.{ArraySetTo, WrittenTo};
ghost use Rattle.wm_drawn.specs.Fitting.{CellsFit, ReadFits, WriteFits};

use wm_arrays::Summary;
use wm_carry::Way;
use wm_celled::{array_set, read, written};
use wm_domain::{Domain, Form};
use wm_ops::NoMemory;

// all cells of an array
#[inline(never)]
pub(crate) fn set_array<D: Domain>(
    way: &Way,
    at: &D,
    array: u32,
    summary: Summary,
) -> Result<D, NoMemory>
    requires fits { CellsFit way.now.source.now way.now.target.now array }
    requires shape { D.shape_of at.now ≡ way.now.source.now }
    ensures shape { IfOk result (λ s. D.shape_of s ≡ way.now.target.now) }
    ensures sound { IfOk result (λ s. Keeps D.holds D.shape_of s (ArraySetTo way.now.source.now way.now.target.now (D.holds at.now) array summary)) }
{
    array_set(way, at, array, summary)
}

// a cell's number
#[inline(never)]
pub(crate) fn read_cell<D: Domain>(
    way: &Way,
    at: &D,
    array: u32,
    target: u32,
) -> Result<D, NoMemory>
    requires fits { ReadFits way.now.source.now way.now.target.now array target }
    requires shape { D.shape_of at.now ≡ way.now.source.now }
    ensures shape { IfOk result (λ s. D.shape_of s ≡ way.now.target.now) }
    ensures sound { IfOk result (λ s. Keeps D.holds D.shape_of s (Sets way.now.source.now way.now.target.now (D.holds at.now) target (λ was z. IsCellBetween (D.holds at.now) array z))) }
{
    read(way, at, array, target)
}

// a number in a cell
#[inline(never)]
pub(crate) fn write_cell<D: Domain>(
    way: &Way,
    at: &D,
    array: u32,
    value: &Form,
    length: u32,
) -> Result<D, NoMemory>
    requires fits { WriteFits way.now.source.now way.now.target.now array value.now }
    requires shape { D.shape_of at.now ≡ way.now.source.now }
    ensures shape { IfOk result (λ s. D.shape_of s ≡ way.now.target.now) }
    ensures sound { IfOk result (λ s. Keeps D.holds D.shape_of s (WrittenTo way.now.source.now way.now.target.now (D.holds at.now) array (range_at way.now.target.now.arrays array) value.now length)) }
{
    written(way, at, array, value, length)
}
