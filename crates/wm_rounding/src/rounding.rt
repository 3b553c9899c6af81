// A whole state on the grid.
ghost use Rattle.std.specs.Prelude.{◌≡◌, ◌≤◌, ◌<◌, IsTrue, IfOk, OnOk, length};
ghost use Rattle.wm_domain.specs.Points.{Point};
ghost use Rattle.wm_domain.specs.States.{IsShape, IsBare, count_of, array_count};
ghost use Rattle.wm_domain.specs.Changes.{IsUnset};
ghost use Rattle.wm_rounding.specs.Rounding.{MeetsVariables, MeetsRow, MeetsPairs, IsRounding, IsOnGrid};
ghost use Rattle.wm_rounding.specs.Cuts.{Cut, HasCells};

use crate::lines::{round_array, round_both, round_variable};
use std::alloc::Global;
use wm_domain::{Domain, Shape};
use wm_grid::Grid;
use wm_ops::NoMemory;

/// A length in 32 bits.
fn counted(count: usize) -> Result<u32, NoMemory>
    ensures { IfOk result (λ n. n ≡ count) }
{
    match u32::try_from(count) {
        Ok(count) => Ok(count),
        Err(_) => Err(NoMemory),
    }
}

/// The arrays, of a state at whose points no cell is set.
fn round_arrays<D: Domain>(grid: &Grid, held: &D, state: &mut D, count: u32) -> Result<(), NoMemory>
    requires point { IsBare (D.holds held.now) → ⊥ }
    requires shape { D.shape_of state.old ≡ D.shape_of held.now }
    requires inside { count ≡ array_count (D.shape_of held.now) }
    requires unset { HasCells grid.now (D.holds held.now) (D.holds state.old) (D.shape_of state.old) 0 count }
    ensures shape { OnOk result (D.shape_of state.new ≡ D.shape_of state.old) }
    ensures cells { OnOk result (HasCells grid.now (D.holds held.now) (D.holds state.new) (D.shape_of state.old) count count) }
{
    for a in 0..count {
        round_array(grid, held, state, a)?;
    }
    Ok(())
}

fn round_variables<D: Domain>(
    alloc: Global,
    grid: &Grid,
    held: &D,
    state: &mut D,
    count: u32,
) -> Result<(), NoMemory>
    requires point { IsBare (D.holds held.now) → ⊥ }
    requires shape { D.shape_of state.old ≡ D.shape_of held.now }
    requires inside { count ≤ count_of (D.shape_of held.now) }
    ensures shape { OnOk result (D.shape_of state.new ≡ D.shape_of state.old) }
    ensures cut { OnOk result (Cut (D.holds state.old) (D.holds state.new) (MeetsVariables grid.now (D.holds held.now) count)) }
{
    for v in 0..count {
        round_variable(alloc, grid, held, state, v)?;
    }
    Ok(())
}

/// The pairs of a variable with those before it.
fn round_row<D: Domain>(
    alloc: Global,
    grid: &Grid,
    held: &D,
    state: &mut D,
    w: u32,
) -> Result<(), NoMemory>
    requires point { IsBare (D.holds held.now) → ⊥ }
    requires pairs { IsTrue D.PAIRS }
    requires shape { D.shape_of state.old ≡ D.shape_of held.now }
    requires inside { w < length (D.shape_of held.now).group }
    ensures shape { OnOk result (D.shape_of state.new ≡ D.shape_of state.old) }
    ensures cut { OnOk result (Cut (D.holds state.old) (D.holds state.new) (MeetsRow grid.now (D.holds held.now) w)) }
{
    for v in 0..w {
        round_both(alloc, grid, held, state, v, w)?;
    }
    Ok(())
}

fn round_rows<D: Domain>(
    alloc: Global,
    grid: &Grid,
    held: &D,
    state: &mut D,
    count: u32,
) -> Result<(), NoMemory>
    requires point { IsBare (D.holds held.now) → ⊥ }
    requires pairs { IsTrue D.PAIRS }
    requires shape { D.shape_of state.old ≡ D.shape_of held.now }
    requires inside { count ≤ length (D.shape_of held.now).group }
    ensures shape { OnOk result (D.shape_of state.new ≡ D.shape_of state.old) }
    ensures cut { OnOk result (Cut (D.holds state.old) (D.holds state.new) (MeetsPairs grid.now (D.holds held.now) count)) }
{
    for w in 0..count {
        round_row(alloc, grid, held, state, w)?;
    }
    Ok(())
}

/// The pairs of the first so many variables, where a domain keeps bounds on pairs.
fn round_pairs<D: Domain>(
    alloc: Global,
    grid: &Grid,
    held: &D,
    state: &mut D,
    count: u32,
) -> Result<(), NoMemory>
    requires point { IsBare (D.holds held.now) → ⊥ }
    requires shape { D.shape_of state.old ≡ D.shape_of held.now }
    requires inside { count ≤ length (D.shape_of held.now).group }
    ensures shape { OnOk result (D.shape_of state.new ≡ D.shape_of state.old) }
    ensures cut { OnOk result (Cut (D.holds state.old) (D.holds state.new) (λ p. IsTrue D.PAIRS → MeetsPairs grid.now (D.holds held.now) count p)) }
{
    if D::PAIRS {
        return round_rows(alloc, grid, held, state, count);
    }
    Ok(())
}

/// The same for a state with a point, from the full state.
fn round_all<D: Domain>(
    alloc: Global,
    shape: &Shape,
    grid: &Grid,
    held: &D,
    state: &mut D,
) -> Result<(), NoMemory>
    requires point { IsBare (D.holds held.now) → ⊥ }
    requires held_shape { D.shape_of held.now ≡ shape.now }
    requires shape { D.shape_of state.old ≡ shape.now }
    requires unset { HasCells grid.now (D.holds held.now) (D.holds state.old) shape.now 0 (array_count shape.now) }
    ensures shape { OnOk result (D.shape_of state.new ≡ shape.now) }
    ensures rounded { OnOk result (IsRounding grid.now D.PAIRS shape.now (D.holds held.now) (D.holds state.new)) }
{
    let group = counted(shape.group.items().len())?;
    let variables = counted(shape.group.items().len() + shape.singles.items().len())?;
    let arrays = counted(shape.arrays.items().len())?;
    round_arrays(grid, held, state, arrays)?;
    round_variables(alloc, grid, held, state, variables)?;
    round_pairs(alloc, grid, held, state, group)
}

/// The full state.
fn whole<D: Domain>(alloc: Global, shape: &Shape, grid: &Grid, held: &D) -> Result<D, NoMemory>
    requires valid { IsShape shape.now }
    ensures shape { IfOk result (λ s. D.shape_of s ≡ shape.now) }
    ensures unset { IfOk result (λ s. HasCells grid.now (D.holds held.now) (D.holds s) shape.now 0 (array_count shape.now)) }
{
    D::full(alloc, shape)
}

/// The least state that holds a given one and whose bounds are numbers of the grid: those of each variable, of the difference and
/// the sum of two variables of the group where the domain keeps bounds on pairs, and those of the cells of each array. Where the
/// grid has no number beyond a bound, there is none but the full range.
///
/// `NoMemory`: memory ran out, or the grid is none of a program.
pub fn rounded<D: Domain>(
    alloc: Global,
    shape: &Shape,
    grid: &Grid,
    held: &D,
) -> Result<D, NoMemory>
    requires shape { D.shape_of held.now ≡ shape.now }
    requires valid { IsShape shape.now }
    ensures shape { IfOk result (λ s. D.shape_of s ≡ shape.now) }
    ensures rounded { IfOk result (λ s. IsRounding grid.now D.PAIRS shape.now (D.holds held.now) (D.holds s)) }
    ensures holds { IfOk result (λ s. (p : Point) → D.holds held.now p → D.holds s p) }
    ensures on_grid { IfOk result (λ s. IsOnGrid grid.now D.PAIRS shape.now (D.holds s)) }
    ensures least { IfOk result (λ s. (t : D) → D.shape_of t ≡ shape.now → IsOnGrid grid.now D.PAIRS shape.now (D.holds t) → ((p : Point) → D.holds held.now p → D.holds t p) → (p : Point) → D.holds s p → D.holds t p) }
{
    let mut state = whole(alloc, shape, grid, held)?;
    if held.is_empty() {
        state.clear();
        return Ok(state);
    }
    round_all(alloc, shape, grid, held, &mut state)?;
    Ok(state)
}
