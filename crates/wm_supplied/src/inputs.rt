// The image of a state where inputs get numbers.
ghost use Rattle.std.specs.Prelude.{◌≡◌, ◌<◌, All, map, IfOk};
ghost use Rattle.wm_interval.specs.Holds.{Holds};
ghost use Rattle.wm_arrays.specs.declared.summary.Summary.TheVariants.{Range};
ghost use Rattle.wm_domain.specs.Points.{Point, AllowsCell};
ghost use Rattle.wm_domain.specs.States.{count_of, array_count, IsShape, InShape, Keeps};
ghost use Rattle.wm_flow.specs.declared.action.Given.{Given};
ghost use Rattle.wm_carry.specs.Following.{IsWay};
ghost use Rattle.wm_filters.specs.Stays.{Stays};
ghost use Rattle.wm_step.specs.Images.{InputsImage};
ghost use Rattle.wm_supplied.specs.Filling.{IsFilled};

use std::alloc::Global;
use wm_arrays::Summary;
use wm_carry::Way;
use wm_cleared::cleared;
use wm_domain::Domain;
use wm_filters::{put_cells, put_range};
use wm_flow::Given;
use wm_ops::NoMemory;

// the variables
fn targets_of(alloc: Global, scalars: &[Given]) -> Result<Vec<u32>, NoMemory>
    ensures { IfOk result (λ it. it.items ≡ map (λ (g : Given). g.target) scalars.now) }
{
    let mut targets = Vec::new(alloc);
    for it in scalars {
        targets.push(it.target)?;
    }
    Ok(targets)
}

// each variable gets any number of its range
fn put_scalars<D: Domain>(state: &mut D, scalars: &[Given])
    requires shaped { IsShape (D.shape_of state.old) }
    requires inside { All (λ (g : Given). g.target < count_of (D.shape_of state.old)) scalars.now }
    ensures shape { D.shape_of state.new ≡ D.shape_of state.old }
    ensures kept { Stays D.holds (D.shape_of state.old) state.old state.new (λ p. All (λ (g : Given). Holds g.range (p.values g.target)) scalars.now) }
{
    match scalars.split_first() {
        None => {}
        Some((it, rest)) => {
            put_range(state, it.target, it.range);
            put_scalars(state, rest);
        }
    }
}

// each cell of each array gets any number of the array's range
fn put_arrays<D: Domain>(state: &mut D, arrays: &[Given])
    requires inside { All (λ (g : Given). g.target < array_count (D.shape_of state.old)) arrays.now }
    ensures shape { D.shape_of state.new ≡ D.shape_of state.old }
    ensures kept { (was p : Point) → InShape (D.shape_of state.old) p → D.holds state.old was → IsFilled (count_of (D.shape_of state.old)) (array_count (D.shape_of state.old)) (map (λ (g : Given). g.target) arrays.now) was p → All (λ (g : Given). AllowsCell (Range g.range) (p.cells g.target)) arrays.now → D.holds state.new p }
{
    match arrays.split_first() {
        None => {}
        Some((it, rest)) => {
            put_cells(state, it.target, Summary::Range(it.range));
            put_arrays(state, rest);
        }
    }
}

/// Each scalar input of the next node gets any number of its range, and each cell of an array any number of the array's.
/// `NoMemory`: memory ran out.
pub fn supplied<D: Domain>(
    way: &Way,
    at: &D,
    scalars: &[Given],
    arrays: &[Given],
) -> Result<D, NoMemory>
    requires way { IsWay way.now.source.now way.now.target.now }
    requires shape { D.shape_of at.now ≡ way.now.source.now }
    requires scalars { All (λ (g : Given). g.target < count_of way.now.target.now) scalars.now }
    requires arrays { All (λ (g : Given). g.target < array_count way.now.target.now) arrays.now }
    ensures shape { IfOk result (λ s. D.shape_of s ≡ way.now.target.now) }
    ensures sound { IfOk result (λ s. Keeps D.holds D.shape_of s (InputsImage way.now.source.now way.now.target.now (D.holds at.now) scalars.now arrays.now)) }
{
    let targets = targets_of(way.alloc, scalars)?;
    let mut state = cleared(way, at, &targets)?;
    put_scalars(&mut state, scalars);
    put_arrays(&mut state, arrays);
    Ok(state)
}
