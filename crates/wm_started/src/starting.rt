// The state at the first node.
ghost use Rattle.std.specs.Prelude.{◌≡◌, ◌<◌, ℕ, pos, IfOk};
ghost use Rattle.wm_program.specs.Code.{code_of};
ghost use Rattle.wm_domain.specs.Points.{Point};
ghost use Rattle.wm_domain.specs.States.{count_of, array_count, IsShape, InShape, Keeps};
ghost use Rattle.wm_carry.specs.Following.{IsWay};
ghost use Rattle.wm_images.specs.Nodes.{node_shape};
ghost use Rattle.wm_started.specs.Starting.{StartsIn, Starts};
ghost use Rattle.wm_started.specs.Filling.{AreBelow, AreHeld, AreCells, AreUnset};

use crate::objects::{Start, arrays_of, scalars_of};
use crate::places::{first_bases, has_inputs};
use std::alloc::Global;
use wm_carry::Way;
use wm_domain::{Domain, Shape};
use wm_drawn::{is_way, shape_at};
use wm_filters::put_range;
use wm_flow::{Given, Graph, Tables};
use wm_interval::Interval;
use wm_ops::NoMemory;
use wm_places::overflow_place;
use wm_program::Program;
use wm_seats::tables_of;
use wm_supplied::supplied;

// variables and arrays get these; no other array has a set cell
fn filled<D: Domain>(
    alloc: Global,
    shape: &Shape,
    scalars: &[Given],
    arrays: &[Given],
) -> Result<D, NoMemory>
    requires way { IsWay shape.now shape.now }
    requires scalars { AreBelow (count_of shape.now) scalars.now }
    requires arrays { AreBelow (array_count shape.now) arrays.now }
    ensures shape { IfOk result (λ s. D.shape_of s ≡ shape.now) }
    ensures sound { IfOk result (λ s. (p : Point) → InShape shape.now p → AreHeld scalars.now p → AreCells arrays.now p → AreUnset shape.now arrays.now p → D.holds s p) }
{
    let any = D::full(alloc, shape)?;
    let way = Way {
        alloc,
        source: shape,
        target: shape,
    };
    let state = supplied(&way, &any, scalars, arrays)?;
    Ok(state)
}

// the flag is 0
#[tactic(auto, using(crate::proofs::Putting::only_held))]
fn put_flag<D: Domain>(state: &mut D, count: usize, overflow: u32)
    requires shaped { IsShape (D.shape_of state.old) }
    requires count { count ≡ count_of (D.shape_of state.old) }
    ensures shape { D.shape_of state.new ≡ D.shape_of state.old }
    ensures kept { (p : Point) → InShape (D.shape_of state.old) p → D.holds state.old p → p.values overflow ≡ pos 0 → D.holds state.new p }
{
    if (overflow as usize) < count {
        put_range(state, overflow, Interval::new(0, 0));
    }
}

// how many variables there are
fn variables_in(shape: &Shape) -> usize
    requires shaped { IsShape shape.now }
    ensures { result ≡ count_of shape.now }
{
    shape.group.items().len() + shape.singles.items().len()
}

// the state at the first node, by the tables of the program
fn first_of<D: Domain>(
    alloc: Global,
    program: &Program,
    tables: &Tables,
    shape: &Shape,
) -> Result<D, NoMemory>
    requires way { IsWay shape.now shape.now }
    ensures shape { IfOk result (λ s. D.shape_of s ≡ shape.now) }
    ensures sound { IfOk result (λ s. Keeps D.holds D.shape_of s (StartsIn (code_of program.now) tables.now)) }
{
    let bases = first_bases(program, tables);
    let start = Start {
        bases,
        inputs: has_inputs(program),
    };
    let count = variables_in(shape);
    let seats = tables.objects.items();
    let objects = program.objects.items();
    let scalars = scalars_of(alloc, start, count, seats, objects)?;
    let arrays = arrays_of(alloc, shape.arrays.items().len(), seats, objects)?;
    let overflow = overflow_place(bases)?;
    let mut state = filled(alloc, shape, &scalars, &arrays)?;
    put_flag(&mut state, count, overflow);
    Ok(state)
}

/// The state of the first values at the first node: each scalar of static storage has the number that it begins with, or 0,
/// each array of static storage its first cells, and `Overflow` is 0; locals may have any number, and no cell of an
/// automatic array is set. `NoMemory`: memory ran out, or the graph has no shape for its first node that a state can have.
pub fn first<D: Domain>(alloc: Global, program: &Program, graph: &Graph) -> Result<D, NoMemory>
    ensures shape { IfOk result (λ s. D.shape_of s ≡ node_shape graph.now 0) }
    ensures sound { IfOk result (λ s. Keeps D.holds D.shape_of s (Starts program.now)) }
{
    let Some(shape) = shape_at(graph, 0) else {
        return Err(NoMemory);
    };
    if !is_way(shape, shape) {
        return Err(NoMemory);
    }
    let tables = tables_of(alloc, program)?;
    first_of(alloc, program, &tables, shape)
}
