// The shapes of slim nodes.
use std::alloc::Global;
use wm_domain::Shape;
use wm_flow::Graph;
use wm_interval::Interval;
use wm_ops::{List, NoMemory};

/// The shape of a node, and its number.
#[derive(Clone, Copy)]
pub(crate) struct Place<'g> {
    pub number: u32,
    pub shape: &'g Shape,
}

/// The shape of a node; `NoMemory` where there is none.
pub(crate) fn place_at(graph: &Graph, node: u32) -> Result<Place, NoMemory> {
    match graph.node_shape.items().get(node as usize) {
        None => Err(NoMemory),
        Some(number) => match graph.shapes.items().get(*number as usize) {
            None => Err(NoMemory),
            Some(shape) => Ok(Place {
                number: *number,
                shape,
            }),
        },
    }
}

fn copied(alloc: Global, ranges: &[Interval]) -> Result<List<Interval>, NoMemory> {
    let mut list = List::new(alloc);
    for range in ranges {
        list.push(*range)?;
    }
    Ok(list)
}

/// The ranges at some places. `NoMemory`: memory ran out, or one of the places is not there.
fn chosen(alloc: Global, ranges: &[Interval], places: &[u32]) -> Result<List<Interval>, NoMemory> {
    let mut list = List::new(alloc);
    for place in places {
        match ranges.get(*place as usize) {
            None => return Err(NoMemory),
            Some(range) => list.push(*range)?,
        }
    }
    Ok(list)
}

/// The group of a shape, and nothing else.
pub(crate) fn core(alloc: Global, shape: &Shape) -> Result<Shape, NoMemory> {
    Ok(Shape {
        group: copied(alloc, shape.group.items())?,
        singles: List::new(alloc),
        arrays: List::new(alloc),
    })
}

/// Some singles and arrays of a shape, with its group where `grouped`.
pub(crate) fn slim(
    alloc: Global,
    shape: &Shape,
    grouped: bool,
    singles: &[u32],
    arrays: &[u32],
) -> Result<Shape, NoMemory> {
    let group = if grouped {
        copied(alloc, shape.group.items())?
    } else {
        List::new(alloc)
    };
    Ok(Shape {
        group,
        singles: chosen(alloc, shape.singles.items(), singles)?,
        arrays: chosen(alloc, shape.arrays.items(), arrays)?,
    })
}
