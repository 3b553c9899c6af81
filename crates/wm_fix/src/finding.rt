// The finder.
ghost use Rattle.std.specs.Prelude.{◌≡◌, All, IfOk};
ghost use Rattle.wm_domain.specs.States.{IsShape};
ghost use Rattle.wm_labels.specs.Accepted.{IsAccepted};
ghost use Rattle.wm_walk.specs.Graphs.{AreDrawn, AreStates};

use crate::labels::no_labels;
use crate::narrow::narrowed;
use crate::plan::plan_of;
use crate::rise::rise;
use crate::setting::Setting;
use crate::whole::{begin, states_of};
use std::alloc::Global;
use wm_accept::{Unwatched, walk};
use wm_apart::Apart;
use wm_certificate::Certificate;
use wm_domain::Domain;
use wm_flow::Graph;
use wm_grid::Grid;
use wm_images::Images;
use wm_ops::{List, NoMemory};
use wm_program::Program;

/// The states, which a last walk has to accept.
fn accepted<D: Domain, M: Images<D>>(
    alloc: Global,
    images: &M,
    program: &Program,
    graph: &Graph,
    states: List<D>,
) -> Result<Certificate<D>, NoMemory>
    requires drawn { AreDrawn M.drawn graph.now }
    requires shapes { All IsShape graph.now.shapes }
    requires states { AreStates D.shape_of graph.now states }
    ensures states { IfOk result (λ certificate. AreStates D.shape_of graph.now certificate.heads) }
    ensures accepted { IfOk result (λ certificate. IsAccepted M.allowed M.started D.holds D.shape_of program.now graph.now certificate.heads) }
{
    let gap = walk(
        alloc,
        images,
        program,
        graph,
        states.items(),
        &mut [],
        &mut Unwatched,
    )?;
    match gap {
        Some(_gap) => Err(NoMemory),
        None => Ok(Certificate { heads: states }),
    }
}

/// A state for each head of the graph, each of which holds what both the head's edges allow. The states rise from none over the
/// numbers of the grid to the least accepted ones whose bounds are on the grid; then three times each head gets the least state
/// that holds the images along its edges. `apart` are the edges of the graph, apart from each other.
///
/// `NoMemory`: memory ran out, or the graph is none of a program.
pub fn find<D: Domain, M: Images<D>>(
    alloc: Global,
    images: &M,
    program: &Program,
    graph: &Graph,
    apart: &Apart,
    grid: &Grid,
) -> Result<Certificate<D>, NoMemory>
    requires drawn { AreDrawn M.drawn graph.now }
    requires shapes { All IsShape graph.now.shapes }
    requires apart_drawn { AreDrawn M.drawn apart.now.graph }
    requires apart_shapes { All IsShape apart.now.graph.shapes }
    ensures states { IfOk result (λ certificate. AreStates D.shape_of graph.now certificate.heads) }
    ensures accepted { IfOk result (λ certificate. IsAccepted M.allowed M.started D.holds D.shape_of program.now graph.now certificate.heads) }
{
    let plan = plan_of(alloc, graph)?;
    let setting = Setting {
        alloc,
        graph,
        apart,
        plan: &plan,
    };
    let mut labels = no_labels(&setting)?;
    let start = begin(&setting, images, program, &mut labels)?;
    let risen = rise(&setting, images, grid, &mut labels, &start)?;
    let risen = narrowed(&setting, images, &mut labels, &start, risen, 3)?;
    accepted(alloc, images, program, graph, states_of(&setting, &risen)?)
}
