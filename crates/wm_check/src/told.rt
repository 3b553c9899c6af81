// What an accepted certificate tells of a graph.
ghost use Rattle.std.specs.Prelude.{◌≡◌, All, IfOk};
ghost use Rattle.wm_domain.specs.States.{IsShape};
ghost use Rattle.wm_walk.specs.Graphs.{AreDrawn, AreStates};
ghost use Rattle.wm_check.specs.Found.{AreFacts};

use crate::turning::turns_by_head;
use crate::watching::{Outcome, watched};
use std::alloc::Global;
use wm_certificate::Certificate;
use wm_domain::Domain;
use wm_flow::{Facts, Graph};
use wm_images::Images;
use wm_ops::{List, NoMemory};
use wm_program::Program;
use wm_seats::tables_of;

fn listed(alloc: Global, marks: &[bool]) -> Result<List<bool>, NoMemory>
    ensures { IfOk result (λ list. list ≡ marks.now) }
{
    let mut list = List::new(alloc);
    for mark in marks {
        list.push(*mark)?;
    }
    Ok(list)
}

/// The turns of each head, whether the image along each edge has a point, and whether a run may stop at each node, by an accepted
/// certificate. `NoMemory`: memory ran out, or the certificate is not accepted.
pub fn facts<D: Domain, M: Images<D>>(
    alloc: Global,
    images: &M,
    program: &Program,
    graph: &Graph,
    certificate: &Certificate<D>,
) -> Result<Facts, NoMemory>
    requires drawn { AreDrawn M.drawn graph.now }
    requires shapes { All IsShape graph.now.shapes }
    requires states { AreStates D.shape_of graph.now certificate.now.heads }
    ensures facts { IfOk result (λ facts. AreFacts M.allowed M.started D.holds D.shape_of program.now graph.now certificate.now.heads facts) }
{
    let tables = tables_of(alloc, program)?;
    let states = certificate.heads.items();
    match watched(alloc, images, program, graph, tables.counts.arrays, states)? {
        Outcome::Gap(_gap) => Err(NoMemory),
        Outcome::Accepted(told) => {
            let turns = turns_by_head(alloc, graph, states)?;
            let live = listed(alloc, told.live.as_slice())?;
            let stops = listed(alloc, told.stops.as_slice())?;
            Ok(Facts { turns, live, stops })
        }
    }
}
