// The choice of sum counters.
ghost use Rattle.std.specs.Prelude.{◌≡◌, All, IfOk, OnOk};
ghost use Rattle.wm_domain.specs.States.{IsShape};
ghost use Rattle.wm_walk.specs.Graphs.{AreDrawn, AreStates};

use crate::totals::{Totals, add_edges, no_totals, sums_of};
use std::alloc::Global;
use wm_accept::{Watcher, walk};
use wm_certificate::Certificate;
use wm_domain::Domain;
use wm_flow::{Graph, Sum, Tables};
use wm_growths::{Step, steps_of};
use wm_images::Images;
use wm_ops::{List, NoMemory};
use wm_program::Program;
use wm_seats::tables_of;
use wm_stops::edges_from;

/// What the steps by the labels that were shown add up to.
#[derive(Drop)]
struct Adding {
    tables: Tables,
    /// By site.
    steps: Vec<Option<Step>>,
    totals: Totals,
    /// The number of the first edge that leads from no node that was shown.
    start: usize,
}

impl<D: Domain> Watcher<D> for Adding {
    ghost next = { λ _ _. Unit {0} };

    ghost saw = { λ _ _ _ _. Unit {0} };

    fn see(
        &mut self,
        _alloc: Global,
        program: &Program,
        graph: &Graph,
        node: u32,
        label: &D,
    ) -> Result<(), NoMemory> {
        let edges = edges_from(graph.edges.items(), self.start, node);
        self.start = match self.start.checked_add(edges.len()) {
            None => return Err(NoMemory),
            Some(start) => start,
        };
        add_edges(
            program,
            graph,
            &self.tables,
            self.steps.as_slice(),
            node,
            edges,
            label,
            &mut self.totals,
        )
    }
}

/// The sum counters that are chosen for a program: by head the first four accumulators of its loop, in the order of the group, whose
/// steps add up to a number from 1 to 2147483647. An accumulator of an innermost loop is a scalar of the group that an operator on
/// it steps in the loop's body; each step adds the greatest size of what the operator adds by the label before it.
///
/// The graph has no sum counters, and the certificate is accepted.
pub fn choose_sums<D: Domain, M: Images<D>>(
    alloc: Global,
    images: &M,
    program: &Program,
    graph: &Graph,
    certificate: &Certificate<D>,
) -> Result<List<Sum>, NoMemory>
    requires drawn { AreDrawn M.drawn graph.now }
    requires shapes { All IsShape graph.now.shapes }
    requires states { AreStates D.shape_of graph.now certificate.now.heads }
{
    let tables = tables_of(alloc, program)?;
    let heads = tables.heads;
    let mut adding = Adding {
        tables,
        steps: steps_of(alloc, program)?,
        totals: no_totals(alloc, heads)?,
        start: 0,
    };
    let mut live = Vec::new(alloc);
    let gap = walk(
        alloc,
        images,
        program,
        graph,
        certificate.heads.items(),
        live.as_mut_slice(),
        &mut adding,
    )?;
    match gap {
        Some(_gap) => Err(NoMemory),
        None => sums_of(alloc, &adding.totals, heads),
    }
}
